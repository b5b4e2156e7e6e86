// The text of a report.
ghost use Rattle.std.specs.Prelude.{◌≡◌, ◌+◌, ◌++◌, IfOk, OnOk, length, map, replicate, string_bytes};
ghost use Rattle.std.specs.Fmt.{decimal};
ghost use Rattle.std.specs.List.{flat_map};
ghost use Rattle.yettuvam_report.specs.Line.{line_view};
ghost use Rattle.yettuvam_report.specs.Report as spec;
ghost use Rattle.yettuvam_report.specs.Report.{mark_of};

use crate::line::{Line, line_at, width};
use naga_oil_lines::text::{push_spaces, split_first_char};
use std::alloc::{AllocError, Global};

/// A part of a text, from its first byte to the byte after its last, and what is said of it.
#[derive(Debug, Drop)]
pub struct Mark {
    pub start: usize,
    pub end: usize,
    pub label: String,
}

// Writes a text with a space for each control character.
fn push_shown(out: &mut String, text: &str) -> Result<(), AllocError>
    ensures { OnOk result (string_bytes out.new ≡ string_bytes out.old ++ spec.shown text.now) }
{
    let mut rest = text;
    while let Some((first, more)) = split_first_char(rest) {
        out.push(if first.is_ascii_control() { ' ' } else { first })?;
        rest = more;
    }
    Ok(())
}

// Writes `^` a number of times.
fn push_carets(out: &mut String, count: usize) -> Result<(), AllocError>
    ensures { OnOk result (string_bytes out.new ≡ string_bytes out.old ++ replicate count 94) }
{
    for _done in 0..count {
        out.push('^')?;
    }
    Ok(())
}

// Writes what is said of a mark after a space, if there is something, and ends the line.
fn push_label(out: &mut String, label: &str) -> Result<(), AllocError>
    ensures { OnOk result (string_bytes out.new ≡ string_bytes out.old ++ spec.label_end label.now) }
{
    if !label.is_empty() {
        out.push(' ')?;
        out.push_str(label)?;
    }
    out.push('\n')
}

// Writes the line of a path alone.
fn push_path(out: &mut String, gutter: usize, path: &str) -> Result<(), AllocError>
    ensures { let line = spec.path_line gutter path.now in
        OnOk result (string_bytes out.new ≡ string_bytes out.old ++ line) }
{
    push_spaces(out, gutter)?;
    write!(out, "--> {path}\n")
}

impl Line<'_> {
    // Writes the place of a mark.
    fn push_place(self, out: &mut String, gutter: usize, path: &str) -> Result<(), AllocError>
        ensures { let line = spec.place_line gutter path.now (line_view self.entry) in
            OnOk result (string_bytes out.new ≡ string_bytes out.old ++ line) }
    {
        let column = width(self.front) as u128 + 1;
        push_spaces(out, gutter)?;
        write!(out, "--> {path}:{}:{column}\n", self.number)
    }

    // Writes the number of the line.
    fn push_number(self, alloc: Global, out: &mut String, gutter: usize) -> Result<(), AllocError>
        ensures { let front = spec.number_front gutter self.entry.number in
            OnOk result (string_bytes out.new ≡ string_bytes out.old ++ front) }
    {
        let number = format!(in alloc; "{}", self.number)?;
        push_spaces(out, gutter.saturating_sub(number.len()))?;
        out.push_str(number.as_str())?;
        out.push_str(" | ")
    }

    // Writes the text of the line.
    fn push_text(self, out: &mut String) -> Result<(), AllocError>
        ensures { let text = spec.shown_line (line_view self.entry) in
            OnOk result (string_bytes out.new ≡ string_bytes out.old ++ text) }
    {
        push_shown(out, self.front)?;
        push_shown(out, self.marked)?;
        push_shown(out, self.after)?;
        out.push_str("\n")
    }

    // Writes `^` under the marked part, and the label.
    fn push_mark(self, out: &mut String, gutter: usize, label: &str) -> Result<(), AllocError>
        ensures { let line = spec.mark_line gutter (line_view self.entry) label.now in
            OnOk result (string_bytes out.new ≡ string_bytes out.old ++ line) }
    {
        push_spaces(out, gutter)?;
        out.push_str(" | ")?;
        push_spaces(out, width(self.front))?;
        push_carets(out, width(self.marked).max(1))?;
        push_label(out, label)
    }
}

// Writes an empty line of the gutter.
fn push_bar(out: &mut String, gutter: usize) -> Result<(), AllocError>
    ensures { let line = spec.bar_line gutter in
        OnOk result (string_bytes out.new ≡ string_bytes out.old ++ line) }
{
    push_spaces(out, gutter)?;
    out.push_str(" |\n")
}

// Writes a mark: its place, its line, and `^` under its part of the line.
fn push_excerpt(
    alloc: Global,
    out: &mut String,
    gutter: usize,
    path: &str,
    text: &str,
    mark: &Mark,
) -> Result<(), AllocError>
    ensures { let lines = spec.excerpt gutter path.now text.now (mark_of mark.now) in
        OnOk result (string_bytes out.new ≡ string_bytes out.old ++ lines) }
{
    let line = line_at(text, mark.start, mark.end);
    line.push_place(out, gutter, path)?;
    push_bar(out, gutter)?;
    line.push_number(alloc, out, gutter)?;
    line.push_text(out)?;
    line.push_mark(out, gutter, mark.label.as_str())
}

// The width of a number and of a space before it.
fn number_width(alloc: Global, number: usize) -> Result<usize, AllocError>
    ensures { IfOk result (λ w. w ≡ length (decimal number) + 1) }
{
    let digits = format!(in alloc; "{number}")?;
    Ok(digits.len() + 1)
}

// The width of the gutter, in which the numbers of lines stand.
fn gutter(alloc: Global, text: &str, marks: &[Mark]) -> Result<usize, AllocError>
    ensures { IfOk result (λ w. w ≡ spec.gutter text.now (map mark_of marks.now)) }
{
    let mut widest = 2;
    let mut rest = marks;
    while let [mark, more @ ..] = rest {
        let line = line_at(text, mark.start, mark.end);
        widest = widest.max(number_width(alloc, line.number)?);
        rest = more;
    }
    Ok(widest)
}

// Writes the marks, or the path if there are none.
fn push_marks(
    alloc: Global,
    out: &mut String,
    gutter: usize,
    path: &str,
    text: &str,
    marks: &[Mark],
) -> Result<(), AllocError>
    ensures { let lines = spec.marks_lines gutter path.now text.now (map mark_of marks.now) in
        OnOk result (string_bytes out.new ≡ string_bytes out.old ++ lines) }
{
    if marks.is_empty() {
        return push_path(out, gutter, path);
    }
    for mark in marks {
        push_excerpt(alloc, out, gutter, path, text, mark)?;
    }
    Ok(())
}

// Writes a line for each note.
fn push_notes(out: &mut String, gutter: usize, notes: &[String]) -> Result<(), AllocError>
    ensures { let lines = flat_map (spec.note_line gutter) (map string_bytes notes.now) in
        OnOk result (string_bytes out.new ≡ string_bytes out.old ++ lines) }
{
    for note in notes {
        push_spaces(out, gutter)?;
        write!(out, " = note: {note}\n")?;
    }
    Ok(())
}

/// Returns the report of an error in the text of this path: the message; for each mark its place
/// (`PATH:LINE:COLUMN`, counted from 1, columns in characters), its line, and `^` under its part of
/// the line; or else the path alone; and a line for each note. A mark of several lines marks the
/// first to its end. A place after the end of the text counts as the end. Takes time linear in the
/// text for each mark.
#[tactic(auto, unfolding(crate::specs::Report::report))]
pub fn report(
    alloc: Global,
    message: &str,
    path: &str,
    text: &str,
    marks: &[Mark],
    notes: &[String],
) -> Result<String, AllocError>
    ensures { let marked = map mark_of marks.now in
        let told = spec.report message.now path.now text.now marked (map string_bytes notes.now) in
        IfOk result (λ t. string_bytes t ≡ told) }
{
    let gutter = gutter(alloc, text, marks)?;
    let mut out = String::from_str(alloc, "error: ")?;
    out.push_str(message)?;
    out.push('\n')?;
    push_marks(alloc, &mut out, gutter, path, text, marks)?;
    push_notes(&mut out, gutter, notes)?;
    Ok(out)
}
