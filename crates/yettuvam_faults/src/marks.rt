// The parts of a file that the report of an error marks.
ghost use Rattle.std.specs.Prelude.{◌≡◌, ◌++◌, IfOk, OnOk, map, option_map};
ghost use Rattle.std.specs.List.{flat_map};
ghost use Rattle.naga_oil_conditions.specs.View.{fault_of};
ghost use Rattle.naga_oil_ir.specs.Backend.{labels};
ghost use Rattle.yettuvam_faults.specs.LinesView.{part_view};
ghost use Rattle.yettuvam_faults.specs.Marks as spec;
ghost use Rattle.yettuvam_faults.specs.MarksView.{source_view};
ghost use Rattle.yettuvam_faults.specs.PlaceView.{place_view};
ghost use Rattle.yettuvam_report.specs.Report.{mark_of};

use crate::lines::{Part, in_file, index_of, nth_line, word_at};
use crate::open::open_line;
use crate::place::{Place, label, place_of, spans};
use naga_oil_ir::{SPAN_SHIFT, Span};
use naga_oil_lines::decorate::undecorate;
use naga_oil_pre::ComposerErrorInner as Inner;
use std::alloc::{AllocError, Global};
use yettuvam_report::Mark;

/// The file of an error, and the texts that were made of it, in which places of errors count.
#[derive(Clone, Copy)]
pub struct Source<'a> {
    /// What the report calls the file.
    pub path: &'a str,
    /// The text of the file.
    pub file: &'a str,
    /// The text as it is read, without its directives.
    pub cleaned: &'a str,
    /// The text after preprocessing.
    pub parsed: &'a str,
    /// The offset of `parsed` in the text that spans count in.
    pub offset: usize,
}

// A place that a span counts in, as a place of a text with an offset.
fn span_place(offset: usize, place: u32) -> usize
    ensures { result ≡ spec.span_place offset place }
{
    (place as usize % (1 << SPAN_SHIFT)).saturating_sub(offset)
}

// Whether a span lies in a text with an offset.
fn is_here(offset: usize, span: Span) -> bool
    ensures { result ≡ spec.is_here offset span }
{
    span.to_range().is_some() && offset <= span.start as usize % (1 << SPAN_SHIFT)
}

impl Source<'_> {
    fn line_part(self, index: usize) -> Part
        ensures { part_view result ≡ spec.line_part (source_view self.entry) index }
    {
        nth_line(self.file, index).whole()
    }

    fn span_part(self, span: Span) -> Option<Part>
        ensures { option_map part_view result ≡ spec.span_part (source_view self.entry) span }
    {
        let part = Part {
            start: span_place(self.offset, span.start),
            end: span_place(self.offset, span.end),
        };
        is_here(self.offset, span).then_some(in_file(self.file, self.parsed, part))
    }

    // The part of the file at a place.
    fn part(self, alloc: Global, place: Place) -> Result<Option<Part>, AllocError>
        ensures { let told = spec.part_in (source_view self.entry) (place_view place) in
            IfOk result (λ p. option_map part_view p ≡ told) }
    {
        Ok(match place {
            Place::Nowhere => None,
            Place::Bytes(start, end) => Some(Part { start, end }),
            Place::LineIndex(index) => Some(self.line_part(index)),
            Place::LineAt(at) => Some(self.line_part(index_of(self.cleaned, at))),
            Place::Open(end) => {
                let at = open_line(alloc, self.cleaned, end)?;
                Some(self.line_part(index_of(self.cleaned, at)))
            }
            Place::WordAt(at) => {
                Some(in_file(self.file, self.cleaned, word_at(self.cleaned, at)))
            }
            Place::Named(at) => Some(in_file(self.file, self.parsed, word_at(self.parsed, at))),
            Place::Item(span) => self.span_part(span),
        })
    }
}

// Adds the mark of a part, if there is one.
fn push_mark(
    alloc: Global,
    marks: &mut Vec<Mark>,
    part: Option<Part>,
    label: &str,
) -> Result<(), AllocError>
    ensures { let more = spec.mark_with label.now (option_map part_view part) in
        OnOk result (map mark_of marks.new.items ≡ map mark_of marks.old.items ++ more) }
{
    if let Some(part) = part {
        marks.push(Mark {
            start: part.start,
            end: part.end,
            label: String::from_str(alloc, label)?,
        })?;
    }
    Ok(())
}

// Adds the mark of a span, with an undecorated label.
fn push_span(
    alloc: Global,
    marks: &mut Vec<Mark>,
    source: Source<'_>,
    span: Span,
    label: &str,
) -> Result<(), AllocError>
    ensures { let more = spec.span_mark (source_view source.entry) (span, label.now) in
        OnOk result (map mark_of marks.new.items ≡ map mark_of marks.old.items ++ more) }
{
    let label = undecorate(alloc, label)?;
    push_mark(alloc, marks, source.span_part(span), label.as_str())
}

// Adds the marks of spans.
fn push_spans(
    alloc: Global,
    marks: &mut Vec<Mark>,
    source: Source<'_>,
    spans: &[(Span, String)],
) -> Result<(), AllocError>
    ensures { let more = flat_map (spec.span_mark (source_view source.entry)) (labels spans.now) in
        OnOk result (map mark_of marks.new.items ≡ map mark_of marks.old.items ++ more) }
{
    for (span, label) in spans {
        push_span(alloc, marks, source, *span, label.as_str())?;
    }
    Ok(())
}

/// The marks of an error.
#[tactic(auto, unfolding(crate::specs::Marks::marks_of))]
pub(crate) fn marks(
    alloc: Global,
    source: Source<'_>,
    inner: &Inner,
) -> Result<Vec<Mark>, AllocError>
    ensures { let told = spec.marks_of (source_view source.entry) (fault_of inner.now) in
        IfOk result (λ v. map mark_of v.items ≡ told) }
{
    let mut marks = Vec::new(alloc);
    let part = source.part(alloc, place_of(inner))?;
    push_mark(alloc, &mut marks, part, label(inner))?;
    push_spans(alloc, &mut marks, source, spans(inner))?;
    Ok(marks)
}
