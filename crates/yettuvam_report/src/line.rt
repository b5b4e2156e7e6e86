// The line that a mark stands in.
ghost use Rattle.std.specs.Prelude.{◌≡◌, length, chars};
ghost use Rattle.yettuvam_report.specs.Line.{cut, first_line, last_of, line_at, line_view, lines_of, text_before};

// A line, by its number from 1: its text before a mark, in the mark and after the mark.
#[derive(Clone, Copy)]
pub(crate) struct Line<'a> {
    pub(crate) number: usize,
    pub(crate) front: &'a str,
    pub(crate) marked: &'a str,
    pub(crate) after: &'a str,
}

// The texts before and after a place.
fn cut(text: &str, at: usize) -> (&str, &str)
    ensures { (result.0.now, result.1.now) ≡ cut text.now at }
{
    match text.split_at_checked(at) {
        Some((before, after)) => (before, after),
        None => (text, ""),
    }
}

/// Returns the text before a place. A place after the end, or within a character, counts as the end.
pub fn text_before(text: &str, at: usize) -> &str
    ensures { result.now ≡ text_before text.now at }
{
    let (before, _) = cut(text, at);
    before
}

// The first line of a text, without its end.
fn first_line(text: &str) -> &str
    ensures { result.now ≡ first_line text.now }
{
    match text.split_once('\n') {
        Some((line, _rest)) => line.strip_suffix('\r').unwrap_or(line),
        None => text,
    }
}

// The number of lines of a text, and the last of them.
fn last_line(text: &str) -> (usize, &str)
    ensures number { result.0 ≡ length (lines_of text.now) }
    ensures last { result.1.now ≡ last_of (lines_of text.now) }
{
    let mut number = 1;
    let mut rest = text;
    while let Some((_line, more)) = rest.split_once('\n') {
        number += 1;
        rest = more;
    }
    (number, rest)
}

// The line of the bytes from a start to an end.
pub(crate) fn line_at(text: &str, start: usize, end: usize) -> Line<'_>
    ensures { line_view result ≡ line_at text.now start end }
{
    let (before, from) = cut(text, start);
    let (number, front) = last_line(before);
    let (marked, after) = cut(first_line(from), end.saturating_sub(start));
    Line {
        number,
        front,
        marked,
        after,
    }
}

// The number of characters of a text.
pub(crate) fn width(text: &str) -> usize
    ensures { result ≡ length (chars text.now) }
{
    text.chars().count()
}
