// The lines of a text, and the part of a file's line that a part of another text's line comes from.
ghost use Rattle.std.specs.Prelude.{◌≡◌, ◌+◌, ◌^◌, ◌<◌, ◌≤◌, length};
ghost use Rattle.yettuvam_faults.specs.Lines as spec;
ghost use Rattle.yettuvam_faults.specs.LinesView.{common_view, line_view, part_view};

use yettuvam_report::text_before;

// A line: the place of its first byte, and its text without white space at its end.
#[derive(Clone, Copy)]
pub(crate) struct Line<'a> {
    pub(crate) start: usize,
    pub(crate) text: &'a str,
}

// The bytes of a text from a start to an end.
#[derive(Clone, Copy)]
pub(crate) struct Part {
    pub(crate) start: usize,
    pub(crate) end: usize,
}

// The numbers of bytes that two lines have in common at their front, and at their end after that.
#[derive(Clone, Copy)]
struct Common {
    front: usize,
    back: usize,
}

// The number of line ends before a place.
pub(crate) fn index_of(text: &str, at: usize) -> usize
    ensures { result ≡ spec.index_of text.now at }
{
    let before = text_before(text, at);
    before.as_bytes().iter().filter(|b| **b == b'\n').count()
}

// The text after the first line, or the text itself if it is one line.
fn next_line(text: &str) -> &str
    ensures value { result.now ≡ spec.next_line text.now }
    ensures shorter { length result.now ≤ length text.now }
{
    match text.split_once('\n') {
        Some((_line, more)) => more,
        None => text,
    }
}

// The first line of a text.
fn first_line(text: &str) -> &str
    ensures value { result.now ≡ spec.first_line text.now }
    ensures shorter { length result.now ≤ length text.now }
{
    match text.split_once('\n') {
        Some((line, _more)) => line,
        None => text,
    }
}

// The text from a line on, by its index from 0, or from the last line on.
fn from_line(text: &str, index: usize) -> &str
    ensures value { result.now ≡ spec.from_line index text.now }
    ensures shorter { length result.now ≤ length text.now }
{
    let mut rest = text;
    for _passed in 0..index {
        rest = next_line(rest);
    }
    rest
}

// The line with an index from 0, or the last line.
pub(crate) fn nth_line(text: &str, index: usize) -> Line<'_>
    ensures value { line_view result ≡ spec.nth_line text.now index }
    ensures fits { result.start + length result.text.now < 2 ^ 64 }
{
    let rest = from_line(text, index);
    Line {
        start: text.len() - rest.len(),
        text: first_line(rest).trim_end(),
    }
}

// The number of bytes that two texts have in common at their front.
fn common_front(a: &[u8], b: &[u8]) -> usize
    ensures value { result ≡ spec.common_front a.now b.now }
    ensures within { (result ≤ length a.now) × (result ≤ length b.now) }
{
    let len = a.len().min(b.len());
    for i in 0..len {
        if a[i] != b[i] {
            return i;
        }
    }
    len
}

// The number of bytes that two texts have in common at their end.
fn common_back(a: &[u8], b: &[u8]) -> usize
    ensures { result ≡ spec.common_back a.now b.now }
{
    let len = a.len().min(b.len());
    for i in 0..len {
        if a[a.len() - 1 - i] != b[b.len() - 1 - i] {
            return i;
        }
    }
    len
}

fn common_to(a: &[u8], b: &[u8]) -> Common
    ensures value { common_view result ≡ spec.common a.now b.now }
    ensures within { result.front ≤ length a.now }
{
    let front = common_front(a, b);
    Common {
        front,
        back: common_back(&a[front..], &b[front..]),
    }
}

// A place in a line if a character begins there or the line ends there, or else another place.
fn on_boundary(text: &str, at: usize, other: usize) -> usize
    ensures { result ≡ spec.on_boundary text.now at other }
{
    if text.is_char_boundary(at) { at } else { other }
}

// Where a part begins in a line of this length that a line of another length comes from.
fn begin_in(ours: usize, theirs: usize, common: Common, at: usize) -> usize
    ensures { result ≡ spec.begin_in ours theirs (common_view common) at }
{
    if at <= common.front {
        at
    } else if theirs.saturating_sub(at) <= common.back {
        ours.saturating_sub(theirs.saturating_sub(at))
    } else {
        common.front
    }
}

// Where a part ends in a line of this length that a line of another length comes from.
fn end_in(ours: usize, theirs: usize, common: Common, at: usize) -> usize
    ensures { result ≡ spec.end_in ours theirs (common_view common) at }
{
    if at <= common.front {
        at
    } else if theirs.saturating_sub(at) <= common.back {
        ours.saturating_sub(theirs.saturating_sub(at))
    } else {
        ours.saturating_sub(common.back)
    }
}

impl Line<'_> {
    // The line without white space before it.
    pub(crate) fn whole(self) -> Part
        requires { self.start + length self.text.now < 2 ^ 64 }
        ensures { part_view result ≡ spec.whole_line (line_view self.entry) }
    {
        let end = self.start + self.text.len();
        Part {
            start: end.saturating_sub(self.text.trim_start().len()),
            end,
        }
    }

    // The part of the line that a part of a line comes from which was made of it.
    fn part_of(self, theirs: &str, start: usize, end: usize) -> Part
        requires { self.start + length self.text.now < 2 ^ 64 }
        ensures { part_view result ≡ spec.part_of (line_view self.entry) theirs.now start end }
    {
        let len = self.text.len();
        let common = common_to(self.text.as_bytes(), theirs.as_bytes());
        let begin = begin_in(len, theirs.len(), common, start);
        let finish = end_in(len, theirs.len(), common, end);
        Part {
            start: self.start + on_boundary(self.text, begin, 0),
            end: self.start + on_boundary(self.text, finish, len),
        }
    }
}

// The part of a file that a part of a text comes from which has the file's lines.
#[tactic(auto, unfolding(crate::specs::Lines::in_file))]
pub(crate) fn in_file(file: &str, text: &str, part: Part) -> Part
    ensures { part_view result ≡ spec.in_file file.now text.now (part_view part) }
{
    let index = index_of(text, part.start);
    let theirs = nth_line(text, index);
    let start = part.start.saturating_sub(theirs.start);
    let end = part.end.saturating_sub(theirs.start);
    nth_line(file, index).part_of(theirs.text, start, end)
}

fn is_path_byte(byte: u8) -> bool
    ensures { result ≡ spec.is_path_byte byte }
{
    byte.is_ascii_alphanumeric() || byte == b'_' || byte == b':' || byte >= 128
}

fn path_len(bytes: &[u8]) -> usize
    ensures value { result ≡ spec.path_len bytes.now }
    ensures within { result ≤ length bytes.now }
{
    bytes.iter().take_while(|b| is_path_byte(**b)).count()
}

// The word at a place: letters, digits, `_` and `:`.
pub(crate) fn word_at(text: &str, at: usize) -> Part
    ensures { part_view result ≡ spec.word_at text.now at }
{
    let start = text_before(text, at).len();
    Part {
        start,
        end: start + path_len(&text.as_bytes()[start..]),
    }
}
