// The lines of a text with their covered lines.
ghost use Rattle.std.specs.Prelude.{◌≡◌, ℕ, List, [], ◌∷◌, ◌+◌, ◌^◌, ◌<◌, ◌≤◌, length, All, IfOk, IfSome, MatchOption};
ghost use Rattle.std.specs.Str.Iter.{lines_rest};
ghost use Rattle.naga_oil_lines.specs.CoveredLines.{texts_left, covered_lines_left};
ghost use Rattle.naga_oil_conditions.specs.Line.{Line, placed, source_lines, next_place, end_place};
ghost use Rattle.naga_oil_conditions.specs.SourceView.{line_of};

use super::*;
use naga_oil_lines::comment_strip_iter::CommentReplaceIter;
use std::marker::Model;

/// A line without its end, its covered line, and the place of its first byte.
#[derive(Drop)]
pub struct SourceLine<'a> {
    pub offset: usize,
    pub text: &'a str,
    pub covered: CowStr<'a>,
}

/// The remaining lines of a text. Clauses see the lines, and the place where the first of them
/// begins.
#[derive(Drop)]
pub struct SourceLines<'b, 'a> {
    lines: CommentReplaceIter<'b, 'a>,
    offset: usize,
    ghost room: { let rest = placed offset (texts_left lines) (covered_lines_left lines) in
        end_place offset rest ≤ 2 ^ 63 },
    ghost even: { let rest = placed offset (texts_left lines) (covered_lines_left lines) in
        All (λ l. length l.covered ≤ length l.text) rest },
}

impl<'b, 'a> Model for SourceLines<'b, 'a> {
    ghost use Rattle.naga_oil_lines.specs.CoveredLines.{texts_left, covered_lines_left};
    ghost use Rattle.naga_oil_conditions.specs.Line.{placed};
    ghost use Rattle.naga_oil_conditions.specs.SourceView.{Left};

    ghost Value = { Left };

    ghost view = { λ s. record {
      place = s.offset;
      left = placed s.offset (texts_left s.lines) (covered_lines_left s.lines);
    } };
}

// The place where the next line begins, or would begin.
fn next_place(offset: usize, text: &str) -> usize
    requires { offset + (length text.now + 1) < 2 ^ 64 }
    ensures { result ≡ next_place offset text.now }
{
    offset + text.len() + 1
}

impl<'b, 'a> SourceLines<'b, 'a> {
    pub fn new(alloc: Global, lines: &'b mut Lines<'a>) -> SourceLines<'b, 'a>
        ensures { result ≡ record { place = 0; left = source_lines (lines_rest lines.old) } }
    {
        SourceLines {
            lines: lines.replace_comments(alloc),
            offset: 0,
        }
    }

    /// The place where the next line begins, or would begin.
    pub fn offset(&self) -> usize
        ensures { result ≡ self.now.place }
    {
        self.offset
    }

    pub fn next(&mut self) -> Result<Option<SourceLine<'a>>, AllocError>
        ensures steps { let rest = self.new.left in
            IfOk result (λ r. MatchOption r ((self.old.left ≡ []) × (rest ≡ []))
            (λ line. self.old.left ≡ line_of line ∷ rest)) }
        ensures place { IfOk result (λ r. MatchOption r (self.new.place ≡ self.old.place)
            (λ line. self.new.place ≡ next_place self.old.place line.text.now)) }
        ensures even { IfOk result (λ r.
            IfSome r (λ line. length (line_of line).covered ≤ length line.text.now)) }
        ensures at { IfOk result (λ r. IfSome r (λ line. line.offset ≡ self.old.place)) }
        ensures room { IfOk result (λ r. IfSome r (λ line. self.new.place ≤ 2 ^ 63)) }
    {
        let Some((text, covered)) = self.lines.next_line()? else {
            return Ok(None);
        };
        let offset = self.offset;
        self.offset = next_place(offset, text);
        Ok(Some(SourceLine {
            offset,
            text,
            covered,
        }))
    }
}
