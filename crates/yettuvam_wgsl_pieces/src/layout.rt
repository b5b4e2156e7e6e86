// What stands between two pieces.
ghost use Rattle.std.specs.Prelude.{◌≡◌, ◌++◌, ◌≤◌, OnOk, map, string_bytes};
ghost use Rattle.yettuvam_wgsl_pieces.specs.Layout as spec;
ghost use Rattle.yettuvam_wgsl_pieces.specs.Pieces.{piece_of};

use crate::piece::push_text;
use crate::{Piece, Sign};
use std::alloc::AllocError;

/// What stands between a piece and the next one.
#[derive(Clone, Copy, PartialEq, Eq, Debug)]
pub enum Gap {
    Nothing,
    Blank,
    /// The end of a line, and of a paragraph if no brace is open.
    Line,
    /// The end of a line inside a paragraph.
    Row,
}

/// The spaces before a line, for each open brace.
const INDENT: &str = "    ";
/// The most open braces that lines are indented for.
const MOST_DEPTH: usize = 256;

// Whether a line may end after a piece.
fn ends_line(piece: Piece<'_>) -> bool
    ensures { result ≡ spec.ends_line (piece_of piece.entry) }
{
    match piece {
        Piece::Sign(Sign::LeftBrace | Sign::RightBrace | Sign::Semicolon | Sign::MemberComma) =>
            true,
        _ => false,
    }
}

// Whether no blank stands after a piece.
fn is_tight_after(piece: Piece<'_>) -> bool
    ensures { result ≡ spec.is_tight_after (piece_of piece.entry) }
{
    match piece {
        Piece::Sign(
            Sign::At
            | Sign::LeftParen
            | Sign::LeftBracket
            | Sign::Dot
            | Sign::Not
            | Sign::Complement
            | Sign::Negate
            | Sign::AddressOf
            | Sign::Indirection
            | Sign::TemplateOpen,
        ) => true,
        _ => false,
    }
}

// Whether no blank stands before a piece.
fn is_tight_before(piece: Piece<'_>) -> bool
    ensures { result ≡ spec.is_tight_before (piece_of piece.entry) }
{
    match piece {
        Piece::Sign(
            Sign::Comma
            | Sign::MemberComma
            | Sign::Semicolon
            | Sign::HeadSemicolon
            | Sign::Colon
            | Sign::CaseColon
            | Sign::RightParen
            | Sign::LeftBracket
            | Sign::RightBracket
            | Sign::Dot
            | Sign::TemplateOpen
            | Sign::TemplateClose,
        ) => true,
        _ => false,
    }
}

// Whether a `(` after the piece begins arguments.
fn is_called(piece: Piece<'_>) -> bool
    ensures { result ≡ spec.is_called (piece_of piece.entry) }
{
    match piece {
        Piece::Word(_) | Piece::Sign(Sign::TemplateClose | Sign::DiagnosticWord) => true,
        _ => false,
    }
}

fn is_left_paren(piece: Piece<'_>) -> bool
    ensures { result ≡ spec.is_left_paren (piece_of piece.entry) }
{
    match piece {
        Piece::Sign(Sign::LeftParen) => true,
        _ => false,
    }
}

fn is_fn(piece: Piece<'_>) -> bool
    ensures { result ≡ spec.is_fn (piece_of piece.entry) }
{
    match piece {
        Piece::Sign(Sign::FnWord) => true,
        _ => false,
    }
}

// Whether a piece may be the last one of an attribute.
fn ends_attribute(piece: Piece<'_>) -> bool
    ensures { result ≡ spec.ends_attribute (piece_of piece.entry) }
{
    match piece {
        Piece::Word(_) | Piece::Sign(Sign::RightParen) => true,
        _ => false,
    }
}

fn is_negate(piece: Piece<'_>) -> bool
    ensures { result ≡ spec.is_negate (piece_of piece.entry) }
{
    match piece {
        Piece::Sign(Sign::Negate) => true,
        _ => false,
    }
}

fn is_left_brace(piece: Piece<'_>) -> bool
    ensures { result ≡ spec.is_left_brace (piece_of piece.entry) }
{
    match piece {
        Piece::Sign(Sign::LeftBrace) => true,
        _ => false,
    }
}

fn is_right_brace(piece: Piece<'_>) -> bool
    ensures { result ≡ spec.is_right_brace (piece_of piece.entry) }
{
    match piece {
        Piece::Sign(Sign::RightBrace) => true,
        _ => false,
    }
}

fn is_else(piece: Piece<'_>) -> bool
    ensures { result ≡ spec.is_else (piece_of piece.entry) }
{
    match piece {
        Piece::Sign(Sign::ElseWord) => true,
        _ => false,
    }
}

// What stands after a piece that may end a line.
fn line_gap(left: Piece<'_>, right: Piece<'_>) -> Gap
    ensures { result ≡ spec.line_gap (piece_of left.entry) (piece_of right.entry) }
{
    if is_left_brace(left) && is_right_brace(right) {
        Gap::Nothing
    } else if is_right_brace(left) && is_else(right) {
        Gap::Blank
    } else {
        Gap::Line
    }
}

// What stands after any other piece.
fn word_gap(left: Piece<'_>, right: Piece<'_>) -> Gap
    ensures { result ≡ spec.word_gap (piece_of left.entry) (piece_of right.entry) }
{
    if is_negate(left) && is_negate(right) {
        Gap::Blank
    } else if is_tight_after(left) || is_tight_before(right) {
        Gap::Nothing
    } else if is_called(left) && is_left_paren(right) {
        Gap::Nothing
    } else {
        Gap::Blank
    }
}

/// Returns what stands between two pieces.
pub fn gap_between(left: Piece<'_>, right: Piece<'_>) -> Gap
    ensures { result ≡ spec.gap_between (piece_of left.entry) (piece_of right.entry) }
{
    if ends_line(left) {
        line_gap(left, right)
    } else if ends_attribute(left) && is_fn(right) {
        Gap::Row
    } else {
        word_gap(left, right)
    }
}

// The number of open braces after a piece.
fn depth_after(depth: usize, piece: Piece<'_>) -> usize
    ensures { result ≡ spec.depth_after depth (piece_of piece.entry) }
{
    if is_left_brace(piece) {
        if depth < MOST_DEPTH { depth + 1 } else { depth }
    } else if is_right_brace(piece) {
        depth.saturating_sub(1)
    } else {
        depth
    }
}

#[tactic(auto, using(crate::proofs::Steps::indent_step))]
fn push_indent(out: &mut String, depth: usize) -> Result<(), AllocError>
    ensures { OnOk result (string_bytes out.new ≡ string_bytes out.old ++ spec.indent depth) }
{
    let mut rest = depth;
    while rest > 0 {
        out.push_str(INDENT)?;
        rest -= 1;
    }
    Ok(())
}

// Appends the end of a line, and the spaces before the next piece.
fn push_line(out: &mut String, depth: usize, next: Piece<'_>) -> Result<(), AllocError>
    ensures { OnOk result (string_bytes out.new ≡ string_bytes out.old ++ spec.line_text depth (piece_of next.entry)) }
{
    if depth == 0 {
        return out.push_str("\n\n");
    }
    out.push_str("\n")?;
    if is_right_brace(next) {
        push_indent(out, depth - 1)
    } else {
        push_indent(out, depth)
    }
}

fn push_gap(out: &mut String, depth: usize, gap: Gap, next: Piece<'_>) -> Result<(), AllocError>
    ensures { OnOk result (string_bytes out.new ≡ string_bytes out.old ++ spec.gap_text depth gap (piece_of next.entry)) }
{
    match gap {
        Gap::Nothing => Ok(()),
        Gap::Blank => out.push_str(" "),
        Gap::Line => push_line(out, depth, next),
        Gap::Row => out.push_str("\n"),
    }
}

// Appends what stands after a piece, before the next ones.
fn push_after(
    out: &mut String,
    depth: usize,
    piece: Piece<'_>,
    more: &[Piece<'_>],
) -> Result<(), AllocError>
    ensures { OnOk result (string_bytes out.new ≡ string_bytes out.old ++ spec.after depth (piece_of piece.entry) (map piece_of more.now)) }
{
    match more {
        [] => out.push_str("\n"),
        [next, ..] => push_gap(out, depth, gap_between(piece, *next), *next),
    }
}

/// Appends the text of pieces, and the end of the last line.
///
/// # Errors
/// If out of memory.
#[tactic(auto, unfolding(crate::specs::Layout::spell_from))]
pub fn spell(out: &mut String, pieces: &[Piece<'_>]) -> Result<(), AllocError>
    ensures { OnOk result (string_bytes out.new ≡ string_bytes out.old ++ spec.spell (map piece_of pieces.now)) }
{
    let mut depth = 0;
    let mut rest = pieces;
    while let [piece, more @ ..] = rest {
        push_text(out, *piece)?;
        depth = depth_after(depth, *piece);
        push_after(out, depth, *piece, more)?;
        rest = more;
    }
    Ok(())
}
