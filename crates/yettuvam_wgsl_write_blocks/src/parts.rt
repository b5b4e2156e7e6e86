// The statements of a text.
ghost use Rattle.std.specs.Prelude.{◌≡◌, IfOk, map};
ghost use Rattle.yettuvam_wgsl_pieces.specs.Pieces.{piece_of};
ghost use Rattle.yettuvam_wgsl_write_blocks.specs.Parts as spec;
ghost use Rattle.yettuvam_wgsl_write_blocks.specs.Parts.{part_of, parts_of};
ghost use Rattle.yettuvam_wgsl_write_items.specs.Text.{Adds};

use std::alloc::{AllocError, Global};
use yettuvam_wgsl_pieces::{Piece, Sign};

pub type Pieces<'m> = Vec<Piece<'m>>;

/// What a statement of the text is to the statements around it.
#[derive(Clone, Copy, PartialEq, Eq, Debug)]
pub enum PartKind {
    /// A declaration, which may begin the head of a `for`.
    Declaration,
    /// An assignment or a call, which may begin or end the head of a `for`.
    Update,
    Break,
    If,
    /// An `if` that does nothing, with `break` as its `else`.
    Guard,
    Block,
    /// A loop that is written as `while` or `for`.
    Loop,
    Other,
}

/// A statement of the text.
#[derive(Drop)]
pub struct Part<'m> {
    pub kind: PartKind,
    pub text: Pieces<'m>,
    /// Of a statement without blocks the text without its `;`, of an `if` its condition, and of a loop the head of its `for`
    /// from the first `;` on.
    pub head: Pieces<'m>,
    /// Of a block and of a loop: what stands in its braces.
    pub inside: Pieces<'m>,
}

// Appends pieces and `;`.
fn push_stopped<'m>(out: &mut Pieces<'m>, pieces: &[Piece<'m>]) -> Result<(), AllocError>
    ensures { Adds (spec.stopped (map piece_of pieces.now)) result out.old out.new }
{
    out.extend_from_slice(pieces)?;
    Ok(out.push(Piece::Sign(Sign::Semicolon))?)
}

/// Returns a statement without blocks, whose pieces have no `;` at the end.
///
/// # Errors
/// If out of memory.
pub fn simple_part<'m>(
    alloc: Global,
    kind: PartKind,
    pieces: Pieces<'m>,
) -> Result<Part<'m>, AllocError>
    ensures { IfOk result (λ p. part_of p ≡ spec.simple_part kind (map piece_of pieces.entry.items)) }
{
    let mut text = Vec::new(alloc);
    push_stopped(&mut text, &pieces)?;
    Ok(Part {
        kind,
        text,
        head: pieces,
        inside: Vec::new(alloc),
    })
}

/// Returns a statement of which the statements around it know the text alone.
pub fn other_part<'m>(alloc: Global, text: Pieces<'m>) -> Part<'m>
    ensures { part_of result ≡ spec.other_part (map piece_of text.entry.items) }
{
    Part {
        kind: PartKind::Other,
        text,
        head: Vec::new(alloc),
        inside: Vec::new(alloc),
    }
}

/// Appends the texts of statements.
///
/// # Errors
/// If out of memory.
pub fn push_parts<'m>(out: &mut Pieces<'m>, parts: &[Part<'m>]) -> Result<(), AllocError>
    ensures { Adds (spec.texts (parts_of parts.now)) result out.old out.new }
{
    let mut rest = parts;
    while let [part, more @ ..] = rest {
        out.extend_from_slice(&part.text)?;
        rest = more;
    }
    Ok(())
}

/// Appends pieces in braces.
///
/// # Errors
/// If out of memory.
pub fn push_braced<'m>(out: &mut Pieces<'m>, pieces: &[Piece<'m>]) -> Result<(), AllocError>
    ensures { Adds (spec.braced (map piece_of pieces.now)) result out.old out.new }
{
    out.push(Piece::Sign(Sign::LeftBrace))?;
    out.extend_from_slice(pieces)?;
    Ok(out.push(Piece::Sign(Sign::RightBrace))?)
}

/// Appends statements in braces.
///
/// # Errors
/// If out of memory.
pub fn push_block<'m>(out: &mut Pieces<'m>, parts: &[Part<'m>]) -> Result<(), AllocError>
    ensures { Adds (spec.block_text (parts_of parts.now)) result out.old out.new }
{
    out.push(Piece::Sign(Sign::LeftBrace))?;
    push_parts(out, parts)?;
    Ok(out.push(Piece::Sign(Sign::RightBrace))?)
}

/// Returns the texts of statements.
///
/// # Errors
/// If out of memory.
pub fn texts<'m>(alloc: Global, parts: &[Part<'m>]) -> Result<Pieces<'m>, AllocError>
    ensures { IfOk result (λ v. map piece_of v.items ≡ spec.texts (parts_of parts.now)) }
{
    let mut out = Vec::new(alloc);
    push_parts(&mut out, parts)?;
    Ok(out)
}
