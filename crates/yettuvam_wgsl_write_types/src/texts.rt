// What was written before.
ghost use Rattle.std.specs.Prelude.{◌≡◌, map};
ghost use Rattle.yettuvam_wgsl_pieces.specs.Pieces.{piece_of};
ghost use Rattle.yettuvam_wgsl_write_types.specs.Texts as spec;
ghost use Rattle.yettuvam_wgsl_write_types.specs.Texts.{texts_of};
ghost use Rattle.yettuvam_wgsl_written.specs.Outcomes.{Puts};

use naga_oil_ir::Span;
use yettuvam_wgsl_pieces::Piece;
use yettuvam_wgsl_written::{Refusal, WriteResult};

/// Appends how the type at a place is written.
///
/// # Errors
/// `NotInWgsl` if there is none, `Memory` if out of memory.
pub fn push_text<'m>(
    out: &mut Vec<Piece<'m>>,
    types: &[Vec<Piece<'m>>],
    place: usize,
    span: Span,
) -> WriteResult<()>
    ensures { Puts (spec.text_at (texts_of types.now) place span) result (map piece_of out.old.items) (map piece_of out.new.items) }
{
    match types.get(place) {
        Some(pieces) => Ok(out.extend_from_slice(pieces)?),
        None => Err(Refusal::NotInWgsl(span)),
    }
}

/// Returns what holds at a place; nothing holds after the last.
pub fn is_set(told: &[bool], place: usize) -> bool
    ensures { result ≡ spec.is_set told.now place }
{
    match told.get(place) {
        Some(told) => *told,
        None => false,
    }
}
