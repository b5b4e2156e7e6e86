// Blocks, and `if` with its `else`.
ghost use Rattle.std.specs.Prelude.{◌≡◌, IfOk, map, option_map};
ghost use Rattle.yettuvam_wgsl_pieces.specs.Pieces.{piece_of};
ghost use Rattle.yettuvam_wgsl_write_blocks.specs.Branches as spec;
ghost use Rattle.yettuvam_wgsl_write_blocks.specs.Parts.{part_of, parts_of};
ghost use Rattle.yettuvam_wgsl_write_items.specs.Text.{Adds};

use crate::parts::{Part, PartKind, Pieces, push_block};
use std::alloc::{AllocError, Global};
use yettuvam_wgsl_pieces::{Piece, Sign};

fn is_if(kind: PartKind) -> bool
    ensures { result ≡ spec.is_if kind }
{
    match kind {
        PartKind::If | PartKind::Guard => true,
        _ => false,
    }
}

fn is_break(kind: PartKind) -> bool
    ensures { result ≡ spec.is_break kind }
{
    match kind {
        PartKind::Break => true,
        _ => false,
    }
}

// The `if` that is alone in a block.
fn only_if<'p, 'm>(parts: &'p [Part<'m>]) -> Option<&'p Part<'m>>
    ensures { option_map (λ p. part_of p.now) result ≡ spec.only_if (parts_of parts.now) }
{
    match parts {
        [part] => { if is_if(part.kind) { Some(part) } else { None } }
        _ => None,
    }
}

// Appends what follows `else`: an `if`, or a block.
fn push_alternative<'m>(out: &mut Pieces<'m>, reject: &[Part<'m>]) -> Result<(), AllocError>
    ensures { Adds (spec.alternative (parts_of reject.now)) result out.old out.new }
{
    match only_if(reject) {
        Some(part) => Ok(out.extend_from_slice(&part.text)?),
        None => push_block(out, reject),
    }
}

fn push_else<'m>(out: &mut Pieces<'m>, reject: &[Part<'m>]) -> Result<(), AllocError>
    ensures { Adds (spec.else_text (parts_of reject.now)) result out.old out.new }
{
    match reject {
        [] => Ok(()),
        [_, ..] => {
            out.push(Piece::Sign(Sign::ElseWord))?;
            push_alternative(out, reject)
        }
    }
}

#[tactic(auto, unfolding(crate::specs::Branches::if_text))]
fn push_if<'m>(
    out: &mut Pieces<'m>,
    condition: &[Piece<'m>],
    accept: &[Part<'m>],
    reject: &[Part<'m>],
) -> Result<(), AllocError>
    ensures { Adds (spec.if_text (map piece_of condition.now) (parts_of accept.now) (parts_of reject.now)) result out.old out.new }
{
    out.push(Piece::Sign(Sign::IfWord))?;
    out.extend_from_slice(condition)?;
    push_block(out, accept)?;
    push_else(out, reject)
}

fn is_only_break(parts: &[Part<'_>]) -> bool
    ensures { result ≡ spec.is_only_break (parts_of parts.now) }
{
    match parts {
        [part] => is_break(part.kind),
        _ => false,
    }
}

// What an `if` is: a guard if it leaves the loop, and does nothing else.
fn if_kind(accept: &[Part<'_>], reject: &[Part<'_>]) -> PartKind
    ensures { result ≡ spec.if_kind (parts_of accept.now) (parts_of reject.now) }
{
    match accept {
        [] => {
            if is_only_break(reject) {
                PartKind::Guard
            } else {
                PartKind::If
            }
        }
        [_, ..] => PartKind::If,
    }
}

/// Returns an `if` of a condition and two blocks.
///
/// # Errors
/// If out of memory.
#[tactic(auto, unfolding(crate::specs::Branches::if_part))]
pub fn if_part<'m>(
    alloc: Global,
    condition: Pieces<'m>,
    accept: &[Part<'m>],
    reject: &[Part<'m>],
) -> Result<Part<'m>, AllocError>
    ensures { IfOk result (λ p. part_of p ≡ spec.if_part (map piece_of condition.entry.items) (parts_of accept.now) (parts_of reject.now)) }
{
    let mut text = Vec::new(alloc);
    push_if(&mut text, &condition, accept, reject)?;
    Ok(Part {
        kind: if_kind(accept, reject),
        text,
        head: condition,
        inside: Vec::new(alloc),
    })
}
