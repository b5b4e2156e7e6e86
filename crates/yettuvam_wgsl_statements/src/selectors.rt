//! The selectors of a switch.
ghost use Rattle.std.specs.Prelude.{◌≡◌, ◌++◌, OnOk, map};
ghost use Rattle.yettuvam_wgsl_pieces.specs.Pieces.{piece_of};
ghost use Rattle.yettuvam_wgsl_statements.specs.Selectors as spec;
ghost use Rattle.yettuvam_wgsl_written.specs.Outcomes.{Puts};

use naga_oil_ir::Span;
use std::alloc::AllocError;
use yettuvam_wgsl_names::form_codes::{
    DEFAULT_SELECTOR, I32_LITERAL, I32_SELECTOR, INTEGER_LITERAL, INTEGER_SELECTOR,
    NEGATIVE_SELECTOR, SELECTOR_CLASS_UNIT, U32_LITERAL, U32_SELECTOR,
};
use yettuvam_wgsl_pieces::{Piece, Sign};
use yettuvam_wgsl_written::{Refusal, WriteResult};

/// The magnitude of the least `i32`, and the first 32 bits that mean a negative one.
pub const LEAST_I32: u64 = 2_147_483_648;

// Appends a literal.
fn push_literal(out: &mut Vec<Piece<'_>>, kind: u64, bits: u64) -> Result<(), AllocError>
    ensures { OnOk result (map piece_of out.new.items ≡ map piece_of out.old.items ++ spec.literal kind bits) }
{
    Ok(out.push(Piece::Literal { kind, bits })?)
}

// Appends the negative number of 32 bits, which aren't all 0.
#[tactic(auto, unfolding(crate::specs::Selectors::negative))]
fn push_negative(out: &mut Vec<Piece<'_>>, kind: u64, bits: u64) -> Result<(), AllocError>
    ensures { OnOk result (map piece_of out.new.items ≡ map piece_of out.old.items ++ spec.negative kind bits) }
{
    out.push(Piece::Sign(Sign::Negate))?;
    push_literal(out, kind, SELECTOR_CLASS_UNIT.saturating_sub(bits))
}

// Appends the least `i32`, which isn't the negation of an `i32`.
#[tactic(auto, unfolding(crate::specs::Selectors::least_i32))]
fn push_least_i32(out: &mut Vec<Piece<'_>>) -> Result<(), AllocError>
    ensures { OnOk result (map piece_of out.new.items ≡ map piece_of out.old.items ++ spec.least_i32) }
{
    out.push(Piece::Word("i32"))?;
    out.push(Piece::Sign(Sign::LeftParen))?;
    push_negative(out, INTEGER_LITERAL, LEAST_I32)?;
    Ok(out.push(Piece::Sign(Sign::RightParen))?)
}

// Appends the `i32` of 32 bits.
#[tactic(auto, unfolding(crate::specs::Selectors::signed))]
fn push_signed(out: &mut Vec<Piece<'_>>, bits: u64) -> Result<(), AllocError>
    ensures { OnOk result (map piece_of out.new.items ≡ map piece_of out.old.items ++ spec.signed bits) }
{
    if bits < LEAST_I32 {
        push_literal(out, I32_LITERAL, bits)
    } else if bits == LEAST_I32 {
        push_least_i32(out)
    } else {
        push_negative(out, I32_LITERAL, bits)
    }
}

// Appends the selector of a class with 32 bits.
#[tactic(auto, unfolding(crate::specs::Selectors::selector_of))]
fn push_selector_of(out: &mut Vec<Piece<'_>>, class: u64, bits: u64, span: Span) -> WriteResult<()>
    ensures { Puts (spec.selector_of class bits span) result (map piece_of out.old.items) (map piece_of out.new.items) }
{
    if class == DEFAULT_SELECTOR {
        return Ok(out.push(Piece::Sign(Sign::DefaultWord))?);
    }
    if class == INTEGER_SELECTOR {
        return Ok(push_literal(out, INTEGER_LITERAL, bits)?);
    }
    if class == NEGATIVE_SELECTOR && bits != 0 {
        return Ok(push_negative(out, INTEGER_LITERAL, bits)?);
    }
    if class == I32_SELECTOR {
        return Ok(push_signed(out, bits)?);
    }
    if class == U32_SELECTOR {
        return Ok(push_literal(out, U32_LITERAL, bits)?);
    }
    Err(Refusal::NotInWgsl(span))
}

/// Appends the selector of an arm of a switch, from its code.
///
/// # Errors
/// `NotInWgsl` with the span if no selector has the code, `Memory` if out of memory.
pub fn push_selector(out: &mut Vec<Piece<'_>>, value: u64, span: Span) -> WriteResult<()>
    ensures { Puts (spec.selector value span) result (map piece_of out.old.items) (map piece_of out.new.items) }
{
    let class = value / SELECTOR_CLASS_UNIT;
    push_selector_of(out, class, value % SELECTOR_CLASS_UNIT, span)
}
