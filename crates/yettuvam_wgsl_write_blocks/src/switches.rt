// The arms of a `switch`.
ghost use Rattle.std.specs.Prelude.{◌≡◌, map};
ghost use Rattle.yettuvam_wgsl_pieces.specs.Pieces.{piece_of};
ghost use Rattle.yettuvam_wgsl_write_blocks.specs.Parts.{parts_of};
ghost use Rattle.yettuvam_wgsl_write_blocks.specs.Switches as spec;
ghost use Rattle.yettuvam_wgsl_write_items.specs.Text.{Adds, Appends};

use crate::parts::{Part, Pieces, push_block};
use naga_oil_ir::Span;
use std::alloc::AllocError;
use yettuvam_wgsl_names::form_codes::{DEFAULT_SELECTOR, SELECTOR_CLASS_UNIT};
use yettuvam_wgsl_pieces::{Piece, Sign};
use yettuvam_wgsl_statements::push_selector;
use yettuvam_wgsl_written::WriteResult;

/// A selector of a `switch`, and whether it has the body of the next one.
#[derive(Clone, Copy, PartialEq, Eq, Debug)]
pub struct Selector {
    pub value: u64,
    pub falls_through: bool,
}

// Whether a selector is written without `case`: `default` with a body of its own.
fn is_bare(of: Selector) -> bool
    ensures { result ≡ spec.is_bare of }
{
    !of.falls_through && of.value / SELECTOR_CLASS_UNIT == DEFAULT_SELECTOR
}

// Appends what stands before a selector: `,` after one that falls through, else `case`.
fn push_selector_start(out: &mut Pieces<'_>, follows: bool, of: Selector) -> Result<(), AllocError>
    ensures { Adds (spec.selector_start follows of) result out.old out.new }
{
    if follows {
        Ok(out.push(Piece::Sign(Sign::Comma))?)
    } else if is_bare(of) {
        Ok(())
    } else {
        Ok(out.push(Piece::Sign(Sign::CaseWord))?)
    }
}

/// Appends a selector of an arm. `follows` says whether it follows one that falls through.
///
/// # Errors
/// `NotInWgsl` with the span if no selector has the code, `Memory` if out of memory.
#[tactic(auto, unfolding(crate::specs::Switches::arm_selector))]
pub fn push_arm_selector(
    out: &mut Pieces<'_>,
    follows: bool,
    of: Selector,
    span: Span,
) -> WriteResult<()>
    ensures { Appends (spec.arm_selector follows of span) result out.old out.new }
{
    push_selector_start(out, follows, of)?;
    push_selector(out, of.value, span)
}

/// Appends the body of an arm.
///
/// # Errors
/// If out of memory.
#[tactic(auto, unfolding(crate::specs::Switches::arm_body))]
pub fn push_arm_body<'m>(out: &mut Pieces<'m>, parts: &[Part<'m>]) -> Result<(), AllocError>
    ensures { Adds (spec.arm_body (parts_of parts.now)) result out.old out.new }
{
    out.push(Piece::Sign(Sign::CaseColon))?;
    push_block(out, parts)
}

/// Appends a `switch` up to its arms.
///
/// # Errors
/// If out of memory.
#[tactic(auto, unfolding(crate::specs::Switches::switch_head))]
pub fn push_switch_head<'m>(out: &mut Pieces<'m>, of: &[Piece<'m>]) -> Result<(), AllocError>
    ensures { Adds (spec.switch_head (map piece_of of.now)) result out.old out.new }
{
    out.push(Piece::Sign(Sign::SwitchWord))?;
    out.extend_from_slice(of)?;
    Ok(out.push(Piece::Sign(Sign::LeftBrace))?)
}
