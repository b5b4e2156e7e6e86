// How expressions are written, and the declarations of those that have names.
ghost use Rattle.std.specs.Prelude.{◌≡◌, ◌≤◌, length, slice_set};
ghost use Rattle.naga_oil_ir.specs.Parts.{parts};
ghost use Rattle.yettuvam_wgsl_write_bodies.specs.Setting.{setting_of};
ghost use Rattle.yettuvam_wgsl_write_bodies.specs.Values as spec;
ghost use Rattle.yettuvam_wgsl_write_types.specs.Types.{values_of};
ghost use Rattle.yettuvam_wgsl_written.specs.Outcomes.{Finds};
ghost use Rattle.yettuvam_wgsl_written.specs.Written.{written_of};

use crate::setting::Setting;
use naga_oil_ir::{Expression, Span};
use yettuvam_wgsl_write_expressions::operands::Known;
use yettuvam_wgsl_write_globals::written_expression;
use yettuvam_wgsl_written::{Refusal, Role, WriteResult, Written};

/// Returns whether an expression is written where it is named, and never emitted.
fn is_external(of: &Expression) -> bool
    ensures { result ≡ spec.is_external (parts of.now) }
{
    match of {
        Expression::Literal { .. }
        | Expression::ZeroValue(_)
        | Expression::Constant(_)
        | Expression::Override(_)
        | Expression::GlobalVariable(_)
        | Expression::LocalVariable(_)
        | Expression::FunctionArgument(_) => true,
        _ => false,
    }
}

/// Puts an expression at its place.
#[tactic(auto, using(crate::proofs::Puts::put_written, crate::proofs::Puts::put_past))]
pub fn put<'m>(known: &mut [Written<'m>], place: usize, written: Written<'m>)
    ensures { values_of known.new ≡ slice_set (values_of known.old) place (written_of written.entry) }
{
    if place >= known.len() {
        return;
    }
    known[place] = written;
}

/// Returns what the name of an expression means: the pointer, if the expression is a place.
pub fn named_role(role: Role) -> Role
    ensures { result ≡ spec.named_role role }
{
    match role {
        Role::Value => Role::Value,
        _ => Role::Pointer,
    }
}

// Returns how an expression is written before the first statement. One that isn't has no text: the statement that names it is
// refused.
fn first_written<'m>(
    s: &Setting<'_, 'm>,
    known: Known<'_, 'm>,
    of: &'m Expression,
    span: Span,
) -> WriteResult<Written<'m>>
    ensures { Finds written_of result (Ok (spec.first_written (setting_of s.now) (values_of known.now) (parts of.now, span))) }
{
    if !is_external(of) {
        return Ok(Written::nothing(s.context.alloc));
    }
    match written_expression(&s.scope(span), known, of) {
        Ok(written) => Ok(written),
        Err(Refusal::NotInWgsl(_)) => Ok(Written::nothing(s.context.alloc)),
        Err(Refusal::Memory) => Err(Refusal::Memory),
    }
}

/// Returns how each expression of a function is written before the first statement.
///
/// # Errors
/// If out of memory.
#[tactic(auto, unfolding(crate::specs::Values::each_first))]
pub fn first_values<'m>(s: &Setting<'_, 'm>) -> WriteResult<Vec<Written<'m>>>
    ensures { Finds (λ v. values_of v.items) result (Ok (spec.first_values (setting_of s.now))) }
{
    let mut known: Vec<Written<'m>> = Vec::new(s.context.alloc);
    let mut rest = s.of.expressions.as_slice();
    while let [(expression, span), more @ ..] = rest {
        let written = first_written(s, &known, expression, *span)?;
        known.push(written)?;
        rest = more;
    }
    Ok(known)
}
