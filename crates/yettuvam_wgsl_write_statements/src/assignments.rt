// Stores to places.
ghost use Rattle.std.specs.Prelude.{◌≡◌};
ghost use Rattle.naga_oil_ir.specs.Parts.{parts};
ghost use Rattle.naga_oil_ir.specs.Rows.{type_row};
ghost use Rattle.yettuvam_wgsl_write_expressions.specs.Context.{context_of, scope_of};
ghost use Rattle.yettuvam_wgsl_write_items.specs.Text.{Appends};
ghost use Rattle.yettuvam_wgsl_write_statements.specs.Assignments as spec;
ghost use Rattle.yettuvam_wgsl_write_types.specs.Types.{values_of};

use naga_oil_ir::{Expression, Handle, Operand, Type, TypeInner};
use yettuvam_wgsl_pieces::{Piece, Sign};
use yettuvam_wgsl_write_expressions::context::{Context, Scope, type_at};
use yettuvam_wgsl_write_expressions::operands::Known;
use yettuvam_wgsl_write_items::items::push_initial_value;
use yettuvam_wgsl_write_types::codes::NOT_TOLD;
use yettuvam_wgsl_written::WriteResult;
use yettuvam_wgsl_written::operators::binary_operator;
use yettuvam_wgsl_written::written::{push_place, push_value};

type Pieces<'m> = Vec<Piece<'m>>;

/// Appends an operand as a value.
///
/// # Errors
/// `NotInWgsl` if it isn't written, `Memory` if out of memory.
pub fn push_operand_value<'m>(
    scope: &Scope<'_, 'm>,
    known: Known<'_, 'm>,
    out: &mut Pieces<'m>,
    of: Operand,
) -> WriteResult<()>
    ensures { Appends (spec.value (values_of known.now) of (scope_of scope.now).span) result out.old out.new }
{
    let written = scope.operand(known, of)?;
    Ok(push_value(out, written, true)?)
}

// Appends an operand as a place.
fn push_operand_place<'m>(
    scope: &Scope<'_, 'm>,
    known: Known<'_, 'm>,
    out: &mut Pieces<'m>,
    of: Operand,
) -> WriteResult<()>
    ensures { Appends (spec.place (values_of known.now) of (scope_of scope.now).span) result out.old out.new }
{
    let written = scope.operand(known, of)?;
    Ok(push_place(out, written, true)?)
}

fn is_untold(of: &Type) -> bool
    ensures { result ≡ spec.is_untold (type_row of.now) }
{
    match of.inner {
        TypeInner::Scalar(code) => code == NOT_TOLD,
        _ => false,
    }
}

// Whether the type at a place is the pseudo-type of what has no written type.
fn is_untold_at(context: &Context<'_>, ty: Handle<Type>) -> bool
    ensures { result ≡ spec.is_untold_at (context_of context.now) ty }
{
    match type_at(context, ty.index()) {
        Some(of) => is_untold(of),
        None => false,
    }
}

/// Returns whether an expression is what an assignment to `_` names as its place.
pub fn is_nowhere(context: &Context<'_>, of: &Expression) -> bool
    ensures { result ≡ spec.is_nowhere (context_of context.now) (parts of.now) }
{
    match of {
        Expression::ZeroValue(ty) => is_untold_at(context, *ty),
        _ => false,
    }
}

// The sign of an assignment by an operator, if there is one.
fn assignment_sign(op: u64) -> Option<Sign>
    ensures { result ≡ spec.assignment_sign op }
{
    match binary_operator(op) {
        Some(operator) => operator.assignment,
        None => None,
    }
}

fn push_found_sign<'m>(
    scope: &Scope<'_, 'm>,
    out: &mut Pieces<'m>,
    found: Option<Sign>,
) -> WriteResult<()>
    ensures { Appends (spec.found_sign found (scope_of scope.now).span) result out.old out.new }
{
    match found {
        Some(sign) => Ok(out.push(Piece::Sign(sign))?),
        None => Err(scope.refused()),
    }
}

/// Appends an assignment by an operator.
///
/// # Errors
/// `NotInWgsl` if no assignment has the operator or an operand isn't written, `Memory` if out of memory.
#[tactic(auto, unfolding(crate::specs::Assignments::compound))]
pub fn push_compound<'m>(
    scope: &Scope<'_, 'm>,
    known: Known<'_, 'm>,
    out: &mut Pieces<'m>,
    pointer: Operand,
    op: u64,
    right: Operand,
) -> WriteResult<()>
    ensures { Appends (spec.compound (values_of known.now) pointer op right (scope_of scope.now).span) result out.old out.new }
{
    push_operand_place(scope, known, out, pointer)?;
    push_found_sign(scope, out, assignment_sign(op))?;
    push_operand_value(scope, known, out, right)
}

// Appends what is assigned to: a place, or `_`.
fn push_target<'m>(
    scope: &Scope<'_, 'm>,
    known: Known<'_, 'm>,
    out: &mut Pieces<'m>,
    pointer: Operand,
    is_nowhere: bool,
) -> WriteResult<()>
    ensures { Appends (spec.target (values_of known.now) pointer is_nowhere (scope_of scope.now).span) result out.old out.new }
{
    if is_nowhere {
        return Ok(out.push(Piece::Sign(Sign::Underscore))?);
    }
    push_operand_place(scope, known, out, pointer)
}

/// Appends an assignment to a place, or to `_`.
///
/// # Errors
/// `NotInWgsl` if an operand isn't written, `Memory` if out of memory.
#[tactic(auto, unfolding(crate::specs::Assignments::assignment))]
pub fn push_assignment<'m>(
    scope: &Scope<'_, 'm>,
    known: Known<'_, 'm>,
    out: &mut Pieces<'m>,
    pointer: Operand,
    value: Operand,
    is_nowhere: bool,
) -> WriteResult<()>
    ensures { Appends (spec.assignment (values_of known.now) pointer value is_nowhere (scope_of scope.now).span) result out.old out.new }
{
    push_target(scope, known, out, pointer, is_nowhere)?;
    push_initial_value(known, out, value, scope.span)
}
