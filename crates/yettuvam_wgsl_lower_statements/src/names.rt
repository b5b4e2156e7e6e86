//! The names of expressions.

ghost use Rattle.std.specs.Prelude.{◌≡◌};
ghost use Rattle.naga_oil_ir.specs.ModuleValue.{expression_values};
ghost use Rattle.naga_oil_ir.specs.Parts.{parts};
ghost use Rattle.yettuvam_wgsl_machine.specs.Machine.{node_view};
ghost use Rattle.yettuvam_wgsl_scope.specs.Refused.{Reads};
ghost use Rattle.yettuvam_wgsl_values.specs.Body.{named_view, state_of};
ghost use Rattle.yettuvam_wgsl_values.specs.Value.{value_view};
ghost use Rattle.yettuvam_wgsl_lower_statements.specs.Naming as spec;

use naga_oil_ir::{Arena, Expression, Index, NamedExpressions, Operand};
use yettuvam_wgsl_machine::symbol::Node;
use yettuvam_wgsl_scope::Refusal;
use yettuvam_wgsl_shape::Number;
use yettuvam_wgsl_types::Shape;
use yettuvam_wgsl_values::{Body, Meaning, Value, handle_of};

/// Whether an expression is never emitted, and no result.
fn is_external(expression: &Expression) -> bool
    ensures { result ≡ spec.is_external (parts expression.now) }
{
    matches!(
        expression,
        Expression::Literal { .. }
            | Expression::ZeroValue(_)
            | Expression::Constant(_)
            | Expression::Override(_)
            | Expression::GlobalVariable(_)
            | Expression::LocalVariable(_)
            | Expression::FunctionArgument(_)
    )
}

#[tactic(auto, using(crate::proofs::Named::get_of_values))]
fn is_external_at(expressions: &Arena<Expression>, place: Operand) -> bool
    ensures { result ≡ spec.is_external_at (expression_values expressions.now) place }
{
    match expressions.try_get(place) {
        Some(expression) => is_external(expression),
        None => true,
    }
}

#[tactic(auto, using(crate::proofs::Named::lookup_of_names))]
fn has_name(named: &NamedExpressions, place: Operand) -> bool
    ensures { result ≡ spec.has_name (named_view named.now.entries) place }
{
    named.get(place).is_some()
}

/// Whether an expression can have a name of its own: it is emitted or a result, and has none.
pub fn takes_name(b: &Body<'_>, place: Operand) -> bool
    ensures { result ≡ spec.takes_name place (state_of b.now) }
{
    !is_external_at(&b.expressions, place) && !has_name(&b.named, place)
}

/// A copy of a value, under the name that is declared.
#[tactic(auto, unfolding(crate::specs::Naming::copy))]
pub fn copy<'t>(
    b: &mut Body<'t>,
    value: Value<'t>,
    convert: u64,
    node: Node<'t>,
) -> Result<usize, Refusal>
    ensures { Reads (spec.copy (value_view value.entry) convert (node_view node.entry)
        (state_of b.old)) result (state_of b.new) }
{
    let copy = Expression::As {
        expr: handle_of(value),
        kind: 0,
        convert,
    };
    b.compute(copy, node.span)
}

/// The place of the type that marks a value as of a type, for `let` or `const`.
#[tactic(auto, unfolding(crate::specs::Naming::mark_type))]
fn mark_type(b: &mut Body<'_>, base: usize, mark: u64) -> Result<usize, Refusal>
    ensures { Reads (spec.mark_type base mark (state_of b.old)) result (state_of b.new) }
{
    Ok(b.types.pointer(base, mark)?)
}

/// A value that is composed of one, as a type.
#[tactic(auto, unfolding(crate::specs::Naming::composed))]
fn composed<'t>(
    b: &mut Body<'t>,
    value: Operand,
    ty: usize,
    node: Node<'t>,
) -> Result<usize, Refusal>
    ensures { Reads (spec.composed value ty (node_view node.entry) (state_of b.old))
        result (state_of b.new) }
{
    let mut components = Vec::new(b.alloc);
    components.push(value)?;
    let ty = Index::new(ty);
    b.compute(Expression::Compose { ty, components }, node.span)
}

/// A value that is marked as of a type, for `let` or `const`.
#[tactic(auto, unfolding(crate::specs::Naming::marked))]
pub fn marked<'t>(
    b: &mut Body<'t>,
    value: Value<'t>,
    base: usize,
    mark: u64,
    node: Node<'t>,
) -> Result<usize, Refusal>
    ensures { Reads (spec.marked (value_view value.entry) base mark (node_view node.entry)
        (state_of b.old)) result (state_of b.new) }
{
    let ty = mark_type(b, base, mark)?;
    composed(b, handle_of(value), ty, node)
}

/// Names an expression that is emitted before what follows.
#[tactic(auto, unfolding(crate::specs::Naming::named))]
pub fn named<'t>(
    b: &mut Body<'t>,
    place: usize,
    shape: Shape,
    number: Option<Number>,
    node: Node<'t>,
) -> Result<(), Refusal>
    ensures { Reads (spec.named place shape number (node_view node.entry) (state_of b.old))
        result (state_of b.new) }
{
    b.name_expression(place)?;
    b.flush(node.span)?;
    b.know(Meaning::Value(place, shape, number))
}
