//! Assignments, blocks, `if`, loops, and what ends a function.

ghost use Rattle.std.specs.Prelude.{◌≡◌};
ghost use Rattle.yettuvam_wgsl_machine.specs.Machine.{node_view};
ghost use Rattle.yettuvam_wgsl_scope.specs.Refused.{Reads};
ghost use Rattle.yettuvam_wgsl_values.specs.Body.{state_of};
ghost use Rattle.yettuvam_wgsl_values.specs.Value.{value_view};
ghost use Rattle.yettuvam_wgsl_lower_statements.specs.Statements as spec;

use naga_oil_ir::{Expression, Index, Operand, Statement};
use yettuvam_wgsl_machine::symbol::Node;
use yettuvam_wgsl_scope::{Reason, Refusal, refused};
use yettuvam_wgsl_types::{NOT_TOLD, PlainType};
use yettuvam_wgsl_values::blocks::{block_statement, if_statement, loop_statement};
use yettuvam_wgsl_values::value::bare;
use yettuvam_wgsl_values::{Body, Value, What, handle_of};

#[tactic(auto, unfolding(crate::specs::Statements::store))]
fn store<'t>(
    b: &mut Body<'t>,
    pointer: Operand,
    value: Operand,
    node: Node<'t>,
) -> Result<(), Refusal>
    ensures { Reads (spec.store pointer value (node_view node.entry) (state_of b.old))
        result (state_of b.new) }
{
    b.state(Statement::Store { pointer, value }, node.span)
}

/// A store to what is assigned to.
#[tactic(auto, unfolding(crate::specs::Statements::stored))]
fn stored<'t>(
    b: &mut Body<'t>,
    target: Value<'t>,
    value: Operand,
    node: Node<'t>,
) -> Result<(), Refusal>
    ensures { Reads (spec.stored (value_view target.entry) value (node_view node.entry)
        (state_of b.old)) result (state_of b.new) }
{
    match target.what {
        What::Place(_) => store(b, handle_of(target), value, node),
        What::Word(name) => Err(refused(Reason::UnknownName, name.span)),
        _ => Err(refused(Reason::NoReference, node.span)),
    }
}

/// An assignment of the last value to the one before it.
#[tactic(auto, unfolding(crate::specs::Statements::assign))]
pub fn assign<'t>(b: &mut Body<'t>, node: Node<'t>) -> Result<(), Refusal>
    ensures { Reads (spec.assign (node_view node.entry) (state_of b.old)) result (state_of b.new) }
{
    let value = b.operand(node)?;
    let target = b.take_value(node)?;
    stored(b, target, value, node)
}

/// The target of an assignment is also an operand.
#[tactic(auto, unfolding(crate::specs::Statements::again))]
pub fn again<'t>(b: &mut Body<'t>, node: Node<'t>) -> Result<(), Refusal>
    ensures { Reads (spec.again (node_view node.entry) (state_of b.old)) result (state_of b.new) }
{
    let target = b.take_value(node)?;
    b.give(target)?;
    b.give(target)
}

/// The type of what `_` is assigned.
#[tactic(auto, unfolding(crate::specs::Statements::phony_type))]
fn phony_type(b: &mut Body<'_>) -> Result<usize, Refusal>
    ensures { Reads (spec.phony_type (state_of b.old)) result (state_of b.new) }
{
    Ok(b.types.plain(PlainType::Scalar(NOT_TOLD))?)
}

/// An assignment to `_`.
#[tactic(auto, unfolding(crate::specs::Statements::phony))]
pub fn phony<'t>(b: &mut Body<'t>, node: Node<'t>) -> Result<(), Refusal>
    ensures { Reads (spec.phony (node_view node.entry) (state_of b.old)) result (state_of b.new) }
{
    let value = b.operand(node)?;
    let ty = Index::new(phony_type(b)?);
    let place = b.put(Expression::ZeroValue(ty), node.span)?;
    store(b, Index::new(place), value, node)
}

/// The last block as a statement.
#[tactic(auto, unfolding(crate::specs::Statements::inner))]
pub fn inner<'t>(b: &mut Body<'t>, node: Node<'t>) -> Result<(), Refusal>
    ensures { Reads (spec.inner (node_view node.entry) (state_of b.old)) result (state_of b.new) }
{
    let block = b.block();
    b.state(block_statement(block), node.span)
}

/// An `if` of the last two blocks, and the value before them.
#[tactic(auto, unfolding(crate::specs::Statements::if_end))]
pub fn if_end<'t>(b: &mut Body<'t>, node: Node<'t>) -> Result<(), Refusal>
    ensures { Reads (spec.if_end (node_view node.entry) (state_of b.old)) result (state_of b.new) }
{
    let condition = b.operand(node)?;
    let reject = b.block();
    let accept = b.block();
    b.state(if_statement(condition, accept, reject), node.span)
}

/// The expression of a value that may be left out.
pub fn optional_operand(value: Value<'_>) -> Option<Operand>
    ensures { result ≡ spec.optional_operand (value_view value.entry) }
{
    match value.what {
        What::Absent => None,
        _ => Some(handle_of(value)),
    }
}

/// A loop of the last two blocks: what continues it, then its body.
#[tactic(auto, unfolding(crate::specs::Statements::loop_end))]
pub fn loop_end<'t>(b: &mut Body<'t>, node: Node<'t>) -> Result<(), Refusal>
    ensures { Reads (spec.loop_end (node_view node.entry) (state_of b.old))
        result (state_of b.new) }
{
    let condition = b.take_value(node)?;
    let body = b.block();
    let continuing = b.block();
    let break_if = optional_operand(condition);
    b.state(loop_statement(body, continuing, break_if), node.span)
}

/// `return` of the last value.
#[tactic(auto, unfolding(crate::specs::Statements::return_value))]
pub fn return_value<'t>(b: &mut Body<'t>, node: Node<'t>) -> Result<(), Refusal>
    ensures { Reads (spec.return_value (node_view node.entry) (state_of b.old))
        result (state_of b.new) }
{
    let value = b.operand(node)?;
    b.state(Statement::Return { value: Some(value) }, node.span)
}

/// Whether a value is known to be false, or 0.
fn is_false(value: Value<'_>) -> bool
    ensures { result ≡ spec.is_false (value_view value.entry) }
{
    match value.number {
        Some(number) => number.value() == 0,
        None => false,
    }
}

/// A condition that is known to be false is a fault.
#[tactic(auto, unfolding(crate::specs::Statements::assertion))]
pub fn assertion<'t>(b: &mut Body<'t>, node: Node<'t>) -> Result<(), Refusal>
    ensures { Reads (spec.assertion (node_view node.entry) (state_of b.old))
        result (state_of b.new) }
{
    let value = b.settled(node)?;
    if is_false(value) {
        return Err(refused(Reason::Assertion, node.span));
    }
    Ok(())
}

/// What is left out.
#[tactic(auto, unfolding(crate::specs::Statements::absent))]
pub fn absent(b: &mut Body<'_>) -> Result<(), Refusal>
    ensures { Reads (spec.absent (state_of b.old)) result (state_of b.new) }
{
    b.give(bare(What::Absent))
}
