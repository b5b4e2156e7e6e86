//! `&&` and `||`: a right side that has effects runs in an `If`.

ghost use Rattle.std.specs.Prelude.{◌≡◌};
ghost use Rattle.naga_oil_ir.specs.Body.{block_tokens, statement_tokens};
ghost use Rattle.yettuvam_wgsl_machine.specs.Machine.{node_view};
ghost use Rattle.yettuvam_wgsl_scope.specs.Refused.{Reads};
ghost use Rattle.yettuvam_wgsl_values.specs.Blocks.{front};
ghost use Rattle.yettuvam_wgsl_values.specs.Body.{state_of};
ghost use Rattle.yettuvam_wgsl_operators.specs.Circuits as spec;

use crate::operators::binary;
use naga_oil_ir::{Block, Expression, Index, LocalVariable, Operand, Statement};
use std::alloc::Global;
use yettuvam_wgsl_machine::symbol::Node;
use yettuvam_wgsl_scope::Refusal;
use yettuvam_wgsl_types::{NOT_TOLD, PlainType};
use yettuvam_wgsl_values::blocks::if_statement;
use yettuvam_wgsl_values::value::bare;
use yettuvam_wgsl_values::{Body, What, block_of, span_of};

/// The codes of `&&` and `||`.
pub const AND: u64 = 17;

pub const OR: u64 = 18;

/// The left side of `&&` or `||` is read, and a block begins for what the right side does.
#[tactic(auto, unfolding(crate::specs::Circuits::circuit))]
pub fn circuit<'t>(b: &mut Body<'t>, node: Node<'t>) -> Result<(), Refusal>
    ensures { Reads (spec.circuit (node_view node.entry) (state_of b.old))
        result (state_of b.new) }
{
    b.left(node)?;
    b.circuits.push(b.effects)?;
    b.open(node)
}

/// A local variable without a name and without a type.
#[tactic(auto, unfolding(crate::specs::Circuits::unnamed_local))]
fn unnamed_local<'t>(b: &mut Body<'t>, node: Node<'t>) -> Result<usize, Refusal>
    ensures { Reads (spec.unnamed_local (node_view node.entry) (state_of b.old))
        result (state_of b.new) }
{
    let ty = Index::new(b.types.plain(PlainType::Scalar(NOT_TOLD))?);
    let local = LocalVariable {
        name: None,
        ty,
        init: None,
    };
    let place = b.locals.append(local, span_of(node.span))?;
    Ok(place.index())
}

/// The expression of a new local variable.
#[tactic(auto, unfolding(crate::specs::Circuits::put_local))]
fn put_local<'t>(b: &mut Body<'t>, node: Node<'t>) -> Result<usize, Refusal>
    ensures { Reads (spec.put_local (node_view node.entry) (state_of b.old))
        result (state_of b.new) }
{
    let local = unnamed_local(b, node)?;
    b.put(Expression::LocalVariable(Index::new(local)), node.span)
}

#[tactic(auto, unfolding(crate::specs::Circuits::store))]
fn store<'t>(b: &mut Body<'t>, place: usize, value: Operand, node: Node<'t>) -> Result<(), Refusal>
    ensures { Reads (spec.store place value (node_view node.entry) (state_of b.old))
        result (state_of b.new) }
{
    let pointer = Index::new(place);
    b.state(Statement::Store { pointer, value }, node.span)
}

/// The right side's value is stored where its block ends, the left side's before the `If`.
#[tactic(auto, unfolding(crate::specs::Circuits::stores))]
fn stores<'t>(
    b: &mut Body<'t>,
    place: usize,
    value: Operand,
    condition: Operand,
    node: Node<'t>,
) -> Result<(), Refusal>
    ensures { Reads (spec.stores place value condition (node_view node.entry) (state_of b.old))
        result (state_of b.new) }
{
    store(b, place, value, node)?;
    b.close(node)?;
    store(b, place, condition, node)
}

/// The `If` that runs the right side.
fn test_of(alloc: Global, op: u64, condition: Operand, inner: Block) -> Statement
    ensures { statement_tokens result ≡ spec.test_of op condition (block_tokens inner) }
{
    if op == AND {
        if_statement(condition, inner, block_of(Vec::new(alloc)))
    } else {
        if_statement(condition, block_of(Vec::new(alloc)), inner)
    }
}

/// The `If` tests what is stored, and runs the last block.
#[tactic(auto, unfolding(crate::specs::Circuits::if_stored))]
fn if_stored<'t>(b: &mut Body<'t>, op: u64, place: usize, node: Node<'t>) -> Result<(), Refusal>
    ensures { Reads (spec.if_stored op place (node_view node.entry) (state_of b.old))
        result (state_of b.new) }
{
    let pointer = Index::new(place);
    let loaded = b.compute(Expression::Load { pointer }, node.span)?;
    let inner = b.block();
    b.state(test_of(b.alloc, op, Index::new(loaded), inner), node.span)
}

/// The value of a place, read.
#[tactic(auto, unfolding(crate::specs::Circuits::give_read))]
fn give_read<'t>(b: &mut Body<'t>, place: usize, node: Node<'t>) -> Result<(), Refusal>
    ensures { Reads (spec.give_read place (node_view node.entry) (state_of b.old))
        result (state_of b.new) }
{
    b.give(bare(What::Place(place)))?;
    b.left(node)
}

/// The right side has effects: it runs in an `If`.
#[tactic(auto, unfolding(crate::specs::Circuits::guarded))]
fn guarded<'t>(b: &mut Body<'t>, op: u64, node: Node<'t>) -> Result<(), Refusal>
    ensures { Reads (spec.guarded op (node_view node.entry) (state_of b.old))
        result (state_of b.new) }
{
    let value = b.operand(node)?;
    let condition = b.operand(node)?;
    let place = put_local(b, node)?;
    stores(b, place, value, condition, node)?;
    if_stored(b, op, place, node)?;
    give_read(b, place, node)
}

/// The right side has no effects: it is computed like any operand.
#[tactic(auto, unfolding(crate::specs::Circuits::unguarded))]
fn unguarded<'t>(b: &mut Body<'t>, op: u64, node: Node<'t>) -> Result<(), Refusal>
    ensures { Reads (spec.unguarded op (node_view node.entry) (state_of b.old))
        result (state_of b.new) }
{
    b.left(node)?;
    b.unfold(node)?;
    binary(b, op, node)
}

/// The last number, which is taken; of none, 0.
fn pop_count(counts: &mut Vec<usize>) -> usize
    ensures value { result ≡ spec.last_count counts.old.items }
    ensures rest { counts.new.items ≡ front counts.old.items }
{
    counts.pop().unwrap_or(0)
}

/// The right side of `&&` or `||` ends.
#[tactic(auto, unfolding(crate::specs::Circuits::circuit_end))]
pub fn circuit_end<'t>(b: &mut Body<'t>, op: u64, node: Node<'t>) -> Result<(), Refusal>
    ensures { Reads (spec.circuit_end op (node_view node.entry) (state_of b.old))
        result (state_of b.new) }
{
    let before = pop_count(&mut b.circuits);
    if before == b.effects {
        unguarded(b, op, node)
    } else {
        guarded(b, op, node)
    }
}
