//! The step of a node.

ghost use Rattle.yettuvam_wgsl_machine.specs.Machine.{node_view};
ghost use Rattle.yettuvam_wgsl_scope.specs.Names.{bound_view};
ghost use Rattle.yettuvam_wgsl_scope.specs.Refused.{Reads};
ghost use Rattle.yettuvam_wgsl_values.specs.Body.{state_of};
ghost use Rattle.yettuvam_wgsl_bodies.specs.Step as spec;

use crate::acts::{Act, act_of};
use naga_oil_ir::Statement;
use yettuvam_wgsl_calls::{call, call_end, call_statement};
use yettuvam_wgsl_lower_declarations::{let_, local_const, local_var};
use yettuvam_wgsl_lower_statements::statements::{
    absent, again, assertion, assign, if_end, inner, loop_end, phony, return_value,
};
use yettuvam_wgsl_lower_statements::switches::{
    default_selector, fall_through, selector, switch, switch_end,
};
use yettuvam_wgsl_machine::symbol::Node;
use yettuvam_wgsl_names::form_codes::{BOOL_LITERAL, INTEGER_LITERAL};
use yettuvam_wgsl_operators::{
    address_of, binary, circuit, circuit_end, dereference, index, literal, member, number, unary,
};
use yettuvam_wgsl_scope::{Bound, Refusal};
use yettuvam_wgsl_shape::Number;
use yettuvam_wgsl_type_words::{template, template_end};
use yettuvam_wgsl_values::value::bare;
use yettuvam_wgsl_values::{Body, What};

/// A name is declared.
#[tactic(auto, unfolding(crate::specs::Step::declared))]
fn declared<'t>(b: &mut Body<'t>, node: Node<'t>) -> Result<(), Refusal>
    ensures { Reads (spec.declared (node_view node.entry) (state_of b.old))
        result (state_of b.new) }
{
    b.declare(node);
    Ok(())
}

#[tactic(auto, unfolding(crate::specs::Step::return_nothing))]
fn return_nothing<'t>(b: &mut Body<'t>, node: Node<'t>) -> Result<(), Refusal>
    ensures { Reads (spec.return_nothing (node_view node.entry) (state_of b.old))
        result (state_of b.new) }
{
    b.state(Statement::Return { value: None }, node.span)
}

/// What ends a block, and what stands for statements with blocks.
#[tactic(auto, unfolding(crate::specs::Step::control))]
fn control<'t>(b: &mut Body<'t>, act: Act, node: Node<'t>) -> Result<(), Refusal>
    ensures { Reads (spec.control act (node_view node.entry) (state_of b.old))
        result (state_of b.new) }
{
    match act {
        Act::Open => b.open(node),
        Act::Close => b.close(node),
        Act::Inner => inner(b, node),
        Act::If => if_end(b, node),
        Act::Loop => loop_end(b, node),
        Act::Switch => switch(b, node),
        Act::Selector => selector(b, node),
        Act::DefaultSelector => default_selector(b),
        Act::FallThrough => fall_through(b),
        Act::SwitchEnd => switch_end(b, node),
        Act::Break => b.state(Statement::Break, node.span),
        Act::Continue => b.state(Statement::Continue, node.span),
        Act::Kill => b.state(Statement::Kill, node.span),
        Act::Return => return_nothing(b, node),
        Act::ReturnValue => return_value(b, node),
        _ => Ok(()),
    }
}

/// Declarations, assignments and calls that are statements.
#[tactic(auto, unfolding(crate::specs::Step::declaration))]
fn declaration<'t>(b: &mut Body<'t>, act: Act, node: Node<'t>) -> Result<(), Refusal>
    ensures { Reads (spec.declaration act (node_view node.entry) (state_of b.old))
        result (state_of b.new) }
{
    match act {
        Act::Declared => declared(b, node),
        Act::Absent => absent(b),
        Act::NoSpace => b.give(bare(What::NoSpace)),
        Act::Let => let_(b, node),
        Act::Const => local_const(b, node),
        Act::Var => local_var(b, node),
        Act::Assign => assign(b, node),
        Act::Again => again(b, node),
        Act::Phony => phony(b, node),
        Act::CallStatement => call_statement(b, node),
        Act::Assertion => assertion(b, node),
        _ => control(b, act, node),
    }
}

/// Expressions.
#[tactic(auto, unfolding(crate::specs::Step::expression))]
fn expression<'t>(b: &mut Body<'t>, act: Act, bound: Bound<'t>) -> Result<(), Refusal>
    ensures { Reads (spec.expression act (bound_view bound.entry) (state_of b.old))
        result (state_of b.new) }
{
    let node = bound.node;
    match act {
        Act::Number => number(b, node),
        Act::Truth(value) => literal(b, BOOL_LITERAL, u64::from(value), Number::Truth(value)),
        Act::One => literal(b, INTEGER_LITERAL, 1, Number::Untyped(1)),
        Act::Name => b.name(node, bound.binding),
        Act::Left => b.left(node),
        Act::Unary(op) => unary(b, op, node),
        Act::Binary(op) => binary(b, op, node),
        Act::Circuit => circuit(b, node),
        Act::CircuitEnd(op) => circuit_end(b, op, node),
        Act::AddressOf => address_of(b, node),
        Act::Dereference => dereference(b, node),
        Act::Member => member(b, node),
        Act::Index => index(b, node),
        Act::Template => template(b),
        Act::TemplateEnd => template_end(b, node),
        Act::Call(is_statement) => call(b, is_statement),
        Act::CallEnd => call_end(b, node),
        _ => declaration(b, act, node),
    }
}

/// What a node of a body or of an expression does.
#[tactic(auto, unfolding(crate::specs::Step::step))]
pub fn step<'t>(b: &mut Body<'t>, bound: Bound<'t>) -> Result<(), Refusal>
    ensures { Reads (spec.step (bound_view bound.entry) (state_of b.old))
        result (state_of b.new) }
{
    expression(b, act_of(bound.node.form), bound)
}
