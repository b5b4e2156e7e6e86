//! Literals, and operators of one and two operands.

ghost use Rattle.std.specs.Prelude.{◌≡◌};
ghost use Rattle.naga_oil_ir.specs.Parts.{parts};
ghost use Rattle.yettuvam_wgsl_machine.specs.Machine.{node_view};
ghost use Rattle.yettuvam_wgsl_scope.specs.Refused.{Reads, Gives};
ghost use Rattle.yettuvam_wgsl_values.specs.Body.{state_of};
ghost use Rattle.yettuvam_wgsl_values.specs.Value.{value_view};
ghost use Rattle.yettuvam_wgsl_operators.specs.Operators as spec;

use naga_oil_ir::Expression;
use yettuvam_wgsl_machine::symbol::Node;
use yettuvam_wgsl_scope::{Reason, Refusal, refused};
use yettuvam_wgsl_shape::{Literal, Number, Outcome, binary_number, literal_of, unary_number};
use yettuvam_wgsl_types::Shape;
use yettuvam_wgsl_values::{Body, Value, What, handle_of};

fn literal_value<'t>(literal: Literal) -> Value<'t>
    ensures { value_view result ≡ spec.literal_value literal }
{
    Value {
        what: What::Literal(literal.kind, literal.bits),
        shape: Shape::Plain,
        number: literal.number,
    }
}

/// The text of a number.
#[tactic(auto, unfolding(crate::specs::Operators::number))]
pub fn number<'t>(b: &mut Body<'t>, node: Node<'t>) -> Result<(), Refusal>
    ensures { Reads (spec.number (node_view node.entry) (state_of b.old)) result (state_of b.new) }
{
    match literal_of(node.text) {
        Some(literal) => b.give(literal_value(literal)),
        None => Err(refused(Reason::NoNumber, node.span)),
    }
}

/// A literal without text: a truth value, or the 1 of `++`.
#[tactic(auto, unfolding(crate::specs::Operators::literal))]
pub fn literal<'t>(b: &mut Body<'t>, kind: u64, bits: u64, number: Number) -> Result<(), Refusal>
    ensures { Reads (spec.literal kind bits number (state_of b.old)) result (state_of b.new) }
{
    b.give(literal_value(Literal {
        kind,
        bits,
        number: Some(number),
    }))
}

/// The number that an operation gives. One that doesn't fit its type is a fault.
fn computed(outcome: Outcome, node: Node<'_>) -> Result<Option<Number>, Refusal>
    ensures { Gives (λ n. n) result (spec.computed outcome (node_view node.entry)) }
{
    match outcome {
        Outcome::Known(number) => Ok(Some(number)),
        Outcome::NotKnown => Ok(None),
        Outcome::Overflow => Err(refused(Reason::NoNumber, node.span)),
    }
}

/// A computed value without a shape.
#[tactic(auto, unfolding(crate::specs::Operators::give_computed))]
pub fn give_computed<'t>(
    b: &mut Body<'t>,
    expression: Expression,
    number: Option<Number>,
    node: Node<'t>,
) -> Result<(), Refusal>
    ensures { Reads (spec.give_computed (parts expression) number (node_view node.entry)
        (state_of b.old)) result (state_of b.new) }
{
    let place = b.compute(expression, node.span)?;
    b.give(Value {
        what: What::Plain(place),
        shape: Shape::Plain,
        number,
    })
}

/// An operator of one operand.
#[tactic(auto, unfolding(crate::specs::Operators::unary))]
pub fn unary<'t>(b: &mut Body<'t>, op: u64, node: Node<'t>) -> Result<(), Refusal>
    ensures { Reads (spec.unary op (node_view node.entry) (state_of b.old))
        result (state_of b.new) }
{
    let value = b.settled(node)?;
    let number = computed(unary_number(op, value.number), node)?;
    let expr = handle_of(value);
    give_computed(b, Expression::Unary { op, expr }, number, node)
}

/// An operator of two operands: the right one is the last value, the left one is before it.
#[tactic(auto, unfolding(crate::specs::Operators::binary))]
pub fn binary<'t>(b: &mut Body<'t>, op: u64, node: Node<'t>) -> Result<(), Refusal>
    ensures { Reads (spec.binary op (node_view node.entry) (state_of b.old))
        result (state_of b.new) }
{
    let right = b.settled(node)?;
    let left = b.settled(node)?;
    let number = computed(binary_number(op, left.number, right.number), node)?;
    let (left, right) = (handle_of(left), handle_of(right));
    give_computed(b, Expression::Binary { op, left, right }, number, node)
}

/// Notes that something happens whose order matters.
pub fn note_effect(b: &mut Body<'_>)
    ensures { state_of b.new ≡ spec.with_effect (state_of b.old) }
{
    b.effects = b.effects.saturating_add(1);
}
