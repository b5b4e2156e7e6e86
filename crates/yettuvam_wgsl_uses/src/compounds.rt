// Assignments by an operator.
ghost use Rattle.std.specs.Prelude.{◌≡◌};
ghost use Rattle.naga_oil_ir.specs.ModuleValue.{expression_values};
ghost use Rattle.naga_oil_ir.specs.Parts.{parts};
ghost use Rattle.yettuvam_wgsl_lines.specs.Line.{line_value};
ghost use Rattle.yettuvam_wgsl_uses.specs.Compounds as spec;

use naga_oil_ir::{Arena, Expression, Operand};
use yettuvam_wgsl_lines::groups::is_set;
use yettuvam_wgsl_lines::{Line, STORE};

/// The last code of the operators that have an assignment. The first is 1.
pub const LAST_ASSIGNING: u64 = 10;

fn is_assigning(op: u64) -> bool
    ensures { result ≡ spec.is_assigning op }
{
    1 <= op && op <= LAST_ASSIGNING
}

#[tactic(auto, unfolding(crate::specs::Compounds::binary_of))]
fn binary_of(expression: &Expression) -> Option<(u64, Operand, Operand)>
    ensures { result ≡ spec.binary_of (parts expression.now) }
{
    match expression {
        Expression::Binary { op, left, right } => Some((*op, *left, *right)),
        _ => None,
    }
}

#[tactic(auto, unfolding(crate::specs::Compounds::loaded_by))]
fn loaded_by(expression: &Expression) -> Option<Operand>
    ensures { result ≡ spec.loaded_by (parts expression.now) }
{
    match expression {
        Expression::Load { pointer } => Some(*pointer),
        _ => None,
    }
}

// An expression that is an operation with two operands.
fn binary_in(expressions: &Arena<Expression>, place: Operand) -> Option<(u64, Operand, Operand)>
    ensures { result ≡ spec.binary_seen (expression_values expressions.now) place }
{
    match expressions.try_get(place) {
        Some(expression) => binary_of(expression),
        None => None,
    }
}

// The operator and operands of an expression that is no `let`.
fn binary_at(
    expressions: &Arena<Expression>,
    is_let: &[bool],
    place: Operand,
) -> Option<(u64, Operand, Operand)>
    ensures { result ≡ spec.binary_at (expression_values expressions.now) is_let.now place }
{
    if is_set(is_let, place) {
        None
    } else {
        binary_in(expressions, place)
    }
}

// The pointer from which an expression loads.
fn loaded_in(expressions: &Arena<Expression>, place: Operand) -> Option<Operand>
    ensures { result ≡ spec.loaded_seen (expression_values expressions.now) place }
{
    match expressions.try_get(place) {
        Some(expression) => loaded_by(expression),
        None => None,
    }
}

fn is_pointer(found: Option<Operand>, pointer: Operand) -> bool
    ensures { result ≡ spec.is_pointer found pointer }
{
    match found {
        Some(found) => found == pointer,
        None => false,
    }
}

// Whether an expression that is no `let` loads from a pointer.
fn loads(expressions: &Arena<Expression>, is_let: &[bool], place: Operand, pointer: Operand) -> bool
    ensures { result ≡ spec.loads (expression_values expressions.now) is_let.now place pointer }
{
    !is_set(is_let, place) && is_pointer(loaded_in(expressions, place), pointer)
}

/// Returns the operator and the right operand of an assignment by an operator, of a value to the place of a pointer.
pub fn compound(
    expressions: &Arena<Expression>,
    is_let: &[bool],
    pointer: Operand,
    value: Operand,
) -> Option<(u64, Operand)>
    ensures { result ≡ spec.compound (expression_values expressions.now) is_let.now pointer value }
{
    match binary_at(expressions, is_let, value) {
        Some((op, left, right)) => {
            if is_assigning(op) && loads(expressions, is_let, left, pointer) {
                Some((op, right))
            } else {
                None
            }
        }
        None => None,
    }
}

/// Returns the operator and the right operand of a line that is written as an assignment by an operator, if it is one: a store of
/// an operator's value whose left operand is read from where it stores to, both being part of the text of the line.
pub fn compound_by(
    expressions: &Arena<Expression>,
    is_let: &[bool],
    line: &Line,
) -> Option<(u64, Operand)>
    ensures { result ≡ spec.compound_by (expression_values expressions.now) is_let.now (line_value line.now) }
{
    if line.kind != STORE {
        return None;
    }
    match line.operands.as_slice() {
        [pointer, value] => compound(expressions, is_let, *pointer, *value),
        _ => None,
    }
}
