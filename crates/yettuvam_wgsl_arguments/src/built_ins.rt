//! What built-in functions make of their arguments: expressions and statements.

ghost use Rattle.std.specs.Prelude.{◌≡◌};
ghost use Rattle.naga_oil_ir.specs.Body.{statement_tokens};
ghost use Rattle.naga_oil_ir.specs.Parts.{parts, math_parts};
ghost use Rattle.yettuvam_wgsl_machine.specs.Machine.{node_view};
ghost use Rattle.yettuvam_wgsl_scope.specs.Refused.{Gives};
ghost use Rattle.yettuvam_wgsl_values.specs.Value.{values_view};
ghost use Rattle.yettuvam_wgsl_arguments.specs.BuiltIns as spec;

use crate::arguments::{handle_at, operand_at};
use naga_oil_ir::{Expression, Math, Operand, Statement};
use std::alloc::Global;
use yettuvam_wgsl_machine::symbol::Node;
use yettuvam_wgsl_names::functions::ATOMIC_COMPARE_EXCHANGE_WEAK;
use yettuvam_wgsl_scope::Refusal;
use yettuvam_wgsl_types::{EXCHANGE_RESULT, NOT_TOLD};
use yettuvam_wgsl_values::Value;

/// A collective operation that isn't one of a scan.
const NO_SCAN: u64 = 0;

/// A mathematical function of up to four arguments.
#[tactic(auto, unfolding(crate::specs::BuiltIns::math))]
pub fn math<'t>(code: u64, args: &[Value<'t>], node: Node<'t>) -> Result<Math, Refusal>
    ensures { Gives math_parts result
        (spec.math code (values_view args.now) (node_view node.entry)) }
{
    let arg = operand_at(args, 0, node)?;
    Ok(Math {
        fun: code,
        arg,
        arg1: handle_at(args, 1),
        arg2: handle_at(args, 2),
        arg3: handle_at(args, 3),
    })
}

/// A mathematical function as an expression.
#[tactic(auto, unfolding(crate::specs::BuiltIns::math))]
pub fn math_expression<'t>(
    alloc: Global,
    code: u64,
    args: &[Value<'t>],
    node: Node<'t>,
) -> Result<Expression, Refusal>
    ensures { Gives parts result (spec.math code (values_view args.now) (node_view node.entry)) }
{
    let math = math(code, args, node)?;
    Ok(Expression::Math(Box::new(alloc, math)?))
}

/// `all` or `any`.
#[tactic(auto, unfolding(crate::specs::BuiltIns::relational))]
pub fn relational<'t>(fun: u64, args: &[Value<'t>], node: Node<'t>) -> Result<Expression, Refusal>
    ensures { Gives parts result
        (spec.relational fun (values_view args.now) (node_view node.entry)) }
{
    let argument = operand_at(args, 0, node)?;
    Ok(Expression::Relational { fun, argument })
}

/// A derivative.
#[tactic(auto, unfolding(crate::specs::BuiltIns::derivative))]
pub fn derivative<'t>(axis: u64, args: &[Value<'t>], node: Node<'t>) -> Result<Expression, Refusal>
    ensures { Gives parts result
        (spec.derivative axis (values_view args.now) (node_view node.entry)) }
{
    let expr = operand_at(args, 0, node)?;
    Ok(Expression::Derivative { axis, expr })
}

/// `select`: the second argument if the third holds, else the first.
#[tactic(auto, unfolding(crate::specs::BuiltIns::select))]
pub fn select<'t>(args: &[Value<'t>], node: Node<'t>) -> Result<Expression, Refusal>
    ensures { Gives parts result (spec.select (values_view args.now) (node_view node.entry)) }
{
    let condition = operand_at(args, 2, node)?;
    let accept = operand_at(args, 1, node)?;
    let reject = operand_at(args, 0, node)?;
    Ok(Expression::Select {
        condition,
        accept,
        reject,
    })
}

/// `arrayLength`.
#[tactic(auto, unfolding(crate::specs::BuiltIns::array_length))]
pub fn array_length<'t>(args: &[Value<'t>], node: Node<'t>) -> Result<Expression, Refusal>
    ensures { Gives parts result
        (spec.array_length (values_view args.now) (node_view node.entry)) }
{
    let array = operand_at(args, 0, node)?;
    Ok(Expression::ArrayLength(array))
}

/// The type of an atomic function's result, and 1 if it is that of a comparison.
pub fn atomic_result(code: u64) -> (u64, u64)
    ensures { result ≡ spec.atomic_result code }
{
    if code == ATOMIC_COMPARE_EXCHANGE_WEAK {
        (EXCHANGE_RESULT, 1)
    } else {
        (NOT_TOLD, 0)
    }
}

#[tactic(auto, unfolding(crate::specs::BuiltIns::exchange))]
fn exchange<'t>(
    code: u64,
    given: Option<Operand>,
    args: &[Value<'t>],
    node: Node<'t>,
) -> Result<Statement, Refusal>
    ensures { Gives statement_tokens result
        (spec.exchange code given (values_view args.now) (node_view node.entry)) }
{
    let pointer = operand_at(args, 0, node)?;
    let compare = operand_at(args, 1, node)?;
    let value = operand_at(args, 2, node)?;
    Ok(Statement::Atomic {
        pointer,
        fun: code,
        compare: Some(compare),
        value,
        result: given,
    })
}

#[tactic(auto, unfolding(crate::specs::BuiltIns::plain_atomic))]
fn plain_atomic<'t>(
    code: u64,
    given: Option<Operand>,
    args: &[Value<'t>],
    node: Node<'t>,
) -> Result<Statement, Refusal>
    ensures { Gives statement_tokens result
        (spec.plain_atomic code given (values_view args.now) (node_view node.entry)) }
{
    let pointer = operand_at(args, 0, node)?;
    let value = operand_at(args, 1, node)?;
    Ok(Statement::Atomic {
        pointer,
        fun: code,
        compare: None,
        value,
        result: given,
    })
}

/// An atomic function that writes, with the expression of its result, if that is used.
#[tactic(auto, unfolding(crate::specs::BuiltIns::atomic))]
pub fn atomic<'t>(
    code: u64,
    given: Option<Operand>,
    args: &[Value<'t>],
    node: Node<'t>,
) -> Result<Statement, Refusal>
    ensures { Gives statement_tokens result
        (spec.atomic code given (values_view args.now) (node_view node.entry)) }
{
    if code == ATOMIC_COMPARE_EXCHANGE_WEAK {
        exchange(code, given, args, node)
    } else {
        plain_atomic(code, given, args, node)
    }
}

/// A collective operation of a subgroup, with the expression of its result.
#[tactic(auto, unfolding(crate::specs::BuiltIns::collective))]
pub fn collective<'t>(
    op: u64,
    returned: Operand,
    args: &[Value<'t>],
    node: Node<'t>,
) -> Result<Statement, Refusal>
    ensures { Gives statement_tokens result
        (spec.collective op returned (values_view args.now) (node_view node.entry)) }
{
    let argument = operand_at(args, 0, node)?;
    Ok(Statement::SubgroupCollectiveOperation {
        op,
        collective: NO_SCAN,
        argument,
        result: returned,
    })
}

/// A read of a value of another invocation of the subgroup, with the expression of its result.
#[tactic(auto, unfolding(crate::specs::BuiltIns::gather))]
pub fn gather<'t>(
    mode: u64,
    returned: Operand,
    args: &[Value<'t>],
    node: Node<'t>,
) -> Result<Statement, Refusal>
    ensures { Gives statement_tokens result
        (spec.gather mode returned (values_view args.now) (node_view node.entry)) }
{
    let argument = operand_at(args, 0, node)?;
    Ok(Statement::SubgroupGather {
        mode,
        index: handle_at(args, 1),
        argument,
        result: returned,
    })
}
