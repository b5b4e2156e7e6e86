//! Lists of statements, and the statements that hold blocks or lists.

ghost use Rattle.std.specs.Prelude.{◌≡◌};
ghost use Rattle.naga_oil_ir.specs.Body.{block_tokens, statement_tokens, case_tokens};
ghost use Rattle.yettuvam_wgsl_values.specs.Blocks as spec;
ghost use Rattle.yettuvam_wgsl_values.specs.Blocks.{list_tokens, lists_tokens};

use naga_oil_ir::{Block, Function, Handle, Operand, Span, Statement, SwitchCase};
use std::alloc::Global;

/// Statements with their spans.
pub type Statements = Vec<(Statement, Span)>;

/// The block of some statements.
pub fn block_of(body: Statements) -> Block
    ensures { block_tokens result ≡ list_tokens body }
{
    Block { body }
}

/// The last list, which is taken; of none, no statements.
pub fn pop_list(alloc: Global, lists: &mut Vec<Statements>) -> Statements
    ensures value { list_tokens result ≡ spec.last_tokens (lists_tokens lists.old.items) }
    ensures rest { lists_tokens lists.new.items ≡ spec.front (lists_tokens lists.old.items) }
{
    match lists.pop() {
        Some(last) => last,
        None => Vec::new(alloc),
    }
}

/// A block that stands among statements.
#[tactic(auto, using(crate::proofs::Stated::inner_tokens))]
pub fn block_statement(block: Block) -> Statement
    ensures { statement_tokens result ≡ spec.block_statement (block_tokens block) }
{
    Statement::Block(block)
}

/// An `if` with both of its blocks.
#[tactic(auto, using(crate::proofs::Stated::if_tokens))]
pub fn if_statement(condition: Operand, accept: Block, reject: Block) -> Statement
    ensures { statement_tokens result
        ≡ spec.if_statement condition (block_tokens accept) (block_tokens reject) }
{
    Statement::If {
        condition,
        accept,
        reject,
    }
}

/// An arm of a switch.
#[tactic(auto, using(crate::proofs::Stated::arm_tokens))]
pub fn arm_of(value: u64, body: Block, falls_through: bool) -> SwitchCase
    ensures { case_tokens result ≡ spec.arm value (block_tokens body) falls_through }
{
    SwitchCase {
        value,
        body,
        fall_through: falls_through,
    }
}

/// A switch with its arms.
#[tactic(auto, using(crate::proofs::Stated::switch_of_arms))]
pub fn switch_statement(selector: Operand, arms: Vec<SwitchCase>) -> Statement
    ensures { statement_tokens result ≡ spec.switch_statement selector (spec.arms_tokens arms) }
{
    Statement::Switch {
        selector,
        cases: arms,
    }
}

/// A loop: its body, what continues it, and the condition that ends it.
#[tactic(auto, using(crate::proofs::Stated::loop_tokens))]
pub fn loop_statement(body: Block, continuing: Block, break_if: Option<Operand>) -> Statement
    ensures { statement_tokens result
        ≡ spec.loop_statement (block_tokens body) (block_tokens continuing) break_if }
{
    Statement::Loop {
        body,
        continuing,
        break_if,
    }
}

/// A call of a function of the module, with the expression of its result.
#[tactic(auto, using(crate::proofs::Stated::call_tokens))]
pub fn call_statement(
    callee: Handle<Function>,
    arguments: Vec<Operand>,
    returned: Option<Operand>,
) -> Statement
    ensures { statement_tokens result ≡ spec.call_statement callee arguments.items returned }
{
    Statement::Call {
        callee,
        arguments,
        result: returned,
    }
}
