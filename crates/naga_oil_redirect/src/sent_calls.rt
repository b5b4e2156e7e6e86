//! Redirects the calls of a function from one function to another.
ghost use Rattle.std.specs.Prelude.{◌≡◌, map, ◌==◌, if◌then◌else◌};
ghost use Rattle.std.specs.List.{flat_map};
ghost use Rattle.naga_oil_ir.specs.Parts.{parts};
ghost use Rattle.naga_oil_ir.specs.Body.{block_tokens, statement_tokens, case_tokens};
ghost use Rattle.naga_oil_ir.specs.ModuleValue.{function_value};
ghost use Rattle.naga_oil_rename.specs.Renames.{rename, rename_tokens};
ghost use Rattle.naga_oil_redirect.specs.Redirected.{sent, send};

use super::*;

/// The function that a call is of.
type Callee = Handle<Function>;

/// Redirects a call.
fn send_callee(function: &mut Callee, from: Callee, to: Callee)
    ensures { function.new ≡ (sent from to).function function.old }
{
    if *function == from {
        *function = to;
    }
}

/// Redirects the calls in a body.
#[cycle(sending)]
fn send_block(block: &mut Block, from: Callee, to: Callee)
    ensures { block_tokens block.new ≡ rename_tokens (sent from to) (block_tokens block.old) }
{
    for place in 0..block.body.len() {
        send_statement(&mut block.body[place].0, from, to);
    }
}

/// Redirects the calls in the arms of a switch.
#[cycle(sending)]
fn send_cases(cases: &mut Vec<SwitchCase>, from: Callee, to: Callee)
    ensures { let renamed = rename_tokens (sent from to) (flat_map case_tokens cases.old.items) in
        flat_map case_tokens cases.new.items ≡ renamed }
{
    for place in 0..cases.len() {
        send_block(&mut cases[place].body, from, to);
    }
}

/// Redirects the calls in a statement.
#[rattlefmt::skip]
#[cycle(sending)]
fn send_statement(statement: &mut Statement, from: Callee, to: Callee)
    ensures { let renamed = rename_tokens (sent from to) (statement_tokens statement.old) in
        statement_tokens statement.new ≡ renamed }
{
    match mem::replace(statement, Statement::Break) {
        Statement::Call { mut callee, arguments, result } => {
            send_callee(&mut callee, from, to);
            *statement = Statement::Call { callee, arguments, result };
        }
        Statement::Block(mut block) => {
            send_block(&mut block, from, to);
            *statement = Statement::Block(block);
        }
        Statement::If { condition, mut accept, mut reject } => {
            send_block(&mut accept, from, to);
            send_block(&mut reject, from, to);
            *statement = Statement::If { condition, accept, reject };
        }
        Statement::Switch { selector, mut cases } => {
            send_cases(&mut cases, from, to);
            *statement = Statement::Switch { selector, cases };
        }
        Statement::Loop { mut body, mut continuing, break_if } => {
            send_block(&mut body, from, to);
            send_block(&mut continuing, from, to);
            *statement = Statement::Loop { body, continuing, break_if };
        }
        other => *statement = other,
    }
}

fn send_result(expression: &mut Expression, from: Callee, to: Callee)
    ensures { parts expression.new ≡ rename (sent from to) (parts expression.old) }
{
    if let Expression::CallResult(function) = expression {
        send_callee(function, from, to);
    }
}

/// Redirects the calls in a function, with their results.
pub fn send_calls(function: &mut Function, from: Callee, to: Callee, alloc: Global)
    ensures { function_value function.new ≡ send from to (function_value function.old) }
{
    let mut expressions = mem::replace(&mut function.expressions, Arena::new(alloc)).into_items();
    for entry in expressions.iter_mut() {
        send_result(&mut entry.0, from, to);
    }
    function.expressions = Arena::from_items(expressions);
    send_block(&mut function.body, from, to);
}
