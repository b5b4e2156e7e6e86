//! The numbers of arguments of calls.
ghost use Rattle.std.specs.Prelude.{◌≡◌, ◌≤◌, IfOk, length};
ghost use Rattle.std.specs.List.{prefix_len};
ghost use Rattle.naga_oil_ir.specs.Body.{block_tokens};
ghost use Rattle.naga_oil_ir.specs.ModuleValue.{module_value, expression_values};
ghost use Rattle.naga_oil_ir.specs.Parts.{parts, math_parts};
ghost use Rattle.yettuvam_wgsl_valid.specs.Calls as spec;
ghost use Rattle.yettuvam_wgsl_valid_items.specs.Faults.{Tests};

use naga_oil_ir::{Block, Expression, Function, Handle, Math, Module, Span, Token, push_block};
use std::alloc::{AllocError, Global};
use yettuvam_wgsl_names::argument_counts;
use yettuvam_wgsl_valid_items::faults::{Reason, TestResult, refuse};

/// Returns the tokens of a body.
///
/// # Errors
/// If out of memory.
pub fn tokens_of(alloc: Global, body: &Block) -> Result<Vec<Token>, AllocError>
    ensures { IfOk result (λ v. v.items ≡ block_tokens body.now) }
{
    let mut tokens = Vec::new(alloc);
    push_block(body, &mut tokens)?;
    Ok(tokens)
}

fn is_use(token: Token) -> bool
    ensures { result ≡ spec.is_use token }
{
    matches!(token, Token::Use(_))
}

// The number of operands at the front.
fn use_count(tokens: &[Token]) -> usize
    ensures value { result ≡ prefix_len spec.is_use tokens.now }
    ensures within { result ≤ length tokens.now }
{
    tokens.iter().take_while(|t| is_use(**t)).count()
}

// Whether a function has this number of parameters.
fn has_parameters(of: &Module, function: Handle<Function>, count: usize) -> bool
    ensures { result ≡ spec.has_parameters (module_value of.now).functions function count }
{
    of.functions
        .try_get(function)
        .is_some_and(|f| f.arguments.len() == count)
}

// The span of the first statement with a call whose number of arguments isn't that of its function's parameters.
fn wrong_call(of: &Module, tokens: &[Token]) -> Option<Span>
    ensures { result ≡ spec.wrong_call (module_value of.now).functions tokens.now }
{
    let mut span = Span::UNDEFINED;
    for (place, token) in tokens.iter().enumerate() {
        match token {
            Token::At(at) => span = *at,
            Token::Callee(f) if !has_parameters(of, *f, use_count(&tokens[place + 1..])) => {
                return Some(span);
            }
            _ => {}
        }
    }
    None
}

/// Tests the calls of the module's functions in a body.
///
/// # Errors
/// `ArgumentCount` at the first statement with a call with a wrong number of arguments.
pub fn test_calls(of: &Module, tokens: &[Token]) -> TestResult
    ensures { Tests (spec.calls_valid (module_value of.now).functions tokens.now) result }
{
    match wrong_call(of, tokens) {
        Some(span) => refuse(Reason::ArgumentCount, span),
        None => Ok(()),
    }
}

fn argument_count(of: &Math) -> u64
    ensures { result ≡ spec.given_count (math_parts of.now).operands }
{
    1 + of.arg1.is_some() as u64 + of.arg2.is_some() as u64 + of.arg3.is_some() as u64
}

// The mathematical function of an expression that is a call of one, and the number of arguments.
fn math_call(of: &Expression) -> Option<(u64, u64)>
    ensures { result ≡ spec.math_call (parts of.now) }
{
    match of {
        Expression::Math(math) => Some((math.fun, argument_count(math))),
        _ => None,
    }
}

#[tactic(auto, unfolding(crate::specs::Calls::counts))]
fn counts(function: u64) -> Option<(u64, u64)>
    ensures { result ≡ spec.counts function }
{
    argument_counts(function)
}

fn takes(function: u64, count: u64) -> bool
    ensures { result ≡ spec.takes (spec.counts function) count }
{
    match counts(function) {
        Some((least, most)) => least <= count && count <= most,
        None => false,
    }
}

fn test_expression(of: &Expression, span: Span) -> TestResult
    ensures { Tests (spec.math_valid (parts of.now, span)) result }
{
    match math_call(of) {
        Some((function, count)) if !takes(function, count) => refuse(Reason::ArgumentCount, span),
        _ => Ok(()),
    }
}

/// Tests the calls of mathematical functions among expressions.
///
/// # Errors
/// `ArgumentCount` at the first with a number of arguments that the function doesn't take.
pub fn test_math(of: &Function) -> TestResult
    ensures { Tests (spec.all_math_valid (expression_values of.now.expressions)) result }
{
    for entry in of.expressions.as_slice() {
        test_expression(&entry.0, entry.1)?;
    }
    Ok(())
}
