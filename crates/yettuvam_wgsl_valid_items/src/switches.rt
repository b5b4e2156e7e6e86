//! The arms of a `switch`.
ghost use Rattle.std.specs.Prelude.{◌≡◌, ◌++◌, ◌+◌, ◌<◌, ◌^◌, IfOk, OnOk};
ghost use Rattle.yettuvam_wgsl_valid_items.specs.Faults.{Tests};
ghost use Rattle.yettuvam_wgsl_valid_items.specs.Switches as spec;

use crate::distinct::{are_distinct, contains};
use crate::faults::{Reason, TestResult, refuse};
use naga_oil_ir::{Span, Token};
use std::alloc::{AllocError, Global};
use yettuvam_wgsl_names::form_codes::{DEFAULT_SELECTOR, SELECTOR_CLASS_UNIT};

/// The kind of a `switch` among statements.
pub const SWITCH_HEAD: u64 = 3;

/// The value of an arm that is the default.
pub const DEFAULT_VALUE: u64 = 0;

// The value of an arm: the number of its selector, plus 1, whatever its type; `DEFAULT_VALUE` for `default`.
fn arm_value(selector: u64) -> u64
    ensures { result ≡ spec.arm_value selector }
{
    if selector == DEFAULT_SELECTOR {
        DEFAULT_VALUE
    } else {
        selector % SELECTOR_CLASS_UNIT + 1
    }
}

// The number of open blocks after a token.
fn depth_after(depth: usize, token: Token) -> usize
    requires { depth + 1 < 2 ^ 64 }
    ensures { result ≡ spec.depth_after depth token }
{
    match token {
        Token::Open => depth + 1,
        Token::Close => depth.saturating_sub(1),
        _ => depth,
    }
}

// Whether a token outside of the arms ends the statement.
fn ends_statement(depth: usize, token: Token) -> bool
    ensures { result ≡ spec.ends_statement depth token }
{
    match token {
        Token::At(_) | Token::Close => depth == 0,
        _ => false,
    }
}

// The value of an arm, if a token outside of the arms is its selector.
fn selector_of(depth: usize, token: Token) -> Option<u64>
    ensures { result ≡ spec.selector_of depth token }
{
    match token {
        Token::Plain(selector) if depth == 0 => Some(arm_value(selector)),
        _ => None,
    }
}

fn push_some(out: &mut Vec<u64>, value: Option<u64>) -> Result<(), AllocError>
    ensures { OnOk result (out.new.items ≡ out.old.items ++ spec.listed value) }
{
    if let Some(value) = value {
        out.push(value)?;
    }
    Ok(())
}

// The values of the arms of a switch, from the tokens after its head.
#[tactic(auto, unfolding(crate::specs::Switches::arm_values))]
fn arm_values(alloc: Global, tokens: &[Token]) -> Result<Vec<u64>, AllocError>
    ensures { IfOk result (λ v. v.items ≡ spec.arm_values 0 tokens.now) }
{
    let mut out = Vec::new(alloc);
    let mut depth = 0;
    let mut rest = tokens;
    while let [token, more @ ..] = rest {
        if ends_statement(depth, *token) {
            return Ok(out);
        }
        push_some(&mut out, selector_of(depth, *token))?;
        depth = depth_after(depth, *token);
        rest = more;
    }
    Ok(out)
}

fn test_arms(values: &[u64], span: Span) -> TestResult
    ensures { Tests (spec.arms_valid values.now span) result }
{
    if !contains(values, DEFAULT_VALUE) {
        return refuse(Reason::NoDefault, span);
    }
    if !are_distinct(values) {
        return refuse(Reason::ArmTwice, span);
    }
    Ok(())
}

fn test_switch(alloc: Global, tokens: &[Token], span: Span) -> TestResult
    ensures { Tests (spec.switch_valid tokens.now span) result }
{
    let values = arm_values(alloc, tokens)?;
    test_arms(&values, span)
}

// Tests the switch whose head a token is, before some other tokens.
fn test_token(alloc: Global, token: Token, more: &[Token], span: Span) -> TestResult
    ensures { Tests (spec.token_valid token more.now span) result }
{
    match token {
        Token::Head(kind) if kind == SWITCH_HEAD => test_switch(alloc, more, span),
        _ => Ok(()),
    }
}

fn span_after(token: Token, span: Span) -> Span
    ensures { result ≡ spec.span_after token span }
{
    match token {
        Token::At(at) => at,
        _ => span,
    }
}

/// Tests the switches of a body: each has one default, and no two arms with the same value.
///
/// # Errors
/// `NoDefault` or `ArmTwice` at the first switch that breaks a rule. `Memory` if out of memory.
pub fn test_switches(alloc: Global, tokens: &[Token]) -> TestResult
    ensures { Tests (spec.switches_valid tokens.now) result }
{
    let mut span = Span::UNDEFINED;
    let mut rest = tokens;
    while let [token, more @ ..] = rest {
        test_token(alloc, *token, more, span)?;
        span = span_after(*token, span);
        rest = more;
    }
    Ok(())
}
