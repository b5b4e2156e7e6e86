// The parts of a statement: its tokens up to the next statement or block.
ghost use Rattle.std.specs.Prelude.{◌≡◌, ◌++◌, IfOk, OnOk, option_to_list};
ghost use Rattle.yettuvam_wgsl_lines.specs.Parts as spec;

use crate::line::{ATOMIC, BALLOT, BARRIER, COLLECTIVE, GATHER, IMAGE_STORE, UNIFORM_LOAD};
use naga_oil_ir::{Operand, Token};
use std::alloc::{AllocError, Global};
use yettuvam_wgsl_names::functions::{
    SUBGROUP_BALLOT, SUBGROUP_ELECT, TEXTURE_STORE, WORKGROUP_UNIFORM_LOAD,
};
use yettuvam_wgsl_natures::NO_FUNCTION;

fn is_own(token: Token) -> bool
    ensures { result ≡ spec.is_own token }
{
    match token {
        Token::At(_) => false,
        Token::Head(_) => false,
        Token::Open => false,
        Token::Close => false,
        _ => true,
    }
}

fn used(token: Token) -> Option<Operand>
    ensures { result ≡ spec.used token }
{
    match token {
        Token::Use(operand) => Some(operand),
        _ => None,
    }
}

fn given(token: Token) -> Option<Operand>
    ensures { result ≡ spec.given token }
{
    match token {
        Token::Give(given) => Some(given),
        Token::GiveCall(_, given) => Some(given),
        _ => None,
    }
}

fn push_used(out: &mut Vec<Operand>, token: Token) -> Result<(), AllocError>
    ensures { OnOk result (out.new.items ≡ out.old.items ++ option_to_list (spec.used token)) }
{
    match used(token) {
        Some(operand) => Ok(out.push(operand)?),
        None => Ok(()),
    }
}

// The operands of a statement in the order of copying, from the tokens after its head.
fn used_by(alloc: Global, tokens: &[Token]) -> Result<Vec<Operand>, AllocError>
    ensures { IfOk result (λ v. v.items ≡ spec.used_by tokens.now) }
{
    let mut operands = Vec::new(alloc);
    let mut rest = tokens;
    while let [token, more @ ..] = rest {
        if !is_own(*token) {
            return Ok(operands);
        }
        push_used(&mut operands, *token)?;
        rest = more;
    }
    Ok(operands)
}

/// Returns the result of a statement, from the tokens after its head.
pub fn made_by(tokens: &[Token]) -> Option<Operand>
    ensures { result ≡ spec.made_by tokens.now }
{
    let mut rest = tokens;
    while let [token, more @ ..] = rest {
        if !is_own(*token) {
            return None;
        }
        if let Some(given) = given(*token) {
            return Some(given);
        }
        rest = more;
    }
    None
}

// The text of some statements begins with the second operand.
fn has_second_first(kind: u64, count: usize) -> bool
    ensures { result ≡ spec.has_second_first kind count }
{
    (kind == ATOMIC && count == 3) || (kind == GATHER && count == 2)
}

/// Returns the operands of a statement in the order of the text, from the tokens after its head.
///
/// # Errors
/// If out of memory.
pub fn operands_by(alloc: Global, kind: u64, tokens: &[Token]) -> Result<Vec<Operand>, AllocError>
    ensures { IfOk result (λ v. v.items ≡ spec.operands_by kind tokens.now) }
{
    let mut operands = used_by(alloc, tokens)?;
    if has_second_first(kind, operands.len()) {
        operands.swap(0, 1);
    }
    Ok(operands)
}

fn first_code(tokens: &[Token]) -> u64
    ensures { result ≡ spec.first_code tokens.now }
{
    match tokens {
        [Token::Plain(code), ..] => *code,
        _ => NO_FUNCTION,
    }
}

fn has_code(kind: u64) -> bool
    ensures { result ≡ spec.has_code kind }
{
    kind == BARRIER || kind == ATOMIC || kind == GATHER || kind == COLLECTIVE
}

/// Returns the code of the built-in function that a statement calls, or `NO_FUNCTION`.
pub fn function_by(kind: u64, operands: &[Operand], tokens: &[Token]) -> u64
    ensures { result ≡ spec.function_by kind operands.now tokens.now }
{
    if has_code(kind) {
        first_code(tokens)
    } else if kind == IMAGE_STORE {
        TEXTURE_STORE
    } else if kind == UNIFORM_LOAD {
        WORKGROUP_UNIFORM_LOAD
    } else if kind != BALLOT {
        NO_FUNCTION
    } else if operands.is_empty() {
        SUBGROUP_ELECT
    } else {
        SUBGROUP_BALLOT
    }
}

/// Returns the condition that ends a loop, from the tokens after the end of its last block.
pub fn condition_by(tokens: &[Token]) -> Option<Operand>
    ensures { result ≡ spec.condition_by tokens.now }
{
    match tokens {
        [first, ..] => used(*first),
        _ => None,
    }
}
