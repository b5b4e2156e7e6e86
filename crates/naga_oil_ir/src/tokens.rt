// A body as one list of tokens.
ghost use Rattle.std.specs.Prelude.{◌≡◌, ◌++◌, MatchResult, length, map, take};
ghost use Rattle.naga_oil_ir.specs.Body.{block_tokens, statement_tokens, case_tokens, ray_query_tokens, inside, used, given, given_by};

use super::*;
use Token::{Callee, Emitted, Flag, Give, Head, Plain, Use};
use std::alloc::AllocError;

/// A part of a body. A list of tokens gives the parts in order, without nested blocks.
#[derive(Clone, Copy)]
pub enum Token {
    /// The span of the statement that follows.
    At(Span),
    /// The kind of a statement.
    Head(u64),
    /// A plain value.
    Plain(u64),
    Flag(bool),
    /// An option that is absent.
    Absent,
    /// An operand.
    Use(Handle<Expression>),
    /// The result of a statement that is no call.
    Give(Handle<Expression>),
    /// The result of a call, with the called function.
    GiveCall(Handle<Function>, Handle<Expression>),
    Emitted(Range<Expression>),
    Callee(Handle<Function>),
    /// The begin of a block, and its end.
    Open,
    Close,
}

fn used(handle: Option<Operand>) -> Token
    ensures { result ≡ used handle }
{
    handle.map_or(Token::Absent, |h| Token::Use(h))
}

fn given_by(function: Handle<Function>, handle: Option<Operand>) -> Token
    ensures { result ≡ given_by function handle }
{
    handle.map_or(Token::Absent, |h| Token::GiveCall(function, h))
}

fn given(handle: Option<Operand>) -> Token
    ensures { result ≡ given handle }
{
    handle.map_or(Token::Absent, |h| Token::Give(h))
}

/// Pushes tokens.
macro_rules! push {
    ($out:ident; $($token:expr),*) => {
        $out.extend_from_slice(&[$($token),*])
    };
}

#[rattlefmt::skip]
fn push_ray_query(fun: &RayQueryFunction, out: &mut Vec<Token>) -> Result<(), AllocError>
    ensures { let old = out.old.items in
        let told = ray_query_tokens fun.now in
        MatchResult result (λ _. out.new.items ≡ old ++ told)
        (λ _. take (length old) out.new.items ≡ old) }
{
    match fun {
        RayQueryFunction::Initialize { acceleration_structure, descriptor } =>
            push!(out; Plain(0), Use(*acceleration_structure), Use(*descriptor)),
        RayQueryFunction::Proceed { result } => push!(out; Plain(1), Give(*result)),
        RayQueryFunction::Terminate => push!(out; Plain(2)),
        RayQueryFunction::GenerateIntersection { hit_t } => push!(out; Plain(3), Use(*hit_t)),
        RayQueryFunction::ConfirmIntersection => push!(out; Plain(4)),
    }
}

fn push_uses(handles: &[Operand], out: &mut Vec<Token>) -> Result<(), AllocError>
    ensures { let old = out.old.items in
        let told = map Token.Use handles.now in
        MatchResult result (λ _. out.new.items ≡ old ++ told)
        (λ _. take (length old) out.new.items ≡ old) }
{
    for h in handles {
        out.push(Token::Use(*h))?;
    }
    Ok(())
}

/// Pushes the tokens of a block inside a statement.
///
/// # Errors
/// If out of memory.
#[cycle(tokens)]
fn push_inside(block: &Block, out: &mut Vec<Token>) -> Result<(), AllocError>
    ensures { let old = out.old.items in
        let told = inside (block_tokens block.now) in
        MatchResult result (λ _. out.new.items ≡ old ++ told)
        (λ _. take (length old) out.new.items ≡ old) }
{
    out.push(Token::Open)?;
    push_block(block, out)?;
    out.push(Token::Close)?;
    Ok(())
}

/// Pushes the tokens of a body.
///
/// # Errors
/// If out of memory: `out` then begins with what it held before.
#[cycle(tokens)]
pub fn push_block(block: &Block, out: &mut Vec<Token>) -> Result<(), AllocError>
    ensures { let old = out.old.items in
        let told = block_tokens block.now in
        MatchResult result (λ _. out.new.items ≡ old ++ told)
        (λ _. take (length old) out.new.items ≡ old) }
{
    for entry in &block.body {
        out.push(Token::At(entry.1))?;
        push_statement(&entry.0, out)?;
    }
    Ok(())
}

/// Pushes the tokens of a statement, without its span.
///
/// # Errors
/// If out of memory.
#[cycle(tokens)]
#[rattlefmt::skip]
fn push_statement(statement: &Statement, out: &mut Vec<Token>) -> Result<(), AllocError>
    ensures { let old = out.old.items in
        let told = statement_tokens statement.now in
        MatchResult result (λ _. out.new.items ≡ old ++ told)
        (λ _. take (length old) out.new.items ≡ old) }
{
    match statement {
        Statement::Emit(range) => push!(out; Head(0), Emitted(*range)),
        Statement::Block(block) => {
            out.push(Token::Head(1))?;
            push_inside(block, out)
        }
        Statement::If { condition, accept, reject } => {
            push!(out; Head(2), Use(*condition))?;
            push_inside(accept, out)?;
            push_inside(reject, out)
        }
        Statement::Switch { selector, cases } => {
            push!(out; Head(3), Use(*selector))?;
            for case in cases {
                push!(out; Plain(case.value), Flag(case.fall_through))?;
                push_inside(&case.body, out)?;
            }
            Ok(())
        }
        Statement::Loop { body, continuing, break_if } => {
            out.push(Token::Head(4))?;
            push_inside(body, out)?;
            push_inside(continuing, out)?;
            push!(out; used(*break_if))
        }
        Statement::Break => push!(out; Head(5)),
        Statement::Continue => push!(out; Head(6)),
        Statement::Kill => push!(out; Head(7)),
        Statement::ControlBarrier(code) => push!(out; Head(8), Plain(*code)),
        Statement::MemoryBarrier(code) => push!(out; Head(9), Plain(*code)),
        Statement::Return { value } => push!(out; Head(10), used(*value)),
        Statement::Store { pointer, value } => push!(out; Head(11), Use(*pointer), Use(*value)),
        Statement::ImageStore { image, coordinate, array_index, value } =>
            push!(out; Head(12), Use(*image), Use(*coordinate), used(*array_index), Use(*value)),
        Statement::Atomic { pointer, fun, compare, value, result } =>
            push!(out; Head(13), Plain(*fun), used(*compare), Use(*pointer), Use(*value), given(*result)),
        Statement::ImageAtomic { image, coordinate, array_index, fun, compare, value } =>
            push!(out; Head(14), Plain(*fun), used(*compare), Use(*image), Use(*coordinate), used(*array_index), Use(*value)),
        Statement::WorkGroupUniformLoad { pointer, result } => push!(out; Head(15), Use(*pointer), Give(*result)),
        Statement::Call { callee, arguments, result } => {
            push!(out; Head(16), Callee(*callee))?;
            push_uses(arguments, out)?;
            push!(out; given_by(*callee, *result))
        }
        Statement::RayQuery { query, fun } => {
            push!(out; Head(17), Use(*query))?;
            push_ray_query(fun, out)
        }
        Statement::SubgroupBallot { result, predicate } => push!(out; Head(18), Give(*result), used(*predicate)),
        Statement::SubgroupGather { mode, index, argument, result } =>
            push!(out; Head(19), Plain(*mode), used(*index), Use(*argument), Give(*result)),
        Statement::SubgroupCollectiveOperation { op, collective, argument, result } =>
            push!(out; Head(20), Plain(*op), Plain(*collective), Use(*argument), Give(*result)),
    }
}
