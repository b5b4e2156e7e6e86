// Shared parts of the tests of form: spans, tokens, and the kinds and operands of expressions.
ghost use Rattle.std.specs.Prelude.{◌≡◌, ◌↔◌, ◌<◌, ℕ, IsTrue, IfOk, IfSome, All, map, slice_get, option_to_list};
ghost use Rattle.std.specs.List.{flat_map};
ghost use Rattle.naga_oil_form.specs.BodyForm.{IsSpanFine, IsTokenFine, IsReading, is_external, is_result, callee};

use naga_oil_ir::{
    Expression, FIRST_OPERATION_KIND, FIRST_RESULT_KIND, LAST_EXTERNAL_KIND, Named, Operand, Span,
    Token,
};
use std::alloc::{AllocError, Global};

/// Returns whether a span lies in a text of `text_len` bytes.
pub fn is_span_fine(span: Span, text_len: usize) -> bool
    ensures { IsTrue result ↔ IsSpanFine text_len span }
{
    span.start <= span.end && span.end as usize <= text_len
}

/// Returns whether the spans of items lie in a text of `text_len` bytes.
pub fn are_spans_fine<T>(items: &[(T, Span)], text_len: usize) -> bool
    ensures { IsTrue result ↔ All (λ e. IsSpanFine text_len e.1) items.now }
{
    items.iter().all(|item| is_span_fine(item.1, text_len))
}

fn is_token_fine(token: Token, calls_below: usize, text_len: usize) -> bool
    ensures { IsTrue result ↔ IsTokenFine calls_below text_len token }
{
    match token {
        Token::Callee(function) => function.index() < calls_below,
        Token::At(span) => is_span_fine(span, text_len),
        _ => true,
    }
}

/// Returns whether a body calls only the first `calls_below` functions, and its spans lie in a text of `text_len` bytes.
pub fn are_tokens_fine(tokens: &[Token], calls_below: usize, text_len: usize) -> bool
    ensures { IsTrue result ↔ All (IsTokenFine calls_below text_len) tokens.now }
{
    tokens
        .iter()
        .all(|token| is_token_fine(*token, calls_below, text_len))
}

fn present(operands: &[Option<Operand>], alloc: Global) -> Result<Vec<usize>, AllocError>
    ensures { IfOk result (λ v. v.items ≡ flat_map option_to_list operands.now) }
{
    let mut places = Vec::new(alloc);
    for operand in operands {
        let Some(handle) = operand else { continue };
        places.push(handle.index())?;
    }
    Ok(places)
}

/// The parts of expressions that the test of form needs, one entry for each expression.
#[derive(Drop)]
pub struct ExpressionParts {
    pub kinds: Vec<u64>,
    pub named: Vec<Named>,
    /// The operands that are present.
    pub links: Vec<Vec<usize>>,
}

/// Reads the parts of expressions.
///
/// # Errors
/// If out of memory.
pub fn read(items: &[(Expression, Span)], alloc: Global) -> Result<ExpressionParts, AllocError>
    ensures { IfOk result (IsReading items.now) }
{
    let mut read = ExpressionParts {
        kinds: Vec::new(alloc),
        named: Vec::new(alloc),
        links: Vec::new(alloc),
    };
    for entry in items {
        let parts = entry.0.parts(alloc)?;
        let operands = present(&parts.operands, alloc)?;
        read.kinds.push(parts.kind)?;
        read.named.push(parts.named)?;
        read.links.push(operands)?;
    }
    Ok(read)
}

/// Returns whether the expression at a place is external.
pub fn is_external(kinds: &[u64], place: usize) -> bool
    ensures { result ≡ is_external kinds.now place }
{
    kinds
        .get(place)
        .is_some_and(|kind| *kind < FIRST_RESULT_KIND)
}

/// Returns whether the expression at a place is a result.
pub fn is_result(kinds: &[u64], place: usize) -> bool
    ensures { result ≡ is_result kinds.now place }
{
    kinds.get(place).is_some_and(|kind| LAST_EXTERNAL_KIND < *kind && *kind < FIRST_OPERATION_KIND)
}

/// Returns the called function if the expression at a place is the result of a call.
pub fn callee_at(named: &[Named], place: usize) -> Option<Option<usize>>
    ensures { result ≡ slice_get (map callee named.now) place }
{
    match named.get(place) {
        None => None,
        Some(Named::FunctionAt(function)) => Some(Some(function.index())),
        Some(_) => Some(None),
    }
}
