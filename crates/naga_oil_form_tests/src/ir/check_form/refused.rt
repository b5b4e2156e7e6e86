//! Where memory is refused, a result is that with ample memory, or out of memory. So these tests pass whichever
//! allocation is refused.
use super::every_kind::{EVERY, EXPRESSIONS, STATEMENTS, block, expression_of, statement_of};
use super::{Added, Case, Entered, Entry, G, SMALL, Shape, Shaped, Special, is_taken};
use naga_oil_ir::*;
use std::alloc::{AllocError, Global};

const EVERY_FUNCTION: Added = Shaped(EVERY);

/// Every kind, and what is wrong in the special types, the functions or the entry points; in the last case nothing.
#[rattlefmt::skip]
static PARTS: [Case; 6] = [
    (&[Added::Override, Added::Global, EVERY_FUNCTION, Special(0, 1)], "", false),
    (&[Added::Override, Added::Global, EVERY_FUNCTION, Shaped(Shape { name: Some("main"), span: Span { start: 2, end: 1 }, ..G })], "", false),
    (&[Added::Override, Added::Global, EVERY_FUNCTION, Shaped(G)], "", false),
    (&[Added::Override, Added::Global, EVERY_FUNCTION, Added::Constant(0, 1)], "", false),
    (&[Added::Override, Added::Global, EVERY_FUNCTION, Entered(Entry { shape: G, size: Some(1), output: None, payload: None })], "", false),
    (&[Added::Override, Added::Global, EVERY_FUNCTION], "", true),
];

/// Whether the test of form has the expected result of a case, or is out of memory.
fn is_part_told(case: Case, alloc: Global) -> bool {
    let (items, decoration, should) = case;
    match is_taken(&SMALL, items, decoration, alloc) {
        Ok(taken) => taken == should,
        Err(_) => true,
    }
}

#[test]
fn a_refused_test_of_form_takes_no_other_module(rt: HostRuntime) {
    for case in &PARTS {
        assert!(rt; is_part_told(*case, rt.alloc()));
    }
}

/// Whether an expression is read as one of a kind, or memory ran out.
fn is_read_as(expression: &Expression, kind: u64, alloc: Global) -> bool {
    match expression.parts(alloc) {
        Ok(parts) => parts.kind == kind,
        Err(_) => true,
    }
}

/// Whether the expression of a kind is read as one of that kind, or memory ran out.
fn is_expression_read(kind: u64, alloc: Global) -> bool {
    match expression_of(kind, 0, alloc) {
        Ok(expression) => is_read_as(&expression, kind, alloc),
        Err(_) => true,
    }
}

#[test]
fn a_refused_expression_is_read_as_no_other(rt: HostRuntime) {
    for kind in 0..EXPRESSIONS {
        assert!(rt; is_expression_read(kind, rt.alloc()));
    }
}

/// Whether tokens begin as those of a statement of a kind.
fn begin_as(tokens: &[Token], kind: u64) -> bool {
    matches!(tokens.get(1), Some(Token::Head(told)) if *told == kind)
}

/// Whether the tokens of a block begin as those of a statement of a kind, or memory ran out.
fn is_of_kind(block: &Block, kind: u64, alloc: Global) -> bool {
    let mut tokens = Vec::new(alloc);
    push_block(block, &mut tokens).is_err() || begin_as(&tokens, kind)
}

fn block_of(kind: u64, alloc: Global) -> Result<Block, AllocError> {
    block(statement_of(kind, alloc)?, alloc)
}

/// Whether the statement of a kind is read as one of that kind, or memory ran out.
fn is_statement_read(kind: u64, alloc: Global) -> bool {
    match block_of(kind, alloc) {
        Ok(block) => is_of_kind(&block, kind, alloc),
        Err(_) => true,
    }
}

#[test]
fn a_refused_body_is_read_as_no_other(rt: HostRuntime) {
    for kind in 0..STATEMENTS {
        assert!(rt; is_statement_read(kind, rt.alloc()));
    }
}
