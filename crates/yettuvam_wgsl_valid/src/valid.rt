//! The test of a module.
ghost use Rattle.std.specs.Prelude.{◌≡◌, IfOk, map};
ghost use Rattle.naga_oil_ir.specs.ModuleValue.{module_value, function_value, entry_value};
ghost use Rattle.yettuvam_wgsl_valid.specs.Bindings.{uses_view};
ghost use Rattle.yettuvam_wgsl_valid_items.specs.Faults.{Tests};
ghost use Rattle.yettuvam_wgsl_valid.specs.Valid as spec;

use crate::bindings::{Uses, last_first, test_bindings, test_spaces, uses_of};
use crate::calls::{test_calls, test_math, tokens_of};
use crate::flow::test_flow;
use crate::interfaces::test_interface;
use naga_oil_ir::{EntryPoint, Function, Module, Span, Token};
use std::alloc::{AllocError, Global};
use yettuvam_wgsl_valid_items::faults::TestResult;
use yettuvam_wgsl_valid_items::{test_constructors, test_items, test_stage, test_switches};

// The span of the first statement.
fn first_span(tokens: &[Token]) -> Span
    ensures { result ≡ spec.first_span tokens.now }
{
    match tokens {
        [Token::At(span), ..] => *span,
        _ => Span::UNDEFINED,
    }
}

fn test_body(
    alloc: Global,
    of: &Module,
    function: &Function,
    tokens: &[Token],
    span: Span,
) -> TestResult
    ensures { let m = module_value of.now in
        Tests (spec.body_valid m (function_value function.now) tokens.now span) result }
{
    test_math(function)?;
    test_constructors(of, function.expressions.as_slice())?;
    test_calls(of, tokens)?;
    test_switches(alloc, tokens)?;
    test_flow(alloc, tokens, function.result.is_some(), span)
}

fn test_function(alloc: Global, of: &Module, function: &Function, span: Span) -> TestResult
    ensures { let m = module_value of.now in
        Tests (spec.function_valid m (function_value function.now, span)) result }
{
    let tokens = tokens_of(alloc, &function.body)?;
    test_body(alloc, of, function, &tokens, span)
}

fn test_functions(alloc: Global, of: &Module) -> TestResult
    ensures { Tests (spec.functions_valid (module_value of.now)) result }
{
    for entry in of.functions.as_slice() {
        test_function(alloc, of, &entry.0, entry.1)?;
    }
    Ok(())
}

fn uses_in_order(alloc: Global, of: &Module) -> Result<Vec<Uses>, AllocError>
    ensures { IfOk result (λ v. map uses_view v.items ≡ spec.uses_in_order (module_value of.now)) }
{
    let mut uses = Vec::new(alloc);
    let mut rest = of.functions.as_slice();
    while let [(function, _), more @ ..] = rest {
        uses.push(uses_of(alloc, function)?)?;
        rest = more;
    }
    Ok(uses)
}

// What each function names, the last first.
fn uses_in(alloc: Global, of: &Module) -> Result<Vec<Uses>, AllocError>
    ensures { IfOk result (λ v. map uses_view v.items ≡ spec.uses_in (module_value of.now)) }
{
    let mut uses = uses_in_order(alloc, of)?;
    last_first(&mut uses);
    Ok(uses)
}

fn test_entry_point(
    alloc: Global,
    of: &Module,
    uses: &[Uses],
    entry_point: &EntryPoint,
) -> TestResult
    ensures { let m = module_value of.now in
        Tests (spec.entry_valid m (map uses_view uses.now) (entry_value entry_point.now)) result }
{
    let function = &entry_point.function;
    let tokens = tokens_of(alloc, &function.body)?;
    let span = first_span(&tokens);
    test_body(alloc, of, function, &tokens, span)?;
    test_interface(of, entry_point, span)?;
    test_stage(alloc, of, entry_point, span)?;
    test_bindings(alloc, of, uses, &uses_of(alloc, function)?)
}

fn test_entry_points(alloc: Global, of: &Module) -> TestResult
    ensures { Tests (spec.entry_points_valid (module_value of.now)) result }
{
    let uses = uses_in(alloc, of)?;
    for entry_point in &of.entry_points {
        test_entry_point(alloc, of, &uses, entry_point)?;
    }
    Ok(())
}

/// Tests a module: the bindings of variables, then items, then functions, then entry points.
///
/// A body without statements is that of a signature, which may have a result. The place of an entry point is that of its first
/// statement.
///
/// # Errors
/// `Fault` with the reason and the span of the first fault, `Memory` if out of memory.
#[tactic(auto, unfolding(crate::specs::Valid::validated))]
pub fn validate(alloc: Global, of: &Module) -> TestResult
    ensures { Tests (spec.validated (module_value of.now)) result }
{
    test_spaces(of)?;
    test_items(of)?;
    test_functions(alloc, of)?;
    test_entry_points(alloc, of)
}
