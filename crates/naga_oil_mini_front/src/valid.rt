// Whether each call of a module has as many arguments as its callee has parameters.
ghost use Rattle.std.specs.Prelude.{◌≡◌, ◌∷◌, ◌++◌, [], IfOk, Some, map, option_map, codes};
ghost use Rattle.naga_oil_ir.specs.Backend.{Answers, valid_fault, nothing};
ghost use Rattle.naga_oil_ir.specs.Body.{block_tokens};
ghost use Rattle.naga_oil_ir.specs.ModuleValue.{module_value};
ghost use Rattle.naga_oil_mini_front.specs.Valid as spec;

use naga_oil_ir::{BackendRefusal, Block, Function, Handle, Module, Span, Token, ValidFault};
use naga_oil_mini_writer::{tokens_of, use_count};
use std::alloc::{AllocError, Global};

fn name_of(of: &Module, function: Handle<Function>) -> &str
    ensures { result.now ≡ spec.name_at (module_value of.now) function }
{
    match of.functions.try_get(function).map(|f| &f.name) {
        Some(Some(name)) => name.as_str(),
        _ => "",
    }
}

// Whether a function has `arguments` parameters.
fn is_right(of: &Module, function: Handle<Function>, arguments: usize) -> bool
    ensures { result ≡ spec.is_right (module_value of.now) function arguments }
{
    of.functions
        .try_get(function)
        .is_some_and(|f| f.arguments.len() == arguments)
}

// The first call of a body with a wrong number of arguments, with its span.
fn wrong_call(of: &Module, tokens: &[Token]) -> Option<(Span, Handle<Function>)>
    ensures { result ≡ spec.wrong_call (module_value of.now) tokens.now }
{
    let mut span = Span::UNDEFINED;
    for (place, token) in tokens.iter().enumerate() {
        match token {
            Token::At(at) => span = *at,
            Token::Callee(f) if !is_right(of, *f, use_count(&tokens[place + 1..])) => {
                return Some((span, *f));
            }
            _ => {}
        }
    }
    None
}

fn call_fault(alloc: Global, span: Span, name: &str) -> Result<ValidFault, AllocError>
    ensures { IfOk result (λ f. valid_fault f ≡ spec.call_fault span name.now) }
{
    let text = format!(in alloc; "call of {name}")?;
    Ok(ValidFault {
        message: String::from_str(alloc, "wrong number of arguments")?,
        spans: vec![in alloc; (span, text)]?,
        notes: Vec::new(alloc),
    })
}

fn check_body(alloc: Global, of: &Module, body: &Block) -> Result<(), BackendRefusal<ValidFault>>
    ensures { let told = spec.checked (module_value of.now) (block_tokens body.now) in
        Answers nothing valid_fault result told }
{
    if body.body.is_empty() {
        return Ok(());
    }
    let tokens = tokens_of(alloc, body)?;
    let Some((span, function)) = wrong_call(of, &tokens) else {
        return Ok(());
    };
    let fault = call_fault(alloc, span, name_of(of, function))?;
    Err(BackendRefusal::Fault(fault))
}

/// Returns `Ok` for a valid module, or the error of its first wrong call.
#[tactic(auto, unfolding(crate::specs::Valid::validated))]
pub fn validated(alloc: Global, of: &Module) -> Result<(), BackendRefusal<ValidFault>>
    ensures { Answers nothing valid_fault result (spec.validated (module_value of.now)) }
{
    for function in of.functions.as_slice() {
        check_body(alloc, of, &function.0.body)?;
    }
    for entry_point in &of.entry_points {
        check_body(alloc, of, &entry_point.function.body)?;
    }
    Ok(())
}
