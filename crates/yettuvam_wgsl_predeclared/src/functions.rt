//! Built-in functions by their names.

ghost use Rattle.std.specs.Prelude.{◌≡◌};
ghost use Rattle.yettuvam_wgsl_predeclared.specs.Functions as spec;

use yettuvam_wgsl_names::{Predeclared, argument_counts, read_predeclared};

/// A built-in function: its code, and its least and greatest number of arguments.
#[derive(Clone, Copy)]
pub struct Function {
    pub code: u64,
    pub least: u64,
    pub most: u64,
}

#[tactic(auto, unfolding(crate::specs::Functions::counts_of))]
fn counts_of(code: u64) -> Option<(u64, u64)>
    ensures { result ≡ spec.counts_of code }
{
    argument_counts(code)
}

fn function_of(code: u64) -> Option<Function>
    ensures { result ≡ spec.function_of code }
{
    match counts_of(code) {
        Some((least, most)) => Some(Function { code, least, most }),
        None => None,
    }
}

#[tactic(auto, unfolding(crate::specs::Functions::code_of))]
fn code_of(name: &str) -> Option<u64>
    ensures { result ≡ spec.code_of name.now }
{
    match read_predeclared(name) {
        Some(Predeclared::Function(code)) => Some(code),
        _ => None,
    }
}

/// The built-in function of a name.
#[tactic(auto, unfolding(crate::specs::Functions::built_in_function))]
pub fn built_in_function(name: &str) -> Option<Function>
    ensures { result ≡ spec.built_in_function name.now }
{
    match code_of(name) {
        Some(code) => function_of(code),
        None => None,
    }
}

/// Whether a function takes a number of arguments.
#[tactic(auto, unfolding(crate::specs::Functions::takes))]
pub fn takes(function: Function, count: usize) -> bool
    ensures { result ≡ spec.takes function count }
{
    let count = count as u64;
    function.least <= count && count <= function.most
}
