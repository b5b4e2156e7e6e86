// The built-in functions that a body calls.
ghost use Rattle.std.specs.Prelude.{◌≡◌, OnOk, IfOk};
ghost use Rattle.yettuvam_wgsl_lines.specs.Line.{line_value, lines_value};
ghost use Rattle.yettuvam_wgsl_uses.specs.Uses.{uses_value};
ghost use Rattle.yettuvam_wgsl_requests.specs.Calls as spec;
ghost use Rattle.yettuvam_wgsl_requests.specs.Calls.{calls_value};

use indexmap::IndexMap;
use naga_oil_ir::Operand;
use std::alloc::{AllocError, Global};
use yettuvam_wgsl_lines::Line;
use yettuvam_wgsl_lines::groups::is_set;
use yettuvam_wgsl_names::{Predeclared, read_predeclared};
use yettuvam_wgsl_natures::NO_FUNCTION;
use yettuvam_wgsl_uses::Uses;
use yettuvam_wgsl_uses::facts::number_at;
use yettuvam_wgsl_uses::texts::emitted_by;

/// The built-in functions that a body calls, each with the last group of lines in which it is called.
#[derive(Drop)]
pub struct Calls(IndexMap<u64, usize>);

impl Calls {
    /// Returns the last group in which a function is called; 0 if there is none.
    pub fn last_of(&self, function: u64) -> usize
        ensures { result ≡ spec.last_of (calls_value self.now) function }
    {
        match self.0.get(&function) {
            Some(group) => *group,
            None => 0,
        }
    }

    #[tactic(auto, unfolding(crate::specs::Calls::call))]
    fn call(&mut self, function: u64, group: usize) -> Result<(), AllocError>
        ensures { OnOk result (calls_value self.new ≡ spec.call (calls_value self.old) function group) }
    {
        let last = self.last_of(function).max(group);
        self.0.insert(function, last)?;
        Ok(())
    }

    #[tactic(auto, unfolding(crate::specs::Calls::step))]
    fn step(&mut self, uses: &Uses, line: &Line) -> Result<(), AllocError>
        ensures { OnOk result (calls_value self.new ≡
            spec.step (uses_value uses.now) (calls_value self.old) (line_value line.now)) }
    {
        if line.function == NO_FUNCTION {
            return Ok(());
        }
        self.call(line.function, evaluated_in(uses, line))
    }

    #[tactic(auto, unfolding(crate::specs::Calls::run))]
    fn run(&mut self, uses: &Uses, lines: &[Line]) -> Result<(), AllocError>
        ensures { OnOk result (calls_value self.new ≡
            spec.run (uses_value uses.now) (calls_value self.old) (lines_value lines.now)) }
    {
        let mut rest = lines;
        while let [line, more @ ..] = rest {
            self.step(uses, line)?;
            rest = more;
        }
        Ok(())
    }

    /// Returns the last group in which the built-in function with a name is called; 0 if there is none.
    pub fn last(&self, name: &str) -> usize
        ensures { result ≡ spec.last (calls_value self.now) name.now }
    {
        match predeclared(name) {
            Some(Predeclared::Function(code)) => self.last_of(code),
            _ => 0,
        }
    }
}

// What a name means where nothing hides its predeclared meaning.
#[tactic(auto, unfolding(crate::specs::Calls::predeclared))]
fn predeclared(name: &str) -> Option<Predeclared>
    ensures { result ≡ spec.predeclared name.now }
{
    read_predeclared(name)
}

// The last group in which an emitted expression is evaluated: that of the line if it is a `let`.
fn emitted_in(uses: &Uses, place: Operand, group: usize) -> usize
    ensures { result ≡ spec.emitted_in (uses_value uses.now) place group }
{
    if is_set(&uses.is_let, place) {
        group
    } else {
        number_at(&uses.last, place.index())
    }
}

// The last group in which the text of a line is evaluated.
fn evaluated_in(uses: &Uses, line: &Line) -> usize
    ensures { result ≡ spec.evaluated_in (uses_value uses.now) (line_value line.now) }
{
    let group = number_at(&uses.groups, line.number);
    match emitted_by(line) {
        Some(place) => emitted_in(uses, place, group),
        None => group,
    }
}

/// Returns the built-in functions that lines call, each with the last group in which it is called.
///
/// # Errors
/// If out of memory.
pub fn calls_of(alloc: Global, uses: &Uses, lines: &[Line]) -> Result<Calls, AllocError>
    ensures { IfOk result (λ c.
        calls_value c ≡ spec.calls_of (uses_value uses.now) (lines_value lines.now)) }
{
    let mut calls = Calls(IndexMap::new(alloc));
    calls.run(uses, lines)?;
    Ok(calls)
}
