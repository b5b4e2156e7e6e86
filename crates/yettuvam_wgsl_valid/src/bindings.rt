//! The bindings of variables.
ghost use Rattle.std.specs.Prelude.{◌≡◌, ◌++◌, IfOk, OnOk, length, map, reverse, slice_set, true};
ghost use Rattle.naga_oil_ir.specs.ModuleValue.{module_value, function_value, expression_values};
ghost use Rattle.naga_oil_ir.specs.Parts.{parts};
ghost use Rattle.naga_oil_ir.specs.Rows.{global_row};
ghost use Rattle.yettuvam_wgsl_valid.specs.Bindings as spec;
ghost use Rattle.yettuvam_wgsl_valid.specs.Bindings.{uses_view, state_of};
ghost use Rattle.yettuvam_wgsl_valid_items.specs.Faults.{Tests};
ghost use Rattle.yettuvam_wgsl_valid.specs.Flow.{Finds};

use crate::calls::tokens_of;
use indexmap::IndexMap;
use naga_oil_ir::{Expression, Function, GlobalVariable, Module, Span, Token};
use std::alloc::{AllocError, Global};
use yettuvam_wgsl_names::form_codes::{
    HANDLE_SPACE, SPACE_ACCESS_UNIT, STORAGE_SPACE, UNIFORM_SPACE,
};
use yettuvam_wgsl_valid_items::faults::{Invalid, Reason, TestResult, refuse};

// ---- address spaces

// Whether variables of an address space have bindings.
fn is_bound_space(space: u64) -> bool
    ensures { result ≡ spec.is_bound_space space }
{
    let name = space % SPACE_ACCESS_UNIT;
    name == UNIFORM_SPACE || name == STORAGE_SPACE || name == HANDLE_SPACE
}

// Whether a variable has a binding just if its address space is one of resources.
fn fits_space(binding: Option<u64>, space: u64) -> bool
    ensures { result ≡ spec.fits_space binding space }
{
    match binding {
        Some(_) => is_bound_space(space),
        None => !is_bound_space(space),
    }
}

fn test_space(global: &GlobalVariable, span: Span) -> TestResult
    ensures { Tests (spec.space_valid (global_row global.now, span)) result }
{
    if fits_space(global.binding, global.space) {
        Ok(())
    } else {
        refuse(Reason::SpaceBinding, span)
    }
}

/// Tests that variables have bindings in the address spaces of resources, and in no others.
///
/// # Errors
/// `SpaceBinding` at the first variable that breaks the rule.
pub fn test_spaces(of: &Module) -> TestResult
    ensures { Tests (spec.spaces_valid (module_value of.now).global_variables) result }
{
    for entry in of.global_variables.as_slice() {
        test_space(&entry.0, entry.1)?;
    }
    Ok(())
}

// ---- what functions name

/// The variables of the module that a function names, and the functions that it calls, by their places.
#[derive(Drop)]
pub struct Uses {
    globals: Vec<usize>,
    callees: Vec<usize>,
}

fn global_of(of: &Expression) -> Option<usize>
    ensures { result ≡ spec.global_of (parts of.now) }
{
    match of {
        Expression::GlobalVariable(global) => Some(global.index()),
        _ => None,
    }
}

fn callee_of(token: Token) -> Option<usize>
    ensures { result ≡ spec.callee_of token }
{
    match token {
        Token::Callee(callee) => Some(callee.index()),
        _ => None,
    }
}

fn push_some(out: &mut Vec<usize>, place: Option<usize>) -> Result<(), AllocError>
    ensures { OnOk result (out.new.items ≡ out.old.items ++ spec.listed place) }
{
    if let Some(place) = place {
        out.push(place)?;
    }
    Ok(())
}

fn globals_in(alloc: Global, expressions: &[(Expression, Span)]) -> Result<Vec<usize>, AllocError>
    ensures { IfOk result (λ v. v.items ≡ spec.globals_in (expression_values expressions.now)) }
{
    let mut out = Vec::new(alloc);
    let mut rest = expressions;
    while let [(expression, _), more @ ..] = rest {
        push_some(&mut out, global_of(expression))?;
        rest = more;
    }
    Ok(out)
}

fn callees_in(alloc: Global, tokens: &[Token]) -> Result<Vec<usize>, AllocError>
    ensures { IfOk result (λ v. v.items ≡ spec.callees_in tokens.now) }
{
    let mut out = Vec::new(alloc);
    let mut rest = tokens;
    while let [token, more @ ..] = rest {
        push_some(&mut out, callee_of(*token))?;
        rest = more;
    }
    Ok(out)
}

/// Returns what a function names.
///
/// # Errors
/// If out of memory.
pub fn uses_of(alloc: Global, of: &Function) -> Result<Uses, AllocError>
    ensures { IfOk result (λ u. uses_view u ≡ spec.uses_of (function_value of.now)) }
{
    let tokens = tokens_of(alloc, &of.body)?;
    let globals = globals_in(alloc, of.expressions.as_slice())?;
    let callees = callees_in(alloc, &tokens)?;
    Ok(Uses { globals, callees })
}

// ---- what an entry point reaches

fn mark(marks: &mut [bool], place: usize)
    ensures { marks.new ≡ slice_set marks.old place true }
{
    if place < marks.len() {
        marks[place] = true;
    }
}

fn mark_all(marks: &mut [bool], places: &[usize])
    ensures { marks.new ≡ spec.mark_all places.now marks.old }
{
    for place in places {
        mark(marks, *place);
    }
}

/// Which variables and which functions of a module are reached.
#[derive(Drop)]
pub struct Reach {
    globals: Vec<bool>,
    functions: Vec<bool>,
}

impl Reach {
    fn enter(&mut self, uses: &Uses)
        ensures { state_of self.new ≡ spec.enter (uses_view uses.now) (state_of self.old) }
    {
        mark_all(&mut self.globals, &uses.globals);
        mark_all(&mut self.functions, &uses.callees);
    }

    fn is_reached(&self, function: usize) -> bool
        ensures { result ≡ spec.is_reached function (state_of self.now) }
    {
        self.functions.get(function).copied().unwrap_or(false)
    }

    fn visit(&mut self, function: usize, uses: &Uses)
        ensures { let old = state_of self.old in
            state_of self.new ≡ spec.visit function (uses_view uses.now) old }
    {
        if self.is_reached(function) {
            self.enter(uses);
        }
    }

    // Visits functions, the last of the module first.
    #[tactic(auto, unfolding(crate::specs::Bindings::visit_all))]
    fn visit_all(&mut self, functions: &[Uses])
        ensures { let uses = map uses_view functions.now in
            state_of self.new ≡ spec.visit_all uses (state_of self.old) }
    {
        let mut rest = functions;
        while let [uses, more @ ..] = rest {
            self.visit(more.len(), uses);
            rest = more;
        }
    }
}

/// Puts what the last function names first.
#[tactic(auto, using(crate::proofs::Reversed::map_of_reverse))]
pub fn last_first(functions: &mut [Uses])
    ensures { map uses_view functions.new ≡ reverse (map uses_view functions.old) }
{
    functions.reverse();
}

fn reached_globals(
    alloc: Global,
    count: usize,
    functions: &[Uses],
    entry: &Uses,
) -> Result<Vec<bool>, AllocError>
    ensures { let uses = map uses_view functions.now in
        IfOk result (λ v. v.items ≡ spec.reached_globals count uses (uses_view entry.now)) }
{
    let mut reach = Reach {
        globals: vec![in alloc; false; count]?,
        functions: vec![in alloc; false; functions.len()]?,
    };
    reach.enter(entry);
    reach.visit_all(functions);
    Ok(reach.globals)
}

// ---- variables with the same binding

/// The bindings that were met, each with the span of its variable.
type Met = IndexMap<u64, Span>;

fn meet(met: &mut Met, binding: u64, span: Span) -> TestResult
    ensures { spec.Meets (spec.meet binding span met.old.entries) result met.new.entries }
{
    if met.get(&binding).is_some() {
        return refuse(Reason::BoundTwice, span);
    }
    met.insert(binding, span)?;
    Ok(())
}

fn meet_global(met: &mut Met, is_reached: bool, binding: Option<u64>, span: Span) -> TestResult
    ensures { let old = met.old.entries in
        spec.Meets (spec.meet_global is_reached binding span old) result met.new.entries }
{
    match binding {
        Some(binding) if is_reached => meet(met, binding, span),
        _ => Ok(()),
    }
}

fn first_mark(marks: &[bool]) -> bool
    ensures { result ≡ spec.first_mark marks.now }
{
    match marks {
        [mark, ..] => *mark,
        [] => false,
    }
}

fn rest_marks(marks: &[bool]) -> &[bool]
    ensures { result.now ≡ spec.rest_marks marks.now }
{
    match marks {
        [_, more @ ..] => more,
        [] => marks,
    }
}

#[tactic(auto, unfolding(crate::specs::Bindings::distinct_from))]
fn test_distinct(alloc: Global, globals: &[(GlobalVariable, Span)], reached: &[bool]) -> TestResult
    ensures { Tests (spec.distinct_valid (spec.global_rows globals.now) reached.now) result }
{
    let mut met = IndexMap::new(alloc);
    let mut rest = globals;
    let mut marks = reached;
    while let [(global, span), more @ ..] = rest {
        meet_global(&mut met, first_mark(marks), global.binding, *span)?;
        marks = rest_marks(marks);
        rest = more;
    }
    Ok(())
}

/// Tests the bindings of the variables that an entry point reaches. `functions` has what each function of the module names, the
/// last first, and `entry` what the entry point names. A function calls only functions before it.
///
/// # Errors
/// `BoundTwice` at the first variable that has the binding of an earlier one. `Memory` if out of memory.
pub fn test_bindings(alloc: Global, of: &Module, functions: &[Uses], entry: &Uses) -> TestResult
    ensures { let globals = (module_value of.now).global_variables in
        let uses = map uses_view functions.now in
        Tests (spec.bindings_valid globals uses (uses_view entry.now)) result }
{
    let globals = of.global_variables.as_slice();
    let reached = reached_globals(alloc, globals.len(), functions, entry)?;
    test_distinct(alloc, globals, &reached)
}
