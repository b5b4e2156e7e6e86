// The names of arguments, local variables and values.
ghost use Rattle.std.specs.Prelude.{◌≡◌, [], IfOk, OnOk, map, option_map, string_bytes};
ghost use Rattle.naga_oil_ir.specs.ModuleValue.{argument_value, function_value};
ghost use Rattle.yettuvam_wgsl_lines.specs.Line.{lines_value};
ghost use Rattle.yettuvam_wgsl_requests.specs.Calls.{calls_value};
ghost use Rattle.yettuvam_wgsl_uses.specs.Uses.{uses_value};
ghost use Rattle.yettuvam_wgsl_written_names.specs.Taken.{taken_of};
ghost use Rattle.yettuvam_wgsl_local_names.specs.LocalNames as spec;
ghost use Rattle.yettuvam_wgsl_local_names.specs.LocalNames.{names_value, naming_of, state_of, texts_value};

use naga_oil_ir::{Function, FunctionArgument, Index, LocalVariable, Operand};
use std::alloc::{AllocError, Global};
use yettuvam_wgsl_lines::Line;
use yettuvam_wgsl_requests::{Calls, Request, Subject, line_requests, top_requests};
use yettuvam_wgsl_uses::Uses;
use yettuvam_wgsl_written_names::Taken;

// The names that are made for what has none.
const VALUE_NAME: &str = "value";

const LOCAL_NAME: &str = "local";

const ARGUMENT_NAME: &str = "argument";

/// The names of arguments, local variables and values of a function, by their places.
#[derive(Drop)]
pub struct LocalNames {
    pub arguments: Vec<String>,
    /// `None` for a variable that the text doesn't name.
    pub locals: Vec<Option<String>>,
    /// `None` for an expression that isn't declared.
    pub values: Vec<Option<String>>,
}

fn text_of(name: &Option<String>) -> Option<&str>
    ensures { option_map (λ n. n.now) result ≡ option_map string_bytes name.now }
{
    match name {
        Some(name) => Some(name.as_str()),
        None => None,
    }
}

fn local_name(function: &Function, place: usize) -> Option<&str>
    ensures { option_map (λ n. n.now) result ≡ spec.local_name (function_value function.now) place }
{
    let local: Option<&LocalVariable> = function.local_variables.try_get(Index::new(place));
    match local {
        Some(local) => text_of(&local.name),
        None => None,
    }
}

#[tactic(auto, using(crate::proofs::Named::name_of))]
fn value_name(function: &Function, place: usize) -> Option<&str>
    ensures { option_map (λ n. n.now) result ≡ spec.value_name (function_value function.now) place }
{
    let place: Operand = Index::new(place);
    match function.named_expressions.get(place) {
        Some(name) => Some(name.as_str()),
        None => None,
    }
}

// Whether what is declared in a group may have a name: a built-in function that is called later keeps its name.
fn may_hide(calls: &Calls, name: Option<&str>, group: usize) -> bool
    ensures { result ≡ spec.may_hide (calls_value calls.now) (option_map (λ n. n.now) name.entry) group }
{
    match name {
        Some(name) => calls.last(name) <= group,
        None => false,
    }
}

// A free name for what is declared in a group.
#[tactic(auto, unfolding(crate::specs::LocalNames::fresh))]
fn fresh(
    taken: &mut Taken<'_>,
    calls: &Calls,
    name: Option<&str>,
    other: &str,
    group: usize,
) -> Result<String, AllocError>
    ensures { IfOk result (λ made. spec.fresh (calls_value calls.now) (taken_of taken.old) (option_map (λ n. n.now) name.entry) other.now group
        ≡ record { name = string_bytes made; taken = taken_of taken.new }) }
{
    let may_hide = may_hide(calls, name, group);
    taken.fresh_for(name, other, may_hide)
}

#[tactic(auto, using(crate::proofs::Puts::put_text, crate::proofs::Puts::put_past))]
fn put(names: &mut [Option<String>], place: usize, name: String)
    ensures { texts_value names.new ≡ spec.put (texts_value names.old) place (string_bytes name) }
{
    if place >= names.len() {
        return;
    }
    names[place] = Some(name);
}

impl LocalNames {
    #[tactic(auto, unfolding(crate::specs::LocalNames::name_local))]
    fn name_local(
        &mut self,
        taken: &mut Taken<'_>,
        function: &Function,
        calls: &Calls,
        place: usize,
        group: usize,
    ) -> Result<(), AllocError>
        ensures { OnOk result (state_of (names_value self.new) (taken_of taken.new) ≡
            spec.name_local (function_value function.now) (calls_value calls.now) place group (state_of (names_value self.old) (taken_of taken.old))) }
    {
        let name = fresh(taken, calls, local_name(function, place), LOCAL_NAME, group)?;
        put(&mut self.locals, place, name);
        Ok(())
    }

    #[tactic(auto, unfolding(crate::specs::LocalNames::name_value))]
    fn name_value(
        &mut self,
        taken: &mut Taken<'_>,
        function: &Function,
        calls: &Calls,
        place: usize,
        group: usize,
    ) -> Result<(), AllocError>
        ensures { OnOk result (state_of (names_value self.new) (taken_of taken.new) ≡
            spec.name_value (function_value function.now) (calls_value calls.now) place group (state_of (names_value self.old) (taken_of taken.old))) }
    {
        let name = fresh(taken, calls, value_name(function, place), VALUE_NAME, group)?;
        put(&mut self.values, place, name);
        Ok(())
    }

    #[tactic(auto, unfolding(crate::specs::LocalNames::name))]
    fn name(
        &mut self,
        taken: &mut Taken<'_>,
        function: &Function,
        calls: &Calls,
        request: Request,
    ) -> Result<(), AllocError>
        ensures { OnOk result (state_of (names_value self.new) (taken_of taken.new) ≡
            spec.name (function_value function.now) (calls_value calls.now) request (state_of (names_value self.old) (taken_of taken.old))) }
    {
        match request.subject {
            Subject::Local(place) => self.name_local(taken, function, calls, place, request.group),
            Subject::Value(place) => self.name_value(taken, function, calls, place, request.group),
        }
    }

    #[tactic(auto, unfolding(crate::specs::LocalNames::name_all))]
    fn name_all(
        &mut self,
        taken: &mut Taken<'_>,
        function: &Function,
        calls: &Calls,
        requests: &[Request],
    ) -> Result<(), AllocError>
        ensures { OnOk result (state_of (names_value self.new) (taken_of taken.new) ≡
            spec.name_all (function_value function.now) (calls_value calls.now) requests.now (state_of (names_value self.old) (taken_of taken.old))) }
    {
        let mut rest = requests;
        while let [request, more @ ..] = rest {
            self.name(taken, function, calls, *request)?;
            rest = more;
        }
        Ok(())
    }
}

#[tactic(auto, unfolding(crate::specs::LocalNames::add_argument))]
fn push_argument(
    taken: &mut Taken<'_>,
    names: &mut Vec<String>,
    calls: &Calls,
    argument: &FunctionArgument,
) -> Result<(), AllocError>
    ensures { OnOk result (naming_of names.new.items (taken_of taken.new) ≡
        spec.add_argument (calls_value calls.now) (argument_value argument.now) (naming_of names.old.items (taken_of taken.old))) }
{
    let name = fresh(taken, calls, text_of(&argument.name), ARGUMENT_NAME, 0)?;
    names.push(name)?;
    Ok(())
}

#[tactic(auto, unfolding(crate::specs::LocalNames::add_arguments))]
fn argument_names(
    alloc: Global,
    taken: &mut Taken<'_>,
    calls: &Calls,
    arguments: &[FunctionArgument],
) -> Result<Vec<String>, AllocError>
    ensures { IfOk result (λ v. naming_of v.items (taken_of taken.new) ≡
        spec.add_arguments (calls_value calls.now) (map argument_value arguments.now) (naming_of [] (taken_of taken.old))) }
{
    let mut names = Vec::new(alloc);
    let mut rest = arguments;
    while let [argument, more @ ..] = rest {
        push_argument(taken, &mut names, calls, argument)?;
        rest = more;
    }
    Ok(names)
}

#[tactic(auto, using(crate::proofs::Puts::one_more))]
fn no_names(alloc: Global, count: usize) -> Result<Vec<Option<String>>, AllocError>
    ensures { IfOk result (λ v. texts_value v.items ≡ spec.no_names count) }
{
    let mut names = Vec::with_capacity(alloc, count)?;
    for _place in 0..count {
        names.push(None)?;
    }
    Ok(names)
}

#[tactic(auto, unfolding(crate::specs::LocalNames::started))]
fn started(
    alloc: Global,
    taken: &mut Taken<'_>,
    function: &Function,
    calls: &Calls,
) -> Result<LocalNames, AllocError>
    ensures { IfOk result (λ n. state_of (names_value n) (taken_of taken.new) ≡
        spec.started (function_value function.now) (calls_value calls.now) (taken_of taken.old)) }
{
    let arguments = argument_names(alloc, taken, calls, &function.arguments)?;
    let locals = no_names(alloc, function.local_variables.len())?;
    let values = no_names(alloc, function.expressions.len())?;
    Ok(LocalNames {
        arguments,
        locals,
        values,
    })
}

/// Returns the names of a function's arguments, local variables and values, which are made in the order of the text.
///
/// # Errors
/// If out of memory.
#[tactic(auto, unfolding(crate::specs::LocalNames::local_names))]
pub fn local_names(
    alloc: Global,
    taken: &mut Taken<'_>,
    function: &Function,
    uses: &Uses,
    calls: &Calls,
    lines: &[Line],
) -> Result<LocalNames, AllocError>
    ensures { IfOk result (λ n. state_of (names_value n) (taken_of taken.new) ≡
        spec.local_names (function_value function.now) (uses_value uses.now) (calls_value calls.now) (lines_value lines.now) (taken_of taken.old)) }
{
    let mut names = started(alloc, taken, function, calls)?;
    let top = top_requests(alloc, &uses.locals)?;
    names.name_all(taken, function, calls, &top)?;
    let requests = line_requests(alloc, uses, &function.expressions, lines)?;
    names.name_all(taken, function, calls, &requests)?;
    Ok(names)
}
