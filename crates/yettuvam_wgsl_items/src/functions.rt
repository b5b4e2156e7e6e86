//! Functions and entry points.

ghost use Rattle.std.specs.Prelude.{◌≡◌, map, string_bytes};
ghost use Rattle.naga_oil_ir.specs.ModuleValue.{argument_value, entry_value, function_value};
ghost use Rattle.yettuvam_wgsl_machine.specs.Machine.{node_view};
ghost use Rattle.yettuvam_wgsl_scope.specs.Refused.{Reads};
ghost use Rattle.yettuvam_wgsl_values.specs.Body.{inside_view, state_of as body_state};
ghost use Rattle.yettuvam_wgsl_items.specs.Functions as spec;
ghost use Rattle.yettuvam_wgsl_items.specs.Items.{state_of};

use crate::items::{Items, take_attributes, take_type, text_of};
use naga_oil_ir::{EntryPoint, Function, FunctionArgument, FunctionResult, Index};
use std::mem;
use yettuvam_wgsl_attributes::declared::{binding_code, computed_sizes, sizes_of};
use yettuvam_wgsl_attributes::{Attributes, no_attributes};
use yettuvam_wgsl_machine::symbol::Node;
use yettuvam_wgsl_scope::Refusal;
use yettuvam_wgsl_scope::items::name_of;
use yettuvam_wgsl_values::{Body, Inside, Meaning, Returns, span_of};

fn function_of(
    name: String,
    arguments: Vec<FunctionArgument>,
    returned: Option<FunctionResult>,
    inside: Inside,
) -> Function
    ensures { function_value result ≡ spec.function_of (string_bytes name)
        (map argument_value arguments.items) returned (inside_view inside) }
{
    Function {
        name: Some(name),
        arguments,
        result: returned,
        local_variables: inside.locals,
        expressions: inside.expressions,
        named_expressions: inside.named,
        body: inside.body,
        diagnostic_filter_leaf: None,
    }
}

fn entry_of(name: String, stage: u64, attributes: Attributes, function: Function) -> EntryPoint
    ensures { entry_value result ≡ spec.entry_of (string_bytes name) stage attributes
        (function_value function) }
{
    EntryPoint {
        name,
        stage,
        early_depth_test: None,
        workgroup_size: sizes_of(attributes, stage),
        workgroup_size_overrides: computed_sizes(attributes),
        function,
        mesh_info: None,
        task_payload: None,
    }
}

/// A function begins.
#[tactic(auto, unfolding(crate::specs::Functions::function_name))]
pub fn function_name<'t>(m: &mut Items<'t>, node: Node<'t>) -> Result<(), Refusal>
    ensures { Reads (spec.function_name (node_view node.entry) (state_of m.old))
        result (state_of m.new) }
{
    m.function = name_of(node);
    m.function_attributes = take_attributes(m);
    m.arguments = Vec::new(m.alloc);
    m.result = None;
    m.returns = Returns::Nothing;
    Ok(())
}

/// The number of an argument after some others.
fn argument_number(count: usize) -> u32
    ensures { result ≡ spec.argument_number count }
{
    u32::try_from(count).unwrap_or(u32::MAX)
}

/// What an argument of a type means.
fn argument_meaning(b: &Body<'_>, number: u32, ty: usize) -> Meaning
    ensures { result ≡ spec.argument_meaning number ty (body_state b.now) }
{
    match b.types.pointed(ty) {
        Some(shape) => Meaning::PointerArgument(number, shape),
        None => Meaning::Argument(number, b.types.shape_of(ty)),
    }
}

/// An argument of the function that is read.
#[tactic(auto, unfolding(crate::specs::Functions::push_argument))]
fn push_argument(m: &mut Items<'_>, ty: usize, attributes: Attributes) -> Result<(), Refusal>
    ensures { Reads (spec.push_argument ty attributes (state_of m.old))
        result (state_of m.new) }
{
    let argument = FunctionArgument {
        name: Some(text_of(m.alloc, m.part)?),
        ty: Index::new(ty),
        binding: binding_code(attributes),
    };
    m.arguments.push(argument)?;
    Ok(())
}

/// An argument, whose type is the last value.
#[tactic(auto, unfolding(crate::specs::Functions::parameter))]
pub fn parameter<'t>(m: &mut Items<'t>, node: Node<'t>) -> Result<(), Refusal>
    ensures { Reads (spec.parameter (node_view node.entry) (state_of m.old))
        result (state_of m.new) }
{
    let ty = take_type(&mut m.body, node)?;
    let number = argument_number(m.arguments.len());
    let attributes = take_attributes(m);
    push_argument(m, ty, attributes)?;
    let meaning = argument_meaning(&m.body, number, ty);
    m.body.know(meaning)
}

/// The body of a function without a result begins.
#[tactic(auto, unfolding(crate::specs::Functions::no_result))]
pub fn no_result(m: &mut Items<'_>) -> Result<(), Refusal>
    ensures { Reads (spec.no_result (state_of m.old)) result (state_of m.new) }
{
    m.body.enter();
    Ok(())
}

/// The result of the function that is read, by its type.
fn set_result(m: &mut Items<'_>, ty: usize)
    ensures { state_of m.new ≡ spec.with_result ty (state_of m.old) }
{
    let attributes = take_attributes(m);
    m.result = Some(FunctionResult {
        ty: Index::new(ty),
        binding: binding_code(attributes),
    });
    m.returns = Returns::Value(m.body.types.shape_of(ty));
}

/// The result of a function, whose type is the last value; its body begins.
#[tactic(auto, unfolding(crate::specs::Functions::function_result))]
pub fn function_result<'t>(m: &mut Items<'t>, node: Node<'t>) -> Result<(), Refusal>
    ensures { Reads (spec.function_result (node_view node.entry) (state_of m.old))
        result (state_of m.new) }
{
    let ty = take_type(&mut m.body, node)?;
    set_result(m, ty);
    no_result(m)
}

/// A function that other items may call.
#[tactic(auto, unfolding(crate::specs::Functions::push_function))]
fn push_function(m: &mut Items<'_>, function: Function) -> Result<usize, Refusal>
    ensures { Reads (spec.push_function (function_value function) (state_of m.old))
        result (state_of m.new) }
{
    let place = m.functions.append(function, span_of(m.function.span))?;
    Ok(place.index())
}

#[tactic(auto, unfolding(crate::specs::Functions::add_function))]
fn add_function(m: &mut Items<'_>, function: Function) -> Result<(), Refusal>
    ensures { Reads (spec.add_function (function_value function) (state_of m.old))
        result (state_of m.new) }
{
    let place = push_function(m, function)?;
    let returns = m.returns;
    m.body.know_item(Meaning::Function(place, returns))
}

/// An entry point of a stage, by its code.
#[tactic(auto, unfolding(crate::specs::Functions::push_entry))]
fn push_entry(m: &mut Items<'_>, function: Function, stage: u64) -> Result<(), Refusal>
    ensures { Reads (spec.push_entry (function_value function) stage (state_of m.old))
        result (state_of m.new) }
{
    let name = text_of(m.alloc, m.function)?;
    m.entries
        .push(entry_of(name, stage, m.function_attributes, function))?;
    Ok(())
}

#[tactic(auto, unfolding(crate::specs::Functions::add_entry))]
fn add_entry(m: &mut Items<'_>, function: Function, stage: u64) -> Result<(), Refusal>
    ensures { Reads (spec.add_entry (function_value function) stage (state_of m.old))
        result (state_of m.new) }
{
    push_entry(m, function, stage)?;
    m.body.know_item(Meaning::Entry)
}

/// The function that ends, with what stands in it, which is taken.
fn take_function(m: &mut Items<'_>, name: String) -> Function
    ensures value { function_value result
        ≡ spec.made_function (string_bytes name) (state_of m.old) }
    ensures rest { state_of m.new ≡ spec.after_function (state_of m.old) }
{
    let inside = m.body.leave();
    let arguments = mem::replace(&mut m.arguments, Vec::new(m.alloc));
    m.attributes = no_attributes();
    function_of(name, arguments, m.result, inside)
}

#[tactic(auto, unfolding(crate::specs::Functions::add_by_stage))]
fn add_by_stage(m: &mut Items<'_>, function: Function) -> Result<(), Refusal>
    ensures { Reads (spec.add_by_stage (function_value function) (state_of m.old))
        result (state_of m.new) }
{
    match m.function_attributes.stage {
        Some(stage) => add_entry(m, function, stage),
        None => add_function(m, function),
    }
}

/// A function ends: with a stage it is an entry point.
#[tactic(auto, unfolding(crate::specs::Functions::function_end))]
pub fn function_end(m: &mut Items<'_>) -> Result<(), Refusal>
    ensures { Reads (spec.function_end (state_of m.old)) result (state_of m.new) }
{
    let name = text_of(m.alloc, m.function)?;
    let function = take_function(m, name);
    add_by_stage(m, function)
}
