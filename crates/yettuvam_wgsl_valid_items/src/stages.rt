//! The inputs and outputs of entry points, and the sizes of workgroups.
ghost use Rattle.std.specs.Prelude.{◌≡◌, ◌++◌, IfOk, OnOk, map};
ghost use Rattle.naga_oil_ir.specs.ModuleValue.{module_value, argument_value, entry_value};
ghost use Rattle.naga_oil_ir.specs.Rows.{type_row, member_label};
ghost use Rattle.yettuvam_wgsl_valid_items.specs.Faults.{Tests};
ghost use Rattle.yettuvam_wgsl_valid_items.specs.Stages as spec;
ghost use Rattle.yettuvam_wgsl_valid_items.specs.Types.{row_at};

use crate::built_ins::{is_input_value, is_output_value};
use crate::distinct::are_distinct;
use crate::faults::{Reason, TestResult, refuse};
use crate::types::type_at;
use naga_oil_ir::{
    EntryPoint, Expression, FunctionArgument, FunctionResult, Handle, Module, Span, StructMember,
    Type, TypeInner,
};
use std::alloc::{AllocError, Global};
use yettuvam_wgsl_names::form_codes::{
    ALIGN_UNIT, BLEND_SRC_UNIT, BUILT_IN_VALUE_UNIT, COMPUTE, INTERPOLATION_UNIT, LOCATION,
    LOCATION_UNIT, NO_CLASS,
};

// ---- slots

// Where a value is passed: the class, the built-in value, the number of `@blend_src` and the location of a binding.
#[tactic(auto, unfolding(crate::specs::Stages::slot_of))]
fn slot_of(binding: u64) -> u64
    ensures { result ≡ spec.slot_of binding }
{
    let blend = binding % ALIGN_UNIT / BLEND_SRC_UNIT;
    let location = binding / LOCATION_UNIT;
    binding % INTERPOLATION_UNIT + blend * BLEND_SRC_UNIT + location * LOCATION_UNIT
}

// The slot of a value, if it has `@builtin` or `@location`.
fn bound_slot(binding: Option<u64>) -> Option<u64>
    ensures { result ≡ spec.bound_slot binding }
{
    match binding {
        Some(code) if code % BUILT_IN_VALUE_UNIT != NO_CLASS => Some(slot_of(code)),
        _ => None,
    }
}

fn push_some(out: &mut Vec<u64>, slot: Option<u64>) -> Result<(), AllocError>
    ensures { OnOk result (out.new.items ≡ out.old.items ++ spec.listed slot) }
{
    if let Some(slot) = slot {
        out.push(slot)?;
    }
    Ok(())
}

fn push_member_slots(members: &[StructMember], out: &mut Vec<u64>) -> Result<(), AllocError>
    ensures { let slots = spec.member_slots (map member_label members.now) in
        OnOk result (out.new.items ≡ out.old.items ++ slots) }
{
    let mut rest = members;
    while let [member, more @ ..] = rest {
        push_some(out, bound_slot(member.binding))?;
        rest = more;
    }
    Ok(())
}

fn push_type_slots(ty: &Type, out: &mut Vec<u64>) -> Result<(), AllocError>
    ensures { let slots = spec.member_slots (type_row ty.now).label.members in
        OnOk result (out.new.items ≡ out.old.items ++ slots) }
{
    match &ty.inner {
        TypeInner::Struct { members, .. } => push_member_slots(members, out),
        _ => Ok(()),
    }
}

// Appends the slots of the members of a type.
fn push_slots_at(of: &Module, ty: Handle<Type>, out: &mut Vec<u64>) -> Result<(), AllocError>
    ensures { let slots = spec.slots_at (row_at (module_value of.now).types ty) in
        OnOk result (out.new.items ≡ out.old.items ++ slots) }
{
    match type_at(of, ty) {
        Some(ty) => push_type_slots(ty, out),
        None => Ok(()),
    }
}

// Appends the slot of a value, or the slots of its members.
fn push_slots(
    of: &Module,
    ty: Handle<Type>,
    binding: Option<u64>,
    out: &mut Vec<u64>,
) -> Result<(), AllocError>
    ensures { let slots = spec.slots_of (module_value of.now).types ty binding in
        OnOk result (out.new.items ≡ out.old.items ++ slots) }
{
    match bound_slot(binding) {
        Some(slot) => push_some(out, Some(slot)),
        None => push_slots_at(of, ty, out),
    }
}

fn input_slots(
    alloc: Global,
    of: &Module,
    arguments: &[FunctionArgument],
) -> Result<Vec<u64>, AllocError>
    ensures { let types = (module_value of.now).types in
        IfOk result (λ v. v.items ≡ spec.input_slots types (map argument_value arguments.now)) }
{
    let mut out = Vec::new(alloc);
    let mut rest = arguments;
    while let [argument, more @ ..] = rest {
        push_slots(of, argument.ty, argument.binding, &mut out)?;
        rest = more;
    }
    Ok(out)
}

fn output_slots(
    alloc: Global,
    of: &Module,
    given: Option<FunctionResult>,
) -> Result<Vec<u64>, AllocError>
    ensures { let types = (module_value of.now).types in
        IfOk result (λ v. v.items ≡ spec.output_slots types given) }
{
    let mut out = Vec::new(alloc);
    if let Some(given) = given {
        push_slots(of, given.ty, given.binding, &mut out)?;
    }
    Ok(out)
}

// ---- what stages have

fn is_location(slot: u64) -> bool
    ensures { result ≡ spec.is_location slot }
{
    slot % BUILT_IN_VALUE_UNIT == LOCATION
}

fn value_in(slot: u64) -> u64
    ensures { result ≡ spec.value_in slot }
{
    slot % INTERPOLATION_UNIT / BUILT_IN_VALUE_UNIT
}

fn is_input(stage: u64, slot: u64) -> bool
    ensures { result ≡ spec.is_input stage slot }
{
    if is_location(slot) {
        stage != COMPUTE
    } else {
        is_input_value(stage, value_in(slot))
    }
}

fn is_output(stage: u64, slot: u64) -> bool
    ensures { result ≡ spec.is_output stage slot }
{
    is_location(slot) || is_output_value(stage, value_in(slot))
}

fn are_inputs(stage: u64, slots: &[u64]) -> bool
    ensures { result ≡ spec.are_inputs stage slots.now }
{
    let mut rest = slots;
    while let [slot, more @ ..] = rest {
        if !is_input(stage, *slot) {
            return false;
        }
        rest = more;
    }
    true
}

fn are_outputs(stage: u64, slots: &[u64]) -> bool
    ensures { result ≡ spec.are_outputs stage slots.now }
{
    let mut rest = slots;
    while let [slot, more @ ..] = rest {
        if !is_output(stage, *slot) {
            return false;
        }
        rest = more;
    }
    true
}

fn test_slots(has_them: bool, slots: &[u64], span: Span) -> TestResult
    ensures { Tests (spec.slots_valid has_them slots.now span) result }
{
    if !has_them {
        return refuse(Reason::WrongStage, span);
    }
    if !are_distinct(slots) {
        return refuse(Reason::SlotTwice, span);
    }
    Ok(())
}

fn test_inputs(alloc: Global, of: &Module, entry_point: &EntryPoint, span: Span) -> TestResult
    ensures { let types = (module_value of.now).types in
        Tests (spec.inputs_valid types (entry_value entry_point.now) span) result }
{
    let slots = input_slots(alloc, of, &entry_point.function.arguments)?;
    test_slots(are_inputs(entry_point.stage, &slots), &slots, span)
}

fn test_outputs(alloc: Global, of: &Module, entry_point: &EntryPoint, span: Span) -> TestResult
    ensures { let types = (module_value of.now).types in
        Tests (spec.outputs_valid types (entry_value entry_point.now) span) result }
{
    let slots = output_slots(alloc, of, entry_point.function.result)?;
    test_slots(are_outputs(entry_point.stage, &slots), &slots, span)
}

// ---- workgroups

// The expression of a workgroup's size, none for a size that is known.
type Computed = Option<Handle<Expression>>;

fn first_computed(computed: &[Computed]) -> Computed
    ensures { result ≡ spec.first_computed computed.now }
{
    match computed {
        [expression, ..] => *expression,
        [] => None,
    }
}

fn rest_computed(computed: &[Computed]) -> &[Computed]
    ensures { result.now ≡ spec.rest_computed computed.now }
{
    match computed {
        [_, more @ ..] => more,
        [] => computed,
    }
}

fn is_size(size: u32, computed: Computed) -> bool
    ensures { result ≡ spec.is_size size computed }
{
    match computed {
        Some(_) => true,
        None => size != 0,
    }
}

// Whether each size is computed or isn't 0.
fn are_sizes(sizes: &[u32], computed: &[Computed]) -> bool
    ensures { result ≡ spec.are_sizes sizes.now computed.now }
{
    let mut rest = sizes;
    let mut others = computed;
    while let [size, more @ ..] = rest {
        if !is_size(*size, first_computed(others)) {
            return false;
        }
        others = rest_computed(others);
        rest = more;
    }
    true
}

fn has_workgroup(entry_point: &EntryPoint) -> bool
    ensures { result ≡ spec.has_workgroup (entry_value entry_point.now) }
{
    match &entry_point.workgroup_size_overrides {
        Some(computed) => are_sizes(&entry_point.workgroup_size, computed),
        None => are_sizes(&entry_point.workgroup_size, &[]),
    }
}

fn test_workgroup(entry_point: &EntryPoint, span: Span) -> TestResult
    ensures { Tests (spec.workgroup_valid (entry_value entry_point.now) span) result }
{
    if entry_point.stage == COMPUTE {
        if !has_workgroup(entry_point) {
            return refuse(Reason::WorkgroupSize, span);
        }
    } else if entry_point.workgroup_size_overrides.is_some() {
        return refuse(Reason::WorkgroupSize, span);
    }
    Ok(())
}

/// Tests an entry point: its stage has its inputs and outputs, no two inputs and no two outputs are the same, and just compute
/// shaders have a workgroup, whose sizes aren't 0. `span` is the place of the entry point.
///
/// # Errors
/// `WrongStage`, `SlotTwice` or `WorkgroupSize`. `Memory` if out of memory.
pub fn test_stage(alloc: Global, of: &Module, entry_point: &EntryPoint, span: Span) -> TestResult
    ensures { let types = (module_value of.now).types in
        Tests (spec.stage_valid types (entry_value entry_point.now) span) result }
{
    test_inputs(alloc, of, entry_point, span)?;
    test_outputs(alloc, of, entry_point, span)?;
    test_workgroup(entry_point, span)
}
