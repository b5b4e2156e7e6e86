//! The inputs and outputs of entry points.
ghost use Rattle.std.specs.Prelude.{◌≡◌, map, option_map};
ghost use Rattle.naga_oil_ir.specs.ModuleValue.{module_value, argument_value, entry_value};
ghost use Rattle.naga_oil_ir.specs.Rows.{type_row, member_label};
ghost use Rattle.yettuvam_wgsl_valid_items.specs.Faults.{Tests};
ghost use Rattle.yettuvam_wgsl_valid.specs.Interfaces as spec;

use naga_oil_ir::{
    EntryPoint, FunctionArgument, FunctionResult, Handle, Module, Span, StructMember, Type,
    TypeInner,
};
use yettuvam_wgsl_names::form_codes::{
    BUILT_IN, BUILT_IN_VALUE_UNIT, COMPUTE, INTERPOLATION_UNIT, NO_CLASS, VERTEX,
};
use yettuvam_wgsl_valid_items::faults::{Reason, TestResult, refuse};

/// The code of the built-in value `position`.
pub const POSITION: u64 = 4;

// Whether a value has `@location` or `@builtin`.
fn is_bound(binding: Option<u64>) -> bool
    ensures { result ≡ spec.is_bound binding }
{
    match binding {
        Some(code) => code % BUILT_IN_VALUE_UNIT != NO_CLASS,
        None => false,
    }
}

// Whether a value has `@builtin(position)`.
fn is_position(binding: Option<u64>) -> bool
    ensures { result ≡ spec.is_position binding }
{
    match binding {
        Some(code) => { code % INTERPOLATION_UNIT == BUILT_IN + POSITION * BUILT_IN_VALUE_UNIT }
        None => false,
    }
}

fn are_bound(members: &[StructMember]) -> bool
    ensures { result ≡ spec.are_bound (map member_label members.now) }
{
    let mut rest = members;
    while let [member, more @ ..] = rest {
        if !is_bound(member.binding) {
            return false;
        }
        rest = more;
    }
    true
}

fn have_position(members: &[StructMember]) -> bool
    ensures { result ≡ spec.have_position (map member_label members.now) }
{
    let mut rest = members;
    while let [member, more @ ..] = rest {
        if is_position(member.binding) {
            return true;
        }
        rest = more;
    }
    false
}

fn has_bound_members(ty: &Type) -> bool
    ensures { result ≡ spec.has_bound_members (type_row ty.now) }
{
    match &ty.inner {
        TypeInner::Struct { members, .. } => are_bound(members),
        _ => false,
    }
}

fn has_position_member(ty: &Type) -> bool
    ensures { result ≡ spec.has_position_member (type_row ty.now) }
{
    match &ty.inner {
        TypeInner::Struct { members, .. } => have_position(members),
        _ => false,
    }
}

// Whether a value is bound, or each of its members is.
fn is_bound_value(of: &Module, ty: Handle<Type>, binding: Option<u64>) -> bool
    ensures { result ≡ spec.is_bound_value (module_value of.now).types ty binding }
{
    is_bound(binding)
        || of
            .types
            .get_handle(ty)
            .is_some_and(|t| has_bound_members(t))
}

// Whether a value is a position, or a member of it is one.
fn gives_position(of: &Module, ty: Handle<Type>, binding: Option<u64>) -> bool
    ensures { result ≡ spec.gives_position (module_value of.now).types ty binding }
{
    is_position(binding)
        || of
            .types
            .get_handle(ty)
            .is_some_and(|t| has_position_member(t))
}

fn inputs_are_bound(of: &Module, arguments: &[FunctionArgument]) -> bool
    ensures { let types = (module_value of.now).types in
        result ≡ spec.inputs_are_bound types (map argument_value arguments.now) }
{
    let mut rest = arguments;
    while let [argument, more @ ..] = rest {
        if !is_bound_value(of, argument.ty, argument.binding) {
            return false;
        }
        rest = more;
    }
    true
}

fn test_result(of: &Module, stage: u64, given: FunctionResult, span: Span) -> TestResult
    ensures { Tests (spec.result_valid (module_value of.now).types stage given span) result }
{
    if stage == COMPUTE {
        return refuse(Reason::ComputeResult, span);
    }
    if !is_bound_value(of, given.ty, given.binding) {
        return refuse(Reason::Unbound, span);
    }
    if stage == VERTEX && !gives_position(of, given.ty, given.binding) {
        return refuse(Reason::NoPosition, span);
    }
    Ok(())
}

fn test_output(of: &Module, stage: u64, given: Option<FunctionResult>, span: Span) -> TestResult
    ensures { Tests (spec.output_valid (module_value of.now).types stage given span) result }
{
    match given {
        Some(given) => test_result(of, stage, given, span),
        None if stage == VERTEX => refuse(Reason::NoPosition, span),
        None => Ok(()),
    }
}

/// Tests the inputs and the outputs of an entry point. `span` is its place.
///
/// # Errors
/// `Unbound`, `NoPosition` or `ComputeResult`.
pub fn test_interface(of: &Module, entry_point: &EntryPoint, span: Span) -> TestResult
    ensures { let types = (module_value of.now).types in
        Tests (spec.interface_valid types (entry_value entry_point.now) span) result }
{
    let function = &entry_point.function;
    if !inputs_are_bound(of, &function.arguments) {
        return refuse(Reason::Unbound, span);
    }
    test_output(of, entry_point.stage, function.result, span)
}
