//! Overrides and variables of the module.
ghost use Rattle.std.specs.Prelude.{◌≡◌, map, option_map};
ghost use Rattle.naga_oil_ir.specs.ModuleValue.{module_value};
ghost use Rattle.naga_oil_ir.specs.Rows.{override_row, global_row};
ghost use Rattle.naga_oil_ir.specs.declared.names.ItemPlace.TheVariants.{ExpressionItem};
ghost use Rattle.yettuvam_wgsl_valid_items.specs.Faults.{Tests};
ghost use Rattle.yettuvam_wgsl_valid_items.specs.Variables as spec;

use crate::faults::{Reason, TestResult, refuse};
use crate::types::is_not_told;
use naga_oil_ir::{GlobalVariable, Handle, Module, Operand, Override, Span, Type};
use yettuvam_wgsl_names::form_codes::{PRIVATE_SPACE, SPACE_ACCESS_UNIT};

// ---- types and values

// Tests that a declaration without a type has a value.
fn test_type(of: &Module, ty: Handle<Type>, value: Option<Operand>, span: Span) -> TestResult
    ensures { let types = (module_value of.now).types in
        Tests (spec.typed_valid types ty (option_map ExpressionItem value) span) result }
{
    match value {
        None if is_not_told(of, ty) => refuse(Reason::NoTypeOrValue, span),
        _ => Ok(()),
    }
}

// Whether a variable of an address space may have this initial value, or none.
fn fits_value(value: Option<Operand>, space: u64) -> bool
    ensures { result ≡ spec.fits_value (option_map ExpressionItem value) space }
{
    match value {
        Some(_) => space % SPACE_ACCESS_UNIT == PRIVATE_SPACE,
        None => true,
    }
}

// ---- identifiers of overrides

fn is_id(id: Option<u64>, number: u64) -> bool
    ensures { result ≡ spec.is_id id number }
{
    match id {
        Some(own) => own == number,
        None => false,
    }
}

fn has_id(overrides: &[(Override, Span)], number: u64) -> bool
    ensures { result ≡ spec.has_id (spec.override_rows overrides.now) number }
{
    let mut rest = overrides;
    while let [(item, _), more @ ..] = rest {
        if is_id(item.id, number) {
            return true;
        }
        rest = more;
    }
    false
}

// Whether one of the overrides after an override has its identifier.
fn has_id_again(id: Option<u64>, more: &[(Override, Span)]) -> bool
    ensures { result ≡ spec.has_id_again id (spec.override_rows more.now) }
{
    match id {
        Some(number) => has_id(more, number),
        None => false,
    }
}

fn test_id(item: &Override, more: &[(Override, Span)], span: Span) -> TestResult
    ensures { let rows = spec.override_rows more.now in
        Tests (spec.id_valid (override_row item.now, span) rows) result }
{
    if has_id_again(item.id, more) {
        refuse(Reason::IdTwice, span)
    } else {
        Ok(())
    }
}

fn test_ids(overrides: &[(Override, Span)]) -> TestResult
    ensures { Tests (spec.ids_valid (spec.override_rows overrides.now)) result }
{
    let mut rest = overrides;
    while let [(item, span), more @ ..] = rest {
        test_id(item, more, *span)?;
        rest = more;
    }
    Ok(())
}

// ---- the tests of a module

fn test_override(of: &Module, item: &Override, span: Span) -> TestResult
    ensures { let types = (module_value of.now).types in
        Tests (spec.override_valid types (override_row item.now, span)) result }
{
    test_type(of, item.ty, item.init, span)
}

fn test_override_types(of: &Module) -> TestResult
    ensures { let m = module_value of.now in
        Tests (spec.override_types_valid m.types m.overrides) result }
{
    for entry in of.overrides.as_slice() {
        test_override(of, &entry.0, entry.1)?;
    }
    Ok(())
}

/// Tests that each override has a type or a value, and that no two have the same identifier.
///
/// # Errors
/// `NoTypeOrValue` at the first override that has neither, else `IdTwice` at the first whose identifier a later one has.
pub fn test_overrides(of: &Module) -> TestResult
    ensures { let m = module_value of.now in
        Tests (spec.overrides_valid m.types m.overrides) result }
{
    test_override_types(of)?;
    test_ids(of.overrides.as_slice())
}

fn test_variable(of: &Module, global: &GlobalVariable, span: Span) -> TestResult
    ensures { let types = (module_value of.now).types in
        Tests (spec.variable_valid types (global_row global.now, span)) result }
{
    test_type(of, global.ty, global.init, span)?;
    if fits_value(global.init, global.space) {
        Ok(())
    } else {
        refuse(Reason::SpaceValue, span)
    }
}

/// Tests that each variable has a type or a value, and that variables outside of the address space `private` have no value.
///
/// # Errors
/// `NoTypeOrValue` or `SpaceValue` at the first variable that breaks a rule.
pub fn test_variables(of: &Module) -> TestResult
    ensures { let m = module_value of.now in
        Tests (spec.variables_valid m.types m.global_variables) result }
{
    for entry in of.global_variables.as_slice() {
        test_variable(of, &entry.0, entry.1)?;
    }
    Ok(())
}
