//! The numbers of values of structs and arrays.
ghost use Rattle.std.specs.Prelude.{◌≡◌, length, map};
ghost use Rattle.naga_oil_ir.specs.ModuleValue.{module_value, expression_values};
ghost use Rattle.naga_oil_ir.specs.Parts.{parts};
ghost use Rattle.yettuvam_wgsl_valid_items.specs.Constructors as spec;
ghost use Rattle.yettuvam_wgsl_valid_items.specs.Faults.{Tests};

use crate::faults::{Reason, TestResult, refuse};
use crate::types::takes_values;
use naga_oil_ir::{Expression, Module, Span};

// Whether an expression that is a constructor has the number of values that its type takes.
fn is_right(of: &Module, expression: &Expression) -> bool
    ensures { result ≡ spec.is_right (module_value of.now).types (parts expression.now) }
{
    match expression {
        Expression::Compose { ty, components } => takes_values(of, *ty, components.len()),
        _ => true,
    }
}

fn test_expression(of: &Module, expression: &Expression, span: Span) -> TestResult
    ensures { let types = (module_value of.now).types in
        Tests (spec.constructor_valid types (parts expression.now, span)) result }
{
    if is_right(of, expression) {
        Ok(())
    } else {
        refuse(Reason::ValueCount, span)
    }
}

/// Tests the numbers of values in constructors of structs, and of arrays with a written constant size. Constructors without
/// values, which are zeros, have no values to count.
///
/// # Errors
/// `ValueCount` at the first constructor with a wrong number of values.
pub fn test_constructors(of: &Module, expressions: &[(Expression, Span)]) -> TestResult
    ensures { let types = (module_value of.now).types in
        Tests (spec.constructors_valid types (expression_values expressions.now)) result }
{
    for entry in expressions {
        test_expression(of, &entry.0, entry.1)?;
    }
    Ok(())
}
