//! All tests of a module's items.
ghost use Rattle.std.specs.Prelude.{◌≡◌};
ghost use Rattle.naga_oil_ir.specs.ModuleValue.{module_value};
ghost use Rattle.yettuvam_wgsl_valid_items.specs.Faults.{Tests};
ghost use Rattle.yettuvam_wgsl_valid_items.specs.Items as spec;

use crate::constructors::test_constructors;
use crate::faults::TestResult;
use crate::members::test_types;
use crate::variables::{test_overrides, test_variables};
use naga_oil_ir::Module;

/// Tests the items of a module that are no functions: structs, overrides, variables, and the values of items.
///
/// # Errors
/// `Fault` with the reason and the span of the first fault.
#[tactic(auto, unfolding(crate::specs::Items::items_valid))]
pub fn test_items(of: &Module) -> TestResult
    ensures { Tests (spec.items_valid (module_value of.now)) result }
{
    test_types(of)?;
    test_overrides(of)?;
    test_variables(of)?;
    test_constructors(of, of.global_expressions.as_slice())
}
