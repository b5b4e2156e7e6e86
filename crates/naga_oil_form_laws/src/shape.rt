//! Modules have the shape of modules.
ghost use Rattle.naga_oil_form_laws.specs.Shape.{ShapeLaw};
ghost use Rattle.std.specs.Prelude.{◌≡◌, true};
ghost use Rattle.naga_oil_ir.specs.ModuleValue.{module_value};
ghost use Rattle.naga_oil_form_laws.specs.ShapeTest.{has_shape, ShapeTestLaw};

use super::*;

/// The plain data of each module has the shape of a module.
pub fn modules_have_their_shape()
    ensures { ShapeLaw }
{}

/// The test of shape decides whether plain data has the shape of a module.
pub fn shapes_are_tested()
    ensures { ShapeTestLaw }
{}

/// The value of each module passes the test of shape.
pub fn modules_pass_the_test_of_shape(parsed: &Module)
    ensures { has_shape (module_value parsed.now) ≡ true }
{
    // a map whose keys are read has none twice
    let _keys = parsed.special_types.predeclared_types.iter();
}
