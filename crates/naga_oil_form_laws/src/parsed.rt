//! Modules that pass the test of form, as values.
ghost use Rattle.naga_oil_form_laws.specs.EntryForm.{ParsedLaw, CopyableModuleLaw, CopiedFromLaw, WellFormedLaw};

use super::*;

/// The value of a module that passes the test of form, over a text that spans can cover, is formed.
pub fn well_formed_modules_are_formed(parsed: &Module)
    ensures { ParsedLaw parsed.now }
{
    // a map whose keys are read has none twice
    let _keys = parsed.special_types.predeclared_types.iter();
}

/// The items and functions of a module whose value is formed can be copied. The module passes the test of form if its special
/// types are distinct.
pub fn formed_modules_are_well_formed()
    ensures items { CopyableModuleLaw }
    ensures copied { CopiedFromLaw }
    ensures modules { WellFormedLaw }
{}
