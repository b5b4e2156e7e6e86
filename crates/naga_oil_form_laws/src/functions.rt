//! Copies of functions of good form are of good form, and so are modules that they are imported into.
ghost use Rattle.naga_oil_form_laws.specs.DerivedForm.{ComingLaw, NothingFormedLaw, ClearedFormedLaw, ImportFormedLaw};
ghost use Rattle.naga_oil_form_laws.specs.DerivedForm.{RenameFormedLaw, SetFormedLaw, FunctionFormedLaw, FunctionIfNewLaw};
ghost use Rattle.naga_oil_form_laws.specs.EntryForm.{MakeLaw};
ghost use Rattle.naga_oil_form_laws.specs.FunctionForm.{CopyFormLaw};

/// The copy of a function that passes the test of form, apart from the targets of its calls, passes it likewise.
pub fn copies_have_form()
    ensures { CopyFormLaw }
{}

/// Each function of a source of good form may be imported from it.
pub fn functions_may_come()
    ensures { ComingLaw }
{}

/// The items and functions of a derived module pass the test of form if those of its sources do: in the empty module, without
/// a source, and after an item is imported, a type is imported under a name, or a source is set.
pub fn modules_stay_formed()
    ensures nothing { NothingFormedLaw }
    ensures cleared { ClearedFormedLaw }
    ensures import { ImportFormedLaw }
    ensures rename { RenameFormedLaw }
    ensures set { SetFormedLaw }
{}

/// The items and functions of a derived module still pass the test of form after a function is imported.
pub fn modules_with_functions_stay_formed()
    ensures function { FunctionFormedLaw }
    ensures if_new { FunctionIfNewLaw }
{}

/// The module that a derived module of good form becomes, with copies of its source's entry points, passes the test of form.
pub fn made_modules_are_formed()
    ensures { MakeLaw }
{}
