//! Modules stay of good form when their items are renamed and their entry points become functions.
ghost use Rattle.naga_oil_form_laws.specs.OwnedForm.{NamedLaw, DecorationLaw, UnboundLaw, AppendedLaw};

/// A module whose constants, overrides, globals and functions are renamed passes the test of form if each function has a name of
/// its own then. Adding the decoration under which a module passed is such a renaming.
pub fn modules_under_other_names_are_formed()
    ensures named { NamedLaw }
    ensures decoration { DecorationLaw }
{}

/// A function without its bindings passes the test of form as before. A module passes with functions appended that may stand
/// there.
pub fn modules_with_more_functions_are_formed()
    ensures unbound { UnboundLaw }
    ensures appended { AppendedLaw }
{}
