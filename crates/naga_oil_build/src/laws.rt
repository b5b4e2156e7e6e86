//! No function overrides two others.
ghost use Rattle.naga_oil_build.specs.OverridingForm.{NameLaw, NoNameSharedLaw, NoneOverridesLaw, OriginalsLaw, WholeTextLaw};

/// The name of a function that overrides another determines which one.
pub fn names_tell_what_is_overridden()
    ensures { NameLaw }
{}

/// If each overridden function is listed once, and the functions that override it are named
/// accordingly, no function overrides two.
pub fn no_name_is_shared()
    ensures { NoNameSharedLaw }
{}

/// The overridden functions of a text, and of all that it imports, are listed once and named
/// accordingly.
pub fn texts_override_each_once()
    ensures { WholeTextLaw }
{}

/// Of overridden functions without the mark of an override in their names, none overrides another.
pub fn none_overrides_another()
    ensures { NoneOverridesLaw }
{}

/// If no text overrides an overriding function, no overridden function of a build has the mark of an
/// override in its name.
pub fn originals_are_overridden()
    ensures { OriginalsLaw }
{}
