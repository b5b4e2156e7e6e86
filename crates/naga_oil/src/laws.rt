//! Laws of makes: what a build depends on, which builds are kept, and where the calls of
//! overridden functions are redirected.
ghost use Rattle.naga_oil.specs.AfreshLaw.{AfreshLaw, ReadingLaw};
ghost use Rattle.naga_oil.specs.ChainsLaw.{CallsGoDownLaw, CallsLaw, ChainsLaw, ComposedLaw, MadeOverridingLaw};
ghost use Rattle.naga_oil.specs.Faithful.{FaithfulLaw};
ghost use Rattle.naga_oil.specs.LocalLaw.{BuildLaw, FinishLaw, ImportLaw, LinkLaw};
ghost use Rattle.naga_oil.specs.MadeAfreshLaw.{MadeAfreshLaw, MadeKeptLaw};
ghost use Rattle.naga_oil.specs.NewlyKeptLaw.{NewlyKeptLaw};
ghost use Rattle.naga_oil.specs.ReachLaw.{ProjectionLaw, RegistryLaw};
ghost use Rattle.naga_oil.specs.RunLaw.{EachMakeLaw};
ghost use Rattle.naga_oil.specs.StoreLaw.{EnterLaw, ForgetLaw, KeptLaw};

use naga_oil_ir::Backend;

/// A module's build, or the error in its place, depends on the shader definitions only through
/// their values of the module's effective names.
pub fn effective_names_decide()
    ensures { ProjectionLaw }
{}

/// A module's build, or the error in its place, depends on the registry only through the module
/// and the modules that it reaches by imports.
pub fn what_is_reached_decides()
    ensures { RegistryLaw }
{}

/// What imports link depends only on the builds of the imported modules, and on the builds that
/// these import.
pub fn builds_imported_decide()
    ensures import { ImportLaw }
    ensures link { LinkLaw }
{}

/// A module's build, or the error in its place, depends only on the builds of the modules that it
/// uses, and on the builds that these import. So does the module made of a shader, apart from the
/// place of a validation error.
pub fn builds_used_decide()
    ensures build { BuildLaw }
    ensures finish { FinishLaw }
{}

/// Reaching a module over earlier builds gives the same build and the same first error as building
/// it afresh. So does the second reading of a shader, over what is built under its definitions.
pub fn earlier_builds_change_nothing()
    ensures reached { AfreshLaw }
    ensures read { ReadingLaw }
{}

/// Each build of a make is what building its module afresh gives, and none is built twice. Of these
/// builds exactly those are newly kept that weren't kept yet.
pub fn makes_build_afresh()
    ensures built { MadeAfreshLaw }
    ensures kept { MadeKeptLaw }
{}

/// After any list of adds, removals and builds, the composer returns one value of its settings, the
/// registered modules, the binding counter and the inputs: the shader, or the first error. What is
/// kept from earlier builds never shows.
///
/// A build here is a call of `make_naga_module`, for which memory didn't run out.
pub fn makes_return_one_value<B: Backend>()
    ensures { EachMakeLaw B.front }
{}

/// A module whose build is kept is reached without building it again, and each build is kept as it
/// is built afresh.
pub fn kept_builds_stand()
    ensures reached { KeptLaw }
    ensures kept { EnterLaw }
{}

/// After modules are removed, or one is added, each kept build is still what building its module
/// afresh gives.
pub fn kept_builds_stay()
    ensures { ForgetLaw }
{}

/// A make adds exactly those of its builds that aren't kept yet to the kept ones, each once, in the
/// order of building.
pub fn builds_are_kept_once()
    ensures { NewlyKeptLaw }
{}

/// Of the functions that override one, each calls the one before it, the first one calls the
/// overridden function, and all other functions and the entry points call the last, however many
/// override it.
///
/// `call_goes` maps each call in a source to the call in the made shader. For an overridden
/// function that is the destination above.
pub fn calls_go_down_chains()
    ensures chain { ChainsLaw }
    ensures compose { ComposedLaw }
    ensures call { CallsLaw }
{}

/// In the builds of a make each overridden function is listed once, and no function overrides two.
pub fn builds_override_each_once()
    ensures { MadeOverridingLaw }
{}

/// Each module that a make answers is faithful to what was parsed for it.
pub fn made_modules_are_faithful()
    ensures { FaithfulLaw }
{}

/// In each module that a make answers, calls of overridden functions are redirected along their
/// chains.
pub fn made_calls_go_down()
    ensures { CallsGoDownLaw }
{}
