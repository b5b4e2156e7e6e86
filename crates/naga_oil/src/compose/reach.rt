//! Why a module can't be reached, and which imports are allowed.
ghost use Rattle.std.specs.Prelude.{◌≡◌, OnOk, OnErr};
ghost use Rattle.std.specs.Arc.{arc_value};
ghost use Rattle.naga_oil_link.specs.BuiltModule.{built_of, builds_of};
ghost use Rattle.naga_oil.specs.MakeView.{missing_there, IsUnbuilt};
ghost use Rattle.naga_oil.specs.Reach.{builds_with};

use super::*;

/// Why a module can't be reached.
#[derive(Drop)]
pub(crate) enum Unreached {
    /// The module with this name can't be imported, at this offset of the text that imports it.
    Missing(String, usize),
    /// The module with this name can't be built.
    Unbuilt(String, Unbuilt),
    Memory,
}

/// Which imports are allowed.
#[derive(Clone, Copy)]
pub(crate) enum Rule<'r> {
    /// All.
    Any,
    /// Those recorded of this module's text, or listed in addition to it.
    Recorded(&'r Registered),
    /// Those of registered modules whose definitions are among those of the make.
    Merged,
}

impl From<AllocError> for Unreached {
    ghost use Rattle.std.specs.Prelude.{◌≡◌};
    ghost use Rattle.naga_oil.specs.declared.compose.reach.Unreached.TheVariants.{Memory};

    ghost from_gives = { λ _ e. e ≡ Memory };

    fn from(_: AllocError) -> Unreached {
        Unreached::Memory
    }
}

impl<T: Drop> From<AllocFailed<T>> for Unreached {
    ghost use Rattle.std.specs.Prelude.{◌≡◌};
    ghost use Rattle.naga_oil.specs.declared.compose.reach.Unreached.TheVariants.{Memory};

    ghost from_gives = { λ _ e. e ≡ Memory };

    fn from(_: AllocFailed<T>) -> Unreached {
        Unreached::Memory
    }
}

impl Unreached {
    /// The module with this name can't be imported at this offset; or out of memory.
    pub(crate) fn missing(alloc: Global, name: &str, offset: usize) -> Unreached
        ensures { missing_there name.now offset result }
    {
        match String::from_str(alloc, name) {
            Ok(name) => Unreached::Missing(name, offset),
            Err(_) => Unreached::Memory,
        }
    }

    /// The module with this name can't be built; or out of memory.
    pub(crate) fn unbuilt(alloc: Global, name: &str, unbuilt: Unbuilt) -> Unreached
        ensures { IsUnbuilt name.now unbuilt result }
    {
        match String::from_str(alloc, name) {
            Ok(name) => Unreached::Unbuilt(name, unbuilt),
            Err(_) => Unreached::Memory,
        }
    }
}

/// Enters a build under the name of its module, unless the name has a build already.
#[inline(never)]
pub(crate) fn enter(
    alloc: Global,
    builds: &mut Builds,
    name: &str,
    build: Arc<Build>,
) -> AllocResult
    ensures ok { let built = built_of (arc_value build) in
        let more = builds_with (builds_of builds.old) name.now built in
        OnOk result (builds_of builds.new ≡ more) }
    ensures err { OnErr result (builds_of builds.new ≡ builds_of builds.old) }
{
    if !builds.contains_key(name) {
        builds.insert(String::from_str(alloc, name)?, build)?;
    }
    Ok(())
}
