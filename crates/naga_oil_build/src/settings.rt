// The settings of builds.
ghost use Rattle.std.specs.Prelude.{◌≡◌};
ghost use Rattle.naga_oil_build.specs.BuildView.{bare_settings};

use super::*;

/// A front end, and how modules are built and shaders are made with it.
#[derive(Drop)]
pub struct Settings<B> {
    pub front: B,
    /// The capabilities with which headers and made shaders are validated.
    pub capabilities: Capabilities,
    /// Whether made shaders are validated, and the names of modules must survive the round trip.
    pub validate: bool,
    /// Whether any imported function may be overridden, and not only one that is virtual.
    pub override_any: bool,
}

impl<B> Settings<B> {
    /// Settings with no capabilities, under which only virtual functions may be overridden.
    pub fn new(front: B, validate: bool) -> Self
        ensures { result ≡ bare_settings front validate }
    {
        Settings {
            front,
            capabilities: Capabilities(0),
            validate,
            override_any: false,
        }
    }
}
