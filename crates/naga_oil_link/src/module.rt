//! A build of a module.
ghost use Rattle.std.specs.Prelude.{◌≤◌};
ghost use Rattle.naga_oil_ir.specs.Spans.{max_modules};

use super::*;

/// A build of a module.
pub type Build = ComposableModule;

/// Overridden functions, each with those that override it.
pub type Overrides = IndexMap<String, Vec<String>>;

/// A module that was built under some definitions.
#[derive(Drop)]
pub struct ComposableModule {
    /// What the names of the module's items end with.
    pub decorated_name: String,
    /// What the module imports under these definitions.
    pub imports: Vec<ImportDefinition>,
    /// The decorated names of the module's own items.
    pub owned_types: NameSet,
    pub owned_constants: NameSet,
    pub owned_pipeline_overrides: NameSet,
    pub owned_vars: NameSet,
    pub owned_functions: NameSet,
    /// The functions that other modules may override, undecorated.
    pub virtual_functions: NameSet,
    /// The functions that are overridden in the module or in what it imports, each with those that
    /// override it.
    pub override_functions: Overrides,
    pub(crate) module_ir: FormedModule,
    /// The module's own items, without bodies.
    pub(crate) header_ir: Header,
    /// The places of the own items in the module and in the header.
    pub(crate) own_in_module: OwnItems,
    pub(crate) own_in_header: OwnItems,
    /// Where the module's source begins in the text that was parsed, in bytes.
    pub(crate) start_offset: usize,
    /// The number of functions in the text that was parsed, with those of its heading: the header
    /// of what imports this module likely has as many.
    pub(crate) text_functions: usize,
    /// The module's index in the registry; index 0 is the shader's.
    pub(crate) index: usize,
    ghost small: { index ≤ max_modules },
}
