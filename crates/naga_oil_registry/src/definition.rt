// The types of the calls, and a registered module.
ghost use Rattle.std.specs.Prelude.{◌≡◌, bytes_eq};
ghost use Rattle.std.specs.List.{list_any};
ghost use Rattle.naga_oil_registry.specs.Registered.{definition_of};

use super::*;

/// A result that fails with an error of the composer.
pub type InnerResult<T = ()> = Result<T, Inner>;

/// Definitions of names.
pub type Defs = BTreeMap<String, ShaderDefValue>;

/// A registered module, or the shader, whose index is 0.
pub type Registered = ComposableModuleDefinition;

/// An import.
pub type Import = ImportDefinition;

/// An import, and the place of the text that uses it.
pub type Use = ImportDefWithOffset;

/// A registered module.
#[derive(Drop)]
pub struct ComposableModuleDefinition {
    pub name: String,
    /// The text without its last line end, with an empty line for each directive.
    pub sanitized_source: String,
    pub language: ShaderLanguage,
    pub file_path: String,
    /// The definitions that the module is bound to: its own, overwritten with those of each module
    /// that it imports.
    pub shader_defs: Defs,
    /// The names on which the module's build may depend: those that its text records, and those of
    /// all modules that it imports.
    pub effective_defs: NameSet,
    /// What the module may import: what its text uses under some definitions, then the additional
    /// imports.
    pub all_imports: Vec<ImportDefWithOffset>,
    /// Imports besides those that the text uses.
    pub additional_imports: Vec<ImportDefinition>,
    /// From 1 to 2047, unique among the registered modules.
    pub module_index: usize,
    pub wgsl_directives: WgslDirectives,
}

impl ComposableModuleDefinition {
    /// Whether the text or the additional imports of this module may import the module with a name.
    pub fn may_import(&self, name: &str) -> bool
        ensures { let of = definition_of self.now in
            result ≡ list_any (λ i. bytes_eq i.import.import name.now) of.imports }
    {
        let mut imports = self.all_imports.iter();
        imports.any(|import| import.definition().import.as_str() == name)
    }
}
