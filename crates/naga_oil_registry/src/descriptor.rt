//! The descriptors that callers pass.
ghost use Rattle.std.specs.Prelude.{◌≡◌, [], None, IfOk};
ghost use Rattle.naga_oil_ir.specs.declared.language.ShaderLanguage.TheVariants as language;
ghost use Rattle.naga_oil_registry.specs.declared.descriptor.ShaderType.TheVariants as stage;

use super::*;

/// The language and stage of a shader's text.
#[derive(Clone, Copy, PartialEq, Eq, Debug, Default, Hash)]
pub enum ShaderType {
    #[default]
    Wgsl,
    GlslVertex,
    GlslFragment,
}

impl From<ShaderType> for ShaderLanguage {
    ghost use Rattle.std.specs.Prelude.{◌≡◌};
    ghost use Rattle.naga_oil_registry.specs.Descriptor.{language_of};

    ghost from_gives = { λ shader_type language. language ≡ language_of shader_type };

    fn from(shader_type: ShaderType) -> ShaderLanguage {
        match shader_type {
            ShaderType::Wgsl => ShaderLanguage::Wgsl,
            ShaderType::GlslVertex | ShaderType::GlslFragment => ShaderLanguage::Glsl,
        }
    }
}

/// Definitions of names.
#[derive(Debug, Drop, PartialEq, Eq)]
pub struct OwnedShaderDefs(Defs);

impl OwnedShaderDefs {
    ghost use Rattle.naga_oil_registry.specs.Registered.{defs_of};
    ghost use Rattle.naga_oil_registry.specs.Descriptor.{owned_defs_of};

    /// No definitions.
    pub fn new(alloc: Global) -> OwnedShaderDefs
        ensures { owned_defs_of result ≡ [] }
    {
        OwnedShaderDefs(Defs::new(alloc))
    }

    /// A copy of the definitions.
    pub fn try_clone(&self) -> AllocResult<OwnedShaderDefs>
        ensures { IfOk result (λ copy. owned_defs_of copy ≡ owned_defs_of self.now) }
    {
        Ok(OwnedShaderDefs(self.0.clone()?))
    }
}

/// A module to add.
#[derive(Drop)]
pub struct ComposableModuleDescriptor<'a> {
    pub source: &'a str,
    /// The text's path, for reports.
    pub file_path: &'a str,
    pub language: ShaderLanguage,
    /// The module's name, which replaces the import path that the text defines.
    pub as_name: Option<String>,
    /// Imports besides those that the text uses.
    pub additional_imports: &'a [ImportDefinition],
    /// The definitions that the module is bound to.
    pub shader_defs: Defs,
}

impl<'a> ComposableModuleDescriptor<'a> {
    ghost use Rattle.naga_oil_registry.specs.Descriptor.{module_source, no_module};

    /// An empty text in WGSL, with no name, no definitions and no additional imports.
    pub fn new(alloc: Global) -> ComposableModuleDescriptor<'a>
        ensures { module_source result ≡ no_module }
    {
        ComposableModuleDescriptor {
            source: "",
            file_path: "",
            language: ShaderLanguage::Wgsl,
            as_name: None,
            additional_imports: &[],
            shader_defs: Defs::new(alloc),
        }
    }
}

/// A shader to build.
#[derive(Drop)]
pub struct NagaModuleDescriptor<'a> {
    pub source: &'a str,
    /// The text's path, for reports.
    pub file_path: &'a str,
    pub shader_type: ShaderType,
    /// The definitions that the shader is built under, besides its own defines.
    pub shader_defs: Defs,
    /// Imports besides those that the text uses.
    pub additional_imports: &'a [ImportDefinition],
}

impl<'a> NagaModuleDescriptor<'a> {
    ghost use Rattle.naga_oil_registry.specs.Descriptor.{shader_source, no_shader};

    /// An empty text in WGSL, with no definitions and no additional imports.
    pub fn new(alloc: Global) -> NagaModuleDescriptor<'a>
        ensures { shader_source result ≡ no_shader }
    {
        NagaModuleDescriptor {
            source: "",
            file_path: "",
            shader_type: ShaderType::Wgsl,
            shader_defs: Defs::new(alloc),
            additional_imports: &[],
        }
    }
}
