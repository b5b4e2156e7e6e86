//! Reads a shader, and merges the definitions of the modules that it imports.
ghost use Rattle.std.specs.Prelude.{◌≡◌, IfOk, map, Ok, Err, true, string_bytes};
ghost use Rattle.naga_oil_words.specs.Texts.{texts};
ghost use Rattle.naga_oil_imports.specs.Uses.{use_of};
ghost use Rattle.naga_oil_pre.specs.MetadataView.{metadata_of};
ghost use Rattle.naga_oil_conditions.specs.View.{Gives};
ghost use Rattle.naga_oil_registry.specs.Registered.{definition_of, defs_of};
ghost use Rattle.naga_oil_registry.specs.Descriptor.{shader_source};
ghost use Rattle.naga_oil.specs.Shader.{shader_definition, read_shader, imported, agrees, defs_union, defs_union_over, are_among, may_use};

use super::*;
use naga_oil_registry::merge::clone_imports;
use naga_oil_registry::registry::Registry;

// The shader as a module without a name and with index 0.
fn shader_of(
    alloc: Global,
    desc: &NagaModuleDescriptor<'_>,
    of: PreprocessorMetaData,
) -> AllocResult<Registered>
    ensures { let read = shader_definition (shader_source desc.now) (metadata_of of) in
        let told = read (defs_of of.defines) (texts of.effective_defs.keys) in
        IfOk result (λ d. definition_of d ≡ told) }
{
    Ok(Registered {
        name: String::new(alloc),
        sanitized_source: of.cleaned_source,
        language: ShaderLanguage::from(desc.shader_type),
        file_path: String::from_str(alloc, desc.file_path)?,
        shader_defs: of.defines,
        effective_defs: of.effective_defs,
        all_imports: of.imports,
        additional_imports: clone_imports(alloc, desc.additional_imports)?,
        module_index: 0,
        wgsl_directives: of.wgsl_directives,
    })
}

/// Reads a shader's text, and returns the shader as a module without a name and with index 0.
pub(crate) fn read_shader(
    alloc: Global,
    desc: &NagaModuleDescriptor<'_>,
    text: &str,
) -> InnerResult<Registered>
    ensures { Gives definition_of result (read_shader (shader_source desc.now) text.now) }
{
    let metadata = Preprocessor.get_preprocessor_metadata(alloc, text, true)?;
    // The contract of `len` says that the names of a map or a set are sorted.
    let _lengths = (metadata.defines.len(), metadata.effective_defs.len());
    Ok(shader_of(alloc, desc, metadata)?)
}

// The imported module, or an error if it isn't registered.
fn imported<'c>(import: &Use, modules: &'c Registry) -> InnerResult<&'c Registered>
    ensures { let told = imported modules.now (use_of import.now) in
        Gives (λ d. definition_of d.now) result told }
{
    let name = &import.definition().import;
    match modules.get(name.as_str()) {
        Some(definition) => Ok(definition),
        None => Err(Inner::ImportNotFound(name.clone()?, import.offset())),
    }
}

// Whether a name may be defined as a value: it has no other value.
fn agrees(known: Option<ShaderDefValue>, value: ShaderDefValue) -> bool
    ensures { result ≡ agrees value known }
{
    match known {
        None => true,
        Some(known) => known == value,
    }
}

// Adds definitions. A name that has another value already is an error.
fn add_consistent(defs: &mut Defs, others: &Defs) -> InnerResult
    ensures { let more = defs_union (defs_of defs.old) (defs_of others.now) in
        Gives (λ done. defs_of defs.new) result more }
{
    for (name, value) in others {
        let known = defs.insert(name.clone()?, *value)?;
        if !agrees(known, *value) {
            return Err(Inner::InconsistentShaderDefValue { def: name.clone()? });
        }
    }
    Ok(())
}

/// Adds the definitions of the imported modules. A module that isn't registered is an error, and so
/// is a name with two values.
pub(crate) fn merge(defs: &mut Defs, imports: &[Use], modules: &Registry) -> InnerResult
    ensures { let merged = defs_union_over modules.now (defs_of defs.old) in
        Gives (λ done. defs_of defs.new) result (merged (map use_of imports.now)) }
{
    for import in imports {
        let of = imported(import, modules)?;
        add_consistent(defs, &of.shader_defs)?;
    }
    Ok(())
}

// Whether all of these definitions are among others.
fn are_among(defs: &Defs, others: &Defs) -> bool
    ensures { result ≡ are_among (defs_of defs.now) (defs_of others.now) }
{
    for (name, value) in defs {
        if others.get(name.as_str()) != Some(value) {
            return false;
        }
    }
    true
}

/// Whether the second reading may import a module: it is registered, and its definitions are among
/// these.
pub(crate) fn may_use(import: &Use, modules: &Registry, defs: &Defs) -> bool
    ensures { result ≡ may_use modules.now (defs_of defs.now) (use_of import.now) }
{
    let name = &import.definition().import;
    match modules.get(name.as_str()) {
        Some(of) => are_among(&of.shader_defs, defs),
        None => false,
    }
}
