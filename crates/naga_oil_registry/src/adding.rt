// Adding a module: its text, its name, and its imports.
ghost use Rattle.std.specs.Prelude.{◌≡◌, ℕ, List, IfOk, OnOk, OnErr, map, option_map, string_bytes};
ghost use Rattle.std.specs.BTreeSet.{contains_text};
ghost use Rattle.naga_oil_imports.specs.Uses.{use_of};
ghost use Rattle.naga_oil_conditions.specs.View.{Gives};
ghost use Rattle.naga_oil_registry.specs.Added.{described, imported_among, new_definition, shown_by, Enters};
ghost use Rattle.naga_oil_registry.specs.Registered.{definition_of};
ghost use Rattle.naga_oil_registry.specs.Descriptor.{module_source};
ghost use Rattle.naga_oil_registry.specs.Registry.{reaches, removed, standing, free_index, IsRegistry};
ghost use Rattle.naga_oil_registry.specs.DescribedView.{described_of, KnowsRecorded};

use super::merge::{clone_imports, push_additional, take_over};
use super::registry::Registry;
use super::*;

/// The name of a module, and the metadata of its text.
#[derive(Drop)]
pub struct Described {
    pub name: String,
    pub metadata: PreprocessorMetaData,
}

/// The name and metadata of a module's text. A given name replaces the import path.
#[tactic(auto, unfolding(crate::specs::Added::described))]
pub fn describe(alloc: Global, given: Option<&String>, text: &str) -> InnerResult<Described>
    ensures value { let path = option_map (λ name. string_bytes name.now) given.entry in
        Gives described_of result (described path text.now) }
    ensures recorded { IfOk result KnowsRecorded }
{
    let metadata = Preprocessor.get_preprocessor_metadata(alloc, text, false)?;
    // With the length it is known that the names of the set are sorted.
    let _count = metadata.effective_defs.len();
    let Some(name) = given.or(metadata.name.as_ref()) else {
        return Err(Inner::NoModuleName);
    };
    let name = name.clone()?;
    Ok(Described { name, metadata })
}

// The imported modules, or the first import whose module isn't registered or is removed.
fn imported_modules<'a>(
    alloc: Global,
    registry: &'a Registry,
    gone: &NameSet,
    imports: &[Use],
) -> InnerResult<Vec<&'a Registered>>
    ensures { let left = standing (contains_text gone.now) registry.now in
        let imported = imported_among left (map use_of imports.now) in
        Gives (λ v. map (λ d. definition_of d.now) v.items) result imported }
{
    let mut imported = Vec::with_capacity(alloc, imports.len())?;
    for import in imports {
        let name = &import.definition().import;
        let Some(definition) = registry.standing(gone, name.as_str()) else {
            return Err(Inner::ImportNotFound(name.clone()?, import.offset()));
        };
        imported.push(definition)?;
    }
    Ok(imported)
}

// The definition of a new module over the modules that stay, with their smallest free index.
#[tactic(auto, unfolding(crate::specs::Added::new_definition))]
fn new_definition(
    alloc: Global,
    registry: &Registry,
    gone: &NameSet,
    free: Option<usize>,
    desc: ComposableModuleDescriptor<'_>,
    described: Described,
) -> InnerResult<Registered>
    requires free { free ≡ free_index (standing (contains_text gone.now) registry.now) }
    requires recorded { KnowsRecorded described }
    ensures { let left = standing (contains_text gone.now) registry.now in
        let definition = new_definition left (module_source desc.entry) (described_of described) in
        Gives definition_of result definition }
{
    let Described { name, mut metadata } = described;
    push_additional(&mut metadata.imports, desc.additional_imports)?;
    let imported = imported_modules(alloc, registry, gone, metadata.imports.as_slice())?;
    let Some(module_index) = free else {
        return Err(Inner::TooManyModules);
    };
    let mut shader_defs = desc.shader_defs;
    take_over(&mut shader_defs, &mut metadata.effective_defs, &imported)?;
    Ok(Registered {
        name,
        sanitized_source: metadata.cleaned_source,
        language: desc.language,
        file_path: String::from_str(alloc, desc.file_path)?,
        shader_defs,
        effective_defs: metadata.effective_defs,
        all_imports: metadata.imports,
        additional_imports: clone_imports(alloc, desc.additional_imports)?,
        module_index,
        wgsl_directives: metadata.wgsl_directives,
    })
}

/// Registers a module. Returns its index and the names of the modules that it replaces. An error
/// changes nothing.
pub fn register(
    alloc: Global,
    registry: &mut Registry,
    desc: ComposableModuleDescriptor<'_>,
    described: Described,
) -> InnerResult<(usize, NameSet)>
    requires registry { IsRegistry registry.old }
    requires recorded { KnowsRecorded described }
    ensures reply { let of = described_of described in
        let left = removed of.name registry.old in
        let definition = new_definition left (module_source desc.entry) of in
        Gives (λ r. r.0) result (shown_by (λ d. d.index) definition) }
    ensures registry { let of = described_of described in
        let left = removed of.name registry.old in
        let definition = new_definition left (module_source desc.entry) of in
        OnOk result (Enters registry.old definition registry.new) }
    ensures gone { let name = (described_of described).name in
        IfOk result (λ r. (other : List ℕ) →
        contains_text r.1 other ≡ reaches registry.old other name) }
    ensures refused { OnErr result (registry.new ≡ registry.old) }
{
    let gone = registry.gone_with(described.name.as_str())?;
    let free = registry.free_index(&gone)?;
    let definition = new_definition(alloc, registry, &gone, free, desc, described)?;
    let index = definition.module_index;
    registry.enter(&gone, definition)?;
    Ok((index, gone))
}
