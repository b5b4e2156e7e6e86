// A shader that is built over the modules of files.
ghost use Rattle.std.specs.Prelude.{◌≡◌, ◌∷◌, IfOk, map, string_bytes};
ghost use Rattle.naga_oil.specs.Makes.{settings_of};
ghost use Rattle.naga_oil.specs.Refused.{refused_of};
ghost use Rattle.naga_oil_conditions.specs.View.{fault_of};
ghost use Rattle.naga_oil_imports.specs.Uses.{import_of};
ghost use Rattle.naga_oil_ir.specs.ModuleValue.{module_value};
ghost use Rattle.naga_oil_registry.specs.Registered.{defs_of};
ghost use Rattle.yettuvam_build.specs.Built as spec;
ghost use Rattle.yettuvam_build.specs.BuiltView.{IsTold, cleaned_of, modules_of, source_in};
ghost use Rattle.yettuvam_build.specs.Files.{file_of};
ghost use Rattle.yettuvam_build.specs.Refusals.{Gives};
ghost use Rattle.yettuvam_build.specs.Reported.{file_text};
ghost use Rattle.yettuvam_build.specs.Words.{request_view};
ghost use Rattle.yettuvam_faults.specs.Reports.{fault_report};
ghost use Rattle.yettuvam_files.specs.Files.{texts_of};

use super::definitions::Definitions;
use super::order::module_order;
use super::refusal::Refusal;
use super::words::Request;
use naga_oil::compose::{
    ComposableModuleDescriptor, Composer, ComposerError, ErrSource, NagaModuleDescriptor,
    ShaderType,
};
use naga_oil_imports::ImportDefinition;
use naga_oil_ir::{Backend, Module};
use std::alloc::{AllocError, Global};
use yettuvam_faults::{Source, cleaned_source, fault_report};

// The text of the first file at a path, or the empty text.
fn file_text<'f>(top: &'f (&str, String), others: &'f [(&str, String)], path: &str) -> &'f str
    ensures { let files = file_of top.now ∷ map file_of others.now in
        result.now ≡ file_text path.now files }
{
    if top.0 == path {
        return top.1.as_str();
    }
    let mut rest = others;
    while let [file, more @ ..] = rest {
        if file.0 == path {
            return file.1.as_str();
        }
        rest = more;
    }
    ""
}

// The text without directives of an error's place. The binding counter is that before the call.
fn cleaned_text<B: Backend>(
    alloc: Global,
    composer: &Composer<B>,
    counter: u32,
    at: &ErrSource,
) -> Result<String, AllocError>
    ensures { let cleaned = cleaned_of counter composer.now.registry at.now in
        IfOk result (λ t. string_bytes t ≡ cleaned) }
{
    match at {
        ErrSource::Constructing { source, .. } => cleaned_source(alloc, counter, source.as_str()),
        ErrSource::Module { name, .. } => match composer.module(name.as_str()) {
            Some(definition) => String::from_str(alloc, definition.sanitized_source.as_str()),
            None => Ok(String::new(alloc)),
        },
    }
}

// The report of an error in files. The binding counter is that before the call.
fn error_report<B: Backend>(
    alloc: Global,
    composer: &Composer<B>,
    top: &(&str, String),
    others: &[(&str, String)],
    counter: u32,
    error: &ComposerError,
) -> Result<String, AllocError>
    ensures { let files = file_of top.now ∷ map file_of others.now in
        let source = source_in files counter composer.now.registry error.now.source in
        IfOk result (λ t. string_bytes t ≡ fault_report source (fault_of error.now.inner)) }
{
    let at = &error.source;
    let path = at.path(composer);
    let cleaned = cleaned_text(alloc, composer, counter, at)?;
    let parsed = at.source(composer)?;
    let source = Source {
        path,
        file: file_text(top, others, path),
        cleaned: cleaned.as_str(),
        parsed: parsed.as_str(),
        offset: at.offset(),
    };
    fault_report(alloc, source, &error.inner)
}

// The refusal of an error in files. The binding counter is that before the call.
fn told<'a, B: Backend>(
    alloc: Global,
    composer: &Composer<B>,
    top: &(&str, String),
    others: &[(&str, String)],
    counter: u32,
    error: &ComposerError,
) -> Refusal<'a>
    ensures { let files = file_of top.now ∷ map file_of others.now in
        IsTold files counter composer.now.registry (refused_of error.now) result }
{
    match error_report(alloc, composer, top, others, counter, error) {
        Ok(report) if !error.inner.is_memory() => Refusal::Fault(report),
        _ => Refusal::Memory,
    }
}

// Adds the module in a file.
fn add_file<'a, B: Backend>(
    alloc: Global,
    composer: &mut Composer<B>,
    file: &(&str, String),
) -> Result<(), Refusal<'a>>
    ensures added { let added = spec.with_file (modules_of composer.old) (file_of file.now) in
        Gives (λ done. modules_of composer.new) result added }
    ensures settings { composer.new.settings ≡ composer.old.settings }
{
    let counter = composer.binding_counter();
    let mut desc = ComposableModuleDescriptor::new(alloc);
    desc.source = file.1.as_str();
    desc.file_path = file.0;
    match composer.add_module(desc) {
        Ok(_) => Ok(()),
        Err(error) => Err(told(alloc, composer, file, &[], counter, &error)),
    }
}

// Adds the module in the file at a place, if there is one.
#[tactic(auto, using(crate::proofs::FileLemmas::file_at))]
fn add_at<'a, B: Backend>(
    alloc: Global,
    composer: &mut Composer<B>,
    files: &[(&str, String)],
    place: usize,
) -> Result<(), Refusal<'a>>
    ensures added { let added = spec.with_place (map file_of files.now) in
        Gives (λ done. modules_of composer.new) result (added (modules_of composer.old) place) }
    ensures settings { composer.new.settings ≡ composer.old.settings }
{
    match files.get(place) {
        Some(file) => add_file(alloc, composer, file),
        None => Ok(()),
    }
}

// Adds the modules in the files at places, one after the other.
#[tactic(auto, unfolding(crate::specs::Built::with_places))]
fn add_files<'a, B: Backend>(
    alloc: Global,
    composer: &mut Composer<B>,
    files: &[(&str, String)],
    order: &[usize],
) -> Result<(), Refusal<'a>>
    ensures added { let added = spec.with_places (map file_of files.now) in
        Gives (λ done. modules_of composer.new) result (added (modules_of composer.old) order.now) }
    ensures settings { composer.new.settings ≡ composer.old.settings }
{
    let mut rest = order;
    while let [place, more @ ..] = rest {
        add_at(alloc, composer, files, *place)?;
        rest = more;
    }
    Ok(())
}

// Imports of modules without items.
fn bare_imports(alloc: Global, names: &[&str]) -> Result<Vec<ImportDefinition>, AllocError>
    ensures { let expected = map spec.bare_import (texts_of names.now) in
        IfOk result (λ imports. map import_of imports.items ≡ expected) }
{
    let mut imports = Vec::new(alloc);
    let mut rest = names;
    while let [name, more @ ..] = rest {
        imports.push(ImportDefinition {
            import: String::from_str(alloc, *name)?,
            items: Vec::new(alloc),
        })?;
        rest = more;
    }
    Ok(imports)
}

// Builds the shader of a file over the modules that were added, under definitions.
fn make_shader<'a, B: Backend>(
    alloc: Global,
    composer: &mut Composer<B>,
    top: &(&str, String),
    others: &[(&str, String)],
    imports: &[&str],
    definitions: Definitions,
) -> Result<Module, Refusal<'a>>
    ensures { let shader = spec.shader_of (defs_of definitions) (texts_of imports.now) in
        let files = file_of top.now ∷ map file_of others.now in
        let made = spec.made_over (settings_of B.front composer.old) files in
        Gives module_value result (made (modules_of composer.old) (shader (file_of top.now))) }
{
    let counter = composer.binding_counter();
    let imports = bare_imports(alloc, imports)?;
    let desc = NagaModuleDescriptor {
        source: top.1.as_str(),
        file_path: top.0,
        shader_type: ShaderType::Wgsl,
        shader_defs: definitions,
        additional_imports: imports.as_slice(),
    };
    match composer.make_naga_module(desc) {
        Ok(made) => Ok(made),
        Err(error) => Err(told(alloc, composer, top, others, counter, &error)),
    }
}

// Builds the shader of a file with the modules in other files, which are added at these places.
fn make_ordered<'a, B: Backend + Copy>(
    alloc: Global,
    front: B,
    top: &(&str, String),
    others: &[(&str, String)],
    order: &[usize],
    request: &Request<'_>,
    definitions: Definitions,
) -> Result<Module, Refusal<'a>>
    ensures { let made = spec.made_ordered (B.front front) (request_view request.now) in
        let over = made (defs_of definitions) (file_of top.now) (map file_of others.now) in
        Gives module_value result (over order.now) }
{
    let mut composer = Composer::new(alloc, front).with_override_any(request.override_any);
    add_files(alloc, &mut composer, others, order)?;
    make_shader(
        alloc,
        &mut composer,
        top,
        others,
        &request.imports,
        definitions,
    )
}

/// Builds the shader of a file with the modules in other files, which may stand in any order, under definitions.
pub fn make_module<'a, B: Backend + Copy>(
    alloc: Global,
    front: B,
    top: &(&str, String),
    others: &[(&str, String)],
    request: &Request<'_>,
    definitions: Definitions,
) -> Result<Module, Refusal<'a>>
    ensures { let made = spec.made_module (B.front front) (request_view request.now) in
        let over = made (defs_of definitions) (file_of top.now) in
        Gives module_value result (over (map file_of others.now)) }
{
    let order = module_order(alloc, others)?;
    make_ordered(alloc, front, top, others, &order, request, definitions)
}
