// Shaders that are built from files over Mini.
ghost use Rattle.std.specs.Prelude.{◌≡◌, IfOk, map, string_bytes};
ghost use Rattle.naga_oil.specs.Refused.{refused_of};
ghost use Rattle.naga_oil_imports.specs.Uses.{import_of};
ghost use Rattle.naga_oil_ir.specs.ModuleValue.{module_value};
ghost use Rattle.naga_oil_mini.specs.Made.{bare_import, made_module, made_over, made_text, or_not_in_mini, shader_of, with_file, with_files};
ghost use Rattle.naga_oil_mini.specs.MadeView.{IsTold, file_of, mini_settings, modules_of};
ghost use Rattle.naga_oil_mini.specs.Shown.{Gives};
ghost use Rattle.naga_oil_mini.specs.Words.{asked_of};
ghost use Rattle.naga_oil_mini_symbols.specs.NameTable.{texts_of};
ghost use Rattle.naga_oil_mini_writer.specs.Writer.{module_text};
ghost use Rattle.naga_oil_registry.specs.Registered.{defs_of};

use super::definitions::Definitions;
use super::refusal::Refusal;
use super::words::Request;
use naga_oil::compose::{
    ComposableModuleDescriptor, Composer, ComposerError, NagaModuleDescriptor, ShaderType,
};
use naga_oil_imports::ImportDefinition;
use naga_oil_ir::Module;
use naga_oil_mini_front::{Mini, NotWritten, module_text};
use std::alloc::{AllocError, Global};

// The refusal of an error.
fn told<'a>(composer: &Composer<Mini>, error: ComposerError) -> Refusal<'a>
    ensures { IsTold composer.now.registry (refused_of error) result }
{
    match error.emit_to_string(composer) {
        Ok(report) if !error.inner.is_memory() => Refusal::Fault(report),
        _ => Refusal::Memory,
    }
}

// Registers the module in a file.
fn add_file<'a>(
    alloc: Global,
    composer: &mut Composer<Mini>,
    file: &(&'a str, String),
) -> Result<(), Refusal<'a>>
    ensures added { let added = with_file (modules_of composer.old) (file_of file.now) in
        Gives (λ done. modules_of composer.new) result added }
    ensures settings { composer.new.settings ≡ composer.old.settings }
{
    let mut desc = ComposableModuleDescriptor::new(alloc);
    desc.source = file.1.as_str();
    desc.file_path = file.0;
    match composer.add_module(desc) {
        Ok(_) => Ok(()),
        Err(error) => Err(told(composer, error)),
    }
}

// Registers the modules in files, one after the other.
fn add_files<'a>(
    alloc: Global,
    composer: &mut Composer<Mini>,
    files: &[(&'a str, String)],
) -> Result<(), Refusal<'a>>
    ensures added { let added = with_files (modules_of composer.old) (map file_of files.now) in
        Gives (λ done. modules_of composer.new) result added }
    ensures settings { composer.new.settings ≡ composer.old.settings }
{
    for file in files {
        add_file(alloc, composer, file)?;
    }
    Ok(())
}

// Imports of modules without items.
fn bare_imports(alloc: Global, names: &[&str]) -> Result<Vec<ImportDefinition>, AllocError>
    ensures { let expected = map bare_import (texts_of names.now) in
        IfOk result (λ imports. map import_of imports.items ≡ expected) }
{
    let mut imports = Vec::with_capacity(alloc, names.len())?;
    for name in names {
        imports.push(ImportDefinition {
            import: String::from_str(alloc, *name)?,
            items: Vec::new(alloc),
        })?;
    }
    Ok(imports)
}

// The text of a module.
fn written<'a>(alloc: Global, of: &Module) -> Result<String, Refusal<'a>>
    ensures { let text = module_text (module_value of.now) in
        Gives string_bytes result (or_not_in_mini text) }
{
    match module_text(alloc, of) {
        Ok(text) => Ok(text),
        Err(NotWritten::Memory) => Err(Refusal::Memory),
        Err(NotWritten::NotInMini) => Err(Refusal::NotInMini),
    }
}

// Builds the shader of a file over registered modules, under definitions.
fn make_shader<'a>(
    alloc: Global,
    composer: &mut Composer<Mini>,
    top: &(&'a str, String),
    imports: &[&str],
    definitions: Definitions,
) -> Result<Module, Refusal<'a>>
    ensures { let shader = shader_of (defs_of definitions) (texts_of imports.now) in
        let made = made_over (mini_settings composer.old) (modules_of composer.old) in
        Gives module_value result (made (shader (file_of top.now))) }
{
    let imports = bare_imports(alloc, imports)?;
    let desc = NagaModuleDescriptor {
        source: top.1.as_str(),
        file_path: top.0,
        shader_type: ShaderType::Wgsl,
        shader_defs: definitions,
        additional_imports: imports.as_slice(),
    };
    match composer.make_naga_module(desc) {
        Ok(made) => Ok(made),
        Err(error) => Err(told(composer, error)),
    }
}

// Builds the shader of a file with the modules of other files, under definitions.
fn make_module<'a>(
    alloc: Global,
    top: &(&'a str, String),
    modules: &[(&'a str, String)],
    asked: &Request<'_>,
    definitions: Definitions,
) -> Result<Module, Refusal<'a>>
    ensures { let made = made_module (asked_of asked.now) (defs_of definitions) in
        Gives module_value result (made (file_of top.now) (map file_of modules.now)) }
{
    let mut composer = Composer::new(alloc, Mini).with_override_any(asked.override_any);
    add_files(alloc, &mut composer, modules)?;
    make_shader(alloc, &mut composer, top, &asked.imports, definitions)
}

/// The shader of a file with the modules of other files, under definitions, as Mini writes it. The request says what is imported
/// besides, and whether any function may be overridden.
pub fn made<'a>(
    alloc: Global,
    top: &(&'a str, String),
    modules: &[(&'a str, String)],
    asked: &Request<'_>,
    definitions: Definitions,
) -> Result<String, Refusal<'a>>
    ensures { let made = made_text (asked_of asked.now) (defs_of definitions) in
        Gives string_bytes result (made (file_of top.now) (map file_of modules.now)) }
{
    let module_ = make_module(alloc, top, modules, asked, definitions)?;
    written(alloc, &module_)
}
