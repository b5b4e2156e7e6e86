// The text of a built shader, after the directives of its file.
ghost use Rattle.std.specs.Prelude.{◌≡◌, IfOk, map, string_bytes};
ghost use Rattle.naga_oil_conditions.specs.View.{Gives as GivesText, fault_of};
ghost use Rattle.naga_oil_ir.specs.ModuleValue.{module_value};
ghost use Rattle.naga_oil_registry.specs.Registered.{defs_of};
ghost use Rattle.yettuvam_build.specs.Built as spec;
ghost use Rattle.yettuvam_build.specs.Files.{File, file_of};
ghost use Rattle.yettuvam_build.specs.Refusals.{Gives};
ghost use Rattle.yettuvam_build.specs.Reported.{file_report};
ghost use Rattle.yettuvam_build.specs.Words.{request_view};

use super::definitions::Definitions;
use super::make::make_module;
use super::refusal::Refusal;
use super::words::Request;
use naga_oil_ir::{Backend, BackendRefusal, Capabilities, Module, ShaderLanguage};
use naga_oil_pre::{ComposerErrorInner, Preprocessor};
use std::alloc::{AllocError, Global};
use yettuvam_faults::{Source, fault_report, write_report};

// The text of the directives at the start of a text.
fn directives(alloc: Global, text: &str) -> Result<String, ComposerErrorInner>
    ensures { GivesText string_bytes result (spec.directives text.now) }
{
    let (_, found) = Preprocessor.extract_wgsl_directives(alloc, text)?;
    Ok(found.to_wgsl_string(alloc)?)
}

// The report of an error of the directives of a text at a path.
fn directive_report(
    alloc: Global,
    path: &str,
    text: &str,
    inner: &ComposerErrorInner,
) -> Result<String, AllocError>
    ensures { let file : File = record { path = path.now; text = text.now } in
        IfOk result (λ t. string_bytes t ≡ file_report file (fault_of inner.now)) }
{
    let source = Source {
        path,
        file: text,
        cleaned: text,
        parsed: text,
        offset: 0,
    };
    fault_report(alloc, source, inner)
}

// The text of the directives of a file.
fn own_directives<'a>(alloc: Global, file: &(&str, String)) -> Result<String, Refusal<'a>>
    ensures { Gives string_bytes result (spec.own_directives (file_of file.now)) }
{
    let text = file.1.as_str();
    match directives(alloc, text) {
        Ok(found) => Ok(found),
        Err(inner) if inner.is_memory() => Err(Refusal::Memory),
        Err(inner) => Err(Refusal::Fault(directive_report(alloc, file.0, text, &inner)?)),
    }
}

// The text of a module that was made of the file at a path.
fn written<'a, B: Backend>(
    alloc: Global,
    front: &B,
    path: &str,
    of: &Module,
) -> Result<String, Refusal<'a>>
    ensures { let text = spec.written (B.front front.now) path.now (module_value of.now) in
        Gives string_bytes result text }
{
    match front.write(alloc, of, ShaderLanguage::Wgsl, Capabilities(0)) {
        Ok(text) => Ok(text),
        Err(BackendRefusal::Fault(fault)) => Err(Refusal::Fault(write_report(
            alloc, path, &fault,
        )?)),
        Err(BackendRefusal::Memory) => Err(Refusal::Memory),
    }
}

// The text of a module, after the directives of a file.
fn shader_text<'a, B: Backend>(
    alloc: Global,
    front: &B,
    top: &(&str, String),
    of: &Module,
) -> Result<String, Refusal<'a>>
    ensures { let text = spec.shader_text (B.front front.now) (file_of top.now) in
        Gives string_bytes result (text (module_value of.now)) }
{
    let mut text = own_directives(alloc, top)?;
    let body = written(alloc, front, top.0, of)?;
    text.push_str(body.as_str())?;
    Ok(text)
}

/// The text of the shader of a file that is built with the modules in other files, under definitions.
pub fn built_text<'a, B: Backend + Copy>(
    alloc: Global,
    front: B,
    top: &(&str, String),
    others: &[(&str, String)],
    request: &Request<'_>,
    definitions: Definitions,
) -> Result<String, Refusal<'a>>
    ensures { let built = spec.built_text (B.front front) (request_view request.now) in
        let over = built (defs_of definitions) (file_of top.now) in
        Gives string_bytes result (over (map file_of others.now)) }
{
    let module_ = make_module(alloc, front, top, others, request, definitions)?;
    shader_text(alloc, &front, top, &module_)
}
