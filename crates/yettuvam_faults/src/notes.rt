// The notes of an error.
ghost use Rattle.std.specs.Prelude.{◌≡◌, ◌++◌, IfOk, OnOk, map, string_bytes};
ghost use Rattle.naga_oil_conditions.specs.View.{fault_of};
ghost use Rattle.naga_oil_ir.specs.RedirectFault.{redirect_fault};
ghost use Rattle.naga_oil_lines.specs.Undecorate.{undecoration};
ghost use Rattle.yettuvam_faults.specs.Notes as spec;
ghost use Rattle.yettuvam_faults.specs.Phrase.{phrase_text};

use crate::message::{Phrase, is_ambiguous, named, plain};
use naga_oil_ir::RedirectError;
use naga_oil_lines::decorate::undecorate;
use naga_oil_pre::ComposerErrorInner as Inner;
use std::alloc::{AllocError, Global};

fn import_hint(text: &str) -> Phrase<'_>
    ensures { phrase_text result ≡ spec.import_hint text.now }
{
    if is_ambiguous(text) {
        plain("write the module that is meant too, as in `sea::height`")
    } else {
        plain("")
    }
}

// The values that a definition of a type is compared with.
fn value_hint<'a>(name: &'a str, expected: &str) -> Phrase<'a>
    ensures { phrase_text result ≡ spec.value_hint name.now expected.now }
{
    if expected == "bool" {
        named("`", name, "` is compared with `true` and `false`")
    } else if expected == "int" {
        named(
            "`",
            name,
            "` is compared with integers from -2147483648 to 2147483647",
        )
    } else {
        named(
            "`",
            name,
            "` is compared with integers from 0 to 4294967295",
        )
    }
}

fn redirect_hint(error: &RedirectError) -> Phrase<'_>
    ensures { phrase_text result ≡ spec.redirect_hint (redirect_fault error.now) }
{
    match error {
        RedirectError::ArgumentMismatch(..) | RedirectError::ReturnTypeMismatch(..) => {
            plain("an override has the parameters and the result of what it overrides")
        }
        _ => plain(""),
    }
}

// What helps, or the empty sentence.
#[rattlefmt::skip]
fn hint(inner: &Inner) -> Phrase<'_>
    ensures { phrase_text result ≡ spec.hint (fault_of inner.now) }
{
    match inner {
        Inner::ImportParseError(text, _) => import_hint(text.as_str()),
        Inner::ImportNotFound(name, _) => named("a file with `#define_import_path ", name.as_str(), "` is needed"),
        Inner::UnknownShaderDefOperator { .. } => plain("the operators are `==`, `!=`, `<`, `<=`, `>` and `>=`"),
        Inner::UnknownShaderDef { .. } => plain("`#if NAME == VALUE` compares a defined name, and `#ifdef NAME` asks whether a name is defined"),
        Inner::InvalidShaderDefComparisonValue { shader_def_name, expected, .. } => value_hint(shader_def_name.as_str(), expected.as_str()),
        Inner::InconsistentShaderDefValue { .. } => plain("a shader and the modules that it imports define a name alike"),
        Inner::NoModuleName => plain("a line such as `#define_import_path noise` names a module"),
        Inner::DecorationInSource(_) => plain("names of built shaders have this mark, and no source may have it"),
        Inner::RedirectError(error) => redirect_hint(error),
        Inner::OverrideNotVirtual { name, .. } => named("write `virtual fn ", name.as_str(), "` in its module, or build with `--override-any`"),
        Inner::InvalidIdentifier { .. } => plain("the front end reads back another name than it wrote"),
        Inner::InvalidShaderDefDefinitionValue { .. } => plain("a value is `true`, `false` or an integer"),
        Inner::DefineInModule(_) => plain("only the shader's text defines names; `-D NAME=VALUE` defines them too"),
        Inner::TooManyModules => plain("a build has at most 2047 modules"),
        Inner::TextTooLarge => plain("with what it imports it has to be smaller than 2 MiB"),
        _ => plain(""),
    }
}

// The notes of a front end.
fn front_notes(inner: &Inner) -> &[String]
    ensures { map string_bytes result.now ≡ spec.front_notes (fault_of inner.now) }
{
    match inner {
        Inner::WgslParseError(fault) | Inner::GlslParseError(fault) => fault.notes.as_slice(),
        Inner::WgslBackError(fault) | Inner::GlslBackError(fault) => fault.notes.as_slice(),
        Inner::HeaderValidationError(fault) | Inner::ShaderValidationError(fault) => {
            fault.notes.as_slice()
        }
        _ => &[],
    }
}

/// Texts with undecorated names, after others.
pub(crate) fn push_undecorated(
    alloc: Global,
    out: &mut Vec<String>,
    texts: &[String],
) -> Result<(), AllocError>
    ensures { let more = map undecoration (map string_bytes texts.now) in
        OnOk result (map string_bytes out.new.items ≡ map string_bytes out.old.items ++ more) }
{
    for text in texts {
        out.push(undecorate(alloc, text.as_str())?)?;
    }
    Ok(())
}

// What helps, as a note, if there is something.
fn hint_note(alloc: Global, inner: &Inner) -> Result<Vec<String>, AllocError>
    ensures { let told = spec.hint_note (spec.hint (fault_of inner.now)) in
        IfOk result (λ v. map string_bytes v.items ≡ told) }
{
    let text = hint(inner).text(alloc)?;
    let mut notes = Vec::new(alloc);
    if !text.is_empty() {
        notes.push(text)?;
    }
    Ok(notes)
}

/// The notes of an error, with undecorated names.
pub(crate) fn notes(alloc: Global, inner: &Inner) -> Result<Vec<String>, AllocError>
    ensures { let told = spec.notes_of (fault_of inner.now) in
        IfOk result (λ v. map string_bytes v.items ≡ told) }
{
    let mut notes = hint_note(alloc, inner)?;
    push_undecorated(alloc, &mut notes, front_notes(inner))?;
    Ok(notes)
}
