// A text after preprocessing, under definitions and its own.
ghost use Rattle.std.specs.Prelude.{◌≡◌, Ok, OnOk, IfOk, IfErr, string_bytes};
ghost use Rattle.std.specs.BTreeMap.{get_by_text};
ghost use Rattle.naga_oil_conditions.specs.View.{Gives};
ghost use Rattle.naga_oil_pre.specs.Preprocessed.{preprocessed};
ghost use Rattle.naga_oil_mini.specs.Printed.{overwritten, text_of, shown_text, printed};
ghost use Rattle.naga_oil_mini.specs.Shown.{Reports};

use super::definitions::Definitions;
use super::refusal::Refusal;
use naga_oil::compose::report::report;
use naga_oil_pre::{ComposerErrorInner, Preprocessor, set_definition};
use std::alloc::{AllocError, Global};

// Adds the text's own definitions, which replace others with their names.
fn overwrite(definitions: &mut Definitions, own: Definitions) -> Result<(), AllocError>
    ensures { let defined = get_by_text definitions.old in
        OnOk result (get_by_text definitions.new ≡ overwritten defined (get_by_text own)) }
{
    // The contract of `len` says that the names of a map are sorted and distinct.
    let _names = own.len();
    for (name, value) in own {
        set_definition(definitions, name, value)?;
    }
    Ok(())
}

// A cleaned source after preprocessing, under the definitions overwritten by its own.
fn shown(
    alloc: Global,
    cleaned: &str,
    own: Definitions,
    mut definitions: Definitions,
) -> Result<String, ComposerErrorInner>
    ensures { let said = Ok (cleaned.now, get_by_text own) in
        Gives string_bytes result (shown_text (get_by_text definitions) said) }
{
    overwrite(&mut definitions, own)?;
    let output = Preprocessor.preprocess(alloc, cleaned, &definitions)?;
    Ok(output.preprocessed_source)
}

/// The cleaned source of a text after preprocessing, under the definitions overwritten by the text's own.
#[tactic(auto, unfolding(crate::specs::Printed::printed))]
pub fn preprocessed(
    alloc: Global,
    text: &str,
    definitions: Definitions,
) -> Result<String, ComposerErrorInner>
    ensures { Gives string_bytes result (printed (get_by_text definitions) text.now) }
{
    let (cleaned, own) = Preprocessor.get_preprocessor_defines(alloc, text, true)?;
    shown(alloc, cleaned.as_str(), own, definitions)
}

/// The preprocessed text of a file, or the report of an error.
pub fn shown_file<'a>(
    alloc: Global,
    file: &str,
    text: &str,
    definitions: Definitions,
) -> Result<String, Refusal<'a>>
    ensures ok { let told = printed (get_by_text definitions) text.now in
        IfOk result (λ t. told ≡ Ok (string_bytes t)) }
    ensures err { let told = printed (get_by_text definitions) text.now in
        IfErr result (Reports file.now text.now told) }
{
    match preprocessed(alloc, text, definitions) {
        Ok(source) => Ok(source),
        Err(inner) if inner.is_memory() => Err(Refusal::Memory),
        Err(inner) => Err(Refusal::Fault(report(alloc, file, text, 0, &inner)?)),
    }
}
