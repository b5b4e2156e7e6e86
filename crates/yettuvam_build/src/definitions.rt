// The definitions of a command line.
ghost use Rattle.std.specs.Prelude.{◌≡◌, Ok, OnOk, IfOk, IfErr, option_map};
ghost use Rattle.naga_oil_registry.specs.Merged.{with_def};
ghost use Rattle.naga_oil_registry.specs.Registered.{defs_of};
ghost use Rattle.yettuvam_build.specs.Defined as spec;
ghost use Rattle.yettuvam_build.specs.Refusals.{RefusesDefinitions};
ghost use Rattle.yettuvam_files.specs.Files.{texts_of};

use super::refusal::Refusal;
use naga_oil_pre::line_kind::is_name;
use naga_oil_pre::{ShaderDefValue, defined_value};
use std::alloc::{AllocError, Global};
use std::collections::BTreeMap;

pub type Definitions = BTreeMap<String, ShaderDefValue>;

// The value in a word: that of a `#define`, and `true` for the empty text.
fn value_of(text: &str) -> Option<ShaderDefValue>
    ensures { result ≡ spec.given_value text.now }
{
    match text.as_bytes() {
        [] => Some(ShaderDefValue::default()),
        [b'+', ..] => None,
        _ => defined_value(Some(text)),
    }
}

// The name in a word, and the text after the `=` that follows it.
fn parted(word: &str) -> (&str, &str)
    ensures { (result.0.now, result.1.now) ≡ spec.parted word.now }
{
    match word.split_once('=') {
        Some((name, text)) => (name, text),
        None => (word, ""),
    }
}

// The name and the value of a word.
fn definition_word(word: &str) -> Option<(&str, ShaderDefValue)>
    ensures { option_map (λ r. (r.0.now, r.1)) result ≡ spec.definition_word word.now }
{
    let (name, text) = parted(word);
    is_name(name).then_some((name, value_of(text)?))
}

// Defines a name, and replaces its value if there is one.
fn define(
    alloc: Global,
    definitions: &mut Definitions,
    name: &str,
    value: ShaderDefValue,
) -> Result<(), AllocError>
    ensures { let defined = with_def (defs_of definitions.old) (name.now, value) in
        OnOk result (defs_of definitions.new ≡ defined) }
{
    definitions.insert(String::from_str(alloc, name)?, value)?;
    Ok(())
}

/// The definitions of words. The last with a name counts.
pub fn given<'a>(alloc: Global, words: &[&'a str]) -> Result<Definitions, Refusal<'a>>
    ensures ok { let defined = spec.definitions_of (texts_of words.now) in
        IfOk result (λ definitions. defined ≡ Ok (defs_of definitions)) }
    ensures err { IfErr result (RefusesDefinitions (texts_of words.now)) }
{
    let mut definitions = BTreeMap::new(alloc);
    let mut rest = words;
    while let [word, more @ ..] = rest {
        let word = *word;
        let (name, value) = definition_word(word).ok_or(Refusal::BadDefinition(word))?;
        define(alloc, &mut definitions, name, value)?;
        rest = more;
    }
    Ok(definitions)
}
