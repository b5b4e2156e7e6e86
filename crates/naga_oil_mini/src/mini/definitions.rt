// The definitions of a command line.
ghost use Rattle.std.specs.Prelude.{◌≡◌, Ok, OnOk, IfOk, IfErr, option_map};
ghost use Rattle.naga_oil_words.specs.Texts.{texts};
ghost use Rattle.naga_oil_mini.specs.Defined.{given_value, definition_word, definitions_among};
ghost use Rattle.naga_oil_registry.specs.Merged.{with_def};
ghost use Rattle.naga_oil_registry.specs.Registered.{defs_of};
ghost use Rattle.naga_oil_mini.specs.Shown.{RefusesDefinitions};

use super::refusal::Refusal;
use super::words::is_definition;
use naga_oil_pre::line_kind::is_name;
use naga_oil_pre::{ShaderDefValue, defined_value};
use std::alloc::{AllocError, Global};
use std::collections::BTreeMap;

pub type Definitions = BTreeMap<String, ShaderDefValue>;

// The value in a word: that of a `#define`, and `true` for the empty text.
fn value_of(text: &str) -> Option<ShaderDefValue>
    ensures { result ≡ given_value text.now }
{
    match text.as_bytes() {
        [] => Some(ShaderDefValue::default()),
        [b'+', ..] => None,
        _ => defined_value(Some(text)),
    }
}

// The name and the value of a word `NAME=VALUE`.
fn definition_word(word: &str) -> Option<(&str, ShaderDefValue)>
    ensures { option_map (λ r. (r.0.now, r.1)) result ≡ definition_word word.now }
{
    let (name, text) = word.split_once('=')?;
    is_name(name).then_some((name, value_of(text)?))
}

// Defines a name, and replaces its value if there is one.
fn define(
    alloc: Global,
    definitions: &mut Definitions,
    name: &str,
    value: ShaderDefValue,
) -> Result<(), AllocError>
    ensures { let defined = with_def (defs_of definitions.old) (name.now, value) in
        OnOk result (defs_of definitions.new ≡ defined) }
{
    definitions.insert(String::from_str(alloc, name)?, value)?;
    Ok(())
}

/// The definitions among the words. The last with a name counts.
pub fn given(alloc: Global, words: &[String]) -> Result<Definitions, Refusal<'_>>
    ensures ok { let told = definitions_among (texts words.now) in
        IfOk result (λ definitions. told ≡ Ok (defs_of definitions)) }
    ensures err { IfErr result (RefusesDefinitions (texts words.now)) }
{
    let mut definitions = BTreeMap::new(alloc);
    for word in words {
        let word = word.as_str();
        if !is_definition(word) {
            continue;
        }
        let (name, value) = definition_word(word).ok_or(Refusal::BadDefinition(word))?;
        define(alloc, &mut definitions, name, value)?;
    }
    Ok(definitions)
}
