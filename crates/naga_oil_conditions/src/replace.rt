// Replaces the `#` names of a line by their values.
ghost use Rattle.std.specs.Prelude.{◌≡◌, ◌++◌, ◌∷◌, ◌≤◌, ◌==◌, length, string_bytes, OnOk, IfOk, IsOkAnd, MatchOption, None, false};
ghost use Rattle.std.specs.BTreeMap.{get_by_text};
ghost use Rattle.std.specs.Cow.{cow_str_bytes, IsBorrowedStr};
ghost use Rattle.std.specs.List.{prefix_len};
ghost use Rattle.std.specs.Str.{chars, IsUtf8, NoCharPasses};
ghost use Rattle.naga_oil_words.specs.Bytes.{hash};
ghost use Rattle.naga_oil_lines.specs.Text.{BeginsWithChar};
ghost use Rattle.naga_oil_conditions.specs.LineKinds.{is_name_char};
ghost use Rattle.naga_oil_conditions.specs.Replaced as spec;
ghost use Rattle.naga_oil_conditions.specs.Splits.{SplitsName, SplitsHashName, SplitsAtHash};

use super::line_kind::{CharClass, past_run};
use super::*;

// The text after this character, if the text begins with it.
fn past_char(text: &str, wanted: char) -> Option<&str>
    ensures { let begins = spec.begins_with wanted (chars text.now) in
        MatchOption result (begins ≡ false) (λ rest. BeginsWithChar text.now wanted rest.now) }
{
    let (first, rest) = split_first_char(text)?;
    if first == wanted { Some(rest) } else { None }
}

// The name that the text begins with, and the rest.
fn split_name(text: &str) -> Option<(&str, &str)>
    ensures { let count = prefix_len is_name_char (chars text.now) in
        MatchOption result (count ≡ 0) (λ r. SplitsName text.now r.0.now r.1.now) }
{
    let rest = past_run(text, CharClass::Name);
    let name = text_before(text, rest);
    if name.is_empty() {
        return None;
    }
    Some((name, rest))
}

/// Returns the name after a `#`, and the rest.
pub fn split_hash_name(text: &str) -> Option<(&str, &str)>
    ensures { let named = spec.hash_name (chars text.now) in
        MatchOption result (named ≡ None) (λ r. SplitsHashName text.now r.0.now r.1.now) }
{
    let start = after_whitespace(text);
    let Some(inner) = past_char(start, '{') else {
        return split_name(start);
    };
    let (name, closing) = split_name(inner)?;
    let rest = past_char(closing, '}')?;
    Some((name, rest))
}

/// Pushes the text of a value.
pub fn push_value(out: &mut String, value: ShaderDefValue) -> Result<(), AllocError>
    ensures { OnOk result (string_bytes out.new ≡ string_bytes out.old ++ spec.value_text value) }
{
    match value {
        ShaderDefValue::Bool(b) => write!(out, "{b}"),
        ShaderDefValue::Int(n) => write!(out, "{n}"),
        ShaderDefValue::UInt(n) => write!(out, "{n}"),
    }
}

/// Returns the text before its first `#`, and the text after it.
pub fn split_at_hash(text: &str) -> Option<(&str, &str)>
    ensures { MatchOption result (NoCharPasses (λ c. c == hash) text.now)
        (λ r. SplitsAtHash text.now r.0.now r.1.now) }
{
    text.split_once('#')
}

// Writes a `#` and the name after it, if there is one, or the name's value. Returns the rest.
fn push_hash<'a>(
    out: &mut String,
    following: &'a str,
    definitions: &BTreeMap<String, ShaderDefValue>,
) -> Result<&'a str, AllocError>
    ensures value { let from = spec.replaced_from (get_by_text definitions.now) in
        let whole = string_bytes out.old ++ from (hash ∷ chars following.now) in
        IfOk result (λ rest. string_bytes out.new ++ from (chars rest.now) ≡ whole) }
    ensures utf8 { IfOk result (λ rest. IsUtf8 rest.now) }
    ensures bound { IfOk result (λ rest. length rest.now ≤ length following.now) }
{
    let Some((name, rest)) = split_hash_name(following) else {
        out.push('#')?;
        return Ok(following);
    };
    let Some(value) = definitions.get(name) else {
        out.push('#')?;
        out.push_str(text_before(following, rest))?;
        return Ok(rest);
    };
    push_value(out, *value)?;
    Ok(rest)
}

/// Writes the line with its `#` names replaced.
pub fn push_replaced(
    out: &mut String,
    line: &str,
    definitions: &BTreeMap<String, ShaderDefValue>,
) -> Result<(), AllocError>
    ensures { let expected = spec.replaced (get_by_text definitions.now) line.now in
        OnOk result (string_bytes out.new ≡ string_bytes out.old ++ expected) }
{
    let mut rest = line;
    while let Some((front, following)) = split_at_hash(rest) {
        out.push_str(front)?;
        rest = push_hash(out, following, definitions)?;
    }
    out.push_str(rest)
}

/// Returns the line with its `#` names replaced. A line without `#` is borrowed.
pub fn replaced_text<'a>(
    alloc: Global,
    line: &'a str,
    definitions: &BTreeMap<String, ShaderDefValue>,
) -> Result<CowStr<'a>, AllocError>
    ensures value { let expected = spec.replaced (get_by_text definitions.now) line.now in
        IfOk result (λ text. cow_str_bytes text ≡ expected) }
    ensures borrows { NoCharPasses (λ c. c == hash) line.now →
        IsOkAnd result (λ text. IsBorrowedStr text) }
{
    if !line.contains('#') {
        return Ok(CowStr::Borrowed(line));
    }
    let mut out = String::new(alloc);
    push_replaced(&mut out, line, definitions)?;
    Ok(CowStr::Owned(out))
}
