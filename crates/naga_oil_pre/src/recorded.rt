// Records the names that lines refer to.
ghost use Rattle.std.specs.Prelude.{◌≡◌, ℕ, ◌∷◌, ◌≤◌, [], List, length, OnOk, IfOk};
ghost use Rattle.std.specs.Str.{chars, IsUtf8};
ghost use Rattle.naga_oil_words.specs.Bytes.{hash};
ghost use Rattle.naga_oil_conditions.specs.KindView.{condition_of, line_kind_of};
ghost use Rattle.naga_oil_pre.specs.MetadataView.{has_with, Gains};
ghost use Rattle.naga_oil_pre.specs.Recorded.{condition_names, text_names, kind_names, names_from};
ghost use Rattle.naga_oil_conditions.specs.Replaced.{hash_names};
ghost use Rattle.naga_oil_conditions.specs.SourceView.{line_of};

use super::*;
use naga_oil_conditions::replace::{split_at_hash, split_hash_name};

// Records a name. A name that is already there allocates nothing.
fn record_name(alloc: Global, names: &mut BTreeSet<String>, name: &str) -> Result<(), AllocError>
    ensures { OnOk result (Gains names.old names.new (name.now ∷ [])) }
{
    if !names.contains(name) {
        names.insert(String::from_str(alloc, name)?)?;
    }
    Ok(())
}

// Records the name after a `#`, if there is one. Returns the rest.
fn record_after_hash<'a>(
    alloc: Global,
    names: &mut BTreeSet<String>,
    following: &'a str,
) -> Result<&'a str, AllocError>
    ensures names { let before = has_with names.old (names_from (hash ∷ chars following.now)) in
        IfOk result (λ rest. (name : List ℕ) →
        has_with names.new (names_from (chars rest.now)) name ≡ before name) }
    ensures utf8 { IfOk result (λ rest. IsUtf8 rest.now) }
    ensures bound { IfOk result (λ rest. length rest.now ≤ length following.now) }
{
    let Some((name, rest)) = split_hash_name(following) else {
        return Ok(following);
    };
    record_name(alloc, names, name)?;
    Ok(rest)
}

// Records the `#` names of a text.
fn record_hash_names(
    alloc: Global,
    names: &mut BTreeSet<String>,
    text: &str,
) -> Result<(), AllocError>
    ensures { OnOk result (Gains names.old names.new (hash_names text.now)) }
{
    let mut rest = text;
    while let Some((_, following)) = split_at_hash(rest) {
        rest = record_after_hash(alloc, names, following)?;
    }
    Ok(())
}

// Records the `#` names of a line and of its covered line, which are equal if the line has no
// comment.
fn record_text_names(
    alloc: Global,
    names: &mut BTreeSet<String>,
    line: &SourceLine<'_>,
) -> Result<(), AllocError>
    ensures { OnOk result (Gains names.old names.new (text_names (line_of line.now))) }
{
    record_hash_names(alloc, names, line.text)?;
    let covered = line.covered.as_str();
    if covered == line.text {
        return Ok(());
    }
    record_hash_names(alloc, names, covered)
}

// Records the name of a condition.
fn record_condition_name(
    alloc: Global,
    names: &mut BTreeSet<String>,
    condition: Condition<'_>,
) -> Result<(), AllocError>
    ensures { let more = condition_names (condition_of condition.entry) in
        OnOk result (Gains names.old names.new more) }
{
    match condition {
        Condition::Defined(name) | Condition::Undefined(name) | Condition::Compares { name, .. } =>
            { record_name(alloc, names, name) }
        Condition::Otherwise => Ok(()),
    }
}

/// Records the names of a line of this kind.
pub fn record_line_names(
    alloc: Global,
    names: &mut BTreeSet<String>,
    line: &SourceLine<'_>,
    kind: LineKind<'_>,
) -> Result<(), AllocError>
    ensures { let more = kind_names (line_kind_of kind.entry) (line_of line.now) in
        OnOk result (Gains names.old names.new more) }
{
    match kind {
        LineKind::Condition { condition, .. } => record_condition_name(alloc, names, condition),
        LineKind::EndIf | LineKind::Import | LineKind::ImportPath(_) | LineKind::Define { .. } => {
            Ok(())
        }
        LineKind::Version { .. } | LineKind::Other => record_text_names(alloc, names, line),
    }
}
