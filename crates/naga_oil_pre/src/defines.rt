// The defines of a text, without the rest of its metadata.
ghost use Rattle.std.specs.Prelude.{◌≡◌, ◌+◌, ◌^◌, ◌≤◌, ◌∷◌, length, string_bytes, option_copied, unwrap_or, Ok, OnOk, IfErr};
ghost use Rattle.std.specs.BTreeMap.{get_by_text};
ghost use Rattle.naga_oil_conditions.specs.Line.{source_lines};
ghost use Rattle.naga_oil_conditions.specs.SourceView.{line_of};
ghost use Rattle.naga_oil_conditions.specs.View.{Fails, Gives};
ghost use Rattle.naga_oil_imports.specs.Leaves.{import_leaves};
ghost use Rattle.naga_oil_pre.specs.Metadata.{Found, none_defined, with_definition, defined_after, with_import, defines_of, own_defines, metadata, source_and_defines};
ghost use Rattle.naga_oil_pre.specs.Preprocessed.{import_text};
ghost use Rattle.naga_oil_pre.specs.Reading.{braces_after, taken, after_taken};

use super::imports::{TakesLine, check_import, read_import};
use super::*;
use naga_oil_conditions::line_kind::unversioned_line_kind;

// Defines a name, replacing its value, if defines are allowed.
pub fn define(
    alloc: Global,
    allow_defines: bool,
    name: &str,
    value: Option<&str>,
    offset: usize,
    defines: &mut BTreeMap<String, ShaderDefValue>,
) -> Result<(), ComposerErrorInner>
    ensures ok { let old = get_by_text defines.old in
        let following = defined_after allow_defines old offset name.now (option_copied value.entry) in
        OnOk result (following ≡ Ok (get_by_text defines.new)) }
    ensures err { let old = get_by_text defines.old in
        let following = defined_after allow_defines old offset name.now (option_copied value.entry) in
        IfErr result (λ e. Fails e following) }
{
    if !allow_defines {
        return Err(ComposerErrorInner::DefineInModule(offset));
    }
    let Some(defined) = defined_value(value) else {
        return Err(ComposerErrorInner::InvalidShaderDefDefinitionValue {
            name: String::from_str(alloc, name)?,
            value: String::from_str(alloc, value.unwrap_or(""))?,
            pos: offset,
        });
    };
    defines.insert(String::from_str(alloc, name)?, defined)?;
    Ok(())
}

// A sink that the lines which an import takes leave as it is.
#[derive(Drop)]
struct Passed;

impl TakesLine for Passed {
    ghost Takes = { λ old _ new. new ≡ old };

    fn take(&mut self, _alloc: Global, _line: &SourceLine<'_>) -> Result<(), AllocError> {
        Ok(())
    }
}

// Reads an import, with the lines that it takes, only for its faults.
fn skip_import(
    alloc: Global,
    line: &SourceLine<'_>,
    source: &mut SourceLines<'_, '_>,
) -> Result<(), ComposerErrorInner>
    requires place { line.now.offset + length line.now.text.now + 1 ≡ source.old.place }
    requires even { length (line_of line.now).covered ≤ length line.now.text.now }
    requires room { source.old.place ≤ 2 ^ 63 }
    ensures left { let braces = braces_after 0 (line_of line.now).covered in
        OnOk result (source.new.left ≡ after_taken braces source.old.left) }
    ensures ok { let first = line_of line.now in
        let more = taken (braces_after 0 first.covered) source.old.left in
        let leaves = import_leaves (import_text (first ∷ more)) in
        (found : Found) → let following = with_import found line.now.offset leaves in
        OnOk result (defines_of following ≡ Ok found.defines) }
    ensures shorter { OnOk result (length source.new.left ≤ length source.old.left) }
    ensures err { let first = line_of line.now in
        let more = taken (braces_after 0 first.covered) source.old.left in
        let leaves = import_leaves (import_text (first ∷ more)) in
        IfErr result (λ e. (found : Found) → Fails e (with_import found line.now.offset leaves)) }
{
    let braces = braces_after(0, line.covered.as_str());
    let import = read_import(alloc, line, braces, source, &mut Passed)?;
    check_import(alloc, import.as_str(), line.offset)
}

// Reads the define of a line; of an import, also the lines that it takes.
fn read_line(
    alloc: Global,
    line: &SourceLine<'_>,
    source: &mut SourceLines<'_, '_>,
    allow_defines: bool,
    defines: &mut BTreeMap<String, ShaderDefValue>,
) -> Result<(), ComposerErrorInner>
    requires place { line.now.offset + length line.now.text.now + 1 ≡ source.old.place }
    requires even { length (line_of line.now).covered ≤ length line.now.text.now }
    requires room { source.old.place ≤ 2 ^ 63 }
    ensures ok { let whole = line_of line.now ∷ source.old.left in
        let before = own_defines allow_defines (get_by_text defines.old) whole in
        OnOk result (own_defines allow_defines (get_by_text defines.new) source.new.left ≡ before) }
    ensures shorter { OnOk result (length source.new.left ≤ length source.old.left) }
    ensures err { let whole = line_of line.now ∷ source.old.left in
        let before = own_defines allow_defines (get_by_text defines.old) whole in
        IfErr result (λ e. Fails e before) }
{
    match unversioned_line_kind(line.covered.as_str()) {
        LineKind::Import => skip_import(alloc, line, source),
        LineKind::Define { name, value } => {
            define(alloc, allow_defines, name, value, line.offset, defines)
        }
        _ => Ok(()),
    }
}

// The defines of a text without directives.
fn read_defines(
    alloc: Global,
    cleaned: &str,
    allow_defines: bool,
) -> Result<BTreeMap<String, ShaderDefValue>, ComposerErrorInner>
    ensures { let lines = source_lines cleaned.now in
        Gives (λ m. get_by_text m) result (own_defines allow_defines none_defined lines) }
{
    let mut lines = cleaned.lines();
    let mut source = SourceLines::new(alloc, &mut lines);
    let mut defines = BTreeMap::new(alloc);
    while let Some(line) = source.next()? {
        read_line(alloc, &line, &mut source, allow_defines, &mut defines)?;
    }
    Ok(defines)
}

impl Preprocessor {
    /// Returns the cleaned source and the defines of the text's metadata. An error is the one of
    /// the metadata, or `Memory`. Neither uses nor names are read, so the call is faster than that
    /// of the metadata.
    pub fn get_preprocessor_defines(
        &self,
        alloc: Global,
        shader_str: &str,
        allow_defines: bool,
    ) -> Result<(String, BTreeMap<String, ShaderDefValue>), ComposerErrorInner>
        ensures { let expected = source_and_defines (metadata allow_defines shader_str.now) in
            Gives (λ r. (string_bytes r.0, get_by_text r.1)) result expected }
    {
        let (cleaned, _directives) = self.extract_wgsl_directives(alloc, shader_str)?;
        let defines = read_defines(alloc, cleaned.as_str(), allow_defines)?;
        Ok((cleaned, defines))
    }
}

/// Defines a name, and replaces its value if there is one.
pub fn set_definition(
    definitions: &mut BTreeMap<String, ShaderDefValue>,
    name: String,
    value: ShaderDefValue,
) -> Result<(), AllocError>
    ensures { let defined = with_definition (get_by_text definitions.old) (string_bytes name) value in
        OnOk result (get_by_text definitions.new ≡ defined) }
{
    definitions.insert(name, value)?;
    Ok(())
}
