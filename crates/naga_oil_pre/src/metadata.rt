// The metadata of a text, read before any build.
ghost use Rattle.std.specs.Prelude.{◌≡◌, ℕ, ◌+◌, ◌^◌, ◌<◌, ◌≤◌, ◌++◌, ◌∷◌, List, length, string_bytes, option_copied, option_map, map, true, unwrap_or, Some, Ok, OnOk, IfOk, IfErr};
ghost use Rattle.std.specs.BTreeMap.{get_by_text};
ghost use Rattle.std.specs.BTreeSet.{contains_text};
ghost use Rattle.naga_oil_imports.specs.Declarations.{declared_of};
ghost use Rattle.naga_oil_lines.specs.Directives.{directives_of};
ghost use Rattle.naga_oil_imports.specs.Leaves.{import_leaves};
ghost use Rattle.naga_oil_imports.specs.Substituted.{used_by};
ghost use Rattle.naga_oil_imports.specs.Uses.{uses_of, use_of, import_of};
ghost use Rattle.naga_oil_conditions.specs.Line.{source_lines};
ghost use Rattle.naga_oil_pre.specs.KnownView.{HasMarks};
ghost use Rattle.naga_oil_conditions.specs.KindView.{line_kind_of};
ghost use Rattle.naga_oil_pre.specs.Metadata.{nothing_found, defined_after, with_import, found_after, left_open, going_on, found_in, metadata_of_cleaned, metadata, data_of};
ghost use Rattle.naga_oil_pre.specs.MetadataView.{has_with, Gains, found_of, metadata_of};
ghost use Rattle.naga_oil_pre.specs.Preprocessed.{import_text, tokens_of, preprocessed};
ghost use Rattle.naga_oil_pre.specs.Reading.{braces_after, taken, after_taken};
ghost use Rattle.naga_oil_pre.specs.Recorded.{is_recorded, line_names, names_of, AgreeOn};
ghost use Rattle.naga_oil_conditions.specs.SourceView.{line_of};
ghost use Rattle.naga_oil_conditions.specs.Fault.{Definitions};
ghost use Rattle.naga_oil_conditions.specs.View.{Fails, Gives};

use super::defines::define;
use super::imports::{TakesLine, read_import};
use super::recorded::record_line_names;
use super::*;
use naga_oil_conditions::line_kind::unversioned_line_kind;
use naga_oil_imports::declared_names::DeclaredNames;

/// The metadata of a text, which a registry reads before any build.
#[derive(Debug, Drop)]
pub struct PreprocessorMetaData {
    /// The last import path that the text defines.
    pub name: Option<String>,
    /// The uses of each module, in order of first use, whichever arms are active.
    pub imports: Vec<ImportDefWithOffset>,
    /// The defines; for each name, the last one.
    pub defines: BTreeMap<String, ShaderDefValue>,
    /// The names on which the text's preprocessing may depend.
    pub effective_defs: BTreeSet<String>,
    pub wgsl_directives: WgslDirectives,
    /// The text with an empty line in place of each directive, and without the end of its last
    /// line. Offsets refer to this text.
    pub cleaned_source: String,
}

// The findings so far: the last import path, the declarations and uses, the defines, and the
// recorded names.
#[derive(Drop)]
struct Findings {
    name: Option<String>,
    imports: Imports,
    defines: BTreeMap<String, ShaderDefValue>,
    names: BTreeSet<String>,
}

// Records the uses of a line by its covered line, with no names replaced.
fn read_uses(alloc: Global, line: &SourceLine<'_>, imports: &mut Imports) -> Result<(), AllocError>
    requires place { line.now.offset ≤ 2 ^ 63 }
    requires marked { HasMarks imports.old }
    ensures used { let tokens = tokens_of (line_of line.now).covered in
        let used = used_by (declared_of imports.old.declared) line.now.offset tokens in
        OnOk result (uses_of imports.new.used ≡ used (uses_of imports.old.used)) }
    ensures declared { let old = declared_of imports.old.declared in
        OnOk result (declared_of imports.new.declared ≡ old) }
    ensures marked { OnOk result (HasMarks imports.new) }
{
    let substitution = Substitution {
        alloc,
        declared_imports: &imports.declared,
        names: &imports.names,
        allow_ambiguous: true,
        offset: line.offset,
        writes: false,
    };
    let mut unwritten = String::new(alloc);
    match substitution.walk(line.covered.as_str(), &mut imports.used, &mut unwritten) {
        Ok(()) => Ok(()),
        Err(SubstituteFault::Ambiguous(_)) => unreachable!(),
        Err(SubstituteFault::Memory) => Err(AllocError),
    }
}

// The recorded names: those of a taken line are recorded too.
impl TakesLine for BTreeSet<String> {
    ghost Takes = { λ old line new. Gains old new (line_names line) };

    fn take(&mut self, alloc: Global, line: &SourceLine<'_>) -> Result<(), AllocError> {
        record_line_names(
            alloc,
            self,
            line,
            unversioned_line_kind(line.covered.as_str()),
        )
    }
}

// Adds the declarations of an import, read with the lines that it takes.
fn declare_import(
    alloc: Global,
    line: &SourceLine<'_>,
    source: &mut SourceLines<'_, '_>,
    findings: &mut Findings,
) -> Result<(), ComposerErrorInner>
    requires place { line.now.offset + length line.now.text.now + 1 ≡ source.old.place }
    requires even { length (line_of line.now).covered ≤ length line.now.text.now }
    requires room { source.old.place ≤ 2 ^ 63 }
    requires marked { HasMarks findings.old.imports }
    ensures left { let braces = braces_after 0 (line_of line.now).covered in
        OnOk result (source.new.left ≡ after_taken braces source.old.left) }
    ensures ok { let first = line_of line.now in
        let more = taken (braces_after 0 first.covered) source.old.left in
        let leaves = import_leaves (import_text (first ∷ more)) in
        let found = with_import (found_of findings.old) line.now.offset leaves in
        OnOk result (found ≡ Ok (found_of findings.new)) }
    ensures names { let braces = braces_after 0 (line_of line.now).covered in
        let more = taken braces source.old.left in
        OnOk result (Gains findings.old.names findings.new.names (names_of more)) }
    ensures marked { OnOk result (HasMarks findings.new.imports) }
    ensures shorter { OnOk result (length source.new.left ≤ length source.old.left) }
    ensures err { let first = line_of line.now in
        let more = taken (braces_after 0 first.covered) source.old.left in
        let leaves = import_leaves (import_text (first ∷ more)) in
        let found = with_import (found_of findings.old) line.now.offset leaves in
        IfErr result (λ e. Fails e found) }
{
    let braces = braces_after(0, line.covered.as_str());
    let import = read_import(alloc, line, braces, source, &mut findings.names)?;
    declare(
        alloc,
        import.as_str(),
        line.offset,
        &mut findings.imports.declared,
        &mut findings.imports.names,
    )
}

// Reads a line of this kind; of an import, also the lines that it takes.
fn read_kind(
    alloc: Global,
    line: &SourceLine<'_>,
    kind: LineKind<'_>,
    source: &mut SourceLines<'_, '_>,
    allow_defines: bool,
    findings: &mut Findings,
) -> Result<(), ComposerErrorInner>
    requires place { line.now.offset + length line.now.text.now + 1 ≡ source.old.place }
    requires even { length (line_of line.now).covered ≤ length line.now.text.now }
    requires room { source.old.place ≤ 2 ^ 63 }
    requires marked { HasMarks findings.old.imports }
    ensures ok { let here = line_of line.now in
        let seen = line_kind_of kind.entry in
        let following = found_after allow_defines (found_of findings.old) here seen source.old.left in
        OnOk result (found_in allow_defines (found_of findings.new) 0 source.new.left
        ≡ going_on following (λ next.
        found_in allow_defines next (left_open here seen) source.old.left)) }
    ensures names { let before = has_with findings.old.names (names_of source.old.left) in
        let after = has_with findings.new.names (names_of source.new.left) in
        OnOk result ((name : List ℕ) → after name ≡ before name) }
    ensures marked { OnOk result (HasMarks findings.new.imports) }
    ensures shorter { OnOk result (length source.new.left ≤ length source.old.left) }
    ensures err { let here = line_of line.now in
        let seen = line_kind_of kind.entry in
        let following = found_after allow_defines (found_of findings.old) here seen source.old.left in
        IfErr result (λ e. Fails e following) }
{
    match kind {
        LineKind::Condition { .. } | LineKind::EndIf => Ok(()),
        LineKind::Import => declare_import(alloc, line, source, findings),
        LineKind::ImportPath(name) => {
            findings.name = Some(String::from_str(alloc, name)?);
            Ok(())
        }
        LineKind::Define { name, value } => define(
            alloc,
            allow_defines,
            name,
            value,
            line.offset,
            &mut findings.defines,
        ),
        LineKind::Version { .. } | LineKind::Other => {
            read_uses(alloc, line, &mut findings.imports)?;
            Ok(())
        }
    }
}

// Reads a line, with the lines that it takes.
fn read_line(
    alloc: Global,
    line: &SourceLine<'_>,
    source: &mut SourceLines<'_, '_>,
    allow_defines: bool,
    findings: &mut Findings,
) -> Result<(), ComposerErrorInner>
    requires place { line.now.offset + length line.now.text.now + 1 ≡ source.old.place }
    requires even { length (line_of line.now).covered ≤ length line.now.text.now }
    requires room { source.old.place ≤ 2 ^ 63 }
    requires marked { HasMarks findings.old.imports }
    ensures ok { let left = line_of line.now ∷ source.old.left in
        let found = found_in allow_defines (found_of findings.old) 0 left in
        OnOk result (found_in allow_defines (found_of findings.new) 0 source.new.left ≡ found) }
    ensures names { let left = line_of line.now ∷ source.old.left in
        let before = has_with findings.old.names (names_of left) in
        let after = has_with findings.new.names (names_of source.new.left) in
        OnOk result ((name : List ℕ) → after name ≡ before name) }
    ensures marked { OnOk result (HasMarks findings.new.imports) }
    ensures shorter { OnOk result (length source.new.left ≤ length source.old.left) }
    ensures err { let left = line_of line.now ∷ source.old.left in
        let found = found_in allow_defines (found_of findings.old) 0 left in
        IfErr result (λ e. Fails e found) }
{
    let kind = unversioned_line_kind(line.covered.as_str());
    record_line_names(alloc, &mut findings.names, line, kind)?;
    read_kind(alloc, line, kind, source, allow_defines, findings)
}

// Reads a text without directives.
fn read_text(
    alloc: Global,
    cleaned: &str,
    allow_defines: bool,
) -> Result<Findings, ComposerErrorInner>
    ensures ok { let found = found_in allow_defines nothing_found 0 (source_lines cleaned.now) in
        IfOk result (λ findings. found ≡ Ok (found_of findings)) }
    ensures names { IfOk result (λ findings. (name : List ℕ) →
        contains_text findings.names name ≡ is_recorded cleaned.now name) }
    ensures err { let found = found_in allow_defines nothing_found 0 (source_lines cleaned.now) in
        IfErr result (λ e. Fails e found) }
{
    let mut lines = cleaned.lines();
    let mut source = SourceLines::new(alloc, &mut lines);
    let mut findings = Findings {
        name: None,
        imports: Imports {
            declared: IndexMap::new(alloc),
            names: DeclaredNames::new(),
            used: IndexMap::new(alloc),
        },
        defines: BTreeMap::new(alloc),
        names: BTreeSet::new(alloc),
    };
    while let Some(line) = source.next()? {
        read_line(alloc, &line, &mut source, allow_defines, &mut findings)?;
    }
    Ok(findings)
}

// The metadata of a cleaned text with its directives.
fn read_metadata(
    alloc: Global,
    cleaned: String,
    directives: WgslDirectives,
    allow_defines: bool,
) -> Result<PreprocessorMetaData, ComposerErrorInner>
    ensures value { let expected = directives_of directives in
        Gives metadata_of result (metadata_of_cleaned allow_defines (string_bytes cleaned) expected) }
    ensures agreement { IfOk result (λ m. let text = string_bytes m.cleaned_source in
        let agree = AgreeOn (contains_text m.effective_defs) in
        (d e : Definitions) → agree d e → preprocessed d text ≡ preprocessed e text) }
{
    let Findings {
        name,
        imports,
        defines,
        names,
    } = read_text(alloc, cleaned.as_str(), allow_defines)?;
    let used = imports.used;
    Ok(PreprocessorMetaData {
        name,
        imports: used.into_values().collect(alloc)?,
        defines,
        effective_defs: names,
        wgsl_directives: directives,
        cleaned_source: cleaned,
    })
}

impl Preprocessor {
    /// Returns the metadata of the text. Directives are removed first; conditions select nothing.
    /// An error is the fault of a directive, or else the fault of the earliest line that has one (a
    /// define is a fault where defines aren't allowed), or `Memory`. Definitions that agree on
    /// `effective_defs`, presence included, give the same result for the cleaned source. Takes time
    /// and memory linear in the text.
    pub fn get_preprocessor_metadata(
        &self,
        alloc: Global,
        shader_str: &str,
        allow_defines: bool,
    ) -> Result<PreprocessorMetaData, ComposerErrorInner>
        ensures value { Gives metadata_of result (metadata allow_defines shader_str.now) }
        ensures agreement { IfOk result (λ m. let text = string_bytes m.cleaned_source in
            let agree = AgreeOn (contains_text m.effective_defs) in
            (d e : Definitions) → agree d e → preprocessed d text ≡ preprocessed e text) }
    {
        let (cleaned, directives) = self.extract_wgsl_directives(alloc, shader_str)?;
        read_metadata(alloc, cleaned, directives, allow_defines)
    }
}

// The imports without their places.
fn definitions_of(
    alloc: Global,
    imports: &[ImportDefWithOffset],
) -> Result<Vec<ImportDefinition>, AllocError>
    ensures { let expected = map (λ used. (use_of used).import) imports.now in
        IfOk result (λ v. map import_of v.items ≡ expected) }
{
    let mut definitions = Vec::with_capacity(alloc, imports.len())?;
    for used in imports {
        definitions.push(used.definition().try_clone()?)?;
    }
    Ok(definitions)
}

/// Returns the import path, the imports and the defines of a text's metadata, with defines allowed.
/// If the metadata has an error other than out of memory, all three are empty.
pub fn get_preprocessor_data(
    alloc: Global,
    source: &str,
) -> Result<
    (
        Option<String>,
        Vec<ImportDefinition>,
        BTreeMap<String, ShaderDefValue>,
    ),
    AllocError,
>
    ensures { let expected = data_of (metadata true source.now) in
        IfOk result (λ r.
        expected ≡ (option_map string_bytes r.0, map import_of r.1.items, get_by_text r.2)) }
{
    match Preprocessor.get_preprocessor_metadata(alloc, source, true) {
        Ok(metadata) => {
            let definitions = definitions_of(alloc, metadata.imports.as_slice())?;
            Ok((metadata.name, definitions, metadata.defines))
        }
        Err(error) if error.is_memory() => Err(AllocError),
        Err(_) => Ok((None, Vec::new(alloc), BTreeMap::new(alloc))),
    }
}
