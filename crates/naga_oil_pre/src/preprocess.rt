// Evaluates the conditions of a text and replaces its names, line by line.
ghost use Rattle.std.specs.Prelude.{ℕ, List, ◌≡◌, ◌+◌, ◌∷◌, ◌^◌, ◌≤◌, ◌<◌, length, string_bytes, OnOk, IfOk, IfErr, All, ◌==◌};
ghost use Rattle.std.specs.Str.{NoCharPasses};
ghost use Rattle.std.specs.Str.Lines.{lines};
ghost use Rattle.std.specs.BTreeMap.{get_by_text};
ghost use Rattle.naga_oil_words.specs.Bytes.{double_quote};
ghost use Rattle.naga_oil_conditions.specs.Line.{Line, end_place};
ghost use Rattle.naga_oil_conditions.specs.Kind.{kind_of};
ghost use Rattle.naga_oil_pre.specs.Step.{step, opened, scanned};
ghost use Rattle.naga_oil_conditions.specs.Fault.{Definitions};
ghost use Rattle.naga_oil_conditions.specs.View.{Fails, Gives};
ghost use Rattle.naga_oil_pre.specs.Preprocessed.{imported, prepend, passage, written, preprocessed};
ghost use Rattle.naga_oil_pre.specs.LineEnds.{line_ends, declared_paths};
ghost use Rattle.naga_oil_pre.specs.KnownView.{known_of, output_of, HasMarks};
ghost use Rattle.naga_oil_pre.specs.Reading.{taken};
ghost use Rattle.naga_oil_pre.specs.Treatment.{status_of, open_after, Notes};
ghost use Rattle.naga_oil_conditions.specs.SourceView.{line_of};
ghost use Rattle.naga_oil_conditions.specs.declared.scope.ScopeLevel.{ScopeLevel};

use super::imports::{blank_line, read_import, show_line};
use super::*;
use naga_oil_conditions::condition::evaluate;
use naga_oil_conditions::line_kind::line_kind;
use naga_oil_conditions::scope::Scope;
use naga_oil_imports::declared_names::DeclaredNames;

/// The result of preprocessing a text.
#[derive(Debug, Drop)]
pub struct PreprocessOutput {
    pub preprocessed_source: String,
    /// The uses of each module, in order of first use.
    pub imports: Vec<ImportDefWithOffset>,
}

// What to do with a line.
#[derive(Clone, Copy)]
enum Treatment {
    Blank,
    Show,
    /// An import, by the number of braces that its line leaves open.
    Import(usize),
}

// Reads a line under the scope. Returns what to do with the line.
fn read_line(
    alloc: Global,
    line: &SourceLine<'_>,
    definitions: &BTreeMap<String, ShaderDefValue>,
    scope: &mut Scope,
) -> Result<Treatment, ComposerErrorInner>
    ensures ok { let here = line_of line.now in
        let next = step (get_by_text definitions.now) scope.old here (kind_of here.covered) in
        IfOk result (λ treatment. (more : List Line) →
        next more ≡ (status_of treatment here more, scope.new)) }
    ensures opened { let here = line_of line.now in
        let braces = opened scope.old here (kind_of here.covered) in
        IfOk result (λ treatment. braces ≡ open_after treatment) }
    ensures bound { let here = line_of line.now in
        IfOk result (λ treatment. open_after treatment ≤ length here.covered) }
    ensures err { let here = line_of line.now in
        let next = step (get_by_text definitions.now) scope.old here (kind_of here.covered) in
        IfErr result (λ e. (more : List Line) → Notes e ((next more).0)) }
{
    let covered = line.covered.as_str();
    match line_kind(covered) {
        LineKind::Version { is_known: true } | LineKind::ImportPath(_) | LineKind::Define { .. } =>
            Ok(Treatment::Blank),
        LineKind::Version { is_known: false } => {
            Err(ComposerErrorInner::GlslInvalidVersion(line.offset))
        }
        LineKind::Condition {
            is_else: false,
            condition,
        } => {
            let holds = evaluate(alloc, condition, line.offset, definitions)?;
            scope.open(holds)?;
            Ok(Treatment::Blank)
        }
        LineKind::Condition {
            is_else: true,
            condition,
        } => {
            let holds = evaluate(alloc, condition, line.offset, definitions)?;
            if scope.next_arm(holds)? {
                Ok(Treatment::Blank)
            } else {
                Err(ComposerErrorInner::ElseWithoutCondition(line.offset))
            }
        }
        LineKind::EndIf => {
            if scope.close() {
                Ok(Treatment::Blank)
            } else {
                Err(ComposerErrorInner::TooManyEndIfs(line.offset))
            }
        }
        LineKind::Import if scope.is_active() => Ok(Treatment::Import(braces_after(0, covered))),
        LineKind::Other if scope.is_active() => Ok(Treatment::Show),
        LineKind::Import | LineKind::Other => Ok(Treatment::Blank),
    }
}

// Writes an import as spaces, with the lines that it takes, and adds its declarations.
fn write_import(
    alloc: Global,
    line: SourceLine<'_>,
    braces: usize,
    source: &mut SourceLines<'_, '_>,
    imports: &mut Imports,
    out: &mut String,
) -> Result<(), ComposerErrorInner>
    requires place { line.offset + length line.text.now + 1 ≡ source.old.place }
    requires even { length (line_of line).covered ≤ length line.text.now }
    requires room { source.old.place ≤ 2 ^ 63 }
    requires marked { HasMarks imports.old }
    requires braces { braces ≤ length (line_of line).covered }
    ensures ok { let first = imported (line_of line.entry) (taken braces source.old.left) in
        OnOk result ((defs : Definitions) (end : ℕ) (levels : List ScopeLevel) →
        let before = first ∷ scanned defs end levels braces source.old.left in
        let after = scanned defs end levels 0 source.new.left in
        prepend (string_bytes out.new) (written defs (known_of imports.new) after)
        ≡ prepend (string_bytes out.old) (written defs (known_of imports.old) before)) }
    ensures end { let before = end_place source.old.place source.old.left in
        OnOk result (end_place source.new.place source.new.left ≡ before) }
    ensures marked { OnOk result (HasMarks imports.new) }
    ensures shorter { OnOk result (length source.new.left ≤ length source.old.left) }
    ensures err { let first = imported (line_of line.entry) (taken braces source.old.left) in
        IfErr result (λ e. (defs : Definitions) →
        Fails e (passage defs (known_of imports.old) first)) }
{
    blank_line(out, line.text)?;
    let import = read_import(alloc, &line, braces, source, out)?;
    declare(
        alloc,
        import.as_str(),
        line.offset,
        &mut imports.declared,
        &mut imports.names,
    )
}

// Reads a line and writes its result, with the lines that it takes.
fn write_line(
    alloc: Global,
    line: SourceLine<'_>,
    source: &mut SourceLines<'_, '_>,
    definitions: &BTreeMap<String, ShaderDefValue>,
    scope: &mut Scope,
    imports: &mut Imports,
    out: &mut String,
) -> Result<(), ComposerErrorInner>
    requires place { line.offset + length line.text.now + 1 ≡ source.old.place }
    requires even { length (line_of line).covered ≤ length line.text.now }
    requires room { source.old.place ≤ 2 ^ 63 }
    requires marked { HasMarks imports.old }
    ensures ok { let given = get_by_text definitions.now in
        OnOk result ((end : ℕ) →
        let before = scanned given end scope.old 0 (line_of line.entry ∷ source.old.left) in
        let after = scanned given end scope.new 0 source.new.left in
        prepend (string_bytes out.new) (written given (known_of imports.new) after)
        ≡ prepend (string_bytes out.old) (written given (known_of imports.old) before)) }
    ensures end { let before = end_place source.old.place source.old.left in
        OnOk result (end_place source.new.place source.new.left ≡ before) }
    ensures marked { OnOk result (HasMarks imports.new) }
    ensures shorter { OnOk result (length source.new.left ≤ length source.old.left) }
    ensures err { let given = get_by_text definitions.now in
        let left = line_of line.entry ∷ source.old.left in
        IfErr result (λ e. (end : ℕ) →
        Fails e (written given (known_of imports.old) (scanned given end scope.old 0 left))) }
{
    match read_line(alloc, &line, definitions, scope)? {
        Treatment::Blank => {
            blank_line(out, line.text)?;
            Ok(())
        }
        Treatment::Show => {
            show_line(alloc, &line, definitions, imports, out)?;
            Ok(())
        }
        Treatment::Import(braces) => write_import(alloc, line, braces, source, imports, out),
    }
}

/// Preprocesses texts.
#[derive(Clone, Copy, Debug, Default)]
pub struct Preprocessor;

impl Preprocessor {
    /// Returns the text preprocessed under the definitions, with as many lines, each ended by `\n`:
    /// the lines of conditions, directives and inactive arms, and the lines that imports take,
    /// become spaces; in every other line values replace the names, padded with spaces to the
    /// line's length. An error is the fault of the earliest line that has one, or `Memory`.
    ///
    /// Only a path that an import quotes across a line end adds further line ends, where the path
    /// is written for an identifier.
    pub fn preprocess(
        &self,
        alloc: Global,
        shader_str: &str,
        shader_defs: &BTreeMap<String, ShaderDefValue>,
    ) -> Result<PreprocessOutput, ComposerErrorInner>
        ensures value { let expected = preprocessed (get_by_text shader_defs.now) shader_str.now in
            Gives output_of result expected }
        ensures line_ends { let count = length (lines shader_str.now) in
            let paths = declared_paths (get_by_text shader_defs.now) shader_str.now in
            All (λ path. line_ends path ≡ 0) paths →
            IfOk result (λ o. line_ends (string_bytes o.preprocessed_source) ≡ count) }
        // A text without `"` declares no path with a line end.
        ensures quoteless { let count = length (lines shader_str.now) in
            let quoteless = NoCharPasses (λ c. c == double_quote) shader_str.now in
            quoteless → IfOk result (λ o. line_ends (string_bytes o.preprocessed_source) ≡ count) }
    {
        let mut out = String::with_capacity(alloc, shader_str.len() + 1)?;
        let mut scope = Scope::new(alloc);
        let mut lines = shader_str.lines();
        let mut source = SourceLines::new(alloc, &mut lines);
        let mut imports = Imports {
            declared: IndexMap::new(alloc),
            names: DeclaredNames::new(),
            used: IndexMap::new(alloc),
        };
        while let Some(line) = source.next()? {
            write_line(
                alloc,
                line,
                &mut source,
                shader_defs,
                &mut scope,
                &mut imports,
                &mut out,
            )?;
        }
        if scope.is_open() {
            return Err(ComposerErrorInner::NotEnoughEndIfs(source.offset()));
        }
        Ok(PreprocessOutput {
            preprocessed_source: out,
            imports: imports.used.into_values().collect(alloc)?,
        })
    }
}
