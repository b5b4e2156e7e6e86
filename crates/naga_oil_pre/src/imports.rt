// What imports declare, and what lines use of the declared modules.
ghost use Rattle.std.specs.Prelude.{◌≡◌, ℕ, List, ◌+◌, ◌<◌, ◌≤◌, ◌^◌, ◌++◌, ◌∷◌, Some, None, Result, Ok, length, string_bytes, replicate, false, IsTrue, IsOk, IfSome, OnOk, IfOk, IfErr};
ghost use Rattle.std.specs.BTreeMap.{get_by_text};
ghost use Rattle.naga_oil_words.specs.Bytes.{space};
ghost use Rattle.naga_oil_imports.specs.Declarations.{declared_of};
ghost use Rattle.naga_oil_imports.specs.Uses.{uses_of};
ghost use Rattle.naga_oil_imports.specs.NameMarks.{Covers};
ghost use Rattle.naga_oil_imports.specs.Leaves.{Leaf, SyntaxFault, import_leaves, with_import};
ghost use Rattle.naga_oil_imports.specs.ImportView.{fault_of, RefusesImport};
ghost use Rattle.naga_oil_imports.specs.Substituted.{substituted, sites, first_ambiguous, used_by};
ghost use Rattle.naga_oil_conditions.specs.Line.{Line, end_place};
ghost use Rattle.naga_oil_conditions.specs.View.{Fails};
ghost use Rattle.naga_oil_pre.specs.Preprocessed.{Known, end_line, spaces, padded, import_text, tokens_of, using_tokens, imported_passage, shown_passage};
ghost use Rattle.naga_oil_conditions.specs.Replaced.{replaced};
ghost use Rattle.naga_oil_pre.specs.Reading.{braces_after, taken, after_taken};
ghost use Rattle.naga_oil_pre.specs.KnownView.{HasMarks, ReportsRefused};
ghost use Rattle.naga_oil_pre.specs.Taking.{TakesAll};
ghost use Rattle.naga_oil_conditions.specs.SourceView.{line_of};

use super::*;
use naga_oil_conditions::replace::replaced_text;
use naga_oil_imports::declared_names::DeclaredNames;
use naga_oil_imports::parse_imports::{ImportFault, check_imports, parse_imports};
use naga_oil_lines::text::push_spaces;

/// The declarations of the imports so far, and the uses of the lines so far.
#[derive(Drop)]
pub struct Imports {
    pub declared: IndexMap<String, Vec<String>>,
    /// The marks of the declared names.
    pub names: DeclaredNames,
    pub used: IndexMap<String, ImportDefWithOffset>,
}

// The number of braces open after a covered line.
pub fn braces_after(before: usize, covered: &str) -> usize
    requires { before + length covered.now < 2 ^ 64 }
    ensures value { result ≡ braces_after before covered.now }
    ensures bound { result ≤ before + length covered.now }
{
    let opened = covered.as_bytes().iter().filter(|b| **b == b'{').count();
    let closed = covered.as_bytes().iter().filter(|b| **b == b'}').count();
    (before + opened).saturating_sub(closed)
}

// Writes a line of spaces as long as the given one.
pub fn blank_line(out: &mut String, line: &str) -> Result<(), AllocError>
    ensures { let blank = end_line (replicate (length line.now) space) in
        OnOk result (string_bytes out.new ≡ string_bytes out.old ++ blank) }
{
    push_spaces(out, line.len())?;
    out.push('\n')
}

// Pads the line that begins at `start` with spaces to a length, and ends it.
fn fill_line(out: &mut String, start: usize, size: usize) -> Result<(), AllocError>
    requires { start ≤ length (string_bytes out.old) }
    ensures { (front text : List ℕ) →
        string_bytes out.old ≡ front ++ text → length front ≡ start →
        OnOk result (string_bytes out.new ≡ front ++ end_line (padded size text)) }
{
    let len = out.len() - start;
    push_spaces(out, size.saturating_sub(len))?;
    out.push('\n')
}

// The error of an import line whose text is at the offset.
fn import_error(alloc: Global, fault: ImportFault, offset: usize) -> ComposerErrorInner
    requires { IfSome (fault_of fault) (λ f. offset + f.1 < 2 ^ 64) }
    ensures { (known : Known) (l : Line) (leaves : Result (List Leaf) SyntaxFault) →
        l.at ≡ offset → RefusesImport fault leaves →
        Fails result (imported_passage known l leaves) }
{
    match fault {
        ImportFault::Syntax(text, place) => match String::from_str(alloc, text) {
            Ok(text) => ComposerErrorInner::ImportParseError(text, offset + place),
            Err(_) => ComposerErrorInner::Memory,
        },
        ImportFault::Memory => ComposerErrorInner::Memory,
    }
}

// Adds the declarations of an import's text, and marks their names. The text is at the offset.
pub fn declare(
    alloc: Global,
    import: &str,
    offset: usize,
    declared: &mut IndexMap<String, Vec<String>>,
    names: &mut DeclaredNames,
) -> Result<(), ComposerErrorInner>
    requires fits { offset + length import.now < 2 ^ 64 }
    requires marked { Covers names.old (declared_of declared.old) }
    ensures ok { let more = with_import (declared_of declared.old) (import_leaves import.now) in
        OnOk result (more ≡ Ok (declared_of declared.new)) }
    ensures marked { OnOk result (Covers names.new (declared_of declared.new)) }
    ensures err { IfErr result (λ e. (known : Known) (l : Line) → l.at ≡ offset →
        Fails e (imported_passage known l (import_leaves import.now))) }
{
    let count = declared.len();
    match parse_imports(alloc, import, declared) {
        Ok(()) => {
            names.mark_from(declared, count);
            Ok(())
        }
        Err(fault) => Err(import_error(alloc, fault, offset)),
    }
}

// Reads an import's text only for its fault. The text is at the offset.
pub fn check_import(alloc: Global, import: &str, offset: usize) -> Result<(), ComposerErrorInner>
    requires { offset + length import.now < 2 ^ 64 }
    ensures ok { OnOk result (IsOk (import_leaves import.now)) }
    ensures err { IfErr result (λ e. (known : Known) (l : Line) → l.at ≡ offset →
        Fails e (imported_passage known l (import_leaves import.now))) }
{
    match check_imports(alloc, import) {
        Ok(()) => Ok(()),
        Err(fault) => Err(import_error(alloc, fault, offset)),
    }
}

/// What a reader of an import does with each line that the import takes.
pub trait TakesLine {
    /// The sink before a line, the line, and the sink after it.
    ghost Takes: { Self → Line → Self → Type 0 };

    fn take(&mut self, alloc: Global, line: &SourceLine<'_>) -> Result<(), AllocError>
        ensures { OnOk result (Takes self.old (line_of line.now) self.new) };
}

// The text that preprocessing writes: a taken line becomes spaces.
impl TakesLine for String {
    ghost Takes = { λ old line new.
        string_bytes new ≡ string_bytes old ++ end_line (spaces line) };

    fn take(&mut self, _alloc: Global, line: &SourceLine<'_>) -> Result<(), AllocError> {
        blank_line(self, line.text)
    }
}

// Adds a line that an import takes to the import's text. Returns the number of braces open after
// the line.
fn add_line(line: &SourceLine<'_>, braces: usize, import: &mut String) -> Result<usize, AllocError>
    requires { braces + length (line_of line.now).covered < 2 ^ 64 }
    ensures import { let more = end_line (line_of line.now).covered in
        OnOk result (string_bytes import.new ≡ string_bytes import.old ++ more) }
    ensures after { IfOk result (λ n. n ≡ braces_after braces (line_of line.now).covered) }
    ensures bound { IfOk result (λ n. n ≤ braces + length (line_of line.now).covered) }
{
    import.push_str(line.covered.as_str())?;
    import.push('\n')?;
    Ok(braces_after(braces, line.covered.as_str()))
}

// Adds the lines that an import takes to the import's text, and gives each to the sink.
fn take_lines<S: TakesLine>(
    alloc: Global,
    source: &mut SourceLines<'_, '_>,
    braces: usize,
    import: &mut String,
    sink: &mut S,
) -> Result<(), AllocError>
    requires { braces ≤ source.old.place }
    ensures left { OnOk result (source.new.left ≡ after_taken braces source.old.left) }
    ensures sink { let more = taken braces source.old.left in
        OnOk result (TakesAll S.Takes sink.old more sink.new) }
    ensures import { let more = taken braces source.old.left in
        OnOk result (string_bytes import.new ≡ string_bytes import.old ++ import_text more) }
    ensures fits { let before = length (string_bytes import.old) in
        let after = length (string_bytes import.new) in
        OnOk result (after + source.old.place ≤ before + source.new.place) }
    ensures room { OnOk result (source.old.place ≤ 2 ^ 63 → source.new.place ≤ 2 ^ 63) }
    ensures end { let before = end_place source.old.place source.old.left in
        OnOk result (end_place source.new.place source.new.left ≡ before) }
    ensures shorter { OnOk result (length source.new.left ≤ length source.old.left) }
{
    let mut braces = braces;
    while braces > 0 {
        let Some(line) = source.next()? else {
            break;
        };
        sink.take(alloc, &line)?;
        braces = add_line(&line, braces, import)?;
    }
    Ok(())
}

// Reads an import whose line leaves these braces open, with the lines that it takes, each of which
// is given to the sink. Returns the import's text.
pub fn read_import<S: TakesLine>(
    alloc: Global,
    line: &SourceLine<'_>,
    braces: usize,
    source: &mut SourceLines<'_, '_>,
    sink: &mut S,
) -> Result<String, AllocError>
    requires place { line.now.offset + length line.now.text.now + 1 ≡ source.old.place }
    requires even { length (line_of line.now).covered ≤ length line.now.text.now }
    requires room { source.old.place ≤ 2 ^ 63 }
    requires braces { braces ≤ length (line_of line.now).covered }
    ensures left { OnOk result (source.new.left ≡ after_taken braces source.old.left) }
    ensures sink { let more = taken braces source.old.left in
        OnOk result (TakesAll S.Takes sink.old more sink.new) }
    ensures text { let more = taken braces source.old.left in
        IfOk result (λ text. string_bytes text ≡ import_text (line_of line.now ∷ more)) }
    ensures fits { IfOk result (λ text. line.now.offset + length (string_bytes text) < 2 ^ 64) }
    ensures end { let before = end_place source.old.place source.old.left in
        OnOk result (end_place source.new.place source.new.left ≡ before) }
    ensures shorter { OnOk result (length source.new.left ≤ length source.old.left) }
{
    let mut import = String::from_str(alloc, line.covered.as_str())?;
    import.push('\n')?;
    take_lines(alloc, source, braces, &mut import, sink)?;
    Ok(import)
}

// The error for a text whose identifiers can't be substituted.
fn ambiguous(alloc: Global, fault: SubstituteFault) -> ComposerErrorInner
    ensures { ReportsRefused result fault }
{
    let SubstituteFault::Ambiguous(place) = fault else {
        return ComposerErrorInner::Memory;
    };
    match String::from_str(alloc, "Ambiguous import path for item") {
        Ok(text) => ComposerErrorInner::ImportParseError(text, place),
        Err(_) => ComposerErrorInner::Memory,
    }
}

// Records the uses of a shown line, by its covered line with its `#` names replaced. If `writes` is
// set, writes that text with its identifiers substituted.
fn use_line(
    alloc: Global,
    line: &SourceLine<'_>,
    writes: bool,
    definitions: &BTreeMap<String, ShaderDefValue>,
    imports: &mut Imports,
    out: &mut String,
) -> Result<(), ComposerErrorInner>
    requires place { line.now.offset ≤ 2 ^ 63 }
    requires marked { HasMarks imports.old }
    ensures text { let tokens = using_tokens (get_by_text definitions.now) (line_of line.now) in
        let more = substituted (declared_of imports.old.declared) tokens in
        let written = string_bytes out.old ++ more in
        IsTrue writes → OnOk result (string_bytes out.new ≡ written) }
    ensures unwritten { let unwritten = string_bytes out.old in
        writes ≡ false → OnOk result (string_bytes out.new ≡ unwritten) }
    ensures ok { let tokens = using_tokens (get_by_text definitions.now) (line_of line.now) in
        let found = sites line.now.offset tokens in
        let first = first_ambiguous (declared_of imports.old.declared) false found in
        OnOk result (first ≡ None) }
    ensures used { let tokens = using_tokens (get_by_text definitions.now) (line_of line.now) in
        let used = used_by (declared_of imports.old.declared) line.now.offset tokens in
        OnOk result (uses_of imports.new.used ≡ used (uses_of imports.old.used)) }
    ensures declared { let old = declared_of imports.old.declared in
        OnOk result (declared_of imports.new.declared ≡ old) }
    ensures marked { OnOk result (HasMarks imports.new) }
    ensures err { let tokens = using_tokens (get_by_text definitions.now) (line_of line.now) in
        let found = sites line.now.offset tokens in
        let first = first_ambiguous (declared_of imports.old.declared) false found in
        IfErr result (λ e. (known : Known) →
        Fails e (shown_passage (get_by_text definitions.now) known (line_of line.now) first)) }
{
    let covered = replaced_text(alloc, line.covered.as_str(), definitions)?;
    let substitution = Substitution {
        alloc,
        declared_imports: &imports.declared,
        names: &imports.names,
        allow_ambiguous: false,
        offset: line.offset,
        writes,
    };
    match substitution.walk(covered.as_str(), &mut imports.used, out) {
        Ok(()) => Ok(()),
        Err(fault) => Err(ambiguous(alloc, fault)),
    }
}

// Writes a line with its `#` names replaced and its identifiers substituted.
fn push_shown(
    alloc: Global,
    line: &SourceLine<'_>,
    definitions: &BTreeMap<String, ShaderDefValue>,
    imports: &Imports,
    out: &mut String,
) -> Result<(), AllocError>
    requires { HasMarks imports.now }
    ensures { let given = replaced (get_by_text definitions.now) line.now.text.now in
        let more = substituted (declared_of imports.now.declared) (tokens_of given) in
        OnOk result (string_bytes out.new ≡ string_bytes out.old ++ more) }
{
    let replaced = replaced_text(alloc, line.text, definitions)?;
    let mut unused = IndexMap::new(alloc);
    let substitution = Substitution {
        alloc,
        declared_imports: &imports.declared,
        names: &imports.names,
        allow_ambiguous: true,
        offset: 0,
        writes: true,
    };
    match substitution.walk(replaced.as_str(), &mut unused, out) {
        Ok(()) => Ok(()),
        Err(SubstituteFault::Ambiguous(_)) => unreachable!(),
        Err(SubstituteFault::Memory) => Err(AllocError),
    }
}

// Records the uses of a shown line and writes the line; at once, if the line has no comment.
pub fn show_line(
    alloc: Global,
    line: &SourceLine<'_>,
    definitions: &BTreeMap<String, ShaderDefValue>,
    imports: &mut Imports,
    out: &mut String,
) -> Result<(), ComposerErrorInner>
    requires place { line.now.offset ≤ 2 ^ 63 }
    requires marked { HasMarks imports.old }
    ensures text { let given = replaced (get_by_text definitions.now) line.now.text.now in
        let shown = substituted (declared_of imports.old.declared) (tokens_of given) in
        let more = end_line (padded (length line.now.text.now) shown) in
        OnOk result (string_bytes out.new ≡ string_bytes out.old ++ more) }
    ensures ok { let tokens = using_tokens (get_by_text definitions.now) (line_of line.now) in
        let found = sites line.now.offset tokens in
        let first = first_ambiguous (declared_of imports.old.declared) false found in
        OnOk result (first ≡ None) }
    ensures used { let tokens = using_tokens (get_by_text definitions.now) (line_of line.now) in
        let used = used_by (declared_of imports.old.declared) line.now.offset tokens in
        OnOk result (uses_of imports.new.used ≡ used (uses_of imports.old.used)) }
    ensures declared { let old = declared_of imports.old.declared in
        OnOk result (declared_of imports.new.declared ≡ old) }
    ensures marked { OnOk result (HasMarks imports.new) }
    ensures err { let tokens = using_tokens (get_by_text definitions.now) (line_of line.now) in
        let found = sites line.now.offset tokens in
        let first = first_ambiguous (declared_of imports.old.declared) false found in
        IfErr result (λ e. (known : Known) →
        Fails e (shown_passage (get_by_text definitions.now) known (line_of line.now) first)) }
{
    let start = out.len();
    let has_no_comment = line.covered.as_str() == line.text;
    use_line(alloc, line, has_no_comment, definitions, imports, out)?;
    if !has_no_comment {
        push_shown(alloc, line, definitions, imports, out)?;
    }
    fill_line(out, start, line.text.len())?;
    Ok(())
}
