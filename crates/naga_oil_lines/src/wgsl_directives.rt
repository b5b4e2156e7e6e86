// The directives at the start of a WGSL text.
ghost use Rattle.std.specs.Prelude.{◌≡◌, ◌↔◌, ℕ, ◌++◌, List, [], IsTrue, IfOk, OnOk, codes, fold, map};
ghost use Rattle.std.specs.Cmp.Lexicographic.{slice_cmp};
ghost use Rattle.std.specs.List.{Contains, flat_map, join_by};
ghost use Rattle.std.specs.List.Sorted.{IsStrictlySortedBy};
ghost use Rattle.std.specs.Ordering.{nat_cmp};
ghost use Rattle.std.specs.String.{string_bytes};
ghost use Rattle.naga_oil_lines.specs.Directives.{enable_of, requires_of, diagnostic_of, directives_of, no_directives};
ghost use Rattle.naga_oil_words.specs.Texts.{with_name, in_order};
ghost use Rattle.naga_oil_lines.specs.DirectivesText.{names_of, names_line, diagnostic_line, with_empty_line, directives_text, SaysNothing};

use std::alloc::{AllocError, Global};
use std::collections::BTreeSet;

/// Extensions that a text enables. The location is the directive's line, from 0.
#[derive(Debug, Drop, PartialEq, Eq, Hash)]
pub struct EnableDirective {
    pub extensions: Vec<String>,
    pub source_location: usize,
}

/// Extensions that a text requires. The location is the directive's line, from 0.
#[derive(Debug, Drop, PartialEq, Eq, Hash)]
pub struct RequiresDirective {
    pub extensions: Vec<String>,
    pub source_location: usize,
}

/// The severity of a diagnostic rule. The location is the directive's line, from 0.
#[derive(Debug, Drop, PartialEq, Eq, Hash)]
pub struct DiagnosticDirective {
    pub severity: String,
    pub rule: String,
    pub source_location: usize,
}

/// The directives of a text, each kind in order.
#[derive(Debug, Drop)]
pub struct WgslDirectives {
    pub enables: Vec<EnableDirective>,
    pub requires_: Vec<RequiresDirective>,
    pub diagnostics: Vec<DiagnosticDirective>,
}

impl EnableDirective {
    /// Returns an equal directive.
    pub fn try_clone(&self) -> Result<EnableDirective, AllocError>
        ensures { IfOk result (λ copy. enable_of copy ≡ enable_of self.now) }
    {
        Ok(EnableDirective {
            extensions: self.extensions.clone()?,
            source_location: self.source_location,
        })
    }
}

impl RequiresDirective {
    /// Returns an equal directive.
    pub fn try_clone(&self) -> Result<RequiresDirective, AllocError>
        ensures { IfOk result (λ copy. requires_of copy ≡ requires_of self.now) }
    {
        Ok(RequiresDirective {
            extensions: self.extensions.clone()?,
            source_location: self.source_location,
        })
    }
}

impl DiagnosticDirective {
    /// Returns an equal directive.
    pub fn try_clone(&self) -> Result<DiagnosticDirective, AllocError>
        ensures { IfOk result (λ copy. diagnostic_of copy ≡ diagnostic_of self.now) }
    {
        let DiagnosticDirective {
            severity,
            rule,
            source_location,
        } = self;
        Ok(DiagnosticDirective {
            severity: severity.clone()?,
            rule: rule.clone()?,
            source_location: *source_location,
        })
    }

    // Writes the line of the directive.
    fn push_line(&self, text: &mut String) -> Result<(), AllocError>
        ensures { let line = diagnostic_line (diagnostic_of self.now) in
            OnOk result (string_bytes text.new ≡ string_bytes text.old ++ line) }
    {
        text.push_str("diagnostic(")?;
        text.push_str(self.severity.as_str())?;
        text.push_str(", ")?;
        text.push_str(self.rule.as_str())?;
        text.push_str(");\n")
    }
}

fn clone_enables(
    alloc: Global,
    directives: &[EnableDirective],
) -> Result<Vec<EnableDirective>, AllocError>
    ensures { IfOk result (λ copy. map enable_of copy.items ≡ map enable_of directives.now) }
{
    let mut copy = Vec::with_capacity(alloc, directives.len())?;
    for directive in directives {
        copy.push(directive.try_clone()?)?;
    }
    Ok(copy)
}

fn clone_requires(
    alloc: Global,
    directives: &[RequiresDirective],
) -> Result<Vec<RequiresDirective>, AllocError>
    ensures { IfOk result (λ copy. map requires_of copy.items ≡ map requires_of directives.now) }
{
    let mut copy = Vec::with_capacity(alloc, directives.len())?;
    for directive in directives {
        copy.push(directive.try_clone()?)?;
    }
    Ok(copy)
}

fn clone_diagnostics(
    alloc: Global,
    directives: &[DiagnosticDirective],
) -> Result<Vec<DiagnosticDirective>, AllocError>
    ensures { let expected = map diagnostic_of directives.now in
        IfOk result (λ copy. map diagnostic_of copy.items ≡ expected) }
{
    let mut copy = Vec::with_capacity(alloc, directives.len())?;
    for directive in directives {
        copy.push(directive.try_clone()?)?;
    }
    Ok(copy)
}

// Adds names to a set.
fn insert_names<'a>(names: &mut BTreeSet<&'a str>, more: &'a [String]) -> Result<(), AllocError>
    ensures { let old = map (λ n. n.now) names.old.keys in
        let named = fold with_name old (map string_bytes more.now) in
        OnOk result (map (λ n. n.now) names.new.keys ≡ named) }
{
    for name in more {
        names.insert(name.as_str())?;
    }
    Ok(())
}

// The enabled extensions.
fn enabled_names<'a>(
    alloc: Global,
    enables: &'a [EnableDirective],
) -> Result<BTreeSet<&'a str>, AllocError>
    ensures { let named = names_of (map enable_of enables.now) in
        IfOk result (λ names. map (λ n. n.now) names.keys ≡ in_order named) }
{
    let mut names = BTreeSet::new(alloc);
    for enable in enables {
        insert_names(&mut names, enable.extensions.as_slice())?;
    }
    Ok(names)
}

// The required extensions.
fn required_names<'a>(
    alloc: Global,
    requires_: &'a [RequiresDirective],
) -> Result<BTreeSet<&'a str>, AllocError>
    ensures { let named = names_of (map requires_of requires_.now) in
        IfOk result (λ names. map (λ n. n.now) names.keys ≡ in_order named) }
{
    let mut names = BTreeSet::new(alloc);
    for required in requires_ {
        insert_names(&mut names, required.extensions.as_slice())?;
    }
    Ok(names)
}

// The names, separated by commas.
fn joined(alloc: Global, names: BTreeSet<&str>) -> Result<String, AllocError>
    ensures { let named = map (λ n. n.now) names.entry.keys in
        IfOk result (λ text. string_bytes text ≡ join_by (λ n. n) (codes ", ") named) }
{
    let names: Vec<&str> = names.into_iter().collect(alloc)?;
    names.join(alloc, ", ")
}

// Writes a line of a word and names. Without names it writes nothing.
fn push_names(
    alloc: Global,
    word: &str,
    names: BTreeSet<&str>,
    text: &mut String,
) -> Result<(), AllocError>
    ensures { let line = names_line word.now (map (λ n. n.now) names.entry.keys) in
        OnOk result (string_bytes text.new ≡ string_bytes text.old ++ line) }
{
    if names.is_empty() {
        return Ok(());
    }
    let names = joined(alloc, names)?;
    text.push_str(word)?;
    text.push_str(" ")?;
    text.push_str(names.as_str())?;
    text.push_str(";\n")
}

// Writes the line of each diagnostic.
fn push_diagnostics(
    diagnostics: &[DiagnosticDirective],
    text: &mut String,
) -> Result<(), AllocError>
    ensures { let lines = flat_map diagnostic_line (map diagnostic_of diagnostics.now) in
        OnOk result (string_bytes text.new ≡ string_bytes text.old ++ lines) }
{
    for diagnostic in diagnostics {
        diagnostic.push_line(text)?;
    }
    Ok(())
}

// Writes an empty line after the text, unless the text is empty.
fn push_empty_line(text: &mut String) -> Result<(), AllocError>
    ensures { OnOk result (string_bytes text.new ≡ with_empty_line (string_bytes text.old)) }
{
    if text.is_empty() {
        return Ok(());
    }
    text.push_str("\n")
}

impl WgslDirectives {
    /// No directives.
    pub fn new(alloc: Global) -> WgslDirectives
        ensures { directives_of result ≡ no_directives }
    {
        WgslDirectives {
            enables: Vec::new(alloc),
            requires_: Vec::new(alloc),
            diagnostics: Vec::new(alloc),
        }
    }

    /// Whether there are no directives.
    pub fn is_empty(&self) -> bool
        ensures { IsTrue result ↔ (directives_of self.now ≡ no_directives) }
    {
        self.enables.is_empty() && self.requires_.is_empty() && self.diagnostics.is_empty()
    }

    /// Returns equal directives.
    pub fn try_clone(&self) -> Result<WgslDirectives, AllocError>
        ensures { IfOk result (λ copy. directives_of copy ≡ directives_of self.now) }
    {
        let alloc = *self.enables.allocator();
        Ok(WgslDirectives {
            enables: clone_enables(alloc, self.enables.as_slice())?,
            requires_: clone_requires(alloc, self.requires_.as_slice())?,
            diagnostics: clone_diagnostics(alloc, self.diagnostics.as_slice())?,
        })
    }

    /// Returns the text of the directives: one line of the enabled and one of the required
    /// extensions, each named once and in byte order, then a line for each diagnostic, then an
    /// empty line. A line that would name nothing is left out, and so is the empty line if it would
    /// be the only one.
    pub fn to_wgsl_string(&self, alloc: Global) -> Result<String, AllocError>
        ensures text { let directives = directives_of self.now in
            IfOk result (λ text. string_bytes text ≡ directives_text directives) }
        ensures empty { let directives = directives_of self.now in
            IfOk result (λ text. (string_bytes text ≡ []) ↔ SaysNothing directives) }
    {
        let mut text = String::new(alloc);
        let enabled = enabled_names(alloc, self.enables.as_slice())?;
        push_names(alloc, "enable", enabled, &mut text)?;
        let required = required_names(alloc, self.requires_.as_slice())?;
        push_names(alloc, "requires", required, &mut text)?;
        push_diagnostics(self.diagnostics.as_slice(), &mut text)?;
        push_empty_line(&mut text)?;
        Ok(text)
    }
}

/// The extensions of a line are strictly sorted in byte order, and they are those that the
/// directives name.
pub fn names_in_order()
    ensures rise { (names : List (List ℕ)) →
        IsStrictlySortedBy (slice_cmp nat_cmp) (in_order names) }
    ensures members { (names : List (List ℕ)) (name : List ℕ) →
        Contains (in_order names) name ↔ Contains names name }
{}
