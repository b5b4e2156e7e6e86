//! Functions that may be overridden, and those that override them: a text marks both with keywords
//! that no front end knows.
ghost use Rattle.std.specs.Prelude.{◌≡◌, ◌||◌, ◌+◌, ◌<◌, ◌≤◌, ◌^◌, length, map, Option, option_map, string_bytes, IfSome, IfOk, OnOk};
ghost use Rattle.std.specs.BTreeMap.{get};
ghost use Rattle.std.specs.List.{list_all};
ghost use Rattle.std.specs.Ordering.{nat_cmp};
ghost use Rattle.std.specs.Str.{chars};
ghost use Rattle.ucd_perl.specs.Perl.{is_word_char};
ghost use Rattle.naga_oil_imports.specs.Uses.{import_of};
ghost use Rattle.naga_oil_conditions.specs.Fault.{Fault};
ghost use Rattle.naga_oil_conditions.specs.View.{fault_of, Gives};
ghost use Rattle.std.specs.Option.{option_or};
ghost use Rattle.naga_oil_link.specs.BuiltModule.{built_of, builds_of};
ghost use Rattle.naga_oil_words.specs.Texts.{is_among, texts};
ghost use Rattle.naga_oil_registry.specs.KeywordsView.{marked_of};
ghost use Rattle.naga_oil_build.specs.Virtuals.{AreItemAndCode, names_of, blanked, override_name, marked_override, imported_build, override_fault, are_parts, item_and_code, with_override, with_overrides, unless_fault, functions_in};
ghost use Rattle.naga_oil_build.specs.VirtualsView.{told_so, fault_over, override_over, overrides_over, functions_over, functions_with, TellsNext};
ghost use Rattle.naga_oil_build.specs.Overriding.{overriding_of, with_new, overridden};

use super::*;
use naga_oil_registry::keywords::{Edits, covered, edit, marked_in, with_edits};
use ucd_perl::is_word_code;

/// What the functions of a build are read over: the earlier builds, the imports, the decoration of
/// the build's own items, and whether any imported function may be overridden.
#[derive(Clone, Copy)]
pub(crate) struct Over<'a> {
    pub(crate) builds: &'a Builds,
    pub(crate) imports: &'a [Import],
    pub(crate) decoration: &'a str,
    pub(crate) override_any: bool,
}

// Adds a name, unless it is there.
fn add_name(alloc: Global, names: &mut Vec<String>, name: &str) -> AllocResult
    ensures { OnOk result (texts names.new.items ≡ with_new (texts names.old.items) name.now) }
{
    if !names.iter().any(|other| other.as_str() == name) {
        names.push(String::from_str(alloc, name)?)?;
    }
    Ok(())
}

/// Adds a function that overrides another, unless it is known.
pub(crate) fn add_override(
    alloc: Global,
    all: &mut Overrides,
    base: &str,
    name: &str,
) -> AllocResult
    ensures { let more = overridden (overriding_of all.old) base.now name.now in
        OnOk result (overriding_of all.new ≡ more) }
{
    if let Some(known) = all.get_mut(base) {
        return add_name(alloc, known, name);
    }
    let names = vec![in alloc; String::from_str(alloc, name)?]?;
    all.insert(String::from_str(alloc, base)?, names)?;
    Ok(())
}

// The names of functions.
fn names_of(alloc: Global, functions: &[Marked<'_>]) -> AllocResult<NameSet>
    ensures { IfOk result (λ names. texts names.keys ≡ names_of (map marked_of functions.now)) }
{
    let mut names = NameSet::new(alloc);
    for function in functions {
        names.insert(String::from_str(alloc, function.name)?)?;
    }
    Ok(names)
}

// Replaces each keyword by other characters.
fn blank(edits: &mut Edits, functions: &[Marked<'_>], blank: &str) -> AllocResult
    requires { length blank.now ≤ 16 }
    ensures { let more = blanked blank.now (get nat_cmp edits.old) (map marked_of functions.now) in
        OnOk result (get nat_cmp edits.new ≡ more) }
{
    for function in functions {
        edit(edits, function.keyword, blank)?;
    }
    Ok(())
}

// Whether a text consists of word characters.
fn is_word(text: &str) -> bool
    ensures { result ≡ list_all is_word_char (chars text.now) }
{
    text.chars().all(|c| is_word_code(c as u32))
}

// Whether these may be an item and a code: neither is empty, and the code consists of word
// characters.
fn are_parts(item: &str, code: &str) -> bool
    ensures { result ≡ are_parts item.now code.now }
{
    !item.is_empty() && !code.is_empty() && is_word(code)
}

// The item and the code of its module in a decorated name.
fn split_name(name: &str) -> Option<(&str, &str)>
    ensures parts { IfSome result (λ r. AreItemAndCode name.now r.0.now r.1.now) }
    ensures value { option_map (λ r. (r.0.now, r.1.now)) result ≡ item_and_code name.now }
{
    let marked = name.strip_suffix(DECORATION_POST)?;
    let (item, code) = marked.rsplit_once(DECORATION_PRE)?;
    if !are_parts(item, code) {
        return None;
    }
    Some((item, code))
}

// The build of an imported module.
fn imported_build<'b>(builds: &'b Builds, imports: &[Import], name: &str) -> Option<&'b Build>
    ensures { let imported = imported_build (builds_of builds.now) (map import_of imports.now) in
        option_map (λ b. built_of b.now) result ≡ imported name.now }
{
    if imports.iter().any(|import| import.import.as_str() == name) {
        builds.get(name).map(|build| &**build)
    } else {
        None
    }
}

// Whether an item of a build may be overridden: it is virtual there, or any function may be.
fn may_override(base: &Build, item: &str, any: bool) -> bool
    ensures { result ≡ (any || is_among (built_of base.now).virtuals item.now) }
{
    any || base.virtual_functions.contains(item)
}

// Why an item can't be overridden by the function whose name is at a place: its module isn't
// imported, or the item isn't virtual there and `override_any` is off.
fn override_fault(
    alloc: Global,
    over: Over<'_>,
    module_name: String,
    item: &str,
    place: usize,
) -> AllocResult<Option<Inner>>
    requires { place + length item.now + 16 < 2 ^ 64 }
    ensures { let told = fault_over over.entry (string_bytes module_name) item.now place in
        IfOk result (λ fault. option_map fault_of fault ≡ option_map Some told) }
{
    match imported_build(over.builds, over.imports, module_name.as_str()) {
        None => {
            let code = place + item.len() + DECORATION_PRE.len();
            Ok(Some(Inner::ImportNotFound(module_name, code)))
        }
        Some(base) if may_override(base, item, over.override_any) => Ok(None),
        Some(_) => {
            let name = String::from_str(alloc, item)?;
            Ok(Some(Inner::OverrideNotVirtual { name, pos: place }))
        }
    }
}

// Notes that a build overrides an item of a module by a function. The keyword becomes spaces, and
// the mark of the module becomes that of an override.
#[tactic(auto, using(crate::proofs::SplitLemmas::item_within))]
fn note_override(
    alloc: Global,
    of: &Marked<'_>,
    item: &str,
    code: &str,
    decoration: &str,
    overriding: &mut Overrides,
    edits: &mut Edits,
) -> AllocResult
    requires { AreItemAndCode of.now.name.now item.now code.now }
    ensures edits { let before = get nat_cmp edits.old in
        let more = marked_override before (marked_of of.now) item.now in
        OnOk result (get nat_cmp edits.new ≡ more) }
    ensures overriding { let name = override_name item.now code.now decoration.now in
        let more = overridden (overriding_of overriding.old) of.now.name.now name in
        OnOk result (overriding_of overriding.new ≡ more) }
{
    edit(edits, of.keyword, "        ")?;
    edit(edits, of.place + item.len(), DECORATION_OVERRIDE_PRE)?;
    let own = format!(in alloc;
        "{item}{DECORATION_OVERRIDE_PRE}{code}{DECORATION_POST}{decoration}"
    )?;
    add_override(alloc, overriding, of.name, &own)
}

// Reads a function by which a build overrides another. Returns its fault, if there is one; other
// functions are left as they are.
#[tactic(auto, using(crate::proofs::SplitLemmas::item_within))]
fn read_override(
    alloc: Global,
    of: &Marked<'_>,
    over: Over<'_>,
    overriding: &mut Overrides,
    edits: &mut Edits,
) -> AllocResult<Option<Inner>>
    ensures { let old = told_so edits.old overriding.old in
        let new = told_so edits.new overriding.new in
        let next = λ (before : Option Fault).
        override_over over.entry (old before) (marked_of of.now) in
        IfOk result (TellsNext new next) }
{
    let Some((item, code)) = split_name(of.name) else {
        return Ok(None);
    };
    let Some(module_name) = decode(alloc, code)? else {
        return Ok(None);
    };
    note_override(alloc, of, item, code, over.decoration, overriding, edits)?;
    override_fault(alloc, over, module_name, item, of.place)
}

// Reads the functions by which a build overrides others. Returns the last of their faults.
fn read_overrides(
    alloc: Global,
    functions: &[Marked<'_>],
    over: Over<'_>,
    overriding: &mut Overrides,
    edits: &mut Edits,
) -> InnerResult
    ensures { let old = told_so edits.old overriding.old None in
        let told = overrides_over over.entry old (map marked_of functions.now) in
        let new = told_so edits.new overriding.new None in
        Gives (λ done. new) result (unless_fault told.fault told) }
{
    let mut last = None;
    for function in functions {
        last = read_override(alloc, function, over, overriding, edits)?.or(last);
    }
    match last {
        None => Ok(()),
        Some(fault) => Err(fault),
    }
}

/// Reads the functions of a build that may be overridden, and those that override imported ones,
/// outside comments. Returns the names of the former, and the text without the keywords.
pub(crate) fn read_functions(
    alloc: Global,
    text: &str,
    over: Over<'_>,
    overriding: &mut Overrides,
) -> InnerResult<(NameSet, String)>
    ensures { let told = functions_over over.entry (overriding_of overriding.old) text.now in
        Gives (functions_with overriding.new) result told }
{
    let covered = covered(alloc, text)?;
    let mut edits = Edits::new(alloc);
    let virtuals = marked_in(alloc, covered.as_str(), "virtual")?;
    let names = names_of(alloc, &virtuals)?;
    blank(&mut edits, &virtuals, "       ")?;
    let shown = with_edits(alloc, covered.as_str(), &edits)?;
    let functions = marked_in(alloc, shown.as_str(), "override")?;
    read_overrides(alloc, &functions, over, overriding, &mut edits)?;
    let text = with_edits(alloc, text, &edits)?;
    Ok((names, text))
}
