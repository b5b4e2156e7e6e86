//! The test of form of functions and their names.
ghost use Rattle.std.specs.Prelude.{◌≡◌, ◌↔◌, IsTrue, IfOk, map, nat_eq, option_map, unwrap_or, string_bytes};
ghost use Rattle.std.specs.List.{IsDistinct};
ghost use Rattle.std.specs.Cow.{cow_str_bytes};
ghost use Rattle.std.specs.Cmp.Lexicographic.{pointwise};
ghost use Rattle.naga_oil_form.specs.NameForm.{entry_name};
ghost use Rattle.naga_oil_form.specs.WellFormed.{NamedForm, FunctionListForm};
ghost use Rattle.naga_oil_words.specs.Marks.{with_decoration};

use super::form_function::function_is_fine;
use naga_oil_ir::{EntryPoint, Function, Module, Span};
use naga_oil_words::{AllocResult, has_module_mark};
use std::alloc::{AllocError, Global};
use std::borrow::CowStr;
use std::collections::HashSet;

/// Returns a name with the decoration, or the name alone if it has the mark of a module.
///
/// # Errors
/// If out of memory.
fn with_decoration<'a>(
    name: &'a str,
    decoration: &str,
    alloc: Global,
) -> Result<CowStr<'a>, AllocError>
    ensures { IfOk result (λ s. cow_str_bytes s ≡ with_decoration decoration.now name.now) }
{
    if has_module_mark(name) {
        return Ok(CowStr::Borrowed(name));
    }
    let mut text = String::from_str(alloc, name)?;
    text.push_str(decoration)?;
    Ok(CowStr::Owned(text))
}

fn name_or<'a>(function: &'a Function, other: &'a str) -> &'a str
    ensures { result.now ≡ unwrap_or (option_map string_bytes function.now.name) other.now }
{
    function.name.as_ref().map_or(other, |name| name.as_str())
}

/// Returns whether a function is named, passes the test of form and calls only the first `calls_below` functions.
///
/// # Errors
/// If out of memory.
fn item_is_fine(
    of: &Module,
    item: &(Function, Span),
    calls_below: usize,
    text_len: usize,
    alloc: Global,
) -> AllocResult<bool>
    ensures { IfOk result (λ b. IsTrue b ↔ NamedForm of.now calls_below text_len item.now) }
{
    if item.0.name.is_none() {
        return Ok(false);
    }
    function_is_fine(of, &item.0, calls_below, text_len, alloc)
}

/// Returns whether functions are named, pass the test of form in a text of `text_len` bytes and call only those before them,
/// and their decorated names are distinct.
///
/// # Errors
/// If out of memory.
pub fn functions_are_fine(
    of: &Module,
    decoration: &str,
    text_len: usize,
    alloc: Global,
) -> AllocResult<bool>
    ensures { IfOk result (λ b. IsTrue b ↔ FunctionListForm of.now decoration.now text_len) }
{
    let functions = of.functions.as_slice();
    let mut names: HashSet<CowStr<'_>> = HashSet::with_capacity(alloc, functions.len())?;
    for (place, item) in functions.iter().enumerate() {
        if !item_is_fine(of, item, place, text_len, alloc)? {
            return Ok(false);
        }
        let name = with_decoration(name_or(&item.0, ""), decoration, alloc)?;
        if !names.insert(name)? {
            return Ok(false);
        }
    }
    Ok(true)
}

/// Returns whether the decorated names of the functions of entry points are distinct.
///
/// # Errors
/// If out of memory.
pub fn entries_are_distinct(
    entries: &[EntryPoint],
    decoration: &str,
    alloc: Global,
) -> AllocResult<bool>
    ensures { let told = map (λ e. with_decoration decoration.now (entry_name e.function)) entries.now in
        IfOk result (λ b. IsTrue b ↔ IsDistinct (pointwise nat_eq) told) }
{
    let mut names: HashSet<CowStr<'_>> = HashSet::with_capacity(alloc, entries.len())?;
    for entry in entries {
        let name = with_decoration(name_or(&entry.function, "main"), decoration, alloc)?;
        if !names.insert(name)? {
            return Ok(false);
        }
    }
    Ok(true)
}
