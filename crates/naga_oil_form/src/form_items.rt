// The test of form of types, constants, overrides, globals and global expressions.
ghost use Rattle.std.specs.Prelude.{◌≡◌, ◌↔◌, ◌<◌, ◌||◌, ℕ, Some, true, false, IsTrue, IfOk, IfSome, All, map, length, nat_eq};
ghost use Rattle.std.specs.Option.{option_copied};
ghost use Rattle.std.specs.List.{filter_map, list_any, IsDistinct};
ghost use Rattle.naga_oil_form.specs.Links.{lists, is_marked, reaches, AreEarlier, AreMarks, AtEach};
ghost use Rattle.naga_oil_ir.specs.Rows.{type_row, expression_row};
ghost use Rattle.naga_oil_form.specs.BodyForm.{IsSpanFine};
ghost use Rattle.naga_oil_form.specs.WellFormed.{SpanForm};
ghost use Rattle.naga_oil_form.specs.ItemForm.{types_of, type_at, type_links, is_override, pending, is_sized, IsThere, NamesWell, NamesForm, initialiser, StandAfter, IsGlobalKind, special_types, is_plain, ReachPlain, ExpressionForm, SpecialForm, ItemForm};

use super::form::{are_spans_fine, is_span_fine, read};
use super::links::{any_marked, are_below, are_earlier, is_marked, marks_of, reached_from};
use ItemPlace::{ConstantItem, ExpressionItem, GlobalItem, OverrideItem, TypeItem};
use naga_oil_ir::{
    Expression, GLOBAL_VARIABLE_KIND, Index, ItemPlace, LAST_RESULT_KIND, Module, Names, Span,
    SpecialTypes, Type, UniqueArena,
};
use naga_oil_words::AllocResult;
use std::alloc::{AllocError, Global};
use std::collections::HashSet;

fn is_there(of: &Module, place: ItemPlace) -> bool
    ensures { IsTrue result ↔ IsThere of.now place }
{
    match place {
        TypeItem(handle) => handle.index() < of.types.len(),
        ConstantItem(handle) => handle.index() < of.constants.len(),
        OverrideItem(handle) => handle.index() < of.overrides.len(),
        GlobalItem(handle) => handle.index() < of.global_variables.len(),
        ExpressionItem(handle) => handle.index() < of.global_expressions.len(),
    }
}

fn are_there(of: &Module, names: &[Option<ItemPlace>]) -> bool
    ensures { IsTrue result ↔ All (λ o. IfSome o (IsThere of.now)) names.now }
{
    names
        .iter()
        .all(|name| name.is_none_or(|place| is_there(of, place)))
}

fn type_at(name: &Option<ItemPlace>) -> Option<usize>
    ensures { result ≡ type_at name.now }
{
    match name {
        Some(TypeItem(handle)) => Some(handle.index()),
        _ => None,
    }
}

fn types_named(names: &[Option<ItemPlace>], alloc: Global) -> Result<Vec<usize>, AllocError>
    ensures { IfOk result (λ v. v.items ≡ filter_map type_at names.now) }
{
    names.iter().filter_map(|n| type_at(n)).collect(alloc)
}

fn names_override(names: &[Option<ItemPlace>]) -> bool
    ensures { result ≡ list_any is_override names.now }
{
    names.iter().any(|n| matches!(n, Some(OverrideItem(_))))
}

/// Returns whether all that items name exists, and none of it is a marked type.
///
/// # Errors
/// If out of memory.
fn items_name_well<T: Names>(
    of: &Module,
    marks: &[bool],
    items: &[T],
    alloc: Global,
) -> AllocResult<bool>
    ensures { let marked = is_marked marks.now in
        IfOk result (λ b.
        IsTrue b ↔ AtEach (λ e. NamesWell of.now marked (T.row_of e)) items.now) }
{
    for (place, item) in items.iter().enumerate() {
        let names = item.names(alloc)?;
        let types = types_named(&names, alloc)?;
        if !are_there(of, &names) || any_marked(marks, &types) {
            return Ok(false);
        }
    }
    Ok(true)
}

/// Returns whether all that the items of a module name exists, and constants, overrides and global expressions name no sized
/// type.
///
/// # Errors
/// If out of memory.
fn all_items_name_well(of: &Module, sized: &[bool], alloc: Global) -> AllocResult<bool>
    requires { (k : ℕ) → is_marked sized.now k ≡ is_sized of.now k }
    ensures { IfOk result (λ b. IsTrue b ↔ NamesForm of.now) }
{
    let types = items_name_well(of, &[], of.types.items(), alloc)?;
    let constants = items_name_well(of, sized, of.constants.as_slice(), alloc)?;
    let overrides = items_name_well(of, sized, of.overrides.as_slice(), alloc)?;
    let globals = items_name_well(of, &[], of.global_variables.as_slice(), alloc)?;
    let expressions = items_name_well(of, sized, of.global_expressions.as_slice(), alloc)?;
    Ok(types & constants & overrides & globals & expressions)
}

/// Returns for each type the types that it names.
///
/// # Errors
/// If out of memory.
fn type_links(types: &[Type], alloc: Global) -> Result<Vec<Vec<usize>>, AllocError>
    ensures { IfOk result (λ v. lists v.items ≡ type_links types.now) }
{
    let mut links = Vec::new(alloc);
    for ty in types {
        let names = ty.names(alloc)?;
        let named = types_named(&names, alloc)?;
        links.push(named)?;
    }
    Ok(links)
}

/// Returns marks of the sized types.
///
/// # Errors
/// If out of memory.
fn sized_types(types: &[Type], alloc: Global) -> Result<Vec<bool>, AllocError>
    requires { AreEarlier (type_links types.now) }
    ensures { let links = type_links types.now in
        IfOk result (λ v. (k : ℕ) → is_marked v.items k ≡ reaches links (pending types.now) k) }
{
    let mut sized = Vec::new(alloc);
    for ty in types {
        let names = ty.names(alloc)?;
        let types = types_named(&names, alloc)?;
        sized.push(names_override(&names) | any_marked(&sized, &types))?;
    }
    Ok(sized)
}

fn initialiser(of: &Module, name: &Option<ItemPlace>) -> Option<usize>
    ensures { result ≡ initialiser of.now name.now }
{
    match name {
        Some(ConstantItem(handle)) => Some(of.constants.try_get(*handle)?.init.index()),
        Some(OverrideItem(handle)) => Some(of.overrides.try_get(*handle)?.init?.index()),
        _ => None,
    }
}

fn initialisers_are_before(of: &Module, names: &[Option<ItemPlace>], limit: usize) -> bool
    ensures { IsTrue result ↔ All (λ o. IfSome (initialiser of.now o) (λ i. i < limit)) names.now }
{
    names.iter().all(|name| initialiser(of, name).is_none_or(|init| init < limit))
}

/// Returns whether each expression stands after the initialisers of the items that it names.
///
/// # Errors
/// If out of memory.
fn stand_after(of: &Module, items: &[(Expression, Span)], alloc: Global) -> AllocResult<bool>
    ensures { IfOk result (λ b. IsTrue b ↔ StandAfter of.now items.now) }
{
    for (place, entry) in items.iter().enumerate() {
        let names = entry.0.names(alloc)?;
        if !initialisers_are_before(of, &names, place) {
            return Ok(false);
        }
    }
    Ok(true)
}

fn are_global_kinds(kinds: &[u64]) -> bool
    ensures { IsTrue result ↔ All IsGlobalKind kinds.now }
{
    kinds.iter().all(|kind| *kind < GLOBAL_VARIABLE_KIND || LAST_RESULT_KIND < *kind)
}

/// Returns whether the global expressions pass the test of form.
///
/// # Errors
/// If out of memory.
fn expressions_are_fine(of: &Module, alloc: Global) -> AllocResult<bool>
    ensures { IfOk result (λ b. IsTrue b ↔ ExpressionForm of.now) }
{
    let items = of.global_expressions.as_slice();
    let read = read(items, alloc)?;
    let after = stand_after(of, items, alloc)?;
    Ok(are_earlier(&read.links) & after & are_global_kinds(&read.kinds))
}

/// Returns the special types, the three named ones first.
///
/// # Errors
/// If out of memory.
fn special_types(of: &SpecialTypes, alloc: Global) -> Result<Vec<usize>, AllocError>
    ensures { IfOk result (λ v. v.items ≡ special_types of.now) }
{
    let mut places = Vec::new(alloc);
    for ty in &[of.ray_desc, of.ray_intersection, of.ray_vertex_return] {
        let Some(ty) = ty else { continue };
        places.push(ty.index())?;
    }
    for ty in of.predeclared_types.values().as_slice() {
        places.push(ty.index())?;
    }
    Ok(places)
}

fn are_distinct(places: &[usize], alloc: Global) -> AllocResult<bool>
    ensures { IfOk result (λ b. IsTrue b ↔ IsDistinct nat_eq places.now) }
{
    let set: HashSet<usize> = places.iter().copied().collect(alloc)?;
    Ok(set.len() == places.len())
}

fn is_plain(of: &Module, special: &[bool], place: usize) -> bool
    requires { AreMarks special.now (special_types of.now.special_types) }
    ensures { result ≡ is_plain of.now place }
{
    let ty = of.types.get_handle(Index::new(place));
    ty.is_some_and(|ty| ty.name.is_none()) || is_marked(special, place)
}

/// Returns whether the marked types are unnamed or special.
fn are_plain(of: &Module, special: &[bool], reached: &[bool]) -> bool
    requires { AreMarks special.now (special_types of.now.special_types) }
    ensures { IsTrue result ↔
        ((k : ℕ) → is_marked reached.now k ≡ true → is_plain of.now k ≡ true) }
{
    let mut marks = reached.iter().enumerate();
    marks.all(|(place, mark)| !*mark || is_plain(of, special, place))
}

/// Returns whether the special types pass the test of form.
///
/// # Errors
/// If out of memory.
fn special_types_are_fine(
    of: &Module,
    links: &[Vec<usize>],
    sized: &[bool],
    alloc: Global,
) -> AllocResult<bool>
    requires links { lists links.now ≡ type_links (types_of of.now) }
    requires earlier { AreEarlier (lists links.now) }
    requires sized { (k : ℕ) → is_marked sized.now k ≡ is_sized of.now k }
    ensures { IfOk result (λ b. IsTrue b ↔ SpecialForm of.now) }
{
    let places = special_types(&of.special_types, alloc)?;
    if !are_below(&places, links.len()) {
        return Ok(false);
    }
    let distinct = are_distinct(&places, alloc)?;
    let special = marks_of(&places, links.len(), alloc)?;
    let reached = reached_from(links, &places, alloc)?;
    Ok(distinct & !any_marked(sized, &places) & are_plain(of, &special, &reached))
}

/// Returns whether the items of a module pass the test of form.
///
/// # Errors
/// If out of memory.
pub fn items_are_fine(of: &Module, alloc: Global) -> AllocResult<bool>
    ensures { IfOk result (λ b. IsTrue b ↔ ItemForm of.now) }
{
    let types = of.types.items();
    let links = type_links(types, alloc)?;
    if !are_earlier(&links) {
        return Ok(false);
    }
    let sized = sized_types(types, alloc)?;
    let names = all_items_name_well(of, &sized, alloc)?;
    let expressions = expressions_are_fine(of, alloc)?;
    let special = special_types_are_fine(of, &links, &sized, alloc)?;
    Ok(names & expressions & special)
}

fn are_type_spans_fine(types: &UniqueArena<Type>, text_len: usize) -> bool
    ensures { IsTrue result ↔ All (λ e. IsSpanFine text_len e.1) types.now }
{
    types.iter().all(|ty| is_span_fine(*ty.1, text_len))
}

/// Returns whether the spans of a module's items lie in a text of `text_len` bytes.
pub fn spans_are_fine(of: &Module, text_len: usize) -> bool
    ensures { IsTrue result ↔ SpanForm of.now text_len }
{
    are_type_spans_fine(&of.types, text_len)
        & are_spans_fine(of.constants.as_slice(), text_len)
        & are_spans_fine(of.overrides.as_slice(), text_len)
        & are_spans_fine(of.global_variables.as_slice(), text_len)
        & are_spans_fine(of.global_expressions.as_slice(), text_len)
        & are_spans_fine(of.functions.as_slice(), text_len)
}
