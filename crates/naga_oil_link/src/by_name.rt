//! The items of a module by their names.
ghost use Rattle.std.specs.Prelude.{◌≡◌, ◌++◌, ◌↔◌, [], ℕ, List, Some, IfOk, IsTrue, OnOk, ◌<◌, true, get_or, is_some, length, option_map, string_bytes};
ghost use Rattle.std.specs.List.{filter, flat_map, range_with_len};
ghost use Rattle.std.specs.Ordering.{is_lt};
ghost use Rattle.naga_oil_ir.specs.ModuleValue.{module_value};
ghost use Rattle.naga_oil_link.specs.ByName.{text_at, compare_names, is_name, places_named, places_where, with_places, named_from, listed_names, IsStart, IsReached, MayStart, IsIndexOf, HasItems};
ghost use Rattle.naga_oil_words.specs.Texts.{texts};
ghost use Rattle.naga_oil_link.specs.Linked.{decorated_names, asked_names, is_wanted};

use super::items::{name_at, named, places_of};
use super::*;
use std::cmp::Ordering;

/// The requested items, and the decoration of their names.
#[derive(Clone, Copy)]
pub struct AskedItems<'a> {
    pub items: &'a [String],
    pub decoration: &'a str,
}

/// The requested items; `None` requests all.
pub type Asked<'a> = Option<AskedItems<'a>>;

/// A list of things with names: the functions of a module, or its items at some places.
#[derive(Clone, Copy)]
pub enum Listed<'m> {
    Functions(&'m Module),
    Items(&'m Module, &'m [ItemPlace]),
}

/// The places in a list of the elements that have names, sorted by name, then by place. The names
/// stay in the module.
pub type ByName = Vec<usize>;

/// The items of a module by their names.
#[derive(Drop)]
pub struct NamedItems {
    /// The places of the module's types, constants, overrides and globals.
    pub places: Vec<ItemPlace>,
    /// Indices into `places`, by the names of the items.
    pub by_name: ByName,
    /// Places of functions, by their names.
    pub functions: ByName,
}

impl<'m> Listed<'m> {
    // The length of the list.
    fn len(self) -> usize
        ensures { result ≡ length (listed_names self.entry) }
    {
        match self {
            Listed::Functions(of) => of.functions.len(),
            Listed::Items(_, places) => places.len(),
        }
    }

    // The name of the element at a place, if it has one.
    fn name(self, at: usize) -> Option<&'m str>
        ensures { option_map (λ n. n.now) result ≡ text_at (listed_names self.entry) at }
    {
        match self {
            Listed::Functions(of) => named(&of.functions.as_slice().get(at)?.0.name),
            Listed::Items(of, places) => name_at(of, *places.get(at)?),
        }
    }

    // Compares the name at a place with another.
    fn compare(self, at: usize, name: Option<&str>) -> Ordering
        ensures { let names = listed_names self.entry in
            result ≡ compare_names (text_at names at) (option_map (λ n. n.now) name.entry) }
    {
        self.name(at).cmp(&name)
    }
}

// The places of the elements that have names.
fn named_places(alloc: Global, of: Listed<'_>) -> AllocResult<Vec<usize>>
    ensures { IfOk result (λ places. places.items ≡ places_where is_some (listed_names of.entry)) }
{
    let end = of.len();
    let mut places = Vec::with_capacity(alloc, end)?;
    for at in 0..end {
        if of.name(at).is_none() {
            continue;
        }
        places.push(at)?;
    }
    places.shrink_to_fit();
    Ok(places)
}

// The places of the elements that have names, sorted by name.
fn index_by_name(alloc: Global, of: Listed<'_>) -> AllocResult<ByName>
    ensures { IfOk result (IsIndexOf (listed_names of.entry)) }
{
    let mut index = named_places(alloc, of)?;
    index.sort_by(
        |at: &usize, other: &usize| -> Ordering
            ensures { let names = listed_names of.entry in
                result ≡ compare_names (text_at names at.now) (text_at names other.now) }
        { of.compare(*at, of.name(*other)) },
    )?;
    Ok(index)
}

impl NamedItems {
    /// The items of a module.
    pub fn new(alloc: Global, of: &Module) -> AllocResult<NamedItems>
        ensures { IfOk result (HasItems (module_value of.now)) }
    {
        let places = places_of(alloc, of)?;
        let by_name = index_by_name(alloc, Listed::Items(of, &places))?;
        let functions = index_by_name(alloc, Listed::Functions(of))?;
        #[rattlefmt::skip]
        Ok(NamedItems { places, by_name, functions })
    }
}

// The first place of an index with a name, or where that name would be.
fn start_of(index: &ByName, of: Listed<'_>, name: &str) -> usize
    requires { IsIndexOf (listed_names of) index.now }
    ensures { IsStart (listed_names of.entry) name.now index.now.items result }
{
    index.partition_point(
        |at: &usize| -> bool
            ensures { let names = listed_names of.entry in
                result ≡ is_lt (compare_names (text_at names at.now) (Some name.entry.now)) }
        { of.compare(*at, Some(name)).is_lt() },
    )
}

// Whether a place of an index has a name.
fn is_named_at(index: &ByName, of: Listed<'_>, at: usize, name: &str) -> bool
    ensures { let there = text_at (listed_names of.entry) (get_or index.now.items at 0) in
        IsTrue result ↔ (at < length index.now.items) × (is_name name.now there ≡ true) }
{
    at < index.len() && of.compare(index[at], Some(name)).is_eq()
}

// Adds the places that have a name, from a place of the index on. Returns the place of the index
// after them.
fn add_from(
    places: &mut PlaceSet,
    index: &ByName,
    of: Listed<'_>,
    start: usize,
    name: &str,
) -> AllocResult<usize>
    requires index { IsIndexOf (listed_names of) index.now }
    requires start { IsReached (listed_names of) name.now index.now.items start }
    ensures added { let names = listed_names of.entry in
        let more = named_from names name.now index.now.items start in
        OnOk result (places.new.keys ≡ with_places places.old.keys more) }
    ensures following { IfOk result (MayStart (listed_names of.entry) index.now.items) }
{
    for at in start..index.len() {
        if !of.compare(index[at], Some(name)).is_eq() {
            return Ok(at);
        }
        places.insert(index[at])?;
    }
    Ok(index.len())
}

// Adds the places that have a name, which are looked for at a guessed place of the index first.
// Returns the place of the index after them.
fn add_places(
    places: &mut PlaceSet,
    index: &ByName,
    of: Listed<'_>,
    guess: usize,
    name: &str,
) -> AllocResult<usize>
    requires index { IsIndexOf (listed_names of) index.now }
    requires guess { MayStart (listed_names of) index.now.items guess }
    ensures added { let more = places_named (listed_names of.entry) name.now in
        OnOk result (places.new.keys ≡ with_places places.old.keys more) }
    ensures following { IfOk result (MayStart (listed_names of.entry) index.now.items) }
{
    if is_named_at(index, of, guess, name) {
        places.insert(index[guess])?;
        return add_from(places, index, of, guess + 1, name);
    }
    let start = start_of(index, of, name);
    add_from(places, index, of, start, name)
}

/// Adds the places of the items that have these names.
pub fn add_named(
    places: &mut PlaceSet,
    index: &ByName,
    of: Listed<'_>,
    names: &NameSet,
) -> AllocResult
    requires { IsIndexOf (listed_names of) index.now }
    ensures { let more = flat_map (places_named (listed_names of.entry)) (texts names.now.keys) in
        OnOk result (places.new.keys ≡ with_places places.old.keys more) }
{
    let mut guess = 0usize;
    for name in names.iter() {
        guess = add_places(places, index, of, guess, name.as_str())?;
    }
    Ok(())
}

// Replaces a text by a decorated name.
fn decorate(text: &mut String, name: &str, decoration: &str) -> AllocResult
    ensures { OnOk result (string_bytes text.new ≡ name.now ++ decoration.now) }
{
    text.clear();
    text.push_str(name)?;
    text.push_str(decoration)
}

// Adds the places of the requested items.
fn add_asked(
    alloc: Global,
    places: &mut PlaceSet,
    index: &ByName,
    of: Listed<'_>,
    asked: AskedItems<'_>,
) -> AllocResult
    requires { IsIndexOf (listed_names of) index.now }
    ensures { let names = decorated_names asked.entry in
        let more = flat_map (places_named (listed_names of.entry)) names in
        OnOk result (places.new.keys ≡ with_places places.old.keys more) }
{
    if index.is_empty() {
        return Ok(());
    }
    let mut name = String::new(alloc);
    let mut guess = 0usize;
    for item in asked.items {
        decorate(&mut name, item.as_str(), asked.decoration)?;
        guess = add_places(places, index, of, guess, name.as_str())?;
    }
    Ok(())
}

// The places before an end.
fn all_places(alloc: Global, end: usize) -> AllocResult<PlaceSet>
    ensures { IfOk result (λ places. places.keys ≡ with_places [] (range_with_len 0 end)) }
{
    let mut places = PlaceSet::new(alloc);
    for at in 0..end {
        places.insert(at)?;
    }
    Ok(places)
}

/// The places of the requested items.
pub fn wanted(alloc: Global, index: &ByName, of: Listed<'_>, asked: Asked) -> AllocResult<PlaceSet>
    requires { IsIndexOf (listed_names of) index.now }
    ensures { let is_asked = is_wanted (asked_names asked.entry) in
        IfOk result (λ places. places.keys ≡ places_where is_asked (listed_names of.entry)) }
{
    let Some(asked) = asked else {
        return all_places(alloc, of.len());
    };
    let mut places = PlaceSet::new(alloc);
    add_asked(alloc, &mut places, index, of, asked)?;
    Ok(places)
}
