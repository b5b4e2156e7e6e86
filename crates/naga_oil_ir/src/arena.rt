// Arenas: items with spans, named by their places.
ghost use Rattle.std.specs.Prelude.{◌≡◌, ℕ, ◌+◌, ◌<◌, ◌≤◌, drop, ◌++◌, ◌∷◌, [], List, length, map, Option, IfOk, OnOk, OnErr, position, slice_get, option_map, option_copied, unwrap_or};
ghost use Rattle.std.specs.List.{IsDistinct};
ghost use Rattle.std.specs.Slice.Iter.{iter_rest};
ghost use Rattle.naga_oil_ir.specs.Places.{place_of, with_element};
ghost use Rattle.naga_oil_ir.specs.Spans.{undefined};

use super::firsts::{Firsts, first_place};
use super::{Handle, Index, Item, Merge, Span};
use indexmap::{IndexMap, map};
use std::alloc::{AllocError, Global};
use std::hash::Hash;
use std::marker::Model;
use std::slice;

/// A list of items with spans; a handle is a place in it. `firsts` is an index by which equal items are found; a list of at most
/// `FEW` items has none.
#[derive(Drop)]
pub struct Arena<T: Item> {
    items: Vec<(T, Span)>,
    firsts: Option<Box<Firsts>>,
}

impl<T: Item> Model for Arena<T> {
    ghost use Rattle.std.specs.Prelude.{List, IfSome};
    ghost use Rattle.naga_oil_ir.specs.declared.span.Span.{Span};
    ghost use Rattle.naga_oil_ir.specs.Firsts.{Covers};

    ghost Value = { List (T × Span) };

    ghost view = { λ a. a.items.items };

    ghost invariant = { λ a. IfSome a.firsts (λ f. Covers T.digest a.items.items f.value.covered f.value.places.entries) };
}

impl<T: Item> Arena<T> {
    /// The arena of no items.
    pub fn new(alloc: Global) -> Self
        ensures { result ≡ [] }
    {
        Arena::from_items(Vec::new(alloc))
    }

    /// The arena of some items with their spans.
    pub fn from_items(items: Vec<(T, Span)>) -> Self
        ensures { result ≡ items.items }
    {
        Arena {
            items,
            firsts: None,
        }
    }

    /// The items with their spans, in order.
    pub fn into_items(self) -> Vec<(T, Span)>
        ensures { result.items ≡ self }
    {
        self.items
    }

    /// How many items there are.
    pub fn len(&self) -> usize
        ensures { result ≡ length self.now }
    {
        self.as_slice().len()
    }

    /// The item at a place, or `None` after the last.
    pub fn try_get(&self, handle: Handle<T>) -> Option<&T>
        ensures { option_copied result ≡ option_map (λ e. e.0) (slice_get self.now handle) }
    {
        self.items.get(handle.index()).map(|entry| &entry.0)
    }

    /// The span of the item at a place, undefined after the last.
    pub fn get_span(&self, handle: Handle<T>) -> Span
        ensures { result ≡ unwrap_or (option_map (λ e. e.1) (slice_get self.now handle)) undefined }
    {
        let entry = self.items.get(handle.index());
        entry.map_or(Span::UNDEFINED, |entry| entry.1)
    }

    /// The items with their spans, in order.
    pub fn as_slice(&self) -> &[(T, Span)]
        ensures { result.now ≡ self.now }
    {
        self.items.as_slice()
    }

    /// The items with their spans, in order.
    pub fn iter(&self) -> slice::Iter<'_, (T, Span)>
        ensures { iter_rest result ≡ self.now }
    {
        self.as_slice().iter()
    }

    /// Puts an item last and answers its place.
    pub fn append(&mut self, item: T, span: Span) -> Result<Handle<T>, AllocError>
    where
        T: Drop,
        ensures place { IfOk result (λ h. h ≡ length self.old) }
        ensures appended { OnOk result (self.new ≡ self.old ++ (item, span) ∷ []) }
        ensures err { OnErr result (self.new ≡ self.old) }
    {
        let index = self.len();
        self.items.push((item, span))?;
        Ok(Index::new(index))
    }

    /// The place of the first equal item, which keeps its span; without one the item is put last. A call takes expected constant
    /// time, averaged over all calls, if the hasher spreads the items.
    pub fn fetch_or_append(&mut self, item: T, span: Span) -> Result<Handle<T>, AllocError>
    where
        T: Merge + Drop,
        ensures place { IfOk result (λ h. h ≡ place_of (λ e. T.eq item e.0) self.old) }
        ensures items { let items = with_element (λ e. T.eq item e.0) self.old (item, span) in
            OnOk result (self.new ≡ items) }
        ensures err { OnErr result (self.new ≡ self.old) }
    {
        let alloc = *self.items.allocator();
        let first = first_place(&mut self.firsts, self.items.as_slice(), &item, alloc)?;
        match place_from(self.items.as_slice(), first, &item) {
            Some(index) => Ok(Index::new(index)),
            None => self.append(item, span),
        }
    }
}

fn position_of<T: PartialEq>(items: &[(T, Span)], item: &T) -> Option<usize>
    ensures { result ≡ position (λ e. T.eq item.now e.0) items.now }
{
    items.iter().position(|e| *item == e.0)
}

/// Returns the place of the first item, from `first` on, that equals the given one.
fn place_from<T: PartialEq>(items: &[(T, Span)], first: usize, item: &T) -> Option<usize>
    requires { first ≤ length items.now }
    ensures { let found = position (λ e. T.eq item.now e.0) (drop first items.now) in
        result ≡ option_map (λ n. first + n) found }
{
    let after = position_of(&items[first..], item)?;
    Some(first + after)
}

/// A list of items with spans, no two of them equal; a handle is a place in it. An item is found by its hash.
#[derive(Drop)]
pub struct UniqueArena<T: Item + Eq + Hash>(IndexMap<T, Span>);

impl<T: Item + Eq + Hash> Model for UniqueArena<T> {
    ghost use Rattle.std.specs.Prelude.{List};
    ghost use Rattle.naga_oil_ir.specs.declared.span.Span.{Span};

    ghost Value = { List (T × Span) };

    ghost view = { λ a. a.0.entries };
}

impl<T: Item + Eq + Hash> UniqueArena<T> {
    /// The arena of no items.
    pub fn new(alloc: Global) -> Self
        ensures { result ≡ [] }
    {
        UniqueArena(IndexMap::new(alloc))
    }

    /// How many items there are.
    pub fn len(&self) -> usize
        ensures { result ≡ length self.now }
    {
        self.0.len()
    }

    /// The item at a place, or `None` after the last.
    pub fn get_handle(&self, handle: Handle<T>) -> Option<&T>
        ensures { option_copied result ≡ option_map (λ e. e.0) (slice_get self.now handle) }
    {
        self.0.get_index(handle.index()).map(|entry| entry.0)
    }

    /// The span of the item at a place, undefined after the last.
    pub fn get_span(&self, handle: Handle<T>) -> Span
        ensures { result ≡ unwrap_or (option_map (λ e. e.1) (slice_get self.now handle)) undefined }
    {
        let entry = self.0.get_index(handle.index());
        entry.map_or(Span::UNDEFINED, |entry| *entry.1)
    }

    /// The items, in order.
    pub fn items(&self) -> &[T]
        ensures items { result.now ≡ map (λ e. e.0) self.now }
        ensures distinct { IsDistinct T.eq (map (λ e. e.0) self.now) }
    {
        self.0.keys().as_slice()
    }

    /// The items with their spans, in order.
    pub fn iter(&self) -> map::Iter<'_, T, Span>
        ensures { result ≡ self.now }
    {
        self.0.iter()
    }

    /// The place of the first equal item, which keeps its span; without one the item is put last.
    pub fn insert(&mut self, item: T, span: Span) -> Result<Handle<T>, AllocError>
    where
        T: Drop,
        ensures place { IfOk result (λ h. h ≡ place_of (λ e. T.eq item e.0) self.old) }
        ensures items { let items = with_element (λ e. T.eq item e.0) self.old (item, span) in
            OnOk result (self.new ≡ items) }
        ensures err { OnErr result (self.new ≡ self.old) }
    {
        match self.0.get_index_of(&item) {
            Some(index) => Ok(Index::new(index)),
            None => {
                let index = self.len();
                self.0.insert(item, span)?;
                Ok(Index::new(index))
            }
        }
    }

    /// Gives back the room that the items don't need.
    pub fn shrink_to_fit(&mut self)
        ensures { self.new ≡ self.old }
    {
        self.0.shrink_to_fit();
    }
}
