// An index of the items of an arena by their hashes: where the search for an equal item begins.
ghost use Rattle.std.specs.Prelude.{◌≡◌, ◌≤◌, ◌<◌, ◌+◌, suc, [], min, nat_eq, length, drop, position, option_map, IfSome, IfOk, OnOk, OnErr};
ghost use Rattle.std.specs.Map.{lookup};
ghost use Rattle.std.specs.Option.{option_map_or};
ghost use Rattle.naga_oil_ir.specs.Firsts.{hashed, Covers};

use super::{Item, Merge, Span};
use indexmap::IndexMap;
use std::alloc::{AllocError, Global};
use std::hash::{FoldHasher, Hash, Hasher};

/// An arena of at most this many items is searched from its first item, without an index.
const FEW: usize = 16;

/// Returns the hash of a value. Equal values have one hash.
pub fn hashed<T: Hash>(value: &T) -> u64
    ensures { result ≡ hashed (T.hash_input value.now) }
{
    let mut hasher = FoldHasher::default();
    value.hash(&mut hasher);
    hasher.finish()
}

/// An index of the first `covered` items of a list: `places` maps the digest of each of them to its place or an earlier one.
#[derive(Drop)]
pub struct Firsts {
    places: IndexMap<u64, usize>,
    covered: usize,
}

impl Firsts {
    fn new(alloc: Global) -> Self
        ensures { (result.covered ≡ 0) × (result.places.entries ≡ []) }
    {
        let places = IndexMap::new(alloc);
        Firsts { places, covered: 0 }
    }

    /// Covers the first item that isn't covered.
    fn cover_next<T: Item>(&mut self, items: &[(T, Span)]) -> Result<(), AllocError>
        requires next { self.old.covered < length items.now }
        requires covers { Covers T.digest items.now self.old.covered self.old.places.entries }
        ensures covers { Covers T.digest items.now self.new.covered self.new.places.entries }
        ensures next { OnOk result (self.new.covered ≡ suc self.old.covered) }
        ensures err { OnErr result (self.new.covered ≡ self.old.covered) }
    {
        let at = self.covered;
        let digest = items[at].0.digest();
        let first = self.place(digest, at);
        self.places.insert(digest, first)?;
        self.covered = at + 1;
        Ok(())
    }

    /// Covers all items that aren't covered.
    fn cover<T: Item>(&mut self, items: &[(T, Span)]) -> Result<(), AllocError>
        requires { Covers T.digest items.now self.old.covered self.old.places.entries }
        ensures covers { Covers T.digest items.now self.new.covered self.new.places.entries }
        ensures all { OnOk result (length items.now ≤ self.new.covered) }
    {
        while self.covered < items.len() {
            self.cover_next(items)?;
        }
        Ok(())
    }

    /// Returns a place before which no covered item has the digest: `end` if none has it.
    fn place(&self, digest: u64, end: usize) -> usize
        ensures { let known = lookup (nat_eq digest) self.now.places.entries in
            result ≡ option_map_or (min end) known end }
    {
        self.places
            .get(&digest)
            .map_or(end, |first| end.min(*first))
    }

    /// Covers the items and returns a place before which none equals the given one.
    fn before<T: Merge>(&mut self, items: &[(T, Span)], item: &T) -> Result<usize, AllocError>
        requires { Covers T.digest items.now self.old.covered self.old.places.entries }
        ensures covers { Covers T.digest items.now self.new.covered self.new.places.entries }
        ensures within { IfOk result (λ n. n ≤ length items.now) }
        ensures skips { let found = position (λ e. T.eq item.now e.0) items.now in
            IfOk result (λ n. let after = position (λ e. T.eq item.now e.0) (drop n items.now) in
            found ≡ option_map (λ m. n + m) after) }
    {
        self.cover(items)?;
        Ok(self.place(item.digest(), items.len()))
    }
}

/// Returns a place before which no item equals the given one.
pub fn first_place<T: Merge>(
    firsts: &mut Option<Box<Firsts>>,
    items: &[(T, Span)],
    item: &T,
    alloc: Global,
) -> Result<usize, AllocError>
    requires { IfSome firsts.old (λ f. Covers T.digest items.now f.value.covered f.value.places.entries) }
    ensures covers { IfSome firsts.new (λ f. Covers T.digest items.now f.value.covered f.value.places.entries) }
    ensures within { IfOk result (λ n. n ≤ length items.now) }
    ensures skips { let found = position (λ e. T.eq item.now e.0) items.now in
        IfOk result (λ n. let after = position (λ e. T.eq item.now e.0) (drop n items.now) in
        found ≡ option_map (λ m. n + m) after) }
{
    if items.len() <= FEW {
        return Ok(0);
    }
    if firsts.is_none() {
        *firsts = Some(Box::new(alloc, Firsts::new(alloc))?);
    }
    let Some(known) = firsts else { return Ok(0) };
    known.before(items, item)
}
