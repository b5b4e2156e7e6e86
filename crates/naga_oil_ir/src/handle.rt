// Handles: the places of items in arenas, and ranges of places.
ghost use Rattle.std.specs.Prelude.{◌≡◌, ℕ, ◌+◌, ◌-◌, ◌≤◌, ◌↔◌, IsTrue, Option, None, Some};

use std::marker::{Model, PhantomData};

/// A type whose values lie in arenas. `Kind` is a name for the type, so that an item may hold handles of its own type without
/// being a recursive type.
pub trait Item {
    type Kind;

    ghost digest: { Self → ℕ };

    /// Returns the number by which an arena finds equal items: the item's hash, or 0 for a type whose items are never merged.
    fn digest(&self) -> u64
        ensures { result ≡ digest self.now };
}

/// An item that an arena merges with an equal one.
pub trait Merge: Item + PartialEq {
    // Equal items have one digest.
    ghost respects_eq: { (x y : Self) → IsTrue (Self.eq x y) → Self.digest x ≡ Self.digest y };
}

/// A place in an arena of items of the kind `K`, from 0.
#[derive_where(Clone, Copy, PartialEq, Eq, PartialOrd, Ord, Hash, Debug)]
pub struct Index<K>(usize, PhantomData<K>);

/// A place in an arena of `T`, from 0.
pub type Handle<T> = Index<<T as Item>::Kind>;

impl<K> Model for Index<K> {
    ghost use Rattle.std.specs.Prelude.{ℕ};

    ghost Value = { ℕ };

    ghost view = { λ h. h.0 };

    ghost inverse = { λ n. record { 0 = n; 1 = record {} } };
}

impl<K> Index<K> {
    /// Returns the handle of a place.
    pub fn new(index: usize) -> Self
        ensures { result ≡ index }
    {
        Index(index, PhantomData)
    }

    /// Returns the place.
    pub fn index(self) -> usize
        ensures { result ≡ self }
    {
        self.0
    }
}

/// The places from `start` up to, not including, `end`.
#[derive_where(Clone, Copy, PartialEq, Eq)]
pub struct PlaceRange<K> {
    start: Index<K>,
    end: Index<K>,
}

/// A range of places in an arena of `T`.
pub type Range<T> = PlaceRange<<T as Item>::Kind>;

impl<K> Model for PlaceRange<K> {
    ghost use Rattle.std.specs.Prelude.{ℕ};

    ghost Value = { ℕ × ℕ };

    ghost view = { λ r. (r.start, r.end) };

    ghost inverse = { λ p. record { start = p.0; end = p.1 } };
}

impl<K> PlaceRange<K> {
    /// Returns the range from `start` up to `end`.
    pub fn new(start: usize, end: usize) -> Self
        ensures { result ≡ (start, end) }
    {
        let (start, end) = (Index::new(start), Index::new(end));
        PlaceRange { start, end }
    }

    /// Returns the first place.
    pub fn start(self) -> usize
        ensures { result ≡ self.0 }
    {
        self.start.index()
    }

    /// Returns the place after the last.
    pub fn end(self) -> usize
        ensures { result ≡ self.1 }
    {
        self.end.index()
    }
}
