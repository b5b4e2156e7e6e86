// Marks that show, without a lookup in the map of declared names, that most names are undeclared.
ghost use Rattle.std.specs.Prelude.{◌≡◌, ℕ, ◌<◌, ◌||◌, ◌==◌, List, drop, false};
ghost use Rattle.naga_oil_imports.specs.Declarations.{declared_of};
ghost use Rattle.naga_oil_imports.specs.NameMarks.{slot_count, slot_of, has_mark, shares_slot, keys_of};

use indexmap::IndexMap;
use std::alloc::Global;

/// A mark for each slot that a declared name has. A name whose slot has no mark isn't declared.
#[derive(Clone, Copy)]
pub struct DeclaredNames {
    marks: [bool; SLOTS],
}

// The number of slots.
const SLOTS: usize = 64;

// The slot of a name, by its first byte and its length.
fn slot_of(name: &str) -> usize
    ensures slot { result ≡ slot_of name.now }
    ensures bound { result < slot_count }
{
    match name.as_bytes() {
        [first, ..] => (*first as usize + 8 * (name.len() % 8)) % SLOTS,
        [] => 0,
    }
}

impl DeclaredNames {
    /// No slot has a mark.
    pub fn new() -> DeclaredNames
        ensures { (name : List ℕ) → has_mark result name ≡ false }
    {
        DeclaredNames {
            marks: [false; SLOTS],
        }
    }

    /// Marks the slot of a name.
    pub fn mark(&mut self, name: &str)
        ensures { (other : List ℕ) → has_mark self.new other
            ≡ (has_mark self.old other || (slot_of other == slot_of name.now)) }
    {
        self.marks[slot_of(name)] = true;
    }

    /// Whether the slot of a name has a mark.
    #[inline]
    pub fn may_have(&self, name: &str) -> bool
        ensures { result ≡ has_mark self.now name.now }
    {
        self.marks[slot_of(name)]
    }

    /// Marks the slots of the names that are declared from index `from` on.
    pub fn mark_from(&mut self, declared: &IndexMap<String, Vec<String>>, from: usize)
        ensures { let more = drop from (keys_of (declared_of declared.now)) in
            (other : List ℕ) →
            has_mark self.new other ≡ (has_mark self.old other || shares_slot more other) }
    {
        for at in from..declared.len() {
            if let Some((name, _)) = declared.get_index(at) {
                self.mark(name.as_str());
            }
        }
    }
}
