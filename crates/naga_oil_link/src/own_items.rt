//! Which items of a module are a build's own, by their places.
ghost use Rattle.std.specs.Prelude.{◌≡◌, OnOk};
ghost use Rattle.naga_oil_link.specs.OwnPlaces.{own_of, nothing_own, is_own, with_own};

use super::*;

/// Places of types, constants, overrides and globals of a module.
#[derive(Drop)]
pub struct OwnItems {
    pub types: PlaceSet,
    pub constants: PlaceSet,
    pub overrides: PlaceSet,
    pub globals: PlaceSet,
}

impl OwnItems {
    /// An empty set of places.
    pub fn new(alloc: Global) -> OwnItems
        ensures { own_of result ≡ nothing_own }
    {
        OwnItems {
            types: PlaceSet::new(alloc),
            constants: PlaceSet::new(alloc),
            overrides: PlaceSet::new(alloc),
            globals: PlaceSet::new(alloc),
        }
    }

    /// Whether the item at a place is own.
    pub fn contains(&self, place: ItemPlace) -> bool
        ensures { result ≡ is_own (own_of self.now) place }
    {
        match place {
            ItemPlace::TypeItem(handle) => self.types.contains(&handle.index()),
            ItemPlace::ConstantItem(handle) => self.constants.contains(&handle.index()),
            ItemPlace::OverrideItem(handle) => self.overrides.contains(&handle.index()),
            ItemPlace::GlobalItem(handle) => self.globals.contains(&handle.index()),
            ItemPlace::ExpressionItem(_) => false,
        }
    }

    /// Adds the place of an item.
    pub fn insert(&mut self, place: ItemPlace) -> AllocResult
        ensures { OnOk result (own_of self.new ≡ with_own (own_of self.old) place) }
    {
        match place {
            ItemPlace::TypeItem(handle) => self.types.insert(handle.index())?,
            ItemPlace::ConstantItem(handle) => self.constants.insert(handle.index())?,
            ItemPlace::OverrideItem(handle) => self.overrides.insert(handle.index())?,
            ItemPlace::GlobalItem(handle) => self.globals.insert(handle.index())?,
            ItemPlace::ExpressionItem(_) => false,
        };
        Ok(())
    }
}
