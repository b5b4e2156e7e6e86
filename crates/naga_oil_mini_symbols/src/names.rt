// Names in order. Many names are looked up by a map.
ghost use Rattle.std.specs.Prelude.{◌≡◌, ◌++◌, ◌∷◌, [], IfOk, OnOk, ℕ, List, option_copied, option_map, slice_get, length};
ghost use Rattle.naga_oil_mini_symbols.specs.NameTable.{last_place, place_in, texts_of};

use std::alloc::{AllocError, Global};
use std::collections::HashMap;
use std::marker::Model;

// The number of names up to which there is no map.
const FEW: usize = 8;

/// Names in order. A lookup finds the last of equal names.
#[derive(Drop)]
pub struct NameTable<'a> {
    alloc: Global,
    texts: Vec<&'a str>,
    // The map, once there are more than `FEW` names.
    places: Option<HashMap<&'a str, usize>>,
}

impl<'a> Model for NameTable<'a> {
    ghost use Rattle.std.specs.Prelude.{ℕ, List};
    ghost use Rattle.naga_oil_mini_symbols.specs.NameTable.{texts_of, Finds};

    ghost Value = { List (List ℕ) };

    ghost view = { λ n. texts_of n.texts.items };

    ghost invariant = { λ n. Finds n.places (texts_of n.texts.items) };
}

// The place of the last name that equals `name`.
fn last_of(names: &[&str], name: &str) -> Option<usize>
    ensures { result ≡ last_place name.now (texts_of names.now) }
{
    let mut place = names.len();
    while place > 0 {
        place -= 1;
        if names[place] == name {
            return Some(place);
        }
    }
    None
}

// The map of names, with capacity for `room` names.
fn places_of<'a>(
    alloc: Global,
    names: &[&'a str],
    room: usize,
) -> Result<HashMap<&'a str, usize>, AllocError>
    ensures { IfOk result (λ m. (q : List ℕ) → place_in m q ≡ last_place q (texts_of names.now)) }
{
    let mut places = HashMap::with_capacity(alloc, room)?;
    for (place, name) in names.iter().enumerate() {
        places.insert(*name, place)?;
    }
    Ok(places)
}

impl<'a> NameTable<'a> {
    pub fn new(alloc: Global) -> NameTable<'a>
        ensures { result ≡ [] }
    {
        NameTable {
            alloc,
            texts: Vec::new(alloc),
            places: None,
        }
    }

    /// Reserves capacity for `more` names. Without memory nothing is reserved.
    pub fn make_room(&mut self, more: usize)
        ensures { self.new ≡ self.old }
    {
        let _ = self.texts.reserve(more);
        if let Some(places) = &mut self.places {
            let _ = places.reserve(more);
        }
    }

    // Builds the map when the names become many. The map has the capacity of the list.
    fn prepare(&mut self) -> Result<(), AllocError>
        ensures { self.new ≡ self.old }
    {
        if self.texts.len() == FEW {
            let room = self.texts.capacity();
            self.places = Some(places_of(self.alloc, self.texts.as_slice(), room)?);
        }
        Ok(())
    }

    /// Appends a name, and returns the place of the last equal name before it.
    pub fn push(&mut self, name: &'a str) -> Result<Option<usize>, AllocError>
        ensures names { OnOk result (self.new ≡ self.old ++ name.now ∷ []) }
        ensures before { IfOk result (λ before. before ≡ last_place name.now self.old) }
    {
        self.prepare()?;
        let place = self.texts.len();
        let Some(places) = &mut self.places else {
            let before = last_of(self.texts.as_slice(), name);
            self.texts.push(name)?;
            return Ok(before);
        };
        self.texts.push(name)?;
        let Ok(before) = places.insert(name, place) else {
            self.texts.pop();
            return Err(AllocError);
        };
        Ok(before)
    }

    /// Removes all names.
    pub fn clear(&mut self)
        ensures { self.new ≡ [] }
    {
        self.texts.clear();
        self.places = None;
    }

    /// The place of the last name that equals `name`.
    pub fn place(&self, name: &str) -> Option<usize>
        ensures { result ≡ last_place name.now self.now }
    {
        match &self.places {
            Some(places) => places.get(name).copied(),
            None => last_of(self.texts.as_slice(), name),
        }
    }

    /// The names in order.
    pub fn texts(&self) -> &[&'a str]
        ensures { texts_of result.now ≡ self.now }
    {
        self.texts.as_slice()
    }
}
