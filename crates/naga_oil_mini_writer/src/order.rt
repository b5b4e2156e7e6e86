// The order of lines, in which each name means its item.
ghost use Rattle.std.specs.Prelude.{◌≡◌, ◌++◌, ◌∷◌, [], ◌&&◌, ◌<◌, Some, length, nat_le, OnOk, IfOk, drop, is_some, slice_get, map, reverse, option_map};
ghost use Rattle.naga_oil_mini_symbols.specs.NameTable.{last_place, texts_of};
ghost use Rattle.naga_oil_mini_writer.specs.Order as spec;

use naga_oil_mini_symbols::NameTable;
use std::alloc::{AllocError, Global};
use std::marker::Model;

/// The least and the largest number of items of a kind before a line.
#[derive(Clone, Copy)]
pub struct Bounds {
    pub least: usize,
    pub most: usize,
}

/// The numbers of constants, globals and functions that a line may have before it.
#[derive(Clone, Copy)]
pub struct Room {
    pub constants: Bounds,
    pub globals: Bounds,
    pub functions: Bounds,
}

const ANY: Bounds = Bounds {
    least: 0,
    most: usize::MAX,
};

/// The room of a line that names nothing.
pub const ANYWHERE: Room = Room {
    constants: ANY,
    globals: ANY,
    functions: ANY,
};

// The place of the first name from a place on that equals `name`, or `usize::MAX` for none.
fn place_from(names: &[&str], from: usize, name: &str) -> usize
    ensures { result ≡ spec.place_from from name.now (texts_of (drop from names.now)) }
{
    for place in from..names.len() {
        if name == names[place] {
            return place;
        }
    }
    usize::MAX
}

/// Names, and for each the place of the next equal name.
#[derive(Drop)]
struct NextNames<'m> {
    names: NameTable<'m>,
    next: Vec<usize>,
}

impl<'m> Model for NextNames<'m> {
    ghost use Rattle.std.specs.Prelude.{◌≡◌, ℕ, List};
    ghost use Rattle.naga_oil_mini_writer.specs.Order.{next_places};

    ghost Value = { List (List ℕ) };

    ghost view = { λ i. i.names };

    ghost invariant = { λ i. i.next.items ≡ next_places 0 i.names };
}

impl<'m> NextNames<'m> {
    // No names, with capacity for `room` of them. Without memory there is no capacity.
    fn new(alloc: Global, room: usize) -> NextNames<'m>
        ensures { result ≡ [] }
    {
        let mut names = NameTable::new(alloc);
        names.make_room(room);
        let mut next = Vec::new(alloc);
        let _ = next.reserve(room);
        NextNames { names, next }
    }

    // Appends a name. Without memory all are removed.
    fn push(&mut self, name: &'m str) -> Result<(), AllocError>
        ensures { OnOk result (self.new ≡ self.old ++ name.now ∷ []) }
    {
        let count = self.next.len();
        let (Ok(before), Ok(())) = (self.names.push(name), self.next.push(usize::MAX)) else {
            self.next.clear();
            self.names.clear();
            return Err(AllocError);
        };
        if let Some(place) = before {
            self.next[place] = count;
        }
        Ok(())
    }

    // Whether there is such a name.
    fn has(&self, name: &str) -> bool
        ensures { result ≡ is_some (last_place name.now self.now) }
    {
        self.names.place(name).is_some()
    }

    // The place of the next name that equals the name at a place.
    fn next(&self, place: usize) -> usize
        requires { place < length self.now }
        ensures { slice_get (spec.next_places 0 self.now) place ≡ Some result }
    {
        self.next[place]
    }
}

// The names, with the place of the next equal name for each.
fn next_names<'m>(alloc: Global, names: &[&'m str]) -> Result<NextNames<'m>, AllocError>
    ensures { IfOk result (λ n. n ≡ texts_of names.now) }
{
    let mut next = NextNames::new(alloc, names.len());
    for name in names {
        next.push(*name)?;
    }
    Ok(next)
}

/// The names of items of a kind. Equal names are searched at each use, unless all were found before.
#[derive(Drop)]
pub struct ItemNames<'m> {
    alloc: Global,
    texts: Vec<&'m str>,
    found: Option<NextNames<'m>>,
}

impl<'m> Model for ItemNames<'m> {
    ghost use Rattle.std.specs.Prelude.{◌≡◌, ℕ, List, IfSome};
    ghost use Rattle.naga_oil_mini_symbols.specs.NameTable.{texts_of};

    ghost Value = { List (List ℕ) };

    ghost view = { λ i. texts_of i.texts.items };

    ghost invariant = { λ i. IfSome i.found (λ t. t ≡ texts_of i.texts.items) };
}

impl<'m> ItemNames<'m> {
    ghost use Rattle.naga_oil_mini_writer.specs.Order.{name_used, bounds_used, place_from};

    /// No names, with capacity for `room` of them. Without memory there is no capacity.
    pub fn new(alloc: Global, room: usize) -> ItemNames<'m>
        ensures { result ≡ [] }
    {
        let mut texts = Vec::new(alloc);
        let _ = texts.reserve(room);
        ItemNames {
            alloc,
            texts,
            found: None,
        }
    }

    /// Appends a name.
    pub fn push(&mut self, name: &'m str) -> Result<(), AllocError>
        ensures { OnOk result (self.new ≡ self.old ++ name.now ∷ []) }
    {
        self.found = None;
        self.texts.push(name)?;
        Ok(())
    }

    /// Finds the equal names, before lines use them.
    pub fn find_equal(&mut self) -> Result<(), AllocError>
        ensures { self.new ≡ self.old }
    {
        if self.found.is_none() {
            self.found = Some(next_names(self.alloc, &self.texts)?);
        }
        Ok(())
    }

    // The place of the next name that equals the name at a place.
    fn next(&self, place: usize, name: &str) -> usize
        requires { slice_get self.now place ≡ Some name.now }
        ensures { slice_get (spec.next_places 0 self.now) place ≡ Some result }
    {
        match &self.found {
            Some(found) => found.next(place),
            None => place_from(&self.texts, place + 1, name),
        }
    }

    /// The name of an item that a line uses. The line is after the item and before the next one with that name.
    pub fn used(&self, place: usize, bounds: &mut Bounds) -> Option<&'m str>
        ensures name { option_map (λ n. n.now) result ≡ name_used self.now place }
        ensures bounds { bounds.new ≡ bounds_used self.now place bounds.old }
    {
        let name = *self.texts.get(place)?;
        bounds.least = bounds.least.max(place + 1);
        bounds.most = bounds.most.min(self.next(place, name));
        Some(name)
    }

    /// The first place of a name, or `usize::MAX` for none.
    pub fn first_place(&self, name: &str) -> usize
        ensures { result ≡ place_from 0 name.now self.now }
    {
        match &self.found {
            Some(found) if !found.has(name) => usize::MAX,
            _ => place_from(&self.texts, 0, name),
        }
    }
}

/// The names of a module's constants, globals and functions.
#[derive(Drop)]
pub struct Items<'m> {
    pub constants: ItemNames<'m>,
    pub globals: ItemNames<'m>,
    pub functions: ItemNames<'m>,
}

impl<'m> Items<'m> {
    /// Finds the equal names, before lines use them.
    pub fn find_equal(&mut self) -> Result<(), AllocError>
        ensures { self.new ≡ self.old }
    {
        self.constants.find_equal()?;
        self.globals.find_equal()?;
        self.functions.find_equal()
    }

    /// The names, with these names of functions.
    pub fn with_functions(self, functions: ItemNames<'m>) -> Items<'m>
        ensures { result ≡ record self.entry { functions = functions.entry } }
    {
        Items {
            constants: self.constants,
            globals: self.globals,
            functions,
        }
    }
}

// Raises the needs of each line to those of the lines of its kind before it.
fn need_in_order(lines: &mut [Room])
    ensures { lines.new ≡ spec.needing 0 0 lines.old }
{
    let mut constants = 0;
    let mut globals = 0;
    for line in lines {
        constants = constants.max(line.constants.least);
        globals = globals.max(line.globals.least);
        line.constants.least = constants;
        line.globals.least = globals;
    }
}

impl Room {
    // Whether the line may have as many constants and globals before it as a function needs.
    fn allows(self, function: &Room) -> bool
        ensures { let constants = nat_le function.now.constants.least self.constants.most in
            let globals = nat_le function.now.globals.least self.globals.most in
            result ≡ (constants && globals) }
    {
        function.constants.least <= self.constants.most
            && function.globals.least <= self.globals.most
    }

    // Whether an entry point may be after all of these functions.
    fn may_follow(self, functions: &[Room]) -> bool
        ensures { result ≡ spec.may_follow self (reverse functions.now) }
    {
        functions.len() <= self.functions.most
            && functions.last().is_none_or(|last| self.allows(last))
    }

    // Whether the line may be after `functions` functions and at most these numbers of constants and globals.
    fn fits(self, functions: usize, constants: usize, globals: usize) -> bool
        ensures { result ≡ spec.fits self functions constants globals }
    {
        self.functions.least <= functions
            && functions <= self.functions.most
            && self.constants.least <= constants
            && self.globals.least <= globals
    }
}

// Removes the last line.
fn take_last(functions: &mut Vec<Room>, entry_points: &mut Vec<Room>) -> Option<Room>
    ensures { let rest = reverse functions.new.items in
        let entries = reverse entry_points.new.items in
        let taken = spec.take_last (reverse functions.old.items) (reverse entry_points.old.items) in
        option_map (λ line. (line, rest, entries)) result ≡ taken }
{
    match entry_points.last() {
        Some(entry_point) if entry_point.may_follow(functions) => entry_points.pop(),
        _ => functions.pop(),
    }
}

/// Whether there is an order of all lines in which each function and each entry point has its room.
pub fn has_order(functions: &mut Vec<Room>, entry_points: &mut Vec<Room>) -> bool
    ensures { result ≡ spec.has_order functions.old.items entry_points.old.items }
{
    need_in_order(functions);
    let mut constants = usize::MAX;
    let mut globals = usize::MAX;
    for _ in 0..functions.len() + entry_points.len() {
        let Some(line) = take_last(functions, entry_points) else {
            return true;
        };
        constants = constants.min(line.constants.most);
        globals = globals.min(line.globals.most);
        if !line.fits(functions.len(), constants, globals) {
            return false;
        }
    }
    true
}
