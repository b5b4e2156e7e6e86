//! The declarations of a function that are in scope, found by their names.

ghost use Rattle.std.specs.Prelude.{◌≡◌, ◌++◌, ◌∷◌, ◌-◌, [], ℕ, List, length, take, drop, option_map, OnOk, IfOk};
ghost use Rattle.yettuvam_wgsl_scope.specs.LocalTable.{chosen, newest_first, newest_place};
ghost use Rattle.yettuvam_wgsl_scope.specs.Names as spec;
ghost use Rattle.yettuvam_wgsl_scope.specs.Names.{local_view, locals_view};

use crate::items::Name;
use std::alloc::{AllocError, Global};
use std::collections::HashMap;
use std::marker::Model;

/// A declaration of a function whose name is in scope.
#[derive(Clone, Copy)]
pub struct Local<'t> {
    pub name: Name<'t>,
    pub number: usize,
}

// A declaration, and the place of the one before it that has its name.
#[derive(Clone, Copy)]
struct Entry<'t> {
    local: Local<'t>,
    before: Option<usize>,
}

/// The declarations in scope, the innermost last. A name is found in expected constant time.
#[derive(Drop)]
pub struct Locals<'t> {
    entries: Vec<Entry<'t>>,
    // The place of the newest declaration of each name that is or was in scope.
    newest: HashMap<&'t [u8], Option<usize>>,
}

impl<'t> Model for Locals<'t> {
    ghost use Rattle.std.specs.Prelude.{List};
    ghost use Rattle.yettuvam_wgsl_scope.specs.LocalTable.{locals_in, IsTable};
    ghost use Rattle.yettuvam_wgsl_scope.specs.declared.locals.Local.{Local as LocalOfCode};

    ghost Value = { List LocalOfCode };

    ghost view = { λ l. locals_in l.entries.items };

    ghost invariant = { λ l. IsTable l.entries.items l.newest };
}

impl<'t> Locals<'t> {
    pub fn new(alloc: Global) -> Locals<'t>
        ensures { result ≡ [] }
    {
        Locals {
            entries: Vec::new(alloc),
            newest: HashMap::new(alloc),
        }
    }

    pub fn len(&self) -> usize
        ensures { result ≡ length self.now }
    {
        self.entries.len()
    }

    // The place of the newest declaration of a name.
    fn place(&self, name: &'t [u8]) -> Option<usize>
        ensures { result ≡ newest_place name.now (newest_first self.now) }
    {
        match self.newest.get(&name) {
            Some(place) => *place,
            None => None,
        }
    }

    // The declaration at a place, if that isn't before the first that count.
    fn at(&self, first: usize, place: Option<usize>) -> Option<Local<'t>>
        ensures { result ≡ chosen first self.now place }
    {
        let place = place?;
        if place < first {
            return None;
        }
        match self.entries.get(place) {
            Some(entry) => Some(entry.local),
            None => None,
        }
    }

    /// The newest declaration of a name, but for the `first` declarations.
    pub fn find(&self, first: usize, name: &'t [u8]) -> Option<Local<'t>>
        ensures { let among = locals_view self.now in
            option_map local_view result ≡ spec.find (drop first among) name.now }
    {
        self.at(first, self.place(name))
    }

    /// Appends a declaration.
    pub fn push(&mut self, local: Local<'t>) -> Result<(), AllocError>
        ensures { OnOk result (self.new ≡ self.old ++ local.entry ∷ []) }
    {
        let place = self.entries.len();
        let before = self.place(local.name.text);
        self.entries.push(Entry { local, before })?;
        let Ok(_) = self.newest.insert(local.name.text, Some(place)) else {
            self.entries.pop();
            return Err(AllocError);
        };
        Ok(())
    }

    // Removes the last declaration, if there is one.
    fn pop(&mut self) -> Result<(), AllocError>
        ensures { OnOk result (self.new ≡ take (length self.old - 1) self.old) }
    {
        let Some(last) = self.entries.last() else {
            return Ok(());
        };
        let (name, before) = (last.local.name.text, last.before);
        self.newest.insert(name, before)?;
        self.entries.pop();
        Ok(())
    }

    /// Keeps the first declarations.
    pub fn truncate(&mut self, count: usize) -> Result<(), AllocError>
        ensures { OnOk result (self.new ≡ take count self.old) }
    {
        while self.entries.len() > count {
            self.pop()?;
        }
        Ok(())
    }
}
