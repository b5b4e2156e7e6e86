// The names of the expressions of a function.
ghost use Rattle.std.specs.Prelude.{◌≡◌, ◌↔◌, [], IsTrue, length, nat_eq, option_copied, IfOk, OnOk, OnErr};
ghost use Rattle.std.specs.Map.{lookup};
ghost use Rattle.indexmap.specs.IndexMap.{insert_entry};

use super::{Expression, Handle};
use indexmap::{IndexMap, map};
use std::alloc::{AllocError, Global};
use std::marker::Model;

/// The names of the expressions of a function, in the order of their first naming. The struct takes two words while no
/// expression has a name.
#[derive(Drop)]
pub struct NamedExpressions(Option<Box<IndexMap<Handle<Expression>, String>>>);

impl Model for NamedExpressions {
    ghost use Rattle.std.specs.Prelude.{[]};
    ghost use Rattle.std.specs.Option.{option_map_or};
    ghost use Rattle.naga_oil_ir.specs.NameEntries.{NameEntries};

    ghost Value = { NameEntries };

    ghost view = { λ n. record { entries = option_map_or (λ names. names.value.entries) n.0 [] } };
}

impl NamedExpressions {
    /// Returns the struct without names.
    pub fn new() -> Self
        ensures { result.entries ≡ [] }
    {
        NamedExpressions(None)
    }

    /// Returns the expressions that have names, each with its name, in order.
    pub fn as_slice(&self) -> map::Slice<'_, Handle<Expression>, String>
        ensures { result ≡ self.now.entries }
    {
        let Some(names) = &self.0 else {
            return map::Slice::new();
        };
        names.as_slice()
    }

    /// Iterates over the expressions that have names, each with its name, in order.
    pub fn iter(&self) -> map::Iter<'_, Handle<Expression>, String>
        ensures { result ≡ self.now.entries }
    {
        self.as_slice().iter()
    }

    /// Returns the number of expressions that have names.
    pub fn len(&self) -> usize
        ensures { result ≡ length self.now.entries }
    {
        self.as_slice().len()
    }

    /// Returns whether no expression has a name.
    pub fn is_empty(&self) -> bool
        ensures { IsTrue result ↔ (self.now.entries ≡ []) }
    {
        self.as_slice().is_empty()
    }

    /// Returns the name of an expression, if it has one.
    pub fn get(&self, handle: Handle<Expression>) -> Option<&String>
        ensures { option_copied result ≡ lookup (nat_eq handle) self.now.entries }
    {
        match &self.0 {
            Some(names) => names.get(&handle),
            None => None,
        }
    }

    /// Names an expression and returns its old name. A renamed expression keeps its place; another comes last.
    ///
    /// # Errors
    /// If out of memory.
    pub fn insert(
        &mut self,
        alloc: Global,
        handle: Handle<Expression>,
        name: String,
    ) -> Result<Option<String>, AllocError>
        ensures old { IfOk result (λ old. old ≡ lookup (nat_eq handle) self.old.entries) }
        ensures entries { let named = insert_entry nat_eq self.old.entries handle name in
            OnOk result (self.new.entries ≡ named) }
        ensures err { OnErr result (self.new.entries ≡ self.old.entries) }
    {
        match &mut self.0 {
            Some(names) => Ok(names.insert(handle, name)?),
            None => {
                let mut names = IndexMap::new(alloc);
                names.insert(handle, name)?;
                self.0 = Some(Box::new(alloc, names)?);
                Ok(None)
            }
        }
    }
}
