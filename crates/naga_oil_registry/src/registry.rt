// The registered modules, found by name.
ghost use Rattle.std.specs.Prelude.{◌≡◌, ℕ, ◌+◌, ◌-◌, ◌^◌, ◌<◌, ◌≤◌, ◌==◌, [], ◌∷◌, false, not, length, drop, slice_index_or, slice_get, List, filter, ◌||◌, option_map, string_bytes, None, Some, IfNone, IfSome, OnOk, OnErr, IfOk};
ghost use Rattle.std.specs.BTreeSet.{contains_text};
ghost use Rattle.std.specs.List.{list_any};
ghost use Rattle.std.specs.Str.{bytes_eq};
ghost use Rattle.indexmap.specs.IndexMap.{KeepsRoom};
ghost use Rattle.naga_oil_registry.specs.Registered.{Registered, definition_of};
ghost use Rattle.naga_oil_registry.specs.Registry.{registered, module_named, place_named, module_indexed, reaches, removed, standing, taken, free_index, IsRegistry};
ghost use Rattle.naga_oil_registry.specs.RegistryView.{AreMarks, MarksMore, IsOnly};

use super::*;
use indexmap::IndexMap;
use std::marker::Model;

// The number of indices: 0 is the shader's, and 1 to 2047 are for modules.
const INDEX_COUNT: usize = MAX_MODULES + 1;

/// The registered modules, found by name. Besides its own cost, an add that replaces no module only
/// reads the marks of the indices; one that replaces modules, and a removal, take time linear in
/// the number of modules.
#[derive(Drop)]
pub struct Registry {
    alloc: Global,
    // The modules, the oldest first.
    modules: IndexMap<String, Registered>,
    // Marks of the indices that are taken. There are none before the first addition and after a
    // removal.
    taken: Vec<bool>,
}

impl Model for Registry {
    ghost use Rattle.std.specs.Prelude.{List};
    ghost use Rattle.indexmap.specs.IndexMap.{values};
    ghost use Rattle.naga_oil_registry.specs.Registered.{Registered};
    ghost use Rattle.naga_oil_registry.specs.RegistryView.{newest_first, IsKept};

    ghost Value = { List Registered };

    ghost view = { λ r. newest_first (values r.modules) };

    ghost invariant = { λ r. IsKept r.modules.entries r.taken.items };
}

// Whether a module is removed along with others: it has the name, or imports a removed module.
fn goes(definition: &Registered, gone: &NameSet, name: &str) -> bool
    ensures { let of = definition_of definition.now in
        let imports_one = list_any (λ u. contains_text gone.now u.import.import) of.imports in
        result ≡ (bytes_eq of.name name.now || imports_one) }
{
    if definition.name.as_str() == name {
        return true;
    }
    if gone.is_empty() {
        return false;
    }
    for import in &definition.all_imports {
        if gone.contains(import.definition().import.as_str()) {
            return true;
        }
    }
    false
}

// The smallest index that isn't marked.
fn first_free(marks: &[bool]) -> Option<usize>
    ensures { (ds : List Registered) → 0 < length marks.now → AreMarks marks.now ds →
        result ≡ free_index ds }
{
    marks.iter().position(|is_taken| !*is_taken)
}

// Marks the index of a module, if there is a mark for it.
fn mark(taken: &mut Vec<bool>, of: &Registered)
    ensures { MarksMore taken.old.items (definition_of of.now) taken.new.items }
{
    if of.module_index < taken.len() {
        taken[of.module_index] = true;
    }
}

// Removes the modules with some names.
fn take_out(modules: &mut IndexMap<String, Registered>, gone: &NameSet)
    ensures entries { let stays = filter (λ e. not (contains_text gone.now (string_bytes e.0))) in
        modules.new.entries ≡ stays modules.old.entries }
    ensures room { KeepsRoom modules.old modules.new }
{
    if gone.is_empty() {
        return;
    }
    modules.retain(
        |name: &String, definition: &mut Registered| -> bool
            ensures { let stays = not (contains_text gone.entry.now (string_bytes name.now)) in
                (result ≡ stays) × (definition.new ≡ definition.old) }
        { !gone.contains(name.as_str()) },
    );
}

// Removing modules invalidates the marks, so they are cleared.
fn unmark(taken: &mut Vec<bool>, gone: &NameSet)
    ensures { (ds : List Registered) → AreMarks taken.old.items ds →
        AreMarks taken.new.items (standing (contains_text gone.now) ds) }
{
    if gone.is_empty() {
        return;
    }
    taken.clear();
}

impl Registry {
    /// An empty registry.
    pub fn new(alloc: Global) -> Registry
        ensures { result ≡ [] }
    {
        Registry {
            alloc,
            modules: IndexMap::new(alloc),
            taken: Vec::new(alloc),
        }
    }

    /// The number of modules.
    pub fn len(&self) -> usize
        ensures { result ≡ length self.now }
    {
        self.modules.len()
    }

    // The place of the module with a name, counted from the newest.
    fn place(&self, name: &str) -> Option<usize>
        ensures none { IfNone result (registered name.now self.now ≡ false) }
        ensures some { IfSome result (IsOnly (λ d. bytes_eq d.name name.now) self.now) }
        ensures small { IfSome result (λ place. place < 2 ^ 63) }
    {
        let older = self.modules.get_index_of(name)?;
        Some(self.modules.len() - 1 - older)
    }

    // The module at a place, counted from the newest.
    fn at(&self, place: usize) -> &Registered
        requires { place < length self.now }
        ensures { slice_get self.now place ≡ Some (definition_of result.now) }
    {
        &self.modules[self.modules.len() - 1 - place]
    }

    /// The module with a name.
    pub fn get(&self, name: &str) -> Option<&Registered>
        ensures { option_map (λ d. definition_of d.now) result ≡ module_named name.now self.now }
    {
        let place = self.place(name)?;
        Some(self.at(place))
    }

    /// The module with a name, and its place counted from the newest, if that is `from` or later.
    pub fn following(&self, name: &str, from: usize) -> Option<(usize, &Registered)>
        ensures none { IfNone result (place_named name.now (drop from self.now) ≡ None) }
        ensures place { let ahead = place_named name.now (drop from self.now) in
            IfSome result (λ r. (from ≤ r.0) × (ahead ≡ Some (r.0 - from))) }
        ensures some { IfSome result (λ r. slice_get self.now r.0 ≡ Some (definition_of r.1.now)) }
    {
        let place = self.place(name)?;
        if place < from {
            return None;
        }
        Some((place, self.at(place)))
    }

    /// The module with an index.
    pub fn at_index(&self, index: usize) -> Option<&Registered>
        ensures { option_map (λ d. definition_of d.now) result ≡ module_indexed index self.now }
    {
        let mut place = 0;
        while place < self.len() {
            let definition = self.at(place);
            if definition.module_index == index {
                return Some(definition);
            }
            place += 1;
        }
        None
    }

    /// The module that was added last.
    pub fn newest(&self) -> Option<&Registered>
        ensures { option_map (λ d. definition_of d.now) result ≡ slice_get self.now 0 }
    {
        if self.len() == 0 {
            return None;
        }
        Some(self.at(0))
    }

    /// The names of the modules that are removed with a module: its own, and those of all modules
    /// that reach it by imports. If the module isn't registered, there are none.
    pub(crate) fn gone_with(&self, name: &str) -> AllocResult<NameSet>
        requires { IsRegistry self.now }
        ensures { IfOk result (λ gone. (other : List ℕ) →
            contains_text gone other ≡ reaches self.now other name.now) }
    {
        let mut gone = BTreeSet::new(self.alloc);
        let Some(first) = self.place(name) else {
            return Ok(gone);
        };
        let mut at = first + 1;
        while at > 0 {
            at -= 1;
            let definition = self.at(at);
            if goes(definition, &gone, name) {
                gone.insert(definition.name.clone()?)?;
            }
        }
        Ok(gone)
    }

    /// The module with a name, unless it is among the removed ones.
    pub(crate) fn standing(&self, gone: &NameSet, name: &str) -> Option<&Registered>
        ensures { let left = standing (contains_text gone.now) self.now in
            option_map (λ d. definition_of d.now) result ≡ module_named name.now left }
    {
        if gone.contains(name) {
            return None;
        }
        self.get(name)
    }

    // Marks of the indices below `end` that the modules which stay have; index 0 is marked too.
    fn taken_indices(&self, gone: &NameSet, end: usize) -> AllocResult<Vec<bool>>
        requires { 0 < end }
        ensures len { IfOk result (λ marks. length marks.items ≡ end) }
        ensures marks { let taken = taken (standing (contains_text gone.now) self.now) in
            IfOk result (λ marks. (index : ℕ) → index < end →
            slice_index_or marks.items index false ≡ (index == 0 || taken index)) }
    {
        let mut taken = vec![in self.alloc; false; end]?;
        taken[0] = true;
        let mut place = 0;
        while place < self.len() {
            let definition = self.at(place);
            if !gone.contains(definition.name.as_str()) {
                mark(&mut taken, definition);
            }
            place += 1;
        }
        Ok(taken)
    }

    /// The smallest index from 1 to 2047 that is free once the modules in `gone` are removed.
    pub(crate) fn free_index(&mut self, gone: &NameSet) -> AllocResult<Option<usize>>
        ensures index { let left = standing (contains_text gone.now) self.old in
            IfOk result (λ index. index ≡ free_index left) }
        ensures same { self.new ≡ self.old }
    {
        if !gone.is_empty() {
            let taken = self.taken_indices(gone, INDEX_COUNT)?;
            return Ok(first_free(taken.as_slice()));
        }
        if self.taken.is_empty() {
            self.taken = self.taken_indices(gone, INDEX_COUNT)?;
        }
        Ok(first_free(self.taken.as_slice()))
    }

    /// Enters a module as the newest, in place of the modules in `gone`.
    pub(crate) fn enter(&mut self, gone: &NameSet, of: Registered) -> AllocResult
        requires { let left = standing (contains_text gone.now) self.old in
            registered (definition_of of).name left ≡ false }
        ensures ok { let left = standing (contains_text gone.now) self.old in
            OnOk result (self.new ≡ definition_of of ∷ left) }
        ensures err { OnErr result (self.new ≡ self.old) }
    {
        let name = of.name.clone()?;
        self.modules.reserve(1)?;
        take_out(&mut self.modules, gone);
        unmark(&mut self.taken, gone);
        mark(&mut self.taken, &of);
        self.modules.insert(name, of)?;
        Ok(())
    }

    /// Removes a module and all modules that reach it by imports. Returns the names of the removed
    /// modules.
    pub fn remove(&mut self, name: &str) -> AllocResult<NameSet>
        requires { IsRegistry self.old }
        ensures ok { OnOk result (self.new ≡ removed name.now self.old) }
        ensures gone { IfOk result (λ gone. (other : List ℕ) →
            contains_text gone other ≡ reaches self.old other name.now) }
        ensures err { OnErr result (self.new ≡ self.old) }
    {
        let gone = self.gone_with(name)?;
        take_out(&mut self.modules, &gone);
        unmark(&mut self.taken, &gone);
        Ok(gone)
    }
}
