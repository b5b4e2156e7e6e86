//! One module linked of builds: the requested items of each, after what that build imports.
ghost use Rattle.std.specs.Prelude.{◌≡◌, [], IfOk, OnOk, fold, map, slice_get};
ghost use Rattle.naga_oil_ir.specs.ModuleValue.{module_value};
ghost use Rattle.naga_oil_derive.specs.Derived.{nothing};
ghost use Rattle.naga_oil_form_laws.specs.EntryForm.{IsModuleFormed};
ghost use Rattle.naga_oil_words.specs.Texts.{with_name, in_order, texts};
ghost use Rattle.naga_oil_imports.specs.Uses.{import_of};
ghost use Rattle.naga_oil_link.specs.BuiltModule.{built_of, builds_of};
ghost use Rattle.naga_oil_link.specs.ByName.{HasItems};
ghost use Rattle.naga_oil_link.specs.CopiedBuild.{AreAmong};
ghost use Rattle.naga_oil_link.specs.CopySources.{CopiesFrom};
ghost use Rattle.naga_oil_link.specs.Linked.{asked_names, asked_of, overriding_names, link_places, link_functions, link_source, link_items, link_header, link_whole};
ghost use Rattle.naga_oil_link.specs.LinkView.{IsLinkFormed, link_own_function, LinksImports};
ghost use Rattle.naga_oil_link.specs.OwnPlaces.{own_of};

use super::by_name::{Asked, AskedItems, Listed, NamedItems, add_named, wanted};
use super::copied::{has_name_next, import_item};
use super::*;
use naga_oil_imports::ImportDefinition as Import;

/// Builds by their names, each after those that it imports. A build may be shared.
pub type Builds = IndexMap<String, Arc<Build>>;

// Adds names.
fn add_names(names: &mut NameSet, others: &[String]) -> AllocResult
    ensures { let more = texts others.now in
        OnOk result (texts names.new.keys ≡ fold with_name (texts names.old.keys) more) }
{
    for name in others {
        names.insert(name.clone()?)?;
    }
    Ok(())
}

// The names of the functions that override others.
fn overriding(alloc: Global, of: &Build) -> AllocResult<NameSet>
    ensures { let overriding = overriding_names (built_of of.now) in
        IfOk result (λ names. texts names.keys ≡ in_order overriding) }
{
    let mut names = NameSet::new(alloc);
    for others in of.override_functions.values() {
        add_names(&mut names, others)?;
    }
    Ok(names)
}

// Links the function at a place, if the build owns it, unless a function with its name was linked.
// The next of the owned names is likely the function's.
fn link_function<'b>(
    into: &mut DerivedModule<'b>,
    of: &Build,
    source: &'b Module,
    at: usize,
    next: &mut NamesIter<'_>,
) -> AllocResult
    requires copies { CopiesFrom source.now into.old }
    requires among { AreAmong (texts of.now.owned_functions.keys) (texts next.old) }
    ensures among { AreAmong (texts of.now.owned_functions.keys) (texts next.new) }
    ensures source { CopiesFrom source.now into.new }
    ensures value { let function = slice_get (module_value source.now).functions at in
        OnOk result (into.new ≡ link_own_function (built_of of.now) into.old function) }
{
    let Some(item) = source.functions.as_slice().get(at) else {
        return Ok(());
    };
    if !has_name_next(&item.0, &of.owned_functions, next) {
        return Ok(());
    }
    into.import_function_if_new(&item.0, item.1)?;
    Ok(())
}

// A source to link: a build, a module of it, that module's items by their names, and which of them
// are its own.
#[derive(Clone, Copy)]
struct Linked<'b, 'n> {
    of: &'b Build,
    from: &'b Module,
    by: &'n NamedItems,
    own: &'b OwnItems,
}

// A module that is linked of builds, of their headers or of the whole of each.
#[derive(Drop)]
struct Linker<'b> {
    alloc: Global,
    builds: &'b Builds,
    of_headers: bool,
    derived: DerivedModule<'b>,
    // The places of the builds whose imports were linked.
    descended: BTreeSet<usize>,
}

// The likely number of functions in the header of imports: the sum over the texts that their builds
// were parsed from, but at most twice the largest, since builds may import the same modules.
fn likely_functions(builds: &Builds, imports: &[Import]) -> usize {
    let mut most = 0usize;
    let mut all = 0usize;
    for import in imports {
        if let Some(build) = builds.get(import.import.as_str()) {
            most = most.max(build.text_functions);
            all = all.saturating_add(build.text_functions);
        }
    }
    all.min(most.saturating_mul(2))
}

impl<'b> Linker<'b> {
    // Nothing is linked yet. The capacity is for `functions` functions.
    fn new(
        alloc: Global,
        builds: &'b Builds,
        of_headers: bool,
        functions: usize,
    ) -> AllocResult<Linker<'b>>
        ensures given { IfOk result (λ l. (l.builds ≡ builds.entry) × (l.of_headers ≡ of_headers)) }
        ensures linked { IfOk result (λ l. (l.derived ≡ nothing) × (l.descended.keys ≡ [])) }
    {
        let derived = DerivedModule::with_functions(alloc, functions)?;
        let descended = BTreeSet::new(alloc);
        #[rattlefmt::skip]
        Ok(Linker { alloc, builds, of_headers, derived, descended })
    }

    // Links the requested types, constants, overrides and globals of a build.
    fn link_places(&mut self, of: Linked<'b, '_>, asked: Asked) -> AllocResult
        requires items { HasItems (module_value of.from.now) of.by.now }
        requires source { CopiesFrom of.from.now self.old.derived }
        ensures source { CopiesFrom of.entry.from.now self.new.derived }
        ensures value { let own = own_of of.entry.own.now in
            let link = link_places own (module_value of.entry.from.now) (asked_names asked.entry) in
            OnOk result (self.new.derived ≡ link self.old.derived) }
        ensures rest { self.new ≡ record self.old { derived = self.new.derived } }
    {
        let listed = Listed::Items(of.from, &of.by.places);
        let places = wanted(self.alloc, &of.by.by_name, listed, asked)?;
        for at in places.iter() {
            let Some(place) = of.by.places.get(*at) else {
                continue;
            };
            if !of.own.contains(*place) {
                continue;
            }
            import_item(&mut self.derived, *place)?;
        }
        Ok(())
    }

    // Links the requested functions of a build, and all that override others.
    fn link_functions(&mut self, of: Linked<'b, '_>, asked: Asked) -> AllocResult
        requires items { HasItems (module_value of.from.now) of.by.now }
        requires source { CopiesFrom of.from.now self.old.derived }
        ensures value { let b = built_of of.entry.of.now in
            let link = link_functions b (module_value of.entry.from.now) in
            OnOk result (self.new.derived ≡ link (asked_names asked.entry) self.old.derived) }
        ensures rest { self.new ≡ record self.old { derived = self.new.derived } }
    {
        let overriding = overriding(self.alloc, of.of)?;
        let listed = Listed::Functions(of.from);
        let mut places = wanted(self.alloc, &of.by.functions, listed, asked)?;
        add_named(&mut places, &of.by.functions, listed, &overriding)?;
        let mut next = of.of.owned_functions.iter();
        for at in places.iter() {
            link_function(&mut self.derived, of.of, of.from, *at, &mut next)?;
        }
        Ok(())
    }

    // Links the requested items of a module of a build.
    fn link_source(&mut self, of: Linked<'b, '_>, asked: Asked) -> AllocResult
        requires form { IsModuleFormed (module_value of.from.now) }
        requires items { HasItems (module_value of.from.now) of.by.now }
        requires formed { IsLinkFormed self.old.derived }
        ensures value { let b = built_of of.entry.of.now in
            let own = own_of of.entry.own.now in
            let link = link_source b own (module_value of.entry.from.now) in
            OnOk result (self.new.derived ≡ link (asked_names asked.entry) self.old.derived) }
        ensures formed { OnOk result (IsLinkFormed self.new.derived) }
        ensures rest { self.new ≡ record self.old { derived = self.new.derived } }
    {
        let shift = of.of.index * (1 << SPAN_SHIFT);
        self.derived.set_shader_source(of.from, shift)?;
        self.link_places(of, asked)?;
        self.link_functions(of, asked)?;
        self.derived.clear_shader_source();
        Ok(())
    }

    // Links the requested items of a build; `None` requests all that it owns.
    fn link_items(&mut self, of: &'b Build, asked: Asked<'_>) -> AllocResult
        requires { IsLinkFormed self.old.derived }
        ensures value { let link = link_items self.old.of_headers (built_of of.now) in
            OnOk result (self.new.derived ≡ link (asked_names asked.entry) self.old.derived) }
        ensures formed { OnOk result (IsLinkFormed self.new.derived) }
        ensures rest { self.new ≡ record self.old { derived = self.new.derived } }
    {
        if self.of_headers {
            let (from, by) = of.header_ir.named();
            let own = &of.own_in_header;
            return self.link_source(Linked { of, from, by, own }, asked);
        }
        let from = of.module_ir.get();
        let by = &NamedItems::new(self.alloc, from)?;
        let own = &of.own_in_module;
        self.link_source(Linked { of, from, by, own }, asked)
    }

    // Links what an import requests from a build.
    fn link_asked(&mut self, import: &Import, build: &'b Build) -> AllocResult
        requires { IsLinkFormed self.old.derived }
        ensures value { let b = built_of build.now in
            let link = link_items self.old.of_headers b (asked_of (import_of import.now) b) in
            OnOk result (self.new.derived ≡ link self.old.derived) }
        ensures formed { OnOk result (IsLinkFormed self.new.derived) }
        ensures rest { self.new ≡ record self.old { derived = self.new.derived } }
    {
        let asked = AskedItems {
            items: &import.items,
            decoration: build.decorated_name.as_str(),
        };
        self.link_items(build, Some(asked))
    }

    // Links what imports request from the builds before a place. The imports of a build are linked
    // once, before its items.
    fn link_imports(&mut self, imports: &[Import], end: usize) -> AllocResult
        requires { IsLinkFormed self.old.derived }
        ensures value { let builds = builds_of self.old.builds.now in
            let links = LinksImports self.old.of_headers builds end (map import_of imports.now) in
            OnOk result (links self.old.derived self.old.descended.keys
            self.new.derived self.new.descended.keys) }
        ensures formed { OnOk result (IsLinkFormed self.new.derived) }
        ensures rest { (self.new.builds ≡ self.old.builds)
            × (self.new.of_headers ≡ self.old.of_headers) }
    {
        // With the length it is known that the names of builds are distinct.
        let _unique = self.builds.len();
        for import in imports {
            let Some((place, _, build)) = self.builds.get_full(import.import.as_str()) else {
                continue;
            };
            if end <= place {
                continue;
            }
            if self.descended.insert(place)? {
                self.link_imports(&build.imports, place)?;
            }
            self.link_asked(import, build)?;
        }
        Ok(())
    }
}

/// The header of imports: what they request from the headers of their builds, each after what its
/// build imports. The header is of good form.
pub fn link_header(alloc: Global, builds: &Builds, imports: &[Import]) -> AllocResult<Module>
    ensures form { IfOk result (λ header. IsModuleFormed (module_value header)) }
    ensures value { let made = link_header (builds_of builds.now) (map import_of imports.now) in
        IfOk result (λ header. module_value header ≡ made) }
{
    let likely = likely_functions(builds, imports);
    let mut linker = Linker::new(alloc, builds, true, likely)?;
    linker.link_imports(imports, builds.len())?;
    Ok(Module::from(linker.derived))
}

/// The whole of a build: all that it owns, after what it imports, with its entry points. The whole
/// is of good form.
pub fn link_whole<'b>(alloc: Global, builds: &'b Builds, of: &'b Build) -> AllocResult<Module>
    ensures form { IfOk result (λ whole. IsModuleFormed (module_value whole)) }
    ensures value { let made = link_whole (builds_of builds.now) (built_of of.now) in
        IfOk result (λ whole. module_value whole ≡ made) }
{
    let mut linker = Linker::new(alloc, builds, false, of.text_functions)?;
    linker.link_imports(&of.imports, builds.len())?;
    linker.link_items(of, None)?;
    let Linker { mut derived, .. } = linker;
    derived.set_shader_source(of.module_ir.get(), 0)?;
    derived.into_module_with_entrypoints()
}
