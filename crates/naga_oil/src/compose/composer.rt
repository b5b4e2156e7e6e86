//! The composer: its state and its public calls.
ghost use Rattle.std.specs.Prelude.{◌≡◌, ◌<◌, length, slice_get, Some, [], true, false, option_map, string_bytes, IfOk, IsOk, OnOk, MatchResult};
ghost use Rattle.std.specs.Borrow.{sem};
ghost use Rattle.std.specs.Io.BufRead.{Rests};
ghost use Rattle.naga_oil_registry.specs.Registered.{definition_of, defs_of};

use super::error::refused;
use super::make::Maker;
use super::store::{Store, forget, has_projection};
use super::*;
use naga_oil_registry::adding::{describe, register};
use naga_oil_registry::registry::Registry;
use naga_oil_registry::sanitize::read_source;
use std::marker::Model;

/// Registered modules, each under its name, and the front end that builds them.
#[derive(Drop)]
pub struct Composer<B: Backend> {
    alloc: Global,
    settings: Settings<B>,
    // The registered modules.
    modules: Registry,
    // The number of the next automatic binding.
    counter: u32,
    // The builds that are kept between makes, and the number of builds ever kept.
    store: Store,
    count: u64,
}

impl<B: Backend> Model for Composer<B> {
    ghost use Rattle.naga_oil.specs.State.{State};
    ghost use Rattle.naga_oil_registry.specs.Registry.{IsRegistry};
    ghost use Rattle.naga_oil_build.specs.BuildView.{settings_with};
    ghost use Rattle.naga_oil.specs.StoreLaw.{IsStore};
    ghost use Rattle.naga_oil.specs.StoreView.{kept_of};

    ghost Value = { State B };

    ghost view = { λ c. record {
      settings = c.settings;
      registry = c.modules;
      counter = c.counter;
      kept = kept_of c.store;
      builds = c.count;
    } };

    ghost invariant = { λ c. IsRegistry c.modules ×
        IsStore (settings_with B.front c.settings) c.modules (kept_of c.store) };
}

impl<B: Backend> Composer<B> {
    ghost use Rattle.naga_oil.specs.contracts.compose.composer.Composer.{the_row};
    ghost use Rattle.naga_oil_lines.specs.Decorate.{decorated_name};
    ghost use Rattle.naga_oil_build.specs.BuildView.{bare_settings};
    ghost use Rattle.naga_oil.specs.Addition.{addition};
    ghost use Rattle.naga_oil_registry.specs.Descriptor.{module_source, shader_source};
    ghost use Rattle.naga_oil.specs.Makes.{Makes, settings_of};
    ghost use Rattle.naga_oil.specs.Store.{is_kept_named};
    ghost use Rattle.naga_oil.specs.StoreLaw.{IsStore};
    ghost use Rattle.naga_oil.specs.Refused.{Answers};
    ghost use Rattle.naga_oil_registry.specs.Registry.{registered, module_named, module_indexed, IsRegistry, AreReachedNames};
    ghost use Rattle.naga_oil.specs.State.{nothing_registered, Adds, Removes};

    // A composer with no modules, no kept builds and the counter at 0.
    fn empty(alloc: Global, settings: Settings<B>) -> Self
        ensures { result ≡ nothing_registered settings }
    {
        Composer {
            alloc,
            settings,
            modules: Registry::new(alloc),
            counter: 0,
            store: Store::new(alloc),
            count: 0,
        }
    }

    /// Returns a composer with no modules, no capabilities and the binding counter at 0. It
    /// validates what it makes, and only virtual functions can be overridden.
    pub fn new(alloc: Global, front: B) -> Self
        ensures { result ≡ nothing_registered (bare_settings front true) }
    {
        Composer::empty(alloc, Settings::new(front, true))
    }

    /// Returns a composer as `new` does, but one that doesn't validate what it makes.
    pub fn non_validating(alloc: Global, front: B) -> Self
        ensures { result ≡ nothing_registered (bare_settings front false) }
    {
        Composer::empty(alloc, Settings::new(front, false))
    }

    /// Returns a composer with the same front end and settings but these capabilities, with no
    /// modules, no kept builds and the binding counter at 0.
    pub fn with_capabilities(self, capabilities: Capabilities) -> Self
        ensures { let settings = record self.settings { capabilities = capabilities } in
            result ≡ nothing_registered settings }
    {
        let mut settings = self.settings;
        settings.capabilities = capabilities;
        Composer::empty(self.alloc, settings)
    }

    /// Returns a composer with the same front end and settings, in which any imported function can
    /// be overridden (`allow`), or only virtual ones; with no modules, no kept builds and the
    /// binding counter at 0.
    pub fn with_override_any(self, allow: bool) -> Self
        ensures { let settings = record self.settings { override_any = allow } in
            result ≡ nothing_registered settings }
    {
        let mut settings = self.settings;
        settings.override_any = allow;
        Composer::empty(self.alloc, settings)
    }

    /// Returns the name that an item of a module has in a made shader; with no module, the item's
    /// own name.
    pub fn decorated_name(
        alloc: Global,
        module_name: Option<&str>,
        item: &str,
    ) -> AllocResult<String>
        ensures { let named = decorated_name (option_map (λ m. m.now) module_name.entry) in
            IfOk result (λ t. string_bytes t ≡ named item.now) }
    {
        decorated_name(alloc, module_name, item)
    }

    pub(crate) fn alloc(&self) -> Global {
        self.alloc
    }

    /// Whether made shaders are validated.
    pub fn validate(&self) -> bool
        ensures { result ≡ self.now.settings.validate }
    {
        self.settings.validate
    }

    /// The capabilities with which headers and made shaders are validated.
    pub fn capabilities(&self) -> Capabilities
        ensures { result ≡ self.now.settings.capabilities }
    {
        self.settings.capabilities
    }

    /// Whether any imported function can be overridden, and not only virtual ones.
    pub fn override_any(&self) -> bool
        ensures { result ≡ self.now.settings.override_any }
    {
        self.settings.override_any
    }

    /// The number that the next automatic binding gets.
    pub fn binding_counter(&self) -> u32
        ensures { result ≡ self.now.counter }
    {
        self.counter
    }

    /// Whether a module with this name is registered.
    pub fn contains_module(&self, module_name: &str) -> bool
        ensures { result ≡ registered module_name.now self.now.registry }
    {
        self.module(module_name).is_some()
    }

    /// Returns the module with this name, or `None`. The modules that each module imports are
    /// registered before it, and no two modules share a name or an index. The names of definitions
    /// on which its build may depend are those recorded by it and by all that it reaches by
    /// imports.
    pub fn module(&self, module_name: &str) -> Option<&ComposableModuleDefinition>
        ensures registry { IsRegistry self.now.registry }
        ensures effective { AreReachedNames self.now.registry }
        ensures value { let named = module_named module_name.now self.now.registry in
            option_map (λ d. definition_of d.now) result ≡ named }
    {
        self.modules.get(module_name)
    }

    /// Returns the module with this index, or `None`.
    pub fn module_at(&self, index: usize) -> Option<&ComposableModuleDefinition>
        ensures { let indexed = module_indexed index self.now.registry in
            option_map (λ d. definition_of d.now) result ≡ indexed }
    {
        self.modules.at_index(index)
    }

    /// The number of builds that makes have ever kept, also those of modules removed since.
    pub fn builds(&self) -> u64
        ensures { result ≡ self.now.builds }
    {
        self.count
    }

    /// Whether the build of a module under these definitions is kept: a make that reaches the
    /// module under them doesn't build it again. Each kept build is what building its module afresh
    /// gives, and the builds that it imports are kept too.
    pub fn has_build(&self, module_name: &str, shader_defs: &Defs) -> bool
        ensures kept { let s = settings_of B.front self.now in
            IsStore s self.now.registry self.now.kept }
        ensures value { let named = is_kept_named self.now.registry self.now.kept in
            result ≡ named module_name.now (defs_of shader_defs.now) }
    {
        let store = &self.store;
        let Some(of) = self.module(module_name) else {
            return false;
        };
        store.keys().any(|key| has_projection(of, shader_defs, key))
    }

    /// Removes a module and all that reach it by imports, and forgets their builds. If no module
    /// has the name, nothing changes and no memory is allocated.
    pub fn remove_composable_module(&mut self, module_name: &str) -> AllocResult
        ensures { Removes self.old module_name.now result self.new }
    {
        if !self.contains_module(module_name) {
            return Ok(());
        }
        let gone = self.modules.remove(module_name)?;
        forget(&mut self.store, &gone);
        Ok(())
    }

    /// Adds a module as `add_composable_module` does, and returns its index, which is from 1 to
    /// 2047. The composer stays free to use: the result borrows nothing from it.
    ///
    /// # Errors
    /// Those of `add_composable_module`.
    pub fn add_module(&mut self, desc: ComposableModuleDescriptor<'_>) -> ComposerResult<usize>
        ensures { Adds (λ i. i) (λ d. d.index) self.old (module_source desc.entry) result self.new }
    {
        let (alloc, path, source) = (self.alloc, desc.file_path, desc.source);
        let (text, counter) = match read_source(alloc, source, self.counter) {
            Ok(read) => read,
            Err(inner) => return Err(refused(alloc, inner, path, source, 0)),
        };
        self.counter = counter;
        let described = match describe(alloc, desc.as_name.as_ref(), text.as_str()) {
            Ok(described) => described,
            Err(inner) => return Err(refused(alloc, inner, path, source, 0)),
        };
        match register(alloc, &mut self.modules, desc, described) {
            Ok((index, gone)) => {
                forget(&mut self.store, &gone);
                Ok(index)
            }
            Err(inner) => Err(refused(alloc, inner, path, text.as_str(), 0)),
        }
    }

    /// Adds a module under the name that it is given, or else under its import path, and returns
    /// it. A module with that name, and all that reach that by imports, are removed.
    ///
    /// # Errors
    /// The first of these, in this order: a mark of a decoration in the text, no number left for an
    /// automatic binding, an error in the text, no name, an import that isn't registered then, no
    /// index left; or `Memory`. After an error only the counter differs, by exactly the automatic
    /// bindings that were read.
    pub fn add_composable_module(
        &mut self,
        desc: ComposableModuleDescriptor<'_>,
    ) -> Result<&ComposableModuleDefinition, ComposerError>
        ensures* state { let source = module_source desc.entry in
            let adds = Adds (λ d. definition_of d.now) (λ d. d) self.old source in
            sem 𝓛 (Rests (the_row B.row B.Backend) self.entry (adds result)) }
        ensures reply { let source = module_source desc.entry in
            let told = addition self.old.registry self.old.counter source in
            Answers (λ d. definition_of d.now) result told }
    {
        let added = self.add_module(desc);
        self.newest(added)
    }

    /// Makes one shader out of a text and the registered modules that it imports, and returns it.
    /// The text is read under the given definitions and its own, and a second time under those of
    /// the modules that it imports too. Each module that it reaches is built once, after the
    /// modules that it imports itself, unless its build is kept. The shader is built over these,
    /// linked, and validated if the composer validates.
    ///
    /// However many functions override one, each of these calls the one before it, the first one
    /// calls the overridden function, and all other callers call the last, if none of these is
    /// itself overridden and the overridden function overrides none. No function overrides two.
    ///
    /// # Errors
    /// The first of these, in this order: a mark of a decoration in the text, no number left for an
    /// automatic binding, an error in the text, an import that isn't registered, definitions that
    /// differ, an error in an imported module, in the text as it is built, in what overrides
    /// functions, in the whole; or `Memory`. With or without an error, only the counter and the kept
    /// builds change, and no kept build is lost.
    pub fn make_naga_module(&mut self, desc: NagaModuleDescriptor<'_>) -> ComposerResult<Module>
        ensures { Makes B.front self.old (shader_source desc.entry) result self.new }
    {
        let alloc = self.alloc;
        let (text, next) = match read_source(alloc, desc.source, self.counter) {
            Ok(found) => found,
            Err(inner) => return Err(refused(alloc, inner, desc.file_path, desc.source, 0)),
        };
        self.counter = next;
        let builder = Builder {
            alloc,
            settings: &self.settings,
            builds: Builds::new(alloc),
        };
        let before = self.store.len();
        let mut maker = Maker {
            builder,
            defs: Defs::new(alloc),
            modules: &self.modules,
            store: mem::replace(&mut self.store, Store::new(alloc)),
        };
        let made = maker.make(desc, text.as_str());
        self.store = maker.store;
        let more = self.store.len().saturating_sub(before);
        self.count = self.count.saturating_add(more as u64);
        made
    }

    // The module that was added last, or the error of the addition.
    fn newest(&self, added: ComposerResult<usize>) -> ComposerResult<&Registered>
        requires { OnOk added (0 < length self.now.registry) }
        ensures { let newest = slice_get self.now.registry 0 in
            MatchResult
            result
            (λ d. IsOk added × (newest ≡ Some (definition_of d.now)))
            (λ e. added ≡ Err e) }
    {
        match added {
            Ok(_) => Ok(self.modules.newest().unwrap()),
            Err(error) => Err(error),
        }
    }
}
