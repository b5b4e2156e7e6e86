//! Modules that pass the test of form.
ghost use Rattle.std.specs.Prelude.{◌≡◌, [], IfOk};
ghost use Rattle.naga_oil_ir.specs.ModuleValue.{module_value, no_items};
ghost use Rattle.naga_oil_form_laws.specs.EntryForm.{IsModuleFormed};
ghost use Rattle.naga_oil_link.specs.ByName.{HasItems};

use super::by_name::NamedItems;
use super::*;
use std::marker::Model;

// Releases the room of an arena that its items don't need.
fn trim<T: Item + Drop>(alloc: Global, arena: &mut Arena<T>)
    ensures { arena.new ≡ arena.old }
{
    let mut items = mem::replace(arena, Arena::new(alloc)).into_items();
    items.shrink_to_fit();
    *arena = Arena::from_items(items);
}

// A module that has no more room than its items need.
fn trimmed(alloc: Global, module_: Module) -> Module
    ensures { result ≡ module_ }
{
    let mut module_ = module_;
    module_.types.shrink_to_fit();
    trim(alloc, &mut module_.constants);
    trim(alloc, &mut module_.overrides);
    trim(alloc, &mut module_.global_variables);
    trim(alloc, &mut module_.global_expressions);
    trim(alloc, &mut module_.functions);
    module_
}

/// A module that passes the test of form over the texts of all modules, one after another, but that
/// two of its special types may be one.
#[derive(Drop)]
pub struct FormedModule {
    module_: Module,
}

impl Model for FormedModule {
    ghost use Rattle.naga_oil_ir.specs.ModuleValue.{ModuleValue, module_value};
    ghost use Rattle.naga_oil_form_laws.specs.EntryForm.{IsModuleFormed};

    ghost Value = { ModuleValue };

    ghost view = { λ f. module_value f.module_ };

    ghost invariant = { λ f. IsModuleFormed (module_value f.module_) };
}

impl FormedModule {
    /// An empty module.
    pub fn nothing(alloc: Global) -> FormedModule
        ensures { result ≡ no_items }
    {
        let module_ = Module::new(alloc);
        FormedModule { module_ }
    }

    /// The module, with no more room than its items need.
    pub fn new(alloc: Global, module_: Module) -> FormedModule
        requires { IsModuleFormed (module_value module_) }
        ensures { result ≡ module_value module_ }
    {
        let module_ = trimmed(alloc, module_);
        FormedModule { module_ }
    }

    pub fn get(&self) -> &Module
        ensures form { IsModuleFormed (module_value result.now) }
        ensures value { module_value result.now ≡ self.now }
    {
        &self.module_
    }
}

/// A formed module, with its items by their names.
#[derive(Drop)]
pub struct Header {
    formed: FormedModule,
    items: NamedItems,
}

impl Model for Header {
    ghost use Rattle.naga_oil_ir.specs.ModuleValue.{ModuleValue};
    ghost use Rattle.naga_oil_link.specs.ByName.{HasItems};

    ghost Value = { ModuleValue };

    ghost view = { λ h. h.formed };

    ghost invariant = { λ h. HasItems h.formed h.items };
}

impl Header {
    /// An empty module.
    pub fn nothing(alloc: Global) -> Header
        ensures { result ≡ no_items }
    {
        let formed = FormedModule::nothing(alloc);
        let (places, by_name, functions) = (Vec::new(alloc), Vec::new(alloc), Vec::new(alloc));
        #[rattlefmt::skip]
        let items = NamedItems { places, by_name, functions };
        Header { formed, items }
    }

    /// The module, with no more room than its items need.
    pub fn new(alloc: Global, module_: Module) -> AllocResult<Header>
        requires { IsModuleFormed (module_value module_) }
        ensures { IfOk result (λ header. header ≡ module_value module_) }
    {
        let formed = FormedModule::new(alloc, module_);
        let items = NamedItems::new(alloc, formed.get())?;
        Ok(Header { formed, items })
    }

    /// The module, and its items by their names.
    pub fn named(&self) -> (&Module, &NamedItems)
        ensures form { IsModuleFormed (module_value result.0.now) }
        ensures value { module_value result.0.now ≡ self.now }
        ensures items { HasItems (module_value result.0.now) result.1.now }
    {
        (self.formed.get(), &self.items)
    }
}
