//! Copies functions into the module.
ghost use Rattle.std.specs.Prelude.{◌≡◌, [], Some, IfOk, OnOk};
ghost use Rattle.std.specs.Cow.{cow_str_bytes};
ghost use Rattle.naga_oil_ir.specs.ModuleValue.{function_value};
ghost use Rattle.naga_oil_derive.specs.DerivedValue.{import_function, import_function_if_new, answer_requests, call_function, localize_function};
ghost use Rattle.naga_oil_derive.specs.DerivedFunctions.{having, meant, CanCopy, CanImport, CanCall, KeepsFunctions, MeansAt, requests_of};

use super::*;
use std::borrow::CowStr;

/// Takes the functions out of a module.
fn take<'n>(target: &mut Module, names: &mut FunctionNames<'n>, alloc: Global) -> Functions<'n>
    ensures taken { (result.copies ≡ target.old.functions) × (result.names ≡ names.old) }
    ensures left { target.new ≡ having target.old [] }
{
    Functions {
        copies: mem::replace(&mut target.functions, Arena::new(alloc)),
        names: mem::replace(names, IndexMap::new(alloc)),
    }
}

/// Puts functions into a module.
fn put<'n>(functions: Functions<'n>, target: &mut Module, names: &mut FunctionNames<'n>)
    ensures target { target.new ≡ having target.old functions.entry.copies }
    ensures names { names.new ≡ functions.entry.names }
{
    let Functions {
        copies,
        names: known,
    } = functions;
    target.functions = copies;
    let _before = mem::replace(names, known);
}

impl<'a> DerivedModule<'a> {
    /// Returns a copy of a function over the handles of the source. The items that the function names are copied first, as are
    /// the functions that it calls whose names aren't known.
    pub fn localize_function(&mut self, func: &Function) -> AllocResult<Function>
        requires { CanCopy self.old (function_value func.now) }
        ensures keeps { KeepsFunctions self.old self.new }
        ensures value { let asked = requests_of (function_value func.now) in
            let made = answer_requests self.old asked in
            OnOk result (self.new ≡ made) }
        ensures copy { let v = function_value func.now in
            let copy = localize_function self.new.source self.new.function_names v in
            IfOk result (λ f. function_value f ≡ copy) }
    {
        let source = self.shader.unwrap();
        let depth = source.functions.len();
        let copying = &mut self.copying;
        let mut taken = take(&mut copying.target, &mut self.function_names, copying.alloc);
        let copy = import::localize(source, func, depth, copying, &mut taken);
        put(taken, &mut copying.target, &mut self.function_names);
        copy
    }

    /// Appends a copy of a function with this name.
    fn put_function(
        &mut self,
        func: &Function,
        name: CowStr<'a>,
        span: Span,
    ) -> HandleResult<Function>
        requires function { CanImport self.old (function_value func.now) }
        requires name { (function_value func.now).name ≡ Some (cow_str_bytes name) }
        ensures keeps { KeepsFunctions self.old self.new }
        ensures value { let made = import_function self.old (function_value func.now) span in
            OnOk result (self.new ≡ made) }
        ensures means { let v = function_value func.now in
            let meaning = meant self.new.function_names v.name in
            IfOk result (λ h. meaning ≡ Some h) }
    {
        let source = self.shader.unwrap();
        let depth = source.functions.len();
        let copying = &mut self.copying;
        let mut taken = take(&mut copying.target, &mut self.function_names, copying.alloc);
        let handle = import::import(source, func, name, span, depth, copying, &mut taken);
        put(taken, &mut copying.target, &mut self.function_names);
        handle
    }

    /// Appends a copy of a function, after what it names, even if the function's name is known; the name then means the copy.
    pub fn import_function(&mut self, func: &Function, span: Span) -> HandleResult<Function>
        requires { CanImport self.old (function_value func.now) }
        ensures keeps { KeepsFunctions self.old self.new }
        ensures value { let made = import_function self.old (function_value func.now) span in
            OnOk result (self.new ≡ made) }
        ensures means { let v = function_value func.now in
            let meaning = meant self.new.function_names v.name in
            IfOk result (λ h. meaning ≡ Some h) }
    {
        let name = func.name.as_ref().unwrap().clone()?;
        self.put_function(func, CowStr::Owned(name), span)
    }

    /// Returns the function that `func`'s name means; `func` is copied if its name isn't known. The name is borrowed from
    /// `func`, which lives as long as the sources.
    pub fn import_function_if_new(
        &mut self,
        func: &'a Function,
        span: Span,
    ) -> HandleResult<Function>
        requires { CanImport self.old (function_value func.now) }
        ensures keeps { KeepsFunctions self.old self.new }
        ensures value { let made = import_function_if_new self.old (function_value func.now) span in
            OnOk result (self.new ≡ made) }
        ensures means { let v = function_value func.now in
            let meaning = meant self.new.function_names v.name in
            IfOk result (λ h. meaning ≡ Some h) }
    {
        match known_as(&self.function_names, &func.name) {
            Some(known) => Ok(known),
            None => {
                let name = func.name.as_ref().unwrap().as_str();
                self.put_function(func, CowStr::Borrowed(name), span)
            }
        }
    }

    /// Returns the function that a source function's name means; the function is copied if its name isn't known.
    pub fn map_function_handle(&mut self, h_func: &Handle<Function>) -> HandleResult<Function>
        requires { CanCall self.old h_func.now }
        ensures means { IfOk result (MeansAt self.new h_func.now) }
        ensures keeps { KeepsFunctions self.old self.new }
        ensures value { OnOk result (self.new ≡ call_function self.old h_func.now) }
    {
        let source = self.shader.unwrap();
        let depth = source.functions.len();
        let copying = &mut self.copying;
        let mut taken = take(&mut copying.target, &mut self.function_names, copying.alloc);
        let handle = import::import_callee(source, *h_func, depth, copying, &mut taken);
        put(taken, &mut copying.target, &mut self.function_names);
        handle
    }
}
