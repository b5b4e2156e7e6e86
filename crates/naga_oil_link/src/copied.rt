//! The module that a build holds and its header, copied from the parsed module.
ghost use Rattle.std.specs.Prelude.{◌≡◌, [], true, false, All, IfOk, IsSome, OnOk, fold, map, option_map, string_bytes};
ghost use Rattle.naga_oil_form.specs.ItemForm.{IsThere};
ghost use Rattle.naga_oil_ir.specs.ModuleValue.{argument_value, function_value, module_value};
ghost use Rattle.naga_oil_derive.specs.CopiedEntry.{make_module};
ghost use Rattle.naga_oil_derive.specs.Derived.{HasItem, Keeps};
ghost use Rattle.naga_oil_derive.specs.DerivedEntries.{CanCopyEntries};
ghost use Rattle.naga_oil_derive.specs.DerivedValue.{import_item};
ghost use Rattle.naga_oil_form_laws.specs.EntryForm.{IsModuleFormed};
ghost use Rattle.naga_oil_words.specs.Texts.{texts};
ghost use Rattle.naga_oil_link.specs.BuiltModule.{built_of};
ghost use Rattle.naga_oil_link.specs.CopiedBuild.{copies_of, nothing_copied, decorated_type, went_to, import_own, copy_own, copy_other, copy_at, copy_places, with_function, with_stub, functions_among, with_stubs, with_functions, have_special, put_header, put_whole, copy_build, copies_special, has_name_among, EndWith, ending_of, AreAmong};
ghost use Rattle.naga_oil_link.specs.CopySources.{CopiesFrom, IsFunctionOf, stub_of, shown_function, shown_functions};
ghost use Rattle.naga_oil_link.specs.OwnPlaces.{own_of};
ghost use Rattle.naga_oil_link.specs.Places.{places_of, name_at};

use super::items::{name_at, named, places_of};
use super::*;
use naga_oil_derive::no_body;
use naga_oil_rename::copied_name;

/// Copies an item of the source. Returns the place of the copy.
pub fn import_item(into: &mut DerivedModule<'_>, place: ItemPlace) -> AllocResult<ItemPlace>
    requires { HasItem into.old place }
    ensures keeps { Keeps into.old into.new }
    ensures value { OnOk result (into.new ≡ import_item into.old place) }
    ensures place { IfOk result (λ p. p ≡ went_to into.new place) }
{
    match place {
        ItemPlace::TypeItem(handle) => into.import_type(&handle).map(ItemPlace::TypeItem),
        ItemPlace::ConstantItem(handle) => into.import_const(&handle).map(ItemPlace::ConstantItem),
        ItemPlace::OverrideItem(handle) => {
            into.import_pipeline_override(&handle)
                .map(ItemPlace::OverrideItem)
        }
        ItemPlace::GlobalItem(handle) => into.import_global(&handle).map(ItemPlace::GlobalItem),
        ItemPlace::ExpressionItem(handle) => {
            into.import_global_expression(handle)
                .map(ItemPlace::ExpressionItem)
        }
    }
}

/// Whether a function has one of these names. The next name is compared first: it is likely the
/// function's where functions are visited in the order of names.
pub fn has_name_next(function: &Function, names: &NameSet, next: &mut NamesIter<'_>) -> bool
    requires { AreAmong (texts names.now.keys) (texts next.old) }
    ensures next { AreAmong (texts names.now.keys) (texts next.new) }
    ensures told { let name = (function_value function.now).name in
        result ≡ has_name_among (texts names.now.keys) name }
{
    let Some(name) = named(&function.name) else {
        return false;
    };
    if let Some(guess) = next.next() {
        if guess.as_str() == name {
            return true;
        }
    }
    names.contains(name)
}

/// The decoration if all of these names end with it, or else the empty text.
pub fn ending_of<'a>(names: &NameSet, decoration: &'a str) -> &'a str
    ensures { result.now ≡ ending_of (texts names.now.keys) decoration.now }
{
    for name in names.iter() {
        if !name.as_str().as_bytes().ends_with(decoration.as_bytes()) {
            return "";
        }
    }
    decoration
}

/// Whether a function has one of these names, all of which end with `ending`. The ending rules out
/// most other functions.
pub fn has_name_ending(function: &Function, names: &NameSet, ending: &str) -> bool
    requires { EndWith (texts names.now.keys) ending.now }
    ensures { result ≡ has_name_among (texts names.now.keys) (function_value function.now).name }
{
    match named(&function.name) {
        Some(name) => name.as_bytes().ends_with(ending.as_bytes()) && names.contains(name),
        None => false,
    }
}

// The arguments of a function.
fn arguments_of(alloc: Global, arguments: &[FunctionArgument]) -> AllocResult<Vec<FunctionArgument>>
    ensures { let given = map argument_value arguments.now in
        IfOk result (λ copies. map argument_value copies.items ≡ given) }
{
    let mut copies = Vec::with_capacity(alloc, arguments.len())?;
    for argument in arguments {
        let name = copied_name(&argument.name)?;
        copies.push(FunctionArgument { name, ..*argument })?;
    }
    Ok(copies)
}

// A function with its name, arguments and result only.
fn stub(alloc: Global, function: &Function) -> AllocResult<Function>
    ensures { IfOk result (λ s. function_value s ≡ stub_of (function_value function.now)) }
{
    let name = copied_name(&function.name)?;
    let arguments = arguments_of(alloc, &function.arguments)?;
    let local_variables = Arena::new(alloc);
    let expressions = Arena::new(alloc);
    let named_expressions = NamedExpressions::new();
    let body = no_body(alloc);
    Ok(Function {
        name,
        arguments,
        result: function.result,
        local_variables,
        expressions,
        named_expressions,
        body,
        diagnostic_filter_leaf: None,
    })
}

// The decorated name of a type.
fn decorated_type(
    alloc: Global,
    of: &Module,
    place: ItemPlace,
    decoration: &str,
) -> AllocResult<Option<String>>
    ensures { let decorated = decorated_type (module_value of.now) decoration.now place in
        IfOk result (λ name. option_map string_bytes name ≡ decorated) }
{
    let Some(name) = name_at(of, place) else {
        return Ok(None);
    };
    Ok(Some(format!(in alloc; "{name}{decoration}")?))
}

// Copies an own item of the source, a type under its decorated name. Returns the place of the copy.
fn import_own(
    alloc: Global,
    source: &Module,
    decoration: &str,
    place: ItemPlace,
    into: &mut DerivedModule<'_>,
) -> AllocResult<ItemPlace>
    requires { HasItem into.old place }
    ensures keeps { Keeps into.old into.new }
    ensures value { let parsed = module_value source.now in
        OnOk result (into.new ≡ import_own parsed decoration.now into.old place) }
    ensures place { IfOk result (λ p. p ≡ went_to into.new place) }
{
    match place {
        ItemPlace::TypeItem(handle) => {
            let name = decorated_type(alloc, source, place, decoration)?;
            into.rename_type(&handle, name).map(ItemPlace::TypeItem)
        }
        _ => import_item(into, place),
    }
}

// The copies of items of a source, and the places of the copies of its own items.
#[derive(Drop)]
struct OwnCopies<'m> {
    derived: DerivedModule<'m>,
    own: OwnItems,
}

impl<'m> OwnCopies<'m> {
    // Only the special types of the source are copied.
    fn new(alloc: Global, source: &'m Module) -> AllocResult<OwnCopies<'m>>
        requires { IsModuleFormed (module_value source.now) }
        ensures source { IfOk result (λ c. CopiesFrom source.now c.derived) }
        ensures value { IfOk result (λ c. copies_of c ≡ nothing_copied (module_value source.now)) }
    {
        let mut derived = DerivedModule::new(alloc);
        derived.set_shader_source(source, 0)?;
        let own = OwnItems::new(alloc);
        Ok(OwnCopies { derived, own })
    }

    // Copies an own item.
    fn copy_own(
        &mut self,
        alloc: Global,
        source: &Module,
        decoration: &str,
        place: ItemPlace,
    ) -> AllocResult
        requires there { IsThere source.now place }
        requires source { CopiesFrom source.now self.old.derived }
        ensures source { CopiesFrom source.now self.new.derived }
        ensures value { let parsed = module_value source.now in
            let copied = copy_own parsed decoration.now (copies_of self.old) place in
            OnOk result (copies_of self.new ≡ copied) }
    {
        let went = import_own(alloc, source, decoration, place, &mut self.derived)?;
        self.own.insert(went)
    }

    // Copies an item that isn't own, if it is a type and all types are copied.
    fn copy_other(&mut self, source: &Module, place: ItemPlace, all_types: bool) -> AllocResult
        requires there { IsThere source.now place }
        requires source { CopiesFrom source.now self.old.derived }
        ensures source { CopiesFrom source.now self.new.derived }
        ensures value { let copied = copy_other all_types (copies_of self.old) place in
            OnOk result (copies_of self.new ≡ copied) }
    {
        match place {
            ItemPlace::TypeItem(_) if all_types => {
                import_item(&mut self.derived, place)?;
                Ok(())
            }
            _ => Ok(()),
        }
    }

    // Copies an own item; of the others only types, where all types are copied.
    fn copy_at(
        &mut self,
        alloc: Global,
        source: &Module,
        own: &OwnItems,
        decoration: &str,
        place: &ItemPlace,
        all_types: bool,
    ) -> AllocResult
        requires there { IsThere source.now place.now }
        requires source { CopiesFrom source.now self.old.derived }
        ensures source { CopiesFrom source.now self.new.derived }
        ensures value { let parsed = module_value source.now in
            let copy = copy_at all_types parsed (own_of own.now) decoration.now in
            OnOk result (copies_of self.new ≡ copy (copies_of self.old) place.now) }
    {
        if own.contains(*place) {
            self.copy_own(alloc, source, decoration, *place)
        } else {
            self.copy_other(source, *place, all_types)
        }
    }

    // Copies a function with the functions that it calls.
    fn copy_function(&mut self, source: &Module, item: &(Function, Span)) -> AllocResult
        requires function { IsFunctionOf source.now item.now }
        requires source { CopiesFrom source.now self.old.derived }
        ensures source { CopiesFrom source.now self.new.derived }
        ensures value { let copied = with_function self.old.derived (shown_function item.now) in
            OnOk result (self.new.derived ≡ copied) }
        ensures own { self.new.own ≡ self.old.own }
    {
        let (function, span) = item;
        self.derived.import_function(function, *span)?;
        Ok(())
    }

    // Copies some functions with the functions that they call.
    fn copy_functions(&mut self, source: &Module, functions: &[&(Function, Span)]) -> AllocResult
        requires functions { All (λ f. IsFunctionOf source.now f.now) functions.now }
        requires source { CopiesFrom source.now self.old.derived }
        ensures source { CopiesFrom source.now self.new.derived }
        ensures value { let functions = shown_functions functions.now in
            OnOk result (self.new.derived ≡ fold with_function self.old.derived functions) }
        ensures own { self.new.own ≡ self.old.own }
    {
        for item in functions {
            self.copy_function(source, item)?;
        }
        Ok(())
    }

    // Copies a function without its body.
    fn copy_stub(&mut self, alloc: Global, source: &Module, item: &(Function, Span)) -> AllocResult
        requires function { IsFunctionOf source.now item.now }
        requires source { CopiesFrom source.now self.old.derived }
        ensures source { CopiesFrom source.now self.new.derived }
        ensures value { let copied = with_stub self.old.derived (shown_function item.now) in
            OnOk result (self.new.derived ≡ copied) }
        ensures own { self.new.own ≡ self.old.own }
    {
        let (function, span) = item;
        let stub = stub(alloc, function)?;
        self.derived.import_function(&stub, *span)?;
        Ok(())
    }

    // Copies some functions without their bodies.
    fn copy_stubs(
        &mut self,
        alloc: Global,
        source: &Module,
        functions: &[&(Function, Span)],
    ) -> AllocResult
        requires functions { All (λ f. IsFunctionOf source.now f.now) functions.now }
        requires source { CopiesFrom source.now self.old.derived }
        ensures source { CopiesFrom source.now self.new.derived }
        ensures value { let functions = shown_functions functions.now in
            OnOk result (self.new.derived ≡ fold with_stub self.old.derived functions) }
        ensures own { self.new.own ≡ self.old.own }
    {
        for item in functions {
            self.copy_stub(alloc, source, item)?;
        }
        Ok(())
    }
}

// The functions of a source that have one of these names, which likely end with a decoration.
fn functions_among<'m>(
    alloc: Global,
    source: &'m Module,
    names: &NameSet,
    decoration: &str,
) -> AllocResult<Vec<&'m (Function, Span)>>
    ensures there { IfOk result (λ fs. All (λ f. IsFunctionOf source.now f.now) fs.items) }
    ensures functions { let functions = (module_value source.now).functions in
        let among = functions_among (texts names.now.keys) functions in
        IfOk result (λ fs. shown_functions fs.items ≡ among) }
{
    let ending = ending_of(names, decoration);
    let mut functions = Vec::new(alloc);
    for item in source.functions.as_slice() {
        if has_name_ending(&item.0, names, ending) {
            functions.push(item)?;
        }
    }
    Ok(functions)
}

// Copies of the own items of a source, and of all its types where `all_types` is set.
fn copy_places<'m>(
    alloc: Global,
    source: &'m Module,
    own: &OwnItems,
    decoration: &str,
    all_types: bool,
) -> AllocResult<OwnCopies<'m>>
    requires { IsModuleFormed (module_value source.now) }
    ensures source { IfOk result (λ c. CopiesFrom source.now c.derived) }
    ensures value { let parsed = module_value source.now in
        let copied = copy_places all_types parsed (own_of own.now) decoration.now in
        IfOk result (λ c. copies_of c ≡ copied) }
{
    let mut copies = OwnCopies::new(alloc, source)?;
    let places = places_of(alloc, source)?;
    for place in &places {
        copies.copy_at(alloc, source, own, decoration, place, all_types)?;
    }
    Ok(copies)
}

// Copies for the header: the own items, and some functions without their bodies.
fn copy_header<'m>(
    alloc: Global,
    source: &'m Module,
    own: &OwnItems,
    decoration: &str,
    functions: &[&(Function, Span)],
) -> AllocResult<OwnCopies<'m>>
    requires form { IsModuleFormed (module_value source.now) }
    requires functions { All (λ f. IsFunctionOf source.now f.now) functions.now }
    ensures { let copies = copy_places false (module_value source.now) (own_of own.now) in
        let copied = with_stubs (shown_functions functions.now) (copies decoration.now) in
        IfOk result (λ c. copies_of c ≡ copied) }
{
    let mut copies = copy_places(alloc, source, own, decoration, false)?;
    copies.copy_stubs(alloc, source, functions)?;
    Ok(copies)
}

// Copies for the module: all types, the own items, and some functions with those that they call.
fn copy_whole<'m>(
    alloc: Global,
    source: &'m Module,
    own: &OwnItems,
    decoration: &str,
    functions: &[&(Function, Span)],
) -> AllocResult<OwnCopies<'m>>
    requires form { IsModuleFormed (module_value source.now) }
    requires functions { All (λ f. IsFunctionOf source.now f.now) functions.now }
    ensures source { IfOk result (λ c. CopiesFrom source.now c.derived) }
    ensures value { let copies = copy_places true (module_value source.now) (own_of own.now) in
        let copied = with_functions (shown_functions functions.now) (copies decoration.now) in
        IfOk result (λ c. copies_of c ≡ copied) }
{
    let mut copies = copy_places(alloc, source, own, decoration, true)?;
    copies.copy_functions(source, functions)?;
    Ok(copies)
}

// Puts copies into a build as its header.
fn put_header(alloc: Global, header: OwnCopies<'_>, built: &mut Build) -> AllocResult
    requires { IsModuleFormed header.derived.target }
    ensures { let put = put_header (copies_of header.entry) (built_of built.old) in
        OnOk result (built_of built.new ≡ put) }
{
    built.header_ir = Header::new(alloc, Module::from(header.derived))?;
    built.own_in_header = header.own;
    Ok(())
}

// Puts copies into a build as its module, with the entry points of their source. Returns whether
// there are special types.
fn put_whole(alloc: Global, whole: OwnCopies<'_>, built: &mut Build) -> AllocResult<bool>
    requires set { IsSome whole.derived.source }
    requires entries { CanCopyEntries whole.derived }
    requires form { IsModuleFormed (make_module whole.derived) }
    ensures special { IfOk result (λ special. special ≡ have_special (copies_of whole.entry)) }
    ensures value { let put = put_whole (copies_of whole.entry) (built_of built.old) in
        OnOk result (built_of built.new ≡ put) }
{
    let has_special_types = whole.derived.has_required_special_types();
    let module_ = whole.derived.into_module_with_entrypoints()?;
    built.module_ir = FormedModule::new(alloc, module_);
    built.own_in_module = whole.own;
    Ok(has_special_types)
}

/// Copies a parsed module into a build: all types, its own other items and functions with what
/// these name and call, and its entry points. The names of own types are decorated. What the text
/// takes over from the header before it and doesn't call is left out. The build's header gets the
/// own items, functions without bodies. Returns whether there are special types.
pub fn copy_build(
    alloc: Global,
    source: &Module,
    own: &OwnItems,
    built: &mut Build,
) -> AllocResult<bool>
    requires { IsModuleFormed (module_value source.now) }
    ensures special { let b = built_of built.old in
        let of = copies_special (module_value source.now) (own_of own.now) in
        IfOk result (λ special. special ≡ of b.decoration b.functions) }
    ensures value { let b = built_of built.old in
        let copied = copy_build (module_value source.now) (own_of own.now) b in
        OnOk result (built_of built.new ≡ copied) }
{
    let decoration = built.decorated_name.as_str();
    let functions = functions_among(alloc, source, &built.owned_functions, decoration)?;
    let header = copy_header(alloc, source, own, decoration, &functions)?;
    let whole = copy_whole(alloc, source, own, decoration, &functions)?;
    put_header(alloc, header, built)?;
    put_whole(alloc, whole, built)
}
