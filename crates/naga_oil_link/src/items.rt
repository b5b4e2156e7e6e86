//! The items of a parsed module: those whose names have no mark of a module are its own and get its
//! decoration.
ghost use Rattle.std.specs.Prelude.{◌≡◌, ◌≤◌, ◌++◌, ◌||◌, ℕ, All, IfOk, OnOk, fold, length, map, not, option_map, string_bytes};
ghost use Rattle.std.specs.List.{flat_map};
ghost use Rattle.naga_oil_form.specs.ItemForm.{IsThere};
ghost use Rattle.naga_oil_ir.specs.Spans.{u32_max};
ghost use Rattle.naga_oil_ir.specs.ModuleValue.{ModuleValue, argument_value, entry_value, function_value, module_value};
ghost use Rattle.naga_oil_ir.specs.Rows.{Row, constant_row, override_row, global_row};
ghost use Rattle.naga_oil_form.specs.WellFormed.{WellFormed};
ghost use Rattle.naga_oil_form_laws.specs.EntryForm.{IsModuleFormed};
ghost use Rattle.naga_oil_words.specs.Texts.{in_order, with_name, texts, is_among};
ghost use Rattle.naga_oil_words.specs.Marks.{has_module_mark, with_decoration};
ghost use Rattle.naga_oil_link.specs.BuiltModule.{built_of};
ghost use Rattle.naga_oil_link.specs.ByName.{places_where};
ghost use Rattle.naga_oil_link.specs.OwnPlaces.{own_of};
ghost use Rattle.naga_oil_link.specs.Owned.{rows_by, function_values, with_owned_name, with_owned, owned_row, owned_item, owned_function, item_names, function_texts, decorated_items, special_names, is_own_name, is_own_type, own_places, with_own_type, owning, with_text, name_or_main, unbound_argument, unbound_result, demoted_name, demoted_function, demoted, demotable, function_names, with_demoted, owning_demoted, owned_module, owned_build};
ghost use Rattle.naga_oil_link.specs.Places.{places_of, name_at};

use super::*;
use naga_oil_derive::special::special_entries;
use naga_oil_form_laws::parsed::well_formed_modules_are_formed;

/// A name, if there is one.
pub fn named(name: &Option<String>) -> Option<&str>
    ensures { option_map (λ n. n.now) result ≡ option_map string_bytes name.now }
{
    name.as_ref().map(|name| name.as_str())
}

/// The places of the types, constants, overrides and globals of a module, in this order.
pub fn places_of(alloc: Global, of: &Module) -> AllocResult<Vec<ItemPlace>>
    ensures there { IfOk result (λ places. All (IsThere of.now) places.items) }
    ensures places { IfOk result (λ places. places.items ≡ places_of (module_value of.now)) }
{
    let mut places = Vec::new(alloc);
    for at in 0..of.types.len() {
        places.push(ItemPlace::TypeItem(Index::new(at)))?;
    }
    for at in 0..of.constants.len() {
        places.push(ItemPlace::ConstantItem(Index::new(at)))?;
    }
    for at in 0..of.overrides.len() {
        places.push(ItemPlace::OverrideItem(Index::new(at)))?;
    }
    for at in 0..of.global_variables.len() {
        places.push(ItemPlace::GlobalItem(Index::new(at)))?;
    }
    Ok(places)
}

/// The name of the type, constant, override or global at a place.
pub fn name_at(of: &Module, place: ItemPlace) -> Option<&str>
    ensures { option_map (λ n. n.now) result ≡ name_at (module_value of.now) place }
{
    match place {
        ItemPlace::TypeItem(handle) => named(&of.types.get_handle(handle)?.name),
        ItemPlace::ConstantItem(handle) => named(&of.constants.try_get(handle)?.name),
        ItemPlace::OverrideItem(handle) => named(&of.overrides.try_get(handle)?.name),
        ItemPlace::GlobalItem(handle) => named(&of.global_variables.try_get(handle)?.name),
        ItemPlace::ExpressionItem(_) => None,
    }
}

// The names of the special types.
fn special_names(alloc: Global, of: &Module) -> AllocResult<NameSet>
    ensures { let special = special_names (module_value of.now) in
        IfOk result (λ names. texts names.keys ≡ in_order special) }
{
    let entries = special_entries(&of.special_types, alloc)?;
    let mut names = NameSet::new(alloc);
    for (_, handle) in &entries {
        note(alloc, &mut names, name_at(of, ItemPlace::TypeItem(*handle)))?;
    }
    Ok(names)
}

// Whether a type with this name isn't owned: the name has a mark, or is that of a special type.
fn is_kept(special: &NameSet, name: &str) -> bool
    ensures { result ≡ (is_among (texts special.now.keys) name.now || has_module_mark name.now) }
{
    special.contains(name) | has_module_mark(name)
}

// Notes the decorated name of a type if it is owned. Returns whether it is.
fn own_type(
    alloc: Global,
    ty: &Type,
    special: &NameSet,
    suffix: &str,
    owned: &mut NameSet,
) -> AllocResult<bool>
    ensures own { let name = option_map string_bytes ty.now.name in
        IfOk result (λ own. (m : ModuleValue) →
        texts special.now.keys ≡ in_order (special_names m) → own ≡ is_own_type m name) }
    ensures owned { let name = option_map string_bytes ty.now.name in
        OnOk result ((m : ModuleValue) → texts special.now.keys ≡ in_order (special_names m) →
        texts owned.new.keys ≡ with_own_type m suffix.now (texts owned.old.keys) name) }
{
    let Some(name) = named(&ty.name) else {
        return Ok(false);
    };
    if is_kept(special, name) {
        return Ok(false);
    }
    owned.insert(format!(in alloc; "{name}{suffix}")?)?;
    Ok(true)
}

// The places of the owned types; notes their decorated names.
fn own_types(alloc: Global, of: &Module, suffix: &str, owned: &mut NameSet) -> AllocResult<PlaceSet>
    ensures places { let m = module_value of.now in
        IfOk result (λ places. places.keys ≡ places_where (is_own_type m) (item_names m.types)) }
    ensures owned { let m = module_value of.now in
        let own = fold (with_own_type m suffix.now) (texts owned.old.keys) (item_names m.types) in
        OnOk result (texts owned.new.keys ≡ own) }
{
    let special = special_names(alloc, of)?;
    let mut places = PlaceSet::new(alloc);
    for (at, ty) in of.types.items().iter().enumerate() {
        if own_type(alloc, ty, &special, suffix, owned)? {
            places.insert(at)?;
        }
    }
    Ok(places)
}

// Decorates a name and notes it, if it is owned. Returns whether it is.
fn own_name(name: &mut String, suffix: &str, owned: &mut NameSet) -> AllocResult<bool>
    ensures own { IfOk result (λ own. own ≡ not (has_module_mark (string_bytes name.old))) }
    ensures name { let old = string_bytes name.old in
        OnOk result (string_bytes name.new ≡ with_decoration suffix.now old) }
    ensures owned { let old = string_bytes name.old in
        let own = with_owned_name suffix.now (texts owned.old.keys) old in
        OnOk result (texts owned.new.keys ≡ own) }
{
    let own = add_decoration(name, suffix)?;
    if own {
        owned.insert(name.clone()?)?;
    }
    Ok(own)
}

// Decorates a name and notes it, if there is one and it is owned. Returns whether it is.
fn own_text(name: &mut Option<String>, suffix: &str, owned: &mut NameSet) -> AllocResult<bool>
    ensures own { IfOk result (λ own. own ≡ is_own_name (option_map string_bytes name.old)) }
    ensures name { let old = option_map string_bytes name.old in
        let decorated = option_map (with_decoration suffix.now) old in
        OnOk result (option_map string_bytes name.new ≡ decorated) }
    ensures owned { let old = option_map string_bytes name.old in
        let own = with_owned suffix.now (texts owned.old.keys) old in
        OnOk result (texts owned.new.keys ≡ own) }
{
    match name {
        Some(name) => own_name(name, suffix, owned),
        None => Ok(false),
    }
}

// An item that its module owns if its name has no mark of a module.
trait Ownable {
    ghost row_of: { Self → Row };

    // Decorates the name and notes it, if there is one and it is owned. Returns whether it is.
    fn own(&mut self, suffix: &str, owned: &mut NameSet) -> AllocResult<bool>
        ensures own { IfOk result (λ own. own ≡ is_own_name (row_of self.old).label.name) }
        ensures item { OnOk result (row_of self.new ≡ owned_row suffix.now (row_of self.old)) }
        ensures owned { let name = (row_of self.old).label.name in
            let own = with_owned suffix.now (texts owned.old.keys) name in
            OnOk result (texts owned.new.keys ≡ own) };
}

impl Ownable for Constant {
    ghost row_of = { constant_row };

    fn own(&mut self, suffix: &str, owned: &mut NameSet) -> AllocResult<bool> {
        own_text(&mut self.name, suffix, owned)
    }
}

impl Ownable for Override {
    ghost row_of = { override_row };

    fn own(&mut self, suffix: &str, owned: &mut NameSet) -> AllocResult<bool> {
        own_text(&mut self.name, suffix, owned)
    }
}

impl Ownable for GlobalVariable {
    ghost row_of = { global_row };

    fn own(&mut self, suffix: &str, owned: &mut NameSet) -> AllocResult<bool> {
        own_text(&mut self.name, suffix, owned)
    }
}

// Decorates the owned items of an arena. Returns their places.
fn own_all<T: Item + Ownable + Drop>(
    alloc: Global,
    of: &mut Arena<T>,
    suffix: &str,
    owned: &mut NameSet,
) -> AllocResult<PlaceSet>
    ensures items { let old = rows_by T.row_of of.old in
        OnOk result (rows_by T.row_of of.new ≡ map (owned_item suffix.now) old) }
    ensures owned { let names = item_names (rows_by T.row_of of.old) in
        let own = fold (with_owned suffix.now) (texts owned.old.keys) names in
        OnOk result (texts owned.new.keys ≡ own) }
    ensures places { let names = item_names (rows_by T.row_of of.old) in
        IfOk result (λ places. places.keys ≡ places_where is_own_name names) }
{
    let mut items = mem::replace(of, Arena::new(alloc)).into_items();
    let mut places = PlaceSet::new(alloc);
    for (at, item) in items.iter_mut().enumerate() {
        if item.0.own(suffix, owned)? {
            places.insert(at)?;
        }
    }
    *of = Arena::from_items(items);
    Ok(places)
}

// Decorates the owned functions.
fn own_functions(
    alloc: Global,
    of: &mut Arena<Function>,
    suffix: &str,
    owned: &mut NameSet,
) -> AllocResult
    ensures items { let old = function_values of.old in
        OnOk result (function_values of.new ≡ map (owned_function suffix.now) old) }
    ensures owned { let names = function_texts (function_values of.old) in
        let own = fold (with_owned suffix.now) (texts owned.old.keys) names in
        OnOk result (texts owned.new.keys ≡ own) }
{
    let mut items = mem::replace(of, Arena::new(alloc)).into_items();
    for item in items.iter_mut() {
        own_text(&mut item.0.name, suffix, owned)?;
    }
    *of = Arena::from_items(items);
    Ok(())
}

// Decorates the items that a parsed module owns, except types, which are decorated as they are
// copied. Returns the places of all owned items.
fn own_items(alloc: Global, of: &mut Module, built: &mut Build) -> AllocResult<OwnItems>
    ensures items { let m = module_value of.old in
        let decoration = string_bytes built.old.decorated_name in
        OnOk result (module_value of.new ≡ decorated_items decoration m) }
    ensures built { let m = module_value of.old in
        OnOk result (built_of built.new ≡ owning m (built_of built.old)) }
    ensures own { IfOk result (λ own. own_of own ≡ own_places (module_value of.old)) }
{
    let decoration = built.decorated_name.as_str();
    let types = own_types(alloc, of, decoration, &mut built.owned_types)?;
    let owned = &mut built.owned_constants;
    let constants = own_all(alloc, &mut of.constants, decoration, owned)?;
    let owned = &mut built.owned_pipeline_overrides;
    let overrides = own_all(alloc, &mut of.overrides, decoration, owned)?;
    let owned = &mut built.owned_vars;
    let globals = own_all(alloc, &mut of.global_variables, decoration, owned)?;
    let owned = &mut built.owned_functions;
    own_functions(alloc, &mut of.functions, decoration, owned)?;
    #[rattlefmt::skip]
    Ok(OwnItems { types, constants, overrides, globals })
}

// A function's name, or `main`.
fn name_or_main(alloc: Global, name: Option<String>) -> AllocResult<String>
    ensures { IfOk result (λ n. string_bytes n ≡ name_or_main (option_map string_bytes name)) }
{
    match name {
        Some(name) => Ok(name),
        None => String::from_str(alloc, "main"),
    }
}

// Removes the bindings of arguments.
fn unbind(arguments: &mut [FunctionArgument])
    ensures { let old = map argument_value arguments.old in
        map argument_value arguments.new ≡ map unbound_argument old }
{
    for argument in arguments.iter_mut() {
        argument.binding = None;
    }
}

// A result without its binding.
fn unbound(of: Option<FunctionResult>) -> Option<FunctionResult>
    ensures { result ≡ option_map unbound_result of }
{
    let binding = None;
    of.map(|FunctionResult { ty, .. }| FunctionResult { ty, binding })
}

// The name of an entry point as a function, and the function: decorated and without bindings.
fn demoted(alloc: Global, of: EntryPoint, decoration: &str) -> AllocResult<(String, Function)>
    ensures name { let name = demoted_name decoration.now (entry_value of) in
        IfOk result (λ r. string_bytes r.0 ≡ name) }
    ensures function { let function = demoted_function decoration.now (entry_value of) in
        IfOk result (λ r. function_value r.1 ≡ function) }
{
    let mut function = of.function;
    let mut name = name_or_main(alloc, function.name.take())?;
    name.push_str(decoration)?;
    unbind(&mut function.arguments);
    function.result = unbound(function.result);
    function.name = Some(name.clone()?);
    Ok((name, function))
}

/// Notes a name, if there is one.
pub fn note(alloc: Global, names: &mut NameSet, name: Option<&str>) -> AllocResult
    ensures { let text = option_map (λ n. n.now) name.entry in
        OnOk result (texts names.new.keys ≡ with_text (texts names.old.keys) text) }
{
    if let Some(name) = name {
        names.insert(String::from_str(alloc, name)?)?;
    }
    Ok(())
}

// The names of functions.
fn function_names(alloc: Global, functions: &Arena<Function>) -> AllocResult<NameSet>
    ensures { let values = function_values functions.now in
        IfOk result (λ names. texts names.keys ≡ in_order (function_names values)) }
{
    let mut names = NameSet::new(alloc);
    for item in functions.as_slice() {
        note(alloc, &mut names, named(&item.0.name))?;
    }
    Ok(names)
}

// Adds the function of an entry point at the end and notes its name, unless that is one of the
// names.
fn demote_one(
    alloc: Global,
    entry_point: EntryPoint,
    decoration: &str,
    names: &NameSet,
    functions: &mut Arena<Function>,
    owned: &mut NameSet,
) -> AllocResult
    ensures functions { let taken = texts names.now.keys in
        let more = demoted decoration.now taken (entry_value entry_point) in
        OnOk result (function_values functions.new ≡ function_values functions.old ++ more) }
    ensures owned { let taken = texts names.now.keys in
        let more = demoted decoration.now taken (entry_value entry_point) in
        OnOk result (texts owned.new.keys ≡
        fold with_name (texts owned.old.keys) (function_names more)) }
{
    let (name, function) = demoted(alloc, entry_point, decoration)?;
    if names.contains(name.as_str()) {
        return Ok(());
    }
    owned.insert(name)?;
    functions.append(function, Span::UNDEFINED)?;
    Ok(())
}

// Adds the functions of entry points at the end and notes their names, except those whose names are
// taken.
fn demote_all(
    alloc: Global,
    entry_points: Vec<EntryPoint>,
    decoration: &str,
    functions: &mut Arena<Function>,
    owned: &mut NameSet,
) -> AllocResult
    ensures functions { let before = function_values functions.old in
        let values = map entry_value entry_points.items in
        let more = flat_map (demoted decoration.now (function_names before)) values in
        OnOk result (function_values functions.new ≡ before ++ more) }
    ensures owned { let before = function_values functions.old in
        let values = map entry_value entry_points.items in
        let more = flat_map (demoted decoration.now (function_names before)) values in
        OnOk result (texts owned.new.keys ≡
        fold with_name (texts owned.old.keys) (function_names more)) }
{
    if entry_points.is_empty() {
        return Ok(());
    }
    let names = function_names(alloc, functions)?;
    for entry_point in entry_points {
        demote_one(alloc, entry_point, decoration, &names, functions, owned)?;
    }
    Ok(())
}

// Turns the entry points into functions after the others, decorated, without bindings and without
// spans. An entry point is left out if another function has its name.
fn demote(alloc: Global, of: &mut Module, built: &mut Build) -> AllocResult
    ensures items { let m = module_value of.old in
        let fs = demotable (string_bytes built.old.decorated_name) m in
        OnOk result (module_value of.new ≡ with_demoted fs m) }
    ensures built { let m = module_value of.old in
        let fs = demotable (string_bytes built.old.decorated_name) m in
        OnOk result (built_of built.new ≡ owning_demoted fs (built_of built.old)) }
{
    let entry_points = mem::replace(&mut of.entry_points, Vec::new(alloc));
    let decoration = built.decorated_name.as_str();
    let (functions, owned) = (&mut of.functions, &mut built.owned_functions);
    demote_all(alloc, entry_points, decoration, functions, owned)
}

/// Decorates what a build owns of a parsed module. Entry points of all but the shader, whose index
/// is 0, are decorated as functions; types are decorated as they are copied. Returns the places of
/// the owned items, and the number of functions before. A module that passed the test of form under
/// the decoration is of good form afterwards.
pub fn own(alloc: Global, source: &mut Module, built: &mut Build) -> AllocResult<(OwnItems, usize)>
    ensures own { IfOk result (λ r. own_of r.0 ≡ own_places (module_value source.old)) }
    ensures functions { IfOk result (λ r. r.1 ≡ length (module_value source.old).functions) }
    ensures items { let decoration = string_bytes built.old.decorated_name in
        let m = module_value source.old in
        OnOk result (module_value source.new ≡ owned_module built.old.index decoration m) }
    ensures built { let m = module_value source.old in
        OnOk result (built_of built.new ≡ owned_build built.old.index m (built_of built.old)) }
    ensures form { let passes = WellFormed source.old (string_bytes built.old.decorated_name) in
        OnOk result ((n : ℕ) → n ≤ u32_max → passes n →
        IsModuleFormed (module_value source.new)) }
{
    well_formed_modules_are_formed(source);
    let own = own_items(alloc, source, built)?;
    let functions = source.functions.len();
    if built.index > 0 {
        demote(alloc, source, built)?;
    }
    Ok((own, functions))
}
