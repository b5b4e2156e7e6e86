// The names of a module's items.
ghost use Rattle.std.specs.Prelude.{◌≡◌, option_map, option_copied, slice_get, string_bytes};
ghost use Rattle.naga_oil_ir.specs.ModuleValue.{module_value};
ghost use Rattle.yettuvam_wgsl_written_names.specs.Items as spec;
ghost use Rattle.yettuvam_wgsl_written_names.specs.Items.{Becomes, Gives, GivesTwo, GivesFour, naming_of};
ghost use Rattle.yettuvam_wgsl_written_names.specs.Taken.{taken_of};

use crate::spelled::is_name;
use crate::taken::Taken;
use naga_oil_ir::{
    Arena, Constant, EntryPoint, Function, GlobalVariable, Module, Override, Span, Type,
    UniqueArena,
};
use naga_oil_words::has_module_mark;
use std::alloc::Global;
use yettuvam_wgsl_written::{Refusal, WriteResult};

/// The names of the items of a module, by their places; `None` for an item that has no name.
#[derive(Drop)]
pub struct ItemNames {
    pub types: Vec<Option<String>>,
    pub constants: Vec<Option<String>>,
    pub overrides: Vec<Option<String>>,
    pub globals: Vec<Option<String>>,
    pub functions: Vec<Option<String>>,
    pub entry_points: Vec<Option<String>>,
}

/// Returns the name of an item at a place.
pub fn name_at(names: &[Option<String>], place: usize) -> Option<&str>
    ensures { option_map (λ n. n.now) result ≡ spec.name_at (spec.texts names.now) place }
{
    match names.get(place) {
        Some(Some(name)) => Some(name.as_str()),
        _ => None,
    }
}

fn text_of(name: &Option<String>) -> Option<&str>
    ensures { option_map (λ n. n.now) result ≡ option_map string_bytes name.now }
{
    match name {
        Some(name) => Some(name.as_str()),
        None => None,
    }
}

// Whether an item can't have a name: no name has this form, or another item has the same decorated name.
fn is_refused(taken: &Taken<'_>, name: &str) -> bool
    ensures { result ≡ spec.is_refused (taken_of taken.now) name.now }
{
    !is_name(name) || (taken.has(name) && has_module_mark(name))
}

// Adds the name of an item.
#[tactic(auto, unfolding(crate::specs::Items::add_name))]
fn push_name(
    taken: &mut Taken<'_>,
    names: &mut Vec<Option<String>>,
    name: Option<&str>,
    span: Span,
) -> WriteResult<()>
    ensures { Becomes (spec.add_name (naming_of taken.old names.old.items) (option_map (λ n. n.now) name.entry, span)) result (naming_of taken.new names.new.items) }
{
    let Some(name) = name else {
        names.push(None)?;
        return Ok(());
    };
    if is_refused(taken, name) {
        return Err(Refusal::NotInWgsl(span));
    }
    let made = taken.fresh(name)?;
    names.push(Some(made))?;
    Ok(())
}

#[tactic(auto, unfolding(crate::specs::Items::each))]
fn entry_point_names(
    taken: &mut Taken<'_>,
    names: &mut Vec<Option<String>>,
    of: &[EntryPoint],
) -> WriteResult<()>
    ensures { Becomes (spec.each (naming_of taken.old names.old.items) (spec.entry_labels of.now)) result (naming_of taken.new names.new.items) }
{
    let mut rest = of;
    while let [entry_point, more @ ..] = rest {
        push_name(
            taken,
            names,
            Some(entry_point.name.as_str()),
            Span::UNDEFINED,
        )?;
        rest = more;
    }
    Ok(())
}

#[tactic(auto, unfolding(crate::specs::Items::each))]
fn type_names(
    taken: &mut Taken<'_>,
    names: &mut Vec<Option<String>>,
    of: &UniqueArena<Type>,
) -> WriteResult<()>
    ensures { Becomes (spec.each (naming_of taken.old names.old.items) (spec.type_labels of.now)) result (naming_of taken.new names.new.items) }
{
    for (ty, span) in of.iter() {
        push_name(taken, names, text_of(&ty.name), *span)?;
    }
    Ok(())
}

#[tactic(auto, unfolding(crate::specs::Items::each))]
fn constant_names(
    taken: &mut Taken<'_>,
    names: &mut Vec<Option<String>>,
    of: &Arena<Constant>,
) -> WriteResult<()>
    ensures { Becomes (spec.each (naming_of taken.old names.old.items) (spec.constant_labels of.now)) result (naming_of taken.new names.new.items) }
{
    let mut rest = of.as_slice();
    while let [(constant, span), more @ ..] = rest {
        push_name(taken, names, text_of(&constant.name), *span)?;
        rest = more;
    }
    Ok(())
}

#[tactic(auto, unfolding(crate::specs::Items::each))]
fn override_names(
    taken: &mut Taken<'_>,
    names: &mut Vec<Option<String>>,
    of: &Arena<Override>,
) -> WriteResult<()>
    ensures { Becomes (spec.each (naming_of taken.old names.old.items) (spec.override_labels of.now)) result (naming_of taken.new names.new.items) }
{
    let mut rest = of.as_slice();
    while let [(of_override, span), more @ ..] = rest {
        push_name(taken, names, text_of(&of_override.name), *span)?;
        rest = more;
    }
    Ok(())
}

#[tactic(auto, unfolding(crate::specs::Items::each))]
fn global_names(
    taken: &mut Taken<'_>,
    names: &mut Vec<Option<String>>,
    of: &Arena<GlobalVariable>,
) -> WriteResult<()>
    ensures { Becomes (spec.each (naming_of taken.old names.old.items) (spec.global_labels of.now)) result (naming_of taken.new names.new.items) }
{
    let mut rest = of.as_slice();
    while let [(global, span), more @ ..] = rest {
        push_name(taken, names, text_of(&global.name), *span)?;
        rest = more;
    }
    Ok(())
}

#[tactic(auto, unfolding(crate::specs::Items::each))]
fn function_names(
    taken: &mut Taken<'_>,
    names: &mut Vec<Option<String>>,
    of: &Arena<Function>,
) -> WriteResult<()>
    ensures { Becomes (spec.each (naming_of taken.old names.old.items) (spec.function_labels of.now)) result (naming_of taken.new names.new.items) }
{
    let mut rest = of.as_slice();
    while let [(function, span), more @ ..] = rest {
        push_name(taken, names, text_of(&function.name), *span)?;
        rest = more;
    }
    Ok(())
}

// The names of a list of items.
type Names = Vec<Option<String>>;

// The names of entry points and types.
#[tactic(auto, unfolding(crate::specs::Items::two_names))]
fn first_names(alloc: Global, taken: &mut Taken<'_>, of: &Module) -> WriteResult<(Names, Names)>
    ensures { let types = spec.type_labels of.now.types in
        GivesTwo (spec.two_names (taken_of taken.old) (spec.entry_labels of.now.entry_points.items) types) result (taken_of taken.new) }
{
    let mut entry_points = Vec::new(alloc);
    entry_point_names(taken, &mut entry_points, of.entry_points.as_slice())?;
    let mut types = Vec::new(alloc);
    type_names(taken, &mut types, &of.types)?;
    Ok((entry_points, types))
}

// The names of constants and overrides.
#[tactic(auto, unfolding(crate::specs::Items::two_names))]
fn value_names(alloc: Global, taken: &mut Taken<'_>, of: &Module) -> WriteResult<(Names, Names)>
    ensures { let overrides = spec.override_labels of.now.overrides in
        GivesTwo (spec.two_names (taken_of taken.old) (spec.constant_labels of.now.constants) overrides) result (taken_of taken.new) }
{
    let mut constants = Vec::new(alloc);
    constant_names(taken, &mut constants, &of.constants)?;
    let mut overrides = Vec::new(alloc);
    override_names(taken, &mut overrides, &of.overrides)?;
    Ok((constants, overrides))
}

// The names of global variables and functions.
#[tactic(auto, unfolding(crate::specs::Items::two_names))]
fn last_names(alloc: Global, taken: &mut Taken<'_>, of: &Module) -> WriteResult<(Names, Names)>
    ensures { let functions = spec.function_labels of.now.functions in
        GivesTwo (spec.two_names (taken_of taken.old) (spec.global_labels of.now.global_variables) functions) result (taken_of taken.new) }
{
    let mut globals = Vec::new(alloc);
    global_names(taken, &mut globals, &of.global_variables)?;
    let mut functions = Vec::new(alloc);
    function_names(taken, &mut functions, &of.functions)?;
    Ok((globals, functions))
}

// The names of all items that are no types.
#[tactic(auto, unfolding(crate::specs::Items::four_names))]
fn other_names(
    alloc: Global,
    taken: &mut Taken<'_>,
    of: &Module,
) -> WriteResult<((Names, Names), (Names, Names))>
    ensures { GivesFour (spec.other_names (taken_of taken.old) (module_value of.now)) result (taken_of taken.new) }
{
    let values = value_names(alloc, taken, of)?;
    let last = last_names(alloc, taken, of)?;
    Ok((values, last))
}

/// Returns the names of the items of a module, and all names that are taken.
///
/// # Errors
/// `NotInWgsl` if a name has not the form of a name, or two items have one decorated name. `Memory` if out of memory.
#[tactic(auto, unfolding(crate::specs::Items::item_names))]
pub fn item_names(alloc: Global, of: &Module) -> WriteResult<(ItemNames, Taken<'static>)>
    ensures { Gives (spec.item_names (module_value of.now)) result }
{
    let mut taken = Taken::new(alloc);
    let (entry_points, types) = first_names(alloc, &mut taken, of)?;
    let ((constants, overrides), (globals, functions)) = other_names(alloc, &mut taken, of)?;
    let names = ItemNames {
        types,
        constants,
        overrides,
        globals,
        functions,
        entry_points,
    };
    Ok((names, taken))
}
