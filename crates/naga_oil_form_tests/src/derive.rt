//! Modules that are copied from parts of others. A test is a case of a table; one driver builds its sources, copies, and
//! compares the module after each call and in the end.
ghost use Rattle.std.specs.Prelude.{IsTrue};
ghost use Rattle.naga_oil_derive.specs.Derived.{HasItem};

mod deep;
mod functions;
mod refused;

use naga_oil_derive::DerivedModule;
use naga_oil_form::check_form::check_form;
use naga_oil_ir::{
    ArraySize, Constant, Expression, GlobalVariable, Handle, Index, ItemPlace, Module, Override,
    Span, Type, TypeInner, UniqueArena,
};
use std::alloc::{AllocError, Global};
use std::test::Fail;

const NONE: Span = Span::UNDEFINED;

/// A part of a source.
#[derive(Clone, Copy)]
enum CopyPart {
    /// A scalar of this code, at a span.
    Scalar(u64, Span),
    /// An override of this name and of the first type, and an array of that type, which names it as its size.
    Sized(&'static str),
    /// The ray description, a struct of this span, and a global variable of it.
    Rays(u32),
    /// A constant whose value is the second of two global expressions.
    SecondValue,
}

use CopyPart::{Rays, Scalar, SecondValue, Sized};

/// The kind of an item.
#[derive(Clone, Copy)]
enum Kind {
    Ty,
    Const,
    Size,
    Var,
    Value,
}

use Kind::{Const, Size, Ty, Value, Var};

/// What is copied: the item at a place, or the type at a place under a name or under its own.
#[derive(Clone, Copy)]
enum Asked {
    Item(Kind, usize),
    Named(usize, &'static str),
    Unnamed(usize),
}

use Asked::{Item, Named, Unnamed};

/// A source: its parts, the offset of its text, where the bytes from 10 up to 20 are in all texts, and what is copied of it,
/// with the places of the copies.
struct Source {
    parts: &'static [CopyPart],
    offset: usize,
    mapped: Span,
    copies: &'static [(Asked, usize)],
}

/// What an item reads as: its span, its name, what its number is, and that number.
type Said<'a> = (Span, &'a str, &'static str, u64);

/// The numbers of types, constants, overrides, global variables and global expressions.
type Counts = [usize; 5];

/// One or two sources, whether there is a special type, and the expected items after all copies.
struct Case {
    first: Source,
    second: Option<Source>,
    is_special: bool,
    items: &'static [(Kind, usize, Said<'static>)],
    counts: Counts,
}

const TEN: Span = Span { start: 10, end: 20 };

const SHIFTED: Span = Span {
    start: 2_097_162,
    end: 2_097_172,
};

static SPANS: Case = Case {
    first: Source {
        parts: &[Scalar(1, TEN), Scalar(2, NONE)],
        offset: 2_097_152,
        mapped: SHIFTED,
        copies: &[(Item(Ty, 0), 0), (Item(Ty, 1), 1)],
    },
    second: None,
    is_special: false,
    items: &[
        (Ty, 0, (SHIFTED, "", "scalar", 1)),
        (Ty, 1, (NONE, "", "scalar", 2)),
    ],
    counts: [2, 0, 0, 0, 0],
};

/// The first ray description is used in place of the second.
static SPECIAL: Case = Case {
    first: Source {
        parts: &[Rays(32)],
        offset: 0,
        mapped: TEN,
        copies: &[],
    },
    second: Some(Source {
        parts: &[Rays(16)],
        offset: 0,
        mapped: TEN,
        copies: &[(Item(Var, 0), 0)],
    }),
    is_special: true,
    items: &[
        (Ty, 0, (TEN, "RayDesc", "struct", 32)),
        (Var, 0, (NONE, "rays", "type", 0)),
    ],
    counts: [1, 0, 0, 1, 0],
};

static SIZES: Case = Case {
    first: Source {
        parts: &[Scalar(1, NONE), Sized("a")],
        offset: 0,
        mapped: TEN,
        copies: &[(Item(Size, 0), 0)],
    },
    second: Some(Source {
        parts: &[Scalar(1, NONE), Sized("b")],
        offset: 0,
        mapped: TEN,
        copies: &[(Item(Ty, 1), 1)],
    }),
    is_special: false,
    items: &[
        (Ty, 0, (NONE, "", "scalar", 1)),
        (Ty, 1, (NONE, "", "size", 1)),
        (Size, 0, (NONE, "a", "type", 0)),
        (Size, 1, (NONE, "b", "type", 0)),
    ],
    counts: [2, 0, 2, 0, 0],
};

static EQUAL: Case = Case {
    first: Source {
        parts: &[Scalar(1, Span { start: 1, end: 2 })],
        offset: 100,
        mapped: Span {
            start: 110,
            end: 120,
        },
        copies: &[(Item(Ty, 0), 0)],
    },
    second: Some(Source {
        parts: &[
            Scalar(2, Span { start: 3, end: 4 }),
            Scalar(1, Span { start: 5, end: 6 }),
        ],
        offset: 200,
        mapped: Span {
            start: 210,
            end: 220,
        },
        copies: &[(Item(Ty, 1), 0)],
    }),
    is_special: false,
    items: &[(
        Ty,
        0,
        (
            Span {
                start: 101,
                end: 102,
            },
            "",
            "scalar",
            1,
        ),
    )],
    counts: [1, 0, 0, 0, 0],
};

static RENAMED: Case = Case {
    first: Source {
        parts: &[Scalar(1, NONE), Scalar(2, NONE)],
        offset: 0,
        mapped: TEN,
        copies: &[
            (Unnamed(1), 0),
            (Named(0, "Base"), 1),
            (Named(0, "Again"), 1),
        ],
    },
    second: None,
    is_special: false,
    items: &[
        (Ty, 0, (NONE, "", "scalar", 2)),
        (Ty, 1, (NONE, "Base", "scalar", 1)),
    ],
    counts: [2, 0, 0, 0, 0],
};

static CONSTANTS: Case = Case {
    first: Source {
        parts: &[Scalar(1, NONE), SecondValue],
        offset: 0,
        mapped: TEN,
        copies: &[(Item(Const, 0), 0), (Item(Value, 1), 0)],
    },
    second: None,
    is_special: false,
    items: &[
        (Ty, 0, (NONE, "", "scalar", 1)),
        (Value, 0, (NONE, "", "bits", 3)),
        (Const, 0, (NONE, "N", "value", 0)),
    ],
    counts: [1, 1, 0, 0, 1],
};

fn text(name: &str, alloc: Global) -> Result<Option<String>, AllocError> {
    let text = String::from_str(alloc, name)?;
    Ok(Some(text))
}

fn add_scalar(module: &mut Module, code: u64, span: Span) -> Result<(), AllocError> {
    let inner = TypeInner::Scalar(code);
    module.types.insert(Type { name: None, inner }, span)?;
    Ok(())
}

fn add_size(module: &mut Module, name: &str, alloc: Global) -> Result<(), AllocError> {
    let name = text(name, alloc)?;
    let size = Override {
        name,
        id: None,
        ty: Index::new(0),
        init: None,
    };
    module.overrides.append(size, NONE)?;
    Ok(())
}

fn add_sized(module: &mut Module, name: &str, alloc: Global) -> Result<(), AllocError> {
    add_size(module, name, alloc)?;
    let inner = TypeInner::Array {
        base: Index::new(0),
        size: ArraySize::Pending(Index::new(0)),
        stride: 4,
    };
    module.types.insert(Type { name: None, inner }, NONE)?;
    Ok(())
}

fn add_struct(module: &mut Module, span: u32, alloc: Global) -> Result<Handle<Type>, AllocError> {
    let name = text("RayDesc", alloc)?;
    let inner = TypeInner::Struct {
        members: Vec::new(alloc),
        span,
    };
    module.types.insert(Type { name, inner }, TEN)
}

fn add_rays(module: &mut Module, span: u32, alloc: Global) -> Result<(), AllocError> {
    let ty = add_struct(module, span, alloc)?;
    module.special_types.ray_desc = Some(ty);
    let name = text("rays", alloc)?;
    let global = GlobalVariable {
        name,
        space: 1,
        binding: None,
        ty,
        init: None,
    };
    module.global_variables.append(global, NONE)?;
    Ok(())
}

fn add_second_value(module: &mut Module, alloc: Global) -> Result<(), AllocError> {
    let zero = Expression::ZeroValue(Index::new(0));
    module.global_expressions.append(zero, NONE)?;
    let three = Expression::Literal { kind: 1, bits: 3 };
    let init = module.global_expressions.append(three, NONE)?;
    let name = text("N", alloc)?;
    let ty = Index::new(0);
    module.constants.append(Constant { name, ty, init }, NONE)?;
    Ok(())
}

fn add_part(module: &mut Module, part: CopyPart, alloc: Global) -> Result<(), AllocError> {
    match part {
        Scalar(code, span) => add_scalar(module, code, span),
        Sized(name) => add_sized(module, name, alloc),
        Rays(span) => add_rays(module, span, alloc),
        SecondValue => add_second_value(module, alloc),
    }
}

fn fill(module: &mut Module, source: &Source, alloc: Global) -> Result<(), AllocError> {
    for part in source.parts {
        add_part(module, *part, alloc)?;
    }
    Ok(())
}

fn fill_both(
    first: &mut Module,
    second: &mut Module,
    case: &Case,
    alloc: Global,
) -> Result<(), AllocError> {
    fill(first, &case.first, alloc)?;
    match &case.second {
        Some(source) => fill(second, source, alloc),
        None => Ok(()),
    }
}

/// Sets a source that passes the test of form, or there is no memory.
pub(crate) fn set<'a>(
    derived: &mut DerivedModule<'a>,
    source: &'a Module,
    offset: usize,
    alloc: Global,
) -> Result<(), AllocError> {
    match check_form(source, alloc, "", 100) {
        Ok(()) => derived.set_shader_source(source, offset),
        Err(_) => Err(AllocError),
    }
}

/// Whether a source is set that has an item.
fn has(derived: &DerivedModule<'_>, item: ItemPlace) -> bool
    ensures { IsTrue result → HasItem derived.now item }
{
    let Some(source) = derived.source() else {
        return false;
    };
    match item {
        ItemPlace::TypeItem(h) if h.index() < source.types.len() => true,
        ItemPlace::ConstantItem(h) if h.index() < source.constants.len() => true,
        ItemPlace::OverrideItem(h) if h.index() < source.overrides.len() => true,
        ItemPlace::GlobalItem(h) if h.index() < source.global_variables.len() => true,
        ItemPlace::ExpressionItem(h) if h.index() < source.global_expressions.len() => true,
        _ => false,
    }
}

fn item(kind: Kind, place: usize) -> ItemPlace {
    match kind {
        Ty => ItemPlace::TypeItem(Index::new(place)),
        Const => ItemPlace::ConstantItem(Index::new(place)),
        Size => ItemPlace::OverrideItem(Index::new(place)),
        Var => ItemPlace::GlobalItem(Index::new(place)),
        Value => ItemPlace::ExpressionItem(Index::new(place)),
    }
}

/// Copies an item of the source, and gives its place.
fn copied(derived: &mut DerivedModule<'_>, item: ItemPlace) -> Result<usize, AllocError> {
    if !has(derived, item) {
        return Ok(1000);
    }
    let place = match item {
        ItemPlace::TypeItem(h) => derived.import_type(&h)?.index(),
        ItemPlace::ConstantItem(h) => derived.import_const(&h)?.index(),
        ItemPlace::OverrideItem(h) => derived.import_pipeline_override(&h)?.index(),
        ItemPlace::GlobalItem(h) => derived.import_global(&h)?.index(),
        ItemPlace::ExpressionItem(h) => derived.import_global_expression(h)?.index(),
    };
    Ok(place)
}

/// Copies a type of the source under a name, if one is given, and gives its place.
fn renamed(
    derived: &mut DerivedModule<'_>,
    place: usize,
    name: Option<String>,
) -> Result<usize, AllocError> {
    let ty = Index::new(place);
    if !has(derived, ItemPlace::TypeItem(ty)) {
        return Ok(1000);
    }
    Ok(derived.rename_type(&ty, name)?.index())
}

fn done(derived: &mut DerivedModule<'_>, asked: Asked, alloc: Global) -> Result<usize, AllocError> {
    match asked {
        Item(kind, place) => copied(derived, item(kind, place)),
        Named(place, name) => renamed(derived, place, text(name, alloc)?),
        Unnamed(place) => renamed(derived, place, None),
    }
}

fn name_of(name: &Option<String>) -> &str {
    match name {
        Some(name) => name.as_str(),
        None => "",
    }
}

/// The code of a scalar, the place of an array's size, or the span of a struct.
fn number_of(ty: &Type) -> (&'static str, u64) {
    match ty.inner {
        TypeInner::Scalar(code) => ("scalar", code),
        TypeInner::Array {
            size: ArraySize::Pending(size),
            ..
        } => ("size", size.index() as u64),
        TypeInner::Struct { span, .. } => ("struct", u64::from(span)),
        _ => ("other", 0),
    }
}

fn said_type(module: &Module, place: usize) -> Option<Said<'_>> {
    let place = Index::new(place);
    let ty = module.types.get_handle(place)?;
    let (word, number) = number_of(ty);
    Some((
        module.types.get_span(place),
        name_of(&ty.name),
        word,
        number,
    ))
}

fn said_constant(module: &Module, place: usize) -> Option<Said<'_>> {
    let place = Index::new(place);
    let constant = module.constants.try_get(place)?;
    let value = constant.init.index() as u64;
    let span = module.constants.get_span(place);
    Some((span, name_of(&constant.name), "value", value))
}

fn said_override(module: &Module, place: usize) -> Option<Said<'_>> {
    let place = Index::new(place);
    let size = module.overrides.try_get(place)?;
    let ty = size.ty.index() as u64;
    let span = module.overrides.get_span(place);
    Some((span, name_of(&size.name), "type", ty))
}

fn said_global(module: &Module, place: usize) -> Option<Said<'_>> {
    let place = Index::new(place);
    let global = module.global_variables.try_get(place)?;
    let ty = global.ty.index() as u64;
    let span = module.global_variables.get_span(place);
    Some((span, name_of(&global.name), "type", ty))
}

fn said_expression(module: &Module, place: usize) -> Option<Said<'_>> {
    let place = Index::new(place);
    let span = module.global_expressions.get_span(place);
    match module.global_expressions.try_get(place)? {
        Expression::Literal { bits, .. } => Some((span, "", "bits", *bits)),
        _ => Some((span, "", "other", 0)),
    }
}

/// What the item at a place reads as, if there is one.
fn said(module: &Module, kind: Kind, place: usize) -> Option<Said<'_>> {
    match kind {
        Ty => said_type(module, place),
        Const => said_constant(module, place),
        Size => said_override(module, place),
        Var => said_global(module, place),
        Value => said_expression(module, place),
    }
}

/// Whether the item at a place has the expected text, if there is one.
fn is_said(module: &Module, kind: Kind, place: usize, wanted: &Said<'_>) -> bool {
    match said(module, kind, place) {
        Some((span, name, word, number)) => {
            span == wanted.0 && name == wanted.1 && word == wanted.2 && number == wanted.3
        }
        None => true,
    }
}

fn counts(module: &Module) -> Counts {
    [
        module.types.len(),
        module.constants.len(),
        module.overrides.len(),
        module.global_variables.len(),
        module.global_expressions.len(),
    ]
}

/// Whether no count of the first is above that of the second.
fn are_within(some: &Counts, all: &Counts) -> bool {
    for place in 0..5 {
        if some[place] > all[place] {
            return false;
        }
    }
    true
}

fn are_said(module: &Module, items: &[(Kind, usize, Said<'static>)]) -> bool {
    for (kind, place, wanted) in items {
        if !is_said(module, *kind, *place, wanted) {
            return false;
        }
    }
    true
}

/// Whether the items are a front of the expected ones, and at least those before.
fn is_begun(derived: &DerivedModule<'_>, case: &Case, before: &Counts) -> bool {
    let module = derived.module();
    let counts = counts(module);
    are_within(before, &counts) && are_within(&counts, &case.counts) && are_said(module, case.items)
}

/// Whether one of `calls` calls sets the source, the others set none, and all keep the items before. With several calls,
/// no source is set before them.
fn is_set<'a>(
    derived: &mut DerivedModule<'a>,
    source: &'a Module,
    offset: usize,
    case: &Case,
    calls: usize,
    alloc: Global,
) -> bool {
    for _ in 0..calls {
        if calls > 1 {
            derived.clear_shader_source();
        }
        let before = counts(derived.module());
        let is_set = set(derived, source, offset, alloc).is_ok();
        if derived.source().is_some() != is_set || !is_begun(derived, case, &before) {
            return false;
        }
        if is_set {
            return true;
        }
    }
    false
}

/// Whether one of `calls` calls makes the copy at its place, and all keep the items before.
fn is_copied(
    derived: &mut DerivedModule<'_>,
    asked: Asked,
    place: usize,
    case: &Case,
    calls: usize,
    alloc: Global,
) -> bool {
    for _ in 0..calls {
        let before = counts(derived.module());
        let done = done(derived, asked, alloc);
        if !is_begun(derived, case, &before) {
            return false;
        }
        if let Ok(found) = done {
            return found == place;
        }
    }
    false
}

fn are_copied(
    derived: &mut DerivedModule<'_>,
    source: &Source,
    case: &Case,
    calls: usize,
    alloc: Global,
) -> bool {
    for (asked, place) in source.copies {
        if !is_copied(derived, *asked, *place, case, calls, alloc) {
            return false;
        }
    }
    true
}

fn is_mapped(derived: &DerivedModule<'_>, mapped: Span) -> bool {
    derived.map_span(TEN) == mapped && derived.map_span(NONE) == NONE
}

/// Whether a source is set, and the copies from it are the expected ones.
fn is_source<'a>(
    derived: &mut DerivedModule<'a>,
    module: &'a Module,
    source: &Source,
    case: &Case,
    calls: usize,
    alloc: Global,
) -> bool {
    is_set(derived, module, source.offset, case, calls, alloc)
        && derived.has_required_special_types() == case.is_special
        && are_copied(derived, source, case, calls, alloc)
        && is_mapped(derived, source.mapped)
}

/// Whether both sources are.
fn are_sources<'a>(
    derived: &mut DerivedModule<'a>,
    modules: (&'a Module, &'a Module),
    case: &Case,
    calls: usize,
    alloc: Global,
) -> bool {
    if !is_source(derived, modules.0, &case.first, case, calls, alloc) {
        return false;
    }
    match &case.second {
        Some(source) => is_source(derived, modules.1, source, case, calls, alloc),
        None => true,
    }
}

/// Whether all expected items are there at the end of a source.
fn is_left(derived: &mut DerivedModule<'_>, case: &Case) -> bool {
    derived.clear_shader_source();
    is_mapped(derived, TEN) && is_begun(derived, case, &case.counts)
}

fn derives(modules: (&Module, &Module), case: &Case, calls: usize, alloc: Global) -> bool {
    let mut derived = DerivedModule::new(alloc);
    !derived.has_required_special_types()
        && are_sources(&mut derived, modules, case, calls, alloc)
        && is_left(&mut derived, case)
}

/// Whether a case has its expected results, each with at most `calls` calls.
fn is_case(case: &Case, calls: usize, alloc: Global) -> Result<bool, AllocError> {
    let (mut first, mut second) = (Module::new(alloc), Module::new(alloc));
    fill_both(&mut first, &mut second, case, alloc)?;
    Ok(derives((&first, &second), case, calls, alloc))
}

/// That something holds.
pub(crate) fn holds(is_so: bool) -> Result<(), Fail> {
    if is_so {
        return Ok(());
    }
    Err(Fail::from("it is otherwise"))
}

#[test]
fn spans_are_shifted(rt: HostRuntime) -> Result<(), Fail> {
    holds(is_case(&SPANS, 1, rt.alloc())?)
}

#[test]
fn first_special_types_stand(rt: HostRuntime) -> Result<(), Fail> {
    holds(is_case(&SPECIAL, 1, rt.alloc())?)
}

#[test]
fn sizes_are_copied_overrides(rt: HostRuntime) -> Result<(), Fail> {
    holds(is_case(&SIZES, 1, rt.alloc())?)
}

#[test]
fn equal_items_merge(rt: HostRuntime) -> Result<(), Fail> {
    holds(is_case(&EQUAL, 1, rt.alloc())?)
}

#[test]
fn types_are_renamed(rt: HostRuntime) -> Result<(), Fail> {
    holds(is_case(&RENAMED, 1, rt.alloc())?)
}

#[test]
fn constants_bring_their_values(rt: HostRuntime) -> Result<(), Fail> {
    holds(is_case(&CONSTANTS, 1, rt.alloc())?)
}

#[test]
fn a_module_of_nothing_is_made(rt: HostRuntime) -> Result<(), Fail> {
    let module = Module::from(DerivedModule::new(rt.alloc()));
    holds(counts(&module) == [0; 5] && module.entry_points.len() == 0)
}
