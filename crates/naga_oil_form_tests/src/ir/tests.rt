// Tests of arenas, spans and names.
use naga_oil_ir::*;
use std::alloc::{AllocError, Global};

fn literal(bits: u64) -> Expression {
    Expression::Literal { kind: 1, bits }
}

fn scalar(code: u64) -> Type {
    Type {
        name: None,
        inner: TypeInner::Scalar(code),
    }
}

/// A number that is added to a list, whether it is appended without a search, its span, and its expected place.
type Addition = (u64, bool, u32, u32, usize);

const ADDED: [Addition; 4] = [
    (7, true, 1, 2, 0),
    (7, true, 3, 4, 1),
    (7, false, 5, 6, 0),
    (9, false, 7, 8, 2),
];

/// A number that is added to a set, its span, and the place that it gets.
type Insertion = (u64, u32, u32, usize);

const INSERTED: [Insertion; 3] = [(1, 1, 2, 0), (2, 3, 4, 1), (1, 5, 6, 0)];

fn put(
    arena: &mut Arena<Expression>,
    number: u64,
    is_last: bool,
    span: Span,
) -> Result<Handle<Expression>, AllocError> {
    match is_last {
        true => arena.append(literal(number), span),
        false => arena.fetch_or_append(literal(number), span),
    }
}

fn is_put(arena: &mut Arena<Expression>, added: Addition) -> bool {
    let (number, is_last, start, end, place) = added;
    let answer = put(arena, number, is_last, Span::new(start, end));
    matches!(answer, Ok(handle) if handle.index() == place)
}

fn are_put(arena: &mut Arena<Expression>) -> bool {
    let mut put = true;
    for added in &ADDED {
        put &= is_put(arena, *added);
    }
    put
}

fn are_expressions_kept(arena: &Arena<Expression>) -> bool {
    let other = arena.try_get(Index::new(2));
    arena.len() == 3
        && arena.iter().count() == 3
        && arena.get_span(Index::new(0)) == Span::new(1, 2)
        && arena.get_span(Index::new(3)) == Span::UNDEFINED
        && arena.try_get(Index::new(3)).is_none()
        && matches!(other, Some(Expression::Literal { kind: 1, bits: 9 }))
}

#[test]
fn an_arena_keeps_places_and_first_spans(rt: HostRuntime) {
    let mut arena: Arena<Expression> = Arena::new(rt.alloc());
    assert!(rt; are_put(&mut arena) && are_expressions_kept(&arena));
}

fn is_inserted(arena: &mut UniqueArena<Type>, inserted: Insertion) -> bool {
    let (number, start, end, place) = inserted;
    let answer = arena.insert(scalar(number), Span::new(start, end));
    matches!(answer, Ok(handle) if handle.index() == place)
}

fn are_inserted(arena: &mut UniqueArena<Type>) -> bool {
    let mut inserted = true;
    for insertion in &INSERTED {
        inserted &= is_inserted(arena, *insertion);
    }
    inserted
}

fn are_types_kept(arena: &UniqueArena<Type>) -> bool {
    arena.len() == 2
        && arena.iter().count() == 2
        && arena.get_span(Index::new(0)) == Span::new(1, 2)
        && arena.get_span(Index::new(2)) == Span::UNDEFINED
        && arena.get_handle(Index::new(2)).is_none()
}

#[test]
fn a_unique_arena_keeps_items_once(rt: HostRuntime) {
    let mut arena: UniqueArena<Type> = UniqueArena::new(rt.alloc());
    assert!(rt; are_inserted(&mut arena) && are_types_kept(&arena));
}

/// Whether a result is the place after the last, and the length is one more, or memory ran out, which changes nothing.
fn is_grown<K>(answer: Result<Index<K>, AllocError>, before: usize, after: usize) -> bool {
    match answer {
        Ok(handle) => handle.index() == before && before < after,
        Err(_) => before == after,
    }
}

// The tests below pass whichever allocation is refused.

fn does_list_grow(arena: &mut Arena<Expression>, is_last: bool) -> bool {
    let before = arena.len();
    let answer = put(arena, before as u64, is_last, Span::UNDEFINED);
    is_grown(answer, before, arena.len())
}

fn does_list_keep_growing(arena: &mut Arena<Expression>) -> bool {
    let mut grows = true;
    for _ in 0..20 {
        grows &= does_list_grow(arena, true);
        grows &= does_list_grow(arena, false);
    }
    grows
}

fn does_list_find_each(arena: &mut Arena<Expression>) -> bool {
    let mut finds = true;
    for place in 0..arena.len() {
        let found = put(arena, place as u64, false, Span::UNDEFINED);
        finds &= matches!(found, Ok(handle) if handle.index() == place);
    }
    finds
}

#[test]
fn a_refused_arena_is_as_it_was(rt: HostRuntime) {
    let mut arena: Arena<Expression> = Arena::new(rt.alloc());
    assert!(rt; does_list_keep_growing(&mut arena) && does_list_find_each(&mut arena));
}

fn does_set_grow(arena: &mut UniqueArena<Type>) -> bool {
    let before = arena.len();
    let answer = arena.insert(scalar(before as u64), Span::UNDEFINED);
    is_grown(answer, before, arena.len())
}

fn does_set_keep_growing(arena: &mut UniqueArena<Type>) -> bool {
    let mut grows = true;
    for _ in 0..40 {
        grows &= does_set_grow(arena);
    }
    grows
}

fn does_set_find_each(arena: &mut UniqueArena<Type>) -> bool {
    let mut finds = true;
    for place in 0..arena.len() {
        let found = arena.insert(scalar(place as u64), Span::UNDEFINED);
        finds &= matches!(found, Ok(handle) if handle.index() == place);
    }
    finds
}

#[test]
fn a_refused_unique_arena_is_as_it_was(rt: HostRuntime) {
    let mut arena: UniqueArena<Type> = UniqueArena::new(rt.alloc());
    assert!(rt; does_set_keep_growing(&mut arena) && does_set_find_each(&mut arena));
}

/// Whether an item names these items, or memory ran out.
fn are_so_many<T: Names>(item: &T, count: usize, alloc: Global) -> bool {
    match item.names(alloc) {
        Ok(names) => names.len() == count,
        Err(_) => true,
    }
}

fn add_members(members: &mut Vec<StructMember>) -> Result<(), AllocError> {
    for offset in [0, 4] {
        members.push(StructMember {
            name: None,
            ty: Index::new(0),
            binding: None,
            offset,
        })?;
    }
    Ok(())
}

fn are_so_many_of_type(inner: TypeInner, count: usize, alloc: Global) -> bool {
    are_so_many(&Type { name: None, inner }, count, alloc)
}

/// Whether a struct of two members names two items, or memory ran out.
fn are_two_of_pair(alloc: Global) -> bool {
    let mut members = Vec::new(alloc);
    let added = add_members(&mut members).is_ok();
    let inner = TypeInner::Struct { members, span: 8 };
    !added || are_so_many_of_type(inner, 2, alloc)
}

fn are_so_many_of_types(alloc: Global) -> bool {
    let base = Index::new(0);
    let size = ArraySize::Pending(Index::new(0));
    are_so_many_of_type(TypeInner::Pointer { base, space: 0 }, 1, alloc)
        && are_so_many_of_type(TypeInner::BindingArray { base, size }, 2, alloc)
}

fn are_two_of_constant(alloc: Global) -> bool {
    let (name, ty, init) = (None, Index::new(0), Index::new(0));
    are_so_many(&Constant { name, ty, init }, 2, alloc)
}

fn are_so_many_of_expressions(alloc: Global) -> bool {
    let expr = Index::new(0);
    are_so_many(&Expression::Unary { op: 0, expr }, 2, alloc)
        && are_so_many(&(literal(1), Span::UNDEFINED), 1, alloc)
}

#[test]
fn refused_names_are_no_others(rt: HostRuntime) {
    let alloc = rt.alloc();
    let types = are_two_of_pair(alloc) && are_so_many_of_types(alloc);
    let others = are_two_of_constant(alloc) && are_so_many_of_expressions(alloc);
    assert!(rt; types && others);
}

fn are_spans_read() -> bool {
    let known = Span::new(0, 4).to_range();
    Span::UNDEFINED.to_range().is_none()
        && matches!(known, Some(range) if range.start == 0 && range.end == 4)
}

fn is_new_module_empty(alloc: Global) -> bool {
    let module = Module::new(alloc);
    module.types.len() == 0 && module.functions.len() == 0 && module.entry_points.len() == 0
}

#[test]
fn spans_and_new_modules(rt: HostRuntime) {
    assert!(rt; are_spans_read() && is_new_module_empty(rt.alloc()));
}
