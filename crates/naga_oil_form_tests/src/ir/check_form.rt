mod every_kind;
mod refused;

use every_kind::{EVERY, expression_of, statement_of};
use naga_oil_form::check_form::{FormFault, check_form};
use naga_oil_ir::*;
use std::alloc::{AllocError, Global};
use std::process::Abort;

/// An expression of a test: the place of its kind in the list of the kinds, and the place of what it names.
type FormPart = (u64, usize);

const LITERAL: FormPart = (0, 0);

const ZERO: u64 = 1;

const CONSTANT: u64 = 2;

const LOCAL: u64 = 5;

const ARGUMENT: u64 = 6;

const CALL_RESULT: u64 = 7;

const BALLOT: FormPart = (11, 0);

const NEGATION: u64 = 22;

/// A statement of a test; `Every` has the place of its kind in the list of the kinds.
#[derive(Clone, Copy)]
enum Step {
    Emit(usize, usize),
    Store(usize, usize),
    Give(usize),
    Call(usize, usize),
    Kill(u32, u32),
    Every(u64),
}

/// The function of a test; a type and an initialiser make a local variable.
#[derive(Clone, Copy)]
struct Shape {
    name: Option<&'static str>,
    span: Span,
    argument: Option<usize>,
    given: Option<usize>,
    local: Option<(usize, usize)>,
    named: Option<usize>,
    parts: &'static [FormPart],
    steps: &'static [Step],
}

/// The entry point of a test: its function, a size, a mesh output and a payload.
#[derive(Clone, Copy)]
struct Entry {
    shape: Shape,
    size: Option<usize>,
    output: Option<usize>,
    payload: Option<usize>,
}

/// An item of a test. An array has the size of an override, or is dynamic.
#[derive(Clone, Copy)]
enum Added {
    Unnamed(u32, u32),
    Named(u32, u32),
    Array(usize, Option<usize>),
    Constant(usize, usize),
    Override,
    Global,
    Expression(FormPart),
    Special(u64, usize),
    Shaped(Shape),
    Entered(Entry),
}

/// What is added to the small module, the decoration of its functions' names, and whether it is taken then.
type Case = (&'static [Added], &'static str, bool);

use Added::{Array, Entered, Shaped, Special};
use Step::{Emit, Give, Kill, Store};

const NONE: Span = Span::UNDEFINED;

const HERE: Step = Kill(0, 0);

const G: Shape = Shape {
    name: Some("g"),
    span: NONE,
    argument: None,
    given: None,
    local: None,
    named: None,
    parts: &[],
    steps: &[HERE, HERE, HERE],
};

const F: Shape = Shape {
    name: Some("f"),
    ..G
};

/// The small module: a type, a global expression, a constant of both and a function `f`.
const SMALL: [Added; 4] = [
    Added::Unnamed(0, 10),
    Added::Expression(LITERAL),
    Added::Constant(0, 0),
    Shaped(F),
];

fn handle_of<K>(place: Option<usize>) -> Option<Index<K>> {
    match place {
        None => None,
        Some(place) => Some(Index::new(place)),
    }
}

/// Puts an item last.
fn put<T: Item + Drop>(list: &mut Arena<T>, item: T, span: Span) -> Result<(), AllocError> {
    list.append(item, span)?;
    Ok(())
}

fn set_name(
    name: &mut Option<String>,
    told: Option<&'static str>,
    alloc: Global,
) -> Result<(), AllocError> {
    if let Some(told) = told {
        *name = Some(String::from_str(alloc, told)?);
    }
    Ok(())
}

fn add_argument(
    list: &mut Vec<FunctionArgument>,
    argument: Option<usize>,
) -> Result<(), AllocError> {
    if let Some(ty) = argument {
        list.push(FunctionArgument {
            name: None,
            ty: Index::new(ty),
            binding: None,
        })?;
    }
    Ok(())
}

fn given_of(given: Option<usize>) -> Option<FunctionResult> {
    match given {
        None => None,
        Some(ty) => Some(FunctionResult {
            ty: Index::new(ty),
            binding: None,
        }),
    }
}

fn local_of(ty: usize, init: usize) -> LocalVariable {
    LocalVariable {
        name: None,
        ty: Index::new(ty),
        init: Some(Index::new(init)),
    }
}

fn add_local(
    list: &mut Arena<LocalVariable>,
    local: Option<(usize, usize)>,
) -> Result<(), AllocError> {
    match local {
        None => Ok(()),
        Some((ty, init)) => put(list, local_of(ty, init), NONE),
    }
}

fn add_name(
    list: &mut NamedExpressions,
    named: Option<usize>,
    alloc: Global,
) -> Result<(), AllocError> {
    if let Some(place) = named {
        let text = String::from_str(alloc, "x")?;
        list.insert(alloc, Index::new(place), text)?;
    }
    Ok(())
}

fn add_part(list: &mut Arena<Expression>, part: FormPart, alloc: Global) -> Result<(), AllocError> {
    let expression = expression_of(part.0, part.1, alloc)?;
    put(list, expression, NONE)
}

fn add_parts(
    list: &mut Arena<Expression>,
    parts: &[FormPart],
    alloc: Global,
) -> Result<(), AllocError> {
    for part in parts {
        add_part(list, *part, alloc)?;
    }
    Ok(())
}

fn step_of(step: Step, alloc: Global) -> Result<Statement, AllocError> {
    match step {
        Emit(start, end) => Ok(Statement::Emit(PlaceRange::new(start, end))),
        Store(to, from) => Ok(Statement::Store {
            pointer: Index::new(to),
            value: Index::new(from),
        }),
        Give(place) => Ok(Statement::SubgroupBallot {
            result: Index::new(place),
            predicate: None,
        }),
        Step::Call(callee, place) => Ok(Statement::Call {
            callee: Index::new(callee),
            arguments: Vec::new(alloc),
            result: Some(Index::new(place)),
        }),
        Kill(_, _) => Ok(Statement::Kill),
        Step::Every(kind) => statement_of(kind, alloc),
    }
}

fn span_of(step: Step) -> Span {
    match step {
        Kill(start, end) => Span::new(start, end),
        _ => NONE,
    }
}

fn add_step(
    body: &mut Vec<(Statement, Span)>,
    step: Step,
    alloc: Global,
) -> Result<(), AllocError> {
    let statement = step_of(step, alloc)?;
    body.push((statement, span_of(step)))?;
    Ok(())
}

fn add_steps(
    body: &mut Vec<(Statement, Span)>,
    steps: &[Step],
    alloc: Global,
) -> Result<(), AllocError> {
    for step in steps {
        add_step(body, *step, alloc)?;
    }
    Ok(())
}

/// The function of nothing.
fn nothing_of(alloc: Global) -> Function {
    Function {
        name: None,
        arguments: Vec::new(alloc),
        result: None,
        local_variables: Arena::new(alloc),
        expressions: Arena::new(alloc),
        named_expressions: NamedExpressions::new(),
        body: Block {
            body: Vec::new(alloc),
        },
        diagnostic_filter_leaf: None,
    }
}

fn fill_function(function: &mut Function, shape: &Shape, alloc: Global) -> Result<(), AllocError> {
    function.result = given_of(shape.given);
    set_name(&mut function.name, shape.name, alloc)?;
    add_argument(&mut function.arguments, shape.argument)?;
    add_local(&mut function.local_variables, shape.local)?;
    add_parts(&mut function.expressions, shape.parts, alloc)?;
    add_name(&mut function.named_expressions, shape.named, alloc)?;
    add_steps(&mut function.body.body, shape.steps, alloc)
}

fn function_of(shape: &Shape, alloc: Global) -> Result<Function, AllocError> {
    let mut function = nothing_of(alloc);
    fill_function(&mut function, shape, alloc)?;
    Ok(function)
}

fn mesh_of(output: Option<usize>) -> Option<MeshInfo> {
    match output {
        None => None,
        Some(output) => Some(MeshInfo {
            vertex_output_type: Index::new(0),
            primitive_output_type: Index::new(0),
            output: Index::new(output),
            max_vertices: None,
            max_primitives: None,
            topology: 0,
        }),
    }
}

fn sizes_of(size: Option<usize>) -> Option<[Option<Handle<Expression>>; 3]> {
    match size {
        None => None,
        Some(place) => Some([None, Some(Index::new(place)), None]),
    }
}

fn entry_of(function: Function, entry: &Entry, alloc: Global) -> EntryPoint {
    EntryPoint {
        name: String::new(alloc),
        stage: 0,
        early_depth_test: None,
        workgroup_size: [1, 1, 1],
        workgroup_size_overrides: sizes_of(entry.size),
        function,
        mesh_info: mesh_of(entry.output),
        task_payload: handle_of(entry.payload),
    }
}

fn type_of(inner: TypeInner) -> Type {
    Type { name: None, inner }
}

fn add_type(types: &mut UniqueArena<Type>, item: Type, span: Span) -> Result<(), AllocError> {
    types.insert(item, span)?;
    Ok(())
}

fn add_named(types: &mut UniqueArena<Type>, span: Span, alloc: Global) -> Result<(), AllocError> {
    let name = Some(String::from_str(alloc, "t")?);
    let inner = TypeInner::Scalar(2);
    add_type(types, Type { name, inner }, span)
}

fn array_of(base: usize, size: Option<usize>) -> TypeInner {
    let size = match size {
        None => ArraySize::Dynamic,
        Some(place) => ArraySize::Pending(Index::new(place)),
    };
    let base = Index::new(base);
    TypeInner::BindingArray { base, size }
}

fn constant_of(ty: usize, init: usize) -> Constant {
    Constant {
        name: None,
        ty: Index::new(ty),
        init: Index::new(init),
    }
}

fn override_of() -> Override {
    Override {
        name: None,
        id: None,
        ty: Index::new(0),
        init: None,
    }
}

fn global_of() -> GlobalVariable {
    GlobalVariable {
        name: None,
        space: 0,
        binding: None,
        ty: Index::new(0),
        init: None,
    }
}

fn add_special(special: &mut SpecialTypes, key: u64, ty: usize) -> Result<(), AllocError> {
    match key {
        0 => special.ray_desc = Some(Index::new(ty)),
        1 => special.ray_intersection = Some(Index::new(ty)),
        _ => {
            special.predeclared_types.insert(key, Index::new(ty))?;
        }
    }
    Ok(())
}

fn add_function(
    list: &mut Arena<Function>,
    shape: &Shape,
    alloc: Global,
) -> Result<(), AllocError> {
    let function = function_of(shape, alloc)?;
    put(list, function, shape.span)
}

fn add_entry(list: &mut Vec<EntryPoint>, entry: &Entry, alloc: Global) -> Result<(), AllocError> {
    let function = function_of(&entry.shape, alloc)?;
    list.push(entry_of(function, entry, alloc))?;
    Ok(())
}

fn add(module: &mut Module, added: &Added, alloc: Global) -> Result<(), AllocError> {
    match added {
        Added::Unnamed(start, end) => {
            let unnamed = type_of(TypeInner::Scalar(1));
            add_type(&mut module.types, unnamed, Span::new(*start, *end))
        }
        Added::Named(start, end) => { add_named(&mut module.types, Span::new(*start, *end), alloc) }
        Array(base, size) => add_type(&mut module.types, type_of(array_of(*base, *size)), NONE),
        Added::Constant(ty, init) => put(&mut module.constants, constant_of(*ty, *init), NONE),
        Added::Override => put(&mut module.overrides, override_of(), NONE),
        Added::Global => put(&mut module.global_variables, global_of(), NONE),
        Added::Expression(part) => add_part(&mut module.global_expressions, *part, alloc),
        Special(key, ty) => add_special(&mut module.special_types, *key, *ty),
        Shaped(shape) => add_function(&mut module.functions, shape, alloc),
        Entered(entry) => add_entry(&mut module.entry_points, entry, alloc),
    }
}

fn add_all(module: &mut Module, items: &[Added], alloc: Global) -> Result<(), AllocError> {
    for item in items {
        add(module, item, alloc)?;
    }
    Ok(())
}

/// Whether a module is taken, over a text of ten bytes, once items are added to it.
fn is_filled_taken(
    module: &mut Module,
    small: &[Added],
    items: &[Added],
    decoration: &str,
    alloc: Global,
) -> Result<bool, AllocError> {
    add_all(module, small, alloc)?;
    add_all(module, items, alloc)?;
    match check_form(module, alloc, decoration, 10) {
        Ok(()) => Ok(true),
        Err(FormFault::WrongForm) => Ok(false),
        Err(FormFault::Memory) => Err(AllocError),
    }
}

/// Whether a module is taken of the small module's items and others.
fn is_taken(
    small: &[Added],
    items: &[Added],
    decoration: &str,
    alloc: Global,
) -> Result<bool, AllocError> {
    let mut module = Module::new(alloc);
    is_filled_taken(&mut module, small, items, decoration, alloc)
}

/// Whether the test of form has the expected result for a module.
fn is_told(small: &[Added], case: Case, alloc: Global) -> bool {
    let (items, decoration, should) = case;
    matches!(is_taken(small, items, decoration, alloc), Ok(taken) if taken == should)
}

/// Asserts the result of the test of form for the small module, with the additions of each case.
fn tells(rt: &(impl Abort + AllocGlobal), cases: &[Case]) {
    for case in cases {
        assert!(rt; is_told(&SMALL, *case, rt.alloc()));
    }
}

#[rattlefmt::skip]
const EMPTY: Case = (&[], "", true);

#[test]
fn an_empty_module_is_taken(rt: HostRuntime) {
    assert!(rt; is_told(&[], EMPTY, rt.alloc()));
}

/// An entry point of no name.
#[rattlefmt::skip]
const LAST: Added = Entered(Entry { shape: Shape { name: None, ..G }, size: None, output: None, payload: None });

#[rattlefmt::skip]
static APART: [Case; 3] = [
    (&[Shaped(Shape { name: None, ..G })], "", false),
    (&[Shaped(Shape { name: Some("f"), ..G })], "", false),
    (&[Shaped(Shape { name: Some("g"), ..G })], "", true),
];

#[test]
fn functions_are_named_and_apart(rt: HostRuntime) {
    tells(&rt, &APART);
}

#[rattlefmt::skip]
static DECORATED: [Case; 3] = [
    (&[Shaped(Shape { name: Some("fX_naga_oil_mod_XMEX"), ..G })], "", true),
    (&[Shaped(Shape { name: Some("fX_naga_oil_mod_XMEX"), ..G })], "X_naga_oil_mod_XMEX", false),
    (&[Shaped(Shape { name: Some("fX_naga_oil_mod_XMEX"), ..G })], "X_naga_oil_mod_XMIX", true),
];

#[test]
fn names_are_decorated(rt: HostRuntime) {
    tells(&rt, &DECORATED);
}

#[rattlefmt::skip]
static ENTRIES: [Case; 3] = [
    (&[Added::Global, Entered(Entry { shape: Shape { name: Some("f"), ..G }, size: None, output: None, payload: None }), LAST], "", true),
    (&[Added::Global, Entered(Entry { shape: Shape { name: Some("main"), ..G }, size: None, output: None, payload: None }), LAST], "", false),
    (&[Added::Global, Entered(Entry { shape: Shape { name: None, ..G }, size: None, output: None, payload: None }), LAST], "", false),
];

#[test]
fn entry_points_are_apart(rt: HostRuntime) {
    tells(&rt, &ENTRIES);
}

#[rattlefmt::skip]
static NAMED_BY_ENTRIES: [Case; 4] = [
    (&[Added::Global, Entered(Entry { shape: G, size: Some(0), output: Some(0), payload: Some(0) }), LAST], "", true),
    (&[Added::Global, Entered(Entry { shape: G, size: Some(1), output: Some(0), payload: Some(0) }), LAST], "", false),
    (&[Added::Global, Entered(Entry { shape: G, size: Some(0), output: Some(1), payload: Some(0) }), LAST], "", false),
    (&[Added::Global, Entered(Entry { shape: G, size: Some(0), output: Some(0), payload: Some(1) }), LAST], "", false),
];

#[test]
fn what_entry_points_name_is_there(rt: HostRuntime) {
    tells(&rt, &NAMED_BY_ENTRIES);
}

#[rattlefmt::skip]
static NAMED_BY_FUNCTIONS: [Case; 6] = [
    (&[Shaped(Shape { argument: Some(0), given: Some(0), local: Some((0, 0)), named: Some(0), parts: &[LITERAL], ..G })], "", true),
    (&[Shaped(Shape { argument: Some(1), given: Some(0), local: Some((0, 0)), named: Some(0), parts: &[LITERAL], ..G })], "", false),
    (&[Shaped(Shape { argument: Some(0), given: Some(1), local: Some((0, 0)), named: Some(0), parts: &[LITERAL], ..G })], "", false),
    (&[Shaped(Shape { argument: Some(0), given: Some(0), local: Some((1, 0)), named: Some(0), parts: &[LITERAL], ..G })], "", false),
    (&[Shaped(Shape { argument: Some(0), given: Some(0), local: Some((0, 1)), named: Some(0), parts: &[LITERAL], ..G })], "", false),
    (&[Shaped(Shape { argument: Some(0), given: Some(0), local: Some((0, 0)), named: Some(1), parts: &[LITERAL], ..G })], "", false),
];

#[test]
fn what_functions_name_is_there(rt: HostRuntime) {
    tells(&rt, &NAMED_BY_FUNCTIONS);
}

#[rattlefmt::skip]
static NAMED_BY_EXPRESSIONS: [Case; 8] = [
    (&[Shaped(Shape { parts: &[(ZERO, 0)], ..G })], "", true),
    (&[Shaped(Shape { parts: &[(ZERO, 1)], ..G })], "", false),
    (&[Shaped(Shape { parts: &[(CONSTANT, 0)], ..G })], "", true),
    (&[Shaped(Shape { parts: &[(CONSTANT, 1)], ..G })], "", false),
    (&[Shaped(Shape { parts: &[(CALL_RESULT, 1)], ..G })], "", true),
    (&[Shaped(Shape { parts: &[(CALL_RESULT, 2)], ..G })], "", false),
    (&[Shaped(Shape { parts: &[(LOCAL, 0)], ..G })], "", false),
    (&[Shaped(Shape { parts: &[(ARGUMENT, 0)], ..G })], "", false),
];

#[test]
fn what_expressions_name_is_there(rt: HostRuntime) {
    tells(&rt, &NAMED_BY_EXPRESSIONS);
}

#[rattlefmt::skip]
static EARLIER_OPERANDS: [Case; 3] = [
    (&[Shaped(Shape { parts: &[LITERAL, (NEGATION, 0), LITERAL], ..G })], "", true),
    (&[Shaped(Shape { parts: &[LITERAL, (NEGATION, 1), LITERAL], ..G })], "", false),
    (&[Shaped(Shape { parts: &[LITERAL, (NEGATION, 2), LITERAL], ..G })], "", false),
];

#[test]
fn operands_are_earlier(rt: HostRuntime) {
    tells(&rt, &EARLIER_OPERANDS);
}

#[rattlefmt::skip]
static CALLS: [Case; 4] = [
    (&[Shaped(Shape { parts: &[(CALL_RESULT, 0)], steps: &[Step::Call(0, 0), HERE, HERE], ..G })], "", true),
    (&[Shaped(Shape { parts: &[(CALL_RESULT, 1)], steps: &[Step::Call(1, 0), HERE, HERE], ..G })], "", false),
    (&[Shaped(Shape { parts: &[(CALL_RESULT, 1)], steps: &[Step::Call(0, 0), HERE, HERE], ..G })], "", false),
    (&[Shaped(Shape { parts: &[BALLOT], steps: &[Step::Call(0, 0), HERE, HERE], ..G })], "", false),
];

#[test]
fn calls_go_to_earlier_functions(rt: HostRuntime) {
    tells(&rt, &CALLS);
}

#[rattlefmt::skip]
static GIVEN_ONCE: [Case; 4] = [
    (&[Shaped(Shape { parts: &[BALLOT], steps: &[Give(0), HERE, HERE], ..G })], "", true),
    (&[Shaped(Shape { parts: &[BALLOT], steps: &[Give(0), HERE, Give(0)], ..G })], "", false),
    (&[Shaped(Shape { parts: &[LITERAL], steps: &[Give(0), HERE, HERE], ..G })], "", false),
    (&[Shaped(Shape { parts: &[(CALL_RESULT, 0)], steps: &[Give(0), HERE, HERE], ..G })], "", false),
];

#[test]
fn results_are_given_once(rt: HostRuntime) {
    tells(&rt, &GIVEN_ONCE);
}

const NEGATED: &[FormPart] = &[LITERAL, (NEGATION, 0), BALLOT];

#[rattlefmt::skip]
static KNOWN_OPERANDS: [Case; 6] = [
    (&[Shaped(Shape { parts: NEGATED, steps: &[Emit(1, 2), Store(0, 1), Give(2)], ..G })], "", true),
    (&[Shaped(Shape { parts: NEGATED, steps: &[Give(2), Store(2, 0), Emit(1, 2)], ..G })], "", true),
    (&[Shaped(Shape { parts: NEGATED, steps: &[Give(2), Store(0, 1), Emit(1, 2)], ..G })], "", false),
    (&[Shaped(Shape { parts: NEGATED, steps: &[Emit(1, 2), Store(2, 0), Give(2)], ..G })], "", false),
    (&[Shaped(Shape { parts: NEGATED, steps: &[Emit(1, 2), Store(0, 3), Give(2)], ..G })], "", false),
    (&[Shaped(Shape { parts: NEGATED, steps: &[Emit(1, 2), Store(0, 1), Emit(1, 2)], ..G })], "", false),
];

#[test]
fn operands_are_known(rt: HostRuntime) {
    tells(&rt, &KNOWN_OPERANDS);
}

const TWICE_NEGATED: &[FormPart] = &[LITERAL, (NEGATION, 0), (NEGATION, 1), BALLOT];

#[rattlefmt::skip]
static EMITTED: [Case; 7] = [
    (&[Shaped(Shape { parts: TWICE_NEGATED, steps: &[HERE, HERE, Emit(1, 3)], ..G })], "", true),
    (&[Shaped(Shape { parts: TWICE_NEGATED, steps: &[HERE, HERE, Emit(4, 4)], ..G })], "", true),
    (&[Shaped(Shape { parts: TWICE_NEGATED, steps: &[HERE, HERE, Emit(0, 1)], ..G })], "", false),
    (&[Shaped(Shape { parts: TWICE_NEGATED, steps: &[HERE, HERE, Emit(2, 3)], ..G })], "", false),
    (&[Shaped(Shape { parts: TWICE_NEGATED, steps: &[HERE, HERE, Emit(3, 4)], ..G })], "", false),
    (&[Shaped(Shape { parts: TWICE_NEGATED, steps: &[HERE, HERE, Emit(4, 5)], ..G })], "", false),
    (&[Shaped(Shape { parts: TWICE_NEGATED, steps: &[HERE, HERE, Emit(2, 1)], ..G })], "", false),
];

#[test]
fn emitted_ranges_are_fine(rt: HostRuntime) {
    tells(&rt, &EMITTED);
}

#[rattlefmt::skip]
static INITIALISERS: [Case; 2] = [
    (&[Shaped(Shape { local: Some((0, 1)), parts: &[LITERAL, (NEGATION, 0)], steps: &[Store(1, 1), HERE, HERE], ..G })], "", true),
    (&[Shaped(Shape { local: Some((0, 1)), parts: &[BALLOT, (NEGATION, 0)], steps: &[Store(1, 1), HERE, HERE], ..G })], "", false),
];

#[test]
fn initialisers_reach_no_result(rt: HostRuntime) {
    tells(&rt, &INITIALISERS);
}

#[rattlefmt::skip]
static SPANS: [Case; 12] = [
    (&[Shaped(Shape { steps: &[Kill(0, 0), Kill(0, 0), Kill(0, 0)], ..G })], "", true),
    (&[Shaped(Shape { span: Span { start: 0, end: 0 }, ..G })], "", true),
    (&[Added::Named(0, 0)], "", true),
    (&[Shaped(Shape { steps: &[Kill(2, 10), Kill(2, 10), Kill(2, 10)], ..G })], "", true),
    (&[Shaped(Shape { span: Span { start: 2, end: 10 }, ..G })], "", true),
    (&[Added::Named(2, 10)], "", true),
    (&[Shaped(Shape { steps: &[Kill(2, 11), Kill(2, 11), Kill(2, 11)], ..G })], "", false),
    (&[Shaped(Shape { span: Span { start: 2, end: 11 }, ..G })], "", false),
    (&[Added::Named(2, 11)], "", false),
    (&[Shaped(Shape { steps: &[Kill(3, 2), Kill(3, 2), Kill(3, 2)], ..G })], "", false),
    (&[Shaped(Shape { span: Span { start: 3, end: 2 }, ..G })], "", false),
    (&[Added::Named(3, 2)], "", false),
];

#[test]
fn spans_lie_in_the_text(rt: HostRuntime) {
    tells(&rt, &SPANS);
}

#[rattlefmt::skip]
static EARLIER_TYPES: [Case; 4] = [
    (&[Array(0, None)], "", true),
    (&[Array(1, None)], "", false),
    (&[Array(2, None)], "", false),
    (&[Array(0, Some(0))], "", false),
];

#[test]
fn types_name_earlier_types(rt: HostRuntime) {
    tells(&rt, &EARLIER_TYPES);
}

#[rattlefmt::skip]
static SIZED_TYPES: [Case; 4] = [
    (&[Added::Override, Array(0, Some(0)), Array(1, None), Added::Global], "", true),
    (&[Added::Override, Array(0, Some(0)), Array(1, None), Added::Constant(2, 0)], "", false),
    (&[Added::Override, Array(0, Some(0)), Array(1, None), Added::Expression((ZERO, 1))], "", false),
    (&[Added::Override, Array(0, Some(0)), Array(1, None), Special(0, 2)], "", false),
];

#[test]
fn items_name_no_sized_type(rt: HostRuntime) {
    tells(&rt, &SIZED_TYPES);
}

#[rattlefmt::skip]
static GLOBAL_EXPRESSIONS: [Case; 6] = [
    (&[Added::Expression((NEGATION, 0))], "", true),
    (&[Added::Expression((NEGATION, 1))], "", false),
    (&[Added::Expression((CONSTANT, 0))], "", true),
    (&[Added::Expression((CONSTANT, 1))], "", false),
    (&[Added::Expression(BALLOT)], "", false),
    (&[Added::Expression((ARGUMENT, 0))], "", false),
];

#[test]
fn global_expressions_are_fine(rt: HostRuntime) {
    tells(&rt, &GLOBAL_EXPRESSIONS);
}

#[rattlefmt::skip]
static AFTER_INITIALISERS: [Case; 4] = [
    (&[Added::Constant(0, 1), Added::Expression(LITERAL), Added::Expression((CONSTANT, 1)), Added::Expression(LITERAL)], "", true),
    (&[Added::Constant(0, 2), Added::Expression(LITERAL), Added::Expression((CONSTANT, 1)), Added::Expression(LITERAL)], "", false),
    (&[Added::Constant(0, 3), Added::Expression(LITERAL), Added::Expression((CONSTANT, 1)), Added::Expression(LITERAL)], "", false),
    (&[Added::Constant(0, 4), Added::Expression(LITERAL), Added::Expression((CONSTANT, 1)), Added::Expression(LITERAL)], "", false),
];

#[test]
fn expressions_stand_after_initialisers(rt: HostRuntime) {
    tells(&rt, &AFTER_INITIALISERS);
}

#[rattlefmt::skip]
static DISTINCT_SPECIAL_TYPES: [Case; 4] = [
    (&[Array(0, None), Special(0, 0), Special(2, 1)], "", true),
    (&[Array(0, None), Special(0, 0), Special(2, 0)], "", false),
    (&[Array(0, None), Special(0, 0), Special(1, 0)], "", false),
    (&[Array(0, None), Special(0, 0), Special(1, 2)], "", false),
];

#[test]
fn special_types_are_distinct(rt: HostRuntime) {
    tells(&rt, &DISTINCT_SPECIAL_TYPES);
}

#[rattlefmt::skip]
static REACHED_SPECIAL_TYPES: [Case; 2] = [
    (&[Added::Named(0, 0), Array(1, None), Special(0, 2), Special(7, 0)], "", false),
    (&[Added::Named(0, 0), Array(1, None), Special(0, 2), Special(7, 1)], "", true),
];

#[test]
fn special_types_reach_unnamed_types(rt: HostRuntime) {
    tells(&rt, &REACHED_SPECIAL_TYPES);
}
