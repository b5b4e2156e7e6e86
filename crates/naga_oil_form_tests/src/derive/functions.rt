//! Functions that are copied. A test is a case of a table; one driver builds its source, makes the calls, and compares after
//! each call and in the end.
ghost use Rattle.std.specs.Prelude.{IfOk};
ghost use Rattle.naga_oil_ir.specs.ModuleValue.{function_value};
ghost use Rattle.naga_oil_derive.specs.DerivedFunctions.{CanImport, CanCall};

use crate::derive::{holds, set};
use naga_oil_derive::DerivedModule;
use naga_oil_form::check_form::{FormFault, check_form};
use naga_oil_ir::{
    Arena, Block, EntryPoint, Expression, Function, FunctionArgument, Handle, Index, LocalVariable,
    Module, NamedExpressions, Range, Span, Statement, Type, TypeInner,
};
use std::alloc::{AllocError, Global};
use std::test::Fail;

mod deep;
mod entered;
mod kinds;
mod refused;

const NONE: Span = Span::UNDEFINED;

/// The parts of a function.
#[derive(Clone, Copy)]
enum Row {
    /// A local variable.
    Leaf,
    /// A call of the first function.
    Caller,
    /// A sum that is emitted after its operands, and a literal that nothing uses.
    Summed,
    /// An emitted range whose first place an initialiser reaches.
    Initialised,
    /// Two initialisers that read alike.
    Merged,
    /// Sums, each of the one before it with itself.
    Doubled,
}

use Row::{Caller, Doubled, Initialised, Leaf, Merged, Summed};

/// What holds of the copy of a function.
#[derive(Clone, Copy)]
enum Fact {
    /// The number of the function's expressions, and of their names.
    Length(usize),
    Names(usize),
    Locals(usize),
    /// An expression at a place: an argument, a literal, or a sum of two others.
    Argument(usize, u32),
    Literal(usize, u64),
    Sum(usize, usize, usize),
    /// The first statement emits from a place up to another.
    Emits(usize, usize),
    /// The expression at a place has a name.
    Named(usize, &'static str),
    /// The first statement calls some function.
    Calls,
}

use Fact::{Argument, Calls, Emits, Length, Literal, Locals, Named, Names, Sum};

static LEAF: [Fact; 1] = [Locals(1)];

static CALLER: [Fact; 1] = [Calls];

static SUMMED: [Fact; 7] = [
    Length(3),
    Argument(0, 0),
    Literal(1, 7),
    Sum(2, 0, 1),
    Emits(2, 3),
    Names(1),
    Named(2, "s"),
];

static INITIALISED: [Fact; 2] = [Length(3), Emits(2, 3)];

static MERGED: [Fact; 2] = [Length(1), Named(0, "q")];

static DOUBLED: [Fact; 2] = [Length(65), Emits(1, 65)];

fn facts_of(row: Row) -> &'static [Fact] {
    match row {
        Leaf => &LEAF,
        Caller => &CALLER,
        Summed => &SUMMED,
        Initialised => &INITIALISED,
        Merged => &MERGED,
        Doubled => &DOUBLED,
    }
}

/// The request of a function: as a copy alone, by its handle, if it is new, or again.
#[derive(Clone, Copy)]
enum Way {
    Alone,
    Mapped,
    IfNew(Span),
    Again(Span),
}

use Way::{Again, Alone, IfNew, Mapped};

/// The request of a function, its place, and the expected place of its copy.
type Call = (Way, usize, usize);

/// The name of a function and its span, where a span is expected.
type End = (&'static str, Option<Span>);

/// The functions of a source with their names, whether it has an entry point that calls the second, the offset of its text,
/// the requests, and the expected functions at the end, where there are any.
struct Case {
    rows: &'static [(Row, &'static str)],
    is_entered: bool,
    offset: usize,
    calls: &'static [Call],
    ends: Option<&'static [End]>,
}

static ONE_SUM: Case = Case {
    rows: &[(Summed, "f")],
    is_entered: false,
    offset: 0,
    calls: &[(Alone, 0, 0)],
    ends: Some(&[]),
};

static ONE_INITIALISED: Case = Case {
    rows: &[(Initialised, "f")],
    is_entered: false,
    offset: 0,
    calls: &[(Alone, 0, 0)],
    ends: Some(&[]),
};

static ONE_MERGED: Case = Case {
    rows: &[(Merged, "f")],
    is_entered: false,
    offset: 0,
    calls: &[(Alone, 0, 0)],
    ends: Some(&[]),
};

static ONE_DOUBLED: Case = Case {
    rows: &[(Doubled, "f")],
    is_entered: false,
    offset: 0,
    calls: &[(Alone, 0, 0)],
    ends: Some(&[]),
};

/// The second function calls the first, and is requested twice.
static CALLING: Case = Case {
    rows: &[(Leaf, "f"), (Caller, "g")],
    is_entered: true,
    offset: 100,
    calls: &[
        (Mapped, 1, 1),
        (IfNew(NONE), 1, 1),
        (Again(Span { start: 5, end: 6 }), 1, 2),
    ],
    ends: Some(&[
        ("f", None),
        (
            "g",
            Some(Span {
                start: 103,
                end: 104,
            }),
        ),
        ("g", None),
    ]),
};

/// A function of nothing.
fn function(name: &str, alloc: Global) -> Result<Function, AllocError> {
    Ok(Function {
        name: Some(String::from_str(alloc, name)?),
        arguments: Vec::new(alloc),
        result: None,
        local_variables: Arena::new(alloc),
        expressions: Arena::new(alloc),
        named_expressions: NamedExpressions::new(),
        body: Block {
            body: Vec::new(alloc),
        },
        diagnostic_filter_leaf: Some(1),
    })
}

/// Makes a body call the function at a place.
fn add_call(function: &mut Function, place: usize, alloc: Global) -> Result<(), AllocError> {
    let statement = Statement::Call {
        callee: Index::new(place),
        arguments: Vec::new(alloc),
        result: None,
    };
    function.body.body.push((statement, NONE))?;
    Ok(())
}

fn add_emit(function: &mut Function, start: usize, end: usize) -> Result<(), AllocError> {
    let statement = Statement::Emit(Range::<Expression>::new(start, end));
    function.body.body.push((statement, NONE))?;
    Ok(())
}

fn add_return(function: &mut Function, place: usize) -> Result<(), AllocError> {
    let value = Some(Index::new(place));
    let statement = Statement::Return { value };
    function.body.body.push((statement, NONE))?;
    Ok(())
}

fn add(function: &mut Function, expression: Expression) -> Result<(), AllocError> {
    function.expressions.append(expression, NONE)?;
    Ok(())
}

fn add_local(function: &mut Function, init: Option<usize>) -> Result<(), AllocError> {
    let init = match init {
        Some(place) => Some(Index::new(place)),
        None => None,
    };
    let local = LocalVariable {
        name: None,
        ty: Index::new(0),
        init,
    };
    function.local_variables.append(local, NONE)?;
    Ok(())
}

fn add_name(f: &mut Function, place: usize, name: &str, alloc: Global) -> Result<(), AllocError> {
    let name = String::from_str(alloc, name)?;
    f.named_expressions.insert(alloc, Index::new(place), name)?;
    Ok(())
}

fn literal(bits: u64) -> Expression {
    Expression::Literal { kind: 0, bits }
}

fn sum(left: usize, right: usize) -> Expression {
    Expression::Binary {
        op: 3,
        left: Index::new(left),
        right: Index::new(right),
    }
}

fn add_sum(f: &mut Function, alloc: Global) -> Result<(), AllocError> {
    add(f, literal(7))?;
    add(f, Expression::FunctionArgument(0))?;
    add(f, sum(1, 0))?;
    add(f, literal(9))?;
    add_emit(f, 2, 3)?;
    add_return(f, 2)?;
    add_name(f, 2, "s", alloc)?;
    add_name(f, 3, "t", alloc)
}

fn add_initialiser(f: &mut Function) -> Result<(), AllocError> {
    let value = Index::new(0);
    let expr = Index::new(1);
    add(f, literal(7))?;
    add(f, Expression::Splat { size: 2, value })?;
    add(f, Expression::Unary { op: 1, expr })?;
    add_local(f, Some(1))?;
    add_emit(f, 1, 3)?;
    add_return(f, 2)
}

fn add_equal_initialisers(f: &mut Function, alloc: Global) -> Result<(), AllocError> {
    add(f, literal(7))?;
    add(f, literal(7))?;
    add_local(f, Some(0))?;
    add_local(f, Some(1))?;
    add_name(f, 0, "p", alloc)?;
    add_name(f, 1, "q", alloc)
}

fn add_doubled(f: &mut Function) -> Result<(), AllocError> {
    add(f, literal(7))?;
    for place in 0..64 {
        add(f, sum(place, place))?;
    }
    add_emit(f, 1, 65)?;
    add_return(f, 64)
}

fn add_row(f: &mut Function, row: Row, alloc: Global) -> Result<(), AllocError> {
    match row {
        Leaf => add_local(f, None),
        Caller => add_call(f, 0, alloc),
        Summed => add_sum(f, alloc),
        Initialised => add_initialiser(f),
        Merged => add_equal_initialisers(f, alloc),
        Doubled => add_doubled(f),
    }
}

/// A leaf and a caller have a span, and the others an argument.
fn span_of(row: Row) -> Span {
    match row {
        Leaf => Span::new(1, 2),
        Caller => Span::new(3, 4),
        _ => NONE,
    }
}

fn add_argument(f: &mut Function, row: Row) -> Result<(), AllocError> {
    if matches!(row, Leaf | Caller) {
        return Ok(());
    }
    f.arguments.push(FunctionArgument {
        name: None,
        ty: Index::new(0),
        binding: None,
    })?;
    Ok(())
}

fn draw(f: &mut Function, row: Row, alloc: Global) -> Result<(), AllocError> {
    add_row(f, row, alloc)?;
    add_argument(f, row)
}

fn add_type(module: &mut Module) -> Result<(), AllocError> {
    let inner = TypeInner::Scalar(1);
    module.types.insert(Type { name: None, inner }, NONE)?;
    Ok(())
}

/// Puts in a type and a function.
fn put(module: &mut Module, row: Row, name: &str, alloc: Global) -> Result<(), AllocError> {
    add_type(module)?;
    let mut f = function(name, alloc)?;
    draw(&mut f, row, alloc)?;
    module.functions.append(f, span_of(row))?;
    Ok(())
}

fn entry(name: String, function: Function) -> EntryPoint {
    EntryPoint {
        name,
        stage: 2,
        early_depth_test: None,
        workgroup_size: [1, 2, 3],
        workgroup_size_overrides: None,
        function,
        mesh_info: None,
        task_payload: None,
    }
}

/// Puts in an entry point that calls the second function.
fn add_entry(module: &mut Module, alloc: Global) -> Result<(), AllocError> {
    let mut main = function("main", alloc)?;
    add_call(&mut main, 1, alloc)?;
    let name = String::from_str(alloc, "start")?;
    module.entry_points.push(entry(name, main))?;
    Ok(())
}

fn fill(module: &mut Module, case: &Case, alloc: Global) -> Result<(), AllocError> {
    if case.is_entered {
        add_entry(module, alloc)?;
    }
    for (row, name) in case.rows {
        put(module, *row, name, alloc)?;
    }
    Ok(())
}

/// A function of the source, whose form is tested first.
fn function_at<'a>(
    derived: &DerivedModule<'a>,
    place: usize,
    alloc: Global,
) -> Result<&'a Function, FormFault>
    ensures { IfOk result (λ f. CanImport derived.now (function_value f.now)) }
{
    let Some(source) = derived.source() else {
        return Err(FormFault::WrongForm);
    };
    check_form(source, alloc, "", 1000)?;
    match source.functions.try_get(Index::new(place)) {
        Some(function) => Ok(function),
        None => Err(FormFault::WrongForm),
    }
}

/// The place of a function of the source, whose form is tested first.
fn place_of(
    derived: &DerivedModule<'_>,
    place: usize,
    alloc: Global,
) -> Result<Handle<Function>, FormFault>
    ensures { IfOk result (CanCall derived.now) }
{
    let Some(source) = derived.source() else {
        return Err(FormFault::WrongForm);
    };
    check_form(source, alloc, "", 1000)?;
    if place < source.functions.len() {
        return Ok(Index::new(place));
    }
    Err(FormFault::WrongForm)
}

fn again(
    derived: &mut DerivedModule<'_>,
    place: usize,
    span: Span,
    alloc: Global,
) -> Result<usize, FormFault> {
    let f = function_at(derived, place, alloc)?;
    Ok(derived.import_function(f, span)?.index())
}

fn if_new(
    derived: &mut DerivedModule<'_>,
    place: usize,
    span: Span,
    alloc: Global,
) -> Result<usize, FormFault> {
    let f = function_at(derived, place, alloc)?;
    Ok(derived.import_function_if_new(f, span)?.index())
}

/// Copies the function at a place.
fn mapped(
    derived: &mut DerivedModule<'_>,
    place: usize,
    alloc: Global,
) -> Result<usize, FormFault> {
    let place = place_of(derived, place, alloc)?;
    Ok(derived.map_function_handle(&place)?.index())
}

fn localized(
    derived: &mut DerivedModule<'_>,
    place: usize,
    alloc: Global,
) -> Result<Function, FormFault> {
    let f = function_at(derived, place, alloc)?;
    Ok(derived.localize_function(f)?)
}

fn is_argument(f: &Function, at: usize, place: u32) -> bool {
    match f.expressions.try_get(Index::new(at)) {
        Some(Expression::FunctionArgument(found)) => *found == place,
        _ => false,
    }
}

fn is_literal(f: &Function, at: usize, wanted: u64) -> bool {
    match f.expressions.try_get(Index::new(at)) {
        Some(Expression::Literal { kind, bits }) => *kind == 0 && *bits == wanted,
        _ => false,
    }
}

fn is_sum(f: &Function, at: usize, first: usize, second: usize) -> bool {
    match f.expressions.try_get(Index::new(at)) {
        Some(Expression::Binary { op, left, right }) => {
            *op == 3 && left.index() == first && right.index() == second
        }
        _ => false,
    }
}

fn emits(f: &Function, start: usize, end: usize) -> bool {
    match f.body.body.first() {
        Some((Statement::Emit(range), _)) => range.start() == start && range.end() == end,
        _ => false,
    }
}

fn names_so(f: &Function, at: usize, wanted: &str) -> bool {
    match f.named_expressions.get(Index::new(at)) {
        Some(name) => name.as_str() == wanted,
        None => false,
    }
}

/// The place of what the first statement calls.
fn calls(f: &Function) -> Option<usize> {
    match f.body.body.first() {
        Some((Statement::Call { callee, .. }, _)) => Some(callee.index()),
        _ => None,
    }
}

fn is_fact(f: &Function, fact: Fact) -> bool {
    match fact {
        Length(length) => f.expressions.len() == length,
        Names(length) => f.named_expressions.len() == length,
        Locals(length) => f.local_variables.len() == length,
        Argument(at, place) => is_argument(f, at, place),
        Literal(at, bits) => is_literal(f, at, bits),
        Sum(at, left, right) => is_sum(f, at, left, right),
        Emits(start, end) => emits(f, start, end),
        Named(at, name) => names_so(f, at, name),
        Calls => calls(f).is_some(),
    }
}

/// Whether the copy of a function is the expected one.
fn is_row(f: &Function, row: Row) -> bool {
    for fact in facts_of(row) {
        if !is_fact(f, *fact) {
            return false;
        }
    }
    true
}

fn is_named(f: &Function, wanted: &str) -> bool {
    match &f.name {
        Some(name) => name.as_str() == wanted,
        None => false,
    }
}

fn is_named_at(module: &Module, place: usize, wanted: &str) -> bool {
    match module.functions.try_get(Index::new(place)) {
        Some(f) => is_named(f, wanted),
        None => false,
    }
}

/// Whether a function that calls another one calls f.
fn calls_f(module: &Module, f: &Function) -> bool {
    match calls(f) {
        Some(place) => is_named_at(module, place, "f"),
        None => true,
    }
}

/// Whether a module has the copy of the row with this name at a place.
fn is_copy(module: &Module, at: usize, row: Row, name: &str) -> bool {
    match module.functions.try_get(Index::new(at)) {
        Some(copy) => is_named(copy, name) && calls_f(module, copy) && is_row(copy, row),
        None => false,
    }
}

/// The start of a function's span, its first callee, and the number of its expressions.
type Noted = Option<(u32, Option<usize>, usize)>;

fn noted(module: &Module, place: usize) -> Noted {
    let place = Index::new(place);
    let function = module.functions.try_get(place)?;
    let start = module.functions.get_span(place).start;
    Some((start, calls(function), function.expressions.len()))
}

fn notes_of(module: &Module) -> [Noted; 8] {
    let mut notes = [None; 8];
    for place in 0..8 {
        notes[place] = noted(module, place);
    }
    notes
}

/// Whether the noted functions are unchanged.
fn keeps(module: &Module, notes: &[Noted; 8]) -> bool {
    for place in 0..8 {
        if notes[place].is_some() && notes[place] != noted(module, place) {
            return false;
        }
    }
    true
}

/// Whether a copy alone is the expected one.
fn is_alone(copy: &Result<Function, FormFault>, row: Row) -> Option<bool> {
    match copy {
        Ok(copy) => Some(is_row(copy, row)),
        Err(_) => None,
    }
}

fn makes_alone(
    derived: &mut DerivedModule<'_>,
    row: Row,
    place: usize,
    alloc: Global,
) -> Option<bool> {
    let copy = localized(derived, place, alloc);
    is_alone(&copy, row)
}

fn placed(
    derived: &mut DerivedModule<'_>,
    way: Way,
    place: usize,
    alloc: Global,
) -> Result<usize, FormFault> {
    match way {
        Again(span) => again(derived, place, span, alloc),
        IfNew(span) => if_new(derived, place, span, alloc),
        _ => mapped(derived, place, alloc),
    }
}

/// Whether a call makes the expected copy, at its place, or up to some places after it; absent where it is refused.
fn makes(
    derived: &mut DerivedModule<'_>,
    case: &Case,
    call: Call,
    tries: usize,
    alloc: Global,
) -> Option<bool> {
    let (way, place, wanted) = call;
    let (row, name) = *case.rows.get(place)?;
    if matches!(way, Alone) {
        return makes_alone(derived, row, place, alloc);
    }
    let at = placed(derived, way, place, alloc).ok()?;
    let is_there = wanted <= at && at - wanted < tries;
    Some(is_there && is_copy(derived.module(), at, row, name))
}

/// Whether one of the calls makes the copy, and all keep the functions before. Before the copy may be one without memory for its
/// name.
fn is_made(
    derived: &mut DerivedModule<'_>,
    case: &Case,
    call: Call,
    tries: usize,
    alloc: Global,
) -> bool {
    for _ in 0..tries {
        let notes = notes_of(derived.module());
        let made = makes(derived, case, call, tries, alloc);
        if !keeps(derived.module(), &notes) {
            return false;
        }
        if let Some(is_made) = made {
            return is_made;
        }
    }
    false
}

fn are_made(derived: &mut DerivedModule<'_>, case: &Case, tries: usize, alloc: Global) -> bool {
    for call in case.calls {
        if !is_made(derived, case, *call, tries, alloc) {
            return false;
        }
    }
    true
}

fn is_set<'a>(
    derived: &mut DerivedModule<'a>,
    source: &'a Module,
    offset: usize,
    tries: usize,
    alloc: Global,
) -> bool {
    for _ in 0..tries {
        if set(derived, source, offset, alloc).is_ok() {
            return true;
        }
    }
    false
}

/// Whether a function with a name and, where one is expected, a span is at a place.
fn is_end(module: &Module, place: usize, end: &End) -> bool {
    let span = module.functions.get_span(Index::new(place));
    is_named_at(module, place, end.0) && (end.1.is_none() || end.1 == Some(span))
}

fn are_ends(module: &Module, ends: &[End]) -> bool {
    for place in 0..ends.len() {
        if !is_end(module, place, &ends[place]) {
            return false;
        }
    }
    module.functions.len() == ends.len()
}

fn ends_so(module: &Module, case: &Case) -> bool {
    match case.ends {
        Some(ends) => are_ends(module, ends),
        None => true,
    }
}

fn derives(source: &Module, case: &Case, tries: usize, alloc: Global) -> bool {
    let mut derived = DerivedModule::new(alloc);
    is_set(&mut derived, source, case.offset, tries, alloc)
        && are_made(&mut derived, case, tries, alloc)
        && ends_so(derived.module(), case)
}

/// Whether a case has its expected results, each with at most `tries` calls.
fn is_case(case: &Case, tries: usize, alloc: Global) -> Result<bool, AllocError> {
    let mut source = Module::new(alloc);
    fill(&mut source, case, alloc)?;
    Ok(derives(&source, case, tries, alloc))
}

#[test]
fn operands_come_first(rt: HostRuntime) -> Result<(), Fail> {
    holds(is_case(&ONE_SUM, 1, rt.alloc())?)
}

#[test]
fn initialisers_are_not_emitted(rt: HostRuntime) -> Result<(), Fail> {
    holds(is_case(&ONE_INITIALISED, 1, rt.alloc())?)
}

#[test]
fn equal_initialisers_merge(rt: HostRuntime) -> Result<(), Fail> {
    holds(is_case(&ONE_MERGED, 1, rt.alloc())?)
}

#[test]
fn shared_operands_are_walked_once(rt: HostRuntime) -> Result<(), Fail> {
    holds(is_case(&ONE_DOUBLED, 1, rt.alloc())?)
}

#[test]
fn callees_come_by_name(rt: HostRuntime) -> Result<(), Fail> {
    holds(is_case(&CALLING, 1, rt.alloc())?)
}
