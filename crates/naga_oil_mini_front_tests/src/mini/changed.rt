// Modules that parsing doesn't return. They are written if they are those of a text, up to parts that don't count.
use super::{is_written, read};
use naga_oil_ir::{
    Arena, Constant, EntryPoint, Expression, Function, Index, LocalVariable, Module, PlaceRange,
    Span, Statement, UniqueArena,
};
use std::alloc::{AllocError, Global};
use std::mem;
use std::process::Abort;

const AT: Span = Span { start: 0, end: 1 };

const NOT_IN_MINI: &str = "not in Mini";

// An expression of a sum or an initialiser.
#[derive(Clone, Copy)]
enum Term {
    Number(u64),
    Sum(usize, usize),
    Parameter(u32),
    Local(usize),
    Global(usize),
    Load(usize),
}

fn expression(term: Term) -> Expression {
    match term {
        Term::Number(bits) => Expression::Literal { kind: 1, bits },
        Term::Sum(left, right) => {
            let (left, right) = (Index::new(left), Index::new(right));
            Expression::Binary { op: 1, left, right }
        }
        Term::Parameter(number) => Expression::FunctionArgument(number),
        Term::Local(local) => Expression::LocalVariable(Index::new(local)),
        Term::Global(global) => Expression::GlobalVariable(Index::new(global)),
        Term::Load(pointer) => Expression::Load {
            pointer: Index::new(pointer),
        },
    }
}

// Gives a stub these expressions, a body that emits such places, and what it returns.
fn fill(
    function: &mut Function,
    terms: &[Term],
    emitted: &[(usize, usize)],
    returned: usize,
) -> Result<(), AllocError> {
    for term in terms {
        function.expressions.append(expression(*term), AT)?;
    }
    let body = &mut function.body.body;
    for (start, end) in emitted {
        body.push((Statement::Emit(PlaceRange::new(*start, *end)), AT))?;
    }
    let value = Some(Index::new(returned));
    body.push((Statement::Return { value }, AT))?;
    Ok(())
}

// A change that parsing doesn't return.
#[derive(Clone, Copy)]
enum Change<'a> {
    NoTypes,
    /// What a stub's body is: expressions, the places that it emits, and what it returns.
    Body(&'a [Term], &'a [(usize, usize)], usize),
    /// Locals of these names and initialisers.
    Locals(&'a [(&'a str, Option<usize>)]),
    Name(Option<&'a str>),
    /// A constant more, of the first initialiser.
    ConstantMore(&'a str),
    EntryPointsOf(&'a str),
    Stage,
    WorkgroupSize,
    EarlyDepthTest,
    TaskPayload,
    NoResult,
}

fn add_locals(
    alloc: Global,
    function: &mut Function,
    locals: &[(&str, Option<usize>)],
) -> Result<(), AllocError> {
    for (name, init) in locals {
        let local = LocalVariable {
            name: Some(String::from_str(alloc, *name)?),
            ty: Index::new(0),
            init: init.map(|place| Index::new(place)),
        };
        function.local_variables.append(local, AT)?;
    }
    Ok(())
}

fn change_function(
    alloc: Global,
    function: &mut Function,
    change: Change<'_>,
) -> Result<(), AllocError> {
    match change {
        Change::Body(terms, emitted, returned) => fill(function, terms, emitted, returned)?,
        Change::Locals(locals) => add_locals(alloc, function, locals)?,
        Change::Name(Some(name)) => function.name = Some(String::from_str(alloc, name)?),
        Change::Name(None) => function.name = None,
        _ => {}
    }
    Ok(())
}

fn change_functions(alloc: Global, of: &mut Module, change: Change<'_>) -> Result<(), AllocError> {
    let functions = mem::replace(&mut of.functions, Arena::new(alloc));
    for (mut function, span) in functions.into_items() {
        change_function(alloc, &mut function, change)?;
        of.functions.append(function, span)?;
    }
    Ok(())
}

fn change_entry_point(entry_point: &mut EntryPoint, change: Change<'_>) {
    match change {
        Change::Stage => entry_point.stage = 1,
        Change::WorkgroupSize => entry_point.workgroup_size = [1, 1, 2],
        Change::EarlyDepthTest => entry_point.early_depth_test = Some(0),
        Change::TaskPayload => entry_point.task_payload = Some(Index::new(0)),
        Change::NoResult => entry_point.function.result = None,
        _ => {}
    }
}

fn add_entry_points(
    rt: &(impl Abort + AllocGlobal),
    to: &mut Module,
    text: &str,
) -> Result<(), AllocError> {
    for entry_point in read(rt, text).entry_points {
        to.entry_points.push(entry_point)?;
    }
    Ok(())
}

fn add_constant(alloc: Global, to: &mut Module, name: &str) -> Result<(), AllocError> {
    let name = Some(String::from_str(alloc, name)?);
    let (ty, init) = (Index::new(0), Index::new(0));
    to.constants.append(Constant { name, ty, init }, AT)?;
    Ok(())
}

fn make_change(
    rt: &(impl Abort + AllocGlobal),
    of: &mut Module,
    change: Change<'_>,
) -> Result<(), AllocError> {
    let alloc = rt.alloc();
    match change {
        Change::NoTypes => of.types = UniqueArena::new(alloc),
        Change::Body(..) | Change::Locals(_) | Change::Name(_) => return change_functions(
            alloc, of, change,
        ),
        Change::ConstantMore(name) => return add_constant(alloc, of, name),
        Change::EntryPointsOf(text) => return add_entry_points(rt, of, text),
        _ => {
            for entry_point in of.entry_points.iter_mut() {
                change_entry_point(entry_point, change);
            }
        }
    }
    Ok(())
}

// The module of a text with changes is written as this text, or refused with this message.
fn is_changed(rt: &(impl Abort + AllocGlobal), text: &str, changes: &[Change<'_>], wanted: &str) {
    let mut changed = read(rt, text);
    for step in changes {
        assert_eq!(rt; make_change(rt, &mut changed, *step), Ok(()));
    }
    is_written(rt, &changed, wanted);
}

#[test]
fn writes_each_order_of_expressions(rt: HostRuntime) {
    let (one, two, three) = (Term::Number(1), Term::Number(2), Term::Number(3));
    let sums = [one, two, Term::Sum(0, 1), three, Term::Sum(2, 3)];
    for (change, wanted) in [
        // One of the expressions is used by nothing.
        (
            Change::Body(&[one, Term::Number(9), two, Term::Sum(2, 0)], &[(3, 4)], 3),
            "fn f() = 2 + 1\n",
        ),
        (
            Change::Body(
                &[one, two, Term::Sum(0, 1), Term::Sum(1, 2)],
                &[(2, 3), (3, 4)],
                3,
            ),
            NOT_IN_MINI,
        ),
        // An expression is shared.
        (
            Change::Body(&[one, Term::Sum(0, 0)], &[(1, 2)], 1),
            NOT_IN_MINI,
        ),
        // Sums are emitted alone, in their order.
        (
            Change::Body(&sums, &[(2, 3), (4, 5)], 4),
            "fn f() = 1 + 2 + 3\n",
        ),
        (Change::Body(&sums, &[(2, 3), (3, 5)], 4), NOT_IN_MINI),
        (Change::Body(&sums, &[(4, 5), (2, 3)], 4), NOT_IN_MINI),
        (
            Change::Body(&[Term::Number(2147483647)], &[], 0),
            "fn f() = 2147483647\n",
        ),
        (
            Change::Body(&[Term::Number(2147483648)], &[], 0),
            NOT_IN_MINI,
        ),
    ] {
        is_changed(&rt, "fn f()\n", &[change], wanted);
    }
}

// Parameters are one expression each; a variable is named by a load of its own, which is emitted alone.
#[test]
fn writes_parameters_and_loads(rt: HostRuntime) {
    let x = Term::Parameter(0);
    let loads = [
        Term::Global(0),
        Term::Load(0),
        Term::Load(0),
        Term::Sum(1, 2),
    ];
    let stub = "var G = 3\nfn f(x)\n";
    for (change, wanted) in [
        (
            Change::Body(&[x, Term::Sum(0, 0)], &[(1, 2)], 1),
            "var G = 3\nfn f(x) = x + x\n",
        ),
        (
            Change::Body(&[x, x, Term::Sum(0, 1)], &[(2, 3)], 2),
            NOT_IN_MINI,
        ),
        (
            Change::Body(&[x, x, Term::Sum(1, 1)], &[(2, 3)], 2),
            "var G = 3\nfn f(x) = x + x\n",
        ),
        (Change::Body(&[Term::Parameter(1)], &[], 0), NOT_IN_MINI),
        (
            Change::Body(&[Term::Global(0), Term::Load(0)], &[(1, 2)], 1),
            "var G = 3\nfn f(x) = G\n",
        ),
        (
            Change::Body(&[Term::Global(0), Term::Load(0)], &[], 1),
            NOT_IN_MINI,
        ),
        (Change::Body(&[Term::Global(0)], &[], 0), NOT_IN_MINI),
        (
            Change::Body(&loads, &[(1, 2), (2, 3), (3, 4)], 3),
            NOT_IN_MINI,
        ),
        (
            Change::Body(&[Term::Global(1), Term::Load(0)], &[(1, 2)], 1),
            NOT_IN_MINI,
        ),
    ] {
        is_changed(&rt, stub, &[change], wanted);
    }
}

// Equal expressions of initialisers may be one, and what was emitted of them may be nothing.
#[test]
fn writes_merged_initialisers(rt: HostRuntime) {
    let (one, two) = (Term::Number(1), Term::Number(2));
    let sum = [one, two, Term::Sum(0, 1), Term::Local(0), Term::Load(3)];
    let both = &[("V", Some(2)), ("W", Some(2))];
    let merged = "fn f() with V = 1 + 2, W = 1 + 2 = V\n";
    for (locals, emitted, wanted) in [
        (both, &[(3, 3), (3, 3), (4, 5)], merged),
        (both, &[(2, 3), (5, 5), (4, 5)], merged),
        (both, &[(2, 3), (2, 3), (4, 5)], merged),
        // A range whose end is before its start covers nothing.
        (both, &[(3, 1), (3, 3), (4, 5)], merged),
        (both, &[(3, 3), (1, 2), (4, 5)], NOT_IN_MINI),
        (both, &[(3, 3), (4, 5), (3, 3)], NOT_IN_MINI),
        (
            &[("V", Some(0)), ("W", Some(1))],
            &[(3, 3), (3, 3), (4, 5)],
            NOT_IN_MINI,
        ),
        (
            &[("V", None), ("W", Some(2))],
            &[(3, 3), (3, 3), (4, 5)],
            NOT_IN_MINI,
        ),
    ] {
        let changes = [Change::Locals(locals), Change::Body(&sum, emitted, 4)];
        is_changed(&rt, "fn f()\n", &changes, wanted);
    }
}

// An initialiser has nothing in common with a sum, and a stub has no locals.
#[test]
fn writes_initialisers_alone(rt: HostRuntime) {
    let locals = Change::Locals(&[("V", Some(0))]);
    let one = Term::Number(1);
    for (changes, wanted) in [
        ([locals, Change::Body(&[one], &[], 0)], NOT_IN_MINI),
        (
            [locals, Change::Body(&[one, one], &[], 1)],
            "fn f(x) with V = 1 = 1\n",
        ),
        (
            [locals, Change::Body(&[Term::Parameter(0)], &[], 0)],
            NOT_IN_MINI,
        ),
        ([locals, Change::Name(Some("f"))], NOT_IN_MINI),
        (
            [
                Change::Locals(&[("x", Some(0))]),
                Change::Body(&[one, Term::Local(0), Term::Load(1)], &[(2, 3)], 2),
            ],
            NOT_IN_MINI,
        ),
    ] {
        is_changed(&rt, "fn f(x)\n", &changes, wanted);
    }
}

// A name has to mean its item where the lines can stand.
#[test]
fn writes_names_that_have_an_order(rt: HostRuntime) {
    let constants = "const N = 1\nconst N = 2\nfn f() = N\n";
    let functions = "fn f() = 1\nfn f() = 2\n";
    let first = Change::EntryPointsOf("fn f()\nentry a = f()\n");
    let second = Change::EntryPointsOf("fn f()\nfn f()\nentry b = f()\n");
    let of_constant = Change::EntryPointsOf("const N = 1\nentry e = N\n");
    let of_global = Change::EntryPointsOf("var N = 2\nentry g = N\n");
    let of_both = Change::EntryPointsOf("const N = 1\nfn f()\nentry e = N + f()\n");
    for (text, changes, wanted) in [
        (
            constants,
            [of_constant, Change::EntryPointsOf("")],
            "const N = 1\nconst N = 2\nfn f() = N\nentry e = N\n",
        ),
        (constants, [of_both, Change::EntryPointsOf("")], NOT_IN_MINI),
        (
            functions,
            [first, second],
            "fn f() = 1\nfn f() = 2\nentry a = f()\nentry b = f()\n",
        ),
        (functions, [second, first], NOT_IN_MINI),
        // A constant is meant before each global of its name.
        (
            "const N = 1\nfn f() = N\nvar N = 2\n",
            [of_constant, of_global],
            "const N = 1\nvar N = 2\nfn f() = N\nentry e = N\nentry g = N\n",
        ),
        (
            "const N = 1\nfn f() = N\nvar N = 2\n",
            [of_global, of_constant],
            NOT_IN_MINI,
        ),
    ] {
        is_changed(&rt, text, &changes, wanted);
    }
}

#[test]
fn writes_what_a_text_says(rt: HostRuntime) {
    let (function, entry) = ("fn f() = 1\n", "entry e = 1\n");
    for (text, change, wanted) in [
        (
            "const N = 3\n",
            Change::ConstantMore("M"),
            "const N = 3\nconst M = 3\n",
        ),
        ("", Change::NoTypes, ""),
        ("const N = 1\n", Change::NoTypes, NOT_IN_MINI),
        ("fn f()\n", Change::NoTypes, NOT_IN_MINI),
        (entry, Change::NoTypes, NOT_IN_MINI),
        (entry, Change::Stage, NOT_IN_MINI),
        (entry, Change::WorkgroupSize, NOT_IN_MINI),
        (entry, Change::EarlyDepthTest, NOT_IN_MINI),
        (entry, Change::TaskPayload, NOT_IN_MINI),
        (entry, Change::NoResult, NOT_IN_MINI),
        (function, Change::Name(Some("_1")), "fn _1() = 1\n"),
        (function, Change::Name(Some("1")), NOT_IN_MINI),
        (function, Change::Name(Some("")), NOT_IN_MINI),
        (function, Change::Name(Some("a b")), NOT_IN_MINI),
        (function, Change::Name(Some("é")), NOT_IN_MINI),
        (function, Change::Name(None), NOT_IN_MINI),
    ] {
        is_changed(&rt, text, &[change], wanted);
    }
}
