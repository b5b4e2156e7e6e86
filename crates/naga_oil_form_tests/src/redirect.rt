//! Modules, redirected calls in them, and the final order of their functions. A test is a case of a table;
//! one driver builds its module, makes the calls, and compares.
mod refused;

use naga_oil_form::check_form::{FormFault, check_form};
use naga_oil_ir::*;
use naga_oil_redirect::redirect::{Pair, Redirector};
use std::alloc::{AllocError, Global};
use std::collections::BTreeSet;
use std::test::Fail;

const NONE: Span = Span::UNDEFINED;

/// A function: its name, whether it takes an argument, and what it calls, by places.
type Drawn = (&'static str, bool, &'static [usize]);

/// The callee of a function's first call, and the callee of that call's result.
type Callee = Option<(usize, usize)>;

/// The callees of the first calls of the first four functions. After the last function is an entry point.
type Goes = [Callee; 4];

/// Redirected calls: the original and its replacement, a function that is omitted, the places that are returned, or the
/// text of the error, and the callees after that.
struct Sent {
    original: &'static str,
    replacement: &'static str,
    omit: &'static str,
    places: (usize, usize),
    told: &'static str,
    goes: Goes,
}

/// The order in the end, by `try_from` or by name: the names of the functions, each followed by a space, and where calls go;
/// or the text of the error.
struct Order {
    is_tried: bool,
    told: &'static str,
    goes: Goes,
}

/// Functions, the callee of an entry point, the first callees, the redirected calls, and the final order.
struct Case {
    functions: &'static [Drawn],
    calls: &'static [usize],
    goes: Goes,
    sent: &'static [Sent],
    order: Order,
}

static CHAIN: Case = Case {
    functions: &[("f", false, &[]), ("r1", false, &[0]), ("r2", false, &[0])],
    calls: &[0],
    goes: [None, Some((0, 0)), Some((0, 0)), Some((0, 0))],
    sent: &[
        Sent {
            original: "f",
            replacement: "r1",
            omit: "",
            places: (0, 1),
            told: "",
            goes: [None, Some((0, 0)), Some((1, 1)), Some((1, 1))],
        },
        Sent {
            original: "r1",
            replacement: "r2",
            omit: "r1",
            places: (1, 2),
            told: "",
            goes: [None, Some((0, 0)), Some((1, 1)), Some((2, 2))],
        },
    ],
    order: Order {
        is_tried: false,
        told: "f r1 r2 ",
        goes: [None, Some((0, 0)), Some((1, 1)), Some((2, 2))],
    },
};

/// The replacement takes an argument, and a name is of no function.
static WIDE: Case = Case {
    functions: &[("f", false, &[]), ("g", false, &[0]), ("r", true, &[])],
    calls: &[0],
    goes: [None, Some((0, 0)), None, Some((0, 0))],
    sent: &[
        Sent {
            original: "f",
            replacement: "r",
            omit: "",
            places: NOWHERE,
            told: "r cannot override f due to argument mismatch",
            goes: [None, Some((0, 0)), None, Some((0, 0))],
        },
        Sent {
            original: "x",
            replacement: "y",
            omit: "",
            places: NOWHERE,
            told: "can't find function x for redirection",
            goes: [None, Some((0, 0)), None, Some((0, 0))],
        },
    ],
    order: Order {
        is_tried: false,
        told: "f r g ",
        goes: [None, None, Some((0, 0)), Some((0, 0))],
    },
};

static AFTER: Case = Case {
    functions: &[
        ("base", false, &[]),
        ("a", false, &[0]),
        ("rep", false, &[]),
    ],
    calls: &[1],
    goes: [None, Some((0, 0)), None, Some((1, 1))],
    sent: &[Sent {
        original: "base",
        replacement: "rep",
        omit: "",
        places: (0, 2),
        told: "",
        goes: [None, Some((2, 2)), None, Some((1, 1))],
    }],
    order: Order {
        is_tried: true,
        told: "base rep a ",
        goes: [None, None, Some((1, 1)), Some((2, 2))],
    },
};

static CIRCLE: Case = Case {
    functions: &[("f", false, &[]), ("h", false, &[0]), ("r", false, &[1])],
    calls: &[],
    goes: [None, Some((0, 0)), Some((1, 1)), None],
    sent: &[Sent {
        original: "f",
        replacement: "r",
        omit: "",
        places: (0, 2),
        told: "",
        goes: [None, Some((2, 2)), Some((1, 1)), None],
    }],
    order: Order {
        is_tried: false,
        told: "circular reference; can't find an order for : h, r",
        goes: [None; 4],
    },
};

/// The places of a refused redirection.
const NOWHERE: (usize, usize) = (1000, 1000);

/// A function of nothing.
fn function(name: &str, alloc: Global) -> Result<Function, AllocError> {
    Ok(Function {
        name: Some(String::from_str(alloc, name)?),
        arguments: Vec::new(alloc),
        result: None,
        local_variables: Arena::new(alloc),
        expressions: Arena::new(alloc),
        named_expressions: NamedExpressions::new(),
        body: Block {
            body: Vec::new(alloc),
        },
        diagnostic_filter_leaf: None,
    })
}

fn add_argument(function: &mut Function) -> Result<(), AllocError> {
    function.arguments.push(FunctionArgument {
        name: None,
        ty: Index::new(0),
        binding: None,
    })?;
    Ok(())
}

/// Makes a function call another one by its place.
fn add_call(function: &mut Function, callee: usize, alloc: Global) -> Result<(), AllocError> {
    let callee = Index::new(callee);
    let result = Expression::CallResult(callee);
    let result = function.expressions.append(result, NONE)?;
    let call = Statement::Call {
        callee,
        arguments: Vec::new(alloc),
        result: Some(result),
    };
    function.body.body.push((call, NONE))?;
    Ok(())
}

fn add_calls(function: &mut Function, calls: &[usize], alloc: Global) -> Result<(), AllocError> {
    for callee in calls {
        add_call(function, *callee, alloc)?;
    }
    Ok(())
}

/// Gives a function its calls, and an argument if it takes one.
fn draw(
    function: &mut Function,
    is_wide: bool,
    calls: &[usize],
    alloc: Global,
) -> Result<(), AllocError> {
    if is_wide {
        add_argument(function)?;
    }
    add_calls(function, calls, alloc)
}

fn add_function(
    module: &mut Module,
    name: &str,
    is_wide: bool,
    calls: &[usize],
    alloc: Global,
) -> Result<(), AllocError> {
    let mut function = function(name, alloc)?;
    draw(&mut function, is_wide, calls, alloc)?;
    module.functions.append(function, NONE)?;
    Ok(())
}

fn entry(name: String, function: Function) -> EntryPoint {
    EntryPoint {
        name,
        stage: 2,
        early_depth_test: None,
        workgroup_size: [1, 1, 1],
        workgroup_size_overrides: None,
        function,
        mesh_info: None,
        task_payload: None,
    }
}

fn add_entry(module: &mut Module, calls: &[usize], alloc: Global) -> Result<(), AllocError> {
    let mut function = function("main", alloc)?;
    add_calls(&mut function, calls, alloc)?;
    let name = String::from_str(alloc, "main")?;
    module.entry_points.push(entry(name, function))?;
    Ok(())
}

/// Puts in a type, functions, each with its calls, and an entry point with some.
fn fill(module: &mut Module, case: &Case, alloc: Global) -> Result<(), AllocError> {
    let inner = TypeInner::Scalar(0);
    module.types.insert(Type { name: None, inner }, NONE)?;
    for (name, is_wide, calls) in case.functions {
        add_function(module, name, *is_wide, calls, alloc)?;
    }
    add_entry(module, case.calls, alloc)
}

/// A redirector of a module that passes the test of form.
fn redirector(module: Module, alloc: Global) -> Result<Redirector, FormFault> {
    check_form(&module, alloc, "", 0)?;
    Ok(Redirector::new(alloc, module))
}

/// A redirector of a case.
fn calling(case: &Case, alloc: Global) -> Result<Redirector, FormFault> {
    let mut module = Module::new(alloc);
    fill(&mut module, case, alloc)?;
    redirector(module, alloc)
}

fn only(name: &str, alloc: Global) -> Result<BTreeSet<String>, AllocError> {
    let mut names = BTreeSet::new(alloc);
    names.insert(String::from_str(alloc, name)?)?;
    Ok(names)
}

/// Sends calls, but those of one function.
fn send(redirector: &mut Redirector, sent: &Sent, alloc: Global) -> Result<Pair, RedirectError> {
    let omit = only(sent.omit, alloc)?;
    redirector.redirect_function(sent.original, sent.replacement, &omit)
}

fn name_of(function: &Function) -> &str {
    match &function.name {
        Some(name) => name.as_str(),
        None => "",
    }
}

/// The names of the functions of a module, each followed by a space.
fn names_of(module: &Module, alloc: Global) -> Result<String, AllocError> {
    let mut names = String::new(alloc);
    for entry in module.functions.as_slice() {
        names.push_str(name_of(&entry.0))?;
        names.push_str(" ")?;
    }
    Ok(names)
}

/// What the result of a function's first call is of.
fn result_of(function: &Function) -> Option<usize> {
    match function.expressions.try_get(Index::new(0)) {
        Some(Expression::CallResult(of)) => Some(of.index()),
        _ => None,
    }
}

fn callee(function: &Function) -> Callee {
    let of = result_of(function)?;
    match function.body.body.first() {
        Some((Statement::Call { callee, .. }, _)) => Some((callee.index(), of)),
        _ => None,
    }
}

/// The callee of the first call of the function at a place, or of the entry point after the last.
fn goes_at(module: &Module, place: usize) -> Callee {
    match module.functions.try_get(Index::new(place)) {
        Some(function) => callee(function),
        None => callee(&module.entry_points.first()?.function),
    }
}

fn goes_so(module: &Module, wanted: &Goes) -> bool {
    for place in 0..4 {
        if goes_at(module, place) != wanted[place] {
            return false;
        }
    }
    true
}

/// Whether an error has a text, or none where memory was refused.
fn is_told(error: &RedirectError, wanted: &str, alloc: Global) -> Option<bool> {
    if matches!(error, RedirectError::Memory) {
        return None;
    }
    let told = format!(in alloc; "{error}").ok()?;
    Some(told.as_str() == wanted)
}

/// Whether a result is the expected one, or absent where memory was refused.
fn is_answer(answer: &Result<Pair, RedirectError>, sent: &Sent, alloc: Global) -> Option<bool> {
    match answer {
        Ok((from, to)) => Some((from.index(), to.index()) == sent.places),
        Err(error) => is_told(error, sent.told, alloc),
    }
}

fn answers(redirector: &mut Redirector, sent: &Sent, alloc: Global) -> Option<bool> {
    let answer = send(redirector, sent, alloc);
    is_answer(&answer, sent, alloc)
}

/// Whether one of `calls` calls has the expected result. A refused call changes nothing.
fn is_sent(
    redirector: &mut Redirector,
    sent: &Sent,
    before: &Goes,
    calls: u32,
    alloc: Global,
) -> bool {
    for _ in 0..calls {
        match answers(redirector, sent, alloc) {
            Some(is_wanted) => return is_wanted && goes_so(redirector.module(), &sent.goes),
            None if !goes_so(redirector.module(), before) => return false,
            None => {}
        }
    }
    false
}

fn are_sent(redirector: &mut Redirector, case: &Case, calls: u32, alloc: Global) -> bool {
    let mut before = &case.goes;
    for sent in case.sent {
        if !is_sent(redirector, sent, before, calls, alloc) {
            return false;
        }
        before = &sent.goes;
    }
    true
}

/// Whether a module's functions have these names, in this order, and these callees; absent where memory was refused.
fn is_ordered(module: &Module, names: &str, goes: &Goes, alloc: Global) -> Option<bool> {
    let found = names_of(module, alloc).ok()?;
    Some(found.as_str() == names && goes_so(module, goes))
}

fn is_order(
    made: &Result<Module, RedirectError>,
    told: &str,
    goes: &Goes,
    alloc: Global,
) -> Option<bool> {
    match made {
        Ok(module) => is_ordered(module, told, goes, alloc),
        Err(error) => is_told(error, told, alloc),
    }
}

fn made(redirector: Redirector, is_tried: bool) -> Result<Module, RedirectError> {
    if is_tried {
        Module::try_from(redirector)
    } else {
        redirector.into_module()
    }
}

/// Whether the functions get the order of a case, or none where memory was refused.
fn puts_in_order(redirector: Redirector, order: &Order, alloc: Global) -> Option<bool> {
    let made = made(redirector, order.is_tried);
    is_order(&made, order.told, &order.goes, alloc)
}

fn both(are_sent: bool, is_order: Option<bool>) -> Option<bool> {
    match is_order {
        Some(is_order) => Some(are_sent && is_order),
        None => None,
    }
}

/// Whether a case has its expected results, each with at most `calls` calls; absent where memory was refused.
fn is_case(case: &Case, calls: u32, alloc: Global) -> Result<Option<bool>, FormFault> {
    let mut redirector = calling(case, alloc)?;
    let are_sent = are_sent(&mut redirector, case, calls, alloc);
    let is_order = puts_in_order(redirector, &case.order, alloc);
    Ok(both(are_sent, is_order))
}

/// That what was tested holds, with ample memory.
fn holds(is_so: Option<bool>) -> Result<(), Fail> {
    if is_so == Some(true) {
        return Ok(());
    }
    Err(Fail::from("another answer"))
}

#[test]
fn a_chain_ends_in_its_last(rt: HostRuntime) -> Result<(), Fail> {
    holds(is_case(&CHAIN, 1, rt.alloc())?)
}

#[test]
fn what_cannot_be_sent_stays(rt: HostRuntime) -> Result<(), Fail> {
    holds(is_case(&WIDE, 1, rt.alloc())?)
}

#[test]
fn callees_come_first(rt: HostRuntime) -> Result<(), Fail> {
    holds(is_case(&AFTER, 1, rt.alloc())?)
}

#[test]
fn circles_have_no_order(rt: HostRuntime) -> Result<(), Fail> {
    holds(is_case(&CIRCLE, 1, rt.alloc())?)
}

fn add_numbered(module: &mut Module, place: usize, alloc: Global) -> Result<(), AllocError> {
    let name = format!(in alloc; "f{place}")?;
    add_function(module, name.as_str(), false, &[place], alloc)
}

/// A number of functions after the first, each of which calls the one before it.
fn fill_row(module: &mut Module, callers: usize, alloc: Global) -> Result<(), AllocError> {
    add_function(module, "f", false, &[], alloc)?;
    for place in 0..callers {
        add_numbered(module, place, alloc)?;
    }
    Ok(())
}

/// Fills a module with the row, and gives the names of its functions.
fn names_of_row(module: &mut Module, callers: usize, alloc: Global) -> Result<String, AllocError> {
    fill_row(module, callers, alloc)?;
    names_of(module, alloc)
}

/// The callees of the first calls of a function alone.
static ALONE: Goes = [None; 4];

/// Whether the functions of a module keep their order, and call the one before them.
fn keeps_order(
    module: Module,
    names: &str,
    goes: &Goes,
    alloc: Global,
) -> Result<Option<bool>, FormFault> {
    let redirector = redirector(module, alloc)?;
    let made = redirector.into_module();
    Ok(is_order(&made, names, goes, alloc))
}

fn row_keeps_order(callers: usize, goes: &Goes, alloc: Global) -> Result<Option<bool>, FormFault> {
    let mut module = Module::new(alloc);
    let names = names_of_row(&mut module, callers, alloc)?;
    keeps_order(module, names.as_str(), goes, alloc)
}

#[test]
fn many_keep_their_order(rt: HostRuntime) -> Result<(), Fail> {
    holds(row_keeps_order(0, &ALONE, rt.alloc())?)?;
    for callers in [9, 99, 999] {
        holds(row_keeps_order(callers, &CHAIN.order.goes, rt.alloc())?)?;
    }
    Ok(())
}

/// The texts of the errors, in the order of `error_at`.
static TOLD: [&str; 5] = [
    "can't find function f for redirection",
    "r cannot override f due to argument mismatch",
    "r cannot override f due to return type mismatch",
    "circular reference; can't find an order for : h, r",
    "out of memory",
];

fn mismatch(is_of_arguments: bool, alloc: Global) -> Result<RedirectError, AllocError> {
    let replacement = String::from_str(alloc, "r")?;
    let original = String::from_str(alloc, "f")?;
    Ok(if is_of_arguments {
        RedirectError::ArgumentMismatch(replacement, original)
    } else {
        RedirectError::ReturnTypeMismatch(replacement, original)
    })
}

fn error_at(place: usize, alloc: Global) -> Result<RedirectError, AllocError> {
    Ok(match place {
        0 => RedirectError::FunctionNotFound(String::from_str(alloc, "f")?),
        1 => mismatch(true, alloc)?,
        2 => mismatch(false, alloc)?,
        3 => RedirectError::CircularReference(String::from_str(alloc, "h, r")?),
        _ => RedirectError::Memory,
    })
}

/// Whether the error of a place has the expected text.
fn tells(place: usize, wanted: &str, alloc: Global) -> Result<bool, AllocError> {
    let error = error_at(place, alloc)?;
    let told = format!(in alloc; "{error}")?;
    Ok(told.as_str() == wanted)
}

fn tells_all(alloc: Global) -> Result<bool, AllocError> {
    for place in 0..5 {
        if !tells(place, TOLD[place], alloc)? {
            return Ok(false);
        }
    }
    Ok(true)
}

#[test]
fn says_what_is_wrong(rt: HostRuntime) -> Result<(), Fail> {
    holds(Some(tells_all(rt.alloc())?))
}
