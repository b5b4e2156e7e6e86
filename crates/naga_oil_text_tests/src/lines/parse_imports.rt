use indexmap::IndexMap;
use naga_oil_imports::parse_imports::parse_imports;
use std::alloc::{AllocError, Global};
use std::test::Fail;

// What is wrong with a line, if anything is, and then all that is declared.
fn told(
    alloc: Global,
    line: &str,
    declared: &mut IndexMap<String, Vec<String>>,
) -> Result<String, AllocError> {
    match parse_imports(alloc, line, declared) {
        Ok(()) => format!(in alloc; "{declared:?}"),
        Err(fault) => format!(in alloc; "{fault:?} {declared:?}"),
    }
}

// The same of a line, where another line declares before it, if one is given. None where that line doesn't.
fn told_after(alloc: Global, before: Option<&str>, line: &str) -> Option<String> {
    let mut declared = IndexMap::new(alloc);
    if let Some(before) = before
        && parse_imports(alloc, before, &mut declared).is_err()
    {
        return None;
    }
    told(alloc, line, &mut declared).ok()
}

fn is_either(told: Option<String>, one: &str, other: &str) -> bool {
    match told {
        Some(told) => told.as_str() == one || told.as_str() == other,
        None => false,
    }
}

fn tells(alloc: Global, before: Option<&str>, rows: &[(&str, &str)]) -> Result<(), Fail> {
    for (line, want) in rows {
        if !is_either(told_after(alloc, before, line), want, want) {
            return Err(Fail::from(*line));
        }
    }
    Ok(())
}

static DECLARING: [(&str, &str); 13] = [
    ("#import a::b", r#"{"b": ["a::b"]}"#),
    ("#import a::{b, c}", r#"{"b": ["a::b"], "c": ["a::c"]}"#),
    (
        "#import a::{b as d, c}",
        r#"{"d": ["a::b"], "c": ["a::c"]}"#,
    ),
    (
        "#import a::{b::{c, d}, e}",
        r#"{"c": ["a::b::c"], "d": ["a::b::d"], "e": ["a::e"]}"#,
    ),
    (
        "#import a::b::{c, d}, e",
        r#"{"c": ["a::b::c"], "d": ["a::b::d"], "e": ["e"]}"#,
    ),
    ("#import a, b", r#"{"a": ["a"], "b": ["b"]}"#),
    (
        "#import a::b c, d",
        r#"{"c": ["a::b::c"], "d": ["a::b::d"]}"#,
    ),
    ("#import a::b c", r#"{"c": ["a::b::c"]}"#),
    (
        "#import a::b::{c::{d, e}, f, g::{h as i, j}}",
        r#"{"d": ["a::b::c::d"], "e": ["a::b::c::e"], "f": ["a::b::f"], "i": ["a::b::g::h"], "j": ["a::b::g::j"]}"#,
    ),
    (
        "#import a::b::{\n  c::{d, e}, \n  f, \n  g::{\n    h as i, \n    j::k::l as m,\n  }\n}\n",
        r#"{"d": ["a::b::c::d"], "e": ["a::b::c::e"], "f": ["a::b::f"], "i": ["a::b::g::h"], "m": ["a::b::g::j::k::l"]}"#,
    ),
    (
        "#import \"path//with\\ all sorts of .stuff\"::{a, b}",
        r#"{"a": ["\"path//with\\ all sorts of .stuff\"::a"], "b": ["\"path//with\\ all sorts of .stuff\"::b"]}"#,
    ),
    (
        "#import a::b, c::b, a::b;",
        r#"{"b": ["a::b", "c::b", "a::b"]}"#,
    ),
    ("# import", "{}"),
];

#[test]
fn lines_declare(rt: HostRuntime) -> Result<(), Fail> {
    tells(rt.alloc(), None, &DECLARING)
}

const FIRST: &str = "#import x::{a, b}";

static FAULTY: [(&str, &str); 15] = [
    (
        "",
        r#"Syntax("expected #import", 0) {"a": ["x::a"], "b": ["x::b"]}"#,
    ),
    (
        "#",
        r#"Syntax("expected `#import`", 1) {"a": ["x::a"], "b": ["x::b"]}"#,
    ),
    (
        "import a",
        r#"Syntax("expected `#import`", 0) {"a": ["x::a"], "b": ["x::b"]}"#,
    ),
    (
        "#include a",
        r#"Syntax("expected `#import`", 1) {"a": ["x::a"], "b": ["x::b"]}"#,
    ),
    (
        "#import a b c",
        r#"Syntax("missing close brace", 13) {"a": ["x::a"], "b": ["x::b"]}"#,
    ),
    (
        "#import a::{",
        r#"Syntax("missing close brace", 12) {"a": ["x::a"], "b": ["x::b"]}"#,
    ),
    (
        "#import a::{\n",
        r#"Syntax("missing close brace", 13) {"a": ["x::a"], "b": ["x::b"]}"#,
    ),
    (
        "#import a::b::{{c}",
        r#"Syntax("open brace must follow `::`", 15) {"a": ["x::a"], "b": ["x::b"]}"#,
    ),
    (
        "#import a::b::{c}}",
        r#"Syntax("close brace without open", 17) {"a": ["x::a"], "b": ["x::b"]}"#,
    ),
    (
        "#import a::b{{c,d}}",
        r#"Syntax("open brace must follow `::`", 12) {"a": ["x::a"], "b": ["x::b"]}"#,
    ),
    (
        "#import a:b",
        r#"Syntax("unexpected token", 9) {"a": ["x::a"], "b": ["x::b"]}"#,
    ),
    (
        "#import a::b as",
        r#"Syntax("expected identifier after `as`", 13) {"a": ["x::a"], "b": ["x::b"]}"#,
    ),
    (
        "#import a:: as {",
        r#"Syntax("expected identifier after `as`", 12) {"a": ["x::a"], "b": ["x::b"]}"#,
    ),
    (
        "#import a; b",
        r#"Syntax("unexpected token after ';'", 11) {"a": ["x::a"], "b": ["x::b"]}"#,
    ),
    (
        "#import a, b, c::{d}}",
        r#"Syntax("close brace without open", 20) {"a": ["x::a"], "b": ["x::b"]}"#,
    ),
];

#[test]
fn faulty_lines_declare_nothing(rt: HostRuntime) -> Result<(), Fail> {
    tells(rt.alloc(), Some(FIRST), &FAULTY)
}

const MORE: &str = "#import y::{a, c, b, c as d, e::{f, a}}";

const MORE_DECLARED: &str =
    r#"{"a": ["x::a", "y::a", "y::e::a"], "b": ["x::b", "y::b"], "c": ["y::c"], "d": ["y::c"], "f": ["y::e::f"]}"#;

const REFUSED: &str = r#"Memory {"a": ["x::a"], "b": ["x::b"]}"#;

// Passes too where one allocation is refused, whichever it is.
#[test]
fn refused_memory_declares_nothing(rt: HostRuntime) -> Result<(), Fail> {
    let told = told_after(rt.alloc(), Some(FIRST), MORE);
    if told.is_none() || is_either(told, MORE_DECLARED, REFUSED) {
        Ok(())
    } else {
        Err(Fail::from(MORE))
    }
}
