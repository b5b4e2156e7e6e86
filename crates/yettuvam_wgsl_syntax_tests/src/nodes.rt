use crate::rows::is;
use std::alloc::{AllocError, Global};
use std::test::Fail;
use yettuvam_wgsl_grammar::nodes_of;
use yettuvam_wgsl_machine::refusal::Refusal;
use yettuvam_wgsl_machine::symbol::Node;

fn shown_nodes(alloc: Global, nodes: &[Node<'_>]) -> Result<String, AllocError> {
    let mut out = String::new(alloc);
    for node in nodes {
        write!(&mut out, "{:?} ", node.form)?;
    }
    Ok(out)
}

// The forms of the nodes of a text, or the fault with its place.
fn shown(alloc: Global, text: &str) -> Result<String, AllocError> {
    match nodes_of(alloc, text) {
        Ok(nodes) => shown_nodes(alloc, nodes.as_slice()),
        Err(Refusal::Fault(fault)) => {
            let span = fault.span;
            format!(in alloc; "{:?} {}..{}", fault.reason, span.start, span.end)
        }
        Err(Refusal::Memory) => String::from_str(alloc, "no memory"),
    }
}

fn shows(alloc: Global, rows: &[(&str, &str)]) -> Result<(), Fail> {
    for (text, expected) in rows {
        if !is(shown(alloc, text), expected) {
            return Err(Fail::from(*text));
        }
    }
    Ok(())
}

static EXPRESSIONS: [(&str, &str); 10] = [
    (
        "const a = 1 + 2 * 3;",
        "Declared Untyped Number Left Number Left Number Multiply Add Const ",
    ),
    (
        "const a = 1 - 2 - 3;",
        "Declared Untyped Number Left Number Subtract Left Number Subtract Const ",
    ),
    (
        "const a = (1 - 2) * 3;",
        "Declared Untyped Number Left Number Subtract Left Number Multiply Const ",
    ),
    (
        "const a = -b.c[1];",
        "Declared Untyped Name Member IndexStart Number Index Negate Const ",
    ),
    (
        "const a = b < c && d;",
        "Declared Untyped Name Left Name Less AndStart Name And Const ",
    ),
    (
        "const a: u32 = f(1, true);",
        "Declared TypeName Typed Name Call Number Argument True Argument CallEnd Const ",
    ),
    (
        "const a = array<f32, 2>(1);",
        "Declared Untyped Name Template Name TemplateArgument Number TemplateArgument TemplateEnd Call Number \
         Argument CallEnd Const ",
    ),
    ("const a = b & c | d;", "Wanted(Semicolon) 16..17"),
    ("const a = b < c < d;", "Wanted(Semicolon) 16..17"),
    ("const a = ;", "Unexpected(Primary) 10..11"),
];

#[test]
fn expressions(rt: HostRuntime) -> Result<(), Fail> {
    shows(rt.alloc(), &EXPRESSIONS)
}

static ITEMS: [(&str, &str); 8] = [
    ("", ""),
    ("enable f16, g;", "Extension Extension Enable "),
    (
        "diagnostic(off, a.b);",
        "DiagnosticStart Name AttributeArgument Name Member AttributeArgument Diagnostic ",
    ),
    (
        "@group(0) var<uniform> a: f32;",
        "AttributeName Number AttributeArgument Attribute VarStart Template Name TemplateArgument TemplateEnd \
         Declared TypeName Typed NoInitial Var ",
    ),
    (
        "struct S { a: f32, @align(4) b: u32, }",
        "StructName MemberName TypeName StructMember AttributeName Number AttributeArgument Attribute MemberName \
         TypeName StructMember Struct ",
    ),
    (
        "@must_use fn f(a: f32) -> u32 { return 1; }",
        "AttributeName Attribute FunctionName ParameterName TypeName Parameter TypeName Result Block Number \
         ReturnValue BlockEnd Function ",
    ),
    (
        "alias A = vec2f; enable b;",
        "Unexpected(AttributedItem) 17..23",
    ),
    ("struct S { }", "Wanted(Name) 11..12"),
];

#[test]
fn items(rt: HostRuntime) -> Result<(), Fail> {
    shows(rt.alloc(), &ITEMS)
}

static STATEMENTS: [(&str, &str); 9] = [
    (
        "fn f() { if a { } else if b { } }",
        "FunctionName NoResult Block Name If Block BlockEnd Block Name If Block BlockEnd Block BlockEnd IfEnd BlockEnd \
         IfEnd BlockEnd Function ",
    ),
    (
        "fn f() { while a { b(); } }",
        "FunctionName NoResult Block Loop Block Name If Block BlockEnd Block Break BlockEnd IfEnd Block Name \
         StatementCall CallEnd CallStatement BlockEnd BlockStatement Block NoBreakIf BlockEnd BlockEnd LoopEnd \
         BlockEnd Function ",
    ),
    (
        "fn f() { for (var i = 0; ; i++) { } }",
        "FunctionName NoResult Block Block VarStart Declared Untyped Number Initial LocalVar Loop Block Block Name \
         Again Left One Add Assign NoBreakIf BlockEnd Block BlockEnd BlockStatement BlockEnd LoopEnd BlockEnd \
         BlockStatement BlockEnd Function ",
    ),
    (
        "fn f() { loop { continuing { break if a; } } }",
        "FunctionName NoResult Block Loop Block Block Name BreakIf BlockEnd BlockEnd LoopEnd BlockEnd Function ",
    ),
    (
        "fn f() { switch a { case 1, default: { } } }",
        "FunctionName NoResult Block Name Switch Number Selector FallThrough Block BlockEnd CaseEnd DefaultSelector \
         Block BlockEnd CaseEnd SwitchEnd BlockEnd Function ",
    ),
    (
        "fn f() { *a = b; _ = c; let d = &e; }",
        "FunctionName NoResult Block Name Dereference Name Assign Name Phony Declared Untyped Name AddressOf Let \
         BlockEnd Function ",
    ),
    ("fn f() { a; }", "Unexpected(Assignment) 10..11"),
    ("fn f() { break if a; }", "Wanted(Semicolon) 15..17"),
    ("fn f() { a = 1 }", "Wanted(Semicolon) 15..16"),
];

#[test]
fn statements(rt: HostRuntime) -> Result<(), Fail> {
    shows(rt.alloc(), &STATEMENTS)
}

fn repeated(alloc: Global, part: &str, count: usize) -> Result<String, AllocError> {
    let mut out = String::new(alloc);
    for _turn in 0..count {
        out.push_str(part)?;
    }
    Ok(out)
}

fn nested(alloc: Global, opened: &str, closed: &str, depth: usize) -> Result<String, AllocError> {
    let opening = repeated(alloc, opened, depth)?;
    let closing = repeated(alloc, closed, depth)?;
    format!(in alloc;
        "fn f() {{ _ = {}1{}; }}",
        opening.as_str(),
        closing.as_str()
    )
}

fn is_read(alloc: Global, text: &str) -> bool {
    match nodes_of(alloc, text) {
        Ok(_) => true,
        Err(_) => false,
    }
}

fn nests(alloc: Global, opened: &str, closed: &str, depth: usize) -> Result<bool, AllocError> {
    let text = nested(alloc, opened, closed, depth)?;
    Ok(is_read(alloc, text.as_str()))
}

// What opens a level, what closes it, and a number of levels that are read.
static NESTS: [(&str, &str, usize); 7] = [
    ("(", ")", 1_000),
    ("-", "", 1_000),
    ("f(", ")", 1_000),
    ("a[", "]", 1_000),
    ("array<f32, ", ">()", 1_000),
    ("a && b < c + d * f(", ")", 1_000),
    ("a && (b < c * (", "))", 500),
];

// At least 1,000 levels are read. With 20,000 levels the text is refused.
#[test]
fn depths(rt: HostRuntime) -> Result<(), Fail> {
    for (opened, closed, depth) in &NESTS {
        if !nests(rt.alloc(), opened, closed, *depth)? {
            return Err(Fail::from(*opened));
        }
        if nests(rt.alloc(), opened, closed, 20_000)? {
            return Err(Fail::from(*opened));
        }
    }
    Ok(())
}
