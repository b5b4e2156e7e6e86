// The texts that Mini reads and writes.
mod changed;
mod refusals;
mod refused;

use naga_oil_form::FormFault;
use naga_oil_form::check_form::check_form;
use naga_oil_ir::{
    Backend, BackendRefusal, Capabilities, Expression, Function, Index, Module, Operand,
    ShaderLanguage, Span, Statement,
};
use naga_oil_mini_front::Mini;
use std::process::Abort;

const EXAMPLE: &str = "const N = 3\nfn f(x, y) = x + N\nfn g(x) = f(x, 2) + 1\nentry main = g(5)\n";

fn read(rt: &(impl Abort + AllocGlobal), text: &str) -> Module {
    match Mini.parse(rt.alloc(), ShaderLanguage::Wgsl, text) {
        Ok(read) => read,
        Err(_) => panic!(rt; "not read: {text}"),
    }
}

// A module is written as this text, or refused with this message.
fn is_written(rt: &(impl Abort + AllocGlobal), of: &Module, wanted: &str) {
    match &Mini.write(rt.alloc(), of, ShaderLanguage::Glsl, Capabilities(0)) {
        Ok(text) => assert_eq!(rt; text.as_str(), wanted),
        Err(BackendRefusal::Fault(fault)) => assert_eq!(rt; fault.message.as_str(), wanted),
        Err(BackendRefusal::Memory) => panic!(rt; "no memory for {wanted}"),
    }
}

fn is_rewritten(rt: &(impl Abort + AllocGlobal), text: &str, wanted: &str) {
    is_written(rt, &read(rt, text), wanted);
}

#[test]
fn writes_what_it_reads(rt: HostRuntime) {
    for text in [
        EXAMPLE,
        "fn fX_naga_oil_mod_XMIYQX() = 1\nentry main = fX_naga_oil_mod_XMIYQX()\n",
        "fn f(x)\nentry main = f(f(1) + 2) + f(3)\n",
        "fn f(x, y) = x\nfn g(x) = f(f(x, 1), f(2 + 3, x) + 4) + x + f(5, 6)\n",
        "const N = 2147483647\n",
        LOCALS,
        "const N = 1\nvar G = 2\nfn f(x, y) = x + y + x + G + G + N + N\nentry e with V = N + 1 = V + f(V, V)\n",
        "fn with(with) with fn = 1 = with + fn\nentry with with with = 1 = with(with)\n",
        "const const = 1\nfn fn(entry) = entry + const\nentry entry = fn(const)\n",
        "",
    ] {
        is_rewritten(&rt, text, text);
    }
    for (text, wanted) in [
        (
            "#version 450\n  // x\n\t\n\u{3000}\n\t# x\nenable f16;\n requires x;\ndiagnostic(off, x);\n  fn  f ( x ,y )=x+ 007 \r\nfn fn(with) = with\nentry e=f( 1,2)",
            "fn f(x, y) = x + 7\nfn fn(with) = with\nentry e = f(1, 2)\n",
        ),
        (
            "var  G=007\nfn f( x )  with V=1 ,W = 02+3=V+W+G\nconst N = 1\nentry e with  V = N=V",
            "const N = 1\nvar G = 7\nfn f(x) with V = 1, W = 2 + 3 = V + W + G\nentry e with V = N = V\n",
        ),
        // An initialiser names constants alone, whatever else has the name.
        (
            "const N = 1\nvar N = 2\nfn f(N) with N = N = N\n",
            "const N = 1\nvar N = 2\nfn f(N) with N = N = N\n",
        ),
        // A name means the last item before it.
        (
            "const N = 1\nfn f() = N\nconst N = 2\nfn g(N, N) = N\nfn g() = N + f()\nentry e = g()\n",
            "const N = 1\nconst N = 2\nfn f() = N\nfn g(N, N) = N\nfn g() = N + f()\nentry e = g()\n",
        ),
    ] {
        is_rewritten(&rt, text, wanted);
    }
}

// What an expression or a statement is, and its numbers.
type Said = (&'static str, u64, u64);

fn said(expression: &Expression) -> Said {
    match expression {
        Expression::FunctionArgument(place) => ("argument", u64::from(*place), 0),
        Expression::LocalVariable(local) => ("local", local.index() as u64, 0),
        Expression::GlobalVariable(global) => ("global", global.index() as u64, 0),
        Expression::Load { pointer } => ("load", pointer.index() as u64, 0),
        Expression::Literal { kind, bits } => ("literal", *kind, *bits),
        Expression::Constant(constant) => ("constant", constant.index() as u64, 0),
        Expression::CallResult(callee) => ("result", callee.index() as u64, 0),
        Expression::Binary { op: 1, left, right } => {
            ("sum", left.index() as u64, right.index() as u64)
        }
        _ => ("other", 0, 0),
    }
}

fn done(statement: &Statement) -> Said {
    match statement {
        Statement::Call {
            callee,
            result: Some(result),
            ..
        } => ("call", callee.index() as u64, result.index() as u64),
        Statement::Emit(range) => ("emit", range.start() as u64, range.end() as u64),
        Statement::Return { value: Some(value) } => ("return", value.index() as u64, 0),
        _ => ("other", 0, 0),
    }
}

// A function has these expressions and statements, all of them at this span.
fn says(rt: &impl Abort, function: &Function, expressions: &[Said], statements: &[Said], at: Span) {
    assert_eq!(rt; function.expressions.len(), expressions.len());
    for (found, wanted) in function.expressions.as_slice().iter().zip(expressions) {
        assert_eq!(rt; (said(&found.0), found.1), (*wanted, at));
    }
    assert_eq!(rt; function.body.body.len(), statements.len());
    for (found, wanted) in function.body.body.iter().zip(statements) {
        assert_eq!(rt; (done(&found.0), found.1), (*wanted, at));
    }
}

// What a text's last function returns; of a variable's load the variable.
fn returned_by_last(of: &Module) -> Option<Said> {
    let (function, _) = of.functions.as_slice().last()?;
    let Statement::Return { value: Some(value) } = function.body.body.last()?.0 else {
        return None;
    };
    match function.expressions.try_get(value)? {
        Expression::Load { pointer } => Some(said(function.expressions.try_get(*pointer)?)),
        expression => Some(said(expression)),
    }
}

fn returns(rt: &(impl Abort + AllocGlobal), text: &str, wanted: Said) {
    assert_eq!(rt;
        returned_by_last(&read(rt, text)),
        Some(wanted),
        "in {text}"
    );
}

#[test]
fn a_name_means_the_last_before_it(rt: HostRuntime) {
    for (text, wanted) in [
        ("fn f(x, x) = x\n", ("argument", 1, 0)),
        (
            "const N = 1\nconst N = 2\nconst M = 3\nfn f() = N\nconst N = 4\n",
            ("constant", 1, 0),
        ),
        (
            "fn f()\nfn f()\nfn g() = f()\nfn f() = f()\n",
            ("result", 1, 0),
        ),
        ("const N = 1\nfn f(x, N) = N\n", ("argument", 1, 0)),
        // A parameter, else a local, else a global, else a constant.
        ("fn f(V) with V = 1 = V\n", ("argument", 0, 0)),
        ("fn f() with V = 1, V = 2 = V\n", ("local", 1, 0)),
        ("var G = 1\nfn f() with G = 1 = G\n", ("local", 0, 0)),
        ("var G = 1\nvar G = 2\nfn f() = G\n", ("global", 1, 0)),
        ("var N = 1\nconst N = 2\nfn f() = N\n", ("global", 0, 0)),
        ("const N = 2\nfn f() = N\nvar N = 1\n", ("constant", 0, 0)),
    ] {
        returns(&rt, text, wanted);
    }
}

// The arguments of a call.
fn given(statement: &Statement) -> &[Operand] {
    match statement {
        Statement::Call { arguments, .. } => arguments.as_slice(),
        _ => &[],
    }
}

// The module of the example. Each item has the span of its line, and expressions are built from the left.
fn is_example(rt: &impl Abort, read: &Module) {
    assert_eq!(rt; read.types.len(), 1);
    assert_eq!(rt; read.types.get_span(Index::new(0)), Span::UNDEFINED);
    assert_eq!(rt; read.constants.get_span(Index::new(0)), Span::new(0, 11));
    assert_eq!(rt;
        read.global_expressions.get_span(Index::new(0)),
        Span::new(0, 11)
    );
    let functions = read.functions.as_slice();
    assert_eq!(rt; functions.len(), 2);
    assert_eq!(rt; functions[0].1, Span::new(12, 30));
    assert_eq!(rt; functions[1].1, Span::new(31, 52));
    let g = &functions[1].0;
    says(
        rt,
        g,
        &[
            ("argument", 0, 0),
            ("literal", 1, 2),
            ("result", 0, 0),
            ("literal", 1, 1),
            ("sum", 2, 3),
        ],
        &[("call", 0, 2), ("emit", 4, 5), ("return", 4, 0)],
        Span::new(31, 52),
    );
    let call = g.body.body.first();
    assert!(rt;
        call.is_some_and(
            |call| matches!(given(&call.0), [x, y] if x.index() == 0 && y.index() == 1)
        )
    );
    assert_eq!(rt; read.entry_points.len(), 1);
    says(
        rt,
        &read.entry_points[0].function,
        &[("literal", 1, 5), ("result", 1, 0)],
        &[("call", 1, 1), ("return", 1, 0)],
        Span::new(53, 70),
    );
}

// A function with a global and equal initialisers, whose parameter no term names.
const LOCALS: &str = "var G = 3\nfn f(x) with V = 1 + 2, W = 1 + 2 = G + V + W\n";

// A global is of space 1 and has the span of its line, and its number too.
fn has_global(rt: &impl Abort, read: &Module, at: Span) {
    assert_eq!(rt; read.global_variables.len(), 1);
    let (global, span) = &read.global_variables.as_slice()[0];
    assert_eq!(rt;
        (global.space, global.binding, global.ty.index()),
        (1, None, 0)
    );
    assert_eq!(rt; global.init.map(|init| init.index()), Some(0));
    assert_eq!(rt; *span, at);
    assert_eq!(rt; read.global_expressions.get_span(Index::new(0)), at);
}

// Locals have these names and initialisers.
fn has_locals(rt: &impl Abort, function: &Function, wanted: &[(&str, usize)]) {
    assert_eq!(rt; function.local_variables.len(), wanted.len());
    for (found, wanted) in function.local_variables.as_slice().iter().zip(wanted) {
        let name = found.0.name.as_ref().map_or("", |name| name.as_str());
        assert_eq!(rt; name, wanted.0);
        assert_eq!(rt; found.0.init.map(|init| init.index()), Some(wanted.1));
        assert_eq!(rt; found.0.ty.index(), 0);
    }
}

#[test]
fn reads_globals_and_locals(rt: HostRuntime) {
    let read = read(&rt, LOCALS);
    has_global(&rt, &read, Span::new(0, 9));
    assert_eq!(&rt; read.functions.len(), 1);
    let f = &read.functions.as_slice()[0].0;
    has_locals(&rt, f, &[("V", 3), ("W", 6)]);
    let expressions = [
        ("argument", 0, 0),
        ("literal", 1, 1),
        ("literal", 1, 2),
        ("sum", 1, 2),
        ("literal", 1, 1),
        ("literal", 1, 2),
        ("sum", 4, 5),
        ("global", 0, 0),
        ("load", 7, 0),
        ("local", 0, 0),
        ("load", 9, 0),
        ("sum", 8, 10),
        ("local", 1, 0),
        ("load", 12, 0),
        ("sum", 11, 13),
    ];
    let statements = [
        ("emit", 3, 4),
        ("emit", 6, 7),
        ("emit", 8, 9),
        ("emit", 10, 11),
        ("emit", 11, 12),
        ("emit", 13, 14),
        ("emit", 14, 15),
        ("return", 14, 0),
    ];
    says(&rt, f, &expressions, &statements, Span::new(10, 55));
    let form = check_form(&read, rt.alloc(), "", LOCALS.len());
    assert_eq!(rt; form, Ok(()));
}

// A stub, and an entry point that calls it.
fn has_stub(rt: &impl Abort, read: &Module) {
    assert_eq!(rt; read.functions.len(), 1);
    let stub = &read.functions.as_slice()[0].0;
    assert_eq!(rt; stub.arguments.len(), 1);
    says(rt, stub, &[], &[], Span::UNDEFINED);
    assert_eq!(rt; read.entry_points.len(), 1);
    let main = &read.entry_points[0];
    assert_eq!(rt; main.name.as_str(), "main");
    assert_eq!(rt; main.stage, 2);
    assert_eq!(rt; main.workgroup_size, [1, 1, 1]);
    assert_eq!(rt; main.function.body.body.len(), 2);
}

#[test]
fn reads_each_item(rt: HostRuntime) {
    is_example(&rt, &read(&rt, EXAMPLE));
    has_stub(&rt, &read(&rt, "fn f(x)\nentry main = f(1)\n"));
}

// The constants of a text have these spans.
fn spans_are(rt: &(impl Abort + AllocGlobal), text: &str, wanted: &[Span]) {
    let read = read(rt, text);
    assert_eq!(rt; read.constants.len(), wanted.len(), "in {text}");
    for (found, span) in read.constants.as_slice().iter().zip(wanted) {
        assert_eq!(rt; found.1, *span, "in {text}");
    }
}

#[test]
fn spans_lie_on_their_lines(rt: HostRuntime) {
    let ends = [Span::new(0, 11), Span::new(13, 24)];
    spans_are(&rt, "const N = 3\r\nconst M = 4\r\n", &ends);
    spans_are(&rt, "const N = 3\r\nconst M = 4", &ends);
    spans_are(&rt, "const N = 3\n\nconst M = 4\n", &ends);
    spans_are(&rt, "\r\n  const N = 3\r\n", &[Span::new(2, 15)]);
}

fn has_form(
    rt: &(impl Abort + AllocGlobal),
    text: &str,
    decoration: &str,
    form: Result<(), FormFault>,
) {
    let read = read(rt, text);
    let found = check_form(&read, rt.alloc(), decoration, text.len());
    assert_eq!(rt; found, form);
}

#[test]
fn reads_modules_of_the_form(rt: HostRuntime) {
    has_form(&rt, EXAMPLE, "", Ok(()));
    let text = "fn f() = 1\nfn fX_naga_oil_mod_XMEX() = 2\n";
    has_form(&rt, text, "X_naga_oil_mod_XMEX", Err(FormFault::WrongForm));
}
