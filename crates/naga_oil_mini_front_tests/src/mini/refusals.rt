// What Mini refuses: the message, and the bytes that it speaks of.
use super::{Mini, read};
use naga_oil_ir::{Backend, BackendRefusal, Capabilities, Module, ShaderLanguage, Span};
use std::process::Abort;

// A text is refused so, at the bytes from `start` to `end`.
fn refuses(rt: &(impl Abort + AllocGlobal), text: &str, message: &str, start: u32, end: u32) {
    match Mini.parse(rt.alloc(), ShaderLanguage::Wgsl, text) {
        Err(BackendRefusal::Fault(fault)) => {
            assert_eq!(rt; fault.message.as_str(), message, "of {text}");
            assert_eq!(rt; fault.notes.len(), 0);
            assert_eq!(rt; fault.spans.len(), 1);
            assert_eq!(rt; fault.spans[0].0, Span::new(start, end), "of {text}");
            assert_eq!(rt; fault.spans[0].1.as_str(), "");
        }
        _ => assert!(rt; false, "{text} is read"),
    }
}

#[test]
fn refuses_lines(rt: HostRuntime) {
    for (text, start, end) in [
        ("entry main = 2147483648", 0, 23),
        ("entry main = 99999999999999999999", 0, 33),
        ("oops", 0, 4),
        ("constN = 1", 0, 10),
        ("const 1N = 1", 0, 12),
        ("const N = M", 0, 11),
        ("const N = 1 + 2", 0, 15),
        ("fn f(x,) = 1", 0, 12),
        ("fn f(x y) = 1", 0, 13),
        ("fn f(\nfn g() = z", 0, 5),
        ("fn f() =", 0, 8),
        ("fn f() = 1 2", 0, 12),
        ("fn f() = 1 + ", 0, 13),
        ("fn f() = + 1", 0, 12),
        ("fn f() = 1, 2", 0, 13),
        ("fn f() = 1)", 0, 11),
        ("fn f() = (1)", 0, 12),
        ("fn f() = -1", 0, 11),
        ("fn f() = é", 0, 11),
        ("fn f(x) = z + y(", 0, 16),
        ("fn f()\nfn g() = f(1,)", 7, 21),
        ("fn f()\nfn g() = f(1 +)", 7, 22),
        ("fn f()\nfn g() = f(,1)", 7, 21),
        ("var N", 0, 5),
        ("var N = 1 + 2", 0, 13),
        ("varN = 1", 0, 8),
        ("fn f()with V = 1 = V", 0, 20),
        ("fn f() with V = 1", 0, 17),
        ("fn f() with V = 1 V", 0, 19),
        ("fn f() with V = f() = V", 0, 23),
        ("fn f() with = 1", 0, 15),
        ("fn f() with V = 1, = V", 0, 22),
        ("fn f() with V = 1 + = V", 0, 23),
        ("fn f() with V = 1 = V = V", 0, 25),
        ("fn f() with V, W = 1 = V", 0, 24),
        ("entry e with V = 1", 0, 18),
        ("entry main", 0, 10),
        ("entry main() = 1", 0, 16),
        // Between tokens a space is U+0020 alone.
        ("fn f() = 1\n\tfn g() = 2\n", 11, 22),
        ("fn f() =\t1", 0, 10),
        ("fn f() = 1\t\n", 0, 11),
        ("fn f() = 1\r", 0, 11),
        // A line ends in `\n` or `\r\n`, and both are counted.
        ("const N = 3\r\nnonsense", 13, 21),
        ("const N = 3\r\n\r\n\nnonsense\r\n", 16, 24),
        ("const N = 3\r\nnonsense\r\r\n", 13, 22),
        ("const\u{a0}N = 1", 0, 12),
        ("\u{3000}const N = 1", 0, 14),
    ] {
        refuses(&rt, text, "line not understood", start, end);
    }
}

#[test]
fn refuses_unknown_names(rt: HostRuntime) {
    for (text, message, end) in [
        ("fn f(x) = y", "unknown name y", 11),
        ("fn f() = f()", "unknown name f", 12),
        ("fn f(x) = z + y", "unknown name z", 15),
        ("fn f() = 1 + f(z)", "unknown name f", 17),
        ("fn f(x) = x(1)", "unknown name x", 14),
        ("fn f(x) with V = x = V", "unknown name x", 22),
        ("fn f() with V = 1, W = V = y", "unknown name V", 28),
        ("fn f() with V = 1 = W", "unknown name W", 21),
        ("entry e = N\nconst N = 1\noops", "unknown name N", 11),
    ] {
        refuses(&rt, text, message, 0, end);
    }
}

// A text's module isn't valid: a call of `callee` has another number of arguments, at the bytes from `start` to `end`.
fn is_invalid(rt: &(impl Abort + AllocGlobal), text: &str, callee: &str, start: u32, end: u32) {
    let answer = Mini.validate(rt.alloc(), &read(rt, text), Capabilities(0));
    let Err(BackendRefusal::Fault(fault)) = &answer else {
        panic!(rt; "{text} is valid")
    };
    assert_eq!(rt; fault.message.as_str(), "wrong number of arguments");
    assert_eq!(rt; fault.notes.len(), 0);
    assert_eq!(rt; fault.spans.len(), 1);
    assert_eq!(rt; fault.spans[0].0, Span::new(start, end), "of {text}");
    assert_eq!(rt; fault.spans[0].1.as_str(), callee, "of {text}");
}

#[test]
fn validates_calls(rt: HostRuntime) {
    let fine = read(&rt, "fn f(x) = x\nfn g()\nentry e = f(f(1)) + g()\n");
    assert!(rt; Mini.validate(rt.alloc(), &fine, Capabilities(0)).is_ok());
    for (text, callee, start, end) in [
        (
            "fn f(x)\nfn g() = f(1)\nfn h() = f(f())\nentry e = g(1)\n",
            "call of f",
            22,
            37,
        ),
        (
            "fn f(x)\nentry e = f(1) + f()\nentry d = f()\n",
            "call of f",
            8,
            28,
        ),
        (
            "fn f(x)\nfn g()\nfn h() = f(g(1), 2)\n",
            "call of g",
            15,
            34,
        ),
        (
            "fn g()\nentry e = g(1)\nfn h() = g(2)\n",
            "call of g",
            22,
            35,
        ),
    ] {
        is_invalid(&rt, text, callee, start, end);
    }
}

#[test]
fn tells_what_it_does_not_write(rt: HostRuntime) {
    let mut other = Module::new(rt.alloc());
    other.diagnostic_filter_leaf = Some(0);
    let answer = Mini.write(rt.alloc(), &other, ShaderLanguage::Wgsl, Capabilities(0));
    let Err(BackendRefusal::Fault(fault)) = &answer else {
        panic!(rt; "written")
    };
    assert_eq!(rt; fault.message.as_str(), "not in Mini");
    assert_eq!(rt; fault.spans.len(), 0);
    assert_eq!(rt; fault.notes.len(), 0);
}
