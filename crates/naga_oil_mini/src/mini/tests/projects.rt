// Shaders that are built from files: the outcomes of `oil make`.
use super::{Page, USAGE, words_of};
use crate::mini::oil;
use std::alloc::{AllocError, Global};
use std::process::Abort;
use std::test::Fail;

// The bytes of a file among these.
fn found(alloc: Global, files: &[(&str, &str)], name: &str) -> Result<Option<Vec<u8>>, AllocError> {
    for (file, text) in files {
        if *file == name {
            return Ok(Some(Vec::from_slice(alloc, text.as_bytes())?));
        }
    }
    Ok(None)
}

// `oil` has this outcome over these files.
pub(super) fn answers(
    rt: &(impl Abort + AllocGlobal),
    line: &str,
    files: &[(&str, &str)],
    want: (u8, &str, &str),
) -> Result<(), AllocError> {
    let alloc = rt.alloc();
    let words = words_of(alloc, line)?;
    let (mut out, mut err) = (Page::new(alloc), Page::new(alloc));
    let read = |name: &str| found(alloc, files, name);
    let status = oil(alloc, words.as_slice(), read, &mut out, &mut err);
    assert_eq!(rt; out.text.as_slice(), want.1.as_bytes(), "out of {line}");
    assert_eq!(rt; err.text.as_slice(), want.2.as_bytes(), "err of {line}");
    assert_eq!(rt; status, want.0, "status of {line}");
    Ok(())
}

const BASE: &str = "#define_import_path a\nvirtual fn f(x) = x + 1";

const TEN: &str = "#define_import_path b\n#import a\noverride fn a::f(x) = a::f(x) + 10";

const HUNDRED: &str = "#define_import_path c\n#import a\noverride fn a::f(x) = a::f(x) + 100";

const THOUSAND: &str = "#define_import_path d\n#import a\noverride fn a::f(x) = a::f(x) + 1000";

const CALLS: &str = "#import a\nentry main = a::f(5)";

#[test]
fn sends_calls_down_what_overrides(rt: HostRuntime) -> Result<(), Fail> {
    let files = [
        ("top.txt", CALLS),
        ("a.txt", BASE),
        ("b.txt", TEN),
        ("c.txt", HUNDRED),
    ];
    for (line, made) in [
        (
            "make top.txt a.txt b.txt c.txt +b +c",
            "fn fX_naga_oil_mod_XMEX(x) = x + 1
fn fX_naga_oil_vrt_XMEXX_naga_oil_mod_XMIX(x) = fX_naga_oil_mod_XMEX(x) + 10
fn fX_naga_oil_vrt_XMEXX_naga_oil_mod_XMMX(x) = fX_naga_oil_vrt_XMEXX_naga_oil_mod_XMIX(x) + 100
entry main = fX_naga_oil_vrt_XMEXX_naga_oil_mod_XMMX(5)
",
        ),
        (
            "make top.txt a.txt b.txt +b",
            "fn fX_naga_oil_mod_XMEX(x) = x + 1
fn fX_naga_oil_vrt_XMEXX_naga_oil_mod_XMIX(x) = fX_naga_oil_mod_XMEX(x) + 10
entry main = fX_naga_oil_vrt_XMEXX_naga_oil_mod_XMIX(5)
",
        ),
        (
            "make top.txt a.txt b.txt c.txt",
            "fn fX_naga_oil_mod_XMEX(x) = x + 1
entry main = fX_naga_oil_mod_XMEX(5)
",
        ),
    ] {
        answers(&rt, line, &files, (0, made, ""))?;
    }
    Ok(())
}

// The first that overrides calls the base, each other one the one before it, and the entry point the last.
#[test]
fn sends_calls_down_in_the_order_of_imports(rt: HostRuntime) -> Result<(), Fail> {
    let files = [
        ("top.txt", CALLS),
        ("a.txt", BASE),
        ("b.txt", TEN),
        ("c.txt", HUNDRED),
        ("d.txt", THOUSAND),
    ];
    for (line, made) in [
        (
            "make top.txt a.txt b.txt c.txt d.txt +b +c +d",
            "fn fX_naga_oil_mod_XMEX(x) = x + 1
fn fX_naga_oil_vrt_XMEXX_naga_oil_mod_XMIX(x) = fX_naga_oil_mod_XMEX(x) + 10
fn fX_naga_oil_vrt_XMEXX_naga_oil_mod_XMMX(x) = fX_naga_oil_vrt_XMEXX_naga_oil_mod_XMIX(x) + 100
fn fX_naga_oil_vrt_XMEXX_naga_oil_mod_XMQX(x) = fX_naga_oil_vrt_XMEXX_naga_oil_mod_XMMX(x) + 1000
entry main = fX_naga_oil_vrt_XMEXX_naga_oil_mod_XMQX(5)
",
        ),
        (
            "make top.txt a.txt b.txt c.txt d.txt +d +c +b",
            "fn fX_naga_oil_mod_XMEX(x) = x + 1
fn fX_naga_oil_vrt_XMEXX_naga_oil_mod_XMQX(x) = fX_naga_oil_mod_XMEX(x) + 1000
fn fX_naga_oil_vrt_XMEXX_naga_oil_mod_XMMX(x) = fX_naga_oil_vrt_XMEXX_naga_oil_mod_XMQX(x) + 100
fn fX_naga_oil_vrt_XMEXX_naga_oil_mod_XMIX(x) = fX_naga_oil_vrt_XMEXX_naga_oil_mod_XMMX(x) + 10
entry main = fX_naga_oil_vrt_XMEXX_naga_oil_mod_XMIX(5)
",
        ),
    ] {
        answers(&rt, line, &files, (0, made, ""))?;
    }
    Ok(())
}

// With the option any function of what is imported may be overridden, if there is one of that name.
#[test]
fn overrides_functions_that_are_not_virtual(rt: HostRuntime) -> Result<(), Fail> {
    let line = "make --override-any top.txt a.txt b.txt +b";
    let plain = "#define_import_path a\nfn f(x) = x + 1";
    let files = [("top.txt", CALLS), ("a.txt", plain), ("b.txt", TEN)];
    let out = "fn fX_naga_oil_mod_XMEX(x) = x + 1
fn fX_naga_oil_vrt_XMEXX_naga_oil_mod_XMIX(x) = fX_naga_oil_mod_XMEX(x) + 10
entry main = fX_naga_oil_vrt_XMEXX_naga_oil_mod_XMIX(5)
";
    answers(&rt, line, &files, (0, out, ""))?;
    let missing = "#define_import_path b\n#import a\noverride fn a::nope(x) = 1";
    let files = [("top.txt", CALLS), ("a.txt", plain), ("b.txt", missing)];
    let err = "error: invalid override :can't find function a::nope for redirection
  at top.txt:1:1
  note: override error
";
    answers(&rt, line, &files, (1, "", err))?;
    Ok(())
}

// After a file the option is the name of a file, as for `pre`.
#[test]
fn takes_the_option_right_after_make(rt: HostRuntime) -> Result<(), Fail> {
    let unread = "cannot read --override-any\n";
    for (line, err) in [
        ("make top.txt --override-any", unread),
        ("make --override-any --override-any top.txt", unread),
        ("pre --override-any", unread),
        ("make --override-any", USAGE),
        ("make --override-any +a", USAGE),
        ("--override-any make top.txt", USAGE),
    ] {
        answers(&rt, line, &[("top.txt", CALLS)], (2, "", err))?;
    }
    Ok(())
}

#[test]
fn reads_keywords_outside_comments(rt: HostRuntime) -> Result<(), Fail> {
    let line = "make top.txt a.txt b.txt +b";
    let hidden = "#define_import_path a\n// virtual fn f(x)\nfn f(x) = x + 1";
    let files = [("top.txt", CALLS), ("a.txt", hidden), ("b.txt", TEN)];
    let err =
        "error: override is invalid as `f` is not virtual (this error can be disabled with feature 'override_any')
  at b.txt:3:13
";
    answers(&rt, line, &files, (1, "", err))?;
    let following = "#define_import_path b\n#import a\n/* */ override fn a::f(x) = a::f(x) + 10";
    let files = [("top.txt", CALLS), ("a.txt", BASE), ("b.txt", following)];
    let err = "error: line not understood\n  at b.txt:3:1\n";
    answers(&rt, line, &files, (1, "", err))?;
    let plain = "#define_import_path a\nfn f(x) = x + 1";
    let files = [("top.txt", CALLS), ("a.txt", plain), ("b.txt", following)];
    let err =
        "error: override is invalid as `f` is not virtual (this error can be disabled with feature 'override_any')
  at b.txt:3:19
";
    answers(&rt, line, &files, (1, "", err))?;
    // A keyword needs no space before it.
    let joined = "#define_import_path a\nfn f(x) = x + 1\ndiagnostic(xvirtual fn f(";
    let files = [("top.txt", CALLS), ("a.txt", joined), ("b.txt", TEN)];
    let out = "fn fX_naga_oil_mod_XMEX(x) = x + 1
fn fX_naga_oil_vrt_XMEXX_naga_oil_mod_XMIX(x) = fX_naga_oil_mod_XMEX(x) + 10
entry main = fX_naga_oil_vrt_XMEXX_naga_oil_mod_XMIX(5)
";
    answers(&rt, line, &files, (0, out, ""))?;
    Ok(())
}

#[test]
fn tells_faults_of_overrides(rt: HostRuntime) -> Result<(), Fail> {
    let line = "make top.txt a.txt b.txt +b";
    let plain = "#define_import_path a\nfn f(x) = x + 1";
    let files = [("top.txt", CALLS), ("a.txt", plain), ("b.txt", TEN)];
    let err =
        "error: override is invalid as `f` is not virtual (this error can be disabled with feature 'override_any')
  at b.txt:3:13
";
    answers(&rt, line, &files, (1, "", err))?;
    let turning = "#define_import_path b\n#import a\nfn h(x) = a::f(x)\noverride fn a::f(x) = h(x)";
    let files = [("top.txt", CALLS), ("a.txt", BASE), ("b.txt", turning)];
    let err =
        "error: invalid override :circular reference; can't find an order for : b::h, b::foverride fn a::
  at top.txt:1:1
  note: override error
";
    answers(&rt, line, &files, (1, "", err))?;
    Ok(())
}

#[test]
fn tells_faults_of_texts(rt: HostRuntime) -> Result<(), Fail> {
    let top = "#import m\nentry main = m::g(2)";
    let unread = "#define_import_path m\noops";
    for (module, source, err) in [
        (
            "#define_import_path m\nfn g() = 1",
            top,
            "error: failed to build a valid final module: wrong number of arguments
  at top.txt:2:1: call of m::g
",
        ),
        (
            unread,
            "entry main = m::g()",
            "error: line not understood\n  at m.txt:2:1\n",
        ),
        (
            "enable f16;\n#define_import_path m\n#import zz\nfn g() = zz::f()",
            top,
            "error: required import 'zz' not found\n  at m.txt:3:10\n  note: missing import 'zz'\n",
        ),
        (
            "fn g() = 1",
            top,
            "error: Attempted to add a module with no #define_import_path\n  in m.txt\n",
        ),
        (
            "// x\renable  ;\n",
            top,
            "error: Invalid WGSL directive 'enable  ;' at line 1: No extensions specified\n  at m.txt:2:1\n",
        ),
        (
            "#define_import_path m",
            "\tentry main = 1",
            "error: line not understood\n  at top.txt:1:1\n",
        ),
        (
            "#define_import_path m",
            "const A = 1\nconst A = 2\nfn f() = A\nconst A = 1\nfn g() = A\nentry main = f() + g()",
            "error: not in Mini\n",
        ),
    ] {
        let files = [("top.txt", source), ("m.txt", module)];
        answers(&rt, "make top.txt m.txt", &files, (1, "", err))?;
    }
    Ok(())
}

// Two functions with the same name, and two entry points with the same name.
#[test]
fn tells_modules_of_wrong_form(rt: HostRuntime) -> Result<(), Fail> {
    for (module, source, err) in [
        (
            "#define_import_path m\nfn g() = 1\nfn g() = 2",
            "entry main = m::g()",
            "error: front end gave a module of wrong form\n  in m.txt\n",
        ),
        (
            "#define_import_path m\nfn g() = 1",
            "entry main = m::g()\nentry main = m::g()",
            "error: front end gave a module of wrong form\n  in top.txt\n",
        ),
    ] {
        let files = [("top.txt", source), ("m.txt", module)];
        answers(&rt, "make top.txt m.txt", &files, (1, "", err))?;
    }
    Ok(())
}

#[test]
fn tells_where_a_chain_is_open(rt: HostRuntime) -> Result<(), Fail> {
    let files = [("bad.txt", "#ifdef A\nx\n")];
    let err =
        "error: Not enough '# endif' lines. Each if statement should be followed by an endif statement.\n  at bad.txt:3:1\n";
    answers(&rt, "pre bad.txt", &files, (1, "", err))?;
    Ok(())
}

// An override of no item, whose name is a mark and a code alone, is a line that Mini doesn't understand.
#[test]
fn overrides_no_empty_name(rt: HostRuntime) -> Result<(), Fail> {
    let nameless = "#define_import_path b\n#import a:: as q\noverride fn q(x) = 1";
    let files = [("top.txt", CALLS), ("a.txt", BASE), ("b.txt", nameless)];
    let err = "error: line not understood\n  at b.txt:3:1\n";
    answers(&rt, "make top.txt a.txt b.txt +b", &files, (1, "", err))?;
    Ok(())
}

#[test]
fn tells_names_undecorated(rt: HostRuntime) -> Result<(), Fail> {
    let files = [("top.txt", "entry main = 1")];
    for (name, told) in [
        ("fX_naga_oil_mod_XMEXYZ", "a::fYZ"),
        ("fX_naga_oil_mod_X1X", "fX_naga_oil_mod_X1X"),
        (
            "fX_naga_oil_vrt_XMEXX_naga_oil_mod_XMIX",
            "b::foverride fn a::",
        ),
        ("fX_naga_oil_vrt_X1X", "fX_naga_oil_vrt_X1X"),
        // Of the empty name.
        ("fX_naga_oil_mod_XX", "::f"),
        // A last mark without a code is passed over, and one whose code is of no text is not.
        (
            "fX_naga_oil_mod_XMEXyX_naga_oil_mod_Xz",
            "a::fyX_naga_oil_mod_Xz",
        ),
        (
            "fX_naga_oil_mod_XMEXyX_naga_oil_mod_X1X",
            "fX_naga_oil_mod_XMEXyX_naga_oil_mod_X1X",
        ),
    ] {
        let alloc = rt.alloc();
        let line = format!(in alloc; "make top.txt +{name}")?;
        let err = format!(in alloc;
            "error: required import '{told}' not found\n  at top.txt:1:1\n  note: missing import '{told}'\n"
        )?;
        answers(&rt, line.as_str(), &files, (1, "", err.as_str()))?;
    }
    Ok(())
}

// An import that the value of a name brings isn't one that its module may have.
#[test]
fn tells_an_import_that_is_not_recorded(rt: HostRuntime) -> Result<(), Fail> {
    let files = [
        ("top.txt", "#import m\nentry main = m::g()"),
        ("a.txt", "#define_import_path a\nfn f() = 1"),
        ("m.txt", "#define_import_path m\nfn g() = a::#X"),
    ];
    let err =
        "error: required import 'a' not found\n  at top.txt:1:1\n  note: missing import 'a'\n";
    answers(&rt, "make top.txt a.txt m.txt X=5", &files, (1, "", err))?;
    Ok(())
}

#[test]
fn makes_what_mini_says(rt: HostRuntime) -> Result<(), Fail> {
    for (source, made) in [
        ("", ""),
        ("entry main = 007", "entry main = 7\n"),
        (
            "\t\nfn fn(with) = with\nentry main = fn(1)",
            "fn fn(with) = with\nentry main = fn(1)\n",
        ),
        (
            "fn f(x, x) = x\nentry main = f(1, 2)",
            "fn f(x, x) = x\nentry main = f(1, 2)\n",
        ),
        (
            "const A = 1\nconst A = 2\nentry main = A",
            "const A = 1\nconst A = 2\nentry main = A\n",
        ),
        (
            "#import m::g\nentry main = g()",
            "fn gX_naga_oil_mod_XNUX() = 1\nentry main = gX_naga_oil_mod_XNUX()\n",
        ),
        ("#if K == 3\nentry main = #K\n#endif", "entry main = 3\n"),
    ] {
        let files = [
            ("top.txt", source),
            ("m.txt", "#define_import_path m\nfn g() = 1\nfn h() = 2"),
        ];
        answers(&rt, "make top.txt m.txt K=3", &files, (0, made, ""))?;
    }
    Ok(())
}

// Both are owned, copied and linked.
#[test]
fn links_constants_of_one_name(rt: HostRuntime) -> Result<(), Fail> {
    let files = [
        ("top.txt", "entry main = m::f() + m::A"),
        (
            "m.txt",
            "#define_import_path m\nconst A = 1\nconst A = 2\nfn f() = A",
        ),
    ];
    let made = "const AX_naga_oil_mod_XNUX = 1
const AX_naga_oil_mod_XNUX = 2
fn fX_naga_oil_mod_XNUX() = AX_naga_oil_mod_XNUX
entry main = fX_naga_oil_mod_XNUX() + AX_naga_oil_mod_XNUX
";
    answers(&rt, "make top.txt m.txt", &files, (0, made, ""))?;
    Ok(())
}

// A global's name is decorated; those of locals stay.
#[test]
fn makes_globals_and_locals(rt: HostRuntime) -> Result<(), Fail> {
    let files = [
        (
            "top.txt",
            "#import m\nentry main with G = 4 = m::f(G) + m::G",
        ),
        (
            "m.txt",
            "#define_import_path m\nvar G = 3\nfn f(x) with V = 1 + 2, W = 1 + 2 = G + V + W",
        ),
    ];
    let made = "var GX_naga_oil_mod_XNUX = 3
fn fX_naga_oil_mod_XNUX(x) with V = 1 + 2, W = 1 + 2 = GX_naga_oil_mod_XNUX + V + W
entry main with G = 4 = fX_naga_oil_mod_XNUX(G) + GX_naga_oil_mod_XNUX
";
    answers(&rt, "make top.txt m.txt", &files, (0, made, ""))?;
    Ok(())
}

#[test]
fn says_which_words_and_files_are_wrong(rt: HostRuntime) -> Result<(), Fail> {
    let files = [("top.txt", "entry main = 1"), ("m.txt", "oops")];
    for (line, err) in [
        ("make", USAGE),
        ("make A=1 +b", USAGE),
        ("make top.txt A=x1", "bad definition A=x1\n"),
        ("make top.txt +a=1 no.txt", "bad definition +a=1\n"),
        ("make top.txt m.txt no.txt", "cannot read no.txt\n"),
    ] {
        answers(&rt, line, &files, (2, "", err))?;
    }
    let err = "error: required import '' not found\n  at top.txt:1:1\n  note: missing import ''\n";
    answers(&rt, "make top.txt +", &files, (1, "", err))?;
    Ok(())
}
