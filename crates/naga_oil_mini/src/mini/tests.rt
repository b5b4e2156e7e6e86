// The outcomes of `oil`, with a reader and writers in memory.
mod examples;
mod program;
mod projects;

use super::oil;
use std::alloc::{AllocError, Global};
use std::io::{self, Write};
use std::process::Abort;
use std::test::Fail;

// A writer that keeps the bytes, or fails.
#[derive(Drop)]
struct Page {
    text: Vec<u8>,
    takes: bool,
}

impl Page {
    fn new(alloc: Global) -> Page {
        Page {
            text: Vec::new(alloc),
            takes: true,
        }
    }
}

impl Write for Page {
    fn write(&mut self, buf: &[u8]) -> io::Result<usize> {
        if !self.takes {
            return Err(io::Error::other("full"));
        }
        self.text.extend_from_slice(buf)?;
        Ok(buf.len())
    }

    fn flush(&mut self) -> io::Result<()> {
        Ok(())
    }
}

// The text of `t.txt`. Memory runs out for `m.txt`, and other files can't be read.
fn file(alloc: Global, text: &[u8], name: &str) -> Result<Option<Vec<u8>>, AllocError> {
    if name == "m.txt" {
        return Err(AllocError);
    }
    if name != "t.txt" {
        return Ok(None);
    }
    Ok(Some(Vec::from_slice(alloc, text)?))
}

fn words_of(alloc: Global, line: &str) -> Result<Vec<String>, AllocError> {
    let mut words = Vec::new(alloc);
    for word in line.split_whitespace() {
        words.push(String::from_str(alloc, word)?)?;
    }
    Ok(words)
}

// The status of `oil` with the words of a line, and the text on both streams.
fn run(
    alloc: Global,
    line: &str,
    text: &[u8],
    mut out: Page,
    mut err: Page,
) -> Result<(u8, Page, Page), AllocError> {
    let words = words_of(alloc, line)?;
    let status = oil(
        alloc,
        words.as_slice(),
        |name: &str| file(alloc, text, name),
        &mut out,
        &mut err,
    );
    Ok((status, out, err))
}

// `oil` has this outcome.
fn answers(
    rt: &(impl Abort + AllocGlobal),
    line: &str,
    text: &[u8],
    want: (u8, &str, &str),
) -> Result<(), AllocError> {
    let alloc = rt.alloc();
    let (status, out, err) = run(alloc, line, text, Page::new(alloc), Page::new(alloc))?;
    assert_eq!(rt; status, want.0, "status of {line}");
    assert_eq!(rt; out.text.as_slice(), want.1.as_bytes(), "out of {line}");
    assert_eq!(rt; err.text.as_slice(), want.2.as_bytes(), "err of {line}");
    Ok(())
}

const USAGE: &str =
    "usage: oil pre FILE [NAME=VALUE..] | oil make [--override-any] TOP [MODULE..] [+NAME..] [NAME=VALUE..]\n";

#[test]
fn prints_the_text(rt: HostRuntime) -> Result<(), Fail> {
    for (text, out) in [
        (
            "\n#define NOW_DEFINED\n#ifdef NOW_DEFINED\ndefined\n#endif\n",
            "\n                   \n                  \ndefined\n      \n",
        ),
        ("", ""),
        ("\n", ""),
        ("a\n\n", "a\n"),
        ("a\r\nb", "a\nb\n"),
        ("a\r\r\nb\r", "a\nb\r\n"),
        ("#if X", "#if X\n"),
    ] {
        answers(&rt, "pre t.txt", text.as_bytes(), (0, out, ""))?;
    }
    Ok(())
}

#[test]
fn takes_definitions(rt: HostRuntime) -> Result<(), Fail> {
    let text = b"#if K == 2\nb\n#endif";
    let shown = "          \nb\n      \n";
    let hidden = "          \n \n      \n";
    for (line, out) in [
        ("pre K=2 t.txt", shown),
        ("pre t.txt K=2", shown),
        ("pre t.txt K=2 K=1", hidden),
        ("pre t.txt K=1 K=2", shown),
        ("pre t.txt K=-2", hidden),
    ] {
        answers(&rt, line, text, (0, out, ""))?;
    }
    let own = b"#ifdef N\n#define K 2\n#endif\n#if K == 2\nb\n#endif";
    let out = "        \n           \n      \n          \nb\n      \n";
    answers(&rt, "pre t.txt K=1", own, (0, out, ""))?;
    Ok(())
}

#[test]
fn prints_items_by_their_modules(rt: HostRuntime) -> Result<(), Fail> {
    let text = b"#import a::f\nx.f + x. f";
    let out = "            \nx.f + x. fX_naga_oil_mod_XMEX\n";
    answers(&rt, "pre t.txt", text, (0, out, ""))?;
    let text = b"#import a::f\n// #C f\n#ifdef D\nf();\n#endif";
    let hidden = "            \n// #C fX_naga_oil_mod_XMEX\n        \n    \n      \n";
    answers(&rt, "pre t.txt", text, (0, hidden, ""))?;
    let shown =
        "            \n// 1 fX_naga_oil_mod_XMEX\n        \nfX_naga_oil_mod_XMEX();\n      \n";
    answers(&rt, "pre t.txt D= C=1", text, (0, shown, ""))?;
    Ok(())
}

#[test]
fn prints_names_without_their_last_colons(rt: HostRuntime) -> Result<(), Fail> {
    let text = b"#import a::f\nf:: + x::";
    let out = "            \nfX_naga_oil_mod_XMEX + x\n";
    answers(&rt, "pre t.txt", text, (0, out, ""))?;
    Ok(())
}

// A define among the lines of an import isn't a define.
#[test]
fn takes_no_define_of_an_import(rt: HostRuntime) -> Result<(), Fail> {
    let text = b"#import a::{\"\n#define A\n\"}\n#ifdef A\nx\n#endif";
    let out = "             \n         \n  \n        \n \n      \n";
    answers(&rt, "pre t.txt", text, (0, out, ""))?;
    let out = "             \n         \n  \n        \nx\n      \n";
    answers(&rt, "pre t.txt A=", text, (0, out, ""))?;
    Ok(())
}

#[test]
fn prints_arms_and_values(rt: HostRuntime) -> Result<(), Fail> {
    let text = b"#ifdef A\na\n#else if X\nb\n#endif";
    let out = "        \n \n          \nb\n      \n";
    answers(&rt, "pre t.txt", text, (0, out, ""))?;
    let out = "#MISSING * 5     \n";
    answers(&rt, "pre t.txt FIRST=5", b"#MISSING * #FIRST", (0, out, ""))?;
    let text = "#gr\u{f6}\u{df}e";
    let line = "pre t.txt gr\u{f6}\u{df}e=7";
    answers(&rt, line, text.as_bytes(), (0, "7       \n", ""))?;
    Ok(())
}

#[test]
fn prints_an_empty_line_for_a_directive(rt: HostRuntime) -> Result<(), Fail> {
    for (text, out) in [
        ("enable ;", "enable ;\n"),
        ("enable f16;\nfn a() {}\n", "\nfn a() {}\n"),
        ("enable f16; fn x() {}", ""),
        ("// x\n\nrequires a,b,,a;\n;", "// x\n\n\n;\n"),
        ("f\nenable a;", "f\nenable a;\n"),
    ] {
        answers(&rt, "pre t.txt", text.as_bytes(), (0, out, ""))?;
    }
    for (text, err) in [
        (
            "enable  ;",
            "error: Invalid WGSL directive 'enable  ;' at line 0: No extensions specified\n  at t.txt:1:1\n",
        ),
        (
            "diagnostic(of, x);",
            "error: Invalid WGSL directive 'diagnostic(of, x);' at line 0: Invalid severity 'of'. Must be one of: off, info, warn, error\n  at t.txt:1:1\n",
        ),
    ] {
        answers(&rt, "pre t.txt", text.as_bytes(), (1, "", err))?;
    }
    Ok(())
}

#[test]
fn says_what_is_wrong_with_the_words(rt: HostRuntime) -> Result<(), Fail> {
    for line in [
        "",
        "pre",
        "pre A=x1",
        "pre t.txt t.txt",
        "pre t.txt +a A=x1",
        "make",
        "make +a A=x1",
        "post t.txt",
    ] {
        answers(&rt, line, b"", (2, "", USAGE))?;
    }
    for (line, err) in [
        ("pre no.txt A=x1 B=x2", "bad definition A=x1\n"),
        ("pre t.txt =1", "bad definition =1\n"),
        ("pre t.txt +a=1", "bad definition +a=1\n"),
        ("pre t.txt A=+1", "bad definition A=+1\n"),
        ("pre t.txt A=1=2", "bad definition A=1=2\n"),
        ("pre t.txt A=4294967296", "bad definition A=4294967296\n"),
        ("pre no.txt A=", "cannot read no.txt\n"),
        ("make t.txt +a no.txt A=x1", "bad definition A=x1\n"),
        ("make t.txt +a no.txt n.txt", "cannot read no.txt\n"),
    ] {
        answers(&rt, line, b"", (2, "", err))?;
    }
    Ok(())
}

#[test]
fn says_what_is_wrong_with_the_text(rt: HostRuntime) -> Result<(), Fail> {
    answers(&rt, "pre t.txt", b"a\xff", (2, "", "cannot read t.txt\n"))?;
    answers(&rt, "pre m.txt", b"", (1, "", "error: out of memory\n"))?;
    for (text, err) in [
        (
            "#define A x1",
            "error: Invalid value for `#define`d shader def A: x1\n  at t.txt:1:1\n",
        ),
        (
            "#ifdef A",
            "error: Not enough '# endif' lines. Each if statement should be followed by an endif statement.\n  at t.txt:1:9\n",
        ),
        (
            "#if FOO",
            "error: Unknown shader def: 'FO'\n  at t.txt:1:1\n",
        ),
        // Places count in the text without directives, and without `\r`.
        (
            "enable f16;\n#endif",
            "error: Too many '# endif' lines. Each endif should be preceded by an if statement.\n  at t.txt:1:2\n",
        ),
        (
            "a\r\n#endif\r\n",
            "error: Too many '# endif' lines. Each endif should be preceded by an if statement.\n  at t.txt:1:3\n",
        ),
    ] {
        answers(&rt, "pre t.txt", text.as_bytes(), (1, "", err))?;
    }
    Ok(())
}

#[test]
fn says_that_a_write_failed(rt: HostRuntime) -> Result<(), Fail> {
    let alloc = rt.alloc();
    let full = Page {
        text: Vec::new(alloc),
        takes: false,
    };
    let (status, _, err) = run(alloc, "pre t.txt", b"a", full, Page::new(alloc))?;
    assert_eq!(rt; (status, err.text.len()), (1, 0));
    for line in ["pre", "pre no.txt", "pre t.txt A=x1", "pre m.txt"] {
        let full = Page {
            text: Vec::new(alloc),
            takes: false,
        };
        let (status, out, _) = run(alloc, line, b"a", Page::new(alloc), full)?;
        assert_eq!(rt; (status, out.text.len()), (1, 0), "at {line}");
    }
    Ok(())
}
