// The requests that `oil` itself doesn't take.
use super::{Page, USAGE, file, words_of};
use crate::mini::help::{HELP, VERSION};
use crate::mini::program;
use std::alloc::AllocError;
use std::process::Abort;
use std::test::Fail;

// The program has this outcome.
fn answers(
    rt: &(impl Abort + AllocGlobal),
    line: &str,
    text: &[u8],
    want: (u8, &str, &str),
) -> Result<(), AllocError> {
    let alloc = rt.alloc();
    let words = words_of(alloc, line)?;
    let (mut out, mut err) = (Page::new(alloc), Page::new(alloc));
    let read = |name: &str| file(alloc, text, name);
    let status = program(alloc, words.as_slice(), read, &mut out, &mut err);
    assert_eq!(rt; out.text.as_slice(), want.1.as_bytes(), "out of {line}");
    assert_eq!(rt; err.text.as_slice(), want.2.as_bytes(), "err of {line}");
    assert_eq!(rt; status, want.0, "status of {line}");
    Ok(())
}

#[test]
fn tells_of_itself(rt: HostRuntime) -> Result<(), Fail> {
    answers(&rt, "--help", b"", (0, HELP, ""))?;
    answers(&rt, "--version", b"", (0, VERSION, ""))?;
    for line in [
        "",
        "-h",
        "help",
        "--help pre",
        "--version --help",
        "pre --help t.txt",
        "pre t.txt --metadata",
        "pre --metadata +a",
        "pre --metadata t.txt K=2",
        "make --metadata +a",
    ] {
        let answer = if line == "make --metadata +a" {
            "cannot read --metadata\n"
        } else {
            USAGE
        };
        answers(&rt, line, b"", (2, "", answer))?;
    }
    Ok(())
}

// `oil` itself is unchanged: these words are files.
#[test]
fn takes_its_options_as_files(rt: HostRuntime) -> Result<(), Fail> {
    for (line, err) in [
        ("pre --help", "cannot read --help\n"),
        ("pre --metadata", "cannot read --metadata\n"),
        ("pre --metadata K=2", "cannot read --metadata\n"),
        ("pre K=2 --metadata", "cannot read --metadata\n"),
        ("pre -", "cannot read -\n"),
        ("make t.txt --help", "cannot read --help\n"),
    ] {
        answers(&rt, line, b"", (2, "", err))?;
    }
    answers(
        &rt,
        "pre t.txt",
        b"#ifdef A\na\n#endif",
        (0, "        \n \n      \n", ""),
    )?;
    Ok(())
}

#[test]
fn lists_metadata(rt: HostRuntime) -> Result<(), Fail> {
    for (text, out) in [
        ("", ""),
        ("fn a() {}\n", ""),
        (
            "#define_import_path water\n#import noise::{ripple, swell as wave}\n#define LAYERS 3\n#ifdef CALM\nripple();\n#else if LAYERS >= 3\nwave(#{SCALE}) + ripple();\n#endif\n",
            "path\twater\nimport\tnoise\tripple\tswell\tripple\ndefine\tLAYERS\t3\nname\tCALM\nname\tLAYERS\nname\tSCALE\n",
        ),
        (
            "#define_import_path a\n#define_import_path b::c\n#define N -1\n#define A\n#define N 7\n#define B false\n",
            "path\tb::c\ndefine\tA\ttrue\ndefine\tB\tfalse\ndefine\tN\t7\n",
        ),
        (
            "#import a::f\n// #C f\n#ifdef D\nf();\n#endif",
            "import\ta\tf\nname\tC\nname\tD\n",
        ),
        // A module's name between quotes holds what it likes.
        (
            "#import \"a\tb\\c\"::f\nf();",
            "import\t\"a\\tb\\\\c\"\tf\n",
        ),
        (
            "enable f16;\n#import c\nc::g() + c::h();\r\n",
            "import\tc\tg\th\n",
        ),
    ] {
        answers(&rt, "pre --metadata t.txt", text.as_bytes(), (0, out, ""))?;
    }
    Ok(())
}

#[test]
fn says_why_it_lists_nothing(rt: HostRuntime) -> Result<(), Fail> {
    for (line, text, want) in [
        ("pre --metadata no.txt", "", (2, "", "cannot read no.txt\n")),
        (
            "pre --metadata m.txt",
            "",
            (1, "", "error: out of memory\n"),
        ),
        (
            "pre --metadata t.txt",
            "a\n#define A x1",
            (
                1,
                "",
                "error: Invalid value for `#define`d shader def A: x1\n  at t.txt:2:1\n",
            ),
        ),
    ] {
        answers(&rt, line, text.as_bytes(), want)?;
    }
    answers(
        &rt,
        "pre --metadata t.txt",
        b"a\xff",
        (2, "", "cannot read t.txt\n"),
    )?;
    Ok(())
}

#[test]
fn says_that_a_write_of_its_own_failed(rt: HostRuntime) -> Result<(), Fail> {
    let alloc = rt.alloc();
    for line in ["--help", "--version", "pre --metadata t.txt"] {
        let words = words_of(alloc, line)?;
        let mut full = Page {
            text: Vec::new(alloc),
            takes: false,
        };
        let mut err = Page::new(alloc);
        let read = |name: &str| file(alloc, b"#define A", name);
        let status = program(alloc, words.as_slice(), read, &mut full, &mut err);
        assert_eq!(rt; (status, err.text.len()), (1, 0), "at {line}");
    }
    Ok(())
}
