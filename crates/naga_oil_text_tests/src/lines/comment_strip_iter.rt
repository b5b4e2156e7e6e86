use naga_oil_lines::comment_strip_iter::CommentReplaceExt;
use std::alloc::{AllocError, Global};
use std::test::Fail;

// Appends a covered line.
fn push_line(out: &mut String, line: &str) -> Result<(), AllocError> {
    if !out.is_empty() {
        out.push('\n')?;
    }
    out.push_str(line)
}

// The lines of the text, covered and joined again.
fn covered(alloc: Global, text: &str) -> Result<String, AllocError> {
    let mut out = String::new(alloc);
    let mut lines = text.lines();
    for line in lines.replace_comments(alloc) {
        push_line(&mut out, line?.as_str())?;
    }
    Ok(out)
}

fn is(told: Result<String, AllocError>, want: &str) -> bool {
    match told {
        Ok(told) => told.as_str() == want,
        Err(_) => false,
    }
}

// Texts, each with its expected covered text.
static COVERED: [(&str, &str); 17] = [
    (
        "1.0 /* block comment with a partial line comment on the end *// 2.0",
        "1.0                                                           / 2.0",
    ),
    (
        "1.0 /* block comment with a partial block comment on the end */* 2.0",
        "1.0                                                            * 2.0",
    ),
    (
        "1.0 /* block comment 1 *//* block comment 2 */ * 2.0",
        "1.0                                            * 2.0",
    ),
    (
        "1.0 /* block comment with real line comment after */// line comment",
        "1.0                                                                ",
    ),
    ("*/", "*/"),
    (
        "#import \"embedded://file.wgsl\"",
        "#import \"embedded://file.wgsl\"",
    ),
    (
        "// #import \"embedded://file.wgsl\"",
        "                                 ",
    ),
    (
        "/* #import \"embedded://file.wgsl\" */",
        "                                    ",
    ),
    (
        "/* #import \"embedded:*/file.wgsl\" */",
        "                       file.wgsl\" */",
    ),
    (
        "#import \"embedded://file.wgsl\" // comment",
        "#import \"embedded://file.wgsl\"           ",
    ),
    (
        "#import \"embedded:/* */ /* /**/* / / /// * / //*/*/ / */*file.wgsl\"",
        "#import \"embedded:/* */ /* /**/* / / /// * / //*/*/ / */*file.wgsl\"",
    ),
    ("/*\nhoho\n*/", "  \n    \n  "),
    ("///*\nhehe\n//*/", "    \nhehe\n    "),
    (
        "/* // */ code goes here /*\nStill a comment // */\n/* dummy */",
        "         code goes here   \n                     \n           ",
    ),
    (
        "/*\n//*\n*/commented\n*/not commented",
        "  \n   \n           \n  not commented",
    ),
    (
        "not commented\n// line commented\nnot commented\n/* block commented on a line */\nnot commented\n// line comment with a /* block comment unterminated\nnot commented\n/* block comment\n   spanning lines */\nnot commented\n/* block comment\n   spanning lines and with // line comments\n   even with a // line commented terminator */\nnot commented",
        "not commented\n                 \nnot commented\n                               \nnot commented\n                                                    \nnot commented\n                \n                    \nnot commented\n                \n                                           \n                                              \nnot commented",
    ),
    ("let a/**/b =3u;", "let a    b =3u;"),
];

#[test]
fn covers_comments(rt: HostRuntime) -> Result<(), Fail> {
    for (text, want) in &COVERED {
        if !is(covered(rt.alloc(), text), want) {
            return Err(Fail::from(*text));
        }
    }
    Ok(())
}
