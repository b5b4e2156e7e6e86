use naga_oil_lines::tokenizer::{Token, Tokenizer};
use std::alloc::{AllocError, Global};
use std::test::Fail;

fn told(alloc: Global, text: &str, emit_whitespace: bool) -> Result<String, AllocError> {
    let tokens: Vec<Token> = Tokenizer::new(text, emit_whitespace).collect(alloc)?;
    format!(in alloc; "{tokens:?}")
}

fn is(told: Result<String, AllocError>, want: &str) -> bool {
    match told {
        Ok(told) => told.as_str() == want,
        Err(_) => false,
    }
}

const QUOTED: &str = r#"[Identifier("a\"b::c\"d::", 0), Other(':', 10), Identifier("e", 11)]"#;

// A text, whether whitespace is given, and the tokens.
static CUT: [(&str, bool, &str); 7] = [
    ("a\"b::c\"d:::e", false, QUOTED),
    ("a\"b::c\"d:::e", true, QUOTED),
    ("_foo", true, r#"[Other('_', 0), Identifier("foo", 1)]"#),
    (
        "x \"y z",
        false,
        r#"[Identifier("x", 0), Identifier("\"y z", 2)]"#,
    ),
    (
        " é1\n\t1:b",
        true,
        r#"[Whitespace(" ", 0), Identifier("é1", 1), Whitespace("\n\t", 4), Other('1', 6), Other(':', 7), Identifier("b", 8)]"#,
    ),
    (
        " é1\n\t1:b",
        false,
        r#"[Identifier("é1", 1), Other('1', 6), Other(':', 7), Identifier("b", 8)]"#,
    ),
    ("", true, "[]"),
];

#[test]
fn cuts_texts(rt: HostRuntime) -> Result<(), Fail> {
    for (text, emit_whitespace, want) in &CUT {
        if !is(told(rt.alloc(), text, *emit_whitespace), want) {
            return Err(Fail::from(*text));
        }
    }
    Ok(())
}

// Tokens, each with its place, and its text if it is an identifier.
static TOKENS: [(Token, usize, Option<&str>); 3] = [
    (Token::Identifier("a", 3), 3, Some("a")),
    (Token::Other('b', 4), 4, None),
    (Token::Whitespace(" ", 5), 5, None),
];

#[test]
fn tells_places_and_texts() -> Result<(), Fail> {
    for (token, pos, identifier) in &TOKENS {
        if token.pos() != *pos || token.identifier() != *identifier {
            return Err(Fail::from(*pos));
        }
    }
    Ok(())
}
