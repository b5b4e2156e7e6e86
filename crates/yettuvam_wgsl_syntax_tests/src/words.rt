use crate::rows::is;
use std::alloc::{AllocError, Global};
use std::test::Fail;
use yettuvam_wgsl_words::refusal::Refusal;
use yettuvam_wgsl_words::token::Token;
use yettuvam_wgsl_words::tokens;

fn shown_tokens(alloc: Global, found: &[Token<'_>]) -> Result<String, AllocError> {
    let mut out = String::new(alloc);
    for token in found {
        write!(
            &mut out,
            "{:?} {}..{} ",
            token.kind, token.span.start, token.span.end
        )?;
    }
    Ok(out)
}

// The kinds and places of the tokens of a text, or the fault with its place.
fn shown(alloc: Global, text: &str) -> Result<String, AllocError> {
    match tokens(alloc, text) {
        Ok(found) => shown_tokens(alloc, found.as_slice()),
        Err(Refusal::Fault(fault)) => {
            let span = fault.span;
            format!(in alloc; "{:?} {}..{}", fault.reason, span.start, span.end)
        }
        Err(Refusal::Memory) => String::from_str(alloc, "no memory"),
    }
}

fn shows(alloc: Global, rows: &[(&str, &str)]) -> Result<(), Fail> {
    for (text, expected) in rows {
        if !is(shown(alloc, text), expected) {
            return Err(Fail::from(*text));
        }
    }
    Ok(())
}

static NAMES: [(&str, &str); 8] = [
    ("", "End 0..0 "),
    ("a_1 _ é", "Name 0..3 Underscore 4..5 Name 6..8 End 8..8 "),
    ("_a aé1", "Name 0..2 Name 3..7 End 7..7 "),
    ("__a", "TwoUnderscores 0..3"),
    ("if ifs", "If 0..2 Name 3..6 End 6..6 "),
    ("x enum", "ReservedWord 2..6"),
    ("a€", "UnknownCharacter 1..4"),
    ("a #b", "UnknownCharacter 2..3"),
];

#[test]
fn names_and_words(rt: HostRuntime) -> Result<(), Fail> {
    shows(rt.alloc(), &NAMES)
}

static BLANKS: [(&str, &str); 6] = [
    (
        "a\u{85}b\u{200E}c",
        "Name 0..1 Name 3..4 Name 7..8 End 8..8 ",
    ),
    ("/* a /* b */ c */x", "Name 17..18 End 18..18 "),
    ("x/* /* */", "OpenComment 1..3"),
    ("/**/*/", "Star 4..5 Slash 5..6 End 6..6 "),
    ("// a\u{2028}b", "Name 7..8 End 8..8 "),
    ("a// b\r\nc", "Name 0..1 Name 7..8 End 8..8 "),
];

#[test]
fn blanks_and_comments(rt: HostRuntime) -> Result<(), Fail> {
    shows(rt.alloc(), &BLANKS)
}

static NUMBERS: [(&str, &str); 24] = [
    ("0", "Number 0..1 End 1..1 "),
    ("12u", "Number 0..3 End 3..3 "),
    ("0x1F", "Number 0..4 End 4..4 "),
    ("0Xfi", "Number 0..4 End 4..4 "),
    ("1.5f", "Number 0..4 End 4..4 "),
    (".5", "Number 0..2 End 2..2 "),
    ("1.", "Number 0..2 End 2..2 "),
    ("1h", "Number 0..2 End 2..2 "),
    ("1e3", "Number 0..3 End 3..3 "),
    ("1E-3h", "Number 0..5 End 5..5 "),
    ("012.5", "Number 0..5 End 5..5 "),
    ("0x1p3", "Number 0..5 End 5..5 "),
    ("0x.8P+1f", "Number 0..8 End 8..8 "),
    ("0x1.8", "Number 0..5 End 5..5 "),
    ("1-2", "Number 0..1 Minus 1..2 Number 2..3 End 3..3 "),
    ("012", "BadNumber 0..3"),
    ("0x", "BadNumber 0..2"),
    ("0x.", "BadNumber 0..2"),
    ("1e", "BadNumber 0..2"),
    ("1.5u", "BadNumber 0..4"),
    ("0x1p", "BadNumber 0..4"),
    ("0x1fh", "BadNumber 0..5"),
    ("1abc", "BadNumber 0..4"),
    (".5e", "BadNumber 0..3"),
];

#[test]
fn numbers(rt: HostRuntime) -> Result<(), Fail> {
    shows(rt.alloc(), &NUMBERS)
}

static SIGNS: [(&str, &str); 4] = [
    (">>=", "ShiftRightEqual 0..3 End 3..3 "),
    (">==", "GreaterEqual 0..2 Equal 2..3 End 3..3 "),
    (
        "a-->b",
        "Name 0..1 MinusMinus 1..3 Greater 3..4 Name 4..5 End 5..5 ",
    ),
    (
        "!&&~@",
        "Bang 0..1 AndAnd 1..3 Tilde 3..4 At 4..5 End 5..5 ",
    ),
];

#[test]
fn signs(rt: HostRuntime) -> Result<(), Fail> {
    shows(rt.alloc(), &SIGNS)
}
