use crate::rows::is;
use std::alloc::{AllocError, Global};
use std::test::Fail;
use yettuvam_wgsl_templates::with_templates;
use yettuvam_wgsl_words::refusal::Refusal;
use yettuvam_wgsl_words::token::Token;
use yettuvam_wgsl_words::tokens;

fn shown_tokens(alloc: Global, found: &[Token<'_>]) -> Result<String, AllocError> {
    let mut out = String::new(alloc);
    for token in found {
        write!(&mut out, "{:?} {} ", token.kind, token.span.end)?;
    }
    Ok(out)
}

fn marked<'t>(alloc: Global, text: &'t str) -> Result<Vec<Token<'t>>, Refusal> {
    let found = tokens(alloc, text)?;
    with_templates(alloc, found.as_slice())
}

// The kinds of the tokens of a text, each with the place after it.
fn shown(alloc: Global, text: &str) -> Result<String, AllocError> {
    match marked(alloc, text) {
        Ok(found) => shown_tokens(alloc, found.as_slice()),
        Err(_) => String::from_str(alloc, "refused"),
    }
}

fn shows(alloc: Global, rows: &[(&str, &str)]) -> Result<(), Fail> {
    for (text, expected) in rows {
        if !is(shown(alloc, text), expected) {
            return Err(Fail::from(*text));
        }
    }
    Ok(())
}

static LISTS: [(&str, &str); 9] = [
    (
        "a<b>c",
        "Name 1 TemplateOpen 2 Name 3 TemplateClose 4 Name 5 End 5 ",
    ),
    ("a<b;", "Name 1 Less 2 Name 3 Semicolon 4 End 4 "),
    (
        "a<b&&c>d",
        "Name 1 Less 2 Name 3 AndAnd 5 Name 6 Greater 7 Name 8 End 8 ",
    ),
    (
        "(a<b)>c",
        "OpenParenthesis 1 Name 2 Less 3 Name 4 CloseParenthesis 5 Greater 6 Name 7 End 7 ",
    ),
    (
        "a<b<c>>",
        "Name 1 TemplateOpen 2 Name 3 TemplateOpen 4 Name 5 TemplateClose 6 TemplateClose 7 End 7 ",
    ),
    (
        "a<b>>c",
        "Name 1 TemplateOpen 2 Name 3 TemplateClose 4 Greater 5 Name 6 End 6 ",
    ),
    (
        "a<b>=c",
        "Name 1 TemplateOpen 2 Name 3 TemplateClose 4 Equal 5 Name 6 End 6 ",
    ),
    (
        "a<b<c>>=d",
        "Name 1 TemplateOpen 2 Name 3 TemplateOpen 4 Name 5 TemplateClose 6 TemplateClose 7 Equal 8 Name 9 End 9 ",
    ),
    (
        "var<a>b",
        "Var 3 TemplateOpen 4 Name 5 TemplateClose 6 Name 7 End 7 ",
    ),
];

#[test]
fn template_lists(rt: HostRuntime) -> Result<(), Fail> {
    shows(rt.alloc(), &LISTS)
}
