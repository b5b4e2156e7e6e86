//! Notes where a slip is typical.
ghost use Rattle.std.specs.Prelude.{◌≡◌, option_map};
ghost use Rattle.yettuvam_wgsl_words.specs.Scan.{token_view, view};
ghost use Rattle.yettuvam_wgsl_faults.specs.Notes as spec;
ghost use Rattle.yettuvam_wgsl_faults.specs.Tables.{glsl_rows, text_rows};

use crate::tables::GLSL;
use yettuvam_wgsl_machine::refusal::Reason;
use yettuvam_wgsl_machine::symbol::Rule;
use yettuvam_wgsl_words::token::{Kind, Span, Token};

/// The note where a line lacks its `;`.
pub const MISSING_SEMICOLON: &str = "the line before has no `;` at its end";

/// The note where `=` stands in an expression.
pub const ASSIGNMENT: &str = "`=` assigns, `==` compares";

/// Returns the bytes of a text from a place to before another one, or none if the text has no such places.
pub fn between(text: &str, from: u32, to: u32) -> &[u8]
    ensures { result.now ≡ spec.between text.now from to }
{
    let bytes = text.as_bytes();
    let (from, to) = (from as usize, to as usize);
    if from <= to && to <= bytes.len() {
        &bytes[from..to]
    } else {
        &[]
    }
}

fn no_token<'t>() -> Token<'t>
    ensures { token_view result ≡ spec.no_token }
{
    Token {
        kind: Kind::End,
        span: Span { start: 0, end: 0 },
        text: &[],
    }
}

fn begins_before(tokens: &[Token<'_>], place: u32) -> bool
    ensures { result ≡ spec.begins_before (view tokens.now) place }
{
    match tokens {
        [token, ..] => token.span.start < place,
        [] => false,
    }
}

/// The tokens from the last one that begins before a place; all of them if none does.
fn from_last<'a, 't>(tokens: &'a [Token<'t>], place: u32) -> &'a [Token<'t>]
    ensures { view result.now ≡ spec.from_last (view tokens.now) place }
{
    let mut rest = tokens;
    while let [_, more @ ..] = rest {
        if !begins_before(more, place) {
            return rest;
        }
        rest = more;
    }
    rest
}

fn first<'t>(tokens: &[Token<'t>]) -> Token<'t>
    ensures { token_view result ≡ spec.first (view tokens.now) }
{
    match tokens {
        [token, ..] => *token,
        [] => no_token(),
    }
}

/// Returns the last token that begins before a place, or a token without text at the start of the text.
pub fn token_before<'t>(tokens: &[Token<'t>], place: u32) -> Token<'t>
    ensures { token_view result ≡ spec.token_before (view tokens.now) place }
{
    let rest = from_last(tokens, place);
    if begins_before(rest, place) {
        first(rest)
    } else {
        no_token()
    }
}

/// Returns the note of a word in a table.
fn note_in(table: &[(&'static str, &'static str)], word: &[u8]) -> Option<&'static str>
    ensures { option_map (λ n. n.now) result ≡ spec.note_in (text_rows table.now) word.now }
{
    let mut rest = table;
    while let [(each, note), more @ ..] = rest {
        if word == each.as_bytes() {
            return Some(*note);
        }
        rest = more;
    }
    None
}

/// Returns what WGSL has in the place of a word of GLSL.
pub fn glsl_note(word: &[u8]) -> Option<&'static str>
    ensures { option_map (λ n. n.now) result ≡ spec.note_in glsl_rows word.now }
{
    note_in(&GLSL, word)
}

fn has_line_end(gap: &[u8]) -> bool
    ensures { result ≡ spec.has_line_end gap.now }
{
    gap.contains(&b'\n')
}

fn is_assignment(found: &[u8]) -> bool
    ensures { result ≡ spec.is_assignment found.now }
{
    found == b"=".as_slice()
}

/// Whether an expression ends before what is wanted.
fn follows_expression(reason: Reason) -> bool
    ensures { result ≡ spec.follows_expression reason }
{
    match reason {
        Reason::Wanted(Kind::Name) => false,
        Reason::Wanted(_) | Reason::Unexpected(Rule::Block) => true,
        _ => false,
    }
}

fn wants_semicolon(reason: Reason) -> bool
    ensures { result ≡ spec.wants_semicolon reason }
{
    match reason {
        Reason::Wanted(Kind::Semicolon) => true,
        _ => false,
    }
}

/// Returns the note of a slip in signs; `gap` has the bytes between the token before and the one that is found.
fn sign_note(reason: Reason, found: &[u8], gap: &[u8]) -> Option<&'static str>
    ensures { option_map (λ n. n.now) result ≡ spec.sign_note reason found.now gap.now }
{
    if wants_semicolon(reason) && has_line_end(gap) {
        Some(MISSING_SEMICOLON)
    } else if follows_expression(reason) && is_assignment(found) {
        Some(ASSIGNMENT)
    } else {
        None
    }
}

/// Returns the note for a token that can't follow another one.
fn token_note(text: &str, before: Token<'_>, reason: Reason, span: Span) -> Option<&'static str>
    ensures { option_map (λ n. n.now) result
        ≡ spec.token_note text.now (token_view before.entry) reason span }
{
    let found = between(text, span.start, span.end);
    if let Some(note) = glsl_note(found) {
        return Some(note);
    }
    if let Some(note) = glsl_note(before.text) {
        return Some(note);
    }
    sign_note(reason, found, between(text, before.span.end, span.start))
}

/// Returns the note of a fault at a span, if there is one: a word of GLSL there or before, a missing `;`, `=` for `==`.
pub fn syntax_note(
    text: &str,
    tokens: &[Token<'_>],
    reason: Reason,
    span: Span,
) -> Option<&'static str>
    ensures { option_map (λ n. n.now) result
        ≡ spec.syntax_note text.now (view tokens.now) reason span }
{
    token_note(text, token_before(tokens, span.start), reason, span)
}
