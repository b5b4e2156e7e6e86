//! The token at the front of a text.

ghost use Rattle.std.specs.Prelude.{◌≡◌, map, option_map};
ghost use Rattle.yettuvam_wgsl_words.specs.Class.{after_byte};
ghost use Rattle.yettuvam_wgsl_words.specs.Cut as spec;

use crate::class::{
    Class, after, after_byte, after_character, after_line, after_name, before, begins_with,
    begins_with_wide_blank, continues_name, starts_name,
};
use crate::keywords::{WORDS, Word, WordGroup};
use crate::number::{after_number, begins_number};
use crate::refusal::Reason;
use crate::token::{Kind, SIGNS};

/// What stands at the front of a text.
#[derive(Clone, Copy, Debug)]
pub enum Piece {
    Token(Kind),
    /// Blanks or a comment, or nothing.
    Blank,
    Bad(Reason),
}

fn opens_comment(text: &[u8]) -> bool
    ensures { result ≡ spec.opens_comment text.now }
{
    matches!(text, [b'/', b'*', ..])
}

fn closes_comment(text: &[u8]) -> bool
    ensures { result ≡ spec.closes_comment text.now }
{
    matches!(text, [b'*', b'/', ..])
}

fn begins_line_comment(text: &[u8]) -> bool
    ensures { result ≡ spec.begins_line_comment text.now }
{
    matches!(text, [b'/', b'/', ..])
}

fn after_two_bytes(text: &[u8]) -> &[u8]
    ensures { result.now ≡ after_byte (after_byte text.now) }
{
    after_byte(after_byte(text))
}

/// The rest after the end of a block comment that began before the text. Block comments nest.
fn after_comment(text: &[u8]) -> Option<&[u8]>
    ensures { option_map (λ rest. rest.now) result ≡ spec.after_comment text.now }
{
    let mut rest = text;
    let mut depth = 0usize;
    for _turn in 0..text.len() {
        if closes_comment(rest) {
            rest = after_two_bytes(rest);
            if depth == 0 {
                return Some(rest);
            }
            depth -= 1;
        } else if opens_comment(rest) {
            rest = after_two_bytes(rest);
            depth += 1;
        } else {
            rest = after_byte(rest);
        }
    }
    None
}

fn block_comment(text: &[u8]) -> (Piece, &[u8])
    ensures { (result.0, result.1.now) ≡ spec.block_comment text.now }
{
    let opened = after_two_bytes(text);
    match after_comment(opened) {
        Some(rest) => (Piece::Blank, rest),
        None => (Piece::Bad(Reason::OpenComment), opened),
    }
}

/// A number; a letter after it spoils it.
fn number(text: &[u8]) -> (Piece, &[u8])
    ensures { (result.0, result.1.now) ≡ spec.number text.now }
{
    match after_number(text) {
        Some(rest) => {
            if continues_name(rest) {
                (Piece::Bad(Reason::BadNumber), after_name(rest))
            } else {
                (Piece::Token(Kind::Number), rest)
            }
        }
        None => (Piece::Bad(Reason::BadNumber), after_name(after_byte(text))),
    }
}

fn same_bytes(a: &[u8], b: &[u8]) -> bool
    ensures { result ≡ spec.same_bytes a.now b.now }
{
    a == b
}

/// What a word means that stands in a group of words: `None` if it isn't there.
fn find(group: &[Word], word: &[u8]) -> Option<Option<Kind>>
    ensures { result ≡ spec.find (map (λ e. (e.0.now, e.1)) group.now) word.now }
{
    let mut entries = group;
    while let [entry, more @ ..] = entries {
        if same_bytes(entry.0, word) {
            return Some(entry.1);
        }
        entries = more;
    }
    None
}

/// The group of words that begin with a byte.
fn find_group(groups: &'static [WordGroup], first: u8) -> &'static [Word]
    ensures { let groups = map (λ g. (g.0, map (λ e. (e.0.now, e.1)) g.1.now)) groups.now in
        map (λ e. (e.0.now, e.1)) result.now ≡ spec.find_group groups first }
{
    let mut left = groups;
    while let [group, more @ ..] = left {
        if group.0 == first {
            return group.1;
        }
        left = more;
    }
    &[]
}

/// The words of the language that begin with a byte.
#[tactic(auto, unfolding(crate::specs::Cut::group))]
fn group(first: u8) -> &'static [Word]
    ensures { map (λ e. (e.0.now, e.1)) result.now ≡ spec.group first }
{
    find_group(&WORDS, first)
}

/// A word that isn't `_` and doesn't begin with `__`: a keyword, a reserved word or a name.
fn plain_word(word: &[u8], first: u8) -> Piece
    ensures { result ≡ spec.plain_word word.now first }
{
    match find(group(first), word) {
        Some(Some(kind)) => Piece::Token(kind),
        Some(None) => Piece::Bad(Reason::ReservedWord),
        None => Piece::Token(Kind::Name),
    }
}

fn word_piece(word: &[u8]) -> Piece
    ensures { result ≡ spec.word_piece word.now }
{
    match word {
        [b'_'] => Piece::Token(Kind::Underscore),
        [b'_', b'_', ..] => Piece::Bad(Reason::TwoUnderscores),
        [first, ..] => plain_word(word, *first),
        [] => Piece::Blank,
    }
}

fn word(text: &[u8]) -> (Piece, &[u8])
    ensures { (result.0, result.1.now) ≡ spec.word text.now }
{
    let rest = after_name(text);
    (word_piece(before(text, rest)), rest)
}

/// The first sign of a table that a text begins with; `first` is the first byte of the text.
fn find_sign<'t>(table: &[(u8, &[u8], Kind)], first: u8, text: &'t [u8]) -> (Piece, &'t [u8])
    ensures { (result.0, result.1.now) ≡ spec.find_sign (map (λ e. (e.0, e.1.now, e.2)) table.now) first text.now }
{
    let mut entries = table;
    while let [entry, more @ ..] = entries {
        if entry.0 == first {
            if let Some(rest) = text.strip_prefix(entry.1) {
                return (Piece::Token(entry.2), rest);
            }
        }
        entries = more;
    }
    (Piece::Bad(Reason::UnknownCharacter), after_character(text))
}

#[tactic(auto, unfolding(crate::specs::Cut::sign))]
fn sign(first: u8, text: &[u8]) -> (Piece, &[u8])
    ensures { (result.0, result.1.now) ≡ spec.sign first text.now }
{
    find_sign(&SIGNS, first, text)
}

/// What stands at the front of a text, and the rest. Nothing stands at the front of an empty text.
#[tactic(auto, unfolding(crate::specs::Cut::cut))]
pub fn cut(text: &[u8]) -> (Piece, &[u8])
    ensures { (result.0, result.1.now) ≡ spec.cut text.now }
{
    let [first, ..] = text else {
        return (Piece::Blank, text);
    };
    if begins_with(Class::Blank, text) {
        (Piece::Blank, after(Class::Blank, text))
    } else if starts_name(text) {
        word(text)
    } else if begins_number(text) {
        number(text)
    } else if begins_line_comment(text) {
        (Piece::Blank, after_line(text))
    } else if opens_comment(text) {
        block_comment(text)
    } else if begins_with_wide_blank(text) {
        (Piece::Blank, after_character(text))
    } else {
        sign(*first, text)
    }
}
