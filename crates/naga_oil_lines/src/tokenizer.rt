// Splits a text into identifiers, white space and single characters.
ghost use Rattle.std.specs.Prelude.{◌≡◌, ◌↔◌, ℕ, ◌+◌, ◌<◌, ◌≤◌, ◌^◌, ◌++◌, ◌∷◌, ◌==◌, List, length, take, drop, MatchOption, true, false, Bool, IsTrue};
ghost use Rattle.std.specs.Char.{encode_utf8, is_whitespace};
ghost use Rattle.std.specs.Str.{chars, IsUtf8};
ghost use Rattle.std.specs.List.{prefix_len, list_any};
ghost use Rattle.naga_oil_words.specs.Bytes.{double_quote, colon};
ghost use Rattle.naga_oil_lines.specs.Tokens.{Lexeme, tail_len, lexemes, starts_identifier};
ghost use Rattle.naga_oil_lines.specs.Words.{is_word_byte, is_gap_byte, ends_identifier};
ghost use Rattle.naga_oil_lines.specs.TokenGrammar.{AreTokens};
ghost use Rattle.unicode_ident.specs.Ident.{is_xid_start, is_xid_continue};

use crate::text::{after_whitespace, split_first_char};
use unicode_ident::{is_xid_continue, is_xid_start};

/// A token of a text, with the place of its first byte.
#[derive(Clone, Copy, PartialEq, Eq, PartialOrd, Ord, Hash, Debug)]
pub enum Token<'a> {
    Identifier(&'a str, usize),
    Other(char, usize),
    Whitespace(&'a str, usize),
}

impl Token<'_> {
    ghost use Rattle.std.specs.Prelude.{option_map};
    ghost use Rattle.naga_oil_lines.specs.Tokens.{place_of, identifier_text};
    ghost use Rattle.naga_oil_lines.specs.Tokenizer.{lexeme_of};

    /// The place of the token's first byte.
    pub fn pos(&self) -> usize
        ensures { result ≡ place_of (lexeme_of self.now) }
    {
        match self {
            Token::Identifier(_, pos) | Token::Other(_, pos) | Token::Whitespace(_, pos) => *pos,
        }
    }

    /// The text of an identifier. Other tokens have none.
    pub fn identifier(&self) -> Option<&str>
        ensures { option_map (λ text. text.now) result ≡ identifier_text (lexeme_of self.now) }
    {
        match self {
            Token::Identifier(text, _) => Some(text),
            _ => None,
        }
    }
}

// Whether a character may begin a name. For ASCII characters no table is read, here and below.
fn starts_name(c: char) -> bool
    ensures { result ≡ is_xid_start c }
{
    if c.is_ascii() {
        c.is_ascii_alphabetic()
    } else {
        is_xid_start(c)
    }
}

pub fn starts_identifier(first: char) -> bool
    ensures { result ≡ starts_identifier first }
{
    starts_name(first) || first == '"'
}

// Whether a character may continue a name.
fn goes_on_name(c: char) -> bool
    ensures { result ≡ is_xid_continue c }
{
    if c.is_ascii() {
        c.is_ascii_alphanumeric() || c == '_'
    } else {
        is_xid_continue(c)
    }
}

const GAP: u8 = 1;

const WORD: u8 = 2;

const END: u8 = 4;

// For each byte a digit, whose three lowest bits are the flags above.
static CLASS: [u8; 256] = *b"\
    55555555555555555555555555555555\
    55055555555555553333333333155555\
    52222222222222222222222222255553\
    52222222222222222222222222255555\
    00000000000000000000000000000000\
    00000000000000000000000000000000\
    00000000000000000000000000000000\
    00000000000000000000000000000000";

// Whether a byte continues a name.
fn is_word_byte(byte: u8) -> bool
    ensures { result ≡ is_word_byte byte }
{
    CLASS[byte as usize] & WORD != 0
}

// The number of bytes of a name at the front.
fn word_len(bytes: &[u8]) -> usize
    ensures { result ≡ prefix_len is_word_byte bytes.now }
{
    for i in 0..bytes.len() {
        if !is_word_byte(bytes[i]) {
            return i;
        }
    }
    bytes.len()
}

// The text after the bytes of a name at its front.
fn after_word(text: &str) -> &str
    ensures { result.now ≡ drop (prefix_len is_word_byte text.now) text.now }
{
    let (_, rest) = text.split_at(word_len(text.as_bytes()));
    rest
}

// Whether a byte is ASCII and begins no identifier.
fn is_gap_byte(byte: u8) -> bool
    ensures { result ≡ is_gap_byte byte }
{
    CLASS[byte as usize] & GAP != 0
}

// The number of such bytes at the front.
fn gap_len(bytes: &[u8]) -> usize
    ensures { result ≡ prefix_len is_gap_byte bytes.now }
{
    for i in 0..bytes.len() {
        if !is_gap_byte(bytes[i]) {
            return i;
        }
    }
    bytes.len()
}

// The front of a text, of ASCII bytes that begin no identifier, and the rest.
pub fn split_gap(text: &str) -> (&str, &str)
    ensures gap { result.0.now ≡ take (prefix_len is_gap_byte text.now) text.now }
    ensures rest { result.1.now ≡ drop (prefix_len is_gap_byte text.now) text.now }
{
    text.split_at(gap_len(text.as_bytes()))
}

// The text after the characters that continue an identifier.
fn after_identifier(text: &str, begins_quoted: bool) -> &str
    ensures chars { let count = tail_len begins_quoted (chars text.now) in
        chars result.now ≡ drop count (chars text.now) }
    ensures suffix { (front : List ℕ) × (text.now ≡ front ++ result.now) }
{
    let mut quoted = begins_quoted;
    let mut rest = text;
    while let Some((first, more)) = split_first_char(rest) {
        if quoted {
            quoted = first != '"';
            rest = more;
        } else if first == '"' {
            quoted = true;
            rest = more;
        } else if goes_on_name(first) {
            rest = after_word(more);
        } else {
            if first != ':' {
                return rest;
            }
            let Some((second, after)) = split_first_char(more) else {
                return rest;
            };
            if second != ':' {
                return rest;
            }
            rest = after;
        }
    }
    rest
}

// Whether no identifier continues here: the text is empty or begins with an ASCII byte that is no
// part of one.
fn ends_identifier(text: &str) -> bool
    ensures { result ≡ ends_identifier text.now }
{
    match text.as_bytes() {
        [] => true,
        [first, ..] => CLASS[*first as usize] & END != 0,
    }
}

// The text after an identifier whose first character is given, and whether the identifier is one
// word, without `:`.
pub fn past_identifier(first: char, text: &str) -> (&str, bool)
    ensures chars { let count = tail_len (first == double_quote) (chars text.now) in
        chars result.0.now ≡ drop count (chars text.now) }
    ensures suffix { (front : List ℕ) × (text.now ≡ front ++ result.0.now)
        × (IsTrue result.1 → list_any (λ b. b == colon) front ≡ false) }
    ensures utf8 { IsUtf8 result.0.now }
{
    if first == '"' {
        return (after_identifier(text, true), false);
    }
    let word = after_word(text);
    if ends_identifier(word) {
        (word, true)
    } else {
        (after_identifier(word, false), false)
    }
}

/// The tokens of a text in order.
#[derive(Drop)]
pub struct Tokenizer<'a> {
    rest: &'a str,
    at: usize,
    emit_whitespace: bool,
    ghost fits: { at + length rest.now < 2 ^ 64 },
}

impl<'a> Tokenizer<'a> {
    ghost use Rattle.naga_oil_lines.specs.Tokenizer.{tokens_left};
    ghost use Rattle.naga_oil_lines.specs.Tokens.{emit};

    pub fn new(src: &'a str, emit_whitespace: bool) -> Tokenizer<'a>
        ensures left { tokens_left result ≡ emit emit_whitespace (lexemes 0 0 (chars src.now)) }
        ensures tokens { AreTokens 0 (chars src.now) (lexemes 0 0 (chars src.now)) }
    {
        let _len = src.len();
        Tokenizer {
            rest: src,
            at: 0,
            emit_whitespace,
        }
    }

    // Moves on to the rest. Returns the text before it.
    fn advance(&mut self, rest: &'a str) -> &'a str
        requires { (front : List ℕ) × (self.old.rest.now ≡ front ++ rest.now) }
        ensures text { self.old.rest.now ≡ result.now ++ rest.now }
        ensures rest { self.new.rest.now ≡ rest.now }
        ensures at { self.new.at ≡ self.old.at + length result.now }
        ensures same { self.new.emit_whitespace ≡ self.old.emit_whitespace }
    {
        let (text, rest) = self.rest.split_at(self.rest.len() - rest.len());
        self.at += text.len();
        self.rest = rest;
        text
    }
}

impl<'a> Iterator for Tokenizer<'a> {
    ghost use Rattle.std.specs.Iterator.{YieldsFirstBy, item_count};
    ghost use Rattle.naga_oil_lines.specs.Tokenizer.{lexeme_of, tokens_left};

    type Item = Token<'a>;

    ghost next_gives = { YieldsFirstBy lexeme_of tokens_left };

    ghost remaining = { item_count tokens_left };

    fn next(&mut self) -> Option<Token<'a>> {
        while let Some((first, more)) = split_first_char(self.rest) {
            let at = self.at;
            if starts_identifier(first) {
                let text = self.advance(after_identifier(more, first == '"'));
                return Some(Token::Identifier(text, at));
            }
            if !first.is_whitespace() {
                self.advance(more);
                return Some(Token::Other(first, at));
            }
            let text = self.advance(after_whitespace(more));
            if self.emit_whitespace {
                return Some(Token::Whitespace(text, at));
            }
        }
        None
    }
}

/// A text has exactly one list of tokens.
pub fn one_token_list()
    ensures { (at : ℕ) (cs : List ℕ) (ts : List Lexeme) →
        AreTokens at cs ts ↔ (ts ≡ lexemes 0 at cs) }
{}
