//! Which bytes and characters belong to blanks, numbers and names, and the rest of a text after them.

ghost use Rattle.std.specs.Prelude.{◌≡◌};
ghost use Rattle.yettuvam_wgsl_words.specs.Class as spec;

use bstr::decode_utf8;
use unicode_ident::{is_xid_continue, is_xid_start};

/// A class of bytes.
#[derive(Clone, Copy, Debug)]
pub enum Class {
    /// Blanks and line ends of ASCII.
    Blank,
    Digit,
    HexDigit,
    /// The bytes of a character after its first.
    Continuation,
}

fn is_in(class: Class, byte: u8) -> bool
    ensures { result ≡ spec.is_in class byte }
{
    match class {
        Class::Blank => byte == b' ' || (9 <= byte && byte <= 13),
        Class::Digit => byte.is_ascii_digit(),
        Class::HexDigit => byte.is_ascii_hexdigit(),
        Class::Continuation => 128 <= byte && byte < 192,
    }
}

/// The rest of a text after the bytes of a class.
pub fn after(class: Class, text: &[u8]) -> &[u8]
    ensures { result.now ≡ spec.after class text.now }
{
    let mut rest = text;
    while let [byte, more @ ..] = rest {
        if !is_in(class, *byte) {
            return rest;
        }
        rest = more;
    }
    rest
}

/// Whether a text begins with a byte of a class.
pub fn begins_with(class: Class, text: &[u8]) -> bool
    ensures { result ≡ spec.begins_with class text.now }
{
    match text {
        [byte, ..] => is_in(class, *byte),
        [] => false,
    }
}

/// The rest of a text after its first byte.
pub fn after_byte(text: &[u8]) -> &[u8]
    ensures { result.now ≡ spec.after_byte text.now }
{
    match text {
        [_, rest @ ..] => rest,
        [] => text,
    }
}

/// The rest of a text after its first character.
pub fn after_character(text: &[u8]) -> &[u8]
    ensures { result.now ≡ spec.after_character text.now }
{
    after(Class::Continuation, after_byte(text))
}

/// The part of a text before a rest of it.
pub fn before<'t>(text: &'t [u8], rest: &[u8]) -> &'t [u8]
    ensures { result.now ≡ spec.before text.now rest.now }
{
    let length = text.len().saturating_sub(rest.len());
    &text[..length]
}

/// Whether a text begins with a blank or a line end that isn't ASCII: U+0085, U+200E, U+200F, U+2028, U+2029.
pub fn begins_with_wide_blank(text: &[u8]) -> bool
    ensures { result ≡ spec.begins_with_wide_blank text.now }
{
    matches!(
        text,
        [0xC2, 0x85, ..] | [0xE2, 0x80, 0x8E | 0x8F | 0xA8 | 0xA9, ..]
    )
}

/// Whether a text begins with a line end.
fn begins_with_line_end(text: &[u8]) -> bool
    ensures { result ≡ spec.begins_with_line_end text.now }
{
    matches!(
        text,
        [10..=13, ..] | [0xC2, 0x85, ..] | [0xE2, 0x80, 0xA8 | 0xA9, ..]
    )
}

/// The rest of a text from its first line end on.
pub fn after_line(text: &[u8]) -> &[u8]
    ensures { result.now ≡ spec.after_line text.now }
{
    let mut rest = text;
    while let [_, more @ ..] = rest {
        if begins_with_line_end(rest) {
            return rest;
        }
        rest = more;
    }
    rest
}

/// The first character of a text.
#[tactic(auto, unfolding(crate::specs::Class::first_character))]
fn first_character(text: &[u8]) -> Option<char>
    ensures { result ≡ spec.first_character text.now }
{
    decode_utf8(text).0
}

fn starts_with_wide_letter(text: &[u8]) -> bool
    ensures { result ≡ spec.starts_with_wide_letter text.now }
{
    match first_character(text) {
        Some(character) => is_xid_start(character),
        None => false,
    }
}

fn continues_with_wide_letter(text: &[u8]) -> bool
    ensures { result ≡ spec.continues_with_wide_letter text.now }
{
    match first_character(text) {
        Some(character) => is_xid_continue(character),
        None => false,
    }
}

/// Whether a name may begin with the first character of a text.
pub fn starts_name(text: &[u8]) -> bool
    ensures { result ≡ spec.starts_name text.now }
{
    match text {
        [byte, ..] => {
            if *byte < 128 {
                byte.is_ascii_alphabetic() || *byte == b'_'
            } else {
                starts_with_wide_letter(text)
            }
        }
        [] => false,
    }
}

/// Whether the first byte of a text may continue a name. The first byte of a character speaks for the others.
pub fn continues_name(text: &[u8]) -> bool
    ensures { result ≡ spec.continues_name text.now }
{
    match text {
        [byte, ..] => {
            if *byte < 128 {
                byte.is_ascii_alphanumeric() || *byte == b'_'
            } else {
                is_in(Class::Continuation, *byte) || continues_with_wide_letter(text)
            }
        }
        [] => false,
    }
}

/// The rest of a text after the bytes that continue a name.
pub fn after_name(text: &[u8]) -> &[u8]
    ensures { result.now ≡ spec.after_name text.now }
{
    let mut rest = text;
    while let [_, more @ ..] = rest {
        if !continues_name(rest) {
            return rest;
        }
        rest = more;
    }
    rest
}
