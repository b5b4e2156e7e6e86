//! The end of a number. A number is decimal or hexadecimal, an integer or a float.

ghost use Rattle.std.specs.Prelude.{◌≡◌, option_map};
ghost use Rattle.yettuvam_wgsl_words.specs.Number as spec;

use crate::class::{Class, after, after_byte, begins_with};

/// Whether a number begins with the first byte of a text.
pub fn begins_number(text: &[u8]) -> bool
    ensures { result ≡ spec.begins_number text.now }
{
    match text {
        [b'.', rest @ ..] => begins_with(Class::Digit, rest),
        _ => begins_with(Class::Digit, text),
    }
}

fn has_fraction(text: &[u8]) -> bool
    ensures { result ≡ spec.has_fraction text.now }
{
    matches!(text, [b'.', ..])
}

/// The rest after a fraction, if there is one.
fn after_fraction(class: Class, text: &[u8]) -> &[u8]
    ensures { result.now ≡ spec.after_fraction class text.now }
{
    match text {
        [b'.', rest @ ..] => after(class, rest),
        _ => text,
    }
}

/// Whether an exponent begins, with a small or a capital `letter`.
fn has_exponent(letter: u8, text: &[u8]) -> bool
    ensures { result ≡ spec.has_exponent letter text.now }
{
    match text {
        [byte, ..] => byte.to_ascii_lowercase() == letter,
        [] => false,
    }
}

fn after_plus_or_minus(text: &[u8]) -> &[u8]
    ensures { result.now ≡ spec.after_plus_or_minus text.now }
{
    match text {
        [b'+' | b'-', rest @ ..] => rest,
        _ => text,
    }
}

/// The rest after the suffix of a float, if there is one.
fn after_float_suffix(text: &[u8]) -> &[u8]
    ensures { result.now ≡ spec.after_float_suffix text.now }
{
    match text {
        [b'f' | b'h', rest @ ..] => rest,
        _ => text,
    }
}

/// The rest after the suffix of an integer, if there is one.
fn after_integer_suffix(text: &[u8]) -> &[u8]
    ensures { result.now ≡ spec.after_integer_suffix text.now }
{
    match text {
        [b'i' | b'u', rest @ ..] => rest,
        _ => text,
    }
}

/// The rest after an exponent and a suffix. An exponent without digits has none.
fn after_exponent(text: &[u8]) -> Option<&[u8]>
    ensures { option_map (λ rest. rest.now) result ≡ spec.after_exponent text.now }
{
    let digits = after_plus_or_minus(after_byte(text));
    if begins_with(Class::Digit, digits) {
        Some(after_float_suffix(after(Class::Digit, digits)))
    } else {
        None
    }
}

/// Whether an integer has a zero before its other digits.
fn has_leading_zero(text: &[u8]) -> bool
    ensures { result ≡ spec.has_leading_zero text.now }
{
    match text {
        [b'0', rest @ ..] => begins_with(Class::Digit, rest),
        _ => false,
    }
}

/// The rest after a decimal number, of which `whole` are the bytes after its first digits.
fn after_whole<'t>(text: &[u8], whole: &'t [u8]) -> Option<&'t [u8]>
    ensures { option_map (λ rest. rest.now) result ≡ spec.after_whole text.now whole.now }
{
    let rest = after_fraction(Class::Digit, whole);
    if has_exponent(b'e', rest) {
        after_exponent(rest)
    } else if has_fraction(whole) {
        Some(after_float_suffix(rest))
    } else if has_leading_zero(text) {
        None
    } else {
        Some(after_float_suffix(after_integer_suffix(rest)))
    }
}

/// Whether digits follow `0x`, maybe after a point.
fn has_hex_digit(text: &[u8]) -> bool
    ensures { result ≡ spec.has_hex_digit text.now }
{
    match text {
        [b'.', rest @ ..] => begins_with(Class::HexDigit, rest),
        _ => begins_with(Class::HexDigit, text),
    }
}

/// The rest after the digits of a hexadecimal number, of which `whole` are the bytes after its first digits.
fn after_hex_whole(whole: &[u8]) -> Option<&[u8]>
    ensures { option_map (λ rest. rest.now) result ≡ spec.after_hex_whole whole.now }
{
    let rest = after_fraction(Class::HexDigit, whole);
    if has_exponent(b'p', rest) {
        after_exponent(rest)
    } else if has_fraction(whole) {
        Some(rest)
    } else {
        Some(after_integer_suffix(rest))
    }
}

/// The rest after the digits of a hexadecimal number.
fn after_hex(text: &[u8]) -> Option<&[u8]>
    ensures { option_map (λ rest. rest.now) result ≡ spec.after_hex text.now }
{
    if has_hex_digit(text) {
        after_hex_whole(after(Class::HexDigit, text))
    } else {
        None
    }
}

fn begins_hex(text: &[u8]) -> bool
    ensures { result ≡ spec.begins_hex text.now }
{
    match text {
        [b'0', letter, ..] => letter.to_ascii_lowercase() == b'x',
        _ => false,
    }
}

/// The rest of a text after the number that it begins with, unless that is none of WGSL's.
pub fn after_number(text: &[u8]) -> Option<&[u8]>
    ensures { option_map (λ rest. rest.now) result ≡ spec.after_number text.now }
{
    if begins_hex(text) {
        after_hex(after_byte(after_byte(text)))
    } else {
        after_whole(text, after(Class::Digit, text))
    }
}
