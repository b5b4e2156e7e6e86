//! The names of modules' items, in the composed shader and as a reader knows them.
ghost use Rattle.std.specs.Prelude.{◌≡◌, ◌↔◌, ℕ, ◌+◌, ◌<◌, ◌≤◌, ◌++◌, List, length, drop, All, Some, option_map, IfSome, IfOk, OnOk};
ghost use Rattle.std.specs.List.{flat_map, prefix_len};
ghost use Rattle.std.specs.Str.{chars, encode_utf8_all, IsUtf8};
ghost use Rattle.std.specs.String.{string_bytes};
ghost use Rattle.ucd_perl.specs.Perl.{is_word_char};
ghost use Rattle.naga_oil_lines.specs.Decorate.{bits, letter, letters, base32, value_of, bytes_of, decoded, decorated_name};
ghost use Rattle.naga_oil_lines.specs.Text.{BeginsWithChar};
ghost use Rattle.naga_oil_lines.specs.Undecorate.{is_code_char, from_last_x, mark_code, from_last_mark, split_at_mark, run_shown, with_modules, override_at, with_overrides, undecoration};
ghost use Rattle.naga_oil_lines.specs.UndecorateGrammar.{reading, reading_after, BeginsWithMark, HasLastMark, BeginsWithOverride};

use crate::text::{past_word, split_first_char, text_before};
pub use naga_oil_words::{DECORATION_OVERRIDE_PRE, DECORATION_POST, DECORATION_PRE};
use std::alloc::{AllocError, Global};
use ucd_perl::is_word_code;

// The number of letters from A to Z, which come before the digits of base32.
const LETTER_COUNT: u8 = 26;

// The letter of five bits.
fn letter(group: u8) -> char
    requires { group < 32 }
    ensures value { result ≡ letter group }
    ensures ascii { result < 128 }
{
    if group < LETTER_COUNT {
        (b'A' + group) as char
    } else {
        (b'2' + (group - LETTER_COUNT)) as char
    }
}

// Writes a letter for each five of the lowest bits of a number. Returns the number of bits left.
fn push_groups(out: &mut String, number: u16, count: u32) -> Result<u32, AllocError>
    requires { count ≤ 16 }
    ensures pushed { let old = string_bytes out.old in
        let new = string_bytes out.new in
        IfOk result (λ left. (more : List ℕ) →
        new ++ letters (bits left number ++ more) ≡ old ++ letters (bits count number ++ more)) }
    ensures few { IfOk result (λ left. left < 5) }
{
    let mut left = count;
    while left >= 5 {
        left -= 5;
        out.push(letter(((number >> left) % 32) as u8))?;
    }
    Ok(left)
}

// Writes the bytes in base32, without padding.
fn push_base32(out: &mut String, bytes: &[u8]) -> Result<(), AllocError>
    ensures { OnOk result (string_bytes out.new ≡ string_bytes out.old ++ base32 bytes.now) }
{
    let mut pending = 0;
    let mut count = 0;
    for byte in bytes {
        pending = pending % 32 * 256 + u16::from(*byte);
        count = push_groups(out, pending, count + 8)?;
    }
    if count > 0 {
        out.push(letter((((pending % 16 * 16) >> (count - 1)) % 32) as u8))?;
    }
    Ok(())
}

// The number of bytes in the name of an item.
fn decorated_len(module_name: &str, item: &str) -> usize {
    let code = (module_name.len() / 5 * 8).saturating_add((module_name.len() % 5 * 8).div_ceil(5));
    item.len()
        .saturating_add(code)
        .saturating_add(DECORATION_PRE.len() + DECORATION_POST.len())
}

// Writes the name of a module's item.
pub fn push_decorated(out: &mut String, module_name: &str, item: &str) -> Result<(), AllocError>
    ensures { let name = decorated_name (Some module_name.now) item.now in
        OnOk result (string_bytes out.new ≡ string_bytes out.old ++ name) }
{
    out.push_str(item)?;
    out.push_str(DECORATION_PRE)?;
    push_base32(out, module_name.as_bytes())?;
    out.push_str(DECORATION_POST)
}

/// Returns the name of a module's item: the item, `X_naga_oil_mod_X`, the module in base32 (RFC
/// 4648 section 6) without padding, and `X`. An item of no module keeps its name.
pub fn decorated_name(
    alloc: Global,
    module_name: Option<&str>,
    item: &str,
) -> Result<String, AllocError>
    ensures { let name = decorated_name (option_map (λ m. m.now) module_name.entry) item.now in
        IfOk result (λ t. string_bytes t ≡ name) }
{
    let Some(module_name) = module_name else {
        return String::from_str(alloc, item);
    };
    let mut name = String::with_capacity(alloc, decorated_len(module_name, item))?;
    push_decorated(&mut name, module_name, item)?;
    Ok(name)
}

// The five bits of a letter; for any other byte, an arbitrary number.
fn value_of(letter: u8) -> u16
    ensures { result ≡ value_of letter }
{
    u16::from(letter.saturating_sub(if letter < b'A' {
        b'2' - LETTER_COUNT
    } else {
        b'A'
    }))
}

// Writes the byte of the eight highest of the lowest bits of a number, if there are eight. Returns
// the number of bits left.
fn push_byte(bytes: &mut Vec<u8>, number: u16, count: u32) -> Result<u32, AllocError>
    requires { count < 13 }
    ensures pushed { let old = bytes.old.items in
        let new = bytes.new.items in
        IfOk result (λ left. (more : List ℕ) →
        new ++ bytes_of (bits left number ++ more) ≡ old ++ bytes_of (bits count number ++ more)) }
    ensures few { IfOk result (λ left. left < 8) }
{
    if count < 8 {
        return Ok(count);
    }
    bytes.push(((number >> (count - 8)) % 256) as u8)?;
    Ok(count - 8)
}

// The whole bytes that letters of base32 stand for.
fn base32_bytes(alloc: Global, code: &[u8]) -> Result<Vec<u8>, AllocError>
    ensures { let groups = flat_map (λ c. bits 5 (value_of c)) code.now in
        IfOk result (λ bytes. bytes.items ≡ bytes_of groups) }
{
    let mut bytes = Vec::with_capacity(alloc, code.len() / 8 * 5 + 5)?;
    let mut pending = 0;
    let mut count = 0;
    for letter in code {
        pending = pending % 256 * 32 + value_of(*letter) % 32;
        count = push_byte(&mut bytes, pending, count + 5)?;
    }
    Ok(bytes)
}

/// Returns the module of a code: the text whose base32 without padding is the code, or `None` if
/// the code is of no text.
pub fn decode(alloc: Global, code: &str) -> Result<Option<String>, AllocError>
    ensures { IfOk result (λ name. option_map string_bytes name ≡ decoded code.now) }
{
    let bytes = base32_bytes(alloc, code.as_bytes())?;
    let mut again = String::with_capacity(alloc, code.len())?;
    push_base32(&mut again, bytes.as_slice())?;
    if again.as_str() != code {
        return Ok(None);
    }
    Ok(String::from_utf8(bytes).ok())
}

/// The base32 of a module is a code of that module, and a code that gives a module is the base32 of
/// that module.
pub fn one_code()
    ensures coded { (m : List ℕ) → IsUtf8 m → decoded (base32 m) ≡ Some m }
    ensures decoded { (code m : List ℕ) → decoded code ≡ Some m → (base32 m ≡ code) × IsUtf8 m }
{}

// Whether the character may occur in a code, or between the code and the end of its mark.
fn is_code_char(c: char) -> bool
    ensures { result ≡ is_code_char c }
{
    c.is_ascii_uppercase() || c.is_ascii_digit()
}

// Of the capital letters and digits that the text begins with, the last `X`; returns the text from
// there on.
fn from_last_x(text: &str) -> Option<&str>
    ensures chars { option_map (λ r. chars r.now) result ≡ from_last_x (chars text.now) }
    ensures suffix { IfSome result (λ r. (front : List ℕ) × (text.now ≡ front ++ r.now)) }
    ensures utf8 { IfSome result (λ r. IsUtf8 r.now) }
{
    let mut found = None;
    let mut rest = text;
    while let Some((first, more)) = split_first_char(rest) {
        if !is_code_char(first) {
            return found;
        }
        let start = rest;
        rest = more;
        if first == 'X' {
            found = Some(start);
        }
    }
    found
}

// The code after a mark that the text begins with, and the text after the code's `X`.
fn mark_code<'a>(text: &'a str, mark: &str) -> Option<(&'a str, &'a str)>
    ensures found { let found = mark_code (chars mark.now) (chars text.now) in
        option_map (λ r. (r.0.now, chars r.1.now)) result ≡ found }
    ensures shorter { IfSome result (λ r. length r.1.now < length text.now) }
    ensures utf8 { IfSome result (λ r. IsUtf8 r.1.now) }
{
    let rest = past_word(text, mark)?;
    let end = from_last_x(rest)?;
    let following = past_word(end, "X")?;
    Some((text_before(rest, end), following))
}

// The run from its last mark of a module on, where that mark has a code and follows some character.
fn from_last_mark(run: &str) -> Option<&str>
    ensures chars { option_map (λ r. chars r.now) result ≡ from_last_mark (chars run.now) }
    ensures suffix { IfSome result (λ r. (front : List ℕ) × (run.now ≡ front ++ r.now)) }
    ensures utf8 { IfSome result (λ r. IsUtf8 r.now) }
{
    let mut found = None;
    let mut rest = run;
    while let Some((_, more)) = split_first_char(rest) {
        rest = more;
        if mark_code(more, DECORATION_PRE).is_some() {
            found = Some(more);
        }
    }
    found
}

// The parts of a run of word characters that has such a mark: the text before the mark, the code
// and the rest.
fn split_at_mark(run: &str) -> Option<(&str, &str, &str)>
    ensures parts { let parts = split_at_mark (chars run.now) in
        option_map (λ r. (r.0.now, r.1.now, chars r.2.now)) result ≡ parts }
    ensures utf8 { IfSome result (λ r. IsUtf8 r.2.now) }
{
    let at = from_last_mark(run)?;
    let (code, following) = mark_code(at, DECORATION_PRE)?;
    Some((text_before(run, at), code, following))
}

// Writes a run of word characters with its module before it.
fn push_run(alloc: Global, out: &mut String, run: &str) -> Result<(), AllocError>
    ensures { let shown = run_shown (chars run.now) in
        OnOk result (string_bytes out.new ≡ string_bytes out.old ++ shown) }
{
    let Some((before, code, following)) = split_at_mark(run) else {
        return out.push_str(run);
    };
    match decode(alloc, code)? {
        Some(module_name) => write!(out, "{module_name}::{before}{following}"),
        None => out.push_str(run),
    }
}

// The text after the word characters that it begins with.
fn after_run(text: &str) -> &str
    ensures chars { let count = prefix_len is_word_char (chars text.now) in
        chars result.now ≡ drop count (chars text.now) }
    ensures suffix { (front : List ℕ) × (text.now ≡ front ++ result.now) }
{
    let mut rest = text;
    while let Some((first, more)) = split_first_char(rest) {
        if !is_word_code(first as u32) {
            return rest;
        }
        rest = more;
    }
    rest
}

// The text with the module of each run of word characters written before the run.
fn with_modules(alloc: Global, text: &str) -> Result<String, AllocError>
    ensures { IfOk result (λ t. string_bytes t ≡ with_modules 0 (chars text.now)) }
{
    let mut out = String::with_capacity(alloc, text.len())?;
    let mut rest = text;
    while let Some((first, more)) = split_first_char(rest) {
        if is_word_code(first as u32) {
            let following = after_run(more);
            push_run(alloc, &mut out, text_before(rest, following))?;
            rest = following;
        } else {
            out.push(first)?;
            rest = more;
        }
    }
    Ok(out)
}

// Writes the front of a text: a mark of an override as `override fn` and its module, or else the
// first character. Returns the rest.
fn push_front<'a>(
    alloc: Global,
    out: &mut String,
    text: &'a str,
    first: char,
    more: &'a str,
) -> Result<&'a str, AllocError>
    requires { BeginsWithChar text.now first more.now }
    ensures value { let whole = string_bytes out.old ++ with_overrides 0 (chars text.now) in
        IfOk result (λ rest. string_bytes out.new ++ with_overrides 0 (chars rest.now) ≡ whole) }
    ensures shorter { IfOk result (λ rest. length rest.now < length text.now) }
    ensures utf8 { IfOk result (λ rest. IsUtf8 rest.now) }
{
    let Some((code, following)) = mark_code(text, DECORATION_OVERRIDE_PRE) else {
        out.push(first)?;
        return Ok(more);
    };
    let Some(module_name) = decode(alloc, code)? else {
        out.push(first)?;
        return Ok(more);
    };
    write!(out, "override fn {module_name}::")?;
    Ok(following)
}

/// Returns the text with its decorated names as a reader knows them: the module and `::` before the
/// item, and `override fn` before the module of an overridden item. A code that is of no module
/// leaves its mark unchanged. Takes time and memory linear in the text.
pub fn undecorate(alloc: Global, text: &str) -> Result<String, AllocError>
    ensures { IfOk result (λ t. string_bytes t ≡ undecoration text.now) }
{
    let named = with_modules(alloc, text)?;
    let mut out = String::with_capacity(alloc, named.len())?;
    let mut rest = named.as_str();
    while let Some((first, more)) = split_first_char(rest) {
        rest = push_front(alloc, &mut out, rest, first, more)?;
    }
    Ok(out)
}

/// A decorated name determines its item and its module.
pub fn one_decoration()
    ensures { (f g m n : List ℕ) → All (λ b. b < 256) m → All (λ b. b < 256) n →
        decorated_name (Some m) f ≡ decorated_name (Some n) g → (f ≡ g) × (m ≡ n) }
{}

/// A mark at the front of a text has one code, and so one rest after the code.
pub fn one_mark()
    ensures { (mark text code rest : List ℕ) →
        (mark_code mark text ≡ reading code rest) ↔ BeginsWithMark mark text code rest }
{}

/// A run of word characters has one reading: by its last mark of a module that has a code and a
/// character before it.
pub fn one_last_mark()
    ensures { (run text code rest : List ℕ) → (split_at_mark run ≡ reading_after text code rest)
        ↔ ((before : List ℕ) × (text ≡ encode_utf8_all before) × HasLastMark run before code rest) }
{}

/// A mark of an override determines one module.
pub fn one_override()
    ensures { (text module_name rest : List ℕ) →
        (override_at text ≡ reading module_name rest) ↔ BeginsWithOverride text module_name rest }
{}
