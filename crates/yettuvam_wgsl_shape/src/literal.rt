//! Literals: what the text of a number means.

ghost use Rattle.std.specs.Prelude.{◌≡◌, ◌+◌, ◌*◌, ◌^◌, ◌≤◌, ◌<◌};
ghost use Rattle.yettuvam_wgsl_shape.specs.Literals as spec;

use crate::number::Number;

/// A literal, as the intermediate form has it.
#[derive(Clone, Copy, Debug, PartialEq, Eq)]
pub struct Literal {
    /// Its class, 16 if it is hexadecimal, the leading digit of its significand from bit 8 on,
    /// and its exponent from bit 32 on, to which 2^31 is added.
    pub kind: u64,
    /// The last 19 digits of its significand, or all if it is hexadecimal.
    pub bits: u64,
    /// Its value, if it is an integer.
    pub number: Option<Number>,
}

#[derive(Clone, Copy)]
enum Base {
    Decimal,
    Hexadecimal,
}

/// The digits of a number.
#[derive(Clone, Copy)]
struct Significand {
    /// The value of the digits that are kept: the first 20 after leading zeros, or 16 if it is hexadecimal.
    value: u128,
    /// The number of digits that are not kept.
    dropped: u64,
    has_point: bool,
    /// The number of digits after the point.
    fraction: u64,
}

#[derive(Clone, Copy)]
struct Exponent {
    is_there: bool,
    is_negative: bool,
    /// Its value without the sign, at most `MOST_EXPONENT`.
    value: u64,
}

#[derive(Clone, Copy)]
enum Suffix {
    Missing,
    I,
    U,
    F,
    H,
}

/// A number that is read.
#[derive(Clone, Copy)]
struct Parts {
    base: Base,
    significand: Significand,
    exponent: Exponent,
    suffix: Suffix,
}

/// The exponent 0, as a literal's kind keeps it.
const BIAS: u128 = 2_147_483_648;
/// The greatest exponent of a literal; greater ones and those below its negation are cut to these.
const LARGEST_EXPONENT: u128 = 99_999;
/// The greatest exponent that is read: larger than a text is long.
const MOST_EXPONENT: u64 = 1_000_000_000_000_000_000;

const TEN_TO_19: u128 = 10_000_000_000_000_000_000;

const TWO_TO_60: u128 = 1_152_921_504_606_846_976;

const TWO_TO_64: u128 = 18_446_744_073_709_551_616;
/// The classes of literals.
const UNTYPED_INTEGER: u8 = 1;

const SIGNED_INTEGER: u8 = 2;

const UNSIGNED_INTEGER: u8 = 3;

const UNTYPED_FLOAT: u8 = 4;

const FLOAT: u8 = 5;

const HALF: u8 = 6;
/// What a hexadecimal literal has in its kind.
const HEXADECIMAL: u64 = 16;
/// The first bits of the leading digit and of the exponent in a kind.
const LEADING_UNIT: u64 = 256;

const EXPONENT_UNIT: u64 = 4_294_967_296;

// ---- digits

fn decimal_digit(byte: u8) -> Option<u8>
    ensures { result ≡ spec.decimal_digit byte }
{
    if byte >= b'0' && byte <= b'9' {
        Some(byte - b'0')
    } else {
        None
    }
}

fn hex_letter(byte: u8) -> Option<u8>
    ensures { result ≡ spec.hex_letter byte }
{
    if byte >= b'a' && byte <= b'f' {
        Some(byte - b'a' + 10)
    } else if byte >= b'A' && byte <= b'F' {
        Some(byte - b'A' + 10)
    } else {
        None
    }
}

fn hex_digit(byte: u8) -> Option<u8>
    ensures { result ≡ spec.hex_digit byte }
{
    match decimal_digit(byte) {
        Some(digit) => Some(digit),
        None => hex_letter(byte),
    }
}

fn digit_of(base: Base, byte: u8) -> Option<u8>
    ensures { result ≡ spec.digit_of base byte }
{
    match base {
        Base::Decimal => decimal_digit(byte),
        Base::Hexadecimal => hex_digit(byte),
    }
}

fn radix(base: Base) -> u128
    ensures value { result ≡ spec.radix base }
    ensures small { result ≤ 16 }
{
    match base {
        Base::Decimal => 10,
        Base::Hexadecimal => 16,
    }
}

/// A significand below this takes one digit more.
fn limit(base: Base) -> u128
    ensures value { result ≡ spec.limit base }
    ensures small { result ≤ 2 ^ 64 }
{
    match base {
        Base::Decimal => TEN_TO_19,
        Base::Hexadecimal => TWO_TO_60,
    }
}

fn with_digit(base: Base, s: Significand, digit: u8) -> Significand
    requires dropped { s.dropped + 1 < 2 ^ 64 }
    requires fraction { s.fraction + 1 < 2 ^ 64 }
    ensures { result ≡ spec.with_digit base s digit }
{
    let fraction = if s.has_point {
        s.fraction + 1
    } else {
        s.fraction
    };
    if s.value < limit(base) {
        let value = s.value * radix(base) + u128::from(digit);
        Significand {
            value,
            fraction,
            ..s
        }
    } else {
        Significand {
            dropped: s.dropped + 1,
            fraction,
            ..s
        }
    }
}

/// The significand with one byte more, a digit or the point.
fn with_byte(base: Base, s: Significand, byte: u8) -> Option<Significand>
    requires dropped { s.dropped + 1 < 2 ^ 64 }
    requires fraction { s.fraction + 1 < 2 ^ 64 }
    ensures { result ≡ spec.with_byte base s byte }
{
    if byte == b'.' {
        return Some(Significand {
            has_point: true,
            ..s
        });
    }
    match digit_of(base, byte) {
        Some(digit) => Some(with_digit(base, s, digit)),
        None => None,
    }
}

/// The significand that a text begins with, and the rest.
fn read_significand(base: Base, text: &[u8]) -> (Significand, &[u8])
    ensures { (result.0, result.1.now) ≡ spec.significand base text.now }
{
    let mut significand = Significand {
        value: 0,
        dropped: 0,
        has_point: false,
        fraction: 0,
    };
    let mut rest = text;
    while let [byte, more @ ..] = rest {
        match with_byte(base, significand, *byte) {
            Some(next) => significand = next,
            None => return (significand, rest),
        }
        rest = more;
    }
    (significand, rest)
}

// ---- exponents

fn with_exponent_digit(value: u64, digit: u8) -> u64
    ensures { result ≡ spec.with_exponent_digit value digit }
{
    value
        .saturating_mul(10)
        .saturating_add(u64::from(digit))
        .min(MOST_EXPONENT)
}

fn read_exponent_value(text: &[u8]) -> (u64, &[u8])
    ensures { (result.0, result.1.now) ≡ spec.exponent_value text.now }
{
    let mut value = 0;
    let mut rest = text;
    while let [byte, more @ ..] = rest {
        match decimal_digit(*byte) {
            Some(digit) => value = with_exponent_digit(value, digit),
            None => return (value, rest),
        }
        rest = more;
    }
    (value, rest)
}

fn exponent_with(is_negative: bool, text: &[u8]) -> (Exponent, &[u8])
    ensures { (result.0, result.1.now) ≡ spec.exponent_with is_negative text.now }
{
    let (value, rest) = read_exponent_value(text);
    let exponent = Exponent {
        is_there: true,
        is_negative,
        value,
    };
    (exponent, rest)
}

/// The exponent after its letter, and the rest.
fn signed_exponent(text: &[u8]) -> (Exponent, &[u8])
    ensures { (result.0, result.1.now) ≡ spec.signed_exponent text.now }
{
    match text {
        [b'-', rest @ ..] => exponent_with(true, rest),
        [b'+', rest @ ..] => exponent_with(false, rest),
        _ => exponent_with(false, text),
    }
}

fn exponent_letter(base: Base) -> u8
    ensures { result ≡ spec.exponent_letter base }
{
    match base {
        Base::Decimal => b'e',
        Base::Hexadecimal => b'p',
    }
}

fn begins_exponent(base: Base, byte: u8) -> bool
    ensures { result ≡ spec.begins_exponent base byte }
{
    byte.to_ascii_lowercase() == exponent_letter(base)
}

fn no_exponent() -> Exponent
    ensures { result ≡ spec.no_exponent }
{
    Exponent {
        is_there: false,
        is_negative: false,
        value: 0,
    }
}

/// The exponent that a text begins with, if it does, and the rest.
fn read_exponent(base: Base, text: &[u8]) -> (Exponent, &[u8])
    ensures { (result.0, result.1.now) ≡ spec.exponent base text.now }
{
    match text {
        [byte, rest @ ..] => {
            if begins_exponent(base, *byte) {
                signed_exponent(rest)
            } else {
                (no_exponent(), text)
            }
        }
        [] => (no_exponent(), text),
    }
}

/// The suffix that a text is.
fn suffix_of(text: &[u8]) -> Option<Suffix>
    ensures { result ≡ spec.suffix_of text.now }
{
    match text {
        [] => Some(Suffix::Missing),
        [b'i'] => Some(Suffix::I),
        [b'u'] => Some(Suffix::U),
        [b'f'] => Some(Suffix::F),
        [b'h'] => Some(Suffix::H),
        _ => None,
    }
}

// ---- the parts of a literal

/// By how many powers of ten, or of two, a digit counts.
fn step(base: Base) -> u128
    ensures value { result ≡ spec.step base }
    ensures small { result ≤ 4 }
{
    match base {
        Base::Decimal => 1,
        Base::Hexadecimal => 4,
    }
}

/// What the significand is divided by for its leading digit.
fn unit(base: Base) -> u128
    ensures value { result ≡ spec.unit base }
    ensures some { 0 < result }
    ensures small { result ≤ 2 ^ 64 }
{
    match base {
        Base::Decimal => TEN_TO_19,
        Base::Hexadecimal => TWO_TO_64,
    }
}

fn raising(exponent: Exponent) -> u128
    ensures value { result ≡ spec.raising exponent }
    ensures small { result < 2 ^ 64 }
{
    if exponent.is_negative {
        0
    } else {
        u128::from(exponent.value)
    }
}

fn lowering(exponent: Exponent) -> u128
    ensures value { result ≡ spec.lowering exponent }
    ensures small { result < 2 ^ 64 }
{
    if exponent.is_negative {
        u128::from(exponent.value)
    } else {
        0
    }
}

/// The exponent of the kept digits as an integer, to which `BIAS` is added.
fn biased_exponent(parts: Parts) -> u64
    ensures value { result ≡ spec.biased_exponent parts }
    ensures small { result < 2 ^ 32 }
{
    let step = step(parts.base);
    let dropped = u128::from(parts.significand.dropped) * step;
    let fraction = u128::from(parts.significand.fraction) * step;
    let up = BIAS + dropped + raising(parts.exponent);
    let down = fraction + lowering(parts.exponent);
    let exponent = up
        .saturating_sub(down)
        .max(BIAS - LARGEST_EXPONENT)
        .min(BIAS + LARGEST_EXPONENT);
    exponent as u64
}

fn leading_digit(parts: Parts) -> u64
    ensures value { result ≡ spec.leading_digit parts }
    ensures small { result < 16 }
{
    (parts.significand.value / unit(parts.base) % 16) as u64
}

fn low_digits(parts: Parts) -> u64
    ensures { result ≡ spec.low_digits parts }
{
    (parts.significand.value % unit(parts.base)) as u64
}

fn hex_flag(base: Base) -> u64
    ensures value { result ≡ spec.hex_flag base }
    ensures small { result ≤ 16 }
{
    match base {
        Base::Decimal => 0,
        Base::Hexadecimal => HEXADECIMAL,
    }
}

// ---- floats

fn is_float_suffix(suffix: Suffix) -> bool
    ensures { result ≡ spec.is_float_suffix suffix }
{
    matches!(suffix, Suffix::F | Suffix::H)
}

fn is_float(parts: Parts) -> bool
    ensures { result ≡ spec.is_float parts }
{
    parts.significand.has_point || parts.exponent.is_there || is_float_suffix(parts.suffix)
}

fn float_class(suffix: Suffix) -> Option<u8>
    ensures { result ≡ spec.float_class suffix }
{
    match suffix {
        Suffix::Missing => Some(UNTYPED_FLOAT),
        Suffix::F => Some(FLOAT),
        Suffix::H => Some(HALF),
        Suffix::I | Suffix::U => None,
    }
}

fn float_kind(class: u8, parts: Parts) -> u64
    ensures { result ≡ spec.float_kind class parts }
{
    u64::from(class)
        + hex_flag(parts.base)
        + leading_digit(parts) * LEADING_UNIT
        + biased_exponent(parts) * EXPONENT_UNIT
}

fn float_literal(parts: Parts) -> Option<Literal>
    ensures { result ≡ spec.float_literal parts }
{
    match float_class(parts.suffix) {
        Some(class) => Some(Literal {
            kind: float_kind(class, parts),
            bits: low_digits(parts),
            number: None,
        }),
        None => None,
    }
}

// ---- integers

fn integer_class(suffix: Suffix) -> u8
    ensures { result ≡ spec.integer_class suffix }
{
    match suffix {
        Suffix::I => SIGNED_INTEGER,
        Suffix::U => UNSIGNED_INTEGER,
        _ => UNTYPED_INTEGER,
    }
}

/// The greatest integers by the suffix.
fn greatest(suffix: Suffix) -> u128
    ensures { result ≡ spec.greatest suffix }
{
    match suffix {
        Suffix::I => 2_147_483_647,
        Suffix::U => 4_294_967_295,
        _ => 9_223_372_036_854_775_807,
    }
}

fn number_of(suffix: Suffix, value: u128) -> Number
    requires { value ≤ spec.greatest suffix }
    ensures { result ≡ spec.number_of suffix value }
{
    match suffix {
        Suffix::I => Number::Signed(value as i32),
        Suffix::U => Number::Unsigned(value as u32),
        _ => Number::Untyped(value as i64),
    }
}

fn integer_kind(parts: Parts) -> u64
    ensures { result ≡ spec.integer_kind parts }
{
    u64::from(integer_class(parts.suffix)) + hex_flag(parts.base)
}

/// An integer, unless it is too large for its type.
fn integer_literal(parts: Parts) -> Option<Literal>
    ensures { result ≡ spec.integer_literal parts }
{
    let value = parts.significand.value;
    if parts.significand.dropped > 0 || value > greatest(parts.suffix) {
        return None;
    }
    Some(Literal {
        kind: integer_kind(parts),
        bits: value as u64,
        number: Some(number_of(parts.suffix, value)),
    })
}

fn literal_with(parts: Parts) -> Option<Literal>
    ensures { result ≡ spec.literal_with parts }
{
    if is_float(parts) {
        float_literal(parts)
    } else {
        integer_literal(parts)
    }
}

fn literal_in(base: Base, text: &[u8]) -> Option<Literal>
    ensures { result ≡ spec.literal_in base text.now }
{
    let (significand, rest) = read_significand(base, text);
    let (exponent, rest) = read_exponent(base, rest);
    match suffix_of(rest) {
        Some(suffix) => literal_with(Parts {
            base,
            significand,
            exponent,
            suffix,
        }),
        None => None,
    }
}

/// The literal that the text of a number means. There is none if its suffix doesn't fit, or if it is
/// an integer that is too large for its type. The text must be a number's, as WGSL cuts texts into
/// words: of others the result is without meaning.
#[tactic(auto, unfolding(crate::specs::Literals::literal_of))]
pub fn literal_of(text: &[u8]) -> Option<Literal>
    ensures { result ≡ spec.literal_of text.now }
{
    match text {
        [b'0', b'x' | b'X', digits @ ..] => literal_in(Base::Hexadecimal, digits),
        _ => literal_in(Base::Decimal, text),
    }
}
