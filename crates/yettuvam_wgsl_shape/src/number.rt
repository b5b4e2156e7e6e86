//! Integers and truth values that the front end knows.

ghost use Rattle.std.specs.Prelude.{◌≡◌};
ghost use Rattle.yettuvam_wgsl_shape.specs.Numbers as spec;

/// The type of an integer.
#[derive(Clone, Copy, Debug, PartialEq, Eq)]
pub enum Kind {
    /// An integer without a type.
    Untyped,
    Signed,
    Unsigned,
    /// A truth value.
    Truth,
}

/// An integer or a truth value that is known.
#[derive(Clone, Copy, Debug, PartialEq, Eq)]
pub enum Number {
    /// An integer without a type: WGSL's `AbstractInt`.
    Untyped(i64),
    Signed(i32),
    Unsigned(u32),
    Truth(bool),
}

/// Two to the power of 32.
const TWO_TO_32: u64 = 4_294_967_296;
/// The classes of selectors, by which a `switch` writes each as it was read.
const NOT_NEGATIVE: u64 = 1;

const NEGATIVE: u64 = 2;

const SIGNED: u64 = 3;

const UNSIGNED: u64 = 4;

impl Number {
    /// The value; of a truth value 0 or 1.
    pub fn value(self) -> i64
        ensures { result ≡ spec.value_of self }
    {
        match self {
            Number::Untyped(value) => value,
            Number::Signed(value) => i64::from(value),
            Number::Unsigned(value) => i64::from(value),
            Number::Truth(value) => i64::from(value),
        }
    }
}

fn signed_of(value: i64) -> Option<Number>
    ensures { result ≡ spec.signed_of value }
{
    match i32::try_from(value) {
        Ok(value) => Some(Number::Signed(value)),
        Err(_) => None,
    }
}

fn unsigned_of(value: i64) -> Option<Number>
    ensures { result ≡ spec.unsigned_of value }
{
    match u32::try_from(value) {
        Ok(value) => Some(Number::Unsigned(value)),
        Err(_) => None,
    }
}

fn to_signed(number: Number) -> Option<Number>
    ensures { result ≡ spec.to_signed number }
{
    match number {
        Number::Unsigned(value) => Some(Number::Signed(value.cast_signed())),
        other => signed_of(other.value()),
    }
}

fn to_unsigned(number: Number) -> Option<Number>
    ensures { result ≡ spec.to_unsigned number }
{
    match number {
        Number::Signed(value) => Some(Number::Unsigned(value.cast_unsigned())),
        other => unsigned_of(other.value()),
    }
}

/// The number converted to a type, if it is known and has a value of that type: `i32(x)`, `u32(x)`.
#[tactic(auto, unfolding(crate::specs::Numbers::converted))]
pub fn converted(kind: Kind, number: Option<Number>) -> Option<Number>
    ensures { result ≡ spec.converted kind number }
{
    let number = number?;
    match kind {
        Kind::Signed => to_signed(number),
        Kind::Unsigned => to_unsigned(number),
        Kind::Untyped | Kind::Truth => Some(number),
    }
}

/// The absolute value: WGSL's `abs`. Of the least value of a type that value itself.
#[tactic(auto, unfolding(crate::specs::Numbers::magnitude))]
pub fn magnitude(number: Number) -> Number
    ensures { result ≡ spec.magnitude number }
{
    match number {
        Number::Untyped(value) => Number::Untyped(value.wrapping_abs()),
        Number::Signed(value) => Number::Signed(value.wrapping_abs()),
        other => other,
    }
}

fn class_of(number: Number) -> u64
    ensures { result ≡ spec.class_of number }
{
    match number {
        Number::Untyped(value) => { if value < 0 { NEGATIVE } else { NOT_NEGATIVE } }
        Number::Signed(_) => SIGNED,
        Number::Unsigned(_) => UNSIGNED,
        Number::Truth(_) => NOT_NEGATIVE,
    }
}

/// The low 32 bits of a value.
fn low_bits(value: i64) -> u64
    ensures { result ≡ spec.low_bits value }
{
    value.cast_unsigned() % TWO_TO_32
}

/// The code of a selector of a `switch`: its class and the low 32 bits of its value.
#[tactic(auto, unfolding(crate::specs::Numbers::selector_code))]
pub fn selector_code(number: Number) -> u64
    ensures { result ≡ spec.selector_code number }
{
    class_of(number) * TWO_TO_32 + low_bits(number.value())
}
