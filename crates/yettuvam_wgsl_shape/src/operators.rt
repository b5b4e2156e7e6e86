//! Operations on integers and truth values that the front end knows, as WGSL computes constants.

ghost use Rattle.std.specs.Prelude.{◌≡◌, pos, neg_ℤ, ◌+ℤ◌, ◌-ℤ◌, ◌*ℤ◌, int_div, int_rem};
ghost use Rattle.std.specs.Int.{int_pow};
ghost use Rattle.yettuvam_wgsl_shape.specs.Operators as spec;

use crate::number::Number;

/// What an operation on integers gives.
#[derive(Clone, Copy, Debug, PartialEq, Eq)]
pub enum Outcome {
    Known(Number),
    NotKnown,
    /// The result doesn't fit its type, or a divisor is zero.
    Overflow,
}

/// The operands of a binary operator, both of one type.
#[derive(Clone, Copy, Debug)]
enum Pair {
    Untyped(i64, i64),
    Signed(i32, i32),
    Unsigned(u32, u32),
    Truths(bool, bool),
    /// An integer without a type has no value of the other operand's type.
    Misfit,
    /// The operands have different types.
    Mixed,
}

/// The codes of the unary operators.
const NEGATE: u64 = 1;

const NOT: u64 = 2;

const COMPLEMENT: u64 = 3;

/// The codes of the binary operators.
const ADD: u64 = 1;

const SUBTRACT: u64 = 2;

const MULTIPLY: u64 = 3;

const DIVIDE: u64 = 4;

const REMAINDER: u64 = 5;

const BIT_AND: u64 = 6;

const BIT_OR: u64 = 7;

const BIT_XOR: u64 = 8;

const SHIFT_LEFT: u64 = 9;

const SHIFT_RIGHT: u64 = 10;

const EQUAL: u64 = 11;

const NOT_EQUAL: u64 = 12;

const LESS: u64 = 13;

const LESS_EQUAL: u64 = 14;

const GREATER: u64 = 15;

const GREATER_EQUAL: u64 = 16;

const BOTH: u64 = 17;

const EITHER: u64 = 18;

/// The greatest shift of an integer without a type that moves bits.
const MOST_SHIFT: u32 = 63;
/// The bits of an `i32` or `u32`.
const BITS: u32 = 32;

fn truth(is_so: bool) -> Outcome
    ensures { result ≡ spec.truth is_so }
{
    Outcome::Known(Number::Truth(is_so))
}

fn of_untyped(value: Option<i64>) -> Outcome
    ensures { result ≡ spec.of_untyped value }
{
    match value {
        Some(value) => Outcome::Known(Number::Untyped(value)),
        None => Outcome::Overflow,
    }
}

fn of_signed(value: Option<i32>) -> Outcome
    ensures { result ≡ spec.of_signed value }
{
    match value {
        Some(value) => Outcome::Known(Number::Signed(value)),
        None => Outcome::Overflow,
    }
}

fn of_unsigned(value: Option<u32>) -> Outcome
    ensures { result ≡ spec.of_unsigned value }
{
    match value {
        Some(value) => Outcome::Known(Number::Unsigned(value)),
        None => Outcome::Overflow,
    }
}

// ---- unary operators

#[tactic(auto, using(crate::proofs::Fits::if_untyped))]
fn negated(value: i64) -> Option<i64>
    ensures { result ≡ spec.untyped_if_fits (neg_ℤ value) }
{
    value.checked_neg()
}

fn untyped_unary(op: u64, value: i64) -> Outcome
    ensures { result ≡ spec.untyped_unary op value }
{
    match op {
        NEGATE => of_untyped(negated(value)),
        COMPLEMENT => of_untyped(Some(!value)),
        _ => Outcome::NotKnown,
    }
}

fn signed_unary(op: u64, value: i32) -> Outcome
    ensures { result ≡ spec.signed_unary op value }
{
    match op {
        NEGATE => of_signed(Some(value.wrapping_neg())),
        COMPLEMENT => of_signed(Some(!value)),
        _ => Outcome::NotKnown,
    }
}

fn unsigned_unary(op: u64, value: u32) -> Outcome
    ensures { result ≡ spec.unsigned_unary op value }
{
    match op {
        COMPLEMENT => of_unsigned(Some(!value)),
        _ => Outcome::NotKnown,
    }
}

fn truth_unary(op: u64, value: bool) -> Outcome
    ensures { result ≡ spec.truth_unary op value }
{
    match op {
        NOT => truth(!value),
        _ => Outcome::NotKnown,
    }
}

/// What a unary operator gives: `-` 1, `!` 2, `~` 3.
#[tactic(auto, unfolding(crate::specs::Operators::unary_number))]
pub fn unary_number(op: u64, number: Option<Number>) -> Outcome
    ensures { result ≡ spec.unary_number op number }
{
    match number {
        None => Outcome::NotKnown,
        Some(Number::Untyped(value)) => untyped_unary(op, value),
        Some(Number::Signed(value)) => signed_unary(op, value),
        Some(Number::Unsigned(value)) => unsigned_unary(op, value),
        Some(Number::Truth(value)) => truth_unary(op, value),
    }
}

// ---- both operands get one type

fn signed_pair(a: i64, b: i32, is_turned: bool) -> Pair
    ensures { result ≡ spec.signed_pair a b is_turned }
{
    match i32::try_from(a) {
        Ok(a) => {
            if is_turned {
                Pair::Signed(b, a)
            } else {
                Pair::Signed(a, b)
            }
        }
        Err(_) => Pair::Misfit,
    }
}

fn unsigned_pair(a: i64, b: u32, is_turned: bool) -> Pair
    ensures { result ≡ spec.unsigned_pair a b is_turned }
{
    match u32::try_from(a) {
        Ok(a) => {
            if is_turned {
                Pair::Unsigned(b, a)
            } else {
                Pair::Unsigned(a, b)
            }
        }
        Err(_) => Pair::Misfit,
    }
}

fn untyped_with(a: i64, b: Number) -> Pair
    ensures { result ≡ spec.untyped_with a b }
{
    match b {
        Number::Untyped(b) => Pair::Untyped(a, b),
        Number::Signed(b) => signed_pair(a, b, false),
        Number::Unsigned(b) => unsigned_pair(a, b, false),
        Number::Truth(_) => Pair::Mixed,
    }
}

fn signed_with(a: i32, b: Number) -> Pair
    ensures { result ≡ spec.signed_with a b }
{
    match b {
        Number::Untyped(b) => signed_pair(b, a, true),
        Number::Signed(b) => Pair::Signed(a, b),
        _ => Pair::Mixed,
    }
}

fn unsigned_with(a: u32, b: Number) -> Pair
    ensures { result ≡ spec.unsigned_with a b }
{
    match b {
        Number::Untyped(b) => unsigned_pair(b, a, true),
        Number::Unsigned(b) => Pair::Unsigned(a, b),
        _ => Pair::Mixed,
    }
}

fn truth_with(a: bool, b: Number) -> Pair
    ensures { result ≡ spec.truth_with a b }
{
    match b {
        Number::Truth(b) => Pair::Truths(a, b),
        _ => Pair::Mixed,
    }
}

fn pair_of(a: Number, b: Number) -> Pair
    ensures { result ≡ spec.pair_of a b }
{
    match a {
        Number::Untyped(a) => untyped_with(a, b),
        Number::Signed(a) => signed_with(a, b),
        Number::Unsigned(a) => unsigned_with(a, b),
        Number::Truth(a) => truth_with(a, b),
    }
}

// ---- arithmetic

fn is_arithmetic(op: u64) -> bool
    ensures { result ≡ spec.is_arithmetic op }
{
    op >= ADD && op <= BIT_XOR
}

fn is_comparison(op: u64) -> bool
    ensures { result ≡ spec.is_comparison op }
{
    op >= EQUAL && op <= GREATER_EQUAL
}

fn is_shift(op: u64) -> bool
    ensures { result ≡ spec.is_shift op }
{
    op == SHIFT_LEFT || op == SHIFT_RIGHT
}

#[tactic(auto, using(crate::proofs::Fits::if_untyped))]
fn untyped_sum(a: i64, b: i64) -> Option<i64>
    ensures { result ≡ spec.untyped_if_fits (a +ℤ b) }
{
    a.checked_add(b)
}

#[tactic(auto, using(crate::proofs::Fits::if_untyped))]
fn untyped_difference(a: i64, b: i64) -> Option<i64>
    ensures { result ≡ spec.untyped_if_fits (a -ℤ b) }
{
    a.checked_sub(b)
}

#[tactic(auto, using(crate::proofs::Fits::if_untyped_quotient))]
fn untyped_quotient(a: i64, b: i64) -> Option<i64>
    ensures { result ≡ spec.untyped_quotient a b (int_div a b) }
{
    a.checked_div(b)
}

#[tactic(auto, using(crate::proofs::Fits::if_untyped_quotient))]
fn untyped_remainder(a: i64, b: i64) -> Option<i64>
    ensures { result ≡ spec.untyped_quotient a b (int_rem a b) }
{
    a.checked_rem(b)
}

#[tactic(auto, using(crate::proofs::Fits::if_signed_quotient))]
fn signed_quotient(a: i32, b: i32) -> Option<i32>
    ensures { result ≡ spec.signed_quotient a b (int_div a b) }
{
    a.checked_div(b)
}

#[tactic(auto, using(crate::proofs::Fits::if_signed_quotient))]
fn signed_remainder(a: i32, b: i32) -> Option<i32>
    ensures { result ≡ spec.signed_quotient a b (int_rem a b) }
{
    a.checked_rem(b)
}

fn untyped(op: u64, a: i64, b: i64) -> Option<i64>
    ensures { result ≡ spec.untyped op a b }
{
    match op {
        ADD => untyped_sum(a, b),
        SUBTRACT => untyped_difference(a, b),
        MULTIPLY => product(a, b),
        DIVIDE => untyped_quotient(a, b),
        REMAINDER => untyped_remainder(a, b),
        BIT_AND => Some(a & b),
        BIT_OR => Some(a | b),
        _ => Some(a ^ b),
    }
}

fn signed(op: u64, a: i32, b: i32) -> Option<i32>
    ensures { result ≡ spec.signed op a b }
{
    match op {
        ADD => Some(a.wrapping_add(b)),
        SUBTRACT => Some(a.wrapping_sub(b)),
        MULTIPLY => Some(a.wrapping_mul(b)),
        DIVIDE => signed_quotient(a, b),
        REMAINDER => signed_remainder(a, b),
        BIT_AND => Some(a & b),
        BIT_OR => Some(a | b),
        _ => Some(a ^ b),
    }
}

fn unsigned(op: u64, a: u32, b: u32) -> Option<u32>
    ensures { result ≡ spec.unsigned op a b }
{
    match op {
        ADD => Some(a.wrapping_add(b)),
        SUBTRACT => Some(a.wrapping_sub(b)),
        MULTIPLY => Some(a.wrapping_mul(b)),
        DIVIDE => a.checked_div(b),
        REMAINDER => a.checked_rem(b),
        BIT_AND => Some(a & b),
        BIT_OR => Some(a | b),
        _ => Some(a ^ b),
    }
}

/// The comparisons `== != < <= > >=`.
fn compared(op: u64, a: i64, b: i64) -> bool
    ensures { result ≡ spec.compared op a b }
{
    match op {
        EQUAL => a == b,
        NOT_EQUAL => a != b,
        LESS => a < b,
        LESS_EQUAL => a <= b,
        GREATER => a > b,
        _ => a >= b,
    }
}

fn of_truths(op: u64, a: bool, b: bool) -> Outcome
    ensures { result ≡ spec.of_truths op a b }
{
    match op {
        BIT_AND | BOTH => truth(a && b),
        BIT_OR | EITHER => truth(a || b),
        EQUAL => truth(a == b),
        NOT_EQUAL => truth(a != b),
        _ => Outcome::NotKnown,
    }
}

fn arithmetic(op: u64, pair: Pair) -> Outcome
    ensures { result ≡ spec.arithmetic op pair }
{
    match pair {
        Pair::Untyped(a, b) => of_untyped(untyped(op, a, b)),
        Pair::Signed(a, b) => of_signed(signed(op, a, b)),
        Pair::Unsigned(a, b) => of_unsigned(unsigned(op, a, b)),
        _ => Outcome::NotKnown,
    }
}

fn comparison(op: u64, pair: Pair) -> Outcome
    ensures { result ≡ spec.comparison op pair }
{
    match pair {
        Pair::Untyped(a, b) => truth(compared(op, a, b)),
        Pair::Signed(a, b) => truth(compared(op, i64::from(a), i64::from(b))),
        Pair::Unsigned(a, b) => truth(compared(op, i64::from(a), i64::from(b))),
        _ => Outcome::NotKnown,
    }
}

fn of_pair(op: u64, pair: Pair) -> Outcome
    ensures { result ≡ spec.of_pair op pair }
{
    match pair {
        Pair::Truths(a, b) => of_truths(op, a, b),
        Pair::Misfit => Outcome::Overflow,
        pair => {
            if is_arithmetic(op) {
                arithmetic(op, pair)
            } else if is_comparison(op) {
                comparison(op, pair)
            } else {
                Outcome::NotKnown
            }
        }
    }
}

// ---- shifts

#[tactic(auto, using(crate::proofs::Fits::if_untyped))]
fn power_of(count: u32) -> Option<i64>
    ensures { result ≡ spec.untyped_if_fits (int_pow (pos 2) count) }
{
    2i64.checked_pow(count)
}

#[tactic(auto, using(crate::proofs::Fits::if_untyped))]
fn product(a: i64, b: i64) -> Option<i64>
    ensures { result ≡ spec.untyped_if_fits (a *ℤ b) }
{
    a.checked_mul(b)
}

/// The value multiplied by two to the power of a count.
fn raised(value: i64, count: u32) -> Option<i64>
    ensures { result ≡ spec.raised value count }
{
    match power_of(count) {
        Some(power) => product(value, power),
        None => None,
    }
}

fn signed_raised(value: i32, count: u32) -> Option<i32>
    ensures { result ≡ spec.signed_raised value count }
{
    if count >= BITS {
        return None;
    }
    match raised(i64::from(value), count) {
        Some(value) => i32::try_from(value).ok(),
        None => None,
    }
}

fn unsigned_raised(value: u32, count: u32) -> Option<u32>
    ensures { result ≡ spec.unsigned_raised value count }
{
    if count >= BITS {
        return None;
    }
    match raised(i64::from(value), count) {
        Some(value) => u32::try_from(value).ok(),
        None => None,
    }
}

fn shifted_left(number: Number, count: u32) -> Outcome
    ensures { result ≡ spec.shifted_left number count }
{
    match number {
        Number::Untyped(value) => of_untyped(raised(value, count)),
        Number::Signed(value) => of_signed(signed_raised(value, count)),
        Number::Unsigned(value) => of_unsigned(unsigned_raised(value, count)),
        Number::Truth(_) => Outcome::NotKnown,
    }
}

fn signed_lowered(value: i32, count: u32) -> Option<i32>
    ensures { result ≡ spec.signed_lowered value count }
{
    if count < BITS {
        Some(value >> count)
    } else {
        None
    }
}

fn unsigned_lowered(value: u32, count: u32) -> Option<u32>
    ensures { result ≡ spec.unsigned_lowered value count }
{
    if count < BITS {
        Some(value >> count)
    } else {
        None
    }
}

fn shifted_right(number: Number, count: u32) -> Outcome
    ensures { result ≡ spec.shifted_right number count }
{
    match number {
        Number::Untyped(value) => of_untyped(Some(value >> count.min(MOST_SHIFT))),
        Number::Signed(value) => of_signed(signed_lowered(value, count)),
        Number::Unsigned(value) => of_unsigned(unsigned_lowered(value, count)),
        Number::Truth(_) => Outcome::NotKnown,
    }
}

fn shift_by(op: u64, number: Number, count: u32) -> Outcome
    ensures { result ≡ spec.shift_by op number count }
{
    if op == SHIFT_LEFT {
        shifted_left(number, count)
    } else {
        shifted_right(number, count)
    }
}

fn shift(op: u64, number: Number, count: Number) -> Outcome
    ensures { result ≡ spec.shift op number count }
{
    match count {
        Number::Unsigned(count) => shift_by(op, number, count),
        Number::Untyped(count) => match u32::try_from(count) {
            Ok(count) => shift_by(op, number, count),
            Err(_) => Outcome::Overflow,
        },
        _ => Outcome::NotKnown,
    }
}

// ---- what callers use

fn of_both(op: u64, a: Number, b: Number) -> Outcome
    ensures { result ≡ spec.of_both op a b }
{
    if is_shift(op) {
        shift(op, a, b)
    } else {
        of_pair(op, pair_of(a, b))
    }
}

/// What a binary operator gives: `+ - * / % & | ^` 1 to 8, `<< >>` 9 and 10,
/// `== != < <= > >=` 11 to 16, `&& ||` 17 and 18.
#[tactic(auto, unfolding(crate::specs::Operators::binary_number))]
pub fn binary_number(op: u64, a: Option<Number>, b: Option<Number>) -> Outcome
    ensures { result ≡ spec.binary_number op a b }
{
    match a {
        Some(a) => match b {
            Some(b) => of_both(op, a, b),
            None => Outcome::NotKnown,
        },
        None => Outcome::NotKnown,
    }
}

fn chosen(op: u64, pair: Pair) -> Option<Number>
    ensures { result ≡ spec.chosen op pair }
{
    match pair {
        Pair::Untyped(a, b) => { Some(Number::Untyped(if compared(op, a, b) { a } else { b })) }
        Pair::Signed(a, b) => {
            let is_first = compared(op, i64::from(a), i64::from(b));
            Some(Number::Signed(if is_first { a } else { b }))
        }
        Pair::Unsigned(a, b) => {
            let is_first = compared(op, i64::from(a), i64::from(b));
            Some(Number::Unsigned(if is_first { a } else { b }))
        }
        _ => None,
    }
}

fn choice(op: u64, a: Option<Number>, b: Option<Number>) -> Option<Number>
    ensures { result ≡ spec.choice op a b }
{
    match a {
        Some(a) => match b {
            Some(b) => chosen(op, pair_of(a, b)),
            None => None,
        },
        None => None,
    }
}

/// The smaller of two integers: WGSL's `min`.
#[tactic(auto, unfolding(crate::specs::Operators::least))]
pub fn least(a: Option<Number>, b: Option<Number>) -> Option<Number>
    ensures { result ≡ spec.least a b }
{
    choice(LESS, a, b)
}

/// The larger of two integers: WGSL's `max`.
#[tactic(auto, unfolding(crate::specs::Operators::greatest))]
pub fn greatest(a: Option<Number>, b: Option<Number>) -> Option<Number>
    ensures { result ≡ spec.greatest a b }
{
    choice(GREATER, a, b)
}

/// `x` held between `low` and `high`: WGSL's `clamp`.
#[tactic(auto, unfolding(crate::specs::Operators::clamped))]
pub fn clamped(x: Option<Number>, low: Option<Number>, high: Option<Number>) -> Option<Number>
    ensures { result ≡ spec.clamped x low high }
{
    least(greatest(x, low), high)
}
