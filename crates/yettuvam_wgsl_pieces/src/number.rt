// How literals are spelled.
ghost use Rattle.std.specs.Prelude.{◌≡◌, ◌++◌, ◌<◌, OnOk, string_bytes};
ghost use Rattle.yettuvam_wgsl_pieces.specs.Numbers as spec;

use std::alloc::AllocError;

/// The values of the low bits of a literal's kind, which say what the literal is.
const CLASSES: u64 = 16;
/// The class of `false` and `true`.
const BOOL: u64 = 0;
/// The first class of floats; classes below are integers.
const FIRST_FLOAT: u64 = 4;
/// The exponent 0, as the high half of a float's kind keeps it.
const BIAS: u64 = 2_147_483_648;
/// The most digits after the point of a number without exponent.
const MOST_PLACES: u64 = 40;
/// The leading digit of a significand is multiplied by this.
const LEADING: u128 = 10_000_000_000_000_000_000;

// The suffix of a class.
fn suffix(class: u64) -> &'static str
    ensures { result.now ≡ spec.suffix class }
{
    match class {
        2 => "i",
        3 => "u",
        5 => "f",
        6 => "h",
        _ => "",
    }
}

fn digit(value: u128) -> &'static str
    ensures { result.now ≡ spec.digit value }
{
    match value {
        0 => "0",
        1 => "1",
        2 => "2",
        3 => "3",
        4 => "4",
        5 => "5",
        6 => "6",
        7 => "7",
        8 => "8",
        _ => "9",
    }
}

fn is_hexadecimal(kind: u64) -> bool
    ensures { result ≡ spec.is_hexadecimal kind }
{
    kind / 16 % 2 == 1
}

// Appends decimal digits, with a point before the last ones.
#[tactic(auto, using(crate::proofs::Steps::pointed_step))]
fn push_pointed(out: &mut String, places: u64, value: u128) -> Result<(), AllocError>
    ensures { OnOk result (string_bytes out.new ≡ string_bytes out.old ++ spec.pointed places value) }
{
    if places == 0 {
        write!(out, "{value}")?;
        return out.push_str(".");
    }
    push_pointed(out, places - 1, value / 10)?;
    out.push_str(digit(value % 10))
}

// Appends an exponent, to which `BIAS` is added.
fn push_exponent(out: &mut String, exponent: u64) -> Result<(), AllocError>
    ensures { OnOk result (string_bytes out.new ≡ string_bytes out.old ++ spec.exponent_text exponent) }
{
    if exponent < BIAS {
        let below = BIAS - exponent;
        out.push_str("-")?;
        write!(out, "{below}")
    } else {
        let above = exponent - BIAS;
        write!(out, "{above}")
    }
}

fn push_plain_float(out: &mut String, class: u64, value: u128) -> Result<(), AllocError>
    ensures { OnOk result (string_bytes out.new ≡ string_bytes out.old ++ spec.plain_float class value) }
{
    write!(out, "{value}")?;
    if class == FIRST_FLOAT {
        out.push_str(".")?;
    }
    Ok(())
}

// Appends a decimal float without its suffix.
fn push_decimal(out: &mut String, class: u64, value: u128, exponent: u64) -> Result<(), AllocError>
    ensures { OnOk result (string_bytes out.new ≡ string_bytes out.old ++ spec.decimal_float class value exponent) }
{
    if exponent == BIAS {
        return push_plain_float(out, class, value);
    }
    if exponent < BIAS && BIAS - MOST_PLACES <= exponent {
        return push_pointed(out, BIAS - exponent, value);
    }
    write!(out, "{value}")?;
    out.push_str("e")?;
    push_exponent(out, exponent)
}

fn push_hexadecimal(out: &mut String, bits: u64) -> Result<(), AllocError>
    ensures { OnOk result (string_bytes out.new ≡ string_bytes out.old ++ spec.hexadecimal bits) }
{
    out.push_str("0x")?;
    write!(out, "{bits:x}")
}

fn push_float(out: &mut String, kind: u64, bits: u64) -> Result<(), AllocError>
    ensures { OnOk result (string_bytes out.new ≡ string_bytes out.old ++ spec.float_text kind bits) }
{
    let exponent = kind / 4_294_967_296;
    if is_hexadecimal(kind) {
        push_hexadecimal(out, bits)?;
        out.push_str("p")?;
        return push_exponent(out, exponent);
    }
    let leading = kind / 256 % 16;
    let value = leading as u128 * LEADING + bits as u128;
    push_decimal(out, kind % CLASSES, value, exponent)
}

fn push_integer(out: &mut String, kind: u64, bits: u64) -> Result<(), AllocError>
    ensures { OnOk result (string_bytes out.new ≡ string_bytes out.old ++ spec.integer_text kind bits) }
{
    if is_hexadecimal(kind) {
        push_hexadecimal(out, bits)
    } else {
        write!(out, "{bits}")
    }
}

/// Appends a literal of a kind, as the intermediate form keeps it.
///
/// # Errors
/// If out of memory.
#[tactic(auto, unfolding(crate::specs::Numbers::literal_text))]
pub fn push_literal(out: &mut String, kind: u64, bits: u64) -> Result<(), AllocError>
    ensures { OnOk result (string_bytes out.new ≡ string_bytes out.old ++ spec.literal_text kind bits) }
{
    let class = kind % CLASSES;
    if class == BOOL {
        return out.push_str(if bits == 0 { "false" } else { "true" });
    }
    if class < FIRST_FLOAT {
        push_integer(out, kind, bits)?;
    } else {
        push_float(out, kind, bits)?;
    }
    out.push_str(suffix(class))
}
