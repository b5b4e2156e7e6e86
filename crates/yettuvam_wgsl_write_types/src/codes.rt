//! Codes of pseudo-types, spaces and conversions.
ghost use Rattle.std.specs.Prelude.{◌≡◌, option_map};
ghost use Rattle.yettuvam_wgsl_write_types.specs.Results as spec;

/// The pseudo-type of what has no written type.
pub const NOT_TOLD: u64 = 0;

/// The result of `modf`.
pub const MODF_RESULT: u64 = 64;

/// The result of `frexp`.
pub const FREXP_RESULT: u64 = 65;

/// The result of `atomicCompareExchangeWeak`.
pub const EXCHANGE_RESULT: u64 = 66;

/// The space of a pointer type that stands for an alias of its base.
pub const ALIAS: u64 = 64;

/// The space of a pointer type that stands for a `let` with its base as type.
pub const TYPED_LET: u64 = 65;

/// The space of a pointer type that stands for a `const` with its base as type.
pub const TYPED_CONST: u64 = 66;

/// The space of textures and samplers.
pub const HANDLE_SPACE: u64 = 5;

/// The space of local variables.
pub const FUNCTION_SPACE: u64 = 0;

/// The conversion that copies a value to a `let`.
pub const LET_COPY: u64 = 1;

/// The conversion that copies a value to a `const`.
pub const CONST_COPY: u64 = 2;

// The first member's name, and the second's.
fn of_two(first: &'static str, second: &'static str, index: u32) -> Option<&'static str>
    ensures { option_map (λ n. n.now) result ≡ spec.of_two first.now second.now index }
{
    match index {
        0 => Some(first),
        1 => Some(second),
        _ => None,
    }
}

/// Returns the name of the member of a result of a built-in function.
pub fn result_member_name(result_type: u64, index: u32) -> Option<&'static str>
    ensures { option_map (λ n. n.now) result ≡ spec.result_member_name result_type index }
{
    match result_type {
        MODF_RESULT => of_two("fract", "whole", index),
        FREXP_RESULT => of_two("fract", "exp", index),
        EXCHANGE_RESULT => of_two("old_value", "exchanged", index),
        _ => None,
    }
}
