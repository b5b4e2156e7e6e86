//! The values of definitions.
ghost use Rattle.std.specs.Prelude.{◌≡◌, option_copied};
ghost use Rattle.naga_oil_conditions.specs.DefineValue.{defined_value};

/// The value of a definition. The default, of a definition without a value, is `Bool(true)`.
#[derive(Clone, Copy, Debug, PartialEq, Eq, Hash)]
pub enum ShaderDefValue {
    Bool(bool),
    Int(i32),
    UInt(u32),
}

impl Default for ShaderDefValue {
    ghost use Rattle.std.specs.Prelude.{◌≡◌, true};
    ghost use Rattle.naga_oil_conditions.specs.declared.shader_def.ShaderDefValue.TheVariants.{Bool};

    ghost is_default = { λ value. value ≡ Bool true };

    fn default() -> ShaderDefValue {
        ShaderDefValue::Bool(true)
    }
}

/// Returns the value that a `#define` gives: `Bool(true)` without a text; else the text as a `u32`,
/// else as an `i32`, else as a `bool`. Any other text has no value.
#[tactic(auto, unfolding(crate::specs::DefineValue::defined_value), using(crate::proofs::ValueLemmas::parses_bool, crate::proofs::ValueLemmas::parses_i32, crate::proofs::ValueLemmas::parses_u32))]
pub fn defined_value(value: Option<&str>) -> Option<ShaderDefValue>
    ensures { result ≡ defined_value (option_copied value.entry) }
{
    let Some(text) = value else {
        return Some(ShaderDefValue::default());
    };
    if let Ok(number) = text.parse::<u32>() {
        Some(ShaderDefValue::UInt(number))
    } else if let Ok(number) = text.parse::<i32>() {
        Some(ShaderDefValue::Int(number))
    } else {
        Some(ShaderDefValue::Bool(text.parse::<bool>().ok()?))
    }
}
