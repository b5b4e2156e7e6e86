// What the codes of the intermediate form are called.
ghost use Rattle.std.specs.Prelude.{◌≡◌, option_map};
ghost use Rattle.yettuvam_wgsl_written.specs.Codes as spec;

use yettuvam_wgsl_names::codes::name_of;
use yettuvam_wgsl_names::context::{BUILT_IN_VALUES, INTERPOLATION_TYPES, SAMPLINGS};
use yettuvam_wgsl_names::spelled::{
    ACCESS_MODES, ADDRESS_SPACES, MATRICES, SAMPLERS, SCALARS, TEXEL_FORMATS, TEXTURES, VECTORS,
};

/// The code of `bool` among scalars.
pub const BOOL: u64 = 1;

/// Returns the name of a scalar type.
pub fn scalar_name(code: u64) -> Option<&'static str>
    ensures { option_map (λ n. n.now) result ≡ spec.scalar_name code }
{
    name_of(&SCALARS, code)
}

/// Returns the name of a matrix type.
pub fn matrix_name(code: u64) -> Option<&'static str>
    ensures { option_map (λ n. n.now) result ≡ spec.matrix_name code }
{
    name_of(&MATRICES, code)
}

/// Returns the name of a sampler.
pub fn sampler_name(code: u64) -> Option<&'static str>
    ensures { option_map (λ n. n.now) result ≡ spec.sampler_name code }
{
    name_of(&SAMPLERS, code)
}

/// Returns the name of a texture type.
pub fn texture_name(code: u64) -> Option<&'static str>
    ensures { option_map (λ n. n.now) result ≡ spec.texture_name code }
{
    name_of(&TEXTURES, code)
}

/// Returns the name of a texel format.
pub fn texel_format_name(code: u64) -> Option<&'static str>
    ensures { option_map (λ n. n.now) result ≡ spec.texel_format_name code }
{
    name_of(&TEXEL_FORMATS, code)
}

/// Returns the name of an address space.
pub fn space_name(code: u64) -> Option<&'static str>
    ensures { option_map (λ n. n.now) result ≡ spec.space_name code }
{
    name_of(&ADDRESS_SPACES, code)
}

/// Returns the name of an access mode.
pub fn access_name(code: u64) -> Option<&'static str>
    ensures { option_map (λ n. n.now) result ≡ spec.access_name code }
{
    name_of(&ACCESS_MODES, code)
}

/// Returns the name of a built-in value.
pub fn built_in_value_name(code: u64) -> Option<&'static str>
    ensures { option_map (λ n. n.now) result ≡ spec.built_in_value_name code }
{
    name_of(&BUILT_IN_VALUES, code)
}

/// Returns the name of a type of interpolation.
pub fn interpolation_name(code: u64) -> Option<&'static str>
    ensures { option_map (λ n. n.now) result ≡ spec.interpolation_name code }
{
    name_of(&INTERPOLATION_TYPES, code)
}

/// Returns the name of a sampling.
pub fn sampling_name(code: u64) -> Option<&'static str>
    ensures { option_map (λ n. n.now) result ≡ spec.sampling_name code }
{
    name_of(&SAMPLINGS, code)
}

/// Returns the name of a vector type. That of vectors of `bool` is the name without a component.
pub fn vector_name(code: u64) -> Option<&'static str>
    ensures { option_map (λ n. n.now) result ≡ spec.vector_name code }
{
    name_of(&VECTORS, if code / 16 == BOOL { code % 16 } else { code })
}

/// Returns the letter of a component of a vector: of `xyzw` from 0, of `rgba` from 4.
pub fn component_name(index: u32) -> Option<&'static str>
    ensures { option_map (λ n. n.now) result ≡ spec.component_name index }
{
    match index {
        0 => Some("x"),
        1 => Some("y"),
        2 => Some("z"),
        3 => Some("w"),
        4 => Some("r"),
        5 => Some("g"),
        6 => Some("b"),
        7 => Some("a"),
        _ => None,
    }
}
