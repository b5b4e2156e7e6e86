//! The names of predeclared things.
ghost use Rattle.std.specs.Prelude.{◌≡◌, option_map};
ghost use Rattle.yettuvam_wgsl_names.specs.Spelled.{spelled};

use crate::codes;
use crate::functions::function_name;
use crate::names::Predeclared;

/// The names of scalar types by their codes.
#[rattlefmt::skip]
pub static SCALARS: [(u64, &str); 5] = [
    (1, "bool"), (2, "i32"), (3, "u32"), (4, "f32"), (5, "f16"),
];

/// The names of vector types by their codes.
#[rattlefmt::skip]
pub static VECTORS: [(u64, &str); 15] = [
    (2, "vec2"), (3, "vec3"), (4, "vec4"), (34, "vec2i"), (35, "vec3i"), (36, "vec4i"), (50, "vec2u"),
    (51, "vec3u"), (52, "vec4u"), (66, "vec2f"), (67, "vec3f"), (68, "vec4f"), (82, "vec2h"), (83, "vec3h"),
    (84, "vec4h"),
];

/// The names of matrix types by their codes.
#[rattlefmt::skip]
pub static MATRICES: [(u64, &str); 27] = [
    (34, "mat2x2"), (50, "mat2x3"), (66, "mat2x4"), (35, "mat3x2"), (51, "mat3x3"), (67, "mat3x4"), (36, "mat4x2"),
    (52, "mat4x3"), (68, "mat4x4"), (1058, "mat2x2f"), (1074, "mat2x3f"), (1090, "mat2x4f"), (1059, "mat3x2f"),
    (1075, "mat3x3f"), (1091, "mat3x4f"), (1060, "mat4x2f"), (1076, "mat4x3f"), (1092, "mat4x4f"),
    (1314, "mat2x2h"), (1330, "mat2x3h"), (1346, "mat2x4h"), (1315, "mat3x2h"), (1331, "mat3x3h"),
    (1347, "mat3x4h"), (1316, "mat4x2h"), (1332, "mat4x3h"), (1348, "mat4x4h"),
];

/// The names of samplers by their codes.
#[rattlefmt::skip]
pub static SAMPLERS: [(u64, &str); 2] = [
    (0, "sampler"), (1, "sampler_comparison"),
];

/// The names of textures by their codes.
#[rattlefmt::skip]
pub static TEXTURES: [(u64, &str); 17] = [
    (1, "texture_1d"), (2, "texture_2d"), (3, "texture_2d_array"), (4, "texture_3d"), (5, "texture_cube"),
    (6, "texture_cube_array"), (7, "texture_multisampled_2d"), (8, "texture_depth_2d"),
    (9, "texture_depth_2d_array"), (10, "texture_depth_cube"), (11, "texture_depth_cube_array"),
    (12, "texture_depth_multisampled_2d"), (13, "texture_external"), (14, "texture_storage_1d"),
    (15, "texture_storage_2d"), (16, "texture_storage_2d_array"), (17, "texture_storage_3d"),
];

/// The names of texel formats by their codes.
#[rattlefmt::skip]
pub static TEXEL_FORMATS: [(u64, &str); 40] = [
    (1, "r8unorm"), (2, "r8snorm"), (3, "r8uint"), (4, "r8sint"), (5, "r16unorm"), (6, "r16snorm"), (7, "r16uint"),
    (8, "r16sint"), (9, "r16float"), (10, "rg8unorm"), (11, "rg8snorm"), (12, "rg8uint"), (13, "rg8sint"),
    (14, "r32uint"), (15, "r32sint"), (16, "r32float"), (17, "rg16unorm"), (18, "rg16snorm"), (19, "rg16uint"),
    (20, "rg16sint"), (21, "rg16float"), (22, "rgba8unorm"), (23, "rgba8snorm"), (24, "rgba8uint"),
    (25, "rgba8sint"), (26, "bgra8unorm"), (27, "rgb10a2uint"), (28, "rgb10a2unorm"), (29, "rg11b10ufloat"),
    (30, "rg32uint"), (31, "rg32sint"), (32, "rg32float"), (33, "rgba16unorm"), (34, "rgba16snorm"),
    (35, "rgba16uint"), (36, "rgba16sint"), (37, "rgba16float"), (38, "rgba32uint"), (39, "rgba32sint"),
    (40, "rgba32float"),
];

/// The names of address spaces by their codes.
#[rattlefmt::skip]
pub static ADDRESS_SPACES: [(u64, &str); 6] = [
    (0, "function"), (1, "private"), (2, "workgroup"), (3, "uniform"), (4, "storage"), (6, "immediate"),
];

/// The names of access modes by their codes.
#[rattlefmt::skip]
pub static ACCESS_MODES: [(u64, &str); 3] = [
    (1, "read"), (2, "write"), (3, "read_write"),
];

/// Returns the name of a predeclared thing; `None` for a code that stands for nothing.
pub fn spelled(thing: Predeclared) -> Option<&'static str>
    ensures { option_map (λ n. n.now) result ≡ spelled thing }
{
    match thing {
        Predeclared::Scalar(code) => codes::name_of(&SCALARS, code),
        Predeclared::Vector(code) => codes::name_of(&VECTORS, code),
        Predeclared::Matrix(code) => codes::name_of(&MATRICES, code),
        Predeclared::Array => Some("array"),
        Predeclared::BindingArray => Some("binding_array"),
        Predeclared::Atomic => Some("atomic"),
        Predeclared::Pointer => Some("ptr"),
        Predeclared::Sampler(code) => codes::name_of(&SAMPLERS, code),
        Predeclared::Texture(code) => codes::name_of(&TEXTURES, code),
        Predeclared::TexelFormat(code) => codes::name_of(&TEXEL_FORMATS, code),
        Predeclared::AddressSpace(code) => codes::name_of(&ADDRESS_SPACES, code),
        Predeclared::Access(code) => codes::name_of(&ACCESS_MODES, code),
        Predeclared::Function(code) => function_name(code),
    }
}
