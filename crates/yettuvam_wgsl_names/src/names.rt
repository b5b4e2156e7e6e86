//! The names that each module has predeclared.
ghost use Rattle.std.specs.Prelude.{◌≡◌};
ghost use Rattle.yettuvam_wgsl_names.specs.Table.{meaning};
ghost use Rattle.yettuvam_wgsl_names.specs.Names.{predeclared_rows};

use crate::table::find;
use Predeclared::*;

/// What a predeclared name means. Each code stands for the same in the intermediate form.
#[derive(Clone, Copy, Debug, PartialEq, Eq)]
pub enum Predeclared {
    /// A scalar type, by the code in `SCALARS`.
    Scalar(u64),
    /// A vector type: its size, and 16 times the code of its components, which is 0 for `vec2`, `vec3` and `vec4`.
    Vector(u64),
    /// A matrix type: its columns, 16 times its rows, and 256 times the code of its components, which is 0 where a template
    /// gives them.
    Matrix(u64),
    /// `array`
    Array,
    /// `binding_array`
    BindingArray,
    /// `atomic`
    Atomic,
    /// `ptr`
    Pointer,
    /// A sampler, by the code in `SAMPLERS`.
    Sampler(u64),
    /// A texture, by the code in `TEXTURES`.
    Texture(u64),
    /// A texel format, by the code in `TEXEL_FORMATS`.
    TexelFormat(u64),
    /// An address space, by the code in `ADDRESS_SPACES`.
    AddressSpace(u64),
    /// An access mode, by the code in `ACCESS_MODES`.
    Access(u64),
    /// A built-in function, by its code.
    Function(u64),
}

/// The predeclared names in the order of their bytes, each with what it means.
#[rattlefmt::skip]
pub static PREDECLARED: [(&str, Predeclared); 265] = [
    ("abs", Function(256)), ("acos", Function(257)), ("acosh", Function(258)), ("all", Function(512)),
    ("any", Function(513)), ("array", Array), ("arrayLength", Function(2561)), ("asin", Function(259)),
    ("asinh", Function(260)), ("atan", Function(261)), ("atan2", Function(262)), ("atanh", Function(263)),
    ("atomic", Atomic), ("atomicAdd", Function(1537)), ("atomicAnd", Function(1541)),
    ("atomicCompareExchangeWeak", Function(1545)), ("atomicExchange", Function(1544)),
    ("atomicLoad", Function(333)), ("atomicMax", Function(1539)), ("atomicMin", Function(1540)),
    ("atomicOr", Function(1542)), ("atomicStore", Function(1536)), ("atomicSub", Function(1538)),
    ("atomicXor", Function(1543)), ("bgra8unorm", TexelFormat(26)), ("binding_array", BindingArray),
    ("bitcast", Function(2562)), ("bool", Scalar(1)), ("ceil", Function(264)), ("clamp", Function(265)),
    ("cos", Function(266)), ("cosh", Function(267)), ("countLeadingZeros", Function(268)),
    ("countOneBits", Function(269)), ("countTrailingZeros", Function(270)), ("cross", Function(271)),
    ("degrees", Function(272)), ("determinant", Function(273)), ("distance", Function(274)), ("dot", Function(275)),
    ("dot4I8Packed", Function(276)), ("dot4U8Packed", Function(277)), ("dpdx", Function(768)),
    ("dpdxCoarse", Function(769)), ("dpdxFine", Function(770)), ("dpdy", Function(771)),
    ("dpdyCoarse", Function(772)), ("dpdyFine", Function(773)), ("exp", Function(278)), ("exp2", Function(279)),
    ("extractBits", Function(280)), ("f16", Scalar(5)), ("f32", Scalar(4)), ("faceForward", Function(281)),
    ("firstLeadingBit", Function(282)), ("firstTrailingBit", Function(283)), ("floor", Function(284)),
    ("fma", Function(285)), ("fract", Function(286)), ("frexp", Function(287)), ("function", AddressSpace(0)),
    ("fwidth", Function(774)), ("fwidthCoarse", Function(775)), ("fwidthFine", Function(776)), ("i32", Scalar(2)),
    ("immediate", AddressSpace(6)), ("insertBits", Function(288)), ("inverseSqrt", Function(289)),
    ("ldexp", Function(290)), ("length", Function(291)), ("log", Function(292)), ("log2", Function(293)),
    ("mat2x2", Matrix(34)), ("mat2x2f", Matrix(1058)), ("mat2x2h", Matrix(1314)), ("mat2x3", Matrix(50)),
    ("mat2x3f", Matrix(1074)), ("mat2x3h", Matrix(1330)), ("mat2x4", Matrix(66)), ("mat2x4f", Matrix(1090)),
    ("mat2x4h", Matrix(1346)), ("mat3x2", Matrix(35)), ("mat3x2f", Matrix(1059)), ("mat3x2h", Matrix(1315)),
    ("mat3x3", Matrix(51)), ("mat3x3f", Matrix(1075)), ("mat3x3h", Matrix(1331)), ("mat3x4", Matrix(67)),
    ("mat3x4f", Matrix(1091)), ("mat3x4h", Matrix(1347)), ("mat4x2", Matrix(36)), ("mat4x2f", Matrix(1060)),
    ("mat4x2h", Matrix(1316)), ("mat4x3", Matrix(52)), ("mat4x3f", Matrix(1076)), ("mat4x3h", Matrix(1332)),
    ("mat4x4", Matrix(68)), ("mat4x4f", Matrix(1092)), ("mat4x4h", Matrix(1348)), ("max", Function(294)),
    ("min", Function(295)), ("mix", Function(296)), ("modf", Function(297)), ("normalize", Function(298)),
    ("pack2x16float", Function(317)), ("pack2x16snorm", Function(318)), ("pack2x16unorm", Function(319)),
    ("pack4x8snorm", Function(320)), ("pack4x8unorm", Function(321)), ("pack4xI8", Function(322)),
    ("pack4xI8Clamp", Function(323)), ("pack4xU8", Function(324)), ("pack4xU8Clamp", Function(325)),
    ("pow", Function(299)), ("private", AddressSpace(1)), ("ptr", Pointer), ("quadBroadcast", Function(2310)),
    ("quadSwapDiagonal", Function(2313)), ("quadSwapX", Function(2311)), ("quadSwapY", Function(2312)),
    ("quantizeToF16", Function(300)), ("r16float", TexelFormat(9)), ("r16sint", TexelFormat(8)),
    ("r16snorm", TexelFormat(6)), ("r16uint", TexelFormat(7)), ("r16unorm", TexelFormat(5)),
    ("r32float", TexelFormat(16)), ("r32sint", TexelFormat(15)), ("r32uint", TexelFormat(14)),
    ("r8sint", TexelFormat(4)), ("r8snorm", TexelFormat(2)), ("r8uint", TexelFormat(3)),
    ("r8unorm", TexelFormat(1)), ("radians", Function(301)), ("read", Access(1)), ("read_write", Access(3)),
    ("reflect", Function(302)), ("refract", Function(303)), ("reverseBits", Function(304)),
    ("rg11b10ufloat", TexelFormat(29)), ("rg16float", TexelFormat(21)), ("rg16sint", TexelFormat(20)),
    ("rg16snorm", TexelFormat(18)), ("rg16uint", TexelFormat(19)), ("rg16unorm", TexelFormat(17)),
    ("rg32float", TexelFormat(32)), ("rg32sint", TexelFormat(31)), ("rg32uint", TexelFormat(30)),
    ("rg8sint", TexelFormat(13)), ("rg8snorm", TexelFormat(11)), ("rg8uint", TexelFormat(12)),
    ("rg8unorm", TexelFormat(10)), ("rgb10a2uint", TexelFormat(27)), ("rgb10a2unorm", TexelFormat(28)),
    ("rgba16float", TexelFormat(37)), ("rgba16sint", TexelFormat(36)), ("rgba16snorm", TexelFormat(34)),
    ("rgba16uint", TexelFormat(35)), ("rgba16unorm", TexelFormat(33)), ("rgba32float", TexelFormat(40)),
    ("rgba32sint", TexelFormat(39)), ("rgba32uint", TexelFormat(38)), ("rgba8sint", TexelFormat(25)),
    ("rgba8snorm", TexelFormat(23)), ("rgba8uint", TexelFormat(24)), ("rgba8unorm", TexelFormat(22)),
    ("round", Function(305)), ("sampler", Sampler(0)), ("sampler_comparison", Sampler(1)),
    ("saturate", Function(306)), ("select", Function(2560)), ("sign", Function(307)), ("sin", Function(308)),
    ("sinh", Function(309)), ("smoothstep", Function(310)), ("sqrt", Function(311)), ("step", Function(312)),
    ("storage", AddressSpace(4)), ("storageBarrier", Function(1792)), ("subgroupAdd", Function(2048)),
    ("subgroupAll", Function(2059)), ("subgroupAnd", Function(2056)), ("subgroupAny", Function(2060)),
    ("subgroupBallot", Function(2564)), ("subgroupBroadcast", Function(2304)),
    ("subgroupBroadcastFirst", Function(2305)), ("subgroupElect", Function(2565)),
    ("subgroupExclusiveAdd", Function(2049)), ("subgroupExclusiveMul", Function(2052)),
    ("subgroupInclusiveAdd", Function(2050)), ("subgroupInclusiveMul", Function(2053)),
    ("subgroupMax", Function(2054)), ("subgroupMin", Function(2055)), ("subgroupMul", Function(2051)),
    ("subgroupOr", Function(2057)), ("subgroupShuffle", Function(2306)), ("subgroupShuffleDown", Function(2307)),
    ("subgroupShuffleUp", Function(2308)), ("subgroupShuffleXor", Function(2309)), ("subgroupXor", Function(2058)),
    ("tan", Function(313)), ("tanh", Function(314)), ("textureBarrier", Function(1793)),
    ("textureDimensions", Function(1280)), ("textureGather", Function(1031)),
    ("textureGatherCompare", Function(1032)), ("textureLoad", Function(1281)), ("textureNumLayers", Function(1282)),
    ("textureNumLevels", Function(1283)), ("textureNumSamples", Function(1284)), ("textureSample", Function(1024)),
    ("textureSampleBaseClampToEdge", Function(1030)), ("textureSampleBias", Function(1025)),
    ("textureSampleCompare", Function(1026)), ("textureSampleCompareLevel", Function(1027)),
    ("textureSampleGrad", Function(1028)), ("textureSampleLevel", Function(1029)), ("textureStore", Function(1285)),
    ("texture_1d", Texture(1)), ("texture_2d", Texture(2)), ("texture_2d_array", Texture(3)),
    ("texture_3d", Texture(4)), ("texture_cube", Texture(5)), ("texture_cube_array", Texture(6)),
    ("texture_depth_2d", Texture(8)), ("texture_depth_2d_array", Texture(9)), ("texture_depth_cube", Texture(10)),
    ("texture_depth_cube_array", Texture(11)), ("texture_depth_multisampled_2d", Texture(12)),
    ("texture_external", Texture(13)), ("texture_multisampled_2d", Texture(7)), ("texture_storage_1d", Texture(14)),
    ("texture_storage_2d", Texture(15)), ("texture_storage_2d_array", Texture(16)),
    ("texture_storage_3d", Texture(17)), ("transpose", Function(315)), ("trunc", Function(316)), ("u32", Scalar(3)),
    ("uniform", AddressSpace(3)), ("unpack2x16float", Function(326)), ("unpack2x16snorm", Function(327)),
    ("unpack2x16unorm", Function(328)), ("unpack4x8snorm", Function(329)), ("unpack4x8unorm", Function(330)),
    ("unpack4xI8", Function(331)), ("unpack4xU8", Function(332)), ("vec2", Vector(2)), ("vec2f", Vector(66)),
    ("vec2h", Vector(82)), ("vec2i", Vector(34)), ("vec2u", Vector(50)), ("vec3", Vector(3)), ("vec3f", Vector(67)),
    ("vec3h", Vector(83)), ("vec3i", Vector(35)), ("vec3u", Vector(51)), ("vec4", Vector(4)), ("vec4f", Vector(68)),
    ("vec4h", Vector(84)), ("vec4i", Vector(36)), ("vec4u", Vector(52)), ("workgroup", AddressSpace(2)),
    ("workgroupBarrier", Function(1794)), ("workgroupUniformLoad", Function(2563)), ("write", Access(2)),
];

/// Returns what a name means in a scope where nothing hides its predeclared meaning. Takes time logarithmic in the number of
/// predeclared names.
pub fn read_predeclared(name: &str) -> Option<Predeclared>
    ensures { result ≡ meaning predeclared_rows name.now }
{
    find(&PREDECLARED, name)
}
