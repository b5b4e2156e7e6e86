//! The built-in functions. The code of a function is its class times `CLASS_SIZE`, plus its place in the class.
ghost use Rattle.std.specs.Prelude.{◌≡◌, ◌/◌, IsTrue, option_map};
ghost use Rattle.std.specs.Ordering.{nat_cmp};
ghost use Rattle.yettuvam_wgsl_names.specs.Table.{is_ordered_by};
ghost use Rattle.yettuvam_wgsl_names.specs.Functions.{function_rows, functions, signature_with, function_name};

use crate::table::find_code;

/// What the class of a function is multiplied by in its code.
pub const CLASS_SIZE: u64 = 256;

/// The class of mathematical functions of one to four arguments, and of `atomicLoad`.
pub const MATH: u64 = 1;

/// The class of `all` and `any`.
pub const RELATIONAL: u64 = 2;

/// The class of derivatives.
pub const DERIVATIVE: u64 = 3;

/// The class of functions that sample a texture.
pub const SAMPLING: u64 = 4;

/// The class of other functions of textures.
pub const TEXTURE: u64 = 5;

/// The class of atomic functions that write.
pub const ATOMIC: u64 = 6;

/// The class of barriers.
pub const BARRIER: u64 = 7;

/// The class of collective operations of subgroups.
pub const COLLECTIVE: u64 = 8;

/// The class of functions that read a value of another invocation of the subgroup.
pub const GATHER: u64 = 9;

/// The class of all other functions.
pub const OTHER: u64 = 10;

// ---- codes of single functions

/// The code of `abs`.
pub const ABS: u64 = 256;

/// The code of `clamp`.
pub const CLAMP: u64 = 265;

/// The code of `frexp`.
pub const FREXP: u64 = 287;

/// The code of `max`.
pub const MAX: u64 = 294;

/// The code of `min`.
pub const MIN: u64 = 295;

/// The code of `modf`.
pub const MODF: u64 = 297;

/// The code of `atomicLoad`.
pub const ATOMIC_LOAD: u64 = 333;

/// The code of `textureSample`.
pub const TEXTURE_SAMPLE: u64 = 1024;

/// The code of `textureSampleBias`.
pub const TEXTURE_SAMPLE_BIAS: u64 = 1025;

/// The code of `textureSampleCompare`.
pub const TEXTURE_SAMPLE_COMPARE: u64 = 1026;

/// The code of `textureSampleCompareLevel`.
pub const TEXTURE_SAMPLE_COMPARE_LEVEL: u64 = 1027;

/// The code of `textureSampleGrad`.
pub const TEXTURE_SAMPLE_GRAD: u64 = 1028;

/// The code of `textureSampleLevel`.
pub const TEXTURE_SAMPLE_LEVEL: u64 = 1029;

/// The code of `textureSampleBaseClampToEdge`.
pub const TEXTURE_SAMPLE_BASE_CLAMP_TO_EDGE: u64 = 1030;

/// The code of `textureGather`.
pub const TEXTURE_GATHER: u64 = 1031;

/// The code of `textureGatherCompare`.
pub const TEXTURE_GATHER_COMPARE: u64 = 1032;

/// The code of `textureDimensions`.
pub const TEXTURE_DIMENSIONS: u64 = 1280;

/// The code of `textureLoad`.
pub const TEXTURE_LOAD: u64 = 1281;

/// The code of `textureNumLayers`.
pub const TEXTURE_NUM_LAYERS: u64 = 1282;

/// The code of `textureNumLevels`.
pub const TEXTURE_NUM_LEVELS: u64 = 1283;

/// The code of `textureNumSamples`.
pub const TEXTURE_NUM_SAMPLES: u64 = 1284;

/// The code of `textureStore`.
pub const TEXTURE_STORE: u64 = 1285;

/// The code of `atomicStore`.
pub const ATOMIC_STORE: u64 = 1536;

/// The code of `atomicCompareExchangeWeak`.
pub const ATOMIC_COMPARE_EXCHANGE_WEAK: u64 = 1545;

/// The code of `select`.
pub const SELECT: u64 = 2560;

/// The code of `arrayLength`.
pub const ARRAY_LENGTH: u64 = 2561;

/// The code of `bitcast`.
pub const BITCAST: u64 = 2562;

/// The code of `workgroupUniformLoad`.
pub const WORKGROUP_UNIFORM_LOAD: u64 = 2563;

/// The code of `subgroupBallot`.
pub const SUBGROUP_BALLOT: u64 = 2564;

/// The code of `subgroupElect`.
pub const SUBGROUP_ELECT: u64 = 2565;

// ---- all functions

/// The name of a function, and its least and its greatest number of arguments.
pub type Signature = (&'static str, u64, u64);

/// A function's code with its name and its numbers of arguments.
pub type FunctionRow = (u64, Signature);

/// The built-in functions in the order of their codes.
#[rattlefmt::skip]
pub static FUNCTIONS: [FunctionRow; 146] = [
    // mathematical functions, and `atomicLoad`
    (256, ("abs", 1, 1)), (257, ("acos", 1, 1)), (258, ("acosh", 1, 1)), (259, ("asin", 1, 1)),
    (260, ("asinh", 1, 1)), (261, ("atan", 1, 1)), (262, ("atan2", 2, 2)), (263, ("atanh", 1, 1)),
    (264, ("ceil", 1, 1)), (265, ("clamp", 3, 3)), (266, ("cos", 1, 1)), (267, ("cosh", 1, 1)),
    (268, ("countLeadingZeros", 1, 1)), (269, ("countOneBits", 1, 1)), (270, ("countTrailingZeros", 1, 1)),
    (271, ("cross", 2, 2)), (272, ("degrees", 1, 1)), (273, ("determinant", 1, 1)), (274, ("distance", 2, 2)),
    (275, ("dot", 2, 2)), (276, ("dot4I8Packed", 2, 2)), (277, ("dot4U8Packed", 2, 2)), (278, ("exp", 1, 1)),
    (279, ("exp2", 1, 1)), (280, ("extractBits", 3, 3)), (281, ("faceForward", 3, 3)),
    (282, ("firstLeadingBit", 1, 1)), (283, ("firstTrailingBit", 1, 1)), (284, ("floor", 1, 1)),
    (285, ("fma", 3, 3)), (286, ("fract", 1, 1)), (287, ("frexp", 1, 1)), (288, ("insertBits", 4, 4)),
    (289, ("inverseSqrt", 1, 1)), (290, ("ldexp", 2, 2)), (291, ("length", 1, 1)), (292, ("log", 1, 1)),
    (293, ("log2", 1, 1)), (294, ("max", 2, 2)), (295, ("min", 2, 2)), (296, ("mix", 3, 3)), (297, ("modf", 1, 1)),
    (298, ("normalize", 1, 1)), (299, ("pow", 2, 2)), (300, ("quantizeToF16", 1, 1)), (301, ("radians", 1, 1)),
    (302, ("reflect", 2, 2)), (303, ("refract", 3, 3)), (304, ("reverseBits", 1, 1)), (305, ("round", 1, 1)),
    (306, ("saturate", 1, 1)), (307, ("sign", 1, 1)), (308, ("sin", 1, 1)), (309, ("sinh", 1, 1)),
    (310, ("smoothstep", 3, 3)), (311, ("sqrt", 1, 1)), (312, ("step", 2, 2)), (313, ("tan", 1, 1)),
    (314, ("tanh", 1, 1)), (315, ("transpose", 1, 1)), (316, ("trunc", 1, 1)), (317, ("pack2x16float", 1, 1)),
    (318, ("pack2x16snorm", 1, 1)), (319, ("pack2x16unorm", 1, 1)), (320, ("pack4x8snorm", 1, 1)),
    (321, ("pack4x8unorm", 1, 1)), (322, ("pack4xI8", 1, 1)), (323, ("pack4xI8Clamp", 1, 1)),
    (324, ("pack4xU8", 1, 1)), (325, ("pack4xU8Clamp", 1, 1)), (326, ("unpack2x16float", 1, 1)),
    (327, ("unpack2x16snorm", 1, 1)), (328, ("unpack2x16unorm", 1, 1)), (329, ("unpack4x8snorm", 1, 1)),
    (330, ("unpack4x8unorm", 1, 1)), (331, ("unpack4xI8", 1, 1)), (332, ("unpack4xU8", 1, 1)),
    (333, ("atomicLoad", 1, 1)),
    // functions of vectors of `bool`
    (512, ("all", 1, 1)), (513, ("any", 1, 1)),
    // derivatives
    (768, ("dpdx", 1, 1)), (769, ("dpdxCoarse", 1, 1)), (770, ("dpdxFine", 1, 1)), (771, ("dpdy", 1, 1)),
    (772, ("dpdyCoarse", 1, 1)), (773, ("dpdyFine", 1, 1)), (774, ("fwidth", 1, 1)), (775, ("fwidthCoarse", 1, 1)),
    (776, ("fwidthFine", 1, 1)),
    // functions that sample a texture
    (1024, ("textureSample", 3, 5)), (1025, ("textureSampleBias", 4, 6)), (1026, ("textureSampleCompare", 4, 6)),
    (1027, ("textureSampleCompareLevel", 4, 6)), (1028, ("textureSampleGrad", 5, 7)),
    (1029, ("textureSampleLevel", 4, 6)), (1030, ("textureSampleBaseClampToEdge", 3, 3)),
    (1031, ("textureGather", 3, 6)), (1032, ("textureGatherCompare", 4, 6)),
    // other functions of textures
    (1280, ("textureDimensions", 1, 2)), (1281, ("textureLoad", 2, 4)), (1282, ("textureNumLayers", 1, 1)),
    (1283, ("textureNumLevels", 1, 1)), (1284, ("textureNumSamples", 1, 1)), (1285, ("textureStore", 3, 4)),
    // atomic functions that write
    (1536, ("atomicStore", 2, 2)), (1537, ("atomicAdd", 2, 2)), (1538, ("atomicSub", 2, 2)),
    (1539, ("atomicMax", 2, 2)), (1540, ("atomicMin", 2, 2)), (1541, ("atomicAnd", 2, 2)),
    (1542, ("atomicOr", 2, 2)), (1543, ("atomicXor", 2, 2)), (1544, ("atomicExchange", 2, 2)),
    (1545, ("atomicCompareExchangeWeak", 3, 3)),
    // barriers
    (1792, ("storageBarrier", 0, 0)), (1793, ("textureBarrier", 0, 0)), (1794, ("workgroupBarrier", 0, 0)),
    // collective operations of subgroups
    (2048, ("subgroupAdd", 1, 1)), (2049, ("subgroupExclusiveAdd", 1, 1)), (2050, ("subgroupInclusiveAdd", 1, 1)),
    (2051, ("subgroupMul", 1, 1)), (2052, ("subgroupExclusiveMul", 1, 1)), (2053, ("subgroupInclusiveMul", 1, 1)),
    (2054, ("subgroupMax", 1, 1)), (2055, ("subgroupMin", 1, 1)), (2056, ("subgroupAnd", 1, 1)),
    (2057, ("subgroupOr", 1, 1)), (2058, ("subgroupXor", 1, 1)), (2059, ("subgroupAll", 1, 1)),
    (2060, ("subgroupAny", 1, 1)),
    // functions that read a value of another invocation
    (2304, ("subgroupBroadcast", 2, 2)), (2305, ("subgroupBroadcastFirst", 1, 1)),
    (2306, ("subgroupShuffle", 2, 2)), (2307, ("subgroupShuffleDown", 2, 2)), (2308, ("subgroupShuffleUp", 2, 2)),
    (2309, ("subgroupShuffleXor", 2, 2)), (2310, ("quadBroadcast", 2, 2)), (2311, ("quadSwapX", 1, 1)),
    (2312, ("quadSwapY", 1, 1)), (2313, ("quadSwapDiagonal", 1, 1)),
    // other functions
    (2560, ("select", 3, 3)), (2561, ("arrayLength", 1, 1)), (2562, ("bitcast", 1, 1)),
    (2563, ("workgroupUniformLoad", 1, 1)), (2564, ("subgroupBallot", 1, 1)), (2565, ("subgroupElect", 0, 0)),
];

/// Returns the signature of the row with a code.
fn signature_with(table: &[FunctionRow], code: u64) -> Option<Signature>
    requires { IsTrue (is_ordered_by nat_cmp table.now) }
    ensures { let seen = option_map (λ s. (s.0.now, s.1, s.2)) result in
        seen ≡ signature_with (function_rows table.now) code }
{
    find_code(table, code)
}

/// Returns the class of the function with a code.
pub fn class_of(code: u64) -> u64
    ensures { result ≡ code / CLASS_SIZE }
{
    code / CLASS_SIZE
}

/// Returns the name and the numbers of arguments of the function with a code. Takes time logarithmic in the number of functions.
fn signature(code: u64) -> Option<Signature>
    ensures { option_map (λ s. (s.0.now, s.1, s.2)) result ≡ signature_with functions code }
{
    signature_with(&FUNCTIONS, code)
}

/// Returns the name of the function with a code.
pub fn function_name(code: u64) -> Option<&'static str>
    ensures { option_map (λ n. n.now) result ≡ function_name code }
{
    let signature = signature(code)?;
    Some(signature.0)
}

/// Returns the least and the greatest number of arguments of the function with a code.
pub fn argument_counts(code: u64) -> Option<(u64, u64)>
    ensures { result ≡ option_map (λ s. (s.1, s.2)) (signature_with functions code) }
{
    let signature = signature(code)?;
    Some((signature.1, signature.2))
}
