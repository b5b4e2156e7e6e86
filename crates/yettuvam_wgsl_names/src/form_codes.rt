//! The codes of the intermediate form that no word of WGSL has: pseudo-types, marks, classes and kinds. A constant that ends
//! with `_UNIT` is what one part of a code is multiplied by.

// ---- components of types

/// A component that the text doesn't give. As a scalar type it is the pseudo-type of what has no written type.
pub const NOT_TOLD: u64 = 0;

/// The component `bool`.
pub const BOOL: u64 = 1;

/// The component `i32`.
pub const I32: u64 = 2;

/// The component `u32`.
pub const U32: u64 = 3;

/// The component `f32`.
pub const F32: u64 = 4;

/// The component `f16`.
pub const F16: u64 = 5;

/// The pseudo-type of the result of `modf`, with the members `fract` and `whole`.
pub const MODF_RESULT: u64 = 64;

/// The pseudo-type of the result of `frexp`, with the members `fract` and `exp`.
pub const FREXP_RESULT: u64 = 65;

/// The pseudo-type of the result of `atomicCompareExchangeWeak`, with the members `old_value` and `exchanged`.
pub const EXCHANGE_RESULT: u64 = 66;

/// The component of a vector type; the first part is the size.
pub const VECTOR_COMPONENT_UNIT: u64 = 16;

/// The rows of a matrix type; the first part is the number of columns.
pub const MATRIX_ROWS_UNIT: u64 = 16;

/// The component of a matrix type.
pub const MATRIX_COMPONENT_UNIT: u64 = 256;

/// The component or the texel format of a texture; the first part is the kind of texture.
pub const TEXTURE_ELEMENT_UNIT: u64 = 256;

/// The access mode of a texture.
pub const TEXTURE_ACCESS_UNIT: u64 = 65_536;

// ---- address spaces

/// The address space `function`.
pub const FUNCTION_SPACE: u64 = 0;

/// The address space `private`.
pub const PRIVATE_SPACE: u64 = 1;

/// The address space `workgroup`.
pub const WORKGROUP_SPACE: u64 = 2;

/// The address space `uniform`.
pub const UNIFORM_SPACE: u64 = 3;

/// The address space `storage`.
pub const STORAGE_SPACE: u64 = 4;

/// The address space of textures and samplers, which has no name.
pub const HANDLE_SPACE: u64 = 5;

/// The address space `immediate`.
pub const IMMEDIATE_SPACE: u64 = 6;

/// The access mode of an address space; 0 where none is written.
pub const SPACE_ACCESS_UNIT: u64 = 16;

/// The mark of a pointer type that stands for an alias of its base.
pub const ALIAS: u64 = 64;

/// The mark of a pointer type whose composition is a `let` with the base as its type.
pub const TYPED_LET: u64 = 65;

/// The mark of a pointer type whose composition is a local `const` with the base as its type.
pub const TYPED_CONST: u64 = 66;

/// The group of a resource; the first part is its binding.
pub const GROUP_UNIT: u64 = 4_294_967_296;

// ---- bindings of members, arguments and results

/// The class of a binding with neither `@builtin` nor `@location`.
pub const NO_CLASS: u64 = 0;

/// The class of a binding with `@builtin`.
pub const BUILT_IN: u64 = 1;

/// The class of a binding with `@location`.
pub const LOCATION: u64 = 2;

/// The built-in value of a binding.
pub const BUILT_IN_VALUE_UNIT: u64 = 256;

/// The type of interpolation of a binding; 0 where none is written.
pub const INTERPOLATION_UNIT: u64 = 65_536;

/// The sampling of a binding; 0 where none is written.
pub const SAMPLING_UNIT: u64 = 262_144;

/// `@invariant` of a binding.
pub const INVARIANT_UNIT: u64 = 2_097_152;

/// The number of `@blend_src` of a binding, plus 1.
pub const BLEND_SRC_UNIT: u64 = 4_194_304;

/// The power of two of `@align` of a binding, plus 1.
pub const ALIGN_UNIT: u64 = 16_777_216;

/// The location of a binding.
pub const LOCATION_UNIT: u64 = 4_294_967_296;

// ---- stages of entry points

/// The stage of `@vertex`.
pub const VERTEX: u64 = 0;

/// The stage of `@fragment`.
pub const FRAGMENT: u64 = 1;

/// The stage of `@compute`.
pub const COMPUTE: u64 = 2;

// ---- literals

/// The kind of `true` and `false`.
pub const BOOL_LITERAL: u64 = 0;

/// The kind of an integer without a suffix.
pub const INTEGER_LITERAL: u64 = 1;

/// The kind of an integer with the suffix `i`.
pub const I32_LITERAL: u64 = 2;

/// The kind of an integer with the suffix `u`.
pub const U32_LITERAL: u64 = 3;

/// The kind of a float without a suffix.
pub const FLOAT_LITERAL: u64 = 4;

/// The kind of a float with the suffix `f`.
pub const F32_LITERAL: u64 = 5;

/// The kind of a float with the suffix `h`.
pub const F16_LITERAL: u64 = 6;

/// Added to the kind of a number that is written in hexadecimal.
pub const HEXADECIMAL: u64 = 16;

/// The leading digit of a decimal significand of 20 digits, in the kind of a float.
pub const LEADING_DIGIT_UNIT: u64 = 256;

/// What a leading digit counts in the significand.
pub const LEADING_DIGIT_VALUE: u64 = 10_000_000_000_000_000_000;

/// The exponent in the kind of a float, with `EXPONENT_BIAS` added.
pub const EXPONENT_UNIT: u64 = 4_294_967_296;

/// What is added to the exponent of a float.
pub const EXPONENT_BIAS: u64 = 2_147_483_648;

// ---- expressions and statements

/// The conversion of `bitcast`.
pub const BITCAST_CONVERSION: u64 = 0;

/// The conversion that copies a value to a `let`.
pub const LET_COPY: u64 = 1;

/// The conversion that copies a value to a local `const`.
pub const CONST_COPY: u64 = 2;

/// The component of a `textureGather`, plus 1; the first part is the code of the function.
pub const COMPONENT_UNIT: u64 = 65_536;

/// Added to the index of a component of a vector that is written `r`, `g`, `b` or `a`.
pub const COLOUR_COMPONENT: u32 = 4;

/// Added to the pattern of a swizzle that is written by `r`, `g`, `b` and `a`.
pub const COLOUR_PATTERN: u64 = 256;

/// What one component of a swizzle is multiplied by for the next.
pub const PATTERN_UNIT: u64 = 4;

/// The class of a value of a `switch`; the first part is the value in 32 bits.
pub const SELECTOR_CLASS_UNIT: u64 = 4_294_967_296;

/// The class of `default`.
pub const DEFAULT_SELECTOR: u64 = 0;

/// The class of an integer without a type, from 0 on.
pub const INTEGER_SELECTOR: u64 = 1;

/// The class of an integer without a type, below 0.
pub const NEGATIVE_SELECTOR: u64 = 2;

/// The class of an `i32`.
pub const I32_SELECTOR: u64 = 3;

/// The class of a `u32`.
pub const U32_SELECTOR: u64 = 4;
