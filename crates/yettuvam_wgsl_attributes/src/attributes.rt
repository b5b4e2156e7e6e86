//! The attributes before a declaration, and what each adds to them.
ghost use Rattle.std.specs.Prelude.{◌≡◌};
ghost use Rattle.yettuvam_wgsl_attributes.specs.Attributes as spec;

use crate::words::Attribute;
use yettuvam_wgsl_names::form_codes::{
    ALIGN_UNIT, BLEND_SRC_UNIT, BUILT_IN, BUILT_IN_VALUE_UNIT, INTERPOLATION_UNIT, INVARIANT_UNIT,
    LOCATION, LOCATION_UNIT, SAMPLING_UNIT,
};

/// The size of a workgroup in one dimension.
#[derive(Clone, Copy, Debug, PartialEq, Eq)]
pub enum Dimension {
    Missing,
    Known(u32),
    /// The place of a global expression that a pipeline computes.
    Computed(usize),
}

/// The attributes before a declaration.
#[derive(Clone, Copy, Debug, PartialEq, Eq)]
pub struct Attributes {
    /// The stage of an entry point, by its code.
    pub stage: Option<u64>,
    pub group: Option<u32>,
    pub binding: Option<u32>,
    pub id: Option<u64>,
    /// The number of `@size`, 0 if there is none.
    pub size: u32,
    /// The code of a member, an argument or a result, 0 if there is nothing to say.
    pub code: u64,
    pub x: Dimension,
    pub y: Dimension,
    pub z: Dimension,
}

/// No attributes.
pub fn no_attributes() -> Attributes
    ensures { result ≡ spec.no_attributes }
{
    Attributes {
        stage: None,
        group: None,
        binding: None,
        id: None,
        size: 0,
        code: 0,
        x: Dimension::Missing,
        y: Dimension::Missing,
        z: Dimension::Missing,
    }
}

/// The bits of `@location(number)`.
pub fn location_bits(number: u32) -> u64
    ensures { result ≡ spec.location_bits number }
{
    u64::from(number) * LOCATION_UNIT + LOCATION
}

/// The bits of `@builtin(value)`, by the code of the value.
pub fn built_in_bits(code: u64) -> u64
    ensures { result ≡ spec.built_in_bits code }
{
    code.saturating_mul(BUILT_IN_VALUE_UNIT)
        .saturating_add(BUILT_IN)
}

/// The bits of `@interpolate(kind, sampling)`, by the codes of both; a sampling that is left out
/// has the code 0.
pub fn interpolation_bits(kind: u64, sampling: u64) -> u64
    ensures { result ≡ spec.interpolation_bits kind sampling }
{
    kind.saturating_mul(INTERPOLATION_UNIT)
        .saturating_add(sampling.saturating_mul(SAMPLING_UNIT))
}

/// The bits of `@align(number)`, if the number is a power of 2.
pub fn align_bits(number: u32) -> Option<u64>
    ensures { result ≡ spec.align_bits number }
{
    if number.count_ones() == 1 {
        Some(
            u64::from(number.trailing_zeros())
                .saturating_add(1)
                .saturating_mul(ALIGN_UNIT),
        )
    } else {
        None
    }
}

/// The bits of `@blend_src(number)`, if the number is 0 or 1.
pub fn blend_bits(number: u32) -> Option<u64>
    ensures { result ≡ spec.blend_bits number }
{
    if number <= 1 {
        Some((u64::from(number) + 1) * BLEND_SRC_UNIT)
    } else {
        None
    }
}

impl Attributes {
    /// These attributes with bits of their code besides.
    pub fn with_bits(self, bits: u64) -> Attributes
        ensures { result ≡ spec.with_bits bits self }
    {
        Attributes {
            code: self.code | bits,
            ..self
        }
    }

    /// These attributes with the bits, if there are any.
    fn with_some_bits(self, bits: Option<u64>) -> Option<Attributes>
        ensures { result ≡ spec.with_some_bits bits self }
    {
        match bits {
            Some(bits) => Some(self.with_bits(bits)),
            None => None,
        }
    }

    /// These attributes with `@invariant`.
    pub fn with_invariant(self) -> Attributes
        ensures { result ≡ spec.with_bits spec.invariant_bits self }
    {
        self.with_bits(INVARIANT_UNIT)
    }

    /// These attributes with a stage, by its code.
    pub fn with_stage(self, stage: u64) -> Attributes
        ensures { result ≡ spec.with_stage stage self }
    {
        Attributes {
            stage: Some(stage),
            ..self
        }
    }

    /// These attributes with the sizes of a workgroup.
    pub fn with_sizes(self, x: Dimension, y: Dimension, z: Dimension) -> Attributes
        ensures { result ≡ spec.with_sizes x y z self }
    {
        Attributes { x, y, z, ..self }
    }

    /// These attributes with one of a number; `None` if the number doesn't fit, and for an attribute
    /// that takes no number.
    pub fn with_number(self, attribute: Attribute, number: u32) -> Option<Attributes>
        ensures { result ≡ spec.with_number attribute number self }
    {
        match attribute {
            Attribute::Group => Some(Attributes {
                group: Some(number),
                ..self
            }),
            Attribute::Binding => Some(Attributes {
                binding: Some(number),
                ..self
            }),
            Attribute::Id => Some(Attributes {
                id: Some(u64::from(number)),
                ..self
            }),
            Attribute::Size => Some(Attributes {
                size: number,
                ..self
            }),
            Attribute::Location => Some(self.with_bits(location_bits(number))),
            Attribute::Align => self.with_some_bits(align_bits(number)),
            Attribute::BlendSrc => self.with_some_bits(blend_bits(number)),
            _ => None,
        }
    }
}
