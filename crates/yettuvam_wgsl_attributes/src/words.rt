//! Attributes by their names, and the words in them.
ghost use Rattle.std.specs.Prelude.{◌≡◌};
ghost use Rattle.yettuvam_wgsl_names.specs.Codes.{code_of};
ghost use Rattle.yettuvam_wgsl_names.specs.Context.{built_in_value_rows, interpolation_type_rows};
ghost use Rattle.yettuvam_wgsl_names.specs.Context.{sampling_rows};
ghost use Rattle.yettuvam_wgsl_attributes.specs.Words as spec;

use yettuvam_wgsl_names::codes::code_of;
use yettuvam_wgsl_names::context::{ATTRIBUTES, BUILT_IN_VALUES, INTERPOLATION_TYPES, SAMPLINGS};
use yettuvam_wgsl_names::form_codes::{COMPUTE, FRAGMENT, VERTEX};

/// An attribute.
#[derive(Clone, Copy, Debug, PartialEq, Eq)]
pub enum Attribute {
    Align,
    Binding,
    BlendSrc,
    BuiltIn,
    Group,
    Id,
    Interpolate,
    Invariant,
    Location,
    Size,
    /// A stage, by its code.
    Stage(u64),
    WorkgroupSize,
    /// An attribute that the intermediate form doesn't keep.
    Ignored,
}

/// The attribute of a code in the table of attributes.
fn attribute_with(code: u64) -> Attribute
    ensures { result ≡ spec.attribute_with code }
{
    match code {
        1 => Attribute::Align,
        2 => Attribute::Binding,
        3 => Attribute::BlendSrc,
        4 => Attribute::BuiltIn,
        5 => Attribute::Stage(COMPUTE),
        8 => Attribute::Stage(FRAGMENT),
        9 => Attribute::Group,
        10 => Attribute::Id,
        11 => Attribute::Interpolate,
        12 => Attribute::Invariant,
        13 => Attribute::Location,
        15 => Attribute::Size,
        16 => Attribute::Stage(VERTEX),
        17 => Attribute::WorkgroupSize,
        _ => Attribute::Ignored,
    }
}

/// Returns the attribute of a name, if WGSL has one.
pub fn attribute_of(name: &str) -> Option<Attribute>
    ensures { result ≡ spec.attribute_of name.now }
{
    Some(attribute_with(code_of(&ATTRIBUTES, name)?))
}

/// Returns the code of a built-in value, if there is one with the name.
pub fn built_in_value(name: &str) -> Option<u64>
    ensures { result ≡ code_of built_in_value_rows name.now }
{
    code_of(&BUILT_IN_VALUES, name)
}

/// Returns the code of a type of interpolation, if there is one with the name.
pub fn interpolation(name: &str) -> Option<u64>
    ensures { result ≡ code_of interpolation_type_rows name.now }
{
    code_of(&INTERPOLATION_TYPES, name)
}

/// Returns the code of a sampling, if there is one with the name.
pub fn sampling(name: &str) -> Option<u64>
    ensures { result ≡ code_of sampling_rows name.now }
{
    code_of(&SAMPLINGS, name)
}
