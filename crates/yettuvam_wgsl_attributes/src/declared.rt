//! What attributes say of a declaration.
ghost use Rattle.std.specs.Prelude.{◌≡◌, slice_get, Some};
ghost use Rattle.yettuvam_wgsl_attributes.specs.Declarations as spec;

use crate::attributes::{Attributes, Dimension};
use naga_oil_ir::{Expression, Handle, Index};
use yettuvam_wgsl_names::form_codes::{COMPUTE, GROUP_UNIT};

/// The code of a member, an argument or a result, if there is anything to say.
pub fn binding_code(attributes: Attributes) -> Option<u64>
    ensures { result ≡ spec.binding_code attributes }
{
    if attributes.code == 0 {
        None
    } else {
        Some(attributes.code)
    }
}

/// The code of the group and the binding of a variable, if it has both.
pub fn resource_code(attributes: Attributes) -> Option<u64>
    ensures { result ≡ spec.resource_code attributes }
{
    match (attributes.group, attributes.binding) {
        (Some(group), Some(binding)) => { Some(u64::from(group) * GROUP_UNIT + u64::from(binding)) }
        _ => None,
    }
}

/// The number of a dimension that is known: 1 if it is left out, 0 if a pipeline computes it.
pub fn known_dimension(dimension: Dimension) -> u32
    ensures { result ≡ spec.known_dimension dimension }
{
    match dimension {
        Dimension::Missing => 1,
        Dimension::Known(size) => size,
        Dimension::Computed(_) => 0,
    }
}

/// The expression of a dimension that a pipeline computes.
pub fn computed_dimension(dimension: Dimension) -> Option<Handle<Expression>>
    ensures { result ≡ spec.computed_dimension dimension }
{
    match dimension {
        Dimension::Computed(place) => Some(Index::new(place)),
        _ => None,
    }
}

/// The sizes of the workgroup of an entry point that are known; outside of `@compute` zeros.
pub fn sizes_of(attributes: Attributes, stage: u64) -> [u32; 3]
    ensures { result ≡ spec.sizes_of attributes stage }
{
    if stage == COMPUTE {
        [
            known_dimension(attributes.x),
            known_dimension(attributes.y),
            known_dimension(attributes.z),
        ]
    } else {
        [0, 0, 0]
    }
}

/// The sizes of a workgroup that a pipeline computes, if there is one.
pub fn computed_sizes(attributes: Attributes) -> Option<[Option<Handle<Expression>>; 3]>
    ensures { result ≡ spec.computed_sizes attributes }
{
    let x = computed_dimension(attributes.x);
    let y = computed_dimension(attributes.y);
    let z = computed_dimension(attributes.z);
    if x.is_none() && y.is_none() && z.is_none() {
        None
    } else {
        Some([x, y, z])
    }
}
