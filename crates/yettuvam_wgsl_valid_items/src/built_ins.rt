//! The built-in values, and which stages have them.
ghost use Rattle.std.specs.Prelude.{◌≡◌};
ghost use Rattle.yettuvam_wgsl_valid_items.specs.BuiltIns as spec;

use yettuvam_wgsl_names::form_codes::{COMPUTE, FRAGMENT, VERTEX};

// The codes of the built-in values.
pub const VERTEX_INDEX: u64 = 1;

pub const INSTANCE_INDEX: u64 = 2;

pub const CLIP_DISTANCES: u64 = 3;

pub const POSITION: u64 = 4;

pub const FRONT_FACING: u64 = 5;

pub const FRAG_DEPTH: u64 = 6;

pub const PRIMITIVE_INDEX: u64 = 7;

pub const SAMPLE_INDEX: u64 = 8;

pub const SAMPLE_MASK: u64 = 9;

pub const LOCAL_INVOCATION_ID: u64 = 10;

pub const LOCAL_INVOCATION_INDEX: u64 = 11;

pub const GLOBAL_INVOCATION_ID: u64 = 12;

pub const GLOBAL_INVOCATION_INDEX: u64 = 13;

pub const WORKGROUP_ID: u64 = 14;

pub const WORKGROUP_INDEX: u64 = 15;

pub const NUM_WORKGROUPS: u64 = 16;

pub const SUBGROUP_INVOCATION_ID: u64 = 17;

pub const SUBGROUP_SIZE: u64 = 18;

pub const SUBGROUP_ID: u64 = 19;

pub const NUM_SUBGROUPS: u64 = 20;

/// Returns whether entry points of a stage have a built-in value as an input.
pub fn is_input_value(stage: u64, value: u64) -> bool
    ensures { result ≡ spec.is_input_value stage value }
{
    match stage {
        VERTEX => is_vertex_input(value),
        FRAGMENT => is_fragment_input(value),
        COMPUTE => is_compute_input(value),
        _ => false,
    }
}

fn is_vertex_input(value: u64) -> bool
    ensures { result ≡ spec.is_vertex_input value }
{
    value == VERTEX_INDEX || value == INSTANCE_INDEX
}

fn is_fragment_input(value: u64) -> bool
    ensures { result ≡ spec.is_fragment_input value }
{
    value == POSITION
        || value == FRONT_FACING
        || value == PRIMITIVE_INDEX
        || value == SAMPLE_INDEX
        || value == SAMPLE_MASK
        || value == SUBGROUP_INVOCATION_ID
        || value == SUBGROUP_SIZE
}

// Compute shaders have all values that number invocations, workgroups and subgroups.
fn is_compute_input(value: u64) -> bool
    ensures { result ≡ spec.is_compute_input value }
{
    LOCAL_INVOCATION_ID <= value && value <= NUM_SUBGROUPS
}

/// Returns whether entry points of a stage have a built-in value as an output.
pub fn is_output_value(stage: u64, value: u64) -> bool
    ensures { result ≡ spec.is_output_value stage value }
{
    match stage {
        VERTEX => value == POSITION || value == CLIP_DISTANCES,
        FRAGMENT => value == FRAG_DEPTH || value == SAMPLE_MASK,
        _ => false,
    }
}
