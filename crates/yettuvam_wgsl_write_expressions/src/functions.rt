//! Codes of single built-in functions.

pub use yettuvam_wgsl_names::function_name;
pub use yettuvam_wgsl_names::functions::{
    ATOMIC_LOAD, FREXP, MODF, SUBGROUP_BALLOT, SUBGROUP_ELECT, TEXTURE_DIMENSIONS, TEXTURE_LOAD,
    WORKGROUP_UNIFORM_LOAD,
};
