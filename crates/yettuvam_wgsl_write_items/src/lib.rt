//! Items of modules as pieces: types with names, constants, overrides, global variables, and heads
//! of functions.
//!
//! - `items`: declarations.
//! - `structs`: the types that have names.
//! - `signatures`: functions and entry points up to their bodies.
//!
//! How types and expressions are written stands in crates of their own, whose modules are given
//! here again.
#![tactic(auto)]

pub mod items;
pub mod signatures;
pub mod structs;

pub use items::push_items;
pub use signatures::{push_entry_point_head, push_function_head};
pub use yettuvam_wgsl_write_expressions::{
    Context, Own, Scope, Shape, context, expressions, functions, push_expression, shape_of, shapes,
    textures,
};
pub use yettuvam_wgsl_write_types::{codes, types};
