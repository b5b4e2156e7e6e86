//! The items of a text in WGSL, and its module.
//!
//! - `attributes`: attributes over the values that are their arguments.
//! - `acts`: what a node does among items, by its form.
//! - `items`: the items so far, and what items take of the values before them.
//! - `globals`: aliases, structs, constants, overrides and variables.
//! - `functions`: functions and entry points.
//! - `lowered`: the step of a node, items in their order, and the module.
#![tactic(auto)]

pub mod acts;
pub mod attributes;
pub mod functions;
pub mod globals;
pub mod items;
pub mod lowered;

pub use lowered::module_of;
