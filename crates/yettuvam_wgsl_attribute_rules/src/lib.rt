//! Tests the attributes of a text in WGSL: where each stands, how often, what stands beside it, and how many arguments it has.
//!
//! - `words`: the attributes of WGSL by their names.
//! - `rules`: what WGSL says of each attribute.
//! - `marks`: the attributes before one thing.
//! - `testing`: tests the attributes in the nodes of a text.
//! - `refusal`: what is wrong, and where.
//! - `fault`: what is wrong as a front end reports it.
#![tactic(auto)]

pub mod fault;
pub mod marks;
pub mod refusal;
pub mod rules;
pub mod testing;
pub mod words;

pub use fault::attribute_fault;
pub use refusal::{Fault, Reason, Refusal};
pub use testing::test_attributes;
