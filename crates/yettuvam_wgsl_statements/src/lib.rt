//! The parts of statements that are written without knowing the rest of a body.
//!
//! - `selectors`: the selectors of a switch.
//! - `simple`: the statements without blocks, read from the tokens of a body.
#![tactic(auto)]

pub mod selectors;
pub mod simple;

pub use selectors::push_selector;
pub use simple::{Simple, simple_at};
