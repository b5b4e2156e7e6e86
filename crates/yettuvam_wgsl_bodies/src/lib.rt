//! What each node of a function's body and of an expression does.
//!
//! - `acts`: what a node does, by its form.
//! - `step`: the step of a node.
#![tactic(auto)]

pub mod acts;
pub mod step;
