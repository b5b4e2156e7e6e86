//! Laws of what a build holds and a link collects: the functions that are reached, each once, in the order of first reach.
//!
//! - `laws`: the laws.
#![tactic(auto)]

pub mod laws;
