//! The names of arguments, local variables and values of a function's text.
#![tactic(auto)]

pub mod names;

pub use names::{LocalNames, local_names};
