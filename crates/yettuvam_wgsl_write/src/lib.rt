//! Writes a module as a text in WGSL.
//!
//! - `plans`: what is decided of functions before they are written: which values have names, and the names.
//! - `functions`: functions and entry points as pieces.
//! - `modules`: the text of a module.
#![tactic(auto)]

pub mod functions;
pub mod modules;
pub mod plans;

pub use modules::module_text;
