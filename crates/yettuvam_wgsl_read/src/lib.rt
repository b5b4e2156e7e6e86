//! Reads a text in WGSL: its module, or why it has none.
//!
//! - `reading`: the stages, one after the other: tokens, nodes, attributes, scopes, module.
#![tactic(auto)]

pub mod reading;

pub use reading::parse;
