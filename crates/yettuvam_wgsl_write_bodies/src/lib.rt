//! The bodies of functions as pieces.
//!
//! - `setting`: what writing knows of a function.
//! - `stores`: how stores are written.
//! - `given`: what is known of a statement beyond its operands.
//! - `values`: how expressions are written, and the declarations of those that have names.
//! - `writer`: the tokens of a body, one after the other.
//! - `bodies`: a body before its first token, and the whole text.
#![tactic(auto)]

pub mod bodies;
pub mod given;
pub mod setting;
pub mod stores;
pub mod values;
pub mod writer;

pub use bodies::push_body;
