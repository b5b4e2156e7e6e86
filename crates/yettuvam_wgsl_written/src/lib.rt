//! Expressions and attributes of a WGSL text as pieces.
//!
//! - `refusal`: why a module can't be written.
//! - `codes`: what the codes of the intermediate form are called.
//! - `operators`: operators and how strongly they bind.
//! - `written`: written expressions and the parentheses that they need.
//! - `attributes`: attributes, and the codes of bindings.
#![tactic(auto)]

pub mod attributes;
pub mod codes;
pub mod operators;
pub mod refusal;
pub mod written;

pub use operators::Level;
pub use refusal::{Refusal, WriteResult};
pub use written::{Role, Written};
