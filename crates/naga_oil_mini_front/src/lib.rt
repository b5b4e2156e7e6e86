//! The language Mini: a front end that reads, writes and validates modules of one item a line. Modules are written by
//! `naga_oil_mini_writer`.
//!
//! - `backend`: the front end as a `Backend`.
//! - `making`: the expressions and the body of a sum.
//! - `reader`: the module of a text.
//! - `valid`: whether each call has as many arguments as its callee has parameters.
#![tactic(auto)]

mod backend;
mod making;
mod reader;
mod valid;

pub use backend::Mini;
pub use naga_oil_mini_writer::{NotWritten, WriteResult, module_text};
