//! The writing side of Mini: the text of a module, one item a line.
//!
//! - `writer`: the text of a module.
//! - `not_written`: the errors.
//! - `body_reader`: a body as the symbols of a sum.
//! - `order`: the order of lines.
#![tactic(auto)]

mod body_reader;
mod not_written;
mod order;
mod writer;

pub use body_reader::{tokens_of, use_count};
pub use not_written::{NotWritten, WriteResult};
pub use writer::module_text;
