//! The words of Mini: the symbols of a line, and names in the order of their lines.
//!
//! - `symbol`: the symbols of a line, and the errors of a line.
//! - `names`: names in order, looked up by a map.
#![tactic(auto)]

mod names;
mod symbol;

pub use names::NameTable;
pub use symbol::{GREATEST, Refusal, Symbol, is_name, read_symbols};
