//! Facts about single expressions of a function that a WGSL text depends on.
//!
//! - `natures`: which expressions are constants, places in memory, or depend on the time of their evaluation.
//! - `operands`: the operands of an expression in the order of the text.
//! - `called`: the built-in function that an expression calls.
#![tactic(auto)]

pub mod called;
pub mod natures;
pub mod operands;

pub use called::{NO_FUNCTION, called_function};
pub use natures::{Nature, is_named, natures_of};
pub use operands::text_operands;
