//! What the lines of a body use.
//!
//! - `times`: how many times lines name each expression.
//! - `locals`: where each local variable is declared.
#![tactic(auto)]

pub mod locals;
pub mod times;

pub use locals::{Declared, locals_of};
pub use times::{Times, times_of};
