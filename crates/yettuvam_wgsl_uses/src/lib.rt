//! How the expressions, results and local variables of a body are written: which expressions are `let`s, which are part of the
//! text that uses them, and which results are part of the next statement.
//!
//! - `facts`: what each expression is to these choices.
//! - `texts`: the last statement in which the text of each expression is evaluated.
//! - `order`: what must be evaluated before the statement that uses it, so that all is evaluated in the order of the lines.
//! - `choice`: the `let`s and the results that are part of the next statement.
//! - `compounds`: assignments by an operator.
//! - `uses`: all of it for a body.
#![tactic(auto)]

pub mod choice;
pub mod compounds;
pub mod facts;
pub mod marks;
pub mod order;
pub mod texts;
pub mod uses;

pub use uses::{Uses, uses_of};
