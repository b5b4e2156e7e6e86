//! Literals, and integers that the front end computes.
#![tactic(auto)]

pub mod literal;
pub mod number;
pub mod operators;

pub use literal::{Literal, literal_of};
pub use number::{Kind, Number, converted, magnitude, selector_code};
pub use operators::{Outcome, binary_number, clamped, greatest, least, unary_number};
