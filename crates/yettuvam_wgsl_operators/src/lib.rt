//! The steps of literals, operators, short circuits, members and elements.
#![tactic(auto)]

pub mod circuits;
pub mod members;
pub mod operators;

pub use circuits::{AND, OR, circuit, circuit_end};
pub use members::{address_of, dereference, index, member};
pub use operators::{binary, give_computed, literal, note_effect, number, unary};
