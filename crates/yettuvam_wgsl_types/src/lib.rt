//! The types of a module, each once, and their shapes.
//!
//! - `types`: makes types, and finds members and elements.
//! - `shape`: what is known of a value.
#![tactic(auto)]

pub mod shape;
pub mod types;

pub use shape::Shape;
pub use types::{
    EXCHANGE_RESULT, FREXP_RESULT, MODF_RESULT, Member, NOT_TOLD, PlainType, Types, no_types,
};
