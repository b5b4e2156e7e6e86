//! The arguments of calls and templates, and what built-in functions make of theirs.
#![tactic(auto)]

pub mod arguments;
pub mod built_ins;
pub mod textures;
pub mod words;

pub use arguments::{conversion, handle_at, handles, known_size, math_number, operand_at};
pub use built_ins::{
    array_length, atomic, atomic_result, collective, derivative, gather, math_expression,
    relational, select,
};
pub use textures::{component_of, load, query, sample, store};
pub use words::{access_argument, argument, format_argument, space_arguments};
