//! What predeclared words mean where types, places and values are read.
#![tactic(auto)]

pub mod functions;
pub mod letters;
pub mod textures;
pub mod words;

pub use functions::{Function, built_in_function, takes};
pub use letters::{letter_number, swizzle_pattern};
pub use textures::{is_arrayed, is_depth, is_multisampled};
pub use words::{Generic, access, format, generic_word, plain_type, space, word_of};
