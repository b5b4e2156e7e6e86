//! The lines of a shader's text with their comments covered, the tokens of a text, the names of
//! items, and directives as text.
#![tactic(auto)]

pub mod comment_strip_iter;
pub mod decorate;
pub mod text;
pub mod tokenizer;
pub mod wgsl_directives;
