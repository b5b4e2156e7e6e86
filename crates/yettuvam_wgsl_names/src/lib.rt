//! The words of WGSL: keywords, reserved words, predeclared names and names in attributes, each with its code and back.
//!
//! `table` finds a name or a code in a table that is ordered by it, and `codes` in a short table. `words` has keywords and
//! reserved words. `names` has the predeclared names of types, functions and enumerants, `spelled` their names by their
//! codes, `functions` the built-in functions with their numbers of arguments, `operators` the operators, and `context` the
//! names in attributes. `form_codes` has the codes that no word stands for. `laws` states that spelling and reading are
//! inverse.
#![tactic(auto)]

pub mod codes;
pub mod context;
pub mod form_codes;
pub mod functions;
pub mod laws;
pub mod names;
pub mod operators;
pub mod spelled;
pub mod table;
pub mod words;

pub use functions::{argument_counts, class_of, function_name};
pub use names::{Predeclared, read_predeclared};
pub use words::{Word, keyword, read_word};
