//! What a program does that builds a shader of files over any front end: its command line, its files, its streams and its status.
//!
//! - `program`: the program, by its words, a reader of files and two streams.
//! - `words`: the request of a command line.
//! - `definitions`: the definitions that the words give.
//! - `files`: the files that are read.
//! - `order`: the order in which the modules of files are added, or the report of why there is none.
//! - `make`: a shader that is built over the modules of files.
//! - `text`: its text, after the directives of its file.
//! - `refusal`: the errors, their messages and statuses.
//! - `streams`: writing to a stream.
//! - `help`: the help text and the version.
#![tactic(auto)]

mod definitions;
mod files;
mod help;
mod make;
mod order;
mod program;
mod refusal;
mod streams;
mod text;
mod words;

pub use help::{HELP, VERSION};
pub use program::build_program;
pub use refusal::Refusal;
pub use text::built_text;
pub use words::Request;
