//! What needs a name in the text of a function, in the order of the text, and the built-in functions that it calls.
//!
//! - `calls`: the last group of lines in which each built-in function is called, up to which no local may have its name.
//! - `requests`: the local variables and values that lines declare.
#![tactic(auto)]

pub mod calls;
pub mod requests;

pub use calls::{Calls, calls_of};
pub use requests::{Request, Subject, line_requests, top_requests};
