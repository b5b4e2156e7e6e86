//! The report of an error in a text: its message, the lines that it marks, and notes.
//!
//! ```text
//! error: no declaration of `ripple`
//!   --> water.wgsl:3:9
//!    |
//!  3 | let x = ripple(at);
//!    |         ^^^^^^
//!    = note: ..
//! ```
//!
//! - `layout`: the text of the report.
//! - `line`: the line that a mark stands in, and the parts of its text.
#![tactic(auto)]

mod layout;
mod line;

pub use layout::{Mark, report};
pub use line::text_before;
