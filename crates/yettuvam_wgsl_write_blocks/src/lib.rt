//! Statements with blocks as pieces: `if`, loops, `switch` and blocks.
//!
//! - `parts`: the statements of a text, and what they are to the statements around them.
//! - `branches`: blocks, and `if` with its `else`.
//! - `loops`: loops, of which some are written as `while` or `for`.
//! - `switches`: the arms of a `switch`.
//! - `blocks`: the blocks of a body that are open.
//!
//! The tokens of a body open and close blocks. A block that ends is a list of parts, of which the statement around the block is
//! made once all of its blocks have ended.
#![tactic(auto)]

pub mod blocks;
pub mod branches;
pub mod loops;
pub mod parts;
pub mod switches;

pub use blocks::Blocks;
pub use parts::{Part, PartKind, Pieces, push_parts, simple_part};
