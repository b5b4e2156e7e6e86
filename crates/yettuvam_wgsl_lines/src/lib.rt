//! The body of a function as a list of lines: statements without the blocks in them, emitted expressions, and the conditions
//! that end loops.
//!
//! - `parts`: the operands, the result and the built-in function of a statement.
//! - `line`: a line, and what it is to the lines around it.
//! - `reader`: reads a body.
//! - `groups`: groups of lines, each of which is one statement of the text.
#![tactic(auto)]

pub mod groups;
pub mod line;
pub mod parts;
pub mod reader;

pub use groups::groups_of;
pub use line::{BREAK_IF, EMIT, Line, START, STORE, is_emitted};
pub use parts::made_by;
pub use reader::{Body, lines_of};
