//! Statements without blocks as pieces, and what declares locals and values.
//!
//! - `declarations`: locals and values.
//! - `assignments`: stores to places.
//! - `calls`: calls, with what becomes of their results.
//! - `simple`: all statements without blocks.
//!
//! What depends on the rest of a body, as the name of a result, is given with a statement.
#![tactic(auto)]

pub mod assignments;
pub mod calls;
pub mod declarations;
pub mod simple;

pub use assignments::is_nowhere;
pub use declarations::{ValueHead, is_zero_of, push_local, push_value_declaration};
pub use simple::{Given, Store, operands_of, push_simple, result_of};
