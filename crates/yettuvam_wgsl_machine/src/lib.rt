//! Reads tokens by a grammar that is a table. The result is a list of nodes, in which the operands of a node come before
//! it.
//!
//! - `symbol`: rules, forms of nodes, and what a row of a table is made of.
//! - `machine`: reads tokens by the rows of a table, in one loop.
//! - `refusal`: why tokens are refused.
//!
//! There is no recursion, so the depth of a text costs no stack. The limits of nesting are `MAX_BLOCKS` and
//! `MAX_POSTPONED`.
#![tactic(auto)]

pub mod machine;
pub mod refusal;
pub mod symbol;

pub use machine::{MAX_BLOCKS, MAX_POSTPONED, run};
