//! Statements of WGSL: each takes the values before it, and makes statements of the intermediate form.
//!
//! - `names`: which expressions a `let` may name, and the copies that others are named by.
//! - `statements`: assignments, blocks, `if`, loops and what ends a function.
//! - `switches`: selectors and `switch`.
#![tactic(auto)]

pub mod names;
pub mod statements;
pub mod switches;
