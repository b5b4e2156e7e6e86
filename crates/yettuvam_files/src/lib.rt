//! The order in which files of modules are registered: each after those that it imports.
//!
//! - `rounds`: an order of items in which each stands after those that it uses, and cycles.
//! - `files`: what files say of themselves, and their order.
#![tactic(auto)]

pub mod files;
pub mod rounds;

pub use files::{Unsorted, sorted_files};
