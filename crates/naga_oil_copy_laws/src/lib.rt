//! Copies of functions, defined without the handles of either module: one function is a copy of another if both read alike, items
//! by their trees and callees by their names. A copy of a copy is a copy, through any number of modules.
#![tactic(auto)]

pub mod laws;
