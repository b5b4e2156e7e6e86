//! What holds of the names that are made for a module: they are free, and names that are free stay as they are.
#![tactic(auto)]

pub mod laws;
