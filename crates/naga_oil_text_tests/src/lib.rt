//! Tests of the crates that read and write texts: `lines`, `marks` and `pre`, with a module for each module of the crate tested.
//!
//! The tests are in a crate of their own, since the check of a crate with tests proves that crate twice.
#![tactic(auto)]

#[cfg(test)]
mod lines;
#[cfg(test)]
mod marks;
#[cfg(test)]
mod pre;
