//! Tests of the first stages of the front end for WGSL, from a text to nodes, on rows written by hand from WGSL's own
//! text.
//!
//! The tests are in a crate of their own, since the check of a crate with tests proves that crate twice.
#![tactic(auto)]

#[cfg(test)]
mod nodes;
#[cfg(test)]
mod rows;
#[cfg(test)]
mod templates;
#[cfg(test)]
mod words;
