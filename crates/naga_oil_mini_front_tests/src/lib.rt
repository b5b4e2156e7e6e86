//! Tests of Mini, the front end: the texts that it reads and writes.
//!
//! The tests are in a crate of their own, since the check of a crate with tests proves that crate twice.
#![tactic(auto)]

#[cfg(test)]
mod mini;
