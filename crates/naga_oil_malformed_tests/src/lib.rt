//! Tests of builds over `malformed`, a front end that returns malformed modules.
//!
//! The tests are in a crate of their own, since the check of a crate with tests proves that crate twice.
#![tactic(auto)]

#[cfg(test)]
mod malformed;
