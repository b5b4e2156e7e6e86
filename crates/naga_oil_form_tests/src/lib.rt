//! Tests of the crates of the intermediate form and of copies: `ir`, `derive`, and of redirected calls `redirect` and `order`.
//!
//! The tests are in a crate of their own, since the check of a crate with tests proves that crate twice.
#![tactic(auto)]

#[cfg(test)]
mod derive;
#[cfg(test)]
mod ir;
#[cfg(test)]
mod order;
#[cfg(test)]
mod redirect;
