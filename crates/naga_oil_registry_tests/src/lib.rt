//! Tests of the registry of a composer over the language Mini: adding and removing modules, `faults`, and `reports`.
//!
//! The tests are in a crate of their own, since the check of a crate with tests proves that crate twice.
#![tactic(auto)]

#[cfg(test)]
mod faults;
#[cfg(test)]
mod registry;
#[cfg(test)]
mod reports;
