//! Tests of makes over the language Mini: what is `composing` one shader, `chains` of functions that override one, faults that are
//! `pointing` at modules, and `keeping` builds, also of many modules. `library` is the README's example.
//!
//! The tests are in a crate of their own, since the check of a crate with tests proves that crate twice.
#![tactic(auto)]

#[cfg(test)]
mod chains;
#[cfg(test)]
mod composing;
#[cfg(test)]
mod keeping;
#[cfg(test)]
mod keeping_many;
#[cfg(test)]
mod library;
#[cfg(test)]
mod pointing;
