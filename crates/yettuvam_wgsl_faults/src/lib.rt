//! Faults of WGSL texts as a front end reports them: a message, places and notes.
//!
//! `tables` has what each kind of fault says, `notes` what helps where a slip is typical, and `fault` the whole.
#![tactic(auto)]

pub mod fault;
pub mod notes;
pub mod tables;

pub use fault::{meaning_fault, syntax_fault};
