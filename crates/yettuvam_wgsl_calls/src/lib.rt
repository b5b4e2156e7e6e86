//! The steps of calls: of the module's functions, of types and of built-in functions.
#![tactic(auto)]

pub mod built_ins;
pub mod calls;
pub mod constructors;
pub mod textures;

pub use calls::{call, call_end, call_statement};
