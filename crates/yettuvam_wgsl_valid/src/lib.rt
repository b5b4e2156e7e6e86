//! What WGSL forbids in a module beyond its grammar and its names, as far as the module's shape tells.
//!
//! - `calls`: the numbers of arguments.
//! - `flow`: missing `return`s, and where `break`, `continue` and `return` may stand.
//! - `interfaces`: the inputs and outputs of entry points.
//! - `bindings`: the bindings of variables.
//! - `valid`: the whole test.
#![tactic(auto)]

pub mod bindings;
pub mod calls;
pub mod flow;
pub mod interfaces;
pub mod valid;

pub use valid::validate;
pub use yettuvam_wgsl_valid_items::faults::{Fault, Invalid, Reason, valid_fault};
