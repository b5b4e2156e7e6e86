//! The test of form: whether a module is well formed over its text.
//!
//! `check_form` is the test. `form_items` tests items, `form_names` names, `form_function` functions and `body` their bodies;
//! `links` lists the places that each place names. Each clause has a function of its own. The test takes time in proportion to
//! the size of the module. `laws` relates the test as a value to what is well formed.
#![tactic(auto)]

pub mod body;
pub mod check_form;
pub mod form;
pub mod form_function;
pub mod form_items;
pub mod form_names;
pub mod laws;
pub mod links;

pub use check_form::{FormFault, FormResult};
