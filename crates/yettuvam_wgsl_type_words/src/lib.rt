//! The steps of types and of lists of template arguments.
#![tactic(auto)]

pub mod templates;
pub mod types;

pub use templates::{pop_call, template, template_end};
pub use types::type_of;
