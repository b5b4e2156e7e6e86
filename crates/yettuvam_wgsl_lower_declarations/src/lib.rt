//! The declarations `let`, `const` and `var` in functions: each takes the values before it, and names an expression or a variable.
#![tactic(auto)]

pub mod declarations;

pub use declarations::{declared_type, let_, local_const, local_var, variable_type};
