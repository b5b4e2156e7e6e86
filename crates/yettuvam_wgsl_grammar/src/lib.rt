//! The grammar of WGSL, and the nodes of a module.
//!
//! - `items`, `statements`: the grammar, a table. Its rows of expressions stand in `yettuvam_wgsl_expression_rows`.
//! - `places`: where the rows of each rule begin.
//! - `module_`: the nodes of a text or of tokens.
#![tactic(auto)]

pub mod items;
mod module_;
pub mod places;
pub mod statements;

pub use module_::{nodes_of, parse};
