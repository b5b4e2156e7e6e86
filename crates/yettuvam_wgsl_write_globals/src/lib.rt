//! Global expressions as pieces, the shapes of expressions, and what writing knows of a module.
//!
//! - `globals`: the shapes of a list of expressions, and global expressions.
//! - `module_context`: the context of a module, before and after its global expressions are written.
#![tactic(auto)]

pub mod globals;
pub mod module_context;

pub use globals::{shapes_of, written_expression, written_globals};
pub use module_context::context_of;
