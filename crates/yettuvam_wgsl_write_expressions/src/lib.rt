//! Expressions as pieces.
//!
//! - `context`: what writing knows of a module, and of where an expression stands.
//! - `operands`: operands and arguments.
//! - `shapes`: what is known of the types of values.
//! - `textures`: functions of textures.
//! - `values`: names, values of types and parts of values.
//! - `expressions`: operators, calls and conversions.
//! - `functions`: codes of single built-in functions.
#![tactic(auto)]

pub mod context;
pub mod expressions;
pub mod functions;
pub mod operands;
pub mod shapes;
pub mod textures;
mod values;

pub use context::{Context, Own, Scope};
pub use expressions::push_expression;
pub use shapes::{Shape, shape_of};
