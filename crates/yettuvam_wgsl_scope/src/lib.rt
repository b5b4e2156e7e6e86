//! Which declaration each name of a module means, and an order of its items in which each stands after those that it names.
//!
//! - `items`: the items of a module, and their names.
//! - `locals`: the declarations of a function in scope, by their names.
//! - `names`: what names mean, with blocks and shadowing.
//! - `order`: sorts items.
//! - `scope`: all of it.
//! - `refusal`: why a module has no meaning.
#![tactic(auto)]

pub mod items;
pub mod locals;
pub mod names;
pub mod order;
pub mod refusal;
pub mod scope;

pub use items::{Item, Name};
pub use names::{Binding, Bound};
pub use refusal::{Fault, Reason, Refusal, refused, refused_after};
pub use scope::{Scopes, scoped};
