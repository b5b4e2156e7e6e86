//! The names that are written for the items of a module, and for what stands inside of its functions.
//!
//! - `spelled`: which texts have the form of a name.
//! - `taken`: the names that are taken, and free names.
//! - `items`: the names of a module's items.
//!
//! A name that is free stays as it is. Otherwise a number is added, so that no two names are the same, and none is a keyword, a
//! reserved word or a predeclared name.
#![tactic(auto)]

pub mod items;
pub mod spelled;
pub mod taken;

pub use items::{ItemNames, item_names, name_at};
pub use spelled::is_name;
pub use taken::Taken;
