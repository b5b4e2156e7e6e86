//! The attributes of WGSL, as the intermediate form keeps them.
//!
//! - `words`: the attributes of names, and the codes of the words in them.
//! - `attributes`: the attributes before a declaration, and what each adds.
//! - `declared`: what attributes say of a member, a variable and an entry point.
#![tactic(auto)]

pub mod attributes;
pub mod declared;
pub mod words;

pub use attributes::{Attributes, Dimension, no_attributes};
pub use words::{Attribute, attribute_of};
