//! What import lines declare, and the paths that the identifiers of a text stand for under these
//! declarations.
#![tactic(auto)]

pub mod declared_names;
pub mod import_definition;
pub mod parse_imports;
pub mod substitute;

pub use import_definition::{ImportDefWithOffset, ImportDefinition};
