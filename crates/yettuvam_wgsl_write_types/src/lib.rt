//! How types are written where they are used.
//!
//! - `codes`: codes of pseudo-types, spaces and conversions.
//! - `texts`: what was written before.
//! - `plain`: scalars, vectors, matrices, textures.
//! - `types`: all types of a module.
#![tactic(auto)]

pub mod codes;
mod plain;
pub mod texts;
pub mod types;

pub use types::Known;
