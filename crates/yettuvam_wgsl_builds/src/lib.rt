//! Shaders in WGSL that are built of files, and what a composer over WGSL returns.
//!
//! - `program`: the program over the front end WGSL.
//! - `laws`: the laws of makes over the front end WGSL.
#![tactic(auto)]

pub mod laws;
pub mod program;

pub use program::wgsl_program;
