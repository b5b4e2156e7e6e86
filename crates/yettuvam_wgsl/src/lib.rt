//! WGSL as a front end: it reads, writes and tests modules in the language that WebGPU takes.
//!
//! - `backend`: `Wgsl`, a `Backend`.
#![tactic(auto)]

pub mod backend;

pub use backend::Wgsl;
