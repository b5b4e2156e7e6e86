//! Projects in memory, over a front end that counts its parses: the costs of builds, as counts.
//!
//! - `counting`: the front end Mini, which counts its parses.
//! - `tree`: the texts of modules that import one another as a tree.
//! - `project`: such modules in a composer, and shaders that are built from them.
#![tactic(auto)]

mod counting;
mod project;
mod tree;

pub use counting::Counting;
pub use project::{Cost, Project, Refusal};
pub use tree::Tree;
