//! Laws of the front ends Mini and Palette: the modules that they read have the shape of a module.
#![tactic(auto)]

pub mod laws;
