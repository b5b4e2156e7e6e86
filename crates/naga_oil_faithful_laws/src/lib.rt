//! Tests of the definition of a faithful module: a whole small make, and modules that it refuses.
#![tactic(auto)]

pub mod laws;
