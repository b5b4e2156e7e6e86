//! Laws over the linker, without handles.
//!
//! - `copies`: what is copied into builds, and what is linked of builds.
//! - `parsed`: a parsed module that passes the test of form is of good form.
#![tactic(auto)]

pub mod copies;
pub mod parsed;
