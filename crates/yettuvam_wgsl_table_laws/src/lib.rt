//! Laws of the grammar of WGSL, found by computing on its table: the nodes of a module are balanced, and the turns of the
//! machine don't run out.
#![tactic(auto)]

pub mod laws;
