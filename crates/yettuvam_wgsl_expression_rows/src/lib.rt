//! The grammar of WGSL: the rows of expressions. The other rows stand in `yettuvam_wgsl_grammar`.
//!
//! - `expressions`: the rows.
#![tactic(auto)]

pub mod expressions;
