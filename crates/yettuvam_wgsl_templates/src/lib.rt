//! Which `<` and `>` of a text in WGSL are brackets of template arguments, and which are operators.
//!
//! - `finder`: the discovery of template lists.
//!
//! The only function takes time linear in the tokens.
#![tactic(auto)]

mod finder;

pub use finder::with_templates;
