//! The tokens of a text in WGSL: names, numbers, keywords and signs, each with its text and the place of its bytes.
//! Blanks and comments are left out.
//!
//! - `token`: what a token is; the signs of the language.
//! - `keywords`: keywords, and the words that WGSL reserves.
//! - `class`: which bytes and characters belong to blanks, numbers and names.
//! - `number`: the end of a number.
//! - `cut`: the token at the front of a text.
//! - `scan`: the tokens of a whole text.
//! - `refusal`: why a text has no tokens.
//!
//! Every function takes time linear in the text.
#![tactic(auto)]

pub mod class;
pub mod cut;
pub mod keywords;
pub mod number;
pub mod refusal;
mod scan;
pub mod token;

pub use scan::{same_kind, tokens};
