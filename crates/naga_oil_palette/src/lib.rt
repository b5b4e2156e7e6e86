//! Palette, about the smallest front end that modules can be composed over: a language of colours, one a line. Palette shows
//! what a front end needs, and is no part of the composer.
//!
//! - `backend`: the front end as a `Backend`.
//! - `reader`: the module of a text.
//! - `writer`: the text of a module.
#![tactic(auto)]

mod backend;
mod reader;
mod writer;

pub use backend::Palette;
