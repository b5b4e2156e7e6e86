//! The lines of a shader, one at a time: their kinds, the conditions that hold, the open arms, and
//! the values of `#` names. Also the errors of a text.
//!
//! - `source_lines`: the lines of a text with their covered lines.
//! - `line_kind`: what a covered line is.
//! - `condition`: evaluates conditions.
//! - `scope`: the open chains of conditions.
//! - `replace`: replaces the `#` names of a line by their values.
//! - `shader_def`: the values of definitions.
//! - `fault`: the errors of a text.
#![tactic(auto)]

pub mod condition;
pub mod fault;
pub mod line_kind;
pub mod replace;
pub mod scope;
pub mod shader_def;
pub mod source_lines;

pub use fault::ComposerErrorInner;
use line_kind::Condition;
use naga_oil_lines::comment_strip_iter::CommentReplaceExt;
use naga_oil_lines::text::{after_whitespace, split_first_char, text_before};
pub use shader_def::{ShaderDefValue, defined_value};
use std::alloc::{AllocError, Global};
use std::borrow::CowStr;
use std::collections::BTreeMap;
use std::str::Lines;
