//! The expressions and items that a function reaches, in the order of copying.
//!
//! `walk` lists expressions and the items that they name, and notes the positions of emitted ranges in the list;
//! `function_walk` walks over a function.
#![tactic(auto)]

pub mod function_walk;
pub mod walk;

pub use function_walk::{is_stub, walk_function};
use naga_oil_form::form::{ExpressionParts, is_external, read};
use naga_oil_form::links::{is_marked, no_marks};
use naga_oil_ir::names::named_item;
use naga_oil_ir::*;
use naga_oil_words::AllocResult;
use std::alloc::Global;
use walk::note;
pub use walk::{Bounds, Request, Walk};
