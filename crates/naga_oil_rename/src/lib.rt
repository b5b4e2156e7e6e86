//! Copies of expressions, items and bodies with renamed handles.
//!
//! `renaming` is the trait that maps handles, ranges and spans, and copies expressions and bodies with renamed handles;
//! `renamed_items` copies items with renamed handles.
#![tactic(auto)]

pub mod renamed_items;
pub mod renaming;

use naga_oil_ir::*;
use naga_oil_words::AllocResult;
pub use renamed_items::{
    Name, copied_name, renamed_constant, renamed_global, renamed_override, renamed_type,
};
use renaming::rename_kind;
pub use renaming::{Renaming, renamed_block, renamed_expression, renamed_list, renamed_option};
use std::alloc::Global;
