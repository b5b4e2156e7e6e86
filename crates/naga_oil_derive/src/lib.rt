//! Copies items and functions from one module into another.
//!
//! `derive` has the module that is built, `DerivedModule`. `copy` copies an item after the items that it names, each source
//! item once; `maps` records the handles of the copies; `special` lists special types. `localized` copies a function with its
//! expressions in the order of its walk; `import` copies it after the functions that it calls. `laws` and `function_laws`
//! state what holds of every copy.
#![tactic(auto)]

pub mod copy;
pub mod derive;
pub mod function_laws;
pub mod import;
pub mod laws;
pub mod localized;
pub mod maps;
pub mod special;

pub use copy::Copying;
pub use derive::DerivedModule;
use import::{FunctionNames, Functions, known_as};
use indexmap::IndexMap;
pub use localized::no_body;
use localized::{localized, localized_stub};
pub use maps::Maps;
use maps::{nowhere, place_of, stands_at};
use naga_oil_ir::*;
use naga_oil_rename::{
    Name, Renaming, copied_name, renamed_block, renamed_constant, renamed_expression,
    renamed_global, renamed_option, renamed_override, renamed_type,
};
use naga_oil_walk::{Bounds, Request, Walk, is_stub, walk_function};
use naga_oil_words::AllocResult;
use special::{SpecialEntry, keep_special, set_specials, special_entries};
use std::alloc::{AllocError, Global};
use std::marker::Model;
use std::mem;
