//! Builds, what they own, and one module linked of several of them.
//!
//! - `module`: a build of a module; `reads`: what other stages read of a build, and set.
//! - `items`: the items of a parsed module; `own_items`: which of them are its own.
//! - `copied`: the module and the header that a build holds.
//! - `by_name`: the items of a module by their names.
//! - `link`: one module linked of builds, each after what it imports.
//! - `formed`: modules that pass the test of form.
#![tactic(auto)]

pub mod by_name;
pub mod copied;
pub mod formed;
pub mod items;
pub mod link;
pub mod module;
pub mod own_items;
pub mod reads;

pub use formed::{FormedModule, Header};
use indexmap::IndexMap;
pub use link::Builds;
pub use module::{Build, ComposableModule, Overrides};
use naga_oil_derive::DerivedModule;
use naga_oil_imports::ImportDefinition;
use naga_oil_ir::{
    Arena, Constant, EntryPoint, Function, FunctionArgument, FunctionResult, GlobalVariable,
    Handle, Index, Item, ItemPlace, Module, NamedExpressions, Override, SPAN_SHIFT, Span, Type,
};
use naga_oil_words::{AllocResult, NameSet, add_decoration, has_module_mark};
pub use own_items::OwnItems;
use std::alloc::Global;
use std::collections::{BTreeSet, btree_set};
use std::mem;
use std::sync::Arc;

/// An iterator over names, in byte order.
pub type NamesIter<'n> = btree_set::Iter<'n, String>;

/// Places in a list of items, in order.
pub type PlaceSet = BTreeSet<usize>;
