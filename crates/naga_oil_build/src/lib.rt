//! Builds of shader modules, each over the builds of what it imports.
//!
//! - `settings`: the front end and the settings of builds.
//! - `builder`: a build, step by step, from a text to the module that the build holds.
//! - `virtuals`: functions that may be overridden, and those that override them.
//! - `hold`: what a build holds of the module that its whole text is parsed to.
//! - `writeback`: whether names survive when a header is written and parsed again.
//! - `laws`: what the names of overriding functions say, and that no function overrides two.
#![tactic(auto)]

pub mod builder;
mod hold;
pub mod laws;
mod settings;
mod virtuals;
mod writeback;

pub use builder::{Builder, Unbuilt};
use indexmap::IndexMap;
use naga_oil_form::{FormFault, FormResult};
use naga_oil_ir::{
    Arena, Backend, BackendRefusal, Capabilities, Constant, Function, GlobalVariable, Module,
    SPAN_SHIFT, ShaderLanguage, Span, StructMember, Type, TypeInner, UniqueArena,
};
use naga_oil_lines::decorate::{decode, decorated_name};
use naga_oil_link::link::link_header;
use naga_oil_link::reads::{
    empty_build, header_of, index_of, note_functions, offset_of, set_offset,
};
use naga_oil_link::{Build, Builds, Overrides, OwnItems, PlaceSet};
use naga_oil_pre::{ComposerErrorInner as Inner, PreprocessOutput, Preprocessor};
use naga_oil_registry::{Defs, Import, InnerResult, Marked, Registered};
use naga_oil_words::{
    AllocResult, DECORATION_OVERRIDE_PRE, DECORATION_POST, DECORATION_PRE, NameSet,
};
pub use settings::Settings;
use std::alloc::Global;
use std::collections::BTreeMap;
