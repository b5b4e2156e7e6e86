//! The registry of shader modules: how modules are added, and how errors are reported.
//!
//! - `descriptor`: what callers pass, a module to add or a shader to build.
//! - `definition`: a registered module.
//! - `registry`: the registered modules, found by name.
//! - `adding`: from a module's text to its registration.
//! - `sanitize`: prepares a source: its marks, line ends and automatic bindings.
//! - `merge`: what a module inherits from its imports.
//! - `keywords`: the functions after a keyword, each of them `marked`, and edits of a text.
//! - `report`: reports of errors.
#![tactic(auto)]

pub mod adding;
pub mod definition;
pub mod descriptor;
pub mod keywords;
mod marked;
pub mod merge;
pub mod registry;
pub mod report;
pub mod sanitize;

pub use definition::{ComposableModuleDefinition, Defs, Import, InnerResult, Registered, Use};
pub use descriptor::{
    ComposableModuleDescriptor, NagaModuleDescriptor, OwnedShaderDefs, ShaderType,
};
pub use marked::Marked;
use naga_oil_imports::{ImportDefWithOffset, ImportDefinition};
use naga_oil_ir::{MAX_MODULES, RedirectError, ShaderLanguage, Span};
use naga_oil_lines::decorate::undecorate;
use naga_oil_lines::wgsl_directives::WgslDirectives;
use naga_oil_pre::{
    ComposerErrorInner as Inner, Preprocessor, PreprocessorMetaData, ShaderDefValue,
};
use naga_oil_words::{AllocResult, DECORATION_OVERRIDE_PRE, DECORATION_PRE, NameSet};
use std::alloc::{AllocError, Global};
use std::collections::{BTreeMap, BTreeSet};
