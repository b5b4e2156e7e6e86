//! A composer registers modules under their names, and makes shaders that import them.
//!
//! - `composer`: the composer with its public calls, over the registry (`naga_oil_registry`).
//! - `make`: makes one shader out of a text and the modules that it imports, step by step; each
//!   module is built (`naga_oil_build`) over the modules that it imports itself.
//! - `reach`: why a module can't be reached, and which imports are allowed.
//! - `shader`: reads a shader, and merges the definitions of what it imports.
//! - `store`: the builds that are kept between makes, and their keys.
//! - `chain`: redirects calls along the functions that override one.
//! - `error`: what is wrong, and in which text.
//! - `command`: runs commands on a composer, one after the other.
mod chain;
mod command;
mod composer;
pub mod error;
mod make;
mod reach;
mod shader;
mod store;

pub use command::{Command, Reply, run};
pub use composer::Composer;
pub use error::{ComposerError, ComposerErrorInner, ComposerResult, EnsureImportsError, ErrSource};
use indexmap::IndexMap;
use naga_oil_build::{Builder, Settings, Unbuilt};
pub use naga_oil_imports::{ImportDefWithOffset, ImportDefinition, parse_imports};
pub use naga_oil_ir::{
    Backend, BackendRefusal, Capabilities, ParseFault, ShaderLanguage, ValidFault, WriteFault,
    backend,
};
use naga_oil_ir::{EntryPoint, Module, SPAN_SHIFT};
pub use naga_oil_lines::decorate::{decode, decorated_name, undecorate};
pub use naga_oil_lines::wgsl_directives::{
    DiagnosticDirective, EnableDirective, RequiresDirective, WgslDirectives,
};
pub use naga_oil_lines::{comment_strip_iter, decorate, tokenizer, wgsl_directives};
pub use naga_oil_link::ComposableModule;
use naga_oil_link::{Build, Builds, Overrides};
pub use naga_oil_pre as preprocess;
pub use naga_oil_pre::{ShaderDefValue, get_preprocessor_data};
use naga_oil_pre::{
    ComposerErrorInner as Inner, PreprocessOutput, Preprocessor, PreprocessorMetaData,
};
pub use naga_oil_registry::{
    ComposableModuleDefinition, ComposableModuleDescriptor, NagaModuleDescriptor, OwnedShaderDefs,
    ShaderType, report,
};
use naga_oil_registry::{Defs, InnerResult, Registered, Use};
use naga_oil_words::{AllocResult, NameSet};
use std::alloc::{AllocError, AllocFailed, Global};
use std::mem;
use std::sync::Arc;
