//! Preprocessing of a shader's text under definitions: the arms whose conditions hold, with values
//! for `#` names; lines and places are kept. One pass over the text, in time and memory linear in
//! what is read and written. `naga_oil_conditions` reads single lines.
//!
//! - `preprocess`: the pass itself.
//! - `directives`: removes the directives at the start of a text.
//! - `imports`: what imports declare, and what lines use of the declared modules.
//! - `defines`: the defines of a text.
//! - `metadata`: the metadata of a text, read before any build.
//! - `recorded`: the names on which a text's preprocessing may depend.
//! - `laws`: laws that hold for every text.
#![tactic(auto)]

mod defines;
mod directives;
mod imports;
pub mod laws;
mod metadata;
mod preprocess;
mod recorded;

pub use defines::set_definition;
use imports::{Imports, braces_after, declare};
use indexmap::IndexMap;
pub use metadata::{PreprocessorMetaData, get_preprocessor_data};
use naga_oil_conditions::line_kind::{Condition, LineKind};
use naga_oil_conditions::source_lines::{SourceLine, SourceLines};
pub use naga_oil_conditions::{ComposerErrorInner, ShaderDefValue, defined_value, line_kind};
use naga_oil_imports::import_definition::{ImportDefWithOffset, ImportDefinition};
use naga_oil_imports::substitute::{SubstituteFault, Substitution};
use naga_oil_lines::text::split_first_char;
use naga_oil_lines::wgsl_directives::WgslDirectives;
pub use preprocess::{PreprocessOutput, Preprocessor};
use std::alloc::{AllocError, Global};
use std::collections::{BTreeMap, BTreeSet};
use std::str::Lines;
