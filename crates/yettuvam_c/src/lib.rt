//! Shader composition for programs in C and in Rust: a static library of three calls, which `include/yettuvam.h` declares.
//! A call reads and writes the caller's memory, so there is nothing to free, and keeps nothing.
//!
//! - `page`: the types that cross: texts, definitions, and the caller's page.
//! - `given`: the definitions of a caller.
//! - `sheet`: the fields of a result, one after the other, before they are written on a page.
//! - `parts`: the fields of a text, of its metadata or of an error.
//! - `build`: a shader that is built over the modules of files.
//! - `answer`: the results of the calls.
#![tactic(auto)]

ghost use Rattle.std.specs.Prelude.{◌≡◌, ◌≢◌, ◌≤◌, ◌⊎◌, Err};
ghost use Rattle.yettuvam_c.specs.Answer.{IsPreprocessed, IsMetadata, Replies, RepliesRoom, IsUnwritten};
ghost use Rattle.yettuvam_c.specs.Built.{HasNotText, IsBuilt};
ghost use Rattle.yettuvam_c.specs.Given.{defined_by, IsNotText, HasOther};
ghost use Rattle.naga_oil_pre.specs.Metadata.{none_defined};

mod answer;
mod build;
mod given;
mod page;
mod parts;
mod sheet;
#[cfg(test)]
mod tests;

use answer::{metadata, preprocessed, put};
use build::built;
use naga_oil_imports::ImportDefWithOffset;
use naga_oil_pre::{
    ComposerErrorInner as Inner, PreprocessOutput, Preprocessor, PreprocessorMetaData,
    ShaderDefValue,
};
use naga_oil_registry::report::report;
use page::{Define, Field, Page, Source, Task};
use sheet::{Part, Sheet};
use std::alloc::{AllocError, Global};
use std::collections::{BTreeMap, BTreeSet};

/// Preprocesses the text under the definitions. The page gets the text and its imports, or an error.
#[unsafe(no_mangle)]
pub extern "C" fn yettuvam_preprocess(
    alloc: Global,
    source: &Source<'_>,
    definitions: &[Define<'_>],
    page: &mut Page<'_>,
) -> u32
    ensures known { result ≤ 5 }
    ensures reply { let wanted = IsPreprocessed source.now definitions.now in
        result ≤ 1 → Replies wanted result page.old page.new }
    ensures not_utf8 { result ≡ 3 → IsNotText source.now ⊎ HasOther definitions.now }
    ensures bad { result ≡ 4 → defined_by 0 none_defined definitions.now ≡ Err page.new.count }
    ensures no_room { let wanted = IsPreprocessed source.now definitions.now in
        result ≡ 5 → RepliesRoom wanted page.old page.new }
    ensures unwritten { 2 ≤ result → IsUnwritten page.old page.new }
{
    put(preprocessed(alloc, source, definitions), page)
}

/// Reads the text's metadata, with or without defines allowed. The page gets the metadata, or an error.
#[unsafe(no_mangle)]
pub extern "C" fn yettuvam_metadata(
    alloc: Global,
    source: &Source<'_>,
    allow_defines: bool,
    page: &mut Page<'_>,
) -> u32
    ensures known { result ≤ 5 }
    ensures reply { let wanted = IsMetadata source.now allow_defines in
        result ≤ 1 → Replies wanted result page.old page.new }
    ensures not_utf8 { result ≡ 3 → IsNotText source.now }
    ensures good { result ≢ 4 }
    ensures no_room { let wanted = IsMetadata source.now allow_defines in
        result ≡ 5 → RepliesRoom wanted page.old page.new }
    ensures unwritten { 2 ≤ result → IsUnwritten page.old page.new }
{
    put(metadata(alloc, source, allow_defines), page)
}

/// Builds the shader of a task over its modules, in WGSL. The page gets the text, or an error.
#[unsafe(no_mangle)]
pub extern "C" fn yettuvam_build(alloc: Global, task: &Task<'_>, page: &mut Page<'_>) -> u32
    ensures known { result ≤ 5 }
    ensures reply { result ≤ 1 → Replies (IsBuilt task.now) result page.old page.new }
    ensures not_utf8 { result ≡ 3 → HasNotText task.now }
    ensures bad { let given = task.now.definitions.now in
        result ≡ 4 → defined_by 0 none_defined given ≡ Err page.new.count }
    ensures no_room { result ≡ 5 → RepliesRoom (IsBuilt task.now) page.old page.new }
    ensures unwritten { 2 ≤ result → IsUnwritten page.old page.new }
{
    put(built(alloc, task), page)
}
