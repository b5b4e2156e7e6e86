//! Errors of a composer: what is wrong, and in which text.
ghost use Rattle.std.specs.Prelude.{◌≡◌, MatchOption, Some, None, IfOk, string_bytes};
ghost use Rattle.std.specs.Cow.{cow_str_bytes};
ghost use Rattle.naga_oil_conditions.specs.View.{fault_of};
ghost use Rattle.naga_oil_registry.specs.Registered.{defs_of};
ghost use Rattle.naga_oil.specs.Refused.{refused_of, place_of, nowhere, in_text, in_module, TellsAt};
ghost use Rattle.naga_oil_registry.specs.Report.{report};
ghost use Rattle.naga_oil.specs.Sources.{path_of, text_of, offset_of};

use super::report::report;
use super::*;
pub use naga_oil_pre::ComposerErrorInner;
use std::borrow::CowStr;
use thiserror::Error;

/// A result of a composer, or an error with its place.
pub type ComposerResult<T = ()> = Result<T, ComposerError>;

/// The text that the offsets of an error count in.
#[derive(Debug, Drop)]
pub enum ErrSource {
    /// The text of a registered module under these definitions.
    Module {
        name: String,
        offset: usize,
        defs: Defs,
    },
    /// The text of a call.
    Constructing {
        path: String,
        source: String,
        offset: usize,
    },
}

impl ErrSource {
    /// Returns what reports call the text: its file path, or the name of a module that is no longer
    /// registered.
    pub fn path<'a, B: Backend>(&'a self, composer: &'a Composer<B>) -> &'a str
        ensures { result.now ≡ path_of composer.now.registry self.now }
    {
        match self {
            ErrSource::Constructing { path, .. } => path.as_str(),
            ErrSource::Module { name, .. } => match composer.module(name.as_str()) {
                Some(definition) => definition.file_path.as_str(),
                None => name.as_str(),
            },
        }
    }

    /// Returns the text. For a module that is its text after preprocessing under the definitions,
    /// or the empty text if preprocessing fails or the module is no longer registered.
    pub fn source<'a, B: Backend>(&'a self, composer: &'a Composer<B>) -> AllocResult<CowStr<'a>>
        ensures { let told = text_of composer.now.registry self.now in
            IfOk result (λ text. cow_str_bytes text ≡ told) }
    {
        let (name, defs) = match self {
            ErrSource::Constructing { source, .. } => return Ok(CowStr::Borrowed(source.as_str())),
            ErrSource::Module { name, defs, .. } => (name, defs),
        };
        let Some(definition) = composer.module(name.as_str()) else {
            return Ok(CowStr::Borrowed(""));
        };
        let source = definition.sanitized_source.as_str();
        match Preprocessor.preprocess(composer.alloc(), source, defs) {
            Ok(output) => Ok(CowStr::Owned(output.preprocessed_source)),
            Err(inner) if inner.is_memory() => Err(AllocError),
            Err(_) => Ok(CowStr::Borrowed("")),
        }
    }

    /// Returns the offset of the text among all that spans count over, in bytes.
    pub fn offset(&self) -> usize
        ensures { result ≡ offset_of self.now }
    {
        match self {
            ErrSource::Constructing { offset, .. } | ErrSource::Module { offset, .. } => *offset,
        }
    }
}

/// An error of a composer: what is wrong, and in which text.
#[derive(Debug, Drop, Error)]
#[error("Composer error: {inner}")]
pub struct ComposerError {
    pub inner: ComposerErrorInner,
    pub source: ErrSource,
}

impl ComposerError {
    /// Returns the report of the error, with its places in the text.
    pub fn emit_to_string<B: Backend>(&self, composer: &Composer<B>) -> AllocResult<String>
        ensures { let registry = composer.now.registry in
            let at = self.now.source in
            let told = report (path_of registry at) (text_of registry at) (offset_of at) in
            IfOk result (λ t. string_bytes t ≡ told (fault_of self.now.inner)) }
    {
        let text = self.source.source(composer)?;
        let path = self.source.path(composer);
        let offset = self.source.offset();
        report(composer.alloc(), path, &text, offset, &self.inner)
    }
}

/// Why an imported module can't be built.
#[derive(Debug, Drop)]
pub enum EnsureImportsError {
    /// The module with this name can't be imported there.
    MissingImport(String),
    ComposerError(ComposerError),
}

impl From<ComposerError> for EnsureImportsError {
    ghost use Rattle.std.specs.Prelude.{◌≡◌};
    ghost use Rattle.naga_oil.specs.declared.compose.error.EnsureImportsError.TheVariants as imports;

    ghost from_gives = { λ error result. result ≡ imports.ComposerError error };

    fn from(error: ComposerError) -> EnsureImportsError {
        EnsureImportsError::ComposerError(error)
    }
}

// The place of an error in the text of a call.
fn constructing(alloc: Global, path: &str, source: &str, offset: usize) -> AllocResult<ErrSource>
    ensures { IfOk result (λ s. place_of s ≡ in_text path.now source.now offset) }
{
    Ok(ErrSource::Constructing {
        path: String::from_str(alloc, path)?,
        source: String::from_str(alloc, source)?,
        offset,
    })
}

/// Out of memory, an error that has no place.
pub(crate) fn memory(alloc: Global) -> ComposerError
    ensures told { refused_of result ≡ None }
    ensures place { place_of result.source ≡ nowhere }
{
    ComposerError {
        inner: Inner::Memory,
        source: ErrSource::Constructing {
            path: String::new(alloc),
            source: String::new(alloc),
            offset: 0,
        },
    }
}

/// An error in the text of a call; or out of memory, if there is none to report it.
pub(crate) fn refused(
    alloc: Global,
    inner: Inner,
    path: &str,
    source: &str,
    offset: usize,
) -> ComposerError
    ensures { TellsAt (in_text path.now source.now offset) inner result }
{
    if let Inner::Memory = inner {
        return memory(alloc);
    }
    match constructing(alloc, path, source, offset) {
        Ok(source) => ComposerError { inner, source },
        Err(_) => memory(alloc),
    }
}

/// An error in a registered module under definitions; or out of memory, if there is none to report
/// it.
pub(crate) fn refused_in(
    alloc: Global,
    inner: Inner,
    name: &str,
    offset: usize,
    defs: &Defs,
) -> ComposerError
    ensures { TellsAt (in_module name.now offset (defs_of defs.now)) inner result }
{
    if let Inner::Memory = inner {
        return memory(alloc);
    }
    match in_module(alloc, name, offset, defs) {
        Ok(source) => ComposerError { inner, source },
        Err(_) => memory(alloc),
    }
}

// The place of an error in the text of a registered module.
fn in_module(alloc: Global, name: &str, offset: usize, defs: &Defs) -> AllocResult<ErrSource>
    ensures { IfOk result (λ s. place_of s ≡ in_module name.now offset (defs_of defs.now)) }
{
    Ok(ErrSource::Module {
        name: String::from_str(alloc, name)?,
        offset,
        defs: defs.clone()?,
    })
}
