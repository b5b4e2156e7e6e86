// The errors of a text.
use naga_oil_ir::{ParseFault, RedirectError, Span, ValidFault, WriteFault};
use std::alloc::{AllocError, AllocFailed};
use std::ops::Range;
use thiserror::Error;

/// An error in a text, in what imports the text, or in the module that a front end made of it.
/// Places are bytes from 0; unless stated otherwise, the place of a line's first byte.
#[derive(Debug, Drop, Error)]
#[rattlefmt::skip]
pub enum ComposerErrorInner {
    /// An import line that can't be read, or an identifier that stands for several paths, with its
    /// place.
    #[error("{0}")]
    ImportParseError(String, usize),
    /// An import of a module that is unknown or may not be imported there, with the place of its
    /// use.
    #[error("required import '{0}' not found")]
    ImportNotFound(String, usize),
    #[error("{}", .0.message)]
    WgslParseError(ParseFault),
    #[error("{}", .0.message)]
    GlslParseError(ParseFault),
    #[error("naga_oil bug, please file a report: failed to convert imported module IR back into WGSL for use with WGSL shaders: {}", .0.message)]
    WgslBackError(WriteFault),
    #[error("naga_oil bug, please file a report: failed to convert imported module IR back into GLSL for use with GLSL shaders: {}", .0.message)]
    GlslBackError(WriteFault),
    #[error("naga_oil bug, please file a report: composer failed to build a valid header: {}", .0.message)]
    HeaderValidationError(ValidFault),
    #[error("failed to build a valid final module: {}", .0.message)]
    ShaderValidationError(ValidFault),
    /// A chain of conditions is open at the end of the text, which is the place.
    #[error("Not enough '# endif' lines. Each if statement should be followed by an endif statement.")]
    NotEnoughEndIfs(usize),
    #[error("Too many '# endif' lines. Each endif should be preceded by an if statement.")]
    TooManyEndIfs(usize),
    #[error("'#else' without preceding condition.")]
    ElseWithoutCondition(usize),
    #[error("Unknown shader def operator: '{operator}'")]
    UnknownShaderDefOperator { pos: usize, operator: String },
    #[error("Unknown shader def: '{shader_def_name}'")]
    UnknownShaderDef { pos: usize, shader_def_name: String },
    /// A value that can't be read as the type of the definition that it is compared to.
    #[error("Invalid shader def comparison for '{shader_def_name}': expected {expected}, got {value}")]
    InvalidShaderDefComparisonValue { pos: usize, shader_def_name: String, expected: String, value: String },
    /// A name that imports define with several values.
    #[error("multiple inconsistent shader def values: '{def}'")]
    InconsistentShaderDefValue { def: String },
    #[error("Attempted to add a module with no #define_import_path")]
    NoModuleName,
    /// The byte range of a mark that only names in the composed shader may have.
    #[error("source contains internal decoration string, results probably won't be what you expect. if you have a legitimate reason to do this please file a report")]
    DecorationInSource(Range<usize>),
    #[error("naga oil only supports glsl 440 and 450")]
    GlslInvalidVersion(usize),
    /// Calls can't be redirected to the functions that override others. Out of memory is `Memory`.
    #[error("invalid override :{0}")]
    RedirectError(RedirectError),
    /// The item's name and its place.
    #[error("override is invalid as `{name}` is not virtual (this error can be disabled with feature 'override_any')")]
    OverrideNotVirtual { name: String, pos: usize },
    /// A name that a front end writes and reads back as another, and the place of its item.
    #[error("Composable module identifiers must not require substitution according to naga writeback rules: `{original}`")]
    InvalidIdentifier { original: String, at: Span },
    /// The value of a define is neither a number nor `true` nor `false`.
    #[error("Invalid value for `#define`d shader def {name}: {value}")]
    InvalidShaderDefDefinitionValue { name: String, value: String, pos: usize },
    /// A define in a text that may not have any.
    #[error("#define statements are only allowed at the start of the top-level shaders")]
    DefineInModule(usize),
    /// A directive that names no extensions or an unknown severity: the line without surrounding
    /// white space, and its index from 0.
    #[error("Invalid WGSL directive '{directive}' at line {position}: {reason}")]
    InvalidWgslDirective { directive: String, position: usize, reason: String },
    /// An allocation failed.
    #[error("out of memory")]
    Memory,
    /// No index is left for a module.
    #[error("too many modules")]
    TooManyModules,
    /// No number is left for a binding that requires one.
    #[error("no binding left")]
    BindingsExhausted,
    /// A text for a front end that is too large for its places to fit.
    #[error("shader text too large")]
    TextTooLarge,
    #[error("front end gave a module of wrong form")]
    WrongForm,
}

impl ComposerErrorInner {
    ghost use Rattle.std.specs.Prelude.{◌≡◌, is_none};
    ghost use Rattle.naga_oil_conditions.specs.View.{fault_of};

    /// Returns whether the error is out of memory.
    pub fn is_memory(&self) -> bool
        ensures { result ≡ is_none (fault_of self.now) }
    {
        matches!(self, ComposerErrorInner::Memory)
    }
}

impl From<AllocError> for ComposerErrorInner {
    ghost use Rattle.std.specs.Prelude.{◌≡◌};
    ghost use Rattle.naga_oil_conditions.specs.declared.fault.ComposerErrorInner.TheVariants.{Memory};

    ghost from_gives = { λ _ e. e ≡ Memory };

    fn from(_error: AllocError) -> ComposerErrorInner {
        ComposerErrorInner::Memory
    }
}

impl<T: Drop> From<AllocFailed<T>> for ComposerErrorInner {
    ghost use Rattle.std.specs.Prelude.{◌≡◌};
    ghost use Rattle.naga_oil_conditions.specs.declared.fault.ComposerErrorInner.TheVariants.{Memory};

    ghost from_gives = { λ _ e. e ≡ Memory };

    fn from(_error: AllocFailed<T>) -> ComposerErrorInner {
        ComposerErrorInner::Memory
    }
}

impl From<RedirectError> for ComposerErrorInner {
    ghost use Rattle.std.specs.Prelude.{◌≡◌};
    ghost use Rattle.naga_oil_conditions.specs.View.{redirect_error};

    ghost from_gives = { λ r e. e ≡ redirect_error r };

    fn from(error: RedirectError) -> ComposerErrorInner {
        match error {
            RedirectError::Memory => ComposerErrorInner::Memory,
            error => ComposerErrorInner::RedirectError(error),
        }
    }
}
