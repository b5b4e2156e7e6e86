// Why calls can't be redirected, or functions can't be sorted.
use std::alloc::AllocError;
use thiserror::Error;

/// Why calls can't be redirected, or functions can't be sorted.
#[derive(Debug, Drop, Error)]
pub enum RedirectError {
    #[error("can't find function {0} for redirection")]
    FunctionNotFound(String),
    /// The replacement, and the function that it was to replace.
    #[error("{0} cannot override {1} due to argument mismatch")]
    ArgumentMismatch(String, String),
    /// The replacement, and the function that it was to replace.
    #[error("{0} cannot override {1} due to return type mismatch")]
    ReturnTypeMismatch(String, String),
    /// The names of the functions that call themselves or reach a function that does, joined by `, `.
    #[error("circular reference; can't find an order for : {0}")]
    CircularReference(String),
    /// Out of memory.
    #[error("out of memory")]
    Memory,
}

impl From<AllocError> for RedirectError {
    ghost use Rattle.std.specs.Prelude.{◌≡◌};
    ghost use Rattle.naga_oil_ir.specs.declared.redirect_error.RedirectError.TheVariants.{Memory};

    ghost from_gives = { λ _ e. e ≡ Memory };

    fn from(_error: AllocError) -> RedirectError {
        RedirectError::Memory
    }
}
