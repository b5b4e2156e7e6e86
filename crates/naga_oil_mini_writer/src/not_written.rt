// The errors of writing a module.
use std::alloc::{AllocError, AllocFailed};

/// Why a module has no text.
#[derive(Clone, Copy)]
pub enum NotWritten {
    /// The module is that of no text.
    NotInMini,
    Memory,
}

/// A result of writing.
pub type WriteResult<T> = Result<T, NotWritten>;

impl From<AllocError> for NotWritten {
    ghost use Rattle.std.specs.Prelude.{◌≡◌};
    ghost use Rattle.naga_oil_mini_writer.specs.declared.not_written.NotWritten.TheVariants.{Memory};

    ghost from_gives = { λ _ e. e ≡ Memory };

    fn from(_: AllocError) -> Self {
        NotWritten::Memory
    }
}

impl<T: Drop> From<AllocFailed<T>> for NotWritten {
    ghost use Rattle.std.specs.Prelude.{◌≡◌};
    ghost use Rattle.naga_oil_mini_writer.specs.declared.not_written.NotWritten.TheVariants.{Memory};

    ghost from_gives = { λ _ e. e ≡ Memory };

    fn from(_: AllocFailed<T>) -> Self {
        NotWritten::Memory
    }
}
