// Why a module can't be written.
use naga_oil_ir::Span;
use std::alloc::{AllocError, AllocFailed};

/// Why a module can't be written.
#[derive(Clone, Copy, Debug)]
pub enum Refusal {
    /// WGSL can't say what has this span.
    NotInWgsl(Span),
    Memory,
}

/// A result of writing.
pub type WriteResult<T> = Result<T, Refusal>;

impl From<AllocError> for Refusal {
    ghost use Rattle.std.specs.Prelude.{◌≡◌};
    ghost use Rattle.yettuvam_wgsl_written.specs.declared.refusal.Refusal.TheVariants.{Memory};

    ghost from_gives = { λ _ refusal. refusal ≡ Memory };

    fn from(_: AllocError) -> Self {
        Refusal::Memory
    }
}

impl<T: Drop> From<AllocFailed<T>> for Refusal {
    ghost use Rattle.std.specs.Prelude.{◌≡◌};
    ghost use Rattle.yettuvam_wgsl_written.specs.declared.refusal.Refusal.TheVariants.{Memory};

    ghost from_gives = { λ _ refusal. refusal ≡ Memory };

    fn from(_: AllocFailed<T>) -> Self {
        Refusal::Memory
    }
}
