//! Why a text has no tokens.

use crate::token::Span;
use std::alloc::{AllocError, AllocFailed};

/// What is wrong with a part of a text.
#[derive(Clone, Copy, Debug, PartialEq, Eq)]
pub enum Reason {
    /// No token begins with the character.
    UnknownCharacter,
    /// The digits, the exponent or the suffix of a number are none of WGSL's.
    BadNumber,
    /// A block comment has no end.
    OpenComment,
    /// WGSL reserves the word, so it can't be a name.
    ReservedWord,
    /// A name begins with two underscores.
    TwoUnderscores,
    /// The text has 2^32 bytes or more.
    TooLong,
}

/// The first thing that is wrong with a text, and its place.
#[derive(Clone, Copy, Debug, PartialEq, Eq)]
pub struct Fault {
    pub reason: Reason,
    pub span: Span,
}

/// A fault of the text, or out of memory.
#[derive(Clone, Copy, Debug)]
pub enum Refusal {
    Fault(Fault),
    Memory,
}

impl From<AllocError> for Refusal {
    ghost use Rattle.std.specs.Prelude.{◌≡◌};
    ghost use Rattle.yettuvam_wgsl_words.specs.declared.refusal.Refusal.TheVariants.{Memory};

    ghost from_gives = { λ _ refusal. refusal ≡ Memory };

    fn from(_: AllocError) -> Self {
        Refusal::Memory
    }
}

impl<T: Drop> From<AllocFailed<T>> for Refusal {
    ghost use Rattle.std.specs.Prelude.{◌≡◌};
    ghost use Rattle.yettuvam_wgsl_words.specs.declared.refusal.Refusal.TheVariants.{Memory};

    ghost from_gives = { λ _ refusal. refusal ≡ Memory };

    fn from(_: AllocFailed<T>) -> Self {
        Refusal::Memory
    }
}
