//! Why a text is refused.

use crate::symbol::Rule;
use std::alloc::{AllocError, AllocFailed};
use yettuvam_wgsl_words::refusal;
use yettuvam_wgsl_words::token::{Kind, Span};

/// What is wrong at a token.
#[derive(Clone, Copy, Debug, PartialEq, Eq)]
pub enum Reason {
    /// A part of the text is no token.
    Words(refusal::Reason),
    /// The token should be of this kind.
    Wanted(Kind),
    /// No row of this rule begins with the token.
    Unexpected(Rule),
    /// More than `MAX_BLOCKS` blocks are open.
    DeepBlocks,
    /// More than `MAX_POSTPONED` parts of expressions and statements wait for their end.
    DeepParts,
    /// A table whose rules go round without taking a token. The grammar of WGSL has none.
    Endless,
}

/// The first thing that is wrong with a text, and its place.
#[derive(Clone, Copy, Debug, PartialEq, Eq)]
pub struct Fault {
    pub reason: Reason,
    pub span: Span,
}

/// A fault of the text, or out of memory.
#[derive(Clone, Copy, Debug)]
pub enum Refusal {
    Fault(Fault),
    Memory,
}

impl From<AllocError> for Refusal {
    ghost use Rattle.std.specs.Prelude.{◌≡◌};
    ghost use Rattle.yettuvam_wgsl_machine.specs.declared.refusal.Refusal.TheVariants.{Memory};

    ghost from_gives = { λ _ refusal. refusal ≡ Memory };

    fn from(_: AllocError) -> Self {
        Refusal::Memory
    }
}

impl<T: Drop> From<AllocFailed<T>> for Refusal {
    ghost use Rattle.std.specs.Prelude.{◌≡◌};
    ghost use Rattle.yettuvam_wgsl_machine.specs.declared.refusal.Refusal.TheVariants.{Memory};

    ghost from_gives = { λ _ refusal. refusal ≡ Memory };

    fn from(_: AllocFailed<T>) -> Self {
        Refusal::Memory
    }
}

impl From<refusal::Refusal> for Refusal {
    ghost use Rattle.std.specs.Prelude.{◌≡◌};
    ghost use Rattle.yettuvam_wgsl_machine.specs.Refused.{of_words};

    ghost from_gives = { λ refusal result. result ≡ of_words refusal };

    fn from(refusal: refusal::Refusal) -> Self {
        match refusal {
            refusal::Refusal::Fault(fault) => Refusal::Fault(Fault {
                reason: Reason::Words(fault.reason),
                span: fault.span,
            }),
            refusal::Refusal::Memory => Refusal::Memory,
        }
    }
}
