//! What is wrong with the attributes of a text, and where.
ghost use Rattle.std.specs.Prelude.{◌≡◌};
ghost use Rattle.yettuvam_wgsl_attribute_rules.specs.Refused as spec;

use crate::rules::Companion;
use std::alloc::{AllocError, AllocFailed};
use yettuvam_wgsl_words::token::Span;

/// What is wrong.
#[derive(Clone, Copy, Debug, PartialEq, Eq)]
pub enum Reason {
    /// WGSL has no attribute of this name.
    Unknown,
    /// The attribute doesn't belong to what it stands on.
    Misplaced,
    /// The attribute stands on one thing twice, first at the second span.
    Repeated,
    /// The attribute can't stand beside the one at the second span.
    Excluded,
    /// The number of arguments is wrong, or there are parentheses without arguments.
    Arguments,
    /// The attribute lacks what it needs beside it.
    Alone(Companion),
    /// `@must_use` of a function without a result.
    NoResult,
}

/// What is wrong with an attribute, the place of its name, and for some reasons a second place.
#[derive(Clone, Copy, Debug, PartialEq, Eq)]
pub struct Fault {
    pub reason: Reason,
    pub span: Span,
    pub first: Option<Span>,
}

/// A fault of the text, or out of memory.
#[derive(Clone, Copy, Debug)]
pub enum Refusal {
    Fault(Fault),
    Memory,
}

/// What a test returns.
pub type Tested = Result<(), Fault>;

impl From<Fault> for Refusal {
    ghost use Rattle.std.specs.Prelude.{◌≡◌};
    ghost use Rattle.yettuvam_wgsl_attribute_rules.specs.declared.refusal.Refusal.TheVariants as refusal_is;

    ghost from_gives = { λ fault refusal. refusal ≡ refusal_is.Fault fault };

    fn from(fault: Fault) -> Self {
        Refusal::Fault(fault)
    }
}

impl From<AllocError> for Refusal {
    ghost use Rattle.std.specs.Prelude.{◌≡◌};
    ghost use Rattle.yettuvam_wgsl_attribute_rules.specs.declared.refusal.Refusal.TheVariants.{Memory};

    ghost from_gives = { λ _ refusal. refusal ≡ Memory };

    fn from(_: AllocError) -> Self {
        Refusal::Memory
    }
}

impl<T: Drop> From<AllocFailed<T>> for Refusal {
    ghost use Rattle.std.specs.Prelude.{◌≡◌};
    ghost use Rattle.yettuvam_wgsl_attribute_rules.specs.declared.refusal.Refusal.TheVariants.{Memory};

    ghost from_gives = { λ _ refusal. refusal ≡ Memory };

    fn from(_: AllocFailed<T>) -> Self {
        Refusal::Memory
    }
}

/// Returns the fault at a span.
pub fn refused(reason: Reason, span: Span) -> Tested
    ensures { result ≡ spec.refused reason span }
{
    Err(Fault {
        reason,
        span,
        first: None,
    })
}

/// Returns the fault at a span that has to do with an earlier one.
pub fn refused_after(reason: Reason, span: Span, first: Span) -> Tested
    ensures { result ≡ spec.refused_after reason span first }
{
    Err(Fault {
        reason,
        span,
        first: Some(first),
    })
}
