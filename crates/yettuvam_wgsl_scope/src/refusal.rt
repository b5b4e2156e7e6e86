//! Why a module has no meaning.

ghost use Rattle.std.specs.Prelude.{◌≡◌};
ghost use Rattle.yettuvam_wgsl_scope.specs.Refused as spec;
ghost use Rattle.yettuvam_wgsl_scope.specs.declared.refusal.Refusal.TheVariants as told;

use std::alloc::{AllocError, AllocFailed};
use yettuvam_wgsl_words::token::Span;

/// What is wrong.
#[derive(Clone, Copy, Debug, PartialEq, Eq)]
pub enum Reason {
    /// No declaration has the name, and WGSL doesn't predeclare it.
    UnknownName,
    /// The scope has a declaration of the name, at the second span.
    DeclaredTwice,
    /// The item names itself, or an item that reaches it, at the second span.
    Cycle,
    /// A number is wanted that the compiler can compute.
    NoConstant,
    /// The number is too large for its kind.
    NoNumber,
    /// A value is wanted.
    NoValue,
    /// A function or a type is wanted, which can be called.
    NoFunction,
    /// A place in memory is wanted.
    NoReference,
    NoPointer,
    /// A type is wanted.
    NoType,
    /// The type has no such member.
    NoMember,
    /// The number of arguments is wrong.
    Arguments,
    /// An attribute, or an argument of one, that isn't known or doesn't fit here.
    Attribute,
    /// The type lacks its template arguments, or has the wrong ones.
    Template,
    /// A `const_assert` whose condition is false.
    Assertion,
    /// The language has this, the intermediate form doesn't.
    Unsupported,
    /// A node lacks what stands before it. No node of the grammar does.
    Broken,
}

/// What is wrong with a module, where, and for some reasons a second place.
#[derive(Clone, Copy, Debug, PartialEq, Eq)]
pub struct Fault {
    pub reason: Reason,
    pub span: Span,
    pub first: Option<Span>,
}

#[derive(Clone, Copy, Debug)]
pub enum Refusal {
    Fault(Fault),
    Memory,
}

impl From<AllocError> for Refusal {
    ghost use Rattle.std.specs.Prelude.{◌≡◌};
    ghost use Rattle.yettuvam_wgsl_scope.specs.declared.refusal.Refusal.TheVariants.{Memory};

    ghost from_gives = { λ _ refusal. refusal ≡ Memory };

    fn from(_: AllocError) -> Self {
        Refusal::Memory
    }
}

impl<T: Drop> From<AllocFailed<T>> for Refusal {
    ghost use Rattle.std.specs.Prelude.{◌≡◌};
    ghost use Rattle.yettuvam_wgsl_scope.specs.declared.refusal.Refusal.TheVariants.{Memory};

    ghost from_gives = { λ _ refusal. refusal ≡ Memory };

    fn from(_: AllocFailed<T>) -> Self {
        Refusal::Memory
    }
}

/// The fault at a span.
pub fn refused(reason: Reason, span: Span) -> Refusal
    ensures { result ≡ told.Fault (spec.fault reason span) }
{
    Refusal::Fault(Fault {
        reason,
        span,
        first: None,
    })
}

/// The fault at a span that has to do with an earlier one.
pub fn refused_after(reason: Reason, span: Span, first: Span) -> Refusal
    ensures { result ≡ told.Fault (spec.fault_after reason span first) }
{
    Refusal::Fault(Fault {
        reason,
        span,
        first: Some(first),
    })
}
