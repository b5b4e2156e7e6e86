//! The tokens of a whole text.

ghost use Rattle.std.specs.Prelude.{◌≡◌, ◌<◌, ◌^◌, length, map};
ghost use Rattle.yettuvam_wgsl_words.specs.Scan as spec;
ghost use Rattle.yettuvam_wgsl_words.specs.Scan.{Gives, view};

use crate::class::before;
use crate::cut::{Piece, cut};
use crate::refusal::{Fault, Reason, Refusal};
use crate::token::{Kind, Span, Token};
use std::alloc::Global;

/// Whether two kinds are the same.
pub fn same_kind(a: Kind, b: Kind) -> bool
    ensures { result ≡ spec.same_kind a b }
{
    a == b
}

/// The place of a rest in a text of `total` bytes.
fn place(total: usize, rest: &[u8]) -> u32
    requires { total < 2 ^ 32 }
    ensures { result ≡ spec.place total rest.now }
{
    total.saturating_sub(rest.len()) as u32
}

fn span(total: usize, before: &[u8], after: &[u8]) -> Span
    requires { total < 2 ^ 32 }
    ensures { result ≡ spec.span total before.now after.now }
{
    Span {
        start: place(total, before),
        end: place(total, after),
    }
}

fn keep<'t>(
    found: &mut Vec<Token<'t>>,
    piece: Piece,
    span: Span,
    text: &'t [u8],
) -> Result<(), Refusal>
    ensures { Gives (λ _. view found.new.items) result (spec.keep (view found.old.items) piece span text.now) }
{
    match piece {
        Piece::Token(kind) => {
            found.push(Token { kind, span, text })?;
            Ok(())
        }
        Piece::Blank => Ok(()),
        Piece::Bad(reason) => Err(Refusal::Fault(Fault { reason, span })),
    }
}

/// Pushes the tokens of a text, and an `End` after them.
fn scan<'t>(alloc: Global, text: &'t [u8]) -> Result<Vec<Token<'t>>, Refusal>
    requires { length text.now < 2 ^ 32 }
    ensures { Gives (λ v. view v.items) result (spec.scan text.now) }
{
    let total = text.len();
    let mut found = Vec::new(alloc);
    let mut rest = text;
    for _turn in 0..total {
        let (piece, after) = cut(rest);
        keep(
            &mut found,
            piece,
            span(total, rest, after),
            before(rest, after),
        )?;
        rest = after;
    }
    keep(
        &mut found,
        Piece::Token(Kind::End),
        span(total, &[], &[]),
        &[],
    )?;
    Ok(found)
}

/// The tokens of a text, and an `End` after them. A fault has the place of the first part of the text that is no token.
#[tactic(auto, unfolding(crate::specs::Scan::tokens))]
pub fn tokens<'t>(alloc: Global, text: &'t str) -> Result<Vec<Token<'t>>, Refusal>
    ensures { Gives (λ v. view v.items) result (spec.tokens text.now) }
{
    if text.len() > u32::MAX as usize {
        return Err(Refusal::Fault(Fault {
            reason: Reason::TooLong,
            span: Span { start: 0, end: 0 },
        }));
    }
    scan(alloc, text.as_bytes())
}
