// The test of form of a body: the expressions that its statements may use, emit and give.
ghost use Rattle.std.specs.Prelude.{IfOk, ◌≡◌, ◌↔◌, ◌<◌, ℕ, List, IsTrue, length, slice_set, Some, None, true, false};
ghost use Rattle.naga_oil_form.specs.Links.{is_marked, AreMarks};
ghost use Rattle.naga_oil_form.specs.BodyForm.{known_by, MayBeEmitted, marks_after, places, made, is_result, IsFineOver, MayBeGivenOver, AreFineOver, MayStandOver};

use super::form::{ExpressionParts, callee_at, is_external, is_result};
use super::links::{are_below, are_earlier, is_marked, no_marks, reached_from};
use naga_oil_ir::{Expression, Range, Token};
use naga_oil_words::AllocResult;
use std::alloc::Global;

/// The facts about a function's expressions before its body is visited.
#[derive(Clone, Copy)]
struct Known<'a> {
    read: &'a ExpressionParts,
    /// Marks of the places that initialisers reach.
    started: &'a [bool],
}

fn is_known(of: &Known<'_>, done: &[bool], place: usize) -> bool
    ensures { result ≡ known_by of.now.read.now.kinds.items of.now.started.now done.now place }
{
    is_external(&of.read.kinds, place) || is_marked(of.started, place) || is_marked(done, place)
}

fn may_be_emitted(of: &Known<'_>, done: &[bool], operands: &[usize], place: usize) -> bool
    ensures { let kinds = of.now.read.now.kinds.items in
        IsTrue result ↔ MayBeEmitted kinds of.now.started.now done.now operands.now place }
{
    let all_known = operands.iter().all(|operand| is_known(of, done, *operand));
    !is_external(&of.read.kinds, place)
        & !is_result(&of.read.kinds, place)
        & !is_marked(done, place)
        & all_known
}

/// Returns whether a range may be emitted. Its places are marked up to the first that may not.
fn take_range(of: &Known<'_>, done: &mut Vec<bool>, range: Range<Expression>) -> bool
    requires { length done.old.items ≡ length of.now.read.now.links.items }
    ensures long { length done.new.items ≡ length done.old.items }
    ensures fine { let started = of.now.started.now in
        IsTrue result ↔ IsFineOver of.now.read.now started done.old.items (Token.Emitted range) }
    ensures done { IsTrue result → done.new.items ≡ marks_after done.old.items (places range) }
{
    if range.start() > range.end() || range.end() > of.read.links.len() {
        return false;
    }
    for place in range.start()..range.end() {
        if !may_be_emitted(of, done, of.read.links[place].as_slice(), place) {
            return false;
        }
        done[place] = true;
    }
    true
}

/// Returns whether a result may be given, by a call of a function or by another statement, and marks the result if so.
fn take_given(of: &Known<'_>, done: &mut Vec<bool>, by: Option<usize>, place: usize) -> bool
    requires { length done.old.items ≡ length of.now.read.now.links.items }
    ensures long { length done.new.items ≡ length done.old.items }
    ensures fine { IsTrue result ↔ MayBeGivenOver of.now.read.now done.old.items by place }
    ensures done { IsTrue result → done.new.items ≡ slice_set done.old.items place true }
{
    let given = is_result(&of.read.kinds, place) & (callee_at(&of.read.named, place) == Some(by));
    if place >= of.read.links.len() || !given || is_marked(done, place) {
        return false;
    }
    done[place] = true;
    true
}

/// Returns whether a part of a body may stand, and marks the places that it emits or gives if so.
fn take_token(of: &Known<'_>, done: &mut Vec<bool>, token: Token) -> bool
    requires { length done.old.items ≡ length of.now.read.now.links.items }
    ensures long { length done.new.items ≡ length done.old.items }
    ensures fine { let started = of.now.started.now in
        IsTrue result ↔ IsFineOver of.now.read.now started done.old.items token }
    ensures done { IsTrue result → done.new.items ≡ marks_after done.old.items (made token) }
{
    match token {
        Token::Use(h) => h.index() < of.read.links.len() && is_known(of, done, h.index()),
        Token::Give(h) => take_given(of, done, None, h.index()),
        Token::GiveCall(f, h) => take_given(of, done, Some(f.index()), h.index()),
        Token::Emitted(range) => take_range(of, done, range),
        _ => true,
    }
}

/// Returns whether no marked place is a result.
fn no_result_is_marked(kinds: &[u64], marks: &[bool]) -> bool
    ensures { IsTrue result ↔
        ((k : ℕ) → is_marked marks.now k ≡ true → is_result kinds.now k ≡ false) }
{
    let mut places = marks.iter().enumerate();
    places.all(|(place, mark)| !*mark || !is_result(kinds, place))
}

/// Returns whether the parts of a body may stand one after the other.
///
/// # Errors
/// If out of memory.
fn body_may_stand(of: &Known<'_>, tokens: &[Token], alloc: Global) -> AllocResult<bool>
    ensures { let started = of.now.started.now in
        IfOk result (λ b. (s : List ℕ) → AreMarks started s →
        (IsTrue b ↔ AreFineOver of.now.read.now s tokens.now)) }
{
    let mut done = no_marks(of.read.links.len(), alloc)?;
    for token in tokens {
        if !take_token(of, &mut done, *token) {
            return Ok(false);
        }
    }
    Ok(true)
}

/// Returns whether a function's expressions may stand with the initialisers of its local variables and the parts of its body.
///
/// # Errors
/// If out of memory.
pub fn may_stand(
    read: &ExpressionParts,
    inits: &[usize],
    tokens: &[Token],
    alloc: Global,
) -> AllocResult<bool>
    ensures { IfOk result (λ b. IsTrue b ↔ MayStandOver read.now inits.now tokens.now) }
{
    if !are_earlier(&read.links) || !are_below(inits, read.links.len()) {
        return Ok(false);
    }
    let started = &reached_from(&read.links, inits, alloc)?;
    let fine = body_may_stand(&Known { read, started }, tokens, alloc)?;
    Ok(fine & no_result_is_marked(&read.kinds, started))
}
