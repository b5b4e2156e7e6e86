//! The attributes before one thing.
ghost use Rattle.std.specs.Prelude.{◌≡◌};
ghost use Rattle.yettuvam_wgsl_attribute_rules.specs.Marks as spec;

use crate::refusal::{Reason, Tested, refused, refused_after};
use crate::rules::{Companion, Place, belongs, companion_of, excludes, takes};
use crate::words::{Attribute, is_same};
use yettuvam_wgsl_words::token::Span;

/// An attribute of a text.
#[derive(Clone, Copy, Debug)]
pub struct Mark {
    pub attribute: Attribute,
    /// The place of its name.
    pub span: Span,
    /// Whether the last word in its arguments is `position`.
    pub is_position: bool,
}

/// Whether an attribute is one that another needs beside it.
fn is_companion(mark: Mark, companion: Companion) -> bool
    ensures { result ≡ spec.is_companion mark companion }
{
    match companion {
        Companion::Location => is_same(mark.attribute, Attribute::Location),
        Companion::Position => is_same(mark.attribute, Attribute::BuiltIn) && mark.is_position,
        Companion::WorkgroupSize => is_same(mark.attribute, Attribute::WorkgroupSize),
        Companion::Compute => is_same(mark.attribute, Attribute::Compute),
        Companion::Group => is_same(mark.attribute, Attribute::Group),
        Companion::Binding => is_same(mark.attribute, Attribute::Binding),
    }
}

fn has_companion(marks: &[Mark], companion: Companion) -> bool
    ensures { result ≡ spec.has_companion marks.now companion }
{
    let mut rest = marks;
    while let [mark, more @ ..] = rest {
        if is_companion(*mark, companion) {
            return true;
        }
        rest = more;
    }
    false
}

/// Returns the first attribute that can't stand beside another one.
pub fn rival(marks: &[Mark], attribute: Attribute) -> Option<Mark>
    ensures { result ≡ spec.rival marks.now attribute }
{
    let mut rest = marks;
    while let [mark, more @ ..] = rest {
        if excludes(mark.attribute, attribute) {
            return Some(*mark);
        }
        rest = more;
    }
    None
}

/// Tests that an attribute has a companion, if it needs one, among those that stand beside it.
fn test_companion(mark: Mark, marks: &[Mark]) -> Tested
    ensures { result ≡ spec.companion_ruled marks.now mark }
{
    match companion_of(mark.attribute) {
        None => Ok(()),
        Some(companion) if has_companion(marks, companion) => Ok(()),
        Some(companion) => refused(Reason::Alone(companion), mark.span),
    }
}

fn test_mark(mark: Mark, marks: &[Mark], place: Place) -> Tested
    ensures { result ≡ spec.mark_ruled place marks.now mark }
{
    if belongs(mark.attribute, place) {
        test_companion(mark, marks)
    } else {
        refused(Reason::Misplaced, mark.span)
    }
}

/// Tests all attributes that stand on one thing.
///
/// # Errors
/// `Misplaced` or `Alone` for the first one that breaks a rule.
#[tactic(auto, unfolding(crate::specs::Marks::ruled))]
pub fn test_marks(marks: &[Mark], place: Place) -> Tested
    ensures { result ≡ spec.ruled place marks.now }
{
    let mut rest = marks;
    while let [mark, more @ ..] = rest {
        test_mark(*mark, marks, place)?;
        rest = more;
    }
    Ok(())
}

fn rival_reason(earlier: Attribute, attribute: Attribute) -> Reason
    ensures { result ≡ spec.rival_reason earlier attribute }
{
    if is_same(earlier, attribute) {
        Reason::Repeated
    } else {
        Reason::Excluded
    }
}

/// Tests that an attribute can stand beside earlier ones.
///
/// # Errors
/// `Repeated` or `Excluded`, with the place of the earlier one.
pub fn test_rival(marks: &[Mark], mark: Mark) -> Tested
    ensures { result ≡ spec.rival_ruled marks.now mark }
{
    match rival(marks, mark.attribute) {
        None => Ok(()),
        Some(earlier) => refused_after(
            rival_reason(earlier.attribute, mark.attribute),
            mark.span,
            earlier.span,
        ),
    }
}

/// Whether parentheses without arguments follow a name: the attribute ends at another place than its name.
fn has_empty_parentheses(mark: Mark, count: usize, end: Span) -> bool
    ensures { result ≡ spec.has_empty_parentheses mark count end }
{
    count == 0 && end.start != mark.span.start
}

/// Tests the number of arguments of an attribute that ends at a place.
///
/// # Errors
/// `Arguments` if the number is wrong, or for parentheses without arguments.
pub fn test_arguments(mark: Mark, count: usize, end: Span) -> Tested
    ensures { result ≡ spec.arguments_ruled mark count end }
{
    if !takes(mark.attribute, count) || has_empty_parentheses(mark, count, end) {
        return refused(Reason::Arguments, mark.span);
    }
    Ok(())
}
