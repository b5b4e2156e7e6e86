// What each expression is to the choice of `let`s.
ghost use Rattle.std.specs.Prelude.{◌≡◌, IfOk};
ghost use Rattle.naga_oil_ir.specs.ModuleValue.{expression_values};
ghost use Rattle.naga_oil_ir.specs.Parts.{parts};
ghost use Rattle.yettuvam_wgsl_lines.specs.Line.{line_value};
ghost use Rattle.yettuvam_wgsl_uses.specs.Facts as spec;

use crate::texts::emitted_by;
use naga_oil_ir::{Expression, Operand, Span};
use std::alloc::{AllocError, Global};
use yettuvam_wgsl_counts::Times;
use yettuvam_wgsl_counts::times::{is_more, is_never, times_at};
use yettuvam_wgsl_lines::Line;
use yettuvam_wgsl_natures::Nature;

/// The code of the operator `&&`.
pub const AND: u64 = 17;

/// The code of the operator `||`.
pub const OR: u64 = 18;

/// What an expression is to the choice of `let`s.
#[derive(Clone, Copy, PartialEq, Eq, Debug)]
pub struct Fact {
    pub nature: Nature,
    /// How many times lines name it.
    pub times: Times,
    /// Whether it must be evaluated where it is emitted, even if its value isn't needed: it depends on the time of its evaluation,
    /// and isn't a load.
    pub is_firm: bool,
    /// Whether its right operand is evaluated only if the left one doesn't decide.
    pub is_short: bool,
}

/// Returns the number at a place; 0 if there is none.
pub fn number_at(numbers: &[usize], place: usize) -> usize
    ensures { result ≡ spec.number_at numbers.now place }
{
    match numbers.get(place) {
        Some(number) => *number,
        None => 0,
    }
}

fn plain() -> Nature
    ensures { result ≡ spec.plain }
{
    Nature {
        is_constant: false,
        is_place: false,
        is_timed: false,
    }
}

fn nature_at(natures: &[Nature], place: usize) -> Nature
    ensures { result ≡ spec.nature_at natures.now place }
{
    match natures.get(place) {
        Some(nature) => *nature,
        None => plain(),
    }
}

fn is_load(expression: &Expression) -> bool
    ensures { result ≡ spec.is_load (parts expression.now) }
{
    match expression {
        Expression::Load { .. } => true,
        _ => false,
    }
}

fn is_short(expression: &Expression) -> bool
    ensures { result ≡ spec.is_short (parts expression.now) }
{
    match expression {
        Expression::Binary { op, .. } => *op == AND || *op == OR,
        _ => false,
    }
}

fn make_fact(natures: &[Nature], times: &[Times], place: usize, expression: &Expression) -> Fact
    ensures { result ≡ spec.make_fact natures.now times.now place (parts expression.now) }
{
    let nature = nature_at(natures, place);
    Fact {
        nature,
        times: times_at(times, place),
        is_firm: nature.is_timed && !is_load(expression),
        is_short: is_short(expression),
    }
}

/// Returns what each of the expressions of a function is, by its nature and the number of its uses.
///
/// # Errors
/// If out of memory.
pub fn facts_of(
    alloc: Global,
    natures: &[Nature],
    times: &[Times],
    expressions: &[(Expression, Span)],
) -> Result<Vec<Fact>, AllocError>
    ensures { IfOk result (λ v. v.items ≡ spec.facts_of natures.now times.now (expression_values expressions.now)) }
{
    let mut facts = Vec::new(alloc);
    let mut rest = expressions;
    while let [(expression, _), more @ ..] = rest {
        let fact = make_fact(natures, times, facts.len(), expression);
        facts.push(fact)?;
        rest = more;
    }
    Ok(facts)
}

fn no_fact() -> Fact
    ensures { result ≡ spec.no_fact }
{
    Fact {
        nature: plain(),
        times: Times::Never,
        is_firm: false,
        is_short: false,
    }
}

/// Returns what the expression at a place is.
pub fn fact_at(facts: &[Fact], place: Operand) -> Fact
    ensures { result ≡ spec.fact_at facts.now place }
{
    match facts.get(place.index()) {
        Some(fact) => *fact,
        None => no_fact(),
    }
}

/// Returns whether an expression may be a `let` though it has no name: it is no constant, which would lose the type that it takes
/// where it is used, and no place.
pub fn may_be_let(fact: Fact) -> bool
    ensures { result ≡ spec.may_be_let fact }
{
    !fact.nature.is_constant && !fact.nature.is_place
}

/// Returns whether an emitted expression is a `let` wherever it is used: it has a name, or is used more than once.
pub fn is_declared(facts: &[Fact], line: &Line, place: Operand) -> bool
    ensures { result ≡ spec.is_declared facts.now (line_value line.now) place }
{
    let fact = fact_at(facts, place);
    line.is_named || (may_be_let(fact) && is_more(fact.times))
}

/// Returns whether a line emits an expression that isn't written.
pub fn is_unwritten(facts: &[Fact], line: &Line) -> bool
    ensures { result ≡ spec.is_unwritten facts.now (line_value line.now) }
{
    match emitted_by(line) {
        Some(place) => !line.is_named && is_never(fact_at(facts, place).times),
        None => false,
    }
}

/// Returns whether a line emits a place without a name that is written more than once.
pub fn is_repeated(facts: &[Fact], line: &Line) -> bool
    ensures { result ≡ spec.is_repeated facts.now (line_value line.now) }
{
    match emitted_by(line) {
        Some(place) => {
            let fact = fact_at(facts, place);
            !line.is_named && fact.nature.is_place && is_more(fact.times)
        }
        None => false,
    }
}

/// Returns whether a line emits an expression that may leave its right operand unevaluated.
pub fn is_short_line(facts: &[Fact], line: &Line) -> bool
    ensures { result ≡ spec.is_short_line facts.now (line_value line.now) }
{
    match emitted_by(line) {
        Some(place) => fact_at(facts, place).is_short,
        None => false,
    }
}
