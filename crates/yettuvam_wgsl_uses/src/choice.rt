// The `let`s, and the results that are part of the next statement.
ghost use Rattle.std.specs.Prelude.{◌≡◌, IfOk};
ghost use Rattle.yettuvam_wgsl_lines.specs.Line.{line_value, lines_value};
ghost use Rattle.yettuvam_wgsl_uses.specs.Choice as spec;

use crate::facts::{Fact, fact_at, is_declared, may_be_let};
use crate::marks::{mark_all, mark_any};
use crate::texts::emitted_by;
use naga_oil_ir::Operand;
use std::alloc::{AllocError, Global};
use yettuvam_wgsl_counts::times::is_once;
use yettuvam_wgsl_lines::groups::is_set;
use yettuvam_wgsl_lines::{Line, is_emitted};

// Whether the operands of what a line emits must be evaluated early in its place: it is a place, which is no `let`.
fn passes_on(facts: &[Fact], early: &[bool], line: &Line) -> bool
    ensures { result ≡ spec.passes_on facts.now early.now (line_value line.now) }
{
    match emitted_by(line) {
        Some(place) => {
            !line.is_named && fact_at(facts, place).nature.is_place && is_set(early, place)
        }
        None => false,
    }
}

fn spread(early: &mut [bool], facts: &[Fact], line: &Line)
    ensures { early.new ≡ spec.spread facts.now (line_value line.now) early.old }
{
    if passes_on(facts, early, line) {
        mark_all(early, &line.operands);
    }
}

/// Marks what places that must be evaluated early have as operands. The lines after others are read before them.
#[tactic(auto, using(crate::proofs::Backward::spread_last))]
pub fn spread_all(early: &mut [bool], facts: &[Fact], lines: &[Line])
    ensures { early.new ≡ spec.spread_all facts.now (lines_value lines.now) early.old }
{
    let mut rest = lines;
    while let Some((line, more)) = rest.split_last() {
        spread(early, facts, line);
        rest = more;
    }
}

fn is_let(facts: &[Fact], early: &[bool], line: &Line, place: Operand) -> bool
    ensures { result ≡ spec.is_let facts.now early.now (line_value line.now) place }
{
    is_declared(facts, line, place) || (may_be_let(fact_at(facts, place)) && is_set(early, place))
}

// The expression that a line declares by `let`.
fn let_by(facts: &[Fact], early: &[bool], line: &Line) -> Option<Operand>
    ensures { result ≡ spec.let_by facts.now early.now (line_value line.now) }
{
    match emitted_by(line) {
        Some(place) => {
            if is_let(facts, early, line, place) {
                Some(place)
            } else {
                None
            }
        }
        None => None,
    }
}

fn is_part(facts: &[Fact], early: &[bool], line: &Line, made: Operand) -> bool
    ensures { result ≡ spec.is_part facts.now early.now (line_value line.now) made }
{
    !is_emitted(line)
        && !line.is_named
        && is_once(fact_at(facts, made).times)
        && !is_set(early, made)
}

// The result of a line that is part of a later line.
fn part_by(facts: &[Fact], early: &[bool], line: &Line) -> Option<Operand>
    ensures { result ≡ spec.part_by facts.now early.now (line_value line.now) }
{
    match line.made {
        Some(made) => {
            if is_part(facts, early, line, made) {
                Some(made)
            } else {
                None
            }
        }
        None => None,
    }
}

fn mark_lets(marks: &mut [bool], facts: &[Fact], early: &[bool], lines: &[Line])
    ensures { marks.new ≡ spec.mark_lets facts.now early.now (lines_value lines.now) marks.old }
{
    let mut rest = lines;
    while let [line, more @ ..] = rest {
        mark_any(marks, let_by(facts, early, line));
        rest = more;
    }
}

fn mark_parts(marks: &mut [bool], facts: &[Fact], early: &[bool], lines: &[Line])
    ensures { marks.new ≡ spec.mark_parts facts.now early.now (lines_value lines.now) marks.old }
{
    let mut rest = lines;
    while let [line, more @ ..] = rest {
        mark_any(marks, part_by(facts, early, line));
        rest = more;
    }
}

/// Returns which expressions are declared where they are emitted.
///
/// # Errors
/// If out of memory.
pub fn lets_of(
    alloc: Global,
    facts: &[Fact],
    early: &[bool],
    lines: &[Line],
) -> Result<Vec<bool>, AllocError>
    ensures { IfOk result (λ v. v.items ≡
        spec.lets_of facts.now early.now (lines_value lines.now)) }
{
    let mut marks = vec![in alloc; false; facts.len()]?;
    mark_lets(&mut marks, facts, early, lines);
    Ok(marks)
}

/// Returns which results are part of a later line.
///
/// # Errors
/// If out of memory.
pub fn merged_of(
    alloc: Global,
    facts: &[Fact],
    early: &[bool],
    lines: &[Line],
) -> Result<Vec<bool>, AllocError>
    ensures { IfOk result (λ v. v.items ≡
        spec.merged_of facts.now early.now (lines_value lines.now)) }
{
    let mut marks = vec![in alloc; false; facts.len()]?;
    mark_parts(&mut marks, facts, early, lines);
    Ok(marks)
}
