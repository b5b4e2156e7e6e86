// Where the texts of expressions are evaluated.
ghost use Rattle.std.specs.Prelude.{◌≡◌, IfOk, replicate};
ghost use Rattle.yettuvam_wgsl_lines.specs.Line.{line_value, lines_value};
ghost use Rattle.yettuvam_wgsl_uses.specs.Texts as spec;

use crate::facts::number_at;
use naga_oil_ir::Operand;
use std::alloc::{AllocError, Global};
use yettuvam_wgsl_lines::groups::is_set;
use yettuvam_wgsl_lines::{Line, is_emitted};

/// Returns the expression that a line emits.
pub fn emitted_by(line: &Line) -> Option<Operand>
    ensures { result ≡ spec.emitted_by (line_value line.now) }
{
    if is_emitted(line) { line.made } else { None }
}

// The last group in which what a line has as its text is evaluated.
fn evaluated_in(is_let: &[bool], groups: &[usize], line: &Line, last: &[usize]) -> usize
    ensures { result ≡ spec.evaluated_in is_let.now groups.now (line_value line.now) last.now }
{
    let group = number_at(groups, line.number);
    match emitted_by(line) {
        Some(place) => {
            if is_set(is_let, place) {
                group
            } else {
                number_at(last, place.index())
            }
        }
        None => group,
    }
}

fn raise(last: &mut [usize], place: usize, group: usize)
    ensures { last.new ≡ spec.raise place group last.old }
{
    if place >= last.len() {
        return;
    }
    let before = last[place];
    last[place] = before.max(group);
}

fn raise_all(last: &mut [usize], operands: &[Operand], group: usize)
    ensures { last.new ≡ spec.raise_all operands.now group last.old }
{
    let mut rest = operands;
    while let [operand, more @ ..] = rest {
        raise(last, operand.index(), group);
        rest = more;
    }
}

fn raise_line(last: &mut [usize], is_let: &[bool], groups: &[usize], line: &Line)
    ensures { last.new ≡ spec.raise_line is_let.now groups.now (line_value line.now) last.old }
{
    let group = evaluated_in(is_let, groups, line, last);
    raise_all(last, &line.operands, group);
}

// The lines after others are read before them, as an expression is evaluated with those that use it.
#[tactic(auto, using(crate::proofs::Backward::raise_last))]
fn raise_lines(last: &mut [usize], is_let: &[bool], groups: &[usize], lines: &[Line])
    ensures { last.new ≡ spec.raise_lines is_let.now groups.now (lines_value lines.now) last.old }
{
    let mut rest = lines;
    while let Some((line, more)) = rest.split_last() {
        raise_line(last, is_let, groups, line);
        rest = more;
    }
}

/// Returns the last group of lines in which the text of each of `count` expressions is evaluated; 0 if it isn't evaluated.
///
/// # Errors
/// If out of memory.
pub fn last_of(
    alloc: Global,
    count: usize,
    is_let: &[bool],
    groups: &[usize],
    lines: &[Line],
) -> Result<Vec<usize>, AllocError>
    ensures { IfOk result (λ v. v.items ≡
        spec.last_of count is_let.now groups.now (lines_value lines.now)) }
{
    let mut last = vec![in alloc; 0; count]?;
    raise_lines(&mut last, is_let, groups, lines);
    Ok(last)
}
