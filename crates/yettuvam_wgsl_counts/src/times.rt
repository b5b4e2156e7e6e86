// How many times expressions are used.
ghost use Rattle.std.specs.Prelude.{◌≡◌, IfOk, replicate};
ghost use Rattle.yettuvam_wgsl_counts.specs.Times as spec;
ghost use Rattle.yettuvam_wgsl_lines.specs.Line.{lines_value};

use naga_oil_ir::Operand;
use std::alloc::{AllocError, Global};
use yettuvam_wgsl_lines::Line;

/// How many times an expression is used.
#[derive(Clone, Copy, PartialEq, Eq, Debug)]
pub enum Times {
    Never,
    Once,
    More,
}

/// Returns how many times the expression at a place is used.
pub fn times_at(times: &[Times], place: usize) -> Times
    ensures { result ≡ spec.times_at times.now place }
{
    match times.get(place) {
        Some(times) => *times,
        None => Times::Never,
    }
}

pub fn is_never(times: Times) -> bool
    ensures { result ≡ spec.is_never times }
{
    match times {
        Times::Never => true,
        _ => false,
    }
}

pub fn is_once(times: Times) -> bool
    ensures { result ≡ spec.is_once times }
{
    match times {
        Times::Once => true,
        _ => false,
    }
}

pub fn is_more(times: Times) -> bool
    ensures { result ≡ spec.is_more times }
{
    match times {
        Times::More => true,
        _ => false,
    }
}

fn one_more(times: Times) -> Times
    ensures { result ≡ spec.one_more times }
{
    match times {
        Times::Never => Times::Once,
        _ => Times::More,
    }
}

// Counts a use of an expression.
fn count(times: &mut [Times], operand: Operand)
    ensures { times.new ≡ spec.count times.old operand }
{
    let place = operand.index();
    if place >= times.len() {
        return;
    }
    let before = times[place];
    times[place] = one_more(before);
}

fn count_all(times: &mut [Times], operands: &[Operand])
    ensures { times.new ≡ spec.count_all times.old operands.now }
{
    let mut rest = operands;
    while let [operand, more @ ..] = rest {
        count(times, *operand);
        rest = more;
    }
}

fn count_lines(times: &mut [Times], lines: &[Line])
    ensures { times.new ≡ spec.count_lines times.old (lines_value lines.now) }
{
    let mut rest = lines;
    while let [line, more @ ..] = rest {
        count_all(times, &line.operands);
        rest = more;
    }
}

/// Returns how many times lines name each of `count` expressions.
///
/// # Errors
/// If out of memory.
pub fn times_of(alloc: Global, count: usize, lines: &[Line]) -> Result<Vec<Times>, AllocError>
    ensures { IfOk result (λ v. v.items ≡ spec.times_of count (lines_value lines.now)) }
{
    let mut times = vec![in alloc; Times::Never; count]?;
    count_lines(&mut times, lines);
    Ok(times)
}
