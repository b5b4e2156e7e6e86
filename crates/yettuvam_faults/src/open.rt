// The condition that is open at the end of a text.
ghost use Rattle.std.specs.Prelude.{◌≡◌, IfOk, OnOk};
ghost use Rattle.naga_oil_conditions.specs.KindView.{line_kind_of};
ghost use Rattle.yettuvam_faults.specs.Open as spec;

use naga_oil_conditions::source_lines::SourceLines;
use naga_oil_pre::line_kind::{LineKind, line_kind};
use std::alloc::{AllocError, Global};

// Adds the line of a condition, or removes the last at an end.
fn pass_line(places: &mut Vec<usize>, at: usize, kind: LineKind<'_>) -> Result<(), AllocError>
    ensures { let following = spec.open_after places.old.items at (line_kind_of kind.entry) in
        OnOk result (places.new.items ≡ following) }
{
    match kind {
        LineKind::Condition { is_else: false, .. } => {
            places.push(at)?;
        }
        LineKind::EndIf => {
            places.pop();
        }
        _ => {}
    }
    Ok(())
}

// The last of places, or the end of the text if there is none.
fn last_or(end: usize, places: &[usize]) -> usize
    ensures { result ≡ spec.last_or end places.now }
{
    match places.last() {
        Some(at) => *at,
        None => end,
    }
}

// The place of the line that opens the innermost condition which is open at the end of a text; the end, if there is none.
#[tactic(auto, unfolding(crate::specs::Open::open_line))]
pub(crate) fn open_line(alloc: Global, text: &str, end: usize) -> Result<usize, AllocError>
    ensures { IfOk result (λ at. at ≡ spec.open_line text.now end) }
{
    let mut places = Vec::new(alloc);
    let mut lines = text.lines();
    let mut source = SourceLines::new(alloc, &mut lines);
    while let Some(line) = source.next()? {
        pass_line(&mut places, line.offset, line_kind(line.covered.as_str()))?;
    }
    Ok(last_or(end, &places))
}
