// Groups of lines.
ghost use Rattle.std.specs.Prelude.{◌≡◌, IfOk, false, map};
ghost use Rattle.yettuvam_wgsl_lines.specs.Groups as spec;
ghost use Rattle.yettuvam_wgsl_lines.specs.Line.{line_value, lines_value};

use crate::line::{Line, is_emitted};
use naga_oil_ir::Operand;
use std::alloc::{AllocError, Global};

/// Returns whether an expression is marked.
pub fn is_set(marks: &[bool], place: Operand) -> bool
    ensures { result ≡ spec.is_set marks.now place }
{
    match marks.get(place.index()) {
        Some(mark) => *mark,
        None => false,
    }
}

/// Returns whether the result of a line is part of the text of the lines after it.
pub fn is_merged(merged: &[bool], made: Option<Operand>) -> bool
    ensures { result ≡ spec.is_merged merged.now made }
{
    match made {
        Some(made) => is_set(merged, made),
        None => false,
    }
}

fn joins_next(merged: &[bool], line: &Line) -> bool
    ensures { result ≡ spec.joins_next merged.now (line_value line.now) }
{
    if is_emitted(line) {
        !line.is_named
    } else {
        is_merged(merged, line.made)
    }
}

fn group_by(group: usize, joins: bool, line: &Line) -> usize
    ensures { result ≡ spec.group_by group joins (line_value line.now) }
{
    if joins && line.follows {
        group
    } else {
        line.number
    }
}

/// Returns the group of each line: the number of the group's first line. `merged` marks the results that are part of the text
/// of the lines after them.
///
/// # Errors
/// If out of memory.
pub fn groups_of(alloc: Global, merged: &[bool], lines: &[Line]) -> Result<Vec<usize>, AllocError>
    ensures { IfOk result (λ v. v.items ≡ spec.groups_of merged.now (lines_value lines.now)) }
{
    let mut groups = Vec::with_capacity(alloc, lines.len())?;
    let mut group = 0;
    let mut joins = false;
    let mut rest = lines;
    while let [line, more @ ..] = rest {
        group = group_by(group, joins, line);
        joins = joins_next(merged, line);
        groups.push(group)?;
        rest = more;
    }
    Ok(groups)
}
