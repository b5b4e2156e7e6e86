// How the expressions, results and local variables of a body are written.
ghost use Rattle.std.specs.Prelude.{◌≡◌, IfOk};
ghost use Rattle.naga_oil_ir.specs.ModuleValue.{function_value, module_value};
ghost use Rattle.yettuvam_wgsl_lines.specs.Line.{lines_value};
ghost use Rattle.yettuvam_wgsl_lines.specs.Reader.{body_value};
ghost use Rattle.yettuvam_wgsl_uses.specs.Uses as spec;
ghost use Rattle.yettuvam_wgsl_uses.specs.Uses.{uses_value};

use crate::choice::{lets_of, merged_of, spread_all};
use crate::facts::{Fact, facts_of};
use crate::order::early_of;
use crate::texts::last_of;
use naga_oil_ir::{Function, Module};
use std::alloc::{AllocError, Global};
use yettuvam_wgsl_counts::{Declared, Times, locals_of, times_of};
use yettuvam_wgsl_lines::{Body, Line, groups_of};
use yettuvam_wgsl_natures::natures_of;

/// How the expressions, results and local variables of a body are written, by their places.
#[derive(Drop)]
pub struct Uses {
    /// How many times lines name each expression.
    pub texts: Vec<Times>,
    /// The last group of lines in which the text of each expression is evaluated.
    pub last: Vec<usize>,
    /// Which expressions are declared where they are emitted.
    pub is_let: Vec<bool>,
    /// Which results are part of the text of a later line.
    pub merged: Vec<bool>,
    /// The group of each line.
    pub groups: Vec<usize>,
    /// Where each local variable is declared.
    pub locals: Vec<Declared>,
}

fn early_by(alloc: Global, facts: &[Fact], lines: &[Line]) -> Result<Vec<bool>, AllocError>
    ensures { IfOk result (λ v. v.items ≡ spec.early_by facts.now (lines_value lines.now)) }
{
    let mut early = early_of(alloc, facts, lines)?;
    spread_all(&mut early, facts, lines);
    Ok(early)
}

#[tactic(auto, unfolding(crate::specs::Uses::chosen))]
fn chosen(
    alloc: Global,
    facts: &[Fact],
    texts: Vec<Times>,
    lines: &[Line],
    locals: Vec<Declared>,
) -> Result<Uses, AllocError>
    ensures { IfOk result (λ u. uses_value u ≡
        spec.chosen facts.now texts.items (lines_value lines.now) locals.items) }
{
    let early = early_by(alloc, facts, lines)?;
    let is_let = lets_of(alloc, facts, &early, lines)?;
    let merged = merged_of(alloc, facts, &early, lines)?;
    let groups = groups_of(alloc, &merged, lines)?;
    let last = last_of(alloc, facts.len(), &is_let, &groups, lines)?;
    Ok(Uses {
        texts,
        last,
        is_let,
        merged,
        groups,
        locals,
    })
}

/// Returns how the expressions, results and local variables of a function's body are written.
///
/// # Errors
/// If out of memory.
#[tactic(auto, unfolding(crate::specs::Uses::uses_of))]
pub fn uses_of(
    alloc: Global,
    module: &Module,
    function: &Function,
    body: &Body,
) -> Result<Uses, AllocError>
    ensures { IfOk result (λ u. uses_value u ≡
        spec.uses_of (module_value module.now) (function_value function.now) (body_value body.now)) }
{
    let natures = natures_of(alloc, module, function)?;
    let texts = times_of(alloc, function.expressions.len(), &body.lines)?;
    let facts = facts_of(alloc, &natures, &texts, function.expressions.as_slice())?;
    let locals = locals_of(alloc, function, body)?;
    chosen(alloc, &facts, texts, &body.lines, locals)
}
