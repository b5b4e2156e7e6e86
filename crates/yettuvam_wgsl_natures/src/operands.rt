// The operands of expressions in the order of the text.
ghost use Rattle.std.specs.Prelude.{◌≡◌, IfOk};
ghost use Rattle.naga_oil_ir.specs.Parts.{parts};
ghost use Rattle.yettuvam_wgsl_natures.specs.Operands as spec;

use naga_oil_ir::{Expression, Operand};
use std::alloc::{AllocError, Global};

// The kinds of expressions whose text has another order.

const SAMPLE: u64 = 19;

const SELECT: u64 = 24;

fn present(alloc: Global, operands: &[Option<Operand>]) -> Result<Vec<Operand>, AllocError>
    ensures { IfOk result (λ v. v.items ≡ spec.present operands.now) }
{
    operands.iter().filter_map(|o| *o).collect(alloc)
}

fn select_operands(alloc: Global, operands: &[Option<Operand>]) -> Result<Vec<Operand>, AllocError>
    ensures { IfOk result (λ v. v.items ≡ spec.present (spec.select_order operands.now)) }
{
    match operands {
        [condition, accept, reject] => present(alloc, &[*reject, *accept, *condition]),
        _ => present(alloc, operands),
    }
}

fn operand_at(operands: &[Option<Operand>], place: usize) -> Option<Operand>
    ensures { result ≡ spec.operand_at operands.now place }
{
    match operands.get(place) {
        Some(operand) => *operand,
        None => None,
    }
}

fn sample_operands(alloc: Global, operands: &[Option<Operand>]) -> Result<Vec<Operand>, AllocError>
    ensures { IfOk result (λ v. v.items ≡ spec.present (spec.sample_order operands.now)) }
{
    present(
        alloc,
        &[
            operand_at(operands, 0),
            operand_at(operands, 1),
            operand_at(operands, 2),
            operand_at(operands, 3),
            operand_at(operands, 7),
            operand_at(operands, 5),
            operand_at(operands, 6),
            operand_at(operands, 4),
        ],
    )
}

/// Returns the operands of an expression in the order in which its text has them.
///
/// # Errors
/// If out of memory.
pub fn text_operands(alloc: Global, of: &Expression) -> Result<Vec<Operand>, AllocError>
    ensures { IfOk result (λ v. v.items ≡ spec.text_operands (parts of.now)) }
{
    let parts = of.parts(alloc)?;
    match parts.kind {
        SELECT => select_operands(alloc, &parts.operands),
        SAMPLE => sample_operands(alloc, &parts.operands),
        _ => present(alloc, &parts.operands),
    }
}
