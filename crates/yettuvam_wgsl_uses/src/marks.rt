// Marks of expressions, by their places.
ghost use Rattle.std.specs.Prelude.{◌≡◌};
ghost use Rattle.yettuvam_wgsl_uses.specs.Marks as spec;

use naga_oil_ir::Operand;

/// Marks the expression at a place.
pub fn mark(marks: &mut [bool], place: usize)
    ensures { marks.new ≡ spec.mark place marks.old }
{
    if place >= marks.len() {
        return;
    }
    marks[place] = true;
}

/// Marks an expression, if there is one.
pub fn mark_any(marks: &mut [bool], operand: Option<Operand>)
    ensures { marks.new ≡ spec.mark_any operand marks.old }
{
    if let Some(operand) = operand {
        mark(marks, operand.index());
    }
}

/// Marks expressions.
pub fn mark_all(marks: &mut [bool], operands: &[Operand])
    ensures { marks.new ≡ spec.mark_all operands.now marks.old }
{
    let mut rest = operands;
    while let [operand, more @ ..] = rest {
        mark(marks, operand.index());
        rest = more;
    }
}
