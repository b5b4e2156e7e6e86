// The text of a module: a line for each constant.
ghost use Rattle.std.specs.Prelude.{◌≡◌, IfOk, option_map, string_bytes};
ghost use Rattle.naga_oil_ir.specs.ModuleValue.{module_value, expression_values};
ghost use Rattle.naga_oil_ir.specs.Parts.{parts};
ghost use Rattle.naga_oil_ir.specs.Rows.{constant_row};
ghost use Rattle.naga_oil_palette.specs.Writer as spec;

use naga_oil_ir::{Arena, Constant, Expression, Handle, Index, Module};
use std::alloc::{AllocError, Global};

// What an initialiser is.
#[derive(Clone, Copy)]
enum Shape {
    Own,
    Constant(usize),
    Other,
}

fn shape_of(expression: &Expression) -> Shape
    ensures { result ≡ spec.shape (parts expression.now) }
{
    match expression {
        Expression::Literal { kind: 1, bits: 0 } => Shape::Own,
        Expression::Constant(constant) => Shape::Constant(constant.index()),
        _ => Shape::Other,
    }
}

fn shape_at(expressions: &Arena<Expression>, place: Handle<Expression>) -> Shape
    ensures { result ≡ spec.shape_at (expression_values expressions.now) place }
{
    match expressions.try_get(place) {
        Some(expression) => shape_of(expression),
        None => Shape::Other,
    }
}

fn name_at(of: &Module, place: usize) -> Option<&str>
    ensures { option_map (λ n. n.now) result ≡ spec.name_at (module_value of.now) place }
{
    let constant = of.constants.try_get(Index::new(place))?;
    constant.name.as_ref().map(|name| name.as_str())
}

// The line of a constant, if it has one.
fn line(alloc: Global, of: &Module, constant: &Constant) -> Result<Option<String>, AllocError>
    ensures { let told = spec.line (module_value of.now) (constant_row constant.now) in
        IfOk result (λ t. option_map string_bytes t ≡ told) }
{
    let Some(name) = &constant.name else {
        return Ok(None);
    };
    match shape_at(&of.global_expressions, constant.init) {
        Shape::Own => Ok(Some(format!(in alloc; "{name}\n")?)),
        Shape::Constant(place) => match name_at(of, place) {
            Some(other) => Ok(Some(format!(in alloc; "{name} = {other}\n")?)),
            None => Ok(None),
        },
        Shape::Other => Ok(None),
    }
}

/// The text of a module, if it has one.
pub fn text_of(alloc: Global, of: &Module) -> Result<Option<String>, AllocError>
    ensures { IfOk result (λ t. option_map string_bytes t ≡ spec.text_of (module_value of.now)) }
{
    let mut text = String::new(alloc);
    for constant in of.constants.as_slice() {
        let Some(line) = line(alloc, of, &constant.0)? else {
            return Ok(None);
        };
        text.push_str(&line)?;
    }
    Ok(Some(text))
}
