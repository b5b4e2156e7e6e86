// The shapes of a list of expressions, and global expressions.
ghost use Rattle.std.specs.Prelude.{◌≡◌, [], IfOk};
ghost use Rattle.naga_oil_ir.specs.ModuleValue.{expression_values};
ghost use Rattle.naga_oil_ir.specs.Parts.{parts};
ghost use Rattle.yettuvam_wgsl_write_expressions.specs.Context.{context_of, scope_of};
ghost use Rattle.yettuvam_wgsl_write_expressions.specs.Expressions.{expression};
ghost use Rattle.yettuvam_wgsl_write_globals.specs.Globals as spec;
ghost use Rattle.yettuvam_wgsl_write_types.specs.Types.{values_of};
ghost use Rattle.yettuvam_wgsl_written.specs.Outcomes.{Finds};
ghost use Rattle.yettuvam_wgsl_written.specs.Written.{written_of};

use naga_oil_ir::{Expression, FunctionArgument, Span};
use std::alloc::AllocError;
use yettuvam_wgsl_write_expressions::context::{Context, Own, Scope};
use yettuvam_wgsl_write_expressions::expressions::push_expression;
use yettuvam_wgsl_write_expressions::operands::Known;
use yettuvam_wgsl_write_expressions::shapes::{Shape, shape_of};
use yettuvam_wgsl_written::{WriteResult, Written};

// Where an expression stands that names no local and no argument by its name.
fn scope_at<'a, 'm>(
    context: &'a Context<'m>,
    arguments: &'m [FunctionArgument],
    shapes: &'a [Shape],
    span: Span,
) -> Scope<'a, 'm>
    ensures { let types = spec.types_of arguments.now in
        scope_of result ≡ spec.scope_at (context_of context.now) types shapes.now span }
{
    Scope {
        context,
        own: Own {
            arguments: &[],
            locals: &[],
        },
        arguments,
        shapes,
        span,
    }
}

// The shape of an expression, from those of the earlier ones.
fn next_shape<'m>(
    context: &Context<'m>,
    arguments: &'m [FunctionArgument],
    locals: &[usize],
    shapes: &[Shape],
    of: &Expression,
    span: Span,
) -> Shape
    ensures { let types = spec.types_of arguments.now in
        let shape_after = spec.next_shape (context_of context.now) types locals.now in
        result ≡ shape_after shapes.now (parts of.now, span) }
{
    shape_of(&scope_at(context, arguments, shapes, span), locals, of)
}

/// Returns the shapes of a list of expressions. `locals` are the types of the function's locals.
///
/// # Errors
/// If out of memory.
#[tactic(auto, unfolding(crate::specs::Globals::each_shape))]
pub fn shapes_of<'m>(
    context: &Context<'m>,
    of: &'m [(Expression, Span)],
    arguments: &'m [FunctionArgument],
    locals: &[usize],
) -> Result<Vec<Shape>, AllocError>
    ensures { let types = spec.types_of arguments.now in
        let shapes = spec.shapes (context_of context.now) types locals.now in
        IfOk result (λ v. v.items ≡ shapes (expression_values of.now)) }
{
    let mut shapes = Vec::new(context.alloc);
    let mut rest = of;
    while let [(expression, span), more @ ..] = rest {
        let shape = next_shape(context, arguments, locals, &shapes, expression, *span);
        shapes.push(shape)?;
        rest = more;
    }
    Ok(shapes)
}

/// Returns how an expression is written.
///
/// # Errors
/// `NotInWgsl` if WGSL has no such expression, `Memory` if out of memory.
#[tactic(auto, using(crate::proofs::Nothing::after_nothing))]
pub fn written_expression<'m>(
    scope: &Scope<'_, 'm>,
    known: Known<'_, 'm>,
    of: &'m Expression,
) -> WriteResult<Written<'m>>
    ensures { let written = expression (scope_of scope.now) (values_of known.now) in
        Finds written_of result (written (parts of.now)) }
{
    let mut pieces = Vec::new(scope.context.alloc);
    let (level, role) = push_expression(scope, known, &mut pieces, of)?;
    Ok(Written {
        pieces,
        level,
        role,
    })
}

fn written_global<'m>(
    context: &Context<'m>,
    shapes: &[Shape],
    known: Known<'_, 'm>,
    of: &'m Expression,
    span: Span,
) -> WriteResult<Written<'m>>
    ensures { let written = spec.global_value (context_of context.now) shapes.now in
        Finds written_of result (written (values_of known.now) (parts of.now, span)) }
{
    written_expression(&scope_at(context, &[], shapes, span), known, of)
}

#[tactic(auto, unfolding(crate::specs::Globals::each_value))]
fn written_values<'m>(
    context: &Context<'m>,
    shapes: &[Shape],
    of: &'m [(Expression, Span)],
) -> WriteResult<Vec<Written<'m>>>
    ensures { let written = spec.each_value (context_of context.now) shapes.now [] in
        Finds (λ v. values_of v.items) result (written (expression_values of.now)) }
{
    let mut known: Vec<Written<'m>> = Vec::new(context.alloc);
    let mut rest = of;
    while let [(expression, span), more @ ..] = rest {
        let written = written_global(context, shapes, &known, expression, *span)?;
        known.push(written)?;
        rest = more;
    }
    Ok(known)
}

/// Returns how each global expression is written.
///
/// # Errors
/// `NotInWgsl` if WGSL has no such expression, `Memory` if out of memory.
pub fn written_globals<'m>(context: &Context<'m>) -> WriteResult<Vec<Written<'m>>>
    ensures { let written = spec.global_values (context_of context.now) in
        let of = expression_values context.now.of.now.global_expressions in
        Finds (λ v. values_of v.items) result (written of) }
{
    let of = context.of.global_expressions.as_slice();
    let shapes = shapes_of(&*context, of, &[], &[])?;
    written_values(&*context, &shapes, of)
}
