// Operators, calls and conversions, and all expressions.
ghost use Rattle.std.specs.Prelude.{◌≡◌, [], ◌∷◌, IfOk, map, option_map};
ghost use Rattle.naga_oil_ir.specs.Parts.{parts, math_parts};
ghost use Rattle.yettuvam_wgsl_pieces.specs.Pieces.{piece_of};
ghost use Rattle.yettuvam_wgsl_write_expressions.specs.Context.{scope_of};
ghost use Rattle.yettuvam_wgsl_write_expressions.specs.Expressions as spec;
ghost use Rattle.yettuvam_wgsl_write_expressions.specs.Operands.{Writes, as_value, call, present};
ghost use Rattle.yettuvam_wgsl_write_types.specs.Types.{values_of};
ghost use Rattle.yettuvam_wgsl_written.specs.Outcomes.{Puts};

use crate::context::Scope;
use crate::functions::function_name;
pub use crate::operands::push_arguments;
use crate::operands::{Known, operand, push_call, push_length_call, push_select_call, push_some};
use crate::textures::{push_image_load, push_image_query, push_image_sample};
pub use crate::values::Pushed;
use crate::values::{
    push_composed, push_copy, push_element, push_global, push_load, push_member, push_name,
    push_own_argument, push_swizzle,
};
use naga_oil_ir::{Expression, Math, Operand, Span};
use std::alloc::{AllocError, Global};
use yettuvam_wgsl_pieces::{Piece, Sign};
use yettuvam_wgsl_write_types::codes::LET_COPY;
use yettuvam_wgsl_written::attributes::push_word;
use yettuvam_wgsl_written::codes::{scalar_name, vector_name};
use yettuvam_wgsl_written::operators::{binary_operator, fits_left, fits_right, unary_operator};
use yettuvam_wgsl_written::written::{push_value, value_level};
use yettuvam_wgsl_written::{Level, Refusal, Role, WriteResult};
use yettuvam_wgsl_written_names::name_at;

type Pieces<'m> = Vec<Piece<'m>>;

const VALUE: (Level, Role) = (Level::Singular, Role::Value);

/// Appends a call of a built-in function.
///
/// # Errors
/// `NotInWgsl` if the code is none of a function's or an argument isn't written, `Memory` if out of memory.
#[tactic(auto, unfolding(crate::specs::Expressions::built_in))]
pub fn push_built_in<'m>(
    scope: &Scope<'_, 'm>,
    known: Known<'_, 'm>,
    out: &mut Pieces<'m>,
    function: u64,
    arguments: &[Operand],
) -> WriteResult<()>
    ensures { Puts (spec.built_in (scope_of scope.now) (values_of known.now) function arguments.now) result (map piece_of out.old.items) (map piece_of out.new.items) }
{
    push_call(scope, known, out, function_name(function), arguments)
}

// Appends a vector of equal components.
#[tactic(auto, unfolding(crate::specs::Expressions::splat))]
fn push_splat<'m>(
    scope: &Scope<'_, 'm>,
    known: Known<'_, 'm>,
    out: &mut Pieces<'m>,
    size: u64,
    arguments: &[Operand],
) -> WriteResult<()>
    ensures { Puts (spec.splat (scope_of scope.now) (values_of known.now) size arguments.now) result (map piece_of out.old.items) (map piece_of out.new.items) }
{
    push_call(scope, known, out, vector_name(size), arguments)
}

#[tactic(auto, unfolding(crate::specs::Expressions::unary))]
fn push_unary<'m>(
    scope: &Scope<'_, 'm>,
    known: Known<'_, 'm>,
    out: &mut Pieces<'m>,
    op: u64,
    of: Operand,
) -> Pushed
    ensures { Writes (spec.unary (scope_of scope.now) (values_of known.now) op of) result (map piece_of out.old.items) (map piece_of out.new.items) }
{
    let Some(sign) = unary_operator(op) else {
        return Err(Refusal::NotInWgsl(scope.span));
    };
    let operand = operand(known, of, scope.span)?;
    out.push(Piece::Sign(sign))?;
    push_value(out, operand, fits_right(Level::Unary, value_level(operand)))?;
    Ok((Level::Unary, Role::Value))
}

#[tactic(auto, unfolding(crate::specs::Expressions::binary))]
fn push_binary<'m>(
    scope: &Scope<'_, 'm>,
    known: Known<'_, 'm>,
    out: &mut Pieces<'m>,
    op: u64,
    left: Operand,
    right: Operand,
) -> Pushed
    ensures { Writes (spec.binary (scope_of scope.now) (values_of known.now) op left right) result (map piece_of out.old.items) (map piece_of out.new.items) }
{
    let Some(operator) = binary_operator(op) else {
        return Err(Refusal::NotInWgsl(scope.span));
    };
    let left = operand(known, left, scope.span)?;
    let right = operand(known, right, scope.span)?;
    push_value(out, left, fits_left(operator.level, value_level(left)))?;
    out.push(Piece::Sign(operator.sign))?;
    push_value(out, right, fits_right(operator.level, value_level(right)))?;
    Ok((operator.level, Role::Value))
}

// The type that a conversion has: a scalar, or a vector.
fn conversion_type(kind: u64) -> Option<&'static str>
    ensures { option_map (λ n. n.now) result ≡ spec.conversion_type kind }
{
    if kind % 16 == 0 {
        scalar_name(kind / 16)
    } else {
        vector_name(kind)
    }
}

// Appends the type that a conversion has.
#[tactic(auto, unfolding(crate::specs::Expressions::conversion_word))]
fn push_conversion_type(out: &mut Pieces<'_>, kind: u64, span: Span) -> WriteResult<()>
    ensures { Puts (spec.conversion_word kind span) result (map piece_of out.old.items) (map piece_of out.new.items) }
{
    push_word(out, conversion_type(kind), span)
}

#[tactic(auto, unfolding(crate::specs::Expressions::bitcast))]
fn push_bitcast<'m>(
    scope: &Scope<'_, 'm>,
    known: Known<'_, 'm>,
    out: &mut Pieces<'m>,
    of: Operand,
    kind: u64,
) -> WriteResult<()>
    ensures { Puts (spec.bitcast (scope_of scope.now) (values_of known.now) of kind) result (map piece_of out.old.items) (map piece_of out.new.items) }
{
    out.push(Piece::Word("bitcast"))?;
    out.push(Piece::Sign(Sign::TemplateOpen))?;
    push_conversion_type(out, kind, scope.span)?;
    out.push(Piece::Sign(Sign::TemplateClose))?;
    push_arguments(scope, known, out, &[of])
}

#[tactic(auto, using(crate::proofs::Following::valued), unfolding(crate::specs::Expressions::conversion))]
fn push_conversion<'m>(
    scope: &Scope<'_, 'm>,
    known: Known<'_, 'm>,
    out: &mut Pieces<'m>,
    of: Operand,
    kind: u64,
    convert: u64,
) -> Pushed
    ensures { Writes (spec.conversion (scope_of scope.now) (values_of known.now) of kind convert) result (map piece_of out.old.items) (map piece_of out.new.items) }
{
    if convert >= LET_COPY {
        return push_copy(scope, known, out, of);
    }
    push_bitcast(scope, known, out, of, kind)?;
    Ok((Level::Singular, Role::Value))
}

// The operands of a mathematical function.
fn math_arguments(alloc: Global, of: &Math) -> Result<Vec<Operand>, AllocError>
    ensures { IfOk result (λ hs. hs.items ≡ present (math_parts of.now).operands) }
{
    let mut arguments = Vec::new(alloc);
    arguments.push(of.arg)?;
    push_some(&mut arguments, of.arg1)?;
    push_some(&mut arguments, of.arg2)?;
    push_some(&mut arguments, of.arg3)?;
    Ok(arguments)
}

fn push_math<'m>(
    scope: &Scope<'_, 'm>,
    known: Known<'_, 'm>,
    out: &mut Pieces<'m>,
    of: &Math,
) -> WriteResult<()>
    ensures { Puts (spec.built_in (scope_of scope.now) (values_of known.now) of.now.fun (present (math_parts of.now).operands)) result (map piece_of out.old.items) (map piece_of out.new.items) }
{
    let arguments = math_arguments(scope.context.alloc, of)?;
    push_built_in(scope, known, out, of.fun, &arguments)
}

/// Appends the pieces of an expression, whose operands are known. A result of a statement has none of its own.
///
/// # Errors
/// `NotInWgsl` if WGSL has no such expression, `Memory` if out of memory.
#[rattlefmt::skip]
#[tactic(auto, using(crate::proofs::Following::present_all, crate::proofs::Following::valued), unfolding(crate::specs::Expressions::expression))]
pub fn push_expression<'m>(scope: &Scope<'_, 'm>, known: Known<'_, 'm>, out: &mut Pieces<'m>, of: &'m Expression) -> Pushed
    ensures { Writes (spec.expression (scope_of scope.now) (values_of known.now) (parts of.now)) result (map piece_of out.old.items) (map piece_of out.new.items) }
{
    let names = scope.context.names;
    match of {
        Expression::Literal { kind, bits } => {
            out.push(Piece::Literal { kind: *kind, bits: *bits })?;
            Ok(VALUE)
        }
        Expression::ZeroValue(ty) => push_composed(scope, known, out, *ty, &[]),
        Expression::Constant(c) => push_name(scope, out, name_at(&names.constants, c.index()), Role::Value),
        Expression::Override(o) => push_name(scope, out, name_at(&names.overrides, o.index()), Role::Value),
        Expression::GlobalVariable(g) => push_global(scope, out, *g),
        Expression::LocalVariable(l) => push_name(scope, out, name_at(scope.own.locals, l.index()), Role::Place),
        Expression::FunctionArgument(n) => push_own_argument(scope, out, *n),
        Expression::Compose { ty, components } => push_composed(scope, known, out, *ty, components),
        Expression::Access { base, index } => push_element(scope, known, out, *base, *index),
        Expression::AccessIndex { base, index } => push_member(scope, known, out, *base, *index),
        Expression::Splat { size, value } => {
            push_splat(scope, known, out, *size, &[*value])?;
            Ok(VALUE)
        }
        Expression::Swizzle { size, vector, pattern } => push_swizzle(scope, known, out, *vector, *size, *pattern),
        Expression::Load { pointer } => push_load(scope, known, out, *pointer),
        Expression::ImageSample(of) => {
            push_image_sample(scope, known, out, of)?;
            Ok(VALUE)
        }
        Expression::ImageLoad(of) => {
            push_image_load(scope, known, out, of)?;
            Ok(VALUE)
        }
        Expression::ImageQuery { image, query } => {
            push_image_query(scope, known, out, *image, query)?;
            Ok(VALUE)
        }
        Expression::Unary { op, expr } => push_unary(scope, known, out, *op, *expr),
        Expression::Binary { op, left, right } => push_binary(scope, known, out, *op, *left, *right),
        Expression::Select { condition, accept, reject } => {
            push_select_call(scope, known, out, &[*reject, *accept, *condition])?;
            Ok(VALUE)
        }
        Expression::Derivative { axis, expr } => {
            push_built_in(scope, known, out, *axis, &[*expr])?;
            Ok(VALUE)
        }
        Expression::Relational { fun, argument } => {
            push_built_in(scope, known, out, *fun, &[*argument])?;
            Ok(VALUE)
        }
        Expression::Math(of) => {
            push_math(scope, known, out, of)?;
            Ok(VALUE)
        }
        Expression::As { expr, kind, convert } => push_conversion(scope, known, out, *expr, *kind, *convert),
        Expression::ArrayLength(of) => {
            push_length_call(scope, known, out, &[*of])?;
            Ok(VALUE)
        }
        Expression::CallResult(_)
        | Expression::AtomicResult { .. }
        | Expression::WorkGroupUniformLoadResult { .. }
        | Expression::RayQueryProceedResult
        | Expression::SubgroupBallotResult
        | Expression::SubgroupOperationResult { .. }
        | Expression::RayQueryGetIntersection { .. }
        | Expression::RayQueryVertexPositions { .. } => Err(Refusal::NotInWgsl(scope.span)),
    }
}
