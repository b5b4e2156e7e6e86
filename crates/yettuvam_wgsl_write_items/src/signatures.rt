// Functions and entry points up to their bodies.
ghost use Rattle.std.specs.Prelude.{◌≡◌, not, map, string_bytes};
ghost use Rattle.naga_oil_ir.specs.ModuleValue.{argument_value};
ghost use Rattle.yettuvam_wgsl_pieces.specs.declared.sign.Sign.TheVariants.{Comma};
ghost use Rattle.yettuvam_wgsl_write_expressions.specs.Context.{context_of};
ghost use Rattle.yettuvam_wgsl_write_items.specs.Signatures as spec;
ghost use Rattle.yettuvam_wgsl_write_items.specs.Text.{Adds, Appends, Makes, inputs};
ghost use Rattle.yettuvam_wgsl_write_types.specs.Types.{values_of};
ghost use Rattle.yettuvam_wgsl_written.specs.Written.{sign_if};

use naga_oil_ir::{
    EntryPoint, Expression, Function, FunctionArgument, FunctionResult, Handle, Span, Type,
};
use std::alloc::AllocError;
use yettuvam_wgsl_pieces::{Piece, Sign};
use yettuvam_wgsl_write_expressions::context::{Context, push_type};
use yettuvam_wgsl_write_expressions::operands::{Known, operand};
use yettuvam_wgsl_written::attributes::{push_attribute, push_binding};
use yettuvam_wgsl_written::written::push_value;
use yettuvam_wgsl_written::{Refusal, WriteResult};

type Pieces<'m> = Vec<Piece<'m>>;

const VERTEX: u64 = 0;

const FRAGMENT: u64 = 1;

const COMPUTE: u64 = 2;

// Appends `NAME: TYPE`.
#[tactic(auto, unfolding(crate::specs::Signatures::named_parameter))]
fn push_named_parameter<'m>(
    context: &Context<'m>,
    out: &mut Pieces<'m>,
    name: &'m str,
    ty: Handle<Type>,
    span: Span,
) -> WriteResult<()>
    ensures { Appends (spec.named_parameter (context_of context.now) name.now ty span)
        result out.old out.new }
{
    out.push(Piece::Word(name))?;
    out.push(Piece::Sign(Sign::Colon))?;
    push_type(context, out, ty.index(), span)
}

// Appends a comma, unless something is the last one.
fn push_comma(out: &mut Pieces<'_>, is_last: bool) -> Result<(), AllocError>
    ensures { Adds (sign_if (not is_last) Comma) result out.old out.new }
{
    if !is_last {
        out.push(Piece::Sign(Sign::Comma))?;
    }
    Ok(())
}

#[tactic(auto, unfolding(crate::specs::Signatures::parameter))]
fn push_parameter<'m>(
    context: &Context<'m>,
    out: &mut Pieces<'m>,
    name: &'m str,
    of: &'m FunctionArgument,
    is_last: bool,
    span: Span,
) -> WriteResult<()>
    ensures { Appends (spec.parameter (context_of context.now) name.now (argument_value of.now)
        is_last span) result out.old out.new }
{
    push_binding(out, of.binding, span)?;
    push_named_parameter(context, out, name, of.ty, span)?;
    Ok(push_comma(out, is_last)?)
}

fn is_empty(names: &[String]) -> bool
    ensures { result ≡ spec.is_empty (map string_bytes names.now) }
{
    match names {
        [] => true,
        [_, ..] => false,
    }
}

// Appends parameters, each with its name.
#[tactic(auto, unfolding(crate::specs::Signatures::each_parameter))]
fn push_parameters<'m>(
    context: &Context<'m>,
    out: &mut Pieces<'m>,
    names: &'m [String],
    of: &'m Function,
    span: Span,
) -> WriteResult<()>
    ensures { Makes (spec.put_parameters (context_of context.now) names.now of.now span)
        result out.old out.new }
{
    let mut rest = of.arguments.as_slice();
    let mut names = names;
    while let [argument, more @ ..] = rest {
        let [name, names_more @ ..] = names else {
            return Err(Refusal::NotInWgsl(span));
        };
        push_parameter(
            context,
            out,
            name.as_str(),
            argument,
            is_empty(names_more),
            span,
        )?;
        rest = more;
        names = names_more;
    }
    Ok(())
}

#[tactic(auto, unfolding(crate::specs::Signatures::result_type))]
fn push_result<'m>(
    context: &Context<'m>,
    out: &mut Pieces<'m>,
    of: Option<FunctionResult>,
    span: Span,
) -> WriteResult<()>
    ensures { Appends (spec.result_type (context_of context.now) of span) result out.old out.new }
{
    let Some(of) = of else {
        return Ok(());
    };
    out.push(Piece::Sign(Sign::Arrow))?;
    push_binding(out, of.binding, span)?;
    push_type(context, out, of.ty.index(), span)
}

/// Appends a function up to the `{` of its body. `names` are those of its arguments.
///
/// # Errors
/// `NotInWgsl` if WGSL has no such function, `Memory` if out of memory.
#[tactic(auto, unfolding(crate::specs::Signatures::put_head))]
pub fn push_function_head<'m>(
    context: &Context<'m>,
    out: &mut Pieces<'m>,
    name: &'m str,
    names: &'m [String],
    of: &'m Function,
    span: Span,
) -> WriteResult<()>
    ensures { Makes (spec.put_head (context_of context.now) (spec.head_of name.now names.now
        of.now) span) result out.old out.new }
{
    out.push(Piece::Sign(Sign::FnWord))?;
    out.push(Piece::Word(name))?;
    out.push(Piece::Sign(Sign::LeftParen))?;
    push_parameters(context, out, names, of, span)?;
    out.push(Piece::Sign(Sign::RightParen))?;
    push_result(context, out, of.result, span)?;
    Ok(out.push(Piece::Sign(Sign::LeftBrace))?)
}

// A size of a workgroup, and the global expression in place of it.
type Size = (u32, Option<Handle<Expression>>);

// Appends a size: a number, or the value of a global expression.
#[tactic(auto, unfolding(crate::specs::Signatures::dimension))]
fn push_dimension<'m>(known: Known<'_, 'm>, out: &mut Pieces<'m>, size: Size) -> WriteResult<()>
    ensures { Appends (spec.dimension (values_of known.now) size) result out.old out.new }
{
    let Some(value) = size.1 else {
        return Ok(out.push(Piece::Number(size.0 as u64))?);
    };
    let written = operand(known, value, Span::UNDEFINED)?;
    Ok(push_value(out, written, true)?)
}

// Appends a further size, if it is needed.
#[tactic(auto, unfolding(crate::specs::Signatures::further))]
fn push_further<'m>(
    known: Known<'_, 'm>,
    out: &mut Pieces<'m>,
    is_needed: bool,
    size: Size,
) -> WriteResult<()>
    ensures { Appends (spec.if_needed is_needed (spec.further (values_of known.now) size))
        result out.old out.new }
{
    if !is_needed {
        return Ok(());
    }
    out.push(Piece::Sign(Sign::Comma))?;
    push_dimension(known, out, size)
}

// Appends three sizes of a workgroup.
fn push_three_sizes<'m>(
    known: Known<'_, 'm>,
    out: &mut Pieces<'m>,
    x: Size,
    y: Size,
    z: Size,
) -> WriteResult<()>
    ensures { Appends (spec.three_sizes (values_of known.now) x y z) result out.old out.new }
{
    push_dimension(known, out, x)?;
    push_further(known, out, !(y.0 == 1 && z.0 == 1), y)?;
    push_further(known, out, z.0 != 1, z)
}

// Appends sizes of a workgroup, with values in place of some of them.
fn push_valued_sizes<'m>(
    known: Known<'_, 'm>,
    out: &mut Pieces<'m>,
    x: u32,
    y: u32,
    z: u32,
    values: &[Option<Handle<Expression>>],
) -> WriteResult<()>
    ensures { Appends (spec.valued_sizes (values_of known.now) x y z values.now)
        result out.old out.new }
{
    match values {
        [a, b, c] => push_three_sizes(known, out, (x, *a), (y, *b), (z, *c)),
        [] | [_] | [_, _] | [_, _, _, _, ..] => Err(Refusal::NotInWgsl(Span::UNDEFINED)),
    }
}

// Appends the sizes of a workgroup.
#[tactic(auto, unfolding(crate::specs::Signatures::sizes))]
fn push_sizes<'m>(
    known: Known<'_, 'm>,
    out: &mut Pieces<'m>,
    sizes: &[u32],
    values: &[Option<Handle<Expression>>],
) -> WriteResult<()>
    ensures { Appends (spec.sizes (values_of known.now) sizes.now values.now)
        result out.old out.new }
{
    match sizes {
        [x, y, z] => push_valued_sizes(known, out, *x, *y, *z, values),
        [] | [_] | [_, _] | [_, _, _, _, ..] => Err(Refusal::NotInWgsl(Span::UNDEFINED)),
    }
}

// The values in place of the sizes of a workgroup.
fn size_values(of: Option<[Option<Handle<Expression>>; 3]>) -> [Option<Handle<Expression>>; 3]
    ensures { result ≡ spec.values_by of }
{
    match of {
        Some(values) => values,
        None => [None, None, None],
    }
}

// Appends `@workgroup_size(`.
fn push_size_start(out: &mut Pieces<'_>) -> Result<(), AllocError>
    ensures { Adds spec.size_start result out.old out.new }
{
    push_attribute(out, "workgroup_size")?;
    Ok(out.push(Piece::Sign(Sign::LeftParen))?)
}

#[tactic(auto, unfolding(crate::specs::Signatures::workgroup_size))]
fn push_workgroup_size<'m>(
    known: Known<'_, 'm>,
    out: &mut Pieces<'m>,
    of: &EntryPoint,
) -> WriteResult<()>
    ensures { Appends (spec.workgroup_size (values_of known.now) (spec.stage_of of.now))
        result out.old out.new }
{
    push_size_start(out)?;
    let values = size_values(of.workgroup_size_overrides);
    push_sizes(known, out, &of.workgroup_size, &values)?;
    Ok(out.push(Piece::Sign(Sign::RightParen))?)
}

// Appends the attributes of an entry point.
#[tactic(auto, unfolding(crate::specs::Signatures::stage))]
fn push_stage<'m>(known: Known<'_, 'm>, out: &mut Pieces<'m>, of: &EntryPoint) -> WriteResult<()>
    ensures { Appends (spec.stage (values_of known.now) (spec.stage_of of.now))
        result out.old out.new }
{
    match of.stage {
        VERTEX => Ok(push_attribute(out, "vertex")?),
        FRAGMENT => Ok(push_attribute(out, "fragment")?),
        COMPUTE => {
            push_attribute(out, "compute")?;
            push_workgroup_size(known, out, of)
        }
        _ => Err(Refusal::NotInWgsl(Span::UNDEFINED)),
    }
}

/// Appends an entry point up to the `{` of its body. `known` are the global expressions, `names`
/// those of its arguments.
///
/// # Errors
/// `NotInWgsl` if WGSL has no such entry point, `Memory` if out of memory.
#[tactic(auto, unfolding(crate::specs::Signatures::put_entry_head))]
pub fn push_entry_point_head<'m>(
    context: &Context<'m>,
    known: Known<'_, 'm>,
    out: &mut Pieces<'m>,
    name: &'m str,
    names: &'m [String],
    of: &'m EntryPoint,
) -> WriteResult<()>
    ensures { Makes (spec.put_entry_head (inputs context.now known.now) (spec.entry_of name.now
        names.now of.now)) result out.old out.new }
{
    push_stage(known, out, of)?;
    push_function_head(context, out, name, names, &of.function, Span::UNDEFINED)
}
