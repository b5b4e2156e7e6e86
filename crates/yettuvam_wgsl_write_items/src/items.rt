// Declarations of types, constants, overrides and global variables.
ghost use Rattle.std.specs.Prelude.{◌≡◌};
ghost use Rattle.naga_oil_ir.specs.Rows.{type_row, constant_row, override_row, global_row};
ghost use Rattle.yettuvam_wgsl_write_expressions.specs.Context.{context_of};
ghost use Rattle.yettuvam_wgsl_write_items.specs.Items as spec;
ghost use Rattle.yettuvam_wgsl_write_items.specs.Text.{Adds, Appends, Makes, inputs, name_of};
ghost use Rattle.yettuvam_wgsl_write_types.specs.Types.{values_of};
ghost use Rattle.yettuvam_wgsl_written_names.specs.Items.{texts};

use crate::structs::push_named_type;
use naga_oil_ir::{Constant, Expression, GlobalVariable, Handle, Override, Span, Type};
use std::alloc::AllocError;
use yettuvam_wgsl_pieces::{Piece, Sign};
use yettuvam_wgsl_write_expressions::context::{Context, push_declared};
use yettuvam_wgsl_write_expressions::operands::{Known, operand};
use yettuvam_wgsl_write_types::codes::HANDLE_SPACE;
use yettuvam_wgsl_write_types::types::push_space_access;
use yettuvam_wgsl_written::attributes::{push_number_attribute, push_word};
use yettuvam_wgsl_written::codes::space_name;
use yettuvam_wgsl_written::written::push_value;
use yettuvam_wgsl_written::{Refusal, WriteResult};

type Pieces<'m> = Vec<Piece<'m>>;

/// The group of a resource; the first part is its binding.
const GROUP_UNIT: u64 = 4_294_967_296;

// The first name of a list.
fn first_name(names: &[Option<String>]) -> Option<&str>
    ensures { name_of result ≡ spec.first_name (texts names.now) }
{
    match names {
        [Some(name), ..] => Some(name.as_str()),
        _ => None,
    }
}

fn after_first(names: &[Option<String>]) -> &[Option<String>]
    ensures { texts result.now ≡ spec.after_first (texts names.now) }
{
    match names {
        [_, more @ ..] => more,
        [] => names,
    }
}

/// Appends `= VALUE`.
///
/// # Errors
/// `NotInWgsl` if the value isn't written, `Memory` if out of memory.
#[tactic(auto, unfolding(crate::specs::Items::initial_value))]
pub fn push_initial_value<'m>(
    known: Known<'_, 'm>,
    out: &mut Pieces<'m>,
    init: Handle<Expression>,
    span: Span,
) -> WriteResult<()>
    ensures { Appends (spec.initial_value (values_of known.now) init span) result out.old out.new }
{
    let value = operand(known, init, span)?;
    out.push(Piece::Sign(Sign::Equal))?;
    Ok(push_value(out, value, true)?)
}

fn push_some_initial<'m>(
    known: Known<'_, 'm>,
    out: &mut Pieces<'m>,
    init: Option<Handle<Expression>>,
    span: Span,
) -> WriteResult<()>
    ensures { Appends (spec.some_initial (values_of known.now) (spec.item_of init) span)
        result out.old out.new }
{
    match init {
        Some(init) => push_initial_value(known, out, init, span),
        None => Ok(()),
    }
}

// Appends `NAME`, `: TYPE`, `= VALUE` and `;`.
#[tactic(auto, unfolding(crate::specs::Items::declaration))]
fn push_declaration<'m>(
    context: &Context<'m>,
    known: Known<'_, 'm>,
    out: &mut Pieces<'m>,
    name: &'m str,
    ty: usize,
    init: Option<Handle<Expression>>,
    span: Span,
) -> WriteResult<()>
    ensures { Appends (spec.declaration (inputs context.now known.now) name.now ty (spec.item_of
        init) span) result out.old out.new }
{
    push_declared(context, out, name, ty, span)?;
    push_some_initial(known, out, init, span)?;
    Ok(out.push(Piece::Sign(Sign::Semicolon))?)
}

#[tactic(auto, unfolding(crate::specs::Items::constant))]
fn push_constant<'m>(
    context: &Context<'m>,
    known: Known<'_, 'm>,
    out: &mut Pieces<'m>,
    name: Option<&'m str>,
    of: &'m Constant,
    span: Span,
) -> WriteResult<()>
    ensures { Appends (spec.constant (inputs context.now known.now) (name_of name.entry)
        (constant_row of.now) span) result out.old out.new }
{
    let Some(name) = name else {
        return Err(Refusal::NotInWgsl(span));
    };
    out.push(Piece::Sign(Sign::ConstWord))?;
    push_declaration(
        context,
        known,
        out,
        name,
        of.ty.index(),
        Some(of.init),
        span,
    )
}

// Appends `@id(ID)`, if there is one.
fn push_id(out: &mut Pieces<'_>, id: Option<u64>) -> Result<(), AllocError>
    ensures { Adds (spec.id_attribute id) result out.old out.new }
{
    match id {
        Some(id) => push_number_attribute(out, "id", id),
        None => Ok(()),
    }
}

#[tactic(auto, unfolding(crate::specs::Items::of_override))]
fn push_override<'m>(
    context: &Context<'m>,
    known: Known<'_, 'm>,
    out: &mut Pieces<'m>,
    name: Option<&'m str>,
    of: &'m Override,
    span: Span,
) -> WriteResult<()>
    ensures { Appends (spec.of_override (inputs context.now known.now) (name_of name.entry)
        (override_row of.now) span) result out.old out.new }
{
    let Some(name) = name else {
        return Ok(());
    };
    push_id(out, of.id)?;
    out.push(Piece::Sign(Sign::OverrideWord))?;
    push_declaration(context, known, out, name, of.ty.index(), of.init, span)
}

// Appends the address space of a global variable, in template brackets.
#[tactic(auto, unfolding(crate::specs::Items::space))]
fn push_space(out: &mut Pieces<'_>, space: u64, span: Span) -> WriteResult<()>
    ensures { Appends (spec.space space span) result out.old out.new }
{
    if space == HANDLE_SPACE {
        return Ok(());
    }
    out.push(Piece::Sign(Sign::TemplateOpen))?;
    push_word(out, space_name(space % 16), span)?;
    push_space_access(out, space, span)?;
    Ok(out.push(Piece::Sign(Sign::TemplateClose))?)
}

// Appends `@group(GROUP) @binding(BINDING)`, if there is a binding.
fn push_resource(out: &mut Pieces<'_>, binding: Option<u64>) -> Result<(), AllocError>
    ensures { Adds (spec.resource binding) result out.old out.new }
{
    let Some(binding) = binding else {
        return Ok(());
    };
    push_number_attribute(out, "group", binding / GROUP_UNIT)?;
    push_number_attribute(out, "binding", binding % GROUP_UNIT)
}

#[tactic(auto, unfolding(crate::specs::Items::global))]
fn push_global<'m>(
    context: &Context<'m>,
    known: Known<'_, 'm>,
    out: &mut Pieces<'m>,
    name: Option<&'m str>,
    of: &'m GlobalVariable,
    span: Span,
) -> WriteResult<()>
    ensures { Appends (spec.global (inputs context.now known.now) (name_of name.entry)
        (global_row of.now) span) result out.old out.new }
{
    let Some(name) = name else {
        return Err(Refusal::NotInWgsl(span));
    };
    push_resource(out, of.binding)?;
    out.push(Piece::Sign(Sign::VarWord))?;
    push_space(out, of.space, span)?;
    push_declaration(context, known, out, name, of.ty.index(), of.init, span)
}

// Appends the declaration of a type, if it has a name.
fn push_some_type<'m>(
    context: &Context<'m>,
    out: &mut Pieces<'m>,
    name: Option<&'m str>,
    of: &'m Type,
    span: Span,
) -> WriteResult<()>
    ensures { Makes (spec.put_type (context_of context.now) (name_of name.entry) (type_row
        of.now) span) result out.old out.new }
{
    match name {
        Some(name) => push_named_type(context, out, name, of, span),
        None => Ok(()),
    }
}

#[tactic(auto, unfolding(crate::specs::Items::each_type))]
fn push_types<'m>(context: &Context<'m>, out: &mut Pieces<'m>) -> WriteResult<()>
    ensures { Makes (spec.put_types (context_of context.now)) result out.old out.new }
{
    let mut names = context.names.types.as_slice();
    for (ty, span) in context.of.types.iter() {
        push_some_type(context, out, first_name(names), ty, *span)?;
        names = after_first(names);
    }
    Ok(())
}

#[tactic(auto, unfolding(crate::specs::Items::each_constant))]
fn push_constants<'m>(
    context: &Context<'m>,
    known: Known<'_, 'm>,
    out: &mut Pieces<'m>,
) -> WriteResult<()>
    ensures { Makes (spec.put_constants (inputs context.now known.now)) result out.old out.new }
{
    let mut rest = context.of.constants.as_slice();
    let mut names = context.names.constants.as_slice();
    while let [(constant, span), more @ ..] = rest {
        push_constant(context, known, out, first_name(names), constant, *span)?;
        rest = more;
        names = after_first(names);
    }
    Ok(())
}

#[tactic(auto, unfolding(crate::specs::Items::each_override))]
fn push_overrides<'m>(
    context: &Context<'m>,
    known: Known<'_, 'm>,
    out: &mut Pieces<'m>,
) -> WriteResult<()>
    ensures { Makes (spec.put_overrides (inputs context.now known.now)) result out.old out.new }
{
    let mut rest = context.of.overrides.as_slice();
    let mut names = context.names.overrides.as_slice();
    while let [(of_override, span), more @ ..] = rest {
        push_override(context, known, out, first_name(names), of_override, *span)?;
        rest = more;
        names = after_first(names);
    }
    Ok(())
}

#[tactic(auto, unfolding(crate::specs::Items::each_global))]
fn push_globals<'m>(
    context: &Context<'m>,
    known: Known<'_, 'm>,
    out: &mut Pieces<'m>,
) -> WriteResult<()>
    ensures { Makes (spec.put_globals (inputs context.now known.now)) result out.old out.new }
{
    let mut rest = context.of.global_variables.as_slice();
    let mut names = context.names.globals.as_slice();
    while let [(global, span), more @ ..] = rest {
        push_global(context, known, out, first_name(names), global, *span)?;
        rest = more;
        names = after_first(names);
    }
    Ok(())
}

// Appends the declarations of types and constants.
#[tactic(auto, unfolding(crate::specs::Items::put_first))]
fn push_first<'m>(
    context: &Context<'m>,
    known: Known<'_, 'm>,
    out: &mut Pieces<'m>,
) -> WriteResult<()>
    ensures { Makes (spec.put_first (inputs context.now known.now)) result out.old out.new }
{
    push_types(context, out)?;
    push_constants(context, known, out)
}

// Appends the declarations of overrides and global variables.
#[tactic(auto, unfolding(crate::specs::Items::put_last))]
fn push_last<'m>(
    context: &Context<'m>,
    known: Known<'_, 'm>,
    out: &mut Pieces<'m>,
) -> WriteResult<()>
    ensures { Makes (spec.put_last (inputs context.now known.now)) result out.old out.new }
{
    push_overrides(context, known, out)?;
    push_globals(context, known, out)
}

/// Appends the declarations of the types that have names, and of constants, overrides and global
/// variables.
///
/// # Errors
/// `NotInWgsl` if WGSL has no such item, `Memory` if out of memory.
#[tactic(auto, unfolding(crate::specs::Items::put_items))]
pub fn push_items<'m>(
    context: &Context<'m>,
    known: Known<'_, 'm>,
    out: &mut Pieces<'m>,
) -> WriteResult<()>
    ensures { Makes (spec.put_items (inputs context.now known.now)) result out.old out.new }
{
    push_first(context, known, out)?;
    push_last(context, known, out)
}
