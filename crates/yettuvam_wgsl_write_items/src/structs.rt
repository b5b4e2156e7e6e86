// Types that have names: structs and aliases.
ghost use Rattle.naga_oil_ir.specs.Rows.{type_row};
ghost use Rattle.yettuvam_wgsl_write_expressions.specs.Context.{context_of};
ghost use Rattle.yettuvam_wgsl_write_items.specs.Items as spec;
ghost use Rattle.yettuvam_wgsl_write_items.specs.Text.{Adds, Appends, Makes, text_of};

use naga_oil_ir::{Handle, Span, StructMember, Type, TypeInner};
use std::alloc::AllocError;
use yettuvam_wgsl_pieces::{Piece, Sign};
use yettuvam_wgsl_write_expressions::context::{Context, push_type};
use yettuvam_wgsl_write_types::codes::ALIAS;
use yettuvam_wgsl_written::attributes::{push_binding, push_number_attribute};
use yettuvam_wgsl_written::{Refusal, WriteResult};

type Pieces<'m> = Vec<Piece<'m>>;

// Appends `@size(SIZE)`, unless it is 0.
fn push_size(out: &mut Pieces<'_>, size: u32) -> Result<(), AllocError>
    ensures { Adds (spec.size_attribute size) result out.old out.new }
{
    if size == 0 {
        return Ok(());
    }
    push_number_attribute(out, "size", size as u64)
}

// Appends a name that a member must have.
fn push_name<'m>(out: &mut Pieces<'m>, name: &'m Option<String>, span: Span) -> WriteResult<()>
    ensures { Appends (spec.given_name (text_of name.now) span) result out.old out.new }
{
    match name {
        Some(name) => Ok(out.push(Piece::Word(name.as_str()))?),
        None => Err(Refusal::NotInWgsl(span)),
    }
}

// Appends `NAME: TYPE,`.
#[tactic(auto, unfolding(crate::specs::Items::typed_member))]
fn push_typed_member<'m>(
    context: &Context<'m>,
    out: &mut Pieces<'m>,
    name: &'m Option<String>,
    ty: Handle<Type>,
    span: Span,
) -> WriteResult<()>
    ensures { Appends (spec.typed_member (context_of context.now) (text_of name.now) ty span)
        result out.old out.new }
{
    push_name(out, name, span)?;
    out.push(Piece::Sign(Sign::Colon))?;
    push_type(context, out, ty.index(), span)?;
    Ok(out.push(Piece::Sign(Sign::MemberComma))?)
}

#[tactic(auto, unfolding(crate::specs::Items::member))]
fn push_struct_member<'m>(
    context: &Context<'m>,
    out: &mut Pieces<'m>,
    member: &'m StructMember,
    span: Span,
) -> WriteResult<()>
    ensures { Appends (spec.member_of (context_of context.now) member.now span)
        result out.old out.new }
{
    push_size(out, member.offset)?;
    push_binding(out, member.binding, span)?;
    push_typed_member(context, out, &member.name, member.ty, span)
}

#[tactic(auto, unfolding(crate::specs::Items::each_member))]
fn push_members<'m>(
    context: &Context<'m>,
    out: &mut Pieces<'m>,
    members: &'m [StructMember],
    span: Span,
) -> WriteResult<()>
    ensures { Makes (spec.put_members (context_of context.now) members.now span)
        result out.old out.new }
{
    let mut rest = members;
    while let [member, more @ ..] = rest {
        push_struct_member(context, out, member, span)?;
        rest = more;
    }
    Ok(())
}

#[tactic(auto, unfolding(crate::specs::Items::put_struct))]
fn push_struct<'m>(
    context: &Context<'m>,
    out: &mut Pieces<'m>,
    name: &'m str,
    members: &'m [StructMember],
    span: Span,
) -> WriteResult<()>
    ensures { Makes (spec.put_struct_of (context_of context.now) name.now members.now span)
        result out.old out.new }
{
    out.push(Piece::Sign(Sign::StructWord))?;
    out.push(Piece::Word(name))?;
    out.push(Piece::Sign(Sign::LeftBrace))?;
    push_members(context, out, members, span)?;
    Ok(out.push(Piece::Sign(Sign::RightBrace))?)
}

#[tactic(auto, unfolding(crate::specs::Items::alias))]
fn push_alias<'m>(
    context: &Context<'m>,
    out: &mut Pieces<'m>,
    name: &'m str,
    base: Handle<Type>,
    span: Span,
) -> WriteResult<()>
    ensures { Appends (spec.alias (context_of context.now) name.now base span)
        result out.old out.new }
{
    out.push(Piece::Sign(Sign::AliasWord))?;
    out.push(Piece::Word(name))?;
    out.push(Piece::Sign(Sign::Equal))?;
    push_type(context, out, base.index(), span)?;
    Ok(out.push(Piece::Sign(Sign::Semicolon))?)
}

// Appends a pointer type with a name: an alias.
fn push_pointer<'m>(
    context: &Context<'m>,
    out: &mut Pieces<'m>,
    name: &'m str,
    base: Handle<Type>,
    space: u64,
    span: Span,
) -> WriteResult<()>
    ensures { Makes (spec.put_pointer (context_of context.now) name.now base space span)
        result out.old out.new }
{
    if space == ALIAS {
        push_alias(context, out, name, base, span)
    } else {
        Err(Refusal::NotInWgsl(span))
    }
}

/// Appends the declaration of a type that has a name.
///
/// # Errors
/// `NotInWgsl` if the type is neither a struct nor an alias, or a type in it isn't written.
/// `Memory` if out of memory.
#[tactic(auto, unfolding(crate::specs::Items::put_named))]
pub fn push_named_type<'m>(
    context: &Context<'m>,
    out: &mut Pieces<'m>,
    name: &'m str,
    of: &'m Type,
    span: Span,
) -> WriteResult<()>
    ensures { Makes (spec.put_named (context_of context.now) name.now (type_row of.now) span)
        result out.old out.new }
{
    match &of.inner {
        TypeInner::Struct { members, .. } => push_struct(context, out, name, members, span),
        TypeInner::Pointer { base, space } => {
            push_pointer(context, out, name, *base, *space, span)
        }
        _ => Err(Refusal::NotInWgsl(span)),
    }
}
