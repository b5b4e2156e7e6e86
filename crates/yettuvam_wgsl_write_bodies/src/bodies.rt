// A body before its first token, and its whole text.
ghost use Rattle.std.specs.Prelude.{◌≡◌, IfOk, Ok, map};
ghost use Rattle.naga_oil_ir.specs.ModuleValue.{function_value};
ghost use Rattle.yettuvam_wgsl_local_names.specs.LocalNames.{names_value};
ghost use Rattle.yettuvam_wgsl_uses.specs.Uses.{uses_value};
ghost use Rattle.yettuvam_wgsl_write_bodies.specs.Bodies as spec;
ghost use Rattle.yettuvam_wgsl_write_bodies.specs.Setting.{setting_of};
ghost use Rattle.yettuvam_wgsl_write_bodies.specs.Writer.{state_of};
ghost use Rattle.yettuvam_wgsl_write_expressions.specs.Context.{context_of};
ghost use Rattle.yettuvam_wgsl_write_items.specs.Text.{Appends};
ghost use Rattle.yettuvam_wgsl_write_types.specs.Types.{values_of};
ghost use Rattle.yettuvam_wgsl_written.specs.Outcomes.{Finds};
ghost use Rattle.yettuvam_wgsl_written_names.specs.Items.{Becomes};

use crate::setting::{Setting, local_type};
use crate::values::first_values;
use crate::writer::Writer;
use naga_oil_ir::{Function, Index, LocalVariable, Operand, Span, Token};
use std::alloc::{AllocError, Global};
use yettuvam_wgsl_counts::Declared;
use yettuvam_wgsl_local_names::LocalNames;
use yettuvam_wgsl_pieces::{Piece, Sign};
use yettuvam_wgsl_uses::Uses;
use yettuvam_wgsl_write_blocks::blocks::no_blocks;
use yettuvam_wgsl_write_blocks::{PartKind, Pieces, push_parts, simple_part};
use yettuvam_wgsl_write_expressions::context::Context;
use yettuvam_wgsl_write_expressions::operands::Known;
use yettuvam_wgsl_write_globals::shapes_of;
use yettuvam_wgsl_write_statements::push_local;
use yettuvam_wgsl_written::WriteResult;

// ---- local variables that are declared before the first statement

fn local_init(of: &Function, local: usize) -> Option<Operand>
    ensures { result ≡ spec.local_init (function_value of.now) local }
{
    let local: Option<&LocalVariable> = of.local_variables.try_get(Index::new(local));
    match local {
        Some(local) => local.init,
        None => None,
    }
}

fn local_span(of: &Function, local: usize) -> Span
    ensures { result ≡ spec.local_span (function_value of.now) local }
{
    of.local_variables.get_span(Index::new(local))
}

fn push_declaration<'m>(
    s: &Setting<'_, 'm>,
    known: Known<'_, 'm>,
    out: &mut Pieces<'m>,
    local: usize,
) -> WriteResult<()>
    ensures { Appends (spec.declaration (setting_of s.now) (values_of known.now) local) result out.old out.new }
{
    push_local(
        &s.scope(local_span(s.of, local)),
        known,
        out,
        s.local_name(local),
        local_type(s.of, local),
        local_init(s.of, local),
        false,
    )
}

#[tactic(auto, unfolding(crate::specs::Bodies::declare_local))]
fn declare_local<'m>(writer: &mut Writer<'m>, s: &Setting<'_, 'm>, local: usize) -> WriteResult<()>
    ensures { Becomes (spec.declare_local (setting_of s.now) local (state_of writer.old)) result (state_of writer.new) }
{
    let alloc = s.context.alloc;
    let mut text = Vec::new(alloc);
    push_declaration(s, &writer.known, &mut text, local)?;
    let part = simple_part(alloc, PartKind::Declaration, text)?;
    Ok(writer.blocks.add(part)?)
}

fn declare_any<'m>(
    writer: &mut Writer<'m>,
    s: &Setting<'_, 'm>,
    local: usize,
    declared: Declared,
) -> WriteResult<()>
    ensures { Becomes (spec.declare_any (setting_of s.now) local declared (state_of writer.old)) result (state_of writer.new) }
{
    match declared {
        Declared::AtTop => declare_local(writer, s, local),
        _ => Ok(()),
    }
}

// Declares the local variables that are declared before the first statement.
#[tactic(auto, unfolding(crate::specs::Bodies::declare_all))]
fn declare_all<'m>(writer: &mut Writer<'m>, s: &Setting<'_, 'm>) -> WriteResult<()>
    ensures { Becomes (spec.declare_locals (setting_of s.now) (state_of writer.old)) result (state_of writer.new) }
{
    let count = s.uses.locals.len();
    let mut rest = s.uses.locals.as_slice();
    while let [declared, more @ ..] = rest {
        declare_any(writer, s, count.saturating_sub(rest.len()), *declared)?;
        rest = more;
    }
    Ok(())
}

// ---- the whole body

fn started<'m>(s: &Setting<'_, 'm>) -> WriteResult<Writer<'m>>
    ensures { Finds state_of result (Ok (spec.started (setting_of s.now))) }
{
    let known = first_values(s)?;
    Ok(Writer {
        blocks: no_blocks(s.context.alloc),
        known,
        span: Span::UNDEFINED,
    })
}

#[tactic(auto, unfolding(crate::specs::Bodies::written))]
fn written<'m>(s: &Setting<'_, 'm>, tokens: &[Token]) -> WriteResult<Writer<'m>>
    ensures { Finds state_of result (spec.written (setting_of s.now) tokens.now) }
{
    let mut writer = started(s)?;
    declare_all(&mut writer, s)?;
    writer.run(s, tokens)?;
    Ok(writer)
}

#[tactic(auto, unfolding(crate::specs::Bodies::text))]
fn push_text<'m>(s: &Setting<'_, 'm>, out: &mut Pieces<'m>, tokens: &[Token]) -> WriteResult<()>
    ensures { Appends (spec.text (setting_of s.now) tokens.now) result out.old out.new }
{
    let writer = written(s, tokens)?;
    push_parts(out, &writer.blocks.parts)?;
    Ok(out.push(Piece::Sign(Sign::RightBrace))?)
}

fn types_in(alloc: Global, locals: &[(LocalVariable, Span)]) -> Result<Vec<usize>, AllocError>
    ensures { IfOk result (λ v. v.items ≡ map (λ l. l.0.ty) locals.now) }
{
    locals.iter().map(|local| local.0.ty.index()).collect(alloc)
}

#[tactic(auto, using(crate::proofs::Types::same_locals))]
fn local_types(alloc: Global, of: &Function) -> Result<Vec<usize>, AllocError>
    ensures { IfOk result (λ v. v.items ≡ spec.local_types (function_value of.now)) }
{
    types_in(alloc, of.local_variables.as_slice())
}

/// Appends the statements of a function and its `}`. The tokens are those of its body, `names` and `uses` are its own.
///
/// # Errors
/// `NotInWgsl` if WGSL has no such body, `Memory` if out of memory.
#[tactic(auto, unfolding(crate::specs::Bodies::body), using(crate::proofs::Types::same_types))]
pub fn push_body<'m>(
    context: &Context<'m>,
    out: &mut Pieces<'m>,
    of: &'m Function,
    names: &'m LocalNames,
    uses: &Uses,
    tokens: &[Token],
) -> WriteResult<()>
    ensures { Appends (spec.body (context_of context.now) (function_value of.now) (names_value names.now) (uses_value uses.now) tokens.now) result out.old out.new }
{
    let locals = local_types(context.alloc, of)?;
    let shapes = shapes_of(context, of.expressions.as_slice(), &of.arguments, &locals)?;
    let s = Setting {
        context,
        of,
        names,
        uses,
        shapes: &shapes,
    };
    push_text(&s, out, tokens)
}
