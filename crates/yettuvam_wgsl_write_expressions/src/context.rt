// What writing knows of a module, and of where an expression stands.
ghost use Rattle.std.specs.Prelude.{◌≡◌, map, option_map};
ghost use Rattle.naga_oil_ir.specs.Rows.{type_row, constant_row, override_row, global_row};
ghost use Rattle.yettuvam_wgsl_pieces.specs.Pieces.{piece_of};
ghost use Rattle.yettuvam_wgsl_write_expressions.specs.Context as spec;
ghost use Rattle.yettuvam_wgsl_write_expressions.specs.Context.{context_of, scope_of};
ghost use Rattle.yettuvam_wgsl_write_types.specs.Texts.{texts_of};
ghost use Rattle.yettuvam_wgsl_written.specs.Outcomes.{Puts};

use crate::shapes::Shape;
use naga_oil_ir::{
    Constant, Function, FunctionArgument, FunctionResult, GlobalVariable, Handle, Index, Module,
    Override, Span, Type,
};
use std::alloc::Global;
use yettuvam_wgsl_pieces::{Piece, Sign};
use yettuvam_wgsl_write_types::texts::is_set;
use yettuvam_wgsl_written::{Refusal, WriteResult};
use yettuvam_wgsl_written_names::ItemNames;

/// What writing knows of a module.
#[derive(Drop)]
pub struct Context<'m> {
    pub alloc: Global,
    pub of: &'m Module,
    pub names: &'m ItemNames,
    /// How each type is written where it is used.
    pub types: Vec<Vec<Piece<'m>>>,
    /// Whether a declaration of the type is written with the type.
    pub told: Vec<bool>,
}

/// The names of the arguments and locals of a function.
#[derive(Clone, Copy)]
pub struct Own<'m> {
    pub arguments: &'m [String],
    pub locals: &'m [Option<String>],
}

/// Where an expression stands.
#[derive(Clone, Copy)]
pub struct Scope<'a, 'm> {
    pub context: &'a Context<'m>,
    pub own: Own<'m>,
    /// The types of the arguments of the function.
    pub arguments: &'m [FunctionArgument],
    /// The types of the values of the earlier expressions.
    pub shapes: &'a [Shape],
    pub span: Span,
}

/// Returns the type at a place.
pub fn type_at<'m>(context: &Context<'m>, place: usize) -> Option<&'m Type>
    ensures { option_map (λ t. type_row t.now) result ≡ spec.type_at (context_of context.now) place }
{
    context.of.types.get_handle(Index::new(place))
}

/// Returns the constant at a place.
pub fn constant_at<'m>(context: &Context<'m>, place: Handle<Constant>) -> Option<&'m Constant>
    ensures { option_map (λ t. constant_row t.now) result ≡ spec.constant_at (context_of context.now) place }
{
    context.of.constants.try_get(place)
}

/// Returns the override at a place.
pub fn override_at<'m>(context: &Context<'m>, place: Handle<Override>) -> Option<&'m Override>
    ensures { option_map (λ t. override_row t.now) result ≡ spec.override_at (context_of context.now) place }
{
    context.of.overrides.try_get(place)
}

/// Returns the global variable at a place.
pub fn global_at<'m>(
    context: &Context<'m>,
    place: Handle<GlobalVariable>,
) -> Option<&'m GlobalVariable>
    ensures { option_map (λ t. global_row t.now) result ≡ spec.global_at (context_of context.now) place }
{
    context.of.global_variables.try_get(place)
}

/// Returns the result of the function at a place.
pub fn result_at(context: &Context<'_>, place: Handle<Function>) -> Option<FunctionResult>
    ensures { result ≡ spec.result_at (context_of context.now) place }
{
    match context.of.functions.try_get(place) {
        Some(of) => of.result,
        None => None,
    }
}

// Appends pieces, of which there must be some.
fn push_filled<'m>(out: &mut Vec<Piece<'m>>, pieces: &[Piece<'m>], span: Span) -> WriteResult<()>
    ensures { Puts (spec.filled (map piece_of pieces.now) span) result (map piece_of out.old.items) (map piece_of out.new.items) }
{
    match pieces {
        [] => Err(Refusal::NotInWgsl(span)),
        [_, ..] => Ok(out.extend_from_slice(pieces)?),
    }
}

// Appends the text at a place.
fn push_text_in<'m>(
    out: &mut Vec<Piece<'m>>,
    types: &[Vec<Piece<'m>>],
    ty: usize,
    span: Span,
) -> WriteResult<()>
    ensures { Puts (spec.text_in (texts_of types.now) ty span) result (map piece_of out.old.items) (map piece_of out.new.items) }
{
    match types.get(ty) {
        Some(pieces) => push_filled(out, pieces, span),
        None => Err(Refusal::NotInWgsl(span)),
    }
}

/// Appends a type where it is used.
///
/// # Errors
/// `NotInWgsl` if the type isn't written, `Memory` if out of memory.
pub fn push_type<'m>(
    context: &Context<'m>,
    out: &mut Vec<Piece<'m>>,
    ty: usize,
    span: Span,
) -> WriteResult<()>
    ensures { Puts (spec.type_text (context_of context.now) ty span) result (map piece_of out.old.items) (map piece_of out.new.items) }
{
    push_text_in(out, &context.types, ty, span)
}

/// Returns whether a declaration of a type is written with the type.
pub fn is_told(context: &Context<'_>, ty: usize) -> bool
    ensures { result ≡ spec.is_told (context_of context.now) ty }
{
    is_set(&context.told, ty)
}

// Appends `: TYPE` if a declaration is written with the type.
fn push_type_mark<'m>(
    context: &Context<'m>,
    out: &mut Vec<Piece<'m>>,
    ty: usize,
    span: Span,
) -> WriteResult<()>
    ensures { Puts (spec.type_mark (context_of context.now) ty span) result (map piece_of out.old.items) (map piece_of out.new.items) }
{
    if !is_told(context, ty) {
        return Ok(());
    }
    out.push(Piece::Sign(Sign::Colon))?;
    push_type(context, out, ty, span)
}

/// Appends `NAME`, and `: TYPE` if a declaration is written with the type.
///
/// # Errors
/// `NotInWgsl` if the type isn't written, `Memory` if out of memory.
#[tactic(auto, unfolding(crate::specs::Context::declared))]
pub fn push_declared<'m>(
    context: &Context<'m>,
    out: &mut Vec<Piece<'m>>,
    name: &'m str,
    ty: usize,
    span: Span,
) -> WriteResult<()>
    ensures { Puts (spec.declared (context_of context.now) name.now ty span) result (map piece_of out.old.items) (map piece_of out.new.items) }
{
    out.push(Piece::Word(name))?;
    push_type_mark(context, out, ty, span)
}
