// What declares locals and values.
ghost use Rattle.std.specs.Prelude.{◌≡◌};
ghost use Rattle.naga_oil_ir.specs.Parts.{parts};
ghost use Rattle.naga_oil_ir.specs.Rows.{type_row};
ghost use Rattle.yettuvam_wgsl_write_expressions.specs.Context.{context_of, scope_of};
ghost use Rattle.yettuvam_wgsl_write_items.specs.Text.{Adds, Appends, name_of};
ghost use Rattle.yettuvam_wgsl_write_statements.specs.Declarations as spec;
ghost use Rattle.yettuvam_wgsl_write_types.specs.Types.{values_of};
ghost use Rattle.yettuvam_wgsl_written.specs.Written.{written_of};

use naga_oil_ir::{Expression, Handle, Operand, Type, TypeInner};
use std::alloc::AllocError;
use yettuvam_wgsl_pieces::{Piece, Sign};
use yettuvam_wgsl_write_expressions::context::{Context, Scope, is_told, push_declared, type_at};
use yettuvam_wgsl_write_expressions::operands::Known;
use yettuvam_wgsl_write_items::items::push_initial_value;
use yettuvam_wgsl_write_types::codes::{CONST_COPY, TYPED_CONST, TYPED_LET};
use yettuvam_wgsl_written::written::push_value;
use yettuvam_wgsl_written::{WriteResult, Written};

type Pieces<'m> = Vec<Piece<'m>>;

/// What declares a value: a `let` or a `const`, and the type that is written.
#[derive(Clone, Copy, PartialEq, Eq, Debug)]
pub struct ValueHead {
    pub is_const: bool,
    pub ty: Option<usize>,
}

fn head(is_const: bool, ty: Option<usize>) -> ValueHead
    ensures { result ≡ spec.head is_const ty }
{
    ValueHead { is_const, ty }
}

// The head of a copy, by its conversion.
fn copied_head(convert: u64) -> ValueHead
    ensures { result ≡ spec.copied_head convert }
{
    head(convert == CONST_COPY, None)
}

// The head of a value of a pointer type, which may be the mark of a type that is written.
fn marked_head(base: Handle<Type>, space: u64) -> ValueHead
    ensures { result ≡ spec.marked_head base space }
{
    if space == TYPED_LET {
        head(false, Some(base.index()))
    } else if space == TYPED_CONST {
        head(true, Some(base.index()))
    } else {
        head(false, None)
    }
}

fn head_of_type(of: &Type) -> ValueHead
    ensures { result ≡ spec.head_of_row (type_row of.now) }
{
    match &of.inner {
        TypeInner::Pointer { base, space } => marked_head(*base, *space),
        _ => head(false, None),
    }
}

// The head of a value that is composed of a type.
#[tactic(auto, unfolding(crate::specs::Declarations::composed_head))]
fn composed_head(context: &Context<'_>, ty: Handle<Type>) -> ValueHead
    ensures { result ≡ spec.composed_head (context_of context.now) ty }
{
    match type_at(context, ty.index()) {
        Some(of) => head_of_type(of),
        None => head(false, None),
    }
}

/// Returns what declares the value of an expression.
#[tactic(auto, unfolding(crate::specs::Declarations::value_head))]
pub fn value_head(context: &Context<'_>, of: &Expression) -> ValueHead
    ensures { result ≡ spec.value_head (context_of context.now) (parts of.now) }
{
    match of {
        Expression::As { convert, .. } => copied_head(*convert),
        Expression::Compose { ty, .. } => composed_head(context, *ty),
        _ => head(false, None),
    }
}

// Appends `: TYPE`, if the type is written.
fn push_head_type<'m>(
    scope: &Scope<'_, 'm>,
    out: &mut Pieces<'m>,
    ty: Option<usize>,
) -> WriteResult<()>
    ensures { Appends (spec.head_type (scope_of scope.now) ty) result out.old out.new }
{
    let Some(ty) = ty else {
        return Ok(());
    };
    out.push(Piece::Sign(Sign::Colon))?;
    scope.push_type(out, ty)
}

fn push_head_word(out: &mut Pieces<'_>, is_const: bool) -> Result<(), AllocError>
    ensures { Adds (spec.head_word is_const) result out.old out.new }
{
    if is_const {
        Ok(out.push(Piece::Sign(Sign::ConstWord))?)
    } else {
        Ok(out.push(Piece::Sign(Sign::LetWord))?)
    }
}

// Appends `let NAME: TYPE =`.
#[tactic(auto, unfolding(crate::specs::Declarations::head_text))]
fn push_head<'m>(
    scope: &Scope<'_, 'm>,
    out: &mut Pieces<'m>,
    name: &'m str,
    of: ValueHead,
) -> WriteResult<()>
    ensures { Appends (spec.head_text (scope_of scope.now) name.now of) result out.old out.new }
{
    push_head_word(out, of.is_const)?;
    out.push(Piece::Word(name))?;
    push_head_type(scope, out, of.ty)?;
    Ok(out.push(Piece::Sign(Sign::Equal))?)
}

/// Appends the declaration of a value that is written, without its `;`.
///
/// # Errors
/// `NotInWgsl` if a type isn't written, `Memory` if out of memory.
#[tactic(auto, unfolding(crate::specs::Declarations::value_declaration))]
pub fn push_value_declaration<'m>(
    scope: &Scope<'_, 'm>,
    out: &mut Pieces<'m>,
    name: &'m str,
    of: &Expression,
    written: &Written<'m>,
) -> WriteResult<()>
    ensures { Appends (spec.value_declaration (scope_of scope.now) name.now (parts of.now) (written_of written.now)) result out.old out.new }
{
    push_head(scope, out, name, value_head(scope.context, of))?;
    Ok(push_value(out, written, true)?)
}

/// Returns whether an expression is the zero of a type.
pub fn is_zero_of(of: &Expression, ty: usize) -> bool
    ensures { result ≡ spec.is_zero_of (parts of.now) ty }
{
    match of {
        Expression::ZeroValue(zero) => zero.index() == ty,
        _ => false,
    }
}

// Appends the first value of a local, unless it is the zero of a type that is written.
fn push_first_value<'m>(
    scope: &Scope<'_, 'm>,
    known: Known<'_, 'm>,
    out: &mut Pieces<'m>,
    value: Operand,
    is_left_out: bool,
) -> WriteResult<()>
    ensures { Appends (spec.first_value (values_of known.now) value is_left_out (scope_of scope.now).span) result out.old out.new }
{
    if is_left_out {
        return Ok(());
    }
    push_initial_value(known, out, value, scope.span)
}

// Appends the first value of a local, if there is one; else its type must be written.
fn push_local_end<'m>(
    scope: &Scope<'_, 'm>,
    known: Known<'_, 'm>,
    out: &mut Pieces<'m>,
    value: Option<Operand>,
    is_told: bool,
    is_zero: bool,
) -> WriteResult<()>
    ensures { Appends (spec.local_end (values_of known.now) value is_told is_zero (scope_of scope.now).span) result out.old out.new }
{
    match value {
        Some(value) => push_first_value(scope, known, out, value, is_told && is_zero),
        None => {
            if is_told {
                Ok(())
            } else {
                Err(scope.refused())
            }
        }
    }
}

/// Appends the declaration of a local of a type, with its first value if it is given. `is_zero` says whether the value
/// is the zero of the type.
///
/// # Errors
/// `NotInWgsl` if the local has no name, or neither a type nor a value that is written. `Memory` if out of memory.
#[tactic(auto, unfolding(crate::specs::Declarations::local))]
pub fn push_local<'m>(
    scope: &Scope<'_, 'm>,
    known: Known<'_, 'm>,
    out: &mut Pieces<'m>,
    name: Option<&'m str>,
    ty: usize,
    value: Option<Operand>,
    is_zero: bool,
) -> WriteResult<()>
    ensures { Appends (spec.local (scope_of scope.now) (values_of known.now) (name_of name.entry) ty value is_zero) result out.old out.new }
{
    let Some(name) = name else {
        return Err(scope.refused());
    };
    out.push(Piece::Sign(Sign::VarWord))?;
    push_declared(scope.context, out, name, ty, scope.span)?;
    let is_told = is_told(scope.context, ty);
    push_local_end(scope, known, out, value, is_told, is_zero)
}
