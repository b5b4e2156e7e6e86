// Operands and arguments of expressions.
ghost use Rattle.std.specs.Prelude.{◌≡◌, ◌++◌, OnOk, map, option_map};
ghost use Rattle.yettuvam_wgsl_pieces.specs.Pieces.{piece_of};
ghost use Rattle.yettuvam_wgsl_write_expressions.specs.Context.{scope_of, type_text};
ghost use Rattle.yettuvam_wgsl_write_expressions.specs.Operands as spec;
ghost use Rattle.yettuvam_wgsl_write_types.specs.Types.{values_of};
ghost use Rattle.yettuvam_wgsl_written.specs.Outcomes.{Puts, Finds};
ghost use Rattle.yettuvam_wgsl_written.specs.Written.{written_of};
ghost use Rattle.yettuvam_wgsl_written_names.specs.Items.{Becomes};
ghost use Rattle.yettuvam_wgsl_written.specs.declared.refusal.Refusal.TheVariants.{NotInWgsl};

use crate::context::{Scope, push_type};
use naga_oil_ir::{Operand, Span};
use std::alloc::AllocError;
use yettuvam_wgsl_pieces::{Piece, Sign};
use yettuvam_wgsl_written::attributes::push_word;
use yettuvam_wgsl_written::written::push_argument;
use yettuvam_wgsl_written::{Refusal, WriteResult, Written};

/// The earlier expressions.
pub type Known<'k, 'm> = &'k [Written<'m>];

fn is_written(pieces: &[Piece<'_>]) -> bool
    ensures { result ≡ spec.is_written (map piece_of pieces.now) }
{
    match pieces {
        [] => false,
        [_, ..] => true,
    }
}

/// Returns the earlier expression at a place.
///
/// # Errors
/// If there is none, or it isn't written.
pub fn operand<'k, 'm>(
    known: Known<'k, 'm>,
    operand: Operand,
    span: Span,
) -> WriteResult<&'k Written<'m>>
    ensures { Finds (λ w. written_of w.now) result (spec.operand (values_of known.now) operand span) }
{
    let Some(written) = known.get(operand.index()) else {
        return Err(Refusal::NotInWgsl(span));
    };
    if is_written(&written.pieces) {
        Ok(written)
    } else {
        Err(Refusal::NotInWgsl(span))
    }
}

fn is_last(rest: &[Operand]) -> bool
    ensures { result ≡ spec.is_last rest.now }
{
    match rest {
        [] => true,
        [_, ..] => false,
    }
}

// Appends an argument that is an earlier expression.
fn push_operand<'m>(
    known: Known<'_, 'm>,
    out: &mut Vec<Piece<'m>>,
    of: Operand,
    is_last: bool,
    span: Span,
) -> WriteResult<()>
    ensures { Puts (spec.argument (values_of known.now) of is_last span) result (map piece_of out.old.items) (map piece_of out.new.items) }
{
    let written = operand(known, of, span)?;
    Ok(push_argument(out, written, is_last)?)
}

// Appends each argument with the comma after it, and `)`.
#[tactic(auto, unfolding(crate::specs::Operands::arguments_from))]
fn push_each_argument<'m>(
    known: Known<'_, 'm>,
    out: &mut Vec<Piece<'m>>,
    arguments: &[Operand],
    span: Span,
) -> WriteResult<()>
    ensures { Becomes (spec.arguments_from (map piece_of out.old.items) (values_of known.now) arguments.now span) result (map piece_of out.new.items) }
{
    let mut rest = arguments;
    while let [argument, more @ ..] = rest {
        push_operand(known, out, *argument, is_last(more), span)?;
        rest = more;
    }
    Ok(out.push(Piece::Sign(Sign::RightParen))?)
}

/// Appends each argument with the comma after it, and `)`.
///
/// # Errors
/// `NotInWgsl` if one isn't written, `Memory` if out of memory.
pub fn push_arguments_end<'m>(
    known: Known<'_, 'm>,
    out: &mut Vec<Piece<'m>>,
    arguments: &[Operand],
    span: Span,
) -> WriteResult<()>
    ensures { Puts (spec.arguments_end (values_of known.now) arguments.now span) result (map piece_of out.old.items) (map piece_of out.new.items) }
{
    push_each_argument(known, out, arguments, span)
}

/// Appends arguments in parentheses.
///
/// # Errors
/// `NotInWgsl` if one isn't written, `Memory` if out of memory.
#[tactic(auto, unfolding(crate::specs::Operands::arguments))]
pub fn push_arguments<'m>(
    scope: &Scope<'_, 'm>,
    known: Known<'_, 'm>,
    out: &mut Vec<Piece<'m>>,
    arguments: &[Operand],
) -> WriteResult<()>
    ensures { Puts (spec.arguments (values_of known.now) arguments.now (scope_of scope.now).span) result (map piece_of out.old.items) (map piece_of out.new.items) }
{
    out.push(Piece::Sign(Sign::LeftParen))?;
    push_arguments_end(known, out, arguments, scope.span)
}

/// Appends a word and arguments.
///
/// # Errors
/// `NotInWgsl` if there is no word or an argument isn't written, `Memory` if out of memory.
#[tactic(auto, unfolding(crate::specs::Operands::call))]
pub fn push_call<'m>(
    scope: &Scope<'_, 'm>,
    known: Known<'_, 'm>,
    out: &mut Vec<Piece<'m>>,
    name: Option<&'static str>,
    arguments: &[Operand],
) -> WriteResult<()>
    ensures { Puts (spec.call (option_map (λ n. n.now) name.entry) (values_of known.now) arguments.now (scope_of scope.now).span) result (map piece_of out.old.items) (map piece_of out.new.items) }
{
    push_word(out, name, scope.span)?;
    push_arguments(scope, known, out, arguments)
}

// Appends a word of the language and arguments.
#[tactic(auto, unfolding(crate::specs::Operands::named_call))]
fn push_named_call<'m>(
    scope: &Scope<'_, 'm>,
    known: Known<'_, 'm>,
    out: &mut Vec<Piece<'m>>,
    name: &'static str,
    arguments: &[Operand],
) -> WriteResult<()>
    ensures { Puts (spec.named_call name.now (values_of known.now) arguments.now (scope_of scope.now).span) result (map piece_of out.old.items) (map piece_of out.new.items) }
{
    out.push(Piece::Word(name))?;
    push_arguments(scope, known, out, arguments)
}

/// Appends `select` and arguments.
///
/// # Errors
/// `NotInWgsl` if an argument isn't written, `Memory` if out of memory.
pub fn push_select_call<'m>(
    scope: &Scope<'_, 'm>,
    known: Known<'_, 'm>,
    out: &mut Vec<Piece<'m>>,
    arguments: &[Operand],
) -> WriteResult<()>
    ensures { Puts (spec.select_call (values_of known.now) arguments.now (scope_of scope.now).span) result (map piece_of out.old.items) (map piece_of out.new.items) }
{
    push_named_call(scope, known, out, "select", arguments)
}

/// Appends `arrayLength` and arguments.
///
/// # Errors
/// `NotInWgsl` if an argument isn't written, `Memory` if out of memory.
pub fn push_length_call<'m>(
    scope: &Scope<'_, 'm>,
    known: Known<'_, 'm>,
    out: &mut Vec<Piece<'m>>,
    arguments: &[Operand],
) -> WriteResult<()>
    ensures { Puts (spec.length_call (values_of known.now) arguments.now (scope_of scope.now).span) result (map piece_of out.old.items) (map piece_of out.new.items) }
{
    push_named_call(scope, known, out, "arrayLength", arguments)
}

/// Appends `textureStore` and arguments.
///
/// # Errors
/// `NotInWgsl` if an argument isn't written, `Memory` if out of memory.
pub fn push_store_call<'m>(
    scope: &Scope<'_, 'm>,
    known: Known<'_, 'm>,
    out: &mut Vec<Piece<'m>>,
    arguments: &[Operand],
) -> WriteResult<()>
    ensures { Puts (spec.store_call (values_of known.now) arguments.now (scope_of scope.now).span) result (map piece_of out.old.items) (map piece_of out.new.items) }
{
    push_named_call(scope, known, out, "textureStore", arguments)
}

impl<'a, 'm> Scope<'a, 'm> {
    /// Returns the refusal of what stands in the scope.
    pub fn refused(&self) -> Refusal
        ensures { result ≡ NotInWgsl (scope_of self.now).span }
    {
        Refusal::NotInWgsl(self.span)
    }

    /// Returns how an earlier expression is written.
    ///
    /// # Errors
    /// If there is none, or it isn't written.
    pub fn operand<'k>(&self, known: Known<'k, 'm>, of: Operand) -> WriteResult<&'k Written<'m>>
        ensures { Finds (λ w. written_of w.now) result (spec.operand (values_of known.now) of (scope_of self.now).span) }
    {
        operand(known, of, self.span)
    }

    /// Appends a type.
    ///
    /// # Errors
    /// If the type isn't written, or out of memory.
    pub fn push_type(&self, out: &mut Vec<Piece<'m>>, ty: usize) -> WriteResult<()>
        ensures { let s = scope_of self.now in
            Puts (type_text s.context ty s.span) result (map piece_of out.old.items) (map piece_of out.new.items) }
    {
        push_type(self.context, out, ty, self.span)
    }
}

/// Appends an operand that may be absent.
///
/// # Errors
/// If out of memory.
pub fn push_some(list: &mut Vec<Operand>, operand: Option<Operand>) -> Result<(), AllocError>
    ensures { OnOk result (list.new.items ≡ list.old.items ++ spec.optional operand) }
{
    if let Some(operand) = operand {
        list.push(operand)?;
    }
    Ok(())
}
