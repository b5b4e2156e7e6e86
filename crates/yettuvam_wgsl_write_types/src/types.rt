// All types of a module.
ghost use Rattle.std.specs.Prelude.{◌≡◌, is_some, map, option_map};
ghost use Rattle.naga_oil_ir.specs.Rows.{override_row, type_row, size_plain, size_name};
ghost use Rattle.yettuvam_wgsl_pieces.specs.Pieces.{piece_of};
ghost use Rattle.yettuvam_wgsl_write_types.specs.Texts.{texts_of};
ghost use Rattle.yettuvam_wgsl_write_types.specs.Types as spec;
ghost use Rattle.yettuvam_wgsl_write_types.specs.Types.{known_of, state_of};
ghost use Rattle.yettuvam_wgsl_written.specs.Outcomes.{Puts, Finds};
ghost use Rattle.yettuvam_wgsl_written_names.specs.Items.{Becomes};

use crate::codes::{ALIAS, TYPED_CONST, TYPED_LET};
use crate::plain::{push_atomic, push_scalar, push_texture, push_vector};
use crate::texts::{is_set, push_text};
use naga_oil_ir::{ArraySize, Expression, Handle, Module, Override, Span, Type, TypeInner};
use std::alloc::Global;
use yettuvam_wgsl_pieces::{Piece, Sign};
use yettuvam_wgsl_written::attributes::push_word;
use yettuvam_wgsl_written::codes::{
    access_name, matrix_name, sampler_name, scalar_name, space_name,
};
use yettuvam_wgsl_written::operators::fits_right;
use yettuvam_wgsl_written::written::push_value;
use yettuvam_wgsl_written::{Level, Refusal, WriteResult, Written};
use yettuvam_wgsl_written_names::{ItemNames, name_at};

/// How types and the values that sizes name are written.
#[derive(Drop)]
pub struct Known<'a, 'm> {
    pub alloc: Global,
    pub of: &'m Module,
    pub names: &'m ItemNames,
    /// Global expressions, if they are known.
    pub values: Option<&'a [Written<'m>]>,
}

type Pieces<'m> = Vec<Piece<'m>>;

/// Appends the access mode of a space, after a comma, if there is one.
///
/// # Errors
/// `NotInWgsl` if there is no such mode, `Memory` if out of memory.
#[tactic(auto, unfolding(crate::specs::Types::space_access))]
pub fn push_space_access(out: &mut Pieces<'_>, space: u64, span: Span) -> WriteResult<()>
    ensures { Puts (spec.space_access space span) result (map piece_of out.old.items) (map piece_of out.new.items) }
{
    if space / 16 == 0 {
        return Ok(());
    }
    out.push(Piece::Sign(Sign::Comma))?;
    push_word(out, access_name(space / 16), span)
}

#[tactic(auto, unfolding(crate::specs::Types::pointer))]
fn push_pointer<'m>(
    out: &mut Pieces<'m>,
    types: &[Pieces<'m>],
    base: Handle<Type>,
    space: u64,
    span: Span,
) -> WriteResult<()>
    ensures { Puts (spec.pointer (texts_of types.now) base space span) result (map piece_of out.old.items) (map piece_of out.new.items) }
{
    out.push(Piece::Word("ptr"))?;
    out.push(Piece::Sign(Sign::TemplateOpen))?;
    push_word(out, space_name(space % 16), span)?;
    out.push(Piece::Sign(Sign::Comma))?;
    push_text(out, types, base.index(), span)?;
    push_space_access(out, space, span)?;
    Ok(out.push(Piece::Sign(Sign::TemplateClose))?)
}

// Whether a space of a pointer type is a mark.
fn is_mark(space: u64) -> bool
    ensures { result ≡ spec.is_mark space }
{
    space == ALIAS || space == TYPED_LET || space == TYPED_CONST
}

fn push_pointer_or_base<'m>(
    out: &mut Pieces<'m>,
    types: &[Pieces<'m>],
    base: Handle<Type>,
    space: u64,
    span: Span,
) -> WriteResult<()>
    ensures { Puts (spec.pointer_or_base (texts_of types.now) base space span) result (map piece_of out.old.items) (map piece_of out.new.items) }
{
    if is_mark(space) {
        push_text(out, types, base.index(), span)
    } else {
        push_pointer(out, types, base, space, span)
    }
}

// Appends the value at a place as a size.
fn push_size_value<'m>(
    out: &mut Pieces<'m>,
    values: &[Written<'m>],
    place: usize,
    span: Span,
) -> WriteResult<()>
    ensures { Puts (spec.value_at (spec.values_of values.now) place span) result (map piece_of out.old.items) (map piece_of out.new.items) }
{
    match values.get(place) {
        Some(value) => Ok(push_value(out, value, fits_right(Level::Sum, value.level))?),
        None => Err(Refusal::NotInWgsl(span)),
    }
}

fn is_pending(size: ArraySize) -> bool
    ensures { result ≡ spec.is_pending (size_name size) }
{
    match size {
        ArraySize::Pending(_) => true,
        _ => false,
    }
}

// Whether a declaration is written with its type.
#[tactic(auto, unfolding(crate::specs::Types::is_told))]
fn is_told(told: &[bool], of: &Type) -> bool
    ensures { result ≡ spec.is_told told.now (type_row of.now) }
{
    match &of.inner {
        TypeInner::Scalar(code) => scalar_name(*code).is_some(),
        TypeInner::Vector(code) => code / 16 != 0,
        TypeInner::Matrix(code) => code / 256 != 0,
        TypeInner::Pointer { base, space } => *space < ALIAS && is_set(told, base.index()),
        TypeInner::Array { base, .. } | TypeInner::BindingArray { base, .. } => {
            is_set(told, base.index())
        }
        _ => true,
    }
}

impl<'a, 'm> Known<'a, 'm> {
    fn override_at(&self, of: Handle<Override>) -> Option<&Override>
        ensures { option_map (λ o. override_row o.now) result ≡ spec.row_at (known_of self.now).overrides of }
    {
        self.of.overrides.try_get(of)
    }

    // The initial value of an override.
    #[tactic(auto, using(crate::proofs::Getting::init_back))]
    fn override_init(&self, of: Handle<Override>) -> Option<Handle<Expression>>
        ensures { result ≡ spec.override_init (known_of self.now).overrides of }
    {
        match self.override_at(of) {
            Some(size) => size.init,
            None => None,
        }
    }

    #[tactic(auto, unfolding(crate::specs::Types::pending))]
    fn push_pending(
        &self,
        out: &mut Pieces<'m>,
        of: Handle<Override>,
        span: Span,
    ) -> WriteResult<()>
        ensures { Puts (spec.pending (known_of self.now) of span) result (map piece_of out.old.items) (map piece_of out.new.items) }
    {
        if let Some(name) = name_at(&self.names.overrides, of.index()) {
            return Ok(out.push(Piece::Word(name))?);
        }
        let Some(values) = self.values else {
            return Err(Refusal::NotInWgsl(span));
        };
        match self.override_init(of) {
            Some(init) => push_size_value(out, values, init.index(), span),
            None => Err(Refusal::NotInWgsl(span)),
        }
    }

    #[tactic(auto, unfolding(crate::specs::Types::size))]
    fn push_size(&self, out: &mut Pieces<'m>, size: ArraySize, span: Span) -> WriteResult<()>
        ensures { Puts (spec.size (known_of self.now) (size_plain size) (size_name size) span) result (map piece_of out.old.items) (map piece_of out.new.items) }
    {
        match size {
            ArraySize::Dynamic => Ok(()),
            ArraySize::Constant(count) => {
                out.push(Piece::Sign(Sign::Comma))?;
                Ok(out.push(Piece::Number(count as u64))?)
            }
            ArraySize::Pending(of) => {
                out.push(Piece::Sign(Sign::Comma))?;
                self.push_pending(out, of, span)
            }
        }
    }

    #[tactic(auto, unfolding(crate::specs::Types::sized))]
    fn push_sized(
        &self,
        out: &mut Pieces<'m>,
        types: &[Pieces<'m>],
        name: &'static str,
        base: Handle<Type>,
        size: ArraySize,
        span: Span,
    ) -> WriteResult<()>
        ensures { Puts (spec.sized (known_of self.now) (texts_of types.now) name.now base (size_plain size) (size_name size) span) result (map piece_of out.old.items) (map piece_of out.new.items) }
    {
        out.push(Piece::Word(name))?;
        out.push(Piece::Sign(Sign::TemplateOpen))?;
        push_text(out, types, base.index(), span)?;
        self.push_size(out, size, span)?;
        Ok(out.push(Piece::Sign(Sign::TemplateClose))?)
    }

    // Whether the global expressions are known.
    fn has_values(&self) -> bool
        ensures { result ≡ is_some (known_of self.now).values }
    {
        match self.values {
            Some(_) => true,
            None => false,
        }
    }

    #[tactic(auto, unfolding(crate::specs::Types::array))]
    fn push_array(
        &self,
        out: &mut Pieces<'m>,
        types: &[Pieces<'m>],
        told: &[bool],
        base: Handle<Type>,
        size: ArraySize,
        span: Span,
    ) -> WriteResult<()>
        ensures { Puts (spec.array (known_of self.now) (texts_of types.now) told.now base (size_plain size) (size_name size) span) result (map piece_of out.old.items) (map piece_of out.new.items) }
    {
        if is_pending(size) && !self.has_values() {
            return Ok(());
        }
        if !is_set(told, base.index()) {
            return Ok(out.push(Piece::Word("array"))?);
        }
        self.push_sized(out, types, "array", base, size, span)
    }

    // A type without a name.
    #[tactic(auto, unfolding(crate::specs::Types::unnamed))]
    fn push_unnamed(
        &self,
        out: &mut Pieces<'m>,
        types: &[Pieces<'m>],
        told: &[bool],
        of: &Type,
        span: Span,
    ) -> WriteResult<()>
        ensures { Puts (spec.unnamed (known_of self.now) (spec.texts (texts_of types.now) told.now) (type_row of.now) span) result (map piece_of out.old.items) (map piece_of out.new.items) }
    {
        match &of.inner {
            TypeInner::Scalar(code) => Ok(push_scalar(out, *code)?),
            TypeInner::Vector(code) => push_vector(out, *code, span),
            TypeInner::Matrix(code) => push_word(out, matrix_name(*code), span),
            TypeInner::Atomic(code) => push_atomic(out, *code, span),
            TypeInner::Image(code) => push_texture(out, *code, span),
            TypeInner::Sampler(code) => push_word(out, sampler_name(*code), span),
            TypeInner::Pointer { base, space } => {
                push_pointer_or_base(out, types, *base, *space, span)
            }
            TypeInner::Array { base, size, .. } => {
                self.push_array(out, types, told, *base, *size, span)
            }
            TypeInner::BindingArray { base, size } => {
                self.push_sized(out, types, "binding_array", *base, *size, span)
            }
            _ => Err(Refusal::NotInWgsl(span)),
        }
    }

    // A type: its name, if it has one.
    fn push_named(
        &self,
        out: &mut Pieces<'m>,
        types: &[Pieces<'m>],
        told: &[bool],
        of: &Type,
        span: Span,
    ) -> WriteResult<()>
        ensures { Puts (spec.text (known_of self.now) (spec.texts (texts_of types.now) told.now) (type_row of.now) span) result (map piece_of out.old.items) (map piece_of out.new.items) }
    {
        match name_at(&self.names.types, types.len()) {
            Some(name) => Ok(out.push(Piece::Word(name))?),
            None => self.push_unnamed(out, types, told, of, span),
        }
    }

    // The pieces of a type.
    #[tactic(auto, using(crate::proofs::Getting::after_nothing))]
    fn pieces_of(
        &self,
        types: &[Pieces<'m>],
        told: &[bool],
        of: &Type,
        span: Span,
    ) -> WriteResult<Pieces<'m>>
        ensures { Finds (λ v. map piece_of v.items) result (spec.text (known_of self.now) (spec.texts (texts_of types.now) told.now) (type_row of.now) span) }
    {
        let mut pieces = Vec::new(self.alloc);
        self.push_named(&mut pieces, types, told, of, span)?;
        Ok(pieces)
    }

    // Adds a type to those that are written.
    #[tactic(auto, unfolding(crate::specs::Types::add_type))]
    fn add_type(
        &self,
        types: &mut Vec<Pieces<'m>>,
        told: &mut Vec<bool>,
        of: &Type,
        span: Span,
    ) -> WriteResult<()>
        ensures { Becomes (spec.add_type (known_of self.now) (state_of types.old.items told.old.items) (type_row of.now, span)) result (state_of types.new.items told.new.items) }
    {
        let pieces = self.pieces_of(types, told, of, span)?;
        types.push(pieces)?;
        let is_told = is_told(told, of);
        told.push(is_told)?;
        Ok(())
    }

    /// Returns how each type is written where it is used, and whether a declaration is written with the type. Without the
    /// global expressions, arrays whose sizes name an override aren't written.
    ///
    /// # Errors
    /// `NotInWgsl` if WGSL has no such type, `Memory` if out of memory.
    #[tactic(auto, unfolding(crate::specs::Types::each_type))]
    pub fn types(&self) -> WriteResult<(Vec<Pieces<'m>>, Vec<bool>)>
        ensures { Finds (λ r. state_of r.0.items r.1.items) result (spec.type_texts (known_of self.now) (spec.type_rows self.now.of.now.types)) }
    {
        let mut types: Vec<Pieces<'m>> = Vec::new(self.alloc);
        let mut told = Vec::new(self.alloc);
        for (ty, span) in self.of.types.iter() {
            self.add_type(&mut types, &mut told, ty, *span)?;
        }
        Ok((types, told))
    }
}
