// Scalars, vectors, matrices and textures.
ghost use Rattle.std.specs.Prelude.{◌≡◌, ◌++◌, OnOk, map};
ghost use Rattle.yettuvam_wgsl_pieces.specs.Pieces.{piece_of};
ghost use Rattle.yettuvam_wgsl_write_types.specs.Types as spec;
ghost use Rattle.yettuvam_wgsl_written.specs.Outcomes.{Puts};

use naga_oil_ir::Span;
use std::alloc::AllocError;
use yettuvam_wgsl_pieces::{Piece, Sign};
use yettuvam_wgsl_written::WriteResult;
use yettuvam_wgsl_written::attributes::push_word;
use yettuvam_wgsl_written::codes::{
    BOOL, access_name, scalar_name, texel_format_name, texture_name, vector_name,
};

// A scalar type; a pseudo-type isn't written.
pub fn push_scalar(out: &mut Vec<Piece<'_>>, code: u64) -> Result<(), AllocError>
    ensures { OnOk result (map piece_of out.new.items ≡ map piece_of out.old.items ++ spec.scalar code) }
{
    match scalar_name(code) {
        Some(name) => Ok(out.push(Piece::Word(name))?),
        None => Ok(()),
    }
}

// The component of vectors of `bool`.
fn push_component(out: &mut Vec<Piece<'_>>, code: u64) -> Result<(), AllocError>
    ensures { OnOk result (map piece_of out.new.items ≡ map piece_of out.old.items ++ spec.component_template code) }
{
    if code / 16 != BOOL {
        return Ok(());
    }
    out.push(Piece::Sign(Sign::TemplateOpen))?;
    out.push(Piece::Word("bool"))?;
    Ok(out.push(Piece::Sign(Sign::TemplateClose))?)
}

#[tactic(auto, unfolding(crate::specs::Types::vector))]
pub fn push_vector(out: &mut Vec<Piece<'_>>, code: u64, span: Span) -> WriteResult<()>
    ensures { Puts (spec.vector code span) result (map piece_of out.old.items) (map piece_of out.new.items) }
{
    push_word(out, vector_name(code), span)?;
    Ok(push_component(out, code)?)
}

// A scalar type in template brackets.
#[tactic(auto, unfolding(crate::specs::Types::scalar_template))]
fn push_scalar_template(out: &mut Vec<Piece<'_>>, code: u64, span: Span) -> WriteResult<()>
    ensures { Puts (spec.scalar_template code span) result (map piece_of out.old.items) (map piece_of out.new.items) }
{
    out.push(Piece::Sign(Sign::TemplateOpen))?;
    push_word(out, scalar_name(code), span)?;
    Ok(out.push(Piece::Sign(Sign::TemplateClose))?)
}

#[tactic(auto, unfolding(crate::specs::Types::atomic))]
pub fn push_atomic(out: &mut Vec<Piece<'_>>, code: u64, span: Span) -> WriteResult<()>
    ensures { Puts (spec.atomic code span) result (map piece_of out.old.items) (map piece_of out.new.items) }
{
    out.push(Piece::Word("atomic"))?;
    push_scalar_template(out, code, span)
}

// The format of a storage texture.
#[tactic(auto, unfolding(crate::specs::Types::format_word))]
fn push_format(out: &mut Vec<Piece<'_>>, code: u64, span: Span) -> WriteResult<()>
    ensures { Puts (spec.format_word code span) result (map piece_of out.old.items) (map piece_of out.new.items) }
{
    push_word(out, texel_format_name(code / 256 % 256), span)
}

// The access of a storage texture.
#[tactic(auto, unfolding(crate::specs::Types::access_word))]
fn push_access(out: &mut Vec<Piece<'_>>, code: u64, span: Span) -> WriteResult<()>
    ensures { Puts (spec.access_word code span) result (map piece_of out.old.items) (map piece_of out.new.items) }
{
    push_word(out, access_name(code / 65536), span)
}

// The format and the access of a storage texture.
#[tactic(auto, unfolding(crate::specs::Types::storage_words))]
fn push_storage_words(out: &mut Vec<Piece<'_>>, code: u64, span: Span) -> WriteResult<()>
    ensures { Puts (spec.storage_words code span) result (map piece_of out.old.items) (map piece_of out.new.items) }
{
    push_format(out, code, span)?;
    out.push(Piece::Sign(Sign::Comma))?;
    push_access(out, code, span)
}

// The format and the access of a storage texture, in template brackets.
#[tactic(auto, unfolding(crate::specs::Types::storage_template))]
fn push_storage_template(out: &mut Vec<Piece<'_>>, code: u64, span: Span) -> WriteResult<()>
    ensures { Puts (spec.storage_template code span) result (map piece_of out.old.items) (map piece_of out.new.items) }
{
    out.push(Piece::Sign(Sign::TemplateOpen))?;
    push_storage_words(out, code, span)?;
    Ok(out.push(Piece::Sign(Sign::TemplateClose))?)
}

fn push_texture_template(out: &mut Vec<Piece<'_>>, code: u64, span: Span) -> WriteResult<()>
    ensures { Puts (spec.texture_template code span) result (map piece_of out.old.items) (map piece_of out.new.items) }
{
    if code / 65536 != 0 {
        return push_storage_template(out, code, span);
    }
    let element = code / 256 % 256;
    if element == 0 {
        return Ok(());
    }
    push_scalar_template(out, element, span)
}

#[tactic(auto, unfolding(crate::specs::Types::texture))]
pub fn push_texture(out: &mut Vec<Piece<'_>>, code: u64, span: Span) -> WriteResult<()>
    ensures { Puts (spec.texture code span) result (map piece_of out.old.items) (map piece_of out.new.items) }
{
    push_word(out, texture_name(code % 256), span)?;
    push_texture_template(out, code, span)
}
