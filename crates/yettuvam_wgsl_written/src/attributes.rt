// Attributes, and the codes of bindings.
ghost use Rattle.std.specs.Prelude.{◌≡◌, ◌++◌, OnOk, map, option_map};
ghost use Rattle.yettuvam_wgsl_pieces.specs.Pieces.{piece_of};
ghost use Rattle.yettuvam_wgsl_written.specs.Attributes as spec;
ghost use Rattle.yettuvam_wgsl_written.specs.Outcomes.{Puts, word};

use crate::codes::{built_in_value_name, interpolation_name, sampling_name};
use crate::refusal::{Refusal, WriteResult};
use naga_oil_ir::Span;
use std::alloc::AllocError;
use yettuvam_wgsl_pieces::{Piece, Sign};

// The classes of bindings.
const NO_CLASS: u64 = 0;

const BUILT_IN: u64 = 1;

const LOCATION: u64 = 2;

/// The sizes of `@align` by their codes: 2 to the power of the code less 1.
pub static ALIGNMENTS: [(u64, u64); 32] = [
    (1, 1),
    (2, 2),
    (3, 4),
    (4, 8),
    (5, 16),
    (6, 32),
    (7, 64),
    (8, 128),
    (9, 256),
    (10, 512),
    (11, 1024),
    (12, 2048),
    (13, 4096),
    (14, 8192),
    (15, 16384),
    (16, 32768),
    (17, 65536),
    (18, 131072),
    (19, 262144),
    (20, 524288),
    (21, 1048576),
    (22, 2097152),
    (23, 4194304),
    (24, 8388608),
    (25, 16777216),
    (26, 33554432),
    (27, 67108864),
    (28, 134217728),
    (29, 268435456),
    (30, 536870912),
    (31, 1073741824),
    (32, 2147483648),
];

// The value of the first row with a code.
fn value_of(table: &[(u64, u64)], code: u64) -> Option<u64>
    ensures { result ≡ spec.value_of table.now code }
{
    let mut rest = table;
    while let [(each, value), more @ ..] = rest {
        if *each == code {
            return Some(*value);
        }
        rest = more;
    }
    None
}

/// Appends `@NAME`.
///
/// # Errors
/// If out of memory.
pub fn push_attribute(out: &mut Vec<Piece<'_>>, name: &'static str) -> Result<(), AllocError>
    ensures { OnOk result (map piece_of out.new.items ≡ map piece_of out.old.items ++ spec.attribute name.now) }
{
    out.push(Piece::Sign(Sign::At))?;
    Ok(out.push(Piece::Word(name))?)
}

/// Appends `@NAME(NUMBER)`.
///
/// # Errors
/// If out of memory.
#[tactic(auto, unfolding(crate::specs::Attributes::number_attribute))]
pub fn push_number_attribute(
    out: &mut Vec<Piece<'_>>,
    name: &'static str,
    number: u64,
) -> Result<(), AllocError>
    ensures { OnOk result (map piece_of out.new.items ≡ map piece_of out.old.items ++ spec.number_attribute name.now number) }
{
    push_attribute(out, name)?;
    out.push(Piece::Sign(Sign::LeftParen))?;
    out.push(Piece::Number(number))?;
    Ok(out.push(Piece::Sign(Sign::RightParen))?)
}

/// Appends a word of the language, if there is one.
///
/// # Errors
/// `NotInWgsl` with the span if there is none, `Memory` if out of memory.
pub fn push_word(
    out: &mut Vec<Piece<'_>>,
    found: Option<&'static str>,
    span: Span,
) -> WriteResult<()>
    ensures { Puts (word (option_map (λ n. n.now) found.entry) span) result (map piece_of out.old.items) (map piece_of out.new.items) }
{
    match found {
        Some(name) => Ok(out.push(Piece::Word(name))?),
        None => Err(Refusal::NotInWgsl(span)),
    }
}

// Appends `@NAME(`.
#[tactic(auto, unfolding(crate::specs::Attributes::opened))]
fn push_opened(out: &mut Vec<Piece<'_>>, name: &'static str) -> Result<(), AllocError>
    ensures { OnOk result (map piece_of out.new.items ≡ map piece_of out.old.items ++ spec.opened name.now) }
{
    push_attribute(out, name)?;
    Ok(out.push(Piece::Sign(Sign::LeftParen))?)
}

// Appends a word and `)`.
#[tactic(auto, unfolding(crate::specs::Attributes::closed_word))]
fn push_closed_word(
    out: &mut Vec<Piece<'_>>,
    found: Option<&'static str>,
    span: Span,
) -> WriteResult<()>
    ensures { Puts (spec.closed_word (option_map (λ n. n.now) found.entry) span) result (map piece_of out.old.items) (map piece_of out.new.items) }
{
    push_word(out, found, span)?;
    Ok(out.push(Piece::Sign(Sign::RightParen))?)
}

#[tactic(auto, unfolding(crate::specs::Attributes::built_in_value))]
fn push_built_in_value(out: &mut Vec<Piece<'_>>, code: u64, span: Span) -> WriteResult<()>
    ensures { Puts (spec.built_in_value code span) result (map piece_of out.old.items) (map piece_of out.new.items) }
{
    push_opened(out, "builtin")?;
    push_closed_word(out, built_in_value_name(code), span)
}

#[tactic(auto, unfolding(crate::specs::Attributes::sampling))]
fn push_sampling(out: &mut Vec<Piece<'_>>, code: u64, span: Span) -> WriteResult<()>
    ensures { Puts (spec.sampling code span) result (map piece_of out.old.items) (map piece_of out.new.items) }
{
    if code == 0 {
        return Ok(());
    }
    out.push(Piece::Sign(Sign::Comma))?;
    push_word(out, sampling_name(code), span)
}

// Appends a type of interpolation, its sampling and `)`.
#[tactic(auto, unfolding(crate::specs::Attributes::interpolation_words))]
fn push_interpolation_words(
    out: &mut Vec<Piece<'_>>,
    code: u64,
    sampling: u64,
    span: Span,
) -> WriteResult<()>
    ensures { Puts (spec.interpolation_words code sampling span) result (map piece_of out.old.items) (map piece_of out.new.items) }
{
    push_word(out, interpolation_name(code), span)?;
    push_sampling(out, sampling, span)?;
    Ok(out.push(Piece::Sign(Sign::RightParen))?)
}

#[tactic(auto, unfolding(crate::specs::Attributes::interpolation))]
fn push_interpolation(
    out: &mut Vec<Piece<'_>>,
    code: u64,
    sampling: u64,
    span: Span,
) -> WriteResult<()>
    ensures { Puts (spec.interpolation code sampling span) result (map piece_of out.old.items) (map piece_of out.new.items) }
{
    if code == 0 {
        return Ok(());
    }
    push_opened(out, "interpolate")?;
    push_interpolation_words(out, code, sampling, span)
}

// The size of an `@align` by its code.
fn alignment_size(code: u64) -> Option<u64>
    ensures { result ≡ spec.alignment_size code }
{
    value_of(&ALIGNMENTS, code)
}

#[tactic(auto, unfolding(crate::specs::Attributes::alignment))]
fn push_alignment(out: &mut Vec<Piece<'_>>, code: u64, span: Span) -> WriteResult<()>
    ensures { Puts (spec.alignment code span) result (map piece_of out.old.items) (map piece_of out.new.items) }
{
    if code == 0 {
        return Ok(());
    }
    match alignment_size(code) {
        Some(size) => Ok(push_number_attribute(out, "align", size)?),
        None => Err(Refusal::NotInWgsl(span)),
    }
}

#[tactic(auto, unfolding(crate::specs::Attributes::class))]
fn push_class(out: &mut Vec<Piece<'_>>, code: u64, span: Span) -> WriteResult<()>
    ensures { Puts (spec.class code span) result (map piece_of out.old.items) (map piece_of out.new.items) }
{
    match code % 256 {
        NO_CLASS => Ok(()),
        BUILT_IN => push_built_in_value(out, code / 256 % 256, span),
        LOCATION => Ok(push_number_attribute(out, "location", code / 4_294_967_296)?),
        _ => Err(Refusal::NotInWgsl(span)),
    }
}

fn push_blend_source(out: &mut Vec<Piece<'_>>, code: u64) -> Result<(), AllocError>
    ensures { OnOk result (map piece_of out.new.items ≡ map piece_of out.old.items ++ spec.blend_source code) }
{
    match code {
        1 => push_number_attribute(out, "blend_src", 0),
        2 => push_number_attribute(out, "blend_src", 1),
        _ => Ok(()),
    }
}

fn push_invariant(out: &mut Vec<Piece<'_>>, code: u64) -> Result<(), AllocError>
    ensures { OnOk result (map piece_of out.new.items ≡ map piece_of out.old.items ++ spec.invariant code) }
{
    if code == 0 {
        return Ok(());
    }
    push_attribute(out, "invariant")
}

// Appends the attributes of a binding's code.
#[tactic(auto, unfolding(crate::specs::Attributes::binding_code))]
fn push_binding_code(out: &mut Vec<Piece<'_>>, code: u64, span: Span) -> WriteResult<()>
    ensures { Puts (spec.binding_code code span) result (map piece_of out.old.items) (map piece_of out.new.items) }
{
    push_alignment(out, code / 16_777_216 % 256, span)?;
    push_class(out, code, span)?;
    push_blend_source(out, code / 4_194_304 % 4)?;
    push_interpolation(out, code / 65536 % 4, code / 262_144 % 8, span)?;
    push_invariant(out, code / 2_097_152 % 2)?;
    Ok(())
}

/// Appends the attributes of a binding.
///
/// # Errors
/// `NotInWgsl` if the code is none of a binding's, `Memory` if out of memory.
pub fn push_binding(out: &mut Vec<Piece<'_>>, binding: Option<u64>, span: Span) -> WriteResult<()>
    ensures { Puts (spec.binding binding span) result (map piece_of out.old.items) (map piece_of out.new.items) }
{
    match binding {
        Some(code) => push_binding_code(out, code, span),
        None => Ok(()),
    }
}
