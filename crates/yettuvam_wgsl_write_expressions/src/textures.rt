// Functions of textures.
ghost use Rattle.std.specs.Prelude.{◌≡◌, [], ◌∷◌, ◌++◌, OnOk, IfOk, map, Some};
ghost use Rattle.naga_oil_ir.specs.Parts.{level_x, level_y, sample_parts, load_parts, query_code, query_level};
ghost use Rattle.yettuvam_wgsl_pieces.specs.Pieces.{piece_of};
ghost use Rattle.yettuvam_wgsl_write_expressions.specs.Context.{scope_of};
ghost use Rattle.yettuvam_wgsl_write_expressions.specs.Operands.{optional, present, Writes, as_value, call};
ghost use Rattle.yettuvam_wgsl_write_expressions.specs.Textures as spec;
ghost use Rattle.yettuvam_wgsl_write_types.specs.Types.{values_of};
ghost use Rattle.yettuvam_wgsl_written.specs.Outcomes.{Puts};

use crate::context::Scope;
use crate::functions::{TEXTURE_DIMENSIONS, TEXTURE_LOAD, function_name};
use crate::operands::{Known, push_arguments_end, push_call, push_some, push_store_call};
use naga_oil_ir::{ImageLoad, ImageQuery, ImageSample, Operand, SampleLevel, Span};
use std::alloc::{AllocError, Global};
use yettuvam_wgsl_pieces::{Piece, Sign};
use yettuvam_wgsl_written::WriteResult;
use yettuvam_wgsl_written::attributes::push_word;

type Pieces<'m> = Vec<Piece<'m>>;

/// The code of a function takes so many values in the code of a sample; the component is after it.
const COMPONENT: u64 = 65536;

fn push_level(list: &mut Vec<Operand>, level: SampleLevel) -> Result<(), AllocError>
    ensures { OnOk result (list.new.items ≡ list.old.items ++ present (level_x level ∷ level_y level ∷ [])) }
{
    match level {
        SampleLevel::Auto | SampleLevel::Zero => Ok(()),
        SampleLevel::Exact(e) | SampleLevel::Bias(e) => Ok(list.push(e)?),
        SampleLevel::Gradient { x, y } => {
            list.push(x)?;
            Ok(list.push(y)?)
        }
    }
}

// The operands of a sample in the order of the arguments.
fn sample_arguments(alloc: Global, of: &ImageSample) -> Result<Vec<Operand>, AllocError>
    ensures { IfOk result (λ hs. hs.items ≡ spec.sample_arguments (sample_parts of.now).operands) }
{
    let mut arguments = Vec::new(alloc);
    arguments.push(of.image)?;
    arguments.push(of.sampler)?;
    arguments.push(of.coordinate)?;
    push_some(&mut arguments, of.array_index)?;
    push_some(&mut arguments, of.depth_ref)?;
    push_level(&mut arguments, of.level)?;
    push_some(&mut arguments, of.offset)?;
    Ok(arguments)
}

// Appends the component that a `textureGather` takes, with a comma.
fn push_component(out: &mut Pieces<'_>, gather: u64) -> Result<(), AllocError>
    ensures { OnOk result (map piece_of out.new.items ≡ map piece_of out.old.items ++ spec.component gather) }
{
    let component = gather / COMPONENT;
    if component == 0 {
        return Ok(());
    }
    out.push(Piece::Number(component - 1))?;
    Ok(out.push(Piece::Sign(Sign::Comma))?)
}

// Appends the function of a sample.
#[tactic(auto, unfolding(crate::specs::Textures::sample_word))]
fn push_sample_word(out: &mut Pieces<'_>, gather: u64, span: Span) -> WriteResult<()>
    ensures { Puts (spec.sample_word gather span) result (map piece_of out.old.items) (map piece_of out.new.items) }
{
    push_word(out, function_name(gather % COMPONENT), span)
}

#[tactic(auto, unfolding(crate::specs::Textures::sample_of))]
fn push_sample<'m>(
    scope: &Scope<'_, 'm>,
    known: Known<'_, 'm>,
    out: &mut Pieces<'m>,
    gather: u64,
    arguments: &[Operand],
) -> WriteResult<()>
    ensures { Puts (spec.sample_of (values_of known.now) gather arguments.now (scope_of scope.now).span) result (map piece_of out.old.items) (map piece_of out.new.items) }
{
    push_sample_word(out, gather, scope.span)?;
    out.push(Piece::Sign(Sign::LeftParen))?;
    push_component(out, gather)?;
    push_arguments_end(known, out, arguments, scope.span)
}

/// Appends a sample of a texture.
///
/// # Errors
/// `NotInWgsl` if WGSL has no such function, `Memory` if out of memory.
pub fn push_image_sample<'m>(
    scope: &Scope<'_, 'm>,
    known: Known<'_, 'm>,
    out: &mut Pieces<'m>,
    of: &ImageSample,
) -> WriteResult<()>
    ensures { let parts = sample_parts of.now in
        Puts (spec.sample (values_of known.now) parts.plain parts.operands (scope_of scope.now).span) result (map piece_of out.old.items) (map piece_of out.new.items) }
{
    let arguments = sample_arguments(scope.context.alloc, of)?;
    push_sample(scope, known, out, of.gather, &arguments)
}

// The operands of a load of a texel.
fn texel_arguments(alloc: Global, of: &ImageLoad) -> Result<Vec<Operand>, AllocError>
    ensures { IfOk result (λ hs. hs.items ≡ present (load_parts of.now).operands) }
{
    let mut arguments = Vec::new(alloc);
    arguments.push(of.image)?;
    arguments.push(of.coordinate)?;
    push_some(&mut arguments, of.array_index)?;
    push_some(&mut arguments, of.sample)?;
    push_some(&mut arguments, of.level)?;
    Ok(arguments)
}

/// Appends a load of a texel.
///
/// # Errors
/// `NotInWgsl` if an argument isn't written, `Memory` if out of memory.
pub fn push_image_load<'m>(
    scope: &Scope<'_, 'm>,
    known: Known<'_, 'm>,
    out: &mut Pieces<'m>,
    of: &ImageLoad,
) -> WriteResult<()>
    ensures { Puts (spec.texel (values_of known.now) (load_parts of.now).operands (scope_of scope.now).span) result (map piece_of out.old.items) (map piece_of out.new.items) }
{
    let arguments = texel_arguments(scope.context.alloc, of)?;
    push_call(scope, known, out, function_name(TEXTURE_LOAD), &arguments)
}

// The function of a query.
fn query_function(query: &ImageQuery) -> u64
    ensures { result ≡ spec.query_function (query_code query.now) }
{
    match query {
        ImageQuery::Size { .. } => TEXTURE_DIMENSIONS,
        ImageQuery::Other(function) => *function,
    }
}

// The level of a query, if it has one.
fn level_of(query: &ImageQuery) -> Option<Operand>
    ensures { result ≡ query_level query.now }
{
    match query {
        ImageQuery::Size { level } => *level,
        ImageQuery::Other(_) => None,
    }
}

// The operands of a query.
fn query_arguments(
    alloc: Global,
    image: Operand,
    query: &ImageQuery,
) -> Result<Vec<Operand>, AllocError>
    ensures { IfOk result (λ hs. hs.items ≡ present (Some image ∷ query_level query.now ∷ [])) }
{
    let mut arguments = Vec::new(alloc);
    arguments.push(image)?;
    push_some(&mut arguments, level_of(query))?;
    Ok(arguments)
}

/// Appends a query of a texture.
///
/// # Errors
/// `NotInWgsl` if WGSL has no such function, `Memory` if out of memory.
pub fn push_image_query<'m>(
    scope: &Scope<'_, 'm>,
    known: Known<'_, 'm>,
    out: &mut Pieces<'m>,
    image: Operand,
    query: &ImageQuery,
) -> WriteResult<()>
    ensures { let operands = Some image ∷ query_level query.now ∷ [] in
        let written = spec.query (values_of known.now) (query_code query.now) operands (scope_of scope.now).span in
        Puts written result (map piece_of out.old.items) (map piece_of out.new.items) }
{
    let arguments = query_arguments(scope.context.alloc, image, query)?;
    let function = query_function(query);
    push_call(scope, known, out, function_name(function), &arguments)
}

// The operands of a store of a texel.
fn store_arguments(
    alloc: Global,
    image: Operand,
    coordinate: Operand,
    array_index: Option<Operand>,
    value: Operand,
) -> Result<Vec<Operand>, AllocError>
    ensures { IfOk result (λ hs. hs.items ≡ present (Some image ∷ Some coordinate ∷ array_index ∷ Some value ∷ [])) }
{
    let mut arguments = Vec::new(alloc);
    arguments.push(image)?;
    arguments.push(coordinate)?;
    push_some(&mut arguments, array_index)?;
    arguments.push(value)?;
    Ok(arguments)
}

/// Appends `textureStore` and its arguments.
///
/// # Errors
/// `NotInWgsl` if an argument isn't written, `Memory` if out of memory.
pub fn push_image_store<'m>(
    scope: &Scope<'_, 'm>,
    known: Known<'_, 'm>,
    out: &mut Pieces<'m>,
    image: Operand,
    coordinate: Operand,
    array_index: Option<Operand>,
    value: Operand,
) -> WriteResult<()>
    ensures { let operands = Some image ∷ Some coordinate ∷ array_index ∷ Some value ∷ [] in
        Puts (spec.store (values_of known.now) operands (scope_of scope.now).span) result (map piece_of out.old.items) (map piece_of out.new.items) }
{
    let arguments = store_arguments(scope.context.alloc, image, coordinate, array_index, value)?;
    push_store_call(scope, known, out, &arguments)
}
