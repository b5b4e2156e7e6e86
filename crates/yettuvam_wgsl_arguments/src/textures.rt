//! What functions of textures make of their arguments. The code of the texture says whether there is an index of a layer
//! and a number of a sample.

ghost use Rattle.std.specs.Prelude.{◌≡◌, ◌<◌, ◌≤◌};
ghost use Rattle.naga_oil_ir.specs.Body.{statement_tokens};
ghost use Rattle.naga_oil_ir.specs.Parts.{parts, sample_parts, load_parts};
ghost use Rattle.yettuvam_wgsl_machine.specs.Machine.{node_view};
ghost use Rattle.yettuvam_wgsl_scope.specs.Refused.{Gives};
ghost use Rattle.yettuvam_wgsl_values.specs.Value.{values_view};
ghost use Rattle.yettuvam_wgsl_arguments.specs.Textures as spec;

use crate::arguments::{handle_at, natural, operand_at};
use naga_oil_ir::{
    Expression, ImageLoad, ImageQuery, ImageSample, Index, Operand, SampleLevel, Statement,
};
use std::alloc::Global;
use yettuvam_wgsl_machine::symbol::Node;
use yettuvam_wgsl_names::functions::{
    TEXTURE_DIMENSIONS, TEXTURE_GATHER_COMPARE, TEXTURE_SAMPLE, TEXTURE_SAMPLE_BIAS,
    TEXTURE_SAMPLE_COMPARE, TEXTURE_SAMPLE_COMPARE_LEVEL, TEXTURE_SAMPLE_GRAD,
    TEXTURE_SAMPLE_LEVEL,
};
use yettuvam_wgsl_predeclared::{is_arrayed, is_multisampled};
use yettuvam_wgsl_scope::{Reason, Refusal, refused};
use yettuvam_wgsl_shape::Number;
use yettuvam_wgsl_values::Value;

/// The place of the first argument of a sample after the texture, the sampler and the coordinate.
const AFTER_COORDINATE: usize = 3;
/// The place of the first argument of a load or a store after the texture and the coordinate.
const AFTER_TEXEL: usize = 2;
/// What the component of a gather is multiplied by in the code of a sample.
const COMPONENT_UNIT: u64 = 65_536;
/// The number of components of a texel.
const COMPONENTS: u32 = 4;

fn count_if(is_there: bool) -> usize
    ensures value { result ≡ spec.count_if is_there }
    ensures small { result ≤ 1 }
{
    if is_there { 1 } else { 0 }
}

/// The expression of an argument; of one that isn't there, the first of all.
#[tactic(auto, unfolding(crate::specs::Textures::operand_in))]
fn operand_in(args: &[Value<'_>], place: usize) -> Operand
    ensures { result ≡ spec.operand_in (values_view args.now) place }
{
    match handle_at(args, place) {
        Some(handle) => handle,
        None => Index::new(0),
    }
}

/// The expression of an argument that is there if a flag says so.
fn operand_if(is_there: bool, args: &[Value<'_>], place: usize) -> Option<Operand>
    ensures { result ≡ spec.operand_if is_there (values_view args.now) place }
{
    if is_there {
        handle_at(args, place)
    } else {
        None
    }
}

/// Whether there are all arguments before a place, and at most one from there on.
#[tactic(auto, unfolding(crate::specs::Textures::ends_at), using(crate::proofs::Lists::counted))]
fn ends_at(args: &[Value<'_>], place: usize) -> bool
    requires { place < 16 }
    ensures { result ≡ spec.ends_at (values_view args.now) place }
{
    place <= args.len() && args.len() <= place + 1
}

// ---- samples

/// Whether a function compares a depth.
fn takes_depth(code: u64) -> bool
    ensures { result ≡ spec.takes_depth code }
{
    matches!(
        code,
        TEXTURE_SAMPLE_COMPARE | TEXTURE_SAMPLE_COMPARE_LEVEL | TEXTURE_GATHER_COMPARE
    )
}

/// The number of arguments that give the level of detail.
fn level_count(code: u64) -> usize
    ensures value { result ≡ spec.level_count code }
    ensures small { result ≤ 2 }
{
    match code {
        TEXTURE_SAMPLE_BIAS | TEXTURE_SAMPLE_LEVEL => 1,
        TEXTURE_SAMPLE_GRAD => 2,
        _ => 0,
    }
}

fn gradient(args: &[Value<'_>], place: usize) -> SampleLevel
    requires { place < 16 }
    ensures { result ≡ spec.gradient (values_view args.now) place }
{
    SampleLevel::Gradient {
        x: operand_in(args, place),
        y: operand_in(args, place + 1),
    }
}

fn level(code: u64, args: &[Value<'_>], place: usize) -> SampleLevel
    requires { place < 16 }
    ensures { result ≡ spec.level code (values_view args.now) place }
{
    match code {
        TEXTURE_SAMPLE | TEXTURE_SAMPLE_COMPARE => SampleLevel::Auto,
        TEXTURE_SAMPLE_BIAS => SampleLevel::Bias(operand_in(args, place)),
        TEXTURE_SAMPLE_LEVEL => SampleLevel::Exact(operand_in(args, place)),
        TEXTURE_SAMPLE_GRAD => gradient(args, place),
        _ => SampleLevel::Zero,
    }
}

/// The code of a sample, with the component of a gather.
fn gather_code(code: u64, component: u64) -> u64
    ensures { result ≡ spec.gather_code code component }
{
    component.wrapping_mul(COMPONENT_UNIT).wrapping_add(code)
}

/// The places of the arguments of a sample after the coordinate.
#[derive(Clone, Copy)]
struct SamplePlaces {
    depth: usize,
    level: usize,
    offset: usize,
}

fn sample_places(code: u64, image_code: u64) -> SamplePlaces
    ensures value { result ≡ spec.sample_places code image_code }
    ensures small_level { result.level < 16 }
    ensures small_offset { result.offset < 16 }
{
    let depth = AFTER_COORDINATE + count_if(is_arrayed(image_code));
    let level = depth + count_if(takes_depth(code));
    let offset = level + level_count(code);
    SamplePlaces {
        depth,
        level,
        offset,
    }
}

#[tactic(auto, unfolding(crate::specs::Textures::sample_of))]
fn sample_of(code: u64, component: u64, image_code: u64, args: &[Value<'_>]) -> ImageSample
    ensures { sample_parts result
        ≡ spec.sample_of code component image_code (values_view args.now) }
{
    let places = sample_places(code, image_code);
    ImageSample {
        image: operand_in(args, 0),
        sampler: operand_in(args, 1),
        gather: gather_code(code, component),
        coordinate: operand_in(args, 2),
        array_index: operand_if(is_arrayed(image_code), args, AFTER_COORDINATE),
        offset: handle_at(args, places.offset),
        level: level(code, args, places.level),
        depth_ref: operand_if(takes_depth(code), args, places.depth),
    }
}

/// A sample of a texture with a code: the texture, the sampler and the coordinate, maybe an index,
/// a depth, a level of detail and an offset. `component` is 0 for all but gathers.
#[tactic(auto, unfolding(crate::specs::Textures::sample))]
pub fn sample<'t>(
    alloc: Global,
    code: u64,
    component: u64,
    image_code: u64,
    args: &[Value<'t>],
    node: Node<'t>,
) -> Result<Expression, Refusal>
    ensures { Gives parts result
        (spec.sample code component image_code (values_view args.now) (node_view node.entry)) }
{
    if !ends_at(args, sample_places(code, image_code).offset) {
        return Err(refused(Reason::Arguments, node.span));
    }
    let sample = sample_of(code, component, image_code, args);
    Ok(Expression::ImageSample(Box::new(alloc, sample)?))
}

// ---- the component of a gather

fn counted_component(component: u32) -> Option<u64>
    ensures { result ≡ spec.counted_component component }
{
    if component < COMPONENTS {
        Some(u64::from(component) + 1)
    } else {
        None
    }
}

fn component_number(value: i64) -> Option<u64>
    ensures { result ≡ spec.component_number value }
{
    match natural(value) {
        Some(component) => counted_component(component),
        None => None,
    }
}

/// The component of a gather, counted from 1, by the number that is known of it.
#[tactic(auto, unfolding(crate::specs::Textures::component_of))]
pub fn component_of(number: Option<Number>, node: Node<'_>) -> Result<u64, Refusal>
    ensures { Gives (λ c. c) result (spec.component_of number (node_view node.entry)) }
{
    match number {
        Some(number) => match component_number(number.value()) {
            Some(component) => Ok(component),
            None => Err(refused(Reason::NoNumber, node.span)),
        },
        None => Err(refused(Reason::NoConstant, node.span)),
    }
}

// ---- loads, stores and queries

#[tactic(auto, unfolding(crate::specs::Textures::load_of))]
fn load_of(image_code: u64, args: &[Value<'_>]) -> ImageLoad
    ensures { load_parts result ≡ spec.load_of image_code (values_view args.now) }
{
    let sample = AFTER_TEXEL + count_if(is_arrayed(image_code));
    let level = sample + count_if(is_multisampled(image_code));
    ImageLoad {
        image: operand_in(args, 0),
        coordinate: operand_in(args, 1),
        array_index: operand_if(is_arrayed(image_code), args, AFTER_TEXEL),
        sample: operand_if(is_multisampled(image_code), args, sample),
        level: handle_at(args, level),
    }
}

fn load_end(image_code: u64) -> usize
    ensures value { result ≡ spec.load_end image_code }
    ensures small { result < 16 }
{
    AFTER_TEXEL + count_if(is_arrayed(image_code)) + count_if(is_multisampled(image_code))
}

/// A load of a texel of a texture with a code: the texture and the coordinate, maybe an index,
/// the number of a sample, and a level of detail.
#[tactic(auto, unfolding(crate::specs::Textures::load))]
pub fn load<'t>(
    alloc: Global,
    image_code: u64,
    args: &[Value<'t>],
    node: Node<'t>,
) -> Result<Expression, Refusal>
    ensures { Gives parts result
        (spec.load image_code (values_view args.now) (node_view node.entry)) }
{
    if !ends_at(args, load_end(image_code)) {
        return Err(refused(Reason::Arguments, node.span));
    }
    Ok(Expression::ImageLoad(Box::new(alloc, load_of(image_code, args))?))
}

fn store_place(image_code: u64) -> usize
    ensures value { result ≡ spec.store_place image_code }
    ensures small { result < 16 }
{
    AFTER_TEXEL + count_if(is_arrayed(image_code))
}

#[tactic(auto, unfolding(crate::specs::Textures::store_of))]
fn store_of(image_code: u64, args: &[Value<'_>]) -> Statement
    ensures { statement_tokens result ≡ spec.store_of image_code (values_view args.now) }
{
    Statement::ImageStore {
        image: operand_in(args, 0),
        coordinate: operand_in(args, 1),
        array_index: operand_if(is_arrayed(image_code), args, AFTER_TEXEL),
        value: operand_in(args, store_place(image_code)),
    }
}

/// A store of a texel of a texture with a code: the texture and the coordinate, maybe an index,
/// and the value.
#[tactic(auto, unfolding(crate::specs::Textures::store), using(crate::proofs::Lists::counted))]
pub fn store<'t>(image_code: u64, args: &[Value<'t>], node: Node<'t>) -> Result<Statement, Refusal>
    ensures { Gives statement_tokens result
        (spec.store image_code (values_view args.now) (node_view node.entry)) }
{
    if args.len() != store_place(image_code) + 1 {
        return Err(refused(Reason::Arguments, node.span));
    }
    Ok(store_of(image_code, args))
}

fn query_of(code: u64, level: Option<Operand>) -> ImageQuery
    ensures { result ≡ spec.query_of code level }
{
    if code == TEXTURE_DIMENSIONS {
        ImageQuery::Size { level }
    } else {
        ImageQuery::Other(code)
    }
}

/// A query of a texture; of its size maybe with a level of detail.
#[tactic(auto, unfolding(crate::specs::Textures::query))]
pub fn query<'t>(code: u64, args: &[Value<'t>], node: Node<'t>) -> Result<Expression, Refusal>
    ensures { Gives parts result
        (spec.query code (values_view args.now) (node_view node.entry)) }
{
    let image = operand_at(args, 0, node)?;
    let query = query_of(code, handle_at(args, 1));
    Ok(Expression::ImageQuery { image, query })
}
