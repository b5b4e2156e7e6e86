//! Attributes over the values that are their arguments.
ghost use Rattle.yettuvam_wgsl_machine.specs.Machine.{node_view};
ghost use Rattle.yettuvam_wgsl_scope.specs.Items.{name_view};
ghost use Rattle.yettuvam_wgsl_scope.specs.Refused.{Gives, Reads};
ghost use Rattle.yettuvam_wgsl_values.specs.Body.{ReadsAs, state_of};
ghost use Rattle.yettuvam_wgsl_values.specs.Value.{value_view, values_view};
ghost use Rattle.yettuvam_wgsl_items.specs.Attributes as spec;

use yettuvam_wgsl_arguments::arguments::natural;
use yettuvam_wgsl_attributes::attributes::{built_in_bits, interpolation_bits};
use yettuvam_wgsl_attributes::words::{built_in_value, interpolation, sampling};
use yettuvam_wgsl_attributes::{Attribute, Attributes, Dimension, attribute_of};
use yettuvam_wgsl_machine::symbol::Node;
use yettuvam_wgsl_predeclared::word_of;
use yettuvam_wgsl_scope::{Name, Reason, Refusal, refused};
use yettuvam_wgsl_shape::Number;
use yettuvam_wgsl_type_words::pop_call;
use yettuvam_wgsl_values::{Body, Call, Value, What, handle_of};

/// The most sizes of `@workgroup_size`.
const MOST_SIZES: usize = 3;

/// The argument at a place.
#[tactic(auto, unfolding(crate::specs::Attributes::at), using(crate::proofs::At::argument_at))]
fn at<'t>(args: &[Value<'t>], place: usize, node: Node<'t>) -> Result<Value<'t>, Refusal>
    ensures { Gives value_view result (spec.at (values_view args.now) place (node_view
        node.entry)) }
{
    match args.get(place) {
        Some(value) => Ok(*value),
        None => Err(refused(Reason::Arguments, node.span)),
    }
}

/// A number of 32 bits.
#[tactic(auto, unfolding(crate::specs::Attributes::fitting))]
fn fitting(number: Number, node: Node<'_>) -> Result<u32, Refusal>
    ensures { Gives (λ n. n) result (spec.fitting number (node_view node.entry)) }
{
    match natural(number.value()) {
        Some(number) => Ok(number),
        None => Err(refused(Reason::NoNumber, node.span)),
    }
}

#[tactic(auto, unfolding(crate::specs::Attributes::known))]
fn known(number: Option<Number>, node: Node<'_>) -> Result<u32, Refusal>
    ensures { Gives (λ n. n) result (spec.known number (node_view node.entry)) }
{
    match number {
        Some(number) => fitting(number, node),
        None => Err(refused(Reason::NoConstant, node.span)),
    }
}

/// The number of the first argument.
#[tactic(auto, unfolding(crate::specs::Attributes::number_at))]
fn number_at<'t>(args: &[Value<'t>], node: Node<'t>) -> Result<u32, Refusal>
    ensures { Gives (λ n. n) result (spec.number_at (values_view args.now) (node_view
        node.entry)) }
{
    let value = at(args, 0, node)?;
    known(value.number, node)
}

/// The text of a word and its place.
#[tactic(auto, unfolding(crate::specs::Attributes::word_at))]
fn word_at<'t>(args: &[Value<'t>], place: usize, node: Node<'t>) -> Result<Name<'t>, Refusal>
    ensures { Gives name_view result (spec.word_at (values_view args.now) place (node_view
        node.entry)) }
{
    let value = at(args, place, node)?;
    match value.what {
        What::Word(name) => Ok(name),
        _ => Err(refused(Reason::Attribute, node.span)),
    }
}

fn coded(code: Option<u64>, name: Name<'_>) -> Result<u64, Refusal>
    ensures { Gives (λ n. n) result (spec.coded code (name_view name.entry)) }
{
    match code {
        Some(code) => Ok(code),
        None => Err(refused(Reason::UnknownName, name.span)),
    }
}

#[tactic(auto, unfolding(crate::specs::Attributes::built_in_at))]
fn built_in_at<'t>(args: &[Value<'t>], node: Node<'t>) -> Result<u64, Refusal>
    ensures { Gives (λ n. n) result (spec.built_in_at (values_view args.now) (node_view
        node.entry)) }
{
    let name = word_at(args, 0, node)?;
    coded(built_in_value(word_of(name.text)), name)
}

#[tactic(auto, unfolding(crate::specs::Attributes::interpolation_at))]
fn interpolation_at<'t>(args: &[Value<'t>], node: Node<'t>) -> Result<u64, Refusal>
    ensures { Gives (λ n. n) result (spec.interpolation_at (values_view args.now) (node_view
        node.entry)) }
{
    let name = word_at(args, 0, node)?;
    coded(interpolation(word_of(name.text)), name)
}

#[tactic(auto, unfolding(crate::specs::Attributes::sampling_in))]
fn sampling_in<'t>(args: &[Value<'t>], node: Node<'t>) -> Result<u64, Refusal>
    ensures { Gives (λ n. n) result (spec.sampling_in (values_view args.now) (node_view
        node.entry)) }
{
    let name = word_at(args, 1, node)?;
    coded(sampling(word_of(name.text)), name)
}

/// The code of the second argument, 0 if it is left out.
#[tactic(auto, unfolding(crate::specs::Attributes::sampling_at), using(crate::proofs::At::counted))]
fn sampling_at<'t>(args: &[Value<'t>], node: Node<'t>) -> Result<u64, Refusal>
    ensures { Gives (λ n. n) result (spec.sampling_at (values_view args.now) (node_view
        node.entry)) }
{
    if args.len() <= 1 {
        Ok(0)
    } else {
        sampling_in(args, node)
    }
}

#[tactic(auto, unfolding(crate::specs::Attributes::with_interpolation))]
fn with_interpolation<'t>(
    old: Attributes,
    args: &[Value<'t>],
    node: Node<'t>,
) -> Result<Attributes, Refusal>
    ensures { Gives (λ a. a) result (spec.with_interpolation old (values_view args.now)
        (node_view node.entry)) }
{
    let kind = interpolation_at(args, node)?;
    let sampled = sampling_at(args, node)?;
    Ok(old.with_bits(interpolation_bits(kind, sampled)))
}

#[tactic(auto, unfolding(crate::specs::Attributes::with_built_in))]
fn with_built_in<'t>(
    old: Attributes,
    args: &[Value<'t>],
    node: Node<'t>,
) -> Result<Attributes, Refusal>
    ensures { Gives (λ a. a) result (spec.with_built_in old (values_view args.now)
        (node_view node.entry)) }
{
    let code = built_in_at(args, node)?;
    Ok(old.with_bits(built_in_bits(code)))
}

#[tactic(auto, unfolding(crate::specs::Attributes::with_number))]
fn with_number<'t>(
    attribute: Attribute,
    old: Attributes,
    args: &[Value<'t>],
    node: Node<'t>,
) -> Result<Attributes, Refusal>
    ensures { Gives (λ a. a) result (spec.with_number attribute old (values_view args.now)
        (node_view node.entry)) }
{
    let number = number_at(args, node)?;
    match old.with_number(attribute, number) {
        Some(attributes) => Ok(attributes),
        None => Err(refused(Reason::NoNumber, node.span)),
    }
}

#[tactic(auto, unfolding(crate::specs::Attributes::known_size))]
fn known_size(number: Number, node: Node<'_>) -> Result<Dimension, Refusal>
    ensures { Gives (λ d. d) result (spec.known_size number (node_view node.entry)) }
{
    let size = fitting(number, node)?;
    Ok(Dimension::Known(size))
}

#[tactic(auto, unfolding(crate::specs::Attributes::computed_size))]
fn computed_size<'t>(
    b: &mut Body<'t>,
    value: Value<'t>,
    node: Node<'t>,
) -> Result<Dimension, Refusal>
    ensures { Reads (spec.computed_size (value_view value.entry) (node_view node.entry)
        (state_of b.old)) result (state_of b.new) }
{
    let value = b.settle(value, node)?;
    Ok(Dimension::Computed(handle_of(value).index()))
}

/// The size of a number that is known, or the expression of another one.
#[tactic(auto, unfolding(crate::specs::Attributes::size_of))]
fn size_of<'t>(b: &mut Body<'t>, value: Value<'t>, node: Node<'t>) -> Result<Dimension, Refusal>
    ensures { Reads (spec.size_of (value_view value.entry) (node_view node.entry) (state_of
        b.old)) result (state_of b.new) }
{
    match value.number {
        Some(number) => known_size(number, node),
        None => computed_size(b, value, node),
    }
}

#[tactic(auto, unfolding(crate::specs::Attributes::size_in), using(crate::proofs::At::argument_at))]
fn size_in<'t>(
    b: &mut Body<'t>,
    args: &[Value<'t>],
    place: usize,
    node: Node<'t>,
) -> Result<Dimension, Refusal>
    ensures { Reads (spec.size_in (values_view args.now) place (node_view node.entry) (state_of
        b.old)) result (state_of b.new) }
{
    match args.get(place) {
        Some(value) => size_of(b, *value, node),
        None => Ok(Dimension::Missing),
    }
}

/// The three sizes of a workgroup.
#[tactic(auto, unfolding(crate::specs::Attributes::sizes_in))]
fn sizes_in<'t>(
    b: &mut Body<'t>,
    old: Attributes,
    args: &[Value<'t>],
    node: Node<'t>,
) -> Result<Attributes, Refusal>
    ensures { Reads (spec.sizes_in old (values_view args.now) (node_view node.entry)
        (state_of b.old)) result (state_of b.new) }
{
    let x = size_in(b, args, 0, node)?;
    let y = size_in(b, args, 1, node)?;
    let z = size_in(b, args, 2, node)?;
    Ok(old.with_sizes(x, y, z))
}

#[tactic(auto, unfolding(crate::specs::Attributes::with_workgroup_size), using(crate::proofs::At::counted))]
fn with_workgroup_size<'t>(
    b: &mut Body<'t>,
    old: Attributes,
    args: &[Value<'t>],
    node: Node<'t>,
) -> Result<Attributes, Refusal>
    ensures { Reads (spec.with_workgroup_size old (values_view args.now) (node_view node.entry)
        (state_of b.old)) result (state_of b.new) }
{
    if args.is_empty() || args.len() > MOST_SIZES {
        return Err(refused(Reason::Arguments, node.span));
    }
    sizes_in(b, old, args, node)
}

#[tactic(auto, unfolding(crate::specs::Attributes::with_attribute))]
fn with_attribute<'t>(
    b: &mut Body<'t>,
    attribute: Attribute,
    old: Attributes,
    args: &[Value<'t>],
    node: Node<'t>,
) -> Result<Attributes, Refusal>
    ensures { Reads (spec.with_attribute attribute old (values_view args.now) (node_view
        node.entry) (state_of b.old)) result (state_of b.new) }
{
    match attribute {
        Attribute::Ignored => Ok(old),
        Attribute::Stage(stage) => Ok(old.with_stage(stage)),
        Attribute::Invariant => Ok(old.with_invariant()),
        Attribute::BuiltIn => with_built_in(old, args, node),
        Attribute::Interpolate => with_interpolation(old, args, node),
        Attribute::WorkgroupSize => with_workgroup_size(b, old, args, node),
        _ => with_number(attribute, old, args, node),
    }
}

/// An attribute begins.
#[tactic(auto, unfolding(crate::specs::Attributes::attribute_start))]
pub fn attribute_start(b: &mut Body<'_>) -> Result<(), Refusal>
    ensures { Reads (spec.attribute_start (state_of b.old)) result (state_of b.new) }
{
    let count = b.values.len();
    b.calls.push(Call {
        count,
        is_statement: false,
    })?;
    Ok(())
}

/// The arguments of an attribute, which are taken.
#[tactic(auto, unfolding(crate::specs::Attributes::attribute_arguments))]
pub fn attribute_arguments<'t>(b: &mut Body<'t>) -> Result<Vec<Value<'t>>, Refusal>
    ensures { ReadsAs (λ v. values_view v.items) (spec.attribute_arguments (state_of b.old))
        result (state_of b.new) }
{
    let call = pop_call(&mut b.calls);
    b.arguments(call.count)
}

/// An attribute ends.
#[tactic(auto, unfolding(crate::specs::Attributes::attribute_end))]
pub fn attribute_end<'t>(
    b: &mut Body<'t>,
    name: Name<'t>,
    old: Attributes,
    node: Node<'t>,
) -> Result<Attributes, Refusal>
    ensures { Reads (spec.attribute_end (name_view name.entry) old (node_view node.entry)
        (state_of b.old)) result (state_of b.new) }
{
    let args = attribute_arguments(b)?;
    match attribute_of(word_of(name.text)) {
        Some(attribute) => with_attribute(b, attribute, old, args.as_slice(), node),
        None => Err(refused(Reason::Attribute, name.span)),
    }
}
