//! Pointers, members, swizzles and elements.

ghost use Rattle.std.specs.Prelude.{◌≡◌};
ghost use Rattle.yettuvam_wgsl_machine.specs.Machine.{node_view};
ghost use Rattle.yettuvam_wgsl_scope.specs.Refused.{Reads};
ghost use Rattle.yettuvam_wgsl_values.specs.Body.{ReadsAs, state_of};
ghost use Rattle.yettuvam_wgsl_values.specs.Value.{value_view, what_view};
ghost use Rattle.yettuvam_wgsl_operators.specs.Members as spec;

use crate::operators::give_computed;
use naga_oil_ir::{Expression, Index};
use yettuvam_wgsl_machine::symbol::Node;
use yettuvam_wgsl_predeclared::{letter_number, swizzle_pattern, word_of};
use yettuvam_wgsl_scope::{Reason, Refusal, refused};
use yettuvam_wgsl_types::{Member, Shape};
use yettuvam_wgsl_values::value::shaped;
use yettuvam_wgsl_values::{Body, Value, What, handle_of};

/// `&`: the pointer to a place.
#[tactic(auto, unfolding(crate::specs::Members::address_of))]
pub fn address_of<'t>(b: &mut Body<'t>, node: Node<'t>) -> Result<(), Refusal>
    ensures { Reads (spec.address_of (node_view node.entry) (state_of b.old))
        result (state_of b.new) }
{
    let value = b.take_value(node)?;
    match value.what {
        What::Place(place) => b.give(shaped(What::Pointer(place), value.shape)),
        _ => Err(refused(Reason::NoReference, node.span)),
    }
}

/// `*`: the place of a pointer.
#[tactic(auto, unfolding(crate::specs::Members::dereference))]
pub fn dereference<'t>(b: &mut Body<'t>, node: Node<'t>) -> Result<(), Refusal>
    ensures { Reads (spec.dereference (node_view node.entry) (state_of b.old))
        result (state_of b.new) }
{
    let value = b.take_value(node)?;
    match value.what {
        What::Pointer(place) => b.give(shaped(What::Place(place), value.shape)),
        _ => Err(refused(Reason::NoPointer, node.span)),
    }
}

/// A part of a place is a place, a part of a value is a value.
fn part_of<'t>(whole: What<'t>, place: usize, shape: Shape) -> Value<'t>
    ensures { value_view result ≡ spec.part_of (what_view whole.entry) place shape }
{
    match whole {
        What::Place(_) | What::Pointer(_) => shaped(What::Place(place), shape),
        _ => shaped(What::Plain(place), shape),
    }
}

/// The value of which a part is taken: it is read unless it is a place or a pointer.
#[tactic(auto, unfolding(crate::specs::Members::whole))]
fn whole<'t>(b: &mut Body<'t>, value: Value<'t>, node: Node<'t>) -> Result<Value<'t>, Refusal>
    ensures { ReadsAs value_view (spec.whole (value_view value.entry) (node_view node.entry)
        (state_of b.old)) result (state_of b.new) }
{
    match value.what {
        What::Place(_) | What::Pointer(_) => Ok(value),
        _ => b.settle(value, node),
    }
}

#[tactic(auto, unfolding(crate::specs::Members::element))]
fn element<'t>(
    b: &mut Body<'t>,
    whole: Value<'t>,
    index: usize,
    node: Node<'t>,
) -> Result<(), Refusal>
    ensures { Reads (spec.element (value_view whole.entry) index (node_view node.entry)
        (state_of b.old)) result (state_of b.new) }
{
    let shape = b.types.element(whole.shape);
    let access = Expression::Access {
        base: handle_of(whole),
        index: Index::new(index),
    };
    let place = b.compute(access, node.span)?;
    b.give(part_of(whole.what, place, shape))
}

/// An element by its index, which is the last value.
#[tactic(auto, unfolding(crate::specs::Members::index))]
pub fn index<'t>(b: &mut Body<'t>, node: Node<'t>) -> Result<(), Refusal>
    ensures { Reads (spec.index (node_view node.entry) (state_of b.old)) result (state_of b.new) }
{
    let index = b.operand(node)?;
    let value = b.take_value(node)?;
    let value = whole(b, value, node)?;
    element(b, value, index.index(), node)
}

#[tactic(auto, unfolding(crate::specs::Members::part))]
fn part<'t>(
    b: &mut Body<'t>,
    whole: Value<'t>,
    index: u32,
    shape: Shape,
    node: Node<'t>,
) -> Result<(), Refusal>
    ensures { Reads (spec.part (value_view whole.entry) index shape (node_view node.entry)
        (state_of b.old)) result (state_of b.new) }
{
    let base = handle_of(whole);
    let place = b.compute(Expression::AccessIndex { base, index }, node.span)?;
    b.give(part_of(whole.what, place, shape))
}

/// A part of a value by its number.
#[tactic(auto, unfolding(crate::specs::Members::numbered_part))]
fn numbered_part<'t>(
    b: &mut Body<'t>,
    value: Value<'t>,
    index: u32,
    shape: Shape,
    node: Node<'t>,
) -> Result<(), Refusal>
    ensures { Reads (spec.numbered_part (value_view value.entry) index shape
        (node_view node.entry) (state_of b.old)) result (state_of b.new) }
{
    let value = whole(b, value, node)?;
    part(b, value, index, shape, node)
}

/// The value that is read of a place or of a pointer's place.
#[tactic(auto, unfolding(crate::specs::Members::read_whole))]
fn read_whole<'t>(b: &mut Body<'t>, value: Value<'t>, node: Node<'t>) -> Result<Value<'t>, Refusal>
    ensures { ReadsAs value_view (spec.read_whole (value_view value.entry) (node_view node.entry)
        (state_of b.old)) result (state_of b.new) }
{
    match value.what {
        What::Pointer(place) => b.settle(shaped(What::Place(place), value.shape), node),
        _ => b.settle(value, node),
    }
}

#[tactic(auto, unfolding(crate::specs::Members::swizzle_by))]
fn swizzle_by<'t>(
    b: &mut Body<'t>,
    value: Value<'t>,
    pattern: u64,
    node: Node<'t>,
) -> Result<(), Refusal>
    ensures { Reads (spec.swizzle_by (value_view value.entry) pattern (node_view node.entry)
        (state_of b.old)) result (state_of b.new) }
{
    let value = read_whole(b, value, node)?;
    let swizzle = Expression::Swizzle {
        size: node.text.len() as u64,
        vector: handle_of(value),
        pattern,
    };
    give_computed(b, swizzle, None, node)
}

/// Two to four components of a vector by their letters.
#[tactic(auto, unfolding(crate::specs::Members::swizzle))]
fn swizzle<'t>(b: &mut Body<'t>, value: Value<'t>, node: Node<'t>) -> Result<(), Refusal>
    ensures { Reads (spec.swizzle (value_view value.entry) (node_view node.entry)
        (state_of b.old)) result (state_of b.new) }
{
    match swizzle_pattern(node.text) {
        Some(pattern) => swizzle_by(b, value, pattern, node),
        None => Err(refused(Reason::NoMember, node.span)),
    }
}

#[tactic(auto, unfolding(crate::specs::Members::component))]
fn component<'t>(
    b: &mut Body<'t>,
    value: Value<'t>,
    letter: u8,
    node: Node<'t>,
) -> Result<(), Refusal>
    ensures { Reads (spec.component (value_view value.entry) letter (node_view node.entry)
        (state_of b.old)) result (state_of b.new) }
{
    match letter_number(letter) {
        Some(index) => numbered_part(b, value, index, Shape::Plain, node),
        None => Err(refused(Reason::NoMember, node.span)),
    }
}

/// One component or more of a vector by their letters.
#[tactic(auto, unfolding(crate::specs::Members::by_letters))]
fn by_letters<'t>(b: &mut Body<'t>, value: Value<'t>, node: Node<'t>) -> Result<(), Refusal>
    ensures { Reads (spec.by_letters (value_view value.entry) (node_view node.entry)
        (state_of b.old)) result (state_of b.new) }
{
    match node.text {
        [letter] => component(b, value, *letter, node),
        _ => swizzle(b, value, node),
    }
}

#[tactic(auto, unfolding(crate::specs::Members::member_by))]
fn member_by<'t>(
    b: &mut Body<'t>,
    value: Value<'t>,
    member: Member,
    node: Node<'t>,
) -> Result<(), Refusal>
    ensures { Reads (spec.member_by (value_view value.entry) member (node_view node.entry)
        (state_of b.old)) result (state_of b.new) }
{
    match member {
        Member::Typed(number, ty) => {
            let shape = b.types.shape_of(ty);
            numbered_part(b, value, number, shape, node)
        }
        Member::Untyped(number) => numbered_part(b, value, number, Shape::Plain, node),
        Member::Missing => Err(refused(Reason::NoMember, node.span)),
        Member::NoStruct => by_letters(b, value, node),
    }
}

#[tactic(auto, unfolding(crate::specs::Members::member_of))]
fn member_of<'t>(b: &mut Body<'t>, value: Value<'t>, node: Node<'t>) -> Result<(), Refusal>
    ensures { Reads (spec.member_of (value_view value.entry) (node_view node.entry)
        (state_of b.old)) result (state_of b.new) }
{
    let member = b.types.member(value.shape, word_of(node.text));
    member_by(b, value, member, node)
}

/// A member of a value, a swizzle, or the second part of a word with a point.
#[tactic(auto, unfolding(crate::specs::Members::member))]
pub fn member<'t>(b: &mut Body<'t>, node: Node<'t>) -> Result<(), Refusal>
    ensures { Reads (spec.member (node_view node.entry) (state_of b.old))
        result (state_of b.new) }
{
    let value = b.take_value(node)?;
    match value.what {
        What::Word(_) => b.give(value),
        _ => member_of(b, value, node),
    }
}
