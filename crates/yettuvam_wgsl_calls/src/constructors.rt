//! Values of types: conversions, composed values and zeros.

ghost use Rattle.std.specs.Prelude.{◌≡◌};
ghost use Rattle.yettuvam_wgsl_machine.specs.Machine.{node_view};
ghost use Rattle.yettuvam_wgsl_scope.specs.Refused.{Reads};
ghost use Rattle.yettuvam_wgsl_values.specs.Body.{state_of};
ghost use Rattle.yettuvam_wgsl_values.specs.Value.{values_view};
ghost use Rattle.yettuvam_wgsl_calls.specs.Constructors as spec;

use naga_oil_ir::{ArraySize, Expression, Index};
use yettuvam_wgsl_arguments::{conversion, handles};
use yettuvam_wgsl_machine::symbol::Node;
use yettuvam_wgsl_operators::give_computed;
use yettuvam_wgsl_predeclared::Generic;
use yettuvam_wgsl_scope::{Reason, Refusal, refused};
use yettuvam_wgsl_shape::Number;
use yettuvam_wgsl_types::{PlainType, Shape};
use yettuvam_wgsl_values::{Body, Value, What, handle_of};

#[tactic(auto, unfolding(crate::specs::Constructors::composed))]
fn composed<'t>(
    b: &mut Body<'t>,
    place: usize,
    args: &[Value<'t>],
    node: Node<'t>,
) -> Result<usize, Refusal>
    ensures { Reads (spec.composed place (values_view args.now) (node_view node.entry)
        (state_of b.old)) result (state_of b.new) }
{
    let components = handles(b.alloc, args)?;
    let ty = Index::new(place);
    b.compute(Expression::Compose { ty, components }, node.span)
}

#[tactic(auto, unfolding(crate::specs::Constructors::give_of))]
fn give_of<'t>(
    b: &mut Body<'t>,
    made: usize,
    ty: usize,
    number: Option<Number>,
) -> Result<(), Refusal>
    ensures { Reads (spec.give_of made ty number (state_of b.old)) result (state_of b.new) }
{
    let shape = b.types.shape_of(ty);
    b.give(Value {
        what: What::Plain(made),
        shape,
        number,
    })
}

/// A value of a type, of its parts.
#[tactic(auto, unfolding(crate::specs::Constructors::compose))]
fn compose<'t>(
    b: &mut Body<'t>,
    place: usize,
    args: &[Value<'t>],
    node: Node<'t>,
) -> Result<(), Refusal>
    ensures { Reads (spec.compose place (values_view args.now) (node_view node.entry)
        (state_of b.old)) result (state_of b.new) }
{
    let number = conversion(b.types.scalar_of(place), args);
    let made = composed(b, place, args, node)?;
    give_of(b, made, place, number)
}

/// The zero of a type.
#[tactic(auto, unfolding(crate::specs::Constructors::zero))]
fn zero<'t>(b: &mut Body<'t>, place: usize, node: Node<'t>) -> Result<(), Refusal>
    ensures { Reads (spec.zero place (node_view node.entry) (state_of b.old))
        result (state_of b.new) }
{
    let made = b.put(Expression::ZeroValue(Index::new(place)), node.span)?;
    give_of(b, made, place, None)
}

/// A value of a type: without arguments its zero.
#[tactic(auto, unfolding(crate::specs::Constructors::construct))]
pub fn construct<'t>(
    b: &mut Body<'t>,
    place: usize,
    args: &[Value<'t>],
    node: Node<'t>,
) -> Result<(), Refusal>
    ensures { Reads (spec.construct place (values_view args.now) (node_view node.entry)
        (state_of b.old)) result (state_of b.new) }
{
    match args {
        [] => zero(b, place, node),
        _ => compose(b, place, args, node),
    }
}

/// A value of a predeclared type.
#[tactic(auto, unfolding(crate::specs::Constructors::construct_plain))]
pub fn construct_plain<'t>(
    b: &mut Body<'t>,
    ty: PlainType,
    args: &[Value<'t>],
    node: Node<'t>,
) -> Result<(), Refusal>
    ensures { Reads (spec.construct_plain ty (values_view args.now) (node_view node.entry)
        (state_of b.old)) result (state_of b.new) }
{
    let place = b.types.plain(ty)?;
    construct(b, place, args, node)
}

#[tactic(auto, unfolding(crate::specs::Constructors::array_of))]
fn array_of<'t>(
    b: &mut Body<'t>,
    shape: Shape,
    args: &[Value<'t>],
    node: Node<'t>,
) -> Result<(), Refusal>
    ensures { Reads (spec.array_of shape (values_view args.now) (node_view node.entry)
        (state_of b.old)) result (state_of b.new) }
{
    let base = b.types.type_of(shape)?;
    let place = b.types.array(base, ArraySize::Constant(count_of(args)))?;
    construct(b, place, args, node)
}

/// The number of arguments, as a size of an array.
#[tactic(auto, using(crate::proofs::Lists::counted))]
fn count_of(args: &[Value<'_>]) -> u32
    ensures { result ≡ spec.count_of (values_view args.now) }
{
    args.len().min(u32::MAX as usize) as u32
}

/// `array` without a type: that of its first part.
#[tactic(auto, unfolding(crate::specs::Constructors::construct_array))]
fn construct_array<'t>(b: &mut Body<'t>, args: &[Value<'t>], node: Node<'t>) -> Result<(), Refusal>
    ensures { Reads (spec.construct_array (values_view args.now) (node_view node.entry)
        (state_of b.old)) result (state_of b.new) }
{
    match args {
        [first, ..] => array_of(b, first.shape, args, node),
        [] => Err(refused(Reason::Template, node.span)),
    }
}

/// A value of a type whose template arguments are left out.
#[tactic(auto, unfolding(crate::specs::Constructors::construct_word))]
pub fn construct_word<'t>(
    b: &mut Body<'t>,
    word: Generic,
    args: &[Value<'t>],
    node: Node<'t>,
) -> Result<(), Refusal>
    ensures { Reads (spec.construct_word word (values_view args.now) (node_view node.entry)
        (state_of b.old)) result (state_of b.new) }
{
    match word {
        Generic::Vector(size) => construct_plain(b, PlainType::Vector(size), args, node),
        Generic::Matrix(sizes) => construct_plain(b, PlainType::Matrix(sizes), args, node),
        Generic::Array => construct_array(b, args, node),
        _ => Err(refused(Reason::Template, node.span)),
    }
}

/// The bits of a value as another type.
#[tactic(auto, unfolding(crate::specs::Constructors::bitcast))]
pub fn bitcast<'t>(
    b: &mut Body<'t>,
    kind: u64,
    args: &[Value<'t>],
    node: Node<'t>,
) -> Result<(), Refusal>
    ensures { Reads (spec.bitcast kind (values_view args.now) (node_view node.entry)
        (state_of b.old)) result (state_of b.new) }
{
    match args {
        [value] => {
            let cast = Expression::As {
                expr: handle_of(*value),
                kind,
                convert: 0,
            };
            give_computed(b, cast, None, node)
        }
        _ => Err(refused(Reason::Arguments, node.span)),
    }
}
