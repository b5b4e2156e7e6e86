//! Types that words and template arguments mean.

ghost use Rattle.std.specs.Prelude.{◌≡◌};
ghost use Rattle.yettuvam_wgsl_machine.specs.Machine.{node_view};
ghost use Rattle.yettuvam_wgsl_scope.specs.Items.{name_view};
ghost use Rattle.yettuvam_wgsl_scope.specs.Refused.{Reads};
ghost use Rattle.yettuvam_wgsl_values.specs.Body.{state_of};
ghost use Rattle.yettuvam_wgsl_values.specs.Value.{value_view, values_view};
ghost use Rattle.yettuvam_wgsl_type_words.specs.Types as spec;

use naga_oil_ir::{ArraySize, Index, Override};
use yettuvam_wgsl_arguments::{argument, known_size};
use yettuvam_wgsl_machine::symbol::Node;
use yettuvam_wgsl_predeclared::{generic_word, plain_type, word_of};
use yettuvam_wgsl_scope::{Name, Reason, Refusal, refused};
use yettuvam_wgsl_types::{NOT_TOLD, PlainType};
use yettuvam_wgsl_values::{Body, Value, What, handle_of, span_of};

/// Why a word is no type: it wants template arguments, or nothing has its name.
#[tactic(auto, unfolding(crate::specs::Types::why_no_type))]
fn why_no_type(name: Name<'_>) -> Reason
    ensures { result ≡ spec.why_no_type (name_view name.entry) }
{
    match generic_word(word_of(name.text)) {
        Some(_) => Reason::Template,
        None => Reason::UnknownName,
    }
}

/// The predeclared type that a word means.
#[tactic(auto, unfolding(crate::specs::Types::named_type))]
fn named_type<'t>(b: &mut Body<'t>, name: Name<'t>) -> Result<usize, Refusal>
    ensures { Reads (spec.named_type (name_view name.entry) (state_of b.old))
        result (state_of b.new) }
{
    match plain_type(word_of(name.text)) {
        Some(ty) => Ok(b.types.plain(ty)?),
        None => Err(refused(why_no_type(name), name.span)),
    }
}

/// The type that a value is.
#[tactic(auto, unfolding(crate::specs::Types::type_of))]
pub fn type_of<'t>(b: &mut Body<'t>, value: Value<'t>, node: Node<'t>) -> Result<usize, Refusal>
    ensures { Reads (spec.type_of (value_view value.entry) (node_view node.entry)
        (state_of b.old)) result (state_of b.new) }
{
    match value.what {
        What::Type(place) => Ok(place),
        What::Word(name) => named_type(b, name),
        _ => Err(refused(Reason::NoType, node.span)),
    }
}

/// The type that is an argument.
#[tactic(auto, unfolding(crate::specs::Types::type_argument))]
pub fn type_argument<'t>(
    b: &mut Body<'t>,
    args: &[Value<'t>],
    place: usize,
    node: Node<'t>,
) -> Result<usize, Refusal>
    ensures { Reads (spec.type_argument (values_view args.now) place (node_view node.entry)
        (state_of b.old)) result (state_of b.new) }
{
    let value = argument(args, place, node)?;
    type_of(b, value, node)
}

/// The code of the scalar type that is the first argument.
#[tactic(auto, unfolding(crate::specs::Types::scalar_argument))]
pub fn scalar_argument<'t>(
    b: &mut Body<'t>,
    args: &[Value<'t>],
    node: Node<'t>,
) -> Result<u64, Refusal>
    ensures { Reads (spec.scalar_argument (values_view args.now) (node_view node.entry)
        (state_of b.old)) result (state_of b.new) }
{
    let place = type_argument(b, args, 0, node)?;
    match b.types.scalar_of(place) {
        Some(code) => Ok(code),
        None => Err(refused(Reason::Template, node.span)),
    }
}

/// An override without a name, of the value that a pipeline computes.
#[tactic(auto, unfolding(crate::specs::Types::unnamed_override))]
fn unnamed_override<'t>(b: &mut Body<'t>, init: usize, node: Node<'t>) -> Result<usize, Refusal>
    ensures { Reads (spec.unnamed_override init (node_view node.entry) (state_of b.old))
        result (state_of b.new) }
{
    let ty = Index::new(b.types.plain(PlainType::Scalar(NOT_TOLD))?);
    let size = Override {
        name: None,
        id: None,
        ty,
        init: Some(Index::new(init)),
    };
    let place = b.overrides.append(size, span_of(node.span))?;
    Ok(place.index())
}

/// A size that a pipeline computes.
#[tactic(auto, unfolding(crate::specs::Types::pending_size))]
fn pending_size<'t>(
    b: &mut Body<'t>,
    value: Value<'t>,
    node: Node<'t>,
) -> Result<ArraySize, Refusal>
    ensures { Reads (spec.pending_size (value_view value.entry) (node_view node.entry)
        (state_of b.old)) result (state_of b.new) }
{
    if !b.is_global {
        return Err(refused(Reason::NoConstant, node.span));
    }
    let value = b.settle(value, node)?;
    let place = unnamed_override(b, handle_of(value).index(), node)?;
    Ok(ArraySize::Pending(Index::new(place)))
}

#[tactic(auto, unfolding(crate::specs::Types::unknown_size))]
fn unknown_size<'t>(
    b: &mut Body<'t>,
    value: Value<'t>,
    node: Node<'t>,
) -> Result<ArraySize, Refusal>
    ensures { Reads (spec.unknown_size (value_view value.entry) (node_view node.entry)
        (state_of b.old)) result (state_of b.new) }
{
    match value.what {
        What::Override(place) => Ok(ArraySize::Pending(Index::new(place))),
        _ => pending_size(b, value, node),
    }
}

#[tactic(auto, unfolding(crate::specs::Types::size_of))]
fn size_of<'t>(b: &mut Body<'t>, value: Value<'t>, node: Node<'t>) -> Result<ArraySize, Refusal>
    ensures { Reads (spec.size_of (value_view value.entry) (node_view node.entry)
        (state_of b.old)) result (state_of b.new) }
{
    match value.number {
        Some(number) => known_size(number, node),
        None => unknown_size(b, value, node),
    }
}

/// The size that is the second argument, if there is one.
#[tactic(auto, unfolding(crate::specs::Types::size_argument))]
pub fn size_argument<'t>(
    b: &mut Body<'t>,
    args: &[Value<'t>],
    node: Node<'t>,
) -> Result<ArraySize, Refusal>
    ensures { Reads (spec.size_argument (values_view args.now) (node_view node.entry)
        (state_of b.old)) result (state_of b.new) }
{
    match args {
        [_, size, ..] => size_of(b, *size, node),
        _ => Ok(ArraySize::Dynamic),
    }
}
