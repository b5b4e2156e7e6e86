//! Lists of template arguments.

ghost use Rattle.std.specs.Prelude.{◌≡◌};
ghost use Rattle.yettuvam_wgsl_machine.specs.Machine.{node_view};
ghost use Rattle.yettuvam_wgsl_scope.specs.Items.{name_view};
ghost use Rattle.yettuvam_wgsl_scope.specs.Refused.{Reads};
ghost use Rattle.yettuvam_wgsl_values.specs.Blocks.{front};
ghost use Rattle.yettuvam_wgsl_values.specs.Body.{state_of};
ghost use Rattle.yettuvam_wgsl_values.specs.Value.{values_view, what_view};
ghost use Rattle.yettuvam_wgsl_type_words.specs.Templates as spec;

use crate::types::{scalar_argument, size_argument, type_argument};
use yettuvam_wgsl_arguments::{access_argument, format_argument, space_arguments};
use yettuvam_wgsl_machine::symbol::Node;
use yettuvam_wgsl_predeclared::{Generic, generic_word, word_of};
use yettuvam_wgsl_scope::{Name, Reason, Refusal, refused};
use yettuvam_wgsl_types::PlainType;
use yettuvam_wgsl_values::value::bare;
use yettuvam_wgsl_values::{Body, Call, Value, What};

/// What the code of a scalar type is multiplied by in the code of a vector, a matrix or a texture.
const VECTOR_UNIT: u64 = 16;

const MATRIX_UNIT: u64 = 256;

const TEXTURE_UNIT: u64 = 256;
/// What the code of an access mode is multiplied by in the code of a storage texture.
const ACCESS_UNIT: u64 = 65_536;
/// The places of the access mode among the arguments of `ptr` and of `var`.
const POINTER_ACCESS: usize = 2;

const VARIABLE_ACCESS: usize = 1;

/// The most arguments of `var`.
const VARIABLE_ARGUMENTS: usize = 2;

/// The arguments of a template begin.
#[tactic(auto, unfolding(crate::specs::Templates::template))]
pub fn template<'t>(b: &mut Body<'t>) -> Result<(), Refusal>
    ensures { Reads (spec.template (state_of b.old)) result (state_of b.new) }
{
    let count = b.values.len();
    b.calls.push(Call {
        count,
        is_statement: false,
    })?;
    Ok(())
}

/// The last call or list that is open, which is taken; of none, one of all values.
pub fn pop_call(calls: &mut Vec<Call>) -> Call
    ensures value { result ≡ spec.last_call calls.old.items }
    ensures rest { calls.new.items ≡ front calls.old.items }
{
    calls.pop().unwrap_or(Call {
        count: 0,
        is_statement: false,
    })
}

#[tactic(auto, unfolding(crate::specs::Templates::give_type))]
fn give_type<'t>(b: &mut Body<'t>, place: usize) -> Result<(), Refusal>
    ensures { Reads (spec.give_type place (state_of b.old)) result (state_of b.new) }
{
    b.give(bare(What::Type(place)))
}

#[tactic(auto, unfolding(crate::specs::Templates::plain))]
fn plain<'t>(b: &mut Body<'t>, ty: PlainType) -> Result<(), Refusal>
    ensures { Reads (spec.plain ty (state_of b.old)) result (state_of b.new) }
{
    let place = b.types.plain(ty)?;
    give_type(b, place)
}

/// `array` of a type, and of a size if there is one.
#[tactic(auto, unfolding(crate::specs::Templates::array))]
fn array<'t>(b: &mut Body<'t>, args: &[Value<'t>], node: Node<'t>) -> Result<(), Refusal>
    ensures { Reads (spec.array (values_view args.now) (node_view node.entry) (state_of b.old))
        result (state_of b.new) }
{
    let base = type_argument(b, args, 0, node)?;
    let size = size_argument(b, args, node)?;
    let place = b.types.array(base, size)?;
    give_type(b, place)
}

/// `binding_array` of a type, and of a size if there is one.
#[tactic(auto, unfolding(crate::specs::Templates::binding_array))]
fn binding_array<'t>(b: &mut Body<'t>, args: &[Value<'t>], node: Node<'t>) -> Result<(), Refusal>
    ensures { Reads (spec.binding_array (values_view args.now) (node_view node.entry)
        (state_of b.old)) result (state_of b.new) }
{
    let base = type_argument(b, args, 0, node)?;
    let size = size_argument(b, args, node)?;
    let place = b.types.binding_array(base, size)?;
    give_type(b, place)
}

/// `ptr` of an address space, a type and maybe an access mode.
#[tactic(auto, unfolding(crate::specs::Templates::pointer))]
fn pointer<'t>(b: &mut Body<'t>, args: &[Value<'t>], node: Node<'t>) -> Result<(), Refusal>
    ensures { Reads (spec.pointer (values_view args.now) (node_view node.entry)
        (state_of b.old)) result (state_of b.new) }
{
    let space = space_arguments(args, POINTER_ACCESS, node)?;
    let base = type_argument(b, args, 1, node)?;
    let place = b.types.pointer(base, space)?;
    give_type(b, place)
}

/// `bitcast` to a type.
#[tactic(auto, unfolding(crate::specs::Templates::cast))]
fn cast<'t>(b: &mut Body<'t>, args: &[Value<'t>], node: Node<'t>) -> Result<(), Refusal>
    ensures { Reads (spec.cast (values_view args.now) (node_view node.entry) (state_of b.old))
        result (state_of b.new) }
{
    let place = type_argument(b, args, 0, node)?;
    match b.types.bits_of(place) {
        Some(code) => b.give(bare(What::Cast(code))),
        None => Err(refused(Reason::Template, node.span)),
    }
}

/// The code of a type that has another code above its own.
fn with_code(code: u64, unit: u64, above: u64) -> u64
    ensures { result ≡ spec.with_code code unit above }
{
    above.wrapping_mul(unit).wrapping_add(code)
}

/// A storage texture of a texel format and an access mode.
#[tactic(auto, unfolding(crate::specs::Templates::storage))]
fn storage<'t>(
    b: &mut Body<'t>,
    texture: u64,
    args: &[Value<'t>],
    node: Node<'t>,
) -> Result<(), Refusal>
    ensures { Reads (spec.storage texture (values_view args.now) (node_view node.entry)
        (state_of b.old)) result (state_of b.new) }
{
    let format = format_argument(args, 0, node)?;
    let access = access_argument(args, 1, node)?;
    let code = with_code(texture, TEXTURE_UNIT, format);
    plain(b, PlainType::Image(with_code(code, ACCESS_UNIT, access)))
}

/// A type of a scalar type.
fn type_with(word: Generic, scalar: u64) -> PlainType
    ensures { result ≡ spec.type_with word scalar }
{
    match word {
        Generic::Vector(size) => PlainType::Vector(with_code(size, VECTOR_UNIT, scalar)),
        Generic::Matrix(sizes) => PlainType::Matrix(with_code(sizes, MATRIX_UNIT, scalar)),
        Generic::Sampled(texture) => PlainType::Image(with_code(texture, TEXTURE_UNIT, scalar)),
        _ => PlainType::Atomic(scalar),
    }
}

#[tactic(auto, unfolding(crate::specs::Templates::of_scalar))]
fn of_scalar<'t>(
    b: &mut Body<'t>,
    word: Generic,
    args: &[Value<'t>],
    node: Node<'t>,
) -> Result<(), Refusal>
    ensures { Reads (spec.of_scalar word (values_view args.now) (node_view node.entry)
        (state_of b.old)) result (state_of b.new) }
{
    let scalar = scalar_argument(b, args, node)?;
    plain(b, type_with(word, scalar))
}

/// The most arguments of a list.
fn most_arguments(word: Generic) -> usize
    ensures { result ≡ spec.most_arguments word }
{
    match word {
        Generic::Pointer => 3,
        Generic::Array | Generic::BindingArray | Generic::Storage(_) => 2,
        _ => 1,
    }
}

fn template_by<'t>(
    b: &mut Body<'t>,
    word: Generic,
    args: &[Value<'t>],
    node: Node<'t>,
) -> Result<(), Refusal>
    ensures { Reads (spec.template_by word (values_view args.now) (node_view node.entry)
        (state_of b.old)) result (state_of b.new) }
{
    match word {
        Generic::Array => array(b, args, node),
        Generic::BindingArray => binding_array(b, args, node),
        Generic::Pointer => pointer(b, args, node),
        Generic::Bitcast => cast(b, args, node),
        Generic::Storage(texture) => storage(b, texture, args, node),
        Generic::Vector(_) | Generic::Matrix(_) | Generic::Sampled(_) | Generic::Atomic => {
            of_scalar(b, word, args, node)
        }
    }
}

#[tactic(auto, unfolding(crate::specs::Templates::word_template))]
fn word_template<'t>(
    b: &mut Body<'t>,
    word: Generic,
    args: &[Value<'t>],
    node: Node<'t>,
) -> Result<(), Refusal>
    ensures { Reads (spec.word_template word (values_view args.now) (node_view node.entry)
        (state_of b.old)) result (state_of b.new) }
{
    if args.len() > most_arguments(word) {
        return Err(refused(Reason::Template, node.span));
    }
    template_by(b, word, args, node)
}

#[tactic(auto, unfolding(crate::specs::Templates::named_template))]
fn named_template<'t>(
    b: &mut Body<'t>,
    name: Name<'t>,
    args: &[Value<'t>],
    node: Node<'t>,
) -> Result<(), Refusal>
    ensures { Reads (spec.named_template (name_view name.entry) (values_view args.now)
        (node_view node.entry) (state_of b.old)) result (state_of b.new) }
{
    match generic_word(word_of(name.text)) {
        Some(word) => word_template(b, word, args, node),
        None => Err(refused(Reason::Template, name.span)),
    }
}

/// The address space of a variable, and maybe an access mode.
#[tactic(auto, unfolding(crate::specs::Templates::variable_space))]
fn variable_space<'t>(b: &mut Body<'t>, args: &[Value<'t>], node: Node<'t>) -> Result<(), Refusal>
    ensures { Reads (spec.variable_space (values_view args.now) (node_view node.entry)
        (state_of b.old)) result (state_of b.new) }
{
    if args.len() > VARIABLE_ARGUMENTS {
        return Err(refused(Reason::Template, node.span));
    }
    let space = space_arguments(args, VARIABLE_ACCESS, node)?;
    b.give(bare(What::Space(space)))
}

#[tactic(auto, unfolding(crate::specs::Templates::template_of))]
fn template_of<'t>(
    b: &mut Body<'t>,
    head: What<'t>,
    args: &[Value<'t>],
    node: Node<'t>,
) -> Result<(), Refusal>
    ensures { Reads (spec.template_of (what_view head.entry) (values_view args.now)
        (node_view node.entry) (state_of b.old)) result (state_of b.new) }
{
    match head {
        What::NoSpace => variable_space(b, args, node),
        What::Word(name) => named_template(b, name, args, node),
        _ => Err(refused(Reason::Template, node.span)),
    }
}

/// The arguments of a template end.
#[tactic(auto, unfolding(crate::specs::Templates::template_end))]
pub fn template_end<'t>(b: &mut Body<'t>, node: Node<'t>) -> Result<(), Refusal>
    ensures { Reads (spec.template_end (node_view node.entry) (state_of b.old))
        result (state_of b.new) }
{
    let call = pop_call(&mut b.calls);
    let args = b.arguments(call.count)?;
    let head = b.take_value(node)?;
    template_of(b, head.what, args.as_slice(), node)
}
