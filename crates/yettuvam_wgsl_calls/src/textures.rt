//! Calls of functions of textures.

ghost use Rattle.std.specs.Prelude.{◌≡◌};
ghost use Rattle.yettuvam_wgsl_machine.specs.Machine.{node_view};
ghost use Rattle.yettuvam_wgsl_scope.specs.Refused.{Reads, Gives};
ghost use Rattle.yettuvam_wgsl_values.specs.Body.{state_of};
ghost use Rattle.yettuvam_wgsl_values.specs.Value.{values_view};
ghost use Rattle.yettuvam_wgsl_calls.specs.Textures as spec;

use yettuvam_wgsl_arguments::textures::{component_of, load, query, sample, store};
use yettuvam_wgsl_machine::symbol::Node;
use yettuvam_wgsl_names::functions::{TEXTURE_GATHER, TEXTURE_LOAD, TEXTURE_STORE};
use yettuvam_wgsl_operators::{give_computed, note_effect};
use yettuvam_wgsl_predeclared::is_depth;
use yettuvam_wgsl_scope::{Reason, Refusal, refused};
use yettuvam_wgsl_types::Shape;
use yettuvam_wgsl_values::value::bare;
use yettuvam_wgsl_values::{Body, Value, What};

/// The code of the texture of a shape.
#[tactic(auto, unfolding(crate::specs::Textures::image_of))]
fn image_of<'t>(b: &Body<'t>, shape: Shape, node: Node<'t>) -> Result<u64, Refusal>
    ensures { Gives (λ c. c) result
        (spec.image_of shape (node_view node.entry) (state_of b.now)) }
{
    match b.types.image_of(shape) {
        Some(code) => Ok(code),
        None => Err(refused(Reason::NoType, node.span)),
    }
}

/// The code of the texture that is the first argument.
#[tactic(auto, unfolding(crate::specs::Textures::image_in))]
fn image_in<'t>(b: &Body<'t>, args: &[Value<'t>], node: Node<'t>) -> Result<u64, Refusal>
    ensures { Gives (λ c. c) result
        (spec.image_in (values_view args.now) (node_view node.entry) (state_of b.now)) }
{
    match args {
        [first, ..] => image_of(b, first.shape, node),
        [] => Err(refused(Reason::Arguments, node.span)),
    }
}

/// Whether the first argument is a texture of depths.
#[tactic(auto, unfolding(crate::specs::Textures::is_depth_first))]
fn is_depth_first<'t>(b: &Body<'t>, args: &[Value<'t>]) -> bool
    ensures { result ≡ spec.is_depth_first (values_view args.now) (state_of b.now) }
{
    match args {
        [first, ..] => match b.types.image_of(first.shape) {
            Some(image) => is_depth(image),
            None => false,
        },
        [] => false,
    }
}

/// A sample of a texture without a component.
#[tactic(auto, unfolding(crate::specs::Textures::sample_with))]
fn sample_with<'t>(
    b: &mut Body<'t>,
    code: u64,
    component: u64,
    args: &[Value<'t>],
    node: Node<'t>,
) -> Result<(), Refusal>
    ensures { Reads (spec.sample_with code component (values_view args.now)
        (node_view node.entry) (state_of b.old)) result (state_of b.new) }
{
    let image = image_in(b, args, node)?;
    let sample = sample(b.alloc, code, component, image, args, node)?;
    give_computed(b, sample, None, node)
}

/// A gather, whose first argument is its component.
#[tactic(auto, unfolding(crate::specs::Textures::gather))]
fn gather<'t>(
    b: &mut Body<'t>,
    code: u64,
    args: &[Value<'t>],
    node: Node<'t>,
) -> Result<(), Refusal>
    ensures { Reads (spec.gather code (values_view args.now) (node_view node.entry)
        (state_of b.old)) result (state_of b.new) }
{
    match args {
        [first, rest @ ..] => {
            let component = component_of(first.number, node)?;
            sample_with(b, code, component, rest, node)
        }
        [] => Err(refused(Reason::Arguments, node.span)),
    }
}

/// A sample of a texture. A gather has a component, unless the texture has depths.
#[tactic(auto, unfolding(crate::specs::Textures::sample_texture))]
pub fn sample_texture<'t>(
    b: &mut Body<'t>,
    code: u64,
    args: &[Value<'t>],
    node: Node<'t>,
) -> Result<(), Refusal>
    ensures { Reads (spec.sample_texture code (values_view args.now) (node_view node.entry)
        (state_of b.old)) result (state_of b.new) }
{
    note_effect(b);
    if code == TEXTURE_GATHER && !is_depth_first(b, args) {
        gather(b, code, args, node)
    } else {
        sample_with(b, code, 0, args, node)
    }
}

#[tactic(auto, unfolding(crate::specs::Textures::load_texel))]
fn load_texel<'t>(b: &mut Body<'t>, args: &[Value<'t>], node: Node<'t>) -> Result<(), Refusal>
    ensures { Reads (spec.load_texel (values_view args.now) (node_view node.entry)
        (state_of b.old)) result (state_of b.new) }
{
    let image = image_in(b, args, node)?;
    let load = load(b.alloc, image, args, node)?;
    give_computed(b, load, None, node)
}

#[tactic(auto, unfolding(crate::specs::Textures::store_texel))]
fn store_texel<'t>(b: &mut Body<'t>, args: &[Value<'t>], node: Node<'t>) -> Result<(), Refusal>
    ensures { Reads (spec.store_texel (values_view args.now) (node_view node.entry)
        (state_of b.old)) result (state_of b.new) }
{
    let image = image_in(b, args, node)?;
    let store = store(image, args, node)?;
    b.state(store, node.span)?;
    b.give(bare(What::Nothing))
}

#[tactic(auto, unfolding(crate::specs::Textures::query_texture))]
fn query_texture<'t>(
    b: &mut Body<'t>,
    code: u64,
    args: &[Value<'t>],
    node: Node<'t>,
) -> Result<(), Refusal>
    ensures { Reads (spec.query_texture code (values_view args.now) (node_view node.entry)
        (state_of b.old)) result (state_of b.new) }
{
    let query = query(code, args, node)?;
    give_computed(b, query, None, node)
}

/// A load, a store or a query of a texture.
#[tactic(auto, unfolding(crate::specs::Textures::texture))]
pub fn texture<'t>(
    b: &mut Body<'t>,
    code: u64,
    args: &[Value<'t>],
    node: Node<'t>,
) -> Result<(), Refusal>
    ensures { Reads (spec.texture code (values_view args.now) (node_view node.entry)
        (state_of b.old)) result (state_of b.new) }
{
    note_effect(b);
    match code {
        TEXTURE_LOAD => load_texel(b, args, node),
        TEXTURE_STORE => store_texel(b, args, node),
        _ => query_texture(b, code, args, node),
    }
}
