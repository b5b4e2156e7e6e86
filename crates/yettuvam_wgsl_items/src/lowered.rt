//! The step of a node, items in their order, and the module.

ghost use Rattle.std.specs.Prelude.{◌≡◌};
ghost use Rattle.naga_oil_ir.specs.ModuleValue.{module_value};
ghost use Rattle.yettuvam_wgsl_machine.specs.Machine.{node_view};
ghost use Rattle.yettuvam_wgsl_scope.specs.Items.{item_view, items_view};
ghost use Rattle.yettuvam_wgsl_scope.specs.Names.{bound_view, bounds_view};
ghost use Rattle.yettuvam_wgsl_scope.specs.Refused.{Gives, Reads};
ghost use Rattle.yettuvam_wgsl_items.specs.Items.{state_of};
ghost use Rattle.yettuvam_wgsl_items.specs.Lowered as spec;

use crate::acts::{ItemAct, act_of};
use crate::functions::{function_end, function_name, function_result, no_result, parameter};
use crate::globals::{alias, constant, member, override_item, struct_end, variable};
use crate::items::{
    Items, begin_attribute, end_attribute, end_diagnostic, item_name, part_name, start,
};
use naga_oil_ir::{Arena, Module};
use std::alloc::Global;
use std::mem;
use yettuvam_wgsl_bodies::step::step as body_step;
use yettuvam_wgsl_machine::symbol::Node;
use yettuvam_wgsl_scope::order::Order;
use yettuvam_wgsl_scope::{Bound, Item, Reason, Refusal, Scopes, refused};
use yettuvam_wgsl_values::Meaning;
use yettuvam_wgsl_words::token::Span;

/// What ends an item.
#[tactic(auto, unfolding(crate::specs::Lowered::item))]
fn item<'t>(m: &mut Items<'t>, act: ItemAct, node: Node<'t>) -> Result<(), Refusal>
    ensures { Reads (spec.item act (node_view node.entry) (state_of m.old))
        result (state_of m.new) }
{
    match act {
        ItemAct::Alias => alias(&mut m.body, node),
        ItemAct::Struct => struct_end(&mut m.body),
        ItemAct::Constant => constant(m, node),
        ItemAct::Override => override_item(m, node),
        ItemAct::Variable => variable(m, node),
        ItemAct::Function => function_end(m),
        _ => Ok(()),
    }
}

/// What stands among items, or in one.
#[tactic(auto, unfolding(crate::specs::Lowered::step_by))]
fn step_by<'t>(m: &mut Items<'t>, act: ItemAct, bound: Bound<'t>) -> Result<(), Refusal>
    ensures { Reads (spec.step_by act (bound_view bound.entry) (state_of m.old))
        result (state_of m.new) }
{
    let node = bound.node;
    match act {
        ItemAct::AttributeName => begin_attribute(m, node),
        ItemAct::Attribute => end_attribute(m, node),
        ItemAct::Diagnostic => end_diagnostic(m),
        ItemAct::Name => item_name(m, node),
        ItemAct::Part => part_name(m, node),
        ItemAct::Member => member(m, node),
        ItemAct::FunctionName => function_name(m, node),
        ItemAct::Parameter => parameter(m, node),
        ItemAct::Result => function_result(m, node),
        ItemAct::NoResult => no_result(m),
        ItemAct::Body => body_step(&mut m.body, bound),
        _ => item(m, act, node),
    }
}

/// The step of a node.
#[tactic(auto, unfolding(crate::specs::Lowered::step))]
fn step<'t>(m: &mut Items<'t>, bound: Bound<'t>) -> Result<(), Refusal>
    ensures { Reads (spec.step (bound_view bound.entry) (state_of m.old))
        result (state_of m.new) }
{
    step_by(m, act_of(bound.node.form), bound)
}

/// The steps of nodes, one after the other.
#[tactic(auto, unfolding(crate::specs::Lowered::run))]
fn run<'t>(m: &mut Items<'t>, nodes: &[Bound<'t>]) -> Result<(), Refusal>
    ensures { Reads (spec.run (bounds_view nodes.now) (state_of m.old)) result (state_of m.new) }
{
    let mut rest = nodes;
    while let [node, more @ ..] = rest {
        step(m, *node)?;
        rest = more;
    }
    Ok(())
}

/// An item ends; one without a name means nothing.
#[tactic(auto, unfolding(crate::specs::Lowered::end_item))]
fn end_item<'t>(m: &mut Items<'t>, item: Item<'t>) -> Result<(), Refusal>
    ensures { Reads (spec.end_item (item_view item.entry) (state_of m.old))
        result (state_of m.new) }
{
    m.body.settle_global();
    if item.name.text.is_empty() {
        m.body.know_item(Meaning::Entry)
    } else {
        Ok(())
    }
}

/// An item with its nodes.
#[tactic(auto, unfolding(crate::specs::Lowered::lower))]
fn lower<'t>(m: &mut Items<'t>, item: Item<'t>, nodes: &[Bound<'t>]) -> Result<(), Refusal>
    ensures { Reads (spec.lower (item_view item.entry) (bounds_view nodes.now) (state_of m.old))
        result (state_of m.new) }
{
    run(m, nodes)?;
    end_item(m, item)
}

/// The item at a place of the text.
#[tactic(auto, unfolding(crate::specs::Lowered::lower_at), using(crate::proofs::At::item_at, crate::proofs::At::nodes_at))]
fn lower_at<'t>(
    m: &mut Items<'t>,
    items: &[Item<'t>],
    nodes: &[Vec<Bound<'t>>],
    place: usize,
) -> Result<(), Refusal>
    ensures { Reads (spec.lower_at (items_view items.now) (spec.nodes_view nodes.now) place
        (state_of m.old)) result (state_of m.new) }
{
    match (items.get(place), nodes.get(place)) {
        (Some(item), Some(nodes)) => lower(m, *item, nodes.as_slice()),
        _ => Err(refused(Reason::Broken, Span { start: 0, end: 0 })),
    }
}

/// The items at places, one after the other.
#[tactic(auto, unfolding(crate::specs::Lowered::lower_all))]
fn lower_all<'t>(
    m: &mut Items<'t>,
    items: &[Item<'t>],
    nodes: &[Vec<Bound<'t>>],
    places: &[usize],
) -> Result<(), Refusal>
    ensures { Reads (spec.lower_all (items_view items.now) (spec.nodes_view nodes.now)
        places.now (state_of m.old)) result (state_of m.new) }
{
    let mut rest = places;
    while let [place, more @ ..] = rest {
        lower_at(m, items, nodes, *place)?;
        rest = more;
    }
    Ok(())
}

/// The module of all items, which are taken.
fn finish(m: &mut Items<'_>) -> Module
    ensures { module_value result ≡ spec.module_made (state_of m.old) }
{
    let mut made = Module::new(m.alloc);
    made.types = m.body.take_types();
    made.constants = mem::replace(&mut m.constants, Arena::new(m.alloc));
    made.overrides = m.body.take_overrides();
    made.global_variables = mem::replace(&mut m.variables, Arena::new(m.alloc));
    made.global_expressions = m.body.take_expressions();
    made.functions = mem::replace(&mut m.functions, Arena::new(m.alloc));
    made.entry_points = mem::replace(&mut m.entries, Vec::new(m.alloc));
    made
}

/// Returns the module of a text whose names are resolved.
///
/// # Errors
/// If the text has no meaning, or if out of memory.
pub fn module_of(alloc: Global, scopes: Scopes<'_>) -> Result<Module, Refusal>
    ensures { Gives module_value result (spec.module_of (items_view scopes.entry.items.items)
        (spec.nodes_view scopes.entry.nodes.items) scopes.entry.order.order.items
        scopes.entry.order.ranks.items) }
{
    let Scopes {
        items,
        nodes,
        order,
    } = scopes;
    let Order { order, ranks } = order;
    let mut m = start(alloc, ranks);
    lower_all(&mut m, items.as_slice(), nodes.as_slice(), order.as_slice())?;
    Ok(finish(&mut m))
}
