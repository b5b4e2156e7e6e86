//! The names and the order of a module.

ghost use Rattle.std.specs.Prelude.{◌≡◌, IfOk, map, take, drop};
ghost use Rattle.yettuvam_wgsl_machine.specs.Machine.{nodes_view};
ghost use Rattle.yettuvam_wgsl_scope.specs.Items.{item_in, items_view, item_view};
ghost use Rattle.yettuvam_wgsl_scope.specs.Order.{order_view, uses_view};
ghost use Rattle.yettuvam_wgsl_scope.specs.Refused.{Gives, Reads};
ghost use Rattle.yettuvam_wgsl_scope.specs.Scope as spec;
ghost use Rattle.yettuvam_wgsl_scope.specs.Scope.{state_of, resolved_view, scopes_view};

use crate::items::{Item, ItemNames, items_of, names_of};
use crate::names::{Bound, Names, start};
use crate::order::{Order, sorted};
use crate::refusal::Refusal;
use std::alloc::{AllocError, Global};
use yettuvam_wgsl_machine::symbol::Node;
use yettuvam_wgsl_words::token::Span;

/// The items of a module, the nodes of each with what names mean, and the order of the items.
#[derive(Drop)]
pub struct Scopes<'t> {
    pub items: Vec<Item<'t>>,
    pub nodes: Vec<Vec<Bound<'t>>>,
    pub order: Order,
}

/// The nodes of items with what names mean, and what the items name.
#[derive(Drop)]
pub struct Resolver<'n, 't> {
    names: Names<'n, 't>,
    nodes: Vec<Vec<Bound<'t>>>,
    uses: Vec<Vec<usize>>,
}

fn after<'n, 't>(nodes: &'n [Node<'t>], count: usize) -> &'n [Node<'t>]
    ensures { result.now ≡ drop count nodes.now }
{
    if count <= nodes.len() {
        &nodes[count..]
    } else {
        &[]
    }
}

fn up_to<'n, 't>(nodes: &'n [Node<'t>], count: usize) -> &'n [Node<'t>]
    ensures { result.now ≡ take count nodes.now }
{
    if count <= nodes.len() {
        &nodes[..count]
    } else {
        nodes
    }
}

/// The nodes of an item.
#[tactic(auto, using(crate::proofs::Takes::take_of_map, crate::proofs::Takes::drop_of_map))]
fn nodes_of<'n, 't>(nodes: &'n [Node<'t>], item: Item<'t>) -> &'n [Node<'t>]
    ensures { nodes_view result.now ≡ spec.nodes_of (nodes_view nodes.now) (item_view item.entry) }
{
    up_to(
        after(nodes, item.start),
        item.end.saturating_sub(item.start),
    )
}

impl<'n, 't> Resolver<'n, 't> {
    #[tactic(auto, unfolding(crate::specs::Scope::item))]
    fn item(&mut self, nodes: &[Node<'t>]) -> Result<(), Refusal>
        ensures { Reads (spec.item (nodes_view nodes.now) (state_of self.old)) result (state_of self.new) }
    {
        self.names.run(nodes)?;
        let resolved = self.names.take();
        self.nodes.push(resolved.nodes)?;
        self.uses.push(resolved.uses)?;
        Ok(())
    }

    #[tactic(auto, unfolding(crate::specs::Scope::run))]
    fn run(&mut self, items: &[Item<'t>], nodes: &[Node<'t>]) -> Result<(), Refusal>
        ensures { Reads (spec.run (nodes_view nodes.now) (items_view items.now) (state_of self.old)) result (state_of self.new) }
    {
        let mut rest = items;
        while let [item, more @ ..] = rest {
            self.item(nodes_of(nodes, *item))?;
            rest = more;
        }
        Ok(())
    }
}

fn start_resolver<'n, 't>(alloc: Global, names: &'n ItemNames<'t>) -> Resolver<'n, 't>
    ensures { state_of result ≡ spec.start_of (item_in names.now) }
{
    Resolver {
        names: start(alloc, names),
        nodes: Vec::new(alloc),
        uses: Vec::new(alloc),
    }
}

fn spans_of(alloc: Global, items: &[Item<'_>]) -> Result<Vec<Span>, AllocError>
    ensures { IfOk result (λ v. v.items ≡ map (λ i. i.name.span) items.now) }
{
    items.iter().map(|item| item.name.span).collect(alloc)
}

/// The nodes of items with what names mean, and what the items name.
#[derive(Drop)]
pub struct Resolved<'t> {
    nodes: Vec<Vec<Bound<'t>>>,
    uses: Vec<Vec<usize>>,
}

#[tactic(auto, unfolding(crate::specs::Scope::resolved_of))]
fn resolved_of<'t>(
    alloc: Global,
    items: &[Item<'t>],
    nodes: &[Node<'t>],
) -> Result<Resolved<'t>, Refusal>
    ensures { Gives resolved_view result (spec.resolved_of (nodes_view nodes.now) (items_view items.now)) }
{
    let names = names_of(alloc, items)?;
    let mut resolver = start_resolver(alloc, &names);
    resolver.run(items, nodes)?;
    let Resolver { nodes, uses, .. } = resolver;
    Ok(Resolved { nodes, uses })
}

/// The most turns that sorting takes: one for each item and each use, and one.
fn turns_of(nodes: usize, items: usize) -> usize
    ensures { result ≡ spec.turns_of nodes items }
{
    nodes.saturating_add(items).saturating_add(1)
}

#[tactic(auto, using(crate::proofs::Spans::spans_seen))]
fn order_of(
    alloc: Global,
    items: &[Item<'_>],
    uses: &[Vec<usize>],
    turns: usize,
) -> Result<Order, Refusal>
    ensures { Gives order_view result (spec.order_of (items_view items.now) (uses_view uses.now) turns) }
{
    let spans = spans_of(alloc, items)?;
    sorted(alloc, spans.as_slice(), uses, turns)
}

/// Resolves the names of a module and sorts its items.
///
/// # Errors
/// `DeclaredTwice` if a scope declares a name twice, `Cycle` if an item reaches itself.
#[tactic(auto, unfolding(crate::specs::Scope::scoped))]
pub fn scoped<'t>(alloc: Global, nodes: &[Node<'t>]) -> Result<Scopes<'t>, Refusal>
    ensures { Gives scopes_view result (spec.scoped (nodes_view nodes.now)) }
{
    let items = items_of(alloc, nodes)?;
    let resolved = resolved_of(alloc, items.as_slice(), nodes)?;
    let turns = turns_of(nodes.len(), items.len());
    let order = order_of(alloc, items.as_slice(), resolved.uses.as_slice(), turns)?;
    Ok(Scopes {
        items,
        nodes: resolved.nodes,
        order,
    })
}
