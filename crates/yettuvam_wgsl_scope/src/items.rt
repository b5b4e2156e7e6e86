//! The items of a module.

ghost use Rattle.std.specs.Prelude.{◌≡◌, OnOk, length};
ghost use Rattle.yettuvam_wgsl_machine.specs.Machine.{node_view, nodes_view};
ghost use Rattle.yettuvam_wgsl_scope.specs.Items as spec;
ghost use Rattle.yettuvam_wgsl_scope.specs.Items.{state_of, items_view, name_view};
ghost use Rattle.yettuvam_wgsl_scope.specs.Refused.{Reads, Gives};

use crate::refusal::{Reason, Refusal, refused_after};
use std::alloc::{AllocError, Global};
use std::collections::HashMap;
use yettuvam_wgsl_machine::symbol::{Form, Node};
use yettuvam_wgsl_words::token::Span;

/// A name where it is declared.
#[derive(Clone, Copy, Debug)]
pub struct Name<'t> {
    pub text: &'t [u8],
    pub span: Span,
}

/// The name that a node gives.
pub fn name_of<'t>(node: Node<'t>) -> Name<'t>
    ensures { name_view result ≡ spec.name_of (node_view node.entry) }
{
    let Node { text, span, .. } = node;
    Name { text, span }
}

/// An item of a module.
#[derive(Clone, Copy)]
pub struct Item<'t> {
    /// The name that it declares; an item without a name has an empty one.
    pub name: Name<'t>,
    /// The places of its nodes, from the first to before the last.
    pub start: usize,
    pub end: usize,
}

/// What a node is for items.
#[derive(Clone, Copy)]
pub enum ItemAct {
    Nothing,
    /// A function begins, and gives the name of the item.
    Function,
    /// The node gives the name of the item.
    Name,
    /// The node gives the name of the item, unless it stands in a function.
    Declared,
    /// The node ends the item.
    End,
    /// The node ends the item, unless it stands in a function.
    Assertion,
}

fn act_of(form: Form) -> ItemAct
    ensures { result ≡ spec.act_of form }
{
    match form {
        Form::FunctionName => ItemAct::Function,
        Form::StructName | Form::AliasName => ItemAct::Name,
        Form::Declared => ItemAct::Declared,
        Form::Function | Form::Const | Form::Var | Form::Override | Form::Alias => ItemAct::End,
        Form::Struct | Form::Enable | Form::Requires | Form::Diagnostic => ItemAct::End,
        Form::ConstAssert => ItemAct::Assertion,
        _ => ItemAct::Nothing,
    }
}

/// The name of what has none.
pub fn no_name<'t>() -> Name<'t>
    ensures { name_view result ≡ spec.no_name }
{
    Name {
        text: &[],
        span: Span { start: 0, end: 0 },
    }
}

#[derive(Drop)]
pub struct Finder<'t> {
    items: Vec<Item<'t>>,
    name: Name<'t>,
    /// The first node of the item.
    start: usize,
    is_in_function: bool,
}

impl<'t> Finder<'t> {
    /// The item ends before a node.
    #[tactic(auto, unfolding(crate::specs::Items::end))]
    fn end(&mut self, end: usize) -> Result<(), Refusal>
        ensures { Reads (spec.end end (state_of self.old)) result (state_of self.new) }
    {
        let (name, start) = (self.name, self.start);
        self.items.push(Item { name, start, end })?;
        self.start = end;
        self.name = no_name();
        self.is_in_function = false;
        Ok(())
    }

    #[tactic(auto, unfolding(crate::specs::Items::end_outside))]
    fn end_outside(&mut self, end: usize) -> Result<(), Refusal>
        ensures { Reads (spec.end_outside end (state_of self.old)) result (state_of self.new) }
    {
        if self.is_in_function {
            Ok(())
        } else {
            self.end(end)
        }
    }

    fn name(&mut self, node: Node<'t>)
        ensures { state_of self.new ≡ spec.named (node_view node.entry) (state_of self.old) }
    {
        self.name = name_of(node);
    }

    fn declared(&mut self, node: Node<'t>)
        ensures { state_of self.new ≡ spec.declared (node_view node.entry) (state_of self.old) }
    {
        if !self.is_in_function {
            self.name = name_of(node);
        }
    }

    fn function(&mut self, node: Node<'t>)
        ensures { state_of self.new ≡ spec.function (node_view node.entry) (state_of self.old) }
    {
        self.name = name_of(node);
        self.is_in_function = true;
    }

    /// A node, before the one at a place.
    #[tactic(auto, unfolding(crate::specs::Items::step))]
    fn step(&mut self, node: Node<'t>, next: usize) -> Result<(), Refusal>
        ensures { Reads (spec.step next (node_view node.entry) (state_of self.old)) result (state_of self.new) }
    {
        match act_of(node.form) {
            ItemAct::Nothing => Ok(()),
            ItemAct::Function => {
                self.function(node);
                Ok(())
            }
            ItemAct::Name => {
                self.name(node);
                Ok(())
            }
            ItemAct::Declared => {
                self.declared(node);
                Ok(())
            }
            ItemAct::End => self.end(next),
            ItemAct::Assertion => self.end_outside(next),
        }
    }

    #[tactic(auto, unfolding(crate::specs::Items::run))]
    fn run(&mut self, nodes: &[Node<'t>]) -> Result<(), Refusal>
        ensures { Reads (spec.run (length nodes.now) (nodes_view nodes.now) (state_of self.old)) result (state_of self.new) }
    {
        let total = nodes.len();
        let mut rest = nodes;
        while let [node, more @ ..] = rest {
            self.step(*node, total.saturating_sub(more.len()))?;
            rest = more;
        }
        Ok(())
    }
}

/// The items of a module, in the order of the text.
pub fn items_of<'t>(alloc: Global, nodes: &[Node<'t>]) -> Result<Vec<Item<'t>>, Refusal>
    ensures { Gives (λ v. items_view v.items) result (spec.items_of (nodes_view nodes.now)) }
{
    let mut finder = Finder {
        items: Vec::new(alloc),
        name: no_name(),
        start: 0,
        is_in_function: false,
    };
    finder.run(nodes)?;
    Ok(finder.items)
}

/// The place of the item of each name.
pub type ItemNames<'t> = HashMap<&'t [u8], usize>;

fn name_at<'t>(items: &[Item<'t>], place: usize) -> Name<'t>
    ensures { name_view result ≡ spec.name_at (items_view items.now) place }
{
    match items.get(place) {
        Some(item) => item.name,
        None => no_name(),
    }
}

/// The item of a name.
pub fn item_named<'t>(names: &ItemNames<'t>, name: &'t [u8]) -> Option<usize>
    ensures { result ≡ spec.item_in names.now name.now }
{
    names.get(&name).copied()
}

/// The item at a place has a name.
fn set_place<'t>(names: &mut ItemNames<'t>, name: &'t [u8], place: usize) -> Result<(), AllocError>
    ensures { OnOk result (spec.item_in names.new ≡ spec.with_place (spec.item_in names.old) name.now place) }
{
    names.insert(name, place)?;
    Ok(())
}

/// The item at a place declares a name, unless the name is empty.
#[tactic(auto, unfolding(crate::specs::Items::declare))]
fn declare<'t>(
    names: &mut ItemNames<'t>,
    items: &[Item<'t>],
    name: Name<'t>,
    place: usize,
) -> Result<(), Refusal>
    ensures { Reads (spec.declare (items_view items.now) (name_view name.entry) place (spec.item_in names.old)) result (spec.item_in names.new) }
{
    if name.text.is_empty() {
        return Ok(());
    }
    match item_named(names, name.text) {
        Some(earlier) => Err(refused_after(
            Reason::DeclaredTwice,
            name.span,
            name_at(items, earlier).span,
        )),
        None => {
            set_place(names, name.text, place)?;
            Ok(())
        }
    }
}

#[tactic(auto, unfolding(crate::specs::Items::declare_all))]
fn declare_all<'t>(names: &mut ItemNames<'t>, items: &[Item<'t>]) -> Result<(), Refusal>
    ensures { Reads (spec.declare_all (items_view items.now) (items_view items.now) (spec.item_in names.old)) result (spec.item_in names.new) }
{
    let mut rest = items;
    while let [item, more @ ..] = rest {
        declare(
            names,
            items,
            item.name,
            items.len().saturating_sub(rest.len()),
        )?;
        rest = more;
    }
    Ok(())
}

/// The names of the items of a module.
///
/// # Errors
/// `DeclaredTwice` if two items have one name.
pub fn names_of<'t>(alloc: Global, items: &[Item<'t>]) -> Result<ItemNames<'t>, Refusal>
    ensures { Gives (λ m. spec.item_in m) result (spec.names_of (items_view items.now)) }
{
    let mut names = HashMap::new(alloc);
    declare_all(&mut names, items)?;
    Ok(names)
}
