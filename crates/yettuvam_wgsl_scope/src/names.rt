//! What names mean.

ghost use Rattle.std.specs.Prelude.{◌≡◌, option_map};
ghost use Rattle.yettuvam_wgsl_machine.specs.Machine.{node_view, nodes_view};
ghost use Rattle.yettuvam_wgsl_scope.specs.Names as spec;
ghost use Rattle.yettuvam_wgsl_scope.specs.Names.{state_of, local_view, bounds_view};
ghost use Rattle.yettuvam_wgsl_scope.specs.Items.{item_in};
ghost use Rattle.yettuvam_wgsl_scope.specs.Refused.{Reads};

use crate::items::{ItemNames, Name, item_named, name_of, no_name};
use crate::locals::{Local, Locals};
use crate::refusal::{Reason, Refusal, refused_after};
use std::alloc::Global;
use std::mem;
use yettuvam_wgsl_machine::symbol::{Form, Node};

/// What a name means.
#[derive(Clone, Copy, Debug, PartialEq, Eq)]
pub enum Binding {
    /// The node is no name.
    Nothing,
    /// The item at a place in the order of the text.
    Item(usize),
    /// A declaration of the function, numbered from 0 in the order in which the names come into scope.
    Local(usize),
    /// No declaration of the module: a word of the language, or unknown.
    Word,
}

/// A node with what its name means.
#[derive(Clone, Copy, Debug)]
pub struct Bound<'t> {
    pub node: Node<'t>,
    pub binding: Binding,
}

/// What a node does to names.
#[derive(Clone, Copy)]
pub enum NameAct {
    Nothing,
    /// A function begins, with a scope that its first block shares.
    Function,
    Open,
    Close,
    /// The name of what is declared, and its end, from where on it is in scope.
    Named,
    Declared,
    Name,
    /// An attribute begins, and ends.
    Attribute,
    AttributeEnd,
}

fn act_of(form: Form) -> NameAct
    ensures { result ≡ spec.act_of form }
{
    match form {
        Form::FunctionName => NameAct::Function,
        Form::Block => NameAct::Open,
        Form::BlockEnd => NameAct::Close,
        Form::Declared | Form::ParameterName => NameAct::Named,
        Form::Let | Form::LocalConst | Form::LocalVar | Form::Parameter => NameAct::Declared,
        Form::Name | Form::TypeName => NameAct::Name,
        Form::AttributeName | Form::DiagnosticStart => NameAct::Attribute,
        Form::Attribute | Form::Diagnostic => NameAct::AttributeEnd,
        _ => NameAct::Nothing,
    }
}

fn same_text(a: &[u8], b: &[u8]) -> bool
    ensures { result ≡ spec.same_text a.now b.now }
{
    a == b
}

/// Whether the arguments of an attribute are words, which no declaration shadows.
fn takes_words(name: &[u8]) -> bool
    ensures { result ≡ spec.takes_words name.now }
{
    same_text(name, b"builtin") || same_text(name, b"interpolate") || same_text(name, b"diagnostic")
}

fn pop_mark(marks: &mut Vec<usize>) -> usize
    ensures value { result ≡ spec.last marks.old.items }
    ensures rest { marks.new.items ≡ spec.front marks.old.items }
{
    marks.pop().unwrap_or(0)
}

fn last_mark(marks: &[usize]) -> usize
    ensures { result ≡ spec.last marks.now }
{
    marks.last().copied().unwrap_or(0)
}

#[derive(Drop)]
pub struct Names<'n, 't> {
    alloc: Global,
    items: &'n ItemNames<'t>,
    /// The declarations of the function in scope, the innermost last, and their number at each open block.
    locals: Locals<'t>,
    marks: Vec<usize>,
    /// The number of declarations of the function so far.
    count: usize,
    declared: Name<'t>,
    /// Names in the head of a function mean items.
    is_in_head: bool,
    /// Names in some attributes are words.
    is_in_words: bool,
    nodes: Vec<Bound<'t>>,
    /// The items that the nodes name.
    uses: Vec<usize>,
}

/// The nodes of an item with what names mean, and the items that they name.
#[derive(Drop)]
pub struct Resolved<'t> {
    pub nodes: Vec<Bound<'t>>,
    pub uses: Vec<usize>,
}

impl<'n, 't> Names<'n, 't> {
    #[tactic(auto, unfolding(crate::specs::Names::give))]
    fn give(&mut self, node: Node<'t>, binding: Binding) -> Result<(), Refusal>
        ensures { Reads (spec.give (node_view node.entry) binding (state_of self.old)) result (state_of self.new) }
    {
        self.nodes.push(Bound { node, binding })?;
        Ok(())
    }

    #[tactic(auto, unfolding(crate::specs::Names::mark))]
    fn mark(&mut self) -> Result<(), Refusal>
        ensures { Reads (spec.mark (state_of self.old)) result (state_of self.new) }
    {
        self.marks.push(self.locals.len())?;
        Ok(())
    }

    #[tactic(auto, unfolding(crate::specs::Names::open_block))]
    fn open_block(&mut self) -> Result<(), Refusal>
        ensures { Reads (spec.open_block (state_of self.old)) result (state_of self.new) }
    {
        if self.is_in_head {
            self.is_in_head = false;
            return Ok(());
        }
        self.mark()
    }

    #[tactic(auto, unfolding(crate::specs::Names::close), using(crate::proofs::Takes::take_of_map))]
    fn close(&mut self) -> Result<(), Refusal>
        ensures { Reads (spec.closed (state_of self.old)) result (state_of self.new) }
    {
        let count = pop_mark(&mut self.marks);
        self.locals.truncate(count)?;
        Ok(())
    }

    #[tactic(auto, unfolding(crate::specs::Names::function))]
    fn function(&mut self) -> Result<(), Refusal>
        ensures { Reads (spec.function (state_of self.old)) result (state_of self.new) }
    {
        self.is_in_head = true;
        self.count = 0;
        self.mark()
    }

    /// The declaration of the innermost block that has the name of what is declared.
    #[tactic(auto, unfolding(crate::specs::Names::earlier))]
    fn earlier(&self) -> Option<Local<'t>>
        ensures { option_map local_view result ≡ spec.earlier (state_of self.now) }
    {
        self.locals
            .find(last_mark(self.marks.as_slice()), self.declared.text)
    }

    #[tactic(auto, unfolding(crate::specs::Names::push))]
    fn push(&mut self) -> Result<(), Refusal>
        ensures { Reads (spec.push (state_of self.old)) result (state_of self.new) }
    {
        let (name, number) = (self.declared, self.count);
        self.locals.push(Local { name, number })?;
        self.count = self.count.saturating_add(1);
        Ok(())
    }

    #[tactic(auto, unfolding(crate::specs::Names::declare))]
    fn declare(&mut self) -> Result<(), Refusal>
        ensures { Reads (spec.declare (state_of self.old)) result (state_of self.new) }
    {
        match self.earlier() {
            Some(earlier) => Err(refused_after(
                Reason::DeclaredTwice,
                self.declared.span,
                earlier.name.span,
            )),
            None => self.push(),
        }
    }

    #[tactic(auto, unfolding(crate::specs::Names::local))]
    fn local(&self, name: &'t [u8]) -> Option<Local<'t>>
        ensures { option_map local_view result ≡ spec.local name.now (state_of self.now) }
    {
        if self.is_in_head {
            None
        } else {
            self.locals.find(0, name)
        }
    }

    fn item(&self, name: &'t [u8]) -> Binding
        ensures { result ≡ spec.item ((state_of self.now).items name.now) }
    {
        match item_named(self.items, name) {
            Some(place) => Binding::Item(place),
            None => Binding::Word,
        }
    }

    #[tactic(auto, unfolding(crate::specs::Names::meaning))]
    fn meaning(&self, name: &'t [u8]) -> Binding
        ensures { result ≡ spec.meaning name.now (state_of self.now) }
    {
        if self.is_in_words {
            return Binding::Word;
        }
        match self.local(name) {
            Some(local) => Binding::Local(local.number),
            None => self.item(name),
        }
    }

    #[tactic(auto, unfolding(crate::specs::Names::note))]
    fn note(&mut self, binding: Binding) -> Result<(), Refusal>
        ensures { Reads (spec.note binding (state_of self.old)) result (state_of self.new) }
    {
        match binding {
            Binding::Item(place) => {
                self.uses.push(place)?;
                Ok(())
            }
            _ => Ok(()),
        }
    }

    #[tactic(auto, unfolding(crate::specs::Names::name))]
    fn name(&mut self, node: Node<'t>) -> Result<(), Refusal>
        ensures { Reads (spec.name (node_view node.entry) (state_of self.old)) result (state_of self.new) }
    {
        let binding = self.meaning(node.text);
        self.note(binding)?;
        self.give(node, binding)
    }

    #[tactic(auto, unfolding(crate::specs::Names::act))]
    fn act(&mut self, act: NameAct, node: Node<'t>) -> Result<(), Refusal>
        ensures { Reads (spec.act act (node_view node.entry) (state_of self.old)) result (state_of self.new) }
    {
        match act {
            NameAct::Nothing | NameAct::Name => Ok(()),
            NameAct::Function => self.function(),
            NameAct::Open => self.open_block(),
            NameAct::Close => self.close(),
            NameAct::Named => {
                self.declared = name_of(node);
                Ok(())
            }
            NameAct::Declared => self.declare(),
            NameAct::Attribute => {
                self.is_in_words = takes_words(node.text);
                Ok(())
            }
            NameAct::AttributeEnd => {
                self.is_in_words = false;
                Ok(())
            }
        }
    }

    #[tactic(auto, unfolding(crate::specs::Names::other))]
    fn other(&mut self, act: NameAct, node: Node<'t>) -> Result<(), Refusal>
        ensures { Reads (spec.other act (node_view node.entry) (state_of self.old)) result (state_of self.new) }
    {
        self.act(act, node)?;
        self.give(node, Binding::Nothing)
    }

    #[tactic(auto, unfolding(crate::specs::Names::step))]
    fn step(&mut self, node: Node<'t>) -> Result<(), Refusal>
        ensures { Reads (spec.step (node_view node.entry) (state_of self.old)) result (state_of self.new) }
    {
        match act_of(node.form) {
            NameAct::Name => self.name(node),
            act => self.other(act, node),
        }
    }

    /// Resolves the names of nodes.
    ///
    /// # Errors
    /// `DeclaredTwice` if a block declares a name twice.
    #[tactic(auto, unfolding(crate::specs::Names::run))]
    pub fn run(&mut self, nodes: &[Node<'t>]) -> Result<(), Refusal>
        ensures { Reads (spec.run (nodes_view nodes.now) (state_of self.old)) result (state_of self.new) }
    {
        let mut rest = nodes;
        while let [node, more @ ..] = rest {
            self.step(*node)?;
            rest = more;
        }
        Ok(())
    }

    /// The nodes so far, and the items that they name, which are taken.
    pub fn take(&mut self) -> Resolved<'t>
        ensures nodes { bounds_view result.nodes.items ≡ (state_of self.old).nodes }
        ensures uses { result.uses.items ≡ (state_of self.old).uses }
        ensures rest { state_of self.new ≡ spec.taken (state_of self.old) }
    {
        Resolved {
            nodes: mem::replace(&mut self.nodes, Vec::new(self.alloc)),
            uses: mem::replace(&mut self.uses, Vec::new(self.alloc)),
        }
    }
}

/// The state before the first node.
pub fn start<'n, 't>(alloc: Global, items: &'n ItemNames<'t>) -> Names<'n, 't>
    ensures { state_of result ≡ spec.start (item_in items.now) }
{
    Names {
        alloc,
        items,
        locals: Locals::new(alloc),
        marks: Vec::new(alloc),
        count: 0,
        declared: no_name(),
        is_in_head: false,
        is_in_words: false,
        nodes: Vec::new(alloc),
        uses: Vec::new(alloc),
    }
}
