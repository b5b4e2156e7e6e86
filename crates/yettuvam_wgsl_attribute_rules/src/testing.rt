//! Tests the attributes in the nodes of a text.
ghost use Rattle.std.specs.Prelude.{◌≡◌};
ghost use Rattle.yettuvam_wgsl_machine.specs.Machine.{node_view, nodes_view};
ghost use Rattle.yettuvam_wgsl_attribute_rules.specs.Refused.{Reads, Tests};
ghost use Rattle.yettuvam_wgsl_attribute_rules.specs.Testing as spec;
ghost use Rattle.yettuvam_wgsl_attribute_rules.specs.Testing.{state_of};

use crate::marks::{Mark, rival, test_arguments, test_marks, test_rival};
use crate::refusal::{Fault, Reason, Refusal, Tested, refused};
use crate::rules::Place;
use crate::words::{Attribute, attribute_of};
use std::alloc::Global;
use yettuvam_wgsl_machine::symbol::{Form, Node};
use yettuvam_wgsl_words::token::Span;

/// What a node is for attributes.
#[derive(Clone, Copy)]
pub enum Act {
    Nothing,
    /// A word, which may be an argument.
    Word,
    /// An attribute begins, or a directive with the name and the arguments of one.
    Begin,
    /// An argument ends.
    Argument,
    /// An attribute ends.
    Attribute,
    /// A directive ends.
    Directive,
    /// The attributes before stand here.
    Place(Place),
    /// The attributes before stand on a function.
    Function,
    /// The function has no result.
    NoResult,
}

/// The place of the attributes before a node that is none of a function's own.
fn place_of(form: Form) -> Option<Place>
    ensures { result ≡ spec.place_of form }
{
    match form {
        Form::StructMember => Some(Place::Member),
        Form::Parameter | Form::Result => Some(Place::Value),
        Form::Var => Some(Place::Variable),
        Form::Override => Some(Place::Override),
        Form::Block | Form::If | Form::Loop | Form::Switch => Some(Place::Compound),
        Form::Selector | Form::DefaultSelector | Form::SwitchEnd => Some(Place::Compound),
        Form::Let | Form::LocalConst | Form::LocalVar | Form::Phony => Some(Place::Other),
        Form::Assign | Form::StatementCall | Form::ConstAssert => Some(Place::Other),
        Form::Break | Form::BreakIf | Form::Continue | Form::Discard => Some(Place::Other),
        Form::Return | Form::ReturnValue | Form::BlockEnd => Some(Place::Other),
        _ => None,
    }
}

fn placed(place: Option<Place>) -> Act
    ensures { result ≡ spec.placed place }
{
    match place {
        Some(place) => Act::Place(place),
        None => Act::Nothing,
    }
}

fn act_of(form: Form) -> Act
    ensures { result ≡ spec.act_of form }
{
    match form {
        Form::Name => Act::Word,
        Form::AttributeName | Form::DiagnosticStart => Act::Begin,
        Form::AttributeArgument => Act::Argument,
        Form::Attribute => Act::Attribute,
        Form::Diagnostic => Act::Directive,
        Form::FunctionName => Act::Function,
        Form::NoResult => Act::NoResult,
        _ => placed(place_of(form)),
    }
}

/// The attribute that a node names.
fn named(node: Node<'_>) -> Result<Mark, Fault>
    ensures { result ≡ spec.named (node_view node.entry) }
{
    match attribute_of(node.text) {
        Some(attribute) => Ok(Mark {
            attribute,
            span: node.span,
            is_position: false,
        }),
        None => Err(Fault {
            reason: Reason::Unknown,
            span: node.span,
            first: None,
        }),
    }
}

/// Tests that a function without a result has no `@must_use`.
fn test_no_result(must_use: Option<Mark>) -> Tested
    ensures { result ≡ spec.no_result_ruled must_use }
{
    match must_use {
        None => Ok(()),
        Some(mark) => refused(Reason::NoResult, mark.span),
    }
}

#[derive(Drop)]
pub struct Tester {
    /// The attributes before what they stand on.
    marks: Vec<Mark>,
    /// The attribute that was begun last.
    begun: Mark,
    /// The number of its arguments so far.
    count: usize,
    /// `@must_use` of the function that was begun last.
    must_use: Option<Mark>,
}

impl Tester {
    fn word(&mut self, node: Node<'_>)
        ensures { state_of self.new ≡ spec.word (node_view node.entry) (state_of self.old) }
    {
        self.begun.is_position = node.text == b"position".as_slice();
    }

    #[tactic(auto, unfolding(crate::specs::Testing::begin))]
    fn begin(&mut self, node: Node<'_>) -> Result<(), Refusal>
        ensures { Reads (spec.begin (node_view node.entry) (state_of self.old)) result (state_of self.new) }
    {
        self.begun = named(node)?;
        self.count = 0;
        Ok(())
    }

    fn argument(&mut self)
        ensures { state_of self.new ≡ spec.argument (state_of self.old) }
    {
        self.count = self.count.saturating_add(1);
    }

    #[tactic(auto, unfolding(crate::specs::Testing::directive))]
    fn directive(&mut self, node: Node<'_>) -> Result<(), Refusal>
        ensures { Reads (spec.directive (node_view node.entry) (state_of self.old)) result (state_of self.new) }
    {
        test_arguments(self.begun, self.count, node.span)?;
        Ok(())
    }

    #[tactic(auto, unfolding(crate::specs::Testing::attribute))]
    fn attribute(&mut self, node: Node<'_>) -> Result<(), Refusal>
        ensures { Reads (spec.attribute (node_view node.entry) (state_of self.old)) result (state_of self.new) }
    {
        test_arguments(self.begun, self.count, node.span)?;
        test_rival(self.marks.as_slice(), self.begun)?;
        self.marks.push(self.begun)?;
        Ok(())
    }

    /// The attributes before stand at a place.
    #[tactic(auto, unfolding(crate::specs::Testing::place))]
    fn place(&mut self, place: Place) -> Result<(), Refusal>
        ensures { Reads (spec.place place (state_of self.old)) result (state_of self.new) }
    {
        test_marks(self.marks.as_slice(), place)?;
        self.marks.clear();
        Ok(())
    }

    #[tactic(auto, unfolding(crate::specs::Testing::function))]
    fn function(&mut self) -> Result<(), Refusal>
        ensures { Reads (spec.function (state_of self.old)) result (state_of self.new) }
    {
        self.must_use = rival(self.marks.as_slice(), Attribute::MustUse);
        self.place(Place::Function)
    }

    #[tactic(auto, unfolding(crate::specs::Testing::no_result))]
    fn no_result(&mut self) -> Result<(), Refusal>
        ensures { Reads (spec.no_result (state_of self.old)) result (state_of self.new) }
    {
        test_no_result(self.must_use)?;
        Ok(())
    }

    #[tactic(auto, unfolding(crate::specs::Testing::step))]
    fn step(&mut self, node: Node<'_>) -> Result<(), Refusal>
        ensures { Reads (spec.step (node_view node.entry) (state_of self.old)) result (state_of self.new) }
    {
        match act_of(node.form) {
            Act::Nothing => Ok(()),
            Act::Word => {
                self.word(node);
                Ok(())
            }
            Act::Begin => self.begin(node),
            Act::Argument => {
                self.argument();
                Ok(())
            }
            Act::Attribute => self.attribute(node),
            Act::Directive => self.directive(node),
            Act::Place(place) => self.place(place),
            Act::Function => self.function(),
            Act::NoResult => self.no_result(),
        }
    }

    #[tactic(auto, unfolding(crate::specs::Testing::run))]
    fn run(&mut self, nodes: &[Node<'_>]) -> Result<(), Refusal>
        ensures { Reads (spec.run (nodes_view nodes.now) (state_of self.old)) result (state_of self.new) }
    {
        let mut rest = nodes;
        while let [node, more @ ..] = rest {
            self.step(*node)?;
            rest = more;
        }
        Ok(())
    }
}

/// The attribute of what has none.
fn no_mark() -> Mark
    ensures { result ≡ spec.no_mark }
{
    Mark {
        attribute: Attribute::Const,
        span: Span { start: 0, end: 0 },
        is_position: false,
    }
}

/// Tests the attributes of a text, and the arguments of its directives.
///
/// # Errors
/// `Fault` for the first one that breaks a rule of WGSL: those of one attribute before those of all that stand on one
/// thing. `Memory` if out of memory.
#[tactic(auto, unfolding(crate::specs::Testing::attributes_ruled))]
pub fn test_attributes(alloc: Global, nodes: &[Node<'_>]) -> Result<(), Refusal>
    ensures { Tests (spec.attributes_ruled (nodes_view nodes.now)) result }
{
    let mut tester = Tester {
        marks: Vec::new(alloc),
        begun: no_mark(),
        count: 0,
        must_use: None,
    };
    tester.run(nodes)
}
