//! The items so far, and what items take of the values before them.

ghost use Rattle.std.specs.Prelude.{◌≡◌, IfOk, string_bytes};
ghost use Rattle.std.specs.Str.Lossy.{utf8_lossy};
ghost use Rattle.yettuvam_wgsl_machine.specs.Machine.{node_view};
ghost use Rattle.yettuvam_wgsl_scope.specs.Refused.{Reads};
ghost use Rattle.yettuvam_wgsl_values.specs.Body.{ReadsAs, state_of as body_state};
ghost use Rattle.yettuvam_wgsl_values.specs.Value.{value_view};
ghost use Rattle.yettuvam_wgsl_items.specs.Items as spec;
ghost use Rattle.yettuvam_wgsl_items.specs.Items.{state_of};

use crate::attributes::{attribute_arguments, attribute_end, attribute_start};
use naga_oil_ir::{
    Arena, Constant, EntryPoint, Function, FunctionArgument, FunctionResult, GlobalVariable,
};
use std::alloc::{AllocError, Global};
use yettuvam_wgsl_attributes::{Attributes, no_attributes};
use yettuvam_wgsl_machine::symbol::Node;
use yettuvam_wgsl_scope::items::{name_of, no_name};
use yettuvam_wgsl_scope::{Name, Refusal};
use yettuvam_wgsl_type_words::type_of;
use yettuvam_wgsl_values::{Body, Returns, Value, What, begin};

/// The items so far.
#[derive(Drop)]
pub struct Items<'t> {
    pub alloc: Global,
    pub body: Body<'t>,

    /// The attributes of the next declaration, and the name of the one that is read.
    pub attributes: Attributes,
    pub attribute: Name<'t>,

    /// The name of the member or the argument that is read.
    pub part: Name<'t>,

    /// The function that is read.
    pub function: Name<'t>,
    pub function_attributes: Attributes,
    pub arguments: Vec<FunctionArgument>,
    pub result: Option<FunctionResult>,
    pub returns: Returns,
    pub constants: Arena<Constant>,
    pub variables: Arena<GlobalVariable>,
    pub functions: Arena<Function>,
    pub entries: Vec<EntryPoint>,
}

/// The state before the first item; `ranks` has the place of each item in the order of lowering.
pub fn start<'t>(alloc: Global, ranks: Vec<usize>) -> Items<'t>
    ensures { state_of result ≡ spec.start ranks.items }
{
    Items {
        alloc,
        body: begin(alloc, ranks),
        attributes: no_attributes(),
        attribute: no_name(),
        part: no_name(),
        function: no_name(),
        function_attributes: no_attributes(),
        arguments: Vec::new(alloc),
        result: None,
        returns: Returns::Nothing,
        constants: Arena::new(alloc),
        variables: Arena::new(alloc),
        functions: Arena::new(alloc),
        entries: Vec::new(alloc),
    }
}

/// The text of a name.
pub fn text_of(alloc: Global, name: Name<'_>) -> Result<String, AllocError>
    ensures { IfOk result (λ s. string_bytes s ≡ utf8_lossy name.entry.text.now) }
{
    String::from_utf8_lossy(alloc, name.text)
}

/// The type that is the last value.
#[tactic(auto, unfolding(crate::specs::Items::take_type))]
pub fn take_type<'t>(b: &mut Body<'t>, node: Node<'t>) -> Result<usize, Refusal>
    ensures { Reads (spec.take_type (node_view node.entry) (body_state b.old))
        result (body_state b.new) }
{
    let value = b.take_value(node)?;
    type_of(b, value, node)
}

/// A value, read, unless it is left out.
#[tactic(auto, unfolding(crate::specs::Items::initial))]
fn initial<'t>(b: &mut Body<'t>, value: Value<'t>, node: Node<'t>) -> Result<Value<'t>, Refusal>
    ensures { ReadsAs value_view (spec.initial (value_view value.entry) (node_view node.entry)
        (body_state b.old)) result (body_state b.new) }
{
    match value.what {
        What::Absent => Ok(value),
        _ => b.settle(value, node),
    }
}

/// The last value, read, unless it is left out.
#[tactic(auto, unfolding(crate::specs::Items::take_initial))]
pub fn take_initial<'t>(b: &mut Body<'t>, node: Node<'t>) -> Result<Value<'t>, Refusal>
    ensures { ReadsAs value_view (spec.take_initial (node_view node.entry) (body_state b.old))
        result (body_state b.new) }
{
    let value = b.take_value(node)?;
    initial(b, value, node)
}

/// The attributes so far, which are taken.
pub fn take_attributes(m: &mut Items<'_>) -> Attributes
    ensures value { result ≡ (state_of m.old).attributes }
    ensures rest { state_of m.new ≡ spec.without_attributes (state_of m.old) }
{
    let attributes = m.attributes;
    m.attributes = no_attributes();
    attributes
}

/// An attribute begins.
#[tactic(auto, unfolding(crate::specs::Items::begin_attribute))]
pub fn begin_attribute<'t>(m: &mut Items<'t>, node: Node<'t>) -> Result<(), Refusal>
    ensures { Reads (spec.begin_attribute (node_view node.entry) (state_of m.old))
        result (state_of m.new) }
{
    m.attribute = name_of(node);
    attribute_start(&mut m.body)
}

/// An attribute ends.
#[tactic(auto, unfolding(crate::specs::Items::end_attribute))]
pub fn end_attribute<'t>(m: &mut Items<'t>, node: Node<'t>) -> Result<(), Refusal>
    ensures { Reads (spec.end_attribute (node_view node.entry) (state_of m.old))
        result (state_of m.new) }
{
    let (name, old) = (m.attribute, m.attributes);
    m.attributes = attribute_end(&mut m.body, name, old, node)?;
    Ok(())
}

/// A diagnostic ends, of which nothing is kept.
#[tactic(auto, unfolding(crate::specs::Items::end_diagnostic))]
pub fn end_diagnostic(m: &mut Items<'_>) -> Result<(), Refusal>
    ensures { Reads (spec.end_diagnostic (state_of m.old)) result (state_of m.new) }
{
    attribute_arguments(&mut m.body)?;
    Ok(())
}

/// The name of a member or an argument.
#[tactic(auto, unfolding(crate::specs::Items::part_name))]
pub fn part_name<'t>(m: &mut Items<'t>, node: Node<'t>) -> Result<(), Refusal>
    ensures { Reads (spec.part_name (node_view node.entry) (state_of m.old))
        result (state_of m.new) }
{
    m.part = name_of(node);
    Ok(())
}

/// The name of an alias or a struct.
#[tactic(auto, unfolding(crate::specs::Items::item_name))]
pub fn item_name<'t>(m: &mut Items<'t>, node: Node<'t>) -> Result<(), Refusal>
    ensures { Reads (spec.item_name (node_view node.entry) (state_of m.old))
        result (state_of m.new) }
{
    m.body.declare(node);
    Ok(())
}
