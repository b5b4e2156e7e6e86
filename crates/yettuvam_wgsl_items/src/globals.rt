//! Aliases, structs, constants, overrides and variables.

ghost use Rattle.std.specs.Prelude.{◌≡◌};
ghost use Rattle.yettuvam_wgsl_machine.specs.Machine.{node_view};
ghost use Rattle.yettuvam_wgsl_scope.specs.Items.{name_view};
ghost use Rattle.yettuvam_wgsl_scope.specs.Refused.{Reads};
ghost use Rattle.yettuvam_wgsl_values.specs.Body.{state_of as body_state};
ghost use Rattle.yettuvam_wgsl_values.specs.Value.{value_view};
ghost use Rattle.yettuvam_wgsl_items.specs.Globals as spec;
ghost use Rattle.yettuvam_wgsl_items.specs.Items.{state_of};

use crate::items::{Items, take_attributes, take_initial, take_type, text_of};
use naga_oil_ir::{Constant, GlobalVariable, Index, Operand, Override, StructMember};
use yettuvam_wgsl_attributes::Attributes;
use yettuvam_wgsl_attributes::declared::{binding_code, resource_code};
use yettuvam_wgsl_lower_declarations::{declared_type, variable_type};
use yettuvam_wgsl_lower_statements::statements::optional_operand;
use yettuvam_wgsl_machine::symbol::Node;
use yettuvam_wgsl_names::form_codes::{I32, U32};
use yettuvam_wgsl_scope::{Name, Refusal};
use yettuvam_wgsl_shape::{Kind, Number, converted};
use yettuvam_wgsl_types::Shape;
use yettuvam_wgsl_values::{Body, Meaning, Value, What, handle_of, span_of};

/// The space of a variable that has none: a texture or a sampler.
pub const HANDLE: u64 = 5;

/// A name for a type, under the name that is declared.
#[tactic(auto, unfolding(crate::specs::Globals::add_alias))]
fn add_alias(b: &mut Body<'_>, base: usize) -> Result<usize, Refusal>
    ensures { Reads (spec.add_alias base (body_state b.old)) result (body_state b.new) }
{
    let name = b.declared_name()?;
    let at = span_of(b.declared.span);
    Ok(b.types.alias(name, base, at)?)
}

/// `alias`, whose type is the last value.
#[tactic(auto, unfolding(crate::specs::Globals::alias))]
pub fn alias<'t>(b: &mut Body<'t>, node: Node<'t>) -> Result<(), Refusal>
    ensures { Reads (spec.alias (node_view node.entry) (body_state b.old))
        result (body_state b.new) }
{
    let base = take_type(b, node)?;
    add_alias(b, base)?;
    b.know_item(Meaning::Type(base))
}

/// A member of the struct that is read.
#[tactic(auto, unfolding(crate::specs::Globals::push_member))]
fn push_member(
    b: &mut Body<'_>,
    name: Name<'_>,
    attributes: Attributes,
    ty: usize,
) -> Result<(), Refusal>
    ensures { Reads (spec.push_member (name_view name.entry) attributes ty (body_state b.old))
        result (body_state b.new) }
{
    let member = StructMember {
        name: Some(text_of(b.alloc, name)?),
        ty: Index::new(ty),
        binding: binding_code(attributes),
        offset: attributes.size,
    };
    b.types.with_member(member)?;
    Ok(())
}

/// A member, whose type is the last value.
#[tactic(auto, unfolding(crate::specs::Globals::member))]
pub fn member<'t>(m: &mut Items<'t>, node: Node<'t>) -> Result<(), Refusal>
    ensures { Reads (spec.member (node_view node.entry) (state_of m.old)) result (state_of m.new) }
{
    let ty = take_type(&mut m.body, node)?;
    let attributes = take_attributes(m);
    push_member(&mut m.body, m.part, attributes, ty)
}

/// The struct of the members so far, under the name that is declared.
#[tactic(auto, unfolding(crate::specs::Globals::add_struct))]
fn add_struct(b: &mut Body<'_>) -> Result<usize, Refusal>
    ensures { Reads (spec.add_struct (body_state b.old)) result (body_state b.new) }
{
    let name = b.declared_name()?;
    let at = span_of(b.declared.span);
    Ok(b.types.struct_end(name, at)?)
}

/// A struct ends.
#[tactic(auto, unfolding(crate::specs::Globals::struct_end))]
pub fn struct_end(b: &mut Body<'_>) -> Result<(), Refusal>
    ensures { Reads (spec.struct_end (body_state b.old)) result (body_state b.new) }
{
    let place = add_struct(b)?;
    b.know_item(Meaning::Type(place))
}

/// The kind of the integers of a scalar type, by its code.
fn kind_of(scalar: Option<u64>) -> Option<Kind>
    ensures { result ≡ spec.kind_of scalar }
{
    let code = scalar?;
    if code == I32 {
        Some(Kind::Signed)
    } else if code == U32 {
        Some(Kind::Unsigned)
    } else {
        None
    }
}

fn typed_number(kind: Option<Kind>, number: Option<Number>) -> Option<Number>
    ensures { result ≡ spec.typed_number kind number }
{
    match kind {
        Some(kind) => converted(kind, number),
        None => None,
    }
}

/// The number of a value of a declared type.
fn number_as(b: &Body<'_>, ty: Option<usize>, number: Option<Number>) -> Option<Number>
    ensures { result ≡ spec.number_as ty number (body_state b.now) }
{
    match ty {
        Some(ty) => typed_number(kind_of(b.types.scalar_of(ty)), number),
        None => number,
    }
}

/// A constant, under the name that is declared.
#[tactic(auto, unfolding(crate::specs::Globals::push_constant))]
fn push_constant(m: &mut Items<'_>, ty: usize, init: Operand) -> Result<usize, Refusal>
    ensures { Reads (spec.push_constant ty init (state_of m.old)) result (state_of m.new) }
{
    let constant = Constant {
        name: Some(m.body.declared_name()?),
        ty: Index::new(ty),
        init,
    };
    let place = m.constants.append(constant, span_of(m.body.declared.span))?;
    Ok(place.index())
}

#[tactic(auto, unfolding(crate::specs::Globals::add_constant))]
fn add_constant<'t>(
    m: &mut Items<'t>,
    ty: usize,
    value: Value<'t>,
    number: Option<Number>,
) -> Result<(), Refusal>
    ensures { Reads (spec.add_constant ty (value_view value.entry) number (state_of m.old))
        result (state_of m.new) }
{
    let place = push_constant(m, ty, handle_of(value))?;
    let shape = m.body.types.shape_of(ty);
    m.body.know_item(Meaning::Constant(place, shape, number))
}

/// `const`, whose type and value are the last two values.
#[tactic(auto, unfolding(crate::specs::Globals::constant))]
pub fn constant<'t>(m: &mut Items<'t>, node: Node<'t>) -> Result<(), Refusal>
    ensures { Reads (spec.constant (node_view node.entry) (state_of m.old))
        result (state_of m.new) }
{
    let value = m.body.settled(node)?;
    let declared = declared_type(&mut m.body, node)?;
    let number = number_as(&m.body, declared, value.number);
    let ty = variable_type(&mut m.body, declared, value.shape)?;
    add_constant(m, ty, value, number)
}

/// An override, under the name that is declared.
#[tactic(auto, unfolding(crate::specs::Globals::push_override))]
fn push_override(
    b: &mut Body<'_>,
    ty: usize,
    id: Option<u64>,
    init: Option<Operand>,
) -> Result<usize, Refusal>
    ensures { Reads (spec.push_override ty id init (body_state b.old)) result (body_state b.new) }
{
    let item = Override {
        name: Some(b.declared_name()?),
        id,
        ty: Index::new(ty),
        init,
    };
    let place = b.overrides.append(item, span_of(b.declared.span))?;
    Ok(place.index())
}

#[tactic(auto, unfolding(crate::specs::Globals::add_override))]
fn add_override(
    b: &mut Body<'_>,
    ty: usize,
    id: Option<u64>,
    init: Option<Operand>,
) -> Result<(), Refusal>
    ensures { Reads (spec.add_override ty id init (body_state b.old)) result (body_state b.new) }
{
    let place = push_override(b, ty, id, init)?;
    b.know_item(Meaning::Override(place))
}

/// `override`, whose type and value are the last two values.
#[tactic(auto, unfolding(crate::specs::Globals::override_item))]
pub fn override_item<'t>(m: &mut Items<'t>, node: Node<'t>) -> Result<(), Refusal>
    ensures { Reads (spec.override_item (node_view node.entry) (state_of m.old))
        result (state_of m.new) }
{
    let value = take_initial(&mut m.body, node)?;
    let declared = declared_type(&mut m.body, node)?;
    let ty = variable_type(&mut m.body, declared, Shape::Plain)?;
    let attributes = take_attributes(m);
    add_override(&mut m.body, ty, attributes.id, optional_operand(value))
}

/// What a variable means: a texture or a sampler is no place in memory.
fn variable_meaning(place: usize, space: u64, shape: Shape) -> Meaning
    ensures { result ≡ spec.variable_meaning place space shape }
{
    if space == HANDLE {
        Meaning::Handle(place, shape)
    } else {
        Meaning::Global(place, shape)
    }
}

/// The code of the address space that a value says.
fn space_of(value: Value<'_>) -> u64
    ensures { result ≡ spec.space_of (value_view value.entry) }
{
    match value.what {
        What::Space(code) => code,
        _ => HANDLE,
    }
}

/// A variable, under the name that is declared.
#[tactic(auto, unfolding(crate::specs::Globals::push_variable))]
fn push_variable(
    m: &mut Items<'_>,
    ty: usize,
    space: u64,
    binding: Option<u64>,
    init: Option<Operand>,
) -> Result<usize, Refusal>
    ensures { Reads (spec.push_variable ty space binding init (state_of m.old))
        result (state_of m.new) }
{
    let variable = GlobalVariable {
        name: Some(m.body.declared_name()?),
        space,
        binding,
        ty: Index::new(ty),
        init,
    };
    let place = m.variables.append(variable, span_of(m.body.declared.span))?;
    Ok(place.index())
}

#[tactic(auto, unfolding(crate::specs::Globals::add_variable))]
fn add_variable(
    m: &mut Items<'_>,
    ty: usize,
    space: u64,
    init: Option<Operand>,
) -> Result<(), Refusal>
    ensures { Reads (spec.add_variable ty space init (state_of m.old)) result (state_of m.new) }
{
    let attributes = take_attributes(m);
    let place = push_variable(m, ty, space, resource_code(attributes), init)?;
    let shape = m.body.types.shape_of(ty);
    m.body.know_item(variable_meaning(place, space, shape))
}

/// `var`, whose address space, type and value are the last three values.
#[tactic(auto, unfolding(crate::specs::Globals::variable))]
pub fn variable<'t>(m: &mut Items<'t>, node: Node<'t>) -> Result<(), Refusal>
    ensures { Reads (spec.variable (node_view node.entry) (state_of m.old))
        result (state_of m.new) }
{
    let value = take_initial(&mut m.body, node)?;
    let declared = declared_type(&mut m.body, node)?;
    let ty = variable_type(&mut m.body, declared, value.shape)?;
    let space = m.body.take_value(node)?;
    add_variable(m, ty, space_of(space), optional_operand(value))
}
