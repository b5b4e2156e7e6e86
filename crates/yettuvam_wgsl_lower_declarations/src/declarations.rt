//! Declarations in functions.

ghost use Rattle.yettuvam_wgsl_machine.specs.Machine.{node_view};
ghost use Rattle.yettuvam_wgsl_scope.specs.Refused.{Reads};
ghost use Rattle.yettuvam_wgsl_values.specs.Body.{ReadsAs, state_of};
ghost use Rattle.yettuvam_wgsl_values.specs.Value.{value_view};
ghost use Rattle.yettuvam_wgsl_lower_declarations.specs.Declarations as spec;

use naga_oil_ir::{Expression, Index, LocalVariable, Operand, Statement};
use yettuvam_wgsl_lower_statements::names::{copy, marked, named, takes_name};
use yettuvam_wgsl_machine::symbol::Node;
use yettuvam_wgsl_names::form_codes::{CONST_COPY, LET_COPY};
use yettuvam_wgsl_scope::{Reason, Refusal, refused};
use yettuvam_wgsl_type_words::type_of;
use yettuvam_wgsl_types::Shape;
use yettuvam_wgsl_types::types::{TYPED_CONST, TYPED_LET};
use yettuvam_wgsl_values::value::shaped;
use yettuvam_wgsl_values::{Body, Meaning, Value, What, handle_of, span_of};

/// The type that a value says, or none where it is left out.
#[tactic(auto, unfolding(crate::specs::Declarations::optional_type))]
fn optional_type<'t>(
    b: &mut Body<'t>,
    value: Value<'t>,
    node: Node<'t>,
) -> Result<Option<usize>, Refusal>
    ensures { Reads (spec.optional_type (value_view value.entry) (node_view node.entry)
        (state_of b.old)) result (state_of b.new) }
{
    match value.what {
        What::Absent => Ok(None),
        _ => Ok(Some(type_of(b, value, node)?)),
    }
}

/// The type that the last value says, if it isn't left out.
#[tactic(auto, unfolding(crate::specs::Declarations::declared_type))]
pub fn declared_type<'t>(b: &mut Body<'t>, node: Node<'t>) -> Result<Option<usize>, Refusal>
    ensures { Reads (spec.declared_type (node_view node.entry) (state_of b.old))
        result (state_of b.new) }
{
    let value = b.take_value(node)?;
    optional_type(b, value, node)
}

#[tactic(auto, unfolding(crate::specs::Declarations::let_copied))]
fn let_copied<'t>(b: &mut Body<'t>, value: Value<'t>, node: Node<'t>) -> Result<(), Refusal>
    ensures { Reads (spec.let_copied (value_view value.entry) (node_view node.entry)
        (state_of b.old)) result (state_of b.new) }
{
    let place = copy(b, value, LET_COPY, node)?;
    named(b, place, value.shape, None, node)
}

#[tactic(auto, unfolding(crate::specs::Declarations::let_untyped))]
fn let_untyped<'t>(b: &mut Body<'t>, value: Value<'t>, node: Node<'t>) -> Result<(), Refusal>
    ensures { Reads (spec.let_untyped (value_view value.entry) (node_view node.entry)
        (state_of b.old)) result (state_of b.new) }
{
    if takes_name(b, handle_of(value)) {
        named(b, handle_of(value).index(), value.shape, None, node)
    } else {
        let_copied(b, value, node)
    }
}

#[tactic(auto, unfolding(crate::specs::Declarations::let_typed))]
fn let_typed<'t>(
    b: &mut Body<'t>,
    value: Value<'t>,
    ty: usize,
    node: Node<'t>,
) -> Result<(), Refusal>
    ensures { Reads (spec.let_typed (value_view value.entry) ty (node_view node.entry)
        (state_of b.old)) result (state_of b.new) }
{
    let place = marked(b, value, ty, TYPED_LET, node)?;
    let shape = b.types.shape_of(ty);
    named(b, place, shape, None, node)
}

/// Names the place of a pointer, if it can have a name.
#[tactic(auto, unfolding(crate::specs::Declarations::name_place))]
fn name_place<'t>(b: &mut Body<'t>, place: usize, node: Node<'t>) -> Result<(), Refusal>
    ensures { Reads (spec.name_place place (node_view node.entry) (state_of b.old))
        result (state_of b.new) }
{
    if !takes_name(b, Index::new(place)) {
        return Ok(());
    }
    b.name_expression(place)?;
    b.flush(node.span)
}

/// A pointer is no copy: its name means the place.
#[tactic(auto, unfolding(crate::specs::Declarations::let_pointer))]
fn let_pointer<'t>(
    b: &mut Body<'t>,
    place: usize,
    shape: Shape,
    node: Node<'t>,
) -> Result<(), Refusal>
    ensures { Reads (spec.let_pointer place shape (node_view node.entry) (state_of b.old))
        result (state_of b.new) }
{
    name_place(b, place, node)?;
    b.know(Meaning::Pointer(place, shape))
}

/// A value that is no pointer.
#[tactic(auto, unfolding(crate::specs::Declarations::let_copy))]
fn let_copy<'t>(
    b: &mut Body<'t>,
    value: Value<'t>,
    ty: Option<usize>,
    node: Node<'t>,
) -> Result<(), Refusal>
    ensures { Reads (spec.let_copy (value_view value.entry) ty (node_view node.entry)
        (state_of b.old)) result (state_of b.new) }
{
    match ty {
        Some(ty) => let_typed(b, value, ty, node),
        None => let_untyped(b, value, node),
    }
}

#[tactic(auto, unfolding(crate::specs::Declarations::let_value))]
fn let_value<'t>(
    b: &mut Body<'t>,
    value: Value<'t>,
    ty: Option<usize>,
    node: Node<'t>,
) -> Result<(), Refusal>
    ensures { Reads (spec.let_value (value_view value.entry) ty (node_view node.entry)
        (state_of b.old)) result (state_of b.new) }
{
    match value.what {
        What::Pointer(place) => let_pointer(b, place, value.shape, node),
        _ => let_copy(b, value, ty, node),
    }
}

/// `let`, whose type and value are the last two values.
#[tactic(auto, unfolding(crate::specs::Declarations::let_))]
pub fn let_<'t>(b: &mut Body<'t>, node: Node<'t>) -> Result<(), Refusal>
    ensures { Reads (spec.let_ (node_view node.entry) (state_of b.old)) result (state_of b.new) }
{
    let value = b.settled(node)?;
    let ty = declared_type(b, node)?;
    let_value(b, value, ty, node)
}

#[tactic(auto, unfolding(crate::specs::Declarations::const_typed))]
fn const_typed<'t>(
    b: &mut Body<'t>,
    value: Value<'t>,
    ty: usize,
    node: Node<'t>,
) -> Result<(), Refusal>
    ensures { Reads (spec.const_typed (value_view value.entry) ty (node_view node.entry)
        (state_of b.old)) result (state_of b.new) }
{
    let place = marked(b, value, ty, TYPED_CONST, node)?;
    let shape = b.types.shape_of(ty);
    named(b, place, shape, value.number, node)
}

#[tactic(auto, unfolding(crate::specs::Declarations::const_untyped))]
fn const_untyped<'t>(b: &mut Body<'t>, value: Value<'t>, node: Node<'t>) -> Result<(), Refusal>
    ensures { Reads (spec.const_untyped (value_view value.entry) (node_view node.entry)
        (state_of b.old)) result (state_of b.new) }
{
    let place = copy(b, value, CONST_COPY, node)?;
    named(b, place, value.shape, value.number, node)
}

/// `const` in a function, whose type and value are the last two values.
#[tactic(auto, unfolding(crate::specs::Declarations::local_const))]
pub fn local_const<'t>(b: &mut Body<'t>, node: Node<'t>) -> Result<(), Refusal>
    ensures { Reads (spec.local_const (node_view node.entry) (state_of b.old))
        result (state_of b.new) }
{
    let value = b.settled(node)?;
    let ty = declared_type(b, node)?;
    match ty {
        Some(ty) => const_typed(b, value, ty, node),
        None => const_untyped(b, value, node),
    }
}

/// The type of a variable: the declared one, or that of its value's shape.
#[tactic(auto, unfolding(crate::specs::Declarations::variable_type))]
pub fn variable_type<'t>(
    b: &mut Body<'t>,
    ty: Option<usize>,
    shape: Shape,
) -> Result<usize, Refusal>
    ensures { Reads (spec.variable_type ty shape (state_of b.old)) result (state_of b.new) }
{
    match ty {
        Some(ty) => Ok(ty),
        None => Ok(b.types.type_of(shape)?),
    }
}

/// The zero of a type.
#[tactic(auto, unfolding(crate::specs::Declarations::zero_value))]
fn zero_value<'t>(b: &mut Body<'t>, ty: usize, node: Node<'t>) -> Result<Value<'t>, Refusal>
    ensures { ReadsAs value_view (spec.zero_value ty (node_view node.entry) (state_of b.old))
        result (state_of b.new) }
{
    let place = b.put(Expression::ZeroValue(Index::new(ty)), node.span)?;
    Ok(shaped(What::Plain(place), Shape::Plain))
}

/// The first value of a variable that is given none.
#[tactic(auto, unfolding(crate::specs::Declarations::no_value))]
fn no_value<'t>(b: &mut Body<'t>, ty: Option<usize>, node: Node<'t>) -> Result<Value<'t>, Refusal>
    ensures { ReadsAs value_view (spec.no_value ty (node_view node.entry) (state_of b.old))
        result (state_of b.new) }
{
    match ty {
        Some(ty) => zero_value(b, ty, node),
        None => Err(refused(Reason::NoType, node.span)),
    }
}

/// The first value of a variable; without one the zero of its type.
#[tactic(auto, unfolding(crate::specs::Declarations::first_value))]
fn first_value<'t>(
    b: &mut Body<'t>,
    value: Value<'t>,
    ty: Option<usize>,
    node: Node<'t>,
) -> Result<Value<'t>, Refusal>
    ensures { ReadsAs value_view (spec.first_value (value_view value.entry) ty
        (node_view node.entry) (state_of b.old)) result (state_of b.new) }
{
    match value.what {
        What::Absent => no_value(b, ty, node),
        _ => b.settle(value, node),
    }
}

/// A local variable of a type, under the name that is declared.
#[tactic(auto, unfolding(crate::specs::Declarations::local))]
fn local(b: &mut Body<'_>, ty: usize) -> Result<usize, Refusal>
    ensures { Reads (spec.local ty (state_of b.old)) result (state_of b.new) }
{
    let variable = LocalVariable {
        name: Some(b.declared_name()?),
        ty: Index::new(ty),
        init: None,
    };
    let place = b.locals.append(variable, span_of(b.declared.span))?;
    Ok(place.index())
}

/// The first store to a variable, which declares it.
#[tactic(auto, unfolding(crate::specs::Declarations::store_first))]
fn store_first<'t>(
    b: &mut Body<'t>,
    local: usize,
    value: Operand,
    node: Node<'t>,
) -> Result<(), Refusal>
    ensures { Reads (spec.store_first local value (node_view node.entry) (state_of b.old))
        result (state_of b.new) }
{
    let place = b.put(Expression::LocalVariable(Index::new(local)), node.span)?;
    let pointer = Index::new(place);
    b.state(Statement::Store { pointer, value }, node.span)
}

/// A variable of a type with its first value.
#[tactic(auto, unfolding(crate::specs::Declarations::stored_local))]
fn stored_local<'t>(
    b: &mut Body<'t>,
    ty: usize,
    value: Operand,
    node: Node<'t>,
) -> Result<(), Refusal>
    ensures { Reads (spec.stored_local ty value (node_view node.entry) (state_of b.old))
        result (state_of b.new) }
{
    let place = local(b, ty)?;
    store_first(b, place, value, node)?;
    let shape = b.types.shape_of(ty);
    b.know(Meaning::Variable(place, shape))
}

/// `var` in a function: its address space, its type and its value are the last three values.
#[tactic(auto, unfolding(crate::specs::Declarations::local_var))]
pub fn local_var<'t>(b: &mut Body<'t>, node: Node<'t>) -> Result<(), Refusal>
    ensures { Reads (spec.local_var (node_view node.entry) (state_of b.old))
        result (state_of b.new) }
{
    let value = b.take_value(node)?;
    let ty = declared_type(b, node)?;
    let value = first_value(b, value, ty, node)?;
    let _space = b.take_value(node)?;
    let ty = variable_type(b, ty, value.shape)?;
    stored_local(b, ty, handle_of(value), node)
}
