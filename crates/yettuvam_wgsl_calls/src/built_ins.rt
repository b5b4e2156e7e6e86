//! Calls of built-in functions, by the class of their code.

ghost use Rattle.naga_oil_ir.specs.Body.{statement_tokens};
ghost use Rattle.yettuvam_wgsl_machine.specs.Machine.{node_view};
ghost use Rattle.yettuvam_wgsl_scope.specs.Refused.{Reads};
ghost use Rattle.yettuvam_wgsl_values.specs.Body.{state_of};
ghost use Rattle.yettuvam_wgsl_values.specs.Value.{value_view, values_view};
ghost use Rattle.yettuvam_wgsl_calls.specs.BuiltIns as spec;

use crate::textures::{sample_texture, texture};
use naga_oil_ir::{Expression, Index, Statement};
use yettuvam_wgsl_arguments::built_ins::{
    array_length, atomic, atomic_result, collective, derivative, gather, math_expression,
    relational, select,
};
use yettuvam_wgsl_arguments::{handle_at, math_number};
use yettuvam_wgsl_machine::symbol::Node;
use yettuvam_wgsl_names::class_of;
use yettuvam_wgsl_names::functions::{
    ARRAY_LENGTH, ATOMIC, ATOMIC_LOAD, ATOMIC_STORE, BARRIER, COLLECTIVE, DERIVATIVE, FREXP,
    GATHER, MATH, MODF, RELATIONAL, SAMPLING, SELECT, SUBGROUP_BALLOT, SUBGROUP_ELECT, TEXTURE,
    WORKGROUP_UNIFORM_LOAD,
};
use yettuvam_wgsl_operators::{give_computed, note_effect};
use yettuvam_wgsl_scope::{Reason, Refusal, refused};
use yettuvam_wgsl_types::{FREXP_RESULT, MODF_RESULT, NOT_TOLD, PlainType, Shape};
use yettuvam_wgsl_values::value::{bare, shaped};
use yettuvam_wgsl_values::{Body, Value, What, handle_of};

/// The pseudo-type of what a function returns.
#[tactic(auto, unfolding(crate::specs::BuiltIns::result_type))]
fn result_type<'t>(b: &mut Body<'t>, code: u64) -> Result<usize, Refusal>
    ensures { Reads (spec.result_type code (state_of b.old)) result (state_of b.new) }
{
    Ok(b.types.plain(PlainType::Scalar(code))?)
}

#[tactic(auto, unfolding(crate::specs::BuiltIns::result_shape))]
fn result_shape<'t>(b: &mut Body<'t>, code: u64) -> Result<Shape, Refusal>
    ensures { Reads (spec.result_shape code (state_of b.old)) result (state_of b.new) }
{
    let place = result_type(b, code)?;
    Ok(Shape::Of(place))
}

/// The shape of what a mathematical function returns: `modf` and `frexp` return structs.
#[tactic(auto, unfolding(crate::specs::BuiltIns::math_shape))]
fn math_shape<'t>(b: &mut Body<'t>, code: u64) -> Result<Shape, Refusal>
    ensures { Reads (spec.math_shape code (state_of b.old)) result (state_of b.new) }
{
    match code {
        MODF => result_shape(b, MODF_RESULT),
        FREXP => result_shape(b, FREXP_RESULT),
        _ => Ok(Shape::Plain),
    }
}

/// A mathematical function.
#[tactic(auto, unfolding(crate::specs::BuiltIns::math))]
fn math<'t>(b: &mut Body<'t>, code: u64, args: &[Value<'t>], node: Node<'t>) -> Result<(), Refusal>
    ensures { Reads (spec.math code (values_view args.now) (node_view node.entry)
        (state_of b.old)) result (state_of b.new) }
{
    let shape = math_shape(b, code)?;
    let math = math_expression(b.alloc, code, args, node)?;
    let place = b.compute(math, node.span)?;
    b.give(Value {
        what: What::Plain(place),
        shape,
        number: math_number(code, args),
    })
}

/// `atomicLoad`, which is computed where it stands.
#[tactic(auto, unfolding(crate::specs::BuiltIns::atomic_load))]
fn atomic_load<'t>(b: &mut Body<'t>, args: &[Value<'t>], node: Node<'t>) -> Result<(), Refusal>
    ensures { Reads (spec.atomic_load (values_view args.now) (node_view node.entry)
        (state_of b.old)) result (state_of b.new) }
{
    note_effect(b);
    math(b, ATOMIC_LOAD, args, node)?;
    b.flush(node.span)
}

#[tactic(auto, unfolding(crate::specs::BuiltIns::relate))]
fn relate<'t>(
    b: &mut Body<'t>,
    code: u64,
    args: &[Value<'t>],
    node: Node<'t>,
) -> Result<(), Refusal>
    ensures { Reads (spec.relate code (values_view args.now) (node_view node.entry)
        (state_of b.old)) result (state_of b.new) }
{
    let test = relational(code, args, node)?;
    give_computed(b, test, None, node)
}

#[tactic(auto, unfolding(crate::specs::BuiltIns::derive))]
fn derive<'t>(
    b: &mut Body<'t>,
    code: u64,
    args: &[Value<'t>],
    node: Node<'t>,
) -> Result<(), Refusal>
    ensures { Reads (spec.derive code (values_view args.now) (node_view node.entry)
        (state_of b.old)) result (state_of b.new) }
{
    let derivative = derivative(code, args, node)?;
    give_computed(b, derivative, None, node)
}

/// An atomic function whose result isn't used.
#[tactic(auto, unfolding(crate::specs::BuiltIns::atomic_statement))]
fn atomic_statement<'t>(
    b: &mut Body<'t>,
    code: u64,
    args: &[Value<'t>],
    node: Node<'t>,
) -> Result<(), Refusal>
    ensures { Reads (spec.atomic_statement code (values_view args.now) (node_view node.entry)
        (state_of b.old)) result (state_of b.new) }
{
    let statement = atomic(code, None, args, node)?;
    b.state(statement, node.span)?;
    b.give(bare(What::Nothing))
}

/// The expression of an atomic function's result, which is of a type.
#[tactic(auto, unfolding(crate::specs::BuiltIns::put_atomic))]
fn put_atomic<'t>(b: &mut Body<'t>, code: u64, ty: usize, node: Node<'t>) -> Result<usize, Refusal>
    ensures { Reads (spec.put_atomic code ty (node_view node.entry) (state_of b.old))
        result (state_of b.new) }
{
    let comparison = atomic_result(code).1;
    let ty = Index::new(ty);
    b.put(Expression::AtomicResult { ty, comparison }, node.span)
}

#[tactic(auto, unfolding(crate::specs::BuiltIns::give_atomic))]
fn give_atomic<'t>(
    b: &mut Body<'t>,
    code: u64,
    ty: usize,
    args: &[Value<'t>],
    node: Node<'t>,
) -> Result<(), Refusal>
    ensures { Reads (spec.give_atomic code ty (values_view args.now) (node_view node.entry)
        (state_of b.old)) result (state_of b.new) }
{
    let shape = b.types.shape_of(ty);
    let place = put_atomic(b, code, ty, node)?;
    let statement = atomic(code, Some(Index::new(place)), args, node)?;
    b.state(statement, node.span)?;
    b.give(shaped(What::Plain(place), shape))
}

/// An atomic function with its result.
#[tactic(auto, unfolding(crate::specs::BuiltIns::atomic_value))]
fn atomic_value<'t>(
    b: &mut Body<'t>,
    code: u64,
    args: &[Value<'t>],
    node: Node<'t>,
) -> Result<(), Refusal>
    ensures { Reads (spec.atomic_value code (values_view args.now) (node_view node.entry)
        (state_of b.old)) result (state_of b.new) }
{
    let ty = result_type(b, atomic_result(code).0)?;
    give_atomic(b, code, ty, args, node)
}

/// An atomic function that writes.
#[tactic(auto, unfolding(crate::specs::BuiltIns::write_atomic))]
fn write_atomic<'t>(
    b: &mut Body<'t>,
    code: u64,
    is_statement: bool,
    args: &[Value<'t>],
    node: Node<'t>,
) -> Result<(), Refusal>
    ensures { Reads (spec.write_atomic code is_statement (values_view args.now)
        (node_view node.entry) (state_of b.old)) result (state_of b.new) }
{
    note_effect(b);
    if is_statement || code == ATOMIC_STORE {
        atomic_statement(b, code, args, node)
    } else {
        atomic_value(b, code, args, node)
    }
}

#[tactic(auto, unfolding(crate::specs::BuiltIns::barrier))]
fn barrier<'t>(b: &mut Body<'t>, code: u64, node: Node<'t>) -> Result<(), Refusal>
    ensures { Reads (spec.barrier code (node_view node.entry) (state_of b.old))
        result (state_of b.new) }
{
    note_effect(b);
    b.state(Statement::ControlBarrier(code), node.span)?;
    b.give(bare(What::Nothing))
}

/// The expression of the result of an operation of the subgroup.
#[tactic(auto, unfolding(crate::specs::BuiltIns::put_operation))]
fn put_operation<'t>(b: &mut Body<'t>, node: Node<'t>) -> Result<usize, Refusal>
    ensures { Reads (spec.put_operation (node_view node.entry) (state_of b.old))
        result (state_of b.new) }
{
    note_effect(b);
    let ty = Index::new(result_type(b, NOT_TOLD)?);
    b.put(Expression::SubgroupOperationResult { ty }, node.span)
}

/// A statement, and the expression of its result.
#[tactic(auto, unfolding(crate::specs::BuiltIns::state_result))]
fn state_result<'t>(
    b: &mut Body<'t>,
    statement: Statement,
    place: usize,
    node: Node<'t>,
) -> Result<(), Refusal>
    ensures { Reads (spec.state_result (statement_tokens statement) place
        (node_view node.entry) (state_of b.old)) result (state_of b.new) }
{
    b.state(statement, node.span)?;
    b.give(bare(What::Plain(place)))
}

/// A collective operation of the subgroup.
#[tactic(auto, unfolding(crate::specs::BuiltIns::operate))]
fn operate<'t>(
    b: &mut Body<'t>,
    code: u64,
    args: &[Value<'t>],
    node: Node<'t>,
) -> Result<(), Refusal>
    ensures { Reads (spec.operate code (values_view args.now) (node_view node.entry)
        (state_of b.old)) result (state_of b.new) }
{
    let place = put_operation(b, node)?;
    let statement = collective(code, Index::new(place), args, node)?;
    state_result(b, statement, place, node)
}

/// A read of another invocation's value.
#[tactic(auto, unfolding(crate::specs::BuiltIns::gather_value))]
fn gather_value<'t>(
    b: &mut Body<'t>,
    code: u64,
    args: &[Value<'t>],
    node: Node<'t>,
) -> Result<(), Refusal>
    ensures { Reads (spec.gather_value code (values_view args.now) (node_view node.entry)
        (state_of b.old)) result (state_of b.new) }
{
    let place = put_operation(b, node)?;
    let statement = gather(code, Index::new(place), args, node)?;
    state_result(b, statement, place, node)
}

#[tactic(auto, unfolding(crate::specs::BuiltIns::choose))]
fn choose<'t>(b: &mut Body<'t>, args: &[Value<'t>], node: Node<'t>) -> Result<(), Refusal>
    ensures { Reads (spec.choose (values_view args.now) (node_view node.entry)
        (state_of b.old)) result (state_of b.new) }
{
    let select = select(args, node)?;
    give_computed(b, select, None, node)
}

#[tactic(auto, unfolding(crate::specs::BuiltIns::measure))]
fn measure<'t>(b: &mut Body<'t>, args: &[Value<'t>], node: Node<'t>) -> Result<(), Refusal>
    ensures { Reads (spec.measure (values_view args.now) (node_view node.entry)
        (state_of b.old)) result (state_of b.new) }
{
    let length = array_length(args, node)?;
    give_computed(b, length, None, node)
}

/// The expression of what `workgroupUniformLoad` reads, of the type of a shape.
#[tactic(auto, unfolding(crate::specs::BuiltIns::put_uniform))]
fn put_uniform<'t>(b: &mut Body<'t>, shape: Shape, node: Node<'t>) -> Result<usize, Refusal>
    ensures { Reads (spec.put_uniform shape (node_view node.entry) (state_of b.old))
        result (state_of b.new) }
{
    let ty = Index::new(b.types.type_of(shape)?);
    b.put(Expression::WorkGroupUniformLoadResult { ty }, node.span)
}

#[tactic(auto, unfolding(crate::specs::BuiltIns::load_uniform))]
fn load_uniform<'t>(b: &mut Body<'t>, value: Value<'t>, node: Node<'t>) -> Result<(), Refusal>
    ensures { Reads (spec.load_uniform (value_view value.entry) (node_view node.entry)
        (state_of b.old)) result (state_of b.new) }
{
    let place = put_uniform(b, value.shape, node)?;
    let load = Statement::WorkGroupUniformLoad {
        pointer: handle_of(value),
        result: Index::new(place),
    };
    b.state(load, node.span)?;
    b.give(shaped(What::Plain(place), value.shape))
}

/// `workgroupUniformLoad`.
#[tactic(auto, unfolding(crate::specs::BuiltIns::uniform_load))]
fn uniform_load<'t>(b: &mut Body<'t>, args: &[Value<'t>], node: Node<'t>) -> Result<(), Refusal>
    ensures { Reads (spec.uniform_load (values_view args.now) (node_view node.entry)
        (state_of b.old)) result (state_of b.new) }
{
    note_effect(b);
    match args {
        [value] => load_uniform(b, *value, node),
        _ => Err(refused(Reason::Arguments, node.span)),
    }
}

/// `subgroupBallot` and `subgroupElect`.
#[tactic(auto, unfolding(crate::specs::BuiltIns::ballot))]
fn ballot<'t>(b: &mut Body<'t>, args: &[Value<'t>], node: Node<'t>) -> Result<(), Refusal>
    ensures { Reads (spec.ballot (values_view args.now) (node_view node.entry)
        (state_of b.old)) result (state_of b.new) }
{
    note_effect(b);
    let place = b.put(Expression::SubgroupBallotResult, node.span)?;
    let ballot = Statement::SubgroupBallot {
        result: Index::new(place),
        predicate: handle_at(args, 0),
    };
    state_result(b, ballot, place, node)
}

#[tactic(auto, unfolding(crate::specs::BuiltIns::other))]
fn other<'t>(b: &mut Body<'t>, code: u64, args: &[Value<'t>], node: Node<'t>) -> Result<(), Refusal>
    ensures { Reads (spec.other code (values_view args.now) (node_view node.entry)
        (state_of b.old)) result (state_of b.new) }
{
    match code {
        SELECT => choose(b, args, node),
        ARRAY_LENGTH => measure(b, args, node),
        WORKGROUP_UNIFORM_LOAD => uniform_load(b, args, node),
        SUBGROUP_BALLOT | SUBGROUP_ELECT => ballot(b, args, node),
        _ => Err(refused(Reason::Template, node.span)),
    }
}

#[tactic(auto, unfolding(crate::specs::BuiltIns::by_class))]
fn by_class<'t>(
    b: &mut Body<'t>,
    code: u64,
    is_statement: bool,
    args: &[Value<'t>],
    node: Node<'t>,
) -> Result<(), Refusal>
    ensures { Reads (spec.by_class code is_statement (values_view args.now)
        (node_view node.entry) (state_of b.old)) result (state_of b.new) }
{
    match class_of(code) {
        MATH => math(b, code, args, node),
        RELATIONAL => relate(b, code, args, node),
        DERIVATIVE => derive(b, code, args, node),
        SAMPLING => sample_texture(b, code, args, node),
        TEXTURE => texture(b, code, args, node),
        ATOMIC => write_atomic(b, code, is_statement, args, node),
        BARRIER => barrier(b, code, node),
        COLLECTIVE => operate(b, code, args, node),
        GATHER => gather_value(b, code, args, node),
        _ => other(b, code, args, node),
    }
}

/// A call of a built-in function.
#[tactic(auto, unfolding(crate::specs::BuiltIns::built_in))]
pub fn built_in<'t>(
    b: &mut Body<'t>,
    code: u64,
    is_statement: bool,
    args: &[Value<'t>],
    node: Node<'t>,
) -> Result<(), Refusal>
    ensures { Reads (spec.built_in code is_statement (values_view args.now)
        (node_view node.entry) (state_of b.old)) result (state_of b.new) }
{
    if code == ATOMIC_LOAD {
        atomic_load(b, args, node)
    } else {
        by_class(b, code, is_statement, args, node)
    }
}
