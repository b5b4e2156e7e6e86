// All statements without blocks.
ghost use Rattle.std.specs.Prelude.{◌≡◌, IfOk};
ghost use Rattle.yettuvam_wgsl_write_expressions.specs.Context.{scope_of};
ghost use Rattle.yettuvam_wgsl_write_items.specs.Text.{Adds, Appends};
ghost use Rattle.yettuvam_wgsl_write_statements.specs.Calls.{given_of};
ghost use Rattle.yettuvam_wgsl_write_statements.specs.Statements as spec;
ghost use Rattle.yettuvam_wgsl_write_types.specs.Types.{values_of};

use crate::assignments::{push_assignment, push_compound, push_operand_value};
pub use crate::calls::{Given, Store};
use crate::calls::{push_built_in_call, push_function_call};
use crate::declarations::push_local;
use naga_oil_ir::{Index, Operand, Token};
use std::alloc::{AllocError, Global};
use yettuvam_wgsl_pieces::{Piece, Sign};
use yettuvam_wgsl_statements::simple::Simple;
use yettuvam_wgsl_write_expressions::context::Scope;
use yettuvam_wgsl_write_expressions::expressions::push_built_in;
use yettuvam_wgsl_write_expressions::functions::{
    SUBGROUP_BALLOT, SUBGROUP_ELECT, WORKGROUP_UNIFORM_LOAD,
};
use yettuvam_wgsl_write_expressions::operands::Known;
use yettuvam_wgsl_write_expressions::textures::push_image_store;
use yettuvam_wgsl_written::WriteResult;

type Pieces<'m> = Vec<Piece<'m>>;

fn at(place: usize) -> Operand
    ensures { result ≡ place }
{
    Index::new(place)
}

fn some_at(place: Option<usize>) -> Option<Operand>
    ensures { result ≡ place }
{
    match place {
        Some(place) => Some(at(place)),
        None => None,
    }
}

fn push_sign(out: &mut Pieces<'_>, sign: Sign) -> Result<(), AllocError>
    ensures { Adds (spec.sign_text sign) result out.old out.new }
{
    Ok(out.push(Piece::Sign(sign))?)
}

#[tactic(auto, unfolding(crate::specs::Statements::returned))]
fn push_return<'m>(
    scope: &Scope<'_, 'm>,
    known: Known<'_, 'm>,
    out: &mut Pieces<'m>,
    value: Option<Operand>,
) -> WriteResult<()>
    ensures { Appends (spec.returned (scope_of scope.now) (values_of known.now) value) result out.old out.new }
{
    out.push(Piece::Sign(Sign::ReturnWord))?;
    match value {
        Some(value) => push_operand_value(scope, known, out, value),
        None => Ok(()),
    }
}

#[tactic(auto, unfolding(crate::specs::Statements::stored))]
fn push_store<'m>(
    scope: &Scope<'_, 'm>,
    known: Known<'_, 'm>,
    out: &mut Pieces<'m>,
    given: &Given<'m>,
    pointer: Operand,
    value: Operand,
) -> WriteResult<()>
    ensures { Appends (spec.stored (scope_of scope.now) (values_of known.now) (given_of given.now) pointer value) result out.old out.new }
{
    let store = given.store;
    match store {
        Store::Declaration { ty, is_zero } => {
            push_local(scope, known, out, given.item, ty, Some(value), is_zero)
        }
        Store::Compound { op, right } => push_compound(scope, known, out, pointer, op, right),
        Store::Nowhere => push_assignment(scope, known, out, pointer, value, true),
        Store::Assignment => push_assignment(scope, known, out, pointer, value, false),
    }
}

#[tactic(auto, unfolding(crate::specs::Statements::atomic))]
fn push_atomic<'m>(
    scope: &Scope<'_, 'm>,
    known: Known<'_, 'm>,
    out: &mut Pieces<'m>,
    given: &Given<'m>,
    function: u64,
    compare: Option<Operand>,
    pointer: Operand,
    value: Operand,
) -> WriteResult<()>
    ensures { Appends (spec.atomic (scope_of scope.now) (values_of known.now) (given_of given.now) function compare pointer value) result out.old out.new }
{
    match compare {
        Some(compare) => {
            let arguments = [pointer, compare, value];
            push_built_in_call(scope, known, out, given, false, function, &arguments)
        }
        None => push_built_in_call(scope, known, out, given, false, function, &[pointer, value]),
    }
}

#[tactic(auto, unfolding(crate::specs::Statements::ballot))]
fn push_ballot<'m>(
    scope: &Scope<'_, 'm>,
    known: Known<'_, 'm>,
    out: &mut Pieces<'m>,
    given: &Given<'m>,
    predicate: Option<Operand>,
) -> WriteResult<()>
    ensures { Appends (spec.ballot (scope_of scope.now) (values_of known.now) (given_of given.now) predicate) result out.old out.new }
{
    match predicate {
        Some(predicate) => {
            push_built_in_call(
                scope,
                known,
                out,
                given,
                true,
                SUBGROUP_BALLOT,
                &[predicate],
            )
        }
        None => push_built_in_call(scope, known, out, given, true, SUBGROUP_ELECT, &[]),
    }
}

#[tactic(auto, unfolding(crate::specs::Statements::gather))]
fn push_gather<'m>(
    scope: &Scope<'_, 'm>,
    known: Known<'_, 'm>,
    out: &mut Pieces<'m>,
    given: &Given<'m>,
    function: u64,
    index: Option<Operand>,
    argument: Operand,
) -> WriteResult<()>
    ensures { Appends (spec.gather (scope_of scope.now) (values_of known.now) (given_of given.now) function index argument) result out.old out.new }
{
    match index {
        Some(index) => {
            push_built_in_call(scope, known, out, given, true, function, &[argument, index])
        }
        None => push_built_in_call(scope, known, out, given, true, function, &[argument]),
    }
}

/// Returns the place of the result of a statement, if it has one.
pub fn result_of(of: Simple) -> Option<usize>
    ensures { result ≡ spec.result_of of }
{
    match of {
        Simple::Atomic { result, .. } | Simple::Call { result, .. } => result,
        Simple::UniformLoad { result, .. }
        | Simple::Ballot { result, .. }
        | Simple::Gather { result, .. }
        | Simple::Collective { result, .. } => Some(result),
        _ => None,
    }
}

/// Returns the operands at the front of a list of tokens.
///
/// # Errors
/// If out of memory.
#[tactic(auto, unfolding(crate::specs::Statements::operands_of))]
pub fn operands_of(alloc: Global, tokens: &[Token]) -> Result<Vec<Operand>, AllocError>
    ensures { IfOk result (λ v. v.items ≡ spec.operands_of tokens.now) }
{
    let mut operands = Vec::new(alloc);
    let mut rest = tokens;
    while let [Token::Use(operand), more @ ..] = rest {
        operands.push(*operand)?;
        rest = more;
    }
    Ok(operands)
}

/// Appends a statement without blocks, without its `;`. `arguments` are those of a call of a function of the module.
///
/// # Errors
/// `NotInWgsl` if WGSL has no such statement, `Memory` if out of memory.
#[rattlefmt::skip]
#[tactic(auto, unfolding(crate::specs::Statements::simple))]
pub fn push_simple<'m>(scope: &Scope<'_, 'm>, known: Known<'_, 'm>, out: &mut Pieces<'m>, of: Simple, given: &Given<'m>, arguments: &[Operand]) -> WriteResult<()>
    ensures { Appends (spec.simple (scope_of scope.now) (values_of known.now) of (given_of given.now) arguments.now) result out.old out.new }
{
    match of {
        Simple::Break => Ok(push_sign(out, Sign::BreakWord)?),
        Simple::Continue => Ok(push_sign(out, Sign::ContinueWord)?),
        Simple::Discard => Ok(push_sign(out, Sign::DiscardWord)?),
        Simple::Barrier { function } => push_built_in(scope, known, out, function, &[]),
        Simple::Return { value } => push_return(scope, known, out, some_at(value)),
        Simple::Store { pointer, value } => push_store(scope, known, out, given, at(pointer), at(value)),
        Simple::ImageStore { image, coordinate, array_index, value } => {
            push_image_store(scope, known, out, at(image), at(coordinate), some_at(array_index), at(value))
        }
        Simple::Atomic { function, compare, pointer, value, .. } => {
            push_atomic(scope, known, out, given, function, some_at(compare), at(pointer), at(value))
        }
        Simple::UniformLoad { pointer, .. } => {
            push_built_in_call(scope, known, out, given, true, WORKGROUP_UNIFORM_LOAD, &[at(pointer)])
        }
        Simple::Call { .. } => push_function_call(scope, known, out, given, arguments),
        Simple::Ballot { predicate, .. } => push_ballot(scope, known, out, given, some_at(predicate)),
        Simple::Gather { function, index, argument, .. } => {
            push_gather(scope, known, out, given, function, some_at(index), at(argument))
        }
        Simple::Collective { function, argument, .. } => {
            push_built_in_call(scope, known, out, given, true, function, &[at(argument)])
        }
    }
}
