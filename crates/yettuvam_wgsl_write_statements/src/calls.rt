// Calls, with what becomes of their results.
ghost use Rattle.yettuvam_wgsl_write_expressions.specs.Context.{scope_of};
ghost use Rattle.yettuvam_wgsl_write_expressions.specs.Operands.{call};
ghost use Rattle.yettuvam_wgsl_write_items.specs.Text.{Adds, Appends, name_of};
ghost use Rattle.yettuvam_wgsl_write_statements.specs.Calls as spec;
ghost use Rattle.yettuvam_wgsl_write_statements.specs.Calls.{given_of};
ghost use Rattle.yettuvam_wgsl_write_types.specs.Types.{values_of};

use naga_oil_ir::Operand;
use std::alloc::AllocError;
use yettuvam_wgsl_pieces::{Piece, Sign};
use yettuvam_wgsl_write_expressions::context::Scope;
use yettuvam_wgsl_write_expressions::expressions::{push_arguments, push_built_in};
use yettuvam_wgsl_write_expressions::operands::Known;
use yettuvam_wgsl_written::WriteResult;

type Pieces<'m> = Vec<Piece<'m>>;

/// How a store is written.
#[derive(Clone, Copy, PartialEq, Eq, Debug)]
pub enum Store {
    /// As the declaration of a local of a type; whether the value is the zero of the type.
    Declaration { ty: usize, is_zero: bool },
    /// As an assignment by an operator.
    Compound { op: u64, right: Operand },
    /// As an assignment to `_`.
    Nowhere,
    /// As an assignment.
    Assignment,
}

/// What is known of a statement beyond its operands.
#[derive(Clone, Copy)]
pub struct Given<'m> {
    /// Whether the result is part of the text of the next statement.
    pub is_merged: bool,
    /// The name of the result, if it is declared.
    pub result: Option<&'m str>,
    /// The name of the function that is called, or of the local that is declared.
    pub item: Option<&'m str>,
    pub store: Store,
}

fn push_ignored(out: &mut Pieces<'_>, must_use: bool) -> Result<(), AllocError>
    ensures { Adds (spec.ignored must_use) result out.old out.new }
{
    if !must_use {
        return Ok(());
    }
    out.push(Piece::Sign(Sign::Underscore))?;
    Ok(out.push(Piece::Sign(Sign::Equal))?)
}

fn push_result_name<'m>(
    out: &mut Pieces<'m>,
    name: Option<&'m str>,
    must_use: bool,
) -> Result<(), AllocError>
    ensures { Adds (spec.result_name (name_of name.entry) must_use) result out.old out.new }
{
    let Some(name) = name else {
        return push_ignored(out, must_use);
    };
    out.push(Piece::Sign(Sign::LetWord))?;
    out.push(Piece::Word(name))?;
    Ok(out.push(Piece::Sign(Sign::Equal))?)
}

// Appends what stands before a call: `let NAME =`, `_ =` if the result must be used, or nothing.
fn push_result<'m>(
    out: &mut Pieces<'m>,
    given: &Given<'m>,
    must_use: bool,
) -> Result<(), AllocError>
    ensures { Adds (spec.result_head (given_of given.now) must_use) result out.old out.new }
{
    if given.is_merged {
        return Ok(());
    }
    push_result_name(out, given.result, must_use)
}

// Appends a name and arguments.
#[tactic(auto, unfolding(yettuvam_wgsl_write_expressions::specs::Operands::call))]
fn push_named<'m>(
    scope: &Scope<'_, 'm>,
    known: Known<'_, 'm>,
    out: &mut Pieces<'m>,
    name: Option<&'m str>,
    arguments: &[Operand],
) -> WriteResult<()>
    ensures { Appends (call (name_of name.entry) (values_of known.now) arguments.now (scope_of scope.now).span) result out.old out.new }
{
    let Some(name) = name else {
        return Err(scope.refused());
    };
    out.push(Piece::Word(name))?;
    push_arguments(scope, known, out, arguments)
}

/// Appends a call of a function of the module.
///
/// # Errors
/// `NotInWgsl` if the function has no name or an argument isn't written, `Memory` if out of memory.
#[tactic(auto, unfolding(crate::specs::Calls::function_call))]
pub fn push_function_call<'m>(
    scope: &Scope<'_, 'm>,
    known: Known<'_, 'm>,
    out: &mut Pieces<'m>,
    given: &Given<'m>,
    arguments: &[Operand],
) -> WriteResult<()>
    ensures { Appends (spec.function_call (scope_of scope.now) (values_of known.now) (given_of given.now) arguments.now) result out.old out.new }
{
    push_result(out, given, false)?;
    push_named(scope, known, out, given.item, arguments)
}

/// Appends a call of a built-in function that is a statement.
///
/// # Errors
/// `NotInWgsl` if the code is none of a function's or an argument isn't written, `Memory` if out of memory.
#[tactic(auto, unfolding(crate::specs::Calls::built_in_call))]
pub fn push_built_in_call<'m>(
    scope: &Scope<'_, 'm>,
    known: Known<'_, 'm>,
    out: &mut Pieces<'m>,
    given: &Given<'m>,
    must_use: bool,
    function: u64,
    arguments: &[Operand],
) -> WriteResult<()>
    ensures { Appends (spec.built_in_call (scope_of scope.now) (values_of known.now) (given_of given.now) must_use function arguments.now) result out.old out.new }
{
    push_result(out, given, must_use)?;
    push_built_in(scope, known, out, function, arguments)
}
