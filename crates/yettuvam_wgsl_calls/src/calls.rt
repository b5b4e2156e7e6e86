//! Calls: what is called is the value before the arguments.

ghost use Rattle.yettuvam_wgsl_machine.specs.Machine.{node_view};
ghost use Rattle.yettuvam_wgsl_scope.specs.Items.{name_view};
ghost use Rattle.yettuvam_wgsl_scope.specs.Refused.{Reads};
ghost use Rattle.yettuvam_wgsl_values.specs.Body.{state_of};
ghost use Rattle.yettuvam_wgsl_values.specs.Value.{values_view, what_view};
ghost use Rattle.yettuvam_wgsl_calls.specs.Calls as spec;

use crate::built_ins::built_in;
use crate::constructors::{bitcast, construct, construct_plain, construct_word};
use naga_oil_ir::{Expression, Index, Operand};
use yettuvam_wgsl_arguments::handles;
use yettuvam_wgsl_machine::symbol::Node;
use yettuvam_wgsl_operators::note_effect;
use yettuvam_wgsl_predeclared::{built_in_function, generic_word, plain_type, takes, word_of};
use yettuvam_wgsl_scope::{Name, Reason, Refusal, refused};
use yettuvam_wgsl_type_words::pop_call;
use yettuvam_wgsl_types::Shape;
use yettuvam_wgsl_values::blocks::call_statement as statement_of;
use yettuvam_wgsl_values::value::{bare, shaped};
use yettuvam_wgsl_values::{Body, Call, Returns, Value, What};

/// The arguments of a call begin.
#[tactic(auto, unfolding(crate::specs::Calls::call))]
pub fn call<'t>(b: &mut Body<'t>, is_statement: bool) -> Result<(), Refusal>
    ensures { Reads (spec.call is_statement (state_of b.old)) result (state_of b.new) }
{
    let count = b.values.len();
    b.calls.push(Call {
        count,
        is_statement,
    })?;
    Ok(())
}

/// A call of a function of the module, as a statement, with the expression of its result.
#[tactic(auto, unfolding(crate::specs::Calls::state_call))]
fn state_call<'t>(
    b: &mut Body<'t>,
    function: usize,
    returned: Option<Operand>,
    args: &[Value<'t>],
    node: Node<'t>,
) -> Result<(), Refusal>
    ensures { Reads (spec.state_call function returned (values_view args.now)
        (node_view node.entry) (state_of b.old)) result (state_of b.new) }
{
    let arguments = handles(b.alloc, args)?;
    b.state(
        statement_of(Index::new(function), arguments, returned),
        node.span,
    )
}

#[tactic(auto, unfolding(crate::specs::Calls::call_value))]
fn call_value<'t>(
    b: &mut Body<'t>,
    function: usize,
    shape: Shape,
    args: &[Value<'t>],
    node: Node<'t>,
) -> Result<(), Refusal>
    ensures { Reads (spec.call_value function shape (values_view args.now)
        (node_view node.entry) (state_of b.old)) result (state_of b.new) }
{
    let place = b.put(Expression::CallResult(Index::new(function)), node.span)?;
    state_call(b, function, Some(Index::new(place)), args, node)?;
    b.give(shaped(What::Plain(place), shape))
}

#[tactic(auto, unfolding(crate::specs::Calls::call_nothing))]
fn call_nothing<'t>(
    b: &mut Body<'t>,
    function: usize,
    args: &[Value<'t>],
    node: Node<'t>,
) -> Result<(), Refusal>
    ensures { Reads (spec.call_nothing function (values_view args.now) (node_view node.entry)
        (state_of b.old)) result (state_of b.new) }
{
    state_call(b, function, None, args, node)?;
    b.give(bare(What::Nothing))
}

/// A call of a function of the module.
#[tactic(auto, unfolding(crate::specs::Calls::call_function))]
fn call_function<'t>(
    b: &mut Body<'t>,
    function: usize,
    returns: Returns,
    args: &[Value<'t>],
    node: Node<'t>,
) -> Result<(), Refusal>
    ensures { Reads (spec.call_function function returns (values_view args.now)
        (node_view node.entry) (state_of b.old)) result (state_of b.new) }
{
    note_effect(b);
    match returns {
        Returns::Nothing => call_nothing(b, function, args, node),
        Returns::Value(shape) => call_value(b, function, shape, args, node),
    }
}

/// A call of a built-in function by its name.
#[tactic(auto, unfolding(crate::specs::Calls::call_built_in), using(crate::proofs::Lists::counted))]
fn call_built_in<'t>(
    b: &mut Body<'t>,
    name: Name<'t>,
    is_statement: bool,
    args: &[Value<'t>],
    node: Node<'t>,
) -> Result<(), Refusal>
    ensures { Reads (spec.call_built_in (name_view name.entry) is_statement
        (values_view args.now) (node_view node.entry) (state_of b.old))
        result (state_of b.new) }
{
    match built_in_function(word_of(name.text)) {
        Some(function) => {
            if takes(function, args.len()) {
                built_in(b, function.code, is_statement, args, node)
            } else {
                Err(refused(Reason::Arguments, name.span))
            }
        }
        None => Err(refused(Reason::UnknownName, name.span)),
    }
}

#[tactic(auto, unfolding(crate::specs::Calls::call_named))]
fn call_named<'t>(
    b: &mut Body<'t>,
    name: Name<'t>,
    is_statement: bool,
    args: &[Value<'t>],
    node: Node<'t>,
) -> Result<(), Refusal>
    ensures { Reads (spec.call_named (name_view name.entry) is_statement (values_view args.now)
        (node_view node.entry) (state_of b.old)) result (state_of b.new) }
{
    match plain_type(word_of(name.text)) {
        Some(ty) => construct_plain(b, ty, args, node),
        None => call_built_in(b, name, is_statement, args, node),
    }
}

/// A call of a word: a type, or a built-in function.
#[tactic(auto, unfolding(crate::specs::Calls::call_word))]
fn call_word<'t>(
    b: &mut Body<'t>,
    name: Name<'t>,
    is_statement: bool,
    args: &[Value<'t>],
    node: Node<'t>,
) -> Result<(), Refusal>
    ensures { Reads (spec.call_word (name_view name.entry) is_statement (values_view args.now)
        (node_view node.entry) (state_of b.old)) result (state_of b.new) }
{
    match generic_word(word_of(name.text)) {
        Some(word) => construct_word(b, word, args, node),
        None => call_named(b, name, is_statement, args, node),
    }
}

#[tactic(auto, unfolding(crate::specs::Calls::called))]
fn called<'t>(
    b: &mut Body<'t>,
    head: What<'t>,
    is_statement: bool,
    args: &[Value<'t>],
    node: Node<'t>,
) -> Result<(), Refusal>
    ensures { Reads (spec.called (what_view head.entry) is_statement (values_view args.now)
        (node_view node.entry) (state_of b.old)) result (state_of b.new) }
{
    match head {
        What::Callee(function, returns) => call_function(b, function, returns, args, node),
        What::Type(place) => construct(b, place, args, node),
        What::Cast(kind) => bitcast(b, kind, args, node),
        What::Word(name) => call_word(b, name, is_statement, args, node),
        _ => Err(refused(Reason::NoFunction, node.span)),
    }
}

/// The arguments of a call end.
#[tactic(auto, unfolding(crate::specs::Calls::call_end))]
pub fn call_end<'t>(b: &mut Body<'t>, node: Node<'t>) -> Result<(), Refusal>
    ensures { Reads (spec.call_end (node_view node.entry) (state_of b.old))
        result (state_of b.new) }
{
    let call = pop_call(&mut b.calls);
    let args = b.arguments(call.count)?;
    let head = b.take_value(node)?;
    called(b, head.what, call.is_statement, args.as_slice(), node)
}

/// The result of a call isn't used.
#[tactic(auto, unfolding(crate::specs::Calls::call_statement))]
pub fn call_statement<'t>(b: &mut Body<'t>, node: Node<'t>) -> Result<(), Refusal>
    ensures { Reads (spec.call_statement (node_view node.entry) (state_of b.old))
        result (state_of b.new) }
{
    b.take_value(node)?;
    b.flush(node.span)
}
