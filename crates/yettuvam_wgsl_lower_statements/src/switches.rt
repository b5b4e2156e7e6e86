//! Selectors, and `switch`.

ghost use Rattle.std.specs.Prelude.{◌≡◌};
ghost use Rattle.yettuvam_wgsl_machine.specs.Machine.{node_view};
ghost use Rattle.yettuvam_wgsl_scope.specs.Refused.{Gives, Reads};
ghost use Rattle.yettuvam_wgsl_values.specs.Blocks.{arms_tokens};
ghost use Rattle.yettuvam_wgsl_values.specs.Body.{ReadsAs, state_of};
ghost use Rattle.yettuvam_wgsl_values.specs.Value.{value_view};
ghost use Rattle.yettuvam_wgsl_lower_statements.specs.Switches as spec;

use naga_oil_ir::SwitchCase;
use yettuvam_wgsl_machine::symbol::Node;
use yettuvam_wgsl_scope::{Reason, Refusal, refused};
use yettuvam_wgsl_shape::selector_code;
use yettuvam_wgsl_values::blocks::{arm_of, switch_statement};
use yettuvam_wgsl_values::{Arm, Body, Value, What};

/// A switch begins: the last value is read where it stands.
#[tactic(auto, unfolding(crate::specs::Switches::switch))]
pub fn switch<'t>(b: &mut Body<'t>, node: Node<'t>) -> Result<(), Refusal>
    ensures { Reads (spec.switch (node_view node.entry) (state_of b.old)) result (state_of b.new) }
{
    b.left(node)?;
    b.switches.push(b.arms.len())?;
    Ok(())
}

/// A value that isn't known is no selector.
fn no_selector<'t>(value: Value<'t>, node: Node<'t>) -> Result<u64, Refusal>
    ensures { Gives (λ n. n) result
        (Err (spec.no_selector (value_view value.entry) (node_view node.entry))) }
{
    match value.what {
        What::Word(name) => Err(refused(Reason::UnknownName, name.span)),
        _ => Err(refused(Reason::NoConstant, node.span)),
    }
}

/// The code of a selector that is a number.
fn number_code<'t>(value: Value<'t>, node: Node<'t>) -> Result<u64, Refusal>
    ensures { Gives (λ n. n) result (spec.number_code (value_view value.entry)
        (node_view node.entry)) }
{
    match value.number {
        Some(number) => Ok(selector_code(number)),
        None => no_selector(value, node),
    }
}

/// The code of a selector.
fn arm_value<'t>(value: Value<'t>, node: Node<'t>) -> Result<u64, Refusal>
    ensures { Gives (λ n. n) result (spec.arm_value (value_view value.entry)
        (node_view node.entry)) }
{
    match value.what {
        What::Default => Ok(0),
        _ => number_code(value, node),
    }
}

/// A selector by its code.
#[tactic(auto, unfolding(crate::specs::Switches::push_arm))]
fn push_arm(b: &mut Body<'_>, value: u64, falls_through: bool) -> Result<(), Refusal>
    ensures { Reads (spec.push_arm value falls_through (state_of b.old))
        result (state_of b.new) }
{
    b.arms.push(Arm {
        value,
        falls_through,
    })?;
    Ok(())
}

/// The last value is a selector.
#[tactic(auto, unfolding(crate::specs::Switches::selector))]
pub fn selector<'t>(b: &mut Body<'t>, node: Node<'t>) -> Result<(), Refusal>
    ensures { Reads (spec.selector (node_view node.entry) (state_of b.old))
        result (state_of b.new) }
{
    let value = b.take_value(node)?;
    let code = arm_value(value, node)?;
    push_arm(b, code, false)
}

/// `default` is a selector.
#[tactic(auto, unfolding(crate::specs::Switches::default_selector))]
pub fn default_selector(b: &mut Body<'_>) -> Result<(), Refusal>
    ensures { Reads (spec.default_selector (state_of b.old)) result (state_of b.new) }
{
    push_arm(b, 0, false)
}

/// The last selector, which is taken.
fn pop_arm(arms: &mut Vec<Arm>) -> Arm
    ensures value { result ≡ spec.last_arm arms.old.items }
    ensures rest { arms.new.items ≡ spec.front arms.old.items }
{
    arms.pop().unwrap_or(Arm {
        value: 0,
        falls_through: false,
    })
}

/// The last selector has the body of the next one.
#[tactic(auto, unfolding(crate::specs::Switches::fall_through))]
pub fn fall_through(b: &mut Body<'_>) -> Result<(), Refusal>
    ensures { Reads (spec.fall_through (state_of b.old)) result (state_of b.new) }
{
    let arm = pop_arm(&mut b.arms);
    push_arm(b, arm.value, true)
}

/// The last selector and the last block, which are taken, as an arm.
fn case(b: &mut Body<'_>) -> SwitchCase
    ensures value { spec.case_of result ≡ spec.case (state_of b.old) }
    ensures rest { state_of b.new ≡ spec.without_case (state_of b.old) }
{
    let arm = pop_arm(&mut b.arms);
    let body = b.block();
    arm_of(arm.value, body, arm.falls_through)
}

/// The number of a switch's selectors, and with it the switch is taken.
fn pop_count(switches: &mut Vec<usize>) -> usize
    ensures value { result ≡ spec.last_count switches.old.items }
    ensures rest { switches.new.items ≡ spec.front switches.old.items }
{
    switches.pop().unwrap_or(0)
}

/// The arms of the selectors after the first `count`.
fn cases(b: &mut Body<'_>, count: usize) -> Result<Vec<SwitchCase>, Refusal>
    ensures { ReadsAs arms_tokens (spec.cases count (state_of b.old)) result (state_of b.new) }
{
    let mut cases = Vec::new(b.alloc);
    let mut left = b.arms.len().saturating_sub(count);
    while left > 0 {
        let next = case(b);
        cases.push(next)?;
        left -= 1;
    }
    cases.reverse();
    Ok(cases)
}

/// The arms of the innermost switch, which is taken.
#[tactic(auto, unfolding(crate::specs::Switches::switch_cases))]
fn switch_cases(b: &mut Body<'_>) -> Result<Vec<SwitchCase>, Refusal>
    ensures { ReadsAs arms_tokens (spec.switch_cases (state_of b.old)) result (state_of b.new) }
{
    let count = pop_count(&mut b.switches);
    cases(b, count)
}

/// A switch of the last value ends.
#[tactic(auto, unfolding(crate::specs::Switches::switch_end))]
pub fn switch_end<'t>(b: &mut Body<'t>, node: Node<'t>) -> Result<(), Refusal>
    ensures { Reads (spec.switch_end (node_view node.entry) (state_of b.old))
        result (state_of b.new) }
{
    let cases = switch_cases(b)?;
    let selector = b.operand(node)?;
    b.state(switch_statement(selector, cases), node.span)
}
