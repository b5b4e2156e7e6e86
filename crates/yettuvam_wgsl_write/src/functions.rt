// Functions and entry points as pieces.
ghost use Rattle.naga_oil_ir.specs.ModuleValue.{entry_value, function_value};
ghost use Rattle.std.specs.Prelude.{◌≡◌};
ghost use Rattle.yettuvam_wgsl_write.specs.Functions as spec;
ghost use Rattle.yettuvam_wgsl_write.specs.Plans.{entries_value, functions_value, plan_value, plans_value};
ghost use Rattle.yettuvam_wgsl_write_expressions.specs.Context.{context_of};
ghost use Rattle.yettuvam_wgsl_write_items.specs.Text.{Makes, inputs, name_of};
ghost use Rattle.yettuvam_wgsl_written_names.specs.Items.{texts};

use crate::plans::Plan;
use naga_oil_ir::{EntryPoint, Function, Span};
use yettuvam_wgsl_pieces::Piece;
use yettuvam_wgsl_write_bodies::push_body;
use yettuvam_wgsl_write_expressions::context::Context;
use yettuvam_wgsl_write_expressions::operands::Known;
use yettuvam_wgsl_write_items::{push_entry_point_head, push_function_head};
use yettuvam_wgsl_written::{Refusal, WriteResult};

type Pieces<'m> = Vec<Piece<'m>>;

// The first name of a list.
fn first_name(names: &[Option<String>]) -> Option<&str>
    ensures { name_of result ≡ spec.first_name (texts names.now) }
{
    match names {
        [Some(name), ..] => Some(name.as_str()),
        _ => None,
    }
}

fn after_first(names: &[Option<String>]) -> &[Option<String>]
    ensures { texts result.now ≡ spec.after_first (texts names.now) }
{
    match names {
        [_, more @ ..] => more,
        [] => names,
    }
}

// Appends a function, which must have a name.
#[tactic(auto, unfolding(crate::specs::Functions::function))]
fn push_function<'m>(
    context: &Context<'m>,
    out: &mut Pieces<'m>,
    name: Option<&'m str>,
    plan: &'m Plan,
    of: &'m Function,
    span: Span,
) -> WriteResult<()>
    ensures { let made = spec.function (context_of context.now) (name_of name.entry) in
        Makes (made (plan_value plan.now) (function_value of.now) span) result out.old out.new }
{
    let Some(name) = name else {
        return Err(Refusal::NotInWgsl(span));
    };
    push_function_head(context, out, name, &plan.names.arguments, of, span)?;
    push_body(context, out, of, &plan.names, &plan.uses, &plan.tokens)
}

// Appends an entry point, which must have a name.
#[tactic(auto, unfolding(crate::specs::Functions::entry_point))]
fn push_entry_point<'m>(
    context: &Context<'m>,
    known: Known<'_, 'm>,
    out: &mut Pieces<'m>,
    name: Option<&'m str>,
    plan: &'m Plan,
    of: &'m EntryPoint,
) -> WriteResult<()>
    ensures { let made = spec.entry_point (inputs context.now known.now) (name_of name.entry) in
        Makes (made (plan_value plan.now) (entry_value of.now)) result out.old out.new }
{
    let Some(name) = name else {
        return Err(Refusal::NotInWgsl(Span::UNDEFINED));
    };
    push_entry_point_head(context, known, out, name, &plan.names.arguments, of)?;
    push_body(
        context,
        out,
        &of.function,
        &plan.names,
        &plan.uses,
        &plan.tokens,
    )
}

/// Appends functions, each with its plan.
///
/// # Errors
/// `NotInWgsl` if WGSL has no such function, `Memory` if out of memory.
#[tactic(auto, unfolding(crate::specs::Functions::each_function))]
pub fn push_functions<'m>(
    context: &Context<'m>,
    out: &mut Pieces<'m>,
    plans: &'m [Plan],
    of: &'m [(Function, Span)],
) -> WriteResult<()>
    ensures { let made = spec.functions (context_of context.now) (plans_value plans.now) in
        Makes (made (functions_value of.now)) result out.old out.new }
{
    let mut names = context.names.functions.as_slice();
    let mut plans = plans;
    let mut rest = of;
    while let [(function, span), more @ ..] = rest {
        let [plan, plans_more @ ..] = plans else {
            return Err(Refusal::NotInWgsl(*span));
        };
        push_function(context, out, first_name(names), plan, function, *span)?;
        names = after_first(names);
        plans = plans_more;
        rest = more;
    }
    Ok(())
}

/// Appends entry points, each with its plan. `known` are the global expressions.
///
/// # Errors
/// `NotInWgsl` if WGSL has no such entry point, `Memory` if out of memory.
#[tactic(auto, unfolding(crate::specs::Functions::each_entry_point))]
pub fn push_entry_points<'m>(
    context: &Context<'m>,
    known: Known<'_, 'm>,
    out: &mut Pieces<'m>,
    plans: &'m [Plan],
    of: &'m [EntryPoint],
) -> WriteResult<()>
    ensures { let made = spec.entry_points (inputs context.now known.now) (plans_value plans.now) in
        Makes (made (entries_value of.now)) result out.old out.new }
{
    let mut names = context.names.entry_points.as_slice();
    let mut plans = plans;
    let mut rest = of;
    while let [entry_point, more @ ..] = rest {
        let [plan, plans_more @ ..] = plans else {
            return Err(Refusal::NotInWgsl(Span::UNDEFINED));
        };
        push_entry_point(context, known, out, first_name(names), plan, entry_point)?;
        names = after_first(names);
        plans = plans_more;
        rest = more;
    }
    Ok(())
}
