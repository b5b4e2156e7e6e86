// The text of a module.
ghost use Rattle.std.specs.Prelude.{string_bytes, IfOk, ◌≡◌, Some};
ghost use Rattle.naga_oil_ir.specs.ModuleValue.{module_value};
ghost use Rattle.yettuvam_wgsl_write.specs.Functions.{entry_points, functions};
ghost use Rattle.yettuvam_wgsl_write.specs.Modules as spec;
ghost use Rattle.yettuvam_wgsl_write.specs.Plans.{plans_value};
ghost use Rattle.yettuvam_wgsl_write_expressions.specs.Context.{context_of};
ghost use Rattle.yettuvam_wgsl_write_items.specs.Text.{Makes, inputs};
ghost use Rattle.yettuvam_wgsl_write_types.specs.Types.{values_of};
ghost use Rattle.yettuvam_wgsl_written.specs.Outcomes.{Finds};
ghost use Rattle.yettuvam_wgsl_written_names.specs.Items.{names_of};

use crate::functions::{push_entry_points, push_functions};
use crate::plans::{Plan, entry_plans, function_plans};
use naga_oil_ir::Module;
use std::alloc::Global;
use yettuvam_wgsl_pieces::Piece;
use yettuvam_wgsl_pieces::layout::spell;
use yettuvam_wgsl_write_expressions::context::Context;
use yettuvam_wgsl_write_expressions::operands::Known;
use yettuvam_wgsl_write_globals::{context_of, written_globals};
use yettuvam_wgsl_write_items::push_items;
use yettuvam_wgsl_written::{WriteResult, Written};
use yettuvam_wgsl_written_names::{ItemNames, item_names};

type Pieces<'m> = Vec<Piece<'m>>;

// The global expressions of a module, where no type is written by the value of one.
#[tactic(auto, unfolding(crate::specs::Modules::global_values))]
fn global_values<'m>(
    alloc: Global,
    of: &'m Module,
    names: &'m ItemNames,
) -> WriteResult<Vec<Written<'m>>>
    ensures { let made = spec.global_values (module_value of.now) (names_of names.now) in
        Finds (λ v. values_of v.items) result made }
{
    let context = context_of(alloc, of, names, None)?;
    written_globals(&context)
}

// Appends the functions of the module, each with its plan.
fn push_own_functions<'m>(
    context: &Context<'m>,
    out: &mut Pieces<'m>,
    plans: &'m [Plan],
) -> WriteResult<()>
    ensures { let made = functions (context_of context.now) (plans_value plans.now) in
        Makes (made (module_value context.now.of.now).functions) result out.old out.new }
{
    let of = context.of.functions.as_slice();
    push_functions(context, out, plans, of)
}

// Appends the entry points of the module, each with its plan.
fn push_own_entry_points<'m>(
    context: &Context<'m>,
    known: Known<'_, 'm>,
    out: &mut Pieces<'m>,
    plans: &'m [Plan],
) -> WriteResult<()>
    ensures { let made = entry_points (inputs context.now known.now) (plans_value plans.now) in
        Makes (made (module_value context.now.of.now).entry_points) result out.old out.new }
{
    let of = context.of.entry_points.as_slice();
    push_entry_points(context, known, out, plans, of)
}

// Appends the items of a module, its functions and its entry points.
#[tactic(auto, unfolding(crate::specs::Modules::put_all))]
fn push_all<'m>(
    context: &Context<'m>,
    known: Known<'_, 'm>,
    out: &mut Pieces<'m>,
    functions: &'m [Plan],
    entry_points: &'m [Plan],
) -> WriteResult<()>
    ensures { let made = spec.put_all (inputs context.now known.now) (module_value context.now.of.now) in
        Makes (made (plans_value functions.now) (plans_value entry_points.now)) result out.old out.new }
{
    push_items(context, known, out)?;
    push_own_functions(context, out, functions)?;
    push_own_entry_points(context, known, out, entry_points)
}

// Appends the text of pieces that a module is written in.
#[tactic(auto, unfolding(crate::specs::Modules::planned))]
fn push_planned<'m>(
    alloc: Global,
    out: &mut Pieces<'m>,
    of: &'m Module,
    names: &'m ItemNames,
    functions: &'m [Plan],
    entry_points: &'m [Plan],
) -> WriteResult<()>
    ensures { let made = spec.planned (module_value of.now) (names_of names.now) in
        Makes (made (plans_value functions.now) (plans_value entry_points.now)) result out.old out.new }
{
    let known = global_values(alloc, of, names)?;
    let context = context_of(alloc, of, names, Some(known.as_slice()))?;
    push_all(&context, &known, out, functions, entry_points)
}

#[tactic(auto, unfolding(crate::specs::Modules::named))]
fn named_text(
    alloc: Global,
    of: &Module,
    names: &ItemNames,
    functions: &[Plan],
    entry_points: &[Plan],
) -> WriteResult<String>
    ensures { let made = spec.named (module_value of.now) (names_of names.now) in
        Finds string_bytes result (made (plans_value functions.now) (plans_value entry_points.now)) }
{
    let mut pieces = Vec::new(alloc);
    push_planned(alloc, &mut pieces, of, names, functions, entry_points)?;
    let mut text = String::new(alloc);
    spell(&mut text, &pieces)?;
    Ok(text)
}

/// Returns the text of a module.
///
/// # Errors
/// `NotInWgsl` with the span of what WGSL can't say, `Memory` if out of memory.
#[tactic(auto, unfolding(crate::specs::Modules::module_text))]
pub fn module_text(alloc: Global, of: &Module) -> WriteResult<String>
    ensures { Finds string_bytes result (spec.module_text (module_value of.now)) }
{
    let (names, taken) = item_names(alloc, of)?;
    let functions = function_plans(alloc, of, &taken, of.functions.as_slice())?;
    let entry_points = entry_plans(alloc, of, &taken, &of.entry_points)?;
    named_text(alloc, of, &names, &functions, &entry_points)
}
