// What is decided of functions before they are written.
ghost use Rattle.std.specs.Prelude.{◌≡◌, IfOk};
ghost use Rattle.naga_oil_ir.specs.Body.{block_tokens};
ghost use Rattle.naga_oil_ir.specs.ModuleValue.{function_value, module_value};
ghost use Rattle.yettuvam_wgsl_write.specs.Plans as spec;
ghost use Rattle.yettuvam_wgsl_write.specs.Plans.{plan_value, plans_value};
ghost use Rattle.yettuvam_wgsl_written_names.specs.Taken.{taken_of};

use naga_oil_ir::tokens::push_block;
use naga_oil_ir::{Block, EntryPoint, Function, Module, Span, Token};
use std::alloc::{AllocError, Global};
use yettuvam_wgsl_lines::lines_of;
use yettuvam_wgsl_local_names::{LocalNames, local_names};
use yettuvam_wgsl_requests::calls_of;
use yettuvam_wgsl_uses::{Uses, uses_of};
use yettuvam_wgsl_written_names::Taken;

/// What is decided of a function before it is written.
#[derive(Drop)]
pub struct Plan {
    /// Its body.
    pub tokens: Vec<Token>,
    /// How its expressions, results and locals are written.
    pub uses: Uses,
    /// The names of its arguments, locals and values.
    pub names: LocalNames,
}

fn tokens_of(alloc: Global, body: &Block) -> Result<Vec<Token>, AllocError>
    ensures { IfOk result (λ v. v.items ≡ block_tokens body.now) }
{
    let mut tokens = Vec::new(alloc);
    push_block(body, &mut tokens)?;
    Ok(tokens)
}

// The names inside of a function, where those of its module are taken.
fn names_of(
    alloc: Global,
    taken: &Taken<'_>,
    function: &Function,
    uses: &Uses,
    tokens: &[Token],
) -> Result<LocalNames, AllocError>
    ensures { IfOk result (λ n. spec.named n ≡ spec.names_of (taken_of taken.now)
        (function_value function.now) (spec.used uses.now) tokens.now) }
{
    let body = lines_of(alloc, function, tokens)?;
    let calls = calls_of(alloc, uses, &body.lines)?;
    let mut inside = Taken::inside(alloc, taken);
    local_names(alloc, &mut inside, function, uses, &calls, &body.lines)
}

fn uses_in(
    alloc: Global,
    of: &Module,
    function: &Function,
    tokens: &[Token],
) -> Result<Uses, AllocError>
    ensures { IfOk result (λ u. spec.used u ≡ spec.uses_in (module_value of.now)
        (function_value function.now) tokens.now) }
{
    let body = lines_of(alloc, function, tokens)?;
    uses_of(alloc, of, function, &body)
}

#[tactic(auto, unfolding(crate::specs::Plans::plan))]
fn make_plan(
    alloc: Global,
    of: &Module,
    taken: &Taken<'_>,
    function: &Function,
) -> Result<Plan, AllocError>
    ensures { let made = spec.plan (module_value of.now) (taken_of taken.now) in
        IfOk result (λ p. plan_value p ≡ made (function_value function.now)) }
{
    let tokens = tokens_of(alloc, &function.body)?;
    let uses = uses_in(alloc, of, function, &tokens)?;
    let names = names_of(alloc, taken, function, &uses, &tokens)?;
    Ok(Plan {
        tokens,
        uses,
        names,
    })
}

/// Returns the plans of the functions of a module, whose own names are taken.
///
/// # Errors
/// If out of memory.
pub fn function_plans(
    alloc: Global,
    of: &Module,
    taken: &Taken<'_>,
    functions: &[(Function, Span)],
) -> Result<Vec<Plan>, AllocError>
    ensures { let made = spec.function_plans (module_value of.now) (taken_of taken.now) in
        IfOk result (λ v. plans_value v.items ≡ made (spec.functions_value functions.now)) }
{
    let mut plans = Vec::new(alloc);
    let mut rest = functions;
    while let [(function, _), more @ ..] = rest {
        plans.push(make_plan(alloc, of, taken, function)?)?;
        rest = more;
    }
    Ok(plans)
}

/// Returns the plans of the entry points of a module, whose own names are taken.
///
/// # Errors
/// If out of memory.
pub fn entry_plans(
    alloc: Global,
    of: &Module,
    taken: &Taken<'_>,
    entry_points: &[EntryPoint],
) -> Result<Vec<Plan>, AllocError>
    ensures { let made = spec.entry_plans (module_value of.now) (taken_of taken.now) in
        IfOk result (λ v. plans_value v.items ≡ made (spec.entries_value entry_points.now)) }
{
    let mut plans = Vec::new(alloc);
    let mut rest = entry_points;
    while let [entry_point, more @ ..] = rest {
        plans.push(make_plan(alloc, of, taken, &entry_point.function)?)?;
        rest = more;
    }
    Ok(plans)
}
