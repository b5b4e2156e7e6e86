// The context of a module.
ghost use Rattle.std.specs.Prelude.{◌≡◌, IfOk, option_map};
ghost use Rattle.naga_oil_ir.specs.ModuleValue.{module_value};
ghost use Rattle.yettuvam_wgsl_write_expressions.specs.Context as context;
ghost use Rattle.yettuvam_wgsl_write_globals.specs.Globals as spec;
ghost use Rattle.yettuvam_wgsl_write_types.specs.Types.{values_of};
ghost use Rattle.yettuvam_wgsl_written.specs.Outcomes.{Finds};
ghost use Rattle.yettuvam_wgsl_written_names.specs.Items.{names_of};

use naga_oil_ir::Module;
use std::alloc::Global;
use yettuvam_wgsl_write_expressions::context::Context;
use yettuvam_wgsl_write_types::types::Known;
use yettuvam_wgsl_written::{WriteResult, Written};
use yettuvam_wgsl_written_names::ItemNames;

/// Returns what writing knows of a module. Without the global expressions, arrays whose sizes name an override aren't
/// written.
///
/// # Errors
/// `NotInWgsl` if WGSL has no such type, `Memory` if out of memory.
#[tactic(auto, unfolding(crate::specs::Globals::module_context), using(crate::proofs::Results::same_results))]
pub fn context_of<'m>(
    alloc: Global,
    of: &'m Module,
    names: &'m ItemNames,
    values: Option<&[Written<'m>]>,
) -> WriteResult<Context<'m>>
    ensures value { let known = option_map (λ v. values_of v.now) values.entry in
        let made = spec.module_context (module_value of.now) (names_of names.now) known in
        Finds context.context_of result made }
    ensures given { IfOk result (λ c. c.of.now ≡ of.now) }
{
    let known = Known {
        alloc,
        of,
        names,
        values,
    };
    let (types, told) = known.types()?;
    Ok(Context {
        alloc,
        of,
        names,
        types,
        told,
    })
}
