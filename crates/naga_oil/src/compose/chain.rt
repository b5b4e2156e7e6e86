//! Redirects calls along the functions that override one, and sets the stages of entry points.
ghost use Rattle.std.specs.Prelude.{◌≡◌, [], map, string_bytes};
ghost use Rattle.naga_oil_ir.specs.ModuleValue.{EntryValue, entry_value, module_value};
ghost use Rattle.naga_oil_form_laws.specs.EntryForm.{IsModuleFormed};
ghost use Rattle.naga_oil_words.specs.Texts.{texts};
ghost use Rattle.naga_oil_conditions.specs.View.{Gives};
ghost use Rattle.naga_oil_link.specs.BuiltModule.{overriding_of};
ghost use Rattle.naga_oil.specs.Chain.{with_stages, sent_down, all_sent_down, chain_all, chain};

use super::*;
use naga_oil_redirect::Redirector;

// Redirects the calls of a function along those that override it: to the first, from there to the
// second, and so on. Calls in the function that is redirected to, and in earlier ones, stay.
fn send_down(
    alloc: Global,
    redirector: &mut Redirector,
    base: &String,
    others: &[String],
) -> InnerResult
    ensures { let sent = sent_down redirector.old (string_bytes base.now) (texts others.now) [] in
        Gives (λ done. redirector.new) result sent }
{
    let mut omit = NameSet::new(alloc);
    let mut original = base;
    for other in others {
        redirector.redirect_function(original.as_str(), other.as_str(), &omit)?;
        omit.insert(other.clone()?)?;
        original = other;
    }
    Ok(())
}

// Redirects the calls of each overridden function along those that override it.
fn send_all_down(alloc: Global, redirector: &mut Redirector, all: &Overrides) -> InnerResult
    ensures { let sent = all_sent_down redirector.old (overriding_of all.now) in
        Gives (λ done. redirector.new) result sent }
{
    for (base, others) in all.iter() {
        send_down(alloc, redirector, base, others)?;
    }
    Ok(())
}

// The module with the calls of overridden functions redirected, and its functions sorted.
fn chain_all(alloc: Global, whole: Module, all: &Overrides) -> InnerResult<Module>
    requires { IsModuleFormed (module_value whole) }
    ensures { Gives module_value result (chain_all (overriding_of all.now) (module_value whole)) }
{
    let mut redirector = Redirector::new(alloc, whole);
    send_all_down(alloc, &mut redirector, all)?;
    Ok(redirector.into_module()?)
}

/// Returns the module with the calls of overridden functions redirected, and its functions sorted.
/// Where no function is overridden the module stays as it is.
pub(crate) fn chain(alloc: Global, whole: Module, all: &Overrides) -> InnerResult<Module>
    requires { IsModuleFormed (module_value whole) }
    ensures { Gives module_value result (chain (overriding_of all.now) (module_value whole)) }
{
    if all.is_empty() {
        return Ok(whole);
    }
    chain_all(alloc, whole, all)
}

// Sets the stage of each entry point.
fn set_stage(entry_points: &mut Vec<EntryPoint>, stage: u64)
    ensures { let staged = λ (e : EntryValue). record e { stage = stage } in
        let old = map entry_value entry_points.old.items in
        map entry_value entry_points.new.items ≡ map staged old }
{
    for entry_point in entry_points.iter_mut() {
        entry_point.stage = stage;
    }
}

/// Sets the stage of each entry point to that of the shader's type; a WGSL text states its own.
pub(crate) fn set_stages(whole: &mut Module, shader_type: ShaderType)
    ensures { module_value whole.new ≡ with_stages shader_type (module_value whole.old) }
{
    match shader_type {
        ShaderType::Wgsl => {}
        ShaderType::GlslVertex => set_stage(&mut whole.entry_points, 0),
        ShaderType::GlslFragment => set_stage(&mut whole.entry_points, 1),
    }
}
