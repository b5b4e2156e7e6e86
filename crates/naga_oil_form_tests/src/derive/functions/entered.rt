//! Entry points that are copied, with what they call.
ghost use Rattle.std.specs.Prelude.{IsSome, OnOk};
ghost use Rattle.naga_oil_derive.specs.DerivedEntries.{CanCopyEntries};

use super::*;

/// Tests the form of the source, whose entry points can be copied then.
fn ask_entries(derived: &DerivedModule<'_>, alloc: Global) -> Result<(), FormFault>
    ensures set { OnOk result (IsSome derived.now.source) }
    ensures entries { OnOk result (CanCopyEntries derived.now) }
{
    let Some(source) = derived.source() else {
        return Err(FormFault::WrongForm);
    };
    check_form(source, alloc, "", 1000)?;
    Ok(())
}

/// Sets a source, whose entry points can be copied then.
fn prepare<'a>(
    derived: &mut DerivedModule<'a>,
    source: &'a Module,
    alloc: Global,
) -> Result<(), FormFault>
    ensures set { OnOk result (IsSome derived.new.source) }
    ensures entries { OnOk result (CanCopyEntries derived.new) }
{
    set(derived, source, 0, alloc)?;
    ask_entries(derived, alloc)
}

/// The module with copies of the entry points of its source.
fn entered(source: &Module, alloc: Global) -> Result<Module, FormFault> {
    let mut derived = DerivedModule::new(alloc);
    prepare(&mut derived, source, alloc)?;
    Ok(derived.into_module_with_entrypoints()?)
}

fn is_whole(module: &Module) -> bool {
    let Some(entry) = module.entry_points.first() else {
        return false;
    };
    module.functions.len() == 2
        && entry.workgroup_size == [1, 2, 3]
        && entry.stage == 2
        && calls(&entry.function) == Some(1)
}

fn is_entered(module: &Result<Module, FormFault>) -> Option<bool> {
    match module {
        Ok(module) => Some(is_whole(module)),
        Err(_) => None,
    }
}

fn enters(source: &Module, alloc: Global) -> Option<bool> {
    let module = entered(source, alloc);
    is_entered(&module)
}

/// Whether one of `tries` calls makes the module.
fn is_module(source: &Module, tries: usize, alloc: Global) -> bool {
    for _ in 0..tries {
        if let Some(is_so) = enters(source, alloc) {
            return is_so;
        }
    }
    false
}

pub(super) fn is_entry(tries: usize, alloc: Global) -> Result<bool, AllocError> {
    let mut source = Module::new(alloc);
    fill(&mut source, &CALLING, alloc)?;
    Ok(is_module(&source, tries, alloc))
}

#[test]
fn entry_points_come_with_what_they_call(rt: HostRuntime) -> Result<(), Fail> {
    holds(is_entry(1, rt.alloc())?)
}
