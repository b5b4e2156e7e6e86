// What a module inherits from its imports.
ghost use Rattle.std.specs.Prelude.{◌≡◌, ◌++◌, map, fold, IfOk, OnOk};
ghost use Rattle.std.specs.List.{flat_map};
ghost use Rattle.naga_oil_words.specs.Texts.{with_name, texts};
ghost use Rattle.naga_oil_imports.specs.Uses.{use_of, import_of};
ghost use Rattle.naga_oil_registry.specs.Registered.{definition_of, defs_of};
ghost use Rattle.naga_oil_registry.specs.Merged.{overwritten, merged, used_at_start};

use super::*;

/// Overwrites definitions with others.
pub fn overwrite(defs: &mut Defs, others: &Defs) -> AllocResult
    ensures { OnOk result (defs_of defs.new ≡ overwritten (defs_of defs.old) (defs_of others.now)) }
{
    for (name, value) in others {
        defs.insert(name.clone()?, *value)?;
    }
    Ok(())
}

// Adds the names of a set.
fn add_names(names: &mut NameSet, others: &NameSet) -> AllocResult
    ensures { let more = texts others.now.keys in
        OnOk result (texts names.new.keys ≡ fold with_name (texts names.old.keys) more) }
{
    for name in others {
        names.insert(name.clone()?)?;
    }
    Ok(())
}

/// Overwrites definitions with those of each imported module, one after the other, and adds the
/// effective names of each.
pub(crate) fn take_over(
    defs: &mut Defs,
    names: &mut NameSet,
    imported: &[&Registered],
) -> AllocResult
    ensures defs { let others = map (λ d. definition_of d.now) imported.now in
        OnOk result (defs_of defs.new ≡ merged (defs_of defs.old) others) }
    ensures names { let more = flat_map (λ d. (definition_of d.now).effective) imported.now in
        OnOk result (texts names.new.keys ≡ fold with_name (texts names.old.keys) more) }
{
    for definition in imported {
        overwrite(defs, &definition.shader_defs)?;
        add_names(names, &definition.effective_defs)?;
    }
    Ok(())
}

/// Adds imports at the end, as used at the start of the text.
pub fn push_additional(imports: &mut Vec<Use>, additional: &[Import]) -> AllocResult
    ensures { let more = map (λ i. used_at_start (import_of i)) additional.now in
        OnOk result (map use_of imports.new.items ≡ map use_of imports.old.items ++ more) }
{
    for import in additional {
        imports.push(Use::new(import.try_clone()?, 0))?;
    }
    Ok(())
}

/// A copy of imports.
pub fn clone_imports(alloc: Global, imports: &[Import]) -> AllocResult<Vec<Import>>
    ensures { IfOk result (λ copy. map import_of copy.items ≡ map import_of imports.now) }
{
    let mut copy = Vec::with_capacity(alloc, imports.len())?;
    for import in imports {
        copy.push(import.try_clone()?)?;
    }
    Ok(copy)
}

/// The imports, without the places that use them.
pub fn imports_of(alloc: Global, uses: &[Use]) -> AllocResult<Vec<Import>>
    ensures { let imported = map (λ u. (use_of u).import) uses.now in
        IfOk result (λ imports. map import_of imports.items ≡ imported) }
{
    let mut imports = Vec::with_capacity(alloc, uses.len())?;
    for import in uses {
        imports.push(import.definition().try_clone()?)?;
    }
    Ok(imports)
}
