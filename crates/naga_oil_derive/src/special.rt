//! Special types by their keys, and those of a target that stand for a source's.
ghost use Rattle.std.specs.Prelude.{◌≡◌, ◌<◌, ◌++◌, ℕ, length, take, All, Option, Some, None, OnOk, OnErr, IfOk};
ghost use Rattle.naga_oil_ir.specs.ModuleValue.{special_value};
ghost use Rattle.naga_oil_derive.specs.World.{special_entry, special_entries, special_at as special_at_key, with_special, with_specials, HaveDistinctKeys};
ghost use Rattle.naga_oil_derive.specs.Copying.{handle_under, kept_over};

use super::*;

/// The key of a special type: what the type is for.
#[derive(Clone, Copy)]
pub enum SpecialKey {
    RayDesc,
    RayIntersection,
    RayVertexReturn,
    /// The code of a predeclared type.
    Predeclared(u64),
}

/// A special type with its key.
pub type SpecialEntry = (SpecialKey, Handle<Type>);

/// A special type, if there is one.
pub type SpecialType = Option<Handle<Type>>;

fn push_special(
    key: SpecialKey,
    handle: SpecialType,
    entries: &mut Vec<SpecialEntry>,
) -> AllocResult
    ensures { OnOk result (entries.new.items ≡ entries.old.items ++ special_entry key handle) }
{
    if let Some(handle) = handle {
        entries.push((key, handle))?;
    }
    Ok(())
}

/// Returns the special types in order; no two have the same key.
pub fn special_entries(special: &SpecialTypes, alloc: Global) -> AllocResult<Vec<SpecialEntry>>
    ensures entries { IfOk result (λ v. v.items ≡ special_entries (special_value special.now)) }
    ensures distinct { IfOk result (λ v. HaveDistinctKeys v.items) }
{
    let mut entries = Vec::new(alloc);
    push_special(SpecialKey::RayDesc, special.ray_desc, &mut entries)?;
    let (intersection, vertex) = (special.ray_intersection, special.ray_vertex_return);
    push_special(SpecialKey::RayIntersection, intersection, &mut entries)?;
    push_special(SpecialKey::RayVertexReturn, vertex, &mut entries)?;
    for (code, handle) in &special.predeclared_types {
        entries.push((SpecialKey::Predeclared(*code), *handle))?;
    }
    Ok(entries)
}

/// Returns the special type of a key, if there is one.
pub fn special_at(special: &SpecialTypes, key: SpecialKey) -> SpecialType
    ensures { result ≡ special_at_key (special_value special.now) key }
{
    match key {
        SpecialKey::RayDesc => special.ray_desc,
        SpecialKey::RayIntersection => special.ray_intersection,
        SpecialKey::RayVertexReturn => special.ray_vertex_return,
        SpecialKey::Predeclared(code) => special.predeclared_types.get(&code).copied(),
    }
}

/// Sets the special type of a key that has none.
fn set_special(special: &mut SpecialTypes, key: SpecialKey, handle: Handle<Type>) -> AllocResult
    requires { special_at_key (special_value special.old) key ≡ None }
    ensures set { let made = with_special (special_value special.old) key handle in
        OnOk result (special_value special.new ≡ made) }
    ensures err { OnErr result (special_value special.new ≡ special_value special.old) }
{
    match key {
        SpecialKey::RayDesc => special.ray_desc = Some(handle),
        SpecialKey::RayIntersection => special.ray_intersection = Some(handle),
        SpecialKey::RayVertexReturn => special.ray_vertex_return = Some(handle),
        SpecialKey::Predeclared(code) => {
            special.predeclared_types.insert(code, handle)?;
        }
    }
    Ok(())
}

/// Maps special types of a source to those of a target with the same keys. For a type with two keys the last decides.
pub fn keep_special(entries: &[SpecialEntry], target: &SpecialTypes, types: &mut [SpecialType])
    requires { All (λ e. e.1 < length types.old) entries.now }
    ensures { let at = special_at_key (special_value target.now) in
        types.new ≡ kept_over at entries.now types.old }
{
    for (key, handle) in entries {
        if let Some(place) = special_at(target, *key) {
            types[handle.index()] = Some(place);
        }
    }
}

/// Sets the special types that a target lacks to the copies of the source's.
pub fn set_specials(
    entries: &[SpecialEntry],
    maps: &Maps,
    special: &mut SpecialTypes,
) -> AllocResult
    ensures some { let old = special_value special.old in
        let made = with_specials old (handle_under maps.now.types.items) in
        (n : ℕ) × (special_value special.new ≡ made (take n entries.now)) }
    ensures all { let old = special_value special.old in
        let made = with_specials old (handle_under maps.now.types.items) in
        OnOk result (special_value special.new ≡ made entries.now) }
{
    for (key, handle) in entries {
        if special_at(special, *key).is_none() {
            set_special(special, *key, maps.ty(*handle))?;
        }
    }
    Ok(())
}
