//! The builds that a composer keeps between makes, and their keys.
ghost use Rattle.std.specs.Prelude.{◌≡◌, not, IfOk, OnOk, OnErr, option_map, string_bytes};
ghost use Rattle.std.specs.Arc.{arc_value};
ghost use Rattle.std.specs.BTreeSet.{contains_text};
ghost use Rattle.naga_oil_registry.specs.Registered.{definition_of, defs_of};
ghost use Rattle.naga_oil_link.specs.BuiltModule.{built_of};
ghost use Rattle.naga_oil.specs.Store.{forget, keep_build, kept_under, key_under, same_def, same_key};
ghost use Rattle.naga_oil.specs.StoreView.{def_of, key_of, kept_of};

use super::*;

/// The key of a build: the name of its module, and the definitions on which it may depend, sorted
/// by name.
#[derive(PartialEq, Eq, Hash, Drop)]
pub(crate) struct Key {
    pub(crate) name: String,
    pub(crate) defs: Vec<(String, ShaderDefValue)>,
}

/// Builds by their keys, in the order of keeping.
pub(crate) type Store = IndexMap<Key, Arc<Build>>;

/// Returns the key of a module's build under definitions.
pub(crate) fn project(alloc: Global, of: &Registered, defs: &Defs) -> AllocResult<Key>
    ensures { let under = key_under (definition_of of.now) (defs_of defs.now) in
        IfOk result (λ key. key_of key ≡ under) }
{
    let mut projected = Vec::new(alloc);
    for (name, value) in defs {
        if !of.effective_defs.contains(name.as_str()) {
            continue;
        }
        projected.push((name.clone()?, *value))?;
    }
    let name = of.name.clone()?;
    Ok(Key {
        name,
        defs: projected,
    })
}

// Whether a definition defines a name as a value.
fn defines(def: &(String, ShaderDefValue), name: &String, value: ShaderDefValue) -> bool
    ensures { result ≡ same_def (string_bytes name.now, value) (def_of def.now) }
{
    *name == def.0 && value == def.1
}

/// Whether a key is that of a module's build under definitions. No memory is allocated.
pub(crate) fn has_projection(of: &Registered, defs: &Defs, key: &Key) -> bool
    ensures { let under = key_under (definition_of of.now) (defs_of defs.now) in
        result ≡ same_key under (key_of key.now) }
{
    if of.name != key.name {
        return false;
    }
    let mut kept = key.defs.as_slice();
    for (name, value) in defs {
        if !of.effective_defs.contains(name.as_str()) {
            continue;
        }
        let Some((first, rest)) = kept.split_first() else {
            return false;
        };
        if !defines(first, name, *value) {
            return false;
        }
        kept = rest;
    }
    kept.is_empty()
}

/// Returns the build that is kept under a key, or `None`.
pub(crate) fn kept_build(store: &Store, key: &Key) -> AllocResult<Option<Arc<Build>>>
    ensures { let kept = kept_under (kept_of store.now) (key_of key.now) in
        IfOk result (λ found. option_map (λ b. built_of (arc_value b)) found ≡ kept) }
{
    match store.get(key) {
        Some(build) => Ok(Some(build.clone()?)),
        None => Ok(None),
    }
}

/// Keeps a build under a key, unless a build is kept under it already.
pub(crate) fn keep(store: &mut Store, key: Key, build: Arc<Build>) -> AllocResult
    ensures ok { let built = built_of (arc_value build) in
        let more = keep_build (kept_of store.old) (key_of key) built in
        OnOk result (kept_of store.new ≡ more) }
    ensures err { OnErr result (kept_of store.new ≡ kept_of store.old) }
{
    if !store.contains_key(&key) {
        store.insert(key, build)?;
    }
    Ok(())
}

/// Forgets the builds of the modules with these names.
pub(crate) fn forget(store: &mut Store, gone: &NameSet)
    ensures { kept_of store.new ≡ forget (contains_text gone.now) (kept_of store.old) }
{
    store.retain(
        |key: &Key, build: &mut Arc<Build>| -> bool
            ensures { let stays = not (contains_text gone.entry.now (string_bytes key.now.name)) in
                (result ≡ stays) × (build.new ≡ build.old) }
        { !gone.contains(key.name.as_str()) },
    );
}
