//! Types that nest deep: each of which points at the one before it, and they are copied without the machine's stack.
use super::*;

/// The number of pointer types.
const DEPTH: usize = 10_000;

fn insert(types: &mut UniqueArena<Type>, inner: TypeInner) -> Result<(), AllocError> {
    types.insert(Type { name: None, inner }, NONE)?;
    Ok(())
}

fn nested(alloc: Global) -> Result<Module, AllocError> {
    let mut module = Module::new(alloc);
    insert(&mut module.types, TypeInner::Scalar(1))?;
    for place in 0..DEPTH {
        let base = Index::new(place);
        insert(&mut module.types, TypeInner::Pointer { base, space: 0 })?;
    }
    Ok(module)
}

/// Whether the last type is copied last, after all the others.
fn is_copied(source: &Module, alloc: Global) -> Result<bool, AllocError> {
    let mut derived = DerivedModule::new(alloc);
    set(&mut derived, source, 0, alloc)?;
    let last = Index::new(DEPTH);
    if !has(&derived, ItemPlace::TypeItem(last)) {
        return Ok(false);
    }
    Ok(derived.import_type(&last)?.index() == DEPTH)
}

#[test]
fn ten_thousand_types_deep(rt: HostRuntime) -> Result<(), Fail> {
    let source = nested(rt.alloc())?;
    holds(is_copied(&source, rt.alloc())?)
}
