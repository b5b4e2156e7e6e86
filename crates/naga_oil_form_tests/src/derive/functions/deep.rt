//! Deep calls: a chain of functions, each of which calls the one before it, is copied without the machine's stack.
use super::*;

/// The number of functions in the chain.
const LENGTH: usize = 100_000;

fn caller(place: usize, alloc: Global) -> Result<Function, AllocError> {
    let mut function = Function {
        name: Some(format!(in alloc; "f{place}")?),
        arguments: Vec::new(alloc),
        result: None,
        local_variables: Arena::new(alloc),
        expressions: Arena::new(alloc),
        named_expressions: NamedExpressions::new(),
        body: Block {
            body: Vec::new(alloc),
        },
        diagnostic_filter_leaf: None,
    };
    if place > 0 {
        add_call(&mut function, place - 1, alloc)?;
    }
    Ok(function)
}

fn chain(alloc: Global) -> Result<Module, AllocError> {
    let mut module = Module::new(alloc);
    for place in 0..LENGTH {
        module.functions.append(caller(place, alloc)?, NONE)?;
    }
    Ok(module)
}

/// Whether the last function of the chain is copied last, after all the others.
fn is_copied(source: &Module, alloc: Global) -> bool {
    let mut derived = DerivedModule::new(alloc);
    is_set(&mut derived, source, 0, 1, alloc)
        && matches!(mapped(&mut derived, LENGTH - 1, alloc), Ok(place) if place == LENGTH - 1)
}

#[test]
fn a_hundred_thousand_calls_deep(rt: HostRuntime) -> Result<(), Fail> {
    let source = chain(rt.alloc())?;
    holds(is_copied(&source, rt.alloc()))
}
