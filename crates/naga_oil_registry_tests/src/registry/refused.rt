// Where memory is refused, a result is that with ample memory, or out of memory, and the registry is unchanged. So
// these tests pass whichever allocation is refused.
use naga_oil::compose::{
    ComposableModuleDescriptor, Composer, ComposerError, ComposerErrorInner, ErrSource,
};
use naga_oil_mini_front::Mini;
use std::alloc::{AllocError, Global};

const FIRST: &str = "#define_import_path a\nenable f16;\nfn f(x) = x + #K\r\n@binding(auto)";

const SECOND: &str = "#define_import_path b\n#import a::{f as g}\nfn h(x) = g(x)";

// Whether adding the text returns this index, or is out of memory, and the registry is as the result says.
fn is_added(
    alloc: Global,
    composer: &mut Composer<Mini>,
    source: &str,
    name: &str,
    index: usize,
) -> bool {
    let stood = composer.contains_module(name);
    let mut desc = ComposableModuleDescriptor::new(alloc);
    desc.source = source;
    let refused = composer.add_composable_module(desc).err();
    match refused {
        None => {
            let found = composer.module_at(index);
            found.is_some_and(|found| found.name.as_str() == name)
        }
        Some(error) => error.inner.is_memory() && composer.contains_module(name) == stood,
    }
}

#[test]
fn a_refused_addition_enters_nothing(rt: HostRuntime) {
    let alloc = rt.alloc();
    let mut composer = Composer::new(alloc, Mini);
    assert!(rt; is_added(alloc, &mut composer, FIRST, "a", 1));
    if !composer.contains_module("a") {
        return;
    }
    assert!(rt; is_added(alloc, &mut composer, SECOND, "b", 2));
    assert!(rt; composer.contains_module("a"));
}

#[test]
fn a_refused_removal_drops_nothing(rt: HostRuntime) {
    let alloc = rt.alloc();
    let mut composer = Composer::new(alloc, Mini);
    assert!(rt; is_added(alloc, &mut composer, FIRST, "a", 1));
    if !composer.contains_module("a") {
        return;
    }
    assert!(rt; is_added(alloc, &mut composer, SECOND, "b", 2));
    let had_dependent = composer.contains_module("b");
    // An addition in its place drops the dependent, if it isn't refused.
    let counter = composer.binding_counter();
    assert!(rt; is_added(alloc, &mut composer, "#define_import_path a", "a", 1));
    let stays = composer.contains_module("b");
    assert!(rt; !stays || had_dependent);
    assert!(rt; composer.binding_counter() == counter);
    let removed = composer.remove_composable_module("a").is_ok();
    assert!(rt; composer.contains_module("a") == !removed);
    assert!(rt; composer.contains_module("b") == (stays && !removed));
}

// Whether the error has this number, or is out of memory.
fn is_fault(inner: &ComposerErrorInner, number: u64) -> bool {
    match inner {
        ComposerErrorInner::DecorationInSource(range) => number == 0 && range.start == 2,
        ComposerErrorInner::NoModuleName => number == 1,
        ComposerErrorInner::DefineInModule(at) => number == 2 && *at == 2,
        ComposerErrorInner::ImportNotFound(_, at) => number == 3 && *at == 42,
        ComposerErrorInner::Memory => true,
        _ => false,
    }
}

#[test]
fn a_refused_fault_is_no_other(rt: HostRuntime) {
    let alloc = rt.alloc();
    let mut composer = Composer::new(alloc, Mini);
    for (source, number) in [
        ("f X_naga_oil_vrt_X", 0),
        ("@binding(1)", 1),
        ("a\n#define A", 2),
        ("#define_import_path a\n#import b\nfn f(x) = b::g(x)", 3),
    ] {
        let mut desc = ComposableModuleDescriptor::new(alloc);
        desc.source = source;
        let told = match composer.add_composable_module(desc) {
            Ok(_) => false,
            Err(error) => is_fault(&error.inner, number),
        };
        assert!(rt; told);
    }
    assert!(rt; composer.module_at(1).is_none());
    assert!(rt; composer.binding_counter() == 0);
}

// An error in the module m, at its byte 3.
fn fault_of_m(alloc: Global) -> Result<ComposerError, AllocError> {
    Ok(ComposerError {
        inner: ComposerErrorInner::ImportNotFound(String::from_str(alloc, "a::b")?, 3),
        source: ErrSource::Module {
            name: String::from_str(alloc, "m")?,
            offset: 0,
            defs: std::collections::BTreeMap::new(alloc),
        },
    })
}

#[test]
fn a_refused_report_is_no_other(rt: HostRuntime) {
    let alloc = rt.alloc();
    let Ok(error) = fault_of_m(alloc) else {
        return;
    };
    let mut composer = Composer::new(alloc, Mini);
    assert!(rt; is_added(alloc, &mut composer, "#define_import_path m\n#K", "m", 1));
    let place = if composer.contains_module("m") {
        "  at :1:4\n"
    } else {
        "  at m:1:1\n"
    };
    if let Ok(told) = error.emit_to_string(&composer) {
        assert!(rt; told.as_str().contains(place));
    }
}
