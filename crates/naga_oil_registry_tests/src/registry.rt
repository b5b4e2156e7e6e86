// Modules added, found and removed, and why an add is refused.
mod refused;

use naga_oil::compose::{
    Capabilities, ComposableModuleDescriptor, Composer, ImportDefinition, NagaModuleDescriptor,
    OwnedShaderDefs, ShaderDefValue, ShaderLanguage, ShaderType,
};
use naga_oil_mini_front::Mini;
use naga_oil_registry::sanitize::read_source;
use std::alloc::{AllocError, Global};
use std::collections::BTreeMap;
use std::process::Abort;
use std::test::Fail;

// The result of adding a module, under a name or, without one, under its import path: its name and its text, or the error.
fn added<'a>(
    alloc: Global,
    composer: &mut Composer<Mini>,
    name: &'a str,
    source: &'a str,
) -> Result<String, AllocError> {
    let mut desc = ComposableModuleDescriptor::new(alloc);
    desc.source = source;
    desc.file_path = "m.txt";
    if !name.is_empty() {
        desc.as_name = Some(String::from_str(alloc, name)?);
    }
    match composer.add_composable_module(desc) {
        Ok(module_) => {
            let name = &module_.name;
            let source = &module_.sanitized_source;
            format!(in alloc; "{name} {source:?}")
        }
        Err(error) => format!(in alloc; "{error:?}"),
    }
}

fn adds<'a>(
    rt: &(impl Abort + AllocGlobal),
    composer: &mut Composer<Mini>,
    name: &'a str,
    source: &'a str,
    want: &str,
) -> Result<(), AllocError> {
    let told = added(rt.alloc(), composer, name, source)?;
    assert_eq!(rt; told.as_str(), want);
    Ok(())
}

#[test]
fn reads_line_ends_and_bindings(rt: HostRuntime) -> Result<(), Fail> {
    let mut composer = Composer::new(rt.alloc(), Mini);
    let source = "x\r\ny\rz @binding(auto)";
    adds(
        &rt,
        &mut composer,
        "m",
        source,
        "m \"x\\ny\\nz @binding(0)\"",
    )?;
    assert_eq!(rt; composer.binding_counter(), 1);
    Ok(())
}

// A source as it is read, with the counter after it, or the error.
fn read(alloc: Global, source: &str, counter: u32) -> Result<String, AllocError> {
    let read = read_source(alloc, source, counter);
    format!(in alloc; "{read:?}")
}

#[test]
fn gives_the_last_binding(rt: HostRuntime) -> Result<(), Fail> {
    let last = 4_294_967_294;
    for (source, want) in [
        (
            "@binding(auto)",
            "Ok((\"@binding(4294967294)\\n\", 4294967295))",
        ),
        ("@binding(auto)@binding(auto)", "Err(BindingsExhausted)"),
    ] {
        assert_eq!(rt; read(rt.alloc(), source, last)?.as_str(), want);
    }
    Ok(())
}

// Adds a, and b and c that import it.
fn add_three(
    rt: &(impl Abort + AllocGlobal),
    composer: &mut Composer<Mini>,
) -> Result<(), AllocError> {
    for (source, want) in [
        (
            "#define_import_path a\nvirtual fn f(x) = x + 1",
            "a \"#define_import_path a\\nvirtual fn f(x) = x + 1\"",
        ),
        (
            "#define_import_path b\n#import a\noverride fn a::f(x) = a::f(x) + 10",
            "b \"#define_import_path b\\n#import a\\noverride fn a::f(x) = a::f(x) + 10\"",
        ),
        (
            "#define_import_path c\n#import a\noverride fn a::f(x) = a::f(x) + 100",
            "c \"#define_import_path c\\n#import a\\noverride fn a::f(x) = a::f(x) + 100\"",
        ),
    ] {
        adds(rt, composer, "", source, want)?;
    }
    Ok(())
}

// What is registered at an index.
fn standing(alloc: Global, composer: &Composer<Mini>, index: usize) -> Result<String, AllocError> {
    let Some(module_) = composer.module_at(index) else {
        return Ok(String::new(alloc));
    };
    let (name, path, source) = (&module_.name, &module_.file_path, &module_.sanitized_source);
    let defs = &module_.shader_defs;
    format!(in alloc; "{name} {path} {source:?} {defs:?}")
}

fn has_three(rt: &(impl Abort + AllocGlobal), composer: &Composer<Mini>) -> Result<(), AllocError> {
    for (index, want) in [
        (
            1,
            "a m.txt \"#define_import_path a\\nvirtual fn f(x) = x + 1\" {}",
        ),
        (
            2,
            "b m.txt \"#define_import_path b\\n#import a\\noverride fn a::f(x) = a::f(x) + 10\" {}",
        ),
        (
            3,
            "c m.txt \"#define_import_path c\\n#import a\\noverride fn a::f(x) = a::f(x) + 100\" {}",
        ),
        (4, ""),
    ] {
        assert_eq!(rt; standing(rt.alloc(), composer, index)?.as_str(), want);
    }
    Ok(())
}

#[test]
fn imports_no_dependent(rt: HostRuntime) -> Result<(), Fail> {
    let mut composer = Composer::new(rt.alloc(), Mini);
    add_three(&rt, &mut composer)?;
    for (source, want) in [
        (
            "#define_import_path a\n#import b\nfn f(x) = b::g(x)",
            "ComposerError { inner: ImportNotFound(\"b\", 42), source: Constructing { path: \"m.txt\", source: \"#define_import_path a\\n#import b\\nfn f(x) = b::g(x)\\n\", offset: 0 } }",
        ),
        (
            "#define_import_path a\r\n#import a\nfn f(x) = a::g(x)",
            "ComposerError { inner: ImportNotFound(\"a\", 42), source: Constructing { path: \"m.txt\", source: \"#define_import_path a\\n#import a\\nfn f(x) = a::g(x)\\n\", offset: 0 } }",
        ),
    ] {
        adds(&rt, &mut composer, "", source, want)?;
    }
    has_three(&rt, &composer)?;
    Ok(())
}

fn contains(rt: &impl Abort, composer: &Composer<Mini>, wanted: bool) {
    for name in ["a", "b", "c"] {
        assert_eq!(rt; composer.contains_module(name), wanted, "{name}");
        assert_eq!(rt; composer.module(name).is_some(), wanted, "{name}");
    }
}

#[test]
fn dependents_go_with_a_module(rt: HostRuntime) -> Result<(), Fail> {
    let mut composer = Composer::new(rt.alloc(), Mini);
    add_three(&rt, &mut composer)?;
    composer.remove_composable_module("d")?;
    contains(&rt, &composer, true);
    composer.remove_composable_module("a")?;
    contains(&rt, &composer, false);
    Ok(())
}

#[test]
fn settings_are_those_given(rt: HostRuntime) -> Result<(), Fail> {
    let mut composer = Composer::new(rt.alloc(), Mini);
    assert!(rt; composer.validate());
    assert_eq!(rt; composer.capabilities().0, 0);
    assert!(rt; !composer.override_any());
    add_three(&rt, &mut composer)?;
    let bare = composer.with_capabilities(Capabilities(3));
    assert_eq!(rt; bare.capabilities().0, 3);
    assert!(rt; bare.validate());
    assert!(rt; !bare.override_any());
    contains(&rt, &bare, false);
    Ok(())
}

// Each setting keeps the others.
#[test]
fn settings_keep_one_another(rt: HostRuntime) -> Result<(), Fail> {
    let mut composer = Composer::non_validating(rt.alloc(), Mini).with_capabilities(Capabilities(
        3,
    ));
    add_three(&rt, &mut composer)?;
    let any = composer.with_override_any(true);
    assert!(rt; any.override_any());
    assert!(rt; !any.validate());
    assert_eq!(rt; any.capabilities().0, 3);
    contains(&rt, &any, false);
    let capable = any.with_capabilities(Capabilities(4));
    assert!(rt; capable.override_any());
    assert!(rt; !capable.with_override_any(false).override_any());
    Ok(())
}

#[test]
fn starts_with_nothing(rt: HostRuntime) -> Result<(), Fail> {
    let alloc = rt.alloc();
    let composer = Composer::non_validating(alloc, Mini);
    assert!(rt; !composer.validate());
    assert!(rt; composer.module_at(1).is_none());
    assert_eq!(rt; composer.binding_counter(), 0);
    let name = Composer::<Mini>::decorated_name(alloc, Some("a"), "f")?;
    assert_eq!(rt; name.as_str(), "fX_naga_oil_mod_XMEX");
    Ok(())
}

#[test]
fn asks_for_nothing(rt: HostRuntime) -> Result<(), Fail> {
    let alloc = rt.alloc();
    let shader_type = NagaModuleDescriptor::new(alloc).shader_type;
    for (shader_type, language) in [
        (shader_type, ShaderLanguage::Wgsl),
        (ShaderType::GlslVertex, ShaderLanguage::Glsl),
        (ShaderType::GlslFragment, ShaderLanguage::Glsl),
    ] {
        assert_eq!(rt; ShaderLanguage::from(shader_type), language);
    }
    let defs = OwnedShaderDefs::new(alloc);
    assert!(rt; defs.try_clone()? == defs);
    Ok(())
}

fn is_at(rt: &impl Abort, composer: &Composer<Mini>, index: usize, name: &str) {
    let found = composer.module_at(index);
    assert!(rt;
        found.is_some_and(|found| found.name.as_str() == name),
        "{name} at {index}"
    );
}

// The modules m1 to m2047 have the indices 1 to 2047.
fn fill(rt: &(impl Abort + AllocGlobal), composer: &mut Composer<Mini>) -> Result<(), AllocError> {
    let alloc = rt.alloc();
    for number in 1..2048u32 {
        let name = format!(in alloc; "m{number}")?;
        let want = format!(in alloc; "m{number} \"\"")?;
        adds(rt, composer, name.as_str(), "", want.as_str())?;
        is_at(rt, composer, number as usize, name.as_str());
    }
    Ok(())
}

#[test]
fn gives_the_smallest_free_index(rt: HostRuntime) -> Result<(), Fail> {
    let mut composer = Composer::new(rt.alloc(), Mini);
    fill(&rt, &mut composer)?;
    for (name, want) in [
        (
            "m2048",
            "ComposerError { inner: TooManyModules, source: Constructing { path: \"m.txt\", source: \"\\n\", offset: 0 } }",
        ),
        ("m7", "m7 \"\""),
    ] {
        adds(&rt, &mut composer, name, "", want)?;
    }
    is_at(&rt, &composer, 7, "m7");
    Ok(())
}

#[test]
fn refuses_marks_and_missing_names(rt: HostRuntime) -> Result<(), Fail> {
    let mut composer = Composer::new(rt.alloc(), Mini);
    for (source, want, counter) in [
        (
            "f X_naga_oil_vrt_X X_naga_oil_mod_X",
            "ComposerError { inner: DecorationInSource(2..18), source: Constructing { path: \"m.txt\", source: \"f X_naga_oil_vrt_X X_naga_oil_mod_X\", offset: 0 } }",
            0,
        ),
        (
            "@binding(auto)",
            "ComposerError { inner: NoModuleName, source: Constructing { path: \"m.txt\", source: \"@binding(auto)\", offset: 0 } }",
            1,
        ),
        (
            "a\r\n#define A",
            "ComposerError { inner: DefineInModule(2), source: Constructing { path: \"m.txt\", source: \"a\\r\\n#define A\", offset: 0 } }",
            1,
        ),
        (
            "#define_import_path a\n#import z\nz::f @binding(auto)",
            "ComposerError { inner: ImportNotFound(\"z\", 32), source: Constructing { path: \"m.txt\", source: \"#define_import_path a\\n#import z\\nz::f @binding(1)\\n\", offset: 0 } }",
            2,
        ),
    ] {
        adds(&rt, &mut composer, "", source, want)?;
        assert_eq!(rt; composer.binding_counter(), counter);
        assert!(rt; composer.module_at(1).is_none());
    }
    Ok(())
}

// A definition of K.
fn k_defs(alloc: Global, value: i32) -> Result<BTreeMap<String, ShaderDefValue>, AllocError> {
    let mut defs = BTreeMap::new(alloc);
    defs.insert(String::from_str(alloc, "K")?, ShaderDefValue::Int(value))?;
    Ok(defs)
}

// The report of a module that isn't added, with a definition of K and additional imports.
fn refusal<'a>(
    alloc: Global,
    composer: &mut Composer<Mini>,
    source: &'a str,
    value: i32,
    imports: &'a [ImportDefinition],
) -> Result<Option<String>, AllocError> {
    let mut desc = ComposableModuleDescriptor::new(alloc);
    desc.source = source;
    desc.shader_defs = k_defs(alloc, value)?;
    desc.additional_imports = imports;
    match composer.add_composable_module(desc).err() {
        None => Ok(None),
        Some(error) => Ok(Some(error.emit_to_string(composer)?)),
    }
}

fn takes_over(
    rt: &(impl Abort + AllocGlobal),
    composer: &mut Composer<Mini>,
    imports: &[ImportDefinition],
) -> Result<(), AllocError> {
    let alloc = rt.alloc();
    let first = "#define_import_path a\nfn f() = #K";
    assert_eq!(rt; refusal(alloc, composer, first, 1, &[])?, None);
    let second = "#define_import_path b\nfn g() = #L";
    assert_eq!(rt; refusal(alloc, composer, second, 2, imports)?, None);
    let shown = standing(alloc, composer, 2)?;
    let want = "b  \"#define_import_path b\\nfn g() = #L\" {\"K\": Int(1)}";
    assert_eq!(rt; shown.as_str(), want);
    composer.remove_composable_module("a")?;
    let told = refusal(alloc, composer, "#define_import_path c", 3, imports)?;
    let want = "error: required import 'a' not found\n  at :1:1\n  note: missing import 'a'\n";
    assert_eq!(rt; told.as_deref(), Some(want));
    Ok(())
}

#[test]
fn takes_over_from_imports(rt: HostRuntime) -> Result<(), Fail> {
    let alloc = rt.alloc();
    let mut composer = Composer::new(alloc, Mini);
    let imports = [ImportDefinition {
        import: String::from_str(alloc, "a")?,
        items: Vec::new(alloc),
    }];
    takes_over(&rt, &mut composer, &imports)?;
    Ok(())
}
