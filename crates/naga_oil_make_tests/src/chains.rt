// A function that many others override, one module after another.
use super::composing::{adds, shown};
use naga_oil::compose::{Composer, ComposerError, ImportDefinition, NagaModuleDescriptor};
use naga_oil_ir::Module;
use naga_oil_mini_front::Mini;
use std::alloc::{AllocError, Global};
use std::process::Abort;
use std::test::Fail;

const MODULES: usize = 20;

// Modules that override a function, each adding its number.
fn add_all(
    rt: &(impl Abort + AllocGlobal),
    composer: &mut Composer<Mini>,
) -> Result<Vec<ImportDefinition>, AllocError> {
    let alloc = rt.alloc();
    adds(rt, composer, "a", "virtual fn f(x) = x + 1", &[])?;
    let mut imports = Vec::new(alloc);
    for number in 1..=MODULES {
        let name = format!(in alloc; "o{number}")?;
        let source = format!(in alloc; "override fn a::f(x) = a::f(x) + {number}")?;
        adds(rt, composer, name.as_str(), source.as_str(), &[])?;
        imports.push(ImportDefinition {
            import: name,
            items: Vec::new(alloc),
        })?;
    }
    Ok(imports)
}

// The name of the function by which a module overrides it.
fn overriding(alloc: Global, number: usize) -> Result<String, AllocError> {
    let module_name = format!(in alloc; "o{number}")?;
    Composer::<Mini>::decorated_name(alloc, Some(module_name.as_str()), "fX_naga_oil_vrt_XMEX")
}

// Each calls the one before it, the first the base, and the entry point the last.
fn chained(alloc: Global) -> Result<String, AllocError> {
    let mut made = String::from_str(alloc, "fn fX_naga_oil_mod_XMEX(x) = x + 1\n")?;
    let mut before = String::from_str(alloc, "fX_naga_oil_mod_XMEX")?;
    for number in 1..=MODULES {
        let name = overriding(alloc, number)?;
        made.push_str(&format!(in alloc; "fn {name}(x) = {before}(x) + {number}\n")?)?;
        before = name;
    }
    made.push_str(&format!(in alloc; "entry main = {before}(5)\n")?)?;
    Ok(made)
}

fn makes_chained(
    rt: &(impl Abort + AllocGlobal),
    composer: &mut Composer<Mini>,
    imports: &[ImportDefinition],
) -> Result<(), AllocError> {
    let mut desc = NagaModuleDescriptor::new(rt.alloc());
    desc.source = "entry main = a::f(5)";
    desc.file_path = "top";
    desc.additional_imports = imports;
    let made = composer.make_naga_module(desc);
    is_chained(rt, composer, &made)
}

fn is_chained(
    rt: &(impl Abort + AllocGlobal),
    composer: &Composer<Mini>,
    made: &Result<Module, ComposerError>,
) -> Result<(), AllocError> {
    let text = shown(rt.alloc(), composer, made)?;
    let wanted = chained(rt.alloc())?;
    assert_eq!(rt; text, wanted);
    Ok(())
}

#[test]
fn sends_calls_down_twenty_modules(rt: HostRuntime) -> Result<(), Fail> {
    let mut composer = Composer::new(rt.alloc(), Mini);
    let imports = add_all(&rt, &mut composer)?;
    makes_chained(&rt, &mut composer, imports.as_slice())?;
    Ok(())
}
