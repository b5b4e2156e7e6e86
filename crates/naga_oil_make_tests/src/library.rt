// The example of the README, line by line: what a program does with a composer.
use naga_oil::compose::{
    Capabilities, ComposableModuleDescriptor, Composer, ComposerErrorInner, NagaModuleDescriptor,
    ShaderDefValue, ShaderLanguage,
};
use naga_oil_ir::{Backend, BackendRefusal, Module};
use naga_oil_mini_front::Mini;
use std::alloc::{AllocError, Global};
use std::collections::BTreeMap;
use std::process::Abort;
use std::test::Fail;

type Defs = BTreeMap<String, ShaderDefValue>;

fn steps(alloc: Global, count: i32) -> Result<Defs, AllocError> {
    let mut defs = BTreeMap::new(alloc);
    let name = String::from_str(alloc, "STEPS")?;
    defs.insert(name, ShaderDefValue::Int(count))?;
    Ok(defs)
}

fn written(alloc: Global, made: &Module) -> Result<String, AllocError> {
    match Mini.write(alloc, made, ShaderLanguage::Wgsl, Capabilities(0)) {
        Ok(text) => Ok(text),
        Err(BackendRefusal::Fault(fault)) => Ok(fault.message),
        Err(BackendRefusal::Memory) => Err(AllocError),
    }
}

// Adds a module, or returns the report of a refusal.
fn add<'a>(
    alloc: Global,
    composer: &mut Composer<Mini>,
    path: &'a str,
    source: &'a str,
) -> Result<String, AllocError> {
    let mut desc = ComposableModuleDescriptor::new(alloc);
    desc.file_path = path;
    desc.source = source;
    match composer.add_module(desc) {
        Ok(index) => format!(in alloc; "{path} is module {index}\n"),
        Err(error) => error.emit_to_string(composer),
    }
}

// Builds a shader, or returns the report of a refusal.
fn make(
    alloc: Global,
    composer: &mut Composer<Mini>,
    source: &str,
    defs: Defs,
) -> Result<String, AllocError> {
    let mut desc = NagaModuleDescriptor::new(alloc);
    desc.file_path = "top.txt";
    desc.source = source;
    desc.shader_defs = defs;
    let error = match composer.make_naga_module(desc) {
        Ok(made) => return written(alloc, &made),
        Err(error) => error,
    };
    match &error.inner {
        ComposerErrorInner::Memory => Err(AllocError),
        ComposerErrorInner::ImportNotFound(name, _) => format!(in alloc; "{name} is to be added\n"),
        _ => error.emit_to_string(composer),
    }
}

// Builds a shader for each of three values, and returns which of them need the module built.
fn variants(
    alloc: Global,
    composer: &mut Composer<Mini>,
    source: &str,
) -> Result<String, AllocError> {
    let mut told = String::new(alloc);
    for count in 1..4 {
        let defs = steps(alloc, count)?;
        if !composer.has_build("light", &defs) {
            told.push_str(&format!(in alloc; "light is built for {count}\n")?)?;
        }
        make(alloc, composer, source, defs)?;
    }
    Ok(told)
}

// Builds a shader before and after its import is added, and then for each of three values.
fn builds(alloc: Global, composer: &mut Composer<Mini>, top: &str) -> Result<String, AllocError> {
    let light = "#define_import_path light\nfn shade(x) = x + #STEPS\n";
    let mut told = make(alloc, composer, top, steps(alloc, 2)?)?;
    told.push_str(&add(alloc, composer, "light.txt", light)?)?;
    told.push_str(&make(alloc, composer, top, steps(alloc, 2)?)?)?;
    told.push_str(&variants(alloc, composer, top)?)?;
    Ok(told)
}

// The file has changed: it is added again, and its builds are removed.
fn changes(alloc: Global, composer: &mut Composer<Mini>, top: &str) -> Result<String, AllocError> {
    let light = "#define_import_path light\nfn shade(x, y) = x + y + #STEPS\n";
    let mut told = add(alloc, composer, "light.txt", light)?;
    told.push_str(&make(alloc, composer, top, steps(alloc, 2)?)?)?;
    Ok(told)
}

fn example(alloc: Global) -> Result<String, AllocError> {
    let mut composer = Composer::new(alloc, Mini);
    let top = "#import light::{shade}\nentry main = shade(5)\n";
    let mut told = builds(alloc, &mut composer, top)?;
    told.push_str(&changes(alloc, &mut composer, top)?)?;
    Ok(told)
}

#[test]
fn runs_the_example(rt: HostRuntime) -> Result<(), Fail> {
    let told = "light is to be added
light.txt is module 1
fn shadeX_naga_oil_mod_XNRUWO2DUX(x) = x + 2
entry main = shadeX_naga_oil_mod_XNRUWO2DUX(5)
light is built for 1
light is built for 3
light.txt is module 1
error: failed to build a valid final module: wrong number of arguments
  at top.txt:2:1: call of light::shade
";
    assert_eq!(&rt; example(rt.alloc())?.as_str(), told);
    Ok(())
}
