// Modules over the front end Palette, which is shown to those who write one.
use naga_oil::compose::{
    Capabilities, ComposableModuleDescriptor, Composer, ComposerError, NagaModuleDescriptor,
    ShaderLanguage,
};
use naga_oil_ir::{Backend, BackendRefusal, Module};
use naga_oil_palette::Palette;
use std::alloc::{AllocError, Global};
use std::process::Abort;
use std::test::Fail;

fn add<'a>(
    alloc: Global,
    composer: &mut Composer<Palette>,
    name: &'a str,
    source: &'a str,
) -> Result<bool, AllocError> {
    let mut desc = ComposableModuleDescriptor::new(alloc);
    desc.source = source;
    desc.file_path = name;
    desc.as_name = Some(String::from_str(alloc, name)?);
    Ok(composer.add_module(desc).is_ok())
}

fn written(alloc: Global, made: &Module) -> Result<String, AllocError> {
    match Palette.write(alloc, made, ShaderLanguage::Wgsl, Capabilities(0)) {
        Ok(text) => Ok(text),
        Err(BackendRefusal::Fault(fault)) => Ok(fault.message),
        Err(BackendRefusal::Memory) => Err(AllocError),
    }
}

// A shader as Palette writes it, or the report of a refusal.
fn shown(
    alloc: Global,
    composer: &Composer<Palette>,
    made: &Result<Module, ComposerError>,
) -> Result<String, AllocError> {
    match made {
        Ok(made) => written(alloc, made),
        Err(error) => error.emit_to_string(composer),
    }
}

// Palettes, and one that takes a colour of another.
fn palettes(
    rt: &(impl Abort + AllocGlobal),
    composer: &mut Composer<Palette>,
) -> Result<(), AllocError> {
    let alloc = rt.alloc();
    let paint = "red\nblue\n";
    let signs = "#import paint\n\nstop = paint::red\n#ifdef DARK\ngo\n#endif\n";
    assert!(rt; add(alloc, composer, "paint", paint)?);
    assert!(rt; add(alloc, composer, "signs", signs)?);
    Ok(())
}

fn makes(
    rt: &(impl Abort + AllocGlobal),
    composer: &mut Composer<Palette>,
    source: &str,
    want: &str,
) -> Result<(), AllocError> {
    let alloc = rt.alloc();
    let mut desc = NagaModuleDescriptor::new(alloc);
    desc.source = source;
    desc.file_path = "top";
    let made = composer.make_naga_module(desc);
    assert_eq!(rt; shown(alloc, composer, &made)?.as_str(), want);
    Ok(())
}

#[test]
fn composes_palettes(rt: HostRuntime) -> Result<(), Fail> {
    let mut composer = Composer::new(rt.alloc(), Palette);
    palettes(&rt, &mut composer)?;
    let made = "redX_naga_oil_mod_XOBQWS3TUX
stopX_naga_oil_mod_XONUWO3TTX = redX_naga_oil_mod_XOBQWS3TUX
door = stopX_naga_oil_mod_XONUWO3TTX
wall
";
    let top = "#import signs::{stop}\ndoor = stop\nwall";
    makes(&rt, &mut composer, top, made)?;
    Ok(())
}

// A wrong line is reported with its place, and so is a colour that there is no room for.
#[test]
fn tells_faults_of_palettes(rt: HostRuntime) -> Result<(), Fail> {
    let mut composer = Composer::new(rt.alloc(), Palette);
    palettes(&rt, &mut composer)?;
    let unknown = "error: no such colour\n  at top:2:1\n";
    makes(
        &rt,
        &mut composer,
        "#import signs\ndoor = signs::go",
        unknown,
    )?;
    let mut composer = composer.with_capabilities(Capabilities(1));
    palettes(&rt, &mut composer)?;
    let header =
        "error: naga_oil bug, please file a report: composer failed to build a valid header: too many colours
  at paint:2:1: no room for this one
";
    makes(&rt, &mut composer, "door = signs::stop", header)?;
    let mut composer = composer.with_capabilities(Capabilities(2));
    palettes(&rt, &mut composer)?;
    let whole = "error: failed to build a valid final module: too many colours
  at top:2:1: no room for this one
";
    makes(&rt, &mut composer, "\ndoor = signs::stop", whole)?;
    Ok(())
}
