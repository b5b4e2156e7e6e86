// The report of each error.
mod told;

use naga_oil::compose::{
    ComposableModuleDescriptor, Composer, ComposerError, ComposerErrorInner, EnsureImportsError,
    ErrSource, NagaModuleDescriptor, ShaderDefValue,
};
use naga_oil_mini_front::Mini;
use std::alloc::{AllocError, Global};
use std::collections::BTreeMap;
use std::process::Abort;
use std::test::Fail;

type Defs = BTreeMap<String, ShaderDefValue>;

// The file m.txt is added as the module m.
fn adds_m<'a>(
    rt: &(impl Abort + AllocGlobal),
    composer: &mut Composer<Mini>,
    source: &'a str,
) -> Result<(), AllocError> {
    let mut desc = ComposableModuleDescriptor::new(rt.alloc());
    desc.source = source;
    desc.file_path = "m.txt";
    desc.as_name = Some(String::from_str(rt.alloc(), "m")?);
    assert!(rt; composer.add_composable_module(desc).is_ok());
    Ok(())
}

// An error of the module m at its byte 5 under these definitions.
fn in_m(alloc: Global, defs: Defs) -> Result<ComposerError, AllocError> {
    Ok(ComposerError {
        inner: ComposerErrorInner::UnknownShaderDef {
            pos: 5,
            shader_def_name: String::from_str(alloc, "L")?,
        },
        source: ErrSource::Module {
            name: String::from_str(alloc, "m")?,
            offset: 7,
            defs,
        },
    })
}

// The least value of K, or nothing.
fn k_defs(alloc: Global, is_set: bool) -> Result<Defs, AllocError> {
    let mut defs = Defs::new(alloc);
    if is_set {
        let name = String::from_str(alloc, "K")?;
        defs.insert(name, ShaderDefValue::Int(-2147483648))?;
    }
    Ok(defs)
}

// The error of m is at this place, in this text.
fn lies_at(
    rt: &(impl Abort + AllocGlobal),
    composer: &Composer<Mini>,
    is_set: bool,
    text: &str,
    place: &str,
) -> Result<(), AllocError> {
    let alloc = rt.alloc();
    let error = in_m(alloc, k_defs(alloc, is_set)?)?;
    assert_eq!(rt; error.source.offset(), 7);
    let shown = error.source.source(composer)?.into_owned(alloc)?;
    assert_eq!(rt; shown.as_str(), text);
    let want = format!(in alloc; "error: Unknown shader def: 'L'\n  at {place}\n")?;
    assert_eq!(rt; error.emit_to_string(composer)?, want);
    Ok(())
}

fn shows_texts(
    rt: &(impl Abort + AllocGlobal),
    composer: &mut Composer<Mini>,
) -> Result<(), AllocError> {
    adds_m(rt, composer, "#K\nabc")?;
    lies_at(rt, composer, false, "#K\nabc\n", "m.txt:2:3")?;
    lies_at(rt, composer, true, "-2147483648\nabc\n", "m.txt:1:6")?;
    adds_m(rt, composer, "\n#if K == 1\n#endif")?;
    lies_at(rt, composer, false, "", "m.txt:1:1")?;
    let blank = "\n          \n      \n";
    lies_at(rt, composer, true, blank, "m.txt:2:5")?;
    composer.remove_composable_module("m")?;
    lies_at(rt, composer, true, "", "m:1:1")
}

#[test]
fn displays_what_is_wrong(rt: HostRuntime) -> Result<(), Fail> {
    let error = in_m(rt.alloc(), Defs::new(rt.alloc()))?;
    let shown = format!(in rt.alloc(); "{error}")?;
    assert_eq!(rt; shown.as_str(), "Composer error: Unknown shader def: 'L'");
    Ok(())
}

#[test]
fn shows_the_text_of_a_module(rt: HostRuntime) -> Result<(), Fail> {
    let mut composer = Composer::new(rt.alloc(), Mini);
    shows_texts(&rt, &mut composer)?;
    Ok(())
}

// An error has this report, before and after the module m is removed.
fn is_told(
    rt: &(impl Abort + AllocGlobal),
    composer: &mut Composer<Mini>,
    error: &ComposerError,
) -> Result<(), AllocError> {
    assert_eq!(rt; error.source.path(composer), "m.txt");
    let told = error.emit_to_string(composer)?;
    let want = "error: line not understood\n  at m.txt:2:1\n";
    assert_eq!(rt; told.as_str(), want);
    composer.remove_composable_module("m")?;
    assert_eq!(rt; error.source.path(composer), "m");
    let told = error.emit_to_string(composer)?;
    assert_eq!(rt; told.as_str(), "error: line not understood\n  at m:1:1\n");
    Ok(())
}

// A shader is refused for a line of the module m.
fn shows_line(
    rt: &(impl Abort + AllocGlobal),
    composer: &mut Composer<Mini>,
) -> Result<(), AllocError> {
    let mut desc = NagaModuleDescriptor::new(rt.alloc());
    desc.source = "entry main = m::g()";
    desc.file_path = "top.txt";
    let Some(error) = composer.make_naga_module(desc).err() else {
        panic!(rt; "made");
    };
    is_told(rt, composer, &error)?;
    let imports = EnsureImportsError::from(error);
    assert!(rt; matches!(imports, EnsureImportsError::ComposerError(_)));
    Ok(())
}

#[test]
fn shows_a_faulty_line_of_a_module(rt: HostRuntime) -> Result<(), Fail> {
    let mut composer = Composer::new(rt.alloc(), Mini);
    adds_m(&rt, &mut composer, "#define_import_path m\noops")?;
    shows_line(&rt, &mut composer)?;
    Ok(())
}
