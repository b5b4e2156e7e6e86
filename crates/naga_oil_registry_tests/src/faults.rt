// The errors of whole shaders by their variants, and the places where their texts begin.
use naga_oil::compose::{
    ComposableModuleDescriptor, Composer, ComposerError, ImportDefinition, NagaModuleDescriptor,
    ShaderDefValue,
};
use naga_oil_mini_front::Mini;
use std::alloc::{AllocError, Global};
use std::process::Abort;
use std::test::Fail;

fn adds<'a>(
    rt: &(impl Abort + AllocGlobal),
    composer: &mut Composer<Mini>,
    source: &'a str,
) -> Result<(), AllocError> {
    let mut desc = ComposableModuleDescriptor::new(rt.alloc());
    desc.source = source;
    assert!(rt; composer.add_composable_module(desc).is_ok());
    Ok(())
}

// A module with this name, with a definition of another name.
fn adds_bound<'a>(
    rt: &(impl Abort + AllocGlobal),
    composer: &mut Composer<Mini>,
    name: &'a str,
    bound: &'a str,
) -> Result<(), AllocError> {
    let mut desc = ComposableModuleDescriptor::new(rt.alloc());
    desc.source = "fn g() = 1";
    desc.as_name = Some(String::from_str(rt.alloc(), name)?);
    let bound = String::from_str(rt.alloc(), bound)?;
    desc.shader_defs.insert(bound, ShaderDefValue::Int(1))?;
    assert!(rt; composer.add_composable_module(desc).is_ok());
    Ok(())
}

// The error of a shader, and the place where its text begins.
fn shown(alloc: Global, refused: Option<ComposerError>) -> Result<String, AllocError> {
    match refused {
        None => String::from_str(alloc, "made"),
        Some(error) => {
            let (inner, offset) = (&error.inner, error.source.offset());
            format!(in alloc; "{inner:?} from {offset}")
        }
    }
}

fn is_refused<'a>(
    rt: &(impl Abort + AllocGlobal),
    composer: &mut Composer<Mini>,
    source: &'a str,
    imports: &'a [ImportDefinition],
    want: &str,
) -> Result<(), AllocError> {
    let alloc = rt.alloc();
    let mut desc = NagaModuleDescriptor::new(alloc);
    desc.source = source;
    desc.additional_imports = imports;
    let refused = composer.make_naga_module(desc).err();
    assert_eq!(rt; shown(alloc, refused)?.as_str(), want);
    Ok(())
}

fn bare_import(alloc: Global, name: &str) -> Result<ImportDefinition, AllocError> {
    Ok(ImportDefinition {
        import: String::from_str(alloc, name)?,
        items: Vec::new(alloc),
    })
}

const CALLS: &str = "#import a\nentry main = a::f(5)";

#[test]
fn refuses_to_override_what_is_not_virtual(rt: HostRuntime) -> Result<(), Fail> {
    let mut composer = Composer::new(rt.alloc(), Mini);
    let plain = "#define_import_path a\nfn f(x) = x + 1";
    let ten = "#define_import_path b\n#import a\noverride fn a::f(x) = a::f(x) + 10";
    adds(&rt, &mut composer, plain)?;
    adds(&rt, &mut composer, ten)?;
    let imports = [bare_import(rt.alloc(), "b")?];
    let want = "OverrideNotVirtual { name: \"f\", pos: 44 } from 0";
    is_refused(&rt, &mut composer, CALLS, &imports, want)?;
    Ok(())
}

#[test]
fn refuses_calls_in_a_circle(rt: HostRuntime) -> Result<(), Fail> {
    let mut composer = Composer::new(rt.alloc(), Mini);
    let base = "#define_import_path a\nvirtual fn f(x) = x + 1";
    let turning = "#define_import_path b\n#import a\nfn h(x) = a::f(x)\noverride fn a::f(x) = h(x)";
    adds(&rt, &mut composer, base)?;
    adds(&rt, &mut composer, turning)?;
    let imports = [bare_import(rt.alloc(), "b")?];
    // The header has a line for the function of a, and one for that of b, which overrides it.
    let want =
        "RedirectError(CircularReference(\"hX_naga_oil_mod_XMIX, fX_naga_oil_vrt_XMEXX_naga_oil_mod_XMIX\")) from 73";
    is_refused(&rt, &mut composer, CALLS, &imports, want)?;
    Ok(())
}

#[test]
fn refuses_wrong_calls(rt: HostRuntime) -> Result<(), Fail> {
    let mut composer = Composer::new(rt.alloc(), Mini);
    adds(&rt, &mut composer, "#define_import_path m\nfn g() = 1")?;
    let top = "#import m\nentry main = m::g(2)";
    let want =
        "ShaderValidationError(ValidFault { message: \"wrong number of arguments\", spans: [(Span { start: 36, end: 72 }, \"call of gX_naga_oil_mod_XNUX\")], notes: [] }) from 26";
    is_refused(&rt, &mut composer, top, &[], want)?;
    Ok(())
}

// The value of a name adds an import that its module doesn't record.
#[test]
fn refuses_what_a_module_does_not_record(rt: HostRuntime) -> Result<(), Fail> {
    let mut composer = Composer::new(rt.alloc(), Mini);
    adds(&rt, &mut composer, "#define_import_path a\nfn f() = 1")?;
    adds(&rt, &mut composer, "#define_import_path m\nfn g() = a::#X")?;
    let top = "#define X 5\nentry main = m::g()";
    let want = "ImportNotFound(\"a\", 0) from 0";
    is_refused(&rt, &mut composer, top, &[], want)?;
    Ok(())
}

// A module that only the second reading imports isn't registered, or has a definition that the first reading didn't merge.
#[test]
fn refuses_what_the_second_reading_may_not_import(rt: HostRuntime) -> Result<(), Fail> {
    let mut composer = Composer::new(rt.alloc(), Mini);
    adds_bound(&rt, &mut composer, "b", "K")?;
    let top = "entry main = b::g()\n#ifdef K\nentry two = c::g()\n#endif";
    let want = "ImportNotFound(\"c\", 41) from 0";
    is_refused(&rt, &mut composer, top, &[], want)?;
    adds_bound(&rt, &mut composer, "c", "L")?;
    is_refused(&rt, &mut composer, top, &[], want)?;
    Ok(())
}
