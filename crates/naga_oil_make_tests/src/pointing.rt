// The error of a validator is in the module of its last span, if that module is reachable.
ghost use Rattle.std.specs.Prelude.{◌≡◌, [], ◌∷◌, IfOk, option_map, unwrap_or};
ghost use Rattle.naga_oil_ir.specs.Backend.{valid_fault};

use naga_oil::compose::{
    ComposableModuleDescriptor, Composer, NagaModuleDescriptor, ShaderDefValue,
};
use naga_oil_ir::{
    Backend, BackendRefusal, Capabilities, Module, ParseFault, ShaderLanguage, Span, ValidFault,
    WriteFault,
};
use naga_oil_mini_front::Mini;
use std::alloc::{AllocError, Global};
use std::process::Abort;
use std::test::Fail;

// Mini, except that a module with entry points is invalid, with an error at this span.
#[derive(Drop)]
struct Pointing {
    span: Option<Span>,
}

fn pointed(alloc: Global, span: Option<Span>) -> Result<ValidFault, AllocError>
    ensures { IfOk result (λ f. valid_fault f ≡ record {
      message = [];
      spans = unwrap_or (option_map (λ s. (s, []) ∷ []) span) [];
      notes = [];
    }) }
{
    let mut spans = Vec::new(alloc);
    if let Some(span) = span {
        spans.push((span, String::new(alloc)))?;
    }
    Ok(ValidFault {
        message: String::new(alloc),
        spans,
        notes: Vec::new(alloc),
    })
}

impl Backend for Pointing {
    ghost use Rattle.std.specs.Prelude.{[], ◌∷◌, ◌==◌, if◌then◌else◌, length, Ok, Err, option_map, unwrap_or};
    ghost use Rattle.naga_oil_mini_front.specs.Front.{mini};

    ghost front = { λ p. record {
      parse = mini.parse;
      write = mini.write;
      valid = λ m capabilities.
          if length m.entry_points == 0 then Ok tt
          else Err (record {
            message = [];
            spans = unwrap_or (option_map (λ s. (s, []) ∷ []) p.span) [];
            notes = [];
          });
    } };

    fn parse(
        &self,
        alloc: Global,
        language: ShaderLanguage,
        text: &str,
    ) -> Result<Module, BackendRefusal<ParseFault>> {
        Mini.parse(alloc, language, text)
    }

    fn write(
        &self,
        alloc: Global,
        module_: &Module,
        language: ShaderLanguage,
        capabilities: Capabilities,
    ) -> Result<String, BackendRefusal<WriteFault>> {
        Mini.write(alloc, module_, language, capabilities)
    }

    fn validate(
        &self,
        alloc: Global,
        module_: &Module,
        _capabilities: Capabilities,
    ) -> Result<(), BackendRefusal<ValidFault>> {
        if module_.entry_points.is_empty() {
            return Ok(());
        }
        let fault = pointed(alloc, self.span)?;
        Err(BackendRefusal::Fault(fault))
    }
}

// Adds a module, bound to K if requested.
fn adds<'a>(
    rt: &(impl Abort + AllocGlobal),
    composer: &mut Composer<Pointing>,
    name: &'a str,
    source: &'a str,
    is_bound: bool,
) -> Result<(), AllocError> {
    let alloc = rt.alloc();
    let mut desc = ComposableModuleDescriptor::new(alloc);
    desc.source = source;
    desc.file_path = name;
    desc.as_name = Some(String::from_str(alloc, name)?);
    if is_bound {
        let k = String::from_str(alloc, "K")?;
        desc.shader_defs.insert(k, ShaderDefValue::Int(1))?;
    }
    assert!(rt; composer.add_composable_module(desc).is_ok());
    Ok(())
}

// The report of a shader that isn't built.
fn told(
    alloc: Global,
    composer: &mut Composer<Pointing>,
    source: &str,
) -> Result<Option<String>, AllocError> {
    let mut desc = NagaModuleDescriptor::new(alloc);
    desc.source = source;
    desc.file_path = "top";
    match composer.make_naga_module(desc).err() {
        None => Ok(None),
        Some(error) => Ok(Some(error.emit_to_string(composer)?)),
    }
}

fn is_told(
    rt: &(impl Abort + AllocGlobal),
    composer: &mut Composer<Pointing>,
    source: &str,
    place: &str,
) -> Result<(), AllocError> {
    let alloc = rt.alloc();
    let want = format!(in alloc; "error: failed to build a valid final module: \n  {place}\n")?;
    assert_eq!(rt; told(alloc, composer, source)?, Some(want));
    Ok(())
}

// A module a, and b that imports it, of which a shader calls a function.
fn is_told_of_two(
    rt: &(impl Abort + AllocGlobal),
    span: Option<Span>,
    place: &str,
) -> Result<(), AllocError> {
    let mut composer = Composer::new(rt.alloc(), Pointing { span });
    adds(rt, &mut composer, "a", "fn g() = 1", false)?;
    adds(rt, &mut composer, "b", "fn h() = a::g()", false)?;
    is_told(rt, &mut composer, "entry main = b::h()", place)
}

#[test]
fn lays_faults_to_modules(rt: HostRuntime) -> Result<(), Fail> {
    for (span, place) in [
        (None, "in top"),
        (Some(Span::UNDEFINED), "at top:1:1"),
        (Some(Span::new(10_485_760, 10_485_760)), "at top:1:1"),
        (
            Some(Span::new(10_485_760 + 58, 10_485_760 + 60)),
            "at top:1:7",
        ),
        (Some(Span::new(52 + 6, 52 + 8)), "at top:1:7"),
        (Some(Span::new(4_194_304 + 29, 4_194_304 + 30)), "at b:1:4"),
        (Some(Span::new(2_097_152 + 3, 2_097_152 + 4)), "at a:1:4"),
    ] {
        is_told_of_two(&rt, span, place)?;
    }
    Ok(())
}

// A module that the first reading alone imports was built too.
#[test]
fn lays_faults_to_what_the_first_reading_imports(rt: HostRuntime) -> Result<(), Fail> {
    let span = Some(Span::new(4_194_304 + 3, 4_194_304 + 4));
    let mut composer = Composer::new(rt.alloc(), Pointing { span });
    adds(&rt, &mut composer, "b", "fn h() = 1", true)?;
    adds(&rt, &mut composer, "c", "fn g() = 1", false)?;
    let top = "entry main = b::h()\n#ifndef K\nentry two = c::g()\n#endif";
    is_told(&rt, &mut composer, top, "at c:1:4")?;
    Ok(())
}

// A module that an earlier make built, and this one doesn't reach, has no part in it.
#[test]
fn lays_no_faults_to_what_is_kept(rt: HostRuntime) -> Result<(), Fail> {
    let span = Some(Span::new(4_194_304 + 29, 4_194_304 + 30));
    let mut composer = Composer::new(rt.alloc(), Pointing { span });
    adds(&rt, &mut composer, "b", "fn h() = 1", false)?;
    adds(
        &rt,
        &mut composer,
        "c",
        "fn g() = 1\nfn k() = 1\nfn l() = 1",
        false,
    )?;
    for (top, place) in [
        ("entry main = c::g()", "at c:3:8"),
        ("entry main = b::h()", "at top:1:4"),
        ("entry main = c::g()", "at c:3:8"),
    ] {
        is_told(&rt, &mut composer, top, place)?;
    }
    Ok(())
}
