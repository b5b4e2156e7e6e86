// The report of each variant of an error.
use naga_oil::compose::{
    Composer, ComposerError, ComposerErrorInner as Inner, ErrSource, ParseFault, ValidFault,
    WriteFault,
};
use naga_oil::redirect::RedirectError;
use naga_oil_ir::Span;
use naga_oil_mini_front::Mini;
use std::alloc::{AllocError, Global};
use std::process::Abort;
use std::test::Fail;

const TEXT: &str = "one\ntwo\r\n\u{e9}three\n";

fn text(alloc: Global, text: &str) -> Result<String, AllocError> {
    String::from_str(alloc, text)
}

// The report of an error in the text.
fn told(alloc: Global, inner: Inner) -> Result<String, AllocError> {
    let (path, source) = (text(alloc, "a.txt")?, text(alloc, TEXT)?);
    let source = ErrSource::Constructing {
        path,
        source,
        offset: 5,
    };
    let error = ComposerError { inner, source };
    error.emit_to_string(&Composer::new(alloc, Mini))
}

fn tells(rt: &(impl Abort + AllocGlobal), inner: Inner, want: &str) -> Result<(), AllocError> {
    let told = told(rt.alloc(), inner)?;
    assert_eq!(rt; told.as_str(), want);
    Ok(())
}

#[test]
fn tells_what_imports_are_wrong(rt: HostRuntime) -> Result<(), Fail> {
    let alloc = rt.alloc();
    tells(
        &rt,
        Inner::ImportParseError(text(alloc, "missing close brace")?, 0),
        "error: missing close brace\n  at a.txt:1:1\n  note: invalid import spec: 'missing close brace'\n",
    )?;
    tells(
        &rt,
        Inner::ImportNotFound(text(alloc, "a::b")?, 3),
        "error: required import 'a::b' not found\n  at a.txt:1:4\n  note: missing import 'a::b'\n",
    )?;
    Ok(())
}

#[test]
fn tells_what_conditions_are_wrong(rt: HostRuntime) -> Result<(), Fail> {
    tells(
        &rt,
        Inner::NotEnoughEndIfs(99),
        "error: Not enough '# endif' lines. Each if statement should be followed by an endif statement.\n  at a.txt:4:1\n",
    )?;
    tells(
        &rt,
        Inner::TooManyEndIfs(4),
        "error: Too many '# endif' lines. Each endif should be preceded by an if statement.\n  at a.txt:2:1\n",
    )?;
    tells(
        &rt,
        Inner::ElseWithoutCondition(8),
        "error: '#else' without preceding condition.\n  at a.txt:2:5\n",
    )?;
    tells(
        &rt,
        Inner::GlslInvalidVersion(4),
        "error: naga oil only supports glsl 440 and 450\n  at a.txt:2:1\n",
    )?;
    Ok(())
}

#[test]
fn tells_what_values_are_wrong(rt: HostRuntime) -> Result<(), Fail> {
    let alloc = rt.alloc();
    tells(
        &rt,
        Inner::UnknownShaderDefOperator {
            pos: 9,
            operator: text(alloc, "!!")?,
        },
        "error: Unknown shader def operator: '!!'\n  at a.txt:3:1\n",
    )?;
    tells(
        &rt,
        Inner::UnknownShaderDef {
            pos: 12,
            shader_def_name: text(alloc, "FO")?,
        },
        "error: Unknown shader def: 'FO'\n  at a.txt:3:4\n",
    )?;
    tells(
        &rt,
        Inner::InvalidShaderDefComparisonValue {
            pos: 0,
            shader_def_name: text(alloc, "T")?,
            expected: text(alloc, "int")?,
            value: text(alloc, "true")?,
        },
        "error: Invalid shader def comparison for 'T': expected int, got true\n  at a.txt:1:1\n",
    )?;
    tells(
        &rt,
        Inner::InconsistentShaderDefValue {
            def: text(alloc, "K")?,
        },
        "error: multiple inconsistent shader def values: 'K'\n  in a.txt\n",
    )?;
    Ok(())
}

#[test]
fn tells_what_lines_are_wrong(rt: HostRuntime) -> Result<(), Fail> {
    let alloc = rt.alloc();
    tells(
        &rt,
        Inner::InvalidShaderDefDefinitionValue {
            name: text(alloc, "A")?,
            value: text(alloc, "x1")?,
            pos: 4,
        },
        "error: Invalid value for `#define`d shader def A: x1\n  at a.txt:2:1\n",
    )?;
    tells(
        &rt,
        Inner::DefineInModule(4),
        "error: #define statements are only allowed at the start of the top-level shaders\n  at a.txt:2:1\n",
    )?;
    tells(
        &rt,
        Inner::InvalidWgslDirective {
            directive: text(alloc, "enable  ;")?,
            position: 18446744073709551615,
            reason: text(alloc, "No extensions specified")?,
        },
        "error: Invalid WGSL directive 'enable  ;' at line 18446744073709551615: No extensions specified\n  at a.txt:18446744073709551616:1\n",
    )?;
    tells(
        &rt,
        Inner::DecorationInSource(4..20),
        "error: source contains internal decoration string, results probably won't be what you expect. if you have a legitimate reason to do this please file a report\n  at a.txt:2:1\n",
    )?;
    Ok(())
}

// Two places of a front end's error, of which one has a text.
fn spans(alloc: Global) -> Result<Vec<(Span, String)>, AllocError> {
    let called = text(alloc, "call of gX_naga_oil_mod_XNUX")?;
    let mut spans = Vec::new(alloc);
    spans.push((Span::new(2097152 + 14, 2097152 + 15), called))?;
    spans.push((Span::UNDEFINED, String::new(alloc)))?;
    Ok(spans)
}

fn notes(alloc: Global) -> Result<Vec<String>, AllocError> {
    let mut notes = Vec::new(alloc);
    notes.push(text(alloc, "more")?)?;
    Ok(notes)
}

fn parse_fault(alloc: Global) -> Result<ParseFault, AllocError> {
    Ok(ParseFault {
        message: text(alloc, "line not understood")?,
        spans: spans(alloc)?,
        notes: notes(alloc)?,
    })
}

fn valid_fault(alloc: Global) -> Result<ValidFault, AllocError> {
    Ok(ValidFault {
        message: text(alloc, "wrong number of arguments")?,
        spans: spans(alloc)?,
        notes: notes(alloc)?,
    })
}

fn write_fault(alloc: Global) -> Result<WriteFault, AllocError> {
    Ok(WriteFault {
        message: text(alloc, "not in Mini")?,
        spans: spans(alloc)?,
        notes: notes(alloc)?,
    })
}

#[test]
fn tells_what_is_not_read_or_written(rt: HostRuntime) -> Result<(), Fail> {
    let alloc = rt.alloc();
    let unread =
        "error: line not understood\n  at a.txt:3:1: call of m::g\n  at a.txt:1:1\n  note: more\n";
    tells(&rt, Inner::WgslParseError(parse_fault(alloc)?), unread)?;
    tells(&rt, Inner::GlslParseError(parse_fault(alloc)?), unread)?;
    tells(
        &rt,
        Inner::WgslBackError(write_fault(alloc)?),
        "error: naga_oil bug, please file a report: failed to convert imported module IR back into WGSL for use with WGSL shaders: not in Mini\n  in a.txt\n",
    )?;
    tells(
        &rt,
        Inner::GlslBackError(write_fault(alloc)?),
        "error: naga_oil bug, please file a report: failed to convert imported module IR back into GLSL for use with GLSL shaders: not in Mini\n  in a.txt\n",
    )?;
    Ok(())
}

#[test]
fn tells_what_is_not_valid(rt: HostRuntime) -> Result<(), Fail> {
    let alloc = rt.alloc();
    tells(
        &rt,
        Inner::HeaderValidationError(valid_fault(alloc)?),
        "error: naga_oil bug, please file a report: composer failed to build a valid header: wrong number of arguments\n  at a.txt:3:1: call of m::g\n  at a.txt:1:1\n  note: more\n",
    )?;
    tells(
        &rt,
        Inner::ShaderValidationError(valid_fault(alloc)?),
        "error: failed to build a valid final module: wrong number of arguments\n  at a.txt:3:1: call of m::g\n  at a.txt:1:1\n  note: more\n",
    )?;
    tells(
        &rt,
        Inner::ShaderValidationError(ValidFault {
            message: text(alloc, "nowhere")?,
            spans: Vec::new(alloc),
            notes: Vec::new(alloc),
        }),
        "error: failed to build a valid final module: nowhere\n  in a.txt\n",
    )?;
    Ok(())
}

#[test]
fn tells_what_overrides_are_wrong(rt: HostRuntime) -> Result<(), Fail> {
    let alloc = rt.alloc();
    tells(
        &rt,
        Inner::OverrideNotVirtual {
            name: text(alloc, "f")?,
            pos: 8,
        },
        "error: override is invalid as `f` is not virtual (this error can be disabled with feature 'override_any')\n  at a.txt:2:5\n",
    )?;
    tells(
        &rt,
        Inner::InvalidIdentifier {
            original: text(alloc, "f")?,
            at: Span::new(9, 10),
        },
        "error: Composable module identifiers must not require substitution according to naga writeback rules: `f`\n  at a.txt:2:1: Composable module identifiers must not require substitution according to naga writeback rules: `f`\n",
    )?;
    Ok(())
}

// The report of a redirection, at the text's start and with a note.
fn tells_redirection(
    rt: &(impl Abort + AllocGlobal),
    error: RedirectError,
    message: &str,
) -> Result<(), AllocError> {
    let want = format!(in rt.alloc();
        "error: invalid override :{message}\n  at a.txt:1:1\n  note: override error\n"
    )?;
    tells(rt, Inner::RedirectError(error), want.as_str())
}

#[test]
fn tells_what_redirections_are_wrong(rt: HostRuntime) -> Result<(), Fail> {
    let alloc = rt.alloc();
    tells_redirection(
        &rt,
        RedirectError::CircularReference(text(
            alloc,
            "hX_naga_oil_mod_XMIX, fX_naga_oil_vrt_XMEXX_naga_oil_mod_XMIX",
        )?),
        "circular reference; can't find an order for : b::h, b::foverride fn a::",
    )?;
    tells_redirection(
        &rt,
        RedirectError::FunctionNotFound(text(alloc, "nopeX_naga_oil_mod_XMEX")?),
        "can't find function a::nope for redirection",
    )?;
    tells_redirection(
        &rt,
        RedirectError::ArgumentMismatch(text(alloc, "r")?, text(alloc, "f")?),
        "r cannot override f due to argument mismatch",
    )?;
    tells_redirection(
        &rt,
        RedirectError::ReturnTypeMismatch(text(alloc, "r")?, text(alloc, "f")?),
        "r cannot override f due to return type mismatch",
    )?;
    tells_redirection(&rt, RedirectError::Memory, "out of memory")?;
    Ok(())
}

#[test]
fn tells_what_has_no_place(rt: HostRuntime) -> Result<(), Fail> {
    for (inner, want) in [
        (
            Inner::NoModuleName,
            "error: Attempted to add a module with no #define_import_path\n  in a.txt\n",
        ),
        (Inner::Memory, "error: out of memory\n  in a.txt\n"),
        (
            Inner::TooManyModules,
            "error: too many modules\n  in a.txt\n",
        ),
        (
            Inner::BindingsExhausted,
            "error: no binding left\n  in a.txt\n",
        ),
        (
            Inner::TextTooLarge,
            "error: shader text too large\n  in a.txt\n",
        ),
        (
            Inner::WrongForm,
            "error: front end gave a module of wrong form\n  in a.txt\n",
        ),
    ] {
        tells(&rt, inner, want)?;
    }
    Ok(())
}
