use naga_oil_ir::{ParseFault, RedirectError, Span, ValidFault, WriteFault};
use naga_oil_pre::ComposerErrorInner;
use std::alloc::{AllocError, Global};
use std::test::Fail;

fn text_of(
    alloc: Global,
    error: Result<ComposerErrorInner, AllocError>,
) -> Result<String, AllocError> {
    let error = error?;
    format!(in alloc; "{error}")
}

// Whether an error has this text.
fn says(alloc: Global, error: Result<ComposerErrorInner, AllocError>, want: &str) -> bool {
    match text_of(alloc, error) {
        Ok(text) => text.as_str() == want,
        Err(_) => false,
    }
}

fn parse_fault(alloc: Global, message: &str) -> Result<ParseFault, AllocError> {
    Ok(ParseFault {
        message: String::from_str(alloc, message)?,
        spans: Vec::new(alloc),
        notes: Vec::new(alloc),
    })
}

fn write_fault(alloc: Global, message: &str) -> Result<WriteFault, AllocError> {
    Ok(WriteFault {
        message: String::from_str(alloc, message)?,
        spans: Vec::new(alloc),
        notes: Vec::new(alloc),
    })
}

fn valid_fault(alloc: Global, message: &str) -> Result<ValidFault, AllocError> {
    Ok(ValidFault {
        message: String::from_str(alloc, message)?,
        spans: Vec::new(alloc),
        notes: Vec::new(alloc),
    })
}

fn unknown_shader_def_operator(alloc: Global) -> Result<ComposerErrorInner, AllocError> {
    Ok(ComposerErrorInner::UnknownShaderDefOperator {
        pos: 1,
        operator: String::from_str(alloc, "!!")?,
    })
}

fn unknown_shader_def(alloc: Global) -> Result<ComposerErrorInner, AllocError> {
    Ok(ComposerErrorInner::UnknownShaderDef {
        pos: 1,
        shader_def_name: String::from_str(alloc, "FO")?,
    })
}

fn invalid_shader_def_comparison_value(alloc: Global) -> Result<ComposerErrorInner, AllocError> {
    Ok(ComposerErrorInner::InvalidShaderDefComparisonValue {
        pos: 1,
        shader_def_name: String::from_str(alloc, "T")?,
        expected: String::from_str(alloc, "int")?,
        value: String::from_str(alloc, "true")?,
    })
}

fn invalid_shader_def_definition_value(alloc: Global) -> Result<ComposerErrorInner, AllocError> {
    Ok(ComposerErrorInner::InvalidShaderDefDefinitionValue {
        name: String::from_str(alloc, "A")?,
        value: String::from_str(alloc, "x1")?,
        pos: 1,
    })
}

fn invalid_wgsl_directive(alloc: Global) -> Result<ComposerErrorInner, AllocError> {
    Ok(ComposerErrorInner::InvalidWgslDirective {
        directive: String::from_str(alloc, "enable  ;")?,
        position: 2,
        reason: String::from_str(alloc, "No extensions specified")?,
    })
}

fn wgsl_parse_error(alloc: Global) -> Result<ComposerErrorInner, AllocError> {
    Ok(ComposerErrorInner::WgslParseError(parse_fault(alloc, "odd token")?))
}

fn glsl_parse_error(alloc: Global) -> Result<ComposerErrorInner, AllocError> {
    Ok(ComposerErrorInner::GlslParseError(parse_fault(alloc, "odd token")?))
}

fn wgsl_back_error(alloc: Global) -> Result<ComposerErrorInner, AllocError> {
    Ok(ComposerErrorInner::WgslBackError(write_fault(alloc, "no text")?))
}

fn glsl_back_error(alloc: Global) -> Result<ComposerErrorInner, AllocError> {
    Ok(ComposerErrorInner::GlslBackError(write_fault(alloc, "no text")?))
}

fn header_validation_error(alloc: Global) -> Result<ComposerErrorInner, AllocError> {
    Ok(ComposerErrorInner::HeaderValidationError(valid_fault(alloc, "no type")?))
}

fn shader_validation_error(alloc: Global) -> Result<ComposerErrorInner, AllocError> {
    Ok(ComposerErrorInner::ShaderValidationError(valid_fault(alloc, "no type")?))
}

fn import_parse_error(alloc: Global) -> Result<ComposerErrorInner, AllocError> {
    Ok(ComposerErrorInner::ImportParseError(String::from_str(alloc, "unexpected token")?, 1))
}

fn import_not_found(alloc: Global) -> Result<ComposerErrorInner, AllocError> {
    Ok(ComposerErrorInner::ImportNotFound(String::from_str(alloc, "a::b")?, 1))
}

fn inconsistent_shader_def_value(alloc: Global) -> Result<ComposerErrorInner, AllocError> {
    Ok(ComposerErrorInner::InconsistentShaderDefValue {
        def: String::from_str(alloc, "K")?,
    })
}

fn function_not_found(alloc: Global) -> Result<ComposerErrorInner, AllocError> {
    Ok(ComposerErrorInner::from(RedirectError::FunctionNotFound(String::from_str(alloc, "f")?)))
}

fn override_not_virtual(alloc: Global) -> Result<ComposerErrorInner, AllocError> {
    Ok(ComposerErrorInner::OverrideNotVirtual {
        name: String::from_str(alloc, "f")?,
        pos: 1,
    })
}

fn invalid_identifier(alloc: Global) -> Result<ComposerErrorInner, AllocError> {
    Ok(ComposerErrorInner::InvalidIdentifier {
        original: String::from_str(alloc, "f")?,
        at: Span::UNDEFINED,
    })
}

#[test]
fn says_what_is_wrong(rt: HostRuntime) -> Result<(), Fail> {
    let alloc = rt.alloc();
    let holds = says(
        alloc,
        Ok(ComposerErrorInner::NotEnoughEndIfs(1)),
        "Not enough '# endif' lines. Each if statement should be followed by an endif statement.",
    ) && says(
        alloc,
        Ok(ComposerErrorInner::TooManyEndIfs(1)),
        "Too many '# endif' lines. Each endif should be preceded by an if statement.",
    ) && says(
        alloc,
        Ok(ComposerErrorInner::ElseWithoutCondition(1)),
        "'#else' without preceding condition.",
    ) && says(
        alloc,
        unknown_shader_def_operator(alloc),
        "Unknown shader def operator: '!!'",
    ) && says(alloc, unknown_shader_def(alloc), "Unknown shader def: 'FO'")
        && says(
            alloc,
            invalid_shader_def_comparison_value(alloc),
            "Invalid shader def comparison for 'T': expected int, got true",
        );
    if holds {
        Ok(())
    } else {
        Err(Fail::from("another text"))
    }
}

#[test]
fn says_what_is_wrong_with_directives(rt: HostRuntime) -> Result<(), Fail> {
    let alloc = rt.alloc();
    let holds = says(
        alloc,
        Ok(ComposerErrorInner::GlslInvalidVersion(1)),
        "naga oil only supports glsl 440 and 450",
    ) && says(
        alloc,
        invalid_shader_def_definition_value(alloc),
        "Invalid value for `#define`d shader def A: x1",
    ) && says(
        alloc,
        invalid_wgsl_directive(alloc),
        "Invalid WGSL directive 'enable  ;' at line 2: No extensions specified",
    ) && says(
        alloc,
        Ok(ComposerErrorInner::DefineInModule(1)),
        "#define statements are only allowed at the start of the top-level shaders",
    ) && says(alloc, Ok(ComposerErrorInner::Memory), "out of memory");
    if holds {
        Ok(())
    } else {
        Err(Fail::from("another text"))
    }
}

#[test]
fn says_what_a_front_end_says(rt: HostRuntime) -> Result<(), Fail> {
    let alloc = rt.alloc();
    let holds = says(alloc, wgsl_parse_error(alloc), "odd token")
        && says(alloc, glsl_parse_error(alloc), "odd token")
        && says(
            alloc,
            wgsl_back_error(alloc),
            "naga_oil bug, please file a report: failed to convert imported module IR back into WGSL for use with WGSL shaders: no text",
        )
        && says(
            alloc,
            glsl_back_error(alloc),
            "naga_oil bug, please file a report: failed to convert imported module IR back into GLSL for use with GLSL shaders: no text",
        )
        && says(
            alloc,
            header_validation_error(alloc),
            "naga_oil bug, please file a report: composer failed to build a valid header: no type",
        )
        && says(
            alloc,
            shader_validation_error(alloc),
            "failed to build a valid final module: no type",
        )
        && says(
            alloc,
            Ok(ComposerErrorInner::WrongForm),
            "front end gave a module of wrong form",
        );
    if holds {
        Ok(())
    } else {
        Err(Fail::from("another text"))
    }
}

#[test]
fn says_what_is_wrong_with_modules(rt: HostRuntime) -> Result<(), Fail> {
    let alloc = rt.alloc();
    let holds = says(alloc, import_parse_error(alloc), "unexpected token")
        && says(
            alloc,
            import_not_found(alloc),
            "required import 'a::b' not found",
        )
        && says(
            alloc,
            inconsistent_shader_def_value(alloc),
            "multiple inconsistent shader def values: 'K'",
        )
        && says(
            alloc,
            Ok(ComposerErrorInner::NoModuleName),
            "Attempted to add a module with no #define_import_path",
        )
        && says(
            alloc,
            Ok(ComposerErrorInner::DecorationInSource(1..2)),
            "source contains internal decoration string, results probably won't be what you expect. if you have a legitimate reason to do this please file a report",
        )
        && says(
            alloc,
            function_not_found(alloc),
            "invalid override :can't find function f for redirection",
        );
    if holds {
        Ok(())
    } else {
        Err(Fail::from("another text"))
    }
}

#[test]
fn says_what_is_wrong_with_names(rt: HostRuntime) -> Result<(), Fail> {
    let alloc = rt.alloc();
    let holds = says(
        alloc,
        override_not_virtual(alloc),
        "override is invalid as `f` is not virtual (this error can be disabled with feature 'override_any')",
    ) && says(
        alloc,
        invalid_identifier(alloc),
        "Composable module identifiers must not require substitution according to naga writeback rules: `f`",
    ) && says(
        alloc,
        Ok(ComposerErrorInner::from(RedirectError::Memory)),
        "out of memory",
    ) && says(
        alloc,
        Ok(ComposerErrorInner::TooManyModules),
        "too many modules",
    ) && says(
        alloc,
        Ok(ComposerErrorInner::BindingsExhausted),
        "no binding left",
    ) && says(
        alloc,
        Ok(ComposerErrorInner::TextTooLarge),
        "shader text too large",
    );
    if holds {
        Ok(())
    } else {
        Err(Fail::from("another text"))
    }
}
