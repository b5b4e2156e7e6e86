use naga_oil_pre::{ComposerErrorInner, Preprocessor, PreprocessorMetaData, get_preprocessor_data};
use std::alloc::{AllocError, Global};
use std::test::Fail;

fn shown_data(alloc: Global, found: &PreprocessorMetaData) -> Result<String, AllocError> {
    let name = &found.name;
    let imports = &found.imports;
    let defines = &found.defines;
    let effective_defs = &found.effective_defs;
    format!(in alloc; "{name:?} {imports:?} {defines:?} {effective_defs:?}")
}

// The metadata of a text, or its error.
fn shown(alloc: Global, source: &str, allow_defines: bool) -> Result<String, AllocError> {
    match Preprocessor.get_preprocessor_metadata(alloc, source, allow_defines) {
        Ok(found) => shown_data(alloc, &found),
        Err(fault) => format!(in alloc; "{fault:?}"),
    }
}

fn is(told: Result<String, AllocError>, want: &str) -> bool {
    match told {
        Ok(told) => told.as_str() == want,
        Err(_) => false,
    }
}

fn tells(alloc: Global, allow_defines: bool, rows: &[(&str, &str)]) -> Result<(), Fail> {
    for (source, want) in rows {
        if !is(shown(alloc, source, allow_defines), want) {
            return Err(Fail::from(*source));
        }
    }
    Ok(())
}

static USES: [(&str, &str); 7] = [
    ("", "None [] {} {}"),
    (
        "#import a::f\n// #C f\n#ifdef D\nf();\n#endif",
        "None [ImportDefWithOffset { definition: ImportDefinition { import: \"a\", items: [\"f\"] }, offset: 30 }] {} {\"C\", \"D\"}",
    ),
    (
        "#ifdef Z\n#import a::{\"\n#if XX == 1\n#endif\n\"}\n#endif",
        "None [] {} {\"XX\", \"Z\"}",
    ),
    (
        "#define_import_path a\n#define_import_path b::c",
        "Some(\"b::c\") [] {} {}",
    ),
    (
        "#import a::{f, f}\nf",
        "None [ImportDefWithOffset { definition: ImportDefinition { import: \"a\", items: [\"f\", \"f\"] }, offset: 18 }] {} {}",
    ),
    (
        "a::f() + f // b::g",
        "None [ImportDefWithOffset { definition: ImportDefinition { import: \"a\", items: [\"f\"] }, offset: 0 }] {} {}",
    ),
    (
        "#version 450\n#if X\n#{Y}",
        "None [] {} {\"Y\", \"if\", \"version\"}",
    ),
];

#[test]
fn reads_names_and_uses(rt: HostRuntime) -> Result<(), Fail> {
    tells(rt.alloc(), false, &USES)
}

static DEFINES: [(&str, &str); 4] = [
    (
        "#define A 1\n#define A -2\n#define B",
        "None [] {\"A\": Int(-2), \"B\": Bool(true)} {}",
    ),
    (
        "#ifdef A\n#define A 1\n#else\n#define B false\n#endif",
        "None [] {\"A\": UInt(1), \"B\": Bool(false)} {\"A\"}",
    ),
    (
        "#define A x1",
        "InvalidShaderDefDefinitionValue { name: \"A\", value: \"x1\", pos: 0 }",
    ),
    (
        "\n#define A x1",
        "InvalidShaderDefDefinitionValue { name: \"A\", value: \"x1\", pos: 1 }",
    ),
];

#[test]
fn reads_defines(rt: HostRuntime) -> Result<(), Fail> {
    tells(rt.alloc(), true, &DEFINES)
}

// The cleaned source of a text and its defines, or its error.
fn shown_defines(alloc: Global, source: &str, allow_defines: bool) -> Result<String, AllocError> {
    match Preprocessor.get_preprocessor_defines(alloc, source, allow_defines) {
        Ok((cleaned, defines)) => format!(in alloc; "{cleaned:?} {defines:?}"),
        Err(fault) => format!(in alloc; "{fault:?}"),
    }
}

static OWN_DEFINES: [(&str, &str); 4] = [
    ("", "\"\" {}"),
    (
        "enable f16;\n#ifdef B\n#define A 1\n#import a::{\"\n#define X\n\"}\n#A f::h();\n#define A -2",
        "\"\\n#ifdef B\\n#define A 1\\n#import a::{\\\"\\n#define X\\n\\\"}\\n#A f::h();\\n#define A -2\" {\"A\": Int(-2)}",
    ),
    (
        "#import a::{b,\n#define X\nc}\n#define Y z",
        "ImportParseError(\"unexpected token\", 15)",
    ),
    (
        "#import a\n#define A x1",
        "InvalidShaderDefDefinitionValue { name: \"A\", value: \"x1\", pos: 10 }",
    ),
];

#[test]
fn reads_defines_alone(rt: HostRuntime) -> Result<(), Fail> {
    for (source, want) in &OWN_DEFINES {
        if !is(shown_defines(rt.alloc(), source, true), want) {
            return Err(Fail::from(*source));
        }
    }
    Ok(())
}

static FAULTS: [(&str, &str); 5] = [
    ("#define A", "DefineInModule(0)"),
    ("enable f16;\n#define A x1", "DefineInModule(1)"),
    ("#define A\nenable  ;", "DefineInModule(0)"),
    (
        "// x\nenable  ;\n#define A",
        "InvalidWgslDirective { directive: \"enable  ;\", position: 1, reason: \"No extensions specified\" }",
    ),
    (
        "#import a::{b,\n#define X\nc}\n#define Y",
        "ImportParseError(\"unexpected token\", 15)",
    ),
];

#[test]
fn answers_the_first_fault(rt: HostRuntime) -> Result<(), Fail> {
    tells(rt.alloc(), false, &FAULTS)
}

fn has_one_enable(found: &PreprocessorMetaData, cleaned: &str) -> bool {
    found.cleaned_source.as_str() == cleaned && found.wgsl_directives.enables.len() == 1
}

// Whether a text's directive is kept, and the text without it.
fn keeps(alloc: Global, source: &str, cleaned: &str) -> bool {
    match Preprocessor.get_preprocessor_metadata(alloc, source, false) {
        Ok(found) => has_one_enable(&found, cleaned),
        Err(_) => false,
    }
}

#[test]
fn keeps_directives_and_the_cleaned_text(rt: HostRuntime) -> Result<(), Fail> {
    if keeps(rt.alloc(), "enable f16;\nfn a() {}\n", "\nfn a() {}") {
        Ok(())
    } else {
        Err(Fail::from("not kept"))
    }
}

// The number of imports in a text's data, and whether the data has neither a name nor defines.
fn data_of(alloc: Global, source: &str) -> Result<(usize, bool), AllocError> {
    let (name, imports, defines) = get_preprocessor_data(alloc, source)?;
    Ok((imports.len(), name.is_none() && defines.is_empty()))
}

// The number of imports in a text's metadata, or whether its error is that of an import.
fn metadata_of(alloc: Global, source: &str) -> Result<usize, bool> {
    match Preprocessor.get_preprocessor_metadata(alloc, source, false) {
        Ok(found) => Ok(found.imports.len()),
        Err(fault) => Err(matches!(fault, ComposerErrorInner::ImportParseError(..))),
    }
}

// Whether the text has metadata, or the error of an import and no data.
fn has_metadata_or_fault(alloc: Global, source: &str) -> bool {
    let Ok((imports, is_bare)) = data_of(alloc, source) else {
        return false;
    };
    match metadata_of(alloc, source) {
        Ok(count) => count == imports,
        Err(is_of_import) => is_of_import && is_bare && imports == 0,
    }
}

fn reads_front_with(alloc: Global, front: &mut String, c: char) -> bool {
    front.push(c).is_ok() && has_metadata_or_fault(alloc, front.as_str())
}

fn reads_fronts(alloc: Global, source: &str) -> bool {
    let mut front = String::new(alloc);
    let mut holds = has_metadata_or_fault(alloc, "");
    for c in source.chars() {
        holds = reads_front_with(alloc, &mut front, c) && holds;
    }
    holds
}

#[test]
fn reads_each_front(rt: HostRuntime) -> Result<(), Fail> {
    let source = "#import a::{f,\ng}\n// #C f é\n#ifdef D\nf();\n#endif";
    if reads_fronts(rt.alloc(), source) {
        Ok(())
    } else {
        Err(Fail::from("a front not read"))
    }
}

fn shown_preprocessor_data(alloc: Global, source: &str) -> Result<String, AllocError> {
    let data = get_preprocessor_data(alloc, source)?;
    format!(in alloc; "{data:?}")
}

#[test]
fn gives_name_imports_and_defines(rt: HostRuntime) -> Result<(), Fail> {
    let source = "#define_import_path m\n#import a::f\n#define A 1\nf";
    let want = r#"(Some("m"), [ImportDefinition { import: "a", items: ["f"] }], {"A": UInt(1)})"#;
    if is(shown_preprocessor_data(rt.alloc(), source), want) {
        Ok(())
    } else {
        Err(Fail::from(want))
    }
}
