use naga_oil_pre::{ComposerErrorInner, PreprocessOutput, Preprocessor, ShaderDefValue};
use std::alloc::{AllocError, Global};
use std::collections::BTreeMap;
use std::test::Fail;

type Define = (&'static str, ShaderDefValue);

// A text, and its expected text, with `~` for a space, or its expected error.
type Row = (&'static str, &'static str);

// A text, its expected text, and its expected uses.
type UsesRow = (&'static str, &'static str, &'static str);

static NONE: &[Define] = &[];

static A: &[Define] = &[("A", ShaderDefValue::Bool(true))];

static FALSE: &[Define] = &[("T", ShaderDefValue::Bool(false))];

static TRUE: &[Define] = &[("T", ShaderDefValue::Bool(true))];

static THREE: &[Define] = &[("T", ShaderDefValue::Int(3))];

static SEVEN: &[Define] = &[("T", ShaderDefValue::Int(7))];

static TWO: &[Define] = &[("T", ShaderDefValue::Int(2))];

static Z: &[Define] = &[("Z", ShaderDefValue::Bool(true))];

static FIRST: &[Define] = &[("TEXTURE", ShaderDefValue::Bool(true))];

static THIRD: &[Define] = &[("THIRD", ShaderDefValue::Bool(true))];

static SECOND: &[Define] = &[("SECOND", ShaderDefValue::Bool(true))];

static SECOND_THIRD: &[Define] = &[
    ("SECOND", ShaderDefValue::Bool(true)),
    ("THIRD", ShaderDefValue::Bool(true)),
];

static VALUES: &[Define] = &[
    ("FIRST_VALUE", ShaderDefValue::Int(5)),
    ("SECOND_VALUE", ShaderDefValue::Int(3)),
    ("UINT", ShaderDefValue::UInt(4294967295)),
    ("INT", ShaderDefValue::Int(-1)),
    ("BOOL", ShaderDefValue::Bool(false)),
    ("FIRST", ShaderDefValue::Int(5)),
];

fn define(
    alloc: Global,
    shader_defs: &mut BTreeMap<String, ShaderDefValue>,
    name: &str,
    value: ShaderDefValue,
) -> Result<(), AllocError> {
    shader_defs.insert(String::from_str(alloc, name)?, value)?;
    Ok(())
}

fn defined(
    alloc: Global,
    definitions: &[Define],
) -> Result<BTreeMap<String, ShaderDefValue>, AllocError> {
    let mut shader_defs = BTreeMap::new(alloc);
    for (name, value) in definitions {
        define(alloc, &mut shader_defs, name, *value)?;
    }
    Ok(shader_defs)
}

fn preprocessed(
    alloc: Global,
    source: &str,
    definitions: &[Define],
) -> Result<PreprocessOutput, ComposerErrorInner> {
    let shader_defs = defined(alloc, definitions)?;
    Preprocessor::default().preprocess(alloc, source, &shader_defs)
}

// The preprocessed text, which is empty or ends in a line end, or the error, which does not.
fn shown(alloc: Global, source: &str, definitions: &[Define]) -> Result<String, AllocError> {
    match preprocessed(alloc, source, definitions) {
        Ok(output) => output.preprocessed_source.replace(alloc, ' ', "~"),
        Err(fault) => format!(in alloc; "{fault:?}"),
    }
}

fn is(told: Result<String, AllocError>, want: &str) -> bool {
    match told {
        Ok(told) => told.as_str() == want,
        Err(_) => false,
    }
}

// Under the definitions each text has its expected text or error.
fn tells(alloc: Global, definitions: &[Define], rows: &[Row]) -> Result<(), Fail> {
    for (source, want) in rows {
        if !is(shown(alloc, source, definitions), want) {
            return Err(Fail::from(*source));
        }
    }
    Ok(())
}

static PLAIN: &[Row] = &[
    ("", ""),
    ("\n", "\n"),
    ("a\r\nb", "a\nb\n"),
    (
        "#ifdef A\na\n#else if X\nb\n#endif",
        "~~~~~~~~\n~\n~~~~~~~~~~\nb\n~~~~~~\n",
    ),
    (
        "#ifdef A\na\n#else ifndef B\nb\n#else\nc\n#endif",
        "~~~~~~~~\n~\n~~~~~~~~~~~~~~\nb\n~~~~~\n~\n~~~~~~\n",
    ),
    (
        "/* #ifdef A\n*/ #ifdef B\nb // #endif\n#endif",
        "/*~#ifdef~A\n~~~~~~~~~~~\n~~~~~~~~~~~\n~~~~~~\n",
    ),
];

static UNDER_A: &[Row] = &[
    (
        "\n#define A\n#ifdef A\ndefined\n#endif\n",
        "\n~~~~~~~~~\n~~~~~~~~\ndefined\n~~~~~~\n",
    ),
    (
        "#ifdef A\n#ifdef B\na\n#else\n#ifdef B\nb\n#else ifdef A\nc\n#endif\n#endif\n#endif",
        "~~~~~~~~\n~~~~~~~~\n~\n~~~~~\n~~~~~~~~\n~\n~~~~~~~~~~~~~\nc\n~~~~~~\n~~~~~~\n~~~~~~\n",
    ),
];

static UNDER_Z: &[Row] = &[(
    "#ifdef Z\n#import a::{\"\n#if XX == 1\n#endif\n\"}\n#endif",
    "~~~~~~~~\n~~~~~~~~~~~~~\n~~~~~~~~~~~\n~~~~~~\n~~\n~~~~~~\n",
)];

#[test]
fn shows_the_arms_that_hold(rt: HostRuntime) -> Result<(), Fail> {
    tells(rt.alloc(), NONE, PLAIN)?;
    tells(rt.alloc(), A, UNDER_A)?;
    tells(rt.alloc(), Z, UNDER_Z)
}

const TEXTURES: &str =
    "#ifdef TEXTURE\na\n#else ifdef SECOND\nb\n#else ifdef THIRD\nc\n#else\nd\n#endif";

static FOURTH_ARM: &[Row] = &[(
    TEXTURES,
    "~~~~~~~~~~~~~~\n~\n~~~~~~~~~~~~~~~~~~\n~\n~~~~~~~~~~~~~~~~~\n~\n~~~~~\nd\n~~~~~~\n",
)];

static SECOND_ARM: &[Row] = &[(
    TEXTURES,
    "~~~~~~~~~~~~~~\n~\n~~~~~~~~~~~~~~~~~~\nb\n~~~~~~~~~~~~~~~~~\n~\n~~~~~\n~\n~~~~~~\n",
)];

static FIRST_ARM: &[Row] = &[(
    TEXTURES,
    "~~~~~~~~~~~~~~\na\n~~~~~~~~~~~~~~~~~~\n~\n~~~~~~~~~~~~~~~~~\n~\n~~~~~\n~\n~~~~~~\n",
)];

static THIRD_ARM: &[Row] = &[(
    TEXTURES,
    "~~~~~~~~~~~~~~\n~\n~~~~~~~~~~~~~~~~~~\n~\n~~~~~~~~~~~~~~~~~\nc\n~~~~~\n~\n~~~~~~\n",
)];

static NO_ARM: &[Row] = &[(
    "#ifdef TEXTURE\na\n#else ifdef SECOND\nb\n#endif",
    "~~~~~~~~~~~~~~\n~\n~~~~~~~~~~~~~~~~~~\n~\n~~~~~~\n",
)];

#[test]
fn shows_the_first_arm_that_holds(rt: HostRuntime) -> Result<(), Fail> {
    tells(rt.alloc(), NONE, FOURTH_ARM)?;
    tells(rt.alloc(), NONE, NO_ARM)?;
    tells(rt.alloc(), FIRST, FIRST_ARM)?;
    tells(rt.alloc(), THIRD, THIRD_ARM)?;
    tells(rt.alloc(), SECOND, SECOND_ARM)?;
    tells(rt.alloc(), SECOND_THIRD, SECOND_ARM)
}

static UNDER_THREE: &[Row] = &[
    ("#if T == 3\na\n#endif", "~~~~~~~~~~\na\n~~~~~~\n"),
    ("#if T <= 3\na\n#endif", "~~~~~~~~~~\na\n~~~~~~\n"),
];

static UNDER_TWO: &[Row] = &[(
    "#ifdef N\na\n#else if T == 1\nb\n#else if T == 2\nc\n#else\nd\n#endif",
    "~~~~~~~~\n~\n~~~~~~~~~~~~~~~\n~\n~~~~~~~~~~~~~~~\nc\n~~~~~\n~\n~~~~~~\n",
)];

static UNDER_SEVEN: &[Row] = &[("#if T == 3\na\n#endif", "~~~~~~~~~~\n~\n~~~~~~\n")];

static UNDER_TRUE: &[Row] = &[
    ("#if T != false\na\n#endif", "~~~~~~~~~~~~~~\na\n~~~~~~\n"),
    ("#if T == true\na\n#endif", "~~~~~~~~~~~~~\na\n~~~~~~\n"),
];

static UNDER_FALSE: &[Row] = &[
    ("#if T != false\na\n#endif", "~~~~~~~~~~~~~~\n~\n~~~~~~\n"),
    ("#if T == true\na\n#endif", "~~~~~~~~~~~~~\n~\n~~~~~~\n"),
];

#[test]
fn compares_values(rt: HostRuntime) -> Result<(), Fail> {
    tells(rt.alloc(), TWO, UNDER_TWO)?;
    tells(rt.alloc(), THREE, UNDER_THREE)?;
    tells(rt.alloc(), SEVEN, UNDER_SEVEN)?;
    tells(rt.alloc(), TRUE, UNDER_TRUE)?;
    tells(rt.alloc(), FALSE, UNDER_FALSE)
}

static WITH_VALUES: &[Row] = &[
    (
        "    var b: i32 = #FIRST_VALUE * #SECOND_VALUE;",
        "~~~~var~b:~i32~=~5~*~3;~~~~~~~~~~~~~~~~~~~~~~~\n",
    ),
    ("#MISSING * #FIRST", "#MISSING~*~5~~~~~\n"),
    ("#MISSING * #FIRST_VALUE", "#MISSING~*~5~~~~~~~~~~~\n"),
    ("#UINT\n# {INT};\n#BOOL", "4294967295\n-1;~~~~~\nfalse\n"),
];

#[test]
fn writes_values(rt: HostRuntime) -> Result<(), Fail> {
    tells(rt.alloc(), VALUES, WITH_VALUES)
}

static OWN_DEFINES: &[Row] = &[(
    "#define DEFUINT 1\n#define DEFINT -1\n#define DEFBOOL false\n#if DEFUINT == 1\nuint: #DEFUINT\n#endif\n#if DEFINT == -1\nint: #DEFINT\n#endif\n#if DEFBOOL == false\nbool: #DEFBOOL\n#endif\n",
    "~~~~~~~~~~~~~~~~~\n~~~~~~~~~~~~~~~~~\n~~~~~~~~~~~~~~~~~~~~~\n~~~~~~~~~~~~~~~~\nuint:~1~~~~~~~\n~~~~~~\n~~~~~~~~~~~~~~~~\nint:~-1~~~~~\n~~~~~~\n~~~~~~~~~~~~~~~~~~~~\nbool:~false~~~\n~~~~~~\n",
)];

// A text under its own defines.
fn by_own_defines(alloc: Global, source: &str) -> Result<PreprocessOutput, ComposerErrorInner> {
    let metadata = Preprocessor::default().get_preprocessor_metadata(alloc, source, true)?;
    Preprocessor::default().preprocess(alloc, source, &metadata.defines)
}

fn becomes(alloc: Global, source: &str, want: &str) -> bool {
    match by_own_defines(alloc, source) {
        Ok(output) => is(output.preprocessed_source.replace(alloc, ' ', "~"), want),
        Err(_) => false,
    }
}

#[test]
fn compares_what_a_text_defines(rt: HostRuntime) -> Result<(), Fail> {
    for (source, want) in OWN_DEFINES {
        if !becomes(rt.alloc(), source, want) {
            return Err(Fail::from(*source));
        }
    }
    Ok(())
}

static IMPORTS: &[UsesRow] = &[
    (
        "#import a::f\nx.f + x. f",
        "            \nx.f + x. fX_naga_oil_mod_XMEX\n",
        "[ImportDefWithOffset { definition: ImportDefinition { import: \"a\", items: [\"f\"] }, offset: 22 }]",
    ),
    (
        "#import a::{\n  b,\n  c\n}\nb() + c()",
        "            \n    \n   \n \nbX_naga_oil_mod_XMEX() + cX_naga_oil_mod_XMEX()\n",
        "[ImportDefWithOffset { definition: ImportDefinition { import: \"a\", items: [\"b\", \"c\"] }, offset: 24 }]",
    ),
    (
        "#import a::f\nf() // f\nf()\n",
        "            \nfX_naga_oil_mod_XMEX() // fX_naga_oil_mod_XMEX\nfX_naga_oil_mod_XMEX()\n",
        "[ImportDefWithOffset { definition: ImportDefinition { import: \"a\", items: [\"f\", \"f\"] }, offset: 13 }]",
    ),
    (
        "#ifdef A\n#import a::f\n#endif\nf() + a::g()",
        "        \n            \n      \nf() + gX_naga_oil_mod_XMEX()\n",
        "[ImportDefWithOffset { definition: ImportDefinition { import: \"a\", items: [\"g\"] }, offset: 35 }]",
    ),
    (
        "#import a::{\"\n\" as b}\nb;",
        "             \n       \n\"\n\"X_naga_oil_mod_XMEX;\n",
        "[ImportDefWithOffset { definition: ImportDefinition { import: \"a\", items: [\"\\\"\\n\\\"\"] }, offset: 22 }]",
    ),
];

fn shows_and_uses(alloc: Global, output: &PreprocessOutput, text: &str, uses: &str) -> bool {
    let imports = &output.imports;
    output.preprocessed_source.as_str() == text && is(format!(in alloc; "{imports:?}"), uses)
}

fn substitutes(alloc: Global, source: &str, text: &str, uses: &str) -> bool {
    match preprocessed(alloc, source, NONE) {
        Ok(output) => shows_and_uses(alloc, &output, text, uses),
        Err(_) => false,
    }
}

#[test]
fn substitutes_what_imports_declare(rt: HostRuntime) -> Result<(), Fail> {
    for (source, text, uses) in IMPORTS {
        if !substitutes(rt.alloc(), source, text, uses) {
            return Err(Fail::from(*source));
        }
    }
    Ok(())
}

// A text of `count` calls of an imported function, its expected text, and its expected uses.
fn many_calls(alloc: Global, calls: usize) -> Result<(String, String, String), AllocError> {
    let source = "f()\n".repeat(alloc, calls)?;
    let text = "fX_naga_oil_mod_XMEX()\n".repeat(alloc, calls)?;
    let items = "\"f\", ".repeat(alloc, calls.saturating_sub(1))?;
    Ok((
        format!(in alloc; "#import a::f\n{source}")?,
        format!(in alloc; "            \n{text}")?,
        format!(in alloc;
            "[ImportDefWithOffset {{ definition: ImportDefinition {{ import: \"a\", items: [{items}\"f\"] }}, offset: 13 }}]"
        )?,
    ))
}

#[test]
fn substitutes_many_calls(rt: HostRuntime) -> Result<(), Fail> {
    for calls in [1, 10, 100, 1000] {
        let (source, text, uses) = many_calls(rt.alloc(), calls)?;
        if !substitutes(rt.alloc(), source.as_str(), text.as_str(), uses.as_str()) {
            return Err(Fail::from("many calls"));
        }
    }
    Ok(())
}

static FAULTS: &[Row] = &[
    (
        "#if FOO",
        "UnknownShaderDef { pos: 0, shader_def_name: \"FO\" }",
    ),
    (
        "#if T == true\na\n#endif",
        "UnknownShaderDef { pos: 0, shader_def_name: \"T\" }",
    ),
    ("#ifdef A\nx", "NotEnoughEndIfs(11)"),
    ("#ifdef A\n#version 300\n#endif", "GlslInvalidVersion(9)"),
    ("a\n#endif\n#else", "TooManyEndIfs(2)"),
    ("a\n#else\n#endif", "ElseWithoutCondition(2)"),
    (
        "#else if XX\n#else",
        "UnknownShaderDef { pos: 0, shader_def_name: \"X\" }",
    ),
    (
        "#ifdef Z\n#import a::{\"\n#if XX == 1\n#endif\n\"}\n#endif",
        "UnknownShaderDef { pos: 23, shader_def_name: \"XX\" }",
    ),
];

static FAULTS_UNDER_A: &[Row] = &[("#ifdef A\nx\n", "NotEnoughEndIfs(11)")];

static FAULTS_UNDER_TRUE: &[Row] = &[
    (
        "#if T !! true",
        "UnknownShaderDefOperator { pos: 0, operator: \"!!\" }",
    ),
    (
        "#if T == 3",
        "InvalidShaderDefComparisonValue { pos: 0, shader_def_name: \"T\", expected: \"bool\", value: \"3\" }",
    ),
];

static FAULTS_UNDER_SEVEN: &[Row] = &[
    (
        "#if T !! true",
        "InvalidShaderDefComparisonValue { pos: 0, shader_def_name: \"T\", expected: \"int\", value: \"true\" }",
    ),
    (
        "a\n#if T !! true",
        "InvalidShaderDefComparisonValue { pos: 2, shader_def_name: \"T\", expected: \"int\", value: \"true\" }",
    ),
];

static FAULTS_OF_IMPORTS: &[Row] = &[
    (
        "#import a::{b, b}\nb",
        "ImportParseError(\"Ambiguous import path for item\", 18)",
    ),
    (
        "#import a::{",
        "ImportParseError(\"missing close brace\", 13)",
    ),
    (
        "#import a::{b,\n#ifdef X\nc}\nb",
        "ImportParseError(\"unexpected token\", 15)",
    ),
    (
        "x\n#import a::{b,\n#ifdef X\nc}\nb",
        "ImportParseError(\"unexpected token\", 17)",
    ),
];

#[test]
fn answers_the_earliest_fault(rt: HostRuntime) -> Result<(), Fail> {
    tells(rt.alloc(), NONE, FAULTS)?;
    tells(rt.alloc(), A, FAULTS_UNDER_A)?;
    tells(rt.alloc(), TRUE, FAULTS_UNDER_TRUE)?;
    tells(rt.alloc(), SEVEN, FAULTS_UNDER_SEVEN)?;
    tells(rt.alloc(), NONE, FAULTS_OF_IMPORTS)
}
