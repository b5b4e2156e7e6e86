use naga_oil_pre::{Preprocessor, ShaderDefValue};
use std::alloc::{AllocError, Global};
use std::collections::BTreeMap;
use std::test::Fail;

static DEFINITIONS: [(&str, ShaderDefValue); 9] = [
    ("FIRST", ShaderDefValue::Int(5)),
    ("FIRST_VALUE", ShaderDefValue::Int(5)),
    ("SECOND_VALUE", ShaderDefValue::Int(3)),
    ("A", ShaderDefValue::Bool(true)),
    ("|A", ShaderDefValue::Bool(false)),
    ("MOST", ShaderDefValue::UInt(4294967295)),
    ("LEAST", ShaderDefValue::Int(-2147483648)),
    ("größe", ShaderDefValue::UInt(7)),
    ("true", ShaderDefValue::UInt(1)),
];

static REPLACED: [(&str, &str); 11] = [
    ("#MISSING * #FIRST", "#MISSING * 5"),
    (
        "    var b: i32 = #FIRST_VALUE * #SECOND_VALUE;",
        "    var b: i32 = 5 * 3;",
    ),
    ("#{A}b #{A} b # A #\u{2003}{A}.", "trueb true b true true."),
    ("#{A #{ A} #{A b} #{} #{", "#{A #{ A} #{A b} #{} #{"),
    ("##A ###A# #", "#true ##true# #"),
    ("#|A #A| #A", "false #A| true"),
    ("##{A}true #{A}#A", "#truetrue truetrue"),
    ("[#MOST, #LEAST]", "[4294967295, -2147483648]"),
    ("é#größe…#GRÖSSE#{größe}é", "é7…#GRÖSSE7é"),
    ("no name — at all", "no name — at all"),
    ("", ""),
];

fn define(
    alloc: Global,
    definitions: &mut BTreeMap<String, ShaderDefValue>,
    name: &str,
    value: ShaderDefValue,
) -> Result<(), AllocError> {
    definitions.insert(String::from_str(alloc, name)?, value)?;
    Ok(())
}

fn definitions(alloc: Global) -> Result<BTreeMap<String, ShaderDefValue>, AllocError> {
    let mut definitions = BTreeMap::new(alloc);
    for (name, value) in &DEFINITIONS {
        define(alloc, &mut definitions, name, *value)?;
    }
    Ok(definitions)
}

// The text as a line, filled up by spaces to a length.
fn padded(alloc: Global, text: &str, size: usize) -> Result<String, AllocError> {
    let mut line = String::from_str(alloc, text)?;
    for _ in text.len()..size {
        line.push(' ')?;
    }
    line.push('\n')?;
    Ok(line)
}

// Whether the line is replaced by this text, padded with spaces to the line's length.
fn becomes(
    alloc: Global,
    line: &str,
    definitions: &BTreeMap<String, ShaderDefValue>,
    want: &str,
) -> Result<bool, AllocError> {
    let source = padded(alloc, line, line.len())?;
    let shown = padded(alloc, want, line.len())?;
    Ok(
        match Preprocessor.preprocess(alloc, source.as_str(), definitions) {
            Ok(output) => output.preprocessed_source.as_str() == shown.as_str(),
            Err(_) => false,
        },
    )
}

fn replaces(alloc: Global, definitions: &BTreeMap<String, ShaderDefValue>) -> Result<(), Fail> {
    for (line, want) in &REPLACED {
        if !becomes(alloc, line, definitions, want)? {
            return Err(Fail::from(*line));
        }
    }
    Ok(())
}

#[test]
fn replaces_names_by_their_values(rt: HostRuntime) -> Result<(), Fail> {
    let definitions = definitions(rt.alloc())?;
    replaces(rt.alloc(), &definitions)
}
