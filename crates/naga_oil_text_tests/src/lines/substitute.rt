use indexmap::IndexMap;
use naga_oil_imports::parse_imports::substitute_identifiers;
use naga_oil_imports::{ImportDefWithOffset, ImportDefinition};
use std::alloc::{AllocError, Global};
use std::test::Fail;

// A text, its offset, the declared keys each with a path, whether a key may have several paths, and what is expected:
// the text or the error, and the uses.
struct Row {
    text: &'static str,
    offset: usize,
    declared: &'static [(&'static str, &'static str)],
    allow_ambiguous: bool,
    want: &'static str,
}

static ROWS: [Row; 11] = [
    Row {
        text: "x.f + x. f",
        offset: 13,
        declared: &[("f", "a::f")],
        allow_ambiguous: true,
        want: r#"Ok("x.f + x. fX_naga_oil_mod_XMEX") [ImportDefWithOffset { definition: ImportDefinition { import: "a", items: ["f"] }, offset: 22 }]"#,
    },
    Row {
        text: "@f f(1) @ f",
        offset: 0,
        declared: &[("f", "a::f")],
        allow_ambiguous: true,
        want: r#"Ok("@f fX_naga_oil_mod_XMEX(1) @ fX_naga_oil_mod_XMEX") [ImportDefWithOffset { definition: ImportDefinition { import: "a", items: ["f", "f"] }, offset: 3 }]"#,
    },
    Row {
        text: "a::b::c + m::c",
        offset: 5,
        declared: &[("m", "x::y")],
        allow_ambiguous: true,
        want: r#"Ok("cX_naga_oil_mod_XME5DUYQX + cX_naga_oil_mod_XPA5DU6IX") [ImportDefWithOffset { definition: ImportDefinition { import: "a::b", items: ["c"] }, offset: 5 }, ImportDefWithOffset { definition: ImportDefinition { import: "x::y", items: ["c"] }, offset: 15 }]"#,
    },
    Row {
        text: "f g f",
        offset: 0,
        declared: &[("f", "a::f"), ("g", "a::g")],
        allow_ambiguous: true,
        want: r#"Ok("fX_naga_oil_mod_XMEX gX_naga_oil_mod_XMEX fX_naga_oil_mod_XMEX") [ImportDefWithOffset { definition: ImportDefinition { import: "a", items: ["f", "g", "f"] }, offset: 0 }]"#,
    },
    Row {
        text: "m + m::f",
        offset: 0,
        declared: &[("m", "\"a.wgsl\"")],
        allow_ambiguous: true,
        want: r#"Ok("m + fX_naga_oil_mod_XEJQS453HONWCEX") [ImportDefWithOffset { definition: ImportDefinition { import: "\"a.wgsl\"", items: ["f"] }, offset: 4 }]"#,
    },
    Row {
        text: "\"a.wgsl\"::f x:: + g",
        offset: 0,
        declared: &[("g", "h")],
        allow_ambiguous: true,
        want: r#"Ok("fX_naga_oil_mod_XEJQS453HONWCEX x + h") [ImportDefWithOffset { definition: ImportDefinition { import: "\"a.wgsl\"", items: ["f"] }, offset: 0 }]"#,
    },
    Row {
        text: "b;",
        offset: 18,
        declared: &[("b", "a::b"), ("b", "a::b"), ("b", "c")],
        allow_ambiguous: true,
        want: r#"Ok("bX_naga_oil_mod_XMEXbX_naga_oil_mod_XMEXc;") [ImportDefWithOffset { definition: ImportDefinition { import: "a", items: ["b", "b"] }, offset: 18 }]"#,
    },
    Row {
        text: "",
        offset: 0,
        declared: &[],
        allow_ambiguous: true,
        want: r#"Ok("") []"#,
    },
    Row {
        text: "b",
        offset: 18,
        declared: &[("b", "a::b"), ("b", "a::b"), ("c", "a::c")],
        allow_ambiguous: false,
        want: "Err(Ambiguous(18)) []",
    },
    Row {
        text: "c + x.b b c",
        offset: 10,
        declared: &[("b", "a::b"), ("b", "a::b"), ("c", "a::c")],
        allow_ambiguous: false,
        want: r#"Err(Ambiguous(18)) [ImportDefWithOffset { definition: ImportDefinition { import: "a", items: ["c"] }, offset: 10 }]"#,
    },
    // a place past the greatest is the greatest
    Row {
        text: "  a::f",
        offset: 18446744073709551614,
        declared: &[],
        allow_ambiguous: true,
        want: r#"Ok("  fX_naga_oil_mod_XMEX") [ImportDefWithOffset { definition: ImportDefinition { import: "a", items: ["f"] }, offset: 18446744073709551615 }]"#,
    },
];

fn declare(
    alloc: Global,
    declared: &mut IndexMap<String, Vec<String>>,
    key: &str,
    path: &str,
) -> Result<(), AllocError> {
    let key = String::from_str(alloc, key)?;
    let path = String::from_str(alloc, path)?;
    declared.entry(key)?.or_insert(Vec::new(alloc)).push(path)?;
    Ok(())
}

fn declared_by(
    alloc: Global,
    pairs: &[(&str, &str)],
) -> Result<IndexMap<String, Vec<String>>, AllocError> {
    let mut declared = IndexMap::new(alloc);
    for (key, path) in pairs {
        declare(alloc, &mut declared, key, path)?;
    }
    Ok(declared)
}

// The text and the uses of a row under its declarations.
fn told_under(
    alloc: Global,
    declared: &IndexMap<String, Vec<String>>,
    row: &Row,
) -> Result<String, AllocError> {
    let mut used = IndexMap::new(alloc);
    let written = substitute_identifiers(
        alloc,
        row.text,
        row.offset,
        declared,
        &mut used,
        row.allow_ambiguous,
    );
    let uses = used.values();
    format!(in alloc; "{written:?} {uses:?}")
}

fn told(alloc: Global, row: &Row) -> Result<String, AllocError> {
    let declared = declared_by(alloc, row.declared)?;
    told_under(alloc, &declared, row)
}

fn is(told: Result<String, AllocError>, want: &str) -> bool {
    match told {
        Ok(told) => told.as_str() == want,
        Err(_) => false,
    }
}

#[test]
fn substitutes_rows(rt: HostRuntime) -> Result<(), Fail> {
    for row in &ROWS {
        if !is(told(rt.alloc(), row), row.want) {
            return Err(Fail::from(row.text));
        }
    }
    Ok(())
}

fn definition(alloc: Global) -> Result<ImportDefinition, AllocError> {
    let import = String::from_str(alloc, "a")?;
    let mut items = Vec::new(alloc);
    items.push(String::from_str(alloc, "f")?)?;
    Ok(ImportDefinition { import, items })
}

fn with_offset(alloc: Global) -> Result<ImportDefWithOffset, AllocError> {
    let definition = definition(alloc)?;
    Ok(ImportDefWithOffset::new(definition.try_clone()?, 7))
}

fn told_of_clone(alloc: Global) -> Result<String, AllocError> {
    let copy = with_offset(alloc)?.try_clone()?;
    let definition = copy.definition();
    let offset = copy.offset();
    format!(in alloc; "{definition:?} {offset}")
}

fn told_of_new(alloc: Global) -> Result<String, AllocError> {
    let definition = ImportDefinition::new(alloc);
    format!(in alloc; "{definition:?}")
}

#[test]
fn clones(rt: HostRuntime) -> Result<(), Fail> {
    let want = r#"ImportDefinition { import: "a", items: ["f"] } 7"#;
    if is(told_of_clone(rt.alloc()), want) {
        Ok(())
    } else {
        Err(Fail::from(want))
    }
}

#[test]
fn begins_with_nothing(rt: HostRuntime) -> Result<(), Fail> {
    let want = r#"ImportDefinition { import: "", items: [] }"#;
    if is(told_of_new(rt.alloc()), want) {
        Ok(())
    } else {
        Err(Fail::from(want))
    }
}
