use naga_oil_lines::wgsl_directives::WgslDirectives;
use naga_oil_pre::Preprocessor;
use std::alloc::{AllocError, Global};
use std::test::Fail;

fn shown_directives(
    alloc: Global,
    cleaned: &str,
    found: &WgslDirectives,
) -> Result<String, AllocError> {
    let enables = &found.enables;
    let requires_ = &found.requires_;
    let diagnostics = &found.diagnostics;
    format!(in alloc; "{cleaned:?} {enables:?} {requires_:?} {diagnostics:?}")
}

// The rest of a text and its directives, or an error.
fn shown(alloc: Global, source: &str) -> Result<String, AllocError> {
    match Preprocessor.extract_wgsl_directives(alloc, source) {
        Ok((cleaned, found)) => shown_directives(alloc, cleaned.as_str(), &found),
        Err(fault) => format!(in alloc; "{fault:?}"),
    }
}

fn is(told: Result<String, AllocError>, want: &str) -> bool {
    match told {
        Ok(told) => told.as_str() == want,
        Err(_) => false,
    }
}

fn tells(alloc: Global, rows: &[(&str, &str)]) -> Result<(), Fail> {
    for (source, want) in rows {
        if !is(shown(alloc, source), want) {
            return Err(Fail::from(*source));
        }
    }
    Ok(())
}

static TAKEN: [(&str, &str); 4] = [
    (
        "enable f16;\nfn a() {}\n",
        "\"\\nfn a() {}\" [EnableDirective { extensions: [\"f16\"], source_location: 0 }] [] []",
    ),
    (
        "enable f16; fn x() {}",
        "\"\" [EnableDirective { extensions: [\"f16\"], source_location: 0 }] [] []",
    ),
    (
        "// x\n\nrequires a,b,,a;",
        "\"// x\\n\\n\" [] [RequiresDirective { extensions: [\"a\", \"b\", \"a\"], source_location: 2 }] []",
    ),
    (
        " diagnostic ( warn , x.y ) ;\r\nend\r\n",
        "\"\\nend\" [] [] [DiagnosticDirective { severity: \"warn\", rule: \"x.y\", source_location: 0 }]",
    ),
];

#[test]
fn takes_directives_out(rt: HostRuntime) -> Result<(), Fail> {
    tells(rt.alloc(), &TAKEN)
}

static KEPT: [(&str, &str); 5] = [
    ("", "\"\" [] [] []"),
    ("enable ;", "\"enable ;\" [] [] []"),
    (
        "fn a() {}\nenable f16;",
        "\"fn a() {}\\nenable f16;\" [] [] []",
    ),
    ("diagnostic(off, x)\n", "\"diagnostic(off, x)\" [] [] []"),
    (
        "/* */ enable f16;\r\n\n",
        "\"/* */ enable f16;\\n\" [] [] []",
    ),
];

#[test]
fn keeps_other_lines(rt: HostRuntime) -> Result<(), Fail> {
    tells(rt.alloc(), &KEPT)
}

static FAULTS: [(&str, &str); 3] = [
    (
        "diagnostic(of, x);",
        "InvalidWgslDirective { directive: \"diagnostic(of, x);\", position: 0, reason: \"Invalid severity 'of'. Must be one of: off, info, warn, error\" }",
    ),
    (
        "enable  ;",
        "InvalidWgslDirective { directive: \"enable  ;\", position: 0, reason: \"No extensions specified\" }",
    ),
    (
        "\n requires ,, ; \ndiagnostic(of, x);",
        "InvalidWgslDirective { directive: \"requires ,, ;\", position: 1, reason: \"No extensions specified\" }",
    ),
];

#[test]
fn answers_the_first_fault(rt: HostRuntime) -> Result<(), Fail> {
    tells(rt.alloc(), &FAULTS)
}
