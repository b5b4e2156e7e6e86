use naga_oil_lines::wgsl_directives::{
    DiagnosticDirective, EnableDirective, RequiresDirective, WgslDirectives,
};
use std::alloc::{AllocError, Global};
use std::test::Fail;

fn names(alloc: Global, names: &[&str]) -> Result<Vec<String>, AllocError> {
    let mut all = Vec::new(alloc);
    for name in names {
        all.push(String::from_str(alloc, name)?)?;
    }
    Ok(all)
}

fn push_enable(
    alloc: Global,
    directives: &mut WgslDirectives,
    extensions: &[&str],
) -> Result<(), AllocError> {
    let extensions = names(alloc, extensions)?;
    directives.enables.push(EnableDirective {
        extensions,
        source_location: 7,
    })?;
    Ok(())
}

fn push_require(
    alloc: Global,
    directives: &mut WgslDirectives,
    extensions: &[&str],
) -> Result<(), AllocError> {
    let extensions = names(alloc, extensions)?;
    directives.requires_.push(RequiresDirective {
        extensions,
        source_location: 7,
    })?;
    Ok(())
}

fn diagnostic(alloc: Global) -> Result<DiagnosticDirective, AllocError> {
    Ok(DiagnosticDirective {
        severity: String::from_str(alloc, "warn")?,
        rule: String::from_str(alloc, "derivative_uniformity")?,
        source_location: 7,
    })
}

fn push_diagnostic(alloc: Global, directives: &mut WgslDirectives) -> Result<(), AllocError> {
    directives.diagnostics.push(diagnostic(alloc)?)?;
    Ok(())
}

fn enabling(alloc: Global) -> Result<WgslDirectives, AllocError> {
    let mut directives = WgslDirectives::new(alloc);
    push_enable(alloc, &mut directives, &["f16", "subgroups"])?;
    push_enable(alloc, &mut directives, &["f16"])?;
    push_diagnostic(alloc, &mut directives)?;
    Ok(directives)
}

fn requiring(alloc: Global) -> Result<WgslDirectives, AllocError> {
    let mut directives = WgslDirectives::new(alloc);
    push_require(alloc, &mut directives, &["a", "b", "a"])?;
    Ok(directives)
}

fn of_each_kind(alloc: Global) -> Result<WgslDirectives, AllocError> {
    let mut directives = WgslDirectives::new(alloc);
    push_enable(alloc, &mut directives, &["f16"])?;
    push_require(alloc, &mut directives, &["a"])?;
    push_diagnostic(alloc, &mut directives)?;
    Ok(directives)
}

fn is(told: Result<String, AllocError>, want: &str) -> bool {
    match told {
        Ok(told) => told.as_str() == want,
        Err(_) => false,
    }
}

// Directives that write a text are empty where the text is.
fn write_so(
    alloc: Global,
    directives: Result<WgslDirectives, AllocError>,
    want: &'static str,
) -> Result<(), Fail> {
    let directives = directives?;
    if is(directives.to_wgsl_string(alloc), want) && directives.is_empty() == want.is_empty() {
        Ok(())
    } else {
        Err(Fail::from(want))
    }
}

#[test]
fn writes_enables_and_diagnostics(rt: HostRuntime) -> Result<(), Fail> {
    let want = "enable f16, subgroups;\ndiagnostic(warn, derivative_uniformity);\n\n";
    write_so(rt.alloc(), enabling(rt.alloc()), want)
}

#[test]
fn writes_requires(rt: HostRuntime) -> Result<(), Fail> {
    write_so(rt.alloc(), requiring(rt.alloc()), "requires a, b;\n\n")
}

#[test]
fn writes_nothing(rt: HostRuntime) -> Result<(), Fail> {
    write_so(rt.alloc(), Ok(WgslDirectives::new(rt.alloc())), "")
}

fn are_same(one: &WgslDirectives, other: &WgslDirectives) -> bool {
    one.enables.as_slice() == other.enables.as_slice()
        && one.requires_.as_slice() == other.requires_.as_slice()
        && one.diagnostics.as_slice() == other.diagnostics.as_slice()
}

fn has_same_clone(directives: &WgslDirectives) -> bool {
    match directives.try_clone() {
        Ok(copy) => are_same(&copy, directives),
        Err(_) => false,
    }
}

#[test]
fn clones(rt: HostRuntime) -> Result<(), Fail> {
    match of_each_kind(rt.alloc()) {
        Ok(directives) if has_same_clone(&directives) => Ok(()),
        _ => Err(Fail::from("another clone")),
    }
}
