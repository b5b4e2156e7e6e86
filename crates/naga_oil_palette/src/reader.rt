// The module of a text, line by line.
ghost use Rattle.std.specs.Prelude.{◌≡◌, IfOk, OnOk, option_map, position};
ghost use Rattle.naga_oil_ir.specs.Backend.{Answers, parse_fault};
ghost use Rattle.naga_oil_ir.specs.ModuleValue.{module_value};
ghost use Rattle.naga_oil_ir.specs.Parts.{parts};
ghost use Rattle.naga_oil_ir.specs.Rows.{constant_row};
ghost use Rattle.naga_oil_palette.specs.Reader as spec;

use naga_oil_ir::{
    BackendRefusal, Constant, Expression, Index, Module, ParseFault, Span, Type, TypeInner,
};
use std::alloc::{AllocError, Global};

// The place `bytes` bytes after another, capped at `u32::MAX`.
fn after(at: u32, bytes: usize) -> u32
    ensures { result ≡ spec.after at bytes }
{
    at.saturating_add(u32::try_from(bytes).unwrap_or(u32::MAX))
}

// Whether a trimmed line is skipped.
fn is_skipped(text: &str) -> bool
    ensures { result ≡ spec.is_skipped text.now }
{
    matches!(text.as_bytes(), [] | [b'#', ..])
}

fn is_named(constant: &Constant, name: &str) -> bool
    ensures { result ≡ spec.is_named name.now (constant_row constant.now) }
{
    match &constant.name {
        Some(text) => text.as_str() == name,
        None => false,
    }
}

// The place of the first constant with a name.
fn place_of(constants: &[(Constant, Span)], name: &str) -> Option<usize>
    ensures { result ≡ position (λ e. spec.is_named name.now (constant_row e.0)) constants.now }
{
    constants
        .iter()
        .position(|constant| is_named(&constant.0, name))
}

// The first constant with a name.
#[tactic(auto, using(crate::proofs::PaletteLemmas::position_rows))]
fn known(of: &Module, name: &str) -> Option<Expression>
    ensures { option_map parts result ≡ spec.known (module_value of.now) name.now }
{
    let place = place_of(of.constants.as_slice(), name)?;
    Some(Expression::Constant(Index::new(place)))
}

// The name of a line, and its colour: a new one, or an earlier one.
fn definition<'t>(of: &Module, text: &'t str) -> Option<(&'t str, Expression)>
    ensures { let told = spec.definition (module_value of.now) text.now in
        option_map (λ r. (r.0.now, parts r.1)) result ≡ told }
{
    match text.split_once('=') {
        Some((name, other)) => Some((name.trim(), known(of, other.trim())?)),
        None => Some((text, Expression::Literal { kind: 1, bits: 0 })),
    }
}

// The module of no lines, which has the one type.
fn no_lines(alloc: Global) -> Result<Module, AllocError>
    ensures { IfOk result (λ m. module_value m ≡ spec.no_lines) }
{
    let mut made = Module::new(alloc);
    let inner = TypeInner::Scalar(1);
    let ty = Type { name: None, inner };
    made.types.insert(ty, Span::UNDEFINED)?;
    Ok(made)
}

// Appends a colour.
fn add(
    alloc: Global,
    of: &mut Module,
    name: &str,
    value: Expression,
    span: Span,
) -> Result<(), AllocError>
    ensures { let made = spec.with_constant span (module_value of.old) (name.now, parts value) in
        OnOk result (module_value of.new ≡ made) }
{
    let name = Some(String::from_str(alloc, name)?);
    let ty = Index::new(0);
    let init = of.global_expressions.append(value, span)?;
    #[rattlefmt::skip]
    of.constants.append(Constant { name, ty, init }, span)?;
    Ok(())
}

// Reads a line, and returns whether the line is understood.
fn read(alloc: Global, of: &mut Module, line: &str, span: Span) -> Result<bool, AllocError>
    ensures { let told = spec.with_line line.now span (module_value of.old) in
        IfOk result (λ said. spec.Reads said (module_value of.new) told) }
{
    let text = line.trim();
    if is_skipped(text) {
        return Ok(true);
    }
    let Some((name, value)) = definition(of, text) else {
        return Ok(false);
    };
    add(alloc, of, name, value, span)?;
    Ok(true)
}

fn not_understood(alloc: Global, span: Span) -> Result<ParseFault, AllocError>
    ensures { IfOk result (λ f. parse_fault f ≡ spec.not_understood span) }
{
    Ok(ParseFault {
        message: String::from_str(alloc, "no such colour")?,
        spans: vec![in alloc; (span, String::new(alloc))]?,
        notes: Vec::new(alloc),
    })
}

// The lines of a text.
fn lines_of<'t>(alloc: Global, text: &'t str) -> Result<Vec<&'t str>, AllocError>
    ensures { IfOk result (λ v. spec.texts v.items ≡ spec.lines text.now) }
{
    let mut lines = Vec::new(alloc);
    for line in text.split('\n') {
        lines.push(line)?;
    }
    Ok(lines)
}

/// The module of a text, or the error of its first line that isn't understood.
pub fn parsed(alloc: Global, text: &str) -> Result<Module, BackendRefusal<ParseFault>>
    ensures { Answers module_value parse_fault result (spec.parsed text.now) }
{
    let mut made = no_lines(alloc)?;
    let lines = lines_of(alloc, text)?;
    let mut at = 0;
    for line in &lines {
        let span = Span::new(at, after(at, line.len()));
        if !read(alloc, &mut made, line, span)? {
            let fault = not_understood(alloc, span)?;
            return Err(BackendRefusal::Fault(fault));
        }
        at = after(span.end, 1);
    }
    Ok(made)
}
