// Where local variables are declared.
ghost use Rattle.std.specs.Prelude.{◌≡◌, IfOk, map, replicate};
ghost use Rattle.naga_oil_ir.specs.ModuleValue.{expression_values, function_value, local_values};
ghost use Rattle.naga_oil_ir.specs.Parts.{parts};
ghost use Rattle.yettuvam_wgsl_counts.specs.Locals as spec;
ghost use Rattle.yettuvam_wgsl_lines.specs.Line.{line_value, lines_value};
ghost use Rattle.yettuvam_wgsl_lines.specs.Reader.{body_value};

use naga_oil_ir::{Arena, Expression, Function, Index, LocalVariable, Operand};
use std::alloc::{AllocError, Global};
use yettuvam_wgsl_lines::{Body, Line, STORE};

/// Where a local variable is declared.
#[derive(Clone, Copy, PartialEq, Eq, Debug)]
pub enum Declared {
    /// Nowhere, as no line names it.
    Nowhere,
    /// By the store whose first token has this place.
    At(usize),
    /// Before the first statement.
    AtTop,
}

/// Where a local variable is declared by the lines so far, and the place of the token that ends the scope of the declaration.
#[derive(Clone, Copy, PartialEq, Eq, Debug)]
struct Found {
    declared: Declared,
    end: Option<usize>,
}

/// A line that names a local variable.
#[derive(Clone, Copy)]
struct Mention {
    at: usize,
    /// The place of the token that ends the scope of the block around the line.
    end: Option<usize>,
    /// Whether the line may declare the variable.
    declares: bool,
}

fn make_found(declared: Declared, end: Option<usize>) -> Found
    ensures { result ≡ spec.make_found declared end }
{
    Found { declared, end }
}

fn local_of(expression: &Expression) -> Option<usize>
    ensures { result ≡ spec.local_of (parts expression.now) }
{
    match expression {
        Expression::LocalVariable(local) => Some(local.index()),
        _ => None,
    }
}

/// Returns the local variable that an expression is.
pub fn local_at(expressions: &Arena<Expression>, place: Operand) -> Option<usize>
    ensures { result ≡ spec.local_at (expression_values expressions.now) place }
{
    match expressions.try_get(place) {
        Some(expression) => local_of(expression),
        None => None,
    }
}

/// Returns the local variable to which a line stores a whole value.
pub fn stored_local(expressions: &Arena<Expression>, line: &Line) -> Option<usize>
    ensures { result ≡ spec.stored_local (expression_values expressions.now) (line_value line.now) }
{
    if line.kind != STORE {
        return None;
    }
    match line.operands.first() {
        Some(pointer) => local_at(expressions, *pointer),
        None => None,
    }
}

// Whether a local variable has a value before the first statement.
fn has_value(variables: &Arena<LocalVariable>, local: usize) -> bool
    ensures { result ≡ spec.has_value (local_values variables.now) local }
{
    match variables.try_get(Index::new(local)) {
        Some(local) => local.init.is_some(),
        None => false,
    }
}

// Whether a line may declare a local variable.
fn may_declare(
    expressions: &Arena<Expression>,
    variables: &Arena<LocalVariable>,
    line: &Line,
    local: usize,
) -> bool
    ensures { result ≡
        spec.may_declare (expression_values expressions.now) (local_values variables.now) (line_value line.now) local }
{
    match stored_local(expressions, line) {
        Some(stored) => stored == local && !has_value(variables, local),
        None => false,
    }
}

fn end_of(ends: &[Option<usize>], block: usize) -> Option<usize>
    ensures { result ≡ spec.end_of ends.now block }
{
    match ends.get(block) {
        Some(end) => *end,
        None => None,
    }
}

fn make_mention(ends: &[Option<usize>], line: &Line, declares: bool) -> Mention
    ensures { result ≡ spec.make_mention ends.now (line_value line.now) declares }
{
    Mention {
        at: line.at,
        end: end_of(ends, line.block),
        declares,
    }
}

fn is_within(at: usize, end: Option<usize>) -> bool
    ensures { result ≡ spec.is_within at end }
{
    match end {
        Some(end) => at < end,
        None => true,
    }
}

// The first mention of a local variable.
fn first_found(of: Mention) -> Found
    ensures { result ≡ spec.first_found of }
{
    if of.declares {
        make_found(Declared::At(of.at), of.end)
    } else {
        make_found(Declared::AtTop, None)
    }
}

// A mention after others.
fn still_found(before: Found, of: Mention) -> Found
    ensures { result ≡ spec.still_found before of }
{
    if is_within(of.at, before.end) {
        before
    } else {
        make_found(Declared::AtTop, None)
    }
}

fn next_found(before: Found, of: Mention) -> Found
    ensures { result ≡ spec.next_found before of }
{
    match before.declared {
        Declared::Nowhere => first_found(of),
        _ => still_found(before, of),
    }
}

fn use_local(locals: &mut [Found], local: usize, of: Mention)
    ensures { locals.new ≡ spec.use_local locals.old local of }
{
    if local >= locals.len() {
        return;
    }
    let before = locals[local];
    locals[local] = next_found(before, of);
}

fn use_operand(
    locals: &mut [Found],
    expressions: &Arena<Expression>,
    variables: &Arena<LocalVariable>,
    ends: &[Option<usize>],
    line: &Line,
    operand: Operand,
)
    ensures { locals.new ≡
        spec.use_operand (expression_values expressions.now) (local_values variables.now) ends.now (line_value line.now) operand locals.old }
{
    if let Some(local) = local_at(expressions, operand) {
        let declares = may_declare(expressions, variables, line, local);
        use_local(locals, local, make_mention(ends, line, declares));
    }
}

fn use_operands(
    locals: &mut [Found],
    expressions: &Arena<Expression>,
    variables: &Arena<LocalVariable>,
    ends: &[Option<usize>],
    line: &Line,
)
    ensures { locals.new ≡
        spec.use_operands (expression_values expressions.now) (local_values variables.now) ends.now (line_value line.now) (line_value line.now).operands locals.old }
{
    let mut rest: &[Operand] = &line.operands;
    while let [operand, more @ ..] = rest {
        use_operand(locals, expressions, variables, ends, line, *operand);
        rest = more;
    }
}

fn use_lines(
    locals: &mut [Found],
    expressions: &Arena<Expression>,
    variables: &Arena<LocalVariable>,
    ends: &[Option<usize>],
    lines: &[Line],
)
    ensures { locals.new ≡
        spec.use_lines (expression_values expressions.now) (local_values variables.now) ends.now (lines_value lines.now) locals.old }
{
    let mut rest = lines;
    while let [line, more @ ..] = rest {
        use_operands(locals, expressions, variables, ends, line);
        rest = more;
    }
}

fn all_declared(alloc: Global, locals: &[Found]) -> Result<Vec<Declared>, AllocError>
    ensures { IfOk result (λ v. v.items ≡ map (λ l. l.declared) locals.now) }
{
    locals.iter().map(|local| local.declared).collect(alloc)
}

/// Returns where each local variable of a function is declared: by its first store, if nothing names it before and its block is
/// around all that names it.
///
/// # Errors
/// If out of memory.
#[tactic(auto, unfolding(crate::specs::Locals::locals_of))]
pub fn locals_of(
    alloc: Global,
    function: &Function,
    body: &Body,
) -> Result<Vec<Declared>, AllocError>
    ensures { IfOk result (λ v. v.items ≡ spec.locals_of (function_value function.now) (body_value body.now)) }
{
    let count = function.local_variables.len();
    let mut locals = vec![in alloc; make_found(Declared::Nowhere, None); count]?;
    let variables = &function.local_variables;
    use_lines(
        &mut locals,
        &function.expressions,
        variables,
        &body.ends,
        &body.lines,
    );
    all_declared(alloc, &locals)
}
