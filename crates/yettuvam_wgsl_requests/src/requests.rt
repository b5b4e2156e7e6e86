// What needs a name, in the order of the text.
ghost use Rattle.std.specs.Prelude.{◌≡◌, ◌++◌, IfOk, OnOk, option_to_list};
ghost use Rattle.naga_oil_ir.specs.ModuleValue.{expression_values};
ghost use Rattle.yettuvam_wgsl_lines.specs.Line.{line_value, lines_value};
ghost use Rattle.yettuvam_wgsl_uses.specs.Uses.{uses_value};
ghost use Rattle.yettuvam_wgsl_requests.specs.Requests as spec;

use naga_oil_ir::{Arena, Expression, Operand};
use std::alloc::{AllocError, Global};
use yettuvam_wgsl_counts::Declared;
use yettuvam_wgsl_counts::locals::stored_local;
use yettuvam_wgsl_counts::times::{is_never, times_at};
use yettuvam_wgsl_lines::groups::is_set;
use yettuvam_wgsl_lines::{Line, is_emitted};
use yettuvam_wgsl_uses::Uses;
use yettuvam_wgsl_uses::facts::number_at;

/// What has a name in the text of a function.
#[derive(Clone, Copy, PartialEq, Eq, Debug)]
pub enum Subject {
    /// A local variable, by its place.
    Local(usize),
    /// The value of an expression, by its place.
    Value(usize),
}

/// A name that is needed, and the group of the lines that declares it.
#[derive(Clone, Copy, PartialEq, Eq, Debug)]
pub struct Request {
    pub subject: Subject,
    pub group: usize,
}

fn top_request(place: usize, declared: Declared) -> Option<Request>
    ensures { result ≡ spec.top_request place declared }
{
    match declared {
        Declared::AtTop => Some(Request {
            subject: Subject::Local(place),
            group: 0,
        }),
        _ => None,
    }
}

/// Returns the names of the local variables that are declared before the first statement.
///
/// # Errors
/// If out of memory.
pub fn top_requests(alloc: Global, locals: &[Declared]) -> Result<Vec<Request>, AllocError>
    ensures { IfOk result (λ v. v.items ≡ spec.top_requests locals.now) }
{
    locals
        .iter()
        .enumerate()
        .filter_map(|(place, declared)| top_request(place, *declared))
        .collect(alloc)
}

fn is_declared_at(locals: &[Declared], local: usize, at: usize) -> bool
    ensures { result ≡ spec.is_declared_at locals.now local at }
{
    match locals.get(local) {
        Some(Declared::At(place)) => *place == at,
        _ => false,
    }
}

// The local variable that a line declares.
fn local_request(
    uses: &Uses,
    expressions: &Arena<Expression>,
    line: &Line,
    group: usize,
) -> Option<Request>
    ensures { result ≡ spec.local_request (uses_value uses.now) (expression_values expressions.now) (line_value line.now) group }
{
    match stored_local(expressions, line) {
        Some(local) => {
            if is_declared_at(&uses.locals, local, line.at) {
                Some(Request {
                    subject: Subject::Local(local),
                    group,
                })
            } else {
                None
            }
        }
        None => None,
    }
}

// Whether a result is declared: it isn't part of a text, and it is used or has a name.
fn is_kept(uses: &Uses, line: &Line, made: Operand) -> bool
    ensures { result ≡ spec.is_kept (uses_value uses.now) (line_value line.now) made }
{
    !is_set(&uses.merged, made) && (line.is_named || !is_never(times_at(&uses.texts, made.index())))
}

// Whether a line declares the expression that it makes.
fn declares(uses: &Uses, line: &Line, made: Operand) -> bool
    ensures { result ≡ spec.declares (uses_value uses.now) (line_value line.now) made }
{
    if is_emitted(line) {
        is_set(&uses.is_let, made)
    } else {
        is_kept(uses, line, made)
    }
}

fn value_request(uses: &Uses, line: &Line, group: usize) -> Option<Request>
    ensures { result ≡ spec.value_request (uses_value uses.now) (line_value line.now) group }
{
    match line.made {
        Some(made) => {
            if declares(uses, line, made) {
                Some(Request {
                    subject: Subject::Value(made.index()),
                    group,
                })
            } else {
                None
            }
        }
        None => None,
    }
}

// The name that a line declares, if it declares one.
fn line_request(uses: &Uses, expressions: &Arena<Expression>, line: &Line) -> Option<Request>
    ensures { result ≡ spec.line_request (uses_value uses.now) (expression_values expressions.now) (line_value line.now) }
{
    let group = number_at(&uses.groups, line.number);
    match local_request(uses, expressions, line, group) {
        Some(request) => Some(request),
        None => value_request(uses, line, group),
    }
}

/// Returns the names that lines declare.
///
/// # Errors
/// If out of memory.
pub fn line_requests(
    alloc: Global,
    uses: &Uses,
    expressions: &Arena<Expression>,
    lines: &[Line],
) -> Result<Vec<Request>, AllocError>
    ensures { IfOk result (λ v. v.items ≡
        spec.line_requests (uses_value uses.now) (expression_values expressions.now) (lines_value lines.now)) }
{
    let mut requests = Vec::new(alloc);
    let mut rest = lines;
    while let [line, more @ ..] = rest {
        push_any(&mut requests, line_request(uses, expressions, line))?;
        rest = more;
    }
    Ok(requests)
}

fn push_any(out: &mut Vec<Request>, request: Option<Request>) -> Result<(), AllocError>
    ensures { OnOk result (out.new.items ≡ out.old.items ++ option_to_list request) }
{
    match request {
        Some(request) => Ok(out.push(request)?),
        None => Ok(()),
    }
}
