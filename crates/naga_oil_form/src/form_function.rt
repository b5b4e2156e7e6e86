// The test of form of functions and entry points.
ghost use Rattle.std.specs.Prelude.{◌≡◌, ◌↔◌, ◌<◌, IsTrue, IfOk, IfSome, All, length, Some};
ghost use Rattle.naga_oil_form.specs.WellFormed.{NamedThere, SignatureForm, ExpressionsForm, initialisers_of, initialisers, SpansWithin, IsBare, FunctionForm, IsExpressionThere, MeshForm, EntryForm};

use super::body::may_stand;
use super::form::{are_spans_fine, are_tokens_fine, read};
use naga_oil_ir::{
    EntryPoint, Expression, Function, FunctionArgument, FunctionResult, Handle, Index,
    LocalVariable, MeshInfo, Module, Named, NamedExpressions, Span, Token, Type, push_block,
};
use naga_oil_words::AllocResult;
use std::alloc::{AllocError, Global};

fn is_type_there(of: &Module, ty: Handle<Type>) -> bool
    ensures { IsTrue result ↔ (ty < length of.now.types) }
{
    ty.index() < of.types.len()
}

/// Returns whether the types of arguments exist.
fn arguments_are_there(of: &Module, arguments: &[FunctionArgument]) -> bool
    ensures { IsTrue result ↔ All (λ a. a.ty < length of.now.types) arguments.now }
{
    arguments.iter().all(|item| is_type_there(of, item.ty))
}

/// Returns whether the type of a result exists.
fn result_is_there(of: &Module, outcome: Option<FunctionResult>) -> bool
    ensures { IsTrue result ↔ IfSome outcome (λ r. r.ty < length of.now.types) }
{
    outcome.is_none_or(|outcome| is_type_there(of, outcome.ty))
}

/// Returns whether the types of local variables exist.
fn locals_are_there(of: &Module, locals: &[(LocalVariable, Span)]) -> bool
    ensures { IsTrue result ↔ All (λ l. l.0.ty < length of.now.types) locals.now }
{
    locals.iter().all(|local| is_type_there(of, local.0.ty))
}

fn are_handles_below(handles: &[Handle<Expression>], limit: usize) -> bool
    ensures { IsTrue result ↔ All (λ h. h < limit) handles.now }
{
    handles.iter().all(|handle| handle.index() < limit)
}

fn names_are_there(names: &NamedExpressions, limit: usize) -> bool
    ensures { IsTrue result ↔ All (λ e. e.0 < limit) names.now.entries }
{
    let handles = names.as_slice().keys().as_slice();
    are_handles_below(handles, limit)
}

/// Returns the initialisers of local variables, in order.
///
/// # Errors
/// If out of memory.
fn initialisers(locals: &[(LocalVariable, Span)], alloc: Global) -> Result<Vec<usize>, AllocError>
    ensures { IfOk result (λ v. v.items ≡ initialisers_of locals.now) }
{
    let mut inits = Vec::new(alloc);
    for local in locals {
        let Some(handle) = local.0.init else { continue };
        inits.push(handle.index())?;
    }
    Ok(inits)
}

/// Returns whether the item that an expression of a function names exists.
fn is_named_there(of: &Module, function: &Function, named: Named) -> bool
    ensures { IsTrue result ↔ NamedThere of.now function.now named }
{
    match named {
        Named::Nothing => true,
        Named::TypeOf(handle) => handle.index() < of.types.len(),
        Named::ConstantAt(handle) => handle.index() < of.constants.len(),
        Named::OverrideAt(handle) => handle.index() < of.overrides.len(),
        Named::GlobalAt(handle) => handle.index() < of.global_variables.len(),
        Named::LocalAt(handle) => handle.index() < function.local_variables.len(),
        Named::ArgumentAt(place) => (place as usize) < function.arguments.len(),
        Named::FunctionAt(handle) => handle.index() < of.functions.len(),
    }
}

fn are_named_there(of: &Module, function: &Function, named: &[Named]) -> bool
    ensures { IsTrue result ↔ All (NamedThere of.now function.now) named.now }
{
    named.iter().all(|item| is_named_there(of, function, *item))
}

fn signature_is_fine(of: &Module, function: &Function) -> bool
    ensures { IsTrue result ↔ SignatureForm of.now function.now }
{
    arguments_are_there(of, &function.arguments)
        && result_is_there(of, function.result)
        && locals_are_there(of, function.local_variables.as_slice())
        && names_are_there(&function.named_expressions, function.expressions.len())
}

fn spans_are_within(function: &Function, text_len: usize) -> bool
    ensures { IsTrue result ↔ SpansWithin text_len function.now }
{
    are_spans_fine(function.local_variables.as_slice(), text_len)
        && are_spans_fine(function.expressions.as_slice(), text_len)
}

/// Returns whether the items that the expressions of a function name exist, and the expressions may stand with its body.
///
/// # Errors
/// If out of memory.
fn expressions_are_fine(
    of: &Module,
    function: &Function,
    tokens: &[Token],
    alloc: Global,
) -> AllocResult<bool>
    ensures { IfOk result (λ b. IsTrue b ↔ ExpressionsForm of.now function.now tokens.now) }
{
    let read = read(function.expressions.as_slice(), alloc)?;
    let inits = initialisers(function.local_variables.as_slice(), alloc)?;
    let stand = may_stand(&read, &inits, tokens, alloc)?;
    Ok(are_named_there(of, function, &read.named) & stand)
}

/// Returns whether a function has neither local variables, expressions nor statements. Its form is then that of its signature.
fn is_bare(function: &Function) -> bool
    ensures { IsTrue result ↔ IsBare function.now }
{
    function.local_variables.len() == 0
        && function.expressions.len() == 0
        && function.body.body.is_empty()
}

/// Returns whether a function passes the test of form in a text of `text_len` bytes and calls only the first `calls_below`
/// functions.
///
/// # Errors
/// If out of memory.
pub fn function_is_fine(
    of: &Module,
    function: &Function,
    calls_below: usize,
    text_len: usize,
    alloc: Global,
) -> AllocResult<bool>
    ensures { IfOk result (λ b. IsTrue b ↔ FunctionForm of.now calls_below text_len function.now) }
{
    let signed = signature_is_fine(of, function);
    if !signed || is_bare(function) {
        return Ok(signed);
    }
    let mut tokens = Vec::new(alloc);
    push_block(&function.body, &mut tokens)?;
    let fine = expressions_are_fine(of, function, &tokens, alloc)?;
    let spanned = spans_are_within(function, text_len);
    Ok(fine & spanned & are_tokens_fine(&tokens, calls_below, text_len))
}

/// Returns whether a handle is absent or below `limit`.
fn is_below<K>(handle: Option<Index<K>>, limit: usize) -> bool
    ensures { IsTrue result ↔ IfSome handle (λ k. k < limit) }
{
    handle.is_none_or(|handle| handle.index() < limit)
}

/// Returns whether the items that the output of a mesh shader names exist.
fn is_mesh_there(of: &Module, mesh: Option<MeshInfo>) -> bool
    ensures { IsTrue result ↔ IfSome mesh (MeshForm of.now) }
{
    let Some(mesh) = mesh else { return true };
    is_type_there(of, mesh.vertex_output_type)
        && is_type_there(of, mesh.primitive_output_type)
        && mesh.output.index() < of.global_variables.len()
        && is_below(mesh.max_vertices, of.global_expressions.len())
        && is_below(mesh.max_primitives, of.global_expressions.len())
}

fn are_sizes_there(of: &Module, sizes: Option<[Option<Handle<Expression>>; 3]>) -> bool
    ensures { IsTrue result ↔ IfSome sizes (λ os. All (IsExpressionThere of.now) os) }
{
    let limit = of.global_expressions.len();
    match sizes {
        None => true,
        Some(sizes) => sizes.iter().all(|size| is_below(*size, limit)),
    }
}

/// Returns whether an entry point passes the test of form in a text of `text_len` bytes.
///
/// # Errors
/// If out of memory.
fn entry_is_fine(
    of: &Module,
    entry: &EntryPoint,
    text_len: usize,
    alloc: Global,
) -> AllocResult<bool>
    ensures { IfOk result (λ b. IsTrue b ↔ EntryForm of.now text_len entry.now) }
{
    let fine = function_is_fine(of, &entry.function, of.functions.len(), text_len, alloc)?;
    Ok(
        fine && are_sizes_there(of, entry.workgroup_size_overrides)
            && is_mesh_there(of, entry.mesh_info)
            && is_below(entry.task_payload, of.global_variables.len()),
    )
}

/// Returns whether entry points pass the test of form in a text of `text_len` bytes.
///
/// # Errors
/// If out of memory.
pub fn entries_are_fine(of: &Module, text_len: usize, alloc: Global) -> AllocResult<bool>
    ensures { let entries = of.now.entry_points.items in
        IfOk result (λ b. IsTrue b ↔ All (EntryForm of.now text_len) entries) }
{
    for entry in &of.entry_points {
        if !entry_is_fine(of, entry, text_len, alloc)? {
            return Ok(false);
        }
    }
    Ok(true)
}
