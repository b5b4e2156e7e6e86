//! The types that handles name, and what they are.
ghost use Rattle.std.specs.Prelude.{◌≡◌, Some, option_copied, option_map};
ghost use Rattle.naga_oil_ir.specs.ModuleValue.{module_value};
ghost use Rattle.naga_oil_ir.specs.Rows.{type_row, size_plain};
ghost use Rattle.yettuvam_wgsl_valid_items.specs.Types as spec;

use naga_oil_ir::{ArraySize, Handle, Module, Type, TypeInner};
use yettuvam_wgsl_names::form_codes::NOT_TOLD;

/// Returns the type that a handle names, if there is one.
#[tactic(auto, using(crate::proofs::RowAt::row_of_type))]
pub fn type_at(of: &Module, ty: Handle<Type>) -> Option<&Type>
    ensures { let row = spec.row_at (module_value of.now).types ty in
        option_map type_row (option_copied result) ≡ row }
{
    of.types.get_handle(ty)
}

// Whether a type is the pseudo-type of what has no written type.
fn is_pseudo_type(ty: &Type) -> bool
    ensures { result ≡ spec.is_pseudo_type (type_row ty.now) }
{
    match &ty.inner {
        TypeInner::Scalar(code) => *code == NOT_TOLD,
        _ => false,
    }
}

/// Returns whether what has this type has no written type.
pub fn is_not_told(of: &Module, ty: Handle<Type>) -> bool
    ensures { result ≡ spec.is_not_told (module_value of.now).types ty }
{
    of.types.get_handle(ty).is_some_and(|t| is_pseudo_type(t))
}

// The number of elements of an array with a written constant size.
fn constant_size(size: ArraySize) -> Option<u32>
    ensures { result ≡ spec.constant_size (size_plain size) }
{
    match size {
        ArraySize::Constant(count) => Some(count),
        ArraySize::Pending(_) | ArraySize::Dynamic => None,
    }
}

// The number of values of a constructor of a struct or an array.
fn value_count(ty: &Type) -> Option<usize>
    ensures { result ≡ spec.value_count (type_row ty.now) }
{
    match &ty.inner {
        TypeInner::Struct { members, .. } => Some(members.len()),
        TypeInner::Array { size, .. } => constant_size(*size).map(|count| count as usize),
        _ => None,
    }
}

fn takes_count(ty: &Type, count: usize) -> bool
    ensures { result ≡ spec.takes_count (spec.value_count (type_row ty.now)) count }
{
    match value_count(ty) {
        Some(expected) => expected == count,
        None => true,
    }
}

/// Returns whether a constructor of a type takes a number of values, as far as the shape of the type tells.
pub fn takes_values(of: &Module, ty: Handle<Type>, count: usize) -> bool
    ensures { result ≡ spec.takes_values (module_value of.now).types ty count }
{
    match type_at(of, ty) {
        Some(ty) => takes_count(ty, count),
        None => true,
    }
}
