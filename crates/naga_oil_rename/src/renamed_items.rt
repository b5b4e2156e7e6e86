//! Copies of items with renamed handles.
ghost use Rattle.std.specs.Prelude.{◌≡◌, Some, IfOk, map, option_map, string_bytes};
ghost use Rattle.naga_oil_ir.specs.Rows.{Text, inner_row, type_row, constant_row, override_row, global_row, size_plain, size_name, member_label, member_type};
ghost use Rattle.naga_oil_rename.specs.Renames.{rename_row, rename_place, under_name};

use super::*;

fn renamed_size<R: Renaming>(names: &R, size: &ArraySize) -> ArraySize
    ensures plain { size_plain result ≡ size_plain size.now }
    ensures name { let r = R.renames names.now in
        size_name result ≡ option_map (rename_place r) (size_name size.now) }
{
    match size {
        ArraySize::Constant(n) => ArraySize::Constant(*n),
        ArraySize::Pending(handle) => ArraySize::Pending(names.pipeline_override(*handle)),
        ArraySize::Dynamic => ArraySize::Dynamic,
    }
}

/// The name of an item, if it has one.
pub type Name = Option<String>;

/// Returns a copy of a name.
///
/// # Errors
/// If out of memory.
pub fn copied_name(name: &Name) -> AllocResult<Name>
    ensures { IfOk result (λ n. option_map string_bytes n ≡ option_map string_bytes name.now) }
{
    match name {
        None => Ok(None),
        Some(text) => Ok(Some(text.clone()?)),
    }
}

/// The members of a struct.
type Members = Vec<StructMember>;

/// Returns copies of members with renamed types.
///
/// # Errors
/// If out of memory.
fn renamed_members<R: Renaming>(
    names: &R,
    list: &[StructMember],
    alloc: Global,
) -> AllocResult<Members>
    ensures labels { IfOk result (λ ms. map member_label ms.items ≡ map member_label list.now) }
    ensures types { let r = R.renames names.now in
        let renamed = map (option_map (rename_place r)) (map member_type list.now) in
        IfOk result (λ ms. map member_type ms.items ≡ renamed) }
{
    let mut out = Vec::new(alloc);
    for of in list {
        let (name, ty) = (copied_name(&of.name)?, names.ty(of.ty));
        out.push(StructMember { name, ty, ..*of })?;
    }
    Ok(out)
}

/// Returns a copy of the structure of a type with renamed handles.
///
/// # Errors
/// If out of memory.
#[rattlefmt::skip]
fn renamed_inner<R: Renaming>(names: &R, inner: &TypeInner, alloc: Global) -> AllocResult<TypeInner>
    ensures { let r = R.renames names.now in
        IfOk result (λ i. (n : Text) → inner_row n i ≡ rename_row r (inner_row n inner.now)) }
{
    rename_kind! { TypeInner, inner, names;
        TypeInner::Pointer { base, space } => TypeInner::Pointer { base: names.ty(*base), space: *space };
        TypeInner::Struct { members, span } =>
            TypeInner::Struct { members: renamed_members(names, members, alloc)?, span: *span };
        TypeInner::Array { base, size, stride } =>
            TypeInner::Array { base: names.ty(*base), size: renamed_size(names, size), stride: *stride };
        TypeInner::BindingArray { base, size } =>
            TypeInner::BindingArray { base: names.ty(*base), size: renamed_size(names, size) };
        @ Scalar Vector Matrix ValuePointer Image Sampler Atomic AccelerationStructure RayQuery;
    }
}

/// Returns a copy of a type with renamed handles, named `name` if a name is given.
///
/// # Errors
/// If out of memory.
pub fn renamed_type<R: Renaming>(
    names: &R,
    ty: &Type,
    name: Name,
    alloc: Global,
) -> AllocResult<Type>
    ensures { let r = R.renames names.now in
        let text = option_map (λ n. Some (string_bytes n)) name in
        IfOk result (λ t. type_row t ≡ under_name text (rename_row r (type_row ty.now))) }
{
    let inner = renamed_inner(names, &ty.inner, alloc)?;
    let name = match name {
        Some(name) => Some(name),
        None => copied_name(&ty.name)?,
    };
    Ok(Type { name, inner })
}

/// Returns a copy of a constant with renamed handles.
///
/// # Errors
/// If out of memory.
pub fn renamed_constant<R: Renaming>(names: &R, item: &Constant) -> AllocResult<Constant>
    ensures { let r = R.renames names.now in
        IfOk result (λ c. constant_row c ≡ rename_row r (constant_row item.now)) }
{
    let name = copied_name(&item.name)?;
    let (ty, init) = (names.ty(item.ty), names.expression(item.init));
    Ok(Constant { name, ty, init })
}

/// Returns a copy of an override with renamed handles.
///
/// # Errors
/// If out of memory.
pub fn renamed_override<R: Renaming>(names: &R, item: &Override) -> AllocResult<Override>
    ensures { let r = R.renames names.now in
        IfOk result (λ c. override_row c ≡ rename_row r (override_row item.now)) }
{
    Ok(Override {
        name: copied_name(&item.name)?,
        id: item.id,
        ty: names.ty(item.ty),
        init: renamed_option(names, item.init),
    })
}

/// Returns a copy of a global variable with renamed handles.
///
/// # Errors
/// If out of memory.
pub fn renamed_global<R: Renaming>(names: &R, item: &GlobalVariable) -> AllocResult<GlobalVariable>
    ensures { let r = R.renames names.now in
        IfOk result (λ c. global_row c ≡ rename_row r (global_row item.now)) }
{
    Ok(GlobalVariable {
        name: copied_name(&item.name)?,
        space: item.space,
        binding: item.binding,
        ty: names.ty(item.ty),
        init: renamed_option(names, item.init),
    })
}
