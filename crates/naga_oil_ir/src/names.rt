// The items that an item names, in the order of copying.
ghost use Rattle.std.specs.Prelude.{◌≡◌, ◌∷◌, [], Some, IfOk, map, option_map};
ghost use Rattle.naga_oil_ir.specs.Rows.{Row, size_name as size_name_of, member_type, named_place, type_row, constant_row, override_row, global_row, expression_row};

use super::*;
use ItemPlace::{ConstantItem, ExpressionItem, GlobalItem, OverrideItem, TypeItem};
use std::alloc::{AllocError, Global};

/// The place of an item in the arena of its kind. An expression is a global one.
#[derive(Clone, Copy)]
pub enum ItemPlace {
    TypeItem(Handle<Type>),
    ConstantItem(Handle<Constant>),
    OverrideItem(Handle<Override>),
    GlobalItem(Handle<GlobalVariable>),
    ExpressionItem(Handle<Expression>),
}

/// The items that an item names, in the order of copying; absent ones are `None`.
pub type NameList = Vec<Option<ItemPlace>>;

/// An item that may name others.
pub trait Names {
    ghost row_of: { Self → Row };

    /// Returns the items that the item names.
    ///
    /// # Errors
    /// If out of memory.
    fn names(&self, alloc: Global) -> Result<NameList, AllocError>
        ensures { IfOk result (λ v. v.items ≡ (row_of self.now).names) };
}

fn size_name(size: &ArraySize) -> Option<ItemPlace>
    ensures { result ≡ size_name_of size.now }
{
    match size {
        ArraySize::Pending(handle) => Some(OverrideItem(*handle)),
        _ => None,
    }
}

fn types_of_members(members: &[StructMember], alloc: Global) -> Result<NameList, AllocError>
    ensures { IfOk result (λ v. v.items ≡ map member_type members.now) }
{
    members.iter().map(|m| Some(TypeItem(m.ty))).collect(alloc)
}

fn typed(ty: Handle<Type>, name: Option<ItemPlace>, alloc: Global) -> Result<NameList, AllocError>
    ensures { IfOk result (λ v. v.items ≡ Some (ItemPlace.TypeItem ty) ∷ name ∷ []) }
{
    Vec::from_slice(alloc, &[Some(TypeItem(ty)), name])
}

fn expression_name(operand: Option<Operand>) -> Option<ItemPlace>
    ensures { result ≡ option_map ItemPlace.ExpressionItem operand }
{
    operand.map(|handle| ExpressionItem(handle))
}

impl Names for Type {
    ghost row_of = { type_row };

    fn names(&self, alloc: Global) -> Result<NameList, AllocError> {
        match &self.inner {
            TypeInner::Pointer { base, .. } => Vec::from_slice(alloc, &[Some(TypeItem(*base))]),
            TypeInner::Struct { members, .. } => types_of_members(members, alloc),
            TypeInner::Array { base, size, .. } | TypeInner::BindingArray { base, size } => {
                typed(*base, size_name(size), alloc)
            }
            _ => Ok(Vec::new(alloc)),
        }
    }
}

impl Names for Constant {
    ghost row_of = { constant_row };

    fn names(&self, alloc: Global) -> Result<NameList, AllocError> {
        typed(self.ty, Some(ExpressionItem(self.init)), alloc)
    }
}

impl Names for Override {
    ghost row_of = { override_row };

    fn names(&self, alloc: Global) -> Result<NameList, AllocError> {
        typed(self.ty, expression_name(self.init), alloc)
    }
}

impl Names for GlobalVariable {
    ghost row_of = { global_row };

    fn names(&self, alloc: Global) -> Result<NameList, AllocError> {
        typed(self.ty, expression_name(self.init), alloc)
    }
}

/// Returns the item that an expression names, if it names one.
pub fn named_item(named: Named) -> Option<ItemPlace>
    ensures { result ≡ named_place named }
{
    match named {
        Named::TypeOf(handle) => Some(TypeItem(handle)),
        Named::ConstantAt(handle) => Some(ConstantItem(handle)),
        Named::OverrideAt(handle) => Some(OverrideItem(handle)),
        Named::GlobalAt(handle) => Some(GlobalItem(handle)),
        _ => None,
    }
}

impl Names for Expression {
    ghost row_of = { expression_row };

    fn names(&self, alloc: Global) -> Result<NameList, AllocError> {
        let parts = self.parts(alloc)?;
        let mut names = Vec::new(alloc);
        names.push(named_item(parts.named))?;
        for operand in &parts.operands {
            names.push(expression_name(*operand))?;
        }
        Ok(names)
    }
}

/// An item with a span names what the item names.
impl<T: Names> Names for (T, Span) {
    ghost row_of = { λ e. T.row_of e.0 };

    fn names(&self, alloc: Global) -> Result<NameList, AllocError> {
        self.0.names(alloc)
    }
}
