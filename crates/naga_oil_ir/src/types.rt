// Types, constants, overrides and variables.
ghost use Rattle.std.proofs.Common.{ap};
ghost use Rattle.naga_oil_ir.specs.Firsts.{hashed};
ghost use Rattle.naga_oil_ir.specs.contracts.types.ConstantHash.TheImpl.{ghosts as constant_hash};
ghost use Rattle.naga_oil_ir.specs.contracts.types.ConstantHash.TheImpl.Laws.{respects_eq-law as constant_law};
ghost use Rattle.naga_oil_ir.specs.contracts.types.OverrideHash.TheImpl.{ghosts as override_hash};
ghost use Rattle.naga_oil_ir.specs.contracts.types.OverrideHash.TheImpl.Laws.{respects_eq-law as override_law};
ghost use Rattle.naga_oil_ir.specs.contracts.types.GlobalVariableHash.TheImpl.{ghosts as global_hash};
ghost use Rattle.naga_oil_ir.specs.contracts.types.GlobalVariableHash.TheImpl.Laws.{respects_eq-law as global_law};

use super::firsts::hashed;
use super::{Expression, Handle, Item, Merge, kind};

/// The number of elements of an array.
#[derive(Clone, Copy, PartialEq, Eq, Hash)]
pub enum ArraySize {
    Constant(u32),
    Pending(Handle<Override>),
    Dynamic,
}

/// A member of a struct.
#[derive(PartialEq, Eq, Hash, Drop)]
pub struct StructMember {
    pub name: Option<String>,
    pub ty: Handle<Type>,
    pub binding: Option<u64>,
    pub offset: u32,
}

/// The structure of a type, without its name.
#[derive(PartialEq, Eq, Hash, Drop)]
#[rattlefmt::skip]
pub enum TypeInner {
    Scalar(u64),
    Vector(u64),
    Matrix(u64),
    ValuePointer(u64),
    Image(u64),
    Sampler(u64),
    Atomic(u64),
    AccelerationStructure(u64),
    RayQuery(u64),
    Pointer { base: Handle<Type>, space: u64 },
    Struct { members: Vec<StructMember>, span: u32 },
    Array { base: Handle<Type>, size: ArraySize, stride: u32 },
    BindingArray { base: Handle<Type>, size: ArraySize },
}

/// A type.
#[derive(PartialEq, Eq, Hash, Drop)]
pub struct Type {
    pub name: Option<String>,
    pub inner: TypeInner,
}

impl Item for Type {
    type Kind = kind::Type;

    ghost digest = { λ _. 0 };

    fn digest(&self) -> u64 {
        0
    }
}

/// A constant.
#[derive(PartialEq, Eq, Hash, Drop)]
pub struct Constant {
    pub name: Option<String>,
    pub ty: Handle<Type>,
    pub init: Handle<Expression>,
}

impl Item for Constant {
    type Kind = kind::Constant;

    ghost digest = { λ x. hashed (constant_hash.hash_input x) };

    fn digest(&self) -> u64 {
        hashed(self)
    }
}

impl Merge for Constant {
    ghost respects_eq = { λ x y h. ap hashed (constant_law x y h) };
}

/// A constant whose value a pipeline may override.
#[derive(PartialEq, Eq, Hash, Drop)]
pub struct Override {
    pub name: Option<String>,
    pub id: Option<u64>,
    pub ty: Handle<Type>,
    pub init: Option<Handle<Expression>>,
}

impl Item for Override {
    type Kind = kind::Override;

    ghost digest = { λ x. hashed (override_hash.hash_input x) };

    fn digest(&self) -> u64 {
        hashed(self)
    }
}

impl Merge for Override {
    ghost respects_eq = { λ x y h. ap hashed (override_law x y h) };
}

/// A global variable.
#[derive(PartialEq, Eq, Hash, Drop)]
pub struct GlobalVariable {
    pub name: Option<String>,
    pub space: u64,
    pub binding: Option<u64>,
    pub ty: Handle<Type>,
    pub init: Option<Handle<Expression>>,
}

impl Item for GlobalVariable {
    type Kind = kind::GlobalVariable;

    ghost digest = { λ x. hashed (global_hash.hash_input x) };

    fn digest(&self) -> u64 {
        hashed(self)
    }
}

impl Merge for GlobalVariable {
    ghost respects_eq = { λ x y h. ap hashed (global_law x y h) };
}

/// A local variable of a function.
#[derive(Drop)]
pub struct LocalVariable {
    pub name: Option<String>,
    pub ty: Handle<Type>,
    pub init: Option<Handle<Expression>>,
}

impl Item for LocalVariable {
    type Kind = kind::LocalVariable;

    ghost digest = { λ _. 0 };

    fn digest(&self) -> u64 {
        0
    }
}
