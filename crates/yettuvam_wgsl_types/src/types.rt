//! The types of a module, each once.

ghost use Rattle.std.specs.Prelude.{◌≡◌, position, option_map, option_copied, string_bytes, map};
ghost use Rattle.naga_oil_ir.specs.Rows.{type_row, member_label, member_type};
ghost use Rattle.yettuvam_wgsl_types.specs.Types as spec;
ghost use Rattle.yettuvam_wgsl_types.specs.Types.{Reads, state_of};

use crate::shape::Shape;
use naga_oil_ir::{ArraySize, Handle, Index, Span, StructMember, Type, TypeInner, UniqueArena};
use std::alloc::{AllocError, Global};
use std::mem;

/// The pseudo-type of what has no type that the front end knows.
pub const NOT_TOLD: u64 = 0;
/// The pseudo-types of the results of `modf`, `frexp` and `atomicCompareExchangeWeak`.
pub const MODF_RESULT: u64 = 64;

pub const FREXP_RESULT: u64 = 65;

pub const EXCHANGE_RESULT: u64 = 66;

/// Pointers of these spaces are marks: an alias, and the type of a `let` or a local `const`.
pub const ALIAS: u64 = 64;

pub const TYPED_LET: u64 = 65;

pub const TYPED_CONST: u64 = 66;

/// A type without a name and without a base, by its code.
#[derive(Clone, Copy)]
pub enum PlainType {
    Scalar(u64),
    Vector(u64),
    Matrix(u64),
    Image(u64),
    Sampler(u64),
    Atomic(u64),
}

/// The member that a name means.
#[derive(Clone, Copy)]
pub enum Member {
    /// Its number, and the place of its type.
    Typed(u32, usize),
    /// Its number.
    Untyped(u32),
    /// The type has members, none of this name.
    Missing,
    /// The type has no members that are known.
    NoStruct,
}

#[derive(Drop)]
pub struct Types {
    alloc: Global,
    pub types: UniqueArena<Type>,
    /// The members of the struct that is read.
    members: Vec<StructMember>,
}

fn plain_inner(ty: PlainType) -> Type
    ensures { type_row result ≡ spec.plain_row ty }
{
    let inner = match ty {
        PlainType::Scalar(code) => TypeInner::Scalar(code),
        PlainType::Vector(code) => TypeInner::Vector(code),
        PlainType::Matrix(code) => TypeInner::Matrix(code),
        PlainType::Image(code) => TypeInner::Image(code),
        PlainType::Sampler(code) => TypeInner::Sampler(code),
        PlainType::Atomic(code) => TypeInner::Atomic(code),
    };
    Type { name: None, inner }
}

fn array_type(base: Handle<Type>, size: ArraySize) -> Type
    ensures { type_row result ≡ spec.array_row base size }
{
    Type {
        name: None,
        inner: TypeInner::Array {
            base,
            size,
            stride: 0,
        },
    }
}

fn binding_array_type(base: Handle<Type>, size: ArraySize) -> Type
    ensures { type_row result ≡ spec.binding_array_row base size }
{
    Type {
        name: None,
        inner: TypeInner::BindingArray { base, size },
    }
}

fn pointer_type(name: Option<String>, base: Handle<Type>, space: u64) -> Type
    ensures { type_row result ≡ spec.pointer_row (option_map string_bytes name) base space }
{
    Type {
        name,
        inner: TypeInner::Pointer { base, space },
    }
}

#[tactic(auto, using(crate::proofs::Same::labels_of, crate::proofs::Same::types_of))]
fn struct_type(name: String, members: Vec<StructMember>) -> Type
    ensures { type_row result ≡ spec.struct_row (string_bytes name) (spec.members_of members) }
{
    Type {
        name: Some(name),
        inner: TypeInner::Struct { members, span: 0 },
    }
}

/// What is known of values of a type, which has a place.
fn shape_by(ty: &Type, place: usize) -> Shape
    ensures { result ≡ spec.row_shape (type_row ty.now) place }
{
    match &ty.inner {
        TypeInner::Scalar(code) => {
            if *code >= MODF_RESULT {
                Shape::Of(place)
            } else {
                Shape::Plain
            }
        }
        TypeInner::Vector(_) | TypeInner::Matrix(_) => Shape::Plain,
        _ => Shape::Of(place),
    }
}

fn scalar_code(ty: &Type) -> Option<u64>
    ensures { result ≡ spec.scalar_row (type_row ty.now) }
{
    match &ty.inner {
        TypeInner::Scalar(code) => Some(*code),
        _ => None,
    }
}

fn bits_code(ty: &Type) -> Option<u64>
    ensures { result ≡ spec.bits_row (type_row ty.now) }
{
    match &ty.inner {
        TypeInner::Scalar(code) => Some(code.saturating_mul(16)),
        TypeInner::Vector(code) => Some(*code),
        _ => None,
    }
}

fn image_code(ty: &Type) -> Option<u64>
    ensures { result ≡ spec.image_row (type_row ty.now) }
{
    match &ty.inner {
        TypeInner::Image(code) => Some(*code),
        _ => None,
    }
}

fn element_base(ty: &Type) -> Option<usize>
    ensures { result ≡ spec.element_base (type_row ty.now) }
{
    match &ty.inner {
        TypeInner::Array { base, .. } => Some(base.index()),
        TypeInner::BindingArray { base, .. } => Some(base.index()),
        _ => None,
    }
}

fn pointer_base(ty: &Type) -> Option<usize>
    ensures { result ≡ spec.pointer_base (type_row ty.now) }
{
    match &ty.inner {
        TypeInner::Pointer { base, space } => (*space < ALIAS).then_some(base.index()),
        _ => None,
    }
}

fn same_text(a: &str, b: &str) -> bool
    ensures { result ≡ spec.same_name_text a.now b.now }
{
    a == b
}

fn has_name(member: &StructMember, name: &str) -> bool
    ensures { result ≡ spec.has_name name.now (member_label member.now) }
{
    match &member.name {
        Some(found) => same_text(found.as_str(), name),
        None => false,
    }
}

fn member_number(place: usize) -> u32
    ensures { result ≡ spec.number_of place }
{
    u32::try_from(place).unwrap_or(u32::MAX)
}

fn first_named(members: &[StructMember], name: &str) -> Option<usize>
    ensures { result ≡ position (λ m. spec.has_name name.now (spec.member_of m).0) members.now }
{
    members.iter().position(|member| has_name(member, name))
}

/// The place of the first member of a name.
fn place_of(members: &[StructMember], name: &str) -> Option<usize>
    ensures { result ≡ spec.member_place (map spec.member_of members.now) name.now }
{
    first_named(members, name)
}

fn typed_at(members: &[StructMember], place: usize) -> Member
    ensures { result ≡ spec.typed_by (map spec.member_of members.now) place }
{
    match members.get(place) {
        Some(member) => Member::Typed(member_number(place), member.ty.index()),
        None => Member::Missing,
    }
}

fn typed_member(members: &[StructMember], name: &str) -> Member
    ensures { result ≡ spec.typed_member (map spec.member_of members.now) name.now }
{
    match place_of(members, name) {
        Some(place) => typed_at(members, place),
        None => Member::Missing,
    }
}

/// The member of a name among the members of a struct's row.
#[tactic(auto, using(crate::proofs::Same::joined_of))]
fn struct_member(members: &[StructMember], name: &str) -> Member
    ensures { let joined = spec.joined (map member_label members.now) (map member_type members.now) in
        result ≡ spec.typed_member joined name.now }
{
    typed_member(members, name)
}

fn one_of(first: &str, second: &str, name: &str) -> Member
    ensures { result ≡ spec.one_of first.now second.now name.now }
{
    if same_text(name, first) {
        Member::Untyped(0)
    } else if same_text(name, second) {
        Member::Untyped(1)
    } else {
        Member::Missing
    }
}

fn result_member(code: u64, name: &str) -> Member
    ensures { result ≡ spec.result_member code name.now }
{
    match code {
        MODF_RESULT => one_of("fract", "whole", name),
        FREXP_RESULT => one_of("fract", "exp", name),
        EXCHANGE_RESULT => one_of("old_value", "exchanged", name),
        _ => Member::NoStruct,
    }
}

fn member_by(ty: &Type, name: &str) -> Member
    ensures { result ≡ spec.row_member (type_row ty.now) name.now }
{
    match &ty.inner {
        TypeInner::Struct { members, .. } => struct_member(members.as_slice(), name),
        TypeInner::Scalar(code) => result_member(*code, name),
        _ => Member::NoStruct,
    }
}

impl Types {
    /// The place of a type, which is put last if it is new.
    #[tactic(auto, unfolding(crate::specs::Types::intern))]
    fn intern(&mut self, ty: Type, at: Span) -> Result<usize, AllocError>
        ensures { Reads (spec.intern (type_row ty) at (state_of self.old)) result (state_of self.new) }
    {
        let place = self.types.insert(ty, at)?;
        Ok(place.index())
    }

    /// The place of a type without a name and without a base.
    #[tactic(auto, unfolding(crate::specs::Types::plain))]
    pub fn plain(&mut self, ty: PlainType) -> Result<usize, AllocError>
        ensures { Reads (spec.plain ty (state_of self.old)) result (state_of self.new) }
    {
        self.intern(plain_inner(ty), Span::UNDEFINED)
    }

    /// The place of an array.
    #[tactic(auto, unfolding(crate::specs::Types::array))]
    pub fn array(&mut self, base: usize, size: ArraySize) -> Result<usize, AllocError>
        ensures { Reads (spec.array base size (state_of self.old)) result (state_of self.new) }
    {
        self.intern(array_type(Index::new(base), size), Span::UNDEFINED)
    }

    /// The place of an array of resources.
    #[tactic(auto, unfolding(crate::specs::Types::binding_array))]
    pub fn binding_array(&mut self, base: usize, size: ArraySize) -> Result<usize, AllocError>
        ensures { Reads (spec.binding_array base size (state_of self.old)) result (state_of self.new) }
    {
        self.intern(binding_array_type(Index::new(base), size), Span::UNDEFINED)
    }

    /// The place of a pointer, or of a mark.
    #[tactic(auto, unfolding(crate::specs::Types::pointer))]
    pub fn pointer(&mut self, base: usize, space: u64) -> Result<usize, AllocError>
        ensures { Reads (spec.pointer base space (state_of self.old)) result (state_of self.new) }
    {
        self.intern(pointer_type(None, Index::new(base), space), Span::UNDEFINED)
    }

    /// The place of a name for a type.
    #[tactic(auto, unfolding(crate::specs::Types::alias))]
    pub fn alias(&mut self, name: String, base: usize, at: Span) -> Result<usize, AllocError>
        ensures { Reads (spec.alias (string_bytes name) base at (state_of self.old)) result (state_of self.new) }
    {
        self.intern(pointer_type(Some(name), Index::new(base), ALIAS), at)
    }

    /// Puts a member last in the struct that is read.
    #[tactic(auto, unfolding(crate::specs::Types::with_member))]
    pub fn with_member(&mut self, member: StructMember) -> Result<(), AllocError>
        ensures { Reads (spec.with_member (spec.member_of member) (state_of self.old)) result (state_of self.new) }
    {
        self.members.push(member)?;
        Ok(())
    }

    /// The place of the struct of the members so far.
    #[tactic(auto, unfolding(crate::specs::Types::struct_end))]
    pub fn struct_end(&mut self, name: String, at: Span) -> Result<usize, AllocError>
        ensures { Reads (spec.struct_end (string_bytes name) at (state_of self.old)) result (state_of self.new) }
    {
        let members = mem::replace(&mut self.members, Vec::new(self.alloc));
        self.intern(struct_type(name, members), at)
    }

    #[tactic(auto, unfolding(crate::specs::Types::row_at), using(crate::proofs::Same::row_of_slice))]
    fn type_at(&self, place: usize) -> Option<&Type>
        ensures { option_map type_row (option_copied result) ≡ spec.row_at (state_of self.now) place }
    {
        let handle: Handle<Type> = Index::new(place);
        self.types.get_handle(handle)
    }

    /// What is known of values of a type.
    #[tactic(auto, unfolding(crate::specs::Types::shape_of))]
    pub fn shape_of(&self, place: usize) -> Shape
        ensures { result ≡ spec.shape_of (state_of self.now) place }
    {
        match self.type_at(place) {
            Some(ty) => shape_by(ty, place),
            None => Shape::Plain,
        }
    }

    /// The code of a scalar type.
    #[tactic(auto, unfolding(crate::specs::Types::scalar_of))]
    pub fn scalar_of(&self, place: usize) -> Option<u64>
        ensures { result ≡ spec.scalar_of (state_of self.now) place }
    {
        match self.type_at(place) {
            Some(ty) => scalar_code(ty),
            None => None,
        }
    }

    /// The code of a scalar or a vector type: 16 times a scalar's, a vector's as it is.
    #[tactic(auto, unfolding(crate::specs::Types::bits_of))]
    pub fn bits_of(&self, place: usize) -> Option<u64>
        ensures { result ≡ spec.bits_of (state_of self.now) place }
    {
        match self.type_at(place) {
            Some(ty) => bits_code(ty),
            None => None,
        }
    }

    /// The code of a texture type.
    #[tactic(auto, unfolding(crate::specs::Types::image_of))]
    pub fn image_of(&self, shape: Shape) -> Option<u64>
        ensures { result ≡ spec.image_of (state_of self.now) shape }
    {
        let Shape::Of(place) = shape else { return None };
        match self.type_at(place) {
            Some(ty) => image_code(ty),
            None => None,
        }
    }

    #[tactic(auto, unfolding(crate::specs::Types::element_at))]
    fn element_at(&self, place: usize) -> Option<usize>
        ensures { result ≡ spec.element_at (state_of self.now) place }
    {
        match self.type_at(place) {
            Some(ty) => element_base(ty),
            None => None,
        }
    }

    fn shape_at(&self, place: Option<usize>) -> Shape
        ensures { result ≡ spec.shape_at (state_of self.now) place }
    {
        match place {
            Some(place) => self.shape_of(place),
            None => Shape::Plain,
        }
    }

    /// The shape of the elements of a value.
    #[tactic(auto, unfolding(crate::specs::Types::element))]
    pub fn element(&self, shape: Shape) -> Shape
        ensures { result ≡ spec.element (state_of self.now) shape }
    {
        match shape {
            Shape::Of(place) => self.shape_at(self.element_at(place)),
            Shape::Plain => Shape::Plain,
        }
    }

    #[tactic(auto, unfolding(crate::specs::Types::pointed_at))]
    fn pointed_at(&self, place: usize) -> Option<usize>
        ensures { result ≡ spec.pointed_at (state_of self.now) place }
    {
        match self.type_at(place) {
            Some(ty) => pointer_base(ty),
            None => None,
        }
    }

    /// The shape of what a pointer of a type points to; a mark is no pointer.
    #[tactic(auto, unfolding(crate::specs::Types::pointed))]
    pub fn pointed(&self, place: usize) -> Option<Shape>
        ensures { result ≡ spec.pointed (state_of self.now) place }
    {
        match self.pointed_at(place) {
            Some(base) => Some(self.shape_of(base)),
            None => None,
        }
    }

    /// The member of a name.
    #[tactic(auto, unfolding(crate::specs::Types::member))]
    pub fn member(&self, shape: Shape, name: &str) -> Member
        ensures { result ≡ spec.member (state_of self.now) shape name.now }
    {
        let Shape::Of(place) = shape else {
            return Member::NoStruct;
        };
        match self.type_at(place) {
            Some(ty) => member_by(ty, name),
            None => Member::NoStruct,
        }
    }

    /// The type of a shape.
    #[tactic(auto, unfolding(crate::specs::Types::type_of))]
    pub fn type_of(&mut self, shape: Shape) -> Result<usize, AllocError>
        ensures { Reads (spec.type_of shape (state_of self.old)) result (state_of self.new) }
    {
        match shape {
            Shape::Of(place) => Ok(place),
            Shape::Plain => self.plain(PlainType::Scalar(NOT_TOLD)),
        }
    }
}

/// No types yet.
pub fn no_types(alloc: Global) -> Types
    ensures { state_of result ≡ spec.none }
{
    Types {
        alloc,
        types: UniqueArena::new(alloc),
        members: Vec::new(alloc),
    }
}
