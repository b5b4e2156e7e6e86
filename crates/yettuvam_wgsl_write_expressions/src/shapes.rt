// What is known of the types of values: whether they have members, and which.
ghost use Rattle.std.specs.Prelude.{◌≡◌, [], ◌∷◌, option_map};
ghost use Rattle.naga_oil_ir.specs.Parts.{parts};
ghost use Rattle.naga_oil_ir.specs.Rows.{type_row};
ghost use Rattle.yettuvam_wgsl_write_expressions.specs.Context.{context_of, scope_of};
ghost use Rattle.yettuvam_wgsl_write_expressions.specs.Shapes as spec;

use crate::context::{Context, Scope, constant_at, global_at, override_at, result_at, type_at};
use crate::functions::{FREXP, MODF};
use naga_oil_ir::{
    Constant, Expression, Function, GlobalVariable, Handle, LocalVariable, Operand, Override,
    StructMember, Type, TypeInner,
};
use yettuvam_wgsl_write_types::codes::{
    ALIAS, FREXP_RESULT, MODF_RESULT, TYPED_CONST, TYPED_LET, result_member_name,
};
use yettuvam_wgsl_written::codes::component_name;

/// What is known of the type of a value, or of the place that an expression names.
#[derive(Clone, Copy, PartialEq, Eq, Debug)]
pub enum Shape {
    /// A value without members of its own.
    Plain,
    /// The type at a place.
    Of(usize),
    /// The result of a built-in function, by the code of its type.
    Result(u64),
}

// Whether a pointer type is seen as what it is a pointer to.
fn passes(space: u64) -> bool
    ensures { result ≡ spec.passes space }
{
    space < ALIAS || space == TYPED_LET || space == TYPED_CONST
}

// The type that a type is seen as: what a pointer is a pointer to.
fn shown(ty: usize, of: &Type) -> usize
    ensures { result ≡ spec.shown ty (type_row of.now) }
{
    match &of.inner {
        TypeInner::Pointer { base, space } => { if passes(*space) { base.index() } else { ty } }
        _ => ty,
    }
}

// The shape of values of a type.
#[tactic(auto, unfolding(crate::specs::Shapes::of_type))]
fn of_type(context: &Context<'_>, ty: Handle<Type>) -> Shape
    ensures { result ≡ spec.of_type (context_of context.now) ty }
{
    match type_at(context, ty.index()) {
        Some(of) => Shape::Of(shown(ty.index(), of)),
        None => Shape::Of(ty.index()),
    }
}

// The shape of an earlier expression.
fn shape_at(scope: &Scope<'_, '_>, operand: Operand) -> Shape
    ensures { result ≡ spec.shape_at (scope_of scope.now) operand }
{
    match scope.shapes.get(operand.index()) {
        Some(shape) => *shape,
        None => Shape::Plain,
    }
}

// The shape of an element of a value of a type.
fn element_of(context: &Context<'_>, of: &Type) -> Shape
    ensures { result ≡ spec.element_of (context_of context.now) (type_row of.now) }
{
    match &of.inner {
        TypeInner::Array { base, .. } | TypeInner::BindingArray { base, .. } => {
            of_type(context, *base)
        }
        _ => Shape::Plain,
    }
}

fn element(context: &Context<'_>, shape: Shape) -> Shape
    ensures { result ≡ spec.element (context_of context.now) shape }
{
    let Shape::Of(ty) = shape else {
        return Shape::Plain;
    };
    match type_at(context, ty) {
        Some(of) => element_of(context, of),
        None => Shape::Plain,
    }
}

// The shape of a member of a struct.
fn named_type(context: &Context<'_>, members: &[StructMember], index: u32) -> Shape
    ensures { result ≡ spec.named_type (context_of context.now) (spec.member_types members.now) index }
{
    match members.get(index as usize) {
        Some(member) => of_type(context, member.ty),
        None => Shape::Plain,
    }
}

// The shape of a member of a value of a type.
fn member_of(context: &Context<'_>, of: &Type, index: u32) -> Shape
    ensures { result ≡ spec.member_of (context_of context.now) (type_row of.now) index }
{
    match &of.inner {
        TypeInner::Struct { members, .. } => named_type(context, members, index),
        _ => Shape::Plain,
    }
}

fn member(context: &Context<'_>, shape: Shape, index: u32) -> Shape
    ensures { result ≡ spec.member (context_of context.now) shape index }
{
    let Shape::Of(ty) = shape else {
        return Shape::Plain;
    };
    match type_at(context, ty) {
        Some(of) => member_of(context, of, index),
        None => Shape::Plain,
    }
}

fn constant_shape(context: &Context<'_>, place: Handle<Constant>) -> Shape
    ensures { result ≡ spec.constant_shape (context_of context.now) place }
{
    match constant_at(context, place) {
        Some(of) => of_type(context, of.ty),
        None => Shape::Plain,
    }
}

fn override_shape(context: &Context<'_>, place: Handle<Override>) -> Shape
    ensures { result ≡ spec.override_shape (context_of context.now) place }
{
    match override_at(context, place) {
        Some(of) => of_type(context, of.ty),
        None => Shape::Plain,
    }
}

fn global_shape(context: &Context<'_>, place: Handle<GlobalVariable>) -> Shape
    ensures { result ≡ spec.global_shape (context_of context.now) place }
{
    match global_at(context, place) {
        Some(of) => of_type(context, of.ty),
        None => Shape::Plain,
    }
}

fn argument_shape(scope: &Scope<'_, '_>, place: u32) -> Shape
    ensures { result ≡ spec.argument_shape (scope_of scope.now) place }
{
    match scope.arguments.get(place as usize) {
        Some(of) => of_type(scope.context, of.ty),
        None => Shape::Plain,
    }
}

fn local_shape(locals: &[usize], place: Handle<LocalVariable>) -> Shape
    ensures { result ≡ spec.local_shape locals.now place }
{
    match locals.get(place.index()) {
        Some(ty) => Shape::Of(*ty),
        None => Shape::Plain,
    }
}

fn result_shape(context: &Context<'_>, place: Handle<Function>) -> Shape
    ensures { result ≡ spec.result_shape (context_of context.now) place }
{
    match result_at(context, place) {
        Some(result) => of_type(context, result.ty),
        None => Shape::Plain,
    }
}

fn math_shape(fun: u64) -> Shape
    ensures { result ≡ spec.math_shape (fun ∷ []) }
{
    match fun {
        MODF => Shape::Result(MODF_RESULT),
        FREXP => Shape::Result(FREXP_RESULT),
        _ => Shape::Plain,
    }
}

fn conversion_shape(scope: &Scope<'_, '_>, of: Operand, convert: u64) -> Shape
    ensures { result ≡ spec.conversion_shape (scope_of scope.now) of convert }
{
    if convert == 0 {
        Shape::Plain
    } else {
        shape_at(scope, of)
    }
}

/// Returns the shape of an expression, from the shapes of the earlier ones. `locals` are the types of the function's locals.
#[rattlefmt::skip]
#[tactic(auto, unfolding(crate::specs::Shapes::shape_of))]
pub fn shape_of(scope: &Scope<'_, '_>, locals: &[usize], of: &Expression) -> Shape
    ensures { result ≡ spec.shape_of (scope_of scope.now) locals.now (parts of.now) }
{
    let context = scope.context;
    match of {
        Expression::ZeroValue(ty)
        | Expression::Compose { ty, .. }
        | Expression::AtomicResult { ty, .. }
        | Expression::WorkGroupUniformLoadResult { ty }
        | Expression::SubgroupOperationResult { ty } => of_type(context, *ty),
        Expression::Constant(place) => constant_shape(context, *place),
        Expression::Override(place) => override_shape(context, *place),
        Expression::GlobalVariable(place) => global_shape(context, *place),
        Expression::LocalVariable(place) => local_shape(locals, *place),
        Expression::FunctionArgument(place) => argument_shape(scope, *place),
        Expression::CallResult(place) => result_shape(context, *place),
        Expression::Access { base, .. } => element(context, shape_at(scope, *base)),
        Expression::AccessIndex { base, index } => member(context, shape_at(scope, *base), *index),
        Expression::Load { pointer } => shape_at(scope, *pointer),
        Expression::Math(of) => math_shape(of.fun),
        Expression::As { expr, convert, .. } => conversion_shape(scope, *expr, *convert),
        Expression::Literal { .. }
        | Expression::RayQueryProceedResult
        | Expression::SubgroupBallotResult
        | Expression::Splat { .. }
        | Expression::Swizzle { .. }
        | Expression::ImageSample(_)
        | Expression::ImageLoad(_)
        | Expression::ImageQuery { .. }
        | Expression::Unary { .. }
        | Expression::Binary { .. }
        | Expression::Select { .. }
        | Expression::Derivative { .. }
        | Expression::Relational { .. }
        | Expression::ArrayLength(_)
        | Expression::RayQueryGetIntersection { .. }
        | Expression::RayQueryVertexPositions { .. } => Shape::Plain,
    }
}

// The name of a member of a struct.
fn label_name(members: &[StructMember], index: u32) -> Option<&str>
    ensures { option_map (λ n. n.now) result ≡ spec.label_name (spec.member_labels members.now) index }
{
    let Some(member) = members.get(index as usize) else {
        return None;
    };
    match &member.name {
        Some(name) => Some(name.as_str()),
        None => None,
    }
}

// The name of a member of a value of a scalar type: of a result of a built-in function, or a component.
fn scalar_member(code: u64, index: u32) -> Option<&'static str>
    ensures { option_map (λ n. n.now) result ≡ spec.scalar_member code index }
{
    if code >= MODF_RESULT {
        result_member_name(code, index)
    } else {
        component_name(index)
    }
}

// The name of a member of a value of a type.
fn member_name_of(of: &Type, index: u32) -> Option<&str>
    ensures { option_map (λ n. n.now) result ≡ spec.member_name_of (type_row of.now) index }
{
    match &of.inner {
        TypeInner::Struct { members, .. } => label_name(members, index),
        TypeInner::Scalar(code) => scalar_member(*code, index),
        _ => component_name(index),
    }
}

// The name of a member of a value of a shape.
fn name_in<'m>(context: &Context<'m>, shape: Shape, index: u32) -> Option<&'m str>
    ensures { option_map (λ n. n.now) result ≡ spec.name_in (context_of context.now) shape index }
{
    match shape {
        Shape::Plain => component_name(index),
        Shape::Result(code) => result_member_name(code, index),
        Shape::Of(ty) => match type_at(context, ty) {
            Some(of) => member_name_of(of, index),
            None => None,
        },
    }
}

/// Returns the name of a member of a value of a shape, if it has one.
#[tactic(auto, unfolding(crate::specs::Shapes::member_name))]
pub fn member_name<'m>(scope: &Scope<'_, 'm>, base: Operand, index: u32) -> Option<&'m str>
    ensures { option_map (λ n. n.now) result ≡ spec.member_name (scope_of scope.now) base index }
{
    name_in(scope.context, shape_at(scope, base), index)
}
