// Names, values of types and parts of values.
ghost use Rattle.std.specs.Prelude.{◌≡◌, map, option_map};
ghost use Rattle.yettuvam_wgsl_pieces.specs.Pieces.{piece_of};
ghost use Rattle.yettuvam_wgsl_write_expressions.specs.Context.{context_of, scope_of};
ghost use Rattle.yettuvam_wgsl_write_expressions.specs.Expressions as spec;
ghost use Rattle.yettuvam_wgsl_write_expressions.specs.Operands.{Writes};
ghost use Rattle.yettuvam_wgsl_write_types.specs.Types.{values_of};
ghost use Rattle.yettuvam_wgsl_written.specs.Outcomes.{Puts};

use crate::context::{Context, Scope, global_at, push_type, type_at};
use crate::operands::{Known, operand, push_arguments};
use crate::shapes::member_name;
use naga_oil_ir::{GlobalVariable, Handle, Operand, Type, TypeInner};
use yettuvam_wgsl_pieces::{Piece, Sign};
use yettuvam_wgsl_write_types::codes::{HANDLE_SPACE, TYPED_CONST, TYPED_LET};
use yettuvam_wgsl_written::attributes::push_word;
use yettuvam_wgsl_written::written::{place_level, push_base, push_place, push_value};
use yettuvam_wgsl_written::{Level, Refusal, Role, WriteResult, Written};
use yettuvam_wgsl_written_names::name_at;

type Pieces<'m> = Vec<Piece<'m>>;

/// What an expression is, once its pieces are appended.
pub type Pushed = WriteResult<(Level, Role)>;

// Appends a name, if there is one.
pub fn push_name<'m>(
    scope: &Scope<'_, 'm>,
    out: &mut Pieces<'m>,
    name: Option<&'m str>,
    role: Role,
) -> Pushed
    ensures { Writes (spec.named (option_map (λ n. n.now) name.entry) role (scope_of scope.now).span) result (map piece_of out.old.items) (map piece_of out.new.items) }
{
    match name {
        Some(name) => {
            out.push(Piece::Word(name))?;
            Ok((Level::Singular, role))
        }
        None => Err(Refusal::NotInWgsl(scope.span)),
    }
}

// What the name of a global variable is.
fn global_role(context: &Context<'_>, global: Handle<GlobalVariable>) -> Role
    ensures { result ≡ spec.global_role_at (context_of context.now) global }
{
    match global_at(context, global) {
        Some(global) => {
            if global.space == HANDLE_SPACE {
                Role::Value
            } else {
                Role::Place
            }
        }
        None => Role::Value,
    }
}

pub fn push_global<'m>(
    scope: &Scope<'_, 'm>,
    out: &mut Pieces<'m>,
    global: Handle<GlobalVariable>,
) -> Pushed
    ensures { Writes (spec.global (scope_of scope.now) global) result (map piece_of out.old.items) (map piece_of out.new.items) }
{
    let name = name_at(&scope.context.names.globals, global.index());
    let role = global_role(scope.context, global);
    push_name(scope, out, name, role)
}

fn is_pointer(context: &Context<'_>, ty: usize) -> bool
    ensures { result ≡ spec.is_pointer (context_of context.now) ty }
{
    let Some(ty) = type_at(context, ty) else {
        return false;
    };
    match &ty.inner {
        TypeInner::Pointer { .. } => true,
        _ => false,
    }
}

// What the name of an argument is.
fn argument_role(scope: &Scope<'_, '_>, place: usize) -> Role
    ensures { result ≡ spec.argument_role_at (scope_of scope.now) place }
{
    match scope.arguments.get(place) {
        Some(argument) => {
            if is_pointer(scope.context, argument.ty.index()) {
                Role::Pointer
            } else {
                Role::Value
            }
        }
        None => Role::Value,
    }
}

fn argument_name<'m>(scope: &Scope<'_, 'm>, place: usize) -> Option<&'m str>
    ensures { option_map (λ n. n.now) result ≡ spec.argument_name (scope_of scope.now) place }
{
    match scope.own.arguments.get(place) {
        Some(name) => Some(name.as_str()),
        None => None,
    }
}

pub fn push_own_argument<'m>(scope: &Scope<'_, 'm>, out: &mut Pieces<'m>, place: u32) -> Pushed
    ensures { Writes (spec.argument (scope_of scope.now) place) result (map piece_of out.old.items) (map piece_of out.new.items) }
{
    let place = place as usize;
    let name = argument_name(scope, place);
    let role = argument_role(scope, place);
    push_name(scope, out, name, role)
}

fn is_typed(space: u64) -> bool
    ensures { result ≡ spec.is_typed space }
{
    space == TYPED_LET || space == TYPED_CONST
}

// Whether a type is a mark of a `let` or of a `const` with a type.
fn is_typed_copy(context: &Context<'_>, ty: Handle<Type>) -> bool
    ensures { result ≡ spec.is_typed_copy (context_of context.now) ty }
{
    let Some(ty) = type_at(context, ty.index()) else {
        return false;
    };
    match &ty.inner {
        TypeInner::Pointer { space, .. } => is_typed(*space),
        _ => false,
    }
}

pub fn push_copy<'m>(
    scope: &Scope<'_, 'm>,
    known: Known<'_, 'm>,
    out: &mut Pieces<'m>,
    of: Operand,
) -> Pushed
    ensures { Writes (spec.operand_of (scope_of scope.now) (values_of known.now) of) result (map piece_of out.old.items) (map piece_of out.new.items) }
{
    let value = operand(known, of, scope.span)?;
    out.extend_from_slice(&value.pieces)?;
    Ok((value.level, value.role))
}

// Appends a copy of the only operand.
fn push_only<'m>(
    scope: &Scope<'_, 'm>,
    known: Known<'_, 'm>,
    out: &mut Pieces<'m>,
    components: &[Operand],
) -> Pushed
    ensures { Writes (spec.only (values_of known.now) components.now (scope_of scope.now).span) result (map piece_of out.old.items) (map piece_of out.new.items) }
{
    match components {
        [value] => push_copy(scope, known, out, *value),
        [] | [_, _, ..] => Err(Refusal::NotInWgsl(scope.span)),
    }
}

#[tactic(auto, unfolding(crate::specs::Expressions::constructed))]
fn push_constructed<'m>(
    scope: &Scope<'_, 'm>,
    known: Known<'_, 'm>,
    out: &mut Pieces<'m>,
    ty: Handle<Type>,
    components: &[Operand],
) -> WriteResult<()>
    ensures { Puts (spec.constructed (scope_of scope.now) (values_of known.now) ty components.now) result (map piece_of out.old.items) (map piece_of out.new.items) }
{
    push_type(scope.context, out, ty.index(), scope.span)?;
    push_arguments(scope, known, out, components)
}

#[tactic(auto, using(crate::proofs::Following::valued), unfolding(crate::specs::Expressions::composed))]
pub fn push_composed<'m>(
    scope: &Scope<'_, 'm>,
    known: Known<'_, 'm>,
    out: &mut Pieces<'m>,
    ty: Handle<Type>,
    components: &[Operand],
) -> Pushed
    ensures { Writes (spec.composed (scope_of scope.now) (values_of known.now) ty components.now) result (map piece_of out.old.items) (map piece_of out.new.items) }
{
    if is_typed_copy(scope.context, ty) {
        return push_only(scope, known, out, components);
    }
    push_constructed(scope, known, out, ty, components)?;
    Ok((Level::Singular, Role::Value))
}

// A part of a place is a place.
fn part_role(role: Role) -> Role
    ensures { result ≡ spec.part_role role }
{
    match role {
        Role::Value => Role::Value,
        _ => Role::Place,
    }
}

// Appends `BASE[INDEX]`.
#[tactic(auto, unfolding(crate::specs::Expressions::element))]
pub fn push_element<'m>(
    scope: &Scope<'_, 'm>,
    known: Known<'_, 'm>,
    out: &mut Pieces<'m>,
    base: Operand,
    index: Operand,
) -> Pushed
    ensures { Writes (spec.element (scope_of scope.now) (values_of known.now) base index) result (map piece_of out.old.items) (map piece_of out.new.items) }
{
    let base = operand(known, base, scope.span)?;
    let index = operand(known, index, scope.span)?;
    push_base(out, base)?;
    out.push(Piece::Sign(Sign::LeftBracket))?;
    push_value(out, index, true)?;
    out.push(Piece::Sign(Sign::RightBracket))?;
    Ok((Level::Singular, part_role(base.role)))
}

// Appends `BASE.NAME`.
#[tactic(auto, unfolding(crate::specs::Expressions::member))]
pub fn push_member<'m>(
    scope: &Scope<'_, 'm>,
    known: Known<'_, 'm>,
    out: &mut Pieces<'m>,
    of: Operand,
    index: u32,
) -> Pushed
    ensures { Writes (spec.member (scope_of scope.now) (values_of known.now) of index) result (map piece_of out.old.items) (map piece_of out.new.items) }
{
    let base = operand(known, of, scope.span)?;
    let Some(name) = member_name(scope, of, index) else {
        return Err(Refusal::NotInWgsl(scope.span));
    };
    push_base(out, base)?;
    out.push(Piece::Sign(Sign::Dot))?;
    out.push(Piece::Word(name))?;
    Ok((Level::Singular, part_role(base.role)))
}

// Appends `VECTOR.xyz`.
#[tactic(auto, unfolding(crate::specs::Expressions::swizzle))]
pub fn push_swizzle<'m>(
    scope: &Scope<'_, 'm>,
    known: Known<'_, 'm>,
    out: &mut Pieces<'m>,
    vector: Operand,
    size: u64,
    pattern: u64,
) -> Pushed
    ensures { Writes (spec.swizzle (scope_of scope.now) (values_of known.now) size vector pattern) result (map piece_of out.old.items) (map piece_of out.new.items) }
{
    let vector = operand(known, vector, scope.span)?;
    push_base(out, vector)?;
    out.push(Piece::Sign(Sign::Dot))?;
    out.push(Piece::Letters { size, pattern })?;
    Ok((Level::Singular, Role::Value))
}

// Appends the value of a place.
#[tactic(auto, unfolding(crate::specs::Expressions::load))]
pub fn push_load<'m>(
    scope: &Scope<'_, 'm>,
    known: Known<'_, 'm>,
    out: &mut Pieces<'m>,
    pointer: Operand,
) -> Pushed
    ensures { Writes (spec.load (scope_of scope.now) (values_of known.now) pointer) result (map piece_of out.old.items) (map piece_of out.new.items) }
{
    let pointer = operand(known, pointer, scope.span)?;
    push_place(out, pointer, true)?;
    Ok((place_level(pointer), Role::Value))
}
