//! What WGSL says of each attribute.
ghost use Rattle.std.specs.Prelude.{◌≡◌};
ghost use Rattle.yettuvam_wgsl_attribute_rules.specs.Rules as spec;

use crate::words::{Attribute, is_same};

/// What attributes stand on.
#[derive(Clone, Copy, Debug, PartialEq, Eq)]
pub enum Place {
    Member,
    /// A parameter or a result.
    Value,
    /// A variable of the module.
    Variable,
    Override,
    Function,
    /// A compound statement, a statement with one in it, or the body of a `switch`.
    Compound,
    /// What takes no attributes: a declaration in a function, or another statement.
    Other,
}

/// What an attribute needs beside it.
#[derive(Clone, Copy, Debug, PartialEq, Eq)]
pub enum Companion {
    Location,
    /// `@builtin(position)`.
    Position,
    WorkgroupSize,
    Compute,
    Group,
    Binding,
}

/// Whether an attribute says how a value enters or leaves a shader.
fn is_of_value(attribute: Attribute) -> bool
    ensures { result ≡ spec.is_of_value attribute }
{
    match attribute {
        Attribute::Location | Attribute::BuiltIn => true,
        Attribute::Interpolate | Attribute::Invariant => true,
        _ => false,
    }
}

/// Whether an attribute belongs to members alone.
fn is_of_member(attribute: Attribute) -> bool
    ensures { result ≡ spec.is_of_member attribute }
{
    match attribute {
        Attribute::Align | Attribute::Size | Attribute::BlendSrc => true,
        _ => false,
    }
}

/// Whether an attribute is a part of a binding.
fn is_of_variable(attribute: Attribute) -> bool
    ensures { result ≡ spec.is_of_variable attribute }
{
    match attribute {
        Attribute::Group | Attribute::Binding => true,
        _ => false,
    }
}

/// Whether an attribute makes a function the entry point of a stage.
fn is_stage(attribute: Attribute) -> bool
    ensures { result ≡ spec.is_stage attribute }
{
    match attribute {
        Attribute::Compute | Attribute::Fragment | Attribute::Vertex => true,
        _ => false,
    }
}

/// Whether an attribute that is no stage belongs to functions.
fn is_of_function(attribute: Attribute) -> bool
    ensures { result ≡ spec.is_of_function attribute }
{
    match attribute {
        Attribute::WorkgroupSize | Attribute::MustUse | Attribute::Diagnostic => true,
        _ => false,
    }
}

/// Returns whether an attribute may stand at a place.
pub fn belongs(attribute: Attribute, place: Place) -> bool
    ensures { result ≡ spec.belongs attribute place }
{
    match place {
        Place::Member => is_of_value(attribute) || is_of_member(attribute),
        Place::Value => is_of_value(attribute),
        Place::Variable => is_of_variable(attribute),
        Place::Override => is_same(attribute, Attribute::Id),
        Place::Function => is_stage(attribute) || is_of_function(attribute),
        Place::Compound => is_same(attribute, Attribute::Diagnostic),
        Place::Other => false,
    }
}

/// Returns whether an attribute may have a number of arguments.
pub fn takes(attribute: Attribute, count: usize) -> bool
    ensures { result ≡ spec.takes attribute count }
{
    match attribute {
        Attribute::Compute | Attribute::Fragment | Attribute::Vertex => count == 0,
        Attribute::Const | Attribute::Invariant | Attribute::MustUse => count == 0,
        Attribute::Diagnostic => count == 2,
        Attribute::Interpolate => count == 1 || count == 2,
        Attribute::WorkgroupSize => 1 <= count && count <= 3,
        _ => count == 1,
    }
}

/// Whether an attribute says where a value of a shader comes from or goes to.
fn is_way(attribute: Attribute) -> bool
    ensures { result ≡ spec.is_way attribute }
{
    match attribute {
        Attribute::Location | Attribute::BuiltIn => true,
        _ => false,
    }
}

/// Whether an attribute may stand twice on one thing.
fn may_repeat(attribute: Attribute) -> bool
    ensures { result ≡ spec.may_repeat attribute }
{
    is_same(attribute, Attribute::Diagnostic)
}

/// Returns whether two attributes can't stand on one thing.
pub fn excludes(a: Attribute, b: Attribute) -> bool
    ensures { result ≡ spec.excludes a b }
{
    if is_same(a, b) {
        !may_repeat(a)
    } else {
        is_stage(a) && is_stage(b) || is_way(a) && is_way(b)
    }
}

/// Returns what an attribute needs beside it.
pub fn companion_of(attribute: Attribute) -> Option<Companion>
    ensures { result ≡ spec.companion_of attribute }
{
    match attribute {
        Attribute::Interpolate | Attribute::BlendSrc => Some(Companion::Location),
        Attribute::Invariant => Some(Companion::Position),
        Attribute::Compute => Some(Companion::WorkgroupSize),
        Attribute::WorkgroupSize => Some(Companion::Compute),
        Attribute::Binding => Some(Companion::Group),
        Attribute::Group => Some(Companion::Binding),
        _ => None,
    }
}
