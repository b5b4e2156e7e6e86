//! What parts of a text give, and what names mean.

ghost use Rattle.std.specs.Prelude.{◌≡◌};
ghost use Rattle.yettuvam_wgsl_values.specs.Value as spec;
ghost use Rattle.yettuvam_wgsl_values.specs.Value.{what_view, value_view};

use naga_oil_ir::{Index, Operand};
use yettuvam_wgsl_scope::Name;
use yettuvam_wgsl_shape::Number;
use yettuvam_wgsl_types::Shape;

/// What a function returns.
#[derive(Clone, Copy, Debug)]
pub enum Returns {
    Nothing,
    Value(Shape),
}

/// What a part of a text gives.
#[derive(Clone, Copy, Debug)]
pub enum What<'t> {
    /// The expression of a place in memory, which is read where its value is wanted.
    Place(usize),
    /// The expression of a place in memory, of which the pointer is the value.
    Pointer(usize),
    /// An expression.
    Plain(usize),
    /// A literal, a constant or an override of which there is no expression yet.
    Literal(u64, u64),
    Constant(usize),
    Override(usize),
    /// A function of the module.
    Callee(usize, Returns),
    Type(usize),
    /// A word that no declaration of the module means.
    Word(Name<'t>),
    /// `bitcast` with its type.
    Cast(u64),
    /// `var` without an address space, and with one.
    NoSpace,
    Space(u64),
    /// `default` of a switch.
    Default,
    /// What is left out.
    Absent,
    /// The result of a function that returns nothing.
    Nothing,
}

/// A value that nothing has taken yet.
#[derive(Clone, Copy, Debug)]
pub struct Value<'t> {
    pub what: What<'t>,
    pub shape: Shape,
    /// What it is, if the front end can compute it.
    pub number: Option<Number>,
}

/// A value of which nothing more is known.
pub fn bare<'t>(what: What<'t>) -> Value<'t>
    ensures { value_view result ≡ spec.bare (what_view what.entry) }
{
    Value {
        what,
        shape: Shape::Plain,
        number: None,
    }
}

/// A value of a shape.
pub fn shaped<'t>(what: What<'t>, shape: Shape) -> Value<'t>
    ensures { value_view result ≡ spec.shaped (what_view what.entry) shape }
{
    Value {
        what,
        shape,
        number: None,
    }
}

/// The expression of a value that is read.
pub fn handle_of(value: Value<'_>) -> Operand
    ensures { result ≡ spec.handle_of (value_view value.entry) }
{
    match value.what {
        What::Place(place) | What::Pointer(place) | What::Plain(place) => Index::new(place),
        _ => Index::new(0),
    }
}

/// What a declared name means, by its place.
#[derive(Clone, Copy, Debug)]
pub enum Meaning {
    /// An expression of the function.
    Value(usize, Shape, Option<Number>),
    /// The expression of a place, of which the name is a pointer.
    Pointer(usize, Shape),
    /// A variable of the function.
    Variable(usize, Shape),
    /// An argument that is a value, and one that is a pointer.
    Argument(u32, Shape),
    PointerArgument(u32, Shape),
    Constant(usize, Shape, Option<Number>),
    Override(usize),
    /// A global variable, and one that is no place in memory, as a texture.
    Global(usize, Shape),
    Handle(usize, Shape),
    Function(usize, Returns),
    /// An entry point, which nothing calls.
    Entry,
    Type(usize),
}

/// A call or a list of template arguments that is open: the number of values before its arguments.
#[derive(Clone, Copy, Debug)]
pub struct Call {
    pub count: usize,
    /// Whether the result isn't used.
    pub is_statement: bool,
}

/// A selector of a switch.
#[derive(Clone, Copy, Debug)]
pub struct Arm {
    pub value: u64,
    /// Whether the next selector has the body.
    pub falls_through: bool,
}
