//! What each form of a node does.

ghost use Rattle.std.specs.Prelude.{◌≡◌};
ghost use Rattle.yettuvam_wgsl_bodies.specs.Acts as spec;

use yettuvam_wgsl_machine::symbol::Form;
use yettuvam_wgsl_operators::{AND, OR};

/// What a node does.
#[derive(Clone, Copy, Debug, PartialEq, Eq)]
pub enum Act {
    Nothing,
    Number,
    /// `false` or `true`.
    Truth(bool),
    /// The 1 of `++` and `--`.
    One,
    Name,
    Left,
    Unary(u64),
    Binary(u64),
    Circuit,
    CircuitEnd(u64),
    AddressOf,
    Dereference,
    Member,
    Index,
    Template,
    TemplateEnd,
    Call(bool),
    CallEnd,
    CallStatement,
    Declared,
    Absent,
    NoSpace,
    Let,
    Const,
    Var,
    Assign,
    Again,
    Phony,
    Open,
    Close,
    Inner,
    If,
    Loop,
    Switch,
    Selector,
    DefaultSelector,
    FallThrough,
    SwitchEnd,
    Break,
    Continue,
    Kill,
    Return,
    ReturnValue,
    Assertion,
}

/// What an operator does, by its code.
fn operator_of(form: Form) -> Act
    ensures { result ≡ spec.operator_of form }
{
    match form {
        Form::Negate => Act::Unary(1),
        Form::Not => Act::Unary(2),
        Form::Complement => Act::Unary(3),
        Form::Add => Act::Binary(1),
        Form::Subtract => Act::Binary(2),
        Form::Multiply => Act::Binary(3),
        Form::Divide => Act::Binary(4),
        Form::Remainder => Act::Binary(5),
        Form::BitAnd => Act::Binary(6),
        Form::BitOr => Act::Binary(7),
        Form::BitXor => Act::Binary(8),
        Form::ShiftLeft => Act::Binary(9),
        Form::ShiftRight => Act::Binary(10),
        Form::Equal => Act::Binary(11),
        Form::NotEqual => Act::Binary(12),
        Form::Less => Act::Binary(13),
        Form::LessEqual => Act::Binary(14),
        Form::Greater => Act::Binary(15),
        Form::GreaterEqual => Act::Binary(16),
        _ => Act::Nothing,
    }
}

/// What blocks do, and statements with blocks, and jumps.
fn control_of(form: Form) -> Act
    ensures { result ≡ spec.control_of form }
{
    match form {
        Form::Block => Act::Open,
        Form::BlockEnd => Act::Close,
        Form::BlockStatement => Act::Inner,
        Form::IfEnd => Act::If,
        Form::LoopEnd => Act::Loop,
        Form::Switch => Act::Switch,
        Form::Selector => Act::Selector,
        Form::DefaultSelector => Act::DefaultSelector,
        Form::FallThrough => Act::FallThrough,
        Form::SwitchEnd => Act::SwitchEnd,
        Form::Break => Act::Break,
        Form::Continue => Act::Continue,
        Form::Discard => Act::Kill,
        Form::Return => Act::Return,
        Form::ReturnValue => Act::ReturnValue,
        _ => operator_of(form),
    }
}

/// What declarations and assignments do.
fn declaration_of(form: Form) -> Act
    ensures { result ≡ spec.declaration_of form }
{
    match form {
        Form::Declared => Act::Declared,
        Form::Untyped | Form::NoInitial | Form::NoBreakIf => Act::Absent,
        Form::VarStart => Act::NoSpace,
        Form::Let => Act::Let,
        Form::LocalConst => Act::Const,
        Form::LocalVar => Act::Var,
        Form::Assign => Act::Assign,
        Form::Again => Act::Again,
        Form::Phony => Act::Phony,
        Form::ConstAssert => Act::Assertion,
        _ => control_of(form),
    }
}

/// What calls and template arguments do.
fn call_of(form: Form) -> Act
    ensures { result ≡ spec.call_of form }
{
    match form {
        Form::Template => Act::Template,
        Form::TemplateEnd => Act::TemplateEnd,
        Form::Call => Act::Call(false),
        Form::StatementCall => Act::Call(true),
        Form::CallEnd => Act::CallEnd,
        Form::CallStatement => Act::CallStatement,
        _ => declaration_of(form),
    }
}

/// What a node of a form does.
pub fn act_of(form: Form) -> Act
    ensures { result ≡ spec.act_of form }
{
    match form {
        Form::Number => Act::Number,
        Form::False => Act::Truth(false),
        Form::True => Act::Truth(true),
        Form::One => Act::One,
        Form::Name | Form::TypeName => Act::Name,
        Form::Left | Form::Argument | Form::If | Form::BreakIf => Act::Left,
        Form::AndStart | Form::OrStart => Act::Circuit,
        Form::And => Act::CircuitEnd(AND),
        Form::Or => Act::CircuitEnd(OR),
        Form::AddressOf => Act::AddressOf,
        Form::Dereference => Act::Dereference,
        Form::Member => Act::Member,
        Form::Index => Act::Index,
        _ => call_of(form),
    }
}
