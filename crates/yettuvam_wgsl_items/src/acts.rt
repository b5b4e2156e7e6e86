//! What a node does among items, by its form.

ghost use Rattle.std.specs.Prelude.{◌≡◌};
ghost use Rattle.yettuvam_wgsl_items.specs.Acts as spec;

use yettuvam_wgsl_machine::symbol::Form;

/// What a node does among items.
#[derive(Clone, Copy, Debug, PartialEq, Eq)]
pub enum ItemAct {
    AttributeName,
    Attribute,
    Diagnostic,
    /// The name of an alias or a struct.
    Name,
    /// The name of a member or an argument.
    Part,
    Member,
    FunctionName,
    Parameter,
    Result,
    NoResult,
    Alias,
    Struct,
    Constant,
    Override,
    Variable,
    Function,
    /// A node of an expression or of a body.
    Body,
}

/// What a node of a form does.
pub fn act_of(form: Form) -> ItemAct
    ensures { result ≡ spec.act_of form }
{
    match form {
        Form::AttributeName | Form::DiagnosticStart => ItemAct::AttributeName,
        Form::Attribute => ItemAct::Attribute,
        Form::Diagnostic => ItemAct::Diagnostic,
        Form::AliasName | Form::StructName => ItemAct::Name,
        Form::MemberName | Form::ParameterName => ItemAct::Part,
        Form::StructMember => ItemAct::Member,
        Form::FunctionName => ItemAct::FunctionName,
        Form::Parameter => ItemAct::Parameter,
        Form::Result => ItemAct::Result,
        Form::NoResult => ItemAct::NoResult,
        Form::Alias => ItemAct::Alias,
        Form::Struct => ItemAct::Struct,
        Form::Const => ItemAct::Constant,
        Form::Override => ItemAct::Override,
        Form::Var => ItemAct::Variable,
        Form::Function => ItemAct::Function,
        _ => ItemAct::Body,
    }
}
