//! The members of structs.
ghost use Rattle.std.specs.Prelude.{◌≡◌, map, option_map, string_bytes};
ghost use Rattle.naga_oil_ir.specs.ModuleValue.{module_value};
ghost use Rattle.naga_oil_ir.specs.Rows.{type_row, member_label};
ghost use Rattle.yettuvam_wgsl_valid_items.specs.Faults.{Tests};
ghost use Rattle.yettuvam_wgsl_valid_items.specs.Members as spec;

use crate::faults::{Reason, TestResult, refuse};
use naga_oil_ir::{Module, Span, StructMember, Type, TypeInner};

fn is_named(member: &StructMember, name: &str) -> bool
    ensures { result ≡ spec.is_named (member_label member.now).name name.now }
{
    match &member.name {
        Some(own) => own.as_str() == name,
        None => false,
    }
}

fn has_name(members: &[StructMember], name: &str) -> bool
    ensures { result ≡ spec.has_name (map member_label members.now) name.now }
{
    let mut rest = members;
    while let [member, more @ ..] = rest {
        if is_named(member, name) {
            return true;
        }
        rest = more;
    }
    false
}

// Whether one of the members after a member has its name.
fn is_named_again(member: &StructMember, more: &[StructMember]) -> bool
    ensures { let name = (member_label member.now).name in
        result ≡ spec.is_named_again name (map member_label more.now) }
{
    match &member.name {
        Some(name) => has_name(more, name.as_str()),
        None => false,
    }
}

fn have_distinct_names(members: &[StructMember]) -> bool
    ensures { result ≡ spec.have_distinct_names (map member_label members.now) }
{
    let mut rest = members;
    while let [member, more @ ..] = rest {
        if is_named_again(member, more) {
            return false;
        }
        rest = more;
    }
    true
}

fn has_distinct_members(ty: &Type) -> bool
    ensures { result ≡ spec.have_distinct_names (type_row ty.now).label.members }
{
    match &ty.inner {
        TypeInner::Struct { members, .. } => have_distinct_names(members),
        _ => true,
    }
}

fn test_type(ty: &Type, span: Span) -> TestResult
    ensures { Tests (spec.type_valid (type_row ty.now, span)) result }
{
    if has_distinct_members(ty) {
        Ok(())
    } else {
        refuse(Reason::MemberTwice, span)
    }
}

/// Tests that the members of each struct have distinct names.
///
/// # Errors
/// `MemberTwice` at the first struct that breaks the rule.
pub fn test_types(of: &Module) -> TestResult
    ensures { Tests (spec.types_valid (module_value of.now).types) result }
{
    for (ty, span) in of.types.iter() {
        test_type(ty, *span)?;
    }
    Ok(())
}
