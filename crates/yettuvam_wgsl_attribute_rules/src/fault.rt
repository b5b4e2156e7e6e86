//! What is wrong with an attribute, as a front end reports it.
ghost use Rattle.std.specs.Prelude.{◌≡◌, IfOk};
ghost use Rattle.naga_oil_ir.specs.Backend.{labels, parse_fault};
ghost use Rattle.yettuvam_wgsl_attribute_rules.specs.Fault as spec;

use crate::refusal::{Fault, Reason};
use crate::rules::Companion;
use naga_oil_ir::ParseFault;
use std::alloc::{AllocError, Global};
use yettuvam_wgsl_words::token::Span;

/// The places of a fault, each with its message.
type Places = Vec<(naga_oil_ir::Span, String)>;

fn message(reason: Reason) -> &'static str
    ensures { result.now ≡ spec.message reason }
{
    match reason {
        Reason::Unknown => "unknown attribute",
        Reason::Misplaced => "misplaced attribute",
        Reason::Repeated => "repeated attribute",
        Reason::Excluded => "attributes that exclude each other",
        Reason::Arguments => "wrong number of arguments",
        Reason::Alone(_) => "incomplete attributes",
        Reason::NoResult => "attribute without effect",
    }
}

fn companion_label(companion: Companion) -> &'static str
    ensures { result.now ≡ spec.companion_label companion }
{
    match companion {
        Companion::Location => "needs `@location` beside it",
        Companion::Position => "needs `@builtin(position)` beside it",
        Companion::WorkgroupSize => "needs `@workgroup_size` beside it",
        Companion::Compute => "needs `@compute` beside it",
        Companion::Group => "needs `@group` beside it",
        Companion::Binding => "needs `@binding` beside it",
    }
}

fn label(reason: Reason) -> &'static str
    ensures { result.now ≡ spec.label reason }
{
    match reason {
        Reason::Unknown => "WGSL has no attribute with this name",
        Reason::Misplaced => "does not belong here",
        Reason::Repeated => "stands here again",
        Reason::Excluded => "can't stand beside the first one",
        Reason::Arguments => "this attribute has another number of arguments",
        Reason::Alone(companion) => companion_label(companion),
        Reason::NoResult => "the function has no result",
    }
}

fn span_of(span: Span) -> naga_oil_ir::Span
    ensures { result ≡ spec.span_of span }
{
    naga_oil_ir::Span::new(span.start, span.end)
}

fn push_place(alloc: Global, places: &mut Places, span: Span, label: &str) -> Result<(), AllocError>
    ensures { IfOk result (λ _. labels places.new.items
        ≡ spec.with_place span label.now (labels places.old.items)) }
{
    let label = String::from_str(alloc, label)?;
    places.push((span_of(span), label))?;
    Ok(())
}

fn places(alloc: Global, fault: Fault) -> Result<Places, AllocError>
    ensures { IfOk result (λ v. labels v.items ≡ spec.places fault) }
{
    let mut places = Vec::new(alloc);
    push_place(alloc, &mut places, fault.span, label(fault.reason))?;
    if let Some(first) = fault.first {
        push_place(alloc, &mut places, first, "stands here first")?;
    }
    Ok(places)
}

/// Returns the fault of an attribute as that of a front end.
///
/// # Errors
/// If out of memory.
#[tactic(auto, unfolding(crate::specs::Fault::attribute_fault))]
pub fn attribute_fault(alloc: Global, fault: Fault) -> Result<ParseFault, AllocError>
    ensures { IfOk result (λ f. parse_fault f ≡ spec.attribute_fault fault) }
{
    Ok(ParseFault {
        message: String::from_str(alloc, message(fault.reason))?,
        spans: places(alloc, fault)?,
        notes: Vec::new(alloc),
    })
}
