//! The faults of a text.
ghost use Rattle.std.specs.Prelude.{◌≡◌, IfOk, string_bytes, option_map, map};
ghost use Rattle.naga_oil_ir.specs.Backend.{parse_fault, labels};
ghost use Rattle.yettuvam_wgsl_words.specs.Scan.{view};
ghost use Rattle.yettuvam_wgsl_faults.specs.Fault as spec;

use crate::notes::{between, glsl_note, syntax_note};
use crate::tables::{KINDS, NO_MEANING, NO_TOKEN, RULES, text_of};
use naga_oil_ir::ParseFault;
use std::alloc::{AllocError, Global};
use yettuvam_wgsl_machine::refusal;
use yettuvam_wgsl_scope as scope;
use yettuvam_wgsl_words::token::{Span, Token};

/// A message in two parts.
type Message = (&'static str, &'static str);

/// The places of a fault, each with its message.
type Places = Vec<(naga_oil_ir::Span, String)>;

fn span_of(span: Span) -> naga_oil_ir::Span
    ensures { result ≡ spec.span_of span }
{
    naga_oil_ir::Span::new(span.start, span.end)
}

fn message_of(reason: refusal::Reason) -> Message
    ensures { (result.0.now, result.1.now) ≡ spec.message_of reason }
{
    match reason {
        refusal::Reason::Words(reason) => ("", text_of(&NO_TOKEN, &reason)),
        refusal::Reason::Wanted(kind) => ("expected ", text_of(&KINDS, &kind)),
        refusal::Reason::Unexpected(rule) => ("expected ", text_of(&RULES, &rule)),
        refusal::Reason::DeepBlocks => ("", "more than 256 blocks are open"),
        refusal::Reason::DeepParts => ("", "more than 10000 parts of expressions are open"),
        refusal::Reason::Endless => ("", "the grammar has no end"),
    }
}

/// What is found at a place, in quotes.
fn label(alloc: Global, found: &[u8]) -> Result<String, AllocError>
    ensures { IfOk result (λ s. string_bytes s ≡ spec.label found.now) }
{
    if found.is_empty() {
        return String::from_str(alloc, "the end of the text");
    }
    let found = String::from_utf8_lossy(alloc, found)?;
    format!(in alloc; "`{}`", found.as_str())
}

fn first_label(reason: scope::Reason) -> &'static str
    ensures { result.now ≡ spec.first_label reason }
{
    match reason {
        scope::Reason::DeclaredTwice => "first declared here",
        _ => "this item leads back to it",
    }
}

fn places(alloc: Global, found: &[u8], span: Span) -> Result<Places, AllocError>
    ensures { IfOk result (λ v. labels v.items ≡ spec.places found.now span) }
{
    let label = label(alloc, found)?;
    Ok(vec![in alloc; (span_of(span), label)]?)
}

fn push_first(
    alloc: Global,
    places: &mut Places,
    fault: scope::refusal::Fault,
) -> Result<(), AllocError>
    ensures { IfOk result (λ _. labels places.new.items
        ≡ spec.with_first fault (labels places.old.items)) }
{
    if let Some(first) = fault.first {
        let label = String::from_str(alloc, first_label(fault.reason))?;
        places.push((span_of(first), label))?;
    }
    Ok(())
}

fn notes(alloc: Global, note: Option<&'static str>) -> Result<Vec<String>, AllocError>
    ensures { IfOk result (λ v. map string_bytes v.items
        ≡ spec.notes (option_map (λ n. n.now) note.entry)) }
{
    match note {
        None => Ok(Vec::new(alloc)),
        Some(note) => Ok(vec![in alloc; String::from_str(alloc, note)?]?),
    }
}

fn message_text(alloc: Global, message: Message) -> Result<String, AllocError>
    ensures { IfOk result (λ s. string_bytes s
        ≡ spec.joined (message.entry.0.now, message.entry.1.now)) }
{
    format!(in alloc; "{}{}", message.0, message.1)
}

/// The fault of a text that is no module of the grammar. `tokens` are those of the text, as far as it has tokens.
#[tactic(auto, unfolding(crate::specs::Fault::syntax_fault))]
pub fn syntax_fault(
    alloc: Global,
    text: &str,
    tokens: &[Token<'_>],
    fault: refusal::Fault,
) -> Result<ParseFault, AllocError>
    ensures { IfOk result (λ f. parse_fault f
        ≡ spec.syntax_fault text.now (view tokens.now) fault) }
{
    let found = between(text, fault.span.start, fault.span.end);
    Ok(ParseFault {
        message: message_text(alloc, message_of(fault.reason))?,
        spans: places(alloc, found, fault.span)?,
        notes: notes(alloc, syntax_note(text, tokens, fault.reason, fault.span))?,
    })
}

/// The fault of a text whose syntax is right, and that has no meaning.
#[tactic(auto, unfolding(crate::specs::Fault::meaning_fault))]
pub fn meaning_fault(
    alloc: Global,
    text: &str,
    fault: scope::refusal::Fault,
) -> Result<ParseFault, AllocError>
    ensures { IfOk result (λ f. parse_fault f ≡ spec.meaning_fault text.now fault) }
{
    let found = between(text, fault.span.start, fault.span.end);
    let mut spans = places(alloc, found, fault.span)?;
    push_first(alloc, &mut spans, fault)?;
    Ok(ParseFault {
        message: String::from_str(alloc, text_of(&NO_MEANING, &fault.reason))?,
        spans,
        notes: notes(alloc, glsl_note(found))?,
    })
}
