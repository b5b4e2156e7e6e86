//! The module of a text.

ghost use Rattle.naga_oil_ir.specs.Backend.{Answers, parse_fault};
ghost use Rattle.naga_oil_ir.specs.ModuleValue.{module_value};
ghost use Rattle.yettuvam_wgsl_machine.specs.Machine.{Gives, nodes_view};
ghost use Rattle.yettuvam_wgsl_read.specs.Reading as spec;
ghost use Rattle.yettuvam_wgsl_scope.specs.Refused.{Gives as GivesMeaning};
ghost use Rattle.yettuvam_wgsl_words.specs.Scan.{view};

use naga_oil_ir::{BackendRefusal, Module, ParseFault};
use std::alloc::Global;
use yettuvam_wgsl_attribute_rules::{
    Refusal as AttributeRefusal, attribute_fault, test_attributes,
};
use yettuvam_wgsl_faults::{meaning_fault, syntax_fault};
use yettuvam_wgsl_grammar::parse as nodes;
use yettuvam_wgsl_items::module_of;
use yettuvam_wgsl_machine::refusal::Refusal as SyntaxRefusal;
use yettuvam_wgsl_machine::symbol::Node;
use yettuvam_wgsl_scope::{Refusal as MeaningRefusal, scoped};
use yettuvam_wgsl_templates::with_templates;
use yettuvam_wgsl_words::token::Token;
use yettuvam_wgsl_words::tokens;

/// The tokens of a text, in which the brackets of template arguments are marked.
#[tactic(auto, unfolding(crate::specs::Reading::marked_tokens))]
fn marked_tokens<'t>(alloc: Global, text: &'t str) -> Result<Vec<Token<'t>>, SyntaxRefusal>
    ensures { Gives (λ v. view v.items) result (spec.marked_tokens text.now) }
{
    let found = tokens(alloc, text)?;
    let marked = with_templates(alloc, found.as_slice())?;
    Ok(marked)
}

/// The tokens of a text, or its fault, which has no token before it.
#[tactic(auto, unfolding(crate::specs::Reading::tokens_of))]
fn tokens_of<'t>(alloc: Global, text: &'t str) -> Result<Vec<Token<'t>>, BackendRefusal<ParseFault>>
    ensures { Answers (λ v. view v.items) parse_fault result (spec.tokens_of text.now) }
{
    match marked_tokens(alloc, text) {
        Ok(found) => Ok(found),
        Err(SyntaxRefusal::Memory) => Err(BackendRefusal::Memory),
        Err(SyntaxRefusal::Fault(fault)) => Err(BackendRefusal::Fault(syntax_fault(
            alloc,
            text,
            &[],
            fault,
        )?)),
    }
}

/// The nodes of a text with its tokens, or its fault.
#[tactic(auto, unfolding(crate::specs::Reading::nodes_of))]
fn nodes_of<'t>(
    alloc: Global,
    text: &str,
    found: &[Token<'t>],
) -> Result<Vec<Node<'t>>, BackendRefusal<ParseFault>>
    ensures { Answers (λ v. nodes_view v.items) parse_fault result
        (spec.nodes_of text.now (view found.now)) }
{
    match nodes(alloc, found) {
        Ok(nodes) => Ok(nodes),
        Err(SyntaxRefusal::Memory) => Err(BackendRefusal::Memory),
        Err(SyntaxRefusal::Fault(fault)) => Err(BackendRefusal::Fault(syntax_fault(
            alloc, text, found, fault,
        )?)),
    }
}

/// Tests the attributes of a text by its nodes.
#[tactic(auto, unfolding(crate::specs::Reading::attributes_tested))]
fn test_nodes(alloc: Global, nodes: &[Node<'_>]) -> Result<(), BackendRefusal<ParseFault>>
    ensures { Answers (λ u. u) parse_fault result
        (spec.attributes_tested (nodes_view nodes.now)) }
{
    match test_attributes(alloc, nodes) {
        Ok(()) => Ok(()),
        Err(AttributeRefusal::Memory) => Err(BackendRefusal::Memory),
        Err(AttributeRefusal::Fault(fault)) => {
            Err(BackendRefusal::Fault(attribute_fault(alloc, fault)?))
        }
    }
}

/// The module of nodes: names are resolved, items are sorted, and each is lowered.
#[tactic(auto, unfolding(crate::specs::Reading::lowered))]
fn lowered(alloc: Global, nodes: &[Node<'_>]) -> Result<Module, MeaningRefusal>
    ensures { GivesMeaning module_value result (spec.lowered (nodes_view nodes.now)) }
{
    let scopes = scoped(alloc, nodes)?;
    module_of(alloc, scopes)
}

/// The module of a text with its nodes, or its fault.
#[tactic(auto, unfolding(crate::specs::Reading::module_of_nodes))]
fn module_of_nodes(
    alloc: Global,
    text: &str,
    nodes: &[Node<'_>],
) -> Result<Module, BackendRefusal<ParseFault>>
    ensures { Answers module_value parse_fault result
        (spec.module_of_nodes text.now (nodes_view nodes.now)) }
{
    match lowered(alloc, nodes) {
        Ok(module_) => Ok(module_),
        Err(MeaningRefusal::Memory) => Err(BackendRefusal::Memory),
        Err(MeaningRefusal::Fault(fault)) => {
            Err(BackendRefusal::Fault(meaning_fault(alloc, text, fault)?))
        }
    }
}

/// Returns the module of a text in WGSL.
///
/// # Errors
/// `Fault` if the text has a fault: the first part that is no token, else the token that can't follow the ones before it,
/// else the first attribute that breaks a rule, else the first node without a meaning. `Memory` if out of memory.
#[tactic(auto, unfolding(crate::specs::Reading::parsed))]
pub fn parse(alloc: Global, text: &str) -> Result<Module, BackendRefusal<ParseFault>>
    ensures { Answers module_value parse_fault result (spec.parsed text.now) }
{
    let found = tokens_of(alloc, text)?;
    let nodes = nodes_of(alloc, text, found.as_slice())?;
    test_nodes(alloc, nodes.as_slice())?;
    module_of_nodes(alloc, text, nodes.as_slice())
}
