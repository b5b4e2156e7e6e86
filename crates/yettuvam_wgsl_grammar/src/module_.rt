//! The nodes of a module.

ghost use Rattle.std.specs.Prelude.{◌≡◌, ◌++◌, IfOk, OnOk, map};
ghost use Rattle.yettuvam_wgsl_words.specs.Scan.{Gives as GivesWords, view};
ghost use Rattle.yettuvam_wgsl_machine.specs.Machine.{Gives, Row as RowOfTable, nodes_view};
ghost use Rattle.yettuvam_wgsl_grammar.specs.Module as spec;

use crate::items::ITEMS;
use crate::places::PLACES;
use crate::statements::STATEMENTS;
use std::alloc::{AllocError, Global};
use yettuvam_wgsl_expression_rows::expressions::EXPRESSIONS;
use yettuvam_wgsl_machine::refusal::Refusal;
use yettuvam_wgsl_machine::run;
use yettuvam_wgsl_machine::symbol::{Node, Row, Rule, Symbol};
use yettuvam_wgsl_templates::with_templates;
use yettuvam_wgsl_words::token::Token;
use yettuvam_wgsl_words::{refusal, tokens};

/// What a module is read as.
pub static MODULE: [Symbol; 1] = [Symbol::Rule(Rule::Module)];

/// The turns of the machine beside those for each token.
pub const TURNS_AT_LEAST: usize = 5_000_000;

/// The most turns of the machine for one token.
pub const TURNS_PER_TOKEN: usize = 64;

/// The most turns of the machine that a number of tokens takes.
#[tactic(auto, unfolding(crate::specs::Module::turns))]
fn turns(count: usize) -> usize
    ensures { result ≡ spec.turns count }
{
    count
        .saturating_mul(TURNS_PER_TOKEN)
        .saturating_add(TURNS_AT_LEAST)
}

fn push_rows(rows: &mut Vec<Row>, more: &[Row]) -> Result<(), AllocError>
    ensures { let old = map {B = RowOfTable} (λ r. (r.0, r.1, r.2.now)) rows.old.items in
        OnOk result (map {B = RowOfTable} (λ r. (r.0, r.1, r.2.now)) rows.new.items ≡ old ++ map {B = RowOfTable} (λ r. (r.0, r.1, r.2.now)) more.now) }
{
    let mut left = more;
    while let [row, rest @ ..] = left {
        rows.push(*row)?;
        left = rest;
    }
    Ok(())
}

#[tactic(auto, unfolding(crate::specs::Module::item_rows))]
fn push_items(rows: &mut Vec<Row>) -> Result<(), AllocError>
    ensures { let old = map {B = RowOfTable} (λ r. (r.0, r.1, r.2.now)) rows.old.items in
        OnOk result (map {B = RowOfTable} (λ r. (r.0, r.1, r.2.now)) rows.new.items ≡ old ++ spec.item_rows) }
{
    push_rows(rows, &ITEMS)
}

#[tactic(auto, unfolding(crate::specs::Module::statement_rows))]
fn push_statements(rows: &mut Vec<Row>) -> Result<(), AllocError>
    ensures { let old = map {B = RowOfTable} (λ r. (r.0, r.1, r.2.now)) rows.old.items in
        OnOk result (map {B = RowOfTable} (λ r. (r.0, r.1, r.2.now)) rows.new.items ≡ old ++ spec.statement_rows) }
{
    push_rows(rows, &STATEMENTS)
}

#[tactic(auto, unfolding(crate::specs::Module::expression_rows))]
fn push_expressions(rows: &mut Vec<Row>) -> Result<(), AllocError>
    ensures { let old = map {B = RowOfTable} (λ r. (r.0, r.1, r.2.now)) rows.old.items in
        OnOk result (map {B = RowOfTable} (λ r. (r.0, r.1, r.2.now)) rows.new.items ≡ old ++ spec.expression_rows) }
{
    push_rows(rows, &EXPRESSIONS)
}

/// All rows of the grammar.
fn all_rows(alloc: Global) -> Result<Vec<Row>, AllocError>
    ensures { IfOk result (λ rows. map {B = RowOfTable} (λ r. (r.0, r.1, r.2.now)) rows.items ≡ spec.rows) }
{
    let mut rows: Vec<Row> = Vec::new(alloc);
    push_items(&mut rows)?;
    push_statements(&mut rows)?;
    push_expressions(&mut rows)?;
    Ok(rows)
}

/// The place of the first row of each rule.
#[tactic(auto, unfolding(crate::specs::Module::places))]
fn places() -> &'static [u16]
    ensures { result.now ≡ spec.places }
{
    &PLACES
}

/// The nodes of a module that is all of the tokens. A fault has the place of the token that can't follow.
#[tactic(auto, unfolding(crate::specs::Module::parse))]
pub fn parse<'t>(alloc: Global, tokens: &[Token<'t>]) -> Result<Vec<Node<'t>>, Refusal>
    ensures { Gives (λ v. nodes_view v.items) result (spec.parse (view tokens.now)) }
{
    let rows = all_rows(alloc)?;
    let most = turns(tokens.len());
    run(alloc, tokens, &MODULE, rows.as_slice(), places(), most)
}

/// The tokens of a text, in which the brackets of template arguments are marked.
#[tactic(auto, unfolding(crate::specs::Module::marked_tokens))]
fn marked_tokens<'t>(alloc: Global, text: &'t str) -> Result<Vec<Token<'t>>, refusal::Refusal>
    ensures { GivesWords (λ v. view v.items) result (spec.marked_tokens text.now) }
{
    let found = tokens(alloc, text)?;
    with_templates(alloc, found.as_slice())
}

/// The nodes of a text that is a module. A fault has the place of the first part that is no token; else that of the
/// token that can't follow.
#[tactic(auto, unfolding(crate::specs::Module::nodes_of))]
pub fn nodes_of<'t>(alloc: Global, text: &'t str) -> Result<Vec<Node<'t>>, Refusal>
    ensures { Gives (λ v. nodes_view v.items) result (spec.nodes_of text.now) }
{
    let marked = marked_tokens(alloc, text)?;
    parse(alloc, marked.as_slice())
}
