//! Reads tokens by a table.

ghost use Rattle.std.specs.Prelude.{◌≡◌, length, map};
ghost use Rattle.yettuvam_wgsl_words.specs.Scan.{token_view, view};
ghost use Rattle.yettuvam_wgsl_machine.specs.Machine as spec;
ghost use Rattle.yettuvam_wgsl_machine.specs.Machine.{Gives, Reads, nodes_view, state_of};

use crate::refusal::{Fault, Reason, Refusal};
use crate::symbol::{Form, Node, Row, Rule, Symbol, find};
use std::alloc::Global;
use yettuvam_wgsl_words::same_kind;
use yettuvam_wgsl_words::token::{Kind, Span, Token};

/// The most blocks that are open at once.
pub const MAX_BLOCKS: usize = 256;

/// The most parts of expressions and statements that wait for their end at once.
pub const MAX_POSTPONED: usize = 10_000;

/// The state of a reading.
#[derive(Drop)]
struct Machine<'a, 't> {
    rest: &'a [Token<'t>],
    /// The token that was taken last.
    last: Token<'t>,
    /// What is wanted next.
    wanted: &'static [Symbol],
    /// What is wanted after that, the first at the end.
    postponed: Vec<&'static [Symbol]>,
    /// The number of open blocks.
    blocks: usize,
    nodes: Vec<Node<'t>>,
}

/// A token without text at the start.
fn no_token<'t>() -> Token<'t>
    ensures { token_view result ≡ spec.no_token }
{
    Token {
        kind: Kind::End,
        span: Span { start: 0, end: 0 },
        text: &[],
    }
}

/// The next token; after the last one an `End`.
fn next<'t>(rest: &[Token<'t>]) -> Token<'t>
    ensures { token_view result ≡ spec.next (view rest.now) }
{
    match rest {
        [token, ..] => *token,
        [] => no_token(),
    }
}

fn after<'a, 't>(rest: &'a [Token<'t>]) -> &'a [Token<'t>]
    ensures { view result.now ≡ spec.after (view rest.now) }
{
    match rest {
        [_, more @ ..] => more,
        [] => rest,
    }
}

impl<'a, 't> Machine<'a, 't> {
    fn fault(&self, reason: Reason) -> Refusal
        ensures { result ≡ spec.refused reason (state_of self.now) }
    {
        Refusal::Fault(Fault {
            reason,
            span: next(self.rest).span,
        })
    }

    fn shift(&mut self)
        ensures { state_of self.new ≡ spec.shift (state_of self.old) }
    {
        self.last = next(self.rest);
        self.rest = after(self.rest);
    }

    #[tactic(auto, unfolding(crate::specs::Machine::token))]
    fn token(&mut self, kind: Kind) -> Result<(), Refusal>
        ensures { Reads (spec.token kind (state_of self.old)) result (state_of self.new) }
    {
        if !same_kind(next(self.rest).kind, kind) {
            return Err(self.fault(Reason::Wanted(kind)));
        }
        self.shift();
        Ok(())
    }

    #[tactic(auto, unfolding(crate::specs::Machine::node))]
    fn node(&mut self, form: Form) -> Result<(), Refusal>
        ensures { Reads (spec.node form (state_of self.old)) result (state_of self.new) }
    {
        self.nodes.push(Node {
            form,
            span: self.last.span,
            text: self.last.text,
        })?;
        Ok(())
    }

    #[tactic(auto, unfolding(crate::specs::Machine::enter))]
    fn enter(&mut self) -> Result<(), Refusal>
        ensures { Reads (spec.enter (state_of self.old)) result (state_of self.new) }
    {
        if self.blocks >= MAX_BLOCKS {
            return Err(self.fault(Reason::DeepBlocks));
        }
        self.blocks += 1;
        Ok(())
    }

    fn leave(&mut self)
        ensures { state_of self.new ≡ spec.left (state_of self.old) }
    {
        self.blocks = self.blocks.saturating_sub(1);
    }

    /// Postpones what is wanted, if anything is.
    #[tactic(auto, unfolding(crate::specs::Machine::postpone))]
    fn postpone(&mut self) -> Result<(), Refusal>
        ensures { Reads (spec.postpone (state_of self.old)) result (state_of self.new) }
    {
        if self.wanted.is_empty() {
            return Ok(());
        }
        if self.postponed.len() >= MAX_POSTPONED {
            return Err(self.fault(Reason::DeepParts));
        }
        self.postponed.push(self.wanted)?;
        Ok(())
    }

    fn take_if(&mut self, is_taken: bool)
        ensures { state_of self.new ≡ spec.taken is_taken (state_of self.old) }
    {
        if is_taken {
            self.shift();
        }
    }

    #[tactic(auto, unfolding(crate::specs::Machine::rule))]
    fn rule(&mut self, rows: &[Row], places: &[u16], rule: Rule) -> Result<(), Refusal>
        ensures { Reads (spec.rule (spec.table (map (λ r. (r.0, r.1, r.2.now)) rows.now) places.now) rule (state_of self.old)) result (state_of self.new) }
    {
        let Some((_, first, symbols)) = find(rows, places, rule, next(self.rest).kind) else {
            return Err(self.fault(Reason::Unexpected(rule)));
        };
        self.postpone()?;
        self.take_if(first.is_some());
        self.wanted = symbols;
        Ok(())
    }

    #[tactic(auto, unfolding(crate::specs::Machine::symbol))]
    fn symbol(&mut self, rows: &[Row], places: &[u16], symbol: Symbol) -> Result<(), Refusal>
        ensures { Reads (spec.symbol (spec.table (map (λ r. (r.0, r.1, r.2.now)) rows.now) places.now) symbol (state_of self.old)) result (state_of self.new) }
    {
        match symbol {
            Symbol::Token(kind) => self.token(kind),
            Symbol::Rule(rule) => self.rule(rows, places, rule),
            Symbol::Node(form) => self.node(form),
            Symbol::Enter => self.enter(),
            Symbol::Leave => {
                self.leave();
                Ok(())
            }
        }
    }

    /// Takes up again what was postponed last, if anything was.
    fn resume(&mut self) -> bool
        ensures found { result ≡ spec.is_postponed (state_of self.old) }
        ensures after { state_of self.new ≡ spec.resumed (state_of self.old) }
    {
        match self.postponed.pop() {
            None => false,
            Some(symbols) => {
                self.wanted = symbols;
                true
            }
        }
    }

    /// One step. Returns whether there was anything to do.
    #[tactic(auto, unfolding(crate::specs::Machine::step))]
    fn step(&mut self, rows: &[Row], places: &[u16]) -> Result<bool, Refusal>
        ensures { Reads (spec.step (spec.table (map (λ r. (r.0, r.1, r.2.now)) rows.now) places.now) (state_of self.old)) result (state_of self.new) }
    {
        let [first, more @ ..] = self.wanted else {
            return Ok(self.resume());
        };
        self.wanted = more;
        self.symbol(rows, places, *first)?;
        Ok(true)
    }

    fn run(mut self, rows: &[Row], places: &[u16], turns: usize) -> Result<Vec<Node<'t>>, Refusal>
        ensures { Gives (λ v. nodes_view v.items) result (spec.run (spec.table (map (λ r. (r.0, r.1, r.2.now)) rows.now) places.now) turns (state_of self.entry)) }
    {
        for _turn in 0..turns {
            if !self.step(rows, places)? {
                return Ok(self.nodes);
            }
        }
        Err(self.fault(Reason::Endless))
    }
}

fn start<'a, 't>(
    alloc: Global,
    tokens: &'a [Token<'t>],
    wanted: &'static [Symbol],
) -> Machine<'a, 't>
    ensures { state_of result ≡ spec.start (view tokens.now) wanted.now }
{
    Machine {
        rest: tokens,
        last: no_token(),
        wanted,
        postponed: Vec::new(alloc),
        blocks: 0,
        nodes: Vec::new(alloc),
    }
}

/// The nodes of tokens that are read by a table as the symbols wanted, in at most `turns` turns of the machine.
pub fn run<'t>(
    alloc: Global,
    tokens: &[Token<'t>],
    wanted: &'static [Symbol],
    rows: &[Row],
    places: &[u16],
    turns: usize,
) -> Result<Vec<Node<'t>>, Refusal>
    ensures { Gives (λ v. nodes_view v.items) result (spec.run (spec.table (map (λ r. (r.0, r.1, r.2.now)) rows.now) places.now) turns (spec.start (view tokens.now) wanted.now)) }
{
    start(alloc, tokens, wanted).run(rows, places, turns)
}
