//! Finds the lists of template arguments in the tokens of a text, as WGSL's own text says: a `<` after a name opens a
//! list if a `>` at its level closes it. A sign of which only the first `>` closes a list is split.

ghost use Rattle.std.specs.Prelude.{◌≡◌, ◌-◌, length, take};
ghost use Rattle.yettuvam_wgsl_words.specs.Scan.{Gives, view, token_view};
ghost use Rattle.yettuvam_wgsl_templates.specs.Finder as spec;
ghost use Rattle.yettuvam_wgsl_templates.specs.Finder.{Reads, state_of};

use std::alloc::Global;
use yettuvam_wgsl_words::class::{after_byte, before};
use yettuvam_wgsl_words::refusal::Refusal;
use yettuvam_wgsl_words::token::{Kind, Span, Token};

/// The tokens that are read, and what may still open a list.
#[derive(Drop)]
pub struct Finder<'t> {
    done: Vec<Token<'t>>,
    /// The places in `done` of each `<` that may open a list, the innermost last.
    pending: Vec<usize>,
    /// For each round or square bracket around the innermost open one: the number of `<` that were pending before it.
    bases: Vec<usize>,
    /// The number of `<` that were pending before the innermost open bracket. Only the others can be closed.
    base: usize,
    is_after_name: bool,
}

fn pop(list: &mut Vec<usize>) -> usize
    ensures value { result ≡ spec.last list.old.items }
    ensures rest { list.new.items ≡ spec.front list.old.items }
{
    list.pop().unwrap_or(0)
}

/// Makes the token at a place the opening of a list.
fn mark(tokens: &mut Vec<Token<'_>>, place: usize)
    ensures { view tokens.new.items ≡ spec.marked place (view tokens.old.items) }
{
    if place < tokens.len() {
        let token = tokens[place];
        tokens[place] = Token {
            kind: Kind::TemplateOpen,
            span: token.span,
            text: token.text,
        };
    }
}

/// The first byte of a token, as the closing of a list.
fn bracket(token: Token<'_>) -> Token<'_>
    ensures { token_view result ≡ spec.bracket (token_view token.entry) }
{
    Token {
        kind: Kind::TemplateClose,
        span: Span {
            start: token.span.start,
            end: token.span.start.saturating_add(1),
        },
        text: before(token.text, after_byte(token.text)),
    }
}

/// A token without its first byte.
fn after(token: Token<'_>, kind: Kind) -> Token<'_>
    ensures { token_view result ≡ spec.after (token_view token.entry) kind }
{
    Token {
        kind,
        span: Span {
            start: token.span.start.saturating_add(1),
            end: token.span.end,
        },
        text: after_byte(token.text),
    }
}

/// Whether a list may follow a token.
fn may_be_followed(kind: Kind) -> bool
    ensures { result ≡ spec.may_be_followed kind }
{
    matches!(kind, Kind::Name | Kind::Var)
}

impl<'t> Finder<'t> {
    fn keep(&mut self, token: Token<'t>) -> Result<(), Refusal>
        ensures { Reads (spec.keep (token_view token.entry) (state_of self.old)) result (state_of self.new) }
    {
        self.done.push(token)?;
        Ok(())
    }

    fn is_open(&self) -> bool
        ensures { result ≡ spec.is_open (state_of self.now) }
    {
        self.base < self.pending.len()
    }

    fn mark_last(&mut self)
        ensures { state_of self.new ≡ spec.mark_last (state_of self.old) }
    {
        let place = pop(&mut self.pending);
        mark(&mut self.done, place);
    }

    #[tactic(auto, unfolding(crate::specs::Finder::close))]
    fn close(&mut self, token: Token<'t>) -> Result<(), Refusal>
        ensures { Reads (spec.close (token_view token.entry) (state_of self.old)) result (state_of self.new) }
    {
        self.mark_last();
        self.keep(bracket(token))
    }

    #[tactic(auto, unfolding(crate::specs::Finder::greater))]
    fn greater(&mut self, token: Token<'t>) -> Result<(), Refusal>
        ensures { Reads (spec.greater (token_view token.entry) (state_of self.old)) result (state_of self.new) }
    {
        if self.is_open() {
            self.close(token)
        } else {
            self.keep(token)
        }
    }

    #[tactic(auto, unfolding(crate::specs::Finder::greater_equal))]
    fn greater_equal(&mut self, token: Token<'t>) -> Result<(), Refusal>
        ensures { Reads (spec.greater_equal (token_view token.entry) (state_of self.old)) result (state_of self.new) }
    {
        if !self.is_open() {
            return self.keep(token);
        }
        self.close(token)?;
        self.clear();
        self.keep(after(token, Kind::Equal))
    }

    #[tactic(auto, unfolding(crate::specs::Finder::shift_right))]
    fn shift_right(&mut self, token: Token<'t>) -> Result<(), Refusal>
        ensures { Reads (spec.shift_right (token_view token.entry) (state_of self.old)) result (state_of self.new) }
    {
        if !self.is_open() {
            return self.keep(token);
        }
        self.close(token)?;
        self.greater(after(token, Kind::Greater))
    }

    #[tactic(auto, unfolding(crate::specs::Finder::shift_right_equal))]
    fn shift_right_equal(&mut self, token: Token<'t>) -> Result<(), Refusal>
        ensures { Reads (spec.shift_right_equal (token_view token.entry) (state_of self.old)) result (state_of self.new) }
    {
        if !self.is_open() {
            self.clear();
            return self.keep(token);
        }
        self.close(token)?;
        self.greater_equal(after(token, Kind::GreaterEqual))
    }

    #[tactic(auto, unfolding(crate::specs::Finder::less))]
    fn less(&mut self, token: Token<'t>) -> Result<(), Refusal>
        ensures { Reads (spec.less (token_view token.entry) (state_of self.old)) result (state_of self.new) }
    {
        if self.is_after_name {
            self.pending.push(self.done.len())?;
        }
        self.keep(token)
    }

    #[tactic(auto, unfolding(crate::specs::Finder::opening))]
    fn opening(&mut self, token: Token<'t>) -> Result<(), Refusal>
        ensures { Reads (spec.opening (token_view token.entry) (state_of self.old)) result (state_of self.new) }
    {
        self.bases.push(self.base)?;
        self.base = self.pending.len();
        self.keep(token)
    }

    #[tactic(auto, unfolding(crate::specs::Finder::closing))]
    fn closing(&mut self, token: Token<'t>) -> Result<(), Refusal>
        ensures { Reads (spec.closing (token_view token.entry) (state_of self.old)) result (state_of self.new) }
    {
        self.pending.truncate(self.base);
        self.base = pop(&mut self.bases);
        self.keep(token)
    }

    #[tactic(auto, unfolding(crate::specs::Finder::logic))]
    fn logic(&mut self, token: Token<'t>) -> Result<(), Refusal>
        ensures { Reads (spec.logic (token_view token.entry) (state_of self.old)) result (state_of self.new) }
    {
        self.pending.truncate(self.base);
        self.keep(token)
    }

    fn clear(&mut self)
        ensures { state_of self.new ≡ spec.cleared (state_of self.old) }
    {
        self.pending.clear();
        self.bases.clear();
        self.base = 0;
    }

    #[tactic(auto, unfolding(crate::specs::Finder::ending))]
    fn ending(&mut self, token: Token<'t>) -> Result<(), Refusal>
        ensures { Reads (spec.ending (token_view token.entry) (state_of self.old)) result (state_of self.new) }
    {
        self.clear();
        self.keep(token)
    }

    #[tactic(auto, unfolding(crate::specs::Finder::act))]
    fn act(&mut self, token: Token<'t>) -> Result<(), Refusal>
        ensures { Reads (spec.act (token_view token.entry) (state_of self.old)) result (state_of self.new) }
    {
        match token.kind {
            Kind::Less => self.less(token),
            Kind::Greater => self.greater(token),
            Kind::GreaterEqual => self.greater_equal(token),
            Kind::ShiftRight => self.shift_right(token),
            Kind::ShiftRightEqual => self.shift_right_equal(token),
            Kind::OpenParenthesis | Kind::OpenBracket => self.opening(token),
            Kind::CloseParenthesis | Kind::CloseBracket => self.closing(token),
            Kind::AndAnd | Kind::OrOr => self.logic(token),
            Kind::Equal | Kind::Semicolon | Kind::Colon | Kind::OpenBrace => self.ending(token),
            _ => self.keep(token),
        }
    }

    #[tactic(auto, unfolding(crate::specs::Finder::step))]
    fn step(&mut self, token: Token<'t>) -> Result<(), Refusal>
        ensures { Reads (spec.step (token_view token.entry) (state_of self.old)) result (state_of self.new) }
    {
        self.act(token)?;
        self.is_after_name = may_be_followed(token.kind);
        Ok(())
    }

    #[tactic(auto, unfolding(crate::specs::Finder::run))]
    fn run(mut self, tokens: &[Token<'t>]) -> Result<Vec<Token<'t>>, Refusal>
        ensures { Gives (λ v. view v.items) result (spec.run (view tokens.now) (state_of self.entry)) }
    {
        let mut rest = tokens;
        while let [token, more @ ..] = rest {
            self.step(*token)?;
            rest = more;
        }
        Ok(self.done)
    }
}

fn start<'t>(alloc: Global) -> Finder<'t>
    ensures { state_of result ≡ spec.start }
{
    Finder {
        done: Vec::new(alloc),
        pending: Vec::new(alloc),
        bases: Vec::new(alloc),
        base: 0,
        is_after_name: false,
    }
}

/// The tokens of a text, in which the brackets of template arguments are marked.
#[tactic(auto, unfolding(crate::specs::Finder::with_templates))]
pub fn with_templates<'t>(alloc: Global, tokens: &[Token<'t>]) -> Result<Vec<Token<'t>>, Refusal>
    ensures { Gives (λ v. view v.items) result (spec.with_templates (view tokens.now)) }
{
    start(alloc).run(tokens)
}
