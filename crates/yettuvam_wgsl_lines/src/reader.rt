// Reads a body.
ghost use Rattle.std.specs.Prelude.{◌≡◌, ◌≤◌, OnOk, IfOk, length};
ghost use Rattle.naga_oil_ir.specs.ModuleValue.{expression_values, function_value};
ghost use Rattle.naga_oil_ir.specs.Parts.{parts};
ghost use Rattle.yettuvam_wgsl_lines.specs.Line.{line_value};
ghost use Rattle.yettuvam_wgsl_lines.specs.Reader as spec;
ghost use Rattle.yettuvam_wgsl_lines.specs.Reader.{state_of};

use crate::line::{BREAK_IF, EMIT, LOOP, Line, START};
use crate::parts::{condition_by, function_by, made_by, operands_by};
use naga_oil_ir::{Expression, Function, Index, Operand, Range, Span, Token};
use std::alloc::{AllocError, Global};
use yettuvam_wgsl_natures::{NO_FUNCTION, called_function, is_named, text_operands};

/// What a block is to the blocks after it.
#[derive(Clone, Copy, PartialEq, Eq, Debug)]
pub enum Part {
    Plain,
    /// The body of a loop, whose names the `continuing` block has too.
    LoopBody,
    /// A `continuing` block, with the number of the loop's body.
    Continuing(usize),
}

/// What a line names and makes.
#[derive(Drop)]
struct Content {
    kind: u64,
    function: u64,
    operands: Vec<Operand>,
    made: Option<Operand>,
    is_named: bool,
}

/// The lines of a body, and the place of the token that ends the scope of each block, `None` for the body itself.
#[derive(Drop)]
pub struct Body {
    pub lines: Vec<Line>,
    pub ends: Vec<Option<usize>>,
}

#[derive(Drop)]
struct Reader {
    alloc: Global,
    lines: Vec<Line>,
    ends: Vec<Option<usize>>,
    blocks: Vec<(usize, Part)>,
    /// What the next block is.
    next: Part,
    has_opened: bool,
    has_closed: bool,
}

// The result of a statement, and whether it has a name, from the tokens after the head.
fn result_by(of: &Function, tokens: &[Token]) -> (Option<Operand>, bool)
    ensures { result ≡ spec.result_by (function_value of.now) tokens.now }
{
    match made_by(tokens) {
        Some(made) => (Some(made), is_named(of, made)),
        None => (None, false),
    }
}

fn next_part(kind: u64) -> Part
    ensures { result ≡ spec.next_part kind }
{
    if kind == LOOP {
        Part::LoopBody
    } else {
        Part::Plain
    }
}

// The expressions of a range, as far as they exist.
#[tactic(auto, using(crate::proofs::Ranged::values_between))]
fn ranged(of: &[(Expression, Span)], start: usize, end: usize) -> &[(Expression, Span)]
    requires { end ≤ length of.now }
    ensures { expression_values result.now ≡
        spec.ranged (expression_values of.now) start end }
{
    if start < end { &of[start..end] } else { &[] }
}

fn last_block(blocks: &[(usize, Part)]) -> usize
    ensures { result ≡ spec.last_block blocks.now }
{
    blocks.last().copied().unwrap_or((0, Part::Plain)).0
}

fn pop_block(blocks: &mut Vec<(usize, Part)>) -> (usize, Part)
    ensures last { result ≡ spec.last blocks.old.items }
    ensures rest { blocks.new.items ≡ spec.front blocks.old.items }
{
    blocks.pop().unwrap_or((0, Part::Plain))
}

fn end(ends: &mut [Option<usize>], block: usize, at: usize)
    ensures { ends.new ≡ spec.ended ends.old block at }
{
    if block >= ends.len() {
        return;
    }
    ends[block] = Some(at);
}

// What a statement names and makes, from the tokens after its head.
#[tactic(auto, unfolding(crate::specs::Reader::statement_content))]
fn statement_content(
    alloc: Global,
    of: &Function,
    kind: u64,
    tokens: &[Token],
) -> Result<Content, AllocError>
    ensures { IfOk result (λ c.
        spec.content_value c ≡ spec.statement_content (function_value of.now) kind tokens.now) }
{
    let operands = operands_by(alloc, kind, tokens)?;
    let function = function_by(kind, &operands, tokens);
    let (made, is_named) = result_by(of, tokens);
    Ok(Content {
        kind,
        function,
        operands,
        made,
        is_named,
    })
}

impl Reader {
    #[tactic(auto, unfolding(crate::specs::Reader::push))]
    fn push(&mut self, at: usize, of: Content) -> Result<(), AllocError>
        ensures { OnOk result (state_of self.new ≡
            spec.push at (spec.content_value of) (state_of self.old)) }
    {
        let Content {
            kind,
            function,
            operands,
            made,
            is_named,
        } = of;
        let follows = !self.has_opened && (!self.has_closed || kind == BREAK_IF);
        let (number, block) = (self.lines.len(), last_block(&self.blocks));
        self.has_opened = false;
        self.has_closed = false;
        self.lines.push(Line {
            kind,
            at,
            number,
            block,
            follows,
            function,
            operands,
            made,
            is_named,
        })?;
        Ok(())
    }

    #[tactic(auto, unfolding(crate::specs::Reader::statement))]
    fn statement(
        &mut self,
        of: &Function,
        at: usize,
        kind: u64,
        tokens: &[Token],
    ) -> Result<(), AllocError>
        ensures { OnOk result (state_of self.new ≡
            spec.statement (function_value of.now) at kind tokens.now (state_of self.old)) }
    {
        self.next = next_part(kind);
        if kind == EMIT {
            return Ok(());
        }
        let content = statement_content(self.alloc, of, kind, tokens)?;
        self.push(at, content)
    }

    #[tactic(auto, unfolding(crate::specs::Reader::emitted))]
    fn emitted(
        &mut self,
        of: &Function,
        at: usize,
        place: usize,
        expression: &Expression,
    ) -> Result<(), AllocError>
        ensures { OnOk result (state_of self.new ≡
            spec.emitted (function_value of.now) at place (parts expression.now) (state_of self.old)) }
    {
        let operands = text_operands(self.alloc, expression)?;
        let made = Index::new(place);
        self.push(
            at,
            Content {
                kind: EMIT,
                function: called_function(expression),
                operands,
                made: Some(made),
                is_named: is_named(of, made),
            },
        )
    }

    // Emits the expressions before a place.
    #[tactic(auto, unfolding(crate::specs::Reader::emit_all))]
    fn emit_all(
        &mut self,
        of: &Function,
        at: usize,
        end: usize,
        expressions: &[(Expression, Span)],
    ) -> Result<(), AllocError>
        ensures { OnOk result (state_of self.new ≡
            spec.emit_all (function_value of.now) at end (expression_values expressions.now) (state_of self.old)) }
    {
        let mut rest = expressions;
        while let [entry, more @ ..] = rest {
            self.emitted(of, at, end.saturating_sub(rest.len()), &entry.0)?;
            rest = more;
        }
        Ok(())
    }

    #[tactic(auto, unfolding(crate::specs::Reader::emit))]
    fn emit(&mut self, of: &Function, at: usize, range: Range<Expression>) -> Result<(), AllocError>
        ensures { OnOk result (state_of self.new ≡
            spec.emit (function_value of.now) at range (state_of self.old)) }
    {
        let expressions = of.expressions.as_slice();
        let end = range.end().min(expressions.len());
        self.emit_all(of, at, end, ranged(expressions, range.start(), end))
    }

    #[tactic(auto, unfolding(crate::specs::Reader::begin))]
    fn begin(&mut self) -> Result<(), AllocError>
        ensures { OnOk result (state_of self.new ≡ spec.begin (state_of self.old)) }
    {
        let block = self.ends.len();
        self.ends.push(None)?;
        self.blocks.push((block, self.next))?;
        self.next = Part::Plain;
        self.has_opened = true;
        Ok(())
    }

    #[tactic(auto, unfolding(crate::specs::Reader::leave))]
    fn leave(&mut self, at: usize, block: usize, part: Part)
        ensures { state_of self.new ≡ spec.leave at block part (state_of self.old) }
    {
        match part {
            Part::Plain => end(&mut self.ends, block, at),
            Part::LoopBody => self.next = Part::Continuing(block),
            Part::Continuing(body) => {
                end(&mut self.ends, block, at);
                end(&mut self.ends, body, at);
            }
        }
    }

    #[tactic(auto, unfolding(crate::specs::Reader::close))]
    fn close(&mut self, at: usize)
        ensures { state_of self.new ≡ spec.close at (state_of self.old) }
    {
        self.next = Part::Plain;
        self.has_closed = true;
        let (block, part) = pop_block(&mut self.blocks);
        self.leave(at, block, part);
    }

    #[tactic(auto, unfolding(crate::specs::Reader::break_if))]
    fn break_if(&mut self, at: usize, condition: Operand) -> Result<(), AllocError>
        ensures { OnOk result (state_of self.new ≡
            spec.break_if at condition (state_of self.old)) }
    {
        let operands = Vec::from_slice(self.alloc, &[condition])?;
        self.push(
            at,
            Content {
                kind: BREAK_IF,
                function: NO_FUNCTION,
                operands,
                made: None,
                is_named: false,
            },
        )
    }

    #[tactic(auto, unfolding(crate::specs::Reader::finish))]
    fn finish(&mut self, at: usize, tokens: &[Token]) -> Result<(), AllocError>
        ensures { OnOk result (state_of self.new ≡
            spec.finish at tokens.now (state_of self.old)) }
    {
        self.close(at);
        match condition_by(tokens) {
            Some(condition) => self.break_if(at, condition),
            None => Ok(()),
        }
    }

    // Reads the token at a place.
    #[tactic(auto, unfolding(crate::specs::Reader::step))]
    fn step(
        &mut self,
        of: &Function,
        at: usize,
        token: Token,
        tokens: &[Token],
    ) -> Result<(), AllocError>
        ensures { OnOk result (state_of self.new ≡
            spec.step (function_value of.now) at token tokens.now (state_of self.old)) }
    {
        match token {
            Token::Head(kind) => self.statement(of, at, kind, tokens),
            Token::Emitted(range) => self.emit(of, at, range),
            Token::Open => self.begin(),
            Token::Close => self.finish(at, tokens),
            _ => Ok(()),
        }
    }

    #[tactic(auto, unfolding(crate::specs::Reader::run))]
    fn run(&mut self, of: &Function, tokens: &[Token]) -> Result<(), AllocError>
        ensures { OnOk result (state_of self.new ≡
            spec.run (function_value of.now) (length tokens.now) tokens.now (state_of self.old)) }
    {
        let count = tokens.len();
        let mut rest = tokens;
        while let [token, more @ ..] = rest {
            self.step(of, count.saturating_sub(rest.len()), *token, more)?;
            rest = more;
        }
        Ok(())
    }
}

fn first_line(alloc: Global) -> Line
    ensures { line_value result ≡ spec.first_line }
{
    Line {
        kind: START,
        at: 0,
        number: 0,
        block: 0,
        follows: false,
        function: NO_FUNCTION,
        operands: Vec::new(alloc),
        made: None,
        is_named: false,
    }
}

fn started(alloc: Global) -> Result<Reader, AllocError>
    ensures { IfOk result (λ r. state_of r ≡ spec.started) }
{
    let mut lines = Vec::new(alloc);
    lines.push(first_line(alloc))?;
    let ends = Vec::from_slice(alloc, &[None])?;
    let blocks = Vec::from_slice(alloc, &[(0, Part::Plain)])?;
    Ok(Reader {
        alloc,
        lines,
        ends,
        blocks,
        next: Part::Plain,
        has_opened: false,
        has_closed: false,
    })
}

/// Returns the lines of a function's body, which is given by its tokens too.
///
/// # Errors
/// If out of memory.
pub fn lines_of(alloc: Global, of: &Function, tokens: &[Token]) -> Result<Body, AllocError>
    ensures { IfOk result (λ b. spec.body_value b ≡ spec.lines_of (function_value of.now) tokens.now) }
{
    let mut reader = started(alloc)?;
    reader.run(of, tokens)?;
    Ok(Body {
        lines: reader.lines,
        ends: reader.ends,
    })
}
