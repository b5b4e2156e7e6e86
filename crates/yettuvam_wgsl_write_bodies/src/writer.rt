// The tokens of a body, one after the other.
ghost use Rattle.std.specs.Prelude.{◌≡◌, ◌≤◌, OnOk, length, map, option_map};
ghost use Rattle.naga_oil_ir.specs.ModuleValue.{expression_values};
ghost use Rattle.naga_oil_ir.specs.Parts.{parts};
ghost use Rattle.yettuvam_wgsl_lines.specs.Reader.{ranged};
ghost use Rattle.yettuvam_wgsl_pieces.specs.Pieces.{piece_of};
ghost use Rattle.yettuvam_wgsl_write_bodies.specs.Setting.{setting_of};
ghost use Rattle.yettuvam_wgsl_write_bodies.specs.Writer as spec;
ghost use Rattle.yettuvam_wgsl_write_bodies.specs.Writer.{state_of};
ghost use Rattle.yettuvam_wgsl_write_statements.specs.Calls.{given_of};
ghost use Rattle.yettuvam_wgsl_write_types.specs.Types.{values_of};
ghost use Rattle.yettuvam_wgsl_written.specs.Outcomes.{Finds};
ghost use Rattle.yettuvam_wgsl_written.specs.Written.{written_of};
ghost use Rattle.yettuvam_wgsl_written_names.specs.Items.{Becomes};

use crate::given::{given_at, kind_of};
use crate::setting::Setting;
use crate::values::{named_role, put};
use naga_oil_ir::{Expression, Range, Span, Token};
use std::alloc::AllocError;
use yettuvam_wgsl_lines::EMIT;
use yettuvam_wgsl_statements::simple::{Simple, simple_at};
use yettuvam_wgsl_write_blocks::blocks::LOOP_HEAD;
use yettuvam_wgsl_write_blocks::{Blocks, PartKind, Pieces, simple_part};
use yettuvam_wgsl_write_globals::written_expression;
use yettuvam_wgsl_write_statements::{
    Given, operands_of, push_simple, push_value_declaration, result_of,
};
use yettuvam_wgsl_written::{Level, Refusal, Role, WriteResult, Written};

/// What is written of a body so far.
#[derive(Drop)]
pub struct Writer<'m> {
    pub blocks: Blocks<'m>,
    /// How each expression is written.
    pub known: Vec<Written<'m>>,
    /// The span of the innermost statement.
    pub span: Span,
}

// The expressions of a range, as far as they exist.
#[tactic(auto, using(crate::proofs::Ranged::values_between))]
fn ranged(of: &[(Expression, Span)], start: usize, end: usize) -> &[(Expression, Span)]
    requires { end ≤ length of.now }
    ensures { expression_values result.now ≡ ranged (expression_values of.now) start end }
{
    if start < end { &of[start..end] } else { &[] }
}

// The tokens after the head of a call and its callee.
fn after_callee(tokens: &[Token]) -> &[Token]
    ensures { result.now ≡ spec.after_callee tokens.now }
{
    match tokens {
        [_, _, more @ ..] => more,
        _ => &[],
    }
}

// The text of a call as the value of its result.
fn call_written<'m>(pieces: Pieces<'m>) -> Written<'m>
    ensures { written_of result ≡ spec.call_written (map piece_of pieces.entry.items) }
{
    Written {
        pieces,
        level: Level::Singular,
        role: Role::Value,
    }
}

impl<'m> Writer<'m> {
    // ---- emitted expressions

    // An expression that is written is declared.
    #[tactic(auto, unfolding(crate::specs::Writer::declare))]
    fn declare(
        &mut self,
        s: &Setting<'_, 'm>,
        place: usize,
        name: &'m str,
        of: &'m Expression,
        written: &Written<'m>,
        span: Span,
    ) -> WriteResult<()>
        ensures { Becomes (spec.declare (setting_of s.now) place name.now (parts of.now) (written_of written.now) span (state_of self.old))
            result (state_of self.new) }
    {
        let alloc = s.context.alloc;
        let mut text = Vec::new(alloc);
        push_value_declaration(&s.scope(span), &mut text, name, of, written)?;
        let part = simple_part(alloc, PartKind::Declaration, text)?;
        self.blocks.add(part)?;
        let named = Written::name(alloc, name, named_role(written.role))?;
        put(&mut self.known, place, named);
        Ok(())
    }

    // An expression is emitted: it is declared if it has a name.
    #[tactic(auto, unfolding(crate::specs::Writer::emit))]
    fn emit(
        &mut self,
        s: &Setting<'_, 'm>,
        place: usize,
        of: &'m Expression,
        span: Span,
    ) -> WriteResult<()>
        ensures { Becomes (spec.emit (setting_of s.now) place (parts of.now, span) (state_of self.old)) result (state_of self.new) }
    {
        let written = written_expression(&s.scope(span), &self.known, of)?;
        match s.value_name(place) {
            Some(name) => self.declare(s, place, name, of, &written, span),
            None => {
                put(&mut self.known, place, written);
                Ok(())
            }
        }
    }

    // The expressions before a place are emitted.
    #[tactic(auto, unfolding(crate::specs::Writer::emit_all))]
    fn emit_all(
        &mut self,
        s: &Setting<'_, 'm>,
        end: usize,
        expressions: &'m [(Expression, Span)],
    ) -> WriteResult<()>
        ensures { Becomes (spec.emit_all (setting_of s.now) end (expression_values expressions.now) (state_of self.old)) result (state_of self.new) }
    {
        let mut rest = expressions;
        while let [(expression, span), more @ ..] = rest {
            self.emit(s, end.saturating_sub(rest.len()), expression, *span)?;
            rest = more;
        }
        Ok(())
    }

    #[tactic(auto, unfolding(crate::specs::Writer::emit_range))]
    fn emit_range(&mut self, s: &Setting<'_, 'm>, range: Range<Expression>) -> WriteResult<()>
        ensures { Becomes (spec.emit_range (setting_of s.now) range (state_of self.old)) result (state_of self.new) }
    {
        let expressions = s.of.expressions.as_slice();
        let end = range.end().min(expressions.len());
        self.emit_all(s, end, ranged(expressions, range.start(), end))
    }

    // ---- statements without blocks

    // The text of a statement is that of its result.
    fn merge_result(&mut self, made: Option<usize>, text: Pieces<'m>)
        ensures { state_of self.new ≡ spec.merge_result made (map piece_of text.entry.items) (state_of self.old) }
    {
        if let Some(made) = made {
            put(&mut self.known, made, call_written(text));
        }
    }

    // The result of a statement has a name.
    fn name_result(
        &mut self,
        s: &Setting<'_, 'm>,
        made: Option<usize>,
        name: Option<&'m str>,
    ) -> Result<(), AllocError>
        ensures { OnOk result (state_of self.new ≡ spec.name_result made (option_map (λ n. n.now) name.entry) (state_of self.old)) }
    {
        let (Some(made), Some(name)) = (made, name) else {
            return Ok(());
        };
        let named = Written::name(s.context.alloc, name, Role::Value)?;
        put(&mut self.known, made, named);
        Ok(())
    }

    // A statement follows in the innermost block.
    #[tactic(auto, unfolding(crate::specs::Writer::add_simple))]
    fn add_simple(
        &mut self,
        s: &Setting<'_, 'm>,
        of: Simple,
        given: &Given<'m>,
        text: Pieces<'m>,
    ) -> Result<(), AllocError>
        ensures { OnOk result (state_of self.new ≡ spec.add_simple of (given_of given.now) (map piece_of text.entry.items) (state_of self.old)) }
    {
        let part = simple_part(s.context.alloc, kind_of(of, given), text)?;
        self.blocks.add(part)?;
        self.name_result(s, result_of(of), given.result)
    }

    // A statement is written.
    #[tactic(auto, unfolding(crate::specs::Writer::stated))]
    fn stated(
        &mut self,
        s: &Setting<'_, 'm>,
        of: Simple,
        given: &Given<'m>,
        text: Pieces<'m>,
    ) -> Result<(), AllocError>
        ensures { OnOk result (state_of self.new ≡ spec.stated of (given_of given.now) (map piece_of text.entry.items) (state_of self.old)) }
    {
        if given.is_merged {
            self.merge_result(result_of(of), text);
            return Ok(());
        }
        self.add_simple(s, of, given, text)
    }

    // Returns the text of a statement.
    fn simple_text(
        &self,
        s: &Setting<'_, 'm>,
        of: Simple,
        given: &Given<'m>,
        tokens: &[Token],
    ) -> WriteResult<Pieces<'m>>
        ensures { Finds (λ v. map piece_of v.items) result (spec.simple_text (setting_of s.now) of (given_of given.now) tokens.now (state_of self.now)) }
    {
        let arguments = operands_of(s.context.alloc, after_callee(tokens))?;
        let mut text = Vec::new(s.context.alloc);
        push_simple(
            &s.scope(self.span),
            &self.known,
            &mut text,
            of,
            given,
            &arguments,
        )?;
        Ok(text)
    }

    fn given_statement(
        &mut self,
        s: &Setting<'_, 'm>,
        of: Simple,
        given: &Given<'m>,
        tokens: &[Token],
    ) -> WriteResult<()>
        ensures { Becomes (spec.given_statement (setting_of s.now) of (given_of given.now) tokens.now (state_of self.old)) result (state_of self.new) }
    {
        let text = self.simple_text(s, of, given, tokens)?;
        Ok(self.stated(s, of, given, text)?)
    }

    #[tactic(auto, unfolding(crate::specs::Writer::without_blocks, crate::specs::Writer::simple_statement))]
    fn without_blocks(
        &mut self,
        s: &Setting<'_, 'm>,
        at: usize,
        tokens: &[Token],
    ) -> WriteResult<()>
        ensures { Becomes (spec.without_blocks (setting_of s.now) at tokens.now (state_of self.old)) result (state_of self.new) }
    {
        match simple_at(tokens) {
            Some((of, _)) => {
                let given = given_at(s, at, of);
                self.given_statement(s, of, &given, tokens)
            }
            None => Err(Refusal::NotInWgsl(self.span)),
        }
    }

    // ---- steps

    #[tactic(auto, unfolding(crate::specs::Writer::with_blocks))]
    fn with_blocks(&mut self, kind: u64, more: &[Token]) -> WriteResult<()>
        ensures { Becomes (spec.with_blocks kind more.now (state_of self.old)) result (state_of self.new) }
    {
        self.blocks
            .begin_statement(&self.known, self.span, kind, more)
    }

    // A statement begins; `more` are the tokens after its head.
    #[tactic(auto, unfolding(crate::specs::Writer::statement))]
    fn statement(
        &mut self,
        s: &Setting<'_, 'm>,
        at: usize,
        kind: u64,
        tokens: &[Token],
        more: &[Token],
    ) -> WriteResult<()>
        ensures { Becomes (spec.statement (setting_of s.now) at kind tokens.now more.now (state_of self.old)) result (state_of self.new) }
    {
        if kind == EMIT {
            return Ok(());
        }
        if kind <= LOOP_HEAD {
            return self.with_blocks(kind, more);
        }
        self.without_blocks(s, at, tokens)
    }

    #[tactic(auto, unfolding(crate::specs::Writer::opened))]
    fn open(&mut self) -> Result<(), AllocError>
        ensures { OnOk result (state_of self.new ≡ spec.opened (state_of self.old)) }
    {
        self.blocks.open()
    }

    #[tactic(auto, unfolding(crate::specs::Writer::closed))]
    fn close(&mut self, more: &[Token]) -> WriteResult<()>
        ensures { Becomes (spec.closed more.now (state_of self.old)) result (state_of self.new) }
    {
        self.blocks.close(&self.known, more)
    }

    // Reads the token at a place. `tokens` begin with it, `more` follow it.
    #[tactic(auto, unfolding(crate::specs::Writer::step))]
    fn step(
        &mut self,
        s: &Setting<'_, 'm>,
        at: usize,
        token: Token,
        tokens: &[Token],
        more: &[Token],
    ) -> WriteResult<()>
        ensures { Becomes (spec.step (setting_of s.now) at token tokens.now more.now (state_of self.old)) result (state_of self.new) }
    {
        match token {
            Token::At(span) => {
                self.span = span;
                Ok(())
            }
            Token::Head(kind) => self.statement(s, at, kind, tokens, more),
            Token::Emitted(range) => self.emit_range(s, range),
            Token::Open => Ok(self.open()?),
            Token::Close => self.close(more),
            _ => Ok(()),
        }
    }

    /// Reads the tokens of a body.
    ///
    /// # Errors
    /// `NotInWgsl` if WGSL has no such body, `Memory` if out of memory.
    #[tactic(auto, unfolding(crate::specs::Writer::run))]
    pub fn run(&mut self, s: &Setting<'_, 'm>, tokens: &[Token]) -> WriteResult<()>
        ensures { Becomes (spec.run (setting_of s.now) (length tokens.now) tokens.now (state_of self.old)) result (state_of self.new) }
    {
        let count = tokens.len();
        let mut rest = tokens;
        while let [token, more @ ..] = rest {
            self.step(s, count.saturating_sub(rest.len()), *token, rest, more)?;
            rest = more;
        }
        Ok(())
    }
}
