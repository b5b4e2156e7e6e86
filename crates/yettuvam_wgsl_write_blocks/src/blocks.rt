// The blocks of a body that are open, and the statements around them.
ghost use Rattle.std.specs.Prelude.{◌≡◌, OnOk, map};
ghost use Rattle.yettuvam_wgsl_pieces.specs.Pieces.{piece_of};
ghost use Rattle.yettuvam_wgsl_write_blocks.specs.Blocks as spec;
ghost use Rattle.yettuvam_wgsl_write_blocks.specs.Blocks.{blocks_of, frame_of, state_of};
ghost use Rattle.yettuvam_wgsl_write_blocks.specs.Parts.{part_of, parts_of};
ghost use Rattle.yettuvam_wgsl_write_items.specs.Text.{Appends};
ghost use Rattle.yettuvam_wgsl_write_types.specs.Types.{values_of};
ghost use Rattle.yettuvam_wgsl_written.specs.Outcomes.{Finds};
ghost use Rattle.yettuvam_wgsl_written_names.specs.Items.{Becomes};

use crate::branches::if_part;
use crate::loops::{block_part, loop_part};
use crate::parts::{Part, Pieces, other_part};
use crate::switches::{Selector, push_arm_body, push_arm_selector, push_switch_head};
use naga_oil_ir::{Operand, Span, Token};
use std::alloc::{AllocError, Global};
use std::mem;
use yettuvam_wgsl_pieces::{Piece, Sign};
use yettuvam_wgsl_write_expressions::operands::{Known, operand};
use yettuvam_wgsl_written::written::push_value;
use yettuvam_wgsl_written::{Refusal, WriteResult};

// The kinds of the statements with blocks.

pub const BLOCK_HEAD: u64 = 1;

pub const IF_HEAD: u64 = 2;

pub const SWITCH_HEAD: u64 = 3;

pub const LOOP_HEAD: u64 = 4;

/// What the next block is to the statement around it.
#[derive(Clone, Copy, PartialEq, Eq, Debug)]
pub enum Role {
    /// A block that stands among statements.
    Block,
    Accept,
    Reject,
    LoopBody,
    Continuing,
    /// The body of an arm.
    Arm,
    /// The empty body of a selector that falls through.
    FallThrough,
}

/// A statement whose blocks haven't all ended.
#[derive(Drop)]
pub struct Frame<'m> {
    pub role: Role,
    pub span: Span,
    /// The condition of an `if`, or the text of a `switch` so far.
    pub text: Pieces<'m>,
    /// The first block of an `if` or of a loop, once it has ended.
    pub first: Vec<Part<'m>>,
}

/// The blocks of a body that are open.
#[derive(Drop)]
pub struct Blocks<'m> {
    pub alloc: Global,
    /// The statements around the open blocks, the innermost last.
    frames: Vec<Frame<'m>>,
    /// The statements so far of the innermost block.
    pub parts: Vec<Part<'m>>,
    /// Those of the blocks around it.
    outer: Vec<Vec<Part<'m>>>,
}

fn make_frame<'m>(role: Role, span: Span, text: Pieces<'m>, first: Vec<Part<'m>>) -> Frame<'m>
    ensures { frame_of result ≡ spec.make_frame role span (map piece_of text.entry.items) (parts_of first.entry.items) }
{
    Frame {
        role,
        span,
        text,
        first,
    }
}

// The last frame, which is taken; of none, that of a block.
fn pop_frame<'m>(alloc: Global, frames: &mut Vec<Frame<'m>>) -> Frame<'m>
    ensures value { frame_of result ≡ spec.last_frame (spec.frames_of frames.old.items) }
    ensures rest { spec.frames_of frames.new.items ≡ spec.front (spec.frames_of frames.old.items) }
{
    match frames.pop() {
        Some(last) => last,
        None => make_frame(
            Role::Block,
            Span::UNDEFINED,
            Vec::new(alloc),
            Vec::new(alloc),
        ),
    }
}

// The last block, which is taken; of none, one without statements.
fn pop_block<'m>(alloc: Global, blocks: &mut Vec<Vec<Part<'m>>>) -> Vec<Part<'m>>
    ensures value { parts_of result.items ≡ spec.last_block (blocks_of blocks.old.items) }
    ensures rest { blocks_of blocks.new.items ≡ spec.front (blocks_of blocks.old.items) }
{
    match blocks.pop() {
        Some(last) => last,
        None => Vec::new(alloc),
    }
}

fn push_operand<'m>(
    known: Known<'_, 'm>,
    out: &mut Pieces<'m>,
    of: Operand,
    span: Span,
) -> WriteResult<()>
    ensures { Appends (spec.value (values_of known.now) of span) result out.old out.new }
{
    let written = operand(known, of, span)?;
    Ok(push_value(out, written, true)?)
}

// Returns an operand as a value.
#[tactic(auto, using(crate::proofs::Nothing::after_nothing))]
fn value_text<'m>(
    alloc: Global,
    known: Known<'_, 'm>,
    of: Operand,
    span: Span,
) -> WriteResult<Pieces<'m>>
    ensures { Finds (λ v. map piece_of v.items) result (spec.value (values_of known.now) of span) }
{
    let mut out = Vec::new(alloc);
    push_operand(known, &mut out, of, span)?;
    Ok(out)
}

// The operand at the front.
fn first_operand(tokens: &[Token]) -> Option<Operand>
    ensures { result ≡ spec.first_operand tokens.now }
{
    match tokens {
        [Token::Use(of), ..] => Some(*of),
        _ => None,
    }
}

// Returns the operand at the front as a value.
fn first_value<'m>(
    alloc: Global,
    known: Known<'_, 'm>,
    tokens: &[Token],
    span: Span,
) -> WriteResult<Pieces<'m>>
    ensures { Finds (λ v. map piece_of v.items) result (spec.first_value (values_of known.now) tokens.now span) }
{
    match first_operand(tokens) {
        Some(of) => value_text(alloc, known, of, span),
        None => Err(Refusal::NotInWgsl(span)),
    }
}

// The selector at the front.
fn first_selector(tokens: &[Token]) -> Option<Selector>
    ensures { result ≡ spec.first_selector tokens.now }
{
    match tokens {
        [Token::Plain(value), Token::Flag(falls_through), ..] => Some(Selector {
            value: *value,
            falls_through: *falls_through,
        }),
        _ => None,
    }
}

fn after_first(tokens: &[Token]) -> &[Token]
    ensures { result.now ≡ spec.after_first tokens.now }
{
    match tokens {
        [_, more @ ..] => more,
        [] => tokens,
    }
}

fn arm_role(of: Selector) -> Role
    ensures { result ≡ spec.arm_role of }
{
    if of.falls_through {
        Role::FallThrough
    } else {
        Role::Arm
    }
}

fn is_empty(parts: &[Part<'_>]) -> bool
    ensures { result ≡ spec.is_empty (parts_of parts.now) }
{
    match parts {
        [] => true,
        [_, ..] => false,
    }
}

/// Returns the blocks of a body before its first token: the body.
pub fn no_blocks<'m>(alloc: Global) -> Blocks<'m>
    ensures { state_of result ≡ spec.started }
{
    Blocks {
        alloc,
        frames: Vec::new(alloc),
        parts: Vec::new(alloc),
        outer: Vec::new(alloc),
    }
}

impl<'m> Blocks<'m> {
    /// A statement follows in the innermost block.
    ///
    /// # Errors
    /// If out of memory.
    #[tactic(auto, unfolding(crate::specs::Blocks::add))]
    pub fn add(&mut self, part: Part<'m>) -> Result<(), AllocError>
        ensures { OnOk result (state_of self.new ≡ spec.add (part_of part.entry) (state_of self.old)) }
    {
        Ok(self.parts.push(part)?)
    }

    // The next block belongs to a statement.
    #[tactic(auto, unfolding(crate::specs::Blocks::begin))]
    fn begin(&mut self, of: Frame<'m>) -> Result<(), AllocError>
        ensures { OnOk result (state_of self.new ≡ spec.begin (frame_of of.entry) (state_of self.old)) }
    {
        Ok(self.frames.push(of)?)
    }

    // A statement begins, of which only the condition, or the head of the text, is known.
    fn begin_with(&mut self, role: Role, span: Span, text: Pieces<'m>) -> Result<(), AllocError>
        ensures { OnOk result (state_of self.new ≡ spec.begin_with role span (map piece_of text.entry.items) (state_of self.old)) }
    {
        let first = Vec::new(self.alloc);
        self.begin(make_frame(role, span, text, first))
    }

    /// A block begins.
    ///
    /// # Errors
    /// If out of memory.
    #[tactic(auto, unfolding(crate::specs::Blocks::open_))]
    pub fn open(&mut self) -> Result<(), AllocError>
        ensures { OnOk result (state_of self.new ≡ spec.open_ (state_of self.old)) }
    {
        let parts = mem::replace(&mut self.parts, Vec::new(self.alloc));
        Ok(self.outer.push(parts)?)
    }

    // The statements of the innermost block, which ends.
    #[tactic(auto, unfolding(crate::specs::Blocks::ended))]
    fn end_block(&mut self) -> Vec<Part<'m>>
        ensures value { parts_of result.items ≡ (state_of self.old).parts }
        ensures rest { state_of self.new ≡ spec.ended (state_of self.old) }
    {
        let outer = pop_block(self.alloc, &mut self.outer);
        mem::replace(&mut self.parts, outer)
    }

    // The statement around a block that ended, which is taken.
    #[tactic(auto, unfolding(crate::specs::Blocks::without_frame))]
    fn end_frame(&mut self) -> Frame<'m>
        ensures value { frame_of result ≡ spec.innermost (state_of self.old) }
        ensures rest { state_of self.new ≡ spec.without_frame (state_of self.old) }
    {
        pop_frame(self.alloc, &mut self.frames)
    }

    // ---- what statements do when their blocks have ended

    fn add_block(&mut self, parts: &[Part<'m>]) -> Result<(), AllocError>
        ensures { OnOk result (state_of self.new ≡ spec.add_block (parts_of parts.now) (state_of self.old)) }
    {
        let part = block_part(self.alloc, parts)?;
        self.add(part)
    }

    fn add_if(&mut self, of: Frame<'m>, reject: &[Part<'m>]) -> Result<(), AllocError>
        ensures { OnOk result (state_of self.new ≡ spec.add_if (frame_of of.entry) (parts_of reject.now) (state_of self.old)) }
    {
        let part = if_part(self.alloc, of.text, &of.first, reject)?;
        self.add(part)
    }

    // The condition that ends a loop, from the tokens after its last block.
    fn break_if(
        &self,
        known: Known<'_, 'm>,
        tokens: &[Token],
        span: Span,
    ) -> WriteResult<Option<Pieces<'m>>>
        ensures { Finds (λ c. spec.condition_of c) result (spec.break_if (values_of known.now) tokens.now span) }
    {
        match first_operand(tokens) {
            Some(of) => Ok(Some(value_text(self.alloc, known, of, span)?)),
            None => Ok(None),
        }
    }

    #[tactic(auto, unfolding(crate::specs::Blocks::add_loop))]
    fn add_loop(
        &mut self,
        known: Known<'_, 'm>,
        of: Frame<'m>,
        continuing: &[Part<'m>],
        tokens: &[Token],
    ) -> WriteResult<()>
        ensures { Becomes (spec.add_loop (values_of known.now) (frame_of of.entry) (parts_of continuing.now) tokens.now (state_of self.old)) result (state_of self.new) }
    {
        let condition = self.break_if(known, tokens, of.span)?;
        let part = loop_part(self.alloc, &of.first, continuing, pieces_in(&condition))?;
        Ok(self.add(part)?)
    }

    // ---- switches

    // A selector follows in a `switch`.
    #[tactic(auto, unfolding(crate::specs::Blocks::begin_arm))]
    fn begin_arm(
        &mut self,
        span: Span,
        text: Pieces<'m>,
        follows: bool,
        selector: Selector,
    ) -> WriteResult<()>
        ensures { Becomes (spec.begin_arm span (map piece_of text.entry.items) follows selector (state_of self.old)) result (state_of self.new) }
    {
        let mut text = text;
        push_arm_selector(&mut text, follows, selector, span)?;
        Ok(self.begin_with(arm_role(selector), span, text)?)
    }

    // A `switch` ends.
    #[tactic(auto, unfolding(crate::specs::Blocks::end_switch))]
    fn end_switch(&mut self, text: Pieces<'m>) -> Result<(), AllocError>
        ensures { OnOk result (state_of self.new ≡ spec.end_switch (map piece_of text.entry.items) (state_of self.old)) }
    {
        let mut text = text;
        text.push(Piece::Sign(Sign::RightBrace))?;
        let part = other_part(self.alloc, text);
        self.add(part)
    }

    // A `switch` ends, unless the last selector falls through.
    fn end_arms(&mut self, span: Span, text: Pieces<'m>, follows: bool) -> WriteResult<()>
        ensures { Becomes (spec.end_arms span (map piece_of text.entry.items) follows (state_of self.old)) result (state_of self.new) }
    {
        if follows {
            return Err(Refusal::NotInWgsl(span));
        }
        Ok(self.end_switch(text)?)
    }

    // The next arm of a `switch` begins, or the `switch` ends. `follows` says whether the last selector falls through.
    #[tactic(auto, unfolding(crate::specs::Blocks::next_arm))]
    fn next_arm(
        &mut self,
        span: Span,
        text: Pieces<'m>,
        follows: bool,
        tokens: &[Token],
    ) -> WriteResult<()>
        ensures { Becomes (spec.next_arm span (map piece_of text.entry.items) follows tokens.now (state_of self.old)) result (state_of self.new) }
    {
        match first_selector(tokens) {
            Some(selector) => self.begin_arm(span, text, follows, selector),
            None => self.end_arms(span, text, follows),
        }
    }

    #[tactic(auto, unfolding(crate::specs::Blocks::end_arm))]
    fn end_arm(&mut self, of: Frame<'m>, parts: &[Part<'m>], tokens: &[Token]) -> WriteResult<()>
        ensures { Becomes (spec.end_arm (frame_of of.entry) (parts_of parts.now) tokens.now (state_of self.old)) result (state_of self.new) }
    {
        let mut text = of.text;
        push_arm_body(&mut text, parts)?;
        self.next_arm(of.span, text, false, tokens)
    }

    // A selector falls through: it has no statements.
    #[tactic(auto, unfolding(crate::specs::Blocks::fall_through))]
    fn fall_through(
        &mut self,
        of: Frame<'m>,
        parts: &[Part<'m>],
        tokens: &[Token],
    ) -> WriteResult<()>
        ensures { Becomes (spec.fall_through (frame_of of.entry) (parts_of parts.now) tokens.now (state_of self.old)) result (state_of self.new) }
    {
        if !is_empty(parts) {
            return Err(Refusal::NotInWgsl(of.span));
        }
        self.next_arm(of.span, of.text, true, tokens)
    }

    // ---- steps

    // The innermost block of a statement has ended.
    #[tactic(auto, unfolding(crate::specs::Blocks::closed))]
    fn closed(
        &mut self,
        known: Known<'_, 'm>,
        of: Frame<'m>,
        parts: Vec<Part<'m>>,
        tokens: &[Token],
    ) -> WriteResult<()>
        ensures { Becomes (spec.closed (values_of known.now) (frame_of of.entry) (parts_of parts.entry.items) tokens.now (state_of self.old)) result (state_of self.new) }
    {
        match of.role {
            Role::Block => Ok(self.add_block(&parts)?),
            Role::Accept => Ok(self.begin(make_frame(Role::Reject, of.span, of.text, parts))?),
            Role::Reject => Ok(self.add_if(of, &parts)?),
            Role::LoopBody => Ok(self.begin(make_frame(
                Role::Continuing,
                of.span,
                of.text,
                parts,
            ))?),
            Role::Continuing => self.add_loop(known, of, &parts, tokens),
            Role::Arm => self.end_arm(of, &parts, tokens),
            Role::FallThrough => self.fall_through(of, &parts, tokens),
        }
    }

    /// The innermost block ends; its end has these tokens after it.
    ///
    /// # Errors
    /// `NotInWgsl` if WGSL has no such statement, `Memory` if out of memory.
    #[tactic(auto, unfolding(crate::specs::Blocks::close))]
    pub fn close(&mut self, known: Known<'_, 'm>, tokens: &[Token]) -> WriteResult<()>
        ensures { Becomes (spec.close (values_of known.now) tokens.now (state_of self.old)) result (state_of self.new) }
    {
        let parts = self.end_block();
        let of = self.end_frame();
        self.closed(known, of, parts, tokens)
    }

    #[tactic(auto, unfolding(crate::specs::Blocks::begin_if))]
    fn begin_if(&mut self, known: Known<'_, 'm>, span: Span, tokens: &[Token]) -> WriteResult<()>
        ensures { Becomes (spec.begin_if (values_of known.now) span tokens.now (state_of self.old)) result (state_of self.new) }
    {
        let condition = first_value(self.alloc, known, tokens, span)?;
        Ok(self.begin_with(Role::Accept, span, condition)?)
    }

    #[tactic(auto, unfolding(crate::specs::Blocks::begin_switch))]
    fn begin_switch(
        &mut self,
        known: Known<'_, 'm>,
        span: Span,
        tokens: &[Token],
    ) -> WriteResult<()>
        ensures { Becomes (spec.begin_switch (values_of known.now) span tokens.now (state_of self.old)) result (state_of self.new) }
    {
        let value = first_value(self.alloc, known, tokens, span)?;
        let mut text = Vec::new(self.alloc);
        push_switch_head(&mut text, &value)?;
        self.next_arm(span, text, false, after_first(tokens))
    }

    /// A statement with blocks begins; its head has these tokens after it.
    ///
    /// # Errors
    /// `NotInWgsl` if WGSL has no such statement, `Memory` if out of memory.
    #[tactic(auto, unfolding(crate::specs::Blocks::begin_statement))]
    pub fn begin_statement(
        &mut self,
        known: Known<'_, 'm>,
        span: Span,
        kind: u64,
        tokens: &[Token],
    ) -> WriteResult<()>
        ensures { Becomes (spec.begin_statement (values_of known.now) span kind tokens.now (state_of self.old)) result (state_of self.new) }
    {
        match kind {
            BLOCK_HEAD => Ok(self.begin_with(Role::Block, span, Vec::new(self.alloc))?),
            IF_HEAD => self.begin_if(known, span, tokens),
            SWITCH_HEAD => self.begin_switch(known, span, tokens),
            LOOP_HEAD => Ok(self.begin_with(Role::LoopBody, span, Vec::new(self.alloc))?),
            _ => Err(Refusal::NotInWgsl(span)),
        }
    }
}

fn pieces_in<'p, 'm>(condition: &'p Option<Pieces<'m>>) -> Option<&'p [Piece<'m>]>
    ensures { spec.condition_in result ≡ spec.condition_of condition.now }
{
    match condition {
        Some(condition) => Some(condition),
        None => None,
    }
}
