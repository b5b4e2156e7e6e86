//! How bodies end, as WGSL analyses the behavior of statements, and where jumps may stand. A walk over the tokens of a body
//! keeps, for each open block, the behavior of its statements so far.
ghost use Rattle.std.specs.Prelude.{◌≡◌};
ghost use Rattle.yettuvam_wgsl_valid_items.specs.Faults.{Tests};
ghost use Rattle.yettuvam_wgsl_valid.specs.Flow as spec;
ghost use Rattle.yettuvam_wgsl_valid.specs.Flow.{Steps, state_of};

use naga_oil_ir::{Span, Token};
use std::alloc::Global;
use yettuvam_wgsl_names::form_codes::DEFAULT_SELECTOR;
use yettuvam_wgsl_valid_items::faults::{Invalid, Reason, TestResult, refuse};

// ---- kinds of statements

/// The kind of a block that is a statement.
pub const BLOCK_HEAD: u64 = 1;

/// The kind of an `if`.
pub const IF_HEAD: u64 = 2;

/// The kind of a `switch`.
pub const SWITCH_HEAD: u64 = 3;

/// The kind of a `loop`.
pub const LOOP_HEAD: u64 = 4;

/// The kind of a `break`.
pub const BREAK_HEAD: u64 = 5;

/// The kind of a `continue`.
pub const CONTINUE_HEAD: u64 = 6;

/// The kind of a `return`.
pub const RETURN_HEAD: u64 = 10;

// ---- behaviors

/// What may come after a statement: the next one, and what comes after the innermost loop or switch that it stands in.
#[derive(Clone, Copy)]
pub struct Behavior {
    pub next: bool,
    pub breaks: bool,
}

/// The behavior of a statement after which the next one comes.
pub const NEXT: Behavior = Behavior {
    next: true,
    breaks: false,
};

/// The behavior of `return` and `continue`.
pub const NEITHER: Behavior = Behavior {
    next: false,
    breaks: false,
};

/// The behavior of `break`.
pub const BREAK: Behavior = Behavior {
    next: false,
    breaks: true,
};

// The behavior of two statements one after the other.
fn sequence(first: Behavior, second: Behavior) -> Behavior
    ensures { result ≡ spec.sequence first second }
{
    if first.next {
        let breaks = first.breaks || second.breaks;
        Behavior {
            next: second.next,
            breaks,
        }
    } else {
        first
    }
}

// The behavior of two blocks one of which is taken.
fn either(one: Behavior, other: Behavior) -> Behavior
    ensures { result ≡ spec.either one other }
{
    let next = one.next || other.next;
    let breaks = one.breaks || other.breaks;
    Behavior { next, breaks }
}

// The behavior of a loop of whose blocks one has a behavior.
fn of_loop(block: Behavior) -> Behavior
    ensures { result ≡ spec.of_loop block }
{
    Behavior {
        next: block.breaks,
        breaks: false,
    }
}

// The behavior of a switch of which an arm has a behavior, and maybe falls through to the next arm.
fn of_arm(arm: Behavior, falls: bool) -> Behavior
    ensures { result ≡ spec.of_arm arm falls }
{
    let next = arm.breaks || arm.next && !falls;
    Behavior {
        next,
        breaks: false,
    }
}

// ---- statements that are read

/// What the blocks of a statement are to it.
#[derive(Clone, Copy)]
pub enum Blocks {
    /// One of them is taken.
    Branches,
    /// They are arms of a switch.
    Arms,
    /// The next one is the body of a loop.
    LoopBody,
    /// The next one, or the last one, is the `continuing` block of a loop.
    Continuing,
}

/// A statement that is read.
#[derive(Clone, Copy)]
pub struct Statement {
    pub blocks: Blocks,
    /// Whether an arm of the switch is the default.
    pub has_default: bool,
    /// Whether the arm that is read falls through to the next.
    pub falls: bool,
    /// The behavior as far as it is known.
    pub behavior: Behavior,
}

fn statement_with(blocks: Blocks, behavior: Behavior) -> Statement
    ensures { result ≡ spec.statement_with blocks behavior }
{
    Statement {
        blocks,
        has_default: false,
        falls: false,
        behavior,
    }
}

// The behavior of a statement that was read to its end.
fn ended(statement: Statement) -> Behavior
    ensures { result ≡ spec.ended statement }
{
    match statement.blocks {
        Blocks::Arms if !statement.has_default => either(statement.behavior, NEXT),
        _ => statement.behavior,
    }
}

// A statement after a block of it with a behavior.
fn joined(statement: Statement, block: Behavior) -> Statement
    ensures { result ≡ spec.joined statement block }
{
    let (blocks, part) = match statement.blocks {
        Blocks::Branches => (Blocks::Branches, block),
        Blocks::Arms => (Blocks::Arms, of_arm(block, statement.falls)),
        Blocks::LoopBody | Blocks::Continuing => (Blocks::Continuing, of_loop(block)),
    };
    let behavior = either(statement.behavior, part);
    Statement {
        blocks,
        behavior,
        ..statement
    }
}

/// Which jumps may stand in a block.
#[derive(Clone, Copy)]
pub struct Jumps {
    pub breaks: bool,
    pub continues: bool,
    pub returns: bool,
}

// The jumps of a block of a statement.
fn inside(blocks: Blocks, outside: Jumps) -> Jumps
    ensures { result ≡ spec.inside blocks outside }
{
    let Jumps {
        continues,
        returns,
        ..
    } = outside;
    match blocks {
        Blocks::Branches => outside,
        Blocks::Arms => Jumps {
            breaks: true,
            continues,
            returns,
        },
        Blocks::LoopBody => Jumps {
            breaks: true,
            continues: true,
            returns,
        },
        Blocks::Continuing => Jumps {
            breaks: false,
            continues: false,
            returns: false,
        },
    }
}

// ---- the walk

/// An open block's surroundings: the behavior of the statements before, the statement that it stands in, and the jumps there.
#[derive(Clone, Copy)]
pub struct Frame {
    pub before: Behavior,
    pub statement: Statement,
    pub jumps: Jumps,
}

/// The state of a walk.
#[derive(Drop)]
pub struct Flow {
    frames: Vec<Frame>,
    /// The behavior of the statements of the block before the one that is read.
    before: Behavior,
    statement: Statement,
    jumps: Jumps,
    /// The last plain value.
    plain: u64,
    span: Span,
}

impl Flow {
    fn finish(&mut self)
        ensures { state_of self.new ≡ spec.finish (state_of self.old) }
    {
        self.before = sequence(self.before, ended(self.statement));
        self.statement = statement_with(Blocks::Branches, NEXT);
    }

    fn start(&mut self, span: Span)
        ensures { state_of self.new ≡ spec.start span (state_of self.old) }
    {
        self.finish();
        self.span = span;
    }

    #[tactic(auto, unfolding(crate::specs::Flow::jump))]
    fn jump(&mut self, allowed: bool, reason: Reason, behavior: Behavior) -> TestResult
        ensures { let old = state_of self.old in
            Steps (spec.jump allowed reason behavior old) result (state_of self.new) }
    {
        if !allowed {
            return refuse(reason, self.span);
        }
        self.statement = statement_with(Blocks::Branches, behavior);
        Ok(())
    }

    #[tactic(auto, unfolding(crate::specs::Flow::head))]
    fn head(&mut self, kind: u64) -> TestResult
        ensures { Steps (spec.head kind (state_of self.old)) result (state_of self.new) }
    {
        let jumps = self.jumps;
        match kind {
            BREAK_HEAD => self.jump(jumps.breaks, Reason::NoLoop, BREAK),
            CONTINUE_HEAD => self.jump(jumps.continues, Reason::NoLoop, NEITHER),
            RETURN_HEAD => self.jump(jumps.returns, Reason::ReturnInContinuing, NEITHER),
            _ => {
                self.statement = compound(kind);
                Ok(())
            }
        }
    }

    fn selector(&mut self, falls: bool)
        ensures { state_of self.new ≡ spec.selector falls (state_of self.old) }
    {
        let has_default = self.statement.has_default || self.plain == DEFAULT_SELECTOR;
        self.statement = Statement {
            has_default,
            falls,
            ..self.statement
        };
    }

    fn operand(&mut self)
        ensures { state_of self.new ≡ spec.operand (state_of self.old) }
    {
        self.statement = with_operand(self.statement);
    }

    #[tactic(auto, unfolding(crate::specs::Flow::enter_block))]
    fn enter_block(&mut self) -> TestResult
        ensures { Steps (spec.enter_block (state_of self.old)) result (state_of self.new) }
    {
        let (before, statement, jumps) = (self.before, self.statement, self.jumps);
        self.frames.push(Frame {
            before,
            statement,
            jumps,
        })?;
        self.jumps = inside(statement.blocks, jumps);
        self.before = NEXT;
        self.statement = statement_with(Blocks::Branches, NEXT);
        Ok(())
    }

    fn close(&mut self)
        ensures { state_of self.new ≡ spec.close (state_of self.old) }
    {
        self.finish();
        let block = self.before;
        let frame = pop_frame(&mut self.frames);
        self.before = frame.before;
        self.statement = joined(frame.statement, block);
        self.jumps = frame.jumps;
    }

    #[tactic(auto, unfolding(crate::specs::Flow::step))]
    fn step(&mut self, token: Token) -> TestResult
        ensures { Steps (spec.step token (state_of self.old)) result (state_of self.new) }
    {
        match token {
            Token::At(span) => self.start(span),
            Token::Head(kind) => return self.head(kind),
            Token::Plain(value) => self.plain = value,
            Token::Flag(falls) => self.selector(falls),
            Token::Use(_) => self.operand(),
            Token::Open => return self.enter_block(),
            Token::Close => self.close(),
            _ => {}
        }
        Ok(())
    }

    #[tactic(auto, unfolding(crate::specs::Flow::run))]
    fn run(&mut self, tokens: &[Token]) -> TestResult
        ensures { Steps (spec.run tokens.now (state_of self.old)) result (state_of self.new) }
    {
        let mut rest = tokens;
        while let [token, more @ ..] = rest {
            self.step(*token)?;
            rest = more;
        }
        Ok(())
    }
}

fn start_frame() -> Frame
    ensures { result ≡ spec.start_frame }
{
    Frame {
        before: NEXT,
        statement: statement_with(Blocks::Branches, NEXT),
        jumps: Jumps {
            breaks: false,
            continues: false,
            returns: true,
        },
    }
}

// The surroundings of the innermost block, which is closed.
fn pop_frame(frames: &mut Vec<Frame>) -> Frame
    ensures frame { result ≡ spec.last_frame frames.old.items }
    ensures rest { frames.new.items ≡ spec.front_frames frames.old.items }
{
    frames.pop().unwrap_or(start_frame())
}

// A statement that isn't a jump, before its blocks.
fn compound(kind: u64) -> Statement
    ensures { result ≡ spec.compound kind }
{
    match kind {
        BLOCK_HEAD | IF_HEAD => statement_with(Blocks::Branches, NEITHER),
        SWITCH_HEAD => statement_with(Blocks::Arms, NEITHER),
        LOOP_HEAD => statement_with(Blocks::LoopBody, NEITHER),
        _ => statement_with(Blocks::Branches, NEXT),
    }
}

// A statement with an operand, which after the blocks of a loop is the condition of `break if`.
fn with_operand(statement: Statement) -> Statement
    ensures { result ≡ spec.with_operand statement }
{
    match statement.blocks {
        Blocks::Continuing => Statement {
            behavior: either(statement.behavior, NEXT),
            ..statement
        },
        _ => statement,
    }
}

fn behavior_of(alloc: Global, tokens: &[Token]) -> Result<Behavior, Invalid>
    ensures { spec.Finds (spec.behavior_of tokens.now) result }
{
    let Frame {
        before,
        statement,
        jumps,
    } = start_frame();
    let mut flow = Flow {
        frames: Vec::new(alloc),
        before,
        statement,
        jumps,
        plain: 0,
        span: Span::UNDEFINED,
    };
    flow.run(tokens)?;
    flow.finish();
    Ok(flow.before)
}

/// Tests the jumps and the end of a body. `has_result` says whether its function has a result, and `span` is the function's
/// place. A body without statements is that of a signature, which may have a result.
///
/// # Errors
/// `NoLoop` or `ReturnInContinuing` at the first jump at a wrong place, else `NoReturn` at `span` if the function has a result
/// and its end can be reached. `Memory` if out of memory.
pub fn test_flow(alloc: Global, tokens: &[Token], has_result: bool, span: Span) -> TestResult
    ensures { Tests (spec.flow_valid tokens.now has_result span) result }
{
    let behavior = behavior_of(alloc, tokens)?;
    if has_result && behavior.next && !tokens.is_empty() {
        return refuse(Reason::NoReturn, span);
    }
    Ok(())
}
