// A line of a body.
ghost use Rattle.std.specs.Prelude.{◌≡◌};
ghost use Rattle.yettuvam_wgsl_lines.specs.Line as spec;

use naga_oil_ir::Operand;

// The kinds of lines: those of statements, and two more.

/// The kind of an emitted expression.
pub const EMIT: u64 = 0;

pub const LOOP: u64 = 4;

pub const BARRIER: u64 = 8;

pub const STORE: u64 = 11;

pub const IMAGE_STORE: u64 = 12;

pub const ATOMIC: u64 = 13;

pub const UNIFORM_LOAD: u64 = 15;

pub const BALLOT: u64 = 18;

pub const GATHER: u64 = 19;

pub const COLLECTIVE: u64 = 20;

/// The kind of the condition that ends a loop.
pub const BREAK_IF: u64 = 21;

/// The kind of the line before the first.
pub const START: u64 = 22;

/// A line of a body.
#[derive(Drop)]
pub struct Line {
    pub kind: u64,
    /// The place of its first token.
    pub at: usize,
    /// Its place among the lines; that of the line before the first is 0.
    pub number: usize,
    /// The number of the innermost block around it.
    pub block: usize,
    /// Whether no block begins or ends between the line before and this one, but for the end of a loop before its condition.
    pub follows: bool,
    /// The code of the built-in function that it calls, or `NO_FUNCTION`.
    pub function: u64,
    /// The expressions that it names, in the order of the text.
    pub operands: Vec<Operand>,
    /// The expression that it emits, or its result.
    pub made: Option<Operand>,
    /// Whether what it makes has a name.
    pub is_named: bool,
}

/// Returns whether a line is an emitted expression.
pub fn is_emitted(line: &Line) -> bool
    ensures { result ≡ spec.is_emitted (spec.line_value line.now) }
{
    line.kind == EMIT
}
