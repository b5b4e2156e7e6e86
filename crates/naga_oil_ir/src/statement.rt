// The statements of a body.
use super::{Expression, Function, Handle, Operand, Range, Span};

/// A list of statements with spans.
#[cycle(ast)]
#[derive(Drop)]
pub struct Block {
    pub body: Vec<(Statement, Span)>,
}

/// An arm of a switch.
#[cycle(ast)]
#[derive(Drop)]
pub struct SwitchCase {
    pub value: u64,
    pub body: Block,
    pub fall_through: bool,
}

/// An operation on a ray query.
#[derive(Clone, Copy)]
#[rattlefmt::skip]
pub enum RayQueryFunction {
    Initialize { acceleration_structure: Operand, descriptor: Operand },
    Proceed { result: Operand },
    Terminate,
    GenerateIntersection { hit_t: Operand },
    ConfirmIntersection,
}

/// A statement.
#[cycle(ast)]
#[derive(Drop)]
#[rattlefmt::skip]
pub enum Statement {
    Emit(Range<Expression>),
    Block(Block),
    If { condition: Operand, accept: Block, reject: Block },
    Switch { selector: Operand, cases: Vec<SwitchCase> },
    Loop { body: Block, continuing: Block, break_if: Option<Operand> },
    Break,
    Continue,
    Kill,
    ControlBarrier(u64),
    MemoryBarrier(u64),
    Return { value: Option<Operand> },
    Store { pointer: Operand, value: Operand },
    ImageStore { image: Operand, coordinate: Operand, array_index: Option<Operand>, value: Operand },
    Atomic { pointer: Operand, fun: u64, compare: Option<Operand>, value: Operand, result: Option<Operand> },
    ImageAtomic {
        image: Operand, coordinate: Operand, array_index: Option<Operand>, fun: u64, compare: Option<Operand>, value: Operand,
    },
    WorkGroupUniformLoad { pointer: Operand, result: Operand },
    Call { callee: Handle<Function>, arguments: Vec<Operand>, result: Option<Operand> },
    RayQuery { query: Operand, fun: RayQueryFunction },
    SubgroupBallot { result: Operand, predicate: Option<Operand> },
    SubgroupGather { mode: u64, index: Option<Operand>, argument: Operand, result: Operand },
    SubgroupCollectiveOperation { op: u64, collective: u64, argument: Operand, result: Operand },
}
