//! Each kind of expression and of statement, by its place in the list of the kinds.
use super::{Added, Case, FormPart, G, NONE, Shape, Shaped, Step, tells};
use naga_oil_ir::*;
use std::alloc::{AllocError, Global};

pub const EXPRESSIONS: u64 = 32;

pub const STATEMENTS: u64 = 21;

/// The first place of an arena.
fn first<K>() -> Index<K> {
    Index::new(0)
}

/// The externals and the results.
fn leaf_of(kind: u64, place: usize) -> Expression {
    match kind {
        0 => Expression::Literal { kind: 0, bits: 7 },
        1 => Expression::ZeroValue(Index::new(place)),
        2 => Expression::Constant(Index::new(place)),
        3 => Expression::Override(Index::new(place)),
        4 => Expression::GlobalVariable(Index::new(place)),
        5 => Expression::LocalVariable(Index::new(place)),
        6 => Expression::FunctionArgument(0),
        7 => Expression::CallResult(Index::new(place)),
        8 => Expression::AtomicResult {
            ty: Index::new(place),
            comparison: 0,
        },
        9 => Expression::WorkGroupUniformLoadResult {
            ty: Index::new(place),
        },
        10 => Expression::RayQueryProceedResult,
        11 => Expression::SubgroupBallotResult,
        _ => Expression::SubgroupOperationResult {
            ty: Index::new(place),
        },
    }
}

fn composed(alloc: Global) -> Result<Expression, AllocError> {
    let ty = Index::new(0);
    let components = Vec::from_slice(alloc, &[Index::new(0), Index::new(0)])?;
    Ok(Expression::Compose { ty, components })
}

/// Parts of values, and items in memory.
fn part_of(kind: u64, at: Operand) -> Expression {
    match kind {
        14 => Expression::Access {
            base: at,
            index: at,
        },
        15 => Expression::AccessIndex { base: at, index: 0 },
        16 => Expression::Splat { size: 2, value: at },
        17 => Expression::Swizzle {
            size: 2,
            vector: at,
            pattern: 0,
        },
        _ => Expression::Load { pointer: at },
    }
}

/// What is read of images.
fn image_of(kind: u64, at: Operand, alloc: Global) -> Result<Expression, AllocError> {
    Ok(match kind {
        19 => Expression::ImageSample(Box::new(
            alloc,
            ImageSample {
                image: at,
                sampler: at,
                gather: 0,
                coordinate: at,
                array_index: Some(at),
                offset: None,
                level: SampleLevel::Gradient { x: at, y: at },
                depth_ref: Some(at),
            },
        )?),
        20 => Expression::ImageLoad(Box::new(
            alloc,
            ImageLoad {
                image: at,
                coordinate: at,
                array_index: None,
                sample: Some(at),
                level: None,
            },
        )?),
        _ => Expression::ImageQuery {
            image: at,
            query: ImageQuery::Size { level: Some(at) },
        },
    })
}

/// Operators.
fn operator_of(kind: u64, at: Operand, alloc: Global) -> Result<Expression, AllocError> {
    Ok(match kind {
        22 => Expression::Unary { op: 0, expr: at },
        23 => Expression::Binary {
            op: 0,
            left: at,
            right: at,
        },
        24 => Expression::Select {
            condition: at,
            accept: at,
            reject: at,
        },
        25 => Expression::Derivative { axis: 0, expr: at },
        26 => Expression::Relational {
            fun: 0,
            argument: at,
        },
        _ => Expression::Math(Box::new(
            alloc,
            Math {
                fun: 0,
                arg: at,
                arg1: Some(at),
                arg2: None,
                arg3: None,
            },
        )?),
    })
}

/// The last kinds.
fn other_of(kind: u64, at: Operand) -> Expression {
    match kind {
        28 => Expression::As {
            expr: at,
            kind: 0,
            convert: 0,
        },
        29 => Expression::ArrayLength(at),
        30 => Expression::RayQueryGetIntersection {
            query: at,
            committed: 0,
        },
        _ => Expression::RayQueryVertexPositions {
            query: at,
            committed: 0,
        },
    }
}

/// The expression of a kind, all of whose handles are of one place; a composed one and an argument have the first place.
pub fn expression_of(kind: u64, place: usize, alloc: Global) -> Result<Expression, AllocError> {
    match kind {
        0..=12 => Ok(leaf_of(kind, place)),
        13 => composed(alloc),
        14..=18 => Ok(part_of(kind, Index::new(place))),
        19..=21 => image_of(kind, Index::new(place), alloc),
        22..=27 => operator_of(kind, Index::new(place), alloc),
        _ => Ok(other_of(kind, Index::new(place))),
    }
}

/// The block of one statement.
pub fn block(statement: Statement, alloc: Global) -> Result<Block, AllocError> {
    let mut body = Vec::new(alloc);
    body.push((statement, NONE))?;
    Ok(Block { body })
}

/// The block of no statement.
fn nothing(alloc: Global) -> Block {
    let body = Vec::new(alloc);
    Block { body }
}

fn switch(body: Block, alloc: Global) -> Result<Statement, AllocError> {
    let mut cases = Vec::new(alloc);
    let (value, fall_through) = (0, true);
    cases.push(SwitchCase {
        value,
        body,
        fall_through,
    })?;
    let selector = first();
    Ok(Statement::Switch { selector, cases })
}

/// Statements with a block in them.
fn nested_of(kind: u64, block: Block, alloc: Global) -> Result<Statement, AllocError> {
    match kind {
        1 => Ok(Statement::Block(block)),
        2 => Ok(Statement::If {
            condition: first(),
            accept: block,
            reject: nothing(alloc),
        }),
        3 => switch(block, alloc),
        _ => Ok(Statement::Loop {
            body: nothing(alloc),
            continuing: block,
            break_if: Some(first()),
        }),
    }
}

/// Statements with a handle or none.
fn plain_of(kind: u64) -> Statement {
    match kind {
        0 => Statement::Emit(PlaceRange::new(13, 32)),
        5 => Statement::Break,
        6 => Statement::Continue,
        7 => Statement::Kill,
        8 => Statement::ControlBarrier(0),
        9 => Statement::MemoryBarrier(0),
        _ => Statement::Return {
            value: Some(Index::new(13)),
        },
    }
}

/// Statements that write to memory.
fn write_of(kind: u64) -> Statement {
    match kind {
        11 => Statement::Store {
            pointer: first(),
            value: first(),
        },
        12 => Statement::ImageStore {
            image: first(),
            coordinate: first(),
            array_index: Some(first()),
            value: first(),
        },
        13 => Statement::Atomic {
            pointer: first(),
            fun: 0,
            compare: Some(first()),
            value: first(),
            result: Some(Index::new(8)),
        },
        _ => Statement::ImageAtomic {
            image: first(),
            coordinate: first(),
            array_index: None,
            fun: 0,
            compare: None,
            value: first(),
        },
    }
}

fn call(alloc: Global) -> Result<Statement, AllocError> {
    Ok(Statement::Call {
        callee: first(),
        arguments: Vec::from_slice(alloc, &[first()])?,
        result: Some(Index::new(7)),
    })
}

/// Other statements that give a result. Those of the last two kinds give results of one kind, at two places.
fn giving_of(kind: u64) -> Statement {
    match kind {
        15 => Statement::WorkGroupUniformLoad {
            pointer: first(),
            result: Index::new(9),
        },
        17 => Statement::RayQuery {
            query: first(),
            fun: RayQueryFunction::Proceed {
                result: Index::new(10),
            },
        },
        18 => Statement::SubgroupBallot {
            result: Index::new(11),
            predicate: Some(first()),
        },
        19 => Statement::SubgroupGather {
            mode: 0,
            index: Some(first()),
            argument: first(),
            result: Index::new(12),
        },
        _ => Statement::SubgroupCollectiveOperation {
            op: 0,
            collective: 0,
            argument: first(),
            result: Index::new(32),
        },
    }
}

pub fn statement_of(kind: u64, alloc: Global) -> Result<Statement, AllocError> {
    match kind {
        1..=4 => nested_of(kind, block(Statement::Break, alloc)?, alloc),
        0 | 5..=10 => Ok(plain_of(kind)),
        11..=14 => Ok(write_of(kind)),
        16 => call(alloc),
        _ => Ok(giving_of(kind)),
    }
}

/// An expression of each kind in the order of the kinds, and one more result.
#[rattlefmt::skip]
const EVERY_PART: [FormPart; 33] = [
    (0, 0), (1, 0), (2, 0), (3, 0), (4, 0), (5, 0), (6, 0), (7, 0), (8, 0), (9, 0), (10, 0), 
    (11, 0), (12, 0), (13, 0), (14, 0), (15, 0), (16, 0), (17, 0), (18, 0), (19, 0), (20, 0), (21, 0), 
    (22, 0), (23, 0), (24, 0), (25, 0), (26, 0), (27, 0), (28, 0), (29, 0), (30, 0), (31, 0), (12, 0),
];

/// A statement of each kind in the order of the kinds.
#[rattlefmt::skip]
const EVERY_STEP: [Step; 21] = [
    Step::Every(0), Step::Every(1), Step::Every(2), Step::Every(3), Step::Every(4), Step::Every(5), Step::Every(6), 
    Step::Every(7), Step::Every(8), Step::Every(9), Step::Every(10), Step::Every(11), Step::Every(12), Step::Every(13), 
    Step::Every(14), Step::Every(15), Step::Every(16), Step::Every(17), Step::Every(18), Step::Every(19), Step::Every(20),
];

/// The function of every kind of expression and of statement.
pub const EVERY: Shape = Shape {
    argument: Some(0),
    local: Some((0, 0)),
    named: Some(31),
    parts: &EVERY_PART,
    steps: &EVERY_STEP,
    ..G
};

/// A function of every kind, and what it names.
#[rattlefmt::skip]
static EVERY_KIND: [Case; 1] = [
    (&[Added::Override, Added::Global, Shaped(EVERY)], "", true),
];

#[test]
fn every_kind_is_taken(rt: HostRuntime) {
    tells(&rt, &EVERY_KIND);
}
