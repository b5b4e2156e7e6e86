//! A function with each kind of expression and statement, copied, and its copy by hand.
use super::{function, mapped};
use crate::derive::{holds, set};
use naga_oil_derive::DerivedModule;
use naga_oil_form::FormFault;
use naga_oil_ir::{
    Block, Constant, Expression, Function, FunctionArgument, FunctionResult, GlobalVariable,
    Handle, ImageLoad, ImageQuery, ImageSample, Index, LocalVariable, Math, Module, Operand,
    Override, Range, RayQueryFunction, SampleLevel, Span, Statement, SwitchCase, Token, Type,
    TypeInner, push_block,
};
use std::alloc::{AllocError, Global};
use std::test::Fail;

const NONE: Span = Span::UNDEFINED;

/// The expected place of each expression of the test's function: in the order in which its body first uses them.
static TO: [usize; 33] = [
    2, 4, 8, 9, 3, 7, 0, 1, 5, 6, 10, 11, 12, 14, 15, 16, 17, 18, 19, 20, 21, 22, 23, 24, 25, 26,
    27, 28, 29, 30, 31, 32, 13,
];

/// Makes the test's function, or its copy by hand: then operands go where `to` says, and the second types, constants,
/// overrides and globals are the first.
#[derive(Clone, Copy)]
struct Maker {
    copied: bool,
    alloc: Global,
}

impl Maker {
    fn at(self, place: usize) -> Operand {
        let to = TO.get(place).copied().unwrap_or(place);
        Index::new(if self.copied { to } else { place })
    }

    fn some(self, place: usize) -> Option<Operand> {
        Some(self.at(place))
    }

    fn item<K>(self) -> Index<K> {
        Index::new(if self.copied { 0 } else { 1 })
    }

    fn ty(self, place: usize) -> Handle<Type> {
        Index::new(if self.copied && place < 2 {
            1 - place
        } else {
            place
        })
    }

    fn external(self, kind: usize) -> Expression {
        match kind {
            0 => Expression::Literal { kind: 0, bits: 7 },
            1 => Expression::ZeroValue(self.ty(1)),
            2 => Expression::Constant(self.item()),
            3 => Expression::Override(self.item()),
            4 => Expression::GlobalVariable(self.item()),
            5 => Expression::LocalVariable(Index::new(0)),
            _ => Expression::FunctionArgument(0),
        }
    }

    fn outcome(self, kind: usize) -> Expression {
        match kind {
            7 => Expression::CallResult(Index::new(0)),
            8 => Expression::AtomicResult {
                ty: self.ty(0),
                comparison: 5,
            },
            9 => Expression::WorkGroupUniformLoadResult { ty: self.ty(0) },
            10 => Expression::RayQueryProceedResult,
            11 => Expression::SubgroupBallotResult,
            12 => Expression::SubgroupOperationResult { ty: self.ty(0) },
            _ => Expression::SubgroupOperationResult { ty: self.ty(1) },
        }
    }

    fn image(self, kind: usize) -> Result<Expression, AllocError> {
        Ok(match kind {
            18 => Expression::Load {
                pointer: self.at(5),
            },
            19 => Expression::ImageSample(Box::new(
                self.alloc,
                ImageSample {
                    image: self.at(6),
                    sampler: self.at(4),
                    gather: 1,
                    coordinate: self.at(0),
                    array_index: self.some(1),
                    offset: self.some(2),
                    level: SampleLevel::Gradient {
                        x: self.at(3),
                        y: self.at(0),
                    },
                    depth_ref: self.some(6),
                },
            )?),
            20 => Expression::ImageLoad(Box::new(
                self.alloc,
                ImageLoad {
                    image: self.at(6),
                    coordinate: self.at(0),
                    array_index: self.some(1),
                    sample: self.some(2),
                    level: self.some(3),
                },
            )?),
            _ => Expression::ImageQuery {
                image: self.at(6),
                query: ImageQuery::Size {
                    level: self.some(0),
                },
            },
        })
    }

    fn operation(self, kind: usize) -> Result<Expression, AllocError> {
        Ok(match kind {
            14 => Expression::Access {
                base: self.at(6),
                index: self.at(0),
            },
            15 => Expression::AccessIndex {
                base: self.at(6),
                index: 9,
            },
            16 => Expression::Splat {
                size: 2,
                value: self.at(0),
            },
            17 => Expression::Swizzle {
                size: 3,
                vector: self.at(6),
                pattern: 4,
            },
            22 => Expression::Unary {
                op: 1,
                expr: self.at(1),
            },
            23 => Expression::Binary {
                op: 2,
                left: self.at(22),
                right: self.at(0),
            },
            24 => Expression::Select {
                condition: self.at(0),
                accept: self.at(1),
                reject: self.at(2),
            },
            25 => Expression::Derivative {
                axis: 3,
                expr: self.at(2),
            },
            26 => Expression::Relational {
                fun: 4,
                argument: self.at(3),
            },
            27 => Expression::Math(Box::new(
                self.alloc,
                Math {
                    fun: 5,
                    arg: self.at(0),
                    arg1: self.some(1),
                    arg2: self.some(2),
                    arg3: self.some(3),
                },
            )?),
            28 => Expression::As {
                expr: self.at(7),
                kind: 6,
                convert: 7,
            },
            29 => Expression::ArrayLength(self.at(4)),
            30 => Expression::RayQueryGetIntersection {
                query: self.at(5),
                committed: 1,
            },
            _ => Expression::RayQueryVertexPositions {
                query: self.at(5),
                committed: 0,
            },
        })
    }

    fn expression(self, kind: usize) -> Result<Expression, AllocError> {
        if kind == 13 {
            let components = Vec::from_slice(self.alloc, &[self.at(0), self.at(1)])?;
            return Ok(Expression::Compose {
                ty: self.ty(1),
                components,
            });
        }
        match kind {
            0..=6 => Ok(self.external(kind)),
            7..=12 | 32 => Ok(self.outcome(kind)),
            18..=21 => self.image(kind),
            _ => self.operation(kind),
        }
    }

    fn none(self) -> Block {
        Block {
            body: Vec::new(self.alloc),
        }
    }

    fn one(self, statement: Statement) -> Result<Block, AllocError> {
        let mut block = self.none();
        block.body.push((statement, NONE))?;
        Ok(block)
    }

    /// A call, with a list of arguments.
    fn call(self) -> Result<Statement, AllocError> {
        let arguments = Vec::from_slice(self.alloc, &[self.at(6)])?;
        Ok(Statement::Call {
            callee: Index::new(0),
            arguments,
            result: self.some(7),
        })
    }

    fn choice(self) -> Result<Statement, AllocError> {
        let accept = self.one(Statement::ControlBarrier(1))?;
        let reject = self.one(Statement::MemoryBarrier(2))?;
        Ok(Statement::If {
            condition: self.at(26),
            accept,
            reject,
        })
    }

    fn cases(self) -> Result<Vec<SwitchCase>, AllocError> {
        let body = self.one(Statement::Break)?;
        let mut cases = Vec::new(self.alloc);
        cases.push(SwitchCase {
            value: 4,
            body,
            fall_through: true,
        })?;
        Ok(cases)
    }

    fn switch(self) -> Result<Statement, AllocError> {
        Ok(Statement::Switch {
            selector: self.at(27),
            cases: self.cases()?,
        })
    }

    fn repeat(self) -> Result<Statement, AllocError> {
        Ok(Statement::Loop {
            body: self.one(Statement::Continue)?,
            continuing: self.none(),
            break_if: self.some(24),
        })
    }

    /// The statements with a list or a block.
    fn nested(self, kind: usize) -> Result<Statement, AllocError> {
        match kind {
            0 => self.call(),
            12 => Ok(Statement::Block(self.one(Statement::Kill)?)),
            13 => self.choice(),
            14 => self.switch(),
            _ => self.repeat(),
        }
    }

    fn query(self, fun: RayQueryFunction) -> Statement {
        Statement::RayQuery {
            query: self.at(5),
            fun,
        }
    }

    fn ray_query(self, kind: usize) -> Statement {
        self.query(match kind {
            3 => RayQueryFunction::Initialize {
                acceleration_structure: self.at(2),
                descriptor: self.at(3),
            },
            4 => RayQueryFunction::Proceed {
                result: self.at(10),
            },
            9 => RayQueryFunction::Terminate,
            10 => RayQueryFunction::GenerateIntersection { hit_t: self.at(23) },
            _ => RayQueryFunction::ConfirmIntersection,
        })
    }

    fn emit(self) -> Statement {
        let emitted = if self.copied { (14, 33) } else { (13, 32) };
        Statement::Emit(Range::<Expression>::new(emitted.0, emitted.1))
    }

    /// The statements that give results, and one that emits.
    fn giving(self, kind: usize) -> Statement {
        match kind {
            1 => Statement::Atomic {
                pointer: self.at(4),
                fun: 3,
                compare: self.some(0),
                value: self.at(1),
                result: self.some(8),
            },
            2 => Statement::WorkGroupUniformLoad {
                pointer: self.at(4),
                result: self.at(9),
            },
            5 => Statement::SubgroupBallot {
                result: self.at(11),
                predicate: self.some(0),
            },
            6 => Statement::SubgroupGather {
                mode: 2,
                index: self.some(0),
                argument: self.at(1),
                result: self.at(12),
            },
            7 => Statement::SubgroupCollectiveOperation {
                op: 1,
                collective: 2,
                argument: self.at(0),
                result: self.at(32),
            },
            _ => self.emit(),
        }
    }

    /// The last statements.
    fn using(self, kind: usize) -> Statement {
        match kind {
            16 => Statement::Store {
                pointer: self.at(5),
                value: self.at(18),
            },
            17 => Statement::ImageStore {
                image: self.at(6),
                coordinate: self.at(0),
                array_index: self.some(1),
                value: self.at(19),
            },
            18 => Statement::ImageAtomic {
                image: self.at(6),
                coordinate: self.at(0),
                array_index: None,
                fun: 2,
                compare: self.some(20),
                value: self.at(21),
            },
            _ => Statement::Return {
                value: self.some(31),
            },
        }
    }

    fn statement(self, kind: usize) -> Result<Statement, AllocError> {
        match kind {
            0 | 12..=15 => self.nested(kind),
            3 | 4 | 9..=11 => Ok(self.ray_query(kind)),
            1..=8 => Ok(self.giving(kind)),
            _ => Ok(self.using(kind)),
        }
    }

    fn body(self) -> Result<Block, AllocError> {
        let mut block = self.none();
        for kind in 0..20 {
            block.body.push((self.statement(kind)?, NONE))?;
        }
        Ok(block)
    }

    fn add_expressions(self, f: &mut Function) -> Result<(), AllocError> {
        for kind in 0..33 {
            f.expressions.append(self.expression(kind)?, NONE)?;
        }
        Ok(())
    }

    /// Gives a function of nothing an argument, a result and a local variable.
    fn add_head(self, f: &mut Function) -> Result<(), AllocError> {
        f.arguments.push(FunctionArgument {
            name: None,
            ty: self.ty(1),
            binding: Some(3),
        })?;
        f.result = Some(FunctionResult {
            ty: self.ty(0),
            binding: None,
        });
        let local = LocalVariable {
            name: None,
            ty: self.ty(0),
            init: None,
        };
        f.local_variables.append(local, NONE)?;
        Ok(())
    }

    /// Makes a function of nothing one with each kind of expression and statement.
    fn fill(self, f: &mut Function) -> Result<(), AllocError> {
        self.add_head(f)?;
        self.add_expressions(f)?;
        f.body = self.body()?;
        Ok(())
    }
}

fn add_constant(m: &mut Module, bits: u64) -> Result<(), AllocError> {
    let literal = Expression::Literal { kind: 1, bits };
    let init = m.global_expressions.append(literal, NONE)?;
    let constant = Constant {
        name: None,
        ty: Index::new(0),
        init,
    };
    m.constants.append(constant, NONE)?;
    Ok(())
}

fn add_override(m: &mut Module, bits: u64) -> Result<(), AllocError> {
    let size = Override {
        name: None,
        id: Some(bits),
        ty: Index::new(0),
        init: None,
    };
    m.overrides.append(size, NONE)?;
    Ok(())
}

fn add_global(m: &mut Module, bits: u64) -> Result<(), AllocError> {
    let global = GlobalVariable {
        name: None,
        space: bits,
        binding: None,
        ty: Index::new(1),
        init: None,
    };
    m.global_variables.append(global, NONE)?;
    Ok(())
}

/// Puts in an item of each kind.
fn add_items(m: &mut Module, bits: u64) -> Result<(), AllocError> {
    add_constant(m, bits)?;
    add_override(m, bits)?;
    add_global(m, bits)
}

fn add_type(m: &mut Module, inner: TypeInner) -> Result<(), AllocError> {
    m.types.insert(Type { name: None, inner }, NONE)?;
    Ok(())
}

/// Puts in two types, and two items of each kind.
fn add_all(m: &mut Module) -> Result<(), AllocError> {
    add_type(m, TypeInner::Scalar(1))?;
    add_type(m, TypeInner::Vector(2))?;
    add_items(m, 0)?;
    add_items(m, 1)
}

/// Puts in the test's function.
fn add_whole(m: &mut Module, alloc: Global) -> Result<(), AllocError> {
    let mut whole = function("f", alloc)?;
    let maker = Maker {
        copied: false,
        alloc,
    };
    maker.fill(&mut whole)?;
    m.functions.append(whole, Span::new(3, 4))?;
    Ok(())
}

/// Puts in two items of each kind, a function that is called, and one with each kind of expression and statement.
fn fill(m: &mut Module, alloc: Global) -> Result<(), AllocError> {
    add_all(m)?;
    m.functions.append(function("h", alloc)?, Span::new(1, 2))?;
    add_whole(m, alloc)
}

/// A token by numbers.
fn code(token: Token) -> [usize; 4] {
    match token {
        Token::At(span) => [1, span.start as usize, span.end as usize, 0],
        Token::Head(k) => [2, k as usize, 0, 0],
        Token::Plain(k) => [3, k as usize, 0, 0],
        Token::Flag(b) => [4, if b { 1 } else { 0 }, 0, 0],
        Token::Absent => [5, 0, 0, 0],
        Token::Use(h) => [6, h.index(), 0, 0],
        Token::Give(h) => [7, h.index(), 0, 0],
        Token::GiveCall(f, h) => [8, f.index(), h.index(), 0],
        Token::Emitted(r) => [9, r.start(), r.end(), 0],
        Token::Callee(f) => [10, f.index(), 0, 0],
        Token::Open => [11, 0, 0, 0],
        Token::Close => [12, 0, 0, 0],
    }
}

fn codes(block: &Block, alloc: Global) -> Result<Vec<[usize; 4]>, AllocError> {
    let mut tokens = Vec::new(alloc);
    push_block(block, &mut tokens)?;
    let mut list = Vec::new(alloc);
    for token in &tokens {
        list.push(code(*token))?;
    }
    Ok(list)
}

/// Whether an expression is at its expected place.
fn is_by_hand(copy: &Function, kind: usize, by_hand: Maker) -> Result<bool, AllocError> {
    let expected = by_hand.expression(kind)?;
    match copy.expressions.try_get(by_hand.at(kind)) {
        Some(found) => Ok(*found == expected),
        None => Ok(false),
    }
}

/// Whether each expression does.
fn are_by_hand(copy: &Function, by_hand: Maker) -> Result<bool, AllocError> {
    for kind in 0..33 {
        if !is_by_hand(copy, kind, by_hand)? {
            return Ok(false);
        }
    }
    Ok(copy.expressions.len() == 33)
}

fn codes_by_hand(by_hand: Maker) -> Result<Vec<[usize; 4]>, AllocError> {
    let body = by_hand.body()?;
    codes(&body, by_hand.alloc)
}

fn reads_by_hand(body: &Block, by_hand: Maker) -> Result<bool, AllocError> {
    let found = codes(body, by_hand.alloc)?;
    let expected = codes_by_hand(by_hand)?;
    Ok(found.as_slice() == expected.as_slice())
}

/// Whether a copy is as it was written by hand.
fn is_copy(copy: &Function, by_hand: Maker) -> Result<bool, AllocError> {
    if copy.diagnostic_filter_leaf.is_some() || !are_by_hand(copy, by_hand)? {
        return Ok(false);
    }
    reads_by_hand(&copy.body, by_hand)
}

fn counts(module: &Module) -> [usize; 4] {
    [
        module.types.len(),
        module.constants.len(),
        module.overrides.len(),
        module.global_variables.len(),
    ]
}

/// Whether the copy of the second function of the module with each kind is the expected one.
fn is_copied(module: &Module, alloc: Global) -> Result<bool, AllocError> {
    let by_hand = Maker {
        copied: true,
        alloc,
    };
    let handle = Index::new(1);
    let span = module.functions.get_span(handle);
    if span != Span::new(103, 104) || counts(module) != [2, 1, 1, 1] {
        return Ok(false);
    }
    match module.functions.try_get(handle) {
        Some(copy) => is_copy(copy, by_hand),
        None => Ok(false),
    }
}

fn copies<'a>(
    derived: &mut DerivedModule<'a>,
    source: &'a Module,
    alloc: Global,
) -> Result<bool, FormFault> {
    set(derived, source, 100, alloc)?;
    mapped(derived, 1, alloc)?;
    Ok(is_copied(derived.module(), alloc)?)
}

fn derives(source: &Module, alloc: Global) -> Result<bool, FormFault> {
    let mut derived = DerivedModule::new(alloc);
    copies(&mut derived, source, alloc)
}

fn copies_each_kind(alloc: Global) -> Result<bool, FormFault> {
    let mut source = Module::new(alloc);
    fill(&mut source, alloc)?;
    derives(&source, alloc)
}

#[test]
fn each_kind_is_copied(rt: HostRuntime) -> Result<(), Fail> {
    holds(copies_each_kind(rt.alloc())?)
}
