// The expressions of functions and of a module.
ghost use Rattle.std.proofs.Common.{ap};
ghost use Rattle.naga_oil_ir.specs.Firsts.{hashed};
ghost use Rattle.naga_oil_ir.specs.contracts.expression.ExpressionHash.TheImpl.{ghosts as expression_hash};
ghost use Rattle.naga_oil_ir.specs.contracts.expression.ExpressionHash.TheImpl.Laws.{respects_eq-law as expression_law};

use super::firsts::hashed;
use super::*;

/// The handle of an expression that another expression or a statement takes.
pub type Operand = Handle<Expression>;

/// The level of detail at which an image is sampled.
#[derive(Clone, Copy, PartialEq, Eq, Hash)]
#[rattlefmt::skip]
pub enum SampleLevel {
    Auto,
    Zero,
    Exact(Operand),
    Bias(Operand),
    Gradient { x: Operand, y: Operand },
}

/// A query of an image.
#[derive(Clone, Copy, PartialEq, Eq, Hash)]
pub enum ImageQuery {
    Size { level: Option<Operand> },
    Other(u64),
}

/// A sample of an image.
#[derive(PartialEq, Eq, Hash, Drop)]
pub struct ImageSample {
    pub image: Operand,
    pub sampler: Operand,
    pub gather: u64,
    pub coordinate: Operand,
    pub array_index: Option<Operand>,
    pub offset: Option<Operand>,
    pub level: SampleLevel,
    pub depth_ref: Option<Operand>,
}

/// A load of a texel of an image.
#[derive(PartialEq, Eq, Hash, Drop)]
pub struct ImageLoad {
    pub image: Operand,
    pub coordinate: Operand,
    pub array_index: Option<Operand>,
    pub sample: Option<Operand>,
    pub level: Option<Operand>,
}

/// A mathematical function of one to four arguments.
#[derive(PartialEq, Eq, Hash, Drop)]
pub struct Math {
    pub fun: u64,
    pub arg: Operand,
    pub arg1: Option<Operand>,
    pub arg2: Option<Operand>,
    pub arg3: Option<Operand>,
}

/// An expression. The first seven kinds are external, the next six are results.
#[derive(PartialEq, Eq, Hash, Drop)]
#[rattlefmt::skip]
pub enum Expression {
    Literal { kind: u64, bits: u64 },
    ZeroValue(Handle<Type>),
    Constant(Handle<Constant>),
    Override(Handle<Override>),
    GlobalVariable(Handle<GlobalVariable>),
    LocalVariable(Handle<LocalVariable>),
    FunctionArgument(u32),
    CallResult(Handle<Function>),
    AtomicResult { ty: Handle<Type>, comparison: u64 },
    WorkGroupUniformLoadResult { ty: Handle<Type> },
    RayQueryProceedResult,
    SubgroupBallotResult,
    SubgroupOperationResult { ty: Handle<Type> },
    Compose { ty: Handle<Type>, components: Vec<Operand> },
    Access { base: Operand, index: Operand },
    AccessIndex { base: Operand, index: u32 },
    Splat { size: u64, value: Operand },
    Swizzle { size: u64, vector: Operand, pattern: u64 },
    Load { pointer: Operand },
    ImageSample(Box<ImageSample>),
    ImageLoad(Box<ImageLoad>),
    ImageQuery { image: Operand, query: ImageQuery },
    Unary { op: u64, expr: Operand },
    Binary { op: u64, left: Operand, right: Operand },
    Select { condition: Operand, accept: Operand, reject: Operand },
    Derivative { axis: u64, expr: Operand },
    Relational { fun: u64, argument: Operand },
    Math(Box<Math>),
    As { expr: Operand, kind: u64, convert: u64 },
    ArrayLength(Operand),
    RayQueryGetIntersection { query: Operand, committed: u64 },
    RayQueryVertexPositions { query: Operand, committed: u64 },
}

// the widest kinds are boxed, so that a list of expressions takes less memory
const _: () = prove!(size_of::<Expression>() == 40);

impl Item for Expression {
    type Kind = kind::Expression;

    ghost digest = { λ x. hashed (expression_hash.hash_input x) };

    fn digest(&self) -> u64 {
        hashed(self)
    }
}

impl Merge for Expression {
    ghost respects_eq = { λ x y h. ap hashed (expression_law x y h) };
}
