// An expression as its kind, the item that it names and its operands.
ghost use Rattle.std.specs.Prelude.{◌≡◌, IfOk, length, map, Some};
ghost use Rattle.naga_oil_ir.specs.Parts.{parts, ReadsAs, level_x, level_y};

use super::*;
use std::alloc::{AllocError, Global};

// Kinds of expressions, by their places in the list of `Expression`, from 0: first the external kinds, then the results of
// statements, then the operations, which have operands.

/// The kind of a global variable: the first external kind that a global expression can't have.
pub const GLOBAL_VARIABLE_KIND: u64 = 4;
/// The kind of an argument of a function.
pub const LAST_EXTERNAL_KIND: u64 = 6;
/// The kind of the result of a call.
pub const FIRST_RESULT_KIND: u64 = 7;
/// The kind of the result of an operation of a subgroup.
pub const LAST_RESULT_KIND: u64 = 12;
/// The kind of a value composed of others.
pub const FIRST_OPERATION_KIND: u64 = 13;

/// The item that an expression names, if it names one.
#[derive(Clone, Copy)]
pub enum Named {
    Nothing,
    TypeOf(Handle<Type>),
    ConstantAt(Handle<Constant>),
    OverrideAt(Handle<Override>),
    GlobalAt(Handle<GlobalVariable>),
    LocalAt(Handle<LocalVariable>),
    ArgumentAt(u32),
    FunctionAt(Handle<Function>),
}

use Named::{ArgumentAt, ConstantAt, FunctionAt, GlobalAt, LocalAt, Nothing, OverrideAt, TypeOf};

/// The parts of an expression, without its plain values.
#[derive(Drop)]
pub struct ExpressionParts {
    /// The place of the expression in the list of `Expression`, from 0.
    pub kind: u64,
    pub named: Named,
    /// The operands in the order of copying; absent ones are `None`.
    pub operands: Vec<Option<Operand>>,
}

/// The parts of an expression, or an error if out of memory.
pub type PartsRead = Result<ExpressionParts, AllocError>;

fn read_parts(alloc: Global, kind: u64, named: Named, operands: &[Option<Operand>]) -> PartsRead
    ensures { IfOk result (λ r.
        (r.kind ≡ kind) × (r.named ≡ named) × (r.operands.items ≡ operands.now)) }
{
    let operands = Vec::from_slice(alloc, operands)?;
    Ok(ExpressionParts {
        kind,
        named,
        operands,
    })
}

/// Returns the operand of a level, the first for a gradient.
fn level_x(level: &SampleLevel) -> Option<Operand>
    ensures { result ≡ level_x level.now }
{
    match level {
        SampleLevel::Auto | SampleLevel::Zero => None,
        SampleLevel::Exact(e) | SampleLevel::Bias(e) => Some(*e),
        SampleLevel::Gradient { x, .. } => Some(*x),
    }
}

/// Returns the second operand of a gradient.
fn level_y(level: &SampleLevel) -> Option<Operand>
    ensures { result ≡ level_y level.now }
{
    match level {
        SampleLevel::Gradient { y, .. } => Some(*y),
        _ => None,
    }
}

impl Expression {
    /// Returns the kind of an expression, the item that it names and its operands.
    ///
    /// # Errors
    /// If out of memory.
    #[rattlefmt::skip]
    pub fn parts(&self, alloc: Global) -> PartsRead
        ensures { IfOk result (λ r. ReadsAs r (parts self.now)) }
    {
        match self {
            Expression::Literal { .. } => read_parts(alloc, 0, Nothing, &[]),
            Expression::ZeroValue(ty) => read_parts(alloc, 1, TypeOf(*ty), &[]),
            Expression::Constant(c) => read_parts(alloc, 2, ConstantAt(*c), &[]),
            Expression::Override(o) => read_parts(alloc, 3, OverrideAt(*o), &[]),
            Expression::GlobalVariable(g) => read_parts(alloc, 4, GlobalAt(*g), &[]),
            Expression::LocalVariable(l) => read_parts(alloc, 5, LocalAt(*l), &[]),
            Expression::FunctionArgument(n) => read_parts(alloc, 6, ArgumentAt(*n), &[]),
            Expression::CallResult(f) => read_parts(alloc, 7, FunctionAt(*f), &[]),
            Expression::AtomicResult { ty, .. } => read_parts(alloc, 8, TypeOf(*ty), &[]),
            Expression::WorkGroupUniformLoadResult { ty } => read_parts(alloc, 9, TypeOf(*ty), &[]),
            Expression::RayQueryProceedResult => read_parts(alloc, 10, Nothing, &[]),
            Expression::SubgroupBallotResult => read_parts(alloc, 11, Nothing, &[]),
            Expression::SubgroupOperationResult { ty } => read_parts(alloc, 12, TypeOf(*ty), &[]),
            Expression::Compose { ty, components } => read_parts(alloc, 13, TypeOf(*ty), &all_some(components, alloc)?),
            Expression::Access { base, index } => read_parts(alloc, 14, Nothing, &[Some(*base), Some(*index)]),
            Expression::AccessIndex { base, .. } => read_parts(alloc, 15, Nothing, &[Some(*base)]),
            Expression::Splat { value, .. } => read_parts(alloc, 16, Nothing, &[Some(*value)]),
            Expression::Swizzle { vector, .. } => read_parts(alloc, 17, Nothing, &[Some(*vector)]),
            Expression::Load { pointer } => read_parts(alloc, 18, Nothing, &[Some(*pointer)]),
            Expression::ImageSample(of) => read_parts(alloc, 19, Nothing, &[Some(of.image), Some(of.sampler), Some(of.coordinate), of.array_index, of.offset, level_x(&of.level), level_y(&of.level), of.depth_ref]),
            Expression::ImageLoad(of) => read_parts(alloc, 20, Nothing, &[Some(of.image), Some(of.coordinate), of.array_index, of.sample, of.level]),
            Expression::ImageQuery { image, query: ImageQuery::Size { level } } => read_parts(alloc, 21, Nothing, &[Some(*image), *level]),
            Expression::ImageQuery { image, query: ImageQuery::Other(_) } => read_parts(alloc, 21, Nothing, &[Some(*image), None]),
            Expression::Unary { expr, .. } => read_parts(alloc, 22, Nothing, &[Some(*expr)]),
            Expression::Binary { left, right, .. } => read_parts(alloc, 23, Nothing, &[Some(*left), Some(*right)]),
            Expression::Select { condition, accept, reject } => read_parts(alloc, 24, Nothing, &[Some(*condition), Some(*accept), Some(*reject)]),
            Expression::Derivative { expr, .. } => read_parts(alloc, 25, Nothing, &[Some(*expr)]),
            Expression::Relational { argument, .. } => read_parts(alloc, 26, Nothing, &[Some(*argument)]),
            Expression::Math(of) => read_parts(alloc, 27, Nothing, &[Some(of.arg), of.arg1, of.arg2, of.arg3]),
            Expression::As { expr, .. } => read_parts(alloc, 28, Nothing, &[Some(*expr)]),
            Expression::ArrayLength(e) => read_parts(alloc, 29, Nothing, &[Some(*e)]),
            Expression::RayQueryGetIntersection { query, .. } => read_parts(alloc, 30, Nothing, &[Some(*query)]),
            Expression::RayQueryVertexPositions { query, .. } => read_parts(alloc, 31, Nothing, &[Some(*query)]),
        }
    }
}

fn all_some(handles: &[Operand], alloc: Global) -> Result<Vec<Option<Operand>>, AllocError>
    ensures { IfOk result (λ v. v.items ≡ map Some handles.now) }
{
    handles.iter().map(|e| Some(*e)).collect(alloc)
}
