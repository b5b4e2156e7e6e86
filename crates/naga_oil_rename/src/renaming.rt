//! Copies of expressions and bodies with renamed handles.
ghost use Rattle.std.specs.Prelude.{◌≡◌, ℕ, IfOk, map, option_map};
ghost use Rattle.naga_oil_ir.specs.Parts.{parts, sample_parts, load_parts, math_parts, level_code, level_x, level_y, query_code, query_level};
ghost use Rattle.naga_oil_ir.specs.Body.{used, given, given_by, block_tokens, statement_tokens, case_tokens, ray_query_tokens};
ghost use Rattle.naga_oil_ir.specs.declared.names.ItemPlace.{ItemPlace};
ghost use Rattle.naga_oil_rename.specs.Renames.{Renames, rename, rename_place, rename_token, rename_tokens};
ghost use Rattle.std.specs.List.{flat_map};

use super::*;

/// Maps handles, ranges and spans.
pub trait Renaming {
    ghost renames: { Self → Renames };

    fn ty(&self, handle: Handle<Type>) -> Handle<Type>
        ensures { result ≡ (renames self.now).ty handle };

    fn constant(&self, handle: Handle<Constant>) -> Handle<Constant>
        ensures { result ≡ (renames self.now).constant handle };

    fn pipeline_override(&self, handle: Handle<Override>) -> Handle<Override>
        ensures { result ≡ (renames self.now).pipeline_override handle };

    fn global(&self, handle: Handle<GlobalVariable>) -> Handle<GlobalVariable>
        ensures { result ≡ (renames self.now).global handle };

    fn function(&self, handle: Handle<Function>) -> Handle<Function>
        ensures { result ≡ (renames self.now).function handle };

    fn expression(&self, handle: Handle<Expression>) -> Handle<Expression>
        ensures { result ≡ (renames self.now).expression handle };

    fn range(&self, range: Range<Expression>) -> Range<Expression>
        ensures { result ≡ (renames self.now).range range };

    fn span(&self, span: Span) -> Span
        ensures { result ≡ (renames self.now).span span };
}

/// Returns an operand that may be absent, renamed.
pub fn renamed_option<R: Renaming>(names: &R, handle: Option<Operand>) -> Option<Operand>
    ensures handle { result ≡ option_map (R.renames names.now).expression handle }
    ensures place { let r = R.renames names.now in
        let place = option_map ItemPlace.ExpressionItem in
        place result ≡ option_map (rename_place r) (place handle) }
    ensures used { used result ≡ rename_token (R.renames names.now) (used handle) }
    ensures given { given result ≡ rename_token (R.renames names.now) (given handle) }
    ensures given_by { let r = R.renames names.now in
        (f : ℕ) → given_by (r.function f) result ≡ rename_token r (given_by f handle) }
{
    handle.map(|handle| names.expression(handle))
}

/// Returns a list of operands, renamed.
///
/// # Errors
/// If out of memory.
pub fn renamed_list<R: Renaming>(
    names: &R,
    list: &[Operand],
    alloc: Global,
) -> AllocResult<Vec<Operand>>
    ensures { IfOk result (λ v. v.items ≡ map (R.renames names.now).expression list.now) }
{
    list.iter().map(|h| names.expression(*h)).collect(alloc)
}

/// Returns a level with renamed operands.
#[rattlefmt::skip]
fn renamed_level<R: Renaming>(names: &R, level: &SampleLevel) -> SampleLevel
    ensures code { level_code result ≡ level_code level.now }
    ensures x { level_x result ≡ option_map (R.renames names.now).expression (level_x level.now) }
    ensures y { level_y result ≡ option_map (R.renames names.now).expression (level_y level.now) }
{
    match level {
        SampleLevel::Auto => SampleLevel::Auto,
        SampleLevel::Zero => SampleLevel::Zero,
        SampleLevel::Exact(e) => SampleLevel::Exact(names.expression(*e)),
        SampleLevel::Bias(e) => SampleLevel::Bias(names.expression(*e)),
        SampleLevel::Gradient { x, y } => SampleLevel::Gradient { x: names.expression(*x), y: names.expression(*y) },
    }
}

/// Returns a query with a renamed operand.
#[rattlefmt::skip]
fn renamed_query<R: Renaming>(names: &R, query: &ImageQuery) -> ImageQuery
    ensures code { query_code result ≡ query_code query.now }
    ensures level { let r = R.renames names.now in
        query_level result ≡ option_map r.expression (query_level query.now) }
{
    match query {
        ImageQuery::Size { level } => ImageQuery::Size { level: renamed_option(names, *level) },
        ImageQuery::Other(code) => ImageQuery::Other(*code),
    }
}

/// Returns a sample of an image with renamed operands.
fn renamed_sample<R: Renaming>(names: &R, sample: &ImageSample) -> ImageSample
    ensures { let r = R.renames names.now in
        sample_parts result ≡ rename r (sample_parts sample.now) }
{
    ImageSample {
        image: names.expression(sample.image),
        sampler: names.expression(sample.sampler),
        gather: sample.gather,
        coordinate: names.expression(sample.coordinate),
        array_index: renamed_option(names, sample.array_index),
        offset: renamed_option(names, sample.offset),
        level: renamed_level(names, &sample.level),
        depth_ref: renamed_option(names, sample.depth_ref),
    }
}

/// Returns a load of a texel with renamed operands.
fn renamed_load<R: Renaming>(names: &R, load: &ImageLoad) -> ImageLoad
    ensures { let r = R.renames names.now in
        load_parts result ≡ rename r (load_parts load.now) }
{
    ImageLoad {
        image: names.expression(load.image),
        coordinate: names.expression(load.coordinate),
        array_index: renamed_option(names, load.array_index),
        sample: renamed_option(names, load.sample),
        level: renamed_option(names, load.level),
    }
}

/// Returns a mathematical function with renamed arguments.
fn renamed_math<R: Renaming>(names: &R, math: &Math) -> Math
    ensures { let r = R.renames names.now in
        math_parts result ≡ rename r (math_parts math.now) }
{
    Math {
        fun: math.fun,
        arg: names.expression(math.arg),
        arg1: renamed_option(names, math.arg1),
        arg2: renamed_option(names, math.arg2),
        arg3: renamed_option(names, math.arg3),
    }
}

/// Renames a value of an enum: first the kinds whose patterns are given, then those that hold one plain value, then a table of
/// the others, each rebuilt from its plain values, its operands and its operands that may be absent.
macro_rules! rename_kind {
    ($kinds:ident, $value:expr, $names:ident;
     $($pattern:pat => $made:expr;)*
     @ $($code:ident)*;
     $($kind:ident { $($plain:ident)*; $($operand:ident)*; $($option:ident)* })*) => {
        match $value {
            $($pattern => Ok($made),)*
            $($kinds::$code(code) => Ok($kinds::$code(*code)),)*
            $($kinds::$kind { $($plain,)* $($operand,)* $($option,)* } => Ok($kinds::$kind {
                $($plain: *$plain,)*
                $($operand: $names.expression(*$operand),)*
                $($option: renamed_option($names, *$option),)*
            }),)*
        }
    };
}

pub(crate) use rename_kind;

/// Returns a copy of an expression with renamed handles.
///
/// # Errors
/// If out of memory.
#[rattlefmt::skip]
pub fn renamed_expression<R: Renaming>(names: &R, expression: &Expression, alloc: Global) -> AllocResult<Expression>
    ensures { IfOk result (λ e. parts e ≡ rename (R.renames names.now) (parts expression.now)) }
{
    rename_kind! { Expression, expression, names;
        Expression::ZeroValue(x) => Expression::ZeroValue(names.ty(*x));
        Expression::Constant(x) => Expression::Constant(names.constant(*x));
        Expression::Override(x) => Expression::Override(names.pipeline_override(*x));
        Expression::GlobalVariable(x) => Expression::GlobalVariable(names.global(*x));
        Expression::CallResult(x) => Expression::CallResult(names.function(*x));
        Expression::AtomicResult { ty, comparison } =>
            Expression::AtomicResult { ty: names.ty(*ty), comparison: *comparison };
        Expression::WorkGroupUniformLoadResult { ty } =>
            Expression::WorkGroupUniformLoadResult { ty: names.ty(*ty) };
        Expression::RayQueryProceedResult => Expression::RayQueryProceedResult;
        Expression::SubgroupBallotResult => Expression::SubgroupBallotResult;
        Expression::SubgroupOperationResult { ty } =>
            Expression::SubgroupOperationResult { ty: names.ty(*ty) };
        Expression::Compose { ty, components } =>
            Expression::Compose { ty: names.ty(*ty), components: renamed_list(names, components, alloc)? };
        Expression::ImageSample(x) => Expression::ImageSample(Box::new(alloc, renamed_sample(names, x))?);
        Expression::ImageLoad(x) => Expression::ImageLoad(Box::new(alloc, renamed_load(names, x))?);
        Expression::Math(x) => Expression::Math(Box::new(alloc, renamed_math(names, x))?);
        Expression::ImageQuery { image, query } =>
            Expression::ImageQuery { image: names.expression(*image), query: renamed_query(names, query) };
        Expression::ArrayLength(x) => Expression::ArrayLength(names.expression(*x));
        @ LocalVariable FunctionArgument;
        Literal { kind bits; ; }
        Access { ; base index; }
        AccessIndex { index; base; }
        Splat { size; value; }
        Swizzle { size pattern; vector; }
        Load { ; pointer; }
        Unary { op; expr; }
        Binary { op; left right; }
        Select { ; condition accept reject; }
        Derivative { axis; expr; }
        Relational { fun; argument; }
        As { kind convert; expr; }
        RayQueryGetIntersection { committed; query; }
        RayQueryVertexPositions { committed; query; }
    }
}

/// Returns an operation on a ray query with renamed handles.
#[rattlefmt::skip]
fn renamed_ray_query<R: Renaming>(names: &R, fun: &RayQueryFunction) -> RayQueryFunction
    ensures { let r = R.renames names.now in
        ray_query_tokens result ≡ rename_tokens r (ray_query_tokens fun.now) }
{
    match fun {
        RayQueryFunction::Initialize { acceleration_structure, descriptor } => RayQueryFunction::Initialize {
            acceleration_structure: names.expression(*acceleration_structure),
            descriptor: names.expression(*descriptor),
        },
        RayQueryFunction::Proceed { result } => RayQueryFunction::Proceed { result: names.expression(*result) },
        RayQueryFunction::Terminate => RayQueryFunction::Terminate,
        RayQueryFunction::GenerateIntersection { hit_t } =>
            RayQueryFunction::GenerateIntersection { hit_t: names.expression(*hit_t) },
        RayQueryFunction::ConfirmIntersection => RayQueryFunction::ConfirmIntersection,
    }
}

/// Returns a copy of a block with renamed handles.
///
/// # Errors
/// If out of memory.
#[cycle(renaming)]
pub fn renamed_block<R: Renaming>(names: &R, block: &Block, alloc: Global) -> AllocResult<Block>
    ensures { let r = R.renames names.now in
        IfOk result (λ b. block_tokens b ≡ rename_tokens r (block_tokens block.now)) }
{
    let mut body = Vec::with_capacity(alloc, block.body.len())?;
    for entry in &block.body {
        let statement = renamed_statement(names, &entry.0, alloc)?;
        body.push((statement, names.span(entry.1)))?;
    }
    Ok(Block { body })
}

/// The arms of a switch.
type Cases = Vec<SwitchCase>;

/// Returns copies of the arms of a switch with renamed handles.
///
/// # Errors
/// If out of memory.
#[cycle(renaming)]
fn renamed_cases<R: Renaming>(names: &R, cases: &[SwitchCase], alloc: Global) -> AllocResult<Cases>
    ensures { let r = R.renames names.now in
        let renamed = rename_tokens r (flat_map case_tokens cases.now) in
        IfOk result (λ v. flat_map case_tokens v.items ≡ renamed) }
{
    let mut copies = Vec::new(alloc);
    for case in cases {
        let body = renamed_block(names, &case.body, alloc)?;
        copies.push(SwitchCase { body, ..*case })?;
    }
    Ok(copies)
}

/// Returns a copy of a statement with renamed handles.
///
/// # Errors
/// If out of memory.
#[cycle(renaming)]
#[rattlefmt::skip]
fn renamed_statement<R: Renaming>(names: &R, statement: &Statement, alloc: Global) -> AllocResult<Statement>
    ensures { let r = R.renames names.now in
        IfOk result (λ s. statement_tokens s ≡ rename_tokens r (statement_tokens statement.now)) }
{
    rename_kind! { Statement, statement, names;
        Statement::Emit(x) => Statement::Emit(names.range(*x));
        Statement::Block(x) => Statement::Block(renamed_block(names, x, alloc)?);
        Statement::If { condition, accept, reject } => Statement::If {
            condition: names.expression(*condition),
            accept: renamed_block(names, accept, alloc)?, reject: renamed_block(names, reject, alloc)?,
        };
        Statement::Switch { selector, cases } =>
            Statement::Switch { selector: names.expression(*selector), cases: renamed_cases(names, cases, alloc)? };
        Statement::Loop { body, continuing, break_if } => Statement::Loop {
            body: renamed_block(names, body, alloc)?, continuing: renamed_block(names, continuing, alloc)?,
            break_if: renamed_option(names, *break_if),
        };
        Statement::Break => Statement::Break;
        Statement::Continue => Statement::Continue;
        Statement::Kill => Statement::Kill;
        Statement::Call { callee, arguments, result } => Statement::Call {
            callee: names.function(*callee),
            arguments: renamed_list(names, arguments, alloc)?, result: renamed_option(names, *result),
        };
        Statement::RayQuery { query, fun } =>
            Statement::RayQuery { query: names.expression(*query), fun: renamed_ray_query(names, fun) };
        @ ControlBarrier MemoryBarrier;
        Return { ; ; value }
        Store { ; pointer value; }
        ImageStore { ; image coordinate value; array_index }
        Atomic { fun; pointer value; compare result }
        ImageAtomic { fun; image coordinate value; array_index compare }
        WorkGroupUniformLoad { ; pointer result; }
        SubgroupBallot { ; result; predicate }
        SubgroupGather { mode; argument result; index }
        SubgroupCollectiveOperation { op collective; argument result; }
    }
}
