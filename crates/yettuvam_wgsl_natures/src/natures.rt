// What expressions are to the choice of `let`s.
ghost use Rattle.std.specs.Prelude.{◌≡◌, [], IfOk};
ghost use Rattle.naga_oil_ir.specs.ModuleValue.{expression_values, function_value, module_value};
ghost use Rattle.naga_oil_ir.specs.Parts.{parts};
ghost use Rattle.naga_oil_ir.specs.Rows.{Text, inner_row};
ghost use Rattle.std.specs.List.{list_all};
ghost use Rattle.yettuvam_wgsl_natures.specs.Natures as spec;

use naga_oil_ir::{
    Expression, Function, GlobalVariable, Handle, Index, Module, Operand, Span, Type, TypeInner,
};
use std::alloc::{AllocError, Global};
use yettuvam_wgsl_names::form_codes::{
    ALIAS, CONST_COPY, HANDLE_SPACE, LET_COPY, TYPED_CONST, TYPED_LET,
};
use yettuvam_wgsl_names::functions::ATOMIC_LOAD;

/// What an expression is to the choice of `let`s.
#[derive(Clone, Copy, PartialEq, Eq, Debug)]
pub struct Nature {
    /// Whether the expression is made of literals, constants and overrides alone.
    pub is_constant: bool,
    /// Whether the expression names a place in memory.
    pub is_place: bool,
    /// Whether the value depends on when the expression is evaluated.
    pub is_timed: bool,
}

fn plain() -> Nature
    ensures { result ≡ spec.plain }
{
    Nature {
        is_constant: false,
        is_place: false,
        is_timed: false,
    }
}

fn timed() -> Nature
    ensures { result ≡ spec.timed }
{
    Nature {
        is_constant: false,
        is_place: false,
        is_timed: true,
    }
}

fn constant_if(is_constant: bool) -> Nature
    ensures { result ≡ spec.constant_if is_constant }
{
    Nature {
        is_constant,
        is_place: false,
        is_timed: false,
    }
}

fn place_if(is_place: bool) -> Nature
    ensures { result ≡ spec.place_if is_place }
{
    Nature {
        is_constant: false,
        is_place,
        is_timed: false,
    }
}

fn pointer_space(inner: &TypeInner) -> Option<u64>
    ensures { (name : Text) → result ≡ spec.pointer_space (inner_row name inner.now) }
{
    match inner {
        TypeInner::Pointer { space, .. } => Some(*space),
        _ => None,
    }
}

// The address space of a pointer type.
fn space_of(of: &Module, ty: Handle<Type>) -> Option<u64>
    ensures { result ≡ spec.space_of (module_value of.now) ty }
{
    match of.types.get_handle(ty) {
        Some(ty) => pointer_space(&ty.inner),
        None => None,
    }
}

fn is_global_place(of: &Module, place: Handle<GlobalVariable>) -> bool
    ensures { result ≡ spec.is_global_place (module_value of.now) place }
{
    match of.global_variables.try_get(place) {
        Some(global) => global.space != HANDLE_SPACE,
        None => false,
    }
}

fn is_pointer_space(space: Option<u64>) -> bool
    ensures { result ≡ spec.is_pointer_space space }
{
    match space {
        Some(space) => space < ALIAS,
        None => false,
    }
}

fn is_pointer_argument(of: &Module, function: &Function, place: u32) -> bool
    ensures { result ≡ spec.is_pointer_argument (module_value of.now) (function_value
        function.now) place }
{
    match function.arguments.get(place as usize) {
        Some(argument) => is_pointer_space(space_of(of, argument.ty)),
        None => false,
    }
}

fn nature_at(natures: &[Nature], operand: Operand) -> Nature
    ensures { result ≡ spec.nature_at natures.now operand }
{
    match natures.get(operand.index()) {
        Some(nature) => *nature,
        None => plain(),
    }
}

fn is_constant_operand(natures: &[Nature], operand: Option<Operand>) -> bool
    ensures { result ≡ spec.is_constant_operand natures.now operand }
{
    match operand {
        Some(operand) => nature_at(natures, operand).is_constant,
        None => true,
    }
}

fn are_constant(natures: &[Nature], operands: &[Option<Operand>]) -> bool
    ensures { result ≡ list_all (spec.is_constant_operand natures.now) operands.now }
{
    operands
        .iter()
        .all(|operand| is_constant_operand(natures, *operand))
}

fn part_nature(natures: &[Nature], base: Operand, of_operands: Nature) -> Nature
    ensures { result ≡ spec.part_nature natures.now base of_operands }
{
    let base = nature_at(natures, base);
    if base.is_place {
        place_if(true)
    } else {
        of_operands
    }
}

fn copy_nature(natures: &[Nature], of: Operand, convert: u64, of_operands: Nature) -> Nature
    ensures { result ≡ spec.copy_nature natures.now of convert of_operands }
{
    if convert == CONST_COPY {
        constant_if(true)
    } else if convert == LET_COPY {
        place_if(nature_at(natures, of).is_place)
    } else {
        of_operands
    }
}

fn composed_nature(space: Option<u64>, of_operands: Nature) -> Nature
    ensures { result ≡ spec.composed_nature space of_operands }
{
    match space {
        Some(space) => {
            if space == TYPED_CONST {
                constant_if(true)
            } else if space == TYPED_LET {
                plain()
            } else {
                of_operands
            }
        }
        None => of_operands,
    }
}

fn function_nature(fun: u64, of_operands: Nature) -> Nature
    ensures { result ≡ spec.function_nature fun of_operands }
{
    if fun == ATOMIC_LOAD {
        timed()
    } else {
        of_operands
    }
}

// What an expression is. `of_operands` is what it would be by its operands alone.
fn nature_by(
    of: &Module,
    function: &Function,
    natures: &[Nature],
    expression: &Expression,
    of_operands: Nature,
) -> Nature
    ensures { let m = module_value of.now in let f = function_value function.now in
        result ≡ spec.nature_by m f natures.now (parts expression.now) of_operands }
{
    match expression {
        Expression::GlobalVariable(place) => place_if(is_global_place(of, *place)),
        Expression::LocalVariable(_) => place_if(true),
        Expression::FunctionArgument(place) => {
            place_if(is_pointer_argument(of, function, *place))
        }
        Expression::CallResult(_) => plain(),
        Expression::AtomicResult { .. } => plain(),
        Expression::WorkGroupUniformLoadResult { .. } => plain(),
        Expression::RayQueryProceedResult => plain(),
        Expression::SubgroupBallotResult => plain(),
        Expression::SubgroupOperationResult { .. } => plain(),
        Expression::ImageQuery { .. } => plain(),
        Expression::ArrayLength(_) => plain(),
        Expression::Load { .. } => timed(),
        Expression::ImageSample(_) => timed(),
        Expression::ImageLoad(_) => timed(),
        Expression::Derivative { .. } => timed(),
        Expression::Math(math) => function_nature(math.fun, of_operands),
        Expression::Access { base, .. } => part_nature(natures, *base, of_operands),
        Expression::AccessIndex { base, .. } => part_nature(natures, *base, of_operands),
        Expression::As { expr, convert, .. } => {
            copy_nature(natures, *expr, *convert, of_operands)
        }
        Expression::Compose { ty, .. } => composed_nature(space_of(of, *ty), of_operands),
        _ => of_operands,
    }
}

fn is_typed_const(space: Option<u64>) -> bool
    ensures { result ≡ spec.is_typed_const space }
{
    match space {
        Some(space) => space == TYPED_CONST,
        None => false,
    }
}

// Whether an expression is declared by `const`.
fn is_const_copy(of: &Module, expression: &Expression) -> bool
    ensures { result ≡ spec.is_const_copy (module_value of.now) (parts expression.now) }
{
    match expression {
        Expression::As { convert, .. } => *convert == CONST_COPY,
        Expression::Compose { ty, .. } => is_typed_const(space_of(of, *ty)),
        _ => false,
    }
}

/// Returns whether an expression has a name.
#[tactic(auto, using(crate::proofs::Named::has_name))]
pub fn is_named(function: &Function, place: Operand) -> bool
    ensures { result ≡ spec.is_named (function_value function.now) place }
{
    function.named_expressions.get(place).is_some()
}

// What the expression after others is.
#[tactic(auto, unfolding(crate::specs::Natures::next_nature))]
fn next_nature(
    alloc: Global,
    of: &Module,
    function: &Function,
    natures: &[Nature],
    expression: &Expression,
) -> Result<Nature, AllocError>
    ensures { let next = spec.next_nature (module_value of.now) (function_value function.now) in
        IfOk result (λ n. n ≡ next natures.now (parts expression.now)) }
{
    let parts = expression.parts(alloc)?;
    let of_operands = constant_if(are_constant(natures, &parts.operands));
    let nature = nature_by(of, function, natures, expression, of_operands);
    let is_value = is_named(function, Index::new(natures.len())) && !is_const_copy(of, expression);
    Ok(Nature {
        is_constant: nature.is_constant && !is_value,
        ..nature
    })
}

fn push_natures(
    alloc: Global,
    of: &Module,
    function: &Function,
    expressions: &[(Expression, Span)],
) -> Result<Vec<Nature>, AllocError>
    ensures { let from = spec.natures_from (module_value of.now) (function_value function.now) in
        IfOk result (λ v. v.items ≡ from [] (expression_values expressions.now)) }
{
    let mut natures = Vec::new(alloc);
    let mut rest = expressions;
    while let [entry, more @ ..] = rest {
        let nature = next_nature(alloc, of, function, &natures, &entry.0)?;
        natures.push(nature)?;
        rest = more;
    }
    Ok(natures)
}

/// Returns what each expression of a function is.
///
/// # Errors
/// If out of memory.
pub fn natures_of(
    alloc: Global,
    of: &Module,
    function: &Function,
) -> Result<Vec<Nature>, AllocError>
    ensures { IfOk result (λ v. v.items ≡
        spec.natures_of (module_value of.now) (function_value function.now)) }
{
    push_natures(alloc, of, function, function.expressions.as_slice())
}
