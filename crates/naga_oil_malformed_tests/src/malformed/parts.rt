// The parts of a module that breaks a clause of the test of form.
ghost use Rattle.std.specs.Prelude.{◌≡◌, ◌∷◌, ℕ, List, [], Some, None, IfOk, map, option_map, unwrap_or, string_bytes, codes};
ghost use Rattle.naga_oil_ir.specs.Rows.{Row, TypeKind, row, constant_row, override_row, global_row, type_row};
ghost use Rattle.naga_oil_ir.specs.Parts.{expr, parts};
ghost use Rattle.naga_oil_ir.specs.Body.{block_tokens};
ghost use Rattle.naga_oil_ir.specs.declared.parts.Named.TheVariants.{TypeOf, FunctionAt, Nothing};
ghost use Rattle.naga_oil_ir.specs.declared.tokens.Token.TheVariants.{At, Head, Use, GiveCall, Emitted, Callee};
ghost use Rattle.naga_oil_ir.specs.declared.types.TypeInner.TheVariants.{Array};
ghost use Rattle.naga_oil_ir.specs.declared.types.ArraySize.TheVariants.{Pending, Dynamic};
ghost use Rattle.naga_oil_malformed_tests.specs.Said.{expression_said};
ghost use Rattle.naga_oil_ir.specs.declared.span.Span.{Span};
ghost use Rattle.naga_oil_ir.specs.ModuleValue.{FunctionValue, LocalValue, argument_value, local_value, function_value, entry_value, expression_values, special_value};

use super::{Caller, Calling, Entry, Items, Plain, Sort};
use indexmap::IndexMap;
use naga_oil_ir::{
    Arena, ArraySize, Block, Constant, EntryPoint, Expression, Function, FunctionArgument,
    FunctionResult, GlobalVariable, Index, LocalVariable, NamedExpressions, Override, PlaceRange,
    Span, SpecialTypes, Statement, Type, TypeInner, UniqueArena,
};
use std::alloc::{AllocError, Global};

fn array_size(place: Option<usize>) -> ArraySize
    ensures { result ≡ unwrap_or (option_map (λ o. Pending o) place) Dynamic }
{
    match place {
        Some(place) => ArraySize::Pending(Index::new(place)),
        None => ArraySize::Dynamic,
    }
}

pub fn types(alloc: Global, items: &Items) -> Result<UniqueArena<Type>, AllocError>
    ensures { let span = items.now.type_span in
        IfOk result (λ a. map {B = Row × Span} (λ e. (type_row e.0, e.1)) a ≡
        (row (TypeKind 0) (option_map (λ s. s.now) items.now.type_name) (Some 1 ∷ []) [] [], span)
        ∷ (
          type_row (record {
            name = None;
            inner = Array items.now.base
                (unwrap_or (option_map (λ o. Pending o) items.now.array_size) Dynamic) 4;
          }),
          span,
        ) ∷ []) }
{
    let mut types = UniqueArena::new(alloc);
    let name = text(alloc, items.type_name)?;
    let inner = TypeInner::Scalar(1);
    types.insert(Type { name, inner }, items.type_span)?;
    let inner = TypeInner::Array {
        base: Index::new(items.base),
        size: array_size(items.array_size),
        stride: 4,
    };
    types.insert(Type { name: None, inner }, items.type_span)?;
    Ok(types)
}

pub fn special(alloc: Global, items: &Items) -> SpecialTypes
    ensures { special_value result ≡ record {
      ray_desc = items.now.special;
      ray_intersection = items.now.other_special;
      ray_vertex_return = None;
      predeclared_types = [];
    } }
{
    SpecialTypes {
        ray_desc: items.special.map(|place| Index::new(place)),
        ray_intersection: items.other_special.map(|place| Index::new(place)),
        ray_vertex_return: None,
        predeclared_types: IndexMap::new(alloc),
    }
}

pub fn constants(alloc: Global, items: &Items) -> Result<Arena<Constant>, AllocError>
    ensures { let of = items.now.constant in
        let span = items.now.constant_span in
        IfOk result (λ a. map {B = Row × Span} (λ e. (constant_row e.0, e.1)) a ≡
        (constant_row (record { name = None; ty = of.0; init = of.1 }), span) ∷ []) }
{
    let constant = Constant {
        name: None,
        ty: Index::new(items.constant.0),
        init: Index::new(items.constant.1),
    };
    let mut constants = Arena::new(alloc);
    constants.append(constant, items.constant_span)?;
    Ok(constants)
}

pub fn overrides(alloc: Global, items: &Items) -> Result<Arena<Override>, AllocError>
    ensures { let span = items.now.size_span in
        IfOk result (λ a. map {B = Row × Span} (λ e. (override_row e.0, e.1)) a ≡ (
          override_row (record {
            name = None;
            id = None;
            ty = items.now.size;
            init = items.now.size_init;
          }),
          span,
        ) ∷ []) }
{
    let size = Override {
        name: None,
        id: None,
        ty: Index::new(items.size),
        init: items.size_init.map(|place| Index::new(place)),
    };
    let mut overrides = Arena::new(alloc);
    overrides.append(size, items.size_span)?;
    Ok(overrides)
}

pub fn globals(alloc: Global, items: &Items) -> Result<Arena<GlobalVariable>, AllocError>
    ensures { IfOk result (λ a. map {B = Row × Span} (λ e. (global_row e.0, e.1)) a ≡ (
      global_row (record {
        name = None;
        space = 1;
        binding = None;
        ty = items.now.global;
        init = None;
      }),
      items.now.global_span,
    ) ∷ []) }
{
    let global = GlobalVariable {
        name: None,
        space: 1,
        binding: None,
        ty: Index::new(items.global),
        init: None,
    };
    let mut globals = Arena::new(alloc);
    globals.append(global, items.global_span)?;
    Ok(globals)
}

// An expression of a kind, and of what it names.
fn sort(of: Sort) -> Expression
    ensures { parts result ≡ expression_said of.0 of.1 }
{
    match of.0 {
        0 => Expression::Literal { kind: 1, bits: 7 },
        2 => Expression::Constant(Index::new(of.1)),
        3 => Expression::Override(Index::new(of.1)),
        4 => Expression::GlobalVariable(Index::new(of.1)),
        5 => Expression::LocalVariable(Index::new(of.1)),
        6 => Expression::FunctionArgument(1),
        _ => Expression::CallResult(Index::new(of.1)),
    }
}

// A literal, a zero, a negation and one more.
pub fn values(alloc: Global, items: &Items) -> Result<Arena<Expression>, AllocError>
    ensures { let span = items.now.value_span in
        IfOk result (λ a. expression_values a ≡
        (expr 0 (1 ∷ 7 ∷ []) Nothing [], span) ∷ (expr 1 [] (TypeOf items.now.zero) [], span)
        ∷ (expr 22 (0 ∷ []) Nothing (Some items.now.operand ∷ []), span)
        ∷ (expression_said items.now.held.0 items.now.held.1, span) ∷ []) }
{
    let span = items.value_span;
    let mut values = Arena::new(alloc);
    values.append(Expression::Literal { kind: 1, bits: 7 }, span)?;
    values.append(Expression::ZeroValue(Index::new(items.zero)), span)?;
    let expr = Index::new(items.operand);
    values.append(Expression::Unary { op: 0, expr }, span)?;
    values.append(sort(items.held), span)?;
    Ok(values)
}

fn arguments(alloc: Global, ty: usize) -> Result<Vec<FunctionArgument>, AllocError>
    ensures { IfOk result (λ v. map argument_value v.items ≡
        record { name = None; ty = ty; binding = None } ∷ []) }
{
    let mut arguments = Vec::new(alloc);
    arguments.push(FunctionArgument {
        name: None,
        ty: Index::new(ty),
        binding: None,
    })?;
    Ok(arguments)
}

fn locals(alloc: Global, of: &Caller) -> Result<Arena<LocalVariable>, AllocError>
    ensures { let span = of.now.local_span in
        IfOk result (λ a. map {B = LocalValue × Span} (λ l. (local_value l.0, l.1)) a ≡
        (record { name = None; ty = of.now.local.0; init = Some of.now.local.1 }, span) ∷ []) }
{
    let local = LocalVariable {
        name: None,
        ty: Index::new(of.local.0),
        init: Some(Index::new(of.local.1)),
    };
    let mut locals = Arena::new(alloc);
    locals.append(local, of.local_span)?;
    Ok(locals)
}

// The first one, a zero, the result of the call and a negation.
fn expressions(alloc: Global, of: &Caller) -> Result<Arena<Expression>, AllocError>
    ensures { let span = of.now.expression_span in
        IfOk result (λ a. expression_values a ≡
        (expression_said of.now.first.0 of.now.first.1, span)
        ∷ (expr 1 [] (TypeOf of.now.zero) [], span)
        ∷ (expr 7 [] (FunctionAt of.now.result_of) [], span)
        ∷ (expr 22 (0 ∷ []) Nothing (Some of.now.operand ∷ []), span) ∷ []) }
{
    let span = of.expression_span;
    let mut values = Arena::new(alloc);
    values.append(sort(of.first), span)?;
    values.append(Expression::ZeroValue(Index::new(of.zero)), span)?;
    values.append(Expression::CallResult(Index::new(of.result_of)), span)?;
    let expr = Index::new(of.operand);
    values.append(Expression::Unary { op: 0, expr }, span)?;
    Ok(values)
}

fn names(alloc: Global, place: usize) -> Result<NamedExpressions, AllocError>
    ensures { IfOk result (λ v. map {B = ℕ × List ℕ} (λ e. (e.0, string_bytes e.1)) v.entries ≡
        (place, codes "x") ∷ []) }
{
    let mut names = NamedExpressions::new();
    let name = String::from_str(alloc, "x")?;
    names.insert(alloc, Index::new(place), name)?;
    Ok(names)
}

fn body(alloc: Global, of: &Caller) -> Result<Block, AllocError>
    ensures { let span = of.now.statement_span in
        IfOk result (λ b. block_tokens b ≡
        At span ∷ Head 16 ∷ Callee of.now.called ∷ GiveCall of.now.called of.now.given
        ∷ At span ∷ Head 0 ∷ Emitted of.now.emitted
        ∷ At span ∷ Head 10 ∷ Use of.now.returned ∷ []) }
{
    let call = Statement::Call {
        callee: Index::new(of.called),
        arguments: Vec::new(alloc),
        result: Some(Index::new(of.given)),
    };
    let value = Some(Index::new(of.returned));
    let mut body = Vec::new(alloc);
    body.push((call, of.statement_span))?;
    let emit = Statement::Emit(PlaceRange::new(of.emitted.0, of.emitted.1));
    body.push((emit, of.statement_span))?;
    body.push((Statement::Return { value }, of.statement_span))?;
    Ok(Block { body })
}

fn text(alloc: Global, name: Option<&'static str>) -> Result<Option<String>, AllocError>
    ensures { IfOk result (λ o. option_map string_bytes o ≡ option_map (λ s. s.now) name.entry) }
{
    match name {
        None => Ok(None),
        Some(name) => {
            let text = String::from_str(alloc, name)?;
            Ok(Some(text))
        }
    }
}

fn result(ty: usize) -> Option<FunctionResult>
    ensures { result ≡ Some (record { ty = ty; binding = None }) }
{
    Some(FunctionResult {
        ty: Index::new(ty),
        binding: None,
    })
}

fn plain_function(alloc: Global, of: &Plain) -> Result<Function, AllocError>
    ensures { IfOk result (λ f. function_value f ≡ of.now) }
{
    Ok(Function {
        name: text(alloc, of.name)?,
        arguments: Vec::new(alloc),
        result: result(of.result),
        local_variables: Arena::new(alloc),
        expressions: Arena::new(alloc),
        named_expressions: NamedExpressions::new(),
        body: Block {
            body: Vec::new(alloc),
        },
        diagnostic_filter_leaf: None,
    })
}

fn calling_function(alloc: Global, of: &Calling) -> Result<Function, AllocError>
    ensures { IfOk result (λ f. function_value f ≡ of.now) }
{
    let of = &of.0;
    Ok(Function {
        name: text(alloc, of.name)?,
        arguments: arguments(alloc, of.argument)?,
        result: result(of.result),
        local_variables: locals(alloc, of)?,
        expressions: expressions(alloc, of)?,
        named_expressions: names(alloc, of.named)?,
        body: body(alloc, of)?,
        diagnostic_filter_leaf: None,
    })
}

fn entry_point(alloc: Global, of: &Entry) -> Result<EntryPoint, AllocError>
    ensures { IfOk result (λ e. entry_value e ≡ of.now) }
{
    let function = plain_function(alloc, &of.function)?;
    Ok(EntryPoint {
        name: String::new(alloc),
        stage: 2,
        early_depth_test: None,
        workgroup_size: [1, 1, 1],
        workgroup_size_overrides: Some([None, Some(Index::new(of.size)), None]),
        function,
        mesh_info: of.mesh,
        task_payload: Some(Index::new(of.payload)),
    })
}

pub fn functions(
    alloc: Global,
    first: &Plain,
    second: &Calling,
    span: Span,
) -> Result<Arena<Function>, AllocError>
    ensures { IfOk result (λ a. map {B = FunctionValue × Span} (λ e. (function_value e.0, e.1)) a ≡
        (first.now, span) ∷ (second.now, span) ∷ []) }
{
    let mut functions = Arena::new(alloc);
    functions.append(plain_function(alloc, first)?, span)?;
    functions.append(calling_function(alloc, second)?, span)?;
    Ok(functions)
}

pub fn entries(alloc: Global, first: &Entry, second: &Entry) -> Result<Vec<EntryPoint>, AllocError>
    ensures { IfOk result (λ v. map entry_value v.items ≡ first.now ∷ second.now ∷ []) }
{
    let mut entries = Vec::new(alloc);
    entries.push(entry_point(alloc, first)?)?;
    entries.push(entry_point(alloc, second)?)?;
    Ok(entries)
}
