//! Copies of functions, with their expressions in the order of a walk.
ghost use Rattle.std.specs.Prelude.{◌≡◌, ◌<◌, length, OnOk, IfOk, slice_get, [], map, option_map, string_bytes};
ghost use Rattle.std.specs.Option.{option_flatten};
ghost use Rattle.naga_oil_ir.specs.Body.{block_tokens};
ghost use Rattle.naga_oil_ir.specs.Parts.{parts};
ghost use Rattle.naga_oil_ir.specs.ModuleValue.{expression_values, argument_value, local_value, function_value, local_values};
ghost use Rattle.naga_oil_walk.specs.Walks.{Walks};
ghost use Rattle.naga_oil_derive.specs.Went.{went};
ghost use Rattle.naga_oil_derive.specs.Copies.{under_table, range_under, FitIn};
ghost use Rattle.naga_oil_derive.specs.CopiedFunction.{copy_place as place_of_copy, with_copy, expression_state, copy_expression, copy_expressions, copy_function};
ghost use Rattle.naga_oil_derive.specs.Expressions.{IsCopyAt};
ghost use Rattle.naga_oil_derive.specs.Copying.{renames_under};
ghost use Rattle.naga_oil_walk.specs.Naming.{IsStub};
ghost use Rattle.naga_oil_derive.specs.Functions.{argument_under, result_under, local_under, names_under, name_put, named_values};

use super::import::Went;
use super::*;

/// An expression with its span.
pub type Entry = (Expression, Span);

/// What the expressions and emitted ranges of a function map to, besides items and functions.
#[derive(Drop)]
pub struct Copied<'a> {
    pub went: Went<'a>,
    /// The handle of each expression's copy.
    pub table: &'a [Option<Operand>],
    /// The bounds of the emitted ranges in the order of copying, by the ranges' first places.
    pub emitted: &'a [Bounds],
    /// The number of expressions in the order that initialisers of local variables reach.
    pub began: usize,
    /// The number of copies of those expressions.
    pub merged: usize,
    /// The number of all copies.
    pub count: usize,
    ghost fits: { FitIn began merged count emitted.now },
}

#[rattlefmt::skip]
impl Renaming for Copied<'_> {
    ghost renames = { λ m.
        let ranges = range_under m.emitted.now m.began m.merged m.count in
        under_table (went m.went) m.table.now ranges };

    fn ty(&self, handle: Handle<Type>) -> Handle<Type> { self.went.maps.ty(handle) }
    fn constant(&self, handle: Handle<Constant>) -> Handle<Constant> { self.went.maps.constant(handle) }
    fn pipeline_override(&self, handle: Handle<Override>) -> Handle<Override> { self.went.maps.pipeline_override(handle) }
    fn global(&self, handle: Handle<GlobalVariable>) -> Handle<GlobalVariable> { self.went.maps.global(handle) }
    fn function(&self, handle: Handle<Function>) -> Handle<Function> { self.went.callee(handle).unwrap_or(handle) }
    fn expression(&self, handle: Handle<Expression>) -> Handle<Expression> { place_of(self.table, handle).unwrap_or(handle) }

    fn range(&self, range: Range<Expression>) -> Range<Expression> {
        let (start, began, merged) = (range.start(), self.began, self.merged);
        let (first, last) = match stands_at(self.emitted, start) {
            None => (self.count, self.count),
            Some((begin, end)) => (merged + (begin - began), merged + (end - began)),
        };
        let end = if start < range.end() { last } else { first };
        Range::<Expression>::new(first, end)
    }

    fn span(&self, span: Span) -> Span { self.went.maps.span(span) }
}

/// Appends a copy; if copies are to be unique, returns an equal one that is there instead.
fn put(target: &mut Arena<Expression>, copy: Entry, unique: bool) -> AllocResult<Operand>
    ensures place { let old = expression_values target.old in
        IfOk result (λ h. h ≡ place_of_copy unique old (parts copy.0)) }
    ensures values { let old = expression_values target.old in
        let made = with_copy unique old (parts copy.0) copy.1 in
        OnOk result (expression_values target.new ≡ made) }
{
    if unique {
        return target.fetch_or_append(copy.0, copy.1);
    }
    target.append(copy.0, copy.1)
}

/// Copies of expressions, and the handle of each expression's copy.
#[derive(Drop)]
pub struct Copies {
    pub target: Arena<Expression>,
    pub table: Vec<Option<Operand>>,
}

impl Copies {
    /// Returns a copy of the expression at a place.
    fn copy_at(&self, names: Went<'_>, source: &[Entry], place: usize) -> AllocResult<Entry>
        requires { place < length source.now }
        ensures { IfOk result (IsCopyAt (went names.entry) self.now.table.items source.now place) }
    {
        #[rattlefmt::skip]
        let copied = Copied { went: names, table: &self.table, emitted: &[], began: 0, merged: 0, count: 0 };
        let copy = renamed_expression(&copied, &source[place].0, names.alloc)?;
        Ok((copy, names.maps.span(source[place].1)))
    }

    /// Copies the expression at a place.
    fn copy_place(
        &mut self,
        names: Went<'_>,
        source: &[Entry],
        place: usize,
        unique: bool,
    ) -> AllocResult
        requires place { place < length source.now }
        requires room { length self.old.table.items ≡ length source.now }
        ensures room { length self.new.table.items ≡ length self.old.table.items }
        ensures copied { let old = expression_state self.old.table.items self.old.target in
            let of = slice_get (expression_values source.now) place in
            let made = copy_expression (went names.entry) unique old place of in
            OnOk result (expression_state self.new.table.items self.new.target ≡ made) }
    {
        let copy = self.copy_at(names, source, place)?;
        let handle = put(&mut self.target, copy, unique)?;
        self.table[place] = Some(handle);
        Ok(())
    }
}

/// Copies the expressions of a function in the order of a walk; equal expressions that initialisers reach share a copy.
pub fn copy_expressions(names: Went<'_>, function: &Function, walk: &Walk) -> AllocResult<Copies>
    requires { Walks function.now walk.now }
    ensures { let es = expression_values function.now.expressions in
        let order = walk.now.places.items in
        let made = copy_expressions (went names.entry) es order walk.now.began in
        IfOk result (λ c. expression_state c.table.items c.target ≡ made) }
{
    let source = function.expressions.as_slice();
    let room = Vec::with_capacity(names.alloc, walk.places.len())?;
    let mut copies = Copies {
        target: Arena::from_items(room),
        table: nowhere(source.len(), names.alloc)?,
    };
    for at in 0..walk.places.len() {
        copies.copy_place(names, source, walk.places[at], at < walk.began)?;
    }
    Ok(copies)
}

/// Returns a function's result with its type renamed.
fn renamed_result<R: Renaming>(names: &R, outcome: Option<FunctionResult>) -> Option<FunctionResult>
    ensures { result ≡ option_map (result_under (R.renames names.now)) outcome }
{
    outcome.map(|outcome| FunctionResult {
        ty: names.ty(outcome.ty),
        binding: outcome.binding,
    })
}

/// Returns arguments with their types renamed.
fn renamed_arguments<R: Renaming>(
    names: &R,
    arguments: &[FunctionArgument],
    alloc: Global,
) -> AllocResult<Vec<FunctionArgument>>
    ensures { let r = R.renames names.now in
        let made = map (argument_under r) (map argument_value arguments.now) in
        IfOk result (λ v. map argument_value v.items ≡ made) }
{
    let mut copies = Vec::with_capacity(alloc, arguments.len())?;
    for of in arguments {
        let (name, ty) = (copied_name(&of.name)?, names.ty(of.ty));
        copies.push(FunctionArgument { name, ty, ..*of })?;
    }
    Ok(copies)
}

impl Copied<'_> {
    /// Returns local variables with their types and initialisers renamed.
    fn locals(&self, locals: &[(LocalVariable, Span)]) -> AllocResult<Arena<LocalVariable>>
        ensures { let c = self.now in
            let ranges = range_under c.emitted.now c.began c.merged c.count in
            let r = under_table (went c.went) c.table.now ranges in
            IfOk result (λ v. local_values v ≡ map (local_under r) (local_values locals.now)) }
    {
        let room = Vec::with_capacity(self.went.alloc, locals.len())?;
        let mut copies = Arena::from_items(room);
        for local in locals {
            let (name, ty) = (copied_name(&local.0.name)?, self.ty(local.0.ty));
            let init = renamed_option(self, local.0.init);
            copies.append(LocalVariable { name, ty, init }, self.span(local.1))?;
        }
        Ok(copies)
    }

    /// Returns the names of the copies of named expressions. A copy with more than one name keeps the last, at the place of the
    /// first.
    fn named(&self, names: &NamedExpressions) -> AllocResult<NamedExpressions>
        ensures { let made = names_under self.now.table.now [] (named_values names.now.entries) in
            IfOk result (λ m. named_values m.entries ≡ made) }
    {
        let mut copies = NamedExpressions::new();
        for (handle, name) in names.iter() {
            if let Some(copy) = place_of(self.table, *handle) {
                copies.insert(self.went.alloc, copy, name.clone()?)?;
            }
        }
        Ok(copies)
    }
}

/// Returns the copy of a function whose items and callees were copied.
pub fn localized(names: Went<'_>, function: &Function, walk: &Walk) -> AllocResult<Function>
    requires { Walks function.now walk.now }
    ensures { let made = copy_function (went names.entry) (function_value function.now) in
        IfOk result (λ f. function_value f ≡ made) }
{
    let Copies { target, table } = copy_expressions(names, function, walk)?;
    let copied = Copied {
        went: names,
        table: &table,
        emitted: &walk.emitted,
        began: walk.began,
        merged: target.len() - (walk.places.len() - walk.began),
        count: target.len(),
    };
    Ok(Function {
        name: copied_name(&function.name)?,
        arguments: renamed_arguments(&copied, &function.arguments, names.alloc)?,
        result: renamed_result(&copied, function.result),
        local_variables: copied.locals(function.local_variables.as_slice())?,
        named_expressions: copied.named(&function.named_expressions)?,
        body: renamed_block(&copied, &function.body, names.alloc)?,
        expressions: target,
        diagnostic_filter_leaf: None,
    })
}

/// Returns an empty body.
pub fn no_body(alloc: Global) -> Block
    ensures { block_tokens result ≡ [] }
{
    let body = Vec::new(alloc);
    Block { body }
}

/// Returns the copy of a stub, a function without local variables and statements, whose types were copied.
pub fn localized_stub(maps: &Maps, function: &Function, alloc: Global) -> AllocResult<Function>
    requires { IsStub function.now }
    ensures { let made = copy_function (renames_under maps.now) (function_value function.now) in
        IfOk result (λ f. function_value f ≡ made) }
{
    let name = copied_name(&function.name)?;
    let arguments = renamed_arguments(maps, &function.arguments, alloc)?;
    let result = renamed_result(maps, function.result);
    let local_variables = Arena::new(alloc);
    let expressions = Arena::new(alloc);
    let named_expressions = NamedExpressions::new();
    let body = no_body(alloc);
    let diagnostic_filter_leaf = None;
    Ok(Function {
        name,
        arguments,
        result,
        local_variables,
        expressions,
        named_expressions,
        body,
        diagnostic_filter_leaf,
    })
}
