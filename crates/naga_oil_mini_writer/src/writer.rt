// The text of a module: a line for each constant, global, function and entry point.
ghost use Rattle.std.specs.Prelude.{◌≡◌, ◌++◌, ◌≤◌, OnOk, IfOk, IsSome, IsTrue, Some, ℕ, List, drop, length, map, reverse, replicate, option_map, string_bytes};
ghost use Rattle.naga_oil_ir.specs.Rows.{global_row};
ghost use Rattle.naga_oil_ir.specs.ModuleValue.{module_value, function_value, entry_value, argument_value, local_value, expression_values, local_values};
ghost use Rattle.naga_oil_mini_symbols.specs.Symbols.{symbol_of, line_of};
ghost use Rattle.naga_oil_mini_writer.specs.BodyReader.{locals_of};
ghost use Rattle.naga_oil_mini_writer.specs.Order.{anywhere};
ghost use Rattle.naga_oil_mini_writer.specs.NotWritten.{Becomes, Finds, Writes};
ghost use Rattle.naga_oil_mini_writer.specs.Writer as spec;

use crate::body_reader::{OwnNames, Shape, end_of, shape_at, tokens_of};
use crate::not_written::{NotWritten, WriteResult};
use crate::order::{ANYWHERE, ItemNames, Items, Room, has_order};
use naga_oil_ir::{
    EntryPoint, Function, FunctionArgument, GlobalVariable, Handle, LocalVariable, Module, Span,
    Token, Type, TypeInner, rounded_room,
};
use naga_oil_mini_symbols::{NameTable, Symbol, is_name};
use std::alloc::{AllocError, Global};

fn push_symbol(out: &mut String, symbol: Symbol<'_>) -> Result<(), AllocError>
    ensures { let text = spec.symbol_text (symbol_of symbol.entry) in
        OnOk result (string_bytes out.new ≡ string_bytes out.old ++ text) }
{
    match symbol {
        Symbol::Name(name) => out.push_str(name),
        Symbol::Opens(name) => {
            out.push_str(name)?;
            out.push('(')
        }
        Symbol::Number(value) => write!(out, "{value}"),
        Symbol::Equals => out.push_str(" = "),
        Symbol::Plus => out.push_str(" + "),
        Symbol::Comma => out.push_str(", "),
        Symbol::Closes => out.push_str(")"),
    }
}

// Pushes symbols, which are listed from the last on.
fn push_symbols(out: &mut String, mut symbols: Vec<Symbol<'_>>) -> Result<(), AllocError>
    ensures { let text = spec.symbols_text (reverse (line_of symbols.entry.items)) in
        OnOk result (string_bytes out.new ≡ string_bytes out.old ++ text) }
{
    while let Some(symbol) = symbols.pop() {
        push_symbol(out, symbol)?;
    }
    Ok(())
}

// A name that can be written.
fn valid_name(name: &Option<String>) -> WriteResult<&str>
    ensures { Finds (λ n. n.now) result (spec.valid_name (option_map string_bytes name.now)) }
{
    match name {
        Some(name) if is_name(name.as_str()) => Ok(name.as_str()),
        _ => Err(NotWritten::NotInMini),
    }
}

// The name of an item whose name can be written.
fn known_name(name: &Option<String>) -> &str
    requires { IsSome (spec.valid_name (option_map string_bytes name.now)) }
    ensures { spec.valid_name (option_map string_bytes name.now) ≡ Some result.now }
{
    let Some(name) = name else { unreachable!() };
    name.as_str()
}

// The name of a parameter of the one type.
fn parameter_word(argument: &FunctionArgument) -> WriteResult<&str>
    ensures { Finds (λ n. n.now) result (spec.parameter_word (argument_value argument.now)) }
{
    if argument.ty.index() != 0 || argument.binding.is_some() {
        return Err(NotWritten::NotInMini);
    }
    valid_name(&argument.name)
}

fn parameter_words<'m>(
    alloc: Global,
    arguments: &'m [FunctionArgument],
) -> WriteResult<NameTable<'m>>
    ensures { Finds (λ n. n) result (spec.parameter_words (map argument_value arguments.now)) }
{
    let mut names = NameTable::new(alloc);
    for argument in arguments {
        names.push(parameter_word(argument)?)?;
    }
    Ok(names)
}

// Pushes the names of parameters, joined by `, `.
fn push_parameters(out: &mut String, arguments: &[FunctionArgument]) -> WriteResult<()>
    ensures { let parameters = map argument_value arguments.now in
        let text = spec.with_parameters (string_bytes out.old) parameters in
        Becomes result text (string_bytes out.new) }
{
    let Some((first, rest)) = arguments.split_first() else {
        return Ok(());
    };
    out.push_str(parameter_word(first)?)?;
    for argument in rest {
        out.push_str(", ")?;
        out.push_str(parameter_word(argument)?)?;
    }
    Ok(())
}

// Pushes the header of a function.
fn push_header(out: &mut String, name: &str, arguments: &[FunctionArgument]) -> WriteResult<()>
    ensures { let parameters = map argument_value arguments.now in
        let text = spec.with_header (string_bytes out.old) name.now parameters in
        Becomes result text (string_bytes out.new) }
{
    out.push_str("fn ")?;
    out.push_str(name)?;
    out.push('(')?;
    push_parameters(out, arguments)?;
    Ok(out.push(')')?)
}

// The name of a local of the one type, and the place of its initialiser.
fn local_word(local: &LocalVariable) -> WriteResult<(&str, usize)>
    ensures { Finds (λ l. (l.0.now, l.1)) result (spec.local_word (local_value local.now)) }
{
    match local.init {
        Some(init) if local.ty.index() == 0 => Ok((valid_name(&local.name)?, init.index())),
        _ => Err(NotWritten::NotInMini),
    }
}

fn local_words<'m>(
    alloc: Global,
    locals: &'m [(LocalVariable, Span)],
) -> WriteResult<Vec<(&'m str, usize)>>
    ensures { Finds (λ v. locals_of v.items) result (spec.local_words (local_values locals.now)) }
{
    let mut words = Vec::new(alloc);
    for local in locals {
        words.push(local_word(&local.0)?)?;
    }
    Ok(words)
}

// The names of locals.
fn local_names<'m>(alloc: Global, locals: &[(&'m str, usize)]) -> Result<NameTable<'m>, AllocError>
    ensures { IfOk result (λ n. n ≡ map (λ l. l.0) (locals_of locals.now)) }
{
    let mut names = NameTable::new(alloc);
    for (name, _) in locals {
        names.push(*name)?;
    }
    Ok(names)
}

fn function_words<'m>(
    alloc: Global,
    functions: &'m [(Function, Span)],
) -> WriteResult<ItemNames<'m>>
    ensures { Finds (λ n. n) result (spec.function_words (spec.function_values functions.now)) }
{
    let mut names = ItemNames::new(alloc, functions.len());
    for function in functions {
        names.push(valid_name(&function.0.name)?)?;
    }
    Ok(names)
}

// The number at a place, if it is of the one type.
fn number_at(of: &Module, ty: Handle<Type>, place: usize) -> WriteResult<u64>
    ensures { let values = expression_values of.now.global_expressions in
        Finds (λ n. n) result (spec.number_at values ty place) }
{
    match shape_at(&of.global_expressions, place) {
        Shape::Number(value) if ty.index() == 0 => Ok(value),
        _ => Err(NotWritten::NotInMini),
    }
}

// Pushes the lines of constants, and returns their names.
fn push_constants<'m>(alloc: Global, out: &mut String, of: &'m Module) -> WriteResult<ItemNames<'m>>
    ensures { let value = module_value of.now in
        let lines = spec.constants_text value.global_expressions value.constants in
        Writes (λ n. n) result lines (string_bytes out.old) (string_bytes out.new) }
{
    let mut names = ItemNames::new(alloc, of.constants.len());
    for constant in of.constants.as_slice() {
        let name = valid_name(&constant.0.name)?;
        let value = number_at(of, constant.0.ty, constant.0.init.index())?;
        write!(out, "const {name} = {value}\n")?;
        names.push(name)?;
    }
    Ok(names)
}

// The name and the number of a global.
fn global_word<'m>(of: &'m Module, global: &'m GlobalVariable) -> WriteResult<(&'m str, u64)>
    ensures { let values = expression_values of.now.global_expressions in
        let word = spec.global_word values (global_row global.now) in
        Finds (λ g. (g.0.now, g.1)) result word }
{
    let name = valid_name(&global.name)?;
    match global.init {
        Some(init) if global.space == 1 && global.binding.is_none() => {
            Ok((name, number_at(of, global.ty, init.index())?))
        }
        _ => Err(NotWritten::NotInMini),
    }
}

// Pushes the lines of globals, and returns their names.
fn push_globals<'m>(alloc: Global, out: &mut String, of: &'m Module) -> WriteResult<ItemNames<'m>>
    ensures { let value = module_value of.now in
        let lines = spec.globals_text value.global_expressions value.global_variables in
        Writes (λ n. n) result lines (string_bytes out.old) (string_bytes out.new) }
{
    let mut names = ItemNames::new(alloc, of.global_variables.len());
    for global in of.global_variables.as_slice() {
        let (name, value) = global_word(of, &global.0)?;
        write!(out, "var {name} = {value}\n")?;
        names.push(name)?;
    }
    Ok(names)
}

fn is_plain_function(function: &Function) -> bool
    ensures { result ≡ spec.is_plain_function (function_value function.now) }
{
    let outcome = function.result;
    outcome.is_some_and(|r| r.ty.index() == 0 && r.binding.is_none())
        && function.named_expressions.len() == 0
        && function.diagnostic_filter_leaf.is_none()
}

fn is_plain_entry(entry_point: &EntryPoint) -> bool
    ensures { result ≡ spec.is_plain_entry (entry_value entry_point.now) }
{
    entry_point.function.arguments.is_empty()
        && !entry_point.function.body.body.is_empty()
        && entry_point.stage == 2
        && entry_point.early_depth_test.is_none()
        && entry_point.workgroup_size == [1, 1, 1]
        && entry_point.workgroup_size_overrides.is_none()
        && entry_point.mesh_info.is_none()
        && entry_point.task_payload.is_none()
}

// The text right after the header of a line.
fn opening(locals: &[(&str, usize)]) -> &'static str
    ensures { result.now ≡ spec.opening (locals_of locals.now) }
{
    if locals.is_empty() { " = " } else { " with " }
}

// The functions from a place on.
fn functions_from(functions: &[(Function, Span)], from: usize) -> &[(Function, Span)]
    requires { from ≤ length functions.now }
    ensures { spec.function_values result.now ≡ drop from (spec.function_values functions.now) }
{
    &functions[from..]
}

// The rooms of `stubs` lines that name nothing, with capacity for `more` rooms.
fn rooms_of_stubs(alloc: Global, stubs: usize, more: usize) -> Result<Vec<Room>, AllocError>
    ensures { IfOk result (λ v. v.items ≡ replicate stubs anywhere) }
{
    let mut rooms = Vec::with_capacity(alloc, rounded_room(stubs.saturating_add(more)))?;
    rooms.resize(stubs, ANYWHERE)?;
    Ok(rooms)
}

// The lines so far, and the names that they may use.
#[derive(Drop)]
struct Writer<'m> {
    alloc: Global,
    text: String,
    items: Items<'m>,
}

impl<'m> Writer<'m> {
    // Pushes locals and a sum, whose tokens are listed from the last on. Returns the line's room.
    fn push_end(
        &mut self,
        parameters: NameTable<'m>,
        function: &'m Function,
        tokens: &[Token],
    ) -> WriteResult<Room>
        ensures text { let value = function_value function.now in
            let line = spec.end_text self.old.items parameters.entry value tokens.now in
            Writes (λ r. r) result line (string_bytes self.old.text) (string_bytes self.new.text) }
        ensures items { OnOk result (self.new.items ≡ self.old.items) }
    {
        self.items.find_equal()?;
        let locals = local_words(self.alloc, function.local_variables.as_slice())?;
        let names = OwnNames {
            parameters,
            locals: local_names(self.alloc, &locals)?,
        };
        let expressions = &function.expressions;
        let (symbols, room) = end_of(
            self.alloc,
            expressions,
            &names,
            &self.items,
            &locals,
            tokens,
        )?;
        self.text.push_str(opening(&locals))?;
        push_symbols(&mut self.text, symbols)?;
        self.text.push('\n')?;
        Ok(room)
    }

    // Pushes the end of the line of a function without body, which uses no parameters. Returns the line's room.
    #[tactic(auto, unfolding(crate::specs::Writer::body_line))]
    fn push_stub(&mut self, function: &Function) -> WriteResult<Room>
        requires stub { IsTrue (spec.is_empty (function_value function.now).body) }
        ensures text { (parameters : List (List ℕ)) →
            let line = spec.body_line self.old.items parameters (function_value function.now) in
            Writes (λ r. r) result line (string_bytes self.old.text) (string_bytes self.new.text) }
        ensures items { OnOk result (self.new.items ≡ self.old.items) }
    {
        if !is_plain_function(function) {
            return Err(NotWritten::NotInMini);
        }
        if function.local_variables.len() != 0 {
            return Err(NotWritten::NotInMini);
        }
        self.text.push('\n')?;
        Ok(ANYWHERE)
    }

    // Pushes the end of a line, after its header. Returns the line's room.
    #[tactic(auto, unfolding(crate::specs::Writer::body_line))]
    fn push_body(&mut self, parameters: NameTable<'m>, function: &'m Function) -> WriteResult<Room>
        ensures text { let value = function_value function.now in
            let line = spec.body_line self.old.items parameters.entry value in
            Writes (λ r. r) result line (string_bytes self.old.text) (string_bytes self.new.text) }
        ensures items { OnOk result (self.new.items ≡ self.old.items) }
    {
        if function.body.body.is_empty() {
            return self.push_stub(function);
        }
        if !is_plain_function(function) {
            return Err(NotWritten::NotInMini);
        }
        let mut tokens = tokens_of(self.alloc, &function.body)?;
        tokens.reverse();
        self.push_end(parameters, function, &tokens)
    }

    // Pushes the line of a function whose name can be written.
    #[tactic(auto, unfolding(crate::specs::Writer::function_text))]
    fn push_function(&mut self, function: &'m Function) -> WriteResult<Room>
        requires named { IsSome (spec.valid_name (function_value function.now).name) }
        ensures text { let line = spec.function_text self.old.items (function_value function.now) in
            Writes (λ r. r) result line (string_bytes self.old.text) (string_bytes self.new.text) }
        ensures items { OnOk result (self.new.items ≡ self.old.items) }
    {
        let name = known_name(&function.name);
        push_header(&mut self.text, name, function.arguments.as_slice())?;
        if function.body.body.is_empty() {
            return self.push_stub(function);
        }
        let parameters = parameter_words(self.alloc, function.arguments.as_slice())?;
        self.push_body(parameters, function)
    }

    #[tactic(auto, unfolding(crate::specs::Writer::entry_text))]
    fn push_entry_point(&mut self, entry_point: &'m EntryPoint) -> WriteResult<Room>
        ensures text { let line = spec.entry_text self.old.items (entry_value entry_point.now) in
            Writes (λ r. r) result line (string_bytes self.old.text) (string_bytes self.new.text) }
        ensures items { OnOk result (self.new.items ≡ self.old.items) }
    {
        let name = valid_name(&entry_point.function.name)?;
        if name != entry_point.name.as_str() || !is_plain_entry(entry_point) {
            return Err(NotWritten::NotInMini);
        }
        self.text.push_str("entry ")?;
        self.text.push_str(name)?;
        self.push_body(NameTable::new(self.alloc), &entry_point.function)
    }

    // Pushes the line of a function without body.
    #[tactic(auto, unfolding(crate::specs::Writer::stub_text))]
    fn push_stub_line(&mut self, function: &Function) -> WriteResult<()>
        requires stub { IsTrue (spec.is_empty (function_value function.now).body) }
        ensures text { let text = spec.stub_text (function_value function.now) in
            let new = option_map (λ t. string_bytes self.old.text ++ t) text in
            Becomes result new (string_bytes self.new.text) }
        ensures items { OnOk result (self.new.items ≡ self.old.items) }
    {
        let name = valid_name(&function.name)?;
        push_header(&mut self.text, name, function.arguments.as_slice())?;
        self.push_stub(function)?;
        Ok(())
    }

    // Pushes the lines of the stubs before the first function with a body. Returns the number of these stubs.
    fn push_stubs(&mut self, of: &Module) -> WriteResult<usize>
        ensures text { let lines = spec.stubs_text (module_value of.now).functions in
            let text = string_bytes self.new.text in
            Writes (λ n. n) result lines (string_bytes self.old.text) text }
        ensures items { OnOk result (self.new.items ≡ self.old.items) }
    {
        let mut count = 0;
        for function in of.functions.as_slice() {
            if !function.0.body.body.is_empty() {
                return Ok(count);
            }
            self.push_stub_line(&function.0)?;
            count += 1;
        }
        Ok(count)
    }

    // Pushes the lines of functions whose names can be written, after `stubs` lines that name nothing.
    fn push_functions(
        &mut self,
        functions: &'m [(Function, Span)],
        stubs: usize,
    ) -> WriteResult<Vec<Room>>
        requires named { IsSome (spec.function_words (spec.function_values functions.now)) }
        ensures text { let values = spec.function_values functions.now in
            let lines = spec.functions_after self.old.items stubs values in
            let text = string_bytes self.new.text in
            Writes (λ v. v.items) result lines (string_bytes self.old.text) text }
        ensures items { OnOk result (self.new.items ≡ self.old.items) }
    {
        let mut rooms = rooms_of_stubs(self.alloc, stubs, functions.len())?;
        for function in functions {
            rooms.push(self.push_function(&function.0)?)?;
        }
        Ok(rooms)
    }

    fn push_entry_points(&mut self, of: &'m Module) -> WriteResult<Vec<Room>>
        ensures text { let value = module_value of.now in
            let lines = spec.entries_text self.old.items value.entry_points in
            let text = string_bytes self.new.text in
            Writes (λ v. v.items) result lines (string_bytes self.old.text) text }
        ensures items { OnOk result (self.new.items ≡ self.old.items) }
    {
        let mut rooms = Vec::new(self.alloc);
        for entry_point in &of.entry_points {
            rooms.push(self.push_entry_point(entry_point)?)?;
        }
        Ok(rooms)
    }

    // The text, with the lines after the first `stubs` functions.
    #[tactic(auto, unfolding(crate::specs::Writer::rest_text))]
    fn finished(self, of: &'m Module, stubs: usize) -> WriteResult<String>
        requires { stubs ≤ length (module_value of.now).functions }
        ensures { let rest = spec.rest_text self.entry.items (module_value of.now) stubs in
            let text = option_map (λ t. string_bytes self.entry.text ++ t) rest in
            Finds string_bytes result text }
    {
        let functions = of.functions.as_slice();
        let names = function_words(self.alloc, functions)?;
        let mut writer = Writer {
            alloc: self.alloc,
            text: self.text,
            items: self.items.with_functions(names),
        };
        let mut functions = writer.push_functions(functions_from(functions, stubs), stubs)?;
        let mut entry_points = writer.push_entry_points(of)?;
        if !has_order(&mut functions, &mut entry_points) {
            return Err(NotWritten::NotInMini);
        }
        Ok(writer.text)
    }
}

// Whether the module has the one type, or neither a type nor anything that names one.
#[tactic(auto, using(crate::proofs::WriterLemmas::fits_types_value))]
fn has_type(of: &Module) -> bool
    ensures { result ≡ spec.has_type (module_value of.now) }
{
    match of.types.items() {
        [] => {
            of.constants.len() == 0
                && of.global_variables.len() == 0
                && of.functions.len() == 0
                && of.entry_points.is_empty()
        }
        [ty] => ty.name.is_none() && matches!(ty.inner, TypeInner::Scalar(1)),
        _ => false,
    }
}

fn is_plain_module(of: &Module) -> bool
    ensures { result ≡ spec.is_plain_module (module_value of.now) }
{
    has_type(of)
        && of.special_types.ray_desc.is_none()
        && of.special_types.ray_intersection.is_none()
        && of.special_types.ray_vertex_return.is_none()
        && of.special_types.predeclared_types.is_empty()
        && of.overrides.len() == 0
        && of.diagnostic_filters.is_empty()
        && of.diagnostic_filter_leaf.is_none()
        && of.doc_comments.is_none()
}

// The number of bytes to reserve for each line of a function.
const LINE: usize = 40;

// The lines of constants and globals, and their names.
fn begun(alloc: Global, of: &Module) -> WriteResult<Writer<'_>>
    ensures { let lines = spec.begin_text (module_value of.now) in
        Finds (λ w. (string_bytes w.text, w.items)) result lines }
{
    let mut text = String::new(alloc);
    let _ = text.reserve(rounded_room(of.functions.len().saturating_mul(LINE)));
    let constants = push_constants(alloc, &mut text, of)?;
    let globals = push_globals(alloc, &mut text, of)?;
    let items = Items {
        constants,
        globals,
        functions: ItemNames::new(alloc, 0),
    };
    Ok(Writer { alloc, text, items })
}

// Whether nothing is after the first `stubs` functions.
fn ends_with_stubs(of: &Module, stubs: usize) -> bool
    ensures { result ≡ spec.ends_with_stubs (module_value of.now) stubs }
{
    stubs == of.functions.len() && of.entry_points.is_empty()
}

/// The text of a module.
#[tactic(auto, unfolding(crate::specs::Writer::module_text))]
pub fn module_text(alloc: Global, of: &Module) -> WriteResult<String>
    ensures { Finds string_bytes result (spec.module_text (module_value of.now)) }
{
    if !is_plain_module(of) {
        return Err(NotWritten::NotInMini);
    }
    let mut writer = begun(alloc, of)?;
    let stubs = writer.push_stubs(of)?;
    if ends_with_stubs(of, stubs) {
        return Ok(writer.text);
    }
    writer.finished(of, stubs)
}
