// The module of a text, line by line.
ghost use Rattle.std.specs.Prelude.{◌≡◌, OnOk, IfOk, map};
ghost use Rattle.std.specs.List.{starts_with, list_any};
ghost use Rattle.std.specs.Prelude.{nat_eq};
ghost use Rattle.naga_oil_ir.specs.Rows.{type_row};
ghost use Rattle.naga_oil_ir.specs.ModuleValue.{module_value, function_value};
ghost use Rattle.naga_oil_ir.specs.Backend.{Answers, parse_fault};
ghost use Rattle.naga_oil_mini_symbols.specs.Symbols.{line_of};
ghost use Rattle.naga_oil_mini_symbols.specs.Refused.{Gives, Faults};
ghost use Rattle.naga_oil_mini_front.specs.Reader as spec;

use crate::making::{Scope, made};
use naga_oil_ir::{
    Arena, BackendRefusal, Constant, EntryPoint, Expression, Function, FunctionArgument,
    FunctionResult, GlobalVariable, Index, Module, NamedExpressions, ParseFault, Span, Type,
    TypeInner, rounded_room,
};
use naga_oil_mini_symbols::{NameTable, Refusal, Symbol, read_symbols};
use std::alloc::{AllocError, Global};
use std::mem;

// The length of the text, the module of the lines so far, the names of its constants, globals and functions, and the span
// and the parameters of the current line.
#[derive(Drop)]
struct Reader<'a> {
    alloc: Global,
    length: usize,
    span: Span,
    module_: Module,
    constants: NameTable<'a>,
    globals: NameTable<'a>,
    functions: NameTable<'a>,
    parameters: NameTable<'a>,
}

#[tactic(auto, using(std::proofs::lemmas::Str::Pattern::starts_text))]
fn begins(text: &str, mark: &str) -> bool
    ensures { result ≡ starts_with nat_eq text.now mark.now }
{
    text.starts_with(mark)
}

// Whether a text begins as a line that is skipped.
fn begins_with_mark(text: &str) -> bool
    ensures { result ≡ list_any (λ mark. starts_with nat_eq text.now mark) spec.marks }
{
    let marks = ["#", "//", "enable ", "requires ", "diagnostic("];
    marks.iter().any(|mark| begins(text, mark))
}

// The first byte decides for most lines.
fn is_skipped(line: &str) -> bool
    ensures { result ≡ spec.is_skipped line.now }
{
    let text = line.trim_start();
    match text.as_bytes() {
        [] => true,
        [b'#' | b'/' | b'e' | b'r' | b'd', ..] => begins_with_mark(text),
        _ => false,
    }
}

// Whether the space before a `with` is missing.
fn lacks_space(line: &str) -> bool
    ensures { result ≡ spec.lacks_space line.now }
{
    let mut rest = line;
    while !rest.is_empty() {
        let Some((_, more)) = rest.split_once(')') else {
            return false;
        };
        if begins(more, "with") {
            return true;
        }
        rest = more;
    }
    false
}

// Reads the parameters that a line's symbols begin with, up to `)`, into `names`, in place of what was there. Returns
// the rest.
fn read_parameters<'s, 'a>(
    names: &mut NameTable<'a>,
    symbols: &'s [Symbol<'a>],
) -> Result<&'s [Symbol<'a>], Refusal<'a>>
    ensures { let said = spec.read_parameters (line_of symbols.now) in
        Gives (λ rest. (names.new, line_of rest.now)) result said }
{
    names.clear();
    if let [Symbol::Closes, rest @ ..] = symbols {
        return Ok(rest);
    }
    let mut rest = symbols;
    while let [Symbol::Name(name), Symbol::Comma, more @ ..] = rest {
        names.push(name)?;
        rest = more;
    }
    let [Symbol::Name(name), Symbol::Closes, rest @ ..] = rest else {
        return Err(Refusal::NotUnderstood);
    };
    names.push(name)?;
    Ok(rest)
}

fn arguments(alloc: Global, parameters: &NameTable<'_>) -> Result<Vec<FunctionArgument>, AllocError>
    ensures { IfOk result (λ v. spec.arguments_of v.items ≡ spec.arguments parameters.now) }
{
    let names = parameters.texts();
    let mut arguments = Vec::with_capacity(alloc, names.len())?;
    for parameter in names {
        let name = String::from_str(alloc, *parameter)?;
        arguments.push(FunctionArgument {
            name: Some(name),
            ty: Index::new(0),
            binding: None,
        })?;
    }
    Ok(arguments)
}

// A reserve is at most for this multiple of the items so far.
const MAX_GROWTH: usize = 63;

// The number of items to reserve for, extrapolated from the `count` items in the first `read` of `length` bytes: at least one,
// and as many as round the number of all items up to a power of two.
fn more_room(count: usize, read: usize, length: usize) -> usize {
    let left = length.saturating_sub(read);
    let more = count.saturating_mul(left).checked_div(read).unwrap_or(0);
    let all = more
        .min(count.saturating_mul(MAX_GROWTH))
        .max(1)
        .saturating_add(count);
    rounded_room(all).saturating_sub(count)
}

impl<'a> Reader<'a> {
    // The reader of a text of `length` bytes.
    fn new(alloc: Global, length: usize) -> Result<Reader<'a>, AllocError>
        ensures value { IfOk result (λ r. module_value r.module_ ≡ spec.start) }
        ensures known { IfOk result spec.Knows }
    {
        let mut module_ = Module::new(alloc);
        let inner = TypeInner::Scalar(1);
        let ty = Type { name: None, inner };
        module_.types.insert(ty, Span::UNDEFINED)?;
        Ok(Reader {
            alloc,
            length,
            span: Span::UNDEFINED,
            module_,
            constants: NameTable::new(alloc),
            globals: NameTable::new(alloc),
            functions: NameTable::new(alloc),
            parameters: NameTable::new(alloc),
        })
    }

    // `NAME = INT`
    fn add_constant(&mut self, symbols: &[Symbol<'a>]) -> Result<(), Refusal<'a>>
        requires known { spec.Knows self.old }
        ensures value { let old = module_value self.old.module_ in
            let said = spec.constant_line (line_of symbols.now) self.old.span old in
            Gives (λ _. module_value self.new.module_) result said }
        ensures known { OnOk result (spec.Knows self.new) }
    {
        let &[Symbol::Name(name), Symbol::Equals, Symbol::Number(bits)] = symbols else {
            return Err(Refusal::NotUnderstood);
        };
        let literal = Expression::Literal { kind: 1, bits };
        let init = self.module_.global_expressions.append(literal, self.span)?;
        let ty = Index::new(0);
        let name_text = Some(String::from_str(self.alloc, name)?);
        let constant = Constant {
            name: name_text,
            ty,
            init,
        };
        self.module_.constants.append(constant, self.span)?;
        self.constants.push(name)?;
        Ok(())
    }

    // `NAME = INT`
    fn add_global(&mut self, symbols: &[Symbol<'a>]) -> Result<(), Refusal<'a>>
        requires known { spec.Knows self.old }
        ensures value { let old = module_value self.old.module_ in
            let said = spec.global_line (line_of symbols.now) self.old.span old in
            Gives (λ _. module_value self.new.module_) result said }
        ensures known { OnOk result (spec.Knows self.new) }
    {
        let &[Symbol::Name(name), Symbol::Equals, Symbol::Number(bits)] = symbols else {
            return Err(Refusal::NotUnderstood);
        };
        let literal = Expression::Literal { kind: 1, bits };
        let init = self.module_.global_expressions.append(literal, self.span)?;
        let global = GlobalVariable {
            name: Some(String::from_str(self.alloc, name)?),
            space: 1,
            binding: None,
            ty: Index::new(0),
            init: Some(init),
        };
        self.module_.global_variables.append(global, self.span)?;
        self.globals.push(name)?;
        Ok(())
    }

    // The function with a name, the parameters that were read and the body of a line's end.
    fn function(&self, name: &str, body: &[Symbol<'a>]) -> Result<Function, Refusal<'a>>
        requires known { spec.Knows self.now }
        ensures { let earlier = module_value self.now.module_ in
            let end = line_of body.now in
            let said = spec.function name.now self.now.parameters end self.now.span earlier in
            Gives function_value result said }
    {
        let scope = Scope {
            parameters: &self.parameters,
            constants: &self.constants,
            globals: &self.globals,
            functions: &self.functions,
        };
        let name = Some(String::from_str(self.alloc, name)?);
        let arguments = arguments(self.alloc, &self.parameters)?;
        let (locals, expressions, body) = made(self.alloc, scope, self.span, body)?;
        Ok(Function {
            name,
            arguments,
            result: Some(FunctionResult {
                ty: Index::new(0),
                binding: None,
            }),
            local_variables: locals,
            expressions,
            named_expressions: NamedExpressions::new(),
            body,
            diagnostic_filter_leaf: None,
        })
    }

    // Reserves capacity for functions where none is left: for as many as the rest of the text has if it continues as it began, so
    // that the functions of a long header aren't copied repeatedly. Without memory nothing is reserved, and the call that needs
    // the capacity fails.
    fn make_room(&mut self)
        ensures { self.new ≡ self.old }
    {
        let functions = mem::replace(&mut self.module_.functions, Arena::new(self.alloc));
        let mut items = functions.into_items();
        if items.len() == items.capacity() {
            let read = self.span.start as usize;
            let more = more_room(items.len(), read, self.length);
            let _ = items.reserve(more);
            self.functions.make_room(more);
        }
        self.module_.functions = Arena::from_items(items);
    }

    // `NAME(P, ..) = EXPR`, `NAME(P, ..) with V = INIT, .. = EXPR` or `NAME(P, ..)`
    fn add_function(&mut self, symbols: &[Symbol<'a>]) -> Result<(), Refusal<'a>>
        requires known { spec.Knows self.old }
        ensures value { let old = module_value self.old.module_ in
            let said = spec.function_line (line_of symbols.now) self.old.span old in
            Gives (λ _. module_value self.new.module_) result said }
        ensures known { OnOk result (spec.Knows self.new) }
    {
        let [Symbol::Opens(name), rest @ ..] = symbols else {
            return Err(Refusal::NotUnderstood);
        };
        let body = read_parameters(&mut self.parameters, rest)?;
        let function = self.function(name, body)?;
        self.make_room();
        self.module_.functions.append(function, self.span)?;
        self.functions.push(name)?;
        Ok(())
    }

    // `NAME = EXPR` or `NAME with V = INIT, .. = EXPR`
    fn add_entry_point(&mut self, symbols: &[Symbol<'a>]) -> Result<(), Refusal<'a>>
        requires known { spec.Knows self.old }
        ensures value { let old = module_value self.old.module_ in
            let said = spec.entry_line (line_of symbols.now) self.old.span old in
            Gives (λ _. module_value self.new.module_) result said }
        ensures known { OnOk result (spec.Knows self.new) }
    {
        let [Symbol::Name(name), _, ..] = symbols else {
            return Err(Refusal::NotUnderstood);
        };
        self.parameters.clear();
        let entry_point = EntryPoint {
            name: String::from_str(self.alloc, name)?,
            stage: 2,
            early_depth_test: None,
            workgroup_size: [1, 1, 1],
            workgroup_size_overrides: None,
            function: self.function(name, &symbols[1..])?,
            mesh_info: None,
            task_payload: None,
        };
        Ok(self.module_.entry_points.push(entry_point)?)
    }

    // Reads the item of a line's symbols. Most are functions.
    fn add(&mut self, symbols: &[Symbol<'a>]) -> Result<(), Refusal<'a>>
        requires known { spec.Knows self.old }
        ensures value { let old = module_value self.old.module_ in
            let said = spec.with_symbols self.old.span old (line_of symbols.now) in
            Gives (λ _. module_value self.new.module_) result said }
        ensures known { OnOk result (spec.Knows self.new) }
    {
        match symbols {
            [Symbol::Name("fn"), rest @ ..] => self.add_function(rest),
            [Symbol::Name("const"), rest @ ..] => self.add_constant(rest),
            [Symbol::Name("var"), rest @ ..] => self.add_global(rest),
            [Symbol::Name("entry"), rest @ ..] => self.add_entry_point(rest),
            _ => Err(Refusal::NotUnderstood),
        }
    }

    // Reads a line, whose symbols replace those of the line before.
    #[tactic(auto, unfolding(crate::specs::Reader::with_line))]
    fn read(&mut self, line: &'a str, symbols: &mut Vec<Symbol<'a>>) -> Result<(), Refusal<'a>>
        requires known { spec.Knows self.old }
        ensures value { let old = module_value self.old.module_ in
            let said = spec.with_line line.now self.old.span old in
            Gives (λ _. module_value self.new.module_) result said }
        ensures known { OnOk result (spec.Knows self.new) }
    {
        if is_skipped(line) {
            return Ok(());
        }
        if lacks_space(line) {
            return Err(Refusal::NotUnderstood);
        }
        read_symbols(symbols, line)?;
        self.add(symbols)
    }
}

// The error of the line at a span.
fn fault_at(alloc: Global, refusal: Refusal<'_>, span: Span) -> Result<ParseFault, AllocError>
    ensures { IfOk result (λ p. Faults refusal.entry (λ f. parse_fault p ≡ spec.fault_at span f)) }
{
    let message = match refusal {
        Refusal::NotUnderstood => String::from_str(alloc, "line not understood")?,
        Refusal::Unknown(name) => format!(in alloc; "unknown name {name}")?,
        Refusal::Memory => return Err(AllocError),
    };
    Ok(ParseFault {
        message,
        spans: vec![in alloc; (span, String::new(alloc))]?,
        notes: Vec::new(alloc),
    })
}

// A text's first line, without its end, and the rest.
fn first_line(text: &str) -> (&str, &str)
    ensures { (result.0.now, result.1.now) ≡ spec.first_line text.now }
{
    match text.split_once('\n') {
        Some((line, rest)) => (line.strip_suffix('\r').unwrap_or(line), rest),
        None => (text, ""),
    }
}

// A place in a text, capped at `u32::MAX`.
fn place(bytes: usize) -> u32
    ensures { result ≡ spec.capped bytes }
{
    u32::try_from(bytes).unwrap_or(u32::MAX)
}

/// The module of a text, or the error of its first line that isn't understood.
#[tactic(auto, unfolding(crate::specs::Reader::parsed))]
pub fn parsed(alloc: Global, text: &str) -> Result<Module, BackendRefusal<ParseFault>>
    ensures { Answers module_value parse_fault result (spec.parsed text.now) }
{
    let mut reader = Reader::new(alloc, text.len())?;
    let mut symbols = Vec::new(alloc);
    let mut rest = text;
    while !rest.is_empty() {
        let (line, following) = first_line(rest);
        let start = text.len() - rest.len();
        let span = Span::new(place(start), place(start + line.len()));
        reader.span = span;
        if let Err(refusal) = reader.read(line, &mut symbols) {
            let fault = fault_at(alloc, refusal, span)?;
            return Err(BackendRefusal::Fault(fault));
        }
        rest = following;
    }
    Ok(reader.module_)
}
