// A body is read as locals and a sum, from its end: each term before those to its left.
ghost use Rattle.std.specs.Prelude.{◌≡◌, ◌≤◌, ◌++◌, ◌∷◌, [], length, reverse, MatchOption, OnOk, IfOk, Some, None, option_map};
ghost use Rattle.std.specs.List.{prefix_len};
ghost use Rattle.naga_oil_ir.specs.Body.{block_tokens};
ghost use Rattle.naga_oil_ir.specs.Parts.{parts};
ghost use Rattle.naga_oil_ir.specs.ModuleValue.{expression_values};
ghost use Rattle.naga_oil_mini_symbols.specs.Symbols.{symbol_of, line_of};
ghost use Rattle.naga_oil_mini_writer.specs.BodyReader as spec;
ghost use Rattle.naga_oil_mini_writer.specs.NotWritten.{Finds, Becomes};

use crate::not_written::{NotWritten, WriteResult};
use crate::order::{ANYWHERE, Items, Room};
use naga_oil_ir::{Arena, Block, Expression, Index, Token, push_block};
use naga_oil_mini_symbols::{GREATEST, NameTable, Symbol};
use std::alloc::{AllocError, Global};

/// What an expression is in a sum.
#[derive(Clone, Copy)]
pub enum Shape {
    Number(u64),
    Argument(u32),
    Constant(usize),
    Global(usize),
    Local(usize),
    CallOf(usize),
    /// A load of the variable at a place.
    Load(usize),
    Sum(usize, usize),
    Other,
}

/// The names of a function's own variables.
#[derive(Drop)]
pub struct OwnNames<'m> {
    pub parameters: NameTable<'m>,
    pub locals: NameTable<'m>,
}

// A part of a line's end that isn't read yet: a symbol, a sum, a term, the arguments of a call (the last first), an
// initialiser, or a term of one.
#[derive(Clone, Copy)]
enum LinePart<'t, 'm> {
    Show(Symbol<'m>),
    Sum(usize),
    Term(usize),
    Arguments(&'t [Token]),
    Initialiser(usize),
    InitialTerm(usize),
}

// The state of reading a line's end: the expressions and names that it may use, its parts that aren't read yet, the
// statements to their left (from the end), the expressions that were met, the expression of each parameter, the symbols
// to their right (from the end), and the room of the items that they name.
#[derive(Drop)]
struct BodyReader<'t, 'r, 'm> {
    expressions: &'r Arena<Expression>,
    names: &'r OwnNames<'m>,
    items: &'r Items<'m>,
    parts: Vec<LinePart<'t, 'm>>,
    tokens: &'t [Token],
    met: Vec<bool>,
    parameters_met: Vec<Option<usize>>,
    symbols: Vec<Symbol<'m>>,
    room: Room,
}

fn shape_of(expression: &Expression) -> Shape
    ensures { result ≡ spec.shape (parts expression.now) }
{
    match expression {
        Expression::Literal { kind: 1, bits } if *bits <= GREATEST => Shape::Number(*bits),
        Expression::FunctionArgument(place) => Shape::Argument(*place),
        Expression::Constant(constant) => Shape::Constant(constant.index()),
        Expression::GlobalVariable(global) => Shape::Global(global.index()),
        Expression::LocalVariable(local) => Shape::Local(local.index()),
        Expression::CallResult(function) => Shape::CallOf(function.index()),
        Expression::Load { pointer } => Shape::Load(pointer.index()),
        Expression::Binary { op: 1, left, right } => Shape::Sum(left.index(), right.index()),
        _ => Shape::Other,
    }
}

#[tactic(auto, using(crate::proofs::BodyReaderLemmas::shape_at_value))]
pub fn shape_at(expressions: &Arena<Expression>, place: usize) -> Shape
    ensures { result ≡ spec.shape_at (expression_values expressions.now) place }
{
    match expressions.try_get(Index::new(place)) {
        None => Shape::Other,
        Some(expression) => shape_of(expression),
    }
}

/// The tokens of a body.
pub fn tokens_of(alloc: Global, body: &Block) -> Result<Vec<Token>, AllocError>
    ensures { IfOk result (λ v. v.items ≡ block_tokens body.now) }
{
    let mut tokens = Vec::new(alloc);
    push_block(body, &mut tokens)?;
    Ok(tokens)
}

fn is_use(token: Token) -> bool
    ensures { result ≡ spec.is_use token }
{
    matches!(token, Token::Use(_))
}

/// The number of operands at the front.
pub fn use_count(tokens: &[Token]) -> usize
    ensures value { result ≡ prefix_len spec.is_use tokens.now }
    ensures within { result ≤ length tokens.now }
{
    tokens.iter().take_while(|t| is_use(**t)).count()
}

// Marks an expression as met, or returns `None` if the expression was met before.
fn meet(met: &mut Vec<bool>, place: usize) -> Option<()>
    ensures { let more = spec.meet place met.old.items in
        MatchOption result (more ≡ None) (λ _. more ≡ Some met.new.items) }
{
    if *met.get(place)? {
        return None;
    }
    met[place] = true;
    Some(())
}

// Notes the expression of a parameter, or returns `None` if the parameter has another one already.
fn meet_parameter(met: &mut Vec<Option<usize>>, number: usize, place: usize) -> Option<()>
    ensures { let more = spec.meet_parameter number place met.old.items in
        MatchOption result (more ≡ None) (λ _. more ≡ Some met.new.items) }
{
    let before = *met.get(number)?;
    if before.is_some_and(|other| other != place) {
        return None;
    }
    met[number] = Some(place);
    Some(())
}

// Whether a range covers an expression alone.
fn is_alone(start: usize, end: usize, place: usize) -> bool
    ensures { result ≡ spec.is_alone place (start, end) }
{
    start == place && end > place && end - place == 1
}

// The rest after a statement that emits an expression alone.
fn past_emit(tokens: &[Token], place: usize) -> Option<&[Token]>
    ensures { option_map (λ t. t.now) result ≡ spec.past_emit place tokens.now }
{
    let [Token::Emitted(range), _, _, rest @ ..] = tokens else {
        return None;
    };
    is_alone(range.start(), range.end(), place).then_some(rest)
}

// The rest after a statement that emits an initialiser's sum alone, or nothing where an equal sum was emitted.
fn past_initialiser(tokens: &[Token], place: usize) -> Option<&[Token]>
    ensures { option_map (λ t. t.now) result ≡ spec.past_initialiser place tokens.now }
{
    let [Token::Emitted(range), _, _, rest @ ..] = tokens else {
        return None;
    };
    let (start, end) = (range.start(), range.end());
    (is_alone(start, end, place) || end <= start).then_some(rest)
}

// The arguments of a call with this result, and the rest after the call.
fn past_call(tokens: &[Token], function: usize, place: usize) -> Option<(&[Token], &[Token])>
    ensures { let past = spec.past_call function place tokens.now in
        option_map (λ p. (p.0.now, p.1.now)) result ≡ past }
{
    let [Token::GiveCall(callee, given), following @ ..] = tokens else {
        return None;
    };
    let (arguments, following) = following.split_at(use_count(following));
    let [Token::Callee(_), _, _, rest @ ..] = following else {
        return None;
    };
    let is_right = callee.index() == function && given.index() == place;
    is_right.then_some((arguments, rest))
}

// The value that is returned, and the rest after the return.
fn past_return(tokens: &[Token]) -> Option<(usize, &[Token])>
    ensures { option_map (λ p. (p.0, p.1.now)) result ≡ spec.past_return tokens.now }
{
    let [Token::Use(value), Token::Head(10), _, rest @ ..] = tokens else {
        return None;
    };
    Some((value.index(), rest))
}

impl<'m> OwnNames<'m> {
    // The name of a parameter, unless a later one has it.
    fn parameter(&self, place: usize) -> Option<&'m str>
        ensures { option_map (λ n. n.now) result ≡ spec.parameter_name self.now place }
    {
        let name = *self.parameters.texts().get(place)?;
        (self.parameters.place(name) == Some(place)).then_some(name)
    }

    // The name of a local, unless a later one or a parameter has it.
    fn local(&self, place: usize) -> Option<&'m str>
        ensures { option_map (λ n. n.now) result ≡ spec.local_name self.now place }
    {
        let name = *self.locals.texts().get(place)?;
        let is_meant = self.locals.place(name) == Some(place)
            && self.parameters.place(name).is_none();
        is_meant.then_some(name)
    }

    // The name, unless a parameter or a local has it.
    fn outer(&self, name: &'m str) -> Option<&'m str>
        ensures { option_map (λ n. n.now) result ≡ spec.outer_name self.now name.now }
    {
        let is_outer = self.parameters.place(name).is_none() && self.locals.place(name).is_none();
        is_outer.then_some(name)
    }
}

impl<'t, 'm> BodyReader<'t, '_, 'm> {
    // Adds a name, if there is one.
    fn show(&mut self, name: Option<&'m str>) -> WriteResult<()>
        ensures { let old = spec.reading_of self.old in
            let read = spec.with_name (option_map (λ n. n.now) name.entry) old in
            Becomes result read (spec.reading_of self.new) }
    {
        let name = name.ok_or(NotWritten::NotInMini)?;
        Ok(self.symbols.push(Symbol::Name(name))?)
    }

    // Reads a call: `)`, its arguments from the last on, and its name.
    fn read_call(&mut self, place: usize, function: usize) -> WriteResult<()>
        ensures { let old = spec.reading_of self.old in
            Becomes result (spec.with_call place function old) (spec.reading_of self.new) }
    {
        let functions = &self.items.functions;
        let name = functions.used(function, &mut self.room.functions);
        let name = name.ok_or(NotWritten::NotInMini)?;
        let call = past_call(self.tokens, function, place);
        let (arguments, rest) = call.ok_or(NotWritten::NotInMini)?;
        self.tokens = rest;
        self.symbols.push(Symbol::Closes)?;
        self.parts.push(LinePart::Show(Symbol::Opens(name)))?;
        Ok(self.parts.push(LinePart::Arguments(arguments))?)
    }

    // Reads a sum: its last term, `+`, and the rest.
    fn read_sum(&mut self, place: usize, left: usize, right: usize) -> WriteResult<()>
        ensures { let old = spec.reading_of self.old in
            Becomes result (spec.with_sum place left right old) (spec.reading_of self.new) }
    {
        self.tokens = past_emit(self.tokens, place).ok_or(NotWritten::NotInMini)?;
        self.parts.push(LinePart::Sum(left))?;
        self.parts.push(LinePart::Show(Symbol::Plus))?;
        Ok(self.parts.push(LinePart::Term(right))?)
    }

    fn read_parameter(&mut self, place: usize, number: usize) -> WriteResult<()>
        ensures { let old = spec.reading_of self.old in
            Becomes result (spec.with_parameter place number old) (spec.reading_of self.new) }
    {
        let met = meet_parameter(&mut self.parameters_met, number, place);
        met.ok_or(NotWritten::NotInMini)?;
        self.show(self.names.parameter(number))
    }

    // Reads a constant. Its line is before each global with its name.
    fn read_constant(&mut self, constant: usize) -> WriteResult<()>
        ensures { let old = spec.reading_of self.old in
            Becomes result (spec.with_constant constant old) (spec.reading_of self.new) }
    {
        let constants = &self.items.constants;
        let name = constants.used(constant, &mut self.room.constants);
        let name = name.ok_or(NotWritten::NotInMini)?;
        let first = self.items.globals.first_place(name);
        self.room.globals.most = self.room.globals.most.min(first);
        self.show(self.names.outer(name))
    }

    fn read_global(&mut self, global: usize) -> WriteResult<()>
        ensures { let old = spec.reading_of self.old in
            Becomes result (spec.with_global global old) (spec.reading_of self.new) }
    {
        let globals = &self.items.globals;
        let name = globals.used(global, &mut self.room.globals);
        let name = name.ok_or(NotWritten::NotInMini)?;
        self.show(self.names.outer(name))
    }

    // Reads a load of a local or a global, which is emitted alone.
    fn read_load(&mut self, place: usize, pointer: usize) -> WriteResult<()>
        ensures { let old = spec.reading_of self.old in
            Becomes result (spec.with_load place pointer old) (spec.reading_of self.new) }
    {
        self.tokens = past_emit(self.tokens, place).ok_or(NotWritten::NotInMini)?;
        meet(&mut self.met, pointer).ok_or(NotWritten::NotInMini)?;
        match shape_at(self.expressions, pointer) {
            Shape::Local(local) => self.show(self.names.local(local)),
            Shape::Global(global) => self.read_global(global),
            _ => Err(NotWritten::NotInMini),
        }
    }

    // Reads an expression that occurs once.
    fn read_own(&mut self, may_be_sum: bool, place: usize, shape: Shape) -> WriteResult<()>
        ensures { let old = spec.reading_of self.old in
            Becomes result (spec.with_own may_be_sum place shape old) (spec.reading_of self.new) }
    {
        meet(&mut self.met, place).ok_or(NotWritten::NotInMini)?;
        match shape {
            Shape::CallOf(function) => self.read_call(place, function),
            Shape::Sum(left, right) if may_be_sum => self.read_sum(place, left, right),
            Shape::Load(pointer) => self.read_load(place, pointer),
            Shape::Number(value) => Ok(self.symbols.push(Symbol::Number(value))?),
            Shape::Constant(constant) => self.read_constant(constant),
            _ => Err(NotWritten::NotInMini),
        }
    }

    // Reads a parameter, or an expression that occurs once.
    fn read(&mut self, may_be_sum: bool, place: usize) -> WriteResult<()>
        ensures { let old = spec.reading_of self.old in
            Becomes result (spec.with_expression may_be_sum place old) (spec.reading_of self.new) }
    {
        match shape_at(self.expressions, place) {
            Shape::Argument(number) => self.read_parameter(place, number as usize),
            shape => self.read_own(may_be_sum, place, shape),
        }
    }

    // Reads a sum of an initialiser: its last term, `+`, and the rest.
    fn read_initial_sum(&mut self, place: usize, left: usize, right: usize) -> WriteResult<()>
        ensures { let old = spec.reading_of self.old in
            Becomes result (spec.with_initial_sum place left right old) (spec.reading_of self.new) }
    {
        self.tokens = past_initialiser(self.tokens, place).ok_or(NotWritten::NotInMini)?;
        self.parts.push(LinePart::Initialiser(left))?;
        self.parts.push(LinePart::Show(Symbol::Plus))?;
        Ok(self.parts.push(LinePart::InitialTerm(right))?)
    }

    // Reads a constant of an initialiser.
    fn read_initial_constant(&mut self, constant: usize) -> WriteResult<()>
        ensures { let old = spec.reading_of self.old in
            Becomes result (spec.with_initial_constant constant old) (spec.reading_of self.new) }
    {
        let constants = &self.items.constants;
        let name = constants.used(constant, &mut self.room.constants);
        self.show(name)
    }

    // Reads an expression of an initialiser by its shape.
    fn read_initial(&mut self, may_be_sum: bool, place: usize, shape: Shape) -> WriteResult<()>
        ensures { let old = spec.reading_of self.old in
            let read = spec.with_initial_shape may_be_sum place shape old in
            Becomes result read (spec.reading_of self.new) }
    {
        match shape {
            Shape::Number(value) => Ok(self.symbols.push(Symbol::Number(value))?),
            Shape::Constant(constant) => self.read_initial_constant(constant),
            Shape::Sum(left, right) if may_be_sum => self.read_initial_sum(place, left, right),
            _ => Err(NotWritten::NotInMini),
        }
    }

    // Reads an expression of an initialiser. The sum doesn't share the expression.
    fn read_initialiser(&mut self, may_be_sum: bool, place: usize) -> WriteResult<()>
        ensures { let old = spec.reading_of self.old in
            Becomes result (spec.with_initialiser may_be_sum place old) (spec.reading_of self.new) }
    {
        if *self.met.get(place).ok_or(NotWritten::NotInMini)? {
            return Err(NotWritten::NotInMini);
        }
        self.read_initial(may_be_sum, place, shape_at(self.expressions, place))
    }

    // Reads the next argument of a call, with a `,` before each but the first.
    fn read_argument(&mut self, arguments: &'t [Token]) -> Result<(), AllocError>
        ensures { let old = spec.reading_of self.old in
            OnOk result (spec.reading_of self.new ≡ spec.with_argument arguments.now old) }
    {
        let [Token::Use(last), rest @ ..] = arguments else {
            return Ok(());
        };
        if !rest.is_empty() {
            self.parts.push(LinePart::Arguments(rest))?;
            self.parts.push(LinePart::Show(Symbol::Comma))?;
        }
        Ok(self.parts.push(LinePart::Sum(last.index()))?)
    }

    // Reads the next part.
    fn step(&mut self) -> WriteResult<()>
        ensures { let old = spec.reading_of self.old in
            Becomes result (spec.one_part old.parts old) (spec.reading_of self.new) }
    {
        match self.parts.pop() {
            None => Ok(()),
            Some(LinePart::Show(symbol)) => Ok(self.symbols.push(symbol)?),
            Some(LinePart::Sum(place)) => self.read(true, place),
            Some(LinePart::Term(place)) => self.read(false, place),
            Some(LinePart::Arguments(arguments)) => Ok(self.read_argument(arguments)?),
            Some(LinePart::Initialiser(place)) => self.read_initialiser(true, place),
            Some(LinePart::InitialTerm(place)) => self.read_initialiser(false, place),
        }
    }

    // Reads all parts, of which there are at most `count`.
    fn read_parts(&mut self, count: usize) -> WriteResult<()>
        ensures { let old = spec.reading_of self.old in
            Becomes result (spec.parts_read count old) (spec.reading_of self.new) }
    {
        for _ in 0..count {
            self.step()?;
        }
        Ok(())
    }
}

// Adds the parts of a local, after a `,` for each but the first.
fn push_local<'m>(
    parts: &mut Vec<LinePart<'_, 'm>>,
    name: &'m str,
    initialiser: usize,
) -> Result<(), AllocError>
    ensures { let old = spec.parts_of parts.old.items in
        let local = spec.local_parts (spec.separator old) ((name.now, initialiser) ∷ []) in
        OnOk result (spec.parts_of parts.new.items ≡ old ++ local) }
{
    if !parts.is_empty() {
        parts.push(LinePart::Show(Symbol::Comma))?;
    }
    parts.push(LinePart::Show(Symbol::Name(name)))?;
    parts.push(LinePart::Show(Symbol::Equals))?;
    Ok(parts.push(LinePart::Initialiser(initialiser))?)
}

// The parts of locals and the sum that is returned.
fn line_parts<'t, 'm>(
    alloc: Global,
    locals: &[(&'m str, usize)],
    value: usize,
) -> Result<Vec<LinePart<'t, 'm>>, AllocError>
    ensures { let told = spec.line_parts (spec.locals_of locals.now) value in
        IfOk result (λ v. spec.parts_of v.items ≡ told) }
{
    let mut parts = Vec::new(alloc);
    for (name, initialiser) in locals {
        push_local(&mut parts, *name, *initialiser)?;
    }
    if !parts.is_empty() {
        parts.push(LinePart::Show(Symbol::Equals))?;
    }
    parts.push(LinePart::Sum(value))?;
    Ok(parts)
}

/// Reads locals and the tokens of a body, the last first, and returns the symbols, the last first, and their room.
#[tactic(auto, unfolding(crate::specs::BodyReader::end_of))]
pub fn end_of<'r, 'm>(
    alloc: Global,
    expressions: &'r Arena<Expression>,
    names: &'r OwnNames<'m>,
    items: &'r Items<'m>,
    locals: &[(&'m str, usize)],
    tokens: &[Token],
) -> WriteResult<(Vec<Symbol<'m>>, Room)>
    ensures { let of = expression_values expressions.now in
        let context : spec.Context =
        record { expressions = of; names = names.now; items = items.now } in
        let end = spec.end_of context (spec.locals_of locals.now) tokens.now in
        Finds (λ p. (reverse (line_of p.0.items), p.1)) result end }
{
    let (value, rest) = past_return(tokens).ok_or(NotWritten::NotInMini)?;
    let mut reader = BodyReader {
        expressions,
        names,
        items,
        parts: line_parts(alloc, locals, value)?,
        tokens: rest,
        met: vec![in alloc; false; expressions.len()]?,
        parameters_met: vec![in alloc; None; names.parameters.texts().len()]?,
        symbols: Vec::new(alloc),
        room: ANYWHERE,
    };
    reader.read_parts(tokens.len() * 3 + locals.len() * 4)?;
    if !reader.parts.is_empty() || !reader.tokens.is_empty() {
        return Err(NotWritten::NotInMini);
    }
    Ok((reader.symbols, reader.room))
}
