// Locals and a sum become expressions and a body, from the left.
ghost use Rattle.std.specs.Prelude.{◌≡◌, OnOk, IfOk, length, unwrap_or};
ghost use Rattle.naga_oil_ir.specs.Parts.{parts};
ghost use Rattle.naga_oil_ir.specs.Body.{block_tokens, statement_tokens};
ghost use Rattle.naga_oil_ir.specs.ModuleValue.{expression_values};
ghost use Rattle.naga_oil_mini_symbols.specs.Symbols.{symbol_of, line_of};
ghost use Rattle.naga_oil_mini_symbols.specs.Refused.{Gives};
ghost use Rattle.naga_oil_mini_front.specs.Making as spec;

use naga_oil_ir::{
    Arena, Block, Expression, Function, Handle, Index, LocalVariable, PlaceRange, Span, Statement,
};
use naga_oil_mini_symbols::{NameTable, Refusal, Symbol};
use std::alloc::{AllocError, Global};

/// The names that a sum may use: parameters, and the constants, globals and functions of earlier lines.
#[derive(Clone, Copy)]
pub struct Scope<'n, 'a> {
    pub parameters: &'n NameTable<'a>,
    pub constants: &'n NameTable<'a>,
    pub globals: &'n NameTable<'a>,
    pub functions: &'n NameTable<'a>,
}

/// The inside of a function: its locals, its expressions and its body.
pub type Inside = (Arena<LocalVariable>, Arena<Expression>, Block);

// A call whose arguments are being read, and the sum to the left of the `+` before the call.
#[derive(Drop)]
struct OpenCall {
    callee: Handle<Function>,
    arguments: Vec<Handle<Expression>>,
    left: Option<Handle<Expression>>,
}

// The part that is expected next: the sum, a local's name, the `=` after its name, or its initialiser.
#[derive(Clone, Copy)]
enum Wanted<'a> {
    Sum,
    Local,
    Equals(&'a str),
    Initialiser(&'a str),
}

// Locals and a sum that are being read: the names of the locals, the locals, the expressions and the body so far, the
// expected part, the open calls, the sum to the left of the last `+`, the sum so far unless a term is expected, and the
// first unknown name.
#[derive(Drop)]
struct Making<'n, 'a> {
    alloc: Global,
    scope: Scope<'n, 'a>,
    span: Span,
    names: NameTable<'a>,
    locals: Arena<LocalVariable>,
    expressions: Arena<Expression>,
    body: Vec<(Statement, Span)>,
    wanted: Wanted<'a>,
    calls: Vec<OpenCall>,
    left: Option<Handle<Expression>>,
    sum: Option<Handle<Expression>>,
    unknown: Option<&'a str>,
}

impl<'a> Making<'_, 'a> {
    fn state(&mut self, statement: Statement) -> Result<(), AllocError>
        ensures { let old = spec.made_of self.old in
            OnOk result (spec.made_of self.new ≡ spec.stated (statement_tokens statement) old) }
    {
        Ok(self.body.push((statement, self.span))?)
    }

    // Appends an expression, and returns its place.
    fn put(&mut self, expression: Expression) -> Result<Handle<Expression>, AllocError>
        ensures place { IfOk result (λ h. h ≡ spec.next_place (spec.made_of self.old)) }
        ensures made { let old = spec.made_of self.old in
            OnOk result (spec.made_of self.new ≡ spec.put (parts expression) old) }
    {
        self.expressions.append(expression, self.span)
    }

    // Appends an expression, emits it alone, and returns its place.
    fn emit(&mut self, expression: Expression) -> Result<Handle<Expression>, AllocError>
        ensures place { IfOk result (λ h. h ≡ spec.next_place (spec.made_of self.old)) }
        ensures made { let old = spec.made_of self.old in
            OnOk result (spec.made_of self.new ≡ spec.emitted (parts expression) old) }
    {
        let place = self.put(expression)?;
        let end = self.expressions.len();
        self.state(Statement::Emit(PlaceRange::new(place.index(), end)))?;
        Ok(place)
    }

    // Adds the term at a place to the sum.
    fn join(&mut self, right: Handle<Expression>) -> Result<(), AllocError>
        ensures { let old = spec.made_of self.old in
            OnOk result (spec.made_of self.new ≡ spec.joined self.old.left right old) }
    {
        self.sum = Some(right);
        if let Some(left) = self.left.take() {
            let sum = self.emit(Expression::Binary { op: 1, left, right })?;
            self.sum = Some(sum);
        }
        Ok(())
    }

    // Adds a term to the sum.
    fn add(&mut self, term: Expression) -> Result<(), AllocError>
        ensures { let old = spec.made_of self.old in
            OnOk result (spec.made_of self.new ≡ spec.with_term (parts term) old) }
    {
        let term = self.put(term)?;
        self.join(term)
    }

    // Adds the load of a variable to the sum.
    fn add_variable(&mut self, variable: Expression) -> Result<(), AllocError>
        ensures { let old = spec.made_of self.old in
            OnOk result (spec.made_of self.new ≡ spec.with_variable (parts variable) old) }
    {
        let pointer = self.put(variable)?;
        let load = self.emit(Expression::Load { pointer })?;
        self.join(load)
    }

    // The place of a name, or 0 for an unknown name, which is noted.
    fn known(&mut self, name: &'a str, place: Option<usize>) -> usize
        ensures place { result ≡ unwrap_or place 0 }
        ensures met { spec.made_of self.new ≡ spec.met name.now place (spec.made_of self.old) }
    {
        if place.is_none() {
            self.unknown = self.unknown.or(Some(name));
        }
        place.unwrap_or(0)
    }

    fn add_constant(&mut self, name: &'a str) -> Result<(), AllocError>
        ensures { let old = spec.made_of self.old in
            OnOk result (spec.made_of self.new ≡ spec.with_constant name.now old) }
    {
        let place = self.known(name, self.scope.constants.place(name));
        self.add(Expression::Constant(Index::new(place)))
    }

    // Adds a name to the sum: a parameter, else a local, else a global, else a constant.
    fn add_name(&mut self, name: &'a str) -> Result<(), AllocError>
        ensures { let old = spec.made_of self.old in
            OnOk result (spec.made_of self.new ≡ spec.with_name name.now old) }
    {
        if let Some(parameter) = self.scope.parameters.place(name) {
            return self.join(Index::new(parameter));
        }
        if let Some(local) = self.names.place(name) {
            return self.add_variable(Expression::LocalVariable(Index::new(local)));
        }
        match self.scope.globals.place(name) {
            Some(global) => self.add_variable(Expression::GlobalVariable(Index::new(global))),
            None => self.add_constant(name),
        }
    }

    fn open_call(&mut self, name: &'a str) -> Result<(), AllocError>
        ensures { let old = spec.made_of self.old in
            OnOk result (spec.made_of self.new ≡ spec.function_met name.now old) }
    {
        let place = self.known(name, self.scope.functions.place(name));
        self.calls.push(OpenCall {
            callee: Index::new(place),
            arguments: Vec::new(self.alloc),
            left: self.left.take(),
        })?;
        Ok(())
    }

    // Takes the innermost call, with the sum so far as its last argument. Only a call that just began has no sum.
    fn last_call(&mut self) -> Result<OpenCall, Refusal<'a>>
        ensures { let old = spec.made_of self.old in
            let new = spec.made_of self.new in
            Gives (λ c. (spec.open_call_of c, new)) result (spec.last_call old) }
    {
        let mut call = self.calls.pop().ok_or(Refusal::NotUnderstood)?;
        match self.sum.take() {
            Some(sum) => call.arguments.push(sum)?,
            None if self.left.is_none() && call.arguments.is_empty() => {}
            None => return Err(Refusal::NotUnderstood),
        }
        Ok(call)
    }

    // Adds a call's result to the sum before the call.
    fn end_call(&mut self, call: OpenCall) -> Result<(), AllocError>
        ensures { let old = spec.made_of self.old in
            OnOk result (spec.made_of self.new ≡ spec.call_ended (spec.open_call_of call) old) }
    {
        let place = self.expressions.len();
        self.state(Statement::Call {
            callee: call.callee,
            arguments: call.arguments,
            result: Some(Index::new(place)),
        })?;
        self.left = call.left;
        self.add(Expression::CallResult(call.callee))
    }

    fn read_sum(&mut self, symbol: Symbol<'a>) -> Result<(), Refusal<'a>>
        ensures { let old = spec.made_of self.old in
            let read = spec.read_after self.old.sum (symbol_of symbol.entry) old in
            Gives (λ _. spec.made_of self.new) result read }
    {
        match (symbol, self.sum) {
            (Symbol::Number(bits), None) => Ok(self.add(Expression::Literal { kind: 1, bits })?),
            (Symbol::Name(name), None) => Ok(self.add_name(name)?),
            (Symbol::Opens(name), None) => Ok(self.open_call(name)?),
            (Symbol::Plus, Some(_)) => {
                self.left = self.sum.take();
                Ok(())
            }
            (Symbol::Comma, Some(_)) => {
                let call = self.last_call()?;
                Ok(self.calls.push(call)?)
            }
            (Symbol::Closes, _) => {
                let call = self.last_call()?;
                Ok(self.end_call(call)?)
            }
            _ => Err(Refusal::NotUnderstood),
        }
    }

    // Appends a local with the initialiser at a place.
    fn add_local(
        &mut self,
        name: &'a str,
        init: Handle<Expression>,
        wanted: Wanted<'a>,
    ) -> Result<(), AllocError>
        ensures { let old = spec.made_of self.old in
            let made = spec.with_local name.now init (spec.wanted_of wanted.entry) old in
            OnOk result (spec.made_of self.new ≡ made) }
    {
        let local = LocalVariable {
            name: Some(String::from_str(self.alloc, name)?),
            ty: Index::new(0),
            init: Some(init),
        };
        self.locals.append(local, self.span)?;
        self.names.push(name)?;
        self.wanted = wanted;
        self.sum = None;
        Ok(())
    }

    // Terms of an initialiser are numbers and constants.
    fn read_initialiser(&mut self, local: &'a str, symbol: Symbol<'a>) -> Result<(), Refusal<'a>>
        ensures { let old = spec.made_of self.old in
            let read = spec.read_initialiser local.now self.old.sum (symbol_of symbol.entry) old in
            Gives (λ _. spec.made_of self.new) result read }
    {
        match (symbol, self.sum) {
            (Symbol::Number(bits), None) => Ok(self.add(Expression::Literal { kind: 1, bits })?),
            (Symbol::Name(name), None) => Ok(self.add_constant(name)?),
            (Symbol::Plus, Some(_)) => {
                self.left = self.sum.take();
                Ok(())
            }
            (Symbol::Comma, Some(init)) => Ok(self.add_local(local, init, Wanted::Local)?),
            (Symbol::Equals, Some(init)) => Ok(self.add_local(local, init, Wanted::Sum)?),
            _ => Err(Refusal::NotUnderstood),
        }
    }

    fn read(&mut self, symbol: Symbol<'a>) -> Result<(), Refusal<'a>>
        ensures { let old = spec.made_of self.old in
            let read = spec.read_symbol (symbol_of symbol.entry) old in
            Gives (λ _. spec.made_of self.new) result read }
    {
        match (self.wanted, symbol) {
            (Wanted::Sum, _) => return self.read_sum(symbol),
            (Wanted::Initialiser(local), _) => return self.read_initialiser(local, symbol),
            (Wanted::Local, Symbol::Name(name)) => self.wanted = Wanted::Equals(name),
            (Wanted::Equals(local), Symbol::Equals) => self.wanted = Wanted::Initialiser(local),
            _ => return Err(Refusal::NotUnderstood),
        }
        Ok(())
    }

    // Appends the parameters, with which the arena begins.
    fn add_parameters(&mut self) -> Result<(), AllocError>
        requires none { length self.old.expressions ≡ 0 }
        ensures { let old = spec.made_of self.old in
            OnOk result (spec.made_of self.new ≡ spec.begun (spec.wanted_of self.old.wanted) old) }
    {
        for place in 0..self.scope.parameters.texts().len() {
            let number = u32::try_from(place).unwrap_or(u32::MAX);
            self.put(Expression::FunctionArgument(number))?;
        }
        Ok(())
    }

    // Begins a sum, or locals and a sum.
    fn begin(&mut self, symbol: Symbol<'a>) -> Result<(), Refusal<'a>>
        requires none { length self.old.expressions ≡ 0 }
        ensures { let old = spec.made_of self.old in
            Gives (λ _. spec.made_of self.new) result (spec.begun_by (symbol_of symbol.entry) old) }
    {
        self.wanted = match symbol {
            Symbol::Equals => Wanted::Sum,
            Symbol::Name("with") => Wanted::Local,
            _ => return Err(Refusal::NotUnderstood),
        };
        Ok(self.add_parameters()?)
    }

    // Returns the sum, unless a call is open or a term is expected.
    fn end(&mut self) -> Result<(), Refusal<'a>>
        ensures { let old = spec.made_of self.old in
            Gives (λ _. spec.made_of self.new) result (spec.returned old) }
    {
        let value = self.sum;
        let is_whole = value.is_some() && self.calls.is_empty();
        match (self.wanted, self.unknown) {
            (Wanted::Sum, None) if is_whole => Ok(self.state(Statement::Return { value })?),
            (Wanted::Sum, Some(name)) if is_whole => Err(Refusal::Unknown(name)),
            _ => Err(Refusal::NotUnderstood),
        }
    }

    // Reads the end of a line: `=` and a sum, `with` and locals before them, or nothing for a stub.
    fn read_end(&mut self, symbols: &[Symbol<'a>]) -> Result<(), Refusal<'a>>
        requires none { length self.old.expressions ≡ 0 }
        ensures { let old = spec.made_of self.old in
            Gives (λ _. spec.made_of self.new) result (spec.read_end (line_of symbols.now) old) }
    {
        let Some((first, rest)) = symbols.split_first() else {
            return Ok(());
        };
        self.begin(*first)?;
        for symbol in rest {
            self.read(*symbol)?;
        }
        self.end()
    }
}

/// The locals, expressions and body of a line's end.
pub fn made<'a>(
    alloc: Global,
    scope: Scope<'_, 'a>,
    span: Span,
    symbols: &[Symbol<'a>],
) -> Result<Inside, Refusal<'a>>
    ensures { let said = spec.made (spec.scope_of scope.entry) span (line_of symbols.now) in
        Gives spec.inside_of result said }
{
    if symbols.is_empty() {
        let body = Block {
            body: Vec::new(alloc),
        };
        return Ok((Arena::new(alloc), Arena::new(alloc), body));
    }
    let mut making = Making {
        alloc,
        scope,
        span,
        names: NameTable::new(alloc),
        locals: Arena::new(alloc),
        expressions: Arena::new(alloc),
        body: Vec::new(alloc),
        wanted: Wanted::Sum,
        calls: Vec::new(alloc),
        left: None,
        sum: None,
        unknown: None,
    };
    making.read_end(symbols)?;
    let body = Block { body: making.body };
    Ok((making.locals, making.expressions, body))
}
