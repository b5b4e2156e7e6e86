//! What nodes make: the state, and the steps that every node's step is made of.

ghost use Rattle.std.specs.Prelude.{◌≡◌, IfOk, drop, slice_get, string_bytes};
ghost use Rattle.naga_oil_ir.specs.Body.{block_tokens, statement_tokens};
ghost use Rattle.naga_oil_ir.specs.ModuleValue.{expression_values};
ghost use Rattle.naga_oil_ir.specs.Parts.{parts};
ghost use Rattle.yettuvam_wgsl_machine.specs.Machine.{node_view};
ghost use Rattle.yettuvam_wgsl_scope.specs.Refused.{Reads};
ghost use Rattle.yettuvam_wgsl_values.specs.Blocks.{front};
ghost use Rattle.yettuvam_wgsl_values.specs.Body as spec;
ghost use Rattle.yettuvam_wgsl_values.specs.Body.{ReadsAs, state_of};
ghost use Rattle.yettuvam_wgsl_values.specs.Value.{value_view, values_view};

use crate::blocks::{Statements, block_of, pop_list};
use crate::value::{Arm, Call, Meaning, Value, What, bare, handle_of, shaped};
use naga_oil_ir::{
    Arena, Block, Expression, Index, LocalVariable, NamedExpressions, Operand, Override,
    PlaceRange, Span, Statement, Type, UniqueArena,
};
use std::alloc::{AllocError, Global};
use std::mem;
use yettuvam_wgsl_machine::symbol::Node;
use yettuvam_wgsl_scope::{Binding, Name, Reason, Refusal, refused};
use yettuvam_wgsl_types::{Shape, Types, no_types};
use yettuvam_wgsl_words::token;

/// A span of the intermediate form.
pub fn span_of(span: token::Span) -> Span
    ensures { result ≡ spec.span_of span }
{
    Span::new(span.start, span.end)
}

/// What stands in a function.
#[derive(Drop)]
pub struct Inside {
    pub locals: Arena<LocalVariable>,
    pub expressions: Arena<Expression>,
    pub named: NamedExpressions,
    pub body: Block,
}

#[derive(Drop)]
pub struct Body<'t> {
    pub alloc: Global,
    pub types: Types,
    pub overrides: Arena<Override>,

    /// The place of each item in the order of lowering, and what the items so far mean.
    ranks: Vec<usize>,
    items: Vec<Meaning>,

    /// What the declarations of the function mean.
    known: Vec<Meaning>,

    /// The name of what is being declared.
    pub declared: Name<'t>,
    pub locals: Arena<LocalVariable>,
    pub expressions: Arena<Expression>,

    /// The expressions of the module, while a function is read.
    globals: Arena<Expression>,
    pub named: NamedExpressions,

    /// Whether no function is read.
    pub is_global: bool,

    /// The first expression that isn't emitted.
    from: usize,
    pub values: Vec<Value<'t>>,
    pub calls: Vec<Call>,

    /// The number of things so far whose order matters, and that number at the start of each `&&` and `||` that is open.
    pub effects: usize,
    pub circuits: Vec<usize>,

    /// The selectors of the switches that are open, and their number at the start of each.
    pub arms: Vec<Arm>,
    pub switches: Vec<usize>,

    /// The statements of the innermost block, of those around it, and of blocks that stand in no statement yet.
    pub body: Statements,
    outer: Vec<Statements>,
    pub whole: Vec<Statements>,
}

/// Whether an expression may stand outside of functions.
fn may_be_global(expression: &Expression) -> bool
    ensures { result ≡ spec.may_be_global (parts expression.now) }
{
    matches!(
        expression,
        Expression::Literal { .. }
            | Expression::ZeroValue(_)
            | Expression::Constant(_)
            | Expression::Override(_)
            | Expression::Compose { .. }
            | Expression::Access { .. }
            | Expression::AccessIndex { .. }
            | Expression::Swizzle { .. }
            | Expression::Unary { .. }
            | Expression::Binary { .. }
            | Expression::Select { .. }
            | Expression::Relational { .. }
            | Expression::Math(_)
            | Expression::As { .. }
    )
}

fn pop_value<'t>(list: &mut Vec<Value<'t>>) -> Value<'t>
    ensures value { value_view result ≡ spec.last_value (values_view list.old.items) }
    ensures rest { values_view list.new.items ≡ front (values_view list.old.items) }
{
    list.pop().unwrap_or(bare(What::Absent))
}

fn after<'v, 't>(values: &'v [Value<'t>], count: usize) -> &'v [Value<'t>]
    ensures { result.now ≡ drop count values.now }
{
    if count <= values.len() {
        &values[count..]
    } else {
        &[]
    }
}

fn values_after<'t>(
    alloc: Global,
    values: &[Value<'t>],
    count: usize,
) -> Result<Vec<Value<'t>>, AllocError>
    ensures { IfOk result (λ v. v.items ≡ drop count values.now) }
{
    after(values, count)
        .iter()
        .map(|value| *value)
        .collect(alloc)
}

fn meaning_at(meanings: &[Meaning], place: usize) -> Option<Meaning>
    ensures { result ≡ slice_get meanings.now place }
{
    meanings.get(place).copied()
}

impl<'t> Body<'t> {
    /// Emits what isn't emitted.
    #[tactic(auto, unfolding(crate::specs::Body::flush))]
    pub fn flush(&mut self, at: token::Span) -> Result<(), Refusal>
        ensures { Reads (spec.flush at (state_of self.old)) result (state_of self.new) }
    {
        let end = self.expressions.len();
        if self.from == end {
            return Ok(());
        }
        let emitted = PlaceRange::new(self.from, end);
        self.body.push((Statement::Emit(emitted), span_of(at)))?;
        self.from = end;
        Ok(())
    }

    /// A statement, after what was computed before it.
    #[tactic(auto, unfolding(crate::specs::Body::state))]
    pub fn state(&mut self, statement: Statement, at: token::Span) -> Result<(), Refusal>
        ensures { Reads (spec.state (statement_tokens statement) at (state_of self.old))
            result (state_of self.new) }
    {
        if self.is_global {
            return Err(refused(Reason::NoConstant, at));
        }
        self.flush(at)?;
        self.body.push((statement, span_of(at)))?;
        Ok(())
    }

    fn is_misplaced(&self, expression: &Expression) -> bool
        ensures { result ≡ spec.is_misplaced (parts expression.now) (state_of self.now) }
    {
        self.is_global && !may_be_global(expression)
    }

    /// An expression that is emitted later.
    #[tactic(auto, unfolding(crate::specs::Body::compute))]
    pub fn compute(&mut self, expression: Expression, at: token::Span) -> Result<usize, Refusal>
        ensures { Reads (spec.compute (parts expression) at (state_of self.old))
            result (state_of self.new) }
    {
        if self.is_misplaced(&expression) {
            return Err(refused(Reason::NoConstant, at));
        }
        let place = self.expressions.append(expression, span_of(at))?;
        Ok(place.index())
    }

    /// An expression that is never emitted: what is before it is.
    #[tactic(auto, unfolding(crate::specs::Body::put))]
    pub fn put(&mut self, expression: Expression, at: token::Span) -> Result<usize, Refusal>
        ensures { Reads (spec.put (parts expression) at (state_of self.old))
            result (state_of self.new) }
    {
        self.flush(at)?;
        let place = self.compute(expression, at)?;
        self.from = self.expressions.len();
        Ok(place)
    }

    #[tactic(auto, unfolding(crate::specs::Body::give))]
    pub fn give(&mut self, value: Value<'t>) -> Result<(), Refusal>
        ensures { Reads (spec.give (value_view value.entry) (state_of self.old))
            result (state_of self.new) }
    {
        self.values.push(value)?;
        Ok(())
    }

    #[tactic(auto, unfolding(crate::specs::Body::take_value))]
    pub fn take_value(&mut self, node: Node<'t>) -> Result<Value<'t>, Refusal>
        ensures { ReadsAs value_view (spec.take_value (node_view node.entry) (state_of self.old))
            result (state_of self.new) }
    {
        if self.values.is_empty() {
            return Err(refused(Reason::Broken, node.span));
        }
        Ok(pop_value(&mut self.values))
    }

    /// The values after the first `count`, which are taken.
    #[tactic(auto, unfolding(crate::specs::Body::arguments), using(crate::proofs::Lists::take_of_map, crate::proofs::Lists::drop_of_map))]
    pub fn arguments(&mut self, count: usize) -> Result<Vec<Value<'t>>, Refusal>
        ensures { ReadsAs (λ v. values_view v.items) (spec.arguments count (state_of self.old))
            result (state_of self.new) }
    {
        let taken = values_after(self.alloc, self.values.as_slice(), count)?;
        self.values.truncate(count);
        Ok(taken)
    }

    #[tactic(auto, unfolding(crate::specs::Body::put_for))]
    fn put_for(
        &mut self,
        expression: Expression,
        value: Value<'t>,
        node: Node<'t>,
    ) -> Result<Value<'t>, Refusal>
        ensures { ReadsAs value_view (spec.put_for (parts expression) (value_view value.entry) (node_view node.entry)
            (state_of self.old)) result (state_of self.new) }
    {
        let place = self.put(expression, node.span)?;
        Ok(Value {
            what: What::Plain(place),
            ..value
        })
    }

    #[tactic(auto, unfolding(crate::specs::Body::load))]
    fn load(&mut self, pointer: usize, shape: Shape, node: Node<'t>) -> Result<Value<'t>, Refusal>
        ensures { ReadsAs value_view (spec.load pointer shape (node_view node.entry)
            (state_of self.old)) result (state_of self.new) }
    {
        let pointer = Index::new(pointer);
        let place = self.compute(Expression::Load { pointer }, node.span)?;
        Ok(shaped(What::Plain(place), shape))
    }

    /// The value as an expression: a place is read, a literal put.
    #[tactic(auto, unfolding(crate::specs::Body::settle))]
    pub fn settle(&mut self, value: Value<'t>, node: Node<'t>) -> Result<Value<'t>, Refusal>
        ensures { ReadsAs value_view (spec.settle (value_view value.entry) (node_view node.entry)
            (state_of self.old)) result (state_of self.new) }
    {
        match value.what {
            What::Place(pointer) => self.load(pointer, value.shape, node),
            What::Pointer(_) | What::Plain(_) => Ok(value),
            What::Literal(kind, bits) => {
                self.put_for(Expression::Literal { kind, bits }, value, node)
            }
            What::Constant(place) => {
                self.put_for(Expression::Constant(Index::new(place)), value, node)
            }
            What::Override(place) => {
                self.put_for(Expression::Override(Index::new(place)), value, node)
            }
            What::Word(name) => Err(refused(Reason::UnknownName, name.span)),
            _ => Err(refused(Reason::NoValue, node.span)),
        }
    }

    /// The last value, read.
    #[tactic(auto, unfolding(crate::specs::Body::settled))]
    pub fn settled(&mut self, node: Node<'t>) -> Result<Value<'t>, Refusal>
        ensures { ReadsAs value_view (spec.settled (node_view node.entry) (state_of self.old))
            result (state_of self.new) }
    {
        let value = self.take_value(node)?;
        self.settle(value, node)
    }

    /// The expression of the last value, read.
    #[tactic(auto, unfolding(crate::specs::Body::operand))]
    pub fn operand(&mut self, node: Node<'t>) -> Result<Operand, Refusal>
        ensures { Reads (spec.operand (node_view node.entry) (state_of self.old))
            result (state_of self.new) }
    {
        let value = self.settled(node)?;
        Ok(handle_of(value))
    }

    /// Reads the last value where it stands.
    #[tactic(auto, unfolding(crate::specs::Body::left))]
    pub fn left(&mut self, node: Node<'t>) -> Result<(), Refusal>
        ensures { Reads (spec.left (node_view node.entry) (state_of self.old))
            result (state_of self.new) }
    {
        let value = self.settled(node)?;
        self.give(value)
    }

    fn meaning(&mut self, meaning: Meaning, node: Node<'t>) -> Result<(), Refusal>
        ensures { Reads (spec.meaning meaning (node_view node.entry) (state_of self.old))
            result (state_of self.new) }
    {
        match meaning {
            Meaning::Value(place, shape, number) => self.give(Value {
                what: What::Plain(place),
                shape,
                number,
            }),
            Meaning::Pointer(place, shape) => self.give(shaped(What::Pointer(place), shape)),
            Meaning::Variable(local, shape) => self.put_place(
                Expression::LocalVariable(Index::new(local)),
                shape,
                node,
            ),
            Meaning::Argument(number, shape) => {
                self.put_plain(Expression::FunctionArgument(number), shape, node)
            }
            Meaning::PointerArgument(number, shape) => {
                self.put_pointer(Expression::FunctionArgument(number), shape, node)
            }
            Meaning::Constant(constant, shape, number) => self.give(Value {
                what: What::Constant(constant),
                shape,
                number,
            }),
            Meaning::Override(place) => self.give(bare(What::Override(place))),
            Meaning::Global(global, shape) => self.put_place(
                Expression::GlobalVariable(Index::new(global)),
                shape,
                node,
            ),
            Meaning::Handle(global, shape) => self.put_plain(
                Expression::GlobalVariable(Index::new(global)),
                shape,
                node,
            ),
            Meaning::Function(function, returns) => {
                self.give(bare(What::Callee(function, returns)))
            }
            Meaning::Entry => Err(refused(Reason::NoFunction, node.span)),
            Meaning::Type(place) => self.give(bare(What::Type(place))),
        }
    }

    #[tactic(auto, unfolding(crate::specs::Body::put_place))]
    fn put_place(
        &mut self,
        expression: Expression,
        shape: Shape,
        node: Node<'t>,
    ) -> Result<(), Refusal>
        ensures { Reads (spec.put_place (parts expression) shape (node_view node.entry)
            (state_of self.old)) result (state_of self.new) }
    {
        let place = self.put(expression, node.span)?;
        self.give(shaped(What::Place(place), shape))
    }

    #[tactic(auto, unfolding(crate::specs::Body::put_plain))]
    fn put_plain(
        &mut self,
        expression: Expression,
        shape: Shape,
        node: Node<'t>,
    ) -> Result<(), Refusal>
        ensures { Reads (spec.put_plain (parts expression) shape (node_view node.entry)
            (state_of self.old)) result (state_of self.new) }
    {
        let place = self.put(expression, node.span)?;
        self.give(shaped(What::Plain(place), shape))
    }

    #[tactic(auto, unfolding(crate::specs::Body::put_pointer))]
    fn put_pointer(
        &mut self,
        expression: Expression,
        shape: Shape,
        node: Node<'t>,
    ) -> Result<(), Refusal>
        ensures { Reads (spec.put_pointer (parts expression) shape (node_view node.entry)
            (state_of self.old)) result (state_of self.new) }
    {
        let place = self.put(expression, node.span)?;
        self.give(shaped(What::Pointer(place), shape))
    }

    fn item_meaning(&self, item: usize) -> Option<Meaning>
        ensures { result ≡ spec.item_meaning item (state_of self.now) }
    {
        let rank = self.ranks.get(item).copied()?;
        meaning_at(self.items.as_slice(), rank)
    }

    fn declared_meaning(&self, binding: Binding) -> Option<Meaning>
        ensures { result ≡ spec.declared_meaning binding (state_of self.now) }
    {
        match binding {
            Binding::Item(item) => self.item_meaning(item),
            Binding::Local(number) => meaning_at(self.known.as_slice(), number),
            _ => None,
        }
    }

    /// A name, by what it means.
    #[tactic(auto, unfolding(crate::specs::Body::name))]
    pub fn name(&mut self, node: Node<'t>, binding: Binding) -> Result<(), Refusal>
        ensures { Reads (spec.name (node_view node.entry) binding (state_of self.old))
            result (state_of self.new) }
    {
        if let Binding::Word = binding {
            let Node { text, span, .. } = node;
            return self.give(bare(What::Word(Name { text, span })));
        }
        match self.declared_meaning(binding) {
            Some(meaning) => self.meaning(meaning, node),
            None => Err(refused(Reason::Broken, node.span)),
        }
    }

    pub fn declare(&mut self, node: Node<'t>)
        ensures { state_of self.new ≡ spec.declare (node_view node.entry) (state_of self.old) }
    {
        let Node { text, span, .. } = node;
        self.declared = Name { text, span };
    }

    /// What the next declaration of the function means.
    #[tactic(auto, unfolding(crate::specs::Body::know))]
    pub fn know(&mut self, meaning: Meaning) -> Result<(), Refusal>
        ensures { Reads (spec.know meaning (state_of self.old)) result (state_of self.new) }
    {
        self.known.push(meaning)?;
        Ok(())
    }

    /// What the next item means.
    #[tactic(auto, unfolding(crate::specs::Body::know_item))]
    pub fn know_item(&mut self, meaning: Meaning) -> Result<(), Refusal>
        ensures { Reads (spec.know_item meaning (state_of self.old)) result (state_of self.new) }
    {
        self.items.push(meaning)?;
        Ok(())
    }

    /// The name of what is declared.
    pub fn declared_name(&self) -> Result<String, AllocError>
        ensures { IfOk result (λ name. string_bytes name ≡ spec.declared_name (state_of self.now)) }
    {
        String::from_utf8_lossy(self.alloc, self.declared.text)
    }

    /// Names an expression.
    #[tactic(auto, unfolding(crate::specs::Body::name_expression))]
    pub fn name_expression(&mut self, place: usize) -> Result<(), Refusal>
        ensures { Reads (spec.name_expression place (state_of self.old))
            result (state_of self.new) }
    {
        let name = self.declared_name()?;
        self.named.insert(self.alloc, Index::new(place), name)?;
        Ok(())
    }

    /// A block begins.
    #[tactic(auto, unfolding(crate::specs::Body::open_))]
    pub fn open(&mut self, node: Node<'t>) -> Result<(), Refusal>
        ensures { Reads (spec.open_ (node_view node.entry) (state_of self.old))
            result (state_of self.new) }
    {
        self.flush(node.span)?;
        let body = mem::replace(&mut self.body, Vec::new(self.alloc));
        self.outer.push(body)?;
        Ok(())
    }

    /// A block ends. Its statements stand in no statement yet.
    #[tactic(auto, unfolding(crate::specs::Body::close))]
    pub fn close(&mut self, node: Node<'t>) -> Result<(), Refusal>
        ensures { Reads (spec.close (node_view node.entry) (state_of self.old))
            result (state_of self.new) }
    {
        self.flush(node.span)?;
        let outer = pop_list(self.alloc, &mut self.outer);
        let body = mem::replace(&mut self.body, outer);
        self.whole.push(body)?;
        Ok(())
    }

    /// The last block that stands in no statement, which is taken.
    pub fn block(&mut self) -> Block
        ensures value { block_tokens result ≡ spec.block (state_of self.old) }
        ensures rest { state_of self.new ≡ spec.without_block (state_of self.old) }
    {
        block_of(pop_list(self.alloc, &mut self.whole))
    }

    /// The statements of the innermost block follow those of the block around it.
    #[tactic(auto, unfolding(crate::specs::Body::unfold_))]
    pub fn unfold(&mut self, node: Node<'t>) -> Result<(), Refusal>
        ensures { Reads (spec.unfold_ (node_view node.entry) (state_of self.old))
            result (state_of self.new) }
    {
        self.flush(node.span)?;
        let mut outer = pop_list(self.alloc, &mut self.outer);
        outer.append(&mut self.body)?;
        self.body = outer;
        Ok(())
    }

    /// A function begins.
    pub fn enter(&mut self)
        ensures { state_of self.new ≡ spec.enter (state_of self.old) }
    {
        self.globals = mem::replace(&mut self.expressions, Arena::new(self.alloc));
        self.from = 0;
        self.is_global = false;
    }

    /// What is computed outside of functions is emitted nowhere.
    pub fn settle_global(&mut self)
        ensures { state_of self.new ≡ spec.settle_global (state_of self.old) }
    {
        self.from = self.expressions.len();
        self.body = Vec::new(self.alloc);
        self.values = Vec::new(self.alloc);
    }

    /// The types so far, which are taken.
    pub fn take_types(&mut self) -> UniqueArena<Type>
        ensures value { spec.type_rows result ≡ (state_of self.old).types.types }
        ensures rest { state_of self.new ≡ spec.without_types (state_of self.old) }
    {
        mem::replace(&mut self.types.types, UniqueArena::new(self.alloc))
    }

    /// The overrides so far, which are taken.
    pub fn take_overrides(&mut self) -> Arena<Override>
        ensures value { spec.override_rows result ≡ (state_of self.old).overrides }
        ensures rest { state_of self.new ≡ spec.without_overrides (state_of self.old) }
    {
        mem::replace(&mut self.overrides, Arena::new(self.alloc))
    }

    /// The expressions so far, which are taken.
    pub fn take_expressions(&mut self) -> Arena<Expression>
        ensures value { expression_values result ≡ (state_of self.old).expressions }
        ensures rest { state_of self.new ≡ spec.without_expressions (state_of self.old) }
    {
        mem::replace(&mut self.expressions, Arena::new(self.alloc))
    }

    /// What stands in a function that ends.
    pub fn leave(&mut self) -> Inside
        ensures value { spec.inside_view result ≡ spec.inside (state_of self.old) }
        ensures rest { state_of self.new ≡ spec.leave (state_of self.old) }
    {
        let body = self.block();
        let globals = mem::replace(&mut self.globals, Arena::new(self.alloc));
        let inside = Inside {
            locals: mem::replace(&mut self.locals, Arena::new(self.alloc)),
            expressions: mem::replace(&mut self.expressions, globals),
            named: mem::replace(&mut self.named, NamedExpressions::new()),
            body,
        };
        self.known = Vec::new(self.alloc);
        self.is_global = true;
        self.settle_global();
        inside
    }
}

/// The state before the first item; `ranks` has the place of each item in the order of lowering.
pub fn begin<'t>(alloc: Global, ranks: Vec<usize>) -> Body<'t>
    ensures { state_of result ≡ spec.begin ranks.items }
{
    Body {
        alloc,
        types: no_types(alloc),
        overrides: Arena::new(alloc),
        ranks,
        items: Vec::new(alloc),
        known: Vec::new(alloc),
        declared: Name {
            text: &[],
            span: token::Span { start: 0, end: 0 },
        },
        locals: Arena::new(alloc),
        expressions: Arena::new(alloc),
        globals: Arena::new(alloc),
        named: NamedExpressions::new(),
        is_global: true,
        from: 0,
        values: Vec::new(alloc),
        calls: Vec::new(alloc),
        effects: 0,
        circuits: Vec::new(alloc),
        arms: Vec::new(alloc),
        switches: Vec::new(alloc),
        body: Vec::new(alloc),
        outer: Vec::new(alloc),
        whole: Vec::new(alloc),
    }
}
