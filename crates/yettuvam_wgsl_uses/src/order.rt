// What must be evaluated before the statement that uses it.
ghost use Rattle.std.specs.Prelude.{◌≡◌, [], IfOk, OnOk};
ghost use Rattle.std.specs.List.{list_any};
ghost use Rattle.yettuvam_wgsl_lines.specs.Line.{line_value, lines_value};
ghost use Rattle.yettuvam_wgsl_uses.specs.Order as spec;
ghost use Rattle.yettuvam_wgsl_uses.specs.Order.{state_of};

use crate::facts::{Fact, fact_at, is_declared, is_repeated, is_short_line, is_unwritten};
use crate::marks::mark;
use naga_oil_ir::Operand;
use std::alloc::{AllocError, Global};
use yettuvam_wgsl_counts::times::is_once;
use yettuvam_wgsl_lines::{Line, is_emitted};

/// An expression that is part of the text of a later line, and whose time of evaluation matters.
#[derive(Clone, Copy, PartialEq, Eq, Debug)]
struct Pending {
    place: usize,
    /// Whether it must be evaluated even if its value isn't needed.
    is_firm: bool,
}

#[derive(Drop)]
struct Order {
    /// What is pending, in the order of the lines.
    pending: Vec<Pending>,
    /// What must be evaluated before the statement that uses it.
    early: Vec<bool>,
    /// Whether the line has a pending expression in its text.
    has_taken: bool,
    /// Whether one that it has must be evaluated.
    is_firm: bool,
}

fn is_last(pending: &[Pending], place: usize) -> bool
    ensures { result ≡ spec.is_last pending.now place }
{
    match pending.last() {
        Some(last) => last.place == place,
        None => false,
    }
}

fn is_firm_last(pending: &[Pending], place: usize) -> bool
    ensures { result ≡ spec.is_firm_last pending.now place }
{
    match pending.last() {
        Some(last) => last.place == place && last.is_firm,
        None => false,
    }
}

fn is_pending(pending: &[Pending], place: usize) -> bool
    ensures { result ≡ list_any (λ p. spec.has_place p place) pending.now }
{
    pending.iter().any(|p| p.place == place)
}

// Whether a line may leave something unevaluated that must be evaluated.
fn skips(facts: &[Fact], pending: &[Pending], line: &Line) -> bool
    ensures { result ≡ spec.skips facts.now pending.now (line_value line.now) }
{
    match line.operands.last() {
        Some(right) => is_short_line(facts, line) && is_firm_last(pending, right.index()),
        None => false,
    }
}

// Whether nothing before a line may be part of its text.
fn begins(facts: &[Fact], pending: &[Pending], line: &Line) -> bool
    ensures { result ≡ spec.begins facts.now pending.now (line_value line.now) }
{
    !line.follows || is_repeated(facts, line) || skips(facts, pending, line)
}

fn mark_pending(early: &mut [bool], pending: &[Pending])
    ensures { early.new ≡ spec.mark_pending pending.now early.old }
{
    let mut rest = pending;
    while let [first, more @ ..] = rest {
        mark(early, first.place);
        rest = more;
    }
}

fn pop_firm(pending: &mut Vec<Pending>) -> bool
    ensures last { result ≡ spec.last_is_firm pending.old.items }
    ensures rest { pending.new.items ≡ spec.front pending.old.items }
{
    pending
        .pop()
        .unwrap_or(Pending {
            place: 0,
            is_firm: false,
        })
        .is_firm
}

impl Order {
    // All that is pending is evaluated before the next statement.
    #[tactic(auto, unfolding(crate::specs::Order::settle))]
    fn settle(&mut self)
        ensures { state_of self.new ≡ spec.settle (state_of self.old) }
    {
        mark_pending(&mut self.early, &self.pending);
        self.pending.clear();
    }

    // The last pending expression is part of the line.
    #[tactic(auto, unfolding(crate::specs::Order::pop))]
    fn pop(&mut self)
        ensures { state_of self.new ≡ spec.pop (state_of self.old) }
    {
        let is_firm = pop_firm(&mut self.pending);
        self.has_taken = true;
        self.is_firm = self.is_firm || is_firm;
    }

    // An operand of the line, where those after it have been read.
    #[tactic(auto, unfolding(crate::specs::Order::take_operand))]
    fn take_operand(&mut self, operand: Operand)
        ensures { state_of self.new ≡ spec.take_operand operand (state_of self.old) }
    {
        if is_last(&self.pending, operand.index()) {
            self.pop();
        } else if is_pending(&self.pending, operand.index()) {
            self.settle();
        }
    }

    #[tactic(auto, using(crate::proofs::Backward::take_last))]
    fn take_operands(&mut self, operands: &[Operand])
        ensures { state_of self.new ≡ spec.take_operands operands.now (state_of self.old) }
    {
        let mut rest = operands;
        while let Some((operand, more)) = rest.split_last() {
            self.take_operand(*operand);
            rest = more;
        }
    }

    #[tactic(auto, unfolding(crate::specs::Order::begin))]
    fn begin(&mut self, facts: &[Fact], line: &Line)
        ensures { state_of self.new ≡
            spec.begin facts.now (line_value line.now) (state_of self.old) }
    {
        if begins(facts, &self.pending, line) {
            self.settle();
        }
        self.has_taken = false;
        self.is_firm = false;
    }

    #[tactic(auto, unfolding(crate::specs::Order::push))]
    fn push(&mut self, place: usize, is_firm: bool) -> Result<(), AllocError>
        ensures { OnOk result (state_of self.new ≡ spec.push place is_firm (state_of self.old)) }
    {
        self.pending.push(Pending { place, is_firm })?;
        Ok(())
    }

    #[tactic(auto, unfolding(crate::specs::Order::end_emitted))]
    fn end_emitted(&mut self, facts: &[Fact], line: &Line, made: Operand) -> Result<(), AllocError>
        ensures { OnOk result (state_of self.new ≡
            spec.end_emitted facts.now (line_value line.now) made (state_of self.old)) }
    {
        let fact = fact_at(facts, made);
        if is_declared(facts, line, made) {
            self.settle();
            return Ok(());
        }
        if !self.has_taken && !fact.nature.is_timed {
            return Ok(());
        }
        self.push(made.index(), self.is_firm || fact.is_firm)
    }

    #[tactic(auto, unfolding(crate::specs::Order::end_result))]
    fn end_result(&mut self, facts: &[Fact], line: &Line, made: Operand) -> Result<(), AllocError>
        ensures { OnOk result (state_of self.new ≡
            spec.end_result facts.now (line_value line.now) made (state_of self.old)) }
    {
        if line.is_named || !is_once(fact_at(facts, made).times) {
            self.settle();
            return Ok(());
        }
        self.push(made.index(), true)
    }

    #[tactic(auto, unfolding(crate::specs::Order::end))]
    fn end(&mut self, facts: &[Fact], line: &Line) -> Result<(), AllocError>
        ensures { OnOk result (state_of self.new ≡
            spec.end facts.now (line_value line.now) (state_of self.old)) }
    {
        match line.made {
            Some(made) => {
                if is_emitted(line) {
                    self.end_emitted(facts, line, made)
                } else {
                    self.end_result(facts, line, made)
                }
            }
            None => {
                self.settle();
                Ok(())
            }
        }
    }

    #[tactic(auto, unfolding(crate::specs::Order::step))]
    fn step(&mut self, facts: &[Fact], line: &Line) -> Result<(), AllocError>
        ensures { OnOk result (state_of self.new ≡
            spec.step facts.now (line_value line.now) (state_of self.old)) }
    {
        self.begin(facts, line);
        if is_unwritten(facts, line) {
            return Ok(());
        }
        self.take_operands(&line.operands);
        self.end(facts, line)
    }

    #[tactic(auto, unfolding(crate::specs::Order::run))]
    fn run(&mut self, facts: &[Fact], lines: &[Line]) -> Result<(), AllocError>
        ensures { OnOk result (state_of self.new ≡
            spec.run facts.now (lines_value lines.now) (state_of self.old)) }
    {
        let mut rest = lines;
        while let [line, more @ ..] = rest {
            self.step(facts, line)?;
            rest = more;
        }
        Ok(())
    }
}

fn started(alloc: Global, count: usize) -> Result<Order, AllocError>
    ensures { IfOk result (λ o. state_of o ≡ spec.started count) }
{
    Ok(Order {
        pending: Vec::new(alloc),
        early: vec![in alloc; false; count]?,
        has_taken: false,
        is_firm: false,
    })
}

/// Returns which expressions must be evaluated before the statement that uses them.
///
/// # Errors
/// If out of memory.
#[tactic(auto, unfolding(crate::specs::Order::early_of))]
pub fn early_of(alloc: Global, facts: &[Fact], lines: &[Line]) -> Result<Vec<bool>, AllocError>
    ensures { IfOk result (λ v. v.items ≡ spec.early_of facts.now (lines_value lines.now)) }
{
    let mut order = started(alloc, facts.len())?;
    order.run(facts, lines)?;
    order.settle();
    Ok(order.early)
}
