//! An order of items in which each stands after those that it names.

ghost use Rattle.std.specs.Prelude.{◌≡◌, IfOk, map};
ghost use Rattle.yettuvam_wgsl_scope.specs.Order as spec;
ghost use Rattle.yettuvam_wgsl_scope.specs.Order.{state_of};
ghost use Rattle.yettuvam_wgsl_scope.specs.Refused.{Reads, Gives};

use crate::refusal::{Reason, Refusal, refused_after};
use std::alloc::{AllocError, Global};
use yettuvam_wgsl_words::token::Span;

/// How far an item is sorted.
#[derive(Clone, Copy)]
pub enum Mark {
    New,
    /// The items that it names are being sorted.
    Open,
    /// Its place in the order.
    Done(usize),
}

/// An item that is being sorted, and the items that it names of which none is sorted yet.
#[derive(Clone, Copy)]
pub struct Visit<'a> {
    item: usize,
    uses: &'a [usize],
}

#[derive(Drop)]
pub struct Sorter<'a> {
    /// The span of the name of each item, and the items that it names.
    spans: &'a [Span],
    uses: &'a [Vec<usize>],
    marks: Vec<Mark>,
    stack: Vec<Visit<'a>>,
    order: Vec<usize>,
}

fn mark_at(marks: &[Mark], item: usize) -> Mark
    ensures { result ≡ spec.mark_at marks.now item }
{
    marks.get(item).copied().unwrap_or(Mark::Open)
}

fn span_at(spans: &[Span], item: usize) -> Span
    ensures { result ≡ spec.span_at spans.now item }
{
    spans
        .get(item)
        .copied()
        .unwrap_or(Span { start: 0, end: 0 })
}

fn uses_at<'a>(uses: &'a [Vec<usize>], item: usize) -> &'a [usize]
    ensures { result.now ≡ spec.uses_at (spec.uses_view uses.now) item }
{
    match uses.get(item) {
        Some(uses) => uses.as_slice(),
        None => &[],
    }
}

fn set_mark(marks: &mut Vec<Mark>, item: usize, mark: Mark)
    ensures { marks.new.items ≡ spec.set_mark marks.old.items item mark }
{
    if item < marks.len() {
        marks[item] = mark;
    }
}

impl<'a> Sorter<'a> {
    #[tactic(auto, unfolding(crate::specs::Order::push))]
    fn push(&mut self, item: usize, uses: &'a [usize]) -> Result<(), Refusal>
        ensures { Reads (spec.push item uses.now (state_of self.old)) result (state_of self.new) }
    {
        self.stack.push(Visit { item, uses })?;
        Ok(())
    }

    #[tactic(auto, unfolding(crate::specs::Order::enter))]
    fn enter(&mut self, item: usize) -> Result<(), Refusal>
        ensures { Reads (spec.enter item (state_of self.old)) result (state_of self.new) }
    {
        set_mark(&mut self.marks, item, Mark::Open);
        self.push(item, uses_at(self.uses, item))
    }

    /// Sorts an item that another one names.
    #[tactic(auto, unfolding(crate::specs::Order::used))]
    fn used(&mut self, item: usize, by: usize) -> Result<(), Refusal>
        ensures { Reads (spec.used item by (state_of self.old)) result (state_of self.new) }
    {
        match mark_at(self.marks.as_slice(), item) {
            Mark::New => self.enter(item),
            Mark::Done(_) => Ok(()),
            Mark::Open => Err(refused_after(
                Reason::Cycle,
                span_at(self.spans, by),
                span_at(self.spans, item),
            )),
        }
    }

    #[tactic(auto, unfolding(crate::specs::Order::finish))]
    fn finish(&mut self, item: usize) -> Result<(), Refusal>
        ensures { Reads (spec.finish item (state_of self.old)) result (state_of self.new) }
    {
        set_mark(&mut self.marks, item, Mark::Done(self.order.len()));
        self.order.push(item)?;
        Ok(())
    }

    #[tactic(auto, unfolding(crate::specs::Order::visit))]
    fn visit(&mut self, item: usize, uses: &'a [usize]) -> Result<(), Refusal>
        ensures { Reads (spec.visit item uses.now (state_of self.old)) result (state_of self.new) }
    {
        let [used, more @ ..] = uses else {
            return self.finish(item);
        };
        self.push(item, more)?;
        self.used(*used, item)
    }

    /// One step, and whether there was anything to do.
    #[tactic(auto, unfolding(crate::specs::Order::step))]
    fn step(&mut self) -> Result<bool, Refusal>
        ensures { Reads (spec.step (state_of self.old)) result (state_of self.new) }
    {
        match self.stack.pop() {
            None => Ok(false),
            Some(visit) => {
                self.visit(visit.item, visit.uses)?;
                Ok(true)
            }
        }
    }

    /// Sorts the items of the stack.
    fn finish_all(&mut self, turns: usize) -> Result<(), Refusal>
        ensures { Reads (spec.finish_all turns (state_of self.old)) result (state_of self.new) }
    {
        for _turn in 0..turns {
            if !self.step()? {
                return Ok(());
            }
        }
        Ok(())
    }

    #[tactic(auto, unfolding(crate::specs::Order::root))]
    fn root(&mut self, item: usize, turns: usize) -> Result<(), Refusal>
        ensures { Reads (spec.root turns item (state_of self.old)) result (state_of self.new) }
    {
        match mark_at(self.marks.as_slice(), item) {
            Mark::New => {
                self.enter(item)?;
                self.finish_all(turns)
            }
            _ => Ok(()),
        }
    }

    /// Sorts the first items of a count.
    fn run(&mut self, count: usize, turns: usize) -> Result<(), Refusal>
        ensures { Reads (spec.run_from turns count 0 (state_of self.old)) result (state_of self.new) }
    {
        for item in 0..count {
            self.root(item, turns)?;
        }
        Ok(())
    }
}

/// Sorted items: their places in the order of the text, one after the other, and the place of each in that order.
#[derive(Drop)]
pub struct Order {
    pub order: Vec<usize>,
    pub ranks: Vec<usize>,
}

fn rank_of(mark: Mark) -> usize
    ensures { result ≡ spec.rank_of mark }
{
    match mark {
        Mark::Done(place) => place,
        Mark::New | Mark::Open => 0,
    }
}

fn new_marks(alloc: Global, spans: &[Span]) -> Result<Vec<Mark>, AllocError>
    ensures { IfOk result (λ v. v.items ≡ spec.new_marks spans.now) }
{
    spans.iter().map(|_span| Mark::New).collect(alloc)
}

fn ranks_of(alloc: Global, marks: &[Mark]) -> Result<Vec<usize>, AllocError>
    ensures { IfOk result (λ v. v.items ≡ map spec.rank_of marks.now) }
{
    marks.iter().map(|mark| rank_of(*mark)).collect(alloc)
}

fn start<'a>(
    alloc: Global,
    spans: &'a [Span],
    uses: &'a [Vec<usize>],
    marks: Vec<Mark>,
) -> Sorter<'a>
    ensures { state_of result ≡ spec.start_of spans.now (spec.uses_view uses.now) marks.items }
{
    Sorter {
        spans,
        uses,
        marks,
        stack: Vec::new(alloc),
        order: Vec::new(alloc),
    }
}

/// Sorts items, each after those that it names. `spans` has the spans of their names, `uses` what they name, and `turns` is at
/// least the number of items and uses, and one.
///
/// # Errors
/// `Cycle` if an item reaches itself.
pub fn sorted<'a>(
    alloc: Global,
    spans: &'a [Span],
    uses: &'a [Vec<usize>],
    turns: usize,
) -> Result<Order, Refusal>
    ensures { Gives (λ o. (o.order.items, o.ranks.items)) result (spec.sorted spans.now (spec.uses_view uses.now) turns) }
{
    let marks = new_marks(alloc, spans)?;
    let mut sorter = start(alloc, spans, uses, marks);
    sorter.run(spans.len(), turns)?;
    let ranks = ranks_of(alloc, sorter.marks.as_slice())?;
    Ok(Order {
        order: sorter.order,
        ranks,
    })
}
