// An order of items in which each stands after those that it uses.
ghost use Rattle.std.specs.Prelude.{◌≡◌, IfOk, OnOk};
ghost use Rattle.std.specs.List.{list_all};
ghost use Rattle.yettuvam_files.specs.Rounds as spec;
ghost use Rattle.yettuvam_files.specs.Rounds.{Sorts, state_of, uses_view};

use std::alloc::{AllocError, Global};

/// Why items have no order.
#[derive(Drop)]
pub enum Unordered {
    /// Items of which each uses the next, and the last uses the first.
    Cycle(Vec<usize>),
    Memory,
}

impl From<AllocError> for Unordered {
    ghost use Rattle.std.specs.Prelude.{◌≡◌};
    ghost use Rattle.yettuvam_files.specs.declared.rounds.Unordered.TheVariants.{Memory};

    ghost from_gives = { λ _ refusal. refusal ≡ Memory };

    fn from(_: AllocError) -> Self {
        Unordered::Memory
    }
}

/// The items that have their places so far: a mark for each item, and the order.
#[derive(Drop)]
struct Placed {
    marks: Vec<bool>,
    order: Vec<usize>,
}

// Whether an item has its place; what doesn't exist has.
fn is_placed(marks: &[bool], item: usize) -> bool
    ensures { result ≡ spec.is_placed marks.now item }
{
    match marks.get(item) {
        Some(mark) => *mark,
        None => true,
    }
}

fn are_placed(marks: &[bool], items: &[usize]) -> bool
    ensures { result ≡ list_all (spec.is_placed marks.now) items.now }
{
    items.iter().all(|item| is_placed(marks, *item))
}

// Whether an item has no place yet, and all that it uses have one.
fn is_ready(marks: &[bool], uses: &[usize], item: usize) -> bool
    ensures { result ≡ spec.is_ready marks.now uses.now item }
{
    !is_placed(marks, item) && are_placed(marks, uses)
}

fn set_mark(marks: &mut [bool], item: usize)
    ensures { marks.new ≡ spec.with_mark marks.old item }
{
    if item >= marks.len() {
        return;
    }
    marks[item] = true;
}

impl Placed {
    // Places an item that is ready.
    #[tactic(auto, unfolding(crate::specs::Rounds::place))]
    fn place(&mut self, uses: &[usize], item: usize) -> Result<(), AllocError>
        ensures { OnOk result (state_of self.new ≡ spec.place uses.now item (state_of self.old)) }
    {
        if is_ready(&self.marks, uses, item) {
            set_mark(&mut self.marks, item);
            self.order.push(item)?;
        }
        Ok(())
    }

    // Places each item of a count that is ready, one after the other.
    #[tactic(auto, unfolding(crate::specs::Rounds::round))]
    fn round(&mut self, count: usize, uses: &[Vec<usize>]) -> Result<(), AllocError>
        ensures { OnOk result (state_of self.new ≡
            spec.round count (uses_view uses.now) (state_of self.old)) }
    {
        let mut rest = uses;
        while let [used, more @ ..] = rest {
            self.place(used.as_slice(), count.saturating_sub(rest.len()))?;
            rest = more;
        }
        Ok(())
    }

    // As many rounds as there are turns, fewer if all of a count are placed.
    #[tactic(auto, unfolding(crate::specs::Rounds::rounds))]
    fn rounds(&mut self, uses: &[Vec<usize>], turns: &[Vec<usize>]) -> Result<(), AllocError>
        ensures { OnOk result (state_of self.new ≡
            spec.rounds (uses_view uses.now) (uses_view turns.now) (state_of self.old)) }
    {
        let mut rest = turns;
        while let [_, more @ ..] = rest {
            if self.order.len() == uses.len() {
                return Ok(());
            }
            self.round(uses.len(), uses)?;
            rest = more;
        }
        Ok(())
    }
}

// The first item without a place among some, or another.
fn first_unplaced(marks: &[bool], items: &[usize], other: usize) -> usize
    ensures { result ≡ spec.first_unplaced marks.now items.now other }
{
    let mut rest = items;
    while let [item, more @ ..] = rest {
        if !is_placed(marks, *item) {
            return *item;
        }
        rest = more;
    }
    other
}

// The first item without a place that an item uses.
fn next_unplaced(marks: &[bool], uses: &[Vec<usize>], item: usize) -> usize
    ensures { result ≡ spec.next_unplaced marks.now (uses_view uses.now) item }
{
    match uses.get(item) {
        Some(used) => first_unplaced(marks, used.as_slice(), item),
        None => item,
    }
}

// The item that is reached after as many steps as there are turns.
fn reached(marks: &[bool], uses: &[Vec<usize>], turns: &[Vec<usize>], item: usize) -> usize
    ensures { result ≡ spec.reached marks.now (uses_view uses.now) (uses_view turns.now) item }
{
    let mut at = item;
    let mut rest = turns;
    while let [_, more @ ..] = rest {
        at = next_unplaced(marks, uses, at);
        rest = more;
    }
    at
}

// The items from one on, up to the one before an item.
fn push_members(
    out: &mut Vec<usize>,
    marks: &[bool],
    uses: &[Vec<usize>],
    item: usize,
    end: usize,
) -> Result<(), AllocError>
    ensures { OnOk result (out.new.items ≡
        spec.members marks.now (uses_view uses.now) (uses_view uses.now) item end out.old.items) }
{
    let mut at = item;
    let mut rest = uses;
    while let [_, more @ ..] = rest {
        if at == end {
            return Ok(());
        }
        out.push(at)?;
        at = next_unplaced(marks, uses, at);
        rest = more;
    }
    Ok(())
}

// The members of a cycle, from an item of it on.
fn cycle_from(
    alloc: Global,
    marks: &[bool],
    uses: &[Vec<usize>],
    item: usize,
) -> Result<Vec<usize>, AllocError>
    ensures { IfOk result (λ v. v.items ≡ spec.cycle_from marks.now (uses_view uses.now) item) }
{
    let mut members = Vec::new(alloc);
    members.push(item)?;
    push_members(
        &mut members,
        marks,
        uses,
        next_unplaced(marks, uses, item),
        item,
    )?;
    Ok(members)
}

fn no_marks(alloc: Global, uses: &[Vec<usize>]) -> Result<Vec<bool>, AllocError>
    ensures { IfOk result (λ v. v.items ≡ spec.no_marks (uses_view uses.now)) }
{
    let mut marks = Vec::new(alloc);
    let mut rest = uses;
    while let [_, more @ ..] = rest {
        marks.push(false)?;
        rest = more;
    }
    Ok(marks)
}

// The place of the first mark that isn't set.
fn first_open(marks: &[bool]) -> Option<usize>
    ensures { result ≡ spec.first_open marks.now }
{
    marks.iter().position(|mark| !*mark)
}

// The order, if all have their places, or else a cycle.
fn order_or_cycle(
    alloc: Global,
    placed: Placed,
    uses: &[Vec<usize>],
) -> Result<Vec<usize>, Unordered>
    ensures { Sorts result (spec.order_or_cycle (uses_view uses.now) (state_of placed)) }
{
    let Some(open) = first_open(&placed.marks) else {
        return Ok(placed.order);
    };
    let item = reached(&placed.marks, uses, uses, open);
    Err(Unordered::Cycle(cycle_from(alloc, &placed.marks, uses, item)?))
}

/// Returns the places of items in an order in which each stands after those that it uses, which `uses` has for each; an item
/// that doesn't exist is no hindrance. Items that may stand anywhere keep their order. Takes one pass where the items are in
/// such an order already, and at most as many as there are items.
///
/// # Errors
/// `Cycle` if an item reaches itself. `Memory` if out of memory.
pub fn ordered(alloc: Global, uses: &[Vec<usize>]) -> Result<Vec<usize>, Unordered>
    ensures { Sorts result (spec.ordered (uses_view uses.now)) }
{
    let marks = no_marks(alloc, uses)?;
    let mut placed = Placed {
        marks,
        order: Vec::new(alloc),
    };
    placed.rounds(uses, uses)?;
    order_or_cycle(alloc, placed, uses)
}
