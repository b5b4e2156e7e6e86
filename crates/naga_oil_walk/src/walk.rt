//! The lists that a walk over a function fills.
ghost use Rattle.std.specs.Prelude.{◌≡◌, ◌<◌, ◌∷◌, ℕ, [], length, OnOk, IfOk, None, replicate};
ghost use Rattle.naga_oil_form.specs.Links.{added, has, AreMarks};
ghost use Rattle.naga_oil_walk.specs.Walk.{noted};

use super::*;

/// An item that a function names, or a function that it calls.
#[derive(Clone, Copy)]
pub enum Request {
    Item(ItemPlace),
    /// A called function.
    Call(Handle<Function>),
}

/// Where an emitted range begins and ends in the order of copying.
pub type Bounds = Option<(usize, usize)>;

/// The lists that a walk over a function fills.
#[derive(Drop)]
pub struct Walk {
    /// The places of the expressions in the order of first reach, each once.
    pub places: Vec<usize>,
    marks: Vec<bool>,
    /// The number of expressions that the initialisers of local variables reach.
    pub began: usize,
    /// The items that the function names, in the order of copying.
    pub requests: Vec<Request>,
    /// Where each emitted range begins and ends in the order, indexed by its first place.
    pub emitted: Vec<Bounds>,
    ghost marked: { AreMarks marks.items places.items },
}

impl Walk {
    /// Returns a walk over `count` expressions that has listed none.
    ///
    /// # Errors
    /// If out of memory.
    pub fn new(count: usize, alloc: Global) -> AllocResult<Walk>
        ensures empty { IfOk result (λ w. (w.places.items ≡ []) × (w.requests.items ≡ [])) }
        ensures began { IfOk result (λ w. w.began ≡ 0) }
        ensures marks { IfOk result (λ w. length w.marks.items ≡ count) }
        ensures emitted { IfOk result (λ w. w.emitted.items ≡ replicate count None) }
    {
        Ok(Walk {
            places: Vec::new(alloc),
            marks: no_marks(count, alloc)?,
            began: 0,
            requests: Vec::new(alloc),
            emitted: vec![in alloc; None; count]?,
        })
    }

    /// Returns whether a place is listed.
    pub fn has(&self, place: usize) -> bool
        ensures { result ≡ has self.now.places.items place }
    {
        is_marked(&self.marks, place)
    }

    /// Lists a place, unless it is listed already.
    ///
    /// # Errors
    /// If out of memory.
    pub fn list(&mut self, place: usize) -> AllocResult
        requires { place < length self.old.marks.items }
        ensures order { let listed = added self.old.places.items (place ∷ []) in
            OnOk result (self.new.places.items ≡ listed) }
        ensures marks { length self.new.marks.items ≡ length self.old.marks.items }
        ensures emitted { self.new.emitted ≡ self.old.emitted }
        ensures requests { self.new.requests ≡ self.old.requests }
    {
        if self.has(place) {
            return Ok(());
        }
        self.places.push(place)?;
        self.marks[place] = true;
        Ok(())
    }
}

/// Notes where an emitted range begins and ends in the order.
pub fn note(emitted: &mut Vec<Bounds>, range: Range<Expression>, begin: usize, end: usize)
    ensures { emitted.new.items ≡ noted emitted.old.items range (begin, end) }
{
    let start = range.start();
    if start < emitted.len() && (start < range.end() || emitted[start].is_none()) {
        emitted[start] = Some((begin, end));
    }
}
