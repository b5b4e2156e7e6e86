// The places that places name and reach.
ghost use Rattle.std.specs.Prelude.{[], ◌≡◌, ◌↔◌, ◌<◌, ◌||◌, ◌&&◌, ℕ, IsTrue, IfOk, All, length};
ghost use Rattle.std.specs.List.{list_any};
ghost use Rattle.naga_oil_form.specs.Links.{lists, linked, AreEarlier, has, started, is_marked, AreMarks};

use std::alloc::{AllocError, Global};

/// Returns whether a place is marked. Places after the last mark are not.
pub fn is_marked(marks: &[bool], place: usize) -> bool
    ensures { result ≡ is_marked marks.now place }
{
    marks.get(place).copied().unwrap_or(false)
}

/// Returns whether places are less than a limit.
pub fn are_below(places: &[usize], limit: usize) -> bool
    ensures { IsTrue result ↔ All (λ x. x < limit) places.now }
{
    places.iter().all(|place| *place < limit)
}

/// Returns whether each place names only earlier places.
pub fn are_earlier(links: &[Vec<usize>]) -> bool
    ensures { IsTrue result ↔ AreEarlier (lists links.now) }
{
    for (place, named) in links.iter().enumerate() {
        if !are_below(named, place) {
            return false;
        }
    }
    true
}

/// Marks places.
fn mark_all(marks: &mut Vec<bool>, places: &[usize])
    requires { All (λ x. x < length marks.old.items) places.now }
    ensures long { length marks.new.items ≡ length marks.old.items }
    ensures marked { (k : ℕ) → is_marked marks.new.items k ≡
        (is_marked marks.old.items k || has places.now k) }
{
    for place in places {
        marks[*place] = true;
    }
}

/// Returns marks of `count` places, none of them set.
///
/// # Errors
/// If out of memory.
pub fn no_marks(count: usize, alloc: Global) -> Result<Vec<bool>, AllocError>
    ensures long { IfOk result (λ v. length v.items ≡ count) }
    ensures none { IfOk result (λ v. AreMarks v.items []) }
{
    vec![in alloc; false; count]
}

/// Returns marks of `count` places, of which `places` are set.
///
/// # Errors
/// If out of memory.
pub fn marks_of(places: &[usize], count: usize, alloc: Global) -> Result<Vec<bool>, AllocError>
    requires { All (λ x. x < count) places.now }
    ensures long { IfOk result (λ v. length v.items ≡ count) }
    ensures marks { IfOk result (λ v. AreMarks v.items places.now) }
{
    let mut marks = no_marks(count, alloc)?;
    mark_all(&mut marks, places);
    Ok(marks)
}

/// Returns marks of all places that `roots` reach.
///
/// # Errors
/// If out of memory.
pub fn reached_from(
    links: &[Vec<usize>],
    roots: &[usize],
    alloc: Global,
) -> Result<Vec<bool>, AllocError>
    requires earlier { AreEarlier (lists links.now) }
    requires roots { All (λ x. x < length links.now) roots.now }
    ensures { IfOk result (λ v. AreMarks v.items (started (lists links.now) roots.now)) }
{
    let mut marks = marks_of(roots, links.len(), alloc)?;
    let count = links.len();
    for step in 0..count {
        let place = count - 1 - step;
        if is_marked(&marks, place) {
            mark_all(&mut marks, links[place].as_slice());
        }
    }
    Ok(marks)
}

/// Returns whether one of the places is marked.
pub fn any_marked(marks: &[bool], places: &[usize]) -> bool
    ensures { result ≡ list_any (is_marked marks.now) places.now }
{
    places.iter().any(|place| is_marked(marks, *place))
}
