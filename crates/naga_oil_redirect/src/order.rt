//! The order of functions in which each stands after what it calls, by their levels: the level of a function is 0 without calls,
//! else 1 more than the greatest level of a callee. A function that calls itself, or leads to one that does, has no level.
ghost use Rattle.std.specs.Prelude.{◌≡◌, ◌+◌, ◌<◌, ◌≤◌, ◌==◌, if◌then◌else◌, [], ℕ, All, IfOk, IfSome, OnOk, length, map, get_or, replicate, nat_lt, ◌&&◌, ◌↔◌, IsErr, unwrap_or, option_map, string_bytes};
ghost use Rattle.naga_oil_form.specs.Links.{lists, linked};
ghost use Rattle.naga_oil_redirect.specs.Count.{bit, times};
ghost use Rattle.naga_oil_redirect.specs.Level.{StayWithin, above, known, levels, without_level, by_level, HasCycle};
ghost use Rattle.naga_oil_ir.specs.Body.{block_tokens};
ghost use Rattle.naga_oil_redirect.specs.Ordered.{callee_of, callees_of, calls_of, names_at, ordered};
ghost use Rattle.naga_oil_redirect.specs.Redirected.{function_values};
ghost use Rattle.naga_oil_ir.specs.RedirectFault.{Gives};

use super::*;

/// Returns `count` empty lists.
fn no_places(count: usize, alloc: Global) -> AllocResult<Vec<Vec<usize>>>
    ensures { IfOk result (λ v. lists v.items ≡ replicate count []) }
{
    let mut places = Vec::new(alloc);
    for _ in 0..count {
        places.push(Vec::new(alloc))?;
    }
    Ok(places)
}

/// Adds a function to the lists of its callees.
fn push_caller(callers: &mut Vec<Vec<usize>>, function: usize, callees: &[usize]) -> AllocResult
    requires { All (λ c. c < length callers.old.items) callees.now }
    ensures long { OnOk result (length callers.new.items ≡ length callers.old.items) }
    ensures callers { let old = lists callers.old.items in
        OnOk result ((c k : ℕ) → times k (linked (lists callers.new.items) c) ≡
        times k (linked old c) + times c (if function == k then callees.now else [])) }
{
    for callee in callees {
        callers[*callee].push(function)?;
    }
    Ok(())
}

/// Returns for each function the functions that call it, as often as they do.
fn callers_of(calls: &[Vec<usize>], alloc: Global) -> AllocResult<Vec<Vec<usize>>>
    requires { StayWithin (lists calls.now) }
    ensures long { IfOk result (λ v. length v.items ≡ length calls.now) }
    ensures callers { let called = lists calls.now in
        IfOk result (λ v. (c k : ℕ) →
        times k (linked (lists v.items) c) ≡ times c (linked called k)) }
{
    let mut callers = no_places(calls.len(), alloc)?;
    for (function, callees) in calls.iter().enumerate() {
        push_caller(&mut callers, function, callees)?;
    }
    Ok(callers)
}

/// Returns 1 more than the greatest level of some functions, 0 for no functions, and `None` if one of them has no level yet.
fn level_above(callees: &[usize], levels: &[Option<usize>]) -> Option<usize>
    requires { (k : ℕ) → IfSome (known levels.now k) (λ l. l < length levels.now) }
    ensures { result ≡ above (map (known levels.now) callees.now) }
{
    let mut above = 0;
    for callee in callees {
        let level = stands_at(levels, *callee)?;
        above = (level + 1).max(above);
    }
    Some(above)
}

/// Counts off one call of each of some callers; a caller with no call left is ready.
fn count_off(callers: &[usize], pending: &mut Vec<usize>, ready: &mut Vec<usize>) -> AllocResult
    requires { (k : ℕ) → times k callers.now ≤ get_or pending.old.items k 0 }
    ensures long { OnOk result (length pending.new.items ≡ length pending.old.items) }
    ensures pending { OnOk result ((k : ℕ) →
        get_or pending.new.items k 0 + times k callers.now ≡ get_or pending.old.items k 0) }
    ensures ready { OnOk result ((k : ℕ) →
        times k ready.new.items + bit (get_or pending.old.items k 0 == 0) ≡
        times k ready.old.items + bit (get_or pending.new.items k 0 == 0)) }
{
    for caller in callers {
        let left = pending[*caller] - 1;
        pending[*caller] = left;
        if left == 0 {
            ready.push(*caller)?;
        }
    }
    Ok(())
}

/// Returns the number of calls of each function, and the functions that have none.
fn open_calls(calls: &[Vec<usize>], alloc: Global) -> AllocResult<(Vec<usize>, Vec<usize>)>
    ensures pending { IfOk result (λ r. r.0.items ≡ map length (lists calls.now)) }
    ensures ready { let called = lists calls.now in
        IfOk result (λ r. (k : ℕ) → times k r.1.items ≡
        bit (nat_lt k (length calls.now) && (length (linked called k) == 0))) }
{
    let mut pending = Vec::new(alloc);
    let mut ready = Vec::new(alloc);
    for (function, callees) in calls.iter().enumerate() {
        if callees.is_empty() {
            ready.push(function)?;
        }
        pending.push(callees.len())?;
    }
    Ok((pending, ready))
}

/// Returns the levels of functions, given the places of each function's callees. The time is proportional to the number of calls.
pub fn levels_of(calls: &[Vec<usize>], alloc: Global) -> AllocResult<Vec<Option<usize>>>
    requires { StayWithin (lists calls.now) }
    ensures { IfOk result (λ v. v.items ≡ levels (lists calls.now)) }
{
    let callers = callers_of(calls, alloc)?;
    let (mut pending, mut ready) = open_calls(calls, alloc)?;
    let mut levels = vec![in alloc; None; calls.len()]?;
    while let Some(function) = ready.pop() {
        levels[function] = level_above(&calls[function], &levels);
        count_off(&callers[function], &mut pending, &mut ready)?;
    }
    Ok(levels)
}

/// Returns the functions without a level, by place.
pub fn without_level(levels: &[Option<usize>], alloc: Global) -> AllocResult<Vec<usize>>
    ensures { IfOk result (λ v. v.items ≡ without_level levels.now) }
{
    let levels = levels.iter().enumerate();
    let open = levels.filter(|(_, level)| level.is_none());
    open.map(|(place, _)| place).collect(alloc)
}

/// Returns the functions that have a level, by level and then by place.
pub fn by_level(levels: &[Option<usize>], alloc: Global) -> AllocResult<Vec<usize>>
    requires { (k : ℕ) → IfSome (known levels.now k) (λ l. l < length levels.now) }
    ensures { IfOk result (λ v. v.items ≡ by_level levels.now) }
{
    let mut rounds = no_places(levels.len(), alloc)?;
    for (place, level) in levels.iter().enumerate() {
        let Some(level) = level else { continue };
        rounds[*level].push(place)?;
    }
    let mut order = Vec::new(alloc);
    for round in &rounds {
        order.extend_from_slice(round)?;
    }
    Ok(order)
}

/// Returns the functions that a body calls, in order.
fn callees_of(body: &Block, alloc: Global) -> AllocResult<Vec<usize>>
    ensures { IfOk result (λ v. v.items ≡ callees_of (block_tokens body.now)) }
{
    let mut tokens = Vec::new(alloc);
    push_block(body, &mut tokens)?;
    let callees = tokens.iter().filter_map(|token| match token {
        Token::Callee(function) => Some(function.index()),
        _ => None,
    });
    callees.collect(alloc)
}

/// Returns the functions that each function calls.
fn calls_of(functions: &[(Function, Span)], alloc: Global) -> AllocResult<Vec<Vec<usize>>>
    ensures { IfOk result (λ v. lists v.items ≡ calls_of (function_values functions.now)) }
{
    let mut calls = Vec::new(alloc);
    for entry in functions {
        calls.push(callees_of(&entry.0.body, alloc)?)?;
    }
    Ok(calls)
}

fn name_of(function: &Function) -> &str
    ensures { result.now ≡ unwrap_or (option_map string_bytes function.now.name) [] }
{
    function.name.as_ref().map_or("", |name| name.as_str())
}

/// Returns the names of the functions at some places, joined.
fn names_at(functions: &[(Function, Span)], places: &[usize], alloc: Global) -> AllocResult<String>
    requires { All (λ k. k < length functions.now) places.now }
    ensures { let told = names_at (function_values functions.now) places.now in
        IfOk result (λ s. string_bytes s ≡ told) }
{
    let mut names = Vec::new(alloc);
    for place in places {
        names.push(name_of(&functions[*place].0))?;
    }
    names.join(alloc, ", ")
}

/// Returns the functions by level, then by place.
///
/// # Errors
/// If functions call each other in a circle, or if there is no memory.
pub fn ordered(functions: &[(Function, Span)], alloc: Global) -> Result<Vec<usize>, RedirectError>
    requires { StayWithin (calls_of (function_values functions.now)) }
    ensures order { Gives (λ v. v.items) result (ordered (function_values functions.now)) }
    ensures cycle { let values = function_values functions.now in
        IsErr (ordered values) ↔ HasCycle (calls_of values) }
{
    let calls = calls_of(functions, alloc)?;
    let levels = levels_of(&calls, alloc)?;
    let circular = without_level(&levels, alloc)?;
    if circular.is_empty() {
        return Ok(by_level(&levels, alloc)?);
    }
    let names = names_at(functions, &circular, alloc)?;
    Err(RedirectError::CircularReference(names))
}
