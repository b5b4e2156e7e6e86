//! The walk over a function, in the order of copying.
ghost use Rattle.std.specs.Prelude.{◌≡◌, ◌<◌, ◌≤◌, ◌+◌, ◌∷◌, ◌++◌, ◌↔◌, ℕ, [], length, OnOk, All, IfOk, option_to_list, IsTrue};
ghost use Rattle.std.specs.List.{flat_map, sum_by};
ghost use Rattle.naga_oil_form.specs.Links.{lists, linked, added, trail};
ghost use Rattle.naga_oil_form.specs.BodyForm.{places, kinds, callees, operand_links, MayStand};
ghost use Rattle.naga_oil_walk.specs.Walk.{IsReachOrder, externals, brief, IsWithin, notes_of, notes_after};
ghost use Rattle.naga_oil_walk.specs.Walks.{IsOver, Walks};
ghost use Rattle.naga_oil_walk.specs.Waiting.{AreWaiting, AsksOn, Awaits, finish, finish_all, names_left, steps};
ghost use Rattle.naga_oil_walk.specs.Naming.{names_from, requests_at, asked, token_names, Adds, local_names, signature_names, IsStub};
ghost use Rattle.naga_oil_ir.specs.Body.{block_tokens};
ghost use Rattle.naga_oil_form.specs.WellFormed.{initialisers, initialisers_of};

use super::*;

/// Requests a named item or function.
///
/// # Errors
/// If out of memory.
fn ask(named: Named, requests: &mut Vec<Request>) -> AllocResult
    ensures { OnOk result (requests.new.items ≡ requests.old.items ++ asked named) }
{
    if let Named::FunctionAt(function) = named {
        requests.push(Request::Call(function))?;
    } else if let Some(item) = named_item(named) {
        requests.push(Request::Item(item))?;
    }
    Ok(())
}

/// Requests the item that the expression at a place names, if it names one.
///
/// # Errors
/// If out of memory.
fn request(of: &ExpressionParts, place: usize, requests: &mut Vec<Request>) -> AllocResult
    ensures { OnOk result
        (requests.new.items ≡ requests.old.items ++ requests_at of.now.named.items place) }
{
    match of.named.get(place) {
        Some(named) if named_item(*named).is_some() => ask(*named, requests),
        _ => Ok(()),
    }
}

/// A place that is listed after its operands.
#[derive(Clone, Copy)]
pub struct Waiting {
    pub place: usize,
    /// The number of its operands that are reached.
    pub done: usize,
}

/// Requests the item that a place names and returns the place as waiting, or `None` if the place is listed already.
///
/// # Errors
/// If out of memory.
fn awaited(of: &ExpressionParts, place: usize, walk: &mut Walk) -> AllocResult<Option<Waiting>>
    ensures places { walk.new.places ≡ walk.old.places }
    ensures marks { walk.new.marks ≡ walk.old.marks }
    ensures emitted { walk.new.emitted ≡ walk.old.emitted }
    ensures waits { let ns = of.now.named.items in
        let asked = walk.old.requests.items in
        let asks = walk.new.requests.items in
        IfOk result (Awaits ns walk.old.places.items asked asks place) }
{
    if walk.has(place) {
        return Ok(None);
    }
    request(of, place, &mut walk.requests)?;
    Ok(Some(Waiting { place, done: 0 }))
}

/// Visits the next operand of a place, or lists the place if no operand is left.
///
/// # Errors
/// If out of memory.
fn list_next(
    of: &ExpressionParts,
    mut top: Waiting,
    waiting: &mut Vec<Waiting>,
    walk: &mut Walk,
) -> AllocResult
    requires over { IsOver of.now walk.old }
    requires ready { IsReachOrder (lists of.now.links.items) walk.old.places.items }
    requires waiting { let ws = waiting.old.items ++ top ∷ [] in
        AreWaiting of.now walk.old.places.items walk.old.requests.items ws }
    ensures order { let ls = lists of.now.links.items in
        let made = finish_all ls (finish ls walk.old.places.items top) waiting.old.items in
        OnOk result (finish_all ls walk.new.places.items waiting.new.items ≡ made) }
    ensures emitted { walk.new.emitted ≡ walk.old.emitted }
    ensures ready { OnOk result (IsReachOrder (lists of.now.links.items) walk.new.places.items) }
    ensures requests { let ws = waiting.old.items ++ top ∷ [] in
        let asks = AsksOn of.now.named.items (lists of.now.links.items) in
        let vs = waiting.new.items in
        OnOk result (asks walk.old.requests.items ws walk.new.requests.items vs) }
    ensures over { OnOk result (IsOver of.now walk.new) }
    ensures waiting { let vs = waiting.new.items in
        OnOk result (AreWaiting of.now walk.new.places.items walk.new.requests.items vs) }
    ensures fewer { let f = steps (lists of.now.links.items) in
        let old = sum_by f waiting.old.items in
        OnOk result (sum_by f waiting.new.items < old + f top) }
{
    let Some(operand) = of.links[top.place].get(top.done) else {
        return walk.list(top.place);
    };
    let following = awaited(of, *operand, walk)?;
    top.done += 1;
    waiting.push(top)?;
    if let Some(following) = following {
        waiting.push(following)?;
    }
    Ok(())
}

/// Lists the waiting places, the last one first, each after all places that it reaches.
///
/// # Errors
/// If out of memory.
fn list_waiting(of: &ExpressionParts, mut waiting: Vec<Waiting>, walk: &mut Walk) -> AllocResult
    requires over { IsOver of.now walk.old }
    requires ready { IsReachOrder (lists of.now.links.items) walk.old.places.items }
    requires waiting { let ws = waiting.items in
        AreWaiting of.now walk.old.places.items walk.old.requests.items ws }
    ensures order { let ls = lists of.now.links.items in
        let made = finish_all ls walk.old.places.items waiting.items in
        OnOk result (walk.new.places.items ≡ made) }
    ensures emitted { walk.new.emitted ≡ walk.old.emitted }
    ensures ready { OnOk result (IsReachOrder (lists of.now.links.items) walk.new.places.items) }
    ensures requests { let ls = lists of.now.links.items in
        let asks = names_left of.now.named.items ls waiting.items in
        OnOk result (Adds walk.old.requests.items asks walk.new.requests.items) }
    ensures over { OnOk result (IsOver of.now walk.new) }
{
    while let Some(top) = waiting.pop() {
        list_next(of, top, &mut waiting, walk)?;
    }
    Ok(())
}

/// Lists a place after all places that it reaches.
///
/// # Errors
/// If out of memory.
pub fn reach(of: &ExpressionParts, place: usize, walk: &mut Walk, alloc: Global) -> AllocResult
    requires in_range { place < length of.now.links.items }
    requires over { IsOver of.now walk.old }
    requires ready { IsReachOrder (lists of.now.links.items) walk.old.places.items }
    ensures order { let ls = lists of.now.links.items in
        let more = trail ls place in
        OnOk result (walk.new.places.items ≡ added walk.old.places.items more) }
    ensures emitted { walk.new.emitted ≡ walk.old.emitted }
    ensures ready { OnOk result (IsReachOrder (lists of.now.links.items) walk.new.places.items) }
    ensures requests { let ls = lists of.now.links.items in
        let ns = of.now.named.items in
        let asks = names_from ns ls place in
        OnOk result (Adds walk.old.requests.items asks walk.new.requests.items) }
    ensures over { OnOk result (IsOver of.now walk.new) }
{
    let Some(first) = awaited(of, place, walk)? else {
        return Ok(());
    };
    let mut waiting = Vec::new(alloc);
    waiting.push(first)?;
    list_waiting(of, waiting, walk)
}

/// Lists a place and requests the item that it names, unless the place is listed already.
///
/// # Errors
/// If out of memory.
fn add(of: &ExpressionParts, place: usize, walk: &mut Walk) -> AllocResult
    requires in_range { place < length of.now.links.items }
    requires over { IsOver of.now walk.old }
    ensures order { OnOk result (walk.new.places.items ≡ added walk.old.places.items (place ∷ [])) }
    ensures emitted { walk.new.emitted ≡ walk.old.emitted }
    ensures requests { let ns = of.now.named.items in
        let asks = requests_at ns place in
        OnOk result (Adds walk.old.requests.items asks walk.new.requests.items) }
    ensures over { OnOk result (IsOver of.now walk.new) }
{
    if walk.has(place) {
        return Ok(());
    }
    request(of, place, &mut walk.requests)?;
    walk.list(place)?;
    Ok(())
}

/// Lists the external operands of a place.
///
/// # Errors
/// If out of memory.
fn add_externals(of: &ExpressionParts, place: usize, walk: &mut Walk) -> AllocResult
    requires in_range { place < length of.now.links.items }
    requires over { IsOver of.now walk.old }
    ensures order { let ls = lists of.now.links.items in
        let ks = of.now.kinds.items in
        let more = externals ks (linked ls place) in
        OnOk result (walk.new.places.items ≡ added walk.old.places.items more) }
    ensures emitted { walk.new.emitted ≡ walk.old.emitted }
    ensures requests { let ls = lists of.now.links.items in
        let ks = of.now.kinds.items in
        let ns = of.now.named.items in
        let asks = flat_map (requests_at ns) (externals ks (linked ls place)) in
        OnOk result (Adds walk.old.requests.items asks walk.new.requests.items) }
    ensures over { OnOk result (IsOver of.now walk.new) }
{
    for operand in &of.links[place] {
        if is_external(&of.kinds, *operand) {
            add(of, *operand, walk)?;
        }
    }
    Ok(())
}

/// Lists the external operands of the places of a range.
///
/// # Errors
/// If out of memory.
fn add_all_externals(of: &ExpressionParts, range: Range<Expression>, walk: &mut Walk) -> AllocResult
    requires in_range { (range.0 ≤ range.1) × (range.1 ≤ length of.now.links.items) }
    requires over { IsOver of.now walk.old }
    ensures order { let ls = lists of.now.links.items in
        let ks = of.now.kinds.items in
        let more = externals ks (flat_map (linked ls) (places range)) in
        OnOk result (walk.new.places.items ≡ added walk.old.places.items more) }
    ensures emitted { walk.new.emitted ≡ walk.old.emitted }
    ensures requests { let ls = lists of.now.links.items in
        let ks = of.now.kinds.items in
        let ns = of.now.named.items in
        let asks = flat_map (requests_at ns) (externals ks (flat_map (linked ls) (places range))) in
        OnOk result (Adds walk.old.requests.items asks walk.new.requests.items) }
    ensures over { OnOk result (IsOver of.now walk.new) }
{
    for place in range.start()..range.end() {
        add_externals(of, place, walk)?;
    }
    Ok(())
}

/// Lists an emitted range after the external operands of its places.
///
/// # Errors
/// If out of memory.
fn add_emitted(of: &ExpressionParts, range: Range<Expression>, walk: &mut Walk) -> AllocResult
    requires in_range { (range.0 ≤ range.1) × (range.1 ≤ length of.now.links.items) }
    requires over { IsOver of.now walk.old }
    ensures order { let ls = lists of.now.links.items in
        let ks = of.now.kinds.items in
        let more = brief ks ls (Token.Emitted range) in
        OnOk result (walk.new.places.items ≡ added walk.old.places.items more) }
    ensures emitted { let ls = lists of.now.links.items in
        let ks = of.now.kinds.items in
        let notes = notes_of ks ls walk.old.places.items in
        OnOk result (walk.new.emitted.items ≡ notes walk.old.emitted.items (Token.Emitted range)) }
    ensures requests { let ls = lists of.now.links.items in
        let ks = of.now.kinds.items in
        let ns = of.now.named.items in
        let asks = flat_map (requests_at ns) (brief ks ls (Token.Emitted range)) in
        OnOk result (Adds walk.old.requests.items asks walk.new.requests.items) }
    ensures over { OnOk result (IsOver of.now walk.new) }
{
    add_all_externals(of, range, walk)?;
    let begin = walk.places.len();
    for place in range.start()..range.end() {
        add(of, place, walk)?;
    }
    let end = walk.places.len();
    note(&mut walk.emitted, range, begin, end);
    Ok(())
}

/// Lists the expressions that a part of a body names.
///
/// # Errors
/// If out of memory.
fn add_token(of: &ExpressionParts, token: Token, walk: &mut Walk) -> AllocResult
    requires within { IsWithin (length of.now.links.items) token }
    requires over { IsOver of.now walk.old }
    ensures order { let ls = lists of.now.links.items in
        let ks = of.now.kinds.items in
        let more = brief ks ls token in
        OnOk result (walk.new.places.items ≡ added walk.old.places.items more) }
    ensures emitted { let ls = lists of.now.links.items in
        let ks = of.now.kinds.items in
        let notes = notes_of ks ls walk.old.places.items in
        OnOk result (walk.new.emitted.items ≡ notes walk.old.emitted.items token) }
    ensures requests { let ls = lists of.now.links.items in
        let ks = of.now.kinds.items in
        let ns = of.now.named.items in
        let asks = token_names ks ns ls token in
        OnOk result (Adds walk.old.requests.items asks walk.new.requests.items) }
    ensures over { OnOk result (IsOver of.now walk.new) }
{
    match token {
        Token::Use(h) | Token::Give(h) | Token::GiveCall(_, h) => add(of, h.index(), walk),
        Token::Emitted(range) => add_emitted(of, range, walk),
        Token::Callee(function) => ask(Named::FunctionAt(function), &mut walk.requests),
        _ => Ok(()),
    }
}

/// Lists the expressions that a body names.
///
/// # Errors
/// If out of memory.
pub fn add_tokens(of: &ExpressionParts, tokens: &[Token], walk: &mut Walk) -> AllocResult
    requires within { All (IsWithin (length of.now.links.items)) tokens.now }
    requires over { IsOver of.now walk.old }
    ensures order { let ls = lists of.now.links.items in
        let ks = of.now.kinds.items in
        let more = flat_map (brief ks ls) tokens.now in
        OnOk result (walk.new.places.items ≡ added walk.old.places.items more) }
    ensures emitted { let ls = lists of.now.links.items in
        let ks = of.now.kinds.items in
        let notes = notes_after ks ls walk.old.places.items in
        OnOk result (walk.new.emitted.items ≡ notes walk.old.emitted.items tokens.now) }
    ensures requests { let ls = lists of.now.links.items in
        let ks = of.now.kinds.items in
        let ns = of.now.named.items in
        let asks = flat_map (token_names ks ns ls) tokens.now in
        OnOk result (Adds walk.old.requests.items asks walk.new.requests.items) }
    ensures over { OnOk result (IsOver of.now walk.new) }
{
    for token in tokens {
        add_token(of, *token, walk)?;
    }
    Ok(())
}

/// Requests the types of arguments and of the result.
///
/// # Errors
/// If out of memory.
fn request_types(function: &Function, requests: &mut Vec<Request>) -> AllocResult
    ensures { OnOk result
        (requests.new.items ≡ requests.old.items ++ signature_names function.now) }
{
    for argument in &function.arguments {
        requests.push(Request::Item(ItemPlace::TypeItem(argument.ty)))?;
    }
    if let Some(outcome) = function.result {
        requests.push(Request::Item(ItemPlace::TypeItem(outcome.ty)))?;
    }
    Ok(())
}

/// Requests the types of local variables and lists the expressions that their initialisers reach.
///
/// # Errors
/// If out of memory.
fn reach_locals(
    of: &ExpressionParts,
    locals: &[(LocalVariable, Span)],
    walk: &mut Walk,
    alloc: Global,
) -> AllocResult
    requires there { All (λ h. h < length of.now.links.items) (initialisers_of locals.now) }
    requires over { IsOver of.now walk.old }
    requires ready { IsReachOrder (lists of.now.links.items) walk.old.places.items }
    ensures order { let ls = lists of.now.links.items in
        let more = flat_map (trail ls) (initialisers_of locals.now) in
        OnOk result (walk.new.places.items ≡ added walk.old.places.items more) }
    ensures emitted { walk.new.emitted ≡ walk.old.emitted }
    ensures ready { OnOk result (IsReachOrder (lists of.now.links.items) walk.new.places.items) }
    ensures requests { let ls = lists of.now.links.items in
        let ns = of.now.named.items in
        let asks = flat_map (local_names ns ls) locals.now in
        OnOk result (Adds walk.old.requests.items asks walk.new.requests.items) }
    ensures over { OnOk result (IsOver of.now walk.new) }
{
    for local in locals {
        let ty = ItemPlace::TypeItem(local.0.ty);
        walk.requests.push(Request::Item(ty))?;
        if let Some(init) = local.0.init {
            reach(of, init.index(), walk, alloc)?;
        }
    }
    Ok(())
}

/// Returns whether a function has neither local variables nor statements. Such a function names only the types of its arguments
/// and its result.
pub fn is_stub(function: &Function) -> bool
    ensures { IsTrue result ↔ IsStub function.now }
{
    function.local_variables.len() == 0 && function.body.body.is_empty()
}

/// Walks over a function without local variables and statements: requests the types of its arguments and its result.
///
/// # Errors
/// If out of memory.
fn walk_stub(function: &Function, alloc: Global) -> AllocResult<Walk>
    requires { IsStub function.now }
    ensures { IfOk result (Walks function.now) }
{
    let mut walk = Walk::new(function.expressions.len(), alloc)?;
    request_types(function, &mut walk.requests)?;
    Ok(walk)
}

/// Returns the walk over a function in the order of copying: the types of its arguments and its result, its local variables,
/// each with its type and its initialiser, then its body.
///
/// # Errors
/// If out of memory.
pub fn walk_function(function: &Function, alloc: Global) -> AllocResult<Walk>
    requires { let es = function.now.expressions in
        let starts = initialisers function.now in
        let tokens = block_tokens function.now.body in
        MayStand (kinds es) (callees es) (operand_links es) starts tokens }
    ensures { IfOk result (Walks function.now) }
{
    if is_stub(function) {
        return walk_stub(function, alloc);
    }
    let read = read(function.expressions.as_slice(), alloc)?;
    let mut walk = Walk::new(function.expressions.len(), alloc)?;
    request_types(function, &mut walk.requests)?;
    reach_locals(&read, function.local_variables.as_slice(), &mut walk, alloc)?;
    let began = walk.places.len();
    let mut tokens = Vec::new(alloc);
    push_block(&function.body, &mut tokens)?;
    add_tokens(&read, &tokens, &mut walk)?;
    walk.began = began;
    Ok(walk)
}
