//! Functions that are copied after the functions that they call.
ghost use Rattle.std.specs.Prelude.{◌≡◌, ◌<◌, ◌+◌, Some, IsSome, OnOk, IfOk, All, option_map, string_bytes};
ghost use Rattle.std.specs.Cow.{cow_str_bytes};
ghost use Rattle.std.specs.List.{sum_by};
ghost use Rattle.naga_oil_ir.specs.ModuleValue.{function_value};
ghost use Rattle.naga_oil_derive.specs.Callees.{known_as, callee_at};
ghost use Rattle.naga_oil_derive.specs.Copying.{AreRanked, IsCopying};
ghost use Rattle.naga_oil_derive.specs.World.{value_of};
ghost use Rattle.naga_oil_derive.specs.CopiedFunction.{copy_function};
ghost use Rattle.naga_oil_derive.specs.DerivedFunctions.{requests_of};
ghost use Rattle.naga_oil_derive.specs.Answered.{import_state, answer_all, import_callee, import_copy as imported_value, with_function};
ghost use Rattle.naga_oil_derive.specs.Putting.{Adding};
ghost use Rattle.naga_oil_derive.specs.Imported.{IsAnswerable, IsImportable};
ghost use Rattle.naga_oil_derive.specs.Went.{went_by};
ghost use Rattle.naga_oil_derive.specs.Pending.{IsNew, IsPending, IsAnswered, MayWalk, complete, complete_all, call_steps, pending_steps};
ghost use Rattle.naga_oil_walk.specs.Walks.{Walks};

use super::*;
use std::borrow::CowStr;

/// The functions that names mean. A name of a source's function is borrowed from the source.
pub type FunctionNames<'n> = IndexMap<CowStr<'n>, Handle<Function>>;

/// What the items and functions of a source map to; a function maps to the function that its name means.
#[derive(Clone, Copy)]
pub struct Went<'a> {
    pub maps: &'a Maps,
    pub source: &'a Module,
    pub functions: &'a FunctionNames<'a>,
    pub alloc: Global,
}

/// Returns the function that a name means, if the name is known.
pub fn known_as(functions: &FunctionNames<'_>, name: &Option<String>) -> Option<Handle<Function>>
    ensures { result ≡ known_as functions.now name.now }
{
    functions.get(name.as_ref()?.as_str()).copied()
}

/// Returns the function that the name of the source's function at `handle` means.
fn callee_in(
    names: &FunctionNames<'_>,
    source: &Module,
    handle: Handle<Function>,
) -> Option<Handle<Function>>
    ensures { result ≡ callee_at names.now source.now.functions handle }
{
    let function = source.functions.try_get(handle)?;
    known_as(names, &function.name)
}

impl Went<'_> {
    /// Returns the function that a function of the source maps to, if its name is known.
    pub fn callee(&self, handle: Handle<Function>) -> Option<Handle<Function>>
        ensures { result ≡ callee_at self.now.functions.now self.now.source.now.functions handle }
    {
        callee_in(self.functions, self.source, handle)
    }
}

/// Copies of functions, and the functions that names mean.
#[derive(Drop)]
pub struct Functions<'n> {
    pub copies: Arena<Function>,
    pub names: FunctionNames<'n>,
}

/// A function that waits until what it names is copied.
#[derive(Drop)]
pub struct Pending<'a> {
    pub function: &'a Function,
    pub span: Span,
    /// The most levels of calls of functions whose names aren't known.
    pub depth: usize,
    pub walk: Walk,
    /// The number of the walk's requests that are answered.
    pub answered: usize,
}

impl<'a> Pending<'a> {
    /// A pending function, with no request answered.
    fn new(function: &'a Function, span: Span, depth: usize, alloc: Global) -> AllocResult<Self>
        requires { MayWalk function.now }
        ensures { IfOk result (IsNew function.now span depth) }
    {
        let walk = walk_function(function, alloc)?;
        Ok(Pending {
            function,
            span,
            depth,
            walk,
            answered: 0,
        })
    }
}

/// Appends the copy of a function whose requests are all answered; the function's name then means the copy.
fn put<'n>(
    source: &Module,
    of: &Pending<'n>,
    copying: &Copying,
    functions: &mut Functions<'n>,
) -> AllocResult
    requires walks { Walks of.now.function.now of.now.walk }
    requires named { IsSome of.now.function.now.name }
    ensures value { let shift = copying.now.maps.offset in
        let old = import_state copying.now.maps copying.now.target functions.old in
        let new = import_state copying.now.maps copying.now.target functions.new in
        let v = function_value of.now.function.now in
        OnOk result (new ≡ with_function (value_of source.now) shift old v of.now.span) }
    ensures adding { let shift = copying.now.maps.offset in
        let old = import_state copying.now.maps copying.now.target functions.old in
        let new = import_state copying.now.maps copying.now.target functions.new in
        Adding (value_of source.now) shift old new }
{
    #[rattlefmt::skip]
    let names = Went { maps: &copying.maps, source, functions: &functions.names, alloc: copying.alloc };
    let copy = localized(names, of.function, &of.walk)?;
    let handle = functions.copies.append(copy, copying.maps.span(of.span))?;
    if let Some(name) = &of.function.name {
        functions
            .names
            .insert(CowStr::Borrowed(name.as_str()), handle)?;
    }
    Ok(())
}

/// Adds a called function to the pending ones, if its name isn't known.
fn open<'a>(
    source: &'a Module,
    handle: Handle<Function>,
    depth: usize,
    pending: &mut Vec<Pending<'a>>,
    copying: &Copying,
    functions: &Functions<'_>,
) -> AllocResult
    requires ranked { AreRanked source.now }
    requires copying { IsCopying source.now copying.now.target copying.now.maps }
    requires answerable { IsAnswerable source.now functions.now depth (Request.Call handle) }
    requires pending { All (IsPending source.now functions.now) pending.old.items }
    ensures pending { OnOk result (All (IsPending source.now functions.now) pending.new.items) }
    ensures value { let m = value_of source.now in
        let shift = copying.now.maps.offset in
        let now = import_state copying.now.maps copying.now.target functions.now in
        let made = complete_all m shift (import_callee depth m shift now handle) pending.old.items in
        OnOk result (complete_all m shift now pending.new.items ≡ made) }
    ensures fewer { let m = value_of source.now in
        let old = sum_by (pending_steps m) pending.old.items in
        OnOk result (sum_by (pending_steps m) pending.new.items < old + call_steps depth m handle) }
{
    let Some(callee) = source.functions.try_get(handle) else {
        return Ok(());
    };
    if known_as(&functions.names, &callee.name).is_some() {
        return Ok(());
    }
    let span = source.functions.get_span(handle);
    let added = Pending::new(callee, span, depth - 1, copying.alloc)?;
    pending.push(added)?;
    Ok(())
}

/// Answers the requests of a function up to the first call of a function whose name isn't known; that function is returned.
fn answer_items(
    source: &Module,
    top: &mut Pending<'_>,
    copying: &mut Copying,
    functions: &Functions<'_>,
) -> AllocResult<Option<Handle<Function>>>
    requires ranked { AreRanked source.now }
    requires copying { IsCopying source.now copying.old.target copying.old.maps }
    requires top { IsPending source.now functions.now top.old }
    ensures top { OnOk result (IsPending source.now functions.now top.new) }
    ensures answered { let shift = copying.old.maps.offset in
        let old = import_state copying.old.maps copying.old.target functions.now in
        let new = import_state copying.new.maps copying.new.target functions.now in
        IfOk result (IsAnswered source.now functions.now shift old top.old new top.new) }
    ensures adding { let shift = copying.old.maps.offset in
        let old = import_state copying.old.maps copying.old.target functions.now in
        let new = import_state copying.new.maps copying.new.target functions.now in
        Adding (value_of source.now) shift old new }
    ensures offset { copying.new.maps.offset ≡ copying.old.maps.offset }
{
    while let Some(request) = top.walk.requests.get(top.answered).copied() {
        top.answered += 1;
        match request {
            Request::Item(item) => copying.copy_item(source, &item)?,
            Request::Call(handle) => {
                if callee_in(&functions.names, source, handle).is_none() {
                    return Ok(Some(handle));
                }
            }
        }
    }
    Ok(None)
}

/// Answers the requests of a function and appends its copy, or adds the first callee whose name isn't known to `pending`.
fn advance<'a>(
    source: &'a Module,
    mut top: Pending<'a>,
    pending: &mut Vec<Pending<'a>>,
    copying: &mut Copying,
    functions: &mut Functions<'a>,
) -> AllocResult
    requires ranked { AreRanked source.now }
    requires copying { IsCopying source.now copying.old.target copying.old.maps }
    requires top { IsPending source.now functions.old top }
    requires pending { All (IsPending source.now functions.old) pending.old.items }
    ensures pending { OnOk result (All (IsPending source.now functions.new) pending.new.items) }
    ensures value { let m = value_of source.now in
        let shift = copying.old.maps.offset in
        let old = import_state copying.old.maps copying.old.target functions.old in
        let new = import_state copying.new.maps copying.new.target functions.new in
        let made = complete_all m shift (complete m shift old top.entry) pending.old.items in
        OnOk result (complete_all m shift new pending.new.items ≡ made) }
    ensures fewer { let m = value_of source.now in
        let old = sum_by (pending_steps m) pending.old.items in
        OnOk result (sum_by (pending_steps m) pending.new.items < old + pending_steps m top.entry) }
    ensures adding { let m = value_of source.now in
        let shift = copying.old.maps.offset in
        let old = import_state copying.old.maps copying.old.target functions.old in
        let new = import_state copying.new.maps copying.new.target functions.new in
        Adding m shift old new }
    ensures offset { copying.new.maps.offset ≡ copying.old.maps.offset }
{
    let called = answer_items(source, &mut top, copying, functions)?;
    let Some(handle) = called else {
        return put(source, &top, copying, functions);
    };
    let depth = top.depth;
    pending.push(top)?;
    open(source, handle, depth, pending, copying, functions)
}

/// Copies the pending functions, the last one first, each after what it names.
fn copy_pending<'a>(
    source: &'a Module,
    mut pending: Vec<Pending<'a>>,
    copying: &mut Copying,
    functions: &mut Functions<'a>,
) -> AllocResult
    requires ranked { AreRanked source.now }
    requires copying { IsCopying source.now copying.old.target copying.old.maps }
    requires pending { All (IsPending source.now functions.old) pending.items }
    ensures value { let m = value_of source.now in
        let shift = copying.old.maps.offset in
        let old = import_state copying.old.maps copying.old.target functions.old in
        let new = import_state copying.new.maps copying.new.target functions.new in
        OnOk result (new ≡ complete_all m shift old pending.entry.items) }
    ensures adding { let m = value_of source.now in
        let shift = copying.old.maps.offset in
        let old = import_state copying.old.maps copying.old.target functions.old in
        let new = import_state copying.new.maps copying.new.target functions.new in
        Adding m shift old new }
    ensures offset { copying.new.maps.offset ≡ copying.old.maps.offset }
{
    while let Some(top) = pending.pop() {
        advance(source, top, &mut pending, copying, functions)?;
    }
    Ok(())
}

/// Appends a copy of a function; the function's name then means the copy. Calls of functions whose names aren't known nest at
/// most `depth` levels.
pub fn import<'n>(
    source: &'n Module,
    function: &Function,
    name: CowStr<'n>,
    span: Span,
    depth: usize,
    copying: &mut Copying,
    functions: &mut Functions<'n>,
) -> Result<Handle<Function>, AllocError>
    requires ranked { AreRanked source.now }
    requires copying { IsCopying source.now copying.old.target copying.old.maps }
    requires named { option_map string_bytes function.now.name ≡ Some (cow_str_bytes name) }
    requires form { IsImportable source.now functions.old depth function.now }
    ensures means { IfOk result (λ h. known_as functions.new.names function.now.name ≡ Some h) }
    ensures value { let m = value_of source.now in
        let shift = copying.old.maps.offset in
        let old = import_state copying.old.maps copying.old.target functions.old in
        let new = import_state copying.new.maps copying.new.target functions.new in
        OnOk result (new ≡ imported_value depth m shift old (function_value function.now) span) }
    ensures adding { let m = value_of source.now in
        let shift = copying.old.maps.offset in
        let old = import_state copying.old.maps copying.old.target functions.old in
        let new = import_state copying.new.maps copying.new.target functions.new in
        Adding m shift old new }
    ensures offset { copying.new.maps.offset ≡ copying.old.maps.offset }
{
    let copy = localize(source, function, depth, copying, functions)?;
    let handle = functions.copies.append(copy, copying.maps.span(span))?;
    functions.names.insert(name, handle)?;
    Ok(handle)
}

/// Returns a copy of a function, after copying what it names.
pub fn localize<'n>(
    source: &'n Module,
    function: &Function,
    depth: usize,
    copying: &mut Copying,
    functions: &mut Functions<'n>,
) -> Result<Function, AllocError>
    requires ranked { AreRanked source.now }
    requires copying { IsCopying source.now copying.old.target copying.old.maps }
    requires form { IsImportable source.now functions.old depth function.now }
    ensures copied { let names = went_by copying.new.maps source.now functions.new.names in
        IfOk result (λ f. function_value f ≡ copy_function names (function_value function.now)) }
    ensures value { let m = value_of source.now in
        let shift = copying.old.maps.offset in
        let old = import_state copying.old.maps copying.old.target functions.old in
        let new = import_state copying.new.maps copying.new.target functions.new in
        let asked = requests_of (function_value function.now) in
        OnOk result (new ≡ answer_all depth m shift old asked) }
    ensures adding { let m = value_of source.now in
        let shift = copying.old.maps.offset in
        let old = import_state copying.old.maps copying.old.target functions.old in
        let new = import_state copying.new.maps copying.new.target functions.new in
        Adding m shift old new }
    ensures offset { copying.new.maps.offset ≡ copying.old.maps.offset }
{
    if is_stub(function) {
        copying.copy_signature(source, function)?;
        return localized_stub(&copying.maps, function, copying.alloc);
    }
    let walk = walk_function(function, copying.alloc)?;
    for request in &walk.requests {
        match request {
            Request::Item(item) => copying.copy_item(source, item)?,
            Request::Call(handle) => {
                import_callee(source, *handle, depth, copying, functions)?;
            }
        }
    }
    #[rattlefmt::skip]
    let names = Went { maps: &copying.maps, source, functions: &functions.names, alloc: copying.alloc };
    localized(names, function, &walk)
}

/// Returns the function that a callee's name means; the callee is copied if its name isn't known.
pub fn import_callee<'n>(
    source: &'n Module,
    handle: Handle<Function>,
    depth: usize,
    copying: &mut Copying,
    functions: &mut Functions<'n>,
) -> Result<Handle<Function>, AllocError>
    requires ranked { AreRanked source.now }
    requires copying { IsCopying source.now copying.old.target copying.old.maps }
    requires answerable { IsAnswerable source.now functions.old depth (Request.Call handle) }
    ensures callee { IfOk result (λ h.
        callee_at functions.new.names source.now.functions handle ≡ Some h) }
    ensures value { let m = value_of source.now in
        let shift = copying.old.maps.offset in
        let old = import_state copying.old.maps copying.old.target functions.old in
        let new = import_state copying.new.maps copying.new.target functions.new in
        OnOk result (new ≡ import_callee depth m shift old handle) }
    ensures adding { let m = value_of source.now in
        let shift = copying.old.maps.offset in
        let old = import_state copying.old.maps copying.old.target functions.old in
        let new = import_state copying.new.maps copying.new.target functions.new in
        Adding m shift old new }
    ensures offset { copying.new.maps.offset ≡ copying.old.maps.offset }
{
    let mut pending: Vec<Pending<'n>> = Vec::new(copying.alloc);
    open(source, handle, depth, &mut pending, copying, functions)?;
    copy_pending(source, pending, copying, functions)?;
    #[rattlefmt::skip]
    let names = Went { maps: &copying.maps, source, functions: &functions.names, alloc: copying.alloc };
    Ok(names.callee(handle).unwrap())
}
