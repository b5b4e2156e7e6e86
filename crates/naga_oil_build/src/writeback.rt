//! Whether the names of what a module owns survive when its header is written and parsed again.
ghost use Rattle.std.specs.Prelude.{◌≡◌, ◌++◌, [], map, take, option_map, string_bytes, IfOk, OnOk};
ghost use Rattle.naga_oil_ir.specs.ModuleValue.{module_value, function_value};
ghost use Rattle.naga_oil_ir.specs.Rows.{type_row, constant_row, global_row, member_label};
ghost use Rattle.naga_oil_conditions.specs.View.{Gives};
ghost use Rattle.naga_oil_link.specs.BuiltModule.{built_of};
ghost use Rattle.naga_oil_link.specs.CopiedBuild.{EndWith};
ghost use Rattle.naga_oil_link.specs.OwnPlaces.{own_of};
ghost use Rattle.naga_oil_words.specs.Texts.{texts};
ghost use Rattle.naga_oil_build.specs.BuildView.{settings_in};
ghost use Rattle.naga_oil_build.specs.Writeback.{named_item, named_items, named_functions, struct_members, last_named, lost_member, lost_of, lost_by, lost_at, lost_among, have_come_back, lost, unless_lost, came_back};
ghost use Rattle.naga_oil_build.specs.WritebackView.{labels_of, named_of, held, seen_lost, is_asked, items_asked};

use super::*;
use naga_oil_ir::Index;
use naga_oil_link::copied::{ending_of, has_name_ending};
use naga_oil_link::items::named;

// An item with a name, with its span and, for a struct, its members.
#[derive(Clone, Copy)]
struct NamedItem<'m> {
    name: &'m str,
    members: Option<&'m [StructMember]>,
    span: Span,
}

// The name of what is lost, and the span of its item.
type Lost<'m> = Option<(&'m str, Span)>;

// The items of the parsed header, by their names.
type Back<'b> = BTreeMap<&'b str, NamedItem<'b>>;

// The members of a struct.
fn members(of: &Type) -> Option<&[StructMember]>
    ensures { labels_of result ≡ struct_members (type_row of.now) }
{
    match &of.inner {
        TypeInner::Struct { members, .. } => Some(members.as_slice()),
        _ => None,
    }
}

// Adds an item, if it has a name.
fn push_named<'m>(
    items: &mut Vec<NamedItem<'m>>,
    name: &'m Option<String>,
    members: Option<&'m [StructMember]>,
    span: Span,
) -> AllocResult
    ensures { let labels = labels_of members.entry in
        let more = named_item (option_map string_bytes name.now) labels span in
        OnOk result (map named_of items.new.items ≡ map named_of items.old.items ++ more) }
{
    if let Some(name) = named(name) {
        items.push(NamedItem {
            name,
            members,
            span,
        })?;
    }
    Ok(())
}

// Whether a place is requested: it is among some places, or all are.
fn is_asked(at: Option<&PlaceSet>, place: usize) -> bool
    ensures { result ≡ is_asked at.entry place }
{
    at.is_none_or(|places| places.contains(&place))
}

// The types that have names, of all or of those at some places.
fn named_types<'m>(
    alloc: Global,
    of: &'m UniqueArena<Type>,
    at: Option<&PlaceSet>,
) -> AllocResult<Vec<NamedItem<'m>>>
    ensures { let rows = map (λ e. (type_row e.0, e.1)) of.now in
        let told = named_items (items_asked at.entry rows) in
        IfOk result (λ items. map named_of items.items ≡ told) }
{
    let mut items = Vec::new(alloc);
    for (place, ty) in of.items().iter().enumerate() {
        if is_asked(at, place) {
            let span = of.get_span(Index::new(place));
            push_named(&mut items, &ty.name, members(ty), span)?;
        }
    }
    Ok(items)
}

// The constants that have names, of all or of those at some places.
fn named_constants<'m>(
    alloc: Global,
    of: &'m Arena<Constant>,
    at: Option<&PlaceSet>,
) -> AllocResult<Vec<NamedItem<'m>>>
    ensures { let rows = map (λ e. (constant_row e.0, e.1)) of.now in
        let told = named_items (items_asked at.entry rows) in
        IfOk result (λ items. map named_of items.items ≡ told) }
{
    let mut items = Vec::new(alloc);
    for (place, item) in of.as_slice().iter().enumerate() {
        if is_asked(at, place) {
            push_named(&mut items, &item.0.name, None, item.1)?;
        }
    }
    Ok(items)
}

// The globals that have names, of all or of those at some places.
fn named_globals<'m>(
    alloc: Global,
    of: &'m Arena<GlobalVariable>,
    at: Option<&PlaceSet>,
) -> AllocResult<Vec<NamedItem<'m>>>
    ensures { let rows = map (λ e. (global_row e.0, e.1)) of.now in
        let told = named_items (items_asked at.entry rows) in
        IfOk result (λ items. map named_of items.items ≡ told) }
{
    let mut items = Vec::new(alloc);
    for (place, item) in of.as_slice().iter().enumerate() {
        if is_asked(at, place) {
            push_named(&mut items, &item.0.name, None, item.1)?;
        }
    }
    Ok(items)
}

// The functions that have names.
fn named_functions<'m>(alloc: Global, of: &'m Arena<Function>) -> AllocResult<Vec<NamedItem<'m>>>
    ensures { let functions = map (λ e. (function_value e.0, e.1)) of.now in
        let told = named_functions functions in
        IfOk result (λ items. map named_of items.items ≡ told) }
{
    let mut items = Vec::new(alloc);
    for (function, span) in of.as_slice() {
        push_named(&mut items, &function.name, None, *span)?;
    }
    Ok(items)
}

// The first `count` functions.
fn first_functions(of: &Arena<Function>, count: usize) -> &[(Function, Span)]
    ensures { result.now ≡ take count of.now }
{
    let functions = of.as_slice();
    &functions[..count.min(functions.len())]
}

// Items by their names; the last with a name wins.
fn by_name<'b>(alloc: Global, items: &[NamedItem<'b>]) -> AllocResult<Back<'b>>
    ensures { IfOk result (λ back. held back ≡ last_named (map named_of items.now)) }
{
    let mut back = BTreeMap::new(alloc);
    for item in items {
        back.insert(item.name, *item)?;
    }
    Ok(back)
}

// The name of the first member whose name differs on the other side; it is empty if the member has
// none.
fn lost_member<'m>(ours: &'m [StructMember], theirs: &[StructMember]) -> Option<&'m str>
    ensures { let first = lost_member (map member_label ours.now) (map member_label theirs.now) in
        option_map (λ r. r.now) result ≡ first }
{
    let mut pairs = ours.iter().zip(theirs);
    let (our, _) = pairs.find(|(our, their)| our.name != their.name)?;
    Some(named(&our.name).unwrap_or(""))
}

// What is lost of an item: its name, unless an item has that name, as a struct if this is one; or
// else a member.
fn lost_of<'m>(ours: &NamedItem<'m>, theirs: Option<&NamedItem<'_>>) -> Option<&'m str>
    ensures { let back = option_map (λ i. named_of i.now) theirs.entry in
        option_map (λ r. r.now) result ≡ lost_of (named_of ours.now) back }
{
    let Some(theirs) = theirs else {
        return Some(ours.name);
    };
    match (ours.members, theirs.members) {
        (None, _) => None,
        (Some(_), None) => Some(ours.name),
        (Some(ours), Some(theirs)) => lost_member(ours, theirs),
    }
}

// What is lost of an item, with its span, if the name to look for is owned.
fn lost_by<'m>(item: &NamedItem<'m>, by: &str, back: &Back<'_>, owned: &NameSet) -> Lost<'m>
    ensures { let told = lost_by (texts owned.now.keys) by.now (held back.now) in
        seen_lost result ≡ told (named_of item.now) }
{
    if !owned.contains(by) {
        return None;
    }
    match lost_of(item, back.get(by)) {
        Some(name) => Some((name, item.span)),
        None => None,
    }
}

// What is lost of an item that survives under its decorated name.
fn lost_at<'m>(
    alloc: Global,
    item: &NamedItem<'m>,
    back: &Back<'_>,
    owned: &NameSet,
    decoration: &str,
) -> AllocResult<Lost<'m>>
    ensures { let names = texts owned.now.keys in
        let told = lost_at names decoration.now (held back.now) (named_of item.now) in
        IfOk result (λ lost. seen_lost lost ≡ told) }
{
    let name = item.name;
    if decoration.is_empty() {
        return Ok(lost_by(item, name, back, owned));
    }
    let decorated = format!(in alloc; "{name}{decoration}")?;
    Ok(lost_by(item, decorated.as_str(), back, owned))
}

// The first of these items that is lost.
fn lost_among<'m>(
    alloc: Global,
    items: &[NamedItem<'m>],
    back: &[NamedItem<'_>],
    owned: &NameSet,
    decoration: &str,
) -> AllocResult<Lost<'m>>
    ensures { let names = texts owned.now.keys in
        let back = last_named (map named_of back.now) in
        let told = lost_among names decoration.now back (map named_of items.now) in
        IfOk result (λ lost. seen_lost lost ≡ told) }
{
    let back = by_name(alloc, back)?;
    for item in items {
        let lost = lost_at(alloc, item, &back, owned, decoration)?;
        if lost.is_some() {
            return Ok(lost);
        }
    }
    Ok(None)
}

// What is lost of a function, if it has one of the owned names, all of which end with `ending`.
fn lost_function<'m>(
    function: &'m Function,
    span: Span,
    back: &Back<'_>,
    owned: &NameSet,
    ending: &str,
) -> Lost<'m>
    requires { EndWith (texts owned.now.keys) ending.now }
    ensures { let items = named_item (function_value function.now).name None span in
        let told = lost_among (texts owned.now.keys) [] (held back.now) items in
        seen_lost result ≡ told }
{
    if !has_name_ending(function, owned, ending) {
        return None;
    }
    let name = named(&function.name)?;
    let item = NamedItem {
        name,
        members: None,
        span,
    };
    lost_by(&item, name, back, owned)
}

// Whether there is an item of each of these names.
fn have_come_back(names: &NameSet, back: &Back<'_>) -> bool
    ensures { result ≡ have_come_back (held back.now) (texts names.now.keys) }
{
    for name in names.iter() {
        if back.get(name.as_str()).is_none() {
            return false;
        }
    }
    true
}

// The first of these functions that is lost: none if all owned names survive. Most of these end
// with a decoration.
fn lost_among_functions<'m>(
    alloc: Global,
    functions: &'m [(Function, Span)],
    back: &[NamedItem<'_>],
    owned: &NameSet,
    decoration: &str,
) -> AllocResult<Lost<'m>>
    ensures { let ours = named_functions (map (λ e. (function_value e.0, e.1)) functions.now) in
        let back = last_named (map named_of back.now) in
        let told = lost_among (texts owned.now.keys) [] back ours in
        IfOk result (λ lost. seen_lost lost ≡ told) }
{
    let back = by_name(alloc, back)?;
    if have_come_back(owned, &back) {
        return Ok(None);
    }
    let ending = ending_of(owned, decoration);
    for (function, span) in functions {
        let lost = lost_function(function, *span, &back, owned, ending);
        if lost.is_some() {
            return Ok(lost);
        }
    }
    Ok(None)
}

// The first lost item of what a module owns: types, which get the decoration as they are copied,
// then constants, globals, and the first `functions` functions.
fn lost<'m>(
    alloc: Global,
    source: &'m Module,
    own: &OwnItems,
    back: &Module,
    built: &Build,
    functions: usize,
) -> AllocResult<Lost<'m>>
    ensures { let ours = module_value source.now in
        let theirs = module_value back.now in
        let told = lost ours (own_of own.now) theirs (built_of built.now) functions in
        IfOk result (λ first. seen_lost first ≡ told) }
{
    let ours = named_types(alloc, &source.types, Some(&own.types))?;
    let theirs = named_types(alloc, &back.types, None)?;
    let decoration = built.decorated_name.as_str();
    let lost = lost_among(alloc, &ours, &theirs, &built.owned_types, decoration)?;
    if lost.is_some() {
        return Ok(lost);
    }
    let ours = named_constants(alloc, &source.constants, Some(&own.constants))?;
    let theirs = named_constants(alloc, &back.constants, None)?;
    let lost = lost_among(alloc, &ours, &theirs, &built.owned_constants, "")?;
    if lost.is_some() {
        return Ok(lost);
    }
    let ours = named_globals(alloc, &source.global_variables, Some(&own.globals))?;
    let theirs = named_globals(alloc, &back.global_variables, None)?;
    let lost = lost_among(alloc, &ours, &theirs, &built.owned_vars, "")?;
    if lost.is_some() {
        return Ok(lost);
    }
    let ours = first_functions(&source.functions, functions);
    let theirs = named_functions(alloc, &back.functions)?;
    lost_among_functions(alloc, ours, &theirs, &built.owned_functions, decoration)
}

// Fails with the first item that is lost.
fn check_back(
    alloc: Global,
    source: &Module,
    own: &OwnItems,
    back: &Module,
    built: &Build,
    functions: usize,
) -> InnerResult
    ensures { let ours = module_value source.now in
        let theirs = module_value back.now in
        let told = lost ours (own_of own.now) theirs (built_of built.now) functions in
        Gives (λ done. done) result (unless_lost told) }
{
    let Some((name, at)) = lost(alloc, source, own, back, built, functions)? else {
        return Ok(());
    };
    let original = String::from_str(alloc, name)?;
    Err(Inner::InvalidIdentifier { original, at })
}

impl<B: Backend> Builder<'_, B> {
    /// Checks that what a module owns keeps its names when its header is written in WGSL and parsed
    /// again: types, with the members of structs, constants and globals, then the first `functions`
    /// functions. The header must be writable in GLSL as well.
    #[tactic(auto, unfolding(crate::specs::Writeback::came_back))]
    pub(crate) fn came_back(
        &self,
        source: &Module,
        own: &OwnItems,
        built: &Build,
        functions: usize,
    ) -> InnerResult
        ensures { let s = settings_in B.front self.now in
            let ours = module_value source.now in
            let told = came_back s.front s.capabilities ours (own_of own.now) in
            Gives (λ done. done) result (told (built_of built.now) functions) }
    {
        let header = header_of(built);
        let text = self.written(header, ShaderLanguage::Wgsl)?;
        let back = self.parsed(&text, ShaderLanguage::Wgsl)?;
        check_back(self.alloc, source, own, &back, built, functions)?;
        self.written(header, ShaderLanguage::Glsl)?;
        Ok(())
    }
}
