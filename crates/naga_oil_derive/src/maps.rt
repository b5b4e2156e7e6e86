//! What the items of a source map to.
ghost use Rattle.std.specs.Prelude.{◌≡◌, ℕ, List, replicate, is_some, slice_get, IfOk, None};
ghost use Rattle.std.specs.Option.{option_flatten};
ghost use Rattle.naga_oil_ir.specs.ModuleValue.{no_items};
ghost use Rattle.naga_oil_derive.specs.World.{moved, value_of};
ghost use Rattle.naga_oil_derive.specs.DerivedValue.{no_places};
ghost use Rattle.naga_oil_derive.specs.Copying.{goes_under, renames_under, AreLong, places_of};

use super::*;

/// The handles of the copies of a source's items, and the offset by which spans are shifted.
#[derive(Drop)]
pub struct Maps {
    pub types: Vec<Option<Handle<Type>>>,
    pub constants: Vec<Option<Handle<Constant>>>,
    pub overrides: Vec<Option<Handle<Override>>>,
    pub global_variables: Vec<Option<Handle<GlobalVariable>>>,
    pub global_expressions: Vec<Option<Handle<Expression>>>,
    pub offset: usize,
}

pub(crate) fn nowhere<K>(count: usize, alloc: Global) -> AllocResult<Vec<Option<Index<K>>>>
    ensures { IfOk result (λ v. v.items ≡ replicate count None) }
{
    Ok(vec![in alloc; None; count]?)
}

/// Returns what a list holds at a place, if anything.
pub fn stands_at<T: Copy>(items: &[Option<T>], place: usize) -> Option<T>
    ensures { result ≡ option_flatten (slice_get items.now place) }
{
    items.get(place).copied().flatten()
}

pub(crate) fn place_of<K>(places: &[Option<Index<K>>], handle: Index<K>) -> Option<Index<K>>
    ensures { result ≡ option_flatten (slice_get places.now handle) }
{
    places.get(handle.index()).copied().flatten()
}

fn moved(place: u32, offset: usize) -> u32
    ensures { result ≡ moved offset place }
{
    let moved = (place as usize).saturating_add(offset);
    moved.min(u32::MAX as usize) as u32
}

impl Maps {
    /// The maps of no source.
    pub fn empty(alloc: Global) -> Maps
        ensures offset { result.offset ≡ 0 }
        ensures places { places_of result ≡ no_places no_items }
    {
        Maps {
            types: Vec::new(alloc),
            constants: Vec::new(alloc),
            overrides: Vec::new(alloc),
            global_variables: Vec::new(alloc),
            global_expressions: Vec::new(alloc),
            offset: 0,
        }
    }

    /// The maps of a source of which no item is copied yet.
    pub fn new(source: &Module, offset: usize, alloc: Global) -> AllocResult<Maps>
        ensures offset { IfOk result (λ m. m.offset ≡ offset) }
        ensures long { IfOk result (λ m. AreLong m source.now) }
        ensures places { IfOk result (λ m. places_of m ≡ no_places (value_of source.now)) }
    {
        Ok(Maps {
            types: nowhere(source.types.len(), alloc)?,
            constants: nowhere(source.constants.len(), alloc)?,
            overrides: nowhere(source.overrides.len(), alloc)?,
            global_variables: nowhere(source.global_variables.len(), alloc)?,
            global_expressions: nowhere(source.global_expressions.len(), alloc)?,
            offset,
        })
    }

    /// Whether an item is mapped: it was copied, or a special type of the target stands for it.
    #[tactic(auto, using(crate::proofs::CopyLemmas::is_some_mapped), unfolding(crate::specs::Copying::goes_under, crate::specs::World::goes))]
    pub fn has_gone(&self, item: ItemPlace) -> bool
        ensures { result ≡ is_some (goes_under self.now item) }
    {
        match item {
            ItemPlace::TypeItem(handle) => place_of(&self.types, handle).is_some(),
            ItemPlace::ConstantItem(handle) => place_of(&self.constants, handle).is_some(),
            ItemPlace::OverrideItem(handle) => place_of(&self.overrides, handle).is_some(),
            ItemPlace::GlobalItem(handle) => place_of(&self.global_variables, handle).is_some(),
            ItemPlace::ExpressionItem(place) => place_of(&self.global_expressions, place).is_some(),
        }
    }
}

/// A mapped handle maps to its copy; other handles, functions and ranges stay as they are.
#[rattlefmt::skip]
impl Renaming for Maps {
    ghost renames = { renames_under };

    fn ty(&self, handle: Handle<Type>) -> Handle<Type> { place_of(&self.types, handle).unwrap_or(handle) }
    fn constant(&self, handle: Handle<Constant>) -> Handle<Constant> { place_of(&self.constants, handle).unwrap_or(handle) }
    fn pipeline_override(&self, handle: Handle<Override>) -> Handle<Override> { place_of(&self.overrides, handle).unwrap_or(handle) }
    fn global(&self, handle: Handle<GlobalVariable>) -> Handle<GlobalVariable> { place_of(&self.global_variables, handle).unwrap_or(handle) }
    fn function(&self, handle: Handle<Function>) -> Handle<Function> { handle }
    fn expression(&self, handle: Handle<Expression>) -> Handle<Expression> { place_of(&self.global_expressions, handle).unwrap_or(handle) }
    fn range(&self, range: Range<Expression>) -> Range<Expression> { range }

    /// Returns a span shifted by the offset, at most to the last place that a span can name; an undefined span stays.
    fn span(&self, span: Span) -> Span {
        if span == Span::UNDEFINED { return span; }
        Span::new(moved(span.start, self.offset), moved(span.end, self.offset))
    }
}
