//! Items that are copied after what they name.
ghost use Rattle.std.specs.Prelude.{◌≡◌, ◌<◌, ◌+◌, ◌++◌, ◌∷◌, [], All, Some, IfSome, IfOk, OnOk, OnErr, option_map, option_copied, string_bytes};
ghost use Rattle.std.specs.List.{sum_by};
ghost use Rattle.naga_oil_derive.specs.World.{value_of, world};
ghost use Rattle.naga_oil_derive.specs.Copied.{copy_state, put_type, put, copy_item, copy_all, copy_named_type};
ghost use Rattle.naga_oil_derive.specs.Copying.{IsThere, AreRanked, IsBelowItem, AreLong, IsCopying, AreNames, goes_under, special_names};
ghost use Rattle.naga_oil_derive.specs.Putting.{Putting, TypePutting};
ghost use Rattle.naga_oil_derive.specs.Stubs.{argument_types, signature_types};
ghost use Rattle.naga_oil_derive.specs.Waiting.{AreItemsWaiting, AwaitsItem, finish_item, finish_items, waiting_steps};

use super::*;

fn names_of<T: Names>(item: Option<&T>, alloc: Global) -> AllocResult<NameList>
    ensures { IfOk result (λ v. AreNames (option_map T.row_of (option_copied item.entry)) v.items) }
{
    match item {
        Some(item) => item.names(alloc),
        None => Ok(Vec::new(alloc)),
    }
}

/// Returns what the item at a place names, in the order of copying.
fn names_at(source: &Module, item: ItemPlace, alloc: Global) -> AllocResult<NameList>
    ensures { IfOk result (λ v. AreNames (world (value_of source.now) item) v.items) }
{
    match item {
        ItemPlace::TypeItem(h) => names_of(source.types.get_handle(h), alloc),
        ItemPlace::ConstantItem(h) => names_of(source.constants.try_get(h), alloc),
        ItemPlace::OverrideItem(h) => names_of(source.overrides.try_get(h), alloc),
        ItemPlace::GlobalItem(h) => names_of(source.global_variables.try_get(h), alloc),
        ItemPlace::ExpressionItem(h) => names_of(source.global_expressions.try_get(h), alloc),
    }
}

/// An item that waits until what it names is copied.
#[derive(Drop)]
pub struct Waiting {
    pub item: ItemPlace,
    pub names: NameList,
    /// The number of names that are copied.
    pub copied: usize,
}

/// The state of copying: what the items of a source map to, and the module that they are copied into.
#[derive(Drop)]
pub struct Copying {
    pub maps: Maps,
    pub target: Module,
    pub alloc: Global,
}

/// Copies an item, after what it names was copied.
macro_rules! copy {
    ($copying:expr, $source:ident, $handle:ident, $arena:ident, $renamed:ident $(, $alloc:expr)?) => {{
        let Some(item) = $source.$arena.try_get($handle) else {
            return Ok(());
        };
        let copy = $renamed(&$copying.maps, item $(, $alloc)?)?;
        let span = $copying.maps.span($source.$arena.get_span($handle));
        let place = $copying.target.$arena.fetch_or_append(copy, span)?;
        $copying.maps.$arena[$handle.index()] = Some(place);
        Ok(())
    }};
}

impl Copying {
    /// Copies a type, under `name` if one is given, after what it names was copied.
    fn copy_type(&mut self, source: &Module, handle: Handle<Type>, name: Name) -> AllocResult
        requires there { IsThere source.now (ItemPlace.TypeItem handle) }
        requires long { AreLong self.old.maps source.now }
        ensures put { let old = copy_state self.old.maps self.old.target in
            let new = copy_state self.new.maps self.new.target in
            let text = option_map (λ n. Some (string_bytes n)) name in
            let m = value_of source.now in
            OnOk result (new ≡ put_type m self.old.maps.offset text old handle) }
        ensures offset { self.new.maps.offset ≡ self.old.maps.offset }
        ensures err { OnErr result
            ((self.new.target ≡ self.old.target) × (self.new.maps ≡ self.old.maps)) }
    {
        let Some(item) = source.types.get_handle(handle) else {
            return Ok(());
        };
        let copy = renamed_type(&self.maps, item, name, self.alloc)?;
        let span = self.maps.span(source.types.get_span(handle));
        let place = self.target.types.insert(copy, span)?;
        self.maps.types[handle.index()] = Some(place);
        Ok(())
    }

    /// Copies the item at a place, after what it names was copied.
    #[rattlefmt::skip]
    fn copy_alone(&mut self, source: &Module, item: ItemPlace) -> AllocResult
        requires there { IsThere source.now item }
        requires long { AreLong self.old.maps source.now }
        ensures put { let old = copy_state self.old.maps self.old.target in
            let new = copy_state self.new.maps self.new.target in
            OnOk result (new ≡ put (value_of source.now) self.old.maps.offset old item) }
        ensures offset { self.new.maps.offset ≡ self.old.maps.offset }
        ensures err { OnErr result
            ((self.new.target ≡ self.old.target) × (self.new.maps ≡ self.old.maps)) }
    {
        match item {
            ItemPlace::TypeItem(h) => self.copy_type(source, h, None),
            ItemPlace::ConstantItem(h) => copy!(self, source, h, constants, renamed_constant),
            ItemPlace::OverrideItem(h) => copy!(self, source, h, overrides, renamed_override),
            ItemPlace::GlobalItem(h) => copy!(self, source, h, global_variables, renamed_global),
            ItemPlace::ExpressionItem(h) => copy!(self, source, h, global_expressions, renamed_expression, self.alloc),
        }
    }

    /// Returns the item that a name means as a waiting one, unless that item was copied before.
    fn awaited(&self, source: &Module, name: &Option<ItemPlace>) -> AllocResult<Option<Waiting>>
        requires { IfSome name.now (IsThere source.now) }
        ensures { IfOk result (AwaitsItem source.now (goes_under self.now.maps) name.now) }
    {
        let Some(item) = name else { return Ok(None) };
        if self.maps.has_gone(*item) {
            return Ok(None);
        }
        let names = names_at(source, *item, self.alloc)?;
        Ok(Some(Waiting {
            item: *item,
            names,
            copied: 0,
        }))
    }

    /// Adds the next item that `top` names to `waiting`, or copies the item of `top` if no name is left.
    fn copy_next(
        &mut self,
        source: &Module,
        mut top: Waiting,
        waiting: &mut Vec<Waiting>,
    ) -> AllocResult
        requires ranked { AreRanked source.now }
        requires copying { IsCopying source.now self.old.target self.old.maps }
        requires waiting { let went = goes_under self.old.maps in
            AreItemsWaiting source.now went (waiting.old.items ++ top ∷ []) }
        ensures waiting { let went = goes_under self.new.maps in
            OnOk result (AreItemsWaiting source.now went waiting.new.items) }
        ensures copied { let m = value_of source.now in
            let shift = self.old.maps.offset in
            let old = copy_state self.old.maps self.old.target in
            let new = copy_state self.new.maps self.new.target in
            let made = finish_items m shift (finish_item m shift old top) waiting.old.items in
            OnOk result (finish_items m shift new waiting.new.items ≡ made) }
        ensures fewer { let m = value_of source.now in
            let old = sum_by (waiting_steps m) waiting.old.items in
            OnOk result (sum_by (waiting_steps m) waiting.new.items < old + waiting_steps m top) }
        ensures putting { let old = copy_state self.old.maps self.old.target in
            let new = copy_state self.new.maps self.new.target in
            Putting (value_of source.now) self.old.maps.offset old new }
        ensures offset { self.new.maps.offset ≡ self.old.maps.offset }
    {
        let Some(name) = top.names.get(top.copied).copied() else {
            return self.copy_alone(source, top.item);
        };
        let following = self.awaited(source, &name)?;
        top.copied += 1;
        waiting.push(top)?;
        if let Some(following) = following {
            waiting.push(following)?;
        }
        Ok(())
    }

    /// Copies the waiting items, the last one first, each after what it names.
    fn copy_waiting(&mut self, source: &Module, mut waiting: Vec<Waiting>) -> AllocResult
        requires ranked { AreRanked source.now }
        requires copying { IsCopying source.now self.old.target self.old.maps }
        requires waiting { AreItemsWaiting source.now (goes_under self.old.maps) waiting.items }
        ensures copied { let m = value_of source.now in
            let old = copy_state self.old.maps self.old.target in
            let new = copy_state self.new.maps self.new.target in
            OnOk result (new ≡ finish_items m self.old.maps.offset old waiting.items) }
        ensures putting { let old = copy_state self.old.maps self.old.target in
            let new = copy_state self.new.maps self.new.target in
            Putting (value_of source.now) self.old.maps.offset old new }
        ensures offset { self.new.maps.offset ≡ self.old.maps.offset }
    {
        while let Some(top) = waiting.pop() {
            self.copy_next(source, top, &mut waiting)?;
        }
        Ok(())
    }

    /// Copies what an item names.
    fn copy_names(
        &mut self,
        source: &Module,
        item: &ItemPlace,
        list: &[Option<ItemPlace>],
    ) -> AllocResult
        requires ranked { AreRanked source.now }
        requires below { All (IsBelowItem source.now item.now) list.now }
        requires copying { IsCopying source.now self.old.target self.old.maps }
        ensures copied { let old = copy_state self.old.maps self.old.target in
            let new = copy_state self.new.maps self.new.target in
            OnOk result (new ≡ copy_all (value_of source.now) self.old.maps.offset old list.now) }
        ensures putting { let old = copy_state self.old.maps self.old.target in
            let new = copy_state self.new.maps self.new.target in
            Putting (value_of source.now) self.old.maps.offset old new }
        ensures offset { self.new.maps.offset ≡ self.old.maps.offset }
    {
        for name in list {
            let Some(place) = name else { continue };
            self.copy_item(source, place)?;
        }
        Ok(())
    }

    /// Copies the item at a place into the target, after what it names; items that were copied before aren't copied again.
    pub fn copy_item(&mut self, source: &Module, item: &ItemPlace) -> AllocResult
        requires there { IsThere source.now item.now }
        requires ranked { AreRanked source.now }
        requires copying { IsCopying source.now self.old.target self.old.maps }
        ensures copied { let old = copy_state self.old.maps self.old.target in
            let new = copy_state self.new.maps self.new.target in
            OnOk result (new ≡ copy_item (value_of source.now) self.old.maps.offset old item.now) }
        ensures putting { let old = copy_state self.old.maps self.old.target in
            let new = copy_state self.new.maps self.new.target in
            Putting (value_of source.now) self.old.maps.offset old new }
        ensures offset { self.new.maps.offset ≡ self.old.maps.offset }
    {
        // Most items were copied before.
        if self.maps.has_gone(*item) {
            return Ok(());
        }
        let Some(first) = self.awaited(source, &Some(*item))? else {
            return Ok(());
        };
        let mut waiting = Vec::new(self.alloc);
        waiting.push(first)?;
        self.copy_waiting(source, waiting)
    }

    /// Copies a type, under `name` if one is given, after what it names; items that were copied before aren't copied again.
    pub fn copy_named_type(
        &mut self,
        source: &Module,
        handle: Handle<Type>,
        name: Name,
    ) -> AllocResult
        requires there { IsThere source.now (ItemPlace.TypeItem handle) }
        requires ranked { AreRanked source.now }
        requires copying { IsCopying source.now self.old.target self.old.maps }
        ensures copied { let old = copy_state self.old.maps self.old.target in
            let new = copy_state self.new.maps self.new.target in
            let text = option_map (λ n. Some (string_bytes n)) name in
            let m = value_of source.now in
            OnOk result (new ≡ copy_named_type m self.old.maps.offset text old handle) }
        ensures putting { let old = copy_state self.old.maps self.old.target in
            let new = copy_state self.new.maps self.new.target in
            let text = option_map (λ n. Some (string_bytes n)) name in
            TypePutting (value_of source.now) self.old.maps.offset text handle old new }
        ensures offset { self.new.maps.offset ≡ self.old.maps.offset }
    {
        let item = ItemPlace::TypeItem(handle);
        if self.maps.has_gone(item) {
            return Ok(());
        }
        let names = names_at(source, item, self.alloc)?;
        self.copy_names(source, &item, &names)?;
        self.copy_type(source, handle, name)?;
        Ok(())
    }

    /// Copies the types of arguments.
    fn copy_arguments(&mut self, source: &Module, arguments: &[FunctionArgument]) -> AllocResult
        requires ranked { AreRanked source.now }
        requires there { All (λ a. IsThere source.now (ItemPlace.TypeItem a.ty)) arguments.now }
        requires copying { IsCopying source.now self.old.target self.old.maps }
        ensures copied { let old = copy_state self.old.maps self.old.target in
            let new = copy_state self.new.maps self.new.target in
            let m = value_of source.now in
            OnOk result (new ≡ copy_all m self.old.maps.offset old (argument_types arguments.now)) }
        ensures putting { let old = copy_state self.old.maps self.old.target in
            let new = copy_state self.new.maps self.new.target in
            Putting (value_of source.now) self.old.maps.offset old new }
        ensures offset { self.new.maps.offset ≡ self.old.maps.offset }
    {
        for argument in arguments {
            self.copy_item(source, &ItemPlace::TypeItem(argument.ty))?;
        }
        Ok(())
    }

    /// Copies the types of a function's arguments and its result.
    pub fn copy_signature(&mut self, source: &Module, function: &Function) -> AllocResult
        requires ranked { AreRanked source.now }
        requires arguments { let arguments = function.now.arguments.items in
            All (λ a. IsThere source.now (ItemPlace.TypeItem a.ty)) arguments }
        requires outcome { let outcome = function.now.result in
            IfSome outcome (λ r. IsThere source.now (ItemPlace.TypeItem r.ty)) }
        requires copying { IsCopying source.now self.old.target self.old.maps }
        ensures copied { let old = copy_state self.old.maps self.old.target in
            let new = copy_state self.new.maps self.new.target in
            let m = value_of source.now in
            OnOk result (new ≡ copy_all m self.old.maps.offset old (signature_types function.now)) }
        ensures putting { let old = copy_state self.old.maps self.old.target in
            let new = copy_state self.new.maps self.new.target in
            Putting (value_of source.now) self.old.maps.offset old new }
        ensures offset { self.new.maps.offset ≡ self.old.maps.offset }
    {
        self.copy_arguments(source, &function.arguments)?;
        match function.result {
            Some(outcome) => self.copy_item(source, &ItemPlace::TypeItem(outcome.ty)),
            None => Ok(()),
        }
    }

    /// Copies the special types of a source.
    pub fn copy_special(&mut self, source: &Module, entries: &[SpecialEntry]) -> AllocResult
        requires ranked { AreRanked source.now }
        requires there { All (λ e. IsThere source.now (ItemPlace.TypeItem e.1)) entries.now }
        requires copying { IsCopying source.now self.old.target self.old.maps }
        ensures copied { let old = copy_state self.old.maps self.old.target in
            let new = copy_state self.new.maps self.new.target in
            let m = value_of source.now in
            OnOk result (new ≡ copy_all m self.old.maps.offset old (special_names entries.now)) }
        ensures putting { let old = copy_state self.old.maps self.old.target in
            let new = copy_state self.new.maps self.new.target in
            Putting (value_of source.now) self.old.maps.offset old new }
        ensures offset { self.new.maps.offset ≡ self.old.maps.offset }
    {
        for (_, handle) in entries {
            self.copy_item(source, &ItemPlace::TypeItem(*handle))?;
        }
        Ok(())
    }
}
