//! The module that is built, and the items that are copied into it.
ghost use Rattle.std.specs.Prelude.{◌≡◌, ◌<◌, ◌↔◌, Some, IsTrue, IfOk, OnOk, OnErr, length, option_map, string_bytes};
ghost use Rattle.naga_oil_ir.specs.declared.names.ItemPlace.{ItemPlace};
ghost use Rattle.naga_oil_derive.specs.World.{value_of, special_entries};
ghost use Rattle.naga_oil_derive.specs.Copyable.{CopyableItems};
ghost use Rattle.naga_oil_derive.specs.DerivedValue.{import_item, rename_type, set_source, place_by};
ghost use Rattle.naga_oil_derive.specs.Derived.{Derived, nothing, cleared, mapped_span, HasItem, Keeps, KeepsItems};

use super::*;

/// The handle of a copy, or out of memory.
pub type HandleResult<T> = AllocResult<Handle<T>>;

mod entries;
mod functions;

/// A module that is built from items and functions of other modules, its sources. Equal items merge: the module's own item
/// keeps its handle and its span.
#[derive(Drop)]
pub struct DerivedModule<'a> {
    pub(crate) shader: Option<&'a Module>,
    pub(crate) copying: Copying,
    pub(crate) function_names: FunctionNames<'a>,
}

impl<'a> Model for DerivedModule<'a> {
    ghost use Rattle.naga_oil_derive.specs.Derived.{Derived};
    ghost use Rattle.naga_oil_derive.specs.DerivedView.{derived_of, IsDerived};

    ghost Value = { Derived };

    ghost view = { λ a.
        derived_of a.shader a.copying.maps a.copying.target a.function_names.entries };

    ghost invariant = { λ a. IsDerived a.shader a.copying.maps a.copying.target };
}

impl<'a> DerivedModule<'a> {
    /// An empty module, with no source.
    pub fn new(alloc: Global) -> Self
        ensures { result ≡ nothing }
    {
        DerivedModule {
            shader: None,
            copying: Copying {
                maps: Maps::empty(alloc),
                target: Module::new(alloc),
                alloc,
            },
            function_names: IndexMap::new(alloc),
        }
    }

    /// An empty module, with no source, and with capacity for `count` functions (rounded up, at most to twice `count`).
    ///
    /// # Errors
    /// If there is no memory.
    pub fn with_functions(alloc: Global, count: usize) -> AllocResult<Self>
        ensures { IfOk result (λ d. d ≡ nothing) }
    {
        let count = rounded_room(count);
        let room = Vec::with_capacity(alloc, count)?;
        let function_names = IndexMap::with_capacity(alloc, count)?;
        let mut target = Module::new(alloc);
        target.functions = Arena::from_items(room);
        let maps = Maps::empty(alloc);
        #[rattlefmt::skip]
        let copying = Copying { maps, target, alloc };
        #[rattlefmt::skip]
        let made = DerivedModule { shader: None, copying, function_names };
        Ok(made)
    }

    /// Sets the source: the module that items are copied from, with its spans shifted by `span_offset` bytes. The special
    /// types of the source are copied at once; a special type that this module has already stands for the source's one with
    /// the same key.
    ///
    /// # Errors
    /// If there is no memory; then no source is set.
    pub fn set_shader_source(&mut self, shader: &'a Module, span_offset: usize) -> AllocResult
        requires { CopyableItems shader.now }
        ensures value { let made = set_source self.old (value_of shader.now) span_offset in
            OnOk result (self.new ≡ made) }
        ensures err { OnErr result (self.new.source ≡ (cleared self.old).source) }
        ensures keeps { KeepsItems self.old self.new }
    {
        self.clear_shader_source();
        let copying = &mut self.copying;
        let entries = special_entries(&shader.special_types, copying.alloc)?;
        copying.maps = Maps::new(shader, span_offset, copying.alloc)?;
        let special = &copying.target.special_types;
        keep_special(&entries, special, &mut copying.maps.types);
        copying.copy_special(shader, &entries)?;
        set_specials(&entries, &copying.maps, &mut copying.target.special_types)?;
        self.shader = Some(shader);
        Ok(())
    }

    /// Returns the source, if one is set.
    pub fn source(&self) -> Option<&'a Module>
        ensures { let set = option_map (λ s. s.value) self.now.source in
            option_map (λ m. value_of m.now) result ≡ set }
    {
        self.shader
    }

    /// Returns the module built so far.
    pub fn module(&self) -> &Module
        ensures { value_of result.now ≡ self.now.target }
    {
        &self.copying.target
    }

    /// Unsets the source.
    pub fn clear_shader_source(&mut self)
        ensures { self.new ≡ cleared self.old }
    {
        self.shader = None;
    }

    /// Returns a span of the source shifted by the source's offset; an undefined span stays as it is.
    pub fn map_span(&self, span: Span) -> Span
        ensures { result ≡ mapped_span self.now.source span }
    {
        if self.shader.is_none() {
            return span;
        }
        self.copying.maps.span(span)
    }

    fn import(&mut self, item: ItemPlace) -> AllocResult
        requires { HasItem self.old item }
        ensures keeps { Keeps self.old self.new }
        ensures value { OnOk result (self.new ≡ import_item self.old item) }
    {
        let Some(shader) = self.shader else {
            return Ok(());
        };
        self.copying.copy_item(shader, &item)
    }

    /// Copies a type of the source after what it names, and returns the handle of the copy.
    pub fn import_type(&mut self, h_type: &Handle<Type>) -> HandleResult<Type>
        requires { HasItem self.old (ItemPlace.TypeItem h_type.now) }
        ensures keeps { Keeps self.old self.new }
        ensures value { let made = import_item self.old (ItemPlace.TypeItem h_type.now) in
            OnOk result (self.new ≡ made) }
        ensures place { IfOk result (λ h. h ≡ place_by (λ m. m.types) self.new.source h_type.now) }
    {
        self.import(ItemPlace::TypeItem(*h_type))?;
        Ok(self.copying.maps.ty(*h_type))
    }

    /// Copies a type of the source under `name`, or under its own name if none is given, and returns the handle of the copy.
    /// A type that was copied before isn't renamed; its copy is returned.
    pub fn rename_type(&mut self, h_type: &Handle<Type>, name: Option<String>) -> HandleResult<Type>
        requires { HasItem self.old (ItemPlace.TypeItem h_type.now) }
        ensures keeps { Keeps self.old self.new }
        ensures value { let text = option_map (λ n. Some (string_bytes n)) name in
            OnOk result (self.new ≡ rename_type self.old h_type.now text) }
        ensures place { IfOk result (λ h. h ≡ place_by (λ m. m.types) self.new.source h_type.now) }
    {
        let Some(shader) = self.shader else {
            return Ok(*h_type);
        };
        self.copying.copy_named_type(shader, *h_type, name)?;
        Ok(self.copying.maps.ty(*h_type))
    }

    /// Copies a constant of the source after what it names, and returns the handle of the copy.
    pub fn import_const(&mut self, h_const: &Handle<Constant>) -> HandleResult<Constant>
        requires { HasItem self.old (ItemPlace.ConstantItem h_const.now) }
        ensures keeps { Keeps self.old self.new }
        ensures value { let made = import_item self.old (ItemPlace.ConstantItem h_const.now) in
            OnOk result (self.new ≡ made) }
        ensures place { let place = place_by (λ m. m.constants) self.new.source h_const.now in
            IfOk result (λ h. h ≡ place) }
    {
        self.import(ItemPlace::ConstantItem(*h_const))?;
        Ok(self.copying.maps.constant(*h_const))
    }

    /// Copies a global variable of the source after what it names, and returns the handle of the copy.
    pub fn import_global(
        &mut self,
        h_global: &Handle<GlobalVariable>,
    ) -> HandleResult<GlobalVariable>
        requires { HasItem self.old (ItemPlace.GlobalItem h_global.now) }
        ensures keeps { Keeps self.old self.new }
        ensures value { let made = import_item self.old (ItemPlace.GlobalItem h_global.now) in
            OnOk result (self.new ≡ made) }
        ensures place { let source = self.new.source in
            IfOk result (λ h. h ≡ place_by (λ m. m.global_variables) source h_global.now) }
    {
        self.import(ItemPlace::GlobalItem(*h_global))?;
        Ok(self.copying.maps.global(*h_global))
    }

    /// Copies a global expression of the source after what it names, and returns the handle of the copy.
    pub fn import_global_expression(
        &mut self,
        h_expr: Handle<Expression>,
    ) -> HandleResult<Expression>
        requires { HasItem self.old (ItemPlace.ExpressionItem h_expr) }
        ensures keeps { Keeps self.old self.new }
        ensures value { let made = import_item self.old (ItemPlace.ExpressionItem h_expr) in
            OnOk result (self.new ≡ made) }
        ensures place { let place = place_by (λ m. m.global_expressions) self.new.source h_expr in
            IfOk result (λ h. h ≡ place) }
    {
        self.import(ItemPlace::ExpressionItem(h_expr))?;
        Ok(self.copying.maps.expression(h_expr))
    }

    /// Copies an override of the source after what it names, and returns the handle of the copy.
    pub fn import_pipeline_override(
        &mut self,
        h_override: &Handle<Override>,
    ) -> HandleResult<Override>
        requires { HasItem self.old (ItemPlace.OverrideItem h_override.now) }
        ensures keeps { Keeps self.old self.new }
        ensures value { let made = import_item self.old (ItemPlace.OverrideItem h_override.now) in
            OnOk result (self.new ≡ made) }
        ensures place { let place = place_by (λ m. m.overrides) self.new.source h_override.now in
            IfOk result (λ h. h ≡ place) }
    {
        self.import(ItemPlace::OverrideItem(*h_override))?;
        Ok(self.copying.maps.pipeline_override(*h_override))
    }

    /// Whether the module has a special type.
    pub fn has_required_special_types(&self) -> bool
        ensures { IsTrue result ↔ (0 < length (special_entries self.now.target.special_types)) }
    {
        let special = &self.copying.target.special_types;
        !special.predeclared_types.is_empty()
            | special.ray_desc.is_some()
            | special.ray_intersection.is_some()
            | special.ray_vertex_return.is_some()
    }
}

/// Returns the arenas and special types, without entry points.
impl From<DerivedModule<'_>> for Module {
    ghost from_gives = { λ d m. value_of m ≡ d.target };

    fn from(derived: DerivedModule<'_>) -> Self {
        derived.copying.target
    }
}
