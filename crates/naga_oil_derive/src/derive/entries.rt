//! Copies entry points into the module.
ghost use Rattle.std.specs.Prelude.{◌≡◌, ◌∷◌, [], Some, IsSome, IfOk, OnOk, IfSome, All, map, option_map};
ghost use Rattle.std.specs.Borrow.{Bor};
ghost use Rattle.naga_oil_ir.specs.ModuleValue.{entry_value};
ghost use Rattle.naga_oil_ir.specs.declared.module.Module.{Module as Source};
ghost use Rattle.naga_oil_ir.specs.declared.names.ItemPlace.{ItemPlace};
ghost use Rattle.naga_oil_derive.specs.World.{value_of};
ghost use Rattle.naga_oil_derive.specs.Derived.{Keeps};
ghost use Rattle.naga_oil_derive.specs.DerivedFunctions.{KeepsFunctions};
ghost use Rattle.naga_oil_derive.specs.DerivedView.{source_of};
ghost use Rattle.naga_oil_derive.specs.DerivedValue.{place_by};
ghost use Rattle.naga_oil_derive.specs.CopiedEntry.{import_items, sizes_names, mesh_names, place_expression, place_mesh, entries_state, copy_entry, copy_entries, make_module};
ghost use Rattle.naga_oil_derive.specs.DerivedEntries.{HasNamed, HasSizes, HasMesh, CanCopyEntry, CanCopyEntries};

use super::*;

type Sizes = Option<[Option<Operand>; 3]>;

type Payload = Option<Handle<GlobalVariable>>;

fn placed_expression(maps: &Maps, expression: Option<Operand>) -> Option<Operand>
    ensures { (s : Bor Source) →
        result ≡ place_expression (Some (source_of maps.now s)) expression }
{
    Some(maps.expression(expression?))
}

fn placed_payload(maps: &Maps, payload: Payload) -> Payload
    ensures { (s : Bor Source) →
        let place = place_by (λ p. p.global_variables) (Some (source_of maps.now s)) in
        result ≡ option_map place payload }
{
    Some(maps.global(payload?))
}

fn placed_sizes(maps: &Maps, sizes: Sizes) -> Sizes
    ensures { (s : Bor Source) →
        result ≡ option_map (map (place_expression (Some (source_of maps.now s)))) sizes }
{
    let sizes = sizes?;
    let x = placed_expression(maps, sizes[0]);
    let y = placed_expression(maps, sizes[1]);
    let z = placed_expression(maps, sizes[2]);
    Some([x, y, z])
}

fn placed_mesh(maps: &Maps, mesh: Option<MeshInfo>) -> Option<MeshInfo>
    ensures { (s : Bor Source) →
        result ≡ option_map (place_mesh (Some (source_of maps.now s))) mesh }
{
    let mesh = mesh?;
    Some(MeshInfo {
        vertex_output_type: maps.ty(mesh.vertex_output_type),
        primitive_output_type: maps.ty(mesh.primitive_output_type),
        output: maps.global(mesh.output),
        max_vertices: placed_expression(maps, mesh.max_vertices),
        max_primitives: placed_expression(maps, mesh.max_primitives),
        topology: mesh.topology,
    })
}

impl<'a> DerivedModule<'a> {
    fn import_some(&mut self, item: Option<ItemPlace>) -> AllocResult
        requires { HasNamed self.old item }
        ensures value { OnOk result (self.new ≡ import_items self.old (item ∷ [])) }
        ensures keeps { Keeps self.old self.new }
    {
        match item {
            None => Ok(()),
            Some(item) => self.import(item),
        }
    }

    fn import_sizes(&mut self, sizes: Sizes) -> AllocResult
        requires { HasSizes self.old sizes }
        ensures value { OnOk result (self.new ≡ import_items self.old (sizes_names sizes)) }
        ensures keeps { Keeps self.old self.new }
    {
        let Some(sizes) = sizes else { return Ok(()) };
        self.import_some(sizes[0].map(ItemPlace::ExpressionItem))?;
        self.import_some(sizes[1].map(ItemPlace::ExpressionItem))?;
        self.import_some(sizes[2].map(ItemPlace::ExpressionItem))
    }

    fn import_mesh(&mut self, mesh: Option<MeshInfo>) -> AllocResult
        requires { IfSome mesh (HasMesh self.old) }
        ensures value { OnOk result (self.new ≡ import_items self.old (mesh_names mesh)) }
        ensures keeps { Keeps self.old self.new }
    {
        let Some(mesh) = mesh else { return Ok(()) };
        self.import(ItemPlace::TypeItem(mesh.vertex_output_type))?;
        self.import(ItemPlace::TypeItem(mesh.primitive_output_type))?;
        self.import(ItemPlace::GlobalItem(mesh.output))?;
        self.import_some(mesh.max_vertices.map(ItemPlace::ExpressionItem))?;
        self.import_some(mesh.max_primitives.map(ItemPlace::ExpressionItem))
    }

    /// Returns a copy of an entry point of the source, after copying what it names.
    fn copied_entry(&mut self, entry: &EntryPoint) -> AllocResult<EntryPoint>
        requires { CanCopyEntry self.old (entry_value entry.now) }
        ensures value { let made = copy_entry (entries_state self.old []) (entry_value entry.now) in
            IfOk result (λ e. entries_state self.new (entry_value e ∷ []) ≡ made) }
        ensures keeps { KeepsFunctions self.old self.new }
    {
        let function = self.localize_function(&entry.function)?;
        self.import_sizes(entry.workgroup_size_overrides)?;
        self.import_mesh(entry.mesh_info)?;
        self.import_some(entry.task_payload.map(ItemPlace::GlobalItem))?;
        let name = entry.name.clone()?;
        let maps = &self.copying.maps;
        Ok(EntryPoint {
            name,
            stage: entry.stage,
            early_depth_test: entry.early_depth_test,
            workgroup_size: entry.workgroup_size,
            workgroup_size_overrides: placed_sizes(maps, entry.workgroup_size_overrides),
            function,
            mesh_info: placed_mesh(maps, entry.mesh_info),
            task_payload: placed_payload(maps, entry.task_payload),
        })
    }

    fn copied_entries(&mut self, entries: &[EntryPoint]) -> AllocResult<Vec<EntryPoint>>
        requires { All (λ e. CanCopyEntry self.old (entry_value e)) entries.now }
        ensures value { let values = map entry_value entries.now in
            let made = copy_entries (entries_state self.old []) values in
            IfOk result (λ v. entries_state self.new (map entry_value v.items) ≡ made) }
        ensures keeps { KeepsFunctions self.old self.new }
    {
        let mut copies = Vec::new(self.copying.alloc);
        for entry in entries {
            copies.push(self.copied_entry(entry)?)?;
        }
        Ok(copies)
    }

    /// Returns the module with copies of the source's entry points.
    pub fn into_module_with_entrypoints(mut self) -> AllocResult<Module>
        requires set { IsSome self.source }
        requires entries { CanCopyEntries self }
        ensures value { IfOk result (λ m. value_of m ≡ make_module self.entry) }
    {
        let source = self.shader.unwrap();
        let entries = self.copied_entries(&source.entry_points)?;
        let mut module = Module::from(self);
        module.entry_points = entries;
        Ok(module)
    }
}
