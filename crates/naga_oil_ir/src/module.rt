// A module, its functions and its entry points.
ghost use Rattle.std.specs.Prelude.{◌≡◌, [], None};
ghost use Rattle.naga_oil_ir.specs.Specials.{LacksSpecialTypes};

use super::*;
use indexmap::IndexMap;
use std::alloc::Global;

/// An argument of a function.
#[derive(Drop)]
pub struct FunctionArgument {
    pub name: Option<String>,
    pub ty: Handle<Type>,
    pub binding: Option<u64>,
}

/// The result of a function.
#[derive(Clone, Copy)]
pub struct FunctionResult {
    pub ty: Handle<Type>,
    pub binding: Option<u64>,
}

/// A function.
#[derive(Drop)]
pub struct Function {
    pub name: Option<String>,
    pub arguments: Vec<FunctionArgument>,
    pub result: Option<FunctionResult>,
    pub local_variables: Arena<LocalVariable>,
    pub expressions: Arena<Expression>,
    pub named_expressions: NamedExpressions,
    pub body: Block,
    pub diagnostic_filter_leaf: Option<u64>,
}

impl Item for Function {
    type Kind = kind::Function;

    ghost digest = { λ _. 0 };

    fn digest(&self) -> u64 {
        0
    }
}

/// The output of a mesh shader.
#[derive(Clone, Copy)]
pub struct MeshInfo {
    pub vertex_output_type: Handle<Type>,
    pub primitive_output_type: Handle<Type>,
    pub output: Handle<GlobalVariable>,
    pub max_vertices: Option<Handle<Expression>>,
    pub max_primitives: Option<Handle<Expression>>,
    pub topology: u64,
}

/// An entry point: where a pipeline starts.
#[derive(Drop)]
pub struct EntryPoint {
    pub name: String,
    pub stage: u64,
    pub early_depth_test: Option<u64>,
    pub workgroup_size: [u32; 3],
    pub workgroup_size_overrides: Option<[Option<Handle<Expression>>; 3]>,
    pub function: Function,
    pub mesh_info: Option<MeshInfo>,
    pub task_payload: Option<Handle<GlobalVariable>>,
}

/// The types with a meaning of their own.
#[derive(Drop)]
pub struct SpecialTypes {
    pub ray_desc: Option<Handle<Type>>,
    pub ray_intersection: Option<Handle<Type>>,
    pub ray_vertex_return: Option<Handle<Type>>,
    pub predeclared_types: IndexMap<u64, Handle<Type>>,
}

/// A module.
#[derive(Drop)]
pub struct Module {
    pub types: UniqueArena<Type>,
    pub special_types: SpecialTypes,
    pub constants: Arena<Constant>,
    pub overrides: Arena<Override>,
    pub global_variables: Arena<GlobalVariable>,
    pub global_expressions: Arena<Expression>,
    pub functions: Arena<Function>,
    pub entry_points: Vec<EntryPoint>,
    pub diagnostic_filters: Vec<u64>,
    pub diagnostic_filter_leaf: Option<u64>,
    pub doc_comments: Option<Vec<u64>>,
}

impl Module {
    /// Returns the module without items.
    pub fn new(alloc: Global) -> Self
        ensures special { LacksSpecialTypes result.special_types }
        ensures items { (result.types ≡ []) × (result.constants ≡ []) × (result.overrides ≡ [])
            × (result.global_variables ≡ []) × (result.global_expressions ≡ []) }
        ensures functions { (result.functions ≡ []) × (result.entry_points.items ≡ []) }
        ensures rest { (result.diagnostic_filters.items ≡ [])
            × (result.diagnostic_filter_leaf ≡ None) × (result.doc_comments ≡ None) }
    {
        Module {
            types: UniqueArena::new(alloc),
            special_types: SpecialTypes {
                ray_desc: None,
                ray_intersection: None,
                ray_vertex_return: None,
                predeclared_types: IndexMap::new(alloc),
            },
            constants: Arena::new(alloc),
            overrides: Arena::new(alloc),
            global_variables: Arena::new(alloc),
            global_expressions: Arena::new(alloc),
            functions: Arena::new(alloc),
            entry_points: Vec::new(alloc),
            diagnostic_filters: Vec::new(alloc),
            diagnostic_filter_leaf: None,
            doc_comments: None,
        }
    }
}
