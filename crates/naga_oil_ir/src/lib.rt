//! The intermediate form of a shader: types, constants, overrides, global variables, functions and entry points in arenas.
//!
//! `arena` holds items with spans, as a list or as a set; `firsts` is the index of a list; `handle` names the places of items.
//! `types`, `expression`, `statement` and `module` define the items. `parts`, `names` and `tokens` read an expression, an item
//! and a body by one list each. `room` rounds the capacity that is reserved ahead. `backend` is the trait of front ends.
//!
//! An equal item is found in expected constant time, averaged over all searches, if the hasher spreads the items. A list of at
//! most 16 items is searched from its first item instead, and has no index.
#![tactic(auto)]

pub mod arena;
pub mod backend;
pub mod expression;
pub mod firsts;
pub mod handle;
pub mod kind;
pub mod language;
pub mod module;
pub mod named_expressions;
pub mod names;
pub mod parts;
pub mod redirect_error;
pub mod room;
pub mod span;
pub mod statement;
pub mod tokens;
pub mod types;

pub use arena::{Arena, UniqueArena};
pub use backend::{Backend, BackendRefusal, Capabilities, ParseFault, ValidFault, WriteFault};
pub use expression::{Expression, ImageLoad, ImageQuery, ImageSample, Math, Operand, SampleLevel};
pub use handle::{Handle, Index, Item, Merge, PlaceRange, Range};
pub use language::ShaderLanguage;
pub use module::{
    EntryPoint, Function, FunctionArgument, FunctionResult, MeshInfo, Module, SpecialTypes,
};
pub use named_expressions::NamedExpressions;
pub use names::{ItemPlace, NameList, Names};
pub use parts::{
    ExpressionParts, FIRST_OPERATION_KIND, FIRST_RESULT_KIND, GLOBAL_VARIABLE_KIND,
    LAST_EXTERNAL_KIND, LAST_RESULT_KIND, Named,
};
pub use redirect_error::RedirectError;
pub use room::rounded_room;
pub use span::{MAX_MODULES, SPAN_SHIFT, Span};
pub use statement::{Block, RayQueryFunction, Statement, SwitchCase};
pub use tokens::{Token, push_block};
pub use types::{
    ArraySize, Constant, GlobalVariable, LocalVariable, Override, StructMember, Type, TypeInner,
};
