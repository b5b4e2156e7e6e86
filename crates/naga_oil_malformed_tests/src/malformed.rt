// Modules that break one clause of the test of form, given by a front end.
mod parts;

use naga_oil::compose::{
    ComposableModuleDescriptor, Composer, ComposerError, ComposerErrorInner, ErrSource,
    NagaModuleDescriptor,
};
use naga_oil_ir::{
    Backend, BackendRefusal, Capabilities, Index, MeshInfo, Module, ParseFault, ShaderLanguage,
    Span, ValidFault, WriteFault,
};
use parts::{constants, entries, functions, globals, overrides, special, types, values};
use std::alloc::{AllocError, Global};
use std::marker::Model;
use std::process::Abort;
use std::test::Fail;

// The items of a module: a scalar, an array of which an override is the size, and so on.
#[derive(Clone, Copy)]
struct Items {
    type_name: Option<&'static str>,
    base: usize,
    array_size: Option<usize>,
    type_span: Span,
    special: Option<usize>,
    other_special: Option<usize>,
    constant: (usize, usize),
    constant_span: Span,
    size: usize,
    size_init: Option<usize>,
    size_span: Span,
    global: usize,
    global_span: Span,
    zero: usize,
    operand: usize,
    held: Sort,
    value_span: Span,
}

// The kind of an expression, and the place of what it names.
type Sort = (u64, usize);

// A function that calls another one, emits and returns.
#[derive(Clone, Copy)]
struct Caller {
    name: Option<&'static str>,
    argument: usize,
    result: usize,
    local: (usize, usize),
    local_span: Span,
    named: usize,
    first: Sort,
    zero: usize,
    result_of: usize,
    operand: usize,
    expression_span: Span,
    called: usize,
    given: usize,
    emitted: (usize, usize),
    returned: usize,
    statement_span: Span,
}

// The function of these numbers.
#[derive(Drop)]
struct Calling(Caller);

impl Model for Calling {
    ghost use Rattle.std.specs.Prelude.{[], ◌∷◌, Some, None, option_map, codes};
    ghost use Rattle.naga_oil_ir.specs.ModuleValue.{FunctionValue};
    ghost use Rattle.naga_oil_ir.specs.Parts.{expr};
    ghost use Rattle.naga_oil_ir.specs.declared.parts.Named.TheVariants.{TypeOf, FunctionAt, Nothing};
    ghost use Rattle.naga_oil_malformed_tests.specs.Said.{expression_said};
    ghost use Rattle.naga_oil_ir.specs.declared.tokens.Token.TheVariants.{At, Head, Use, GiveCall, Emitted, Callee};

    ghost Value = { FunctionValue };

    ghost view = { λ c. record {
      name = option_map (λ s. s.now) c.0.name;
      arguments = record { name = None; ty = c.0.argument; binding = None } ∷ [];
      result = Some (record { ty = c.0.result; binding = None });
      local_variables =
          (record { name = None; ty = c.0.local.0; init = Some c.0.local.1 }, c.0.local_span)
          ∷ [];
      expressions =
          (expression_said c.0.first.0 c.0.first.1, c.0.expression_span)
          ∷ (expr 1 [] (TypeOf c.0.zero) [], c.0.expression_span)
          ∷ (expr 7 [] (FunctionAt c.0.result_of) [], c.0.expression_span)
          ∷ (expr 22 (0 ∷ []) Nothing (Some c.0.operand ∷ []), c.0.expression_span) ∷ [];
      named_expressions = (c.0.named, codes "x") ∷ [];
      body =
          At c.0.statement_span ∷ Head 16 ∷ Callee c.0.called ∷ GiveCall c.0.called c.0.given
          ∷ At c.0.statement_span ∷ Head 0 ∷ Emitted c.0.emitted
          ∷ At c.0.statement_span ∷ Head 10 ∷ Use c.0.returned ∷ [];
      diagnostic_filter_leaf = None;
    } };
}

// A function with only a result type.
#[derive(Drop)]
struct Plain {
    name: Option<&'static str>,
    result: usize,
}

impl Model for Plain {
    ghost use Rattle.std.specs.Prelude.{[], Some, None, option_map};
    ghost use Rattle.naga_oil_ir.specs.ModuleValue.{FunctionValue};

    ghost Value = { FunctionValue };

    ghost view = { λ p. record {
      name = option_map (λ s. s.now) p.name;
      arguments = [];
      result = Some (record { ty = p.result; binding = None });
      local_variables = [];
      expressions = [];
      named_expressions = [];
      body = [];
      diagnostic_filter_leaf = None;
    } };
}

// An entry point of a mesh shader.
#[derive(Drop)]
struct Entry {
    function: Plain,
    size: usize,
    mesh: Option<MeshInfo>,
    payload: usize,
}

impl Model for Entry {
    ghost use Rattle.std.specs.Prelude.{[], ◌∷◌, Some, None};
    ghost use Rattle.naga_oil_ir.specs.ModuleValue.{EntryValue};

    ghost Value = { EntryValue };

    ghost view = { λ e. record {
      name = [];
      stage = 2;
      early_depth_test = None;
      workgroup_size = 1 ∷ 1 ∷ 1 ∷ [];
      workgroup_size_overrides = Some (None ∷ Some e.size ∷ None ∷ []);
      function = e.function;
      mesh_info = e.mesh;
      task_payload = Some e.payload;
    } };
}

// A front end that reads each text as one of these modules.
#[derive(Drop)]
struct Malformed {
    items: Items,
    first: Plain,
    second: Calling,
    span: Span,
    entry: Entry,
    other: Entry,
}

impl Backend for Malformed {
    ghost use Rattle.std.specs.Prelude.{[], ◌∷◌, Some, None, Ok, option_map, unwrap_or};
    ghost use Rattle.naga_oil_ir.specs.Rows.{constant_row, override_row, global_row, type_row};
    ghost use Rattle.naga_oil_ir.specs.Parts.{expr};
    ghost use Rattle.naga_oil_ir.specs.declared.parts.Named.TheVariants.{TypeOf, Nothing};
    ghost use Rattle.naga_oil_ir.specs.declared.types.TypeInner.TheVariants.{Array};
    ghost use Rattle.naga_oil_ir.specs.declared.types.ArraySize.TheVariants.{Pending, Dynamic};
    ghost use Rattle.naga_oil_ir.specs.Rows.{TypeKind, row};
    ghost use Rattle.naga_oil_malformed_tests.specs.Said.{expression_said};

    ghost front = { λ p. record {
      parse = λ language text. Ok (record {
        types = (
          row (TypeKind 0) (option_map (λ s. s.now) p.items.type_name) (Some 1 ∷ []) [] [],
          p.items.type_span,
        )
            ∷ (
              type_row (record {
                name = None;
                inner = Array p.items.base
                    (unwrap_or (option_map (λ o. Pending o) p.items.array_size) Dynamic) 4;
              }),
              p.items.type_span,
            ) ∷ [];
        special_types = record {
          ray_desc = p.items.special;
          ray_intersection = p.items.other_special;
          ray_vertex_return = None;
          predeclared_types = [];
        };
        constants = (
          constant_row (record { name = None; ty = p.items.constant.0; init = p.items.constant.1 }),
          p.items.constant_span,
        ) ∷ [];
        overrides = (
          override_row (record {
            name = None;
            id = None;
            ty = p.items.size;
            init = p.items.size_init;
          }),
          p.items.size_span,
        ) ∷ [];
        global_variables = (
          global_row (record {
            name = None;
            space = 1;
            binding = None;
            ty = p.items.global;
            init = None;
          }),
          p.items.global_span,
        ) ∷ [];
        global_expressions =
            (expr 0 (1 ∷ 7 ∷ []) Nothing [], p.items.value_span)
            ∷ (expr 1 [] (TypeOf p.items.zero) [], p.items.value_span)
            ∷ (expr 22 (0 ∷ []) Nothing (Some p.items.operand ∷ []), p.items.value_span)
            ∷ (expression_said p.items.held.0 p.items.held.1, p.items.value_span) ∷ [];
        functions = (p.first, p.span) ∷ (p.second, p.span) ∷ [];
        entry_points = p.entry ∷ p.other ∷ [];
        diagnostic_filters = [];
        diagnostic_filter_leaf = None;
        doc_comments = None;
      });
      write = λ m language capabilities. Ok [];
      valid = λ m capabilities. Ok tt;
    } };

    fn parse(
        &self,
        alloc: Global,
        _language: ShaderLanguage,
        _text: &str,
    ) -> Result<Module, BackendRefusal<ParseFault>> {
        let items = &self.items;
        Ok(Module {
            types: types(alloc, items)?,
            special_types: special(alloc, items),
            constants: constants(alloc, items)?,
            overrides: overrides(alloc, items)?,
            global_variables: globals(alloc, items)?,
            global_expressions: values(alloc, items)?,
            functions: functions(alloc, &self.first, &self.second, self.span)?,
            entry_points: entries(alloc, &self.entry, &self.other)?,
            diagnostic_filters: Vec::new(alloc),
            diagnostic_filter_leaf: None,
            doc_comments: None,
        })
    }

    fn write(
        &self,
        alloc: Global,
        _module_: &Module,
        _language: ShaderLanguage,
        _capabilities: Capabilities,
    ) -> Result<String, BackendRefusal<WriteFault>> {
        Ok(String::new(alloc))
    }

    fn validate(
        &self,
        _alloc: Global,
        _module_: &Module,
        _capabilities: Capabilities,
    ) -> Result<(), BackendRefusal<ValidFault>> {
        Ok(())
    }
}

const NONE: Span = Span::UNDEFINED;

// A span that ends after every text.
const FAR: Span = Span {
    start: 0,
    end: 1_000_000,
};

// A span that ends before it starts.
const TURNED: Span = Span { start: 2, end: 1 };

const ITEMS: Items = Items {
    type_name: None,
    base: 0,
    array_size: Some(0),
    type_span: NONE,
    special: Some(0),
    other_special: None,
    constant: (0, 2),
    constant_span: NONE,
    size: 0,
    size_init: None,
    size_span: NONE,
    global: 1,
    global_span: NONE,
    zero: 0,
    operand: 1,
    held: (2, 0),
    value_span: NONE,
};

const CALLER: Caller = Caller {
    name: Some("g"),
    argument: 0,
    result: 0,
    local: (0, 0),
    local_span: NONE,
    named: 3,
    first: (0, 0),
    zero: 0,
    result_of: 0,
    operand: 2,
    expression_span: NONE,
    called: 0,
    given: 2,
    emitted: (3, 4),
    returned: 3,
    statement_span: NONE,
};

// Of an entry point the name of its function, the type of its result, a size, what its mesh names, and its payload.
type Pipeline = (Option<&'static str>, usize, usize, [usize; 5], usize);

const PIPELINE: Pipeline = (Some("other"), 0, 0, [0, 0, 0, 0, 0], 0);

fn entry_of(pipeline: Pipeline) -> Entry {
    let (name, result, size, mesh, payload) = pipeline;
    Entry {
        function: Plain { name, result },
        size,
        mesh: Some(MeshInfo {
            vertex_output_type: Index::new(mesh[0]),
            primitive_output_type: Index::new(mesh[1]),
            output: Index::new(mesh[2]),
            max_vertices: Some(Index::new(mesh[3])),
            max_primitives: Some(Index::new(mesh[4])),
            topology: 0,
        }),
        payload,
    }
}

// Adds the module m, whose texts are all read as this module.
fn adds_m(
    rt: &(impl Abort + AllocGlobal),
    composer: &mut Composer<Malformed>,
) -> Result<(), AllocError> {
    let mut desc = ComposableModuleDescriptor::new(rt.alloc());
    desc.source = "@binding(auto) fn f()";
    desc.file_path = "m.txt";
    desc.as_name = Some(String::from_str(rt.alloc(), "m")?);
    assert!(rt; composer.add_composable_module(desc).is_ok());
    Ok(())
}

fn made(alloc: Global, composer: &mut Composer<Malformed>) -> Result<Module, ComposerError> {
    let mut desc = NagaModuleDescriptor::new(alloc);
    desc.source = "entry main = m::f()";
    desc.file_path = "top.txt";
    composer.make_naga_module(desc)
}

// The error is that the module m is of wrong form.
fn is_of_m(error: &ComposerError) -> bool {
    match (&error.inner, &error.source) {
        (ComposerErrorInner::WrongForm, ErrSource::Module { name, offset, .. }) => {
            name.as_str() == "m" && *offset == 0
        }
        _ => false,
    }
}

// A shader that imports the module is built, or refused for its form. The module stays.
fn is_told(
    rt: &(impl Abort + AllocGlobal),
    composer: &mut Composer<Malformed>,
    row: usize,
    good: bool,
) {
    match &made(rt.alloc(), composer) {
        Ok(_) => assert!(rt; good, "row {row} is made"),
        Err(error) => assert!(rt; !good && is_of_m(error), "row {row}: {error:?}"),
    }
    let found = composer.module_at(1);
    assert!(rt; found.is_some_and(|found| found.name.as_str() == "m"));
    assert!(rt; composer.binding_counter() == 1);
}

fn tells(
    rt: &(impl Abort + AllocGlobal),
    front: Malformed,
    row: usize,
    good: bool,
) -> Result<(), AllocError> {
    let mut composer = Composer::non_validating(rt.alloc(), front);
    adds_m(rt, &mut composer)?;
    is_told(rt, &mut composer, row, good);
    Ok(())
}

fn front_of(items: Items, caller: Caller, span: Span, entry: Pipeline) -> Malformed {
    Malformed {
        items,
        first: Plain {
            name: Some("f"),
            result: 0,
        },
        second: Calling(caller),
        span,
        entry: entry_of(entry),
        other: entry_of((Some("main"), 0, 0, [0, 0, 0, 0, 0], 0)),
    }
}

// The other parts of the modules that are refused.
#[test]
fn makes_modules_of_good_form(rt: HostRuntime) -> Result<(), Fail> {
    for (row, items) in [
        ITEMS,
        Items {
            type_name: Some("t"),
            ..ITEMS
        },
        Items {
            array_size: None,
            special: Some(1),
            ..ITEMS
        },
        Items {
            held: (3, 0),
            size_init: Some(2),
            ..ITEMS
        },
    ]
    .iter()
    .enumerate()
    {
        tells(&rt, front_of(*items, CALLER, NONE, PIPELINE), row, true)?;
    }
    Ok(())
}

#[test]
fn refuses_items_of_wrong_form(rt: HostRuntime) -> Result<(), Fail> {
    let rows = [
        Items { base: 1, ..ITEMS },
        Items {
            array_size: Some(1),
            ..ITEMS
        },
        Items {
            type_span: FAR,
            ..ITEMS
        },
        Items {
            special: Some(2),
            ..ITEMS
        },
        Items {
            special: Some(1),
            ..ITEMS
        },
        Items {
            other_special: Some(0),
            ..ITEMS
        },
        Items {
            constant: (2, 2),
            ..ITEMS
        },
        Items {
            constant: (1, 2),
            ..ITEMS
        },
        Items {
            constant: (0, 4),
            ..ITEMS
        },
        Items {
            constant: (0, 3),
            ..ITEMS
        },
        Items {
            constant_span: FAR,
            ..ITEMS
        },
        Items { size: 2, ..ITEMS },
        Items { size: 1, ..ITEMS },
        Items {
            size_span: TURNED,
            ..ITEMS
        },
        Items { global: 2, ..ITEMS },
        Items {
            global_span: FAR,
            ..ITEMS
        },
        Items { zero: 2, ..ITEMS },
        Items { zero: 1, ..ITEMS },
        Items {
            operand: 2,
            ..ITEMS
        },
        Items {
            operand: 4,
            ..ITEMS
        },
        Items {
            value_span: TURNED,
            ..ITEMS
        },
        // Special types reach no other type that has a name.
        Items {
            type_name: Some("t"),
            array_size: None,
            special: Some(1),
            ..ITEMS
        },
        // Of a constant and of an override that is there, but not yet.
        Items {
            held: (2, 1),
            ..ITEMS
        },
        Items {
            held: (3, 1),
            ..ITEMS
        },
        Items {
            held: (3, 0),
            size_init: Some(3),
            ..ITEMS
        },
        Items {
            size_init: Some(4),
            ..ITEMS
        },
        // A global, a local, an argument and a result.
        Items {
            held: (4, 0),
            ..ITEMS
        },
        Items {
            held: (5, 0),
            ..ITEMS
        },
        Items {
            held: (6, 0),
            ..ITEMS
        },
        Items {
            held: (7, 0),
            ..ITEMS
        },
    ];
    for (row, items) in rows.iter().enumerate() {
        tells(&rt, front_of(*items, CALLER, NONE, PIPELINE), row, false)?;
    }
    Ok(())
}

#[test]
fn refuses_functions_of_wrong_form(rt: HostRuntime) -> Result<(), Fail> {
    let rows = [
        Caller {
            name: None,
            ..CALLER
        },
        Caller {
            name: Some("f"),
            ..CALLER
        },
        // The name that `f` gets in m.
        Caller {
            name: Some("fX_naga_oil_mod_XNUX"),
            ..CALLER
        },
        Caller {
            argument: 2,
            ..CALLER
        },
        Caller {
            result: 2,
            ..CALLER
        },
        Caller {
            local: (2, 0),
            ..CALLER
        },
        Caller {
            local: (0, 4),
            ..CALLER
        },
        Caller {
            local: (0, 2),
            ..CALLER
        },
        Caller {
            local_span: FAR,
            ..CALLER
        },
        Caller { named: 4, ..CALLER },
        // A constant, an override, a global, a local and an argument that aren't there.
        Caller {
            first: (2, 1),
            ..CALLER
        },
        Caller {
            first: (3, 1),
            ..CALLER
        },
        Caller {
            first: (4, 1),
            ..CALLER
        },
        Caller {
            first: (5, 1),
            ..CALLER
        },
        Caller {
            first: (6, 0),
            ..CALLER
        },
        Caller { zero: 2, ..CALLER },
        Caller {
            result_of: 1,
            ..CALLER
        },
        Caller {
            result_of: 2,
            ..CALLER
        },
        Caller {
            operand: 3,
            ..CALLER
        },
        Caller {
            expression_span: TURNED,
            ..CALLER
        },
        Caller {
            called: 1,
            result_of: 1,
            ..CALLER
        },
        Caller { given: 0, ..CALLER },
        Caller { given: 4, ..CALLER },
        Caller {
            emitted: (2, 4),
            ..CALLER
        },
        Caller {
            emitted: (0, 1),
            ..CALLER
        },
        Caller {
            emitted: (4, 3),
            ..CALLER
        },
        Caller {
            emitted: (3, 5),
            ..CALLER
        },
        Caller {
            emitted: (3, 3),
            ..CALLER
        },
        Caller {
            returned: 4,
            ..CALLER
        },
        Caller {
            statement_span: FAR,
            ..CALLER
        },
    ];
    for (row, caller) in rows.iter().enumerate() {
        tells(&rt, front_of(ITEMS, *caller, NONE, PIPELINE), row, false)?;
    }
    tells(&rt, front_of(ITEMS, CALLER, FAR, PIPELINE), 100, false)?;
    Ok(())
}

#[test]
fn refuses_entry_points_of_wrong_form(rt: HostRuntime) -> Result<(), Fail> {
    // A function without a name counts as `main`.
    let name = PIPELINE.0;
    let rows: [Pipeline; 11] = [
        (Some("main"), 0, 0, [0, 0, 0, 0, 0], 0),
        (None, 0, 0, [0, 0, 0, 0, 0], 0),
        (Some("mainX_naga_oil_mod_XNUX"), 0, 0, [0, 0, 0, 0, 0], 0),
        (name, 2, 0, [0, 0, 0, 0, 0], 0),
        (name, 0, 4, [0, 0, 0, 0, 0], 0),
        (name, 0, 0, [2, 0, 0, 0, 0], 0),
        (name, 0, 0, [0, 2, 0, 0, 0], 0),
        (name, 0, 0, [0, 0, 1, 0, 0], 0),
        (name, 0, 0, [0, 0, 0, 4, 0], 0),
        (name, 0, 0, [0, 0, 0, 0, 4], 0),
        (name, 0, 0, [0, 0, 0, 0, 0], 1),
    ];
    for (row, entry) in rows.iter().enumerate() {
        tells(&rt, front_of(ITEMS, CALLER, NONE, *entry), row, false)?;
    }
    Ok(())
}
