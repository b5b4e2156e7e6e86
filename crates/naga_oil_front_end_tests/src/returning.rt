// A front end whose headers don't survive the round trip.
ghost use Rattle.std.specs.Prelude.{◌≡◌, ◌∷◌, [], Some, None, IfOk, map, option_map, string_bytes, codes};
ghost use Rattle.naga_oil_ir.specs.Rows.{Row, type_row, member_label, member_type};
ghost use Rattle.naga_oil_ir.specs.declared.names.ItemPlace.TheVariants.{TypeItem};
ghost use Rattle.naga_oil_ir.specs.declared.span.Span.{Span};
ghost use Rattle.naga_oil_ir.specs.ModuleValue.{FunctionValue, module_value, function_value, entry_value};
ghost use Rattle.naga_oil_ir.specs.Backend.{parse_fault};
ghost use Rattle.naga_oil_front_end_tests.specs.Said.{place, type_said, types_said, function_said, entry_said, entries_said};

use naga_oil::compose::{
    ComposableModuleDescriptor, Composer, ComposerError, NagaModuleDescriptor,
};
use naga_oil_ir::{
    Arena, Backend, BackendRefusal, Block, Capabilities, EntryPoint, Function, Index, Module,
    NamedExpressions, ParseFault, ShaderLanguage, Span, StructMember, Type, TypeInner, UniqueArena,
    ValidFault, WriteFault,
};
use std::alloc::{AllocError, Global};
use std::marker::Model;
use std::process::Abort;
use std::test::Fail;

// The module of a text: a type, which is a struct of one member or else a scalar, a function, and perhaps an entry point whose
// function has no name.
#[derive(Clone, Copy)]
struct Said {
    ty: &'static str,
    member: Option<&'static str>,
    function: &'static str,
    is_entered: bool,
}

// The span of the type and of the function.
const PLACE: Span = Span { start: 1, end: 3 };

// A module of these.
#[derive(Drop)]
struct Saying(Said);

impl Model for Saying {
    ghost use Rattle.std.specs.Prelude.{option_map};
    ghost use Rattle.naga_oil_ir.specs.ModuleValue.{ModuleValue};
    ghost use Rattle.naga_oil_front_end_tests.specs.Said.{said};

    ghost Value = { ModuleValue };

    ghost view = { λ s.
        said s.0.ty.now (option_map (λ m. m.now) s.0.member) s.0.function.now s.0.is_entered };
}

fn text(alloc: Global, name: &str) -> Result<Option<String>, AllocError>
    ensures { IfOk result (λ o. option_map string_bytes o ≡ Some name.now) }
{
    let text = String::from_str(alloc, name)?;
    Ok(Some(text))
}

fn members(alloc: Global, name: &str) -> Result<Vec<StructMember>, AllocError>
    ensures labels { IfOk result (λ v. map member_label v.items ≡
        record { name = Some name.now; binding = None; offset = 0 } ∷ []) }
    ensures types { IfOk result (λ v. map member_type v.items ≡ Some (TypeItem 0) ∷ []) }
{
    let mut members = Vec::new(alloc);
    members.push(StructMember {
        name: text(alloc, name)?,
        ty: Index::new(0),
        binding: None,
        offset: 0,
    })?;
    Ok(members)
}

// The named type: a struct of one member, or a scalar.
fn named_type(alloc: Global, of: &Said) -> Result<Type, AllocError>
    ensures { let said = type_said of.now.ty.now (option_map (λ m. m.now) of.now.member) in
        IfOk result (λ t. type_row t ≡ said) }
{
    let name = text(alloc, of.ty)?;
    match of.member {
        None => Ok(Type {
            name,
            inner: TypeInner::Scalar(2),
        }),
        Some(member) => {
            let inner = TypeInner::Struct {
                members: members(alloc, member)?,
                span: 4,
            };
            Ok(Type { name, inner })
        }
    }
}

fn types(alloc: Global, of: &Said) -> Result<UniqueArena<Type>, AllocError>
    ensures { let said = types_said of.now.ty.now (option_map (λ m. m.now) of.now.member) in
        IfOk result (λ a. map {B = Row × Span} (λ e. (type_row e.0, e.1)) a ≡ said) }
{
    let mut types = UniqueArena::new(alloc);
    let inner = TypeInner::Vector(1);
    types.insert(Type { name: None, inner }, Span::UNDEFINED)?;
    types.insert(named_type(alloc, of)?, PLACE)?;
    Ok(types)
}

fn function(alloc: Global, name: Option<String>) -> Function
    ensures { function_value result ≡ function_said (option_map string_bytes name) }
{
    Function {
        name,
        arguments: Vec::new(alloc),
        result: None,
        local_variables: Arena::new(alloc),
        expressions: Arena::new(alloc),
        named_expressions: NamedExpressions::new(),
        body: Block {
            body: Vec::new(alloc),
        },
        diagnostic_filter_leaf: None,
    }
}

fn functions(alloc: Global, name: &str) -> Result<Arena<Function>, AllocError>
    ensures { IfOk result (λ a.
        map {B = FunctionValue × Span} (λ e. (function_value e.0, e.1)) a ≡
        (function_said (Some name.now), place) ∷ []) }
{
    let name = text(alloc, name)?;
    let mut functions = Arena::new(alloc);
    functions.append(function(alloc, name), PLACE)?;
    Ok(functions)
}

fn entry(alloc: Global) -> EntryPoint
    ensures { entry_value result ≡ entry_said }
{
    EntryPoint {
        name: String::new(alloc),
        stage: 2,
        early_depth_test: None,
        workgroup_size: [1, 1, 1],
        workgroup_size_overrides: None,
        function: function(alloc, None),
        mesh_info: None,
        task_payload: None,
    }
}

fn entries(alloc: Global, is_entered: bool) -> Result<Vec<EntryPoint>, AllocError>
    ensures { IfOk result (λ v. map entry_value v.items ≡ entries_said is_entered) }
{
    let mut entries = Vec::new(alloc);
    if is_entered {
        entries.push(entry(alloc))?;
    }
    Ok(entries)
}

fn module_of(alloc: Global, of: &Saying) -> Result<Module, AllocError>
    ensures { IfOk result (λ m. module_value m ≡ of.now) }
{
    let mut said = Module::new(alloc);
    said.types = types(alloc, &of.0)?;
    said.functions = functions(alloc, of.0.function)?;
    said.entry_points = entries(alloc, of.0.is_entered)?;
    Ok(said)
}

fn unread(alloc: Global) -> Result<ParseFault, AllocError>
    ensures { IfOk result (λ f. parse_fault f ≡
        record { message = codes "unread"; spans = []; notes = [] }) }
{
    Ok(ParseFault {
        message: String::from_str(alloc, "unread")?,
        spans: Vec::new(alloc),
        notes: Vec::new(alloc),
    })
}

// A front end that writes a module of one function as `!`, one of none as nothing, and others as `!!`. It reads `!` as the
// second module, or not at all where there is none, and every other text as the first.
#[derive(Drop)]
struct Returning {
    first: Saying,
    back: Option<Saying>,
}

impl Backend for Returning {
    ghost use Rattle.std.specs.Prelude.{[], ◌==◌, if◌then◌else◌, length, Ok, Err, option_map, unwrap_or, codes};

    ghost front = { λ r. record {
      parse = λ language text.
          if length text == 1 then unwrap_or (option_map (λ b. Ok b) r.back)
          (Err (record { message = codes "unread"; spans = []; notes = [] }))
          else Ok r.first;
      write = λ m language capabilities.
          if length m.functions == 0 then Ok []
          else (if length m.functions == 1 then Ok (codes "!") else Ok (codes "!!"));
      valid = λ m capabilities. Ok tt;
    } };

    fn parse(
        &self,
        alloc: Global,
        _language: ShaderLanguage,
        text: &str,
    ) -> Result<Module, BackendRefusal<ParseFault>> {
        if text.len() != 1 {
            return Ok(module_of(alloc, &self.first)?);
        }
        match &self.back {
            Some(back) => Ok(module_of(alloc, back)?),
            None => Err(BackendRefusal::Fault(unread(alloc)?)),
        }
    }

    fn write(
        &self,
        alloc: Global,
        module_: &Module,
        _language: ShaderLanguage,
        _capabilities: Capabilities,
    ) -> Result<String, BackendRefusal<WriteFault>> {
        let text = match module_.functions.len() {
            0 => "",
            1 => "!",
            _ => "!!",
        };
        Ok(String::from_str(alloc, text)?)
    }

    fn validate(
        &self,
        _alloc: Global,
        _module_: &Module,
        _capabilities: Capabilities,
    ) -> Result<(), BackendRefusal<ValidFault>> {
        Ok(())
    }
}

// What the front end reads in the text of a module m and of a shader.
const FIRST: Said = Said {
    ty: "S",
    member: Some("x"),
    function: "f",
    is_entered: false,
};

// The module that is read back after an unchanged round trip.
const BACK: Said = Said {
    ty: "SX_naga_oil_mod_XNUX",
    member: Some("x"),
    function: "fX_naga_oil_mod_XNUX",
    is_entered: false,
};

// The module that is read first, the module that is read back, and the expected report of a shader.
type Row = (Said, Option<Said>, &'static str);

fn make_saying(said: Option<Said>) -> Option<Saying> {
    match said {
        Some(said) => Some(Saying(said)),
        None => None,
    }
}

fn front_of(row: &Row) -> Returning {
    Returning {
        first: Saying(row.0),
        back: make_saying(row.1),
    }
}

fn adds_m(
    rt: &(impl Abort + AllocGlobal),
    composer: &mut Composer<Returning>,
) -> Result<(), AllocError> {
    let mut desc = ComposableModuleDescriptor::new(rt.alloc());
    desc.source = "fn f()";
    desc.file_path = "m.txt";
    desc.as_name = Some(String::from_str(rt.alloc(), "m")?);
    assert!(rt; composer.add_composable_module(desc).is_ok());
    Ok(())
}

fn shown(alloc: Global, refused: Option<ComposerError>) -> Result<String, AllocError> {
    match refused {
        None => String::from_str(alloc, "made"),
        Some(error) => {
            let (inner, offset) = (&error.inner, error.source.offset());
            format!(in alloc; "{inner:?} from {offset}")
        }
    }
}

fn is_told(rt: &(impl Abort + AllocGlobal), row: &Row) -> Result<(), AllocError> {
    let mut composer = Composer::new(rt.alloc(), front_of(row));
    adds_m(rt, &mut composer)?;
    let mut desc = NagaModuleDescriptor::new(rt.alloc());
    desc.source = "entry main = m::f()";
    desc.file_path = "top.txt";
    let refused = composer.make_naga_module(desc).err();
    assert_eq!(rt; shown(rt.alloc(), refused)?.as_str(), row.2);
    Ok(())
}

static ROWS: [Row; 5] = [
    (FIRST, Some(BACK), "made"),
    (
        FIRST,
        None,
        "WgslParseError(ParseFault { message: \"unread\", spans: [], notes: [] }) from 0",
    ),
    (
        FIRST,
        Some(Said {
            function: "gX_naga_oil_mod_XNUX",
            ..BACK
        }),
        "InvalidIdentifier { original: \"fX_naga_oil_mod_XNUX\", at: Span { start: 1, end: 3 } } from 0",
    ),
    (
        FIRST,
        Some(Said {
            member: None,
            ..BACK
        }),
        "InvalidIdentifier { original: \"S\", at: Span { start: 1, end: 3 } } from 0",
    ),
    (
        FIRST,
        Some(Said {
            member: Some("y"),
            ..BACK
        }),
        "InvalidIdentifier { original: \"x\", at: Span { start: 1, end: 3 } } from 0",
    ),
];

#[test]
fn tells_what_does_not_come_back(rt: HostRuntime) -> Result<(), Fail> {
    for row in &ROWS {
        is_told(&rt, row)?;
    }
    Ok(())
}

// An entry point whose function has no name becomes the function `main`, unless there is one: a header of two functions is
// written as `!!`, which is read as the first module.
static ENTERED: [Row; 2] = [
    (
        Said {
            function: "main",
            is_entered: true,
            ..FIRST
        },
        Some(Said {
            function: "mainX_naga_oil_mod_XNUX",
            ..BACK
        }),
        "made",
    ),
    (
        Said {
            is_entered: true,
            ..FIRST
        },
        Some(BACK),
        "InvalidIdentifier { original: \"S\", at: Span { start: 1, end: 3 } } from 0",
    ),
];

#[test]
fn keeps_a_function_beside_an_unnamed_entry_point(rt: HostRuntime) -> Result<(), Fail> {
    for row in &ENTERED {
        is_told(&rt, row)?;
    }
    Ok(())
}
