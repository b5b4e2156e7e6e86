// Builds are kept between shaders: the number of parses, the number of builds, and the builds that are kept.
use naga_oil::compose::{
    ComposableModuleDescriptor, Composer, ComposerError, ImportDefinition, NagaModuleDescriptor,
    ShaderDefValue,
};
use naga_oil_ir::{Backend, BackendRefusal, Capabilities, Module, ShaderLanguage};
use naga_oil_mini_front::Mini;
use naga_oil_projects::Counting;
use std::alloc::{AllocError, Global};
use std::cell::Cell;
use std::collections::BTreeMap;
use std::process::Abort;
use std::test::Fail;

type Values = &'static [(&'static str, i32)];

type Defs = BTreeMap<String, ShaderDefValue>;

// The calls of a composer, and their expected results.
enum Step {
    // A module under a name, with its definitions.
    Add(&'static str, &'static str, Values),
    Remove(&'static str),
    // From now on the front end has memory for this number of texts of a shader.
    Limit(usize),
    // A shader under definitions, with additional imports: the first line of its text or report, the number of parses for it,
    // and the number of all builds that were kept by then.
    Make(&'static str, Values, &'static [&'static str], &'static str, usize, u64),
    // Whether the build of a module under definitions is kept.
    Has(&'static str, Values, bool),
}

use Step::{Add, Has, Limit, Make, Remove};

// Two values of the same name.
static TWO_VALUES: [Step; 18] = [
    Add("b1", "fn f() = #K", &[("K", 1)]),
    Add("b2", "fn f() = #K", &[("K", 2)]),
    Add("c", "fn g() = b1::f() + b2::f()", &[]),
    Make(
        "entry main = c::g()",
        &[],
        &[],
        "fn fX_naga_oil_mod_XMIYQX() = 2",
        7,
        3,
    ),
    Make(
        "entry main = b1::f()",
        &[],
        &[],
        "fn fX_naga_oil_mod_XMIYQX() = 1",
        3,
        4,
    ),
    Make(
        "entry main = c::g()",
        &[],
        &[],
        "fn fX_naga_oil_mod_XMIYQX() = 2",
        1,
        4,
    ),
    Has("b1", &[("K", 1)], true),
    Has("b1", &[("K", 1), ("Y", 1)], true),
    Has("b1", &[("K", 2)], true),
    Has("b1", &[("K", 3)], false),
    Has("b1", &[], false),
    Has("b2", &[("K", 1)], false),
    Has("d", &[("K", 1)], false),
    Remove("b2"),
    Has("b1", &[("K", 1)], true),
    Has("b2", &[("K", 2)], false),
    Has("c", &[("K", 2)], false),
    Make(
        "entry main = b1::f()",
        &[],
        &[],
        "fn fX_naga_oil_mod_XMIYQX() = 1",
        1,
        4,
    ),
];

const ARMS: &str = "#ifdef X\nfn g() = 1\n#else\nfn g() = 2\n#endif";

// A name that is defined or isn't, and one that the module doesn't record.
static PRESENCE: [Step; 9] = [
    Add("m", ARMS, &[]),
    Make(
        "entry main = m::g()",
        &[],
        &[],
        "fn gX_naga_oil_mod_XNUX() = 2",
        3,
        1,
    ),
    Make(
        "entry main = m::g()",
        &[("X", 1)],
        &[],
        "fn gX_naga_oil_mod_XNUX() = 1",
        3,
        2,
    ),
    Make(
        "entry main = m::g()",
        &[("X", 1), ("Y", 1)],
        &[],
        "fn gX_naga_oil_mod_XNUX() = 1",
        1,
        2,
    ),
    Make(
        "entry main = m::g()",
        &[("X", 1)],
        &[],
        "fn gX_naga_oil_mod_XNUX() = 1",
        1,
        2,
    ),
    Remove("m"),
    Add("m", ARMS, &[]),
    Has("m", &[("X", 1)], false),
    Make(
        "entry main = m::g()",
        &[("X", 1)],
        &[],
        "fn gX_naga_oil_mod_XNUX() = 1",
        3,
        3,
    ),
];

// Overriding modules that are imported besides. One that is added again is forgotten, and nothing else where nothing reaches it.
static OVERRIDES: [Step; 11] = [
    Add("a", "#define_import_path a\nvirtual fn f(x) = x + 1", &[]),
    Add(
        "b",
        "#define_import_path b\n#import a\noverride fn a::f(x) = a::f(x) + 10",
        &[],
    ),
    Add(
        "c",
        "#define_import_path c\n#import a\noverride fn a::f(x) = a::f(x) + 100",
        &[],
    ),
    Make(
        "#import a\nentry main = a::f(5)",
        &[],
        &["b", "c"],
        "fn fX_naga_oil_mod_XMEX(x) = x + 1",
        7,
        3,
    ),
    Make(
        "#import a\nentry main = a::f(5)",
        &[],
        &["b"],
        "fn fX_naga_oil_mod_XMEX(x) = x + 1",
        1,
        3,
    ),
    Has("c", &[], true),
    Add(
        "b",
        "#define_import_path b\n#import a\noverride fn a::f(x) = a::f(x) + 10",
        &[],
    ),
    Has("a", &[], true),
    Has("b", &[], false),
    Has("c", &[], true),
    Make(
        "#import a\nentry main = a::f(5)",
        &[],
        &["b"],
        "fn fX_naga_oil_mod_XMEX(x) = x + 1",
        3,
        4,
    ),
];

// A shader that is refused by a named error keeps the builds before.
static REFUSED: [Step; 4] = [
    Add("m", "#define_import_path m\nfn g() = 1", &[]),
    Make(
        "#import m\nentry main = m::g(2)",
        &[],
        &[],
        "error: failed to build a valid final module: wrong number of arguments",
        3,
        1,
    ),
    Has("m", &[], true),
    Make(
        "entry main = m::g()",
        &[],
        &[],
        "fn gX_naga_oil_mod_XNUX() = 1",
        1,
        1,
    ),
];

// A shader that is refused for memory keeps the builds before, and the next is built as if nothing had been refused.
static MEMORY: [Step; 8] = [
    Add("b1", "fn f() = #K", &[("K", 1)]),
    Add("b2", "fn f() = #K", &[("K", 2)]),
    Add("c", "fn g() = b1::f() + b2::f()", &[]),
    Limit(4),
    Make(
        "entry main = c::g()",
        &[],
        &[],
        "error: out of memory",
        5,
        2,
    ),
    Has("b1", &[("K", 2)], true),
    Limit(100),
    Make(
        "entry main = c::g()",
        &[],
        &[],
        "fn fX_naga_oil_mod_XMIYQX() = 2",
        3,
        3,
    ),
];

fn defs_of(alloc: Global, values: Values) -> Result<Defs, AllocError> {
    let mut defs = BTreeMap::new(alloc);
    for (name, value) in values {
        defs.insert(String::from_str(alloc, *name)?, ShaderDefValue::Int(*value))?;
    }
    Ok(defs)
}

fn add<'a>(
    alloc: Global,
    composer: &mut Composer<Counting<'_>>,
    name: &'a str,
    source: &'a str,
    values: Values,
) -> Result<bool, AllocError> {
    let mut desc = ComposableModuleDescriptor::new(alloc);
    desc.source = source;
    desc.file_path = name;
    desc.as_name = Some(String::from_str(alloc, name)?);
    desc.shader_defs = defs_of(alloc, values)?;
    Ok(composer.add_module(desc).is_ok())
}

fn imports_of(
    alloc: Global,
    names: &'static [&'static str],
) -> Result<Vec<ImportDefinition>, AllocError> {
    let mut imports = Vec::new(alloc);
    for name in names {
        imports.push(ImportDefinition {
            import: String::from_str(alloc, *name)?,
            items: Vec::new(alloc),
        })?;
    }
    Ok(imports)
}

// The first line of a shader as Mini writes it, or of the report of a refusal.
fn first_line(
    alloc: Global,
    composer: &Composer<Counting<'_>>,
    made: &Result<Module, ComposerError>,
) -> Result<String, AllocError> {
    let text = match made {
        Ok(made) => match Mini.write(alloc, made, ShaderLanguage::Wgsl, Capabilities(0)) {
            Ok(text) => text,
            Err(BackendRefusal::Fault(fault)) => fault.message,
            Err(BackendRefusal::Memory) => return Err(AllocError),
        },
        Err(error) => error.emit_to_string(composer)?,
    };
    String::from_str(alloc, text.lines().next().unwrap_or(""))
}

fn make<'a>(
    alloc: Global,
    composer: &mut Composer<Counting<'_>>,
    source: &'a str,
    values: Values,
    imports: &'a [ImportDefinition],
) -> Result<String, AllocError> {
    let mut desc = NagaModuleDescriptor::new(alloc);
    desc.source = source;
    desc.file_path = "top";
    desc.additional_imports = imports;
    desc.shader_defs = defs_of(alloc, values)?;
    let made = composer.make_naga_module(desc);
    first_line(alloc, composer, &made)
}

fn take_step(
    rt: &(impl Abort + AllocGlobal),
    composer: &mut Composer<Counting<'_>>,
    parses: &Cell<usize>,
    limit: &Cell<usize>,
    step: &'static Step,
) -> Result<(), AllocError> {
    let alloc = rt.alloc();
    match step {
        Add(name, source, values) => {
            assert!(rt; add(alloc, composer, name, source, values)?);
        }
        Remove(name) => composer.remove_composable_module(name)?,
        Limit(texts) => limit.set(*texts),
        Make(source, values, additional, line, count, builds) => {
            parses.set(0);
            let imports = imports_of(alloc, additional)?;
            let made = make(alloc, composer, source, values, imports.as_slice())?;
            assert_eq!(rt; made.as_str(), *line);
            assert_eq!(rt; (parses.get(), composer.builds()), (*count, *builds));
        }
        Has(name, values, is_kept) => {
            let defs = defs_of(alloc, values)?;
            assert_eq!(rt; composer.has_build(name, &defs), *is_kept);
        }
    }
    Ok(())
}

fn all_steps(rt: &(impl Abort + AllocGlobal), steps: &'static [Step]) -> Result<(), AllocError> {
    let (parses, limit) = (Cell::new(0), Cell::new(100));
    let front = Counting::new(&parses, &limit);
    let mut composer = Composer::new(rt.alloc(), front);
    for each in steps {
        take_step(rt, &mut composer, &parses, &limit, each)?;
    }
    Ok(())
}

#[test]
fn keeps_a_build_for_each_value(rt: HostRuntime) -> Result<(), Fail> {
    all_steps(&rt, &TWO_VALUES)?;
    Ok(())
}

#[test]
fn keeps_a_build_for_presence(rt: HostRuntime) -> Result<(), Fail> {
    all_steps(&rt, &PRESENCE)?;
    Ok(())
}

#[test]
fn keeps_overriding_modules(rt: HostRuntime) -> Result<(), Fail> {
    all_steps(&rt, &OVERRIDES)?;
    Ok(())
}

#[test]
fn keeps_what_a_refused_make_built(rt: HostRuntime) -> Result<(), Fail> {
    all_steps(&rt, &REFUSED)?;
    Ok(())
}

#[test]
fn keeps_what_was_built_before_memory_ran_out(rt: HostRuntime) -> Result<(), Fail> {
    all_steps(&rt, &MEMORY)?;
    Ok(())
}
