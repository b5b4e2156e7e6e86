// Modules that are added and removed, and shaders that are built, over Mini.
use naga_oil::compose::{
    Capabilities, Command, ComposableModuleDescriptor, Composer, ComposerError,
    NagaModuleDescriptor, Reply, ShaderDefValue, ShaderLanguage, run,
};
use naga_oil_ir::{Backend, BackendRefusal, Function, Module, Statement};
use naga_oil_mini_front::Mini;
use std::alloc::{AllocError, Global};
use std::collections::BTreeMap;
use std::process::Abort;
use std::test::Fail;

type Value<'a> = (&'a str, ShaderDefValue);

type Defs = BTreeMap<String, ShaderDefValue>;

fn defs_of(alloc: Global, values: &[Value<'_>]) -> Result<Defs, AllocError> {
    let mut defs = BTreeMap::new(alloc);
    for (name, value) in values {
        defs.insert(String::from_str(alloc, *name)?, *value)?;
    }
    Ok(defs)
}

// Adds a module under a name, and returns the report of a refusal.
fn add<'a>(
    alloc: Global,
    composer: &mut Composer<Mini>,
    name: &'a str,
    source: &'a str,
    values: &[Value<'_>],
) -> Result<Option<String>, AllocError> {
    let mut desc = ComposableModuleDescriptor::new(alloc);
    desc.source = source;
    desc.file_path = name;
    desc.as_name = Some(String::from_str(alloc, name)?);
    desc.shader_defs = defs_of(alloc, values)?;
    let refused = composer.add_composable_module(desc).err();
    match refused {
        None => Ok(None),
        Some(error) => Ok(Some(error.emit_to_string(composer)?)),
    }
}

// A shader as Mini writes it, or the report of a refusal.
pub(super) fn shown(
    alloc: Global,
    composer: &Composer<Mini>,
    made: &Result<Module, ComposerError>,
) -> Result<String, AllocError> {
    match made {
        Ok(made) => written(alloc, made),
        Err(error) => error.emit_to_string(composer),
    }
}

fn written(alloc: Global, made: &Module) -> Result<String, AllocError> {
    match Mini.write(alloc, made, ShaderLanguage::Wgsl, Capabilities(0)) {
        Ok(text) => Ok(text),
        Err(BackendRefusal::Fault(fault)) => Ok(fault.message),
        Err(BackendRefusal::Memory) => Err(AllocError),
    }
}

fn make(
    alloc: Global,
    composer: &mut Composer<Mini>,
    source: &str,
    values: &[Value<'_>],
) -> Result<String, AllocError> {
    let mut desc = NagaModuleDescriptor::new(alloc);
    desc.source = source;
    desc.file_path = "top";
    desc.shader_defs = defs_of(alloc, values)?;
    let made = composer.make_naga_module(desc);
    shown(alloc, composer, &made)
}

// Adds modules, and expects this shader.
fn makes(
    rt: &(impl Abort + AllocGlobal),
    composer: &mut Composer<Mini>,
    source: &str,
    values: &[Value<'_>],
    want: &str,
) -> Result<(), AllocError> {
    let text = make(rt.alloc(), composer, source, values)?;
    assert_eq!(rt; text.as_str(), want);
    Ok(())
}

pub(super) fn adds<'a>(
    rt: &(impl Abort + AllocGlobal),
    composer: &mut Composer<Mini>,
    name: &'a str,
    source: &'a str,
    values: &[Value<'_>],
) -> Result<(), AllocError> {
    assert_eq!(rt; add(rt.alloc(), composer, name, source, values)?, None);
    Ok(())
}

#[test]
fn leaves_out_what_nothing_names(rt: HostRuntime) -> Result<(), Fail> {
    let mut composer = Composer::new(rt.alloc(), Mini);
    adds(&rt, &mut composer, "m", "fn g() = 1\nfn h() = 2", &[])?;
    let made = "fn gX_naga_oil_mod_XNUX() = 1\nentry main = gX_naga_oil_mod_XNUX()\n";
    makes(&rt, &mut composer, "entry main = m::g()", &[], made)?;
    Ok(())
}

#[test]
fn builds_under_the_definitions_of_all_imports(rt: HostRuntime) -> Result<(), Fail> {
    let mut composer = Composer::new(rt.alloc(), Mini);
    one_and_two(&rt, &mut composer)?;
    Ok(())
}

fn one_and_two(
    rt: &(impl Abort + AllocGlobal),
    composer: &mut Composer<Mini>,
) -> Result<(), AllocError> {
    adds(
        rt,
        composer,
        "b1",
        "fn f() = #K",
        &[("K", ShaderDefValue::Int(1))],
    )?;
    adds(
        rt,
        composer,
        "b2",
        "fn f() = #K",
        &[("K", ShaderDefValue::Int(2))],
    )?;
    adds(rt, composer, "c", "fn g() = b1::f() + b2::f()", &[])?;
    let both = "fn fX_naga_oil_mod_XMIYQX() = 2
fn fX_naga_oil_mod_XMIZAX() = 2
fn gX_naga_oil_mod_XMMX() = fX_naga_oil_mod_XMIYQX() + fX_naga_oil_mod_XMIZAX()
entry main = gX_naga_oil_mod_XMMX()
";
    makes(rt, composer, "entry main = c::g()", &[], both)?;
    let one = "fn fX_naga_oil_mod_XMIYQX() = 1\nentry main = fX_naga_oil_mod_XMIYQX()\n";
    makes(rt, composer, "entry main = b1::f()", &[], one)
}

#[test]
fn builds_again_under_other_definitions(rt: HostRuntime) -> Result<(), Fail> {
    let mut composer = Composer::new(rt.alloc(), Mini);
    with_and_without(&rt, &mut composer)?;
    Ok(())
}

fn with_and_without(
    rt: &(impl Abort + AllocGlobal),
    composer: &mut Composer<Mini>,
) -> Result<(), AllocError> {
    let top = "entry main = m::g()";
    let set = ("X", ShaderDefValue::Bool(true));
    let other = ("Y", ShaderDefValue::Bool(true));
    let with = "fn gX_naga_oil_mod_XNUX() = 1\nentry main = gX_naga_oil_mod_XNUX()\n";
    let without = "fn gX_naga_oil_mod_XNUX() = 2\nentry main = gX_naga_oil_mod_XNUX()\n";
    for _ in 0..2 {
        adds(
            rt,
            composer,
            "m",
            "#ifdef X\nfn g() = 1\n#else\nfn g() = 2\n#endif",
            &[],
        )?;
        makes(rt, composer, top, &[], without)?;
        makes(rt, composer, top, &[set], with)?;
        makes(rt, composer, top, &[set, other], with)?;
        makes(rt, composer, top, &[set], with)?;
        composer.remove_composable_module("m")?;
        let missing =
            "error: required import 'm' not found\n  at top:1:14\n  note: missing import 'm'\n";
        makes(rt, composer, top, &[], missing)?;
    }
    Ok(())
}

#[test]
fn builds_what_only_the_second_reading_brings(rt: HostRuntime) -> Result<(), Fail> {
    let mut composer = Composer::new(rt.alloc(), Mini);
    second_reading(&rt, &mut composer)?;
    Ok(())
}

fn second_reading(
    rt: &(impl Abort + AllocGlobal),
    composer: &mut Composer<Mini>,
) -> Result<(), AllocError> {
    let top = "entry main = b::g()\n#ifdef K\nentry two = c::g()\n#endif";
    let missing =
        "error: required import 'c' not found\n  at top:3:13\n  note: missing import 'c'\n";
    adds(
        rt,
        composer,
        "b",
        "fn g() = 1",
        &[("K", ShaderDefValue::Int(1))],
    )?;
    makes(rt, composer, top, &[], missing)?;
    adds(rt, composer, "c", "fn g() = 2", &[])?;
    let both = "fn gX_naga_oil_mod_XMIX() = 1
fn gX_naga_oil_mod_XMMX() = 2
entry main = gX_naga_oil_mod_XMIX()
entry two = gX_naga_oil_mod_XMMX()
";
    makes(rt, composer, top, &[], both)?;
    assert_eq!(rt; composer.builds(), 2);
    adds(
        rt,
        composer,
        "c",
        "fn g() = 2",
        &[("L", ShaderDefValue::Int(1))],
    )?;
    makes(rt, composer, top, &[], missing)
}

#[test]
fn refuses_values_that_differ(rt: HostRuntime) -> Result<(), Fail> {
    let mut composer = Composer::new(rt.alloc(), Mini);
    differing_values(&rt, &mut composer)?;
    Ok(())
}

fn differing_values(
    rt: &(impl Abort + AllocGlobal),
    composer: &mut Composer<Mini>,
) -> Result<(), AllocError> {
    adds(
        rt,
        composer,
        "b1",
        "fn f() = #K",
        &[("K", ShaderDefValue::Int(1))],
    )?;
    adds(
        rt,
        composer,
        "b2",
        "fn f() = #K",
        &[("K", ShaderDefValue::Int(2))],
    )?;
    let differ = "error: multiple inconsistent shader def values: 'K'\n  in top\n";
    makes(rt, composer, "entry main = b1::f() + b2::f()", &[], differ)?;
    makes(
        rt,
        composer,
        "entry main = b1::f()",
        &[("K", ShaderDefValue::UInt(1))],
        differ,
    )
}

// A function, and a comment with this number of characters.
fn commented(alloc: Global, len: usize) -> Result<String, AllocError> {
    let comment = "x".repeat(alloc, len)?;
    format!(in alloc; "fn g() = 1\n//{comment}")
}

#[test]
fn refuses_a_text_that_is_too_large(rt: HostRuntime) -> Result<(), Fail> {
    let alloc = rt.alloc();
    let top = "entry main = m::g()";
    let mut composer = Composer::new(alloc, Mini);
    adds(
        &rt,
        &mut composer,
        "m",
        commented(alloc, 2_097_137)?.as_str(),
        &[],
    )?;
    let made = "fn gX_naga_oil_mod_XNUX() = 1\nentry main = gX_naga_oil_mod_XNUX()\n";
    makes(&rt, &mut composer, top, &[], made)?;
    adds(
        &rt,
        &mut composer,
        "m",
        commented(alloc, 2_097_138)?.as_str(),
        &[],
    )?;
    makes(
        &rt,
        &mut composer,
        top,
        &[],
        "error: shader text too large\n  in m\n",
    )?;
    Ok(())
}

// A function's copy: what nothing reaches is dropped, equal initialisers are one, and what was emitted of them is nothing.
#[test]
fn merges_initialisers(rt: HostRuntime) -> Result<(), Fail> {
    let mut composer = Composer::new(rt.alloc(), Mini);
    let source = "var G = 3\nfn f(x) with V = 1 + 2, W = 1 + 2 = G + V + W";
    adds(&rt, &mut composer, "m", source, &[])?;
    makes_merged(&rt, &mut composer)?;
    Ok(())
}

fn makes_merged(
    rt: &(impl Abort + AllocGlobal),
    composer: &mut Composer<Mini>,
) -> Result<(), AllocError> {
    let mut desc = NagaModuleDescriptor::new(rt.alloc());
    desc.source = "entry main = m::f(4)";
    desc.file_path = "top";
    let made = composer.make_naga_module(desc);
    shows_merged(rt, composer, &made)
}

fn shows_merged(
    rt: &(impl Abort + AllocGlobal),
    composer: &Composer<Mini>,
    made: &Result<Module, ComposerError>,
) -> Result<(), AllocError> {
    let text = shown(rt.alloc(), composer, made)?;
    assert_eq!(rt;
        text.as_str(),
        "var GX_naga_oil_mod_XNUX = 3\nfn fX_naga_oil_mod_XNUX(x) with V = 1 + 2, W = 1 + 2 = GX_naga_oil_mod_XNUX + V + W\nentry main = fX_naga_oil_mod_XNUX(4)\n"
    );
    let f = made
        .as_ref()
        .ok()
        .and_then(|made| made.functions.as_slice().first());
    assert!(rt; f.is_some_and(|f| is_merged(&f.0)));
    Ok(())
}

fn is_merged(function: &Function) -> bool {
    let mut locals = function.local_variables.as_slice().iter();
    let mut emits = function.body.body.iter().take(2);
    function.expressions.len() == 11
        && locals.all(|local| local.0.init.is_some_and(|init| init.index() == 2))
        && emits.all(
            |emit| matches!(emit.0, Statement::Emit(range) if range.start() == range.end()),
        )
}

// A sum of ten thousand terms initialises a local. The sum is visited, copied and written without the machine's stack.
#[test]
fn makes_a_long_initialiser(rt: HostRuntime) -> Result<(), Fail> {
    let alloc = rt.alloc();
    let ones = "1 + ".repeat(alloc, 9_999)?;
    let source = format!(in alloc; "fn f() with V = {ones}1 = V")?;
    let made = format!(in alloc;
        "fn fX_naga_oil_mod_XNUX() with V = {ones}1 = V\nentry main = fX_naga_oil_mod_XNUX()\n"
    )?;
    let mut composer = Composer::new(alloc, Mini);
    adds(&rt, &mut composer, "m", source.as_str(), &[])?;
    makes(
        &rt,
        &mut composer,
        "entry main = m::f()",
        &[],
        made.as_str(),
    )?;
    Ok(())
}

// Many entry points over one function.
#[test]
fn makes_many_entry_points(rt: HostRuntime) -> Result<(), Fail> {
    let alloc = rt.alloc();
    let mut composer = Composer::new(alloc, Mini);
    adds(&rt, &mut composer, "m", "fn g() = 1", &[])?;
    for count in [1, 10, 100, 1000] {
        let (source, made) = entries(alloc, count)?;
        makes(&rt, &mut composer, source.as_str(), &[], made.as_str())?;
    }
    Ok(())
}

fn entries(alloc: Global, count: usize) -> Result<(String, String), AllocError> {
    let mut source = String::new(alloc);
    let mut made = String::from_str(alloc, "fn gX_naga_oil_mod_XNUX() = 1\n")?;
    for at in 1..=count {
        source.push_str(&format!(in alloc; "entry e{at} = m::g()\n")?)?;
        made.push_str(&format!(in alloc; "entry e{at} = gX_naga_oil_mod_XNUX()\n")?)?;
    }
    Ok((source, made))
}

// What two modules import that both are imported by two others, and so on, is built once.
#[test]
fn builds_shared_imports_once(rt: HostRuntime) -> Result<(), Fail> {
    let alloc = rt.alloc();
    let mut composer = Composer::new(alloc, Mini);
    shared_imports(&rt, &mut composer, 30)?;
    let text = make(alloc, &mut composer, "entry main = a30::f()", &[])?;
    assert_eq!(&rt; (text.lines().count(), composer.builds()), (60, 59));
    Ok(())
}

fn shared_imports(
    rt: &(impl Abort + AllocGlobal),
    composer: &mut Composer<Mini>,
    count: usize,
) -> Result<(), AllocError> {
    let alloc = rt.alloc();
    adds(rt, composer, "a1", "fn f() = 1", &[])?;
    adds(rt, composer, "b1", "fn f() = 1", &[])?;
    for below in 1..count {
        let source = format!(in alloc; "fn f() = a{below}::f() + b{below}::f()")?;
        let at = below + 1;
        let (first, second) = (format!(in alloc; "a{at}")?, format!(in alloc; "b{at}")?);
        adds(rt, composer, first.as_str(), source.as_str(), &[])?;
        adds(rt, composer, second.as_str(), source.as_str(), &[])?;
    }
    Ok(())
}

// A reply as a text.
fn told(alloc: Global, composer: &Composer<Mini>, reply: &Reply) -> Result<String, AllocError> {
    match reply {
        Reply::Added(Ok(index)) => format!(in alloc; "added as {index}"),
        Reply::Added(Err(error)) => error.emit_to_string(composer),
        Reply::Removed(Ok(())) => String::from_str(alloc, "removed"),
        Reply::Removed(Err(error)) => Err(*error),
        Reply::Made(made) => shown(alloc, composer, made),
    }
}

fn arms<'a>(alloc: Global) -> Result<Command<'a>, AllocError> {
    let mut desc = ComposableModuleDescriptor::new(alloc);
    desc.source = "#ifdef X\nfn g() = 1\n#else\nfn g() = 2\n#endif";
    desc.as_name = Some(String::from_str(alloc, "m")?);
    Ok(Command::Add(desc))
}

fn shader<'a>(alloc: Global, values: &[Value<'_>]) -> Result<Command<'a>, AllocError> {
    let mut desc = NagaModuleDescriptor::new(alloc);
    desc.source = "entry main = m::g()";
    desc.file_path = "top";
    desc.shader_defs = defs_of(alloc, values)?;
    Ok(Command::Make(desc))
}

// A module, four shaders, the module again, and a shader.
fn commands<'a>(alloc: Global) -> Result<Vec<Command<'a>>, AllocError> {
    let set = ("X", ShaderDefValue::Bool(true));
    let other = ("Y", ShaderDefValue::Bool(true));
    let mut commands = Vec::new(alloc);
    commands.push(arms(alloc)?)?;
    commands.push(shader(alloc, &[])?)?;
    commands.push(shader(alloc, &[set])?)?;
    commands.push(shader(alloc, &[set, other])?)?;
    commands.push(Command::Remove("m"))?;
    commands.push(shader(alloc, &[set])?)?;
    commands.push(arms(alloc)?)?;
    commands.push(shader(alloc, &[set])?)?;
    Ok(commands)
}

#[test]
fn replies_to_each_command(rt: HostRuntime) -> Result<(), Fail> {
    let mut composer = Composer::new(rt.alloc(), Mini);
    replies_to_all(&rt, &mut composer)?;
    assert_eq!(&rt; replies_to_none(rt.alloc(), &mut composer)?, 0);
    Ok(())
}

fn replies_to_all(
    rt: &(impl Abort + AllocGlobal),
    composer: &mut Composer<Mini>,
) -> Result<(), AllocError> {
    let replies = run(composer, commands(rt.alloc())?)?;
    replies_are(rt, composer, &replies)
}

fn replies_to_none(alloc: Global, composer: &mut Composer<Mini>) -> Result<usize, AllocError> {
    let replies = run(composer, Vec::new(alloc))?;
    Ok(replies.len())
}

fn replies_are(
    rt: &(impl Abort + AllocGlobal),
    composer: &Composer<Mini>,
    replies: &[Reply],
) -> Result<(), AllocError> {
    let with = "fn gX_naga_oil_mod_XNUX() = 1\nentry main = gX_naga_oil_mod_XNUX()\n";
    let without = "fn gX_naga_oil_mod_XNUX() = 2\nentry main = gX_naga_oil_mod_XNUX()\n";
    let missing =
        "error: required import 'm' not found\n  at top:1:14\n  note: missing import 'm'\n";
    let wanted = [
        "added as 1",
        without,
        with,
        with,
        "removed",
        missing,
        "added as 1",
        with,
    ];
    assert_eq!(rt; replies.len(), wanted.len());
    for (reply, want) in replies.iter().zip(wanted) {
        assert_eq!(rt; told(rt.alloc(), composer, reply)?.as_str(), want);
    }
    Ok(())
}
