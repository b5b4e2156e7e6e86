// Eight commands in one run, and one more shader.
use super::failure::Failure;
use naga_oil::compose::{
    Capabilities, Command, ComposableModuleDescriptor, Composer, ComposerError,
    NagaModuleDescriptor, Reply, ShaderDefValue, ShaderLanguage, run,
};
use naga_oil_ir::{Backend, BackendRefusal, Module};
use naga_oil_mini_front::Mini;
use std::alloc::{AllocError, Global};
use std::io;

fn adds<'a>(alloc: Global) -> Result<Command<'a>, AllocError> {
    let mut desc = ComposableModuleDescriptor::new(alloc);
    desc.source = "#ifdef X\nfn g() = 1\n#else\nfn g() = 2\n#endif";
    desc.as_name = Some(String::from_str(alloc, "m")?);
    Ok(Command::Add(desc))
}

// A shader under definitions with these names.
fn shader<'a>(alloc: Global, names: &[&str]) -> Result<NagaModuleDescriptor<'a>, AllocError> {
    let mut desc = NagaModuleDescriptor::new(alloc);
    desc.source = "entry main = m::g()";
    for name in names {
        let name = String::from_str(alloc, *name)?;
        desc.shader_defs.insert(name, ShaderDefValue::Bool(true))?;
    }
    Ok(desc)
}

fn makes<'a>(alloc: Global, names: &[&str]) -> Result<Command<'a>, AllocError> {
    Ok(Command::Make(shader(alloc, names)?))
}

// A module, four shaders around its removal, the module again, and a shader.
fn commands<'a>(alloc: Global) -> Result<Vec<Command<'a>>, AllocError> {
    let mut commands = Vec::new(alloc);
    commands.push(adds(alloc)?)?;
    commands.push(makes(alloc, &[])?)?;
    commands.push(makes(alloc, &["X"])?)?;
    commands.push(makes(alloc, &["X", "Y"])?)?;
    commands.push(makes(alloc, &["X"])?)?;
    commands.push(Command::Remove("m"))?;
    commands.push(adds(alloc)?)?;
    commands.push(makes(alloc, &["X"])?)?;
    Ok(commands)
}

fn print_made<R: Print + AllocGlobal>(
    rt: &R,
    made: &Result<Module, ComposerError>,
) -> Result<(), Failure> {
    let made = match made {
        Ok(made) => made,
        Err(error) => {
            let (inner, offset) = (&error.inner, error.source.offset());
            println!(rt; "not made: {inner:?} from {offset}")?;
            return Ok(());
        }
    };
    match Mini.write(rt.alloc(), made, ShaderLanguage::Wgsl, Capabilities(0)) {
        Ok(text) => println!(rt; "made: {text:?}")?,
        Err(BackendRefusal::Fault(fault)) => println!(rt; "made, but {fault:?}")?,
        Err(BackendRefusal::Memory) => return Err(Failure::Memory),
    }
    Ok(())
}

fn print_reply<R: Print + AllocGlobal>(rt: &R, reply: &Reply) -> Result<(), Failure> {
    match reply {
        Reply::Added(Ok(index)) => println!(rt; "added: {index}")?,
        Reply::Added(Err(error)) => {
            let inner = &error.inner;
            println!(rt; "not added: {inner:?}")?;
        }
        Reply::Removed(Ok(())) => println!(rt; "removed")?,
        Reply::Removed(Err(_)) => println!(rt; "not removed: Memory")?,
        Reply::Made(made) => print_made(rt, made)?,
    }
    Ok(())
}

// Prints the index of the module m, the counter and the number of builds that were kept.
fn print_composer<R: Print>(rt: &R, composer: &Composer<Mini>) -> io::Result<()> {
    let index = composer.module("m").map(|found| found.module_index);
    let (counter, builds) = (composer.binding_counter(), composer.builds());
    println!(rt; "m at {index:?}, counter {counter}, {builds} builds")
}

/// Prints the reply to each of the commands, the state of the composer after them, and then a shader that is built under X.
pub fn print<R: Print + AllocGlobal>(rt: &R) -> Result<(), Failure> {
    let mut composer = Composer::new(rt.alloc(), Mini);
    let commands = commands(rt.alloc())?;
    let again = shader(rt.alloc(), &["X"])?;
    println!(rt; "commands")?;
    match run(&mut composer, commands) {
        Ok(replies) => {
            for reply in &replies {
                print_reply(rt, reply)?;
            }
        }
        Err(_) => println!(rt; "no replies: Memory")?,
    }
    print_composer(rt, &composer)?;
    print_made(rt, &composer.make_naga_module(again))
}
