//! Runs commands on a composer, one after the other.
ghost use Rattle.std.specs.Prelude.{◌≡◌, IfOk, OnErr};
ghost use Rattle.naga_oil.specs.Run.{Step, Run};

use super::*;

/// A command to a composer.
#[derive(Drop)]
pub enum Command<'a> {
    Add(ComposableModuleDescriptor<'a>),
    /// Removes the module with this name, and all that reach it by imports.
    Remove(&'a str),
    Make(NagaModuleDescriptor<'a>),
}

/// The result of a command.
#[derive(Drop)]
pub enum Reply {
    /// The index of the added module.
    Added(ComposerResult<usize>),
    Removed(AllocResult),
    Made(ComposerResult<Module>),
}

fn step<B: Backend>(composer: &mut Composer<B>, command: Command<'_>) -> Reply
    ensures { Step B.front composer.old command.entry result composer.new }
{
    match command {
        Command::Add(desc) => Reply::Added(composer.add_module(desc)),
        Command::Remove(name) => Reply::Removed(composer.remove_composable_module(name)),
        Command::Make(desc) => Reply::Made(composer.make_naga_module(desc)),
    }
}

/// Runs commands one after the other, and returns a reply to each. Memory for the replies is
/// allocated first: without it no command is run.
pub fn run<B: Backend>(
    composer: &mut Composer<B>,
    commands: Vec<Command<'_>>,
) -> AllocResult<Vec<Reply>>
    ensures ran { let run = Run B.front composer.old commands.entry.items in
        IfOk result (λ replies. run replies.items composer.new) }
    ensures refused { OnErr result (composer.new ≡ composer.old) }
{
    let mut replies = Vec::with_capacity(composer.alloc(), commands.len())?;
    for command in commands {
        replies.push(step(composer, command)).unwrap();
    }
    Ok(replies)
}
