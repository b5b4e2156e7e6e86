// A front end that counts its parses.
use naga_oil_ir::{
    Backend, BackendRefusal, Capabilities, Module, ParseFault, ShaderLanguage, ValidFault,
    WriteFault,
};
use naga_oil_mini_front::Mini;
use std::alloc::Global;
use std::cell::Cell;

/// Mini, which counts the texts that are parsed, and runs out of memory after `limit` texts. Each result is that of Mini, or out
/// of memory.
#[derive(Drop)]
pub struct Counting<'c> {
    parses: &'c Cell<usize>,
    limit: &'c Cell<usize>,
}

impl<'c> Counting<'c> {
    /// A front end that counts its parses in `parses`, and runs out of memory after `limit` texts.
    pub fn new(parses: &'c Cell<usize>, limit: &'c Cell<usize>) -> Counting<'c> {
        Counting { parses, limit }
    }

    pub(crate) fn parses(&self) -> &'c Cell<usize> {
        self.parses
    }
}

impl Backend for Counting<'_> {
    ghost use Rattle.naga_oil_mini_front.specs.Front.{mini};

    ghost front = { λ _. mini };

    fn parse(
        &self,
        alloc: Global,
        language: ShaderLanguage,
        text: &str,
    ) -> Result<Module, BackendRefusal<ParseFault>> {
        let before = self.parses.get();
        self.parses.set(before.saturating_add(1));
        if before >= self.limit.get() {
            return Err(BackendRefusal::Memory);
        }
        Mini.parse(alloc, language, text)
    }

    fn write(
        &self,
        alloc: Global,
        module_: &Module,
        language: ShaderLanguage,
        capabilities: Capabilities,
    ) -> Result<String, BackendRefusal<WriteFault>> {
        Mini.write(alloc, module_, language, capabilities)
    }

    fn validate(
        &self,
        alloc: Global,
        module_: &Module,
        capabilities: Capabilities,
    ) -> Result<(), BackendRefusal<ValidFault>> {
        Mini.validate(alloc, module_, capabilities)
    }
}
