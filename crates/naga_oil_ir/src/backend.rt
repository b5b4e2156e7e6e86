// The trait of front ends, and their faults.
ghost use Rattle.naga_oil_ir.specs.Backend.{FrontEnd, Answers, parse_fault, write_fault, valid_fault, text, nothing};
ghost use Rattle.naga_oil_ir.specs.ModuleValue.{module_value};

use super::*;
use std::alloc::{AllocError, Global};

/// The capabilities of a device, as bits whose meaning a front end defines.
#[derive(Clone, Copy, Debug, PartialEq, Eq, Default)]
pub struct Capabilities(pub u64);

/// Why a text can't be parsed.
#[derive(Debug, Drop)]
pub struct ParseFault {
    pub message: String,
    /// Places in the text, each with its message.
    pub spans: Vec<(Span, String)>,
    pub notes: Vec<String>,
}

/// Why a module can't be written.
#[derive(Debug, Drop)]
pub struct WriteFault {
    pub message: String,
    /// Places of the module's items, each with its message.
    pub spans: Vec<(Span, String)>,
    pub notes: Vec<String>,
}

/// Why a module isn't valid.
#[derive(Debug, Drop)]
pub struct ValidFault {
    pub message: String,
    /// Places of the module's items, each with its message.
    pub spans: Vec<(Span, String)>,
    pub notes: Vec<String>,
}

/// Why a front end returns no result: the input has a fault, or memory has run out.
#[derive(Debug, Drop)]
pub enum BackendRefusal<F> {
    Fault(F),
    Memory,
}

impl<F> From<AllocError> for BackendRefusal<F> {
    ghost use Rattle.std.specs.Prelude.{◌≡◌};
    ghost use Rattle.naga_oil_ir.specs.declared.backend.BackendRefusal.TheVariants.{Memory};

    ghost from_gives = { λ _ refusal. refusal ≡ Memory };

    fn from(_: AllocError) -> Self {
        BackendRefusal::Memory
    }
}

/// A front end: it parses, writes and validates modules. Each call returns the value of one function of its inputs and of the
/// front end, or `Memory`.
pub trait Backend {
    /// The three functions.
    ghost front: { Self → FrontEnd };

    /// Parses a text and returns its module.
    ///
    /// # Errors
    /// `Fault` if the text has a fault, `Memory` if out of memory.
    fn parse(
        &self,
        alloc: Global,
        language: ShaderLanguage,
        text: &str,
    ) -> Result<Module, BackendRefusal<ParseFault>>
        ensures { let told = (front self.now).parse language text.now in
            Answers module_value parse_fault result told };

    /// Returns a text of a module.
    ///
    /// # Errors
    /// `Fault` if the module can't be written, `Memory` if out of memory.
    fn write(
        &self,
        alloc: Global,
        module_: &Module,
        language: ShaderLanguage,
        capabilities: Capabilities,
    ) -> Result<String, BackendRefusal<WriteFault>>
        ensures { let value = module_value module_.now in
            Answers text write_fault result ((front self.now).write value language capabilities) };

    /// Validates a module for a device.
    ///
    /// # Errors
    /// `Fault` if the module isn't valid, `Memory` if out of memory.
    fn validate(
        &self,
        alloc: Global,
        module_: &Module,
        capabilities: Capabilities,
    ) -> Result<(), BackendRefusal<ValidFault>>
        ensures { let tested = (front self.now).valid (module_value module_.now) capabilities in
            Answers nothing valid_fault result tested };
}
