// WGSL as a front end.
ghost use Rattle.std.specs.Prelude.{◌≡◌, IfOk};
ghost use Rattle.naga_oil_ir.specs.Backend.{write_fault};
ghost use Rattle.yettuvam_wgsl.specs.Front.{not_in_wgsl};

use naga_oil_ir::{
    Backend, BackendRefusal, Capabilities, Module, ParseFault, ShaderLanguage, Span, ValidFault,
    WriteFault,
};
use std::alloc::{AllocError, Global};
use yettuvam_wgsl_read::parse;
use yettuvam_wgsl_valid::{Invalid, valid_fault, validate};
use yettuvam_wgsl_write::module_text;
use yettuvam_wgsl_written::Refusal;

/// The front end WGSL. Headers of both languages are read and written as WGSL, whatever a device can do.
#[derive(Clone, Copy, Debug, Default)]
pub struct Wgsl;

fn not_in_wgsl_fault(alloc: Global, span: Span) -> Result<WriteFault, AllocError>
    ensures { IfOk result (λ f. write_fault f ≡ not_in_wgsl span) }
{
    Ok(WriteFault {
        message: String::from_str(alloc, "not in WGSL")?,
        spans: vec![in alloc; (span, String::new(alloc))]?,
        notes: Vec::new(alloc),
    })
}

impl Backend for Wgsl {
    ghost use Rattle.yettuvam_wgsl.specs.Front.{wgsl};

    ghost front = { λ _. wgsl };

    fn parse(
        &self,
        alloc: Global,
        _language: ShaderLanguage,
        text: &str,
    ) -> Result<Module, BackendRefusal<ParseFault>> {
        parse(alloc, text)
    }

    fn write(
        &self,
        alloc: Global,
        module_: &Module,
        _language: ShaderLanguage,
        _capabilities: Capabilities,
    ) -> Result<String, BackendRefusal<WriteFault>> {
        match module_text(alloc, module_) {
            Ok(text) => Ok(text),
            Err(Refusal::Memory) => Err(BackendRefusal::Memory),
            Err(Refusal::NotInWgsl(span)) => {
                Err(BackendRefusal::Fault(not_in_wgsl_fault(alloc, span)?))
            }
        }
    }

    fn validate(
        &self,
        alloc: Global,
        module_: &Module,
        _capabilities: Capabilities,
    ) -> Result<(), BackendRefusal<ValidFault>> {
        match validate(alloc, module_) {
            Ok(()) => Ok(()),
            Err(Invalid::Memory) => Err(BackendRefusal::Memory),
            Err(Invalid::Fault(fault)) => { Err(BackendRefusal::Fault(valid_fault(alloc, fault)?)) }
        }
    }
}
