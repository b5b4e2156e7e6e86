// Mini, a front end for experiments: one item a line.
ghost use Rattle.std.specs.Prelude.{◌≡◌, IfOk};
ghost use Rattle.naga_oil_ir.specs.Backend.{write_fault};
ghost use Rattle.naga_oil_mini_writer.specs.Writer.{not_in_mini};

use crate::reader::parsed;
use crate::valid::validated;
use naga_oil_ir::{
    Backend, BackendRefusal, Capabilities, Module, ParseFault, ShaderLanguage, ValidFault,
    WriteFault,
};
use naga_oil_mini_writer::{NotWritten, module_text};
use std::alloc::{AllocError, Global};

/// The front end Mini. Both languages are read alike. A line is one of
///
/// - `const NAME = INT`
/// - `var NAME = INT`, a global
/// - `fn NAME(P, ..)`, a stub
/// - `fn NAME(P, ..) = EXPR`
/// - `fn NAME(P, ..) with LOCAL = INIT, .. = EXPR`
/// - `entry NAME = EXPR`
/// - `entry NAME with LOCAL = INIT, .. = EXPR`
///
/// EXPR is terms joined by `+`, and a term is INT, NAME or `NAME(EXPR, ..)`. INIT is terms joined by `+` too, and a term is
/// INT or the NAME of a constant.
#[derive(Clone, Copy, Debug, Default)]
pub struct Mini;

fn not_in_mini(alloc: Global) -> Result<WriteFault, AllocError>
    ensures { IfOk result (λ f. write_fault f ≡ not_in_mini) }
{
    Ok(WriteFault {
        message: String::from_str(alloc, "not in Mini")?,
        spans: Vec::new(alloc),
        notes: Vec::new(alloc),
    })
}

impl Backend for Mini {
    ghost use Rattle.naga_oil_mini_front.specs.Front.{mini};

    ghost front = { λ _. mini };

    fn parse(
        &self,
        alloc: Global,
        _language: ShaderLanguage,
        text: &str,
    ) -> Result<Module, BackendRefusal<ParseFault>> {
        parsed(alloc, text)
    }

    fn write(
        &self,
        alloc: Global,
        module_: &Module,
        _language: ShaderLanguage,
        _capabilities: Capabilities,
    ) -> Result<String, BackendRefusal<WriteFault>> {
        match module_text(alloc, module_) {
            Ok(text) => Ok(text),
            Err(NotWritten::Memory) => Err(BackendRefusal::Memory),
            Err(NotWritten::NotInMini) => Err(BackendRefusal::Fault(not_in_mini(alloc)?)),
        }
    }

    fn validate(
        &self,
        alloc: Global,
        module_: &Module,
        _capabilities: Capabilities,
    ) -> Result<(), BackendRefusal<ValidFault>> {
        validated(alloc, module_)
    }
}
