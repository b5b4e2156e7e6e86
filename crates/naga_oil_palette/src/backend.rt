// Palette as a front end.
ghost use Rattle.std.specs.Prelude.{◌≡◌, IfOk};
ghost use Rattle.naga_oil_ir.specs.ModuleValue.{module_value};
ghost use Rattle.naga_oil_ir.specs.Backend.{write_fault, valid_fault};
ghost use Rattle.naga_oil_palette.specs.Front as spec;

use crate::reader::parsed;
use crate::writer::text_of;
use naga_oil_ir::{
    Backend, BackendRefusal, Capabilities, Module, ParseFault, ShaderLanguage, Span, ValidFault,
    WriteFault,
};
use std::alloc::{AllocError, Global};

/// The front end Palette. A line `NAME` is a new colour, and a line `NAME = OTHER` another name of an earlier colour. Empty
/// lines and lines that begin with `#` are skipped. Both languages are read alike. A device's capabilities are the number of
/// colours that it has room for, or 0 for any number.
#[derive(Clone, Copy, Debug, Default)]
pub struct Palette;

fn not_written(alloc: Global) -> Result<WriteFault, AllocError>
    ensures { IfOk result (λ f. write_fault f ≡ spec.not_written) }
{
    Ok(WriteFault {
        message: String::from_str(alloc, "no palette")?,
        spans: Vec::new(alloc),
        notes: Vec::new(alloc),
    })
}

// The span of the first colour that there is no room for, if there is one.
#[tactic(auto, using(crate::proofs::PaletteLemmas::span_at_row))]
fn without_room(of: &Module, room: u64) -> Option<Span>
    ensures { result ≡ spec.without_room room (module_value of.now) }
{
    if room == 0 {
        return None;
    }
    let colours = of.constants.as_slice();
    colours.get(room as usize).map(|colour| colour.1)
}

fn too_many(alloc: Global, span: Span) -> Result<ValidFault, AllocError>
    ensures { IfOk result (λ f. valid_fault f ≡ spec.too_many span) }
{
    let text = String::from_str(alloc, "no room for this one")?;
    Ok(ValidFault {
        message: String::from_str(alloc, "too many colours")?,
        spans: vec![in alloc; (span, text)]?,
        notes: Vec::new(alloc),
    })
}

impl Backend for Palette {
    ghost use Rattle.naga_oil_palette.specs.Front.{palette};

    ghost front = { λ _. palette };

    fn parse(
        &self,
        alloc: Global,
        _language: ShaderLanguage,
        text: &str,
    ) -> Result<Module, BackendRefusal<ParseFault>> {
        parsed(alloc, text)
    }

    fn write(
        &self,
        alloc: Global,
        module_: &Module,
        _language: ShaderLanguage,
        _capabilities: Capabilities,
    ) -> Result<String, BackendRefusal<WriteFault>> {
        match text_of(alloc, module_)? {
            Some(text) => Ok(text),
            None => Err(BackendRefusal::Fault(not_written(alloc)?)),
        }
    }

    fn validate(
        &self,
        alloc: Global,
        module_: &Module,
        capabilities: Capabilities,
    ) -> Result<(), BackendRefusal<ValidFault>> {
        match without_room(module_, capabilities.0) {
            None => Ok(()),
            Some(span) => Err(BackendRefusal::Fault(too_many(alloc, span)?)),
        }
    }
}
