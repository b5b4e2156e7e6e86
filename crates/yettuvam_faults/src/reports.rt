// The report of an error.
ghost use Rattle.std.specs.Prelude.{◌≡◌, IfOk, string_bytes};
ghost use Rattle.naga_oil_conditions.specs.View.{fault_of};
ghost use Rattle.naga_oil_ir.specs.Backend.{write_fault};
ghost use Rattle.yettuvam_faults.specs.MarksView.{source_view};
ghost use Rattle.yettuvam_faults.specs.Reports as spec;

pub use crate::marks::Source;
use crate::marks::marks;
use crate::message::message;
use crate::notes::{notes, push_undecorated};
use naga_oil_ir::WriteFault;
use naga_oil_lines::decorate::undecorate;
use naga_oil_pre::{ComposerErrorInner as Inner, Preprocessor};
use naga_oil_registry::sanitize::read_source;
use std::alloc::{AllocError, Global};
use yettuvam_report::report;

// The text without its directives; the text itself, if they can't be read.
fn without_directives(alloc: Global, text: String) -> Result<String, AllocError>
    ensures { IfOk result (λ t. string_bytes t ≡ spec.without_directives (string_bytes text)) }
{
    match Preprocessor.extract_wgsl_directives(alloc, text.as_str()) {
        Ok((cleaned, _directives)) => Ok(cleaned),
        Err(inner) if inner.is_memory() => Err(AllocError),
        Err(_) => Ok(text),
    }
}

/// Returns the text of a source as a composer reads it whose binding counter has this value, without its directives: the text
/// in which the places of errors in lines count. If the source can't be read, it is the source itself.
#[tactic(auto, unfolding(crate::specs::Reports::cleaned_source))]
pub fn cleaned_source(alloc: Global, counter: u32, source: &str) -> Result<String, AllocError>
    ensures { let cleaned = spec.cleaned_source counter source.now in
        IfOk result (λ t. string_bytes t ≡ cleaned) }
{
    match read_source(alloc, source, counter) {
        Ok((text, _counter)) => without_directives(alloc, text),
        Err(inner) if inner.is_memory() => Err(AllocError),
        Err(_) => String::from_str(alloc, source),
    }
}

/// Returns the report of an error: its message, the marked parts of the file, and notes. Takes time linear in the texts for each
/// mark.
#[tactic(auto, unfolding(crate::specs::Reports::fault_report))]
pub fn fault_report(alloc: Global, source: Source<'_>, inner: &Inner) -> Result<String, AllocError>
    ensures { let told = spec.fault_report (source_view source.entry) (fault_of inner.now) in
        IfOk result (λ t. string_bytes t ≡ told) }
{
    let message = message(alloc, inner)?;
    let marks = marks(alloc, source, inner)?;
    let notes = notes(alloc, inner)?;
    report(
        alloc,
        message.as_str(),
        source.path,
        source.file,
        marks.as_slice(),
        notes.as_slice(),
    )
}

/// Returns the report of why a shader that was made of the file at a path has no text.
#[tactic(auto, unfolding(crate::specs::Reports::write_report))]
pub fn write_report(alloc: Global, path: &str, fault: &WriteFault) -> Result<String, AllocError>
    ensures { let told = spec.write_report path.now (write_fault fault.now) in
        IfOk result (λ t. string_bytes t ≡ told) }
{
    let message = undecorate(alloc, fault.message.as_str())?;
    let mut notes = Vec::new(alloc);
    push_undecorated(alloc, &mut notes, fault.notes.as_slice())?;
    report(alloc, message.as_str(), path, "", &[], notes.as_slice())
}
