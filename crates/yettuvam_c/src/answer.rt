// The results of the calls.
ghost use Rattle.std.specs.Prelude.{◌≡◌, MatchOption, IfOk, IfErr};
ghost use Rattle.std.specs.BTreeMap.{get_by_text};
ghost use Rattle.naga_oil_conditions.specs.View.{fault_of};
ghost use Rattle.yettuvam_c.specs.Given.{RefusesSource, Refuses};
ghost use Rattle.yettuvam_c.specs.Answer.{reply_of, fault_reply, preprocess_reply, IsMetadataReply, IsPreprocessed, IsMetadata, IsPut};

use super::given::{Definitions, Refusal, given};
use super::parts::{push_fault, push_metadata, push_output};
use super::*;

pub const OK: u32 = 0;

pub const FAULTY: u32 = 1;

pub const NO_MEMORY: u32 = 2;

pub const NOT_UTF8: u32 = 3;

pub const BAD_DEFINITION: u32 = 4;

pub const NO_ROOM: u32 = 5;

/// The path and the text of a source.
pub fn source_texts<'a>(source: &Source<'a>) -> Result<(&'a str, &'a str), Refusal>
    ensures ok { let of = source.now in
        IfOk result (λ t. (t.0.now ≡ of.path.now) × (t.1.now ≡ of.text.now)) }
    ensures err { IfErr result (RefusesSource source.now) }
{
    let Ok(path) = str::from_utf8(source.path) else {
        return Err(Refusal::NotUtf8);
    };
    let Ok(text) = str::from_utf8(source.text) else {
        return Err(Refusal::NotUtf8);
    };
    Ok((path, text))
}

// The field of an error, or `Err` where memory ran out.
fn fault(alloc: Global, path: &str, text: &str, inner: Inner) -> Result<(u32, Sheet), AllocError>
    ensures { let reply = fault_reply path.now text.now in
        IfOk result (λ a. MatchOption (fault_of inner) ⊥ (λ f. reply_of a ≡ reply f)) }
{
    if inner.is_memory() {
        return Err(AllocError);
    }
    let mut sheet = Sheet::new(alloc);
    push_fault(alloc, &mut sheet, path, text, &inner)?;
    Ok((FAULTY, sheet))
}

// The fields of a text that is preprocessed under definitions.
#[tactic(auto, using(crate::proofs::AnswerLemmas::fault_is_reply))]
fn preprocessed_reply(
    alloc: Global,
    path: &str,
    text: &str,
    definitions: &Definitions,
) -> Result<(u32, Sheet), AllocError>
    ensures { let reply = preprocess_reply path.now text.now (get_by_text definitions.now) in
        IfOk result (λ a. reply_of a ≡ reply) }
{
    let output = match Preprocessor.preprocess(alloc, text, definitions) {
        Ok(output) => output,
        Err(inner) => return fault(alloc, path, text, inner),
    };
    let mut sheet = Sheet::new(alloc);
    push_output(&mut sheet, &output)?;
    Ok((OK, sheet))
}

// The fields of a text's metadata.
#[tactic(auto, using(crate::proofs::AnswerLemmas::metadata_fault_is_reply))]
fn metadata_reply(
    alloc: Global,
    path: &str,
    text: &str,
    allow_defines: bool,
) -> Result<(u32, Sheet), AllocError>
    ensures { IfOk result (λ a. IsMetadataReply path.now text.now allow_defines (reply_of a)) }
{
    let found = match Preprocessor.get_preprocessor_metadata(alloc, text, allow_defines) {
        Ok(found) => found,
        Err(inner) => return fault(alloc, path, text, inner),
    };
    let mut sheet = Sheet::new(alloc);
    push_metadata(alloc, &mut sheet, &found)?;
    Ok((OK, sheet))
}

/// Preprocesses a source under the definitions, and returns the status and the fields.
#[tactic(auto, using(crate::proofs::GivenLemmas::source_refused, crate::proofs::GivenLemmas::given_refused))]
pub fn preprocessed(
    alloc: Global,
    source: &Source<'_>,
    definitions: &[Define<'_>],
) -> Result<(u32, Sheet), Refusal>
    ensures ok { IfOk result (λ a. IsPreprocessed source.now definitions.now (reply_of a)) }
    ensures err { IfErr result (Refuses source.now definitions.now) }
{
    let (path, text) = source_texts(source)?;
    let defs = given(alloc, definitions)?;
    Ok(preprocessed_reply(alloc, path, text, &defs)?)
}

/// Reads the metadata of a source, and returns the status and the fields.
pub fn metadata(
    alloc: Global,
    source: &Source<'_>,
    allow_defines: bool,
) -> Result<(u32, Sheet), Refusal>
    ensures ok { IfOk result (λ a. IsMetadata source.now allow_defines (reply_of a)) }
    ensures err { IfErr result (RefusesSource source.now) }
{
    let (path, text) = source_texts(source)?;
    Ok(metadata_reply(alloc, path, text, allow_defines)?)
}

/// Writes a result on a page, and returns the status.
pub fn put(answer: Result<(u32, Sheet), Refusal>, page: &mut Page<'_>) -> u32
    ensures { IsPut answer result page.old page.new }
{
    page.bytes = 0;
    page.count = 0;
    match answer {
        Ok((status, sheet)) if sheet.put(page) => status,
        Ok(_) => NO_ROOM,
        Err(Refusal::Memory) => NO_MEMORY,
        Err(Refusal::NotUtf8) => NOT_UTF8,
        Err(Refusal::BadDefinition(index)) => {
            page.count = index;
            BAD_DEFINITION
        }
    }
}
