// A shader that is built over the modules of files.
ghost use Rattle.std.specs.Prelude.{◌≡◌, IfOk, IfErr, map};
ghost use Rattle.naga_oil_registry.specs.Registered.{defs_of};
ghost use Rattle.yettuvam_build.specs.Files.{file_of};
ghost use Rattle.yettuvam_build.specs.Words.{request_view};
ghost use Rattle.yettuvam_c.specs.Answer.{reply_of};
ghost use Rattle.yettuvam_c.specs.Built as spec;
ghost use Rattle.yettuvam_c.specs.Built.{IsBuilt, RefusesNames, RefusesSources, RefusesTask};
ghost use Rattle.yettuvam_c.specs.Given.{RefusesSource};
ghost use Rattle.yettuvam_c.specs.Laid.{plain};
ghost use Rattle.yettuvam_files.specs.Files.{texts_of};

use super::answer::{FAULTY, OK, source_texts};
use super::given::{Definitions, Refusal, given};
use super::parts::{FAULT_WHOLE, TEXT};
use super::*;
use page::{Name, Task};
use yettuvam_build::{Refusal as BuildRefusal, Request, built_text};
use yettuvam_wgsl::Wgsl;

// The path of a source, and a copy of its text.
fn file<'a>(alloc: Global, source: &Source<'a>) -> Result<(&'a str, String), Refusal>
    ensures ok { IfOk result (λ f. file_of f ≡ spec.source_file source.now) }
    ensures err { IfErr result (RefusesSource source.now) }
{
    let (path, text) = source_texts(source)?;
    Ok((path, String::from_str(alloc, text)?))
}

// The files of sources.
fn files<'a>(alloc: Global, sources: &[Source<'a>]) -> Result<Vec<(&'a str, String)>, Refusal>
    ensures ok { let expected = map spec.source_file sources.now in
        IfOk result (λ all. map file_of all.items ≡ expected) }
    ensures err { IfErr result (RefusesSources sources.now) }
{
    let mut all = Vec::with_capacity(alloc, sources.len())?;
    for source in sources {
        let file = file(alloc, source)?;
        all.push(file).map_err(AllocError::from)?;
    }
    Ok(all)
}

// The text of a name.
fn name_text<'a>(name: &Name<'a>) -> Result<&'a str, Refusal>
    ensures ok { IfOk result (λ text. text.now ≡ spec.name_text name.now) }
    ensures err { IfErr result (spec.RefusesName name.now) }
{
    match str::from_utf8(name.text) {
        Ok(text) => Ok(text),
        Err(_) => Err(Refusal::NotUtf8),
    }
}

// The texts of names.
fn name_texts<'a>(alloc: Global, names: &[Name<'a>]) -> Result<Vec<&'a str>, Refusal>
    ensures ok { let expected = map spec.name_text names.now in
        IfOk result (λ all. texts_of all.items ≡ expected) }
    ensures err { IfErr result (RefusesNames names.now) }
{
    let mut all = Vec::with_capacity(alloc, names.len())?;
    for name in names {
        let text = name_text(name)?;
        all.push(text).map_err(AllocError::from)?;
    }
    Ok(all)
}

// A reply of one part.
fn lone(alloc: Global, status: u32, kind: u32, text: &str) -> Result<(u32, Sheet), AllocError>
    ensures { let expected = spec.lone_reply status kind text.now in
        IfOk result (λ a. reply_of a ≡ expected) }
{
    let mut sheet = Sheet::new(alloc);
    sheet.push(Part::new(kind, text, 0))?;
    Ok((status, sheet))
}

// The fields of a shader that is built of files.
fn built_reply(
    alloc: Global,
    top: &(&str, String),
    others: &[(&str, String)],
    request: &Request<'_>,
    definitions: Definitions,
) -> Result<(u32, Sheet), AllocError>
    ensures { let reply = spec.build_reply (request_view request.now) (defs_of definitions) in
        IfOk result (λ a. reply_of a ≡ reply (file_of top.now) (map file_of others.now)) }
{
    match built_text(alloc, Wgsl, top, others, request, definitions) {
        Ok(text) => lone(alloc, OK, TEXT, text.as_str()),
        Err(BuildRefusal::Fault(report)) => lone(alloc, FAULTY, FAULT_WHOLE, report.as_str()),
        Err(_) => Err(AllocError),
    }
}

/// Builds a shader, and returns the status and the fields.
#[tactic(auto, using(crate::proofs::BuildLemmas::given_refused_task, crate::proofs::BuildLemmas::shader_refused_task, crate::proofs::BuildLemmas::modules_refused_task, crate::proofs::BuildLemmas::imports_refused_task))]
pub fn built(alloc: Global, task: &Task<'_>) -> Result<(u32, Sheet), Refusal>
    ensures ok { IfOk result (λ a. IsBuilt task.now (reply_of a)) }
    ensures err { IfErr result (RefusesTask task.now) }
{
    let definitions = given(alloc, task.definitions)?;
    let top = file(alloc, &task.shader)?;
    let others = files(alloc, task.modules)?;
    let imports = name_texts(alloc, task.imports)?;
    let request = Request {
        files: Vec::new(alloc),
        definitions: Vec::new(alloc),
        imports,
        override_any: task.override_any,
    };
    Ok(built_reply(alloc, &top, &others, &request, definitions)?)
}
