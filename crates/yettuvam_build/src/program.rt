// The program by its command line, its files and its streams.
ghost use Rattle.std.specs.Prelude.{◌≡◌, ◌<◌, ◌≤◌, None, length, string_bytes, OnOk, IfOk, IfErr};
ghost use Rattle.naga_oil_words.specs.Texts.{texts};
ghost use Rattle.yettuvam_build.specs.Files.{Reads};
ghost use Rattle.yettuvam_build.specs.Refusals.{LeavesOut, Tells, TellsFront, status_of};
ghost use Rattle.yettuvam_build.specs.Shown.{IsBuilt, Refuses, RefusesBuild, RefusesFor, Writes, WritesFor};
ghost use Rattle.yettuvam_build.specs.Words.{HasFile, command_of, command_view, request_view};
ghost use Rattle.yettuvam_build.specs.declared.refusal.Refusal.{Refusal};

use super::definitions::given;
use super::files::read_files;
use super::refusal::Refusal;
use super::streams::{show, tell};
use super::text::built_text;
use super::words::{self, Command, Request};
use naga_oil_ir::Backend;
use std::alloc::{AllocError, Global};
use std::io::Write;

// The text of the shader that is requested, or what is wrong with its definitions, its files or their texts.
fn built<'a, B: Backend + Copy, F: FnMut(&str) -> Result<Option<Vec<u8>>, AllocError> + Drop>(
    alloc: Global,
    front: B,
    request: &Request<'a>,
    read: F,
) -> Result<String, Refusal<'a>>
    requires callable { F.IsAlwaysCallable read }
    requires some_file { 0 < length request.now.files.items }
    ensures ok { let is_built = IsBuilt (B.front front) (Reads F.step read) in
        IfOk result (λ t. is_built (request_view request.now) (string_bytes t)) }
    ensures err { let refuses = RefusesBuild (B.front front) (Reads F.step read) in
        IfErr result (refuses (request_view request.now)) }
{
    let definitions = given(alloc, &request.definitions)?;
    let texts = read_files(alloc, &request.files, read)?;
    let (top, others) = texts.split_first().unwrap();
    built_text(alloc, front, top, others, request, definitions)
}

// Writes the text that is requested.
fn answer<
    'a,
    B: Backend + Copy,
    F: FnMut(&str) -> Result<Option<Vec<u8>>, AllocError> + Drop,
    O: Write,
>(alloc: Global, front: B, command: &Command<'a>, read: F, out: &mut O) -> Result<(), Refusal<'a>>
    requires callable { F.IsAlwaysCallable read }
    requires some_file { HasFile command.now }
    ensures written { let writes = Writes (B.front front) (Reads F.step read) in
        let is_written = writes (command_view command.now) in
        OnOk result (is_written (O.contents out.old) (O.contents out.new)) }
    ensures err { let refuses = Refuses (B.front front) (Reads F.step read) in
        IfErr result (refuses (command_view command.now)) }
    ensures untouched { IfErr result (λ e. LeavesOut e out.old out.new) }
{
    match command {
        Command::Text(text) => show(out, text.as_bytes()),
        Command::Build(request) => {
            let text = built(alloc, front, request, read)?;
            show(out, text.as_bytes())
        }
    }
}

// Writes the text that the words request.
fn run<
    'a,
    B: Backend + Copy,
    F: FnMut(&str) -> Result<Option<Vec<u8>>, AllocError> + Drop,
    O: Write,
>(alloc: Global, front: B, words: &'a [String], read: F, out: &mut O) -> Result<(), Refusal<'a>>
    requires { F.IsAlwaysCallable read }
    ensures written { let writes = WritesFor (B.front front) (Reads F.step read) in
        let is_written = writes (command_of (texts words.now)) in
        OnOk result (is_written (O.contents out.old) (O.contents out.new)) }
    ensures err { let refuses = RefusesFor (B.front front) (Reads F.step read) in
        IfErr result (refuses (command_of (texts words.now))) }
    ensures untouched { IfErr result (λ e. LeavesOut e out.old out.new) }
{
    let command = words::command_of(alloc, words)?;
    answer(alloc, front, &command, read, out)
}

/// Runs the program with the words of its command line over a front end, and returns its status: 0 if the text was written, 1 for an
/// error in the texts of files, out of memory and a failed write, and 2 for a wrong command line and for a file that can't be read.
///
/// For `build` the text is that of the shader in the first file, after the shader's own directives: the module that a composer makes
/// of it over the modules of the other files, written by the front end. The other files may stand in any order. For `--help` and
/// `--version` it is `HELP` and `VERSION`.
///
/// `read` returns the bytes of a file, or `None` for a file that can't be read. An error is a report on `err`, unless a write failed.
pub fn build_program<
    B: Backend + Copy,
    F: FnMut(&str) -> Result<Option<Vec<u8>>, AllocError> + Drop,
    O: Write,
    E: Write,
>(alloc: Global, front: B, words: &[String], read: F, out: &mut O, err: &mut E) -> u8
    requires { F.IsAlwaysCallable read }
    ensures statuses { result ≤ 2 }
    ensures written { let writes = WritesFor (B.front front) (Reads F.step read) in
        let is_written = writes (command_of (texts words.now)) in
        result ≡ 0 → is_written (O.contents out.old) (O.contents out.new) × (err.new ≡ err.old) }
    // Only a failed write may have left a part of the text on `out`.
    ensures refused { let refuses = RefusesFor (B.front front) (Reads F.step read) in
        1 ≤ result → (e : Refusal) × refuses (command_of (texts words.now)) e
        × LeavesOut e out.old out.new × TellsFront e (E.contents err.old) (E.contents err.new) }
    // A wrong command line and a file that can't be read are reported by a line.
    ensures told { let refuses = RefusesFor (B.front front) (Reads F.step read) in
        result ≡ 2 → (e : Refusal) × refuses (command_of (texts words.now)) e × (status_of e ≡ 2)
        × LeavesOut e out.old out.new × Tells e (E.contents err.old) (E.contents err.new) }
    ensures usage { command_of (texts words.now) ≡ None → 1 ≤ result }
{
    let Err(refusal) = run(alloc, front, words, read, out) else {
        return 0;
    };
    let status = refusal.status();
    match tell(refusal, err) {
        Ok(()) => status,
        Err(_) => 1,
    }
}
