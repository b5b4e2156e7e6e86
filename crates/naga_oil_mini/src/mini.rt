// `oil` by its command line, its files and its streams.
ghost use Rattle.std.specs.Prelude.{◌≡◌, ◌≤◌, None, map, string_bytes, OnOk, IfOk, IfErr};
ghost use Rattle.std.specs.Io.KnownBytes.{Appends};
ghost use Rattle.naga_oil_mini.specs.declared.mini.refusal.Refusal.{Refusal};
ghost use Rattle.naga_oil_mini_symbols.specs.NameTable.{texts_of};
ghost use Rattle.naga_oil_mini.specs.Words.{asked, asked_of};
ghost use Rattle.naga_oil_words.specs.Texts.{texts};
ghost use Rattle.naga_oil_mini.specs.Files.{Reads};
ghost use Rattle.naga_oil_mini.specs.MadeView.{file_of};
ghost use Rattle.naga_oil_mini.specs.Shown.{AppendsFront, Gives, IsAsked, Refuses, RefusesFiles, LeavesOut, Tells, TellsFront, Writes, status_of, task_text};
ghost use Rattle.naga_oil_registry.specs.Registered.{defs_of};

mod definitions;
mod help;
mod listing;
mod make;
mod pre;
mod program;
mod refusal;
#[cfg(test)]
mod tests;
mod words;

use definitions::Definitions;
pub use program::program;
pub use refusal::Refusal;
use std::alloc::{AllocError, Global};
use std::io::{self, ErrorKind, Write};
use words::{Request, Task};

// Writes the text that the words request.
fn answer<'a, F: FnMut(&str) -> Result<Option<Vec<u8>>, AllocError> + Drop, O: Write>(
    alloc: Global,
    words: &'a [String],
    read: F,
    out: &mut O,
) -> Result<(), Refusal<'a>>
    requires { F.IsAlwaysCallable read }
    ensures ok { OnOk result (IsAsked (texts words.now)) }
    ensures written { let is_written = Writes (Reads F.step read) (texts words.now) in
        OnOk result (is_written (O.contents out.old) (O.contents out.new)) }
    ensures err { IfErr result (Refuses (Reads F.step read) (texts words.now)) }
    ensures untouched { IfErr result (λ e. LeavesOut e out.old out.new) }
{
    let asked = words::asked(alloc, words)?;
    let definitions = definitions::given(alloc, asked.words)?;
    let texts = read_files(alloc, &asked.files, read)?;
    let (top, modules) = texts.split_first().ok_or(Refusal::Usage)?;
    let source = task_text(alloc, top, modules, &asked, definitions)?;
    match show(out, source.as_bytes()) {
        Ok(()) => Ok(()),
        Err(_) => Err(Refusal::Write),
    }
}

// The text that a task shows of files, the shader's and others.
fn task_text<'a>(
    alloc: Global,
    top: &(&'a str, String),
    others: &[(&'a str, String)],
    asked: &Request<'_>,
    definitions: Definitions,
) -> Result<String, Refusal<'a>>
    ensures { let shown = task_text asked.now.task (asked_of asked.now) (defs_of definitions) in
        Gives string_bytes result (shown (file_of top.now) (map file_of others.now)) }
{
    match asked.task {
        Task::Preprocess => pre::shown_file(alloc, top.0, top.1.as_str(), definitions),
        Task::Make => make::made(alloc, top, others, asked, definitions),
    }
}

// The texts of files, each with its path.
fn read_files<'a, F: FnMut(&str) -> Result<Option<Vec<u8>>, AllocError> + Drop>(
    alloc: Global,
    files: &[&'a str],
    mut read: F,
) -> Result<Vec<(&'a str, String)>, Refusal<'a>>
    requires { F.IsAlwaysCallable read }
    ensures ok { IfOk result (λ all. map (λ f. f.0.now) all.items ≡ texts_of files.now) }
    ensures read { IfOk result (λ all. Reads F.step read (map file_of all.items)) }
    ensures err { IfErr result (RefusesFiles (texts_of files.now)) }
{
    let mut texts = Vec::with_capacity(alloc, files.len())?;
    for file in files {
        let bytes = read(*file)?.ok_or(Refusal::CannotRead(*file))?;
        let text = String::from_utf8(bytes).ok();
        let text = text.ok_or(Refusal::CannotRead(*file))?;
        texts.push((*file, text)).map_err(AllocError::from)?;
    }
    Ok(texts)
}

// Writes the bytes. A failed write may have written a front of them.
fn put<W: Write>(to: &mut W, bytes: &[u8]) -> io::Result<()>
    ensures all { OnOk result (Appends (W.contents to.old) (W.contents to.new) bytes.now) }
    ensures front { AppendsFront (W.contents to.old) (W.contents to.new) bytes.now }
{
    let mut rest = bytes;
    for _ in 0..u64::MAX {
        if rest.is_empty() {
            return Ok(());
        }
        match to.write(rest) {
            Ok(0) => return Err(io::Error::from(ErrorKind::WriteZero)),
            Ok(n) => rest = &rest[n..],
            Err(error) if error.kind() == ErrorKind::Interrupted => {}
            Err(error) => return Err(error),
        }
    }
    Err(io::Error::from(ErrorKind::Interrupted))
}

// Writes the bytes and flushes.
fn show<O: Write>(out: &mut O, bytes: &[u8]) -> io::Result<()>
    ensures { OnOk result (Appends (O.contents out.old) (O.contents out.new) bytes.now) }
{
    put(out, bytes)?;
    out.flush()
}

// Writes the message of a refusal.
fn tell<E: Write>(refusal: Refusal<'_>, err: &mut E) -> io::Result<()>
    ensures all { OnOk result (Tells refusal.entry (E.contents err.old) (E.contents err.new)) }
    ensures front { TellsFront refusal.entry (E.contents err.old) (E.contents err.new) }
{
    let (front, middle, end) = refusal.message();
    put(err, front.as_bytes())?;
    put(err, middle.as_bytes())?;
    put(err, end.as_bytes())?;
    err.flush()
}

/// Runs `oil` with the words of its command line, and returns its status:
/// 0 where the text was written, 1 for an error in a text, out of memory and a failed write,
/// and 2 for a wrong command line and for a file that can't be read.
/// `read` returns the bytes of a file, or `None` for a file that can't be read.
/// An error is a line on `err`, except for a failed write.
pub fn oil<F: FnMut(&str) -> Result<Option<Vec<u8>>, AllocError> + Drop, O: Write, E: Write>(
    alloc: Global,
    words: &[String],
    read: F,
    out: &mut O,
    err: &mut E,
) -> u8
    requires { F.IsAlwaysCallable read }
    ensures statuses { result ≤ 2 }
    ensures asked { result ≡ 0 → IsAsked (texts words.now) }
    ensures written { let is_written = Writes (Reads F.step read) (texts words.now) in
        result ≡ 0 → is_written (O.contents out.old) (O.contents out.new) × (err.new ≡ err.old) }
    // Only a failed write may have left a part of the text on `out`.
    ensures refused { let refuses = Refuses (Reads F.step read) (texts words.now) in
        1 ≤ result → (e : Refusal) × refuses e × LeavesOut e out.old out.new
        × TellsFront e (E.contents err.old) (E.contents err.new) }
    // A wrong command line and a file that can't be read are reported by a line.
    ensures told { let refuses = Refuses (Reads F.step read) (texts words.now) in
        result ≡ 2 → (e : Refusal) × refuses e × (status_of e ≡ 2)
        × Tells e (E.contents err.old) (E.contents err.new) × LeavesOut e out.old out.new }
    ensures usage { asked (texts words.now) ≡ None → 1 ≤ result }
{
    let Err(refusal) = answer(alloc, words, read, out) else {
        return 0;
    };
    let status = refusal.status();
    match tell(refusal, err) {
        Ok(()) => status,
        Err(_) => 1,
    }
}
