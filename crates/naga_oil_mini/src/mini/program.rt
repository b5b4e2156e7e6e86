// The program by its command line.
ghost use Rattle.std.specs.Prelude.{◌≡◌, ◌≤◌, None, IsSome, OnOk, IfOk, IfErr, option_map};
ghost use Rattle.naga_oil_words.specs.Texts.{texts};
ghost use Rattle.naga_oil_mini.specs.declared.mini.refusal.Refusal.{Refusal};
ghost use Rattle.naga_oil_mini.specs.Extra.{extra, extra_of, extra_of_word, extra_of_file, metadata_of_file, IsListedFile, WritesExtra, RefusesExtra, WritesAny, RefusesAny};
ghost use Rattle.naga_oil_mini.specs.Files.{Reads};
ghost use Rattle.naga_oil_mini.specs.Shown.{LeavesOut, Tells, TellsFront, status_of};
ghost use Rattle.naga_oil_mini.specs.Words.{asked};

use super::help::{HELP, VERSION};
use super::listing::listed_file;
use super::refusal::Refusal;
use super::words::is_file;
use super::{oil, read_files, show, tell};
use std::alloc::{AllocError, Global};
use std::io::Write;

/// The requests that `oil` itself doesn't take.
#[derive(Clone, Copy)]
pub enum Extra<'a> {
    Help,
    Version,
    /// The metadata of a file.
    Metadata(&'a str),
}

// A word alone.
fn extra_of_word(word: &str) -> Option<Extra<'_>>
    ensures { option_map extra_of result ≡ extra_of_word word.now }
{
    match word {
        "--help" => Some(Extra::Help),
        "--version" => Some(Extra::Version),
        _ => None,
    }
}

// `pre` with its option and a file.
fn extra_of_file<'a>(command: &str, option: &str, file: &'a str) -> Option<Extra<'a>>
    ensures { option_map extra_of result ≡ extra_of_file command.now option.now file.now }
{
    if command == "pre" && option == "--metadata" && is_file(file) {
        Some(Extra::Metadata(file))
    } else {
        None
    }
}

/// The request of the words, if `oil` itself doesn't take it.
pub fn extra_asked(words: &[String]) -> Option<Extra<'_>>
    ensures { option_map extra_of result ≡ extra (texts words.now) }
{
    match words {
        [word] => extra_of_word(word.as_str()),
        [command, option, file] => {
            extra_of_file(command.as_str(), option.as_str(), file.as_str())
        }
        _ => None,
    }
}

// The lines of the metadata of a file.
fn listed<'a, F: FnMut(&str) -> Result<Option<Vec<u8>>, AllocError> + Drop>(
    alloc: Global,
    file: &'a str,
    read: F,
) -> Result<Vec<u8>, Refusal<'a>>
    requires { F.IsAlwaysCallable read }
    ensures ok { IfOk result (λ t. IsListedFile (Reads F.step read) file.now t.items) }
    ensures err { IfErr result (RefusesExtra (Reads F.step read) (metadata_of_file file.now)) }
{
    let texts = read_files(alloc, &[file], read)?;
    let (first, _) = texts.split_first().ok_or(Refusal::CannotRead(file))?;
    listed_file(alloc, file, first.1.as_str())
}

// Writes the text that is requested.
fn answer_extra<'a, F: FnMut(&str) -> Result<Option<Vec<u8>>, AllocError> + Drop, O: Write>(
    alloc: Global,
    asked: Extra<'a>,
    read: F,
    out: &mut O,
) -> Result<(), Refusal<'a>>
    requires { F.IsAlwaysCallable read }
    ensures written { let is_written = WritesExtra (Reads F.step read) (extra_of asked.entry) in
        OnOk result (is_written (O.contents out.old) (O.contents out.new)) }
    ensures err { IfErr result (RefusesExtra (Reads F.step read) (extra_of asked.entry)) }
    ensures untouched { IfErr result (λ e. LeavesOut e out.old out.new) }
{
    let shown = match asked {
        Extra::Help => show(out, HELP.as_bytes()),
        Extra::Version => show(out, VERSION.as_bytes()),
        Extra::Metadata(file) => show(out, listed(alloc, file, read)?.as_slice()),
    };
    match shown {
        Ok(()) => Ok(()),
        Err(_) => Err(Refusal::Write),
    }
}

/// Runs the program with the words of its command line, and returns its status. The program does what `oil` does, and besides
/// `--help`, `--version` and `pre --metadata FILE`, which `oil` doesn't take. Statuses, `read` and the streams are those of `oil`.
#[tactic(auto, using(crate::proofs::ProgramLemmas::is_apart))]
pub fn program<F: FnMut(&str) -> Result<Option<Vec<u8>>, AllocError> + Drop, O: Write, E: Write>(
    alloc: Global,
    words: &[String],
    read: F,
    out: &mut O,
    err: &mut E,
) -> u8
    requires { F.IsAlwaysCallable read }
    ensures apart { IsSome (extra (texts words.now)) → asked (texts words.now) ≡ None }
    ensures statuses { result ≤ 2 }
    ensures written { let is_written = WritesAny (Reads F.step read) (texts words.now) in
        result ≡ 0 → is_written (O.contents out.old) (O.contents out.new) × (err.new ≡ err.old) }
    ensures refused { let refuses = RefusesAny (Reads F.step read) (texts words.now) in
        1 ≤ result → (e : Refusal) × refuses e × LeavesOut e out.old out.new
        × TellsFront e (E.contents err.old) (E.contents err.new) }
    // A wrong command line and a file that can't be read are reported by a line.
    ensures told { let refuses = RefusesAny (Reads F.step read) (texts words.now) in
        result ≡ 2 → (e : Refusal) × refuses e × (status_of e ≡ 2)
        × Tells e (E.contents err.old) (E.contents err.new) × LeavesOut e out.old out.new }
{
    let Some(asked) = extra_asked(words) else {
        return oil(alloc, words, read, out, err);
    };
    let Err(refusal) = answer_extra(alloc, asked, read, out) else {
        return 0;
    };
    let status = refusal.status();
    match tell(refusal, err) {
        Ok(()) => status,
        Err(_) => 1,
    }
}
