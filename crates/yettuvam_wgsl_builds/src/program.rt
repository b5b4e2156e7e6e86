//! The program over the front end WGSL.
ghost use Rattle.std.specs.Prelude.{◌≡◌, ◌≤◌, None};
ghost use Rattle.naga_oil_words.specs.Texts.{texts};
ghost use Rattle.yettuvam_build.specs.Files.{Reads};
ghost use Rattle.yettuvam_build.specs.Refusals.{LeavesOut, Tells, TellsFront, status_of};
ghost use Rattle.yettuvam_build.specs.Shown.{RefusesFor, WritesFor};
ghost use Rattle.yettuvam_build.specs.Words.{command_of};
ghost use Rattle.yettuvam_build.specs.declared.refusal.Refusal.{Refusal};
ghost use Rattle.yettuvam_wgsl.specs.Front.{wgsl};

use std::alloc::{AllocError, Global};
use std::io::Write;
use yettuvam_build::build_program;
use yettuvam_wgsl::Wgsl;

/// Runs the program with the words of its command line over WGSL, and returns its status: 0 if the text was written, 1 for an error
/// in the texts of files, out of memory and a failed write, and 2 for a wrong command line and for a file that can't be read.
///
/// For `build` the text is that of the shader in the first file, after the shader's own directives: the module that a composer makes
/// of it over the modules of the other files, written as WGSL. `read` returns the bytes of a file, or `None` for a file that can't be
/// read. An error is a report on `err`, unless a write failed.
pub fn wgsl_program<
    F: FnMut(&str) -> Result<Option<Vec<u8>>, AllocError> + Drop,
    O: Write,
    E: Write,
>(alloc: Global, words: &[String], read: F, out: &mut O, err: &mut E) -> u8
    requires { F.IsAlwaysCallable read }
    ensures statuses { result ≤ 2 }
    ensures written { let writes = WritesFor wgsl (Reads F.step read) in
        let is_written = writes (command_of (texts words.now)) in
        result ≡ 0 → is_written (O.contents out.old) (O.contents out.new) × (err.new ≡ err.old) }
    // Only a failed write may have left a part of the text on `out`.
    ensures refused { let refuses = RefusesFor wgsl (Reads F.step read) in
        1 ≤ result → (e : Refusal) × refuses (command_of (texts words.now)) e
        × LeavesOut e out.old out.new × TellsFront e (E.contents err.old) (E.contents err.new) }
    // A wrong command line and a file that can't be read are reported by a line.
    ensures told { let refuses = RefusesFor wgsl (Reads F.step read) in
        result ≡ 2 → (e : Refusal) × refuses (command_of (texts words.now)) e × (status_of e ≡ 2)
        × LeavesOut e out.old out.new × Tells e (E.contents err.old) (E.contents err.new) }
    ensures usage { command_of (texts words.now) ≡ None → 1 ≤ result }
{
    build_program(alloc, Wgsl, words, read, out, err)
}
