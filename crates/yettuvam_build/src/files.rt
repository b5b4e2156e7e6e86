// The files that are read.
ghost use Rattle.std.specs.Prelude.{◌≡◌, IfOk, IfErr, map};
ghost use Rattle.yettuvam_build.specs.Files.{Reads};
ghost use Rattle.yettuvam_build.specs.Files.{file_of};
ghost use Rattle.yettuvam_build.specs.Refusals.{RefusesFiles};
ghost use Rattle.yettuvam_files.specs.Files.{texts_of};

use super::refusal::Refusal;
use std::alloc::{AllocError, Global};

/// The texts of files, each with its path.
pub fn read_files<'a, F: FnMut(&str) -> Result<Option<Vec<u8>>, AllocError> + Drop>(
    alloc: Global,
    files: &[&'a str],
    mut read: F,
) -> Result<Vec<(&'a str, String)>, Refusal<'a>>
    requires { F.IsAlwaysCallable read }
    ensures ok { IfOk result (λ all. map (λ f. f.0.now) all.items ≡ texts_of files.now) }
    ensures read { IfOk result (λ all. Reads F.step read (map file_of all.items)) }
    ensures err { IfErr result (RefusesFiles (texts_of files.now)) }
{
    let mut texts = Vec::with_capacity(alloc, files.len())?;
    for file in files {
        let bytes = read(*file)?.ok_or(Refusal::CannotRead(*file))?;
        let text = String::from_utf8(bytes).ok();
        let text = text.ok_or(Refusal::CannotRead(*file))?;
        texts.push((*file, text)).map_err(AllocError::from)?;
    }
    Ok(texts)
}
