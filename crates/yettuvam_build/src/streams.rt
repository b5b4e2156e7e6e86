// Writing to a stream.
ghost use Rattle.std.specs.Prelude.{IfErr, OnOk};
ghost use Rattle.std.specs.Io.KnownBytes.{Appends};
ghost use Rattle.yettuvam_build.specs.Refusals.{AppendsFront, IsWrite, LeavesOut, Tells, TellsFront};

use super::refusal::Refusal;
use std::io::{self, ErrorKind, Write};

// Writes the bytes. A failed write may have written a front of them.
fn put<W: Write>(to: &mut W, bytes: &[u8]) -> io::Result<()>
    ensures all { OnOk result (Appends (W.contents to.old) (W.contents to.new) bytes.now) }
    ensures front { AppendsFront (W.contents to.old) (W.contents to.new) bytes.now }
{
    let mut rest = bytes;
    for _ in 0..u64::MAX {
        if rest.is_empty() {
            return Ok(());
        }
        match to.write(rest) {
            Ok(0) => return Err(io::Error::from(ErrorKind::WriteZero)),
            Ok(n) => rest = &rest[n..],
            Err(error) if error.kind() == ErrorKind::Interrupted => {}
            Err(error) => return Err(error),
        }
    }
    Err(io::Error::from(ErrorKind::Interrupted))
}

// Writes the bytes and flushes.
fn put_all<O: Write>(out: &mut O, bytes: &[u8]) -> io::Result<()>
    ensures { OnOk result (Appends (O.contents out.old) (O.contents out.new) bytes.now) }
{
    put(out, bytes)?;
    out.flush()
}

/// Writes the bytes and flushes.
pub fn show<'a, O: Write>(out: &mut O, bytes: &[u8]) -> Result<(), Refusal<'a>>
    ensures written { OnOk result (Appends (O.contents out.old) (O.contents out.new) bytes.now) }
    ensures err { IfErr result IsWrite }
    ensures untouched { IfErr result (λ e. LeavesOut e out.old out.new) }
{
    match put_all(out, bytes) {
        Ok(()) => Ok(()),
        Err(_) => Err(Refusal::Write),
    }
}

/// Writes the message of a refusal.
pub fn tell<E: Write>(refusal: Refusal<'_>, err: &mut E) -> io::Result<()>
    ensures all { OnOk result (Tells refusal.entry (E.contents err.old) (E.contents err.new)) }
    ensures front { TellsFront refusal.entry (E.contents err.old) (E.contents err.new) }
{
    let (front, middle, end) = refusal.message();
    put(err, front.as_bytes())?;
    put(err, middle.as_bytes())?;
    put(err, end.as_bytes())?;
    err.flush()
}
