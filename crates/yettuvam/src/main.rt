//! The program `yettuvam`: prints a shader in WGSL that is built from files.
#![tactic(auto)]

use std::alloc::AllocError;
use std::io::{BufWriter, ErrorKind, Read};
use std::process::ExitCode;
use std::{env, fs, io};
use yettuvam_wgsl_builds::wgsl_program;

// The bytes of standard input.
fn read_input(rt: &HostRuntime) -> io::Result<Vec<u8>> {
    let mut bytes = Vec::new(rt.alloc());
    rt.stdin().read_to_end(&mut bytes)?;
    Ok(bytes)
}

// The bytes of a file, if it can be read. For `-` these are the bytes of standard input, if they weren't read before.
fn read_file(
    rt: &HostRuntime,
    path: &str,
    input_read: &mut bool,
) -> Result<Option<Vec<u8>>, AllocError> {
    let bytes = match path {
        "-" if *input_read => return Ok(None),
        "-" => {
            *input_read = true;
            read_input(rt)
        }
        _ => fs::read(rt, path),
    };
    match bytes {
        Ok(bytes) => Ok(Some(bytes)),
        Err(error) if error.kind() == ErrorKind::OutOfMemory => Err(AllocError),
        Err(_) => Ok(None),
    }
}

fn run(rt: &HostRuntime) -> io::Result<u8> {
    let words: Vec<String> = env::args(rt)?.skip(1).collect(rt.alloc())?;
    let mut out = BufWriter::new(rt.alloc(), rt.stdout())?;
    let mut err = rt.stderr();
    let mut input_read = false;
    let read = |path: &str| read_file(rt, path, &mut input_read);
    Ok(wgsl_program(rt.alloc(), &words, read, &mut out, &mut err))
}

fn main(rt: HostRuntime) -> ExitCode {
    match run(&rt) {
        Ok(status) => ExitCode::from(status),
        Err(error) => {
            let _ = eprintln!(rt; "error: {error}");
            ExitCode::FAILURE
        }
    }
}
