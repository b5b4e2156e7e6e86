//! The program `naga_oil_probe`, for scripts: what builds cost in one composer, and what calls return without memory.
//!
//! - `reload` and `variants` print the number of parses and builds of each step (`measure`).
//! - `commands` prints replies, while `tests/refuse_allocations.sh` refuses memory.
//! - `calls` calls what allocates nothing, while that script refuses every allocation.
#![tactic(auto)]

mod calls;
mod commands;
mod failure;
mod measure;
mod words;

use failure::Failure;
use std::env;
use std::process::ExitCode;

const USAGE: &str = "usage: naga_oil_probe [commands] reload MODULES [--times] \
    | [commands] variants MODULES VALUES RECORDING [--times] | commands | calls\n";

// Measures what the words request.
fn print_measurement(rt: &HostRuntime, words: &[String]) -> Result<u8, Failure> {
    match words::measurement_of(words) {
        Some(measurement) => measure::print(rt, measurement)?,
        None => {
            eprint!(rt; "{USAGE}")?;
            return Ok(2);
        }
    }
    Ok(0)
}

fn run(rt: &HostRuntime) -> Result<u8, Failure> {
    let words: Vec<String> = env::args(rt)?.skip(1).collect(rt.alloc())?;
    match words.split_first() {
        Some((word, rest)) if word.as_str() == "commands" => {
            commands::print(rt)?;
            if rest.is_empty() {
                return Ok(0);
            }
            print_measurement(rt, rest)
        }
        Some((word, _)) if word.as_str() == "calls" => {
            calls::print(rt)?;
            Ok(0)
        }
        _ => print_measurement(rt, &words),
    }
}

fn main(rt: HostRuntime) -> ExitCode {
    match run(&rt) {
        Ok(status) => ExitCode::from(status),
        Err(failure) => {
            let _ = eprint!(rt; "{failure}");
            ExitCode::FAILURE
        }
    }
}
