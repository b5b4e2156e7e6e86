// Why the program fails.
use naga_oil_projects::Refusal;
use std::alloc::AllocError;
use std::{fmt, io};

#[derive(Debug, Drop)]
pub enum Failure {
    /// A project that can't be built: the composer's report.
    Fault(String),
    Memory,
    /// A clock that can't be read, or a line that can't be written.
    Io(io::Error),
}

impl fmt::Display for Failure {
    fn fmt<W: fmt::Write>(&self, f: &mut fmt::Formatter<W>) -> fmt::Result {
        match self {
            Failure::Fault(report) => write!(f, "{report}"),
            Failure::Memory => write!(f, "error: out of memory\n"),
            Failure::Io(error) => writeln!(f, "error: {error}"),
        }
    }
}

impl From<AllocError> for Failure {
    fn from(_: AllocError) -> Self {
        Failure::Memory
    }
}

impl From<Refusal> for Failure {
    fn from(refusal: Refusal) -> Self {
        match refusal {
            Refusal::Fault(report) => Failure::Fault(report),
            Refusal::Memory => Failure::Memory,
        }
    }
}

impl From<io::Error> for Failure {
    fn from(error: io::Error) -> Self {
        Failure::Io(error)
    }
}
