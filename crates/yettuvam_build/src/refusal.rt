// The errors of the program.
use std::alloc::AllocError;
use std::fmt;

const USAGE: &str =
    "usage: yettuvam build TOP [MODULE..] [-D NAME[=VALUE]].. [--with MODULE].. [--override-any]\n";

/// Why the program wrote no text.
#[derive(Debug, Drop)]
pub enum Refusal<'a> {
    /// The command line has another form.
    Usage,
    /// The word isn't a valid definition.
    BadDefinition(&'a str),
    /// The file can't be read, or isn't text.
    CannotRead(&'a str),
    /// The report of an error in the files.
    Fault(String),
    Memory,
    /// The text can't be written. There is no message.
    Write,
}

impl Refusal<'_> {
    ghost use Rattle.std.specs.Prelude.{◌≡◌, ◌++◌};
    ghost use Rattle.yettuvam_build.specs.Refusals.{message_of, status_of};

    /// The message, in three parts.
    pub fn message(&self) -> (&str, &str, &str)
        ensures { result.0.now ++ result.1.now ++ result.2.now ≡ message_of self.now }
    {
        match self {
            Refusal::Usage => (USAGE, "", ""),
            Refusal::BadDefinition(word) => ("bad definition ", *word, "\n"),
            Refusal::CannotRead(file) => ("cannot read ", *file, "\n"),
            Refusal::Fault(report) => (report.as_str(), "", ""),
            Refusal::Memory => ("error: out of memory\n", "", ""),
            Refusal::Write => ("", "", ""),
        }
    }

    /// The exit status.
    pub fn status(&self) -> u8
        ensures { result ≡ status_of self.now }
    {
        match self {
            Refusal::Usage | Refusal::BadDefinition(_) | Refusal::CannotRead(_) => 2,
            Refusal::Fault(_) | Refusal::Memory | Refusal::Write => 1,
        }
    }
}

impl fmt::Display for Refusal<'_> {
    ghost use Rattle.std.specs.Prelude.{Some};
    ghost use Rattle.yettuvam_build.specs.Refusals.{message_of};

    ghost output = { λ e. Some (message_of e) };

    fn fmt<W: fmt::Write>(&self, f: &mut fmt::Formatter<W>) -> fmt::Result {
        let (front, middle, end) = self.message();
        write!(f, "{front}{middle}{end}")
    }
}

impl From<AllocError> for Refusal<'_> {
    ghost use Rattle.std.specs.Prelude.{◌≡◌};
    ghost use Rattle.yettuvam_build.specs.declared.refusal.Refusal.TheVariants.{Memory};

    ghost from_gives = { λ _ e. e ≡ Memory };

    fn from(_: AllocError) -> Self {
        Refusal::Memory
    }
}
