// The help text and the version of the program.

/// The command with its options, the statuses and an example.
pub const HELP: &str = "\
yettuvam builds one shader out of several files.

yettuvam build TOP [MODULE..] [-D NAME[=VALUE]].. [--with MODULE].. [--override-any]
    prints the shader of the file TOP, built with the modules of the other files,
    which may stand in any order. Options may stand anywhere after the command.
    -D NAME=VALUE   defines NAME as a number, as true or false; as true without =VALUE
    --with MODULE   imports MODULE besides what TOP's text uses
    --override-any  lets any imported function be overridden, not only virtual
    --              makes files of all words after it

yettuvam -h, yettuvam --help, yettuvam --version
    print this, and the version

The file - is standard input.

Status 0: all was printed. Status 1: a text has an error, which is reported on
standard error, or memory ran out, or a write failed. Status 2: the words
aren't understood, or a file can't be read.

Example: yettuvam build water.wgsl noise.wgsl waves.wgsl -D SCALE=4
";

/// The program's name and its version.
pub const VERSION: &str = "yettuvam 0.1.0\n";
