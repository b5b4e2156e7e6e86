// The help text and the version of `oil`.

/// The commands with their options, the statuses and an example.
pub const HELP: &str = "\
oil preprocesses a shader's text, or makes one shader out of several files.

oil pre FILE [NAME=VALUE..]
    prints what FILE's text becomes under these definitions and its own

oil pre --metadata FILE
    prints FILE's import path, the items that it uses of modules, its defines,
    and the names that its text may depend on. One a line, each field following a
    tab: path NAME, import MODULE ITEM.., define NAME VALUE, name NAME. In a
    field \\t, \\n, \\r and \\\\ stand for a tab, line ends and a backslash.

oil make [--override-any] TOP [MODULE..] [+NAME..] [NAME=VALUE..]
    prints the shader of the file TOP, made with the modules of other files.
    All are in the language of Mini.
    --override-any  lets any imported function be overridden, not only virtual
    +NAME           imports the module NAME besides what TOP's text uses

oil --help, oil --version
    print this, and the version

NAME=VALUE defines NAME as a number, as true or false, or as true if nothing
stands following the =. The file - is standard input, and ./- is a file named -.

Status 0: all was printed. Status 1: a text has a fault, which is reported on
standard error, or there is no memory, or a write failed. Status 2: the words
aren't understood, or a file can't be read.

Example: oil pre water.wgsl SCALE=4
";

/// The program's name and its version.
pub const VERSION: &str = "oil 0.21.0\n";
