// The request of a command line.
ghost use Rattle.std.specs.Prelude.{◌≡◌, ◌<◌, IfOk, IfErr, Some, option_map, length, drop};
ghost use Rattle.naga_oil_mini_symbols.specs.NameTable.{texts_of};
ghost use Rattle.naga_oil_mini.specs.Words.{is_definition, import_of, is_file, task_of, with_option, files, imports, takes, asked, asked_of};
ghost use Rattle.naga_oil_words.specs.Texts.{texts};
ghost use Rattle.naga_oil_mini.specs.Shown.{RefusesWords};

use super::refusal::Refusal;
use std::alloc::{AllocError, Global};

/// Whether the word is a definition, `NAME=VALUE`.
pub fn is_definition(word: &str) -> bool
    ensures { result ≡ is_definition word.now }
{
    word.as_bytes().contains(&b'=')
}

// The name after `+`.
fn import_of(word: &str) -> Option<&str>
    ensures { option_map (λ r. r.now) result ≡ import_of word.now }
{
    word.strip_prefix('+')
}

/// Whether the word is a file.
pub fn is_file(word: &str) -> bool
    ensures { result ≡ is_file word.now }
{
    !is_definition(word) && import_of(word).is_none()
}

/// The task of `oil`.
#[derive(Clone, Copy)]
pub enum Task {
    Preprocess,
    Make,
}

/// The request of the words.
#[derive(Drop)]
pub struct Request<'a> {
    pub task: Task,
    /// Whether any imported function may be overridden, and not only virtual ones.
    pub override_any: bool,
    /// The files, the shader's first.
    pub files: Vec<&'a str>,
    /// The modules that the shader imports besides what its text uses.
    pub imports: Vec<&'a str>,
    /// The words after the command, definitions among them.
    pub words: &'a [String],
}

// The option of `make`, the first word after it.
const OVERRIDE_ANY: &str = "--override-any";

fn task_of(command: &str) -> Option<Task>
    ensures { result ≡ task_of command.now }
{
    match command {
        "pre" => Some(Task::Preprocess),
        "make" => Some(Task::Make),
        _ => None,
    }
}

// Whether words begin with the option of a task, and the words after the option.
fn with_option(task: Task, words: &[String]) -> (bool, &[String])
    ensures { (result.0, texts result.1.now) ≡ with_option task (texts words.now) }
{
    match (task, words.split_first()) {
        (Task::Make, Some((word, rest))) if word.as_str() == OVERRIDE_ANY => (true, rest),
        _ => (false, words),
    }
}

// The files and the imports among words.
fn sorted(alloc: Global, words: &[String]) -> Result<(Vec<&str>, Vec<&str>), AllocError>
    ensures files { IfOk result (λ p. texts_of p.0.items ≡ files (texts words.now)) }
    ensures imports { IfOk result (λ p. texts_of p.1.items ≡ imports (texts words.now)) }
{
    let (mut files, mut imports) = (Vec::new(alloc), Vec::new(alloc));
    for word in words {
        let word = word.as_str();
        if is_definition(word) {
            continue;
        }
        match import_of(word) {
            Some(import) => imports.push(import)?,
            None => files.push(word)?,
        }
    }
    Ok((files, imports))
}

// The number of files and of imports among words.
fn counts(words: &[String]) -> (usize, usize)
    ensures files { result.0 ≡ length (files (texts words.now)) }
    ensures imports { result.1 ≡ length (imports (texts words.now)) }
{
    let (mut files, mut imports) = (0, 0);
    for word in words {
        let word = word.as_str();
        if is_definition(word) {
            continue;
        }
        match import_of(word) {
            Some(_) => imports += 1,
            None => files += 1,
        }
    }
    (files, imports)
}

// `pre` takes one file, `make` one or more and imports.
fn takes(task: Task, files: usize, imports: usize) -> bool
    ensures { result ≡ takes task files imports }
{
    match task {
        Task::Preprocess => files == 1 && imports == 0,
        Task::Make => files != 0,
    }
}

/// The request of the words. A wrong command line is rejected before anything is allocated.
pub fn asked(alloc: Global, words: &[String]) -> Result<Request<'_>, Refusal<'_>>
    ensures value { IfOk result (λ a. asked (texts words.now) ≡ Some (asked_of a)) }
    ensures words { IfOk result (λ a. a.words.now ≡ drop 1 words.now) }
    ensures some_file { IfOk result (λ a. 0 < length a.files.items) }
    ensures err { IfErr result (RefusesWords (texts words.now)) }
{
    let (command, words) = words.split_first().ok_or(Refusal::Usage)?;
    let task = task_of(command.as_str()).ok_or(Refusal::Usage)?;
    let (override_any, following) = with_option(task, words);
    let (files, imports) = counts(following);
    if !takes(task, files, imports) {
        return Err(Refusal::Usage);
    }
    let (files, imports) = sorted(alloc, following)?;
    Ok(Request {
        task,
        override_any,
        files,
        imports,
        words,
    })
}
