// The request of a command line.
ghost use Rattle.std.specs.Prelude.{◌≡◌, ◌<◌, ◌||◌, false, IfOk, IfErr, OnOk, Some, option_map, length};
ghost use Rattle.naga_oil_words.specs.Texts.{texts};
ghost use Rattle.yettuvam_build.specs.Refusals.{RefusesWords};
ghost use Rattle.yettuvam_build.specs.Words as spec;
ghost use Rattle.yettuvam_build.specs.Words.{HasFile, command_view, request_view, role_view};
ghost use Rattle.yettuvam_build.specs.declared.words.Awaited.TheVariants.{Nothing};

use super::help::{HELP, VERSION};
use super::refusal::Refusal;
use naga_oil_lines::text::past_word;
use std::alloc::{AllocError, Global};

/// What the option before a word wants of it.
#[derive(Clone, Copy)]
enum Awaited {
    Nothing,
    Definition,
    Import,
    /// All words are files.
    Files,
}

impl Awaited {
    // Whether no word has to follow.
    fn is_met(self) -> bool
        ensures { result ≡ spec.is_met self }
    {
        matches!(self, Awaited::Nothing | Awaited::Files)
    }

    // What is wanted after a word that is in this place.
    fn after(self, role: &Role<'_>) -> Awaited
        ensures { result ≡ spec.awaited_after self (role_view role.now) }
    {
        match self {
            Awaited::Files => Awaited::Files,
            _ => role.awaited(),
        }
    }
}

/// What a word of the command line is.
#[derive(Clone, Copy)]
enum Role<'a> {
    File(&'a str),
    Definition(&'a str),
    Import(&'a str),
    OverrideAny,
    /// An option that wants the next word.
    Option(Awaited),
    Wrong,
}

impl Role<'_> {
    fn is_wrong(&self) -> bool
        ensures { result ≡ spec.is_wrong (role_view self.now) }
    {
        matches!(self, Role::Wrong)
    }

    fn is_file_or(&self, has_file: bool) -> bool
        ensures { result ≡ has_file || spec.is_file (role_view self.now) }
    {
        has_file || matches!(self, Role::File(_))
    }

    fn awaited(&self) -> Awaited
        ensures { result ≡ spec.awaited_by (role_view self.now) }
    {
        match self {
            Role::Option(awaited) => *awaited,
            _ => Awaited::Nothing,
        }
    }
}

// A word that is no known option and that begins with `-` is wrong, unless a definition follows `-D` in it.
fn other_role(word: &str) -> Role<'_>
    ensures { role_view result ≡ spec.other_role word.now }
{
    if let Some(definition) = past_word(word, "-D") {
        return Role::Definition(definition);
    }
    match past_word(word, "-") {
        Some(_) => Role::Wrong,
        None => Role::File(word),
    }
}

// What a word is that follows no option that wants it.
fn free_role(word: &str) -> Role<'_>
    ensures { role_view result ≡ spec.free_role word.now }
{
    match word {
        "-" => Role::File(word),
        "-D" => Role::Option(Awaited::Definition),
        "--with" => Role::Option(Awaited::Import),
        "--override-any" => Role::OverrideAny,
        "--" => Role::Option(Awaited::Files),
        _ => other_role(word),
    }
}

fn role_of(awaited: Awaited, word: &str) -> Role<'_>
    ensures { role_view result ≡ spec.role_of awaited word.now }
{
    match awaited {
        Awaited::Nothing => free_role(word),
        Awaited::Definition => Role::Definition(word),
        Awaited::Import => Role::Import(word),
        Awaited::Files => Role::File(word),
    }
}

/// The request to build a shader.
#[derive(Drop)]
pub struct Request<'a> {
    /// The files, the shader's first.
    pub files: Vec<&'a str>,
    /// The words that define names.
    pub definitions: Vec<&'a str>,
    /// The modules that the shader imports besides what its text uses.
    pub imports: Vec<&'a str>,
    /// Whether any imported function may be overridden, and not only virtual ones.
    pub override_any: bool,
}

impl<'a> Request<'a> {
    fn new(alloc: Global) -> Request<'a>
        ensures { request_view result ≡ spec.no_request }
    {
        Request {
            files: Vec::new(alloc),
            definitions: Vec::new(alloc),
            imports: Vec::new(alloc),
            override_any: false,
        }
    }

    fn push(&mut self, role: Role<'a>) -> Result<(), AllocError>
        ensures { let pushed = spec.with_role (request_view self.old) (role_view role.entry) in
            OnOk result (request_view self.new ≡ pushed) }
    {
        match role {
            Role::File(path) => Ok(self.files.push(path)?),
            Role::Definition(text) => Ok(self.definitions.push(text)?),
            Role::Import(name) => Ok(self.imports.push(name)?),
            Role::OverrideAny => {
                self.override_any = true;
                Ok(())
            }
            Role::Option(_) | Role::Wrong => Ok(()),
        }
    }
}

// Whether the words are a request: there is a file, no word is wrong, and each option has the word that it wants.
#[tactic(auto, unfolding(crate::specs::Words::is_request))]
fn is_request(words: &[String]) -> bool
    ensures { result ≡ spec.is_request false Nothing (texts words.now) }
{
    let (mut has_file, mut awaited) = (false, Awaited::Nothing);
    let mut rest = words;
    while let [word, more @ ..] = rest {
        let role = role_of(awaited, word.as_str());
        if role.is_wrong() {
            return false;
        }
        has_file = role.is_file_or(has_file);
        awaited = awaited.after(&role);
        rest = more;
    }
    has_file && awaited.is_met()
}

#[tactic(auto, unfolding(crate::specs::Words::collected))]
fn collected(alloc: Global, words: &[String]) -> Result<Request<'_>, AllocError>
    ensures { let expected = spec.collected spec.no_request Nothing (texts words.now) in
        IfOk result (λ r. request_view r ≡ expected) }
{
    let mut request = Request::new(alloc);
    let mut awaited = Awaited::Nothing;
    let mut rest = words;
    while let [word, more @ ..] = rest {
        let role = role_of(awaited, word.as_str());
        awaited = awaited.after(&role);
        request.push(role)?;
        rest = more;
    }
    Ok(request)
}

// The request of the words after `build`. Words of another form are rejected before anything is allocated.
fn request_of(alloc: Global, words: &[String]) -> Result<Request<'_>, Refusal<'_>>
    ensures value { let asked = spec.request_of (texts words.now) in
        IfOk result (λ r. asked ≡ Some (request_view r)) }
    ensures some_file { IfOk result (λ r. 0 < length r.files.items) }
    ensures err { let asked = option_map spec.build (spec.request_of (texts words.now)) in
        IfErr result (RefusesWords asked) }
{
    if !is_request(words) {
        return Err(Refusal::Usage);
    }
    Ok(collected(alloc, words)?)
}

/// What a command line requests.
#[derive(Drop)]
pub enum Command<'a> {
    /// A text of the program itself.
    Text(&'a str),
    Build(Request<'a>),
}

// The text that a word alone requests.
fn lone_text(word: &str) -> Option<&'static str>
    ensures { option_map (λ t. t.now) result ≡ spec.lone_text word.now }
{
    match word {
        "--help" | "-h" => Some(HELP),
        "--version" => Some(VERSION),
        _ => None,
    }
}

fn lone_command<'a>(word: &str) -> Result<Command<'a>, Refusal<'a>>
    ensures value { let asked = option_map spec.own_text (spec.lone_text word.now) in
        IfOk result (λ c. asked ≡ Some (command_view c)) }
    ensures some_file { IfOk result HasFile }
    ensures err { let asked = option_map spec.own_text (spec.lone_text word.now) in
        IfErr result (RefusesWords asked) }
{
    match lone_text(word) {
        Some(text) => Ok(Command::Text(text)),
        None => Err(Refusal::Usage),
    }
}

fn is_help_word(word: &str) -> bool
    ensures { result ≡ spec.is_help_word word.now }
{
    word == "--help" || word == "-h"
}

// Whether the words ask for help and nothing else.
fn is_for_help(words: &[String]) -> bool
    ensures { result ≡ spec.is_for_help (texts words.now) }
{
    match words {
        [word] => is_help_word(word.as_str()),
        _ => false,
    }
}

fn build_command(alloc: Global, words: &[String]) -> Result<Command<'_>, Refusal<'_>>
    ensures value { let asked = spec.build_command (texts words.now) in
        IfOk result (λ c. asked ≡ Some (command_view c)) }
    ensures some_file { IfOk result HasFile }
    ensures err { IfErr result (RefusesWords (spec.build_command (texts words.now))) }
{
    if is_for_help(words) {
        return Ok(Command::Text(HELP));
    }
    Ok(Command::Build(request_of(alloc, words)?))
}

/// The request of the words. A wrong command line is rejected before anything is allocated.
pub fn command_of(alloc: Global, words: &[String]) -> Result<Command<'_>, Refusal<'_>>
    ensures value { let asked = spec.command_of (texts words.now) in
        IfOk result (λ c. asked ≡ Some (command_view c)) }
    ensures some_file { IfOk result HasFile }
    ensures err { IfErr result (RefusesWords (spec.command_of (texts words.now))) }
{
    match words {
        [word] => lone_command(word.as_str()),
        [command, rest @ ..] if command.as_str() == "build" => build_command(alloc, rest),
        _ => Err(Refusal::Usage),
    }
}
