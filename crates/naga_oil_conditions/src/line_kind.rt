//! The kind of a line, by its text alone.
ghost use Rattle.std.specs.Prelude.{◌≡◌, ℕ, ◌++◌, List, length, option_copied, is_some};
ghost use Rattle.std.specs.Option.{option_map, MatchOption};
ghost use Rattle.std.specs.Str.{chars};
ghost use Rattle.naga_oil_conditions.specs.LineKinds as grammar;
ghost use Rattle.naga_oil_conditions.specs.Kind.{kind_of, unversioned_kind_of, kind_after_hash};
ghost use Rattle.naga_oil_conditions.specs.KindView.{line_kind_of, class_of};

use naga_oil_lines::text::{after_whitespace, past_word, split_first_char, text_before};
use ucd_perl::is_word_code;

#[derive(Clone, Copy, Debug, PartialEq, Eq)]
pub enum Condition<'a> {
    Defined(&'a str),
    Undefined(&'a str),
    Compares {
        name: &'a str,
        operator: &'a str,
        value: &'a str,
    },
    Otherwise,
}

#[derive(Clone, Copy, Debug, PartialEq, Eq)]
pub enum LineKind<'a> {
    Version {
        is_known: bool,
    },
    Condition {
        is_else: bool,
        condition: Condition<'a>,
    },
    EndIf,
    Import,
    ImportPath(&'a str),
    Define {
        name: &'a str,
        value: Option<&'a str>,
    },
    Other,
}

// A class of characters; lines have runs of them.
#[derive(Clone, Copy)]
pub(crate) enum CharClass {
    Digit,
    Visible,
    Name,
    Value,
    Operator,
}

impl CharClass {
    ghost use Rattle.std.specs.Prelude.{◌≡◌};
    ghost use Rattle.naga_oil_conditions.specs.KindView.{class_of};

    fn contains(self, c: char) -> bool
        ensures { result ≡ class_of self c }
    {
        match self {
            CharClass::Digit => c.is_ascii_digit(),
            CharClass::Visible => !c.is_whitespace(),
            CharClass::Name => is_name_char(c),
            CharClass::Value => is_name_char(c) || c == '-',
            CharClass::Operator => c == '=' || c == '!' || c == '<' || c == '>',
        }
    }
}

/// Returns whether the character may occur in a name: a word character or `|`.
pub fn is_name_char(c: char) -> bool
    ensures { result ≡ grammar.is_name_char c }
{
    is_word_code(c as u32) || c == '|'
}

/// Returns whether the whole text is a name.
pub fn is_name(text: &str) -> bool
    ensures { result ≡ grammar.is_name text.now }
{
    !text.is_empty() && past_run(text, CharClass::Name).is_empty()
}

// The text after the characters of the class at its front.
pub(crate) fn past_run(text: &str, class: CharClass) -> &str
    ensures chars { chars result.now ≡ grammar.past_run (class_of class) (chars text.now) }
    ensures suffix { (front : List ℕ) × (text.now ≡ front ++ result.now) }
{
    let mut rest = text;
    while let Some((first, more)) = split_first_char(rest) {
        if !class.contains(first) {
            return rest;
        }
        rest = more;
    }
    rest
}

// The characters of the class at the front of the text.
fn run(text: &str, class: CharClass) -> &str
    ensures { chars result.now ≡ grammar.run (class_of class) (chars text.now) }
{
    text_before(text, past_run(text, class))
}

// The characters of the class at the front of the text, if there are any.
fn text_at(text: &str, class: CharClass) -> Option<&str>
    ensures { option_copied result ≡ grammar.text_at (class_of class) (chars text.now) }
{
    let found = run(text, class);
    if found.is_empty() { None } else { Some(found) }
}

// The text after the white space at its front; without white space, none.
fn past_white(text: &str) -> Option<&str>
    ensures { option_map (λ r. chars r.now) result ≡ grammar.past_white (chars text.now) }
{
    let (first, more) = split_first_char(text)?;
    if first.is_whitespace() {
        Some(after_whitespace(more))
    } else {
        None
    }
}

// The text after the line's `#`, which only white space may precede.
fn past_hash(line: &str) -> Option<&str>
    ensures { option_map (λ r. chars r.now) result ≡ grammar.past_hash (chars line.now) }
{
    past_word(after_whitespace(line), "#")
}

// Whether `else` and white space come first, and the text after them.
fn past_else(text: &str) -> (bool, &str)
    ensures { (result.0, chars result.1.now) ≡ grammar.past_else (chars text.now) }
{
    match past_word(text, "else") {
        None => (false, text),
        Some(following) => match past_white(following) {
            None => (false, text),
            Some(rest) => (true, rest),
        },
    }
}

// Whether the number of a `version` is a known one.
fn version(text: &str) -> Option<bool>
    ensures { result ≡ grammar.version (chars text.now) }
{
    let rest = past_white(past_word(text, "version")?)?;
    let number = text_at(rest, CharClass::Digit)?;
    Some(number == "440" || number == "450")
}

// The text after a word that begins an arm, and whether `else` comes before the word.
fn arm<'a>(text: &'a str, word: &str) -> Option<(bool, &'a str)>
    ensures { let read = grammar.arm (chars word.now) (chars text.now) in
        option_map (λ r. (r.0, chars r.1.now)) result ≡ read }
{
    let (is_else, start) = past_else(after_whitespace(text));
    let rest = past_white(past_word(start, word)?)?;
    Some((is_else, rest))
}

// The name after a word that begins an arm, and whether `else` comes before the word.
fn named_arm<'a>(text: &'a str, word: &str) -> Option<(bool, &'a str)>
    ensures { let read = grammar.named_arm (chars word.now) (chars text.now) in
        option_map (λ r. (r.0, r.1.now)) result ≡ read }
{
    let (is_else, rest) = arm(text, word)?;
    let name = text_at(rest, CharClass::Name)?;
    Some((is_else, name))
}

// An operator, which may be empty, and a value.
fn operation_at(text: &str) -> Option<(&str, &str)>
    ensures { option_map (λ r. (r.0.now, r.1.now)) result ≡ grammar.operation_at (chars text.now) }
{
    let start = after_whitespace(text);
    let following = after_whitespace(past_run(start, CharClass::Operator));
    let value = text_at(following, CharClass::Value)?;
    Some((run(start, CharClass::Operator), value))
}

// A name without its last character, and that character.
fn cut(name: &str) -> Option<(&str, &str)>
    ensures { option_map (λ r. (r.0.now, r.1.now)) result ≡ grammar.cut (chars name.now) }
{
    let mut letters = name.chars();
    letters.next_back()?;
    let (front, last) = name.split_at(letters.as_str().len());
    if front.is_empty() {
        None
    } else {
        Some((front, last))
    }
}

// A name, an operator and a value.
fn comparison_at(text: &str) -> Option<(&str, &str, &str)>
    ensures { let read = grammar.comparison_at (chars text.now) in
        option_map (λ r. (r.0.now, r.1.now, r.2.now)) result ≡ read }
{
    let name = text_at(text, CharClass::Name)?;
    match operation_at(past_run(text, CharClass::Name)) {
        Some((operator, value)) => Some((name, operator, value)),
        None => {
            let (front, last) = cut(run(text, CharClass::Name))?;
            Some((front, "", last))
        }
    }
}

fn if_condition(text: &str) -> Option<(bool, &str, &str, &str)>
    ensures { let read = grammar.if_condition (chars text.now) in
        option_map (λ r. (r.0, r.1.now, r.2.now, r.3.now)) result ≡ read }
{
    let (is_else, rest) = arm(text, "if")?;
    let (name, operator, value) = comparison_at(rest)?;
    Some((is_else, name, operator, value))
}

// Whether the text begins with the word, after optional white space.
fn has_keyword(text: &str, word: &str) -> bool
    ensures { result ≡ grammar.has_keyword (chars word.now) (chars text.now) }
{
    past_word(after_whitespace(text), word).is_some()
}

// The text after a word and white space.
fn past_directive<'a>(text: &'a str, word: &str) -> Option<&'a str>
    ensures { let read = grammar.past_directive (chars word.now) (chars text.now) in
        option_map (λ r. chars r.now) result ≡ read }
{
    past_white(past_word(after_whitespace(text), word)?)
}

fn import_path(text: &str) -> Option<&str>
    ensures { option_copied result ≡ grammar.import_path (chars text.now) }
{
    text_at(
        past_directive(text, "define_import_path")?,
        CharClass::Visible,
    )
}

fn define(text: &str) -> Option<(&str, Option<&str>)>
    ensures { let read = grammar.define (chars text.now) in
        option_map (λ r. (r.0.now, option_copied r.1)) result ≡ read }
{
    let rest = past_directive(text, "define")?;
    let name = text_at(rest, CharClass::Name)?;
    let following = after_whitespace(past_run(rest, CharClass::Name));
    Some((name, text_at(following, CharClass::Value)))
}

// The kind of a line, by the text after its `#`.
fn kind_after_hash(text: &str) -> LineKind<'_>
    ensures { line_kind_of result ≡ kind_after_hash (chars text.now) }
{
    if let Some((is_else, name)) = named_arm(text, "ifdef") {
        LineKind::Condition {
            is_else,
            condition: Condition::Defined(name),
        }
    } else if let Some((is_else, name)) = named_arm(text, "ifndef") {
        LineKind::Condition {
            is_else,
            condition: Condition::Undefined(name),
        }
    } else if let Some((is_else, name, operator, value)) = if_condition(text) {
        LineKind::Condition {
            is_else,
            condition: Condition::Compares {
                name,
                operator,
                value,
            },
        }
    } else if has_keyword(text, "else") {
        LineKind::Condition {
            is_else: true,
            condition: Condition::Otherwise,
        }
    } else if has_keyword(text, "endif") {
        LineKind::EndIf
    } else if past_directive(text, "import").is_some() {
        LineKind::Import
    } else if let Some(path) = import_path(text) {
        LineKind::ImportPath(path)
    } else if let Some((name, value)) = define(text) {
        LineKind::Define { name, value }
    } else {
        LineKind::Other
    }
}

/// Returns the kind of a line, by its covered text: the first kind that fits.
pub fn line_kind(line: &str) -> LineKind<'_>
    ensures { line_kind_of result ≡ kind_of line.now }
{
    let Some(rest) = past_hash(line) else {
        return LineKind::Other;
    };
    match version(rest) {
        Some(is_known) => LineKind::Version { is_known },
        None => kind_after_hash(rest),
    }
}

/// Returns the kind of a line where versions are not read: a version line is `Other`.
pub fn unversioned_line_kind(line: &str) -> LineKind<'_>
    ensures { line_kind_of result ≡ unversioned_kind_of line.now }
{
    match past_hash(line) {
        Some(rest) => kind_after_hash(rest),
        None => LineKind::Other,
    }
}
