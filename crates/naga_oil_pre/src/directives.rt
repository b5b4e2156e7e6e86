// The directives at the start of a text.
ghost use Rattle.std.specs.Prelude.{◌≡◌, ◌==◌, if◌then◌else◌, ◌++◌, ◌<◌, [], ◌∷◌, map, string_bytes, option_copied, IfOk, OnOk};
ghost use Rattle.std.specs.Option.{option_map};
ghost use Rattle.std.specs.List.{flat_map};
ghost use Rattle.std.specs.Str.{chars, trim};
ghost use Rattle.std.specs.Str.Lines.{lines};
ghost use Rattle.std.specs.Str.Iter.{lines_rest};
ghost use Rattle.naga_oil_words.specs.Bytes.{newline};
ghost use Rattle.naga_oil_lines.specs.Directives.{directives_of};
ghost use Rattle.naga_oil_pre.specs.DirectiveLines as grammar;
ghost use Rattle.naga_oil_pre.specs.DirectiveLines.{directive_of, unknown_severity};
ghost use Rattle.naga_oil_pre.specs.DirectiveView.{line_directive_of};
ghost use Rattle.naga_oil_pre.specs.Extracted.{kept, found, goes_on, ◌and◌, extracted};
ghost use Rattle.naga_oil_conditions.specs.View.{Gives};

use super::*;
use naga_oil_lines::text::past_word;
use naga_oil_lines::wgsl_directives::{DiagnosticDirective, EnableDirective, RequiresDirective};

// The kind of a line among directives.
#[derive(Drop)]
enum Directive<'a> {
    Enable(Vec<String>),
    Requires(Vec<String>),
    Diagnostic { severity: &'a str, rule: &'a str },
    /// An `enable` or `requires` without extensions.
    NoExtensions,
    UnknownSeverity(&'a str),
    /// No directive; more may follow.
    Passing,
    /// No directive; none follows.
    Ending,
}

// The text before the first such character, and the text after it.
fn cut_at(text: &str, c: char) -> Option<(&str, &str)>
    requires { c < 128 }
    ensures { option_map (λ r. (r.0.now, r.1.now)) result ≡ grammar.cut_at c text.now }
{
    text.split_once(c)
}

// Whether a text is a white space character and at least one more.
fn begins_list(text: &str) -> bool
    ensures { result ≡ grammar.begins_list (chars text.now) }
{
    match split_first_char(text) {
        Some((first, more)) => first.is_whitespace() && !more.is_empty(),
        None => false,
    }
}

// The list after a word, up to the first `;`.
fn listed<'a>(line: &'a str, word: &str) -> Option<&'a str>
    ensures { option_copied result ≡ grammar.listed word.now line.now }
{
    let (list, _) = cut_at(past_word(line, word)?, ';')?;
    if begins_list(list) { Some(list) } else { None }
}

// The names of a list, separated by commas.
fn extensions(alloc: Global, list: &str) -> Result<Vec<String>, AllocError>
    ensures { IfOk result (λ v. map string_bytes v.items ≡ grammar.extensions list.now) }
{
    let mut names = Vec::new(alloc);
    for part in list.split(',') {
        let name = part.trim();
        if !name.is_empty() {
            names.push(String::from_str(alloc, name)?)?;
        }
    }
    Ok(names)
}

// The severity and the rule of a diagnostic.
fn treated(line: &str) -> Option<(&str, &str)>
    ensures { option_map (λ r. (r.0.now, r.1.now)) result ≡ grammar.treated line.now }
{
    let following = past_word(line, "diagnostic")?;
    let inside = past_word(following.trim_start(), "(")?;
    let (severity, more) = cut_at(inside, ',')?;
    let (rule, end) = cut_at(more, ')')?;
    past_word(end.trim_start(), ";")?;
    if severity.is_empty() || rule.is_empty() {
        None
    } else {
        Some((severity.trim(), rule.trim()))
    }
}

fn is_severity(text: &str) -> bool
    ensures { result ≡ grammar.is_severity text.now }
{
    text == "off" || text == "info" || text == "warn" || text == "error"
}

// Whether directives may follow the line, though it is none.
fn is_between(line: &str) -> bool
    ensures { result ≡ grammar.is_between line.now }
{
    line.is_empty()
        || past_word(line, "//").is_some()
        || past_word(line, "enable").is_some()
        || past_word(line, "requires").is_some()
        || past_word(line, "diagnostic").is_some()
}

// The kind of a line, given without surrounding white space.
fn read_directive(alloc: Global, line: &str) -> Result<Directive<'_>, AllocError>
    ensures { IfOk result (λ d. line_directive_of d ≡ directive_of line.now) }
{
    if let Some(list) = listed(line, "enable") {
        let names = extensions(alloc, list)?;
        if names.is_empty() {
            return Ok(Directive::NoExtensions);
        }
        return Ok(Directive::Enable(names));
    }
    if let Some(list) = listed(line, "requires") {
        let names = extensions(alloc, list)?;
        if names.is_empty() {
            return Ok(Directive::NoExtensions);
        }
        return Ok(Directive::Requires(names));
    }
    match treated(line) {
        Some((severity, rule)) if is_severity(severity) => {
            Ok(Directive::Diagnostic { severity, rule })
        }
        Some((severity, _)) => Ok(Directive::UnknownSeverity(severity)),
        None if is_between(line) => Ok(Directive::Passing),
        None => Ok(Directive::Ending),
    }
}

// Takes the directive of a line, or writes the line. Returns whether more directives may follow.
fn take_line(
    alloc: Global,
    line: &str,
    index: usize,
    directives: &mut WgslDirectives,
    cleaned: &mut String,
) -> Result<bool, ComposerErrorInner>
    ensures goes_on { let kind = directive_of (trim line.now) in
        Gives (λ b. b) result (goes_on index (trim line.now) kind) }
    ensures text { let kind = directive_of (trim line.now) in
        OnOk result (string_bytes cleaned.new ≡ string_bytes cleaned.old ++ kept line.now kind) }
    ensures found { let kind = directive_of (trim line.now) in
        let more = directives_of directives.old and found index kind in
        OnOk result (directives_of directives.new ≡ more) }
{
    let trimmed = line.trim();
    let reason = match read_directive(alloc, trimmed)? {
        Directive::Enable(extensions) => {
            directives.enables.push(EnableDirective {
                extensions,
                source_location: index,
            })?;
            return Ok(true);
        }
        Directive::Requires(extensions) => {
            directives.requires_.push(RequiresDirective {
                extensions,
                source_location: index,
            })?;
            return Ok(true);
        }
        Directive::Diagnostic { severity, rule } => {
            directives.diagnostics.push(DiagnosticDirective {
                severity: String::from_str(alloc, severity)?,
                rule: String::from_str(alloc, rule)?,
                source_location: index,
            })?;
            return Ok(true);
        }
        Directive::Passing => {
            cleaned.push_str(line)?;
            return Ok(true);
        }
        Directive::Ending => {
            cleaned.push_str(line)?;
            return Ok(false);
        }
        Directive::NoExtensions => String::from_str(alloc, "No extensions specified")?,
        Directive::UnknownSeverity(severity) => {
            format!(in alloc;
                "Invalid severity '{severity}'. Must be one of: off, info, warn, error"
            )?
        }
    };
    Err(ComposerErrorInner::InvalidWgslDirective {
        directive: String::from_str(alloc, trimmed)?,
        position: index,
        reason,
    })
}

// Writes the line end before a line, unless the line is the first.
fn push_line_end(out: &mut String, index: usize) -> Result<(), AllocError>
    ensures { let more = if index == 0 then [] else newline ∷ [] in
        OnOk result (string_bytes out.new ≡ string_bytes out.old ++ more) }
{
    if index > 0 {
        out.push('\n')?;
    }
    Ok(())
}

// Writes further lines, each after a line end.
fn push_lines(out: &mut String, rest: Lines<'_>) -> Result<(), AllocError>
    ensures { let more = flat_map (λ line. newline ∷ line) (lines (lines_rest rest.entry)) in
        OnOk result (string_bytes out.new ≡ string_bytes out.old ++ more) }
{
    for line in rest {
        out.push('\n')?;
        out.push_str(line)?;
    }
    Ok(())
}

impl Preprocessor {
    /// Returns the text without the directives at its start, and these directives. The line of a
    /// directive becomes empty. All lines are joined by `\n`, so the end of the last line is
    /// removed. An error is the first fault, or `Memory`. Takes time and memory linear in the text.
    pub fn extract_wgsl_directives(
        &self,
        alloc: Global,
        source: &str,
    ) -> Result<(String, WgslDirectives), ComposerErrorInner>
        ensures { Gives (λ r. (string_bytes r.0, directives_of r.1)) result (extracted source.now) }
    {
        let mut directives = WgslDirectives::new(alloc);
        let mut cleaned = String::with_capacity(alloc, source.len())?;
        let mut lines = source.lines();
        let mut index = 0usize;
        while let Some(line) = lines.next() {
            push_line_end(&mut cleaned, index)?;
            if !take_line(alloc, line, index, &mut directives, &mut cleaned)? {
                push_lines(&mut cleaned, lines)?;
                return Ok((cleaned, directives));
            }
            index += 1;
        }
        Ok((cleaned, directives))
    }
}
