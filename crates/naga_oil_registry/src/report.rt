//! Reports of errors: the message, its places in a text, and notes.
ghost use Rattle.std.specs.Prelude.{◌≡◌, ◌++◌, Some, map, string_bytes, IfOk, OnOk};
ghost use Rattle.std.specs.List.{flat_map};
ghost use Rattle.naga_oil_ir.specs.RedirectFault.{redirect_fault};
ghost use Rattle.naga_oil_ir.specs.Backend.{labels};
ghost use Rattle.naga_oil_conditions.specs.View.{fault_of, redirection_of};
ghost use Rattle.naga_oil_registry.specs.Report.{message, fault_places, fault_notes, note_line, line_column, span_place, said_after, place_line, span_lines, place_lines, report_text, report};
ghost use Rattle.naga_oil_registry.specs.ReportView.{line_starts, report_places};

use super::*;
pub use naga_oil_ir::SPAN_SHIFT;

// The places of an error.
#[derive(Clone, Copy)]
enum ErrorPlaces<'a> {
    Nowhere,
    Byte(usize),
    /// The start of a line, by its index from 0.
    Line(usize),
    /// An item, labelled with the message.
    Item(Span),
    /// Spans, each with its label.
    Spans(&'a [(Span, String)]),
}

// The text that an error is in: its path, where its lines begin, and its offset in the text that
// spans count in.
#[derive(Clone, Copy)]
struct Source<'a> {
    path: &'a str,
    text: &'a str,
    starts: &'a [usize],
    offset: usize,
    ghost lines: { starts.now ≡ line_starts text.now },
}

// Writes why calls can't be redirected.
#[rattlefmt::skip]
fn push_redirection(out: &mut String, error: &RedirectError) -> AllocResult
    ensures { let told = message (Some (redirection_of (redirect_fault error.now))) in
        OnOk result (string_bytes out.new ≡ string_bytes out.old ++ told) }
{
    match error {
        RedirectError::FunctionNotFound(name) => write!(out, "invalid override :can't find function {name} for redirection"),
        RedirectError::ArgumentMismatch(replacement, original) => write!(out, "invalid override :{replacement} cannot override {original} due to argument mismatch"),
        RedirectError::ReturnTypeMismatch(replacement, original) => write!(out, "invalid override :{replacement} cannot override {original} due to return type mismatch"),
        RedirectError::CircularReference(names) => write!(out, "invalid override :circular reference; can't find an order for : {names}"),
        RedirectError::Memory => out.push_str("invalid override :out of memory"),
    }
}

// Writes the message of an error.
#[rattlefmt::skip]
fn push_message(out: &mut String, inner: &Inner) -> AllocResult
    ensures { let told = message (fault_of inner.now) in
        OnOk result (string_bytes out.new ≡ string_bytes out.old ++ told) }
{
    match inner {
        Inner::ImportParseError(text, _) => out.push_str(text.as_str()),
        Inner::ImportNotFound(name, _) => write!(out, "required import '{name}' not found"),
        Inner::WgslParseError(fault) => out.push_str(fault.message.as_str()),
        Inner::GlslParseError(fault) => out.push_str(fault.message.as_str()),
        Inner::WgslBackError(fault) => write!(out, "naga_oil bug, please file a report: failed to convert imported module IR back into WGSL for use with WGSL shaders: {}", fault.message),
        Inner::GlslBackError(fault) => write!(out, "naga_oil bug, please file a report: failed to convert imported module IR back into GLSL for use with GLSL shaders: {}", fault.message),
        Inner::HeaderValidationError(fault) => write!(out, "naga_oil bug, please file a report: composer failed to build a valid header: {}", fault.message),
        Inner::ShaderValidationError(fault) => write!(out, "failed to build a valid final module: {}", fault.message),
        Inner::NotEnoughEndIfs(_) => out.push_str("Not enough '# endif' lines. Each if statement should be followed by an endif statement."),
        Inner::TooManyEndIfs(_) => out.push_str("Too many '# endif' lines. Each endif should be preceded by an if statement."),
        Inner::ElseWithoutCondition(_) => out.push_str("'#else' without preceding condition."),
        Inner::UnknownShaderDefOperator { operator, .. } => write!(out, "Unknown shader def operator: '{operator}'"),
        Inner::UnknownShaderDef { shader_def_name, .. } => write!(out, "Unknown shader def: '{shader_def_name}'"),
        Inner::InvalidShaderDefComparisonValue { shader_def_name, expected, value, .. } => write!(out, "Invalid shader def comparison for '{shader_def_name}': expected {expected}, got {value}"),
        Inner::InconsistentShaderDefValue { def } => write!(out, "multiple inconsistent shader def values: '{def}'"),
        Inner::NoModuleName => out.push_str("Attempted to add a module with no #define_import_path"),
        Inner::DecorationInSource(_) => out.push_str("source contains internal decoration string, results probably won't be what you expect. if you have a legitimate reason to do this please file a report"),
        Inner::GlslInvalidVersion(_) => out.push_str("naga oil only supports glsl 440 and 450"),
        Inner::RedirectError(error) => push_redirection(out, error),
        Inner::OverrideNotVirtual { name, .. } => write!(out, "override is invalid as `{name}` is not virtual (this error can be disabled with feature 'override_any')"),
        Inner::InvalidIdentifier { original, .. } => write!(out, "Composable module identifiers must not require substitution according to naga writeback rules: `{original}`"),
        Inner::InvalidShaderDefDefinitionValue { name, value, .. } => write!(out, "Invalid value for `#define`d shader def {name}: {value}"),
        Inner::DefineInModule(_) => out.push_str("#define statements are only allowed at the start of the top-level shaders"),
        Inner::InvalidWgslDirective { directive, position, reason } => write!(out, "Invalid WGSL directive '{directive}' at line {position}: {reason}"),
        Inner::Memory => out.push_str("out of memory"),
        Inner::TooManyModules => out.push_str("too many modules"),
        Inner::BindingsExhausted => out.push_str("no binding left"),
        Inner::TextTooLarge => out.push_str("shader text too large"),
        Inner::WrongForm => out.push_str("front end gave a module of wrong form"),
    }
}

// The places of an error.
#[rattlefmt::skip]
fn fault_places(inner: &Inner) -> ErrorPlaces<'_>
    ensures { report_places result ≡ fault_places (fault_of inner.now) }
{
    match inner {
        Inner::ImportParseError(_, place) | Inner::ImportNotFound(_, place)
        | Inner::NotEnoughEndIfs(place) | Inner::TooManyEndIfs(place)
        | Inner::ElseWithoutCondition(place) | Inner::UnknownShaderDefOperator { pos: place, .. }
        | Inner::UnknownShaderDef { pos: place, .. } | Inner::InvalidShaderDefComparisonValue { pos: place, .. }
        | Inner::GlslInvalidVersion(place) | Inner::OverrideNotVirtual { pos: place, .. }
        | Inner::InvalidShaderDefDefinitionValue { pos: place, .. } | Inner::DefineInModule(place) => ErrorPlaces::Byte(*place),
        Inner::DecorationInSource(range) => ErrorPlaces::Byte(range.start),
        Inner::RedirectError(_) => ErrorPlaces::Byte(0),
        Inner::InvalidWgslDirective { position, .. } => ErrorPlaces::Line(*position),
        Inner::InvalidIdentifier { at, .. } => ErrorPlaces::Item(*at),
        Inner::WgslParseError(fault) | Inner::GlslParseError(fault) => ErrorPlaces::Spans(fault.spans.as_slice()),
        Inner::HeaderValidationError(fault) | Inner::ShaderValidationError(fault) => ErrorPlaces::Spans(fault.spans.as_slice()),
        Inner::WgslBackError(_) | Inner::GlslBackError(_) | Inner::InconsistentShaderDefValue { .. }
        | Inner::NoModuleName | Inner::Memory | Inner::TooManyModules
        | Inner::BindingsExhausted | Inner::TextTooLarge | Inner::WrongForm => ErrorPlaces::Nowhere,
    }
}

// Writes note lines.
fn push_note_lines(out: &mut String, said: &[String]) -> AllocResult
    ensures { let lines = flat_map note_line (map string_bytes said.now) in
        OnOk result (string_bytes out.new ≡ string_bytes out.old ++ lines) }
{
    for note in said {
        write!(out, "  note: {note}\n")?;
    }
    Ok(())
}

// Writes the notes of an error.
#[rattlefmt::skip]
fn push_notes(out: &mut String, inner: &Inner) -> AllocResult
    ensures { let lines = flat_map note_line (fault_notes (fault_of inner.now)) in
        OnOk result (string_bytes out.new ≡ string_bytes out.old ++ lines) }
{
    match inner {
        Inner::ImportParseError(text, _) => write!(out, "  note: invalid import spec: '{text}'\n"),
        Inner::ImportNotFound(name, _) => write!(out, "  note: missing import '{name}'\n"),
        Inner::RedirectError(_) => out.push_str("  note: override error\n"),
        Inner::WgslParseError(fault) | Inner::GlslParseError(fault) => push_note_lines(out, fault.notes.as_slice()),
        Inner::HeaderValidationError(fault) | Inner::ShaderValidationError(fault) => push_note_lines(out, fault.notes.as_slice()),
        _ => Ok(()),
    }
}

// Where the lines of a text begin.
fn line_starts(alloc: Global, text: &str) -> AllocResult<Vec<usize>>
    ensures { IfOk result (λ starts. starts.items ≡ line_starts text.now) }
{
    let mut starts = Vec::new(alloc);
    starts.push(0)?;
    for (at, byte) in text.as_bytes().iter().enumerate() {
        if *byte == b'\n' {
            starts.push(at + 1)?;
        }
    }
    Ok(starts)
}

// Writes the label of a place, if it isn't empty, and ends the line.
fn push_said(out: &mut String, said: &str) -> AllocResult
    ensures { OnOk result (string_bytes out.new ≡ string_bytes out.old ++ said_after said.now) }
{
    if !said.is_empty() {
        write!(out, ": {said}")?;
    }
    out.push('\n')
}

impl Source<'_> {
    // The place in the text where a span begins.
    fn span_place(self, span: Span) -> usize
        ensures { result ≡ span_place self.entry.offset span }
    {
        (span.start as usize % (1 << SPAN_SHIFT)).saturating_sub(self.offset)
    }

    // The line and the column of a place, from 1. A place after the end counts as the end.
    fn line_column(self, place: usize) -> (usize, usize)
        ensures { (result.0, result.1) ≡ line_column self.entry.text.now place }
    {
        let place = place.min(self.text.len());
        let line = self.starts.partition_point(|start| *start <= place);
        (line, place - self.starts[line - 1] + 1)
    }

    // Writes a place with its label.
    fn push_place(self, out: &mut String, place: usize, said: &str) -> AllocResult
        ensures { let of = self.entry in
            let line = place_line of.path.now (line_column of.text.now place) said.now in
            OnOk result (string_bytes out.new ≡ string_bytes out.old ++ line) }
    {
        let (line, column) = self.line_column(place);
        write!(out, "  at {}:{line}:{column}", self.path)?;
        push_said(out, said)
    }

    // Writes spans with their labels.
    fn push_spans(self, out: &mut String, spans: &[(Span, String)]) -> AllocResult
        ensures { let of = self.entry in
            let lines = span_lines of.path.now of.text.now of.offset (labels spans.now) in
            OnOk result (string_bytes out.new ≡ string_bytes out.old ++ lines) }
    {
        if spans.is_empty() {
            return write!(out, "  in {}\n", self.path);
        }
        for (span, said) in spans {
            self.push_place(out, self.span_place(*span), said.as_str())?;
        }
        Ok(())
    }

    // Writes the places of an error.
    fn push_places(self, out: &mut String, places: ErrorPlaces<'_>, message: &str) -> AllocResult
        ensures { let of = self.entry in
            let at = report_places places.entry in
            let lines = place_lines of.path.now of.text.now of.offset message.now at in
            OnOk result (string_bytes out.new ≡ string_bytes out.old ++ lines) }
    {
        match places {
            ErrorPlaces::Nowhere => write!(out, "  in {}\n", self.path),
            ErrorPlaces::Byte(place) => self.push_place(out, place, ""),
            ErrorPlaces::Line(index) => write!(out, "  at {}:{}:1\n", self.path, index as u128 + 1),
            ErrorPlaces::Item(span) => self.push_place(out, self.span_place(span), message),
            ErrorPlaces::Spans(spans) => self.push_spans(out, spans),
        }
    }

    // The report of an error, with decorated names.
    fn report_text(self, alloc: Global, inner: &Inner) -> AllocResult<String>
        ensures { let of = self.entry in
            let told = report_text of.path.now of.text.now of.offset (fault_of inner.now) in
            IfOk result (λ t. string_bytes t ≡ told) }
    {
        let mut message = String::new(alloc);
        push_message(&mut message, inner)?;
        let mut out = String::from_str(alloc, "error: ")?;
        out.push_str(message.as_str())?;
        out.push('\n')?;
        self.push_places(&mut out, fault_places(inner), message.as_str())?;
        push_notes(&mut out, inner)?;
        Ok(out)
    }
}

/// The report of an error whose places lie in this text of this path, and whose spans begin at the
/// offset: the message, a line for each place (`at PATH:LINE:COLUMN`, counted from 1, columns in
/// bytes; `in PATH` if there is none) and one for each note. Names are undecorated. Takes time and
/// memory linear in the text and the error.
#[tactic(auto, unfolding(crate::specs::Report::report))]
pub fn report(
    alloc: Global,
    path: &str,
    text: &str,
    offset: usize,
    inner: &Inner,
) -> AllocResult<String>
    ensures { let told = report path.now text.now offset (fault_of inner.now) in
        IfOk result (λ t. string_bytes t ≡ told) }
{
    let starts = line_starts(alloc, text)?;
    let source = Source {
        path,
        text,
        starts: starts.as_slice(),
        offset,
    };
    let told = source.report_text(alloc, inner)?;
    undecorate(alloc, told.as_str())
}
