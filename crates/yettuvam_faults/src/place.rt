// Where an error lies.
ghost use Rattle.std.specs.Prelude.{◌≡◌};
ghost use Rattle.naga_oil_conditions.specs.View.{fault_of};
ghost use Rattle.naga_oil_ir.specs.Backend.{labels};
ghost use Rattle.yettuvam_faults.specs.Place as spec;
ghost use Rattle.yettuvam_faults.specs.PlaceView.{place_view};

use crate::message::is_ambiguous;
use naga_oil_ir::Span;
use naga_oil_pre::ComposerErrorInner as Inner;

// Where an error lies, besides the spans of a front end.
#[derive(Clone, Copy)]
pub(crate) enum Place {
    Nowhere,
    /// Bytes of the file.
    Bytes(usize, usize),
    /// A line of the file, by its index from 0.
    LineIndex(usize),
    /// The line of a place in the text without directives.
    LineAt(usize),
    /// The word at a place in the text without directives.
    WordAt(usize),
    /// The line that opens the condition which is open at the end, the place, of the text without directives.
    Open(usize),
    /// The word at a place in the preprocessed text.
    Named(usize),
    /// An item of the preprocessed text.
    Item(Span),
}

// The place of an import's use; one that the text doesn't use has none.
fn use_place(at: usize) -> Place
    ensures { place_view result ≡ spec.use_place at }
{
    if at == 0 {
        Place::Nowhere
    } else {
        Place::WordAt(at)
    }
}

#[rattlefmt::skip]
pub(crate) fn place_of(inner: &Inner) -> Place
    ensures { place_view result ≡ spec.place_of (fault_of inner.now) }
{
    match inner {
        Inner::ImportParseError(_, at) => Place::WordAt(*at),
        Inner::ImportNotFound(_, at) => use_place(*at),
        Inner::NotEnoughEndIfs(at) => Place::Open(*at),
        Inner::TooManyEndIfs(at) | Inner::ElseWithoutCondition(at) => Place::LineAt(*at),
        Inner::UnknownShaderDefOperator { pos, .. } | Inner::UnknownShaderDef { pos, .. } => Place::LineAt(*pos),
        Inner::InvalidShaderDefComparisonValue { pos, .. } => Place::LineAt(*pos),
        Inner::InvalidShaderDefDefinitionValue { pos, .. } => Place::LineAt(*pos),
        Inner::DefineInModule(at) | Inner::GlslInvalidVersion(at) => Place::LineAt(*at),
        Inner::DecorationInSource(range) => Place::Bytes(range.start, range.end),
        Inner::OverrideNotVirtual { pos, .. } => Place::Named(*pos),
        Inner::InvalidIdentifier { at, .. } => Place::Item(*at),
        Inner::InvalidWgslDirective { position, .. } => Place::LineIndex(*position),
        _ => Place::Nowhere,
    }
}

fn import_label(text: &str) -> &'static str
    ensures { result.now ≡ spec.import_label text.now }
{
    if is_ambiguous(text) { "used here" } else { "" }
}

/// What is said of the place.
pub(crate) fn label(inner: &Inner) -> &'static str
    ensures { result.now ≡ spec.label_of (fault_of inner.now) }
{
    match inner {
        Inner::ImportParseError(text, _) => import_label(text.as_str()),
        Inner::ImportNotFound(..) => "used here",
        Inner::NotEnoughEndIfs(_) => "opened here",
        Inner::TooManyEndIfs(_) | Inner::ElseWithoutCondition(_) => "no condition is open here",
        Inner::OverrideNotVirtual { .. } => "overridden here",
        _ => "",
    }
}

/// The spans of a front end that lie in the text, each with its label.
pub(crate) fn spans(inner: &Inner) -> &[(Span, String)]
    ensures { labels result.now ≡ spec.spans_of (fault_of inner.now) }
{
    match inner {
        Inner::WgslParseError(fault) | Inner::GlslParseError(fault) => fault.spans.as_slice(),
        Inner::ShaderValidationError(fault) => fault.spans.as_slice(),
        _ => &[],
    }
}
