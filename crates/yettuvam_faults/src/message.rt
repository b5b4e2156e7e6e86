// The message of an error.
ghost use Rattle.std.specs.Prelude.{◌≡◌, IfOk, string_bytes};
ghost use Rattle.naga_oil_conditions.specs.View.{fault_of};
ghost use Rattle.naga_oil_ir.specs.RedirectFault.{redirect_fault};
ghost use Rattle.naga_oil_lines.specs.Undecorate.{undecoration};
ghost use Rattle.yettuvam_faults.specs.Message as spec;
ghost use Rattle.yettuvam_faults.specs.Phrase.{phrase_text};

use naga_oil_ir::RedirectError;
use naga_oil_lines::decorate::undecorate;
use naga_oil_pre::ComposerErrorInner as Inner;
use std::alloc::{AllocError, Global};

// A sentence of five parts.
#[derive(Clone, Copy)]
pub(crate) struct Phrase<'a> {
    start: &'a str,
    name: &'a str,
    middle: &'a str,
    other: &'a str,
    end: &'a str,
}

// A sentence without names.
pub(crate) fn plain(text: &str) -> Phrase<'_>
    ensures { phrase_text result ≡ text.now }
{
    Phrase {
        start: "",
        name: "",
        middle: "",
        other: "",
        end: text,
    }
}

// A sentence with a name.
pub(crate) fn named<'a>(start: &'a str, name: &'a str, end: &'a str) -> Phrase<'a>
    ensures { phrase_text result ≡ spec.named start.now name.now end.now }
{
    Phrase {
        start: "",
        name: "",
        middle: start,
        other: name,
        end,
    }
}

// A sentence with two names.
pub(crate) fn two_named<'a>(
    start: &'a str,
    name: &'a str,
    middle: &'a str,
    other: &'a str,
    end: &'a str,
) -> Phrase<'a>
    ensures { phrase_text result ≡ spec.two_named start.now name.now middle.now other.now end.now }
{
    Phrase {
        start,
        name,
        middle,
        other,
        end,
    }
}

impl Phrase<'_> {
    // The sentence as a text.
    pub(crate) fn text(self, alloc: Global) -> Result<String, AllocError>
        ensures { IfOk result (λ t. string_bytes t ≡ phrase_text self.entry) }
    {
        let mut out = String::from_str(alloc, self.start)?;
        out.push_str(self.name)?;
        out.push_str(self.middle)?;
        out.push_str(self.other)?;
        out.push_str(self.end)?;
        Ok(out)
    }
}

// Whether an import's error is that a name stands for several items.
pub(crate) fn is_ambiguous(text: &str) -> bool
    ensures { result ≡ spec.is_ambiguous text.now }
{
    text == "Ambiguous import path for item"
}

fn import_message(text: &str) -> Phrase<'_>
    ensures { phrase_text result ≡ spec.import_message text.now }
{
    if is_ambiguous(text) {
        plain("a name stands for several imported items")
    } else {
        named("invalid import: ", "", text)
    }
}

fn redirect_message(error: &RedirectError) -> Phrase<'_>
    ensures { phrase_text result ≡ spec.redirect_message (redirect_fault error.now) }
{
    match error {
        RedirectError::FunctionNotFound(name) => {
            named("no function `", name.as_str(), "` to override")
        }
        RedirectError::ArgumentMismatch(_, original) => {
            named(
                "an override of `",
                original.as_str(),
                "` has other parameters",
            )
        }
        RedirectError::ReturnTypeMismatch(_, original) => {
            named(
                "an override of `",
                original.as_str(),
                "` has another result",
            )
        }
        RedirectError::CircularReference(names) => {
            named("functions call themselves: ", "", names.as_str())
        }
        RedirectError::Memory => plain("out of memory"),
    }
}

// What is wrong, with decorated names.
#[rattlefmt::skip]
fn said(inner: &Inner) -> Phrase<'_>
    ensures { phrase_text result ≡ spec.said (fault_of inner.now) }
{
    match inner {
        Inner::ImportParseError(text, _) => import_message(text.as_str()),
        Inner::ImportNotFound(name, _) => named("no module `", name.as_str(), "`"),
        Inner::WgslParseError(fault) => plain(fault.message.as_str()),
        Inner::GlslParseError(fault) => plain(fault.message.as_str()),
        Inner::WgslBackError(fault) => named("what is imported has no text in WGSL: ", "", fault.message.as_str()),
        Inner::GlslBackError(fault) => named("what is imported has no text in GLSL: ", "", fault.message.as_str()),
        Inner::HeaderValidationError(fault) => named("what is imported isn't valid: ", "", fault.message.as_str()),
        Inner::ShaderValidationError(fault) => plain(fault.message.as_str()),
        Inner::NotEnoughEndIfs(_) => plain("a condition has no `#endif`"),
        Inner::TooManyEndIfs(_) => plain("`#endif` without a condition"),
        Inner::ElseWithoutCondition(_) => plain("`#else` without a condition"),
        Inner::UnknownShaderDefOperator { operator, .. } => named("no operator `", operator.as_str(), "`"),
        Inner::UnknownShaderDef { shader_def_name, .. } => named("`", shader_def_name.as_str(), "` isn't defined"),
        Inner::InvalidShaderDefComparisonValue { shader_def_name, value, .. } => two_named("`", shader_def_name.as_str(), "` can't be compared with `", value.as_str(), "`"),
        Inner::InconsistentShaderDefValue { def } => named("`", def.as_str(), "` is defined with several values"),
        Inner::NoModuleName => plain("a module has no `#define_import_path`"),
        Inner::DecorationInSource(_) => plain("the text has the mark of a decorated name"),
        Inner::GlslInvalidVersion(_) => plain("only the versions 440 and 450 of GLSL are read"),
        Inner::RedirectError(error) => redirect_message(error),
        Inner::OverrideNotVirtual { name, .. } => named("`", name.as_str(), "` isn't virtual"),
        Inner::InvalidIdentifier { original, .. } => named("`", original.as_str(), "` can't name an item of a module"),
        Inner::InvalidShaderDefDefinitionValue { name, value, .. } => two_named("`", value.as_str(), "` is no value for `", name.as_str(), "`"),
        Inner::DefineInModule(_) => plain("`#define` in a module"),
        Inner::InvalidWgslDirective { directive, reason, .. } => two_named("invalid directive `", directive.as_str(), "`: ", "", reason.as_str()),
        Inner::Memory => plain("out of memory"),
        Inner::TooManyModules => plain("too many modules"),
        Inner::BindingsExhausted => plain("no number is left for `@binding(auto)`"),
        Inner::TextTooLarge => plain("the text is too large"),
        Inner::WrongForm => plain("the front end returned a malformed module"),
    }
}

/// The message of an error, with undecorated names.
pub(crate) fn message(alloc: Global, inner: &Inner) -> Result<String, AllocError>
    ensures { let told = spec.message_of (fault_of inner.now) in
        IfOk result (λ t. string_bytes t ≡ told) }
{
    let text = said(inner).text(alloc)?;
    undecorate(alloc, text.as_str())
}
