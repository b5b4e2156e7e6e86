// Preparing a source: marks that it may not contain, its line ends, and automatic bindings.
ghost use Rattle.std.specs.Prelude.{◌≡◌, ◌∷◌, ◌++◌, ◌+◌, ◌-◌, ◌≤◌, ◌<◌, length, map, IfOk, option_map, string_bytes};
ghost use Rattle.naga_oil_conditions.specs.View.{Gives};
ghost use Rattle.naga_oil_registry.specs.Added.{read_source};
ghost use Rattle.naga_oil_registry.specs.Sanitized.{first_decoration, line_feeds, end_last_line, binding, parts_around, auto_binding, within};

use super::*;

// An automatic binding, which is replaced by one with the next number.
const AUTO_BINDING: &str = "@binding(auto)";

// The place of the first mark of a decoration, of either kind.
fn first_decoration(source: &str) -> Option<usize>
    ensures { result ≡ first_decoration source.now }
{
    match (
        source.find(DECORATION_PRE),
        source.find(DECORATION_OVERRIDE_PRE),
    ) {
        (Some(of_item), Some(of_override)) => Some(of_item.min(of_override)),
        (Some(of_item), None) => Some(of_item),
        (None, of_override) => of_override,
    }
}

// The text after a carriage return, without the line feed that belongs to it.
fn past_line_feed(text: &str) -> &str
    ensures value { line_feeds (13 ∷ text.now) ≡ 10 ∷ line_feeds result.now }
    ensures bound { length result.now ≤ length text.now }
{
    text.strip_prefix('\n').unwrap_or(text)
}

// The text with each line, the last one too, ended by one line feed.
fn with_line_feeds(alloc: Global, source: &str) -> AllocResult<String>
    ensures { IfOk result (λ text. string_bytes text ≡ end_last_line (line_feeds source.now)) }
{
    let mut text = String::with_capacity(alloc, source.len() + 1)?;
    let mut rest = source;
    while let Some((before, following)) = rest.split_once('\r') {
        text.push_str(before)?;
        text.push('\n')?;
        rest = past_line_feed(following);
    }
    text.push_str(rest)?;
    if text.as_str().ends_with("\n") {
        return Ok(text);
    }
    text.push('\n')?;
    Ok(text)
}

// The text with a number for each automatic binding, and the next number; `None` if that would
// exceed the greatest number.
fn with_bindings(alloc: Global, text: &str, counter: u32) -> AllocResult<Option<(String, u32)>>
    ensures { let told = within counter (parts_around auto_binding text.now) in
        IfOk result (λ r. option_map (λ s. (string_bytes s.0, s.1)) r ≡ told) }
{
    let mut numbered = String::with_capacity(alloc, text.len())?;
    let mut next = counter;
    let mut rest = text;
    while let Some((before, following)) = rest.split_once(AUTO_BINDING) {
        if next == u32::MAX {
            return Ok(None);
        }
        numbered.push_str(before)?;
        write!(numbered, "@binding({next})")?;
        next += 1;
        rest = following;
    }
    numbered.push_str(rest)?;
    Ok(Some((numbered, next)))
}

/// A prepared source, and the counter after it: each line ends in a line feed, and each
/// `@binding(auto)` has the next number. Fails if the source contains the mark of a decoration, or
/// if no number is left. Time and memory are linear in the source.
#[tactic(auto, unfolding(crate::specs::Added::read_source, crate::specs::Sanitized::sanitized))]
pub fn read_source(alloc: Global, source: &str, counter: u32) -> InnerResult<(String, u32)>
    ensures { Gives (λ r. (string_bytes r.0, r.1)) result (read_source counter source.now) }
{
    if let Some(start) = first_decoration(source) {
        return Err(Inner::DecorationInSource(start..start + DECORATION_PRE.len()));
    }
    let text = with_line_feeds(alloc, source)?;
    let Some(read) = with_bindings(alloc, text.as_str(), counter)? else {
        return Err(Inner::BindingsExhausted);
    };
    Ok(read)
}
