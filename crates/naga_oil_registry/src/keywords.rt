// Functions after keywords that no front end knows, and edits of a text.
ghost use Rattle.std.specs.Prelude.{◌≡◌, ℕ, ◌+◌, ◌<◌, ◌≤◌, ◌^◌, ◌++◌, List, length, drop, map, option_map, IfSome, IfOk, OnOk, string_bytes};
ghost use Rattle.std.specs.BTreeMap.{get};
ghost use Rattle.std.specs.Char.{encode_utf8};
ghost use Rattle.std.specs.List.{flat_map, prefix_len};
ghost use Rattle.std.specs.Ordering.{nat_cmp};
ghost use Rattle.std.specs.Str.{chars, IsUtf8};
ghost use Rattle.naga_oil_registry.specs.Keywords.{past_spaces, is_name_char, marked_name, marked_in, covered_text, put, edited};
ghost use Rattle.naga_oil_registry.specs.KeywordsView.{marked_of};

use super::*;
use naga_oil_lines::comment_strip_iter::CommentReplaceExt;
use naga_oil_lines::text::{after_whitespace, past_word, split_first_char, text_before};

/// Other characters, by their places in a text, in bytes.
pub type Edits = BTreeMap<usize, char>;

/// The text with its comments covered and each line ended.
pub fn covered(alloc: Global, text: &str) -> AllocResult<String>
    ensures { IfOk result (λ t. string_bytes t ≡ covered_text text.now) }
{
    let mut covered = String::with_capacity(alloc, text.len())?;
    let mut lines = text.lines();
    for line in lines.replace_comments(alloc) {
        covered.push_str(&line?)?;
        covered.push('\n')?;
    }
    Ok(covered)
}

// The text after leading white space, if there is some.
fn past_spaces(text: &str) -> Option<&str>
    ensures chars { option_map (λ r. chars r.now) result ≡ past_spaces (chars text.now) }
    ensures suffix { IfSome result (λ r. (front : List ℕ) × (text.now ≡ front ++ r.now)) }
    ensures utf8 { IfSome result (λ r. IsUtf8 r.now) }
{
    let (first, more) = split_first_char(text)?;
    first.is_whitespace().then_some(after_whitespace(more))
}

// The text after the name that it begins with.
fn after_name(text: &str) -> &str
    ensures chars { let all = chars text.now in
        chars result.now ≡ drop (prefix_len is_name_char all) all }
    ensures suffix { (front : List ℕ) × (text.now ≡ front ++ result.now) }
{
    let mut rest = text;
    while let Some((first, more)) = split_first_char(rest) {
        if first.is_whitespace() || first == '(' {
            return rest;
        }
        rest = more;
    }
    rest
}

// The name in a text that begins with ` fn NAME (`, the text from the name on, and that after the
// `(`.
fn marked_name(text: &str) -> Option<(&str, &str, &str)>
    ensures chars { let found = marked_name (chars text.now) in
        option_map (λ r. (chars r.0.now, chars r.1.now, chars r.2.now)) result ≡ found }
    ensures name { IfSome result (λ r. length r.0.now ≤ length r.1.now) }
    ensures within { IfSome result (λ r. length r.1.now ≤ length text.now) }
    ensures shorter { IfSome result (λ r. length r.2.now ≤ length text.now) }
    ensures suffix { IfSome result (λ r. (front : List ℕ) × (text.now ≡ front ++ r.2.now)) }
    ensures utf8 { IfSome result (λ r. IsUtf8 r.0.now × IsUtf8 r.1.now × IsUtf8 r.2.now) }
{
    let onwards = past_spaces(past_word(past_spaces(text)?, "fn")?)?;
    let rest = after_name(onwards);
    let name = text_before(onwards, rest);
    let arguments = past_word(after_whitespace(rest), "(")?;
    (!name.is_empty()).then_some((name, onwards, arguments))
}

/// The functions after a keyword, from left to right.
pub fn marked_in<'a>(alloc: Global, text: &'a str, keyword: &str) -> AllocResult<Vec<Marked<'a>>>
    requires { 0 < length keyword.now }
    ensures { IfOk result (λ found. map marked_of found.items ≡ marked_in keyword.now text.now) }
{
    let mut found = Vec::new(alloc);
    let mut rest = text;
    while let Some((before, following)) = rest.split_once(keyword) {
        let Some((name, onwards, arguments)) = marked_name(following) else {
            rest = following;
            continue;
        };
        found.push(Marked {
            keyword: text.len() - rest.len() + before.len(),
            name,
            place: text.len() - onwards.len(),
        })?;
        rest = arguments;
    }
    Ok(found)
}

/// Replaces the characters from a place on by others, of one byte each.
pub fn edit(edits: &mut Edits, place: usize, other: &str) -> AllocResult
    requires { place + length other.now < 2 ^ 64 }
    ensures { OnOk result (get nat_cmp edits.new ≡ put (get nat_cmp edits.old) place other.now) }
{
    for (at, byte) in other.as_bytes().iter().enumerate() {
        edits.insert(place + at, *byte as char)?;
    }
    Ok(())
}

/// The text with its edits applied.
pub fn with_edits(alloc: Global, text: &str, edits: &Edits) -> AllocResult<String>
    ensures { let told = edited (get nat_cmp edits.now) 0 (chars text.now) in
        IfOk result (λ t. string_bytes t ≡ flat_map encode_utf8 told) }
{
    let mut shown = String::with_capacity(alloc, text.len())?;
    let mut rest = text;
    while let Some((first, more)) = split_first_char(rest) {
        let other = edits.get(&(text.len() - rest.len()));
        shown.push(other.copied().unwrap_or(first))?;
        rest = more;
    }
    Ok(shown)
}
