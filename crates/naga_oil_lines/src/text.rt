//! A text read from its front: the first character, a front before a rest, and the text after a
//! word or white space.
ghost use Rattle.std.specs.Prelude.{◌≡◌, ℕ, ◌++◌, List, length, drop, option_map, option_copied, IfSome, MatchOption, OnOk, string_bytes, replicate};
ghost use Rattle.std.specs.Char.{is_whitespace};
ghost use Rattle.std.specs.Str.{chars, IsUtf8};
ghost use Rattle.std.specs.List.{prefix_len};
ghost use Rattle.naga_oil_words.specs.Bytes.{space};
ghost use Rattle.naga_oil_lines.specs.Text.{BeginsWithChar, past_word};

use std::alloc::AllocError;

/// Returns the first character of the text and the rest. An empty text has none.
pub fn split_first_char(text: &str) -> Option<(char, &str)>
    ensures { MatchOption result (length text.now ≡ 0) (λ r. BeginsWithChar text.now r.0 r.1.now) }
{
    let mut chars = text.chars();
    let first = chars.next()?;
    Some((first, chars.as_str()))
}

/// The text after a word that the text begins with.
pub fn past_word<'a>(text: &'a str, word: &str) -> Option<&'a str>
    ensures chars { let rest = past_word (chars word.now) (chars text.now) in
        option_map (λ r. chars r.now) result ≡ rest }
    ensures bytes { option_copied result ≡ past_word word.now text.now }
    ensures suffix { IfSome result (λ r. text.now ≡ word.now ++ r.now) }
    ensures utf8 { IfSome result (λ r. IsUtf8 r.now) }
{
    text.strip_prefix(word)
}

/// The text before a rest that it ends with.
pub fn text_before<'a>(text: &'a str, rest: &str) -> &'a str
    requires { (front : List ℕ) × (text.now ≡ front ++ rest.now) }
    ensures { text.now ≡ result.now ++ rest.now }
{
    let (front, _) = text.split_at(text.len() - rest.len());
    front
}

/// The text after the white space that it begins with.
pub fn after_whitespace(text: &str) -> &str
    ensures chars { let count = prefix_len is_whitespace (chars text.now) in
        chars result.now ≡ drop count (chars text.now) }
    ensures suffix { (front : List ℕ) × (text.now ≡ front ++ result.now) }
{
    text.trim_start()
}

const SPACES: &str = "                                                                ";

fn spaces() -> &'static str
    ensures { result.now ≡ replicate 64 space }
{
    SPACES
}

/// Writes `count` spaces.
pub fn push_spaces(out: &mut String, count: usize) -> Result<(), AllocError>
    ensures { OnOk result (string_bytes out.new ≡ string_bytes out.old ++ replicate count space) }
{
    let spaces = spaces();
    let mut left = count;
    while left > spaces.len() {
        out.push_str(spaces)?;
        left -= spaces.len();
    }
    out.push_str(&spaces[..left])?;
    Ok(())
}
