//! Keywords and reserved words, which are no names.
ghost use Rattle.std.specs.Prelude.{◌≡◌, option_map};
ghost use Rattle.yettuvam_wgsl_names.specs.Table.{meaning};
ghost use Rattle.yettuvam_wgsl_names.specs.Codes.{name_of};
ghost use Rattle.yettuvam_wgsl_names.specs.Words.{word_rows, keyword_rows};

use crate::codes;
use crate::table::find;
use Word::*;

/// A word that is no name.
#[derive(Clone, Copy, Debug, PartialEq, Eq)]
pub enum Word {
    /// A keyword, by the code in `KEYWORDS`.
    Keyword(u64),
    /// A word that no module may use.
    Reserved,
}

/// The keywords and reserved words in the order of their bytes.
#[rattlefmt::skip]
pub static WORDS: [(&str, Word); 172] = [
    ("NULL", Reserved), ("Self", Reserved), ("abstract", Reserved), ("active", Reserved), ("alias", Keyword(0)),
    ("alignas", Reserved), ("alignof", Reserved), ("as", Reserved), ("asm", Reserved), ("asm_fragment", Reserved),
    ("async", Reserved), ("attribute", Reserved), ("auto", Reserved), ("await", Reserved), ("become", Reserved),
    ("break", Keyword(1)), ("case", Keyword(2)), ("cast", Reserved), ("catch", Reserved), ("class", Reserved),
    ("co_await", Reserved), ("co_return", Reserved), ("co_yield", Reserved), ("coherent", Reserved),
    ("column_major", Reserved), ("common", Reserved), ("compile", Reserved), ("compile_fragment", Reserved),
    ("concept", Reserved), ("const", Keyword(3)), ("const_assert", Keyword(4)), ("const_cast", Reserved),
    ("consteval", Reserved), ("constexpr", Reserved), ("constinit", Reserved), ("continue", Keyword(5)),
    ("continuing", Keyword(6)), ("crate", Reserved), ("debugger", Reserved), ("decltype", Reserved),
    ("default", Keyword(7)), ("delete", Reserved), ("demote", Reserved), ("demote_to_helper", Reserved),
    ("diagnostic", Keyword(8)), ("discard", Keyword(9)), ("do", Reserved), ("dynamic_cast", Reserved),
    ("else", Keyword(10)), ("enable", Keyword(11)), ("enum", Reserved), ("explicit", Reserved),
    ("export", Reserved), ("extends", Reserved), ("extern", Reserved), ("external", Reserved),
    ("fallthrough", Reserved), ("false", Keyword(12)), ("filter", Reserved), ("final", Reserved),
    ("finally", Reserved), ("fn", Keyword(13)), ("for", Keyword(14)), ("friend", Reserved), ("from", Reserved),
    ("fxgroup", Reserved), ("get", Reserved), ("goto", Reserved), ("groupshared", Reserved), ("highp", Reserved),
    ("if", Keyword(15)), ("impl", Reserved), ("implements", Reserved), ("import", Reserved), ("inline", Reserved),
    ("instanceof", Reserved), ("interface", Reserved), ("layout", Reserved), ("let", Keyword(16)),
    ("loop", Keyword(17)), ("lowp", Reserved), ("macro", Reserved), ("macro_rules", Reserved), ("match", Reserved),
    ("mediump", Reserved), ("meta", Reserved), ("mod", Reserved), ("module", Reserved), ("move", Reserved),
    ("mut", Reserved), ("mutable", Reserved), ("namespace", Reserved), ("new", Reserved), ("nil", Reserved),
    ("noexcept", Reserved), ("noinline", Reserved), ("nointerpolation", Reserved), ("non_coherent", Reserved),
    ("noncoherent", Reserved), ("noperspective", Reserved), ("null", Reserved), ("nullptr", Reserved),
    ("of", Reserved), ("operator", Reserved), ("override", Keyword(18)), ("package", Reserved),
    ("packoffset", Reserved), ("partition", Reserved), ("pass", Reserved), ("patch", Reserved),
    ("pixelfragment", Reserved), ("precise", Reserved), ("precision", Reserved), ("premerge", Reserved),
    ("priv", Reserved), ("protected", Reserved), ("pub", Reserved), ("public", Reserved), ("readonly", Reserved),
    ("ref", Reserved), ("regardless", Reserved), ("register", Reserved), ("reinterpret_cast", Reserved),
    ("require", Reserved), ("requires", Keyword(19)), ("resource", Reserved), ("restrict", Reserved),
    ("return", Keyword(20)), ("self", Reserved), ("set", Reserved), ("shared", Reserved), ("sizeof", Reserved),
    ("smooth", Reserved), ("snorm", Reserved), ("static", Reserved), ("static_assert", Reserved),
    ("static_cast", Reserved), ("std", Reserved), ("struct", Keyword(21)), ("subroutine", Reserved),
    ("super", Reserved), ("switch", Keyword(22)), ("target", Reserved), ("template", Reserved), ("this", Reserved),
    ("thread_local", Reserved), ("throw", Reserved), ("trait", Reserved), ("true", Keyword(23)), ("try", Reserved),
    ("type", Reserved), ("typedef", Reserved), ("typeid", Reserved), ("typename", Reserved), ("typeof", Reserved),
    ("union", Reserved), ("unless", Reserved), ("unorm", Reserved), ("unsafe", Reserved), ("unsized", Reserved),
    ("use", Reserved), ("using", Reserved), ("var", Keyword(24)), ("varying", Reserved), ("virtual", Reserved),
    ("volatile", Reserved), ("wgsl", Reserved), ("where", Reserved), ("while", Keyword(25)), ("with", Reserved),
    ("writeonly", Reserved), ("yield", Reserved),
];

/// The keywords by their codes.
#[rattlefmt::skip]
pub static KEYWORDS: [(u64, &str); 26] = [
    (0, "alias"), (1, "break"), (2, "case"), (3, "const"), (4, "const_assert"), (5, "continue"), (6, "continuing"),
    (7, "default"), (8, "diagnostic"), (9, "discard"), (10, "else"), (11, "enable"), (12, "false"), (13, "fn"),
    (14, "for"), (15, "if"), (16, "let"), (17, "loop"), (18, "override"), (19, "requires"), (20, "return"),
    (21, "struct"), (22, "switch"), (23, "true"), (24, "var"), (25, "while"),
];

/// Returns whether a text of letters, digits and `_` is a keyword or a reserved word; `None` if it may be a name. Takes time
/// logarithmic in the number of these words.
pub fn read_word(text: &str) -> Option<Word>
    ensures { result ≡ meaning word_rows text.now }
{
    find(&WORDS, text)
}

/// Returns the text of a keyword.
pub fn keyword(code: u64) -> Option<&'static str>
    ensures { option_map (λ n. n.now) result ≡ name_of keyword_rows code }
{
    codes::name_of(&KEYWORDS, code)
}
