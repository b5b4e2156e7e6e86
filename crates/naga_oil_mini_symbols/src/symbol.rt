// The symbols of a line.
ghost use Rattle.std.specs.Prelude.{◌≡◌, ◌<◌, ◌≤◌, length, option_map};
ghost use Rattle.std.specs.List.{prefix_len};
ghost use Rattle.naga_oil_mini_symbols.specs.Symbols.{pieces, symbol_of, line_of, symbols as symbols_in, word as word_of, is_name as is_name_text, is_name_char};
ghost use Rattle.naga_oil_mini_symbols.specs.SymbolSplits.{IsRun, SplitsRun, BeginsWithoutSpace, Begins};
ghost use Rattle.naga_oil_mini_symbols.specs.Refused.{understood, Gives};

use naga_oil_lines::text::split_first_char;
use std::alloc::{AllocError, AllocFailed};

/// The largest number of a text.
pub const GREATEST: u64 = 2147483647;

#[derive(Clone, Copy)]
pub enum Symbol<'a> {
    Name(&'a str),
    /// A name and the `(` after it.
    Opens(&'a str),
    Number(u64),
    Equals,
    Plus,
    Comma,
    Closes,
}

/// The errors of a line.
#[derive(Clone, Copy)]
pub enum Refusal<'a> {
    NotUnderstood,
    Unknown(&'a str),
    Memory,
}

impl From<AllocError> for Refusal<'_> {
    ghost use Rattle.std.specs.Prelude.{◌≡◌};
    ghost use Rattle.naga_oil_mini_symbols.specs.declared.symbol.Refusal.TheVariants.{Memory};

    ghost from_gives = { λ _ refusal. refusal ≡ Memory };

    fn from(_: AllocError) -> Self {
        Refusal::Memory
    }
}

impl<T: Drop> From<AllocFailed<T>> for Refusal<'_> {
    ghost use Rattle.std.specs.Prelude.{◌≡◌};
    ghost use Rattle.naga_oil_mini_symbols.specs.declared.symbol.Refusal.TheVariants.{Memory};

    ghost from_gives = { λ _ refusal. refusal ≡ Memory };

    fn from(_: AllocFailed<T>) -> Self {
        Refusal::Memory
    }
}

// For each byte, whether names may contain the byte.
static OF_NAMES: [u8; 256] = *b"\
    00000000000000000000000000000000\
    00000000000000001111111111000000\
    01111111111111111111111111100001\
    01111111111111111111111111100000\
    00000000000000000000000000000000\
    00000000000000000000000000000000\
    00000000000000000000000000000000\
    00000000000000000000000000000000";

// Whether names may contain a byte.
fn is_name_byte(byte: u8) -> bool
    ensures { result ≡ is_name_char byte }
{
    OF_NAMES[byte as usize] == b'1'
}

// The number of bytes at the front that names may contain.
fn run_len(bytes: &[u8]) -> usize
    ensures { result ≡ prefix_len is_name_char bytes.now }
{
    for i in 0..bytes.len() {
        if !is_name_byte(bytes[i]) {
            return i;
        }
    }
    bytes.len()
}

// The characters of names that a text begins with, and the rest.
fn split_run(text: &str) -> (&str, &str)
    ensures { SplitsRun text.now result.0.now result.1.now }
{
    text.split_at(run_len(text.as_bytes()))
}

// A text without the spaces that it begins with.
fn spaces_skipped(text: &str) -> &str
    ensures pieces { pieces result.now ≡ pieces text.now }
    ensures bound { length result.now ≤ length text.now }
    ensures begins { BeginsWithoutSpace result.now }
{
    match text.as_bytes() {
        [b' ', ..] => text.trim_start_matches(' '),
        _ => text,
    }
}

/// Whether a text is a name.
pub fn is_name(text: &str) -> bool
    ensures { result ≡ is_name_text text.now }
{
    match text.as_bytes() {
        [] | [b'0'..=b'9', ..] => false,
        _ => run_len(text.as_bytes()) == text.len(),
    }
}

// Whether characters of names are a name: the first one is no digit.
fn is_name_run(run: &str) -> bool
    requires { IsRun run.now }
    ensures { result ≡ is_name_text run.now }
{
    match run.as_bytes() {
        [] | [b'0'..=b'9', ..] => false,
        _ => true,
    }
}

#[tactic(auto, using(naga_oil_conditions::proofs::ValueLemmas::parses_u32))]
fn word(run: &str) -> Option<Symbol<'_>>
    requires { IsRun run.now }
    ensures { option_map symbol_of result ≡ word_of run.now }
{
    if is_name_run(run) {
        return Some(Symbol::Name(run));
    }
    match run.parse::<u32>() {
        Ok(value) if u64::from(value) <= GREATEST => Some(Symbol::Number(u64::from(value))),
        _ => None,
    }
}

// The symbol that a text begins with, and the rest.
fn symbol_at(text: &str) -> Option<(Symbol<'_>, &str)>
    requires begins { BeginsWithoutSpace text.now }
    requires some { 0 < length text.now }
    ensures { Begins (pieces text.now) (length text.now) result }
{
    let (run, rest) = split_run(text);
    if run.is_empty() {
        let (first, more) = split_first_char(text)?;
        let sign = match first {
            '=' => Symbol::Equals,
            '+' => Symbol::Plus,
            ',' => Symbol::Comma,
            ')' => Symbol::Closes,
            _ => return None,
        };
        return Some((sign, more));
    }
    let following = spaces_skipped(rest);
    match following.strip_prefix('(') {
        None => Some((word(run)?, following)),
        Some(more) if is_name_run(run) => Some((Symbol::Opens(run), more)),
        Some(_) => None,
    }
}

/// Reads the symbols of a line into `symbols`, in place of what was there.
pub fn read_symbols<'a>(symbols: &mut Vec<Symbol<'a>>, line: &'a str) -> Result<(), Refusal<'a>>
    ensures { Gives (λ _. line_of symbols.new.items) result (understood (symbols_in line.now)) }
{
    symbols.clear();
    let mut rest = spaces_skipped(line);
    while !rest.is_empty() {
        let (symbol, more) = symbol_at(rest).ok_or(Refusal::NotUnderstood)?;
        symbols.push(symbol)?;
        rest = spaces_skipped(more);
    }
    Ok(())
}
