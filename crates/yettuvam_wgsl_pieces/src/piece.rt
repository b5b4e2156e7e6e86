// Pieces, each of which is one token.
ghost use Rattle.std.specs.Prelude.{◌≡◌, ◌++◌, OnOk, string_bytes};
ghost use Rattle.yettuvam_wgsl_pieces.specs.Pieces as spec;
ghost use Rattle.yettuvam_wgsl_pieces.specs.Pieces.{piece_of};

use crate::Sign;
use crate::number::push_literal;
use std::alloc::AllocError;

/// A token to be written.
#[derive(Clone, Copy, PartialEq, Eq, Debug)]
pub enum Piece<'a> {
    Word(&'a str),
    /// An integer, in decimal.
    Number(u64),
    /// A literal, as the intermediate form keeps it.
    Literal { kind: u64, bits: u64 },
    /// The letters of a swizzle, two bits each, the first lowest; with bit 8 `rgba`, else `xyzw`.
    Letters { size: u64, pattern: u64 },
    /// A sign or a keyword.
    Sign(Sign),
}

/// The value of the bit of a pattern that is set for `rgba`.
const COLORS: u64 = 256;
/// The most letters of a swizzle.
const MOST_LETTERS: u64 = 4;

fn letter(colors: bool, place: u64) -> &'static str
    ensures { result.now ≡ spec.letter colors place }
{
    match (place, colors) {
        (0, false) => "x",
        (0, true) => "r",
        (1, false) => "y",
        (1, true) => "g",
        (2, false) => "z",
        (2, true) => "b",
        (_, false) => "w",
        (_, true) => "a",
    }
}

#[tactic(auto, using(crate::proofs::Steps::letters_step))]
fn push_letters(out: &mut String, colors: bool, size: u64, pattern: u64) -> Result<(), AllocError>
    ensures { OnOk result (string_bytes out.new ≡ string_bytes out.old ++ spec.letters colors size pattern) }
{
    if size == 0 {
        return Ok(());
    }
    out.push_str(letter(colors, pattern % 4))?;
    push_letters(out, colors, size - 1, pattern / 4)
}

fn at_most_four(size: u64) -> u64
    ensures { result ≡ spec.at_most_four size }
{
    match size {
        0 | 1 | 2 | 3 => size,
        _ => MOST_LETTERS,
    }
}

/// Appends the text of a piece.
///
/// # Errors
/// If out of memory.
pub fn push_text(out: &mut String, piece: Piece<'_>) -> Result<(), AllocError>
    ensures { OnOk result (string_bytes out.new ≡ string_bytes out.old ++ spec.text (piece_of piece.entry)) }
{
    match piece {
        Piece::Word(word) => out.push_str(word),
        Piece::Number(value) => write!(out, "{value}"),
        Piece::Literal { kind, bits } => push_literal(out, kind, bits),
        Piece::Letters { size, pattern } => {
            let colors = pattern / COLORS % 2 == 1;
            push_letters(out, colors, at_most_four(size), pattern)
        }
        Piece::Sign(sign) => out.push_str(sign.text()),
    }
}
