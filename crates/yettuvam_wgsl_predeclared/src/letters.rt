//! The letters of vectors' components: `xyzw` and `rgba`.

ghost use Rattle.std.specs.Prelude.{◌≡◌, ◌<◌, IfSome};
ghost use Rattle.yettuvam_wgsl_predeclared.specs.Letters as spec;

/// The components of a vector, as letters name them.
#[derive(Clone, Copy)]
enum Letters {
    /// `xyzw`
    Places,
    /// `rgba`
    Colors,
}

/// What the second component of a swizzle is multiplied by in its pattern.
const SECOND: u64 = 4;
/// What the third component, and the letters' set, are multiplied by.
const THIRD: u64 = 16;

const SET: u64 = 256;

fn place_number(byte: u8) -> Option<u64>
    ensures value { result ≡ spec.place_number byte }
    ensures small { IfSome result (λ n. n < 4) }
{
    match byte {
        b'x' => Some(0),
        b'y' => Some(1),
        b'z' => Some(2),
        b'w' => Some(3),
        _ => None,
    }
}

fn color_number(byte: u8) -> Option<u64>
    ensures value { result ≡ spec.color_number byte }
    ensures small { IfSome result (λ n. n < 4) }
{
    match byte {
        b'r' => Some(0),
        b'g' => Some(1),
        b'b' => Some(2),
        b'a' => Some(3),
        _ => None,
    }
}

/// The number of the component that a letter of a set names.
fn number_in(letters: Letters, byte: u8) -> Option<u64>
    ensures value { result ≡ spec.number_in letters byte }
    ensures small { IfSome result (λ n. n < 4) }
{
    match letters {
        Letters::Places => place_number(byte),
        Letters::Colors => color_number(byte),
    }
}

fn pair_pattern(letters: Letters, first: u8, second: u8) -> Option<u64>
    ensures value { result ≡ spec.pair_pattern letters first second }
    ensures small { IfSome result (λ n. n < 16) }
{
    match number_in(letters, first) {
        Some(first) => match number_in(letters, second) {
            Some(second) => Some(first + SECOND * second),
            None => None,
        },
        None => None,
    }
}

fn triple_pattern(letters: Letters, first: u8, second: u8, third: u8) -> Option<u64>
    ensures value { result ≡ spec.triple_pattern letters first second third }
    ensures small { IfSome result (λ n. n < 256) }
{
    match pair_pattern(letters, first, second) {
        Some(pair) => match number_in(letters, third) {
            Some(third) => Some(pair + THIRD * third),
            None => None,
        },
        None => None,
    }
}

fn quad_pattern(letters: Letters, a: u8, b: u8, c: u8, d: u8) -> Option<u64>
    ensures value { result ≡ spec.quad_pattern letters a b c d }
    ensures small { IfSome result (λ n. n < 256) }
{
    match pair_pattern(letters, a, b) {
        Some(pair) => match pair_pattern(letters, c, d) {
            Some(second) => Some(pair + THIRD * second),
            None => None,
        },
        None => None,
    }
}

fn pattern_in(letters: Letters, text: &[u8]) -> Option<u64>
    ensures value { result ≡ spec.pattern_in letters text.now }
    ensures small { IfSome result (λ n. n < 256) }
{
    match text {
        [a, b] => pair_pattern(letters, *a, *b),
        [a, b, c] => triple_pattern(letters, *a, *b, *c),
        [a, b, c, d] => quad_pattern(letters, *a, *b, *c, *d),
        _ => None,
    }
}

/// The pattern of a swizzle of two to four letters of one set: two bits for each component,
/// the first lowest, and the set above them.
#[tactic(auto, unfolding(crate::specs::Letters::swizzle_pattern))]
pub fn swizzle_pattern(text: &[u8]) -> Option<u64>
    ensures { result ≡ spec.swizzle_pattern text.now }
{
    match pattern_in(Letters::Places, text) {
        Some(pattern) => Some(pattern),
        None => match pattern_in(Letters::Colors, text) {
            Some(pattern) => Some(SET + pattern),
            None => None,
        },
    }
}

/// The number of the component that a letter names, of `xyzw` from 0 and of `rgba` from 4.
#[tactic(auto, unfolding(crate::specs::Letters::letter_number))]
pub fn letter_number(byte: u8) -> Option<u32>
    ensures { result ≡ spec.letter_number byte }
{
    match byte {
        b'x' => Some(0),
        b'y' => Some(1),
        b'z' => Some(2),
        b'w' => Some(3),
        b'r' => Some(4),
        b'g' => Some(5),
        b'b' => Some(6),
        b'a' => Some(7),
        _ => None,
    }
}
