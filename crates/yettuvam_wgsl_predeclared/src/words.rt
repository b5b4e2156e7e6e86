//! Words that mean types, address spaces, access modes and texel formats.

ghost use Rattle.std.specs.Prelude.{◌≡◌};
ghost use Rattle.yettuvam_wgsl_predeclared.specs.Words as spec;

use yettuvam_wgsl_names::functions::BITCAST;
use yettuvam_wgsl_names::{Predeclared, read_predeclared};
use yettuvam_wgsl_types::PlainType;

/// A word that takes template arguments.
#[derive(Clone, Copy)]
pub enum Generic {
    /// A vector by its size.
    Vector(u64),
    /// A matrix by its columns and 16 times its rows.
    Matrix(u64),
    Array,
    BindingArray,
    Atomic,
    Pointer,
    Bitcast,
    /// A texture of a scalar type, and one of a texel format.
    Sampled(u64),
    Storage(u64),
}

/// What the scalar type is multiplied by in the code of a vector.
pub const VECTOR_UNIT: u64 = 16;
/// What the scalar type is multiplied by in the code of a matrix.
pub const MATRIX_UNIT: u64 = 256;
/// The first code of the textures that take no template arguments.
const FIRST_PLAIN_TEXTURE: u64 = 8;
/// The first code of storage textures, which follow those that take no template arguments.
const FIRST_STORAGE_TEXTURE: u64 = 14;

/// The text of a word; of bytes that are no text, none.
#[tactic(auto, using(crate::proofs::Texts::of_text, crate::proofs::Texts::of_no_text))]
pub fn word_of(text: &[u8]) -> &str
    ensures { result.now ≡ spec.word_of text.now }
{
    match str::from_utf8(text) {
        Ok(word) => word,
        Err(_) => "",
    }
}

/// What a word means in a scope where nothing hides its predeclared meaning.
#[tactic(auto, unfolding(crate::specs::Words::predeclared))]
fn predeclared(name: &str) -> Option<Predeclared>
    ensures { result ≡ spec.predeclared name.now }
{
    read_predeclared(name)
}

fn plain_vector(code: u64) -> Option<PlainType>
    ensures { result ≡ spec.plain_vector code }
{
    if code >= VECTOR_UNIT {
        Some(PlainType::Vector(code))
    } else {
        None
    }
}

fn plain_matrix(code: u64) -> Option<PlainType>
    ensures { result ≡ spec.plain_matrix code }
{
    if code >= MATRIX_UNIT {
        Some(PlainType::Matrix(code))
    } else {
        None
    }
}

fn plain_texture(code: u64) -> Option<PlainType>
    ensures { result ≡ spec.plain_texture code }
{
    if code >= FIRST_PLAIN_TEXTURE && code < FIRST_STORAGE_TEXTURE {
        Some(PlainType::Image(code))
    } else {
        None
    }
}

fn plain_of(word: Predeclared) -> Option<PlainType>
    ensures { result ≡ spec.plain_of word }
{
    match word {
        Predeclared::Scalar(code) => Some(PlainType::Scalar(code)),
        Predeclared::Vector(code) => plain_vector(code),
        Predeclared::Matrix(code) => plain_matrix(code),
        Predeclared::Texture(code) => plain_texture(code),
        Predeclared::Sampler(code) => Some(PlainType::Sampler(code)),
        _ => None,
    }
}

fn generic_vector(code: u64) -> Option<Generic>
    ensures { result ≡ spec.generic_vector code }
{
    if code < VECTOR_UNIT {
        Some(Generic::Vector(code))
    } else {
        None
    }
}

fn generic_matrix(code: u64) -> Option<Generic>
    ensures { result ≡ spec.generic_matrix code }
{
    if code < MATRIX_UNIT {
        Some(Generic::Matrix(code))
    } else {
        None
    }
}

fn generic_texture(code: u64) -> Option<Generic>
    ensures { result ≡ spec.generic_texture code }
{
    if code < FIRST_PLAIN_TEXTURE {
        Some(Generic::Sampled(code))
    } else if code >= FIRST_STORAGE_TEXTURE {
        Some(Generic::Storage(code))
    } else {
        None
    }
}

fn generic_function(code: u64) -> Option<Generic>
    ensures { result ≡ spec.generic_function code }
{
    if code == BITCAST {
        Some(Generic::Bitcast)
    } else {
        None
    }
}

fn generic_of(word: Predeclared) -> Option<Generic>
    ensures { result ≡ spec.generic_of word }
{
    match word {
        Predeclared::Vector(code) => generic_vector(code),
        Predeclared::Matrix(code) => generic_matrix(code),
        Predeclared::Array => Some(Generic::Array),
        Predeclared::BindingArray => Some(Generic::BindingArray),
        Predeclared::Atomic => Some(Generic::Atomic),
        Predeclared::Pointer => Some(Generic::Pointer),
        Predeclared::Texture(code) => generic_texture(code),
        Predeclared::Function(code) => generic_function(code),
        _ => None,
    }
}

/// The predeclared type of a name, if it takes no template arguments.
#[tactic(auto, unfolding(crate::specs::Words::plain_type))]
pub fn plain_type(name: &str) -> Option<PlainType>
    ensures { result ≡ spec.plain_type name.now }
{
    match predeclared(name) {
        Some(word) => plain_of(word),
        None => None,
    }
}

/// What a name means that takes template arguments.
#[tactic(auto, unfolding(crate::specs::Words::generic_word))]
pub fn generic_word(name: &str) -> Option<Generic>
    ensures { result ≡ spec.generic_word name.now }
{
    match predeclared(name) {
        Some(word) => generic_of(word),
        None => None,
    }
}

/// The code of an address space.
#[tactic(auto, unfolding(crate::specs::Words::space))]
pub fn space(name: &str) -> Option<u64>
    ensures { result ≡ spec.space name.now }
{
    match predeclared(name) {
        Some(Predeclared::AddressSpace(code)) => Some(code),
        _ => None,
    }
}

/// The code of an access mode.
#[tactic(auto, unfolding(crate::specs::Words::access))]
pub fn access(name: &str) -> Option<u64>
    ensures { result ≡ spec.access name.now }
{
    match predeclared(name) {
        Some(Predeclared::Access(code)) => Some(code),
        _ => None,
    }
}

/// The code of a texel format.
#[tactic(auto, unfolding(crate::specs::Words::format))]
pub fn format(name: &str) -> Option<u64>
    ensures { result ≡ spec.format name.now }
{
    match predeclared(name) {
        Some(Predeclared::TexelFormat(code)) => Some(code),
        _ => None,
    }
}
