// The types that cross between the library and a program.
use super::*;

/// A field of a result: `len` bytes of the page from `at`.
#[repr(C)]
#[derive(Clone, Copy)]
pub struct Field {
    pub kind: u32,
    pub at: usize,
    pub len: usize,
    /// The field's place in the text, in bytes, for kinds that have a place.
    pub place: usize,
    /// The value of a definition.
    pub value: i64,
}

/// A text, and the path by which reports name it.
#[repr(C)]
#[derive(Drop)]
pub struct Source<'a> {
    pub path: &'a [u8],
    pub text: &'a [u8],
}

/// A name with its value: a `BOOL` (false is 0), an `INT` or a `UINT`.
#[repr(C)]
#[derive(Drop)]
pub struct Define<'a> {
    pub name: &'a [u8],
    pub kind: u32,
    pub value: i64,
}

/// The name of a module.
#[repr(C)]
#[derive(Drop)]
pub struct Name<'a> {
    pub text: &'a [u8],
}

/// A shader to build: its file, the files of modules, definitions, and imports besides those of its text.
#[repr(C)]
#[derive(Drop)]
pub struct Task<'a> {
    pub shader: Source<'a>,
    pub modules: &'a [Source<'a>],
    pub definitions: &'a [Define<'a>],
    pub imports: &'a [Name<'a>],
    pub override_any: bool,
}

/// The memory that a caller lends for a result.
#[repr(C)]
#[derive(Drop)]
pub struct Page<'a> {
    pub out: &'a mut [u8],
    pub fields: &'a mut [Field],
    /// The number of bytes and of fields that are written, or that the page would need.
    pub bytes: usize,
    pub count: usize,
}
