// Spans: ranges of bytes of a text.
ghost use Rattle.std.specs.Prelude.{◌≡◌, Option, option_map};
ghost use Rattle.naga_oil_ir.specs.Spans.{undefined, bounds_of};

use std::ops;

/// The index of a module times 2 to the power of this is added to the spans of the module.
pub const SPAN_SHIFT: u32 = 21;

/// How many modules have spans that fit into 32 bits.
pub const MAX_MODULES: usize = 2047;

/// The bytes of a text from `start` up to `end`; both are 0 if they are not known.
#[derive(Clone, Copy, PartialEq, Eq, Debug)]
pub struct Span {
    pub start: u32,
    pub end: u32,
}

impl Span {
    /// The span of an item without a place in a text.
    pub const UNDEFINED: Span = Span { start: 0, end: 0 };

    /// Returns the span from `start` up to `end`.
    pub fn new(start: u32, end: u32) -> Span
        ensures { result ≡ record { start = start; end = end } }
    {
        Span { start, end }
    }

    /// Returns the first byte and the byte after the last, or `None` if they are not known.
    pub fn to_range(self) -> Option<ops::Range<usize>>
        ensures { result ≡ bounds_of self }
    {
        (self != Span::UNDEFINED).then_some(self.start as usize..self.end as usize)
    }
}
