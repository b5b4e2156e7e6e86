// Functions after keywords.
ghost use Rattle.std.specs.Prelude.{◌+◌, ◌<◌, ◌^◌, length};

/// A function after a keyword: the keyword's place, the function's name, and the name's place.
#[derive(Clone, Copy)]
pub struct Marked<'a> {
    pub keyword: usize,
    pub name: &'a str,
    pub place: usize,
    ghost room: { keyword + 16 < 2 ^ 64 },
    ghost within: { place + length name.now < 2 ^ 64 },
}
