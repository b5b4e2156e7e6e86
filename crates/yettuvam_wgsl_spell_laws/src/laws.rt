//! What holds of a text that is written as pieces.
ghost use Rattle.yettuvam_wgsl_spell_laws.specs.Laws.{GoodLaw, NeighboursLaw, CutLaw, TemplatesLaw, ReadLaw};

/// The text of each piece that the writer makes is one token of its kind: a name that is no word of the language, any number
/// and literal of 64 bits, the letters of a swizzle, and every sign and keyword.
pub fn written_pieces_are_good()
    ensures { GoodLaw }
{}

/// Pieces that the writer makes stand apart, unless both are signs whose texts make another token, or one is a number and
/// the other a point.
pub fn written_neighbours_stand_apart()
    ensures { NeighboursLaw }
{}

/// The text of pieces that are one token each and stand apart is cut into just these tokens: none is split, none is
/// joined with the next one, except that two closing brackets of template arguments side by side are one `>>`.
pub fn spelled_pieces_are_cut()
    ensures { CutLaw }
{}

/// In the tokens of pieces that are well bracketed, just the brackets of template arguments are found, and a `>>` of two
/// closing brackets is split again.
pub fn written_templates_are_found()
    ensures { TemplatesLaw }
{}

/// The text of pieces is read as the tokens that the pieces are meant to be, each with its place and its bytes.
pub fn written_text_is_read()
    ensures { ReadLaw }
{}
