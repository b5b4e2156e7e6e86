//! Laws: the front ends Mini and Palette read texts as data of the shape of modules.
ghost use Rattle.naga_oil_front_laws.specs.MiniShape.{MiniLaw, MiniFrontLaw};
ghost use Rattle.naga_oil_front_laws.specs.PaletteShape.{PaletteLaw, PaletteFrontLaw};

/// Mini reads a text as data of the shape of a module, and so does its front end, in each language.
pub fn texts_have_their_shape()
    ensures text { MiniLaw }
    ensures front_end { MiniFrontLaw }
{}

/// Palette reads a text as data of the shape of a module, and so does its front end, in each language.
pub fn palettes_have_their_shape()
    ensures text { PaletteLaw }
    ensures front_end { PaletteFrontLaw }
{}
