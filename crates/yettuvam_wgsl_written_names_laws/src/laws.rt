//! What holds of the names that are made.
ghost use Rattle.yettuvam_wgsl_written_names_laws.specs.Laws.{FreeLaw, KeptLaw, DecoratedLaw};

/// A name that is made wasn't taken before: it is no name of another item, no keyword, no reserved word and no predeclared name.
pub fn made_names_are_free()
    ensures { FreeLaw }
{}

/// A name that is free stays as it is.
pub fn free_names_stay()
    ensures { KeptLaw }
{}

/// The decorated name of an item of a module stays as it is, or the item is refused.
pub fn decorated_names_stay()
    ensures { DecoratedLaw }
{}
