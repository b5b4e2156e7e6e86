//! What holds of the copy of each function.
ghost use Rattle.naga_oil_derive.specs.CopiedFunctionLaw.{CopyLaw, TableLaw, AloneLaw, ReachedLaw, RangeLaw, NameLaw};

/// `copy_function` of a function that passes the test of form, apart from the targets of its calls, is a copy of it.
pub fn a_copy_of_its_source()
    ensures copies { CopyLaw }
    ensures table { TableLaw }
    ensures alone { AloneLaw }
{}

/// Exactly the expressions that initialisers and the body reach are copied.
pub fn only_what_is_reached()
    ensures { ReachedLaw }
{}

/// Each emitted range of a copy lies within the copy's expressions; a range that isn't empty begins after the copies of the
/// expressions that precede it in the order.
pub fn ranges_stand()
    ensures { RangeLaw }
{}

/// A copy with more than one name keeps the last, at the place of the first.
pub fn the_last_name_stays()
    ensures { NameLaw }
{}
