//! What holds of the tables.
ghost use Rattle.yettuvam_wgsl_names.specs.Laws.{PredeclaredLaw, KeywordLaw, ContextLaw, OperatorLaw, ApartLaw, OrderLaw};

/// A predeclared name means a thing just if it is the thing's name.
pub fn predeclared_names_are_inverse()
    ensures { PredeclaredLaw }
{}

/// A text is a keyword just if it is the keyword's text.
pub fn keywords_are_inverse()
    ensures { KeywordLaw }
{}

/// A name in an attribute has a code just if it is the code's name.
pub fn names_in_attributes_are_inverse()
    ensures { ContextLaw }
{}

/// An operator has a code just if it is the code's operator.
pub fn operators_are_inverse()
    ensures { OperatorLaw }
{}

/// Keywords and reserved words are no predeclared names.
pub fn words_are_no_names()
    ensures { ApartLaw }
{}

/// The names of the two large tables are in the order of their bytes, so no two are alike.
pub fn tables_are_ordered()
    ensures { OrderLaw }
{}
