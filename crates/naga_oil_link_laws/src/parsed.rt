//! Parsed data that passes the test of form.
ghost use Rattle.naga_oil_link_laws.specs.ParsedShape.{ParsedShapeLaw};

/// Plain data with the shape of a module that passes the test of form under a decoration may be
/// copied, once what a build owns of it is decorated.
pub fn shaped_parses_are_formed()
    ensures { ParsedShapeLaw }
{}
