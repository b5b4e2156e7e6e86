//! Builds and linked modules copy what was parsed.
ghost use Rattle.naga_oil_link_laws.specs.HeldBuild.{HeldBuildLaw};
ghost use Rattle.naga_oil_link_laws.specs.LinkedCopies.{LinkedCopiesLaw};
ghost use Rattle.naga_oil_link_laws.specs.Once.{HeldAllLaw, HeldOnceLaw, LinkedOnceLaw};
ghost use Rattle.naga_oil_link_laws.specs.OrderedCopies.{FormedCallsLaw, SentCallsLaw, OrderedCopiesLaw};
ghost use Rattle.naga_oil_link_laws.specs.ThroughBuilds.{ThroughLaw};

/// In the linked whole of a shader's build each function copies one of a build, whose header
/// doesn't declare it, each item reads as one of a build, and the function of each entry point
/// copies that of the shader's build at its place.
pub fn wholes_copy_builds()
    ensures { LinkedCopiesLaw }
{}

/// What a build holds of a module copies that module.
pub fn builds_copy_modules()
    ensures { HeldBuildLaw }
{}

/// A copy of what a build holds is a copy of what the build was made from.
pub fn copies_go_through_builds()
    ensures { ThroughLaw }
{}

/// A module of good form may have its calls redirected to any of its functions, and stays a
/// copyable module; if it can be sorted, the result copies it.
pub fn ordered_modules_are_copies()
    ensures formed { FormedCallsLaw }
    ensures sent { SentCallsLaw }
    ensures ordered { OrderedCopiesLaw }
{}

/// What a build holds, and the linked whole of a shader's build, has no item twice and no two
/// functions of one name. A build has each function that it is to hold; the whole has each function
/// that the shader's build owns, and each that imports request.
pub fn wholes_hold_each_once()
    ensures held { HeldOnceLaw }
    ensures all { HeldAllLaw }
    ensures linked { LinkedOnceLaw }
{}
