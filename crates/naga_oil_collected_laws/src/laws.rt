//! What a build holds and a linked module has, by a list of what is requested.
ghost use Rattle.naga_oil_collected_laws.specs.CollectedLaw.{HeldFunctionsLaw, LinkedFunctionsLaw};
ghost use Rattle.naga_oil_collected_laws.specs.HeaderItems.{HeldHeaderLaw, LinkedHeaderLaw};
ghost use Rattle.naga_oil_collected_laws.specs.HeaderRequests.{HeldStubsLaw, LinkedStubsLaw};
ghost use Rattle.naga_oil_collected_laws.specs.HeldItems.{HeldItemsLaw};
ghost use Rattle.naga_oil_collected_laws.specs.ItemOrder.{HeldOrderLaw, LinkedOrderLaw};
ghost use Rattle.naga_oil_collected_laws.specs.ReachedBuilds.{ReachedBuildsLaw};
ghost use Rattle.naga_oil_collected_laws.specs.RequestedItems.{LinkedItemsLaw};

/// The functions of a linked module, and those of a build's module, copy one after another the
/// functions of a list: what is requested, and before each function what it calls, each once.
pub fn functions_in_order_of_first_reach()
    ensures linked { LinkedFunctionsLaw }
    ensures held { HeldFunctionsLaw }
{}

/// Builds that no import reaches change nothing in a linked module.
pub fn only_reached_builds_give()
    ensures { ReachedBuildsLaw }
{}

/// A linked module has a copy of each type, constant, override and global that imports request of
/// builds, and of each that the shader's build owns.
pub fn requested_items_are_there()
    ensures { LinkedItemsLaw }
{}

/// What a build holds of a module has a copy of each type of the module, and of each constant,
/// override and global that the build owns.
pub fn taken_items_are_held()
    ensures { HeldItemsLaw }
{}

/// The types, constants, overrides, globals and global expressions of a linked module, and those of
/// a build's module, copy the items of a trail, each once, in the order of first occurrence; on a
/// trail an item stands after what it names.
pub fn items_in_order_of_first_reach()
    ensures linked { LinkedOrderLaw }
    ensures held { HeldOrderLaw }
{}

/// A header that a build holds has a stub of each function with the build's names, and a linked
/// header a declaration of each function that imports request of headers, each name once; neither
/// has another function.
pub fn headers_have_stubs()
    ensures held { HeldStubsLaw }
    ensures linked { LinkedStubsLaw }
{}

/// The types, constants, overrides, globals and global expressions of a header that a build holds,
/// and those of a linked header, copy the items of a trail, each once, in the order of first
/// occurrence: the items that are requested, and those that signatures name.
pub fn items_of_headers_in_order()
    ensures held { HeldHeaderLaw }
    ensures linked { LinkedHeaderLaw }
{}
