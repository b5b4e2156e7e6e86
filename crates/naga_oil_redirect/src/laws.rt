//! Laws of calls that are redirected along chains of replacements.
ghost use Rattle.naga_oil_redirect.specs.ChainLaw.{ChainLaw, OrderLaw, StartLaw, StepLaw};

/// However many functions replace a base, one after another, each call of the base is redirected to its destination: if the
/// caller is a replacement, the base or replacement before it, otherwise the last replacement. Each redirection adds one to
/// the chain of what it replaces, and leaves other chains unchanged.
pub fn calls_go_down_chains()
    ensures chain { ChainLaw }
    ensures start { StartLaw }
    ensures step { StepLaw }
{}

/// Sorting functions keeps each function, and calls are of the functions with the same names.
pub fn order_keeps_calls()
    ensures { OrderLaw }
{}
