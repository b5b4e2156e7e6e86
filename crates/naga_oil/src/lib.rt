//! Composes one shader out of named shader modules.
#![tactic(auto)]

pub mod compose;
pub mod ir;
pub mod laws;

/// Copies items and functions from one module into another.
pub mod derive {
    pub use naga_oil_derive::DerivedModule;
}

/// Redirects the calls of a function to another.
pub mod redirect {
    pub use naga_oil_redirect::{RedirectError, Redirector};
}
