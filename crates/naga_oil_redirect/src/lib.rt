//! Redirects calls from one function to another, and sorts functions by what they call.
//!
//! `redirect` has the redirector, a module whose calls can be redirected; `sent_calls` rewrites the calls of one function.
//! The resulting module has its functions in an `order` by their levels, each after what it calls; they are copied in that order
//! into a derived module.
#![tactic(auto)]

pub mod laws;
pub mod order;
pub mod redirect;
mod sent_calls;

use naga_oil_derive::DerivedModule;
use naga_oil_derive::maps::stands_at;
use naga_oil_ir::*;
use naga_oil_words::AllocResult;
use order::ordered;
pub use redirect::{RedirectError, Redirector};
use sent_calls::send_calls;
use std::alloc::Global;
use std::collections::BTreeSet;
use std::marker::Model;
use std::mem;
