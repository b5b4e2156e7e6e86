//! Laws of good form: a module that is built from modules of good form is of good form.
//!
//! This crate has no code that runs: the functions have empty bodies, and their contracts are laws of `naga_oil_derive`'s values.
//! `shape` is about the plain data of modules: which items are where, and what they may name.
#![tactic(auto)]

pub mod functions;
pub mod items;
pub mod owned;
pub mod parsed;
pub mod shape;
pub mod turns;

use naga_oil_ir::*;
