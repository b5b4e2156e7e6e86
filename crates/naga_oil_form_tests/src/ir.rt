//! Tests of `naga_oil_ir`.
mod backend;
mod check_form;
mod tests;
