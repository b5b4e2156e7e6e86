//! Tests of `naga_oil_pre`.
mod directives;
mod fault;
mod fronts;
mod line_kind;
mod metadata;
mod preprocess;
mod replace;
mod shader_def;
