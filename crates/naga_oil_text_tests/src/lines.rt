//! Tests of `naga_oil_lines`.
mod comment_strip_iter;
mod decorate;
mod parse_imports;
mod substitute;
mod tokenizer;
mod wgsl_directives;
