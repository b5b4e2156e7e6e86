//! The shape of a value: what the front end knows of its type.

/// What is known of a type.
#[derive(Clone, Copy, Debug, PartialEq, Eq)]
pub enum Shape {
    /// A scalar, a vector or a matrix, or what isn't known further.
    Plain,
    /// The type at a place of the module's types: it has members or elements, or is opaque.
    Of(usize),
}
