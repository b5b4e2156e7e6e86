//! The pieces of a WGSL text, and how they are spelled and laid out.
//!
//! - `sign`: signs and keywords, and their spellings.
//! - `number`: how literals are spelled.
//! - `piece`: pieces, each of which is one token.
//! - `layout`: what stands between two pieces.
//!
//! A text is written as a list of pieces. One loop spells the list: it puts four spaces before a line for each open brace,
//! and an empty line between two items of a module.
#![tactic(auto)]

pub mod layout;
pub mod number;
pub mod piece;
pub mod sign;

pub use layout::spell;
pub use piece::Piece;
pub use sign::Sign;
