#![tactic(auto)]

pub mod blocks;
pub mod body;
pub mod value;

pub use blocks::{Statements, block_of, pop_list};
pub use body::{Body, Inside, begin, span_of};
pub use value::{Arm, Call, Meaning, Returns, Value, What, handle_of};
