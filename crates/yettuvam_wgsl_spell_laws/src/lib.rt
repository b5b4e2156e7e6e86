//! What holds of a text that is written as pieces: the lexer cuts it into the tokens that the pieces are meant to be, the
//! brackets of template arguments included.
#![tactic(auto)]

pub mod laws;
