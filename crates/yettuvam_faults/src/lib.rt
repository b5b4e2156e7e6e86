//! What a report says of each error of a composer: its message, the places that it marks in the file, and notes.
//!
//! - `message`: the message.
//! - `notes`: what helps, and the notes of a front end.
//! - `place`: where the error lies: in the file, in the text without directives, or in the preprocessed text.
//! - `lines`: the line of a file that a line of another text comes from.
//! - `open`: the condition that is open at the end of a text.
//! - `marks`: the marked parts of the file.
//! - `reports`: the whole report.
#![tactic(auto)]

mod lines;
mod marks;
mod message;
mod notes;
mod open;
mod place;
mod reports;

pub use reports::{Source, cleaned_source, fault_report, write_report};
