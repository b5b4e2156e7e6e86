//! Compares what a stage shows of a text with what is expected.

use std::alloc::AllocError;

/// Whether a result was made and is the one expected.
pub fn is(shown: Result<String, AllocError>, expected: &str) -> bool {
    match shown {
        Ok(shown) => shown.as_str() == expected,
        Err(_) => false,
    }
}
