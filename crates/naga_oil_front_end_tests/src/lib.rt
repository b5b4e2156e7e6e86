//! Tests of builds over front ends other than Mini.
//!
//! - `palette`: the front end of the guide to front ends.
//! - `nested`: a front end whose blocks are nested up to the limit.
//! - `returning`: a front end whose headers don't survive the round trip.
//!
//! The tests are in a crate of their own, since the check of a crate with tests proves that crate twice.
#![tactic(auto)]

#[cfg(test)]
mod nested;
#[cfg(test)]
mod palette;
#[cfg(test)]
mod returning;
