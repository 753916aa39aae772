//! The tests of reductions.
//!
//! They stand in a crate above `qtc_reduce`, so that it is not proved once more for its tests.
#![tactic(auto)]

#[cfg(test)]
mod rows;
