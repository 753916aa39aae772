//! The tests of continuations, chains, and the objects that wait for several futures.
//!
//! They stand in a crate above `qtc_chain`, so that it is not proved once more for its tests.
#![tactic(auto)]

#[cfg(test)]
mod folds;
#[cfg(test)]
mod rows;
#[cfg(test)]
mod steps;
#[cfg(test)]
mod threads;
