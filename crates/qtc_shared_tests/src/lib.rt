//! The tests of what threads share below an engine, a module each: the count of active workers, the shared future and its
//! promise, and the pool.
//!
//! They stand in a crate above those libraries, so that no library is proved once more for its tests.
#![tactic(auto)]

#[cfg(test)]
mod active;
#[cfg(test)]
mod pool;
#[cfg(test)]
mod shared;
