//! The tests of the libraries that have no threads of an engine in them, a module each.
//!
//! They stand in one crate above those libraries, and not in each: a test is proved over what its library promises, and
//! a library's own check would be made again for its tests.
#![tactic(auto)]

#[cfg(test)]
mod claim;
#[cfg(test)]
mod events;
#[cfg(test)]
mod future;
#[cfg(test)]
mod job;
#[cfg(test)]
mod job_file;
#[cfg(test)]
mod load;
#[cfg(test)]
mod lock;
#[cfg(test)]
mod ops;
#[cfg(test)]
mod outside;
#[cfg(test)]
mod pool_core;
#[cfg(test)]
mod store;
