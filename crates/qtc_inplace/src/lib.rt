//! Lists of the caller's own that are mapped and filtered by several functions at once, in place or into a new list.
#![tactic(auto)]

mod blocking;
mod faults;
mod in_place;
mod laws;
mod mapping;
mod plan;
mod spreading;
mod taking;
mod takings;
#[cfg(test)]
mod tests;

pub use blocking::{blocking_filtered, blocking_mapped};
pub use faults::InPlaceFault;
pub use in_place::{filter_in_place, map_in_place};
pub use laws::maps_never_drop;
