//! How many workers are in, told by one atomic word.
//!
//! - `ActiveCount::new` gives a count of the workers that are in, and a badge for each worker, all out.
//! - A worker enters and leaves with its own badge, and `count` tells by one load how many are in.
//!
//! All values belong to the count that made them, and contracts see which that is (`of`). No call waits, and after
//! `new` none takes memory. A badge may be dropped; one that is dropped in is in for good.
#![tactic(auto)]

mod active_count;
mod badge;
mod rule;

pub use active_count::ActiveCount;
pub use badge::Badge;
