//! A pool of threads on one thread: which tasks wait, which run, and which is next.
#![tactic(auto)]

mod entries;
mod faults;
mod laws;
mod limits;
mod pool_core;
mod queue;
mod task;

pub use entries::PoolEntry;
pub use faults::{ReleaseFault, ReserveFault, StartFault, TryFault};
pub use laws::{
    heads_are_first, limits_hold, runs_are_lawful, tasks_are_accounted, tasks_run_once,
};
pub use limits::{MOST_RESERVED, MOST_THREADS, limits_are_as_told};
pub use pool_core::PoolCore;
