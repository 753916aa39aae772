//! Tasks that give values to futures, and what is made and waited for around them.
#![tactic(auto)]

mod ends;
mod list_task;
mod places;
mod readying;
mod runs;
mod synchronizer;
mod task;
mod turns;
mod unwrapping;
mod work;

pub use ends::{TaskEnd, TaskJob, TaskStop};
pub use list_task::ListTask;
pub use readying::{ReadyFault, ready};
pub use runs::run_all;
pub use synchronizer::Synchronizer;
pub use task::{Task, TaskFault};
pub use unwrapping::unwrap_outcome;
