//! The future of one thread: results as they come, the calls that steer it, and what a watcher is told. All that
//! threads later share of a future is a step of this object.
#![tactic(auto)]

mod book;
mod future_core;
mod laws;
mod log;
mod replies;
mod requests;
mod runs;

pub use future_core::FutureCore;
pub use laws::{
    accounted_is_sum, answers_have_causes, ends_are_last, ends_drop_all, events_grow,
    journals_are_legal, journals_grow_by_one, reports_are_found, results_stay,
};
pub use replies::{Failure, Outcome, Reply};
pub use requests::{Answer, Asked, Request};
pub use runs::{answer, run};
