//! A pool of threads that threads share: tasks by priority, reserved threads, and workers that sleep while there is
//! nothing to do.
#![tactic(auto)]

mod becoming;
mod calls;
mod guarded;
mod pool;
mod serving;
mod work;

pub use becoming::Becomes;
pub use pool::Pool;
pub use work::Work;
