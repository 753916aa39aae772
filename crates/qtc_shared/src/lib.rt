//! Shared futures: results that many threads report, and calls of any thread that steer them.
#![tactic(auto)]

mod controls;
mod flag_word;
mod guarded;
mod laws;
mod locked_core;
mod pass;
mod promise;
mod queries;
mod reports;
mod rule;
mod shared_future;
mod state_queries;
mod waits;

pub use laws::{known_is_kept, seen_ends_drop_all, seen_flags_stay};
pub use pass::{EndedPass, Pass};
pub use promise::Promise;
pub use shared_future::SharedFuture;
