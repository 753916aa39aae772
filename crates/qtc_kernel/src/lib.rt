//! The engine: what is done to a list of items by whoever works on it, and what that comes to.
//!
//! The machine (`specs/Machine.antt`) says it event by event, without threads, over the future's own steps. Its laws
//! hold for every list of events.
//!
//! Workers, one or many, share an `Engine` by reference, each with a `Desk` of its own. A worker enters, takes turns by
//! `step` until an answer other than `Did`, and is then out. What each desk keeps, whatever the other workers do, is
//! `IsDesk`.
#![tactic(auto)]

mod blocks;
mod board;
mod claim_laws;
mod close;
mod desk;
mod engine;
mod finish;
mod kinds;
mod laws;
mod new_future;
mod plan;
mod reports;
mod steps;
#[cfg(test)]
mod tests;
mod turn;

pub use claim_laws::{desks_are_worked_out, reports_meet_claims};
pub use desk::Desk;
pub use engine::Engine;
pub use finish::Finished;
pub use kinds::Kind;
pub use laws::{
    accepted_batches_are_right, failures_are_bad_items, futures_are_legal,
    no_index_is_called_twice, nothing_is_taken_after_cancel, ranges_are_blocks, ranges_tile,
    whole_runs_are_sequential,
};
pub use plan::Plan;
pub use turn::Turn;
