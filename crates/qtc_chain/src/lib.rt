//! What is done once a future has ended: a continuation that runs once, chains of continuations, and the two ways to wait for
//! several futures. The plain objects carry the clauses; `Cont`, `WhenAll` and `WhenAny` hold one of them under a lock.
#![tactic(auto)]

mod all_state;
mod any_state;
mod boxed_step;
mod calls;
mod chain;
mod cont;
mod cont_state;
mod continuation;
mod laws;
mod locked;
mod when_all;
mod when_any;

pub use all_state::{AllArrive, AllState};
pub use any_state::{AnyArrive, AnyState};
pub use boxed_step::BoxedStep;
pub use chain::run_chain;
pub use cont::Cont;
pub use cont_state::{Attach, ContState};
pub use continuation::Continuation;
pub use laws::{
    chains_are_folds, chains_go_on, first_arrival_counts, first_arrivals_count, steps_run_once,
};
pub use when_all::WhenAll;
pub use when_any::WhenAny;
