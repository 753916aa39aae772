//! Results by index, as batches come in any order: a finite map, or, where a filter drops results, one list
//! that shows what has no gap before it.
#![tactic(auto)]

mod batch;
mod front;
mod laws;
mod pending;
mod ranges;
mod store;

pub use batch::{AddFault, Added, Addition, Batch, MOST_END};
pub use laws::{
    batches_are_found, batches_in_order_ascend, batches_keep_results, most_end_is_the_limit,
    visible_is_below_gap,
};
pub use store::ResultStore;
