use qtc_base::{Bytes, List};
use qtc_events::{Flags, Reached};
use qtc_store::Added;

/// What a report, an accounting or an addition is answered.
#[derive(Clone, Copy, Debug, PartialEq, Eq)]
pub enum Reply {
    /// The batch is stored: what it did to the results, and which threshold the report reached.
    Accepted { added: Added, reached: Reached },
    /// The indexes are accounted for.
    Counted { reached: Reached },
    /// Canceled or Finished stands: the flags that do.
    Dropped(Flags),
    /// The least index of the batch that an earlier batch covers.
    Taken(u32),
    /// The batch would end past the limit of a store.
    PastEnd,
}

/// The item that couldn't be worked on.
#[derive(Drop)]
pub struct Failure {
    pub index: u32,
    pub item: Bytes,
}

/// What a future comes to.
#[derive(Drop)]
pub enum Outcome<V> {
    /// The results from 0 on without a gap, in order.
    Values(List<V>),
    Failed(Failure),
    Canceled,
}
