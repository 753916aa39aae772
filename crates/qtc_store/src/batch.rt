use qtc_base::List;
use std::alloc::{AllocError, AllocFailed};

/// The end that no stored batch may pass.
pub const MOST_END: u32 = 8_388_608;

/// Results for the indexes from `begin` to `begin + total`. Where a filter drops results, `values` are
/// those that it keeps, in order.
#[derive(Drop)]
pub struct Batch<V> {
    pub begin: u32,
    pub total: u32,
    pub values: List<V>,
}

/// A batch that is offered to a store. Without a `begin` it goes where the last batch ends.
#[derive(Drop)]
pub struct Addition<V> {
    pub begin: Option<u32>,
    pub values: List<V>,
    pub total: u32,
}

/// What an accepted batch did to the store's count.
#[derive(Clone, Copy, Debug, PartialEq, Eq)]
pub struct Added {
    pub begin: u32,
    pub old_count: u32,
    pub new_count: u32,
}

/// Why a batch was refused.
#[derive(Clone, Copy, Debug, PartialEq, Eq)]
pub enum AddFault {
    /// The least index of the batch that an earlier batch covers.
    Taken(u32),
    /// The batch would end past `MOST_END`.
    PastEnd,
    /// Want of memory.
    Memory,
}

impl<T: Drop> From<AllocFailed<T>> for AddFault {
    ghost use Rattle.std.specs.Prelude.{◌≡◌};
    ghost use Rattle.qtc_store.specs.declared.batch.AddFault.TheVariants.{Memory};

    ghost from_gives = { λ _ fault. fault ≡ Memory };

    fn from(_error: AllocFailed<T>) -> AddFault {
        AddFault::Memory
    }
}

impl From<AllocError> for AddFault {
    ghost use Rattle.std.specs.Prelude.{◌≡◌};
    ghost use Rattle.qtc_store.specs.declared.batch.AddFault.TheVariants.{Memory};

    ghost from_gives = { λ _ fault. fault ≡ Memory };

    fn from(_error: AllocError) -> AddFault {
        AddFault::Memory
    }
}
