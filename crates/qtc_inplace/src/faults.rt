use qtc_base::NoMemory;
use std::alloc::AllocFailed;

/// Why a call over a list was refused.
#[derive(Clone, Copy, Debug, PartialEq, Eq)]
pub enum InPlaceFault {
    /// The member at this index is bad.
    Bad(u32),
    /// Want of memory.
    Memory,
}

impl From<NoMemory> for InPlaceFault {
    ghost use Rattle.std.specs.Prelude.{◌≡◌};
    ghost use Rattle.qtc_inplace.specs.declared.faults.InPlaceFault.TheVariants.{Memory};

    ghost from_gives = { λ _ fault. fault ≡ Memory };

    fn from(_want: NoMemory) -> InPlaceFault {
        InPlaceFault::Memory
    }
}

impl<T: Drop> From<AllocFailed<T>> for InPlaceFault {
    ghost use Rattle.std.specs.Prelude.{◌≡◌};
    ghost use Rattle.qtc_inplace.specs.declared.faults.InPlaceFault.TheVariants.{Memory};

    ghost from_gives = { λ _ fault. fault ≡ Memory };

    fn from(_want: AllocFailed<T>) -> InPlaceFault {
        InPlaceFault::Memory
    }
}
