use qtc_base::NoMemory;

/// Why an item function or the step of a fold gave nothing.
#[derive(Clone, Copy, Debug, PartialEq, Eq)]
pub enum ItemFault {
    /// The item is not one that the operation takes.
    Bad,
    /// Want of memory.
    Memory,
}

impl From<NoMemory> for ItemFault {
    ghost use Rattle.std.specs.Prelude.{◌≡◌};
    ghost use Rattle.qtc_ops.specs.declared.item_faults.ItemFault.TheVariants.{Memory};

    ghost from_gives = { λ _ fault. fault ≡ Memory };

    fn from(_want: NoMemory) -> ItemFault {
        ItemFault::Memory
    }
}
