/// What an engine makes of its items.
#[derive(Clone, Copy, Debug, PartialEq, Eq)]
pub enum Kind {
    /// Each item has one result, at its index.
    Mapped,
    /// The kept items are one visible list.
    Filtered,
    /// The results of all items are folded into one.
    MappedReduced,
    /// The kept items are folded into one result.
    FilteredReduced,
}

impl Kind {
    ghost use Rattle.std.specs.Prelude.{◌≡◌};
    ghost use Rattle.qtc_kernel.specs.OwnPasses.{drops_items, is_filter};

    /// Whether the results are one visible list.
    pub(crate) fn is_filter(self) -> bool
        ensures { result ≡ is_filter self }
    {
        match self {
            Kind::Filtered => true,
            Kind::Mapped | Kind::MappedReduced | Kind::FilteredReduced => false,
        }
    }

    /// Whether an item may be dropped.
    pub(crate) fn drops_items(self) -> bool
        ensures { result ≡ drops_items self }
    {
        match self {
            Kind::Filtered | Kind::FilteredReduced => true,
            Kind::Mapped | Kind::MappedReduced => false,
        }
    }
}
