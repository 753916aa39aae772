//! What follows for whoever has passes of a shared future, each the contract of a function that does nothing.

ghost use Rattle.qtc_shared.specs.Laws.{SeenFlagsStay, SeenEndsDropAll, KnownIsKept};

use qtc_events::{flags_stay, journals_end, thresholds_act};

/// A pass that saw Started, Canceled or Finished meets no journal in which it doesn't stand.
pub fn seen_flags_stay<V>()
    ensures { SeenFlagsStay V }
{
    flags_stay();
}

/// Nothing that a pass reports, adds or accounts for is accepted any more, once it saw Canceled or Finished.
pub fn seen_ends_drop_all<V>()
    ensures { SeenEndsDropAll V }
{
    flags_stay();
}

/// Each journal that a pass meets begins with what it knows, and is that once it knows Finished.
pub fn known_is_kept<V>()
    ensures { KnownIsKept V }
{
    thresholds_act();
    journals_end();
}
