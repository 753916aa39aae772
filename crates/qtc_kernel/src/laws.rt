//! What follows from the machine for every list of events, each the contract of a function that does nothing.

ghost use Rattle.qtc_kernel.specs.Laws.{AcceptedBatchesAreRight, FailuresAreBadItems, FuturesAreLegal, NoIndexIsCalledTwice, NothingIsTakenAfterCancel, RangesAreBlocks, RangesTile, WholeRunsAreSequential};

use qtc_base::Bytes;
use qtc_future::journals_are_legal;

/// The ranges still worked on and those that came back are disjoint and tile what was claimed.
pub fn ranges_tile()
    ensures { RangesTile }
{}

/// No index is called twice.
pub fn no_index_is_called_twice()
    ensures { NoIndexIsCalledTwice }
{}

/// Each batch that the future took has the texts of a claimed range.
pub fn accepted_batches_are_right()
    ensures { AcceptedBatchesAreRight }
{
    journals_are_legal::<Bytes>();
}

/// Each claimed range has the length of a claim, or is shorter and ends with the items.
pub fn ranges_are_blocks()
    ensures { RangesAreBlocks }
{}

/// After Canceled no report has an effect.
pub fn nothing_is_taken_after_cancel()
    ensures { NothingIsTakenAfterCancel }
{}

/// The failure that the future keeps is that of a bad item.
pub fn failures_are_bad_items()
    ensures { FailuresAreBadItems }
{
    journals_are_legal::<Bytes>();
}

/// Each call that the future logs had an effect.
pub fn futures_are_legal()
    ensures { FuturesAreLegal }
{
    journals_are_legal::<Bytes>();
}

/// A run that claimed everything, has nothing out and was not canceled leaves the sequential answer.
pub fn whole_runs_are_sequential()
    ensures { WholeRunsAreSequential }
{
    journals_are_legal::<Bytes>();
}
