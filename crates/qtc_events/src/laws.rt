//! The laws of the table of calls, each the contract of a function with an empty body.

ghost use Rattle.qtc_events.specs.Flags.{Running, Started, Finished, Canceled, Suspending, Suspended, Throttled, Pending};
ghost use Rattle.qtc_events.specs.Laws.{IsWordOf, WordsAreFlags, FlagsStay, ThresholdsAct, EndsAreEnds, JournalsEnd, SuspensionIsOne, StartKeepsSuspension, ReplayNamesStanding};

use crate::Flags;

/// Each of the eight words shows its own flag and no other.
pub fn flags_have_words()
    ensures running { IsWordOf Running Flags.RUNNING }
    ensures started { IsWordOf Started Flags.STARTED }
    ensures finished { IsWordOf Finished Flags.FINISHED }
    ensures canceled { IsWordOf Canceled Flags.CANCELED }
    ensures suspending { IsWordOf Suspending Flags.SUSPENDING }
    ensures suspended { IsWordOf Suspended Flags.SUSPENDED }
    ensures throttled { IsWordOf Throttled Flags.THROTTLED }
    ensures pending { IsWordOf Pending Flags.PENDING }
{}

/// A word below 256 and the flags that it shows determine each other.
pub fn words_are_flags()
    ensures { WordsAreFlags }
{}

/// Started, Canceled and Finished are never cleared.
pub fn flags_stay()
    ensures { FlagsStay }
{}

/// A threshold that is reached where neither Canceled nor Finished stands acts with an effect, as a suspend or
/// a cancel.
pub fn thresholds_act()
    ensures { ThresholdsAct }
{}

/// Where Canceled stands only Finish has an effect, and where Finished stands no call has.
pub fn ends_are_ends()
    ensures { EndsAreEnds }
{}

/// In a journal of effective calls nothing but Finish comes after a cancel, so no report, and nothing comes
/// after Finish.
pub fn journals_end()
    ensures { JournalsEnd }
{}

/// No call sets Throttled, and a future is never both suspending and suspended.
pub fn suspension_is_one()
    ensures { SuspensionIsOne }
{}

/// A start keeps a suspension that was set before.
pub fn start_keeps_suspension()
    ensures { StartKeepsSuspension }
{}

/// A late watcher is told of just the flags that stand, with one word for a suspension.
pub fn replay_names_standing()
    ensures { ReplayNamesStanding }
{}
