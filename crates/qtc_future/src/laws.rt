//! What the table of a future comes to, each the contract of a function that does nothing.

ghost use Rattle.qtc_future.specs.Laws.{AnswersHaveCauses, EndsDropAll, JournalsGrowByOne, JournalsAreLegal, EndsAreLast, ResultsStay, ReportsAreFound, EventsGrow, AccountedIsSum};

use qtc_events::{journals_end, thresholds_act};
use qtc_store::{batches_are_found, batches_keep_results};

/// When each answer comes.
pub fn answers_have_causes<V>()
    ensures { AnswersHaveCauses V }
{}

/// Where Canceled or Finished stands nothing is reported, added or accounted for.
pub fn ends_drop_all<V>()
    ensures { EndsDropAll V }
{}

/// A call adds one entry to the journal, its own, or leaves the future as it was.
pub fn journals_grow_by_one<V>()
    ensures { JournalsGrowByOne V }
{}

/// Each entry of a future's journal has an effect where it stands, and a call keeps that so.
pub fn journals_are_legal<V>()
    ensures { JournalsAreLegal V }
{
    thresholds_act();
}

/// After Canceled only Finish has an effect, so no report, and after Finish nothing.
pub fn ends_are_last<V>()
    ensures { EndsAreLast V }
{
    thresholds_act();
    journals_end();
}

/// The results at a journal are those at each longer one.
pub fn results_stay<V>()
    ensures { ResultsStay V }
{
    batches_keep_results::<V>();
}

/// The values of an accepted report are found at its indexes, and in filter mode at the positions that the values
/// before them give.
pub fn reports_are_found<V>()
    ensures { ReportsAreFound V }
{
    batches_keep_results::<V>();
    batches_are_found::<V>();
}

/// The events of a longer journal begin with those of the shorter.
pub fn events_grow<V>()
    ensures { EventsGrow V }
{}

/// What is accounted for is the sum of what was reported and accounted for, up to its last number.
pub fn accounted_is_sum<V>()
    ensures { AccountedIsSum V }
{}
