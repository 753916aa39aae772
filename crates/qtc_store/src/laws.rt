//! Laws of the definitions, as contracts of functions with empty bodies.

ghost use Rattle.std.specs.Prelude.{◌≡◌};
ghost use Rattle.qtc_base.specs.Limits.{most_end};
ghost use Rattle.qtc_store.specs.Laws.{BatchesAreFound, BatchesKeepResults, InOrderAscends, VisibleIsBelowGap};

use crate::batch::MOST_END;

/// The limit that callers name is the limit of the definitions.
pub fn most_end_is_the_limit()
    ensures { MOST_END ≡ most_end }
{}

/// A filter store shows the values that were kept below the first index that no batch covers.
pub fn visible_is_below_gap<V>()
    ensures { VisibleIsBelowGap V }
{}

/// Batches in order are the same batches, each as often as before, ascending by their begins.
pub fn batches_in_order_ascend<V>()
    ensures { InOrderAscends V }
{}

/// A batch that nothing refuses leaves a store, and each result as it was.
pub fn batches_keep_results<V>()
    ensures { BatchesKeepResults V }
{}

/// The values of a batch are found at its indexes, and in filter mode at the positions that the values before them
/// give.
pub fn batches_are_found<V>()
    ensures { BatchesAreFound V }
{}
