//! What lists of calls on a reduction come to, each the contract of a function that does nothing.
ghost use Rattle.qtc_reduce.specs.Laws.{AllIsFolded, FoldsAreTold};

/// Whatever is called, where each whole accumulator that comes back has its block folded in, the accumulator is the fold of
/// the texts of the listed ranges, in the order of the list; and an ordered list goes on without a gap from 0.
pub fn folds_are_told<A>()
    ensures { FoldsAreTold A }
{}

/// Whatever is called with blocks that aren't empty: where what was offered and taken has each index below a number once, the
/// accumulator is home and nothing was given back unfinished, no block waits, and the listed ranges have each of them once.
pub fn all_is_folded<A>()
    ensures { AllIsFolded A }
{}
