//! What the definitions of `specs/` that compute come to, in words that compute nothing.
ghost use Rattle.std.specs.Prelude.{◌≡◌};
ghost use Rattle.qtc_ops.specs.Laws.{DigitsAreNumbers, TestsDecidePredicates, PatternsMatchPartByPart, PairsAreWhatIsKept, FailsAreWhatFails, PairsStandByRange, FoldsGoFromTheLeft, FoldsCountAndAdd, JoinsSeparate, GreatestIsGreatest, TalliesCount, SortedValuesAscend};
ghost use Rattle.qtc_base.specs.Limits.{most_number_digits};

use crate::NUMBER_DIGITS;

/// An item counts as a number exactly where it is 1 to 19 decimal digits.
pub fn digits_are_numbers()
    ensures numbers { DigitsAreNumbers }
    ensures limit { NUMBER_DIGITS ≡ most_number_digits }
{}

/// The test that keeps an item answers exactly where the predicate holds.
pub fn tests_decide_predicates()
    ensures { TestsDecidePredicates }
{}

/// A pattern of two parts matches exactly where the item is a front that the first part matches and a rest that
/// the second does.
pub fn patterns_match_part_by_part()
    ensures { PatternsMatchPartByPart }
{}

/// A pair is kept exactly where the item at its index has its text as value.
pub fn pairs_are_what_is_kept()
    ensures { PairsAreWhatIsKept }
{}

/// An index fails exactly where the value of its item is bad, or is kept and refused.
pub fn fails_are_what_fails()
    ensures { FailsAreWhatFails }
{}

/// The kept pairs of a range are those of its items alone.
pub fn pairs_stand_by_range()
    ensures { PairsStandByRange }
{}

/// A fold of one value more is the fold's next step.
pub fn folds_go_from_the_left()
    ensures { FoldsGoFromTheLeft }
{}

/// The numbers of the folds are those of the whole list, up to 2^128 - 1.
pub fn folds_count_and_add()
    ensures { FoldsCountAndAdd }
{}

/// The text of a join has the separator between each two values, and nowhere else.
pub fn joins_separate()
    ensures { JoinsSeparate }
{}

/// The greatest is one of the values, and below none of them.
pub fn greatest_is_greatest()
    ensures { GreatestIsGreatest }
{}

/// A tally has each distinct value once, ascending, with the number of times that it came.
pub fn tallies_count()
    ensures { TalliesCount }
{}

/// Sorted values are the same values, ascending by bytes.
pub fn sorted_values_ascend()
    ensures { SortedValuesAscend }
{}
