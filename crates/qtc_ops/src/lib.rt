//! The operations of jobs: what an item function makes of an item, what a fold makes of the kept values, and
//! what a list operation makes of a list of values.
#![tactic(auto)]

mod accumulators;
mod copies;
mod fields;
mod fold_ops;
mod folds;
mod item_faults;
mod item_fns;
mod laws;
mod list_ops;
mod literals;
mod maps;
mod numbers;
mod op_fns;
mod operations;
mod predicates;
mod prepared;
mod tallies;
mod texts;
mod wildcards;

pub use accumulators::FoldAcc;
pub use fold_ops::FoldOp;
pub use folds::Fold;
pub use item_faults::ItemFault;
pub use item_fns::ItemFn;
pub use laws::{
    digits_are_numbers, fails_are_what_fails, folds_count_and_add, folds_go_from_the_left,
    greatest_is_greatest, joins_separate, pairs_are_what_is_kept, pairs_stand_by_range,
    patterns_match_part_by_part, sorted_values_ascend, tallies_count, tests_decide_predicates,
};
pub use list_ops::{ListOp, apply_list};
pub use numbers::NUMBER_DIGITS;
pub use op_fns::OpFn;
pub use operations::{ItemOp, MapOp};
pub use predicates::Pred;
pub use tallies::Counts;
pub use texts::TextSoFar;
