//! Reductions: blocks of kept values are folded one after the other into one accumulator, which is with one worker at a time.
#![tactic(auto)]

mod answers;
mod blocks;
mod laws;
mod places;
mod reduce_core;

pub use answers::{Folded, Next, Offer};
pub use blocks::{Block, Kept};
pub use laws::{all_is_folded, folds_are_told};
pub use reduce_core::ReduceCore;
