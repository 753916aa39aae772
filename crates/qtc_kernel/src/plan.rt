use crate::Kind;
use qtc_base::{Items, List};

/// What an engine is made for.
#[derive(Drop)]
pub struct Plan<'a, R> {
    /// What it makes of the items.
    pub kind: Kind,
    /// The items.
    pub items: &'a Items,
    /// The number that the gate is told.
    pub job: u32,
    /// How many workers there are, 1 to 32.
    pub workers: u32,
    /// The sizes of the blocks, which each worker takes in turn, over and over: 1 to 65,536 each.
    pub blocks: List<u32>,
    /// Whether a fold takes the blocks in the order of their indexes.
    pub ordered: bool,
    /// How many results, reported or accounted for, cancel the future; 0 is none.
    pub cancel_after: u32,
    /// How many suspend it; 0 is none.
    pub suspend_after: u32,
    /// What the kept texts are folded by: there is one exactly in the reduced kinds, which no engine is made for yet.
    pub fold: Option<&'a R>,
}
