use crate::Block;
use qtc_base::{List, Range};

/// What an offer of a block is answered.
#[derive(Drop)]
pub enum Offer<A> {
    /// The block waits. It is true where more blocks wait than should: more than 30 for each worker.
    Stored(bool),
    /// The accumulator, for the caller to fold the block into; then it is given back.
    Yours(A, Block),
    /// A block was given back unfinished, so nothing is folded any more: the block is dropped.
    Closed,
}

/// What a giving back of the accumulator is answered.
#[derive(Drop)]
pub enum Next<A> {
    /// The accumulator is home.
    Done,
    /// The accumulator again, for the caller to fold the next block into.
    More(A, Block),
}

/// What a reduction comes to.
#[derive(Drop)]
pub struct Folded<A> {
    pub acc: A,
    /// The ranges of the folded blocks, in the order in which they were folded.
    pub ranges: List<Range>,
}
