//! What stands in the queue, and what the maker of a queue says of it.
use qtc_base as base;
use qtc_claim::Piece;

/// A piece, with the values that are kept of its range.
#[derive(Drop)]
pub struct Entry<V> {
    pub piece: Piece,
    pub values: base::List<V>,
}

/// What is made of the item at an index: a value, nothing that is kept, or nothing because the item is bad. No value of it
/// is made.
pub enum Cell<V> {
    Kept(V),
    Absent,
    Bad,
}
