use qtc_base::{Bytes, List, Range};

/// A value that was kept, with the index of its item.
#[derive(Drop)]
pub struct Kept {
    pub index: u32,
    pub value: Bytes,
}

/// The kept values of a range of indexes, by ascending index.
#[derive(Drop)]
pub struct Block {
    pub range: Range,
    pub kept: List<Kept>,
}
