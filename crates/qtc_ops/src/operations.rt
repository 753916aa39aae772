use crate::Pred;

/// What a job makes of each item.
#[derive(Clone, Copy, Debug, PartialEq, Eq)]
pub enum MapOp {
    /// The item itself.
    Same,
    /// The number of the item's bytes, in decimal.
    Length,
    /// SHA-256 of the item, as 64 lower-case hexadecimal digits (FIPS 180-4).
    Digest,
    /// The field of this number, from 1: the maximal runs of bytes other than space and tab are the fields.
    /// The empty text where the item has fewer.
    Field(u32),
    /// The number that the item spells, without leading zeros; bad exactly where it isn't 1 to
    /// `NUMBER_DIGITS` decimal digits.
    Number,
}

/// The item function of a job.
#[derive(Drop)]
pub enum ItemOp {
    /// Each item becomes its value.
    Map(MapOp),
    /// An item is its own value where the predicate keeps it, or with `not` where it doesn't.
    Keep { not: bool, pred: Pred },
}
