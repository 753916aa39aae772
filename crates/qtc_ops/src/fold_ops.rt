ghost use Rattle.std.specs.Prelude.{◌≡◌};

use crate::numbers::read_number;
use crate::{Counts, Fold, FoldAcc, ItemFault, TextSoFar};
use qtc_base::{Bytes, NoMemory};
use std::alloc::Global;

/// The fold that a job names.
#[derive(Drop)]
pub enum FoldOp {
    /// How many values there are, in decimal.
    Count,
    /// How many bytes they have together, in decimal.
    Size,
    /// Their sum as numbers, in decimal; bad exactly where a value isn't 1 to `NUMBER_DIGITS` decimal digits.
    Sum,
    /// The values one after the other, with this separator between them.
    Join(Bytes),
    /// From 32 zero bytes, SHA-256 of the bytes so far and the next value (FIPS 180-4), as 64 lower-case
    /// hexadecimal digits.
    Chain,
    /// The greatest by bytes, where a front of a value is less than the value; the empty text for no value.
    Greatest,
    /// `VALUE=COUNT` for each distinct value, ascending by bytes, parted by `;`.
    Tally,
}

/// Numbers stop at 2^128 - 1. An accumulator that another fold began stays as it is.
impl Fold for FoldOp {
    ghost use Rattle.qtc_ops.specs.Folds.{first_of, next_of, is_bad, shown_of};

    type Acc = FoldAcc;

    ghost first = { first_of };

    ghost next = { next_of };

    ghost bad = { is_bad };

    ghost shown = { λ _ acc. shown_of acc };

    fn start(&self, alloc: Global) -> Result<FoldAcc, NoMemory> {
        Ok(match self {
            FoldOp::Count | FoldOp::Size | FoldOp::Sum => FoldAcc::Number(0),
            FoldOp::Join(_) | FoldOp::Greatest => FoldAcc::Text(TextSoFar::new(alloc)),
            FoldOp::Chain => FoldAcc::Digest([0; 32]),
            FoldOp::Tally => FoldAcc::Counts(Counts::new(alloc)),
        })
    }

    fn step(&self, acc: &mut FoldAcc, value: &[u8]) -> Result<(), ItemFault> {
        match self {
            FoldOp::Count => {
                acc.add(1);
                Ok(())
            }
            FoldOp::Size => {
                acc.add(value.len() as u128);
                Ok(())
            }
            FoldOp::Sum => match read_number(value) {
                Some(number) => {
                    acc.add(number);
                    Ok(())
                }
                None => Err(ItemFault::Bad),
            },
            FoldOp::Join(separator) => Ok(acc.join(separator.as_slice(), value)?),
            FoldOp::Chain => {
                acc.chain(value);
                Ok(())
            }
            FoldOp::Greatest => Ok(acc.raise(value)?),
            FoldOp::Tally => Ok(acc.tally(value)?),
        }
    }

    fn text(&self, alloc: Global, acc: &FoldAcc) -> Result<Bytes, NoMemory> {
        acc.text(alloc)
    }
}
