use crate::maps::hex_bytes;
use crate::numbers::decimal_bytes;
use crate::{Counts, TextSoFar};
use qtc_base::{Bytes, NoMemory};
use sha2::{Digest, Sha256};
use std::alloc::Global;

/// What a `FoldOp` keeps from value to value.
#[derive(Drop)]
pub enum FoldAcc {
    /// A number, at most 2^128 - 1.
    Number(u128),
    /// The joined or the greatest text, or none before the first value.
    Text(TextSoFar),
    /// The digest of the chain so far.
    Digest([u8; 32]),
    /// How often each value came.
    Counts(Counts),
}

/// One step of each kind; an accumulator of another kind stays as it is.
impl FoldAcc {
    ghost use Rattle.std.specs.Prelude.{◌≡◌, IfOk, OnOk, OnErr};
    ghost use Rattle.qtc_ops.specs.Folds.{added, joined, chained, raised, tallied, shown_of};

    pub(crate) fn add(&mut self, more: u128)
        ensures { self.new ≡ added self.old more }
    {
        if let FoldAcc::Number(total) = self {
            *total = total.saturating_add(more);
        }
    }

    pub(crate) fn join(&mut self, separator: &[u8], value: &[u8]) -> Result<(), NoMemory>
        ensures ok { OnOk result (self.new ≡ joined self.old separator.now value.now) }
        ensures err { OnErr result (self.new ≡ self.old) }
    {
        match self {
            FoldAcc::Text(text) => text.join(separator, value),
            _ => Ok(()),
        }
    }

    pub(crate) fn chain(&mut self, value: &[u8])
        ensures { self.new ≡ chained self.old value.now }
    {
        if let FoldAcc::Digest(digest) = self {
            let mut hasher = Sha256::new();
            hasher.update(digest.as_slice());
            hasher.update(value);
            *digest = hasher.finalize();
        }
    }

    pub(crate) fn raise(&mut self, value: &[u8]) -> Result<(), NoMemory>
        ensures ok { OnOk result (self.new ≡ raised self.old value.now) }
        ensures err { OnErr result (self.new ≡ self.old) }
    {
        match self {
            FoldAcc::Text(text) => text.raise(value),
            _ => Ok(()),
        }
    }

    pub(crate) fn tally(&mut self, value: &[u8]) -> Result<(), NoMemory>
        ensures ok { OnOk result (self.new ≡ tallied self.old value.now) }
        ensures err { OnErr result (self.new ≡ self.old) }
    {
        match self {
            FoldAcc::Counts(counts) => counts.add(value),
            _ => Ok(()),
        }
    }

    pub(crate) fn text(&self, alloc: Global) -> Result<Bytes, NoMemory>
        ensures { IfOk result (λ text. text ≡ shown_of self.now) }
    {
        match self {
            FoldAcc::Number(total) => decimal_bytes(alloc, *total),
            FoldAcc::Text(text) => Bytes::from_slice(alloc, text.as_slice()),
            FoldAcc::Digest(digest) => hex_bytes(alloc, digest),
            FoldAcc::Counts(counts) => counts.text(alloc),
        }
    }
}
