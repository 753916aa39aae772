ghost use Rattle.std.specs.Prelude.{◌≡◌, ℕ, Bool, false, List, IsTrue, IfOk, OnOk, OnErr, IsErrOf};

use crate::ItemFault;
use qtc_base::{Bytes, NoMemory};
use std::alloc::Global;

/// What a reduction makes of the kept values, one after the other.
pub trait Fold: Sync {
    /// What is kept from value to value.
    type Acc: Send;

    // the accumulator before the first value
    ghost first: { Self → Self.Acc };

    // the accumulator after one more value
    ghost next: { Self → Self.Acc → List ℕ → Self.Acc };

    // whether the fold refuses a value, whatever came before it
    ghost bad: { Self → List ℕ → Bool };

    // the text of an accumulator
    ghost shown: { Self → Self.Acc → List ℕ };

    /// The accumulator before the first value. Err is want of memory.
    fn start(&self, alloc: Global) -> Result<Self::Acc, NoMemory>
        ensures { IfOk result (λ acc. acc ≡ first self.now) };

    /// Takes one more value. An Err leaves the accumulator as it was.
    fn step(&self, acc: &mut Self::Acc, value: &[u8]) -> Result<(), ItemFault>
        ensures ok { OnOk result (acc.new ≡ next self.now acc.old value.now) }
        ensures taken { OnOk result (bad self.now value.now ≡ false) }
        ensures refused { IsErrOf result ItemFault.Bad → IsTrue (bad self.now value.now) }
        ensures err { OnErr result (acc.new ≡ acc.old) };

    /// The text of an accumulator. Err is want of memory.
    fn text(&self, alloc: Global, acc: &Self::Acc) -> Result<Bytes, NoMemory>
        ensures { IfOk result (λ text. text ≡ shown self.now acc.now) };
}
