ghost use Rattle.std.specs.Prelude.{◌≡◌, ℕ, List};
ghost use Rattle.qtc_ops.specs.ItemValue.{ItemValue, Answers, listed};

use crate::ItemFault;
use qtc_base::Bytes;

/// What is done with each item of a job: it maps the item, drops it or refuses it, and lists its calls.
pub trait ItemFn: Send {
    // the value of an item
    ghost value: { Self → List ℕ → ItemValue };

    // the indexes called so far
    ghost called: { Self → List ℕ };

    /// The value of the item at `index`: Some is its kept text, None says that it is dropped. The call is
    /// listed, whatever it answers but `Memory`.
    fn apply(&mut self, index: u32, item: &[u8]) -> Result<Option<Bytes>, ItemFault>
        ensures by_value { Answers (value self.old item.now) result }
        ensures called { called self.new ≡ listed (called self.old) index result }
        ensures value_stays { value self.new ≡ value self.old };

    /// The indexes called so far, in order.
    fn calls(&self) -> &[u32]
        ensures { result.now ≡ called self.now };
}
