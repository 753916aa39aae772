ghost use Rattle.std.specs.Prelude.{◌≡◌, []};
ghost use Rattle.qtc_ops.specs.Operations.{value_of};
ghost use Rattle.qtc_ops.specs.Prepared.{op_of};

use crate::prepared::Prepared;
use crate::{ItemFault, ItemFn, ItemOp};
use qtc_base::{Bytes, List};
use std::alloc::Global;

/// The item function that a job names.
#[derive(Drop)]
pub struct OpFn {
    alloc: Global,
    op: Prepared,
    calls: List<u32>,
}

impl OpFn {
    /// The item function of an operation, not called yet.
    pub fn new(alloc: Global, op: ItemOp) -> OpFn
        ensures value { ⟦<OpFn as ItemFn>⟧.value result ≡ value_of op }
        ensures called { ⟦<OpFn as ItemFn>⟧.called result ≡ [] }
    {
        OpFn {
            alloc,
            op: Prepared::new(op),
            calls: List::new(alloc),
        }
    }
}

impl ItemFn for OpFn {
    ghost value = { λ f. value_of (op_of f.op) };

    ghost called = { λ f. f.calls };

    fn apply(&mut self, index: u32, item: &[u8]) -> Result<Option<Bytes>, ItemFault> {
        let outcome = self.op.apply(self.alloc, item);
        if let Err(ItemFault::Memory) = outcome {
            return outcome;
        }
        if self.calls.push(index).is_err() {
            return Err(ItemFault::Memory);
        }
        outcome
    }

    fn calls(&self) -> &[u32] {
        self.calls.as_slice()
    }
}
