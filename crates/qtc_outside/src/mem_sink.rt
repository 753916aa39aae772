ghost use Rattle.std.specs.Prelude.{◌≡◌, ◌≤◌, [], Some};

use crate::fault_plan::FaultPlan;
use crate::{Failed, Sink};
use qtc_base::{Bytes, List};
use std::alloc::Global;

/// A sink in memory, which takes few bytes at a time and fails at calls of one's choice. A growth that finds
/// no memory is one of its faults.
#[derive(Drop)]
pub struct MemSink {
    text: Bytes,
    plan: FaultPlan,
    most: usize,
    ghost some: { 1 ≤ most },
}

impl MemSink {
    ghost use Rattle.qtc_outside.specs.MemSink.{IsFreshSink, sink_intake};

    /// The empty sink. A write takes at most `most` bytes, and the writes whose numbers, from 0, stand in
    /// `fails` fail.
    pub fn new(alloc: Global, most: usize, fails: List<u64>) -> MemSink
        requires { 1 ≤ most }
        ensures { IsFreshSink most fails result }
    {
        MemSink {
            text: Bytes::new(alloc),
            plan: FaultPlan::new(fails),
            most,
        }
    }

    /// What was taken so far.
    pub fn text(&self) -> &[u8]
        ensures { (sink_intake self.now).got ≡ Some result.now }
    {
        self.text.as_slice()
    }
}

impl Sink for MemSink {
    ghost use Rattle.std.specs.Prelude.{◌≡◌, ◌<◌, length, IfOk, IsErr, OnErr};
    ghost use Rattle.qtc_outside.specs.Counts.{faults_after};
    ghost use Rattle.qtc_outside.specs.Intake.{TakesFront, TakesNothing};
    ghost use Rattle.qtc_outside.specs.MemSink.{sink_intake, take_len, IsPlanned, IsWriteAfter};

    ghost intake = { sink_intake };

    fn write(&mut self, piece: &[u8]) -> Result<usize, Failed>
        requires { 0 < length piece.now }
        ensures ok { IfOk result (λ count. TakesFront (sink_intake self.old) piece.now count (sink_intake self.new)) }
        ensures err { OnErr result (TakesNothing (sink_intake self.old) (sink_intake self.new)) }

        // What the trait leaves open: a planned call fails, want of memory fails another, and any other takes
        // all that it may.
        ensures planned { IsPlanned self.old → IsErr result }
        ensures most { IfOk result (λ count. count ≡ take_len self.old piece.now) }
        ensures call { IsWriteAfter self.old (faults_after self.old.plan.faults result) self.new }
    {
        if self.plan.next_fails() {
            self.plan.count_fault();
            return Err(Failed);
        }
        let count = piece.len().min(self.most);
        if self.text.append(&piece[..count]).is_err() {
            self.plan.count_fault();
            return Err(Failed);
        }
        Ok(count)
    }
}
