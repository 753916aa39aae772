ghost use Rattle.std.specs.Prelude.{◌≡◌, ◌≤◌, Some, None};
ghost use Rattle.qtc_outside.specs.Shelf.{text_under};

use crate::fault_plan::FaultPlan;
use crate::shelf::Shelf;
use crate::{Failed, Texts};
use qtc_base::{Bytes, List};

/// Texts in memory, which give few bytes at a time and fail at calls of one's choice.
#[derive(Drop)]
pub struct MemTexts {
    shelf: Shelf,
    plan: FaultPlan,
    most: usize,
    taken: u64,
    chosen: Option<Bytes>,
    blamed: Option<Bytes>,
    ghost some: { 1 ≤ most },
}

impl MemTexts {
    ghost use Rattle.qtc_outside.specs.MemTexts.{IsFresh};

    /// Pairs of name and text, of which the first with a name counts. A read gives at most `most` bytes, and
    /// the calls of `choose` and `read` whose numbers, from 0, stand in `fails` fail.
    pub fn new(texts: List<(Bytes, Bytes)>, most: usize, fails: List<u64>) -> MemTexts
        requires { 1 ≤ most }
        ensures { IsFresh texts most fails result }
    {
        MemTexts {
            shelf: Shelf::new(texts),
            plan: FaultPlan::new(fails),
            most,
            taken: 0,
            chosen: None,
            blamed: None,
        }
    }
}

impl Texts for MemTexts {
    ghost use Rattle.std.specs.Prelude.{◌≡◌, ◌<◌, ◌↔◌, length, Some, IsSome, IsErr, OnOk, OnErr, IfOk};
    ghost use Rattle.qtc_outside.specs.Counts.{faults_after};
    ghost use Rattle.qtc_outside.specs.Source.{Chooses, Faults, Gives};
    ghost use Rattle.qtc_outside.specs.MemTexts.{texts_source, give_len, ChooseFails, ReadFails, IsCallAfter};

    ghost source = { texts_source };

    fn choose(&mut self, name: Bytes) -> Result<(), Failed>
        ensures ok { OnOk result (Chooses (texts_source self.old) name (texts_source self.new)) }
        ensures err { OnErr result (Faults (texts_source self.old) (Some name) (texts_source self.new)) }

        // What the trait leaves open: when a call fails.
        ensures fails { IsErr result ↔ ChooseFails self.old name }
        ensures call { IsCallAfter self.old (faults_after self.old.plan.faults result) self.new }
    {
        let fails = self.plan.next_fails();
        if !self.shelf.open(name.as_slice()) || fails {
            self.plan.count_fault();
            self.chosen = None;
            self.blamed = Some(name);
            return Err(Failed);
        }
        self.chosen = Some(name);
        Ok(())
    }

    fn read(&mut self, into: &mut [u8]) -> Result<usize, Failed>
        requires room { 0 < length into.old }
        requires some_chosen { IsSome (texts_source self.old).chosen }
        ensures ok { IfOk result (λ count. Gives (texts_source self.old) into.new count (texts_source self.new)) }
        ensures err { OnErr result (Faults (texts_source self.old) (texts_source self.old).chosen (texts_source self.new)) }

        // What the trait leaves open: when a call fails, and how much it gives.
        ensures fails { IsErr result ↔ ReadFails self.old }
        ensures gives { IfOk result (λ count. count ≡ give_len self.old (length into.old)) }
        ensures call { IsCallAfter self.old (faults_after self.old.plan.faults result) self.new }
    {
        if self.plan.next_fails() {
            self.plan.count_fault();
            self.blamed = self.chosen.take();
            return Err(Failed);
        }
        let count = self.shelf.give(into, self.most);
        self.taken = self.taken.saturating_add(count as u64);
        if count == 0 {
            self.chosen = None;
        }
        Ok(count)
    }
}
