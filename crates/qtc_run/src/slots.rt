//! The tasks of the pool: which worker of which job.
ghost use Rattle.qtc_base.specs.Limits.{most_jobs, most_workers};
ghost use Rattle.std.specs.Prelude.{MatchOption, ◌≡◌, ◌+◌, ◌*◌, ◌<◌, ◌≤◌};

use crate::workers::Worker;
use qtc_base::NoMemory;
use qtc_pool::{Becomes, Pool};
use qtc_pool_core::StartFault;
use std::sync::Wait;

/// A worker's slot at a job: the job's place in the file, the slot's number, and the job's priority.
#[derive(Clone, Copy)]
pub(crate) struct Slot {
    job: u32,
    slot: u32,
    priority: i32,
    workers: u32,
    ghost few: { (job < most_jobs) × (slot < workers) × (workers ≤ most_workers) },
}

impl Slot {
    /// The first slot of a job that is worked on by so many workers.
    pub fn first(job: u32, priority: i32, workers: u32) -> Slot
        requires few { job < most_jobs }
        requires workers { (1 ≤ workers) × (workers ≤ most_workers) }
        ensures job { result.job ≡ job }
        ensures slot { result.slot ≡ 0 }
        ensures priority { result.priority ≡ priority }
        ensures workers { result.workers ≡ workers }
    {
        Slot {
            job,
            slot: 0,
            priority,
            workers,
        }
    }

    /// The place of the job in the file.
    pub fn job(&self) -> usize
        ensures { result ≡ self.now.job }
    {
        self.job as usize
    }

    /// The id of the task: 32 times the job's place, and the slot's number.
    fn id(&self) -> u32
        ensures { result ≡ 32 * self.now.job + self.now.slot }
    {
        32 * self.job + self.slot
    }

    /// The next slot of the job, where there is one.
    fn next(&self) -> Option<Slot>
        ensures { MatchOption result (self.now.workers ≤ self.now.slot + 1)
            (λ next. (next.job ≡ self.now.job) × (next.slot ≡ self.now.slot + 1)
            × (next.priority ≡ self.now.priority) × (next.workers ≡ self.now.workers)) }
    {
        if self.slot + 1 < self.workers {
            return Some(Slot {
                job: self.job,
                slot: self.slot + 1,
                priority: self.priority,
                workers: self.workers,
            });
        }
        None
    }

    /// Queues the slot with the job's priority. Err is want of memory.
    pub fn start<R: Wait>(self, rt: &R, pool: &Pool<Slot>) -> Result<(), NoMemory> {
        match pool.start(rt, self.id(), self.priority, self) {
            Ok(()) => Ok(()),
            Err(StartFault::Memory(_slot)) => Err(NoMemory),
            // No two slots of a run have one id, and finishing the engine does what no task did.
            Err(StartFault::SameId(_slot)) => Ok(()),
        }
    }

    /// Queues the next slot, where there is one. Where it is refused, the workers that there are do its work.
    pub fn start_next<R: Wait>(&self, rt: &R, pool: &Pool<Slot>) {
        if let Some(next) = self.next() {
            let _refused = next.start(rt, pool);
        }
    }
}

/// A task leaves a worker the desks that it has, each of its own engine.
impl<P> Becomes<Worker<P>> for Slot {
    ghost use Rattle.std.specs.Prelude.{◌≡◌};
    ghost use Rattle.std.proofs.Common.{refl, ◌∙◌};

    ghost becomes = { λ old new. new ≡ old };

    ghost stays = { λ desk. refl };

    ghost goes_on = { λ before between after first second. second ∙ first };
}
