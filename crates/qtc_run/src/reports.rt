ghost use Rattle.std.specs.Prelude.{◌≡◌};
ghost use Rattle.qtc_run.specs.Outputs.{is_unfinished as is_unfinished_end};

use qtc_base::{Bytes, List, NoMemory};
use qtc_events::{Entry, Event};
use qtc_future::Outcome;
use qtc_pool_core::PoolEntry;

/// A result of a canceled job: its index, or in a filter its position, and its value.
#[derive(Drop)]
pub struct Placed {
    pub index: u32,
    pub value: Bytes,
}

/// What is reported of a job.
#[derive(Drop)]
pub struct JobReport {
    /// Its values, the item that failed, or that it was canceled.
    pub ended: Outcome<Bytes>,
    /// What a canceled job had accepted, by ascending index.
    pub partial: List<Placed>,
    /// In which order the blocks of an unordered reduction were folded, each by its first index.
    pub order: Option<List<u32>>,
    /// Which of the jobs that an `input any` names gave its items, from 0.
    pub any: Option<u32>,
    /// The indexes that its functions were called on, worker by worker.
    pub calls: List<u32>,
    /// The calls on its future that had an effect, in order.
    pub journal: List<Entry>,
    /// The events of a job that is watched, in order.
    pub events: List<Event>,
}

/// What is reported of a run.
#[derive(Drop)]
pub struct Report {
    /// Its jobs, in the order of the file.
    pub jobs: List<JobReport>,
    /// What the pool did, in order: a job at the place J is begun by the task with the id 32 J, and the worker that its
    /// worker in slot S - 1 calls is the task with the id 32 J + S.
    pub pool: List<PoolEntry>,
}

/// Why a run has no report.
#[derive(Clone, Copy, Debug, PartialEq, Eq)]
pub enum RunFault {
    /// With the job at this place, from 0, the items of the jobs so far pass a limit of `Items`; these are their
    /// number and their bytes.
    TooLarge { job: u32, items: u64, bytes: u64 },
    /// Want of memory.
    Memory,
}

impl From<NoMemory> for RunFault {
    ghost use Rattle.std.specs.Prelude.{◌≡◌};
    ghost use Rattle.qtc_run.specs.declared.reports.RunFault.TheVariants.{Memory};

    ghost from_gives = { λ _ fault. fault ≡ Memory };

    fn from(_fault: NoMemory) -> RunFault {
        RunFault::Memory
    }
}

/// Whether a job has no values.
fn is_unfinished(ended: &Outcome<Bytes>) -> bool
    ensures { result ≡ is_unfinished_end ended.now }
{
    match ended {
        Outcome::Values(_) => false,
        Outcome::Failed(_) | Outcome::Canceled => true,
    }
}

impl Report {
    ghost use Rattle.qtc_run.specs.Outputs.{has_failed as has_failed_job};

    /// Whether a job of the run failed or was canceled.
    pub fn has_failed(&self) -> bool
        ensures { result ≡ has_failed_job self.now }
    {
        self.jobs
            .as_slice()
            .iter()
            .any(|job| is_unfinished(&job.ended))
    }
}
