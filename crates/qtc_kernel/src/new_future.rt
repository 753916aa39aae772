//! The future of an engine as it begins.
ghost use Rattle.std.specs.Prelude.{◌≡◌, ◌≤◌, false, IfOk};
ghost use Rattle.qtc_base.specs.Limits.{most_workers};
ghost use Rattle.qtc_kernel.specs.EngineParts.{IsOpened};
ghost use Rattle.qtc_kernel.specs.OwnPasses.{is_reduced, plan_terms};

use crate::Kind;
use qtc_base::{Bytes, NoMemory};
use qtc_future::FutureCore;
use qtc_shared::{Pass, SharedFuture};
use std::alloc::Global;

/// A started future, and its passes.
#[derive(Drop)]
pub(crate) struct Opened {
    pub future: SharedFuture<Bytes>,
    /// Those of the workers, in order of their numbers.
    pub passes: Vec<Pass<Bytes>>,
    /// The one that reports for all of them.
    pub reporter: Pass<Bytes>,
    /// The caller's.
    pub caller: Pass<Bytes>,
}

/// Starts a future for so many workers, which share a board. Err is want of memory.
pub(crate) fn open_future(
    alloc: Global,
    kind: Kind,
    cancel_after: u32,
    suspend_after: u32,
    workers: u32,
) -> Result<Opened, NoMemory>
    requires workers { (1 ≤ workers) × (workers ≤ most_workers) }
    requires plain { is_reduced kind ≡ false }
    ensures { IfOk result (λ made. IsOpened (plan_terms kind cancel_after suspend_after workers) workers
        made.future made.passes.items made.reporter made.caller) }
{
    let mut core = FutureCore::new(alloc, kind.is_filter(), cancel_after, suspend_after)?;
    core.start(0);
    let (future, mut passes) = SharedFuture::from_core(alloc, core, workers + 1, workers + 2)?;
    let caller = passes.pop().unwrap();
    let reporter = passes.pop().unwrap();
    Ok(Opened {
        future,
        passes,
        reporter,
        caller,
    })
}
