ghost use Rattle.std.specs.Prelude.{◌≡◌, [], true, IfOk, if◌then◌else◌};
ghost use Rattle.qtc_future.specs.Future.{events_of, journal_of};
ghost use Rattle.qtc_run.specs.Laws.{IsMadeOf};
ghost use Rattle.qtc_run.specs.Outputs.{is_canceled_end};
ghost use Rattle.qtc_run.specs.Reports.{is_keep};
ghost use Rattle.qtc_run.specs.Rounds.{HasDone, IsEngineFor, IsReady, IsReportFor, kind_with};

use crate::JobReport;
use crate::laws::worked_jobs_are_reported;
use crate::rounds::RoundJob;
use qtc_base::{Bytes, List, NoMemory};
use qtc_events::{Entry, Event};
use qtc_future::{FutureCore, Outcome};
use qtc_job_file::Job;
use qtc_kernel::{Engine, Finished, Kind};
use qtc_ops::{FoldOp, ItemFn, ItemOp};
use qtc_outside::Gate;
use std::alloc::Global;
use std::sync::Wait;

/// What an engine makes of the items of an operation, without a fold.
pub fn kind_of(op: &ItemOp) -> Kind
    ensures { result ≡ kind_with (is_keep op.now) true }
{
    match op {
        ItemOp::Map(_) => Kind::Mapped,
        ItemOp::Keep { .. } => Kind::Filtered,
    }
}

/// The journal of a future.
fn journal_of(alloc: Global, future: &FutureCore<Bytes>) -> Result<List<Entry>, NoMemory>
    ensures { IfOk result (λ journal. journal ≡ journal_of future.now) }
{
    let journal = Vec::from_slice(alloc, future.journal())?;
    Ok(List::from_vec(journal))
}

/// The events of a future that is watched; else none.
fn events_of(
    alloc: Global,
    future: &FutureCore<Bytes>,
    watch: bool,
) -> Result<List<Event>, NoMemory>
    ensures { IfOk result (λ events. events ≡ (if watch then events_of future.now else [])) }
{
    if !watch {
        return Ok(List::new(alloc));
    }
    let events = Vec::from_slice(alloc, future.events())?;
    Ok(List::from_vec(events))
}

/// Whether an outcome is that the job was canceled.
fn is_canceled(ended: &Outcome<Bytes>) -> bool
    ensures { result ≡ is_canceled_end ended.now }
{
    match ended {
        Outcome::Canceled => true,
        Outcome::Values(_) | Outcome::Failed(_) => false,
    }
}

/// What is reported of a job with this future, whose functions were called on these indexes.
fn report_from(
    alloc: Global,
    job: &Job,
    future: FutureCore<Bytes>,
    calls: List<u32>,
) -> Result<JobReport, NoMemory>
    ensures made { IfOk result (λ report. IsMadeOf job.now report future) }
    ensures calls { IfOk result (λ report. report.calls ≡ calls) }
{
    let journal = journal_of(alloc, &future)?;
    let events = events_of(alloc, &future, job.watch)?;
    let ended = future.into_outcome()?;
    Ok(JobReport {
        ended,
        partial: List::new(alloc),
        order: None,
        any: None,
        calls,
        journal,
        events,
    })
}

/// Closes the engine of a job, and says what became of it.
///
/// No caller cancels a job that is run so far. So one that was canceled wanted memory, and so does this call.
pub fn report_of<F: ItemFn + Drop, G: Gate, R: Wait>(
    alloc: Global,
    rt: &R,
    source: &RoundJob<'_>,
    engine: Engine<'_, F, FoldOp, G>,
    done: Finished<F>,
    workers: u32,
) -> Result<JobReport, NoMemory>
    requires ready { IsReady source.now }
    requires engine { IsEngineFor F.value workers source.now engine }
    requires done { HasDone F.value engine done }
    ensures { IfOk result (IsReportFor source.now) }
{
    let Finished {
        pass,
        calls,
        functions: _,
    } = done;
    let future = engine.close(rt, pass);
    let report = report_from(alloc, source.job, future, calls)?;
    if is_canceled(&report.ended) {
        return Err(NoMemory);
    }
    // The proof has from this law that what follows is a report.
    worked_jobs_are_reported();
    Ok(report)
}
