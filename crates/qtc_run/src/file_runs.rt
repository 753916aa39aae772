ghost use Rattle.std.specs.Prelude.{◌≡◌, ◌≤◌, length, IsTrue, All, IfOk, IfErr};
ghost use Rattle.qtc_base.specs.Items.{PassesLimit};
ghost use Rattle.qtc_base.specs.Limits.{most_workers};
ghost use Rattle.qtc_job_file.specs.Laws.{IsBounded};
ghost use Rattle.qtc_job_file.specs.Lawful.{Lawful};
ghost use Rattle.qtc_run.specs.Loaded.{HasAll};
ghost use Rattle.qtc_run.specs.Outputs.{AreReports, IsPoolRun};
ghost use Rattle.qtc_run.specs.Pairing.{EachPair};
ghost use Rattle.qtc_run.specs.Rounds.{IsReady, IsSourceOf};
ghost use Rattle.qtc_run.specs.Runnable.{are_runnable};
ghost use Rattle.qtc_run.specs.Sources.{items_of_all, names_of_all, outcomes_of};
ghost use Rattle.qtc_run.specs.Sums.{RefusesRun, items_of_run};

use crate::rounds::{RoundJob, run_round};
use crate::sizes::Size;
use crate::sources::items_from;
use crate::sums::sizes_of;
use crate::{Loaded, Report, RunFault};
use qtc_base::NoMemory;
use qtc_job_file::{JobFile, lawful_files_are_bounded};
use qtc_outside::Gate;
use std::alloc::Global;
use std::sync::Wait;
use std::thread::Threads;

/// The jobs of a file, each with its items, whose sizes were counted.
fn sources_of<'j>(
    alloc: Global,
    file: &'j JobFile,
    loaded: &Loaded,
    sizes: &[Size],
) -> Result<Vec<RoundJob<'j>>, NoMemory>
    requires bounded { IsBounded file.now }
    requires runnable { IsTrue (are_runnable file.now.jobs) }
    requires loaded { HasAll loaded.now (names_of_all file.now.jobs) }
    requires sizes { length sizes.now ≡ length file.now.jobs }
    requires fits { ¬ PassesLimit (items_of_all loaded.now file.now.jobs) }
    ensures sources { IfOk result (λ sources. EachPair (IsSourceOf loaded.now) file.now.jobs sources.items) }
    ensures ready { IfOk result (λ sources. All IsReady sources.items) }
{
    let jobs = file.jobs.as_slice();
    let mut sources = Vec::new(alloc);
    for (place, job) in jobs.iter().enumerate() {
        sources.push(RoundJob {
            place: place as u32,
            job,
            items: items_from(alloc, &job.input, loaded, sizes[place])?,
        })?;
    }
    Ok(sources)
}

/// Runs the jobs of a file over loaded texts by so many workers, and enters the gate just before each call of a job's
/// function.
///
/// All jobs are worked on at once: each has an engine, and the workers of one pool take their tasks by the jobs'
/// priorities. (After Qt Concurrent's engines on QThreadPool.) The items of all jobs are counted first, from the lengths
/// of the texts: with the first job whose items take those so far past a limit the answer is `TooLarge`, and no function
/// is called.
pub fn run_file<G: Gate, R: Threads + Wait + Sync>(
    alloc: Global,
    rt: &R,
    file: &JobFile,
    loaded: &Loaded,
    workers: u32,
    gate: &G,
) -> Result<Report, RunFault>
    requires lawful { Lawful file.now }
    requires runnable { IsTrue (are_runnable file.now.jobs) }
    requires loaded { HasAll loaded.now (names_of_all file.now.jobs) }
    requires workers { (1 ≤ workers) × (workers ≤ most_workers) }
    ensures reports { IfOk result (λ report. AreReports loaded.now file.now.jobs report.jobs) }
    ensures pool { IfOk result (λ report. IsPoolRun workers report.pool) }
    ensures number { IfOk result (λ report. length report.jobs ≡ length file.now.jobs) }
    ensures fits { IfOk result (λ report.
        ¬ PassesLimit (items_of_run loaded.now file.now.jobs (outcomes_of report.jobs))) }
    ensures too_large { IfErr result (RefusesRun loaded.now file.now.jobs) }
{
    // The proof has from this law that the items can be counted, and taken in blocks.
    lawful_files_are_bounded();
    let sizes = sizes_of(alloc, file.jobs.as_slice(), loaded)?;
    let sources = sources_of(alloc, file, loaded, &sizes)?;
    let report = run_round(alloc, rt, &sources, workers, gate)?;
    Ok(report)
}
