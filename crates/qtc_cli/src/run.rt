ghost use Rattle.std.specs.Prelude.{◌≡◌, ◌≤◌, None, map, string_bytes, IfOk, IfErr, IfSome};
ghost use Rattle.qtc_job_file.specs.Lawful.{Lawful};
ghost use Rattle.qtc_cli.specs.Endings.{IsRefused};
ghost use Rattle.qtc_cli.specs.Forms.{IsWorkerCount};
ghost use Rattle.qtc_cli.specs.Run.{IsRunOf, RunStops, RunEnds, IsCall, workers_of};
ghost use Rattle.qtc_cli.specs.Seen.{seen};

use crate::check::check_named;
use crate::command_forms::{Task, command_of};
use crate::endings::{refuse, write_text};
use crate::refusals::Refusal;
use qtc_base::Bytes;
use qtc_job::files_that_are_read_are_lawful;
use qtc_job_file::JobFile;
use qtc_load::{load_file, load_texts};
use qtc_outside::{Gate, Sink, Texts};
use qtc_run::{Report, good_runs_finish, is_runnable, report_text, run_file};
use std::alloc::Global;
use std::sync::Wait;
use std::thread::Threads;

/// How a call of the program ended.
#[derive(Drop)]
pub struct Ended {
    /// 0 where all was written, and 1 where a job failed too; else why not: 2 usage, 3 bad job file, 4 read
    /// fault, 5 write fault, 6 out of memory, 7 too large, 8 not yet.
    pub status: u8,
    /// What was reported, where the text of a report was formed.
    pub report: Option<Report>,
}

/// What a run forms before it writes.
#[derive(Drop)]
struct Formed {
    report: Report,
    text: Bytes,
}

/// How many workers run a file: as many as the words say, else as many as the file says.
fn workers_of(words: Option<u32>, file: &JobFile) -> u32
    requires words { IfSome words IsWorkerCount }
    requires file { Lawful file.now }
    ensures is { result ≡ workers_of words file.now }
    ensures few { IsWorkerCount result }
{
    words.unwrap_or(file.workers)
}

/// Loads the job file and the texts that it names, runs its jobs by so many workers, or by as many as the file says, and
/// forms the report.
fn form_run<T: Texts, G: Gate, R: Threads + Wait + Sync>(
    rt: &R,
    alloc: Global,
    name: &[u8],
    workers: Option<u32>,
    texts: &mut T,
    gate: &G,
) -> Result<Formed, Refusal>
    requires { IfSome workers IsWorkerCount }
    ensures ok { IfOk result (λ f.
        IsRunOf name.now workers (T.source texts.old) f.report f.text (T.source texts.new)) }
    ensures err { IfErr result (λ refusal. RunStops name.now (T.source texts.old) refusal (T.source texts.new)) }
{
    let file = load_file(alloc, texts, name)?;
    if !is_runnable(&file) {
        return Err(Refusal::NotYet);
    }
    let loaded = load_texts(alloc, texts, &file)?;
    let workers = workers_of(workers, &file);
    let report = match run_file(alloc, rt, &file, &loaded, workers, gate) {
        Ok(report) => report,
        Err(fault) => return Err(Refusal::from(fault)),
    };
    let text = report_text(alloc, &file, &report)?;
    Ok(Formed { report, text })
}

/// Runs the job file under a name by so many workers, or by as many as the file says, and writes its report.
fn run_named<T: Texts, S: Sink, E: Sink, G: Gate, R: Threads + Wait + Sync>(
    rt: &R,
    alloc: Global,
    name: &[u8],
    workers: Option<u32>,
    texts: &mut T,
    out: &mut S,
    err: &mut E,
    gate: &G,
) -> Ended
    requires { IfSome workers IsWorkerCount }
    ensures { RunEnds name.now workers (T.source texts.old) (T.source texts.new) (S.intake out.old)
        (S.intake out.new) (E.intake err.old) (E.intake err.new) result.status result.report }
{
    match form_run(rt, alloc, name, workers, texts, gate) {
        Ok(formed) => {
            let done = if formed.report.has_failed() { 1 } else { 0 };
            Ended {
                status: write_text(alloc, formed.text.as_slice(), done, out, err),
                report: Some(formed.report),
            }
        }
        Err(refusal) => Ended::refused(alloc, refusal, err),
    }
}

impl Ended {
    /// Tells a refusal.
    fn refused<E: Sink>(alloc: Global, refusal: Refusal, err: &mut E) -> Ended
        ensures told { IsRefused refusal result.status (E.intake err.old) (E.intake err.new) }
        ensures no_report { result.report ≡ None }
    {
        Ended {
            status: refuse(alloc, refusal, err),
            report: None,
        }
    }
}

/// Runs the words after the program's name: `run JOB` runs a job file over the texts that it names and writes the
/// report of each job to `out`, `run --workers N JOB` the same by N workers in the place of as many as the file says,
/// and `check JOB` is `check_words`. Where not all was written, one line to `err` says why; faults of `err` change
/// nothing else.
pub fn run_words<T: Texts, S: Sink, E: Sink, G: Gate, R: Threads + Wait + Sync>(
    rt: &R,
    alloc: Global,
    words: &[String],
    texts: &mut T,
    out: &mut S,
    err: &mut E,
    gate: &G,
) -> Ended
    ensures { IsCall (seen (map string_bytes words.now) (T.source texts.old) (T.source texts.new) (S.intake out.old)
        (S.intake out.new) (E.intake err.old) (E.intake err.new) result.status) result.report }
{
    let Some(command) = command_of(words) else {
        return Ended::refused(alloc, Refusal::Usage, err);
    };
    match command.task {
        Task::Check => Ended {
            status: check_named(alloc, command.job, texts, out, err),
            report: None,
        },
        Task::Run(workers) => {
            // The proof has from these laws that no job of a file that was read fails where nothing stops its run.
            files_that_are_read_are_lawful();
            good_runs_finish();
            run_named(rt, alloc, command.job, workers, texts, out, err, gate)
        }
    }
}

#[cfg(test)]
mod tests;
