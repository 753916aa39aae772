ghost use Rattle.std.specs.Prelude.{◌≡◌};
ghost use Rattle.qtc_run.specs.Runnable.{are_runnable, is_runnable as is_runnable_job, reads_texts as reads_texts_only};

use qtc_job_file::{Input, Job, JobFile};

/// Whether an input is of texts.
fn reads_texts(input: &Input) -> bool
    ensures { result ≡ reads_texts_only input.now }
{
    match input {
        Input::Lines(_) | Input::Files(_) | Input::Pieces(_, _) => true,
        Input::Job(_) | Input::All(_) | Input::Any(_) => false,
    }
}

/// Whether a job is a map or a filter of texts alone.
fn is_plain(job: &Job) -> bool
    ensures { result ≡ is_runnable_job job.now }
{
    reads_texts(&job.input)
        && job.fold.is_none()
        && job.cancel_after == 0
        && job.suspend_after == 0
        && !job.watch
        && job.chain.is_empty()
}

/// Whether every job of the file is one that is run so far: a map or a filter of texts, with no fold, no number of
/// items to stop after, no watcher and no chain.
pub fn is_runnable(file: &JobFile) -> bool
    ensures { result ≡ are_runnable file.now.jobs }
{
    file.jobs.as_slice().iter().all(|job| is_plain(job))
}
