ghost use Rattle.std.specs.Prelude.{◌≡◌, ℕ, List as PlainList, ◌≤◌, ◌<◌, false, true, length, ◌∷◌, IfNone, MatchOption};
ghost use Rattle.std.specs.List.{list_any};
ghost use Rattle.std.specs.Str.{bytes_eq};
ghost use Rattle.qtc_base.specs.Limits.{most_jobs};
ghost use Rattle.qtc_job_file.specs.Canonical.{names_of};
ghost use Rattle.qtc_job.specs.Answers.{IsLeastSoFar};
ghost use Rattle.qtc_job.specs.Codes.{above_codes, names_above, word_codes};
ghost use Rattle.qtc_job.specs.Lines.{Line, job};
ghost use Rattle.qtc_job.specs.Forms.{earlier};
ghost use Rattle.qtc_job.specs.Meaning.{place_of};

use crate::codes::{LineFault, NAME_REPEATED, NO_EARLIER_JOB, TOO_MANY_JOBS};
use crate::limits::MOST_JOBS;
use crate::places::Place;
use qtc_job_file::Job;
use std::alloc::Global;

/// Where the job of this name stands among the jobs, from 0.
pub fn place_among(jobs: &[Job], word: &[u8]) -> Option<usize>
    ensures { MatchOption result (list_any (bytes_eq word.now) (names_of jobs.now) ≡ false)
        (λ place. (list_any (bytes_eq word.now) (names_of jobs.now) ≡ true)
        × (place ≡ place_of (names_of jobs.now) word.now) × (place < length jobs.now)) }
{
    let mut left = jobs;
    let mut place = 0;
    while let [job, rest @ ..] = left {
        if word == job.name.as_slice() {
            return Some(place);
        }
        left = rest;
        place += 1;
    }
    None
}

/// The least code of a job line with this name, by the jobs above it.
pub fn name_code(jobs: &[Job], name: &[u8]) -> Option<u32>
    ensures code { (above : PlainList Line) (after : PlainList (PlainList ℕ)) → names_above above ≡ names_of jobs.now
        → IsLeastSoFar (above_codes above (job (name.now ∷ after))) result }
    ensures room { IfNone result (length jobs.now < most_jobs) }
{
    if place_among(jobs, name).is_some() {
        return Some(NAME_REPEATED);
    }
    if jobs.len() >= MOST_JOBS {
        return Some(TOO_MANY_JOBS);
    }
    None
}

/// The name of an earlier job.
#[derive(Drop)]
pub struct EarlierJob<'a> {
    pub jobs: &'a [Job],
    ghost few: { length jobs.now ≤ most_jobs },
}

impl Place for EarlierJob<'_> {
    type Value = u32;

    ghost codes = { λ s word. word_codes (names_of s.jobs.now) earlier word };

    ghost meant = { λ s word. place_of (names_of s.jobs.now) word };

    fn read(&self, _alloc: Global, word: &[u8]) -> Result<u32, LineFault> {
        match place_among(self.jobs, word) {
            Some(place) => Ok(place as u32),
            None => Err(LineFault::Wrong(NO_EARLIER_JOB)),
        }
    }
}
