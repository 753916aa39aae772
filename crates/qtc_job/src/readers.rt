ghost use Rattle.std.specs.Prelude.{◌≡◌, ◌+◌, ◌≤◌, length, is_some, true, false, if◌then◌else◌, [], ◌∷◌, ◌++◌, OnOk, OnErr};
ghost use Rattle.qtc_base.specs.Limits.{most_jobs};

use crate::ParseFault;
use crate::codes::{
    ENDS_EARLY, LineFault, MISPLACED, NAME_REPEATED, REPEATED, TOO_LONG, TOO_MANY_JOBS,
    UNKNOWN_WORD, either, ended, with_code,
};
use crate::drafts::Draft;
use crate::earlier_jobs::{EarlierJob, name_code};
use crate::heads::{Head, read_head};
use crate::limits::{DEFAULT_WORKERS, MOST_LINE, MOST_WORKERS};
use crate::operations::read_number;
use crate::places::{NewName, Place};
use crate::refusals::{
    Refusal, add_said, last_fault, refused, refused_here, refused_job, refused_outside,
};
use crate::statements::read_statement;
use qtc_base::{List, NoMemory, Words};
use qtc_job_file::{Job, JobFile, Keyword};
use std::alloc::Global;

/// The bytes that part two words.
pub const GAPS: &[u8] = b" \t\r";

/// What the lines of a job file have said so far.
#[derive(Drop)]
pub struct Reader {
    pub workers: Option<u32>,
    /// The jobs whose lines have ended.
    pub jobs: List<Job>,
    /// The job whose lines are being read.
    pub draft: Option<Draft>,
    ghost few: { length jobs + (if is_some draft then 1 else 0) ≤ most_jobs },
}

impl Reader {
    ghost use Rattle.std.specs.Prelude.{ℕ, List as PlainList};
    ghost use Rattle.qtc_base.specs.Words.{words_left};
    ghost use Rattle.qtc_job.specs.declared.readers.Reader.{Reader};
    ghost use Rattle.qtc_job.specs.Answers.{IsLeastSoFar};
    ghost use Rattle.qtc_job.specs.Codes.{above_codes};
    ghost use Rattle.qtc_job.specs.Drafts.{IsOneOfJob};
    ghost use Rattle.qtc_job.specs.Lines.{Line, line_of, workers as workers_line, job as job_line, says};
    ghost use Rattle.qtc_job.specs.Meaning.{jobs_of, workers_of};
    ghost use Rattle.qtc_job.specs.Search.{first_bad};
    ghost use Rattle.qtc_job.specs.Readers.{Closes, Ends, IsClosed, IsReader, open_bad, open_jobs, open_workers, Takes};

    /// A reader that has read no line.
    pub fn new(alloc: Global) -> Reader
        ensures start { IsReader [] 1 result }
        ensures bad { (lines : PlainList Line) → open_bad result.draft [] 1 lines ≡ first_bad [] 1 lines }
        ensures workers { (lines : PlainList Line) → open_workers result.workers lines ≡ workers_of lines }
        ensures jobs { (lines : PlainList Line) → open_jobs result.jobs result.draft [] lines ≡ jobs_of [] lines }
    {
        Reader {
            workers: None,
            jobs: List::new(alloc),
            draft: None,
        }
    }

    /// The least code of a line of workers, by the lines above it.
    fn workers_code(&self) -> Option<u32>
        ensures { (above : PlainList Line) (line : ℕ) (args : PlainList (PlainList ℕ)) → IsReader above line self.now
            → IsLeastSoFar (above_codes above (workers_line args)) result }
    {
        if self.workers.is_some() {
            return Some(REPEATED);
        }
        if self.draft.is_some() {
            return Some(MISPLACED);
        }
        None
    }

    /// Reads the words of a line of workers.
    fn read_workers(&mut self, alloc: Global, number: u32, words: &mut Words) -> Result<(), Refusal>
        ensures { (above : PlainList Line) → IsReader above number self.old
            → Takes above number (workers_line (words_left words.old)) self.old self.new result }
    {
        let read = with_code(
            read_number(alloc, 1, MOST_WORKERS, words),
            self.workers_code(),
        );
        match read {
            Ok(count) => {
                self.workers = Some(count);
                Ok(())
            }
            Err(fault) => Err(refused(&self.draft, number, fault)),
        }
    }

    /// Ends the job whose lines were read.
    fn close(&mut self, alloc: Global) -> Result<(), Refusal>
        ensures { (above : PlainList Line) (line : ℕ) → IsReader above line self.old
            → Closes above line self.old self.new result }
    {
        let Some(draft) = self.draft.take() else {
            return Ok(());
        };
        let line = draft.line;
        let job = match draft.finish(alloc) {
            Ok(job) => job,
            Err(fault) => return Err(refused_job(line, fault)),
        };
        match push_job(&mut self.jobs, job) {
            Ok(()) => Ok(()),
            Err(_) => Err(Refusal::Memory),
        }
    }

    /// Begins the job of a job line, where none is open.
    fn open(&mut self, alloc: Global, number: u32, words: &mut Words) -> Result<(), Refusal>
        ensures { (above : PlainList Line) (old : Reader) → IsClosed above number old self.old
            → Takes above number (job_line (words_left words.old)) old self.new result }
    {
        let Some(name) = words.next() else {
            return Err(refused_here(number, LineFault::Wrong(ENDS_EARLY)));
        };
        let read = ended(NewName.read(alloc, name), words);
        match with_code(read, name_code(self.jobs.as_slice(), name)) {
            Ok(name) => {
                self.draft = Some(Draft::new(alloc, number, name));
                Ok(())
            }
            Err(fault) => Err(refused_here(number, fault)),
        }
    }

    /// Reads the words of a job line.
    fn read_job(&mut self, alloc: Global, number: u32, words: &mut Words) -> Result<(), Refusal>
        ensures { (above : PlainList Line) → IsReader above number self.old
            → Takes above number (job_line (words_left words.old)) self.old self.new result }
    {
        match self.close(alloc) {
            Ok(()) => self.open(alloc, number, words),
            Err(refusal) => Err(refusal),
        }
    }

    /// Reads the words of a line that begins with a directive of a job.
    fn read_said(
        &mut self,
        alloc: Global,
        number: u32,
        keyword: Keyword,
        words: &mut Words,
    ) -> Result<(), Refusal>
        requires { IsOneOfJob keyword }
        ensures { (above : PlainList Line) → IsReader above number self.old
            → Takes above number (says keyword (words_left words.old)) self.old self.new result }
    {
        let jobs = EarlierJob {
            jobs: self.jobs.as_slice(),
        };
        let read = read_statement(alloc, &jobs, keyword, words);
        match &mut self.draft {
            None => {
                let fault = either(read, LineFault::Wrong(MISPLACED));
                Err(refused_outside(number, fault))
            }
            Some(draft) => add_said(draft, number, keyword, read),
        }
    }

    /// Reads the next line, which has this number, from 1.
    pub fn read_line(&mut self, alloc: Global, number: u32, line: &[u8]) -> Result<(), Refusal>
        ensures { (above : PlainList Line) → IsReader above number self.old
            → Takes above number (line_of line.now) self.old self.new result }
    {
        if line.len() > MOST_LINE {
            return Err(refused(&self.draft, number, LineFault::Wrong(TOO_LONG)));
        }
        let mut words = Words::new(GAPS, line);
        match read_head(&mut words) {
            Head::Silent => Ok(()),
            Head::Unknown => Err(refused(&self.draft, number, LineFault::Wrong(UNKNOWN_WORD))),
            Head::Workers => self.read_workers(alloc, number, &mut words),
            Head::Job => self.read_job(alloc, number, &mut words),
            Head::Says(keyword) => self.read_said(alloc, number, keyword, &mut words),
        }
    }

    /// The file of all lines.
    pub fn finish(mut self, alloc: Global) -> Result<JobFile, ParseFault>
        ensures { (above : PlainList Line) (line : ℕ) → IsReader above line self → Ends above line self result }
    {
        match self.close(alloc) {
            Ok(()) => {
                let workers = self.workers.unwrap_or(DEFAULT_WORKERS);
                let Reader { jobs, .. } = self;
                Ok(JobFile { workers, jobs })
            }
            Err(refusal) => Err(last_fault(refusal)),
        }
    }
}

/// Appends a job.
fn push_job(jobs: &mut List<Job>, job: Job) -> Result<(), NoMemory>
    ensures ok { OnOk result (jobs.new ≡ jobs.old ++ job ∷ []) }
    ensures err { OnErr result (jobs.new ≡ jobs.old) }
{
    match jobs.push(job) {
        Ok(()) => Ok(()),
        Err(_) => Err(NoMemory),
    }
}
