ghost use Rattle.std.specs.Prelude.{◌≡◌, ℕ, ◌<◌, ◌≤◌, List as PlainList, ◌∷◌, ◌++◌, Option, Some, length, map, IfOk, IfErr};
ghost use Rattle.qtc_base.specs.Lines.{lines as lines_left};
ghost use Rattle.qtc_job.specs.declared.drafts.Draft.{Draft};
ghost use Rattle.qtc_job.specs.Answers.{least, IsLeastSoFar};
ghost use Rattle.qtc_job.specs.Search.{settled};
ghost use Rattle.qtc_job.specs.Codes.{own_below};
ghost use Rattle.qtc_job.specs.Grammar.{Reads};
ghost use Rattle.qtc_job.specs.Heads.{IsSeen};
ghost use Rattle.qtc_job_file.specs.Lawful.{Lawful};
ghost use Rattle.qtc_base.specs.Limits.{most_job_file};
ghost use Rattle.qtc_job.specs.Lines.{Line, line_of, lines_of};
ghost use Rattle.qtc_job.specs.Marks.{IsMarks};
ghost use Rattle.qtc_job.specs.Readers.{IsFirst, IsRefusal, open_bad};
ghost use Rattle.qtc_job.specs.Refusals.{Refuses};

use crate::heads::{Head, read_head};
use crate::limits::MOST_LINE;
use crate::marks::Marks;
use crate::readers::{GAPS, Reader};
use crate::refusals::Refusal;
use crate::{BadJob, ParseFault};
use qtc_base::{Lines, Words};
use qtc_job_file::JobFile;
use std::alloc::Global;

/// What a line is, by its first word.
fn line_head(line: &[u8]) -> Head
    ensures { IsSeen (line_of line.now) result }
{
    if line.len() > MOST_LINE {
        return Head::Unknown;
    }
    let mut words = Words::new(GAPS, line);
    read_head(&mut words)
}

/// Which directives a job has with the lines that are left up to the next job line.
fn marks_below(marks: Marks, lines: Lines) -> Marks
    ensures { (own : PlainList Line) → IsMarks own marks → IsMarks (own ++ own_below (lines_of lines.entry)) result }
{
    let mut marks = marks;
    let mut left = lines;
    while let Some(line) = left.next() {
        match line_head(line) {
            Head::Job => return marks,
            Head::Says(keyword) => marks = marks.with_line(keyword),
            _ => {}
        }
    }
    marks
}

/// Of the code of a job line, where it has one, and of the code of a line that doesn't stand above it, the one that
/// comes first.
fn first_of(job_code: Option<u32>, job_line: u32, code: u32, line: u32) -> BadJob
    ensures { (codes : PlainList ℕ) → IsLeastSoFar codes job_code
        → settled (least codes) job_line code line ≡ Some (result.line, result.code) }
{
    if let Some(job_code) = job_code {
        if job_line < line || job_code < code {
            return BadJob {
                line: job_line,
                code: job_code,
            };
        }
    }
    BadJob { line, code }
}

/// The fault of a file that is refused at the line of this number, before the lines that are left.
fn settle(refusal: Refusal, number: u32, lines: Lines) -> ParseFault
    ensures { (above : PlainList Line) (l : Line) (draft : Option Draft) → IsRefusal above number l draft refusal
        → IsFirst (open_bad draft above number (l ∷ lines_of lines.entry)) result }
{
    match refusal {
        Refusal::Memory => ParseFault::Memory,
        Refusal::Bad(bad) => ParseFault::Bad(bad),
        Refusal::InJob {
            job_line,
            marks,
            code,
        } => {
            let job_code = marks_below(marks, lines).code();
            ParseFault::Bad(first_of(job_code, job_line, code, number))
        }
    }
}

/// The job file that the text says, as docs/JOB_FILES.md has it. Bad exactly where a pair of a line and a code
/// is bad, with the one of least line and then least code. It goes over the text once, and keeps the jobs and
/// the words of one line. (Own.)
pub fn parse(alloc: Global, text: &[u8]) -> Result<JobFile, ParseFault>
    requires { length text.now ≤ most_job_file }
    ensures reads { IfOk result (Reads (lines_of text.now)) }
    ensures lawful { IfOk result Lawful }
    ensures refuses { IfErr result (Refuses text.now) }
{
    let mut reader = Reader::new(alloc);
    let mut lines = Lines::new(text);
    let mut number = 0u32;
    while let Some(line) = lines.next() {
        number += 1;
        match reader.read_line(alloc, number, line) {
            Ok(()) => {}
            Err(refusal) => return Err(settle(refusal, number, lines)),
        }
    }
    reader.finish(alloc)
}
