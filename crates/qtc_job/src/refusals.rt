ghost use Rattle.std.specs.Prelude.{◌≡◌, ℕ, ◌<◌, [], List as PlainList, Option, Some, None, true, false};
ghost use Rattle.qtc_job.specs.Answers.{Gives, IsFault};
ghost use Rattle.qtc_job.specs.Codes.{earlier_names, form_codes, is_in_job, own_above, own_codes};
ghost use Rattle.qtc_job.specs.Forms.{directive_form};
ghost use Rattle.qtc_job.specs.Statements.{statement_of};
ghost use Rattle.qtc_job.specs.declared.drafts.Draft.{Draft};
ghost use Rattle.qtc_job.specs.Drafts.{IsDraft, IsOneOfJob};
ghost use Rattle.qtc_job.specs.Lines.{Line, is_job, job, says};
ghost use Rattle.qtc_job.specs.Readers.{Adds, IsDraftBelow, IsEndRefusal, IsFirst, open_bad, IsJobRefusal, IsOpenAt, IsRefusal, IsUnmarked};

use crate::codes::{LineFault, with_code};
use crate::drafts::Draft;
use crate::marks::Marks;
use crate::statements::Statement;
use crate::{BadJob, ParseFault};
use qtc_job_file::{Job, Keyword};

/// Why reading ends at a line.
#[derive(Clone, Copy)]
pub enum Refusal {
    /// The first bad pair is this one, whatever comes.
    Bad(BadJob),
    /// The line has this code, unless the job line above it, or it itself, has one that comes first: which of
    /// its directives the job has so far.
    InJob {
        job_line: u32,
        marks: Marks,
        code: u32,
    },
    /// Want of memory.
    Memory,
}

/// The refusal of a line that begins with no word that a job line's codes ask for.
pub fn refused(draft: &Option<Draft>, number: u32, fault: LineFault) -> Refusal
    ensures { (above : PlainList Line) (jobs : PlainList Job) (l : Line) → IsDraftBelow above number jobs draft.now
        → IsUnmarked l → IsFault (own_codes above l) fault → IsRefusal above number l draft.now result }
{
    match fault {
        LineFault::Memory => Refusal::Memory,
        LineFault::Wrong(code) => match draft {
            None => Refusal::Bad(BadJob { line: number, code }),
            Some(draft) => Refusal::InJob {
                job_line: draft.line,
                marks: draft.marks(),
                code,
            },
        },
    }
}

/// The refusal of a line of a job that begins with the word.
fn refused_in(draft: &Draft, keyword: Keyword, number: u32, fault: LineFault) -> Refusal
    ensures { (above : PlainList Line) (names args : PlainList (PlainList ℕ)) → is_in_job above ≡ true
        → IsDraft names (own_above above) draft.now → draft.now.line < number
        → IsFault (own_codes above (says keyword args)) fault
        → IsRefusal above number (says keyword args) (Some draft.now) result }
{
    match fault {
        LineFault::Memory => Refusal::Memory,
        LineFault::Wrong(code) => Refusal::InJob {
            job_line: draft.line,
            marks: draft.marks().with_line(keyword),
            code,
        },
    }
}

/// The refusal of a job line, by the least code that its job's lines give it.
pub fn refused_job(line: u32, fault: LineFault) -> Refusal
    ensures { (codes : PlainList ℕ) → IsFault codes fault → IsJobRefusal codes line result }
{
    match fault {
        LineFault::Memory => Refusal::Memory,
        LineFault::Wrong(code) => Refusal::Bad(BadJob { line, code }),
    }
}

/// The refusal of a job line, whose own lines come after it.
pub fn refused_here(line: u32, fault: LineFault) -> Refusal
    ensures { (above : PlainList Line) (args : PlainList (PlainList ℕ)) (draft : Option Draft)
        → IsOpenAt above line draft (job args) → IsFault (own_codes above (job args)) fault
        → IsRefusal above line (job args) draft result }
{
    match fault {
        LineFault::Memory => Refusal::Memory,
        LineFault::Wrong(code) => Refusal::InJob {
            job_line: line,
            marks: Marks::new(),
            code,
        },
    }
}

/// The refusal of a line that is no job line, where no job line stands above it.
pub fn refused_outside(line: u32, fault: LineFault) -> Refusal
    ensures { (above : PlainList Line) (l : Line) → is_job l ≡ false → IsFault (own_codes above l) fault
        → IsRefusal above line l None result }
{
    match fault {
        LineFault::Memory => Refusal::Memory,
        LineFault::Wrong(code) => Refusal::Bad(BadJob { line, code }),
    }
}

/// Adds to a draft what was read of a line that begins with the word.
pub fn add_said(
    draft: &mut Draft,
    number: u32,
    keyword: Keyword,
    read: Result<Statement, LineFault>,
) -> Result<(), Refusal>
    ensures { (above : PlainList Line) (args : PlainList (PlainList ℕ)) → is_in_job above ≡ true
        → IsDraft (earlier_names above) (own_above above) draft.old → draft.old.line < number → IsOneOfJob keyword
        → Gives (form_codes (earlier_names above) (directive_form keyword args))
        (statement_of (earlier_names above) keyword args) read
        → Adds above number keyword args draft.old draft.new result }
{
    match with_code(read, draft.above_code(keyword)) {
        Ok(statement) => match draft.add(statement) {
            Ok(()) => Ok(()),
            Err(_) => Err(Refusal::Memory),
        },
        Err(fault) => Err(refused_in(draft, keyword, number, fault)),
    }
}

/// The fault of a file whose last job is refused at its end.
pub fn last_fault(refusal: Refusal) -> ParseFault
    ensures { (above : PlainList Line) (line : ℕ) (draft : Option Draft) → IsEndRefusal above line draft refusal
        → IsFirst (open_bad draft above line []) result }
{
    match refusal {
        Refusal::Bad(bad) => ParseFault::Bad(bad),
        _ => ParseFault::Memory,
    }
}
