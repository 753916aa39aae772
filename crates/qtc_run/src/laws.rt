//! What the definitions of `specs/` come to, in other words.
ghost use Rattle.qtc_run.specs.Laws.{BlocksGoFromBeginToBegin, CallsAreOnce, FailuresAreOfItemsThatFail, GoodJobsFinish, GoodRunsFinish, JobsAreReportedInOrder, JobsFailAtTheFirst, LinesCountFeeds, PiecesAreTheText, ReportsAreSequential, ReportsGoJobByJob, RunnableJobsArePlain, RunnableRunsAreOverTexts, WorkedJobsAreReported};

/// Each piece but the last has as many bytes as the job says, the last has 1 to as many, and one after the other they
/// are the text.
pub fn pieces_are_the_text()
    ensures { PiecesAreTheText }
{}

/// A text has a line for each LF and one for what is after the last LF, and every other byte stands in a line.
pub fn lines_count_feeds()
    ensures { LinesCountFeeds }
{}

/// The sequential answer is the first item that fails, and where none does what the job makes of the kept texts.
pub fn jobs_fail_at_the_first()
    ensures { JobsFailAtTheFirst }
{}

/// An item that fails is one of the items; its value is bad, or a kept text that is bad for the fold.
pub fn failures_are_of_items_that_fail()
    ensures { FailuresAreOfItemsThatFail }
{}

/// Blocks that an unordered fold tells by their begins begin with 0, meet nowhere, and end where the next begins or at the
/// end of the items.
pub fn blocks_go_from_begin_to_begin()
    ensures { BlocksGoFromBeginToBegin }
{}

/// Each index below the number of items worked on is called once, and no other is.
pub fn calls_are_once()
    ensures { CallsAreOnce }
{}

/// What the workers of an engine make of a job may be reported.
pub fn worked_jobs_are_reported()
    ensures { WorkedJobsAreReported }
{}

/// A job that nothing stops is reported finished, whoever worked on it, and where no order is told with what the chain
/// makes of the sequential answer.
pub fn good_jobs_finish()
    ensures { GoodJobsFinish }
{}

/// What a job came to before its chain is the sequential answer, whoever worked on it; where it failed, the sequential
/// answer fails too; and where it was canceled, its results are as many as cancel it.
pub fn reports_are_sequential()
    ensures { ReportsAreSequential }
{}

/// A report of a job that is run so far ends with the values of the sequential answer or with an item that fails, and
/// tells no partial results, no order and no choice.
pub fn runnable_jobs_are_plain()
    ensures { RunnableJobsArePlain }
{}

/// The jobs that are run so far are run in the order of the file, over the items of the texts.
pub fn runnable_runs_are_over_texts()
    ensures { RunnableRunsAreOverTexts }
{}

/// No job of a run that nothing stops fails or is canceled.
pub fn good_runs_finish()
    ensures { GoodRunsFinish }
{}

/// One job more at the end of a file appends its text to the report.
pub fn reports_go_job_by_job()
    ensures { ReportsGoJobByJob }
{}

/// A run reports as many jobs as the file has, each at its place.
pub fn jobs_are_reported_in_order()
    ensures { JobsAreReportedInOrder }
{}
