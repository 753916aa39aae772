//! The run of a job file over loaded texts: its jobs on one pool of workers, and the report of each.
#![tactic(auto)]

mod engine_desks;
mod file_runs;
mod job_runs;
mod laws;
mod report_rooms;
mod report_texts;
mod reports;
mod rounds;
mod runnable;
mod sizes;
mod slots;
mod sources;
mod sums;
#[cfg(test)]
mod tests;
mod workers;

pub use file_runs::run_file;
pub use laws::{
    blocks_go_from_begin_to_begin, calls_are_once, failures_are_of_items_that_fail,
    good_jobs_finish, good_runs_finish, jobs_are_reported_in_order, jobs_fail_at_the_first,
    lines_count_feeds, pieces_are_the_text, reports_are_sequential, reports_go_job_by_job,
    runnable_jobs_are_plain, runnable_runs_are_over_texts, worked_jobs_are_reported,
};
pub use qtc_job_file::{Loaded, texts_named};
pub use report_texts::report_text;
pub use reports::{JobReport, Placed, Report, RunFault};
pub use runnable::is_runnable;
