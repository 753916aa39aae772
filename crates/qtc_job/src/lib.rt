//! The text of a job file: what its lines say, what is wrong with them, and how its canonical text is written.
#![tactic(auto)]

mod codes;
mod drafts;
mod earlier_jobs;
mod faults;
mod heads;
mod inputs;
mod laws;
mod limits;
mod literals;
mod marks;
mod operations;
mod parsing;
mod places;
mod printing;
mod readers;
mod refusals;
mod statements;
mod words_of;
mod words_out;

pub use faults::{BadJob, ParseFault};
pub use laws::{
    canonical_texts_are_read_back, each_text_is_read_or_refused, files_that_are_read_are_lawful,
    lines_are_read_once,
};
pub use limits::{MOST_JOB_FILE, limits_are_as_told};
pub use parsing::parse;
pub use printing::print;
