//! Loading a job file and the texts that it names, with what stops it.
#![tactic(auto)]

mod faults;
mod limits;
mod loads;

pub use faults::FileFault;
pub use limits::{MOST_JOB_FILE, MOST_TEXT, MOST_TEXTS, limits_are_as_told};
pub use loads::{load_file, load_texts};
