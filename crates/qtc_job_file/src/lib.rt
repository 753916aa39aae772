//! The job file as a value: its jobs, the words of its language, which files are lawful, their canonical text, and the
//! texts that they name.
#![tactic(auto)]

mod jobs;
mod keywords;
mod laws;
mod loaded;

pub use jobs::{ChainOp, Input, Job, JobFile, texts_named};
pub use keywords::Keyword;
pub use laws::lawful_files_are_bounded;
pub use loaded::Loaded;
