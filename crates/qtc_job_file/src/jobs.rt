ghost use Rattle.std.specs.Prelude.{◌≡◌};
ghost use Rattle.qtc_job_file.specs.Texts.{names_of};

use qtc_base::{Bytes, List};
use qtc_ops::{FoldOp, ItemOp, ListOp};
use std::slice;

/// What a job works on. Numbers of jobs are places in the file, from 0.
#[derive(Drop)]
pub enum Input {
    /// The lines of the text under this name.
    Lines(Bytes),
    /// Each of the texts under these names, whole.
    Files(List<Bytes>),
    /// Pieces of so many bytes of the text under this name; the last may be shorter.
    Pieces(u32, Bytes),
    /// The values of an earlier job.
    Job(u32),
    /// The values of earlier jobs, one after the other in this order.
    All(List<u32>),
    /// The values of that one of these earlier jobs which finishes first.
    Any(List<u32>),
}

/// One step of what is made of a job's outcome.
#[derive(Drop)]
pub enum ChainOp {
    /// The values become those that the operation gives.
    Then(ListOp),
    /// A failure becomes this one value.
    OnFailed(Bytes),
    /// A cancellation becomes this one value.
    OnCanceled(Bytes),
}

/// One job of a job file.
#[derive(Drop)]
pub struct Job {
    pub name: Bytes,
    pub input: Input,
    /// What is made of each item.
    pub op: ItemOp,
    /// What is made of all kept values, where they become one.
    pub fold: Option<FoldOp>,
    /// Whether the fold takes the values by ascending index.
    pub ordered: bool,
    /// How many items a worker takes at a time, in turns.
    pub blocks: List<u32>,
    pub priority: i32,
    /// After how many items the job is canceled; 0 for never.
    pub cancel_after: u32,
    /// After how many items the job is suspended; 0 for never.
    pub suspend_after: u32,
    /// Whether the events are reported.
    pub watch: bool,
    pub chain: List<ChainOp>,
}

/// A job file that was read: how many workers it asks for, and its jobs in the order of the file.
#[derive(Drop)]
pub struct JobFile {
    pub workers: u32,
    pub jobs: List<Job>,
}

/// The names of the texts that an input names, in order.
pub fn texts_named(input: &Input) -> &[Bytes]
    ensures { result.now ≡ names_of input.now }
{
    match input {
        Input::Lines(name) | Input::Pieces(_, name) => slice::from_ref(name),
        Input::Files(names) => names.as_slice(),
        Input::Job(_) | Input::All(_) | Input::Any(_) => &[],
    }
}
