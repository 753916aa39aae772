//! Jobs of tasks, and how they end.

use qtc_shared::Pass;

/// A task, and the pass by which it reports to its future.
#[derive(Drop)]
pub struct TaskJob<V, T> {
    pub pass: Pass<V>,
    pub task: T,
}

/// By what a job stopped.
#[derive(Drop)]
pub enum TaskStop<T> {
    /// The task gave its last value, and each was added.
    Whole,
    /// The task failed after its last value; each was added before.
    Failed,
    /// The future was canceled or finished by another meanwhile.
    Canceled,
    /// The future takes no further value: a report ends at its last place.
    Refused,
    /// Memory was wanted.
    Memory,
    /// The future had been started, or ended, before: the task, which was never asked.
    NotRun(T),
}

/// How a job ended: its pass, how many values of its task were added, and by what it stopped.
#[derive(Drop)]
pub struct TaskEnd<V, T> {
    pub pass: Pass<V>,
    pub came: u32,
    pub stop: TaskStop<T>,
}
