/// One entry of a pool's journal.
#[derive(Clone, Copy, Debug, PartialEq, Eq)]
pub enum PoolEntry {
    /// A task was queued.
    Started { id: u32, priority: i32 },
    /// The caller of `try_start` runs a task of its own.
    Tried { id: u32 },
    /// A task left the queue to run.
    Took { id: u32 },
    /// A task left the queue, and is not run.
    TookBack { id: u32 },
    /// A running task ended.
    Done { id: u32 },
    /// One thread more is reserved.
    Reserved,
    /// One thread less is reserved.
    Released,
    /// The pool has another limit.
    MaxSet { max: u32 },
}
