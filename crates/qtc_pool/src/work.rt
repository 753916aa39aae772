use crate::{Becomes, Pool};
use std::sync::Wait;

/// What a pool runs: a task, which works at the desk of the worker that took it.
///
/// A desk is its worker's own while `run_workers` goes on. A task may start others on the pool that it is lent. A desk whose
/// type has parameters that must be `Send` can have no `Work`: there a function does the work (`run_workers_with`). *Own.*
pub trait Work<D>: Becomes<D> + Send + Drop + Sized {
    /// Does the work. It asks for nothing: what comes out of the queue is known by its type alone. It may wait, and other
    /// workers wait for its end, so it doesn't call `run_workers` or `close` of its own pool.
    fn run<R: Wait>(&self, rt: &R, pool: &Pool<Self>, desk: &mut D)
        ensures { Self.becomes desk.old desk.new };
}
