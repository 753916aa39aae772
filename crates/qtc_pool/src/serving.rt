//! Workers, which run a pool's tasks at their desks.
ghost use Rattle.std.specs.Prelude.{◌<◌, length};
ghost use Rattle.qtc_pool.specs.Shared.{EachBecomes};
ghost use Rattle.qtc_pool.specs.Working.{Keeps};

use crate::{Becomes, Pool, Work};
use std::sync::Wait;
use std::thread::{Threads, for_each_mut};

/// What a worker does next.
#[derive(Drop)]
pub(crate) enum Next<K> {
    Task { id: u32, work: K },
    /// Tasks run that may start others: sleep until the bell has rung more often than that.
    Sleep { rings: u32 },
    /// Nothing waits and nothing runs.
    Leave,
}

impl<K: Send + Drop> Pool<K> {
    /// Runs the tasks that wait, and those that they start, by one worker a desk. A worker takes the next task, runs it at
    /// its desk and ends it; it sleeps while there is none but some run, and leaves where none runs. After all have left,
    /// the caller goes on in the same way at the first desk. Where a thread can't be had, its work is done by the thread
    /// that wanted it.
    pub fn run_workers<D: Send, R: Threads + Wait + Sync>(&self, rt: &R, desks: &mut [D])
    where
        K: Work<D>,
        requires { 0 < length desks.old }
        ensures { EachBecomes K.becomes desks.old desks.new }
    {
        self.run_workers_with(
            rt,
            desks,
            &|pool: &Pool<K>, task: &K, desk: &mut D|
                ensures { K.becomes desk.old desk.new }
            {
                task.run(rt, pool, desk);
            },
        );
    }

    /// Does what `run_workers` does, where a function does the work of a task at a worker's desk.
    pub fn run_workers_with<D: Send, R: Threads + Wait + Sync, W: Fn(&Pool<K>, &K, &mut D) + Sync>(
        &self,
        rt: &R,
        desks: &mut [D],
        work: &W,
    )
    where
        K: Becomes<D>,
        requires some { 0 < length desks.old }
        requires callable { W.IsAlwaysCallable work.now }
        requires keeps { Keeps K.becomes W.Fn work.now }
        ensures { EachBecomes K.becomes desks.old desks.new }
    {
        let workers = desks.len();
        for_each_mut(
            rt,
            desks,
            workers,
            &|_, desk: &mut D|
                requires callable { W.IsAlwaysCallable work.now }
                requires keeps { Keeps K.becomes W.Fn work.now }
                ensures { K.becomes desk.old desk.new }
            {
                self.serve(rt, desk, work);
            },
        );
        self.serve(rt, &mut desks[0], work);
    }

    /// Does tasks at a desk until nothing waits and nothing runs.
    fn serve<D, R: Wait, W: Fn(&Pool<K>, &K, &mut D)>(&self, rt: &R, desk: &mut D, work: &W)
    where
        K: Becomes<D>,
        requires callable { W.IsAlwaysCallable work.now }
        requires keeps { Keeps K.becomes W.Fn work.now }
        ensures { K.becomes desk.old desk.new }
    {
        for _ in rt.forever() {
            match self.next(rt) {
                Next::Task { id, work: task } => {
                    work(self, &task, desk);
                    self.done(rt, id);
                }
                Next::Sleep { rings } => self.sleep(rt, rings),
                Next::Leave => return,
            }
        }
        unreachable!()
    }
}
