//! The workers of a pool, each with a desk at every engine.
ghost use Rattle.std.specs.Prelude.{List, MatchOption, ◌≡◌, ◌≤◌, ◌∷◌, ◌++◌, [], IfOk, OnOk, length, replicate};
ghost use Rattle.std.specs.Vec.Iter.{into_iter_items};
ghost use Rattle.qtc_pool.specs.Working.{Keeps};
ghost use Rattle.qtc_run.specs.Rounds.{each_times};

use crate::engine_desks::EngineDesk;
use crate::slots::Slot;
use qtc_base::NoMemory;
use qtc_ops::ItemFn;
use qtc_outside::Gate;
use qtc_pool::Pool;
use std::alloc::Global;
use std::collections::VecDeque;
use std::marker::Model;
use std::sync::Wait;
use std::thread::Threads;
use std::vec::IntoIter;

/// A worker of the pool: its desks, in the order of the jobs.
///
/// It is generic in its desks, since no function that names their lifetimes is proved to drop lists of such lists.
#[derive(Drop)]
pub(crate) struct Worker<D> {
    desks: VecDeque<D>,
}

impl<D> Model for Worker<D> {
    ghost use Rattle.std.specs.Prelude.{List};

    ghost Value = { List D };

    ghost view = { λ a. a.desks.items };
}

impl<D: Drop> Worker<D> {
    /// A worker without a desk.
    fn new(alloc: Global) -> Worker<D>
        ensures { result ≡ [] }
    {
        Worker {
            desks: VecDeque::new(alloc),
        }
    }

    /// Adds a desk. Err is want of memory, and drops it.
    fn add(&mut self, desk: D) -> Result<(), NoMemory>
        ensures { OnOk result (self.new ≡ self.old ++ desk ∷ []) }
    {
        self.desks.push_back(desk)?;
        Ok(())
    }

    /// Leaves the first desk.
    fn leave(&mut self) -> Option<D>
        ensures { MatchOption result (self.old ≡ []) (λ desk. self.old ≡ desk ∷ self.new) }
    {
        self.desks.pop_front()
    }
}

impl<'e, 'a, F: ItemFn, G: Gate> Worker<EngineDesk<'e, 'a, F, G>> {
    /// Does the work of a slot at the desk of its job.
    pub fn work<R: Wait>(&mut self, rt: &R, pool: &Pool<Slot>, slot: &Slot)
        ensures { self.new ≡ self.old }
    {
        if let Some(desk) = self.desks.get_mut(slot.job()) {
            desk.work(rt, pool, slot);
        }
    }
}

/// Workers without a desk.
fn idle<D: Drop>(alloc: Global, count: u32) -> Result<Vec<Worker<D>>, NoMemory>
    ensures { IfOk result (λ workers. workers.items ≡ replicate count []) }
{
    let mut workers = Vec::new(alloc);
    for _ in 0..count {
        if workers.push(Worker::new(alloc)).is_err() {
            return Err(NoMemory);
        }
    }
    Ok(workers)
}

/// Gives each worker the next desk.
fn deal_row<D: Drop>(desks: &mut IntoIter<D>, workers: &mut Vec<Worker<D>>) -> Result<(), NoMemory>
    ensures count { length workers.new.items ≡ length workers.old.items }
    ensures dealt { OnOk result ((one : D) (done rest : List D) →
        into_iter_items desks.old ≡ replicate (length workers.old.items) one ++ rest →
        workers.old.items ≡ replicate (length workers.old.items) done →
        (into_iter_items desks.new ≡ rest)
        × (workers.new.items ≡ replicate (length workers.old.items) (done ++ one ∷ []))) }
{
    for at in 0..workers.len() {
        if let Some(desk) = desks.next() {
            workers[at].add(desk)?;
        }
    }
    Ok(())
}

/// Deals desks to so many workers: of those at a job, one to each.
fn deal<D: Drop>(
    alloc: Global,
    desks: Vec<D>,
    jobs: usize,
    number: u32,
) -> Result<Vec<Worker<D>>, NoMemory>
    ensures count { IfOk result (λ workers. length workers.items ≡ number) }
    ensures dealt { IfOk result (λ workers. (all : List D) → length all ≡ jobs →
        desks.items ≡ each_times number all → workers.items ≡ replicate number all) }
{
    let mut workers = idle(alloc, number)?;
    let mut desks = desks.into_iter();
    for _ in 0..jobs {
        deal_row(&mut desks, &mut workers)?;
    }
    Ok(workers)
}

/// Takes each worker's first desk.
fn gather_row<D: Drop>(workers: &mut Vec<Worker<D>>, desks: &mut Vec<D>) -> Result<(), NoMemory>
    ensures count { length workers.new.items ≡ length workers.old.items }
    ensures gathered { OnOk result ((one : D) (rest : List D) →
        workers.old.items ≡ replicate (length workers.old.items) (one ∷ rest) →
        (desks.new.items ≡ desks.old.items ++ replicate (length workers.old.items) one)
        × (workers.new.items ≡ replicate (length workers.old.items) rest)) }
{
    for at in 0..workers.len() {
        if let Some(desk) = workers[at].leave() {
            desks.push(desk)?;
        }
    }
    Ok(())
}

/// The desks of all workers, job by job.
fn gather<D: Drop>(
    alloc: Global,
    mut workers: Vec<Worker<D>>,
    jobs: usize,
) -> Result<Vec<D>, NoMemory>
    ensures { IfOk result (λ desks. (all : List D) → length all ≡ jobs →
        workers.items ≡ replicate (length workers.items) all →
        desks.items ≡ each_times (length workers.items) all) }
{
    let mut desks = Vec::new(alloc);
    for _ in 0..jobs {
        gather_row(&mut workers, &mut desks)?;
    }
    Ok(desks)
}

/// Runs the tasks of a pool by so many workers, and gives their desks back in the order in which they came: job by job,
/// one for each worker. All desks at a job are one to a contract.
pub(crate) fn run_workers<
    D: Drop + Send,
    R: Threads + Wait + Sync,
    W: Fn(&Pool<Slot>, &Slot, &mut Worker<D>) + Sync,
>(
    alloc: Global,
    rt: &R,
    pool: &Pool<Slot>,
    desks: Vec<D>,
    jobs: usize,
    number: u32,
    work: &W,
) -> Result<Vec<D>, NoMemory>
    requires some { 1 ≤ number }
    requires callable { W.IsAlwaysCallable work.now }
    requires keeps { Keeps (λ (old new : List D). new ≡ old) W.Fn work.now }
    ensures { IfOk result (λ left. (all : List D) → length all ≡ jobs →
        desks.items ≡ each_times number all → left.items ≡ desks.items) }
{
    let mut workers = deal(alloc, desks, jobs, number)?;
    pool.run_workers_with(rt, workers.as_mut_slice(), work);
    let left = gather(alloc, workers, jobs)?;
    Ok(left)
}
