//! A pool of threads beside a queue under std's lock.
ghost use Rattle.std.specs.Prelude.{◌<◌};

use crate::tables::print_table;
use crate::timing::{Row, Work};
use crate::waits::print_wait;
use qtc_pool::{Becomes, Pool};
use qtc_pool_core::PoolCore;
use std::alloc::{AllocError, Global};
use std::collections::VecDeque;
use std::rt::Clock;
use std::sync::{Mutex, Wait};
use std::thread::{Threads, join, map_indices};
use std::time::{Duration, Instant};
use std::{io, thread};

/// How many tasks are queued and then taken: many, and a sixteenth of them.
const MANY: u32 = 1_000_000;

const FEW: u32 = 62_500;

/// How many workers wait for one task.
const WAITING: usize = 32;

/// A task that counts.
#[derive(Drop)]
struct Counted;

impl Becomes<u64> for Counted {
    ghost becomes = { λ _ _. Unit {0} };

    ghost stays = { λ _. tt };

    ghost goes_on = { λ _ _ _ _ _. tt };
}

impl qtc_pool::Work<u64> for Counted {
    fn run<R: Wait>(&self, _rt: &R, _pool: &Pool<Counted>, desk: &mut u64) {
        *desk = desk.wrapping_add(1);
    }
}

/// How tasks are queued and taken.
#[derive(Clone, Copy)]
enum Queued {
    /// By a core, all of one priority, and taken.
    Core,
    /// By a core, with seven priorities, and taken.
    CoreByPriority,
    /// By a core, and taken back by their ids.
    Back,
    /// By std's queue under std's lock, and taken by so many threads.
    Deque(usize),
    /// By a pool, and run by so many workers.
    Pool(usize),
}

/// Tasks that are counted as they are taken.
#[derive(Drop)]
struct Queueing {
    alloc: Global,
    queued: Queued,
    tasks: u32,
}

impl Work for Queueing {
    fn run<R: Wait + Threads + Sync>(&self, rt: &R) -> io::Result<u64> {
        match self.queued {
            Queued::Core => taken(filled(self.alloc, self.tasks, 1)?, self.tasks),
            Queued::CoreByPriority => taken(filled(self.alloc, self.tasks, 7)?, self.tasks),
            Queued::Back => taken_back(filled(self.alloc, self.tasks, 7)?, self.tasks),
            Queued::Deque(threads) => through_deque(rt, self.alloc, self.tasks, threads),
            Queued::Pool(workers) => through_pool(rt, self.alloc, self.tasks, workers),
        }
    }
}

/// A core in which so many tasks wait, of so many priorities.
fn filled(alloc: Global, tasks: u32, priorities: u32) -> io::Result<PoolCore<Counted>>
    requires { (0 < priorities) × (priorities < 100) }
{
    let mut core = PoolCore::new(alloc, 1);
    for id in 0..tasks {
        let priority = (id % priorities) as i32;
        core.start(id, priority, Counted).map_err(|_| AllocError)?;
    }
    Ok(core)
}

/// Takes the next task and ends it: whether there was one.
fn take_one(core: &mut PoolCore<Counted>) -> bool {
    match core.take_next() {
        Some((id, Counted)) => core.done(id),
        None => false,
    }
}

/// Takes the tasks in the core's order.
fn taken(mut core: PoolCore<Counted>, tasks: u32) -> io::Result<u64> {
    let mut taken = 0u64;
    for _ in 0..tasks {
        if take_one(&mut core) {
            taken = taken.wrapping_add(1);
        }
    }
    Ok(taken)
}

/// Takes the tasks back in the order of their ids.
fn taken_back(mut core: PoolCore<Counted>, tasks: u32) -> io::Result<u64> {
    let mut taken = 0u64;
    for id in 0..tasks {
        if core.try_take(id).is_some() {
            taken = taken.wrapping_add(1);
        }
    }
    Ok(taken)
}

fn sum_of(parts: &[u64]) -> u64 {
    let mut sum = 0u64;
    for part in parts {
        sum = sum.wrapping_add(*part);
    }
    sum
}

/// Takes tasks until there is none.
fn drain<R: Wait>(rt: &R, queue: &Mutex<VecDeque<(u32, Counted)>>, tasks: u32) -> u64 {
    let mut taken = 0u64;
    for _ in 0..tasks {
        if queue.lock(rt).pop_front().is_none() {
            break;
        }
        taken = taken.wrapping_add(1);
    }
    taken
}

/// Queues the tasks.
fn fill<R: Wait>(
    rt: &R,
    queue: &Mutex<VecDeque<(u32, Counted)>>,
    tasks: u32,
) -> Result<(), AllocError> {
    for id in 0..tasks {
        queue.lock(rt).push_back((id, Counted))?;
    }
    Ok(())
}

fn through_deque<R: Wait + Threads + Sync>(
    rt: &R,
    alloc: Global,
    tasks: u32,
    threads: usize,
) -> io::Result<u64> {
    let queue = Mutex::new(VecDeque::new(alloc));
    fill(rt, &queue, tasks)?;
    let taken = map_indices(rt, alloc, threads, &|_| drain(rt, &queue, tasks))?;
    Ok(sum_of(&taken))
}

/// Starts the tasks on a pool.
fn start_all<R: Wait>(rt: &R, pool: &Pool<Counted>, tasks: u32) -> Result<(), AllocError> {
    for id in 0..tasks {
        pool.start(rt, id, 0, Counted).map_err(|_| AllocError)?;
    }
    Ok(())
}

/// Runs what a pool has at so many desks: how many tasks that were.
fn run_at<R: Wait + Threads + Sync>(
    rt: &R,
    alloc: Global,
    pool: &Pool<Counted>,
    workers: usize,
) -> Result<u64, AllocError> {
    let mut desks = vec![in alloc; 0u64; workers.max(1)]?;
    pool.run_workers(rt, desks.as_mut_slice());
    Ok(sum_of(&desks))
}

fn through_pool<R: Wait + Threads + Sync>(
    rt: &R,
    alloc: Global,
    tasks: u32,
    workers: usize,
) -> io::Result<u64> {
    let pool = Pool::new(alloc, 32).map_err(|_| AllocError)?;
    start_all(rt, &pool, tasks)?;
    Ok(run_at(rt, alloc, &pool, workers)?)
}

/// Measures a core with so many tasks, and prints a table of it.
fn print_cores<R: Wait + Threads + Sync + Clock + Print>(
    rt: &R,
    alloc: Global,
    title: &str,
    tasks: u32,
) -> io::Result<()>
    requires { 0 < tasks }
{
    let queueing = |queued| Queueing {
        alloc,
        queued,
        tasks,
    };
    let rows = [
        Row::new("taken, one priority", queueing(Queued::Core)),
        Row::beside(0, "taken, 7 priorities", queueing(Queued::CoreByPriority)),
        Row::beside(0, "taken back, 7 priorities", queueing(Queued::Back)),
    ];
    print_table(rt, alloc, title, u64::from(tasks), &rows)
}

/// Measures pools beside std's queue, and prints a table of them.
fn print_workers<R: Wait + Threads + Sync + Clock + Print>(
    rt: &R,
    alloc: Global,
) -> io::Result<()> {
    let queueing = |queued| Queueing {
        alloc,
        queued,
        tasks: MANY,
    };
    let rows = [
        Row::new("Mutex<VecDeque>, 1 thread", queueing(Queued::Deque(1))),
        Row::beside(0, "Pool, 1 worker", queueing(Queued::Pool(1))),
        Row::new("Mutex<VecDeque>, 2 threads", queueing(Queued::Deque(2))),
        Row::beside(2, "Pool, 2 workers", queueing(Queued::Pool(2))),
        Row::new("Mutex<VecDeque>, 4 threads", queueing(Queued::Deque(4))),
        Row::beside(4, "Pool, 4 workers", queueing(Queued::Pool(4))),
    ];
    print_table(rt, alloc, "pools, 1000000 tasks", u64::from(MANY), &rows)
}

/// Measures cores and pools, and prints tables of them.
pub fn print_pools<R: Wait + Threads + Sync + Clock + Print>(
    rt: &R,
    alloc: Global,
) -> io::Result<()> {
    print_cores(rt, alloc, "cores, 62500 tasks", FEW)?;
    print_cores(rt, alloc, "cores, 1000000 tasks", MANY)?;
    print_workers(rt, alloc)
}

/// How long 32 workers wait for the end of a task.
fn time_workers<R: Wait + Threads + Sync + Clock>(
    rt: &R,
    alloc: Global,
    pool: &Pool<Counted>,
) -> io::Result<Duration> {
    let begin = Instant::now(rt)?;
    run_at(rt, alloc, pool, WAITING)?;
    begin.elapsed(rt)
}

/// Ends the task after a second.
fn end_late<R: Wait + Clock>(rt: &R, pool: &Pool<Counted>) {
    thread::sleep(rt, Duration::from_secs(1));
    pool.done(rt, 1);
}

/// Waits with 32 workers for a task of a second, and prints how long that was.
pub fn print_pool_wait<R: Wait + Threads + Sync + Clock + Print>(
    rt: &R,
    alloc: Global,
) -> io::Result<()> {
    let pool = Pool::new(alloc, 32).map_err(|_| AllocError)?;
    pool.try_start(rt, 1).map_err(|_| AllocError)?;
    let (waited, ()) = join(
        rt,
        || time_workers(rt, alloc, &pool),
        || end_late(rt, &pool),
    );
    print_wait(rt, "pool", waited?)
}
