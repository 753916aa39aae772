//! Tasks that give values to futures, beside additions alone and beside a pool.
ghost use Rattle.std.specs.Prelude.{IfOk, None, replicate};
ghost use Rattle.std.specs.List.{AllZip};
ghost use Rattle.qtc_tasks.specs.Runs.{MayRun};

use crate::callers::{Caller, new_future};
use crate::tables::print_table;
use crate::timing::{Row, Work};
use qtc_base::NoMemory;
use qtc_pool::{Becomes, Pool};
use qtc_shared::{Pass, SharedFuture};
use qtc_tasks::{Task, TaskFault, TaskJob, run_all};
use std::alloc::{AllocError, Global};
use std::io;
use std::rt::Clock;
use std::sync::Wait;
use std::thread::Threads;

/// How many values one task gives.
const VALUES: u32 = 1_000_000;

/// How many tasks of one value there are.
const TASKS: u32 = 1_000;

/// A task that gives 1 so often.
#[derive(Drop)]
struct Ones {
    left: u32,
}

impl Task<u64> for Ones {
    ghost state = { λ task. record { left = replicate task.left 1; bad = None } };

    fn next(&mut self) -> Result<Option<u64>, TaskFault> {
        if self.left == 0 {
            return Ok(None);
        }
        self.left -= 1;
        Ok(Some(1))
    }
}

/// A job of a pool: it starts a future of its own, adds one value and finishes it.
#[derive(Drop)]
struct Single {
    alloc: Global,
}

impl Becomes<u64> for Single {
    ghost becomes = { λ _ _. Unit {0} };

    ghost stays = { λ _. tt };

    ghost goes_on = { λ _ _ _ _ _. tt };
}

impl qtc_pool::Work<u64> for Single {
    fn run<R: Wait>(&self, rt: &R, _pool: &Pool<Single>, desk: &mut u64) {
        let added = added_to_one(rt, self.alloc, 1).unwrap_or(0);
        *desk = desk.wrapping_add(added);
    }
}

/// By what values are added.
#[derive(Clone, Copy)]
enum Means {
    /// By additions, one after the other.
    Additions,
    /// By a task that gives them all.
    Task,
    /// By a task for each, all at once.
    Tasks,
    /// By a job of a pool for each, and so many workers.
    Pool(usize),
}

/// Values that are added, and counted.
#[derive(Drop)]
struct Adding {
    alloc: Global,
    means: Means,
}

impl Work for Adding {
    fn run<R: Wait + Threads + Sync>(&self, rt: &R) -> io::Result<u64> {
        let added = match self.means {
            Means::Additions => added_to_one(rt, self.alloc, VALUES)?,
            Means::Task => came_of_all(rt, self.alloc, 1, VALUES)?,
            Means::Tasks => came_of_all(rt, self.alloc, TASKS, 1)?,
            Means::Pool(workers) => through_pool(rt, self.alloc, TASKS, workers)?,
        };
        Ok(added)
    }
}

/// Starts a future, adds so many values and finishes it: how many were accepted.
fn added_to_one<R: Wait>(rt: &R, alloc: Global, values: u32) -> Result<u64, AllocError> {
    let (future, pass) = new_future(alloc, 1).map_err(|_| AllocError)?;
    let mut caller = Caller::new(&future, pass);
    caller.start(rt);
    let mut added = 0u64;
    for _ in 0..values {
        if caller.add(rt, 1).map_err(|_| AllocError)? {
            added = added.wrapping_add(1);
        }
    }
    caller.finish(rt);
    Ok(added)
}

/// So many futures, and for each a job of a task with so many values.
#[tactic(auto, using(crate::proofs::ZipLemmas::zip_push))]
fn jobs_of(
    alloc: Global,
    tasks: u32,
    values: u32,
) -> Result<(Vec<SharedFuture<u64>>, Vec<TaskJob<u64, Ones>>), NoMemory>
    ensures { IfOk result (λ made. AllZip MayRun made.0.items made.1.items) }
{
    let mut futures = Vec::new(alloc);
    let mut jobs = Vec::new(alloc);
    for _ in 0..tasks {
        let (future, pass) = new_future(alloc, 1)?;
        futures.push(future)?;
        jobs.push(TaskJob {
            pass,
            task: Ones { left: values },
        })?;
    }
    Ok((futures, jobs))
}

/// Runs so many tasks of so many values all at once: how many values came.
fn came_of_all<R: Wait + Threads + Sync>(
    rt: &R,
    alloc: Global,
    tasks: u32,
    values: u32,
) -> Result<u64, AllocError> {
    let (futures, jobs) = jobs_of(alloc, tasks, values).map_err(|_| AllocError)?;
    let ends = run_all(alloc, rt, futures.as_slice(), jobs).map_err(|_| AllocError)?;
    let mut came = 0u64;
    for end in ends.as_slice() {
        came = came.wrapping_add(u64::from(end.came));
    }
    Ok(came)
}

/// Runs so many jobs of one value by a pool of so many workers: how many values came.
fn through_pool<R: Wait + Threads + Sync>(
    rt: &R,
    alloc: Global,
    tasks: u32,
    workers: usize,
) -> Result<u64, AllocError> {
    let pool = Pool::new(alloc, 32).map_err(|_| AllocError)?;
    for id in 0..tasks {
        pool.start(rt, id, 0, Single { alloc })
            .map_err(|_| AllocError)?;
    }
    let mut desks = vec![in alloc; 0u64; workers.max(1)]?;
    pool.run_workers(rt, desks.as_mut_slice());
    let mut came = 0u64;
    for desk in desks.as_slice() {
        came = came.wrapping_add(*desk);
    }
    Ok(came)
}

/// Measures tasks beside additions and beside a pool, and prints tables of them.
pub fn print_tasks<R: Wait + Threads + Sync + Clock + Print>(
    rt: &R,
    alloc: Global,
) -> io::Result<()> {
    let adding = |means| Adding { alloc, means };
    let one = [
        Row::new("add_result alone", adding(Means::Additions)),
        Row::beside(0, "a task", adding(Means::Task)),
    ];
    print_table(rt, alloc, "1000000 values", u64::from(VALUES), &one)?;
    let many = [
        Row::new("Pool, 4 workers", adding(Means::Pool(4))),
        Row::beside(0, "run_all", adding(Means::Tasks)),
    ];
    print_table(
        rt,
        alloc,
        "1000 tasks of one value",
        u64::from(TASKS),
        &many,
    )
}
