// Four tasks, and a thread that cancels their futures at a random time.
ghost use Rattle.std.specs.Prelude.{◌≡◌, ◌∷◌, [], IfOk};
ghost use Rattle.std.specs.List.{AllZip};
ghost use Rattle.qtc_tasks.specs.Runs.{MayRun};

use crate::made::{Stop, another, has_calls, plain, stop_of};
use qtc_base::{List, NoMemory};
use qtc_events::Call;
use qtc_future::FutureCore;
use qtc_shared::{Pass, SharedFuture};
use qtc_tasks::{ListTask, TaskEnd, TaskJob, run_all};
use std::alloc::Global;
use std::sync::Wait;
use std::test::Fail;
use std::thread::{Threads, join, yield_now};

// How often they run; bench/races.py does it 10,000 times.
const ROUNDS: u32 = 100;

// The values of a task: the numbers from 0 on.
const VALUES: u32 = 40;

type Job = TaskJob<u32, ListTask<u32>>;

type End = TaskEnd<u32, ListTask<u32>>;

// The job of a future, the pass of the thread that cancels, and one by which the future is closed.
#[derive(Drop)]
struct Parts {
    job: Job,
    cancel: Pass<u32>,
    close: Pass<u32>,
}

// A pass by which a future is canceled.
#[derive(Drop)]
struct Canceller<'a> {
    future: &'a SharedFuture<u32>,
    pass: Pass<u32>,
    ghost of: { pass.of ≡ future.now },
}

fn task_of(alloc: Global) -> Result<ListTask<u32>, NoMemory> {
    let mut values = Vec::new(alloc);
    for value in 0..VALUES {
        values.push(value)?;
    }
    Ok(ListTask::new(List::from_vec(values), None))
}

fn opened<R: Wait>(rt: &R, alloc: Global) -> Result<(SharedFuture<u32>, Parts), NoMemory>
    ensures job { IfOk result (λ made. MayRun made.0 made.1.job) }
    ensures cancel { IfOk result (λ made. made.1.cancel.of ≡ made.0) }
    ensures close { IfOk result (λ made. made.1.close.of ≡ made.0) }
{
    let task = task_of(alloc)?;
    let (future, mut pass) = plain(alloc)?;
    let cancel = another(rt, &future, &mut pass)?;
    let close = another(rt, &future, &mut pass)?;
    let job = TaskJob { pass, task };
    Ok((future, Parts { job, cancel, close }))
}

// The four of them, in their order.
fn four<T: Drop>(alloc: Global, a: T, b: T, c: T, d: T) -> Result<Vec<T>, NoMemory>
    ensures { IfOk result (λ list. list.items ≡ a ∷ b ∷ c ∷ d ∷ []) }
{
    let mut list = Vec::new(alloc);
    list.push(a)?;
    list.push(b)?;
    list.push(c)?;
    list.push(d)?;
    Ok(list)
}

// Cancels the futures, one after the other, after so many turns.
fn cancel_late<R: Wait>(rt: &R, mut cancellers: [Canceller; 4], turns: u32) {
    for canceller in cancellers.iter_mut() {
        for _ in 0..turns {
            yield_now();
        }
        canceller.future.cancel(rt, &mut canceller.pass);
    }
}

// The journal of a job that ended so, where its future was canceled or not.
fn journal_of(
    alloc: Global,
    stop: Stop,
    came: u32,
    canceled: bool,
) -> Result<Vec<(u32, Call)>, NoMemory> {
    let mut calls = Vec::new(alloc);
    if stop != Stop::NotRun {
        calls.push((0, Call::Start))?;
    }
    for begin in 0..came {
        let report = Call::Report {
            begin,
            kept: 1,
            total: 1,
        };
        calls.push((0, report))?;
    }
    if canceled {
        calls.push((1, Call::Cancel))?;
    }
    calls.push((0, Call::Finish))?;
    Ok(calls)
}

// Whether the results are the numbers from 0 on, so many as came.
fn has_numbers(core: &FutureCore<u32>, came: u32) -> bool {
    core.count() == came && (0..came).all(|number| core.get(number) == Some(&number))
}

// Whether the future is as a job leaves it that ended so.
fn is_right(alloc: Global, end: &End, core: &FutureCore<u32>) -> Result<bool, NoMemory> {
    let stop = stop_of(&end.stop);
    let canceled = core.flags().is_canceled();
    let fits = match stop {
        Stop::Whole => end.came == VALUES,
        Stop::Canceled => canceled,
        Stop::NotRun => canceled && end.came == 0,
        _ => false,
    };
    let calls = journal_of(alloc, stop, end.came, canceled)?;
    Ok(fits && has_calls(core, calls.as_slice()) && has_numbers(core, end.came))
}

// How many of the futures are right, in their order.
fn right_of(alloc: Global, ends: &[End], cores: &[FutureCore<u32>]) -> Result<u32, NoMemory> {
    let mut right = 0u32;
    for (end, core) in ends.iter().zip(cores) {
        if is_right(alloc, end, core)? {
            right = right.wrapping_add(1);
        }
    }
    Ok(right)
}

// Runs the jobs, while a thread cancels after so many turns.
fn run_late<R: Threads + Wait + Sync>(
    rt: &R,
    alloc: Global,
    futures: &[SharedFuture<u32>],
    jobs: Vec<Job>,
    cancellers: [Canceller; 4],
    turns: u32,
) -> Result<Vec<End>, NoMemory>
    requires { AllZip MayRun futures.now jobs.items }
{
    let (ends, ()) = join(
        rt,
        move ||
            requires { AllZip MayRun futures.now jobs.items }
        { run_all(alloc, rt, futures, jobs) },
        move || cancel_late(rt, cancellers, turns),
    );
    ends
}

// Runs four tasks, whose futures are canceled after so many turns: how many of them are right.
fn raced<R: Threads + Wait + Sync>(rt: &R, alloc: Global, turns: u32) -> Result<u32, NoMemory> {
    let (a, of_a) = opened(rt, alloc)?;
    let (b, of_b) = opened(rt, alloc)?;
    let (c, of_c) = opened(rt, alloc)?;
    let (d, of_d) = opened(rt, alloc)?;
    let jobs = four(alloc, of_a.job, of_b.job, of_c.job, of_d.job)?;
    let mut futures = four(alloc, a, b, c, d)?;
    let shared = futures.as_slice();
    let cancellers = [
        Canceller {
            future: &shared[0],
            pass: of_a.cancel,
        },
        Canceller {
            future: &shared[1],
            pass: of_b.cancel,
        },
        Canceller {
            future: &shared[2],
            pass: of_c.cancel,
        },
        Canceller {
            future: &shared[3],
            pass: of_d.cancel,
        },
    ];
    let ends = run_late(rt, alloc, shared, jobs, cancellers, turns)?;
    let d = futures.pop().unwrap();
    let c = futures.pop().unwrap();
    let b = futures.pop().unwrap();
    let a = futures.pop().unwrap();
    let cores = [
        a.close(rt, of_a.close),
        b.close(rt, of_b.close),
        c.close(rt, of_c.close),
        d.close(rt, of_d.close),
    ];
    right_of(alloc, ends.as_slice(), &cores)
}

// The turns of a round, pseudo-random, and as often few as many.
fn turns_of(round: u32) -> u32 {
    let mixed = round.wrapping_mul(2_654_435_761) >> 8;
    (mixed >> 8) & ((1u32 << (mixed % 11)) - 1)
}

// How many futures are right of so many rounds, from the first on.
fn right_from<R: Threads + Wait + Sync>(
    rt: &R,
    alloc: Global,
    first: u32,
    rounds: u32,
) -> Result<u32, NoMemory> {
    let mut right = 0u32;
    for round in 0..rounds {
        let turns = turns_of(first.wrapping_add(round));
        right = right.wrapping_add(raced(rt, alloc, turns)?);
    }
    Ok(right)
}

#[test]
fn each_journal_is_a_task_journal(rt: HostRuntime) -> Result<(), Fail> {
    assert_eq!(rt; right_from(&rt, rt.alloc(), 0, ROUNDS)?, 4 * ROUNDS);
    Ok(())
}
