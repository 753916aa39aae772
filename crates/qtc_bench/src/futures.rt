//! A shared future beside std's lock round the same core.
ghost use Rattle.std.specs.Prelude.{◌<◌};

use crate::callers::{BATCH, Caller, batch, new_future};
use crate::tables::print_table;
use crate::timing::{Row, Work};
use qtc_base::NoMemory;
use qtc_future::FutureCore;
use std::alloc::{AllocError, Global};
use std::io;
use std::rt::Clock;
use std::sync::{Mutex, Wait};
use std::thread::{Threads, map_vec};

/// How many calls are made, by all threads together.
const REPORTS: u32 = 262_144;

const LOOKS: u32 = 4_000_000;

const COUNTS: u32 = 1_000_000;

const PASSES: u32 = 60_000;

/// What is called.
#[derive(Clone, Copy)]
enum Call {
    /// A report of a batch.
    Report,
    /// A look at the flags.
    Look,
    /// The number of results, for which a pass is lent and handed back.
    Count,
    /// A pass is made, meets another, and is given back. The lock is taken as often.
    Pass,
}

/// On what.
#[derive(Clone, Copy)]
enum On {
    Mutex,
    Shared,
}

/// So many calls, made by so many threads together.
#[derive(Drop)]
struct Calling {
    alloc: Global,
    call: Call,
    calls: u32,
    on: On,
    threads: u32,
}

/// The calls of one thread among others.
#[derive(Clone, Copy)]
struct Share {
    thread: u32,
    threads: u32,
    calls: u32,
}

/// Who can make the calls.
trait Calls {
    fn report<R: Wait>(&mut self, rt: &R, alloc: Global, begin: u32) -> Result<(), NoMemory>;

    fn look<R: Wait>(&mut self, rt: &R) -> u32;

    fn count<R: Wait>(&mut self, rt: &R) -> u32;

    fn meet_another<R: Wait>(&mut self, rt: &R) -> bool;
}

/// A core under std's lock, with a caller's number.
#[derive(Drop)]
struct Locked<'a> {
    core: &'a Mutex<FutureCore<u64>>,
    number: u32,
}

/// Who makes which calls.
#[derive(Drop)]
struct Job<C> {
    caller: C,
    share: Share,
}

impl Share {
    /// The same share of another thread.
    fn of(self, thread: u32) -> Share {
        Share {
            thread,
            threads: self.threads,
            calls: self.calls,
        }
    }

    /// Where the batch of a call begins. The batches of the threads lie beside one another.
    fn begin(self, at: u32) -> u32 {
        at.wrapping_mul(self.threads)
            .wrapping_add(self.thread)
            .wrapping_mul(BATCH)
    }
}

impl Calls for Caller<'_> {
    fn report<R: Wait>(&mut self, rt: &R, alloc: Global, begin: u32) -> Result<(), NoMemory> {
        Caller::report(self, rt, alloc, begin)
    }

    fn look<R: Wait>(&mut self, _rt: &R) -> u32 {
        Caller::look(self)
    }

    fn count<R: Wait>(&mut self, rt: &R) -> u32 {
        Caller::count(self, rt)
    }

    fn meet_another<R: Wait>(&mut self, rt: &R) -> bool {
        Caller::meet_another(self, rt)
    }
}

impl Calls for Locked<'_> {
    fn report<R: Wait>(&mut self, rt: &R, alloc: Global, begin: u32) -> Result<(), NoMemory> {
        let values = batch(alloc)?;
        let mut core = self.core.lock(rt);
        match core.report_batch(self.number, begin, values, BATCH) {
            Ok(_reply) => Ok(()),
            Err(NoMemory) => Err(NoMemory),
        }
    }

    fn look<R: Wait>(&mut self, rt: &R) -> u32 {
        self.core.lock(rt).flags().bits
    }

    fn count<R: Wait>(&mut self, rt: &R) -> u32 {
        self.core.lock(rt).count()
    }

    fn meet_another<R: Wait>(&mut self, rt: &R) -> bool {
        let made = self.count(rt);
        let met = self.count(rt);
        let given_back = self.count(rt);
        made == met && met == given_back
    }
}

/// Makes one of the calls.
fn make_call<R: Wait, C: Calls>(
    rt: &R,
    alloc: Global,
    caller: &mut C,
    call: Call,
    begin: u32,
) -> Result<u64, NoMemory> {
    match call {
        Call::Report => {
            caller.report(rt, alloc, begin)?;
            Ok(1)
        }
        Call::Look => Ok(u64::from(caller.look(rt))),
        Call::Count => Ok(u64::from(caller.count(rt))),
        Call::Pass => Ok(u64::from(caller.meet_another(rt))),
    }
}

/// Makes all calls of a job.
fn make_calls<R: Wait, C: Calls + Drop>(
    rt: &R,
    alloc: Global,
    call: Call,
    job: Job<C>,
) -> Result<u64, NoMemory> {
    let Job { mut caller, share } = job;
    let mut sum = 0u64;
    for at in 0..share.calls {
        let answer = make_call(rt, alloc, &mut caller, call, share.begin(at))?;
        sum = sum.wrapping_add(answer);
    }
    Ok(sum)
}

/// Does each job in a thread of its own. The answer is the sum of theirs.
fn do_at_once<R: Wait + Threads + Sync, C: Calls + Send + Drop>(
    rt: &R,
    alloc: Global,
    call: Call,
    jobs: Vec<Job<C>>,
) -> io::Result<u64> {
    let answers = map_vec(rt, jobs, &|job| make_calls(rt, alloc, call, job))?;
    let mut sum = 0u64;
    for answer in answers {
        sum = sum.wrapping_add(answer.map_err(|_| AllocError)?);
    }
    Ok(sum)
}

/// Makes the calls on a core under std's lock.
fn on_mutex<R: Wait + Threads + Sync>(
    rt: &R,
    alloc: Global,
    call: Call,
    share: Share,
) -> io::Result<u64> {
    let core = Mutex::new(FutureCore::new(alloc, false, 0, 0).map_err(|_| AllocError)?);
    let mut jobs = Vec::new(alloc);
    for number in 0..share.threads {
        let caller = Locked {
            core: &core,
            number,
        };
        jobs.push(Job {
            caller,
            share: share.of(number),
        })?;
    }
    do_at_once(rt, alloc, call, jobs)
}

/// Makes the calls on a shared future.
fn on_shared<R: Wait + Threads + Sync>(
    rt: &R,
    alloc: Global,
    call: Call,
    share: Share,
) -> io::Result<u64> {
    let (future, pass) = new_future(alloc, 99).map_err(|_| AllocError)?;
    let mut first = Caller::new(&future, pass);
    let mut jobs = Vec::new(alloc);
    for number in 0..share.threads {
        if let Some(caller) = first.another(rt) {
            jobs.push(Job {
                caller,
                share: share.of(number),
            })?;
        }
    }
    do_at_once(rt, alloc, call, jobs)
}

impl Work for Calling {
    fn run<R: Wait + Threads + Sync>(&self, rt: &R) -> io::Result<u64> {
        let share = Share {
            thread: 0,
            threads: self.threads,
            calls: self.calls / self.threads.max(1),
        };
        match self.on {
            On::Mutex => on_mutex(rt, self.alloc, self.call, share),
            On::Shared => on_shared(rt, self.alloc, self.call, share),
        }
    }
}

/// Measures one call on both, and prints a table of them.
fn print_calls<R: Wait + Threads + Sync + Clock + Print>(
    rt: &R,
    alloc: Global,
    title: &str,
    call: Call,
    calls: u32,
) -> io::Result<()>
    requires { 0 < calls }
{
    let calling = |on, threads| Calling {
        alloc,
        call,
        calls,
        on,
        threads,
    };
    let rows = [
        Row::new("Mutex, 1 thread", calling(On::Mutex, 1)),
        Row::beside(0, "SharedFuture, 1 thread", calling(On::Shared, 1)),
        Row::new("Mutex, 2 threads", calling(On::Mutex, 2)),
        Row::beside(2, "SharedFuture, 2 threads", calling(On::Shared, 2)),
        Row::new("Mutex, 4 threads", calling(On::Mutex, 4)),
        Row::beside(4, "SharedFuture, 4 threads", calling(On::Shared, 4)),
        Row::new("Mutex, 8 threads", calling(On::Mutex, 8)),
        Row::beside(6, "SharedFuture, 8 threads", calling(On::Shared, 8)),
    ];
    print_table(rt, alloc, title, u64::from(calls), &rows)
}

/// Measures the calls of a shared future beside those of a core under std's lock, and prints a table of each.
pub fn print_futures<R: Wait + Threads + Sync + Clock + Print>(
    rt: &R,
    alloc: Global,
) -> io::Result<()> {
    print_calls(rt, alloc, "reports of 16", Call::Report, REPORTS)?;
    print_calls(rt, alloc, "looks", Call::Look, LOOKS)?;
    print_calls(rt, alloc, "counts", Call::Count, COUNTS)?;
    print_calls(rt, alloc, "passes", Call::Pass, PASSES)
}
