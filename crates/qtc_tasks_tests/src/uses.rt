// The three uses of the page of `qtc_tasks`.
ghost use Rattle.std.specs.Prelude.{◌≡◌, ◌<◌, ◌+◌, false, None};
ghost use Rattle.std.specs.List.{AllZip, range_with_len};
ghost use Rattle.qtc_tasks.specs.Runs.{MayRun};

use crate::made::{Stop, another, are_values, listed, one, plain, stop_of};
use qtc_base::{List, NoMemory};
use qtc_future::{FutureCore, Outcome};
use qtc_shared::{Pass, SharedFuture};
use qtc_tasks::{Synchronizer, Task, TaskEnd, TaskFault, TaskJob, ready, run_all, unwrap_outcome};
use std::alloc::Global;
use std::sync::Wait;
use std::test::Fail;
use std::thread::{Threads, join};

// How many numbers stream at most.
const NUMBERS: u32 = 1_000_000;

// The numbers from `next` on.
#[derive(Drop)]
struct Numbers {
    next: u32,
    left: u32,
    ghost fits: { next + left < 4294967296 },
}

impl Task<u32> for Numbers {
    ghost state = { λ task. record { left = range_with_len task.next task.left; bad = None } };

    fn next(&mut self) -> Result<Option<u32>, TaskFault> {
        if self.left == 0 {
            return Ok(None);
        }
        let number = self.next;
        self.next += 1;
        self.left -= 1;
        Ok(Some(number))
    }
}

// Waits for a number, and cancels the stream: that number.
fn canceled_at<R: Wait>(
    rt: &R,
    stream: &SharedFuture<u32>,
    mut watcher: Pass<u32>,
    place: u32,
) -> Result<Option<u32>, NoMemory>
    requires { watcher.of ≡ stream.now }
{
    let number = stream.wait_result(rt, &mut watcher, place);
    stream.cancel(rt, &mut watcher);
    number
}

// Streams numbers in one thread, while another cancels them: how the job ended, and the number that was waited for.
fn streamed<R: Threads + Wait + Sync>(
    rt: &R,
    alloc: Global,
    stream: &SharedFuture<u32>,
    pass: Pass<u32>,
    watcher: Pass<u32>,
) -> Result<(Vec<TaskEnd<u32, Numbers>>, Option<u32>), NoMemory>
    requires of { (pass.of ≡ stream.now) × (watcher.of ≡ stream.now) }
    requires maker { pass.number < stream.now.terms.makers }
    requires mode { stream.now.terms.filter ≡ false }
{
    let numbers = Numbers {
        next: 0,
        left: NUMBERS,
    };
    let jobs = one(
        alloc,
        TaskJob {
            pass,
            task: numbers,
        },
    )?
    .into_vec();
    let futures = std::slice::from_ref(stream);
    let (ends, number) = join(
        rt,
        move ||
            requires { AllZip MayRun futures.now jobs.items }
        { run_all(alloc, rt, futures, jobs) },
        move ||
            requires { watcher.of ≡ stream.now }
        { canceled_at(rt, stream, watcher, 10) },
    );
    Ok((ends?, number?))
}

#[test]
fn a_stream_is_canceled_by_another_thread(rt: HostRuntime) -> Result<(), Fail> {
    let alloc = rt.alloc();
    let (stream, mut pass) = plain(alloc)?;
    let watcher = another(&rt, &stream, &mut pass)?;
    let (ends, number) = streamed(&rt, alloc, &stream, pass, watcher)?;
    assert_eq!(rt; number, Some(10));
    for end in ends.as_slice() {
        assert!(rt; end.came > 10);
        // All numbers came where the cancel was slower than they.
        assert!(rt; stop_of(&end.stop) == Stop::Canceled || end.came == NUMBERS);
    }
    Ok(())
}

#[test]
fn two_tasks_are_waited_for(rt: HostRuntime) -> Result<(), Fail> {
    let alloc = rt.alloc();
    let (first, mut pass) = plain(alloc)?;
    let (second, mut other) = plain(alloc)?;
    let watch_first = another(&rt, &first, &mut pass)?;
    let watch_second = another(&rt, &second, &mut other)?;
    let futures = [first, second];
    let shared = futures.as_slice();
    let mut jobs = Vec::new(alloc);
    let task = Numbers { next: 0, left: 10 };
    jobs.push(TaskJob { pass, task })?;
    let task = Numbers { next: 5, left: 20 };
    jobs.push(TaskJob { pass: other, task })?;
    let mut both = Synchronizer::new(alloc, false);
    assert!(rt; both.add(&shared[0], watch_first).is_ok());
    assert!(rt; both.add(&shared[1], watch_second).is_ok());
    let (ends, passes) = join(
        &rt,
        move ||
            requires { AllZip MayRun shared.now jobs.items }
        { run_all(alloc, &rt, shared, jobs) },
        move || both.wait(&rt),
    );
    let mut came = 0u32;
    for end in ends?.as_slice() {
        came = came.wrapping_add(end.came);
    }
    assert_eq!(rt; (came, passes.len()), (30, 2));
    Ok(())
}

// The future of the numbers below the first of the values, as a task of its own leaves it.
fn below<R: Threads + Wait + Sync>(
    rt: &R,
    alloc: Global,
    values: List<u32>,
) -> Result<FutureCore<u32>, NoMemory> {
    let (future, mut pass) = plain(alloc)?;
    let watcher = another(rt, &future, &mut pass)?;
    let left = values.as_slice().first().copied().unwrap_or(0);
    let task = Numbers { next: 0, left };
    let jobs = one(alloc, TaskJob { pass, task })?.into_vec();
    run_all(alloc, rt, std::slice::from_ref(&future), jobs)?;
    Ok(future.close(rt, watcher))
}

// What the future comes to that a task makes of the first one's values.
fn chained<R: Threads + Wait + Sync>(
    rt: &R,
    alloc: Global,
    first: Outcome<u32>,
) -> Result<Outcome<u32>, NoMemory> {
    let outer = match first {
        Outcome::Values(values) => Outcome::Values(one(alloc, below(rt, alloc, values)?)?),
        Outcome::Failed(failure) => Outcome::Failed(failure),
        Outcome::Canceled => Outcome::Canceled,
    };
    unwrap_outcome(outer)
}

#[test]
fn a_chain_goes_on_with_the_outcome_of_an_inner_future(rt: HostRuntime) -> Result<(), Fail> {
    let alloc = rt.alloc();
    let Ok((future, pass)) = ready(alloc, listed(alloc, &[3])?) else {
        panic!(rt; "a future")
    };
    let first = future.close(&rt, pass).into_outcome()?;
    assert!(rt; are_values(&chained(&rt, alloc, first)?, &[0, 1, 2]));
    assert!(rt; matches!(chained(&rt, alloc, Outcome::Canceled)?, Outcome::Canceled));
    Ok(())
}
