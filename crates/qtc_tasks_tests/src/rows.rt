// Rows of tasks, each with how it ends and what its future then has.
ghost use Rattle.std.specs.Prelude.{◌≡◌, ◌<◌, false, IfOk};

use crate::made::{
    Stop, another, are_values, has_calls, has_events, is_failure, listed, one, plain, stop_of,
    zeros,
};
use qtc_base::{Bytes, NoMemory};
use qtc_events::{Call, Event};
use qtc_future::{FutureCore, Outcome};
use qtc_shared::{Pass, SharedFuture};
use qtc_tasks::{ListTask, Task, TaskJob, TaskStop, run_all, unwrap_outcome};
use std::alloc::Global;
use std::sync::Wait;
use std::test::Fail;
use std::thread::{Threads, join, yield_now};

// The most results that a future takes.
const MOST: u32 = 8_388_608;

// How often a thread looks at a flag at most.
const MOST_TURNS: u32 = 100_000_000;

// What is done to the future by another pass, and at which time.
#[derive(Clone, Copy, PartialEq, Eq)]
enum Before {
    Nothing,
    Cancel,
    Start,
    // It has as many results as it takes.
    Fill,
}

// How a job ended, the next value of a task that came back, and the core of its future.
#[derive(Drop)]
struct Ran {
    stop: Stop,
    came: u32,
    back: Option<u32>,
    core: FutureCore<u32>,
}

const fn report(begin: u32) -> Call {
    Call::Report {
        begin,
        kept: 1,
        total: 1,
    }
}

// Fills the future by the job's own pass.
fn fill<R: Wait>(
    rt: &R,
    alloc: Global,
    future: &SharedFuture<u32>,
    pass: &mut Pass<u32>,
) -> Result<(), NoMemory>
    requires of { pass.old.of ≡ future.now }
    requires maker { pass.old.number < future.now.terms.makers }
    ensures of { pass.new.of ≡ pass.old.of }
    ensures number { pass.new.number ≡ pass.old.number }
{
    let values = zeros(alloc, MOST)?;
    match future.report(rt, pass, 0, values, MOST) {
        Ok(_reply) => Ok(()),
        Err(NoMemory) => Err(NoMemory),
    }
}

// Does what is done before: whether it had an effect.
fn prepare<R: Wait>(
    rt: &R,
    future: &SharedFuture<u32>,
    watcher: &mut Pass<u32>,
    before: Before,
) -> bool
    requires { watcher.old.of ≡ future.now }
    ensures { watcher.new.of ≡ watcher.old.of }
{
    match before {
        Before::Cancel => future.cancel(rt, watcher),
        Before::Start => future.start(rt, watcher),
        Before::Nothing | Before::Fill => false,
    }
}

// The next value of a task that came back.
fn back_of(stop: TaskStop<ListTask<u32>>) -> Option<u32> {
    match stop {
        TaskStop::NotRun(mut task) => match task.next() {
            Ok(value) => value,
            Err(_fault) => None,
        },
        _ => None,
    }
}

// Runs a job by the future: by what it stopped, and how many values came.
fn run_by<R: Threads + Wait + Sync>(
    rt: &R,
    alloc: Global,
    future: &SharedFuture<u32>,
    pass: Pass<u32>,
    task: ListTask<u32>,
) -> Result<(TaskStop<ListTask<u32>>, u32), NoMemory>
    requires of { pass.of ≡ future.now }
    requires maker { pass.number < future.now.terms.makers }
    requires mode { future.now.terms.filter ≡ false }
{
    let mut jobs = Vec::new(alloc);
    jobs.push(TaskJob { pass, task })?;
    let mut ends = run_all(alloc, rt, std::slice::from_ref(future), jobs)?;
    match ends.pop() {
        Some(end) => Ok((end.stop, end.came)),
        None => Err(NoMemory),
    }
}

// Runs a task by a new future, to which something is done before.
fn run_one<R: Threads + Wait + Sync>(
    rt: &R,
    alloc: Global,
    task: ListTask<u32>,
    before: Before,
) -> Result<Ran, NoMemory> {
    let (future, mut pass) = plain(alloc)?;
    if before == Before::Fill {
        fill(rt, alloc, &future, &mut pass)?;
    }
    let mut watcher = another(rt, &future, &mut pass)?;
    prepare(rt, &future, &mut watcher, before);
    let (stop, came) = run_by(rt, alloc, &future, pass, task)?;
    Ok(Ran {
        stop: stop_of(&stop),
        came,
        back: back_of(stop),
        core: future.close(rt, watcher),
    })
}

#[test]
fn a_task_of_two_values_is_whole(rt: HostRuntime) -> Result<(), Fail> {
    let alloc = rt.alloc();
    let task = ListTask::new(listed(alloc, &[7, 8])?, None);
    let ran = run_one(&rt, alloc, task, Before::Nothing)?;
    assert_eq!(rt;
        (ran.stop, ran.came, ran.core.flags().bits),
        (Stop::Whole, 2, 6)
    );
    let events = [
        Event::Started,
        Event::Ready(0, 1),
        Event::Ready(1, 2),
        Event::Finished,
    ];
    assert!(rt; has_events(&ran.core, &events));
    let calls = [
        (0, Call::Start),
        (0, report(0)),
        (0, report(1)),
        (0, Call::Finish),
    ];
    assert!(rt; has_calls(&ran.core, &calls));
    assert!(rt; are_values(&ran.core.into_outcome()?, &[7, 8]));
    Ok(())
}

#[test]
fn a_canceled_future_gives_the_task_back(rt: HostRuntime) -> Result<(), Fail> {
    let alloc = rt.alloc();
    let task = ListTask::new(listed(alloc, &[7, 8])?, None);
    let ran = run_one(&rt, alloc, task, Before::Cancel)?;
    assert_eq!(rt;
        (ran.stop, ran.came, ran.core.flags().bits),
        (Stop::NotRun, 0, 12)
    );
    assert_eq!(rt; ran.back, Some(7));
    assert!(rt; has_events(&ran.core, &[Event::Canceled, Event::Finished]));
    assert!(rt; has_calls(&ran.core, &[(1, Call::Cancel), (0, Call::Finish)]));
    Ok(())
}

#[test]
fn a_started_future_gives_the_task_back(rt: HostRuntime) -> Result<(), Fail> {
    let alloc = rt.alloc();
    let task = ListTask::new(listed(alloc, &[7, 8])?, None);
    let ran = run_one(&rt, alloc, task, Before::Start)?;
    assert_eq!(rt;
        (ran.stop, ran.came, ran.core.flags().bits),
        (Stop::NotRun, 0, 6)
    );
    assert_eq!(rt; ran.back, Some(7));
    assert!(rt; has_calls(&ran.core, &[(1, Call::Start), (0, Call::Finish)]));
    Ok(())
}

// The task of a value, and then a failure.
fn failing(alloc: Global) -> Result<ListTask<u32>, NoMemory> {
    let bad = Bytes::from_slice(alloc, b"q")?;
    Ok(ListTask::new(listed(alloc, &[7])?, Some(bad)))
}

#[test]
fn a_task_that_fails_cancels_its_future(rt: HostRuntime) -> Result<(), Fail> {
    let alloc = rt.alloc();
    let ran = run_one(&rt, alloc, failing(alloc)?, Before::Nothing)?;
    assert_eq!(rt;
        (ran.stop, ran.came, ran.core.flags().bits),
        (Stop::Failed, 1, 14)
    );
    let events = [
        Event::Started,
        Event::Ready(0, 1),
        Event::Canceled,
        Event::Finished,
    ];
    assert!(rt; has_events(&ran.core, &events));
    let calls = [
        (0, Call::Start),
        (0, report(0)),
        (0, Call::Fail { index: 1 }),
        (0, Call::Finish),
    ];
    assert!(rt; has_calls(&ran.core, &calls));
    assert!(rt; is_failure(&ran.core.into_outcome()?, 1, b"q"));
    Ok(())
}

#[test]
fn what_failed_within_a_future_is_the_outcome(rt: HostRuntime) -> Result<(), Fail> {
    let alloc = rt.alloc();
    let ran = run_one(&rt, alloc, failing(alloc)?, Before::Nothing)?;
    let outer = Outcome::Values(one(alloc, ran.core)?);
    assert!(rt; is_failure(&unwrap_outcome(outer)?, 1, b"q"));
    Ok(())
}

#[test]
fn a_full_future_refuses_values(rt: HostRuntime) -> Result<(), Fail> {
    let alloc = rt.alloc();
    let task = ListTask::new(listed(alloc, &[7, 8])?, None);
    let ran = run_one(&rt, alloc, task, Before::Fill)?;
    assert_eq!(rt;
        (ran.stop, ran.came, ran.core.flags().bits),
        (Stop::Refused, 0, 6)
    );
    let events = [Event::Ready(0, MOST), Event::Started, Event::Finished];
    assert!(rt; has_events(&ran.core, &events));
    assert_eq!(rt; ran.core.count(), MOST);
    Ok(())
}

// Resumes the future once the work stands still: whether it did, and the pass.
fn resume_late<R: Wait>(
    rt: &R,
    future: &SharedFuture<u32>,
    mut watcher: Pass<u32>,
) -> (bool, Pass<u32>)
    requires { watcher.of ≡ future.now }
    ensures { result.1.of ≡ future.now }
{
    for _ in 0..MOST_TURNS {
        if future.state(&mut watcher).is_suspended() {
            let resumed = future.set_suspended(rt, &mut watcher, false) == Ok(true);
            return (resumed, watcher);
        }
        yield_now();
    }
    (false, watcher)
}

#[test]
fn a_suspended_task_stands_still_until_it_is_resumed(rt: HostRuntime) -> Result<(), Fail> {
    let alloc = rt.alloc();
    let (future, mut pass) = plain(alloc)?;
    let mut watcher = another(&rt, &future, &mut pass)?;
    future.set_suspended(&rt, &mut watcher, true)?;
    let task = ListTask::new(listed(alloc, &[7])?, None);
    let shared = &future;
    let (ran, (resumed, watcher)) = join(
        &rt,
        move ||
            requires of { pass.of ≡ shared.now }
            requires maker { pass.number < shared.now.terms.makers }
            requires mode { shared.now.terms.filter ≡ false }
        { run_by(&rt, alloc, shared, pass, task) },
        move || -> (bool, Pass<u32>)
            requires { watcher.of ≡ shared.now }
            ensures { result.1.of ≡ shared.entry.now }
        { resume_late(&rt, shared, watcher) },
    );
    let (stop, came) = ran?;
    assert_eq!(rt; (stop_of(&stop), came, resumed), (Stop::Whole, 1, true));
    let calls = [
        (1, Call::Suspend),
        (0, Call::Start),
        (0, Call::ReportSuspended),
        (1, Call::Resume),
        (0, report(0)),
        (0, Call::Finish),
    ];
    assert!(rt; has_calls(&future.close(&rt, watcher), &calls));
    Ok(())
}

// Where memory is wanted by `run_all` itself, no task was run: nobody called the future. It is so whichever allocation is
// refused, which is tried by hand (`rt try --test --fail-alloc N`).
#[test]
fn no_task_is_run_where_memory_is_wanted(rt: HostRuntime) -> Result<(), Fail> {
    let alloc = rt.alloc();
    let Ok((future, mut pass)) = plain(alloc) else {
        return Ok(());
    };
    let Ok(watcher) = another(&rt, &future, &mut pass) else {
        return Ok(());
    };
    let Ok(values) = listed(alloc, &[7]) else {
        return Ok(());
    };
    let ran = run_by(&rt, alloc, &future, pass, ListTask::new(values, None));
    let core = future.close(&rt, watcher);
    match ran {
        Ok((stop, _came)) => {
            let stop = stop_of(&stop);
            assert!(rt;
                core.flags().is_finished() && (stop == Stop::Whole || stop == Stop::Memory)
            );
        }
        Err(NoMemory) => assert!(rt; has_calls(&core, &[])),
    }
    Ok(())
}
