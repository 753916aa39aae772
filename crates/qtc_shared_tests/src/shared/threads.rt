// Many threads that share a future, each run to its end.
use crate::shared::callers::Caller;
use crate::shared::plain;
use qtc_base::NoMemory;
use qtc_future::Reply;
use std::alloc::Global;
use std::sync::Wait;
use std::test::Fail;
use std::thread::{Threads, map_vec, yield_now};

const REPORTERS: u32 = 8;

// Reports of each of the reporters.
const REPORTS: u32 = 1000;

// How often a future is suspended and resumed.
const PAUSES: u32 = 300;

// The value that stands at an index.
fn value_at(index: u32) -> u32 {
    index ^ 0x5555
}

// What a thread does.
#[derive(Clone, Copy)]
enum Role {
    // Reports at the indexes from this on: how many reports are accepted.
    Report { from: u32 },
    // Suspends, tells that the work stands still, and resumes: how often all of it has an effect.
    Suspend,
    // Looks at the flags until all results are there: 1, or 0 where they moved as they may not.
    Watch,
    // Waits for the result at an index, cancels, and reports once more: 1, or 0 where that report is not dropped.
    Cancel { after: u32 },
}

#[derive(Drop)]
struct Worker<'a> {
    caller: Caller<'a>,
    role: Role,
}

fn is_accepted(reply: Reply) -> bool {
    matches!(reply, Reply::Accepted { .. })
}

fn reports<R: Wait>(
    rt: &R,
    alloc: Global,
    caller: &mut Caller,
    from: u32,
) -> Result<u32, NoMemory> {
    let mut accepted = 0u32;
    for at in 0..REPORTS {
        let index = from.wrapping_add(at);
        if is_accepted(caller.report(rt, alloc, index, value_at(index))?) {
            accepted = accepted.wrapping_add(1);
        }
    }
    Ok(accepted)
}

// Suspends once, tells that the work stands still, and resumes.
fn suspends_once<R: Wait>(rt: &R, caller: &mut Caller) -> Result<bool, NoMemory> {
    let asked = caller.set_suspended(rt, true)?;
    let stood = caller.report_suspended(rt)?;
    let resumed = caller.set_suspended(rt, false)?;
    Ok(asked && stood && resumed)
}

fn suspends<R: Wait>(rt: &R, caller: &mut Caller) -> Result<u32, NoMemory> {
    let mut effects = 0u32;
    for _ in 0..PAUSES {
        if suspends_once(rt, caller)? {
            effects = effects.wrapping_add(1);
        }
    }
    Ok(effects)
}

// Whether a future that was started, and is never finished, may show these words one after the other: it runs, is asked
// to suspend, or stands still, until it is canceled for good.
fn may_follow(before: u32, after: u32) -> bool {
    match after {
        11 => true,
        3 | 19 | 35 => before != 11,
        _ => false,
    }
}

// Looks a hundred times, and gives the last word of flags; none where one may not follow the one before.
fn looks(caller: &mut Caller, first: u32) -> Option<u32> {
    let mut before = first;
    for _ in 0..100 {
        let after = caller.flags().bits;
        if !may_follow(before, after) {
            return None;
        }
        before = after;
    }
    Some(before)
}

fn watches<R: Wait>(rt: &R, caller: &mut Caller) -> u32 {
    let mut before = 3;
    for _ in 0..100_000u32 {
        let Some(after) = looks(caller, before) else {
            return 0;
        };
        if after == 11 || caller.count(rt) == REPORTERS * REPORTS {
            return 1;
        }
        before = after;
        yield_now();
    }
    1
}

fn cancels<R: Wait>(
    rt: &R,
    alloc: Global,
    caller: &mut Caller,
    after: u32,
) -> Result<u32, NoMemory> {
    let found = caller.wait_result(rt, after)?;
    let canceled = caller.cancel(rt);
    let late = caller.report(rt, alloc, REPORTERS * REPORTS, 0)?;
    Ok(if found == Some(value_at(after)) && canceled && !is_accepted(late) {
        1
    } else {
        0
    })
}

fn works<R: Wait>(rt: &R, alloc: Global, worker: Worker) -> Result<u32, NoMemory> {
    let Worker { mut caller, role } = worker;
    match role {
        Role::Report { from } => reports(rt, alloc, &mut caller, from),
        Role::Suspend => suspends(rt, &mut caller),
        Role::Watch => Ok(watches(rt, &mut caller)),
        Role::Cancel { after } => cancels(rt, alloc, &mut caller, after),
    }
}

// A worker with a pass of its own is added, where a maker is left.
fn add_worker<'a, R: Wait>(
    rt: &R,
    workers: &mut Vec<Worker<'a>>,
    first: &mut Caller<'a>,
    role: Role,
) -> Result<(), NoMemory> {
    if let Some(caller) = first.another(rt) {
        workers.push(Worker { caller, role })?;
    }
    Ok(())
}

// The reporters and a watcher, with one more.
fn new_workers<'a, R: Wait>(
    rt: &R,
    alloc: Global,
    first: &mut Caller<'a>,
    other: Role,
) -> Result<Vec<Worker<'a>>, NoMemory> {
    let mut workers = Vec::new(alloc);
    for at in 0..REPORTERS {
        add_worker(rt, &mut workers, first, Role::Report { from: at * REPORTS })?;
    }
    add_worker(rt, &mut workers, first, Role::Watch)?;
    add_worker(rt, &mut workers, first, other)?;
    Ok(workers)
}

// All answers, where none is want of memory.
fn all_of(alloc: Global, answers: Vec<Result<u32, NoMemory>>) -> Result<Vec<u32>, NoMemory> {
    let mut all = Vec::new(alloc);
    for answer in answers {
        all.push(answer?)?;
    }
    Ok(all)
}

// All work at once: what each comes to.
fn work_at_once<R: Threads + Wait + Sync>(
    rt: &R,
    alloc: Global,
    first: &mut Caller,
    other: Role,
) -> Result<Vec<u32>, NoMemory> {
    let workers = new_workers(rt, alloc, first, other)?;
    all_of(
        alloc,
        map_vec(rt, workers, &|worker| works(rt, alloc, worker))?,
    )
}

// How many results of a reporter are there, each right and none behind a gap; none where that isn't so.
fn right_results<R: Wait>(rt: &R, caller: &mut Caller, from: u32) -> Result<Option<u32>, NoMemory> {
    let mut there = 0u32;
    let mut gap = false;
    for at in 0..REPORTS {
        let index = from.wrapping_add(at);
        match caller.get(rt, index)? {
            Some(value) if value == value_at(index) && !gap => there = there.wrapping_add(1),
            Some(_) => return Ok(None),
            None => gap = true,
        }
    }
    Ok(Some(there))
}

// Whether each reporter's results that are there are as many as it was told that they were accepted, and there are no
// others.
fn are_as_told<R: Wait>(rt: &R, caller: &mut Caller, told: &[u32]) -> Result<bool, NoMemory> {
    for (reporter, accepted) in (0..REPORTERS).zip(told) {
        if right_results(rt, caller, reporter.wrapping_mul(REPORTS))? != Some(*accepted) {
            return Ok(false);
        }
    }
    Ok(caller.get(rt, REPORTERS * REPORTS)?.is_none())
}

#[test]
fn what_many_report_is_there_once_while_the_future_is_suspended_and_watched(
    rt: HostRuntime,
) -> Result<(), Fail> {
    let (future, pass) = plain(rt.alloc(), REPORTERS + 3)?;
    let mut first = Caller::new(&future, pass);
    assert!(rt; first.start(&rt));
    let counts = work_at_once(&rt, rt.alloc(), &mut first, Role::Suspend)?;
    let want = [1000, 1000, 1000, 1000, 1000, 1000, 1000, 1000, 1, 300];
    assert_eq!(rt; counts.as_slice(), want.as_slice());
    assert!(rt; are_as_told(&rt, &mut first, counts.as_slice())?);
    Ok(())
}

#[test]
fn what_was_accepted_before_a_cancel_stays_and_the_rest_is_dropped(
    rt: HostRuntime,
) -> Result<(), Fail> {
    let (future, pass) = plain(rt.alloc(), REPORTERS + 3)?;
    let mut first = Caller::new(&future, pass);
    assert!(rt; first.start(&rt));
    let counts = work_at_once(&rt, rt.alloc(), &mut first, Role::Cancel { after: 99 })?;
    assert_eq!(rt; counts.get(8..), Some([1, 1].as_slice()));
    assert!(rt; are_as_told(&rt, &mut first, counts.as_slice())?);
    Ok(())
}
