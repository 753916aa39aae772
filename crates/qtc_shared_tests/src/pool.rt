ghost use Rattle.std.specs.Prelude.{◌≡◌, ◌<◌, ◌≤◌, IfOk, length};
ghost use Rattle.std.specs.Vec.{vec_len};

use qtc_pool::{Becomes, Pool, Work};
use qtc_pool_core::{PoolEntry, ReleaseFault, StartFault};
use std::alloc::{AllocError, Global};
use std::sync::Wait;
use std::sync::atomic::AtomicU64;
use std::sync::atomic::Ordering::SeqCst;
use std::test::Fail;
use std::thread::{Threads, yield_now};

/// A desk: the ids of the tasks that ran at it.
#[derive(Drop)]
struct Notes {
    ran: Vec<u32>,
}

/// What a task does, beside noting its id.
#[derive(Debug, Drop, PartialEq, Eq)]
enum Job {
    Nothing { id: u32 },
    /// Starts one more, until the depth is 3.
    Chain { id: u32, depth: u8 },
    /// Starts one of higher priority.
    Raise { id: u32 },
    /// Gives the pool another limit.
    Widen { id: u32 },
}

impl Job {
    fn id(&self) -> u32 {
        match self {
            Job::Nothing { id } | Job::Chain { id, .. } | Job::Raise { id } | Job::Widen { id } =>
                *id,
        }
    }
}

/// Notes are added and none is lost.
impl Becomes<Notes> for Job {
    ghost use Rattle.std.specs.Prelude.{◌≤◌};
    ghost use Rattle.std.specs.Vec.{vec_len};
    ghost use Rattle.std.proofs.Common.{arith};

    ghost becomes = { λ old new. vec_len old.ran ≤ vec_len new.ran };

    ghost stays = { λ desk. Prim.omega arith };

    ghost goes_on = { λ before between after first second. Prim.omega arith };
}

impl Work<Notes> for Job {
    fn run<R: Wait>(&self, rt: &R, pool: &Pool<Job>, desk: &mut Notes) {
        let id = self.id();
        let _ = desk.ran.push(id);
        match self {
            Job::Chain { depth, .. } if *depth < 3 => {
                let next = id.wrapping_add(10_000);
                let job = Job::Chain {
                    id: next,
                    depth: *depth + 1,
                };
                let _ = pool.start(rt, next, 0, job);
            }
            Job::Raise { .. } => {
                let _ = pool.start(rt, 100, 9, Job::Nothing { id: 100 });
            }
            Job::Widen { .. } => {
                let _ = pool.set_max(rt, 3);
            }
            _ => {}
        }
    }
}

fn desks(alloc: Global, count: usize) -> Result<Vec<Notes>, AllocError>
    ensures { IfOk result (λ desks. vec_len desks ≡ count) }
{
    let mut desks = Vec::new(alloc);
    for _ in 0..count {
        desks.push(Notes {
            ran: Vec::new(alloc),
        })?;
    }
    Ok(desks)
}

/// A pool of 4 in which the tasks 1 to 4 wait, with the priorities 0, 5, 0, 5.
fn filled<R: Wait>(rt: &R, alloc: Global) -> Result<Pool<Job>, Fail> {
    let pool = Pool::new(alloc, 4)?;
    for (id, priority) in [(1, 0), (2, 5), (3, 0), (4, 5)] {
        pool.start(rt, id, priority, Job::Nothing { id })?;
    }
    Ok(pool)
}

#[test]
fn one_worker_runs_tasks_by_priority(rt: HostRuntime) -> Result<(), Fail> {
    let pool = filled(&rt, rt.alloc())?;
    let mut desks = desks(rt.alloc(), 1)?;
    pool.run_workers(&rt, desks.as_mut_slice());
    assert_eq!(rt; desks[0].ran.as_slice(), [2, 4, 1, 3].as_slice());
    let core = pool.close(&rt);
    let mut want = Vec::new(rt.alloc());
    for id in [2u32, 4, 1, 3] {
        want.push(PoolEntry::Took { id })?;
        want.push(PoolEntry::Done { id })?;
    }
    assert_eq!(rt; core.journal().get(4..), Some(want.as_slice()));
    Ok(())
}

#[test]
fn a_task_is_taken_back_once(rt: HostRuntime) -> Result<(), Fail> {
    let pool = filled(&rt, rt.alloc())?;
    assert_eq!(rt; pool.try_take(&rt, 3), Some(Job::Nothing { id: 3 }));
    assert_eq!(rt; pool.try_take(&rt, 3), None);
    let again = pool.start(&rt, 1, 0, Job::Nothing { id: 9 });
    assert_eq!(rt; again, Err(StartFault::SameId(Job::Nothing { id: 9 })));
    pool.clear(&rt);
    assert_eq!(rt; pool.try_take(&rt, 1), None);
    let want = [3, 1, 2, 4].map(|id| PoolEntry::TookBack { id });
    assert_eq!(rt; pool.close(&rt).journal().get(4..), Some(want.as_slice()));
    Ok(())
}

#[test]
fn what_waits_is_in_the_core_of_a_closed_pool(rt: HostRuntime) -> Result<(), Fail> {
    let mut core = filled(&rt, rt.alloc())?.close(&rt);
    assert_eq!(rt; core.take_next(), Some((2, Job::Nothing { id: 2 })));
    assert_eq!(rt; core.journal().len(), 5);
    Ok(())
}

#[test]
fn reserved_threads_run_nothing(rt: HostRuntime) -> Result<(), Fail> {
    let pool: Pool<Job> = Pool::new(rt.alloc(), 2)?;
    assert_eq!(rt; (pool.reserve(&rt), pool.reserve(&rt)), (Ok(()), Ok(())));
    assert_eq!(rt;
        (pool.try_start(&rt, 1), pool.try_start(&rt, 9)),
        (Ok(true), Ok(false))
    );
    assert_eq!(rt; (pool.done(&rt, 1), pool.done(&rt, 1)), (true, false));
    assert_eq!(rt; (pool.release(&rt), pool.release(&rt)), (Ok(()), Ok(())));
    assert_eq!(rt; pool.release(&rt), Err(ReleaseFault::NotReserved));
    assert_eq!(rt; pool.set_max(&rt, 3), Ok(()));
    Ok(())
}

#[test]
fn what_runs_is_ended_by_its_id_alone(rt: HostRuntime) -> Result<(), Fail> {
    let pool: Pool<Job> = Pool::new(rt.alloc(), 2)?;
    assert_eq!(rt; pool.try_start(&rt, 1), Ok(true));
    assert_eq!(rt; pool.try_take(&rt, 1), None);
    assert_eq!(rt; (pool.done(&rt, 0), pool.done(&rt, 1)), (false, true));
    Ok(())
}

#[test]
fn a_worker_leaves_a_reserved_thread_reserved(rt: HostRuntime) -> Result<(), Fail> {
    let pool = Pool::new(rt.alloc(), 2)?;
    assert_eq!(rt; pool.reserve(&rt), Ok(()));
    pool.start(&rt, 1, 0, Job::Nothing { id: 1 })?;
    let mut desks = desks(rt.alloc(), 1)?;
    pool.run_workers(&rt, desks.as_mut_slice());
    let want = [
        PoolEntry::Reserved,
        PoolEntry::Started { id: 1, priority: 0 },
        PoolEntry::Took { id: 1 },
        PoolEntry::Done { id: 1 },
    ];
    assert_eq!(rt; pool.close(&rt).journal(), want.as_slice());
    Ok(())
}

/// Runs what waits, and tells the greatest number of other tasks that a task found running when it began.
fn most_others<R: Threads + Wait + Sync>(rt: &R, pool: &Pool<Job>, desks: &mut [Notes]) -> u64
    requires { 0 < length desks.old }
{
    let inside = AtomicU64::new(0);
    let most = AtomicU64::new(0);
    pool.run_workers_with(
        rt,
        desks,
        &|_, _: &Job, desk: &mut Notes|
            ensures { vec_len desk.old.ran ≤ vec_len desk.new.ran }
        {
            most.fetch_max(inside.fetch_add(1, SeqCst), SeqCst);
            yield_now();
            inside.fetch_sub(1, SeqCst);
        },
    );
    most.load(SeqCst)
}

#[test]
fn no_more_run_at_once_than_the_limit(rt: HostRuntime) -> Result<(), Fail> {
    let pool = Pool::new(rt.alloc(), 2)?;
    for id in 0..2_000 {
        pool.start(&rt, id, 0, Job::Nothing { id })?;
    }
    let mut desks = desks(rt.alloc(), 8)?;
    assert!(rt; most_others(&rt, &pool, desks.as_mut_slice()) < 2);
    assert_eq!(rt; pool.close(&rt).journal().len(), 6_000);
    Ok(())
}

/// Ten thousand tasks that each start one more, down to a depth of 3: what ran, sorted, and the length of the journal.
fn chained<R: Threads + Wait + Sync>(
    rt: &R,
    alloc: Global,
    count: usize,
) -> Result<(Vec<u32>, usize), Fail>
    requires { 0 < count }
{
    let pool = Pool::new(alloc, 32)?;
    for id in 0..10_000 {
        pool.start(rt, id, 0, Job::Chain { id, depth: 1 })?;
    }
    let mut desks = desks(alloc, count)?;
    pool.run_workers(rt, desks.as_mut_slice());
    let mut all = Vec::new(alloc);
    for desk in &desks {
        all.extend_from_slice(desk.ran.as_slice())?;
    }
    all.sort()?;
    Ok((all, pool.close(rt).journal().len()))
}

#[test]
fn each_task_runs_once_at_some_desk(rt: HostRuntime) -> Result<(), Fail> {
    let want: Vec<u32> = (0..30_000).collect(rt.alloc())?;
    for count in [1, 4, 32] {
        let (all, entries) = chained(&rt, rt.alloc(), count)?;
        assert!(rt; all.as_slice() == want.as_slice());
        assert_eq!(rt; entries, 90_000);
    }
    Ok(())
}

#[test]
fn a_task_starts_one_of_higher_priority(rt: HostRuntime) -> Result<(), Fail> {
    let pool = Pool::new(rt.alloc(), 1)?;
    pool.start(&rt, 1, 0, Job::Raise { id: 1 })?;
    pool.start(&rt, 2, 0, Job::Nothing { id: 2 })?;
    let mut desks = desks(rt.alloc(), 1)?;
    pool.run_workers(&rt, desks.as_mut_slice());
    assert_eq!(rt; desks[0].ran.as_slice(), [1, 100, 2].as_slice());
    Ok(())
}

#[test]
fn a_task_changes_the_limit(rt: HostRuntime) -> Result<(), Fail> {
    let pool = Pool::new(rt.alloc(), 1)?;
    pool.start(&rt, 1, 0, Job::Widen { id: 1 })?;
    let mut desks = desks(rt.alloc(), 2)?;
    pool.run_workers(&rt, desks.as_mut_slice());
    let want = [
        PoolEntry::Started { id: 1, priority: 0 },
        PoolEntry::Took { id: 1 },
        PoolEntry::MaxSet { max: 3 },
        PoolEntry::Done { id: 1 },
    ];
    let core = pool.close(&rt);
    assert_eq!(rt; core.journal(), want.as_slice());
    assert_eq!(rt; core.max(), 3);
    Ok(())
}
