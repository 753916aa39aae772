//! What the pool's journal tells of the slots of jobs that several workers work on.
ghost use Rattle.std.specs.Prelude.{◌≤◌};

use super::{MOST_TURNS, run};
use qtc_outside::{Gate, NoGate};
use qtc_pool_core::PoolEntry;
use std::alloc::Global;
use std::process::Abort;
use std::sync::Wait;
use std::sync::atomic::AtomicU32;
use std::sync::atomic::Ordering::SeqCst;
use std::test::Fail;
use std::thread::{Threads, yield_now};

// Holds who enters the first job until so many have, each for at most `MOST_TURNS` turns; then it is late.
#[derive(Drop)]
struct Meeting {
    size: u32,
    entered: AtomicU32,
    late: AtomicU32,
}

impl Gate for Meeting {
    fn enter(&self, job: u32, _index: u32) {
        if job != 0 {
            return;
        }
        self.entered.fetch_add(1, SeqCst);
        for _ in 0..MOST_TURNS {
            if self.entered.load(SeqCst) >= self.size {
                return;
            }
            yield_now();
        }
        self.late.store(1, SeqCst);
    }
}

// How many slots of the job at this place were queued. None where they aren't its slots 0, 1 and so on, in this order, each
// with the job's priority.
fn slots_of(pool: &[PoolEntry], place: u32, priority: i32) -> Option<u32> {
    let mut slots = 0u32;
    for entry in pool {
        match entry {
            PoolEntry::Started { id, priority: told } if *id / 32 == place => {
                if *id % 32 != slots || *told != priority {
                    return None;
                }
                slots = slots.saturating_add(1);
            }
            _ => {}
        }
    }
    Some(slots)
}

// How many tasks were queued, and how many were done.
fn tasks_in(pool: &[PoolEntry]) -> (u32, u32) {
    let mut queued = 0u32;
    let mut done = 0u32;
    for entry in pool {
        match entry {
            PoolEntry::Started { .. } => queued = queued.saturating_add(1),
            PoolEntry::Done { .. } => done = done.saturating_add(1),
            _ => {}
        }
    }
    (queued, done)
}

// So many workers meet in the functions of one job, for which each has a slot of its own.
fn meet<R: Abort + Threads + Wait + Sync>(rt: &R, alloc: Global, workers: u32) -> Result<(), Fail>
    requires { (1 ≤ workers) × (workers ≤ 32) }
{
    let gate = Meeting {
        size: workers,
        entered: AtomicU32::new(0),
        late: AtomicU32::new(0),
    };
    let file =
        b"job a\ninput lines t\nmap same\nblocks 1\npriority 5\njob b\ninput lines t\nmap same\nblocks 1\npriority -7\n";
    let texts = [(b"t".as_slice(), b"a\nb\nc\nd\n".as_slice())];
    let (report, _) = run(rt, alloc, file.as_slice(), &texts, workers, &gate)?;
    let pool = report.pool.as_slice();
    assert_eq!(rt; gate.late.load(SeqCst), 0);
    assert_eq!(rt; slots_of(pool, 0, 5), Some(workers));
    let Some(others) = slots_of(pool, 1, -7) else {
        panic!(rt; "another slot or priority")
    };
    assert!(rt; 1 <= others && others <= workers);
    let all = workers.saturating_add(others);
    assert_eq!(rt; tasks_in(pool), (all, all));
    Ok(())
}

#[test]
fn workers_meet_each_in_a_slot_of_its_own(rt: HostRuntime) -> Result<(), Fail> {
    meet(&rt, rt.alloc(), 2)?;
    meet(&rt, rt.alloc(), 3)?;
    meet(&rt, rt.alloc(), 4)
}

// Of jobs without items, so many workers have the first slot queued and no other.
fn stay_alone<R: Abort + Threads + Wait + Sync>(
    rt: &R,
    alloc: Global,
    workers: u32,
) -> Result<(), Fail>
    requires { (1 ≤ workers) × (workers ≤ 32) }
{
    let file = b"job a\ninput lines t\nmap same\njob b\ninput lines t\nmap same\npriority 2\n";
    let texts = [(b"t".as_slice(), b"".as_slice())];
    let (report, _) = run(rt, alloc, file.as_slice(), &texts, workers, &NoGate)?;
    let pool = report.pool.as_slice();
    assert_eq!(rt; slots_of(pool, 0, 0), Some(1));
    assert_eq!(rt; slots_of(pool, 1, 2), Some(1));
    assert_eq!(rt; tasks_in(pool), (2, 2));
    Ok(())
}

#[test]
fn no_slot_is_queued_where_no_index_is_left(rt: HostRuntime) -> Result<(), Fail> {
    stay_alone(&rt, rt.alloc(), 2)?;
    stay_alone(&rt, rt.alloc(), 4)
}
