use qtc_pool_core::{PoolCore, PoolEntry, ReleaseFault, StartFault, TryFault};
use std::alloc::Global;
use std::test::Fail;

/// A pool of 4 in which the tasks 1 to 4 wait, with the priorities 0, 5, 0, 5. Each task's work is ten times its id.
fn filled(alloc: Global) -> Result<PoolCore<u32>, Fail> {
    let mut pool = PoolCore::new(alloc, 4);
    pool.reserve_queue()?;
    for (id, priority, work) in [(1, 0, 10), (2, 5, 20), (3, 0, 30), (4, 5, 40)] {
        pool.start(id, priority, work)?;
    }
    Ok(pool)
}

/// The lines of the README's first use.
#[test]
fn first_use(rt: HostRuntime) -> Result<(), Fail> {
    let mut pool = PoolCore::new(rt.alloc(), 2);
    pool.start(7, 0, "write")?;
    pool.start(8, 5, "print")?;
    assert_eq!(rt; pool.take_next(), Some((8, "print")));
    assert_eq!(rt; pool.try_take(7), Some("write"));
    assert!(rt; pool.done(8));
    let want = [
        PoolEntry::Started { id: 7, priority: 0 },
        PoolEntry::Started { id: 8, priority: 5 },
        PoolEntry::Took { id: 8 },
        PoolEntry::TookBack { id: 7 },
        PoolEntry::Done { id: 8 },
    ];
    assert_eq!(rt; pool.journal(), want.as_slice());
    Ok(())
}

#[test]
fn the_first_of_greatest_priority_is_taken(rt: HostRuntime) -> Result<(), Fail> {
    let mut pool = filled(rt.alloc())?;
    for next in [(2, 20), (4, 40), (1, 10), (3, 30)] {
        assert_eq!(rt; pool.take_next(), Some(next));
    }
    assert_eq!(rt; pool.take_next(), None);
    assert_eq!(rt; (pool.running(), pool.reserved(), pool.max()), (4, 0, 4));
    Ok(())
}

#[test]
fn a_task_is_taken_back_once(rt: HostRuntime) -> Result<(), Fail> {
    let mut pool = filled(rt.alloc())?;
    assert_eq!(rt; pool.try_take(3), Some(30));
    for next in [(2, 20), (4, 40), (1, 10)] {
        assert_eq!(rt; pool.take_next(), Some(next));
    }
    assert_eq!(rt; pool.take_next(), None);
    assert_eq!(rt; pool.try_take(2), None);
    assert_eq!(rt; pool.start(1, 0, 11), Err(StartFault::SameId(11)));
    Ok(())
}

#[test]
fn reserved_threads_run_nothing(rt: HostRuntime) -> Result<(), Fail> {
    let mut pool = PoolCore::new(rt.alloc(), 2);
    assert_eq!(rt; (pool.reserve(), pool.reserve()), (Ok(()), Ok(())));
    assert_eq!(rt;
        (pool.start(1, 0, 1), pool.start(2, 0, 2)),
        (Ok(()), Ok(()))
    );
    assert_eq!(rt; (pool.take_next(), pool.take_next()), (Some((1, 1)), None));
    assert_eq!(rt;
        (pool.try_start(9), pool.try_start(2)),
        (Ok(false), Err(TryFault::SameId))
    );
    assert_eq!(rt; (pool.release(), pool.release()), (Ok(()), Ok(())));
    assert_eq!(rt; pool.release(), Err(ReleaseFault::NotReserved));
    assert_eq!(rt; pool.set_max(3), Ok(()));
    assert_eq!(rt;
        (pool.try_start(9), pool.done(9), pool.done(9)),
        (Ok(true), true, false)
    );
    Ok(())
}

#[test]
fn clear_takes_back_in_order_of_arrival(rt: HostRuntime) -> Result<(), Fail> {
    let mut pool = PoolCore::new(rt.alloc(), 1);
    for id in [5u32, 3, 4] {
        pool.start(id, 0, id)?;
    }
    pool.clear();
    let want = [5u32, 3, 4].map(|id| PoolEntry::TookBack { id });
    assert_eq!(rt; pool.journal().get(3..), Some(want.as_slice()));
    assert_eq!(rt; pool.take_next(), None);
    Ok(())
}

/// Room is made for many tasks, in a queue with many gaps.
#[test]
fn many_tasks_keep_their_order(rt: HostRuntime) -> Result<(), Fail> {
    let mut pool = PoolCore::new(rt.alloc(), 1);
    for id in 0..500u32 {
        pool.start(id, 0, id)?;
        if id % 3 == 0 {
            assert_eq!(rt; pool.try_take(id), Some(id));
        }
    }
    for id in 0..500u32 {
        if id % 3 != 0 {
            assert_eq!(rt; pool.take_next(), Some((id, id)));
            assert!(rt; pool.done(id));
        }
    }
    assert_eq!(rt; pool.take_next(), None);
    Ok(())
}
