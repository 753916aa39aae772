ghost use Rattle.std.specs.Prelude.{◌≡◌, ◌<◌, ◌≤◌, IfOk};
ghost use Rattle.qtc_pool_core.specs.Core.{Core, Replays};
ghost use Rattle.qtc_base.specs.Limits.{most_threads};
ghost use Rattle.qtc_pool.specs.Calls.{IsCleared, IsDone, IsNext, IsReleased, IsReserved, IsSet, IsStarted, IsTakenBack, IsTried, OnceDoes};

use crate::calls::{Clear, Done, Release, Reserve, SetMax, Start, TakeNext, TryStart, TryTake};
use crate::guarded::{Guarded, guard, locked, unlocked};
use crate::serving::Next;
use qtc_base::NoMemory;
use qtc_lock::{Bell, KeyLock};
use qtc_pool_core::{PoolCore, ReleaseFault, ReserveFault, StartFault, TryFault};
use std::alloc::Global;
use std::marker::Model;
use std::sync::Wait;

/// A pool of threads that threads share: a `PoolCore` behind a lock.
///
/// Each call is one call of the core in one hold of the lock, and answers what the core does at that moment; what the pool
/// is then is nobody's to tell. After a call by which a worker may find
/// something to do, or nothing left to wait for, it rings the bell that idle workers sleep on. (After QThreadPool; own.)
#[derive(Drop)]
pub struct Pool<K: Send> {
    lock: KeyLock<Guarded<K>>,
    bell: Bell,
}

impl<K: Send> Model for Pool<K> {
    ghost use Rattle.qtc_pool.specs.Shared.{Shared};

    ghost Value = { Shared };

    ghost view = { λ s. record { first = s.lock.key } };
}

impl<K: Send + Drop> Pool<K> {
    /// A pool of 1 to 1,024 threads that nobody has called yet. Err is want of memory.
    pub fn new(alloc: Global, max: u32) -> Result<Pool<K>, NoMemory>
        requires { (0 < max) × (max ≤ most_threads) }
        ensures { IfOk result (λ pool. pool.first ≡ max) }
    {
        let Some(bell) = Bell::new(alloc) else {
            return Err(NoMemory);
        };
        let lock = guard(alloc, PoolCore::new(alloc, max))?;
        Ok(Pool { lock, bell })
    }

    /// Queues a task, as `PoolCore::start` does. Either refusal hands the work back.
    pub fn start<R: Wait>(
        &self,
        rt: &R,
        id: u32,
        priority: i32,
        work: K,
    ) -> Result<(), StartFault<K>>
        ensures { OnceDoes (λ before after. IsStarted id priority work before after result) }
    {
        let started = locked(rt, &self.lock, Start { id, priority, work });
        self.bell.ring();
        started
    }

    /// Makes the id running where a task may run, as `PoolCore::try_start` does. True leaves the work, and the call of
    /// `done`, to the caller.
    pub fn try_start<R: Wait>(&self, rt: &R, id: u32) -> Result<bool, TryFault>
        ensures { OnceDoes (λ (before after : Core K). IsTried id before after result) }
    {
        locked(rt, &self.lock, TryStart { id })
    }

    /// Ends a running task, as `PoolCore::done` does: for whom `try_start` told true.
    pub fn done<R: Wait>(&self, rt: &R, id: u32) -> bool
        ensures { OnceDoes (λ (before after : Core K). IsDone id before after result) }
    {
        let ran = locked(rt, &self.lock, Done { id });
        self.bell.ring();
        ran
    }

    /// Takes a task back that waits, as `PoolCore::try_take` does.
    pub fn try_take<R: Wait>(&self, rt: &R, id: u32) -> Option<K>
        ensures { OnceDoes (λ before after. IsTakenBack id before after result) }
    {
        locked(rt, &self.lock, TryTake { id })
    }

    /// Takes back all that waits, as `PoolCore::clear` does.
    pub fn clear<R: Wait>(&self, rt: &R)
        ensures { OnceDoes (λ (before after : Core K). IsCleared before after) }
    {
        locked(rt, &self.lock, Clear);
    }

    /// Reserves a thread, as `PoolCore::reserve` does.
    pub fn reserve<R: Wait>(&self, rt: &R) -> Result<(), ReserveFault>
        ensures { OnceDoes (λ (before after : Core K). IsReserved before after result) }
    {
        locked(rt, &self.lock, Reserve)
    }

    /// Releases a reserved thread, as `PoolCore::release` does.
    pub fn release<R: Wait>(&self, rt: &R) -> Result<(), ReleaseFault>
        ensures { OnceDoes (λ (before after : Core K). IsReleased before after result) }
    {
        let released = locked(rt, &self.lock, Release);
        self.bell.ring();
        released
    }

    /// Gives the pool another limit, from 1 to 1,024, as `PoolCore::set_max` does.
    pub fn set_max<R: Wait>(&self, rt: &R, max: u32) -> Result<(), NoMemory>
        requires { (0 < max) × (max ≤ most_threads) }
        ensures { OnceDoes (λ (before after : Core K). IsSet max before after result) }
    {
        let set = locked(rt, &self.lock, SetMax { max });
        self.bell.ring();
        set
    }

    /// What a worker does next: the next task, or, where there is none, whether to wait for one.
    pub(crate) fn next<R: Wait>(&self, rt: &R) -> Next<K>
        ensures { OnceDoes (λ before after. IsNext before after result) }
    {
        locked(rt, &self.lock, TakeNext { bell: &self.bell })
    }

    /// Sleeps until the bell has rung more often than that.
    pub(crate) fn sleep<R: Wait>(&self, rt: &R, rings: u32) {
        self.bell.sleep(rt, rings);
    }

    /// Ends the pool, and gives its core: from an empty pool of the limit that this one was made with, its journal leaves
    /// what it is.
    pub fn close<R: Wait>(self, rt: &R) -> PoolCore<K>
        ensures first { result.first ≡ self.first }
        ensures replays { Replays result }
        ensures few { (0 < result.first) × (result.first ≤ most_threads) }
    {
        let Pool { lock, bell: _ } = self;
        let core = unlocked(rt, lock);
        let _journal = core.journal();
        core
    }
}
