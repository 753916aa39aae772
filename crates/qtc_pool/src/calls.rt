//! The calls of a pool's core, each a value that says what it does to the core and answers.
ghost use Rattle.std.specs.Prelude.{◌≡◌, ◌≤◌, ◌<◌};
ghost use Rattle.qtc_base.specs.Limits.{most_threads};
ghost use Rattle.qtc_pool_core.specs.Core.{Core};
ghost use Rattle.qtc_pool.specs.Calls.{IsCleared, IsDone, IsNext, IsReleased, IsReserved, IsSet, IsStarted, IsTakenBack, IsTried};

use crate::serving::Next;
use qtc_base::NoMemory;
use qtc_lock::Bell;
use qtc_pool_core::{PoolCore, ReleaseFault, ReserveFault, StartFault, TryFault};

/// One call of a core.
pub(crate) trait Call<K>: Sized {
    type Answer;

    /// What the call makes of a core, and what it answers then.
    ghost does: { Self → Core K → Core K → Self.Answer → Type 0 };

    fn make(self, core: &mut PoolCore<K>) -> Self::Answer
        ensures does { Self.does self core.old core.new result }
        ensures first { core.new.first ≡ core.old.first };
}

pub(crate) struct Start<K> {
    pub id: u32,
    pub priority: i32,
    pub work: K,
}

impl<K: Drop> Call<K> for Start<K> {
    type Answer = Result<(), StartFault<K>>;

    ghost does = { λ call. IsStarted call.id call.priority call.work };

    fn make(self, core: &mut PoolCore<K>) -> Result<(), StartFault<K>> {
        let Start { id, priority, work } = self;
        core.start(id, priority, work)
    }
}

#[derive(Drop)]
pub(crate) struct TryStart {
    pub id: u32,
}

impl<K: Drop> Call<K> for TryStart {
    type Answer = Result<bool, TryFault>;

    ghost does = { λ call. IsTried call.id };

    fn make(self, core: &mut PoolCore<K>) -> Result<bool, TryFault> {
        core.try_start(self.id)
    }
}

#[derive(Drop)]
pub(crate) struct Done {
    pub id: u32,
}

impl<K> Call<K> for Done {
    type Answer = bool;

    ghost does = { λ call. IsDone call.id };

    fn make(self, core: &mut PoolCore<K>) -> bool {
        core.done(self.id)
    }
}

#[derive(Drop)]
pub(crate) struct TryTake {
    pub id: u32,
}

impl<K> Call<K> for TryTake {
    type Answer = Option<K>;

    ghost does = { λ call. IsTakenBack call.id };

    fn make(self, core: &mut PoolCore<K>) -> Option<K> {
        core.try_take(self.id)
    }
}

#[derive(Drop)]
pub(crate) struct Clear;

impl<K: Drop> Call<K> for Clear {
    type Answer = ();

    ghost does = { λ _ old new _. IsCleared old new };

    fn make(self, core: &mut PoolCore<K>) {
        core.clear();
    }
}

#[derive(Drop)]
pub(crate) struct Reserve;

impl<K: Drop> Call<K> for Reserve {
    type Answer = Result<(), ReserveFault>;

    ghost does = { λ _. IsReserved };

    fn make(self, core: &mut PoolCore<K>) -> Result<(), ReserveFault> {
        core.reserve()
    }
}

#[derive(Drop)]
pub(crate) struct Release;

impl<K: Drop> Call<K> for Release {
    type Answer = Result<(), ReleaseFault>;

    ghost does = { λ _. IsReleased };

    fn make(self, core: &mut PoolCore<K>) -> Result<(), ReleaseFault> {
        core.release()
    }
}

/// Sets a limit, from 1 to 1,024.
#[derive(Drop)]
pub(crate) struct SetMax {
    pub max: u32,
    ghost within: { (0 < max) × (max ≤ most_threads) },
}

impl<K: Drop> Call<K> for SetMax {
    type Answer = Result<(), NoMemory>;

    ghost does = { λ call. IsSet call.max };

    fn make(self, core: &mut PoolCore<K>) -> Result<(), NoMemory> {
        core.set_max(self.max)
    }
}

/// Takes the next task for a worker. Where there is none, it reads how often the bell has rung.
#[derive(Drop)]
pub(crate) struct TakeNext<'a> {
    pub bell: &'a Bell,
}

impl<'a, K> Call<K> for TakeNext<'a> {
    type Answer = Next<K>;

    ghost does = { λ _. IsNext };

    fn make(self, core: &mut PoolCore<K>) -> Next<K> {
        match core.take_next() {
            Some((id, work)) => Next::Task { id, work },
            None if core.running() == 0 => Next::Leave,
            None => Next::Sleep {
                rings: self.bell.count(),
            },
        }
    }
}
