//! The core of a pool behind its lock.
ghost use Rattle.std.specs.Prelude.{◌≡◌, IfOk};
ghost use Rattle.qtc_pool.specs.Calls.{OnceDoes};

use crate::calls::Call;
use qtc_base::NoMemory;
use qtc_lock::{KeyLock, Keyed};
use qtc_pool_core::PoolCore;
use std::alloc::Global;
use std::marker::Brand;
use std::sync::Wait;

/// A core, which is known by the limit that it began with. Each hold of the lock moves it out and in, so it is boxed. What
/// is done to it is done here alone: one call a hold.
#[derive(Drop)]
pub(crate) struct Guarded<K> {
    core: Box<PoolCore<K>>,
}

impl<K: Send> Keyed for Guarded<K> {
    type Key = u64;

    ghost fits = { λ first guarded. guarded.core.value.first ≡ first };
}

/// Holds the core for one call of it, and answers what that answers.
pub(crate) fn locked<K: Send, C: Call<K>, R: Wait>(
    rt: &R,
    lock: &KeyLock<Guarded<K>>,
    call: C,
) -> C::Answer
    ensures { OnceDoes (λ before after. C.does call before after result) }
{
    let (mut held, hold) = lock.take(rt);
    let answer = call.make(&mut held.core);
    lock.put(held, hold);
    answer
}

/// Ends the lock, and gives the core.
pub(crate) fn unlocked<K: Send, R: Wait>(rt: &R, lock: KeyLock<Guarded<K>>) -> PoolCore<K>
    ensures { result.first ≡ lock.key }
{
    let Guarded { core } = lock.close(rt);
    Box::into_inner(core)
}

/// A lock over a core. Err is want of memory.
pub(crate) fn guard<K: Send + Drop>(
    alloc: Global,
    core: PoolCore<K>,
) -> Result<KeyLock<Guarded<K>>, NoMemory>
    ensures { IfOk result (λ lock. lock.key ≡ core.first) }
{
    let core = Box::new(alloc, core)?;
    match KeyLock::new::<Brand>(alloc, Guarded { core }) {
        Ok(lock) => Ok(lock),
        Err(_guarded) => Err(NoMemory),
    }
}
