ghost use Rattle.std.specs.Prelude.{◌≡◌, ◌<◌, ◌≤◌, IfOk, List as PlainList, Option, length};
ghost use Rattle.qtc_chain.specs.Arrivals.{IsArrived, IsAsked};
ghost use Rattle.qtc_chain.specs.Limits.{most_futures};
ghost use Rattle.qtc_chain.specs.Moments.{OnceDoes};

use crate::calls::{Arrive, AskFinished};
use crate::locked::{Counted, guard, locked_counted, unlocked};
use crate::{AllArrive, AllState};
use qtc_base::{List, NoMemory};
use qtc_lock::KeyLock;
use std::alloc::Global;
use std::marker::Model;
use std::sync::Wait;

/// What several futures came to, by their indexes, which threads share: an `AllState` behind a lock. (After QtFuture's
/// `whenAll`; own.)
#[derive(Drop)]
pub struct WhenAll<T: Send> {
    lock: KeyLock<Counted<T>>,
}

impl<T: Send> Model for WhenAll<T> {
    ghost use Rattle.qtc_chain.specs.Moments.{Awaited};

    ghost Value = { Awaited };

    ghost view = { λ s. record { n = s.lock.key } };
}

impl<T: Send + Drop> WhenAll<T> {
    /// Waits for so many futures, at most 65,536, none of which has arrived. Err is want of memory.
    pub fn new(alloc: Global, n: u32) -> Result<WhenAll<T>, NoMemory>
        requires { n ≤ most_futures }
        ensures { IfOk result (λ all. all.n ≡ n) }
    {
        let state = AllState::new(alloc, n)?;
        let lock = guard(alloc, state)?;
        Ok(WhenAll { lock })
    }

    /// Takes the value of the future with this index, as `AllState::arrive` does.
    pub fn arrive<R: Wait>(&self, rt: &R, index: u32, value: T) -> AllArrive<T>
        requires { index < self.now.n }
        ensures { OnceDoes (λ before after. IsArrived index value before after result) }
    {
        locked_counted(rt, &self.lock, Arrive { index, value })
    }

    /// Whether all have arrived, as `AllState::is_finished` tells.
    pub fn is_finished<R: Wait>(&self, rt: &R) -> bool
        ensures { OnceDoes (λ (before after : PlainList (Option T)). IsAsked before after result) }
    {
        locked_counted(rt, &self.lock, AskFinished)
    }

    /// The values by their indexes, with none where an index has not arrived.
    pub fn close<R: Wait>(self, rt: &R) -> List<Option<T>>
        ensures { length result ≡ self.n }
    {
        unlocked(rt, self.lock).close()
    }
}
