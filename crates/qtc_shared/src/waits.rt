//! Calls that wait: they look a few times, and then sleep until something changed.
ghost use Rattle.std.specs.Prelude.{◌≡◌, ◌↔◌, IsTrue, IfSome, IfNone};
ghost use Rattle.qtc_events.specs.Flags.{flags_in};
ghost use Rattle.qtc_future.specs.Steps.{has_ended};
ghost use Rattle.qtc_shared.specs.Passes.{Finds, IsAwaited, IsHold, IsResumed, IsWatch, Stays};
ghost use Rattle.qtc_shared.specs.Waiting.{IsReached};

use crate::queries::copy_at;
use crate::{Pass, SharedFuture};
use qtc_base::{NoMemory, Value};
use qtc_events::Flags;
use std::hint::spin_loop;
use std::sync::Wait;

// Looks before a thread that waits goes to sleep.
const SPINS: u32 = 64;

// What a thread waits for.
#[derive(Clone, Copy)]
enum Until {
    Resumed,
    Finished,
}

impl Until {
    fn is_reached(self, flags: Flags) -> bool
        ensures { IsTrue result ↔ IsReached self (flags_in flags.bits) }
    {
        match self {
            Until::Resumed => !(flags.is_suspending() || flags.is_suspended()),
            Until::Finished => flags.is_finished(),
        }
    }
}

impl<V: Value> SharedFuture<V> {
    /// Waits until neither Suspending nor Suspended stands, and gives the flags that do.
    pub fn wait_resume<R: Wait>(&self, rt: &R, pass: &mut Pass<V>) -> Flags
        requires { pass.old.of ≡ self.now }
        ensures watch { IsWatch pass.old pass.new (flags_in result.bits) }
        ensures resumed { IsResumed (flags_in result.bits) }
    {
        self.wait_until(rt, pass, Until::Resumed)
    }

    /// Waits until Finished stands, and gives the flags that do.
    pub fn wait_finished<R: Wait>(&self, rt: &R, pass: &mut Pass<V>) -> Flags
        requires { pass.old.of ≡ self.now }
        ensures watch { IsWatch pass.old pass.new (flags_in result.bits) }
        ensures finished { IsTrue (flags_in result.bits).finished }
    {
        self.wait_until(rt, pass, Until::Finished)
    }

    fn wait_until<R: Wait>(&self, rt: &R, pass: &mut Pass<V>, until: Until) -> Flags
        requires { pass.old.of ≡ self.now }
        ensures watch { IsWatch pass.old pass.new (flags_in result.bits) }
        ensures reached { IsReached until (flags_in result.bits) }
    {
        let mut flags = self.state(pass);
        let mut looks = 0;
        for _ in rt.forever() {
            if until.is_reached(flags) {
                return flags;
            }
            if looks < SPINS {
                looks += 1;
                spin_loop();
            } else {
                self.locked.sleep(rt, flags);
            }
            flags = self.state(pass);
        }
        unreachable!()
    }

    /// Waits until the result at `index` is there, and gives a copy of it; None exactly where Canceled or Finished
    /// stands and it isn't there. Err is want of memory.
    pub fn wait_result<R: Wait>(
        &self,
        rt: &R,
        pass: &mut Pass<V>,
        index: u32,
    ) -> Result<Option<V>, NoMemory>
        requires { pass.old.of ≡ self.now }
        ensures { IsHold pass.old pass.new (Finds (IsAwaited index result)) }
    {
        for _ in rt.forever() {
            let rings = self.locked.bell.count();
            if let Some(found) = self.find(rt, pass, index) {
                return found;
            }
            self.locked.bell.sleep(rt, rings);
        }
        unreachable!()
    }

    // Looks for a result. None where it may still come.
    fn find<R: Wait>(
        &self,
        rt: &R,
        pass: &mut Pass<V>,
        index: u32,
    ) -> Option<Result<Option<V>, NoMemory>>
        requires { pass.old.of ≡ self.now }
        ensures { IsHold pass.old pass.new (Finds (λ future. IfSome result (λ found. IsAwaited index found future))) }
    {
        let (book, hold) = self.locked.show(rt, &mut pass.seat);
        let flags = book.core.flags();
        let ended = flags.is_canceled() || flags.is_finished();
        let found = copy_at(&book.core, index);
        self.locked.put(book, hold);
        match found {
            Ok(Some(value)) => Some(Ok(Some(value))),
            Ok(None) => { if ended { Some(Ok(None)) } else { None } }
            Err(NoMemory) => Some(Err(NoMemory)),
        }
    }
}
