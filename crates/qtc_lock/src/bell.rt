//! A count of changes that threads sleep on.
use crate::count::Count;
use crate::pauses::{PAUSES, pause};
use crate::sleepers::Sleepers;
use std::alloc::Global;
use std::sync::Wait;

/// A bell that is rung after each change of something that threads wait for, and on which they sleep between two looks.
///
/// Who waits reads the count, looks at what it waits for, and where it has to wait sleeps on that count. So a change that
/// the look missed rings after the count was read, and the sleep ends. It compares the low 32 bits of the number of
/// rings, and misses a number of rings that is a multiple of 2^32.
///
/// Nothing of this is claimed: no clause says how often it rang, or that a sleeper wakes. It stands where a
/// `std::sync::Condvar` would, for what changes without a lock. *Own.*
#[derive(Drop)]
pub struct Bell {
    rings: Count,
    sleepers: Sleepers,
}

impl Bell {
    /// A bell that never rang. `None` is want of memory.
    pub fn new(alloc: Global) -> Option<Bell> {
        let rings = Count::new(alloc)?;
        let sleepers = Sleepers::new(alloc)?;
        Some(Bell { rings, sleepers })
    }

    /// The low 32 bits of how often it rang. It is one load.
    pub fn count(&self) -> u32 {
        (self.rings.get() & 0xffff_ffff) as u32
    }

    /// Raises the count, and wakes all who sleep. Where nobody does, it makes no call of the system.
    pub fn ring(&self) {
        self.rings.raise();
        if self.sleepers.any() {
            self.rings.wake_all();
        }
    }

    /// Waits while the count is the one given: it pauses a few times, and then sleeps. It returns once the count differs,
    /// at once where it already does, and may return for no reason, so its caller looks again.
    pub fn sleep<R: Wait>(&self, rt: &R, count: u32) {
        for before in 0..PAUSES {
            if self.count() != count {
                return;
            }
            pause(before);
        }
        self.sleepers.enter();
        self.rings.park(rt, count);
        self.sleepers.leave();
    }
}
