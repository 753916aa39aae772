//! How a thread that waits passes the time before it sleeps, since a sleep and a wake cost two calls of the system.
use std::hint::spin_loop;
use std::thread::yield_now;

/// Pauses before a sleep.
pub(crate) const PAUSES: u32 = 48;

// The first of them keep the processor, the others leave it to another thread.
const SPINS: u32 = 16;

/// Pauses once, after so many pauses.
pub(crate) fn pause(before: u32) {
    if before < SPINS {
        spin_loop();
    } else {
        yield_now();
    }
}
