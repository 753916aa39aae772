//! How many threads sleep, so that who changes what they wait for makes no call of the system where none does.
use crate::count::Count;
use std::alloc::Global;

/// A count of the threads that sleep on one word, beside that word.
///
/// A thread enters, parks on the word as it last saw it, and leaves, however it came to wake. Who has changed the word
/// asks afterwards whether any thread sleeps, and wakes where one does. Every step is `SeqCst`: so either the question
/// comes after the sleeper entered, and finds it; or the change came before, and parking finds another word and returns
/// at once.
///
/// Nothing of this is claimed: no clause says how many threads sleep, or that one wakes. *Own.*
#[derive(Drop)]
pub struct Sleepers {
    asleep: Count,
}

impl Sleepers {
    /// A count of no thread. `None` is want of memory.
    pub fn new(alloc: Global) -> Option<Sleepers> {
        let asleep = Count::new(alloc)?;
        Some(Sleepers { asleep })
    }

    /// Counts the thread that is about to park.
    pub fn enter(&self) {
        self.asleep.raise();
    }

    /// Takes back one `enter`, once its thread is awake. A `leave` without one would make `any` true for good.
    pub fn leave(&self) {
        self.asleep.lower();
    }

    /// Whether more threads entered than left. It is one load.
    pub fn any(&self) -> bool {
        self.asleep.get() != 0
    }
}
