//! Threads that wait for a second on a shared future. Whoever runs the program reads how much processor time that takes.
use crate::callers::{Caller, new_future};
use crate::waits::print_wait;
use qtc_base::NoMemory;
use std::alloc::{AllocError, Global};
use std::rt::Clock;
use std::sync::Wait;
use std::thread::{Threads, join};
use std::time::{Duration, Instant};
use std::{io, thread};

/// A call that waits.
#[derive(Clone, Copy)]
pub enum Waiting {
    /// Until a suspension ends.
    Resume,
    /// The same, by a maker that tells that its work stands still.
    Pause,
    /// Until the future is finished.
    Finish,
    /// Until the first result is there, or none can come.
    Result,
}

impl Waiting {
    fn name(self) -> &'static str {
        match self {
            Waiting::Resume => "resume",
            Waiting::Pause => "pause",
            Waiting::Finish => "finish",
            Waiting::Result => "result",
        }
    }

    /// Whether it waits only where the future is suspended.
    fn is_for_resume(self) -> bool {
        matches!(self, Waiting::Resume | Waiting::Pause)
    }
}

/// Makes the call.
fn wait<R: Wait>(rt: &R, mut waiter: Caller, waiting: Waiting) -> Result<(), NoMemory> {
    match waiting {
        Waiting::Resume => {
            waiter.wait_resume(rt);
        }
        Waiting::Pause => {
            waiter.pause(rt)?;
        }
        Waiting::Finish => {
            waiter.wait_finished(rt);
        }
        Waiting::Result => {
            waiter.wait_first(rt)?;
        }
    }
    Ok(())
}

/// How long the call waits.
fn time_wait<R: Wait + Clock>(rt: &R, waiter: Caller, waiting: Waiting) -> io::Result<Duration> {
    let begin = Instant::now(rt)?;
    wait(rt, waiter, waiting).map_err(|_| AllocError)?;
    begin.elapsed(rt)
}

/// Does nothing for a second, and then resumes or finishes the future.
fn wake_late<R: Wait + Clock>(rt: &R, mut waker: Caller, waiting: Waiting) {
    thread::sleep(rt, Duration::from_secs(1));
    if waiting.is_for_resume() {
        let _resumed = waker.set_suspended(rt, false);
    } else {
        waker.finish(rt);
    }
}

/// Lets one thread wait, and another wake it after a second: how long the wait was.
fn time_woken<R: Wait + Threads + Sync + Clock>(
    rt: &R,
    waiter: Caller,
    waker: Caller,
    waiting: Waiting,
) -> io::Result<Duration> {
    let (waited, ()) = join(
        rt,
        move || time_wait(rt, waiter, waiting),
        move || wake_late(rt, waker, waiting),
    );
    waited
}

/// Waits for a second in a call of a shared future, and prints how long that was.
pub fn print_future_wait<R: Wait + Threads + Sync + Clock + Print>(
    rt: &R,
    alloc: Global,
    waiting: Waiting,
) -> io::Result<()> {
    let (future, pass) = new_future(alloc, 2).map_err(|_| AllocError)?;
    let mut waker = Caller::new(&future, pass);
    let waiter = waker.another(rt).ok_or(AllocError)?;
    if waiting.is_for_resume() {
        let _suspended = waker.set_suspended(rt, true);
    }
    let waited = time_woken(rt, waiter, waker, waiting)?;
    print_wait(rt, waiting.name(), waited)
}
