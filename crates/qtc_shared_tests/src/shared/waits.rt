// Threads that wait on a future, each woken by another.
use crate::shared::callers::Caller;
use crate::shared::plain;
use qtc_base::NoMemory;
use std::alloc::Global;
use std::rt::Clock;
use std::sync::Wait;
use std::test::Fail;
use std::thread;
use std::thread::{Threads, join};
use std::time::Duration;

// How often a thread is woken in each way.
const ROUNDS: u32 = 100;

// How a thread is woken.
#[derive(Clone, Copy, Debug)]
enum Wake {
    Finish,
    Cancel,
    // Canceled, while it waits that a suspension ends.
    CancelSuspended,
    Resume,
    // Resumed, while it is a maker that tells that its work stands still.
    ResumeMaker,
    Report,
}

// Whether a wait ended as it should.
fn waits<R: Wait>(rt: &R, mut waiter: Caller, wake: Wake) -> bool {
    match wake {
        Wake::Finish => waiter.wait_finished(rt).bits == 4,
        Wake::Cancel => matches!(waiter.wait_result(rt, 0), Ok(None)),
        Wake::CancelSuspended => waiter.wait_resume(rt).bits == 136,
        Wake::Resume => waiter.wait_resume(rt).bits == 128,
        Wake::ResumeMaker =>
            matches!(waiter.into_maker().pause(rt), Ok(flags) if flags.bits == 128),
        Wake::Report => matches!(waiter.wait_result(rt, 0), Ok(Some(7))),
    }
}

// Gives the other time to fall asleep, and wakes it: whether the call had an effect.
fn wakes<R: Wait + Clock>(rt: &R, alloc: Global, mut waker: Caller, wake: Wake) -> bool {
    thread::sleep(rt, Duration::from_micros(200));
    match wake {
        Wake::Finish => waker.finish(rt),
        Wake::Cancel | Wake::CancelSuspended => waker.cancel(rt),
        Wake::Resume | Wake::ResumeMaker => matches!(waker.set_suspended(rt, false), Ok(true)),
        Wake::Report => waker.report(rt, alloc, 0, 7).is_ok(),
    }
}

// Suspends the future where the wait wants it.
fn prepares<R: Wait>(rt: &R, caller: &mut Caller, wake: Wake) -> bool {
    match wake {
        Wake::CancelSuspended | Wake::Resume | Wake::ResumeMaker => matches!(
            caller.set_suspended(rt, true),
            Ok(true)
        ),
        Wake::Finish | Wake::Cancel | Wake::Report => true,
    }
}

// Whether a thread that waits is woken by another.
fn is_woken<R: Threads + Wait + Clock + Sync>(
    rt: &R,
    alloc: Global,
    wake: Wake,
) -> Result<bool, NoMemory> {
    let (future, pass) = plain(alloc, 2)?;
    let mut waker = Caller::new(&future, pass);
    let Some(waiter) = waker.another(rt) else {
        return Ok(false);
    };
    let prepared = prepares(rt, &mut waker, wake);
    let (waited, woke) = join(
        rt,
        move || waits(rt, waiter, wake),
        move || wakes(rt, alloc, waker, wake),
    );
    Ok(prepared && waited && woke)
}

#[test]
fn who_waits_is_woken(rt: HostRuntime) -> Result<(), Fail> {
    let wakes = [
        Wake::Finish,
        Wake::Cancel,
        Wake::CancelSuspended,
        Wake::Resume,
        Wake::ResumeMaker,
        Wake::Report,
    ];
    for wake in wakes {
        for round in 0..ROUNDS {
            assert!(rt;
                is_woken(&rt, rt.alloc(), wake)?,
                "{wake:?} in round {round}"
            );
        }
    }
    Ok(())
}
