// An engine whose future is suspended.
ghost use Rattle.std.specs.Prelude.{◌≡◌, false};
ghost use Rattle.qtc_kernel.specs.EngineParts.{IsDesk};

use crate::tests::bytes_of;
use crate::tests::engines::{drive, engine_of, last_desk, map_plan};
use crate::{Desk, Engine};
use qtc_base::Bytes;
use qtc_ops::{FoldOp, ItemFn, MapOp};
use qtc_outside::Gate;
use qtc_shared::Pass;
use std::alloc::Global;
use std::process::Abort;
use std::rt::Clock;
use std::sync::Wait;
use std::sync::atomic::Ordering::SeqCst;
use std::sync::atomic::{AtomicBool, AtomicU32};
use std::test::Fail;
use std::thread;
use std::thread::{Threads, join};
use std::time::Duration;

// Is told just before the future is resumed, and counts its entries before that and after.
#[derive(Drop)]
struct Watchman {
    resumed: AtomicBool,
    early: AtomicU32,
    late: AtomicU32,
}

impl Gate for Watchman {
    fn enter(&self, _job: u32, _index: u32) {
        let count = if self.resumed.load(SeqCst) {
            &self.late
        } else {
            &self.early
        };
        count.fetch_add(1, SeqCst);
    }
}

// Gives a worker the time to come to the gate, then resumes the future: whether that had an effect.
fn resumes<F: ItemFn, R: Wait + Clock>(
    rt: &R,
    engine: &Engine<'_, F, FoldOp, Watchman>,
    gate: &Watchman,
    mut pass: Pass<Bytes>,
) -> bool
    requires { pass.of ≡ engine.now.future }
{
    thread::sleep(rt, Duration::from_millis(2));
    gate.resumed.store(true, SeqCst);
    matches!(
        engine.future().set_suspended(rt, &mut pass, false),
        Ok(true)
    )
}

// Works with a desk while another thread resumes the future: whether that had an effect.
fn drive_and_resume<F: ItemFn + Drop, R: Threads + Wait + Clock + Sync>(
    rt: &R,
    engine: &Engine<'_, F, FoldOp, Watchman>,
    mut desk: Desk<F>,
    gate: &Watchman,
    pass: Pass<Bytes>,
) -> bool
    requires desk { IsDesk F.value F.called engine.now desk }
    requires out { desk.badge.is_in ≡ false }
    requires pass { pass.of ≡ engine.now.future }
{
    let ((), resumed) = join(
        rt,
        move ||
            requires desk { IsDesk F.value F.called engine.now desk }
            requires out { desk.badge.is_in ≡ false }
        { drive(rt, engine, &mut desk) },
        move ||
            requires { pass.of ≡ engine.now.future }
        { resumes(rt, engine, gate, pass) },
    );
    resumed
}

#[test]
fn a_worker_waits_while_the_future_is_suspended(rt: HostRuntime) -> Result<(), Fail> {
    for is_reported in [false, true] {
        waits_while_suspended(&rt, rt.alloc(), is_reported)?;
    }
    Ok(())
}

// Suspends an engine, and reports by the caller's pass that its work stands still, or not: its worker comes to the gate
// only once the future is resumed.
fn waits_while_suspended<R: Threads + Wait + Clock + Sync + Abort>(
    rt: &R,
    alloc: Global,
    is_reported: bool,
) -> Result<(), Fail> {
    let gate = Watchman {
        resumed: AtomicBool::new(false),
        early: AtomicU32::new(0),
        late: AtomicU32::new(0),
    };
    let items = bytes_of(alloc, b"abcd")?;
    let (plan, functions) = map_plan(rt, alloc, MapOp::Same, &items, 1, &[1])?;
    let (engine, mut desks, mut pass) = engine_of(alloc, plan, functions, &gate)?;
    assert!(rt; engine.future().set_suspended(rt, &mut pass, true)?);
    if is_reported {
        assert!(rt; engine.future().report_suspended(rt, &mut pass)?);
    }
    let Some(desk) = last_desk(&engine, &mut desks) else {
        panic!(rt; "no desk")
    };
    assert!(rt; drive_and_resume(rt, &engine, desk, &gate, pass));
    assert_eq!(rt; gate.early.load(SeqCst), 0);
    assert_eq!(rt; gate.late.load(SeqCst), 4);
    Ok(())
}
