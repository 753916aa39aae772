// Futures that are ready as they are made, and outcomes that pass on.
use crate::made::{are_values, has_calls, has_events, is_failure, listed, one, zeros};
use qtc_base::{Bytes, NoMemory};
use qtc_events::{Call, Event};
use qtc_future::{Failure, FutureCore, Outcome};
use qtc_tasks::{ReadyFault, ready, unwrap_outcome};
use std::alloc::Global;
use std::sync::Wait;
use std::test::Fail;

// The most results that a future takes.
const MOST: u32 = 8_388_608;

#[test]
fn a_ready_future_has_its_values(rt: HostRuntime) -> Result<(), Fail> {
    let alloc = rt.alloc();
    let Ok((future, mut pass)) = ready(alloc, listed(alloc, &[7, 8])?) else {
        panic!(rt; "a future")
    };
    let found = [
        future.get(&rt, &mut pass, 0)?,
        future.get(&rt, &mut pass, 1)?,
        future.get(&rt, &mut pass, 2)?,
    ];
    assert_eq!(rt; found, [Some(7), Some(8), None]);
    let core = future.close(&rt, pass);
    let events = [Event::Started, Event::Ready(0, 2), Event::Finished];
    assert!(rt; has_events(&core, &events));
    let report = Call::Report {
        begin: 0,
        kept: 2,
        total: 2,
    };
    let calls = [(0, Call::Start), (0, report), (0, Call::Finish)];
    assert!(rt; has_calls(&core, &calls));
    assert!(rt; are_values(&core.into_outcome()?, &[7, 8]));
    Ok(())
}

// How many results a ready future of so many values has.
fn results_of<R: Wait>(rt: &R, alloc: Global, count: u32) -> Result<u32, ReadyFault> {
    let values = zeros(alloc, count).map_err(|_| ReadyFault::Memory)?;
    let (future, mut pass) = ready(alloc, values)?;
    Ok(future.count(rt, &mut pass))
}

#[test]
fn so_many_values_and_no_more_are_ready(rt: HostRuntime) -> Result<(), Fail> {
    let alloc = rt.alloc();
    assert_eq!(rt; results_of(&rt, alloc, 0), Ok(0));
    assert_eq!(rt; results_of(&rt, alloc, MOST), Ok(MOST));
    assert_eq!(rt; results_of(&rt, alloc, MOST + 1), Err(ReadyFault::PastEnd));
    Ok(())
}

#[test]
fn the_outcome_of_an_inner_future_comes_out(rt: HostRuntime) -> Result<(), Fail> {
    let alloc = rt.alloc();
    let Ok((inner, pass)) = ready(alloc, listed(alloc, &[7, 8])?) else {
        panic!(rt; "a future")
    };
    let outer = Outcome::Values(one(alloc, inner.close(&rt, pass))?);
    assert!(rt; are_values(&unwrap_outcome(outer)?, &[7, 8]));
    let mut canceled = FutureCore::new(alloc, false, 0, 0)?;
    canceled.cancel(0);
    let outer = Outcome::Values(one(alloc, canceled)?);
    assert!(rt; matches!(unwrap_outcome::<u32>(outer)?, Outcome::Canceled));
    Ok(())
}

#[test]
fn a_failure_and_a_cancel_of_the_outer_future_pass_on(rt: HostRuntime) -> Result<(), Fail> {
    let item = Bytes::from_slice(rt.alloc(), b"q")?;
    let failed: Outcome<FutureCore<u32>> = Outcome::Failed(Failure { index: 3, item });
    assert!(rt; is_failure(&unwrap_outcome(failed)?, 3, b"q"));
    let canceled: Outcome<FutureCore<u32>> = Outcome::Canceled;
    assert!(rt; matches!(unwrap_outcome(canceled)?, Outcome::Canceled));
    Ok(())
}
