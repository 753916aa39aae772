ghost use Rattle.std.specs.Prelude.{◌≡◌, [], ◌∷◌, IfOk};

use qtc_base::{Bytes, List, NoMemory};
use qtc_events::{Event, Flags, Reached};
use qtc_future::{Answer, Asked, Failure, FutureCore, Outcome, Reply, Request, run};
use qtc_store::Added;
use std::alloc::Global;
use std::test::Fail;

fn list(alloc: Global, values: &[u8]) -> Result<List<u8>, NoMemory>
    ensures { IfOk result (λ list. list ≡ values.now) }
{
    let values = Vec::from_slice(alloc, values)?;
    Ok(List::from_vec(values))
}

fn accepted(begin: u32, old_count: u32, new_count: u32) -> Reply {
    Reply::Accepted {
        added: Added {
            begin,
            old_count,
            new_count,
        },
        reached: Reached::Nothing,
    }
}

fn ended(bits: u32) -> Reply
    requires { bits ≡ 11 }
{
    Reply::Dropped(Flags { bits })
}

#[test]
fn report_after_cancel_is_dropped(rt: HostRuntime) -> Result<(), Fail> {
    let alloc = rt.alloc();
    let mut core = FutureCore::new(alloc, false, 0, 0)?;
    assert!(rt; core.start(0));
    assert_eq!(rt; core.flags().bits, 3);
    assert_eq!(rt;
        core.report_batch(0, 0, list(alloc, b"x")?, 1),
        Ok(accepted(0, 0, 1))
    );
    assert!(rt; core.cancel(0));
    assert_eq!(rt; core.flags().bits, 11);
    assert_eq!(rt;
        core.report_batch(0, 1, list(alloc, b"y")?, 1),
        Ok(ended(11))
    );
    assert_eq!(rt; (core.get(0), core.get(1)), (Some(&b'x'), None));
    assert!(rt; core.finish(0));
    assert_eq!(rt; core.flags().bits, 14);
    Ok(())
}

#[test]
fn futures_are_suspended(rt: HostRuntime) -> Result<(), Fail> {
    let mut core: FutureCore<u8> = FutureCore::new(rt.alloc(), false, 0, 0)?;
    assert_eq!(rt; core.flags().bits, 128);
    assert!(rt; core.start(0));
    assert_eq!(rt; core.flags().bits, 3);
    assert_eq!(rt; core.set_suspended(0, true), Ok(true));
    assert_eq!(rt; core.flags().bits, 19);
    assert_eq!(rt; core.report_suspended(0), Ok(true));
    assert_eq!(rt; core.flags().bits, 35);
    assert_eq!(rt; core.set_suspended(0, false), Ok(true));
    assert_eq!(rt; core.flags().bits, 3);
    assert_eq!(rt; core.set_suspended(0, false), Ok(false));
    Ok(())
}

#[test]
fn late_watchers_are_told(rt: HostRuntime) -> Result<(), Fail> {
    let alloc = rt.alloc();
    let mut core = FutureCore::new(alloc, false, 0, 0)?;
    assert!(rt; core.start(0));
    assert_eq!(rt;
        core.report_batch(0, 0, list(alloc, b"ab")?, 2),
        Ok(accepted(0, 0, 2))
    );
    assert_eq!(rt;
        core.report_batch(0, 5, list(alloc, b"c")?, 1),
        Ok(accepted(5, 2, 2))
    );
    assert!(rt; core.cancel(0) && core.finish(0));
    let told = [
        Event::Started,
        Event::Ready(0, 2),
        Event::Ready(5, 6),
        Event::Canceled,
        Event::Finished,
    ];
    let replay = core.replay()?;
    assert_eq!(rt; replay.as_slice(), told.as_slice());
    assert_eq!(rt; core.events(), told.as_slice());
    assert_eq!(rt;
        (core.event_at(4), core.event_at(5)),
        (Some(Event::Finished), None)
    );
    assert_eq!(rt; (core.count(), core.accounted()), (2, 3));
    let ranges = core.batches()?;
    assert_eq!(rt; (ranges.len(), core.journal().len()), (2, 5));
    match core.into_outcome()? {
        Outcome::Canceled => Ok(()),
        _ => Err(Fail::from("the future was canceled")),
    }
}

#[test]
fn failures_are_kept(rt: HostRuntime) -> Result<(), Fail> {
    let alloc = rt.alloc();
    let mut core: FutureCore<u8> = FutureCore::new(alloc, false, 0, 0)?;
    assert!(rt; core.start(0));
    assert!(rt; core.fail(0, 7, Bytes::from_slice(alloc, b"q")?));
    assert_eq!(rt; core.account(0, 1), Ok(ended(11)));
    assert!(rt; core.finish(0));
    assert_eq!(rt; core.flags().bits, 14);
    match core.into_outcome()? {
        Outcome::Failed(Failure { index, item }) => {
            assert_eq!(rt; (index, item.as_slice()), (7, b"q".as_slice()));
            Ok(())
        }
        _ => Err(Fail::from("an item failed")),
    }
}

#[test]
fn results_are_added(rt: HostRuntime) -> Result<(), Fail> {
    let mut core = FutureCore::new(rt.alloc(), false, 0, 0)?;
    assert!(rt; core.start(0));
    assert_eq!(rt; core.add_result(0, None, b'x'), Ok(accepted(0, 0, 1)));
    assert_eq!(rt; core.add_result(0, Some(0), b'y'), Ok(Reply::Taken(0)));
    assert_eq!(rt;
        core.add_result(0, Some(8_388_608), b'y'),
        Ok(Reply::PastEnd)
    );
    assert!(rt; core.finish(0));
    let dropped = Reply::Dropped(Flags { bits: 6 });
    assert_eq!(rt; core.add_result(0, None, b'z'), Ok(dropped));
    match core.into_outcome()? {
        Outcome::Values(values) => {
            assert_eq!(rt; values.as_slice(), b"x".as_slice());
            Ok(())
        }
        _ => Err(Fail::from("the future has a result")),
    }
}

#[test]
fn nothing_happens_after_finish(rt: HostRuntime) -> Result<(), Fail> {
    let alloc = rt.alloc();
    let mut core = FutureCore::new(alloc, false, 0, 0)?;
    assert!(rt; core.start(0));
    assert_eq!(rt; core.add_result(0, None, b'x'), Ok(accepted(0, 0, 1)));
    assert!(rt; core.finish(0));
    assert!(rt; !core.start(0) && !core.cancel(0) && !core.finish(0));
    assert!(rt; !core.fail(0, 1, Bytes::new(alloc)));
    assert_eq!(rt; core.set_suspended(0, true), Ok(false));
    assert_eq!(rt; core.set_suspended(0, false), Ok(false));
    assert_eq!(rt; core.report_suspended(0), Ok(false));
    let dropped = Reply::Dropped(Flags { bits: 6 });
    assert_eq!(rt; core.report_batch(0, 1, list(alloc, b"y")?, 1), Ok(dropped));
    assert_eq!(rt; core.account(0, 1), Ok(dropped));
    assert_eq!(rt; core.get(0), Some(&b'x'));
    assert_eq!(rt; core.events().len(), 3);
    Ok(())
}

/// A filter that suspends itself at 2 and cancels itself at 4, as a list of calls.
#[test]
fn thresholds_act(rt: HostRuntime) -> Result<(), Fail> {
    let alloc = rt.alloc();
    let ask = |request: Request<u8>| Asked { caller: 0, request };
    let report = Request::ReportBatch {
        begin: 0,
        values: list(alloc, b"a")?,
        total: 2,
    };
    let calls = vec![in alloc;
        ask(Request::Start),
        ask(report),
        ask(Request::SetSuspended { on: false }),
        ask(Request::Account { total: 3 }),
        ask(Request::Finish),
    ]?;
    let (core, answers) = run(alloc, true, 4, 2, calls)?;
    let added = Added {
        begin: 0,
        old_count: 0,
        new_count: 1,
    };
    let want = [
        Answer::Effect(true),
        Answer::Reply(Reply::Accepted {
            added,
            reached: Reached::Suspend,
        }),
        Answer::Effect(true),
        Answer::Reply(Reply::Counted {
            reached: Reached::Cancel,
        }),
        Answer::Effect(true),
    ];
    assert_eq!(rt; answers.as_slice(), want.as_slice());
    let told = [
        Event::Started,
        Event::Ready(0, 1),
        Event::Suspending,
        Event::Resumed,
        Event::Canceled,
        Event::Finished,
    ];
    assert_eq!(rt; core.events(), told.as_slice());
    assert_eq!(rt; core.accounted(), 5);
    Ok(())
}
