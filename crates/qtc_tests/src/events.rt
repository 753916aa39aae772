ghost use Rattle.std.specs.Prelude.{◌≡◌};

use qtc_base::{Bytes, Range};
use qtc_events::{
    Call, Entry, Event, Flags, Reached, Thresholds, accounted_after, accounted_of, event_text,
    flags_after, flags_of, replay,
};
use std::test::Fail;

fn entry(call: Call, reached: Reached) -> Entry
    ensures { result.call ≡ call }
{
    Entry {
        caller: 0,
        call,
        reached,
    }
}

/// The first use of the README.
#[test]
fn a_journal_is_read(rt: HostRuntime) -> Result<(), Fail> {
    let report = Call::Report {
        begin: 0,
        kept: 2,
        total: 2,
    };
    let reported = entry(report, Reached::Nothing);
    let journal = [
        entry(Call::Start, Reached::Nothing),
        reported,
        entry(Call::Cancel, Reached::Nothing),
        entry(Call::Finish, Reached::Nothing),
    ];
    let flags = flags_of(&journal);
    assert_eq!(rt; flags.bits, 14);
    assert_eq!(rt;
        reported.posts(false, 0, 2),
        (Some(Event::Ready(0, 2)), None)
    );
    let told = replay(rt.alloc(), flags, &[Range { begin: 0, end: 2 }])?;
    let want = [
        Event::Started,
        Event::Ready(0, 2),
        Event::Canceled,
        Event::Finished,
    ];
    assert_eq!(rt; told.as_slice(), want.as_slice());
    Ok(())
}

/// Each journal of effective calls, with the flags that it leaves.
#[test]
fn journals_leave_flags(rt: HostRuntime) {
    let report = Call::Report {
        begin: 0,
        kept: 1,
        total: 1,
    };
    let start = entry(Call::Start, Reached::Nothing);
    let suspend = entry(Call::Suspend, Reached::Nothing);
    let reported = entry(Call::ReportSuspended, Reached::Nothing);
    let resume = entry(Call::Resume, Reached::Nothing);
    let cancel = entry(Call::Cancel, Reached::Nothing);
    let fail = entry(Call::Fail { index: 7 }, Reached::Nothing);
    let finish = entry(Call::Finish, Reached::Nothing);
    assert_eq!(rt; flags_of(&[]).bits, 128);
    assert_eq!(rt; flags_of(&[start]).bits, 3);
    assert_eq!(rt; flags_of(&[start, suspend]).bits, 19);
    assert_eq!(rt; flags_of(&[start, suspend, reported]).bits, 35);
    assert_eq!(rt; flags_of(&[start, suspend, reported, resume]).bits, 3);
    assert_eq!(rt;
        flags_of(&[suspend, start]).bits,
        19,
        "a start keeps a suspension"
    );
    assert_eq!(rt; flags_of(&[start, cancel]).bits, 11);
    assert_eq!(rt; flags_of(&[start, cancel, finish]).bits, 14);
    assert_eq!(rt; flags_of(&[start, fail, finish]).bits, 14);
    assert_eq!(rt;
        flags_of(&[start, entry(report, Reached::Suspend)]).bits,
        19
    );
    assert_eq!(rt; flags_of(&[start, entry(report, Reached::Cancel)]).bits, 11);
    let held = flags_of(&[start, suspend, reported]);
    assert_eq!(rt; flags_after(held, &Call::Cancel, Reached::Nothing).bits, 11);
}

#[test]
fn bits_are_tested(rt: HostRuntime) {
    let running = Flags { bits: 3 };
    assert!(rt; running.is_running() && running.is_started() && !running.is_finished());
    let ended = Flags { bits: 12 };
    assert!(rt; ended.is_finished() && ended.is_canceled() && !ended.is_running());
    let held = Flags { bits: 48 };
    assert!(rt; held.is_suspending() && held.is_suspended() && !held.is_pending());
    assert!(rt; Flags::new().is_pending() && !Flags::new().is_started());
}

#[test]
fn calls_have_effects(rt: HostRuntime) {
    let new = Flags::new();
    let canceled = Flags { bits: 11 };
    let report = |total: u32| Call::Report {
        begin: 0,
        kept: 0,
        total,
    };
    assert!(rt; Call::Start.has_effect(new) && !Call::Start.has_effect(Flags { bits: 3 }));
    assert!(rt; report(1).has_effect(new) && !report(0).has_effect(new));
    assert!(rt; !report(1).has_effect(canceled) && !Call::Suspend.has_effect(canceled));
    assert!(rt;
        !Call::Resume.has_effect(Flags { bits: 3 }),
        "no suspension stands"
    );
    assert!(rt; Call::Finish.has_effect(canceled) && !Call::Finish.has_effect(Flags { bits: 14 }));
}

#[test]
fn entries_post_their_events(rt: HostRuntime) {
    let report = Call::Report {
        begin: 5,
        kept: 1,
        total: 2,
    };
    let plain = entry(report, Reached::Nothing);
    assert_eq!(rt; plain.posts(false, 0, 3), (Some(Event::Ready(5, 7)), None));
    assert_eq!(rt; plain.posts(true, 0, 3), (Some(Event::Ready(0, 3)), None));
    assert_eq!(rt; plain.posts(true, 3, 3), (None, None));
    let last = entry(report, Reached::Cancel);
    let both = (Some(Event::Ready(5, 7)), Some(Event::Canceled));
    assert_eq!(rt; last.posts(false, 0, 0), both);
    let account = entry(Call::Account { total: 1 }, Reached::Suspend);
    assert_eq!(rt; account.posts(false, 0, 0), (None, Some(Event::Suspending)));
    let fail = entry(Call::Fail { index: 7 }, Reached::Nothing);
    assert_eq!(rt; fail.posts(false, 0, 0), (Some(Event::Canceled), None));
}

#[test]
fn thresholds_are_reached_once(rt: HostRuntime) {
    let running = Flags { bits: 3 };
    let account = Call::Account { total: 4 };
    let last = Call::Account { total: u32::MAX };
    assert_eq!(rt; accounted_after(3, &account), 7);
    assert_eq!(rt;
        accounted_of(&[
            entry(account, Reached::Nothing),
            entry(last, Reached::Nothing)
        ]),
        u32::MAX
    );
    let none = Thresholds {
        cancel_after: 0,
        suspend_after: 0,
    };
    let both = Thresholds {
        cancel_after: 5,
        suspend_after: 2,
    };
    assert_eq!(rt; none.reached(running, 0, 9), Reached::Nothing);
    assert_eq!(rt; both.reached(running, 0, 5), Reached::Cancel);
    assert_eq!(rt; both.reached(running, 0, 4), Reached::Suspend);
    assert_eq!(rt; both.reached(Flags { bits: 19 }, 0, 4), Reached::Nothing);
    assert_eq!(rt; both.reached(running, 2, 4), Reached::Nothing);
}

#[test]
fn late_watchers_are_told(rt: HostRuntime) -> Result<(), Fail> {
    let ranges = [Range { begin: 0, end: 2 }, Range { begin: 5, end: 6 }];
    let ended = replay(rt.alloc(), Flags { bits: 14 }, &ranges)?;
    let want = [
        Event::Started,
        Event::Ready(0, 2),
        Event::Ready(5, 6),
        Event::Canceled,
        Event::Finished,
    ];
    assert_eq!(rt; ended.as_slice(), want.as_slice());
    let held = replay(rt.alloc(), Flags { bits: 19 }, &[])?;
    assert_eq!(rt;
        held.as_slice(),
        [Event::Started, Event::Suspending].as_slice()
    );
    Ok(())
}

#[test]
fn events_are_lines(rt: HostRuntime) -> Result<(), Fail> {
    let mut text = Bytes::new(rt.alloc());
    let events = [
        Event::Started,
        Event::Ready(0, 10),
        Event::Suspending,
        Event::Suspended,
        Event::Resumed,
        Event::Canceled,
        Event::Finished,
    ];
    for event in &events {
        event_text(event, &mut text)?;
    }
    let want =
        b"event started\nevent ready 0 10\nevent suspending\nevent suspended\nevent resumed\nevent canceled\nevent finished\n";
    assert_eq!(rt; text.as_slice(), want.as_slice());
    Ok(())
}
