// What a future comes to, and what those are told who watch it.
ghost use Rattle.std.specs.Prelude.{◌≡◌, ◌<◌, IfOk, length};

use crate::shared::plain;
use qtc_base::{Bytes, List, NoMemory};
use qtc_events::{Event, Flags};
use qtc_future::{Failure, FutureCore, Outcome};
use qtc_shared::{Pass, SharedFuture};
use std::alloc::Global;
use std::sync::Wait;
use std::test::Fail;

// A future whose item at an index failed, closed.
fn failed<R: Wait>(
    rt: &R,
    future: SharedFuture<u32>,
    mut pass: Pass<u32>,
    index: u32,
    item: Bytes,
) -> FutureCore<u32>
    requires of { pass.of ≡ future }
    requires maker { pass.number < future.terms.makers }
{
    let _failed = future.fail(rt, &mut pass, index, item);
    future.close(rt, pass)
}

#[test]
fn what_failed_is_the_outcome(rt: HostRuntime) -> Result<(), Fail> {
    let (future, pass) = plain(rt.alloc(), 1)?;
    let core = failed(&rt, future, pass, 7, Bytes::from_slice(rt.alloc(), b"q")?);
    match core.into_outcome()? {
        Outcome::Failed(Failure { index, item }) => {
            assert_eq!(rt; (index, item.as_slice()), (7, b"q".as_slice()));
            Ok(())
        }
        _ => Err(Fail::from("an item failed")),
    }
}

// What a watcher is told.
#[derive(Drop)]
struct Told {
    // How many Ready events stand from the second event on.
    ready: u64,
    // The second event.
    second: Option<Event>,
    events: List<Event>,
    count: u64,
}

fn watched<R: Wait>(
    rt: &R,
    future: &SharedFuture<u32>,
    watcher: &mut Pass<u32>,
) -> Result<Told, NoMemory>
    requires { watcher.old.of ≡ future.now }
{
    let ready = future.ready_past(rt, watcher, 1);
    let second = future.event_at(rt, watcher, 1);
    let (events, count) = future.replay(rt, watcher)?;
    Ok(Told {
        ready,
        second,
        events,
        count,
    })
}

// Reports two values at once on a future that is started, and lets a watcher meet who did.
fn reported<R: Wait>(
    rt: &R,
    future: &SharedFuture<u32>,
    maker: &mut Pass<u32>,
    watcher: &mut Pass<u32>,
    values: List<u32>,
) -> bool
    requires of { maker.old.of ≡ future.now }
    requires maker { maker.old.number < future.now.terms.makers }
    requires watcher { watcher.old.of ≡ future.now }
    requires two { length values ≡ 2 }
    ensures { watcher.new.of ≡ future.now }
{
    let started = future.start(rt, maker);
    let reported = future.report(rt, maker, 0, values, 2);
    future.meet(rt, maker, watcher);
    started && reported.is_ok()
}

// A core that is shared, and its passes: a maker's, and another.
fn shared(alloc: Global) -> Result<(SharedFuture<u32>, Pass<u32>, Pass<u32>), NoMemory>
    ensures of { IfOk result (λ made. (made.1.of ≡ made.0) × (made.2.of ≡ made.0)) }
    ensures maker { IfOk result (λ made. made.1.number < made.0.terms.makers) }
{
    let core = FutureCore::new(alloc, false, 0, 0)?;
    let (future, mut passes) = SharedFuture::from_core(alloc, core, 1, 2)?;
    let other = passes.pop().unwrap();
    let maker = passes.pop().unwrap();
    Ok((future, maker, other))
}

#[test]
fn a_watcher_is_told_all(rt: HostRuntime) -> Result<(), Fail> {
    let (future, mut maker, mut watcher) = shared(rt.alloc())?;
    let values = List::from_vec([7, 8].to_vec(rt.alloc())?);
    assert!(rt; reported(&rt, &future, &mut maker, &mut watcher, values));
    let told = watched(&rt, &future, &mut watcher)?;
    assert_eq!(rt;
        (told.ready, told.second, told.count),
        (1, Some(Event::Ready(0, 2)), 2)
    );
    let want = [Event::Started, Event::Ready(0, 2)];
    assert_eq!(rt; told.events.as_slice(), want.as_slice());
    Ok(())
}

// Gives a pass back, and looks at the flags by another.
fn flags_after<R: Wait>(
    rt: &R,
    future: &SharedFuture<u32>,
    pass: Pass<u32>,
    other: &mut Pass<u32>,
) -> Flags
    requires pass { pass.of ≡ future.now }
    requires other { other.old.of ≡ future.now }
{
    let _ended = future.give_back(rt, pass);
    future.state(other)
}

#[test]
fn a_pass_that_is_given_back_cancels_nothing(rt: HostRuntime) -> Result<(), Fail> {
    let (future, maker, mut other) = shared(rt.alloc())?;
    let flags = flags_after(&rt, &future, maker, &mut other);
    assert_eq!(rt; flags, Flags::new());
    Ok(())
}
