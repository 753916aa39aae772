ghost use Rattle.std.specs.Prelude.{◌≡◌, false, [], ◌∷◌, ◌++◌, map, IsOk, OnOk, OnErr, IfOk, take, length};
ghost use Rattle.qtc_events.specs.Flags.{flags_in};
ghost use Rattle.qtc_events.specs.Replay.{replayed, told_where};
ghost use Rattle.qtc_base.specs.Ranges.{bounds_of};
ghost use Rattle.qtc_events.specs.declared.events.Event.TheVariants.{Ready};
ghost use Rattle.qtc_events.specs.Text.{event_line};

use crate::Flags;
use qtc_base::{Bytes, List, NoMemory, Range, decimal};
use std::alloc::Global;

/// What a watcher of a future is told.
#[derive(Clone, Copy, Debug, PartialEq, Eq)]
pub enum Event {
    Started,
    /// The results from the first number up to the second are ready.
    Ready(u32, u32),
    Suspending,
    Suspended,
    Resumed,
    Canceled,
    Finished,
}

/// Appends one event. Err is want of memory.
fn tell(event: Event, events: &mut List<Event>) -> Result<(), NoMemory>
    ensures { OnOk result (events.new ≡ events.old ++ event ∷ []) }
{
    match events.push(event) {
        Ok(()) => Ok(()),
        Err(_event) => Err(NoMemory),
    }
}

/// Appends the event where its flag stands, and else wants no memory.
fn tell_where(stands: bool, event: Event, events: &mut List<Event>) -> Result<(), NoMemory>
    ensures ok { OnOk result (events.new ≡ events.old ++ told_where stands event) }
    ensures sure { stands ≡ false → IsOk result }
{
    if stands { tell(event, events) } else { Ok(()) }
}

/// What a watcher is told that connects where `flags` stand and the ranges `ready` hold results: Started,
/// one Ready for each range, Suspended or else Suspending, Canceled, Finished, each where it stands.
/// Err is want of memory, and there is none where there is nothing to tell. (After Qt's QFutureWatcher.)
pub fn replay(alloc: Global, flags: Flags, ready: &[Range]) -> Result<List<Event>, NoMemory>
    ensures ok { IfOk result (λ events. events ≡ replayed (flags_in flags.bits) (map bounds_of ready.now)) }
    ensures sure { replayed (flags_in flags.bits) (map bounds_of ready.now) ≡ [] → IsOk result }
{
    let mut events = List::new(alloc);
    tell_where(flags.is_started(), Event::Started, &mut events)?;
    for range in ready {
        tell(Event::Ready(range.begin, range.end), &mut events)?;
    }
    if flags.is_suspended() {
        tell(Event::Suspended, &mut events)?;
    } else {
        tell_where(flags.is_suspending(), Event::Suspending, &mut events)?;
    }
    tell_where(flags.is_canceled(), Event::Canceled, &mut events)?;
    tell_where(flags.is_finished(), Event::Finished, &mut events)?;
    Ok(events)
}

/// Appends the line of a Ready, and at an Err perhaps a front of it.
fn append_ready(begin: u32, end: u32, into: &mut Bytes) -> Result<(), NoMemory>
    ensures ok { OnOk result (into.new ≡ into.old ++ event_line (Ready begin end)) }
    ensures kept { take (length into.old) into.new ≡ into.old }
{
    into.append(b"event ready ")?;
    decimal(u128::from(begin), into)?;
    into.append(b" ")?;
    decimal(u128::from(end), into)?;
    into.append(b"\n")?;
    Ok(())
}

/// Appends the line of an event in a report, with its LF. Err is want of memory, and leaves `into` as it
/// was. (Own.)
pub fn event_text(event: &Event, into: &mut Bytes) -> Result<(), NoMemory>
    ensures ok { OnOk result (into.new ≡ into.old ++ event_line event.now) }
    ensures err { OnErr result (into.new ≡ into.old) }
{
    match event {
        Event::Started => into.append(b"event started\n"),
        Event::Ready(begin, end) => {
            let before = into.len();
            let outcome = append_ready(*begin, *end, into);
            if outcome.is_err() {
                into.truncate(before);
            }
            outcome
        }
        Event::Suspending => into.append(b"event suspending\n"),
        Event::Suspended => into.append(b"event suspended\n"),
        Event::Resumed => into.append(b"event resumed\n"),
        Event::Canceled => into.append(b"event canceled\n"),
        Event::Finished => into.append(b"event finished\n"),
    }
}
