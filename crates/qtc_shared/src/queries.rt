//! Calls that read what a shared future has: each is one hold of its lock, and changes nothing.
ghost use Rattle.std.specs.Prelude.{◌≡◌, slice_get, drop};
ghost use Rattle.qtc_future.specs.Future.{events_of, results_of};
ghost use Rattle.qtc_store.specs.Stored.{count_of};
ghost use Rattle.qtc_shared.specs.Passes.{Finds, IsCopied, IsHold, IsReplayed, ready_among};

use crate::{Pass, SharedFuture};
use qtc_base::{List, NoMemory, Value};
use qtc_events::Event;
use qtc_future::FutureCore;
use std::sync::Wait;

impl<V: Value> SharedFuture<V> {
    /// A copy of the result at `index`, which in filter mode is a position. Err is want of memory.
    pub fn get<R: Wait>(
        &self,
        rt: &R,
        pass: &mut Pass<V>,
        index: u32,
    ) -> Result<Option<V>, NoMemory>
        requires { pass.old.of ≡ self.now }
        ensures { IsHold pass.old pass.new (Finds (IsCopied index result)) }
    {
        let (book, hold) = self.locked.show(rt, &mut pass.seat);
        let value = copy_at(&book.core, index);
        self.locked.put(book, hold);
        value
    }

    /// How many results there are from 0 on without a gap, or in filter mode how many are visible.
    pub fn count<R: Wait>(&self, rt: &R, pass: &mut Pass<V>) -> u32
        requires { pass.old.of ≡ self.now }
        ensures { IsHold pass.old pass.new (Finds (λ future. result ≡ count_of (results_of future))) }
    {
        let (book, hold) = self.locked.show(rt, &mut pass.seat);
        let count = book.core.count();
        self.locked.put(book, hold);
        count
    }

    /// The event at `cursor`, from 0; None exactly at or past their number.
    pub fn event_at<R: Wait>(&self, rt: &R, pass: &mut Pass<V>, cursor: u64) -> Option<Event>
        requires { pass.old.of ≡ self.now }
        ensures { IsHold pass.old pass.new (Finds (λ future. result ≡ slice_get (events_of future) cursor)) }
    {
        let (book, hold) = self.locked.show(rt, &mut pass.seat);
        let event = book.core.event_at(cursor);
        self.locked.put(book, hold);
        event
    }

    /// How many Ready events stand from `cursor` on.
    pub fn ready_past<R: Wait>(&self, rt: &R, pass: &mut Pass<V>, cursor: u64) -> u64
        requires { pass.old.of ≡ self.now }
        ensures { IsHold pass.old pass.new
            (Finds (λ future. result ≡ ready_among (drop cursor (events_of future)))) }
    {
        let (book, hold) = self.locked.show(rt, &mut pass.seat);
        let ready = ready_from(book.core.events(), cursor);
        self.locked.put(book, hold);
        ready
    }

    /// What a watcher is told that connects at this step, and how many events there are then. Err is want of memory,
    /// and there is none where there is nothing to tell.
    pub fn replay<R: Wait>(
        &self,
        rt: &R,
        pass: &mut Pass<V>,
    ) -> Result<(List<Event>, u64), NoMemory>
        requires { pass.old.of ≡ self.now }
        ensures { IsHold pass.old pass.new (Finds (IsReplayed result)) }
    {
        let (book, hold) = self.locked.show(rt, &mut pass.seat);
        let count = book.core.events().len() as u64;
        let told = book.core.replay();
        self.locked.put(book, hold);
        match told {
            Ok(events) => Ok((events, count)),
            Err(NoMemory) => Err(NoMemory),
        }
    }
}

/// A copy of the result at the index. Err is want of memory.
pub(crate) fn copy_at<V: Value>(core: &FutureCore<V>, index: u32) -> Result<Option<V>, NoMemory>
    ensures { IsCopied index result core.now }
{
    match core.get(index) {
        None => Ok(None),
        Some(value) => match value.copy() {
            Ok(value) => Ok(Some(value)),
            Err(NoMemory) => Err(NoMemory),
        },
    }
}

// How many Ready events stand from the cursor on.
fn ready_from(events: &[Event], cursor: u64) -> u64
    ensures { result ≡ ready_among (drop cursor events.now) }
{
    let mut ready = 0;
    for event in events.iter().skip(cursor as usize) {
        if let Event::Ready(_, _) = event {
            ready += 1;
        }
    }
    ready
}
