use crate::log::Log;
use qtc_base::NoMemory;
use qtc_events::{Entry, Event, Flags, accounted_after, flags_after};
use std::alloc::Global;
use std::marker::Model;

/// The most that `start`, one of `cancel` and `fail`, and `finish` need: an entry and an event each.
const OWED: usize = 3;

/// What any other call needs: an entry, and its own event and its threshold's.
const SPARE: usize = 2;

/// A journal of effective calls with all that is kept up to date beside it, so that no query walks it.
#[derive(Drop)]
pub(crate) struct Book {
    flags: Flags,
    accounted: u32,
    journal: Log<Entry>,
    events: Log<Event>,
}

impl Model for Book {
    ghost use Rattle.qtc_future.specs.Booked.{Booked, IsUpToDate};

    ghost Value = { Booked };

    ghost view = { λ s. record {
      journal = s.journal.items;
      events = s.events.items;
      entry_room = s.journal.room;
      event_room = s.events.room;
    } };

    ghost invariant = { λ s. IsUpToDate s.flags.bits s.accounted s.journal.items };
}

impl Book {
    ghost use Rattle.std.specs.Prelude.{◌≡◌, ◌+◌, ◌<◌, ◌≤◌, ◌^◌, [], ◌∷◌, ◌++◌, IfOk, OnOk, length};
    ghost use Rattle.qtc_events.specs.Flags.{flags_in};
    ghost use Rattle.qtc_events.specs.Calls.{range_end};
    ghost use Rattle.qtc_events.specs.Journal.{flags_after_all, accounted, after_entry, posts_of_entry};
    ghost use Rattle.qtc_future.specs.Booked.{owed, HasRoom};

    /// The empty journal, with the room that it owes. Err is want of memory.
    pub(crate) fn new(alloc: Global) -> Result<Book, NoMemory>
        ensures journal { IfOk result (λ book. book.journal ≡ []) }
        ensures events { IfOk result (λ book. book.events ≡ []) }
        ensures room { IfOk result HasRoom }
    {
        Ok(Book {
            flags: Flags::new(),
            accounted: 0,
            journal: Log::new(alloc, OWED)?,
            events: Log::new(alloc, OWED)?,
        })
    }

    pub(crate) fn flags(&self) -> Flags
        ensures { flags_in result.bits ≡ flags_after_all self.now.journal }
    {
        self.flags
    }

    pub(crate) fn accounted(&self) -> u32
        ensures { result ≡ accounted self.now.journal }
    {
        self.accounted
    }

    pub(crate) fn journal(&self) -> &[Entry]
        ensures { result.now ≡ self.now.journal }
    {
        self.journal.as_slice()
    }

    pub(crate) fn events(&self) -> &[Event]
        ensures { result.now ≡ self.now.events }
    {
        self.events.as_slice()
    }

    pub(crate) fn allocator(&self) -> Global {
        self.journal.allocator()
    }

    /// Makes room for one entry more beside those that are owed. Err is want of memory.
    pub(crate) fn reserve(&mut self) -> Result<(), NoMemory>
        ensures journal { self.new.journal ≡ self.old.journal }
        ensures events { self.new.events ≡ self.old.events }
        ensures entry_room { self.old.entry_room ≤ self.new.entry_room }
        ensures event_room { self.old.event_room ≤ self.new.event_room }
        ensures entry { OnOk result (4 ≤ self.new.entry_room) }
        ensures posts { OnOk result (5 ≤ self.new.event_room) }
    {
        self.journal.reserve(OWED + SPARE)?;
        self.events.reserve(OWED + SPARE)
    }

    /// Enters an effective call, with what it posts. There is room for both, and for what is owed after it.
    pub(crate) fn enter(&mut self, filter: bool, entry: Entry, old_count: u32, new_count: u32)
        requires range { range_end entry.call < 2 ^ 32 }
        requires entry { owed (after_entry (flags_after_all self.old.journal) entry) + 1 ≤ self.old.entry_room }
        requires posts { owed (after_entry (flags_after_all self.old.journal) entry)
            + length (posts_of_entry filter entry old_count new_count) ≤ self.old.event_room }
        ensures journal { self.new.journal ≡ self.old.journal ++ entry ∷ [] }
        ensures events { self.new.events ≡ self.old.events ++ posts_of_entry filter entry old_count new_count }
        ensures room { HasRoom self.new }
    {
        let (own, acted) = entry.posts(filter, old_count, new_count);
        self.flags = flags_after(self.flags, &entry.call, entry.reached);
        self.accounted = accounted_after(self.accounted, &entry.call);
        self.journal.push(entry);
        self.events.push_some(own);
        self.events.push_some(acted);
    }
}
