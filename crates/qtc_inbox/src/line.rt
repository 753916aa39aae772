//! The queue: entries that callers put and take in order.
ghost use Rattle.std.specs.Prelude.{◌≡◌, ◌≤◌, true, IfOk, MatchOption, MatchResult};
ghost use Rattle.crossbeam_queue.specs.Fifo.{Held};
ghost use Rattle.qtc_inbox.specs.Line.{place_at};
ghost use Rattle.qtc_inbox.specs.Rule.{Fits, Knows, Puts, Takes, absorbed, one_part, one_part_less, opened};

use crate::Place;
use crate::entry::Entry;
use crate::rule::{Absorb, Law, NamesKey, Open, Part, Put, Table, Take, View};
use crossbeam_queue::{Pass, RuledArrayQueue};
use qtc_base::NoMemory;
use qtc_claim::Counter;
use std::alloc::Global;
use std::marker::{Brand, Model};
use std::sync::Wait;

/// A bounded queue of entries, which callers share by reference. Each entry is a piece of one counter with the values that
/// the line's table has for its range.
#[derive(Drop)]
pub struct Line<V> {
    queue: RuledArrayQueue<Entry<V>, View<V>, Law>,
}

impl<V> Model for Line<V> {
    ghost use Rattle.qtc_inbox.specs.Line.{LineId};

    ghost Value = { LineId };

    ghost use Rattle.qtc_inbox.specs.Inside.{line_state};

    ghost view = { line_state };
}

impl<V> Line<V> {
    /// A line with room for so many entries, for pieces of the counter, with the values of the table that `N` names; and a
    /// place at it that has all of so many parts. Err is want of memory.
    pub fn new<N: Table<V>>(
        alloc: Global,
        counter: &Counter,
        room: u32,
        parts: u32,
    ) -> Result<(Line<V>, Place<V>), NoMemory>
        requires named { N.named ≡ true }
        requires room { (1 ≤ room) × (room ≤ 1024) }
        requires parts { 1 ≤ parts }
        ensures room { IfOk result (λ made. made.0.room ≡ room) }
        ensures place { IfOk result (λ made. made.1 ≡ place_at made.0.table
            (opened (record { counter = counter.now; table = N.cells; parts = parts }))) }
    {
        Line::open::<Brand>(alloc, counter, room, parts)
    }

    // A line with the key that `K` names, of which the arguments tell.
    fn open<K: NamesKey<V>>(
        alloc: Global,
        _counter: &Counter,
        room: u32,
        parts: u32,
    ) -> Result<(Line<V>, Place<V>), NoMemory>
        requires room { 1 ≤ room }
        requires parts { (1 ≤ parts) × (K.key.parts ≡ parts) }
        ensures room { IfOk result (λ made. made.0.room ≡ room) }
        ensures place { IfOk result (λ made. made.1 ≡ place_at made.0.table (opened K.key)) }
    {
        let (queue, mut pass) = RuledArrayQueue::ruled(alloc, room as usize)?;
        let _spent = queue.another::<Open<K>>(&mut pass);
        Ok((Line { queue }, Place { pass }))
    }

    /// A new place with one part, which it takes off this one.
    pub fn part(&self, place: &mut Place<V>) -> Place<V>
        requires of { place.old.line ≡ self.now.table }
        requires parts { 2 ≤ place.old.has.parts }
        ensures left { place.new ≡ place_at self.now.table (one_part_less place.old.has) }
        ensures made { result ≡ place_at self.now.table (one_part place.old.has) }
    {
        let pass = self.queue.another::<Part>(&mut place.pass);
        Place { pass }
    }

    /// Takes a place in, with all that it put and took.
    pub fn absorb(&self, place: &mut Place<V>, other: Place<V>)
        requires of { place.old.line ≡ self.now.table }
        requires other { other.line ≡ self.now.table }
        ensures { place.new ≡ place_at self.now.table (absorbed place.old.has other.has) }
    {
        let Place { pass } = other;
        self.queue.absorb::<Absorb>(&mut place.pass, pass);
    }

    /// Puts an entry at the back, in one step. It comes back only where at one moment of the call the line was full.
    pub fn push<R: Wait>(
        &self,
        rt: &R,
        place: &mut Place<V>,
        entry: Entry<V>,
    ) -> Result<(), Entry<V>>
        requires of { place.old.line ≡ self.now.table }
        requires fits { Fits place.old.has.key entry }
        ensures line { place.new.line ≡ self.now.table }
        ensures told { MatchResult result (λ _. Puts place.old.has entry place.new.has)
            (λ back. (back ≡ entry) × (place.new.has ≡ place.old.has) × Held self.now.room (Knows place.old.has)) }
    {
        self.queue.push_as::<Put, R>(rt, &mut place.pass, entry)
    }

    /// Takes the front entry, in one step. None only where at one moment of the call the line was empty.
    pub fn pop<R: Wait>(&self, rt: &R, place: &mut Place<V>) -> Option<Entry<V>>
        requires { place.old.line ≡ self.now.table }
        ensures line { place.new.line ≡ self.now.table }
        ensures told { MatchOption result ((place.new.has ≡ place.old.has) × Held 0 (Knows place.old.has))
            (λ entry. Takes place.old.has entry place.new.has) }
    {
        self.queue.pop_as::<Take, R>(rt, &mut place.pass)
    }
}
