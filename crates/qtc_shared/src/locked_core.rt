//! The flag word of a shared future, and its book behind a lock.
ghost use Rattle.std.specs.Prelude.{◌≡◌, ◌<◌, ◌≤◌, [], All, IfOk};
ghost use Rattle.qtc_shared.specs.Journals.{Follows, IsOfFirst, calls_by};
ghost use Rattle.qtc_base.specs.Limits.{most_passes};
ghost use Rattle.qtc_shared.specs.Parts.{future_at};
ghost use Rattle.qtc_shared.specs.Passes.{IsShared, Meets};
ghost use Rattle.qtc_shared.specs.Inside.{IsPassSeat, IsBookOf, IsLentSeat, state_of, pass_at_seat, number_in, journal_of};
ghost use Rattle.qtc_shared.specs.Rule.{learned};

use crate::Pass;
use crate::flag_word::{FlagWord, Lent};
use crate::guarded::Guarded;
use crate::rule::View;
use atomic_table::Seat;
use qtc_base::{NoMemory, Value};
use qtc_events::Flags;
use qtc_future::FutureCore;
use qtc_lock::{Bell, Hold, KeyLock, Sleepers};
use std::alloc::Global;
use std::marker::Brand;
use std::sync::Wait;

/// All that the calls on a shared future need: each is one hold of the lock, or one look at the word.
#[derive(Drop)]
pub struct LockedCore<V: Value> {
    pub word: FlagWord<V>,
    pub lock: KeyLock<Guarded<V>>,
    /// Those who wait for the word to change.
    pub sleepers: Sleepers,
    /// Rung after each call that may have changed the journal.
    pub bell: Bell,
    ghost table: { lock.key.table ≡ word.table },
    ghost terms: { lock.key.terms ≡ word.terms },
}

impl<V: Value + Drop> LockedCore<V> {
    /// A word that shows the flags of the core, with the core in the book, and that many passes.
    pub fn open(
        alloc: Global,
        core: FutureCore<V>,
        makers: u32,
        passes: u32,
    ) -> Result<(LockedCore<V>, Vec<Pass<V>>), NoMemory>
        requires makers { 0 < makers }
        requires passes { (1 ≤ passes) × (passes ≤ most_passes) }
        requires callers { All IsOfFirst core.calls }
        ensures { IfOk result (λ made. IsShared core makers passes made.0.word made.1.items) }
    {
        let Some(sleepers) = Sleepers::new(alloc) else {
            return Err(NoMemory);
        };
        let Some(bell) = Bell::new(alloc) else {
            return Err(NoMemory);
        };
        let mut handed = Vec::with_capacity(alloc, passes as usize)?;
        let (word, first, book) = FlagWord::open(alloc, core, makers)?;
        handed.push_reserved(first);
        let book = word.hand_out(book, &mut handed, passes);
        match KeyLock::new::<Brand>(alloc, book) {
            Ok(lock) => Ok((
                LockedCore {
                    word,
                    lock,
                    sleepers,
                    bell,
                },
                handed,
            )),
            Err(_book) => Err(NoMemory),
        }
    }
}

impl<V: Value> LockedCore<V> {
    /// Takes the book.
    pub fn take<R: Wait>(&self, rt: &R) -> (Guarded<V>, Hold<Guarded<V>>)
        ensures book { IsBookOf self.now.word result.0 }
        ensures hold { result.1 ≡ self.now.lock }
    {
        self.lock.take(rt)
    }

    /// Puts the book back.
    pub fn put(&self, book: Guarded<V>, hold: Hold<Guarded<V>>)
        requires book { IsBookOf self.now.word book }
        requires hold { hold ≡ self.now.lock }
    {
        self.lock.put(book, hold);
    }

    /// Takes the book, and lends the pass to it.
    pub fn lend<R: Wait>(&self, rt: &R, seat: &mut Seat<(), View<V>>) -> (Lent<V>, Hold<Guarded<V>>)
        requires { IsPassSeat self.now.word (pass_at_seat seat.old) seat.old }
        ensures hold { result.1 ≡ self.now.lock }
        ensures core { result.0.core.value ≡ future_at self.now.word.terms result.0.core.value.calls }
        ensures seat { IsLentSeat self.now.word (pass_at_seat seat.old) result.0.made.count result.0.core.value.calls
            seat.new }
        ensures met { Meets (state_of self.now.word (pass_at_seat seat.old)) result.0.core.value.calls }
        ensures number { number_in seat.old < result.0.made.count }
        ensures fresh { calls_by result.0.made.count result.0.core.value.calls ≡ [] }
    {
        let (book, hold) = self.take(rt);
        (self.word.lend(book, seat), hold)
    }

    /// Stores the flags of the core, takes the pass back from the book, puts the book back, and wakes who waits.
    pub fn enter(&self, lent: Lent<V>, hold: Hold<Guarded<V>>, seat: &mut Seat<(), View<V>>)
        requires hold { hold ≡ self.now.lock }
        requires seat { IsLentSeat self.now.word (pass_at_seat seat.old) lent.made.count (journal_of seat.old) seat.old }
        requires core { lent.core.value ≡ future_at self.now.word.terms lent.core.value.calls }
        requires call { Follows self.now.word.terms (number_in seat.old) (journal_of seat.old) lent.core.value.calls }
        ensures { IsPassSeat self.now.word (learned lent.core.value.calls (pass_at_seat seat.old)) seat.new }
    {
        let (book, changed) = self.word.enter(lent, seat);
        self.put(book, hold);
        if changed && self.sleepers.any() {
            self.word.wake_all();
        }
        self.bell.ring();
    }

    /// Sleeps while the word shows these flags. It may return for no reason.
    pub fn sleep<R: Wait>(&self, rt: &R, flags: Flags) {
        self.sleepers.enter();
        self.word.park(rt, flags);
        self.sleepers.leave();
    }

    /// Takes the book, and shows the pass the journal.
    pub fn show<R: Wait>(
        &self,
        rt: &R,
        seat: &mut Seat<(), View<V>>,
    ) -> (Guarded<V>, Hold<Guarded<V>>)
        requires { IsPassSeat self.now.word (pass_at_seat seat.old) seat.old }
        ensures book { IsBookOf self.now.word result.0 }
        ensures hold { result.1 ≡ self.now.lock }
        ensures seat { IsPassSeat self.now.word (learned result.0.core.value.calls (pass_at_seat seat.old)) seat.new }
        ensures met { Meets (state_of self.now.word (pass_at_seat seat.old)) result.0.core.value.calls }
        ensures number { number_in seat.old < result.0.made.count }
        ensures fresh { calls_by result.0.made.count result.0.core.value.calls ≡ [] }
    {
        let (book, hold) = self.take(rt);
        (self.word.show(book, seat), hold)
    }

    /// Ends the lock and the word, and gives the core, whose journal the pass meets.
    pub fn close<R: Wait>(self, rt: &R, mut seat: Seat<(), View<V>>) -> FutureCore<V>
        requires { IsPassSeat self.word (pass_at_seat seat) seat }
        ensures core { result ≡ future_at self.word.terms result.calls }
        ensures met { Meets (state_of self.word (pass_at_seat seat)) result.calls }
    {
        let LockedCore {
            word,
            lock,
            sleepers: _,
            bell: _,
        } = self;
        let book = lock.close(rt);
        let Lent {
            core,
            made: _,
            word: _,
        } = word.lend(book, &mut seat);
        Box::into_inner(core)
    }
}
