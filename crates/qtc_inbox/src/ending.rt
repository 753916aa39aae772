//! What an inbox comes to once all work on it is done.
ghost use Rattle.std.specs.Prelude.{◌≡◌, ◌↔◌, ◌≤◌, ◌++◌, All, IfErr, IfOk, IsTrue, length};
ghost use Rattle.qtc_base.specs.Ranges.{Tiles};
ghost use Rattle.qtc_claim.specs.Counter.{HasAll, IsGathered, KnowsClaims};
ghost use Rattle.qtc_shared.specs.Journals.{IsJournal};
ghost use Rattle.qtc_inbox.specs.Boards.{IsBoard, IsReporting};
ghost use Rattle.qtc_inbox.specs.Draining.{CallsBeside};
ghost use Rattle.qtc_inbox.specs.Endings.{AreAll, AreSeats, HasEnded, HasMet, IsAt, IsEnding, workers_of};
ghost use Rattle.qtc_inbox.specs.Reports.{KnowsEnd, ranges_by};

use crate::board::Board;
use crate::{Inbox, InboxPass, Place};
use qtc_base::{NoMemory, Value};
use qtc_claim::{Seat, Tally};
use qtc_shared::Pass;
use std::sync::Wait;

impl<V: Value + Drop> Inbox<V> {
    /// Takes all passes in, reports what is queued, lets each pass meet the inbox's, and gathers the seats, in one hold.
    ///
    /// True exactly where all is claimed and gathered, and each gathered piece was reported and accepted; the reports
    /// then tile the indexes. Err is want of memory: the future was canceled first, and the seats are gathered.
    pub fn end<R: Wait>(
        &self,
        rt: &R,
        passes: &mut Vec<InboxPass<V>>,
        seats: Vec<Seat>,
    ) -> Result<bool, NoMemory>
        requires passes { AreAll self.now passes.old.items }
        requires seats { AreSeats self.now.key.counter seats.items }
        ensures ended { IfOk result (IsEnding self.now passes.new.items seats.items) }
    {
        let (mut board, hold) = self.board.take(rt);
        let told = self.settle(rt, &mut board, passes, seats);
        self.board.put(board, hold);
        told
    }

    // The same, with the board in hand.
    fn settle<R: Wait>(
        &self,
        rt: &R,
        board: &mut Board<V>,
        passes: &mut Vec<InboxPass<V>>,
        seats: Vec<Seat>,
    ) -> Result<bool, NoMemory>
        requires board { IsBoard self.now board.old.place board.old.tally board.old.pass board.old.all_reported }
        requires passes { AreAll self.now passes.old.items }
        requires seats { AreSeats self.now.key.counter seats.items }
        ensures board { IsBoard self.now board.new.place board.new.tally board.new.pass board.new.all_reported }
        ensures ended { IfOk result (IsEnding self.now passes.new.items seats.items) }
    {
        self.take_all_in(&mut board.place, passes);
        let drained = self.drain_all(rt, board);
        self.meet_all(rt, &mut board.pass, passes);
        self.gather_seats(&mut board.tally, seats);
        let ended = self.has_ended(board);
        match drained {
            Ok(()) => Ok(ended),
            Err(NoMemory) => Err(NoMemory),
        }
    }

    // Takes the place of a pass in.
    fn take_in(&self, place: &mut Place<V>, own: &mut InboxPass<V>)
        requires line { place.old.line ≡ self.now.line.table }
        requires own { IsAt self.now own.old }
        ensures line { place.new.line ≡ self.now.line.table }
        ensures key { place.new.has.key ≡ place.old.has.key }
        ensures taken { place.new.has.taken ≡ place.old.has.taken }
        ensures own { IsAt self.now own.new }
    {
        if let Some(other) = own.place.take() {
            self.line.absorb(place, other);
        }
    }

    // Takes the places of all passes in.
    fn take_all_in(&self, place: &mut Place<V>, passes: &mut Vec<InboxPass<V>>)
        requires line { place.old.line ≡ self.now.line.table }
        requires passes { All (IsAt self.now) passes.old.items }
        ensures line { place.new.line ≡ self.now.line.table }
        ensures key { place.new.has.key ≡ place.old.has.key }
        ensures taken { place.new.has.taken ≡ place.old.has.taken }
        ensures passes { All (IsAt self.now) passes.new.items }
        ensures count { length passes.new.items ≡ length passes.old.items }
    {
        for at in 0..passes.len() {
            self.take_in(place, &mut passes[at]);
        }
    }

    // Reports what stands in the line, until it is empty.
    fn drain_all<R: Wait>(&self, rt: &R, board: &mut Board<V>) -> Result<(), NoMemory>
        requires board { IsBoard self.now board.old.place board.old.tally board.old.pass board.old.all_reported }
        ensures board { IsBoard self.now board.new.place board.new.tally board.new.pass board.new.all_reported }
        ensures ended { IfErr result (λ _. KnowsEnd board.new.pass) }
    {
        for _ in rt.forever() {
            if !self.take_one(rt, board)? {
                return Ok(());
            }
        }
        unreachable!()
    }

    // Lets a pass meet the inbox's.
    fn meet_one<R: Wait>(&self, rt: &R, pass: &mut Pass<V>, own: &mut InboxPass<V>)
        requires pass { pass.old.of ≡ self.now.pass.of }
        requires number { pass.old.number ≡ self.now.pass.number }
        requires own { IsAt self.now own.old }
        ensures beside { CallsBeside self.now.pass.number pass.old pass.new }
        ensures own { IsAt self.now own.new }
        ensures met { HasMet pass.new.known own.new }
        ensures lawful { IsJournal self.now.pass.of.terms pass.new.known }
    {
        self.future.meet(rt, pass, &mut own.pass);
    }

    // Lets each of the passes meet the inbox's.
    fn meet_all<R: Wait>(&self, rt: &R, pass: &mut Pass<V>, passes: &mut Vec<InboxPass<V>>)
        requires pass { pass.old.of ≡ self.now.pass.of }
        requires number { pass.old.number ≡ self.now.pass.number }
        requires passes { All (IsAt self.now) passes.old.items }
        requires some { 1 ≤ length passes.old.items }
        ensures beside { CallsBeside self.now.pass.number pass.old pass.new }
        ensures lawful { IsJournal self.now.pass.of.terms pass.new.known }
        ensures met { All (HasMet pass.new.known) passes.new.items }
    {
        for at in 0..passes.len() {
            self.meet_one(rt, pass, &mut passes[at]);
        }
    }

    // Gathers all seats.
    fn gather_seats(&self, tally: &mut Tally, mut seats: Vec<Seat>)
        requires tally { tally.old.of ≡ self.now.key.counter }
        requires gathered { IsGathered self.now.key.counter tally.old }
        requires seats { All (λ seat. seat.of ≡ self.now.key.counter) seats.items }
        ensures same { (tally.new.of ≡ tally.old.of) × (tally.new.pieces ≡ tally.old.pieces) }
        ensures workers { tally.new.workers ≡ tally.old.workers ++ workers_of seats.items }
        ensures gathered { IsGathered self.now.key.counter tally.new }
    {
        while seats.len() > 0 {
            tally.gather_seat(&self.counter, seats.remove(0));
        }
    }

    // Whether all is claimed and gathered, and each gathered piece was reported and accepted.
    fn has_ended(&self, board: &mut Board<V>) -> bool
        requires reporting { IsReporting self.now board.old.tally board.old.pass board.old.all_reported }
        requires lawful { IsJournal self.now.pass.of.terms board.old.pass.known }
        ensures same { board.new ≡ board.old }
        ensures ended { IsTrue result ↔ HasEnded self.now board.old.tally board.old.pass.known }
        ensures tiles { IsTrue result
            → Tiles (ranges_by self.now.pass.number board.old.pass.known) self.now.key.counter.n }
        ensures claims { HasAll board.old.tally → KnowsClaims board.old.tally }
    {
        self.counter.end(&mut board.tally) && board.all_reported
    }
}
