//! How pieces are posted, and how what is queued is reported.
ghost use Rattle.std.specs.Prelude.{◌≡◌, ◌≤◌, ◌+◌, Contains, IfErr, IfOk, IsSome, MatchResult};
ghost use Rattle.crossbeam_queue.specs.Fifo.{Held};
ghost use Rattle.qtc_inbox.specs.Boards.{IsBoard};
ghost use Rattle.qtc_inbox.specs.Draining.{DrainsAll, DrainsThen, TakesSome};
ghost use Rattle.qtc_inbox.specs.Inboxes.{HasCanceled, HasPosted, IsOpen, entry_of, place_in};
ghost use Rattle.qtc_inbox.specs.Reports.{IsHandedIn, KnowsEnd};
ghost use Rattle.qtc_inbox.specs.Rule.{Fits, Knows, Puts};
ghost use Rattle.qtc_shared.specs.Passes.{IsHold, Stays};

use crate::board::Board;
use crate::entry::Entry;
use crate::{Inbox, InboxPass, Place, Posted};
use qtc_base::{List, NoMemory, Value};
use qtc_claim::Piece;
use qtc_shared::Pass;
use std::sync::Wait;

impl<V: Value + Drop> Inbox<V> {
    /// Hands in a piece with the values of its range. `Queued`, in one step and without a lock, exactly where there was room
    /// for it. Else it takes the lock, reports what is queued, up to the inbox's room, in its order, and then this piece; the
    /// answer says how many that were.
    ///
    /// Err is want of memory: the future was canceled first, and the pieces at hand are gathered.
    pub fn post<R: Wait>(
        &self,
        rt: &R,
        pass: &mut InboxPass<V>,
        piece: Piece,
        values: List<V>,
    ) -> Result<Posted, NoMemory>
        requires open { IsOpen self.now pass.old }
        requires entry { Fits self.now.key (entry_of piece values) }
        ensures open { IsOpen self.now pass.new }
        ensures ok { IfOk result (HasPosted self.now pass.old pass.new piece values) }
        ensures memory { IfErr result (λ _. HasCanceled self.now pass.old pass.new) }
    {
        match self.queue(rt, &mut pass.place, Entry { piece, values }) {
            Ok(()) => Ok(Posted::Queued),
            Err(entry) => {
                let count = self.report_now(rt, &mut pass.pass, entry)?;
                Ok(Posted::Drained(count))
            }
        }
    }

    /// Reports what is queued, up to the inbox's room, in its order and in one hold. The answer says how many pieces that
    /// were: 0 exactly where the queue was empty. Err is want of memory, and the future was canceled first.
    pub fn drain<R: Wait>(&self, rt: &R, pass: &mut InboxPass<V>) -> Result<u32, NoMemory>
        requires open { IsOpen self.now pass.old }
        ensures open { IsOpen self.now pass.new }
        ensures place { pass.new.place ≡ pass.old.place }
        ensures hold { IsHold pass.old.pass pass.new.pass Stays }
        ensures few { IfOk result (λ count. count ≤ self.now.line.room) }
        ensures memory { IfErr result (λ _. KnowsEnd pass.new.pass) }
    {
        let (mut board, hold) = self.board.take(rt);
        let told = self.drain_board(rt, &mut board);
        self.future.meet(rt, &mut pass.pass, &mut board.pass);
        self.board.put(board, hold);
        told
    }

    // Puts an entry at the back of the line, or hands it back where that was full.
    fn queue<R: Wait>(
        &self,
        rt: &R,
        place: &mut Option<Place<V>>,
        entry: Entry<V>,
    ) -> Result<(), Entry<V>>
        requires is_in { IsSome place.old }
        requires line { (place_in place.old).line ≡ self.now.line.table }
        requires fits { Fits (place_in place.old).has.key entry }
        ensures is_in { IsSome place.new }
        ensures line { (place_in place.new).line ≡ self.now.line.table }
        ensures told { MatchResult result (λ _. Puts (place_in place.old).has entry (place_in place.new).has)
            (λ back. (back ≡ entry) × (place.new ≡ place.old)
            × Held self.now.line.room (Knows (place_in place.old).has)) }
    {
        match place {
            Some(place) => self.line.push(rt, place, entry),
            None => unreachable!(),
        }
    }

    // Drains the line and reports the entry, in one hold, in which the pass meets the one that reports.
    fn report_now<R: Wait>(
        &self,
        rt: &R,
        pass: &mut Pass<V>,
        entry: Entry<V>,
    ) -> Result<u32, NoMemory>
        requires of { pass.old.of ≡ self.now.pass.of }
        requires entry { Fits self.now.key entry }
        ensures hold { IsHold pass.old pass.new Stays }
        ensures ok { IfOk result (λ count. (1 ≤ count) × (count ≤ self.now.line.room + 1)) }
        ensures handed { IfOk result (λ _. IsHandedIn self.now.key.counter.n self.now.pass.number pass.new.known
            entry.piece.addition) }
        ensures memory { IfErr result (λ _. KnowsEnd pass.new) }
    {
        let (mut board, hold) = self.board.take(rt);
        let told = self.drain_then(rt, &mut board, entry);
        self.future.meet(rt, pass, &mut board.pass);
        self.board.put(board, hold);
        told
    }

    // Drains the line, and then reports the entry.
    fn drain_then<R: Wait>(
        &self,
        rt: &R,
        board: &mut Board<V>,
        entry: Entry<V>,
    ) -> Result<u32, NoMemory>
        requires board { IsBoard self.now board.old.place board.old.tally board.old.pass board.old.all_reported }
        requires entry { Fits self.now.key entry }
        ensures board { IsBoard self.now board.new.place board.new.tally board.new.pass board.new.all_reported }
        ensures ok { IfOk result (λ count. (1 ≤ count) × (count ≤ self.now.line.room + 1)) }
        ensures handed { IfOk result (λ count. DrainsThen self.now board.old.place board.old.pass board.new.place
            board.new.pass entry.piece.addition count) }
        ensures gathered { Contains board.new.tally.pieces entry.piece.addition }
        ensures ended { IfErr result (λ _. KnowsEnd board.new.pass) }
    {
        match self.drain_board(rt, board) {
            Ok(count) => {
                self.report_one(rt, board, entry)?;
                Ok(count + 1)
            }
            Err(NoMemory) => {
                let Entry { piece, values: _ } = entry;
                self.leave_out(board, piece);
                Err(NoMemory)
            }
        }
    }

    // Reports what stands in the line, up to its room, in its order.
    fn drain_board<R: Wait>(&self, rt: &R, board: &mut Board<V>) -> Result<u32, NoMemory>
        requires board { IsBoard self.now board.old.place board.old.tally board.old.pass board.old.all_reported }
        ensures board { IsBoard self.now board.new.place board.new.tally board.new.pass board.new.all_reported }
        ensures few { IfOk result (λ count. (count ≤ self.now.line.room) × (count ≤ 1024)) }
        ensures drains { IfOk result
            (DrainsAll self.now board.old.place board.old.pass board.new.place board.new.pass) }
        ensures ended { IfErr result (λ _. KnowsEnd board.new.pass) }
    {
        let mut count = 0;
        while count < self.room {
            if !self.take_one(rt, board)? {
                return Ok(count);
            }
            count += 1;
        }
        Ok(count)
    }

    // Reports the front entry. False says that the line was empty at one moment.
    pub(crate) fn take_one<R: Wait>(&self, rt: &R, board: &mut Board<V>) -> Result<bool, NoMemory>
        requires board { IsBoard self.now board.old.place board.old.tally board.old.pass board.old.all_reported }
        ensures board { IsBoard self.now board.new.place board.new.tally board.new.pass board.new.all_reported }
        ensures took { IfOk result (TakesSome self.now board.old.place board.old.pass board.new.place board.new.pass) }
        ensures ended { IfErr result (λ _. KnowsEnd board.new.pass) }
    {
        match self.line.pop(rt, &mut board.place) {
            None => Ok(false),
            Some(entry) => {
                self.report_one(rt, board, entry)?;
                Ok(true)
            }
        }
    }
}
