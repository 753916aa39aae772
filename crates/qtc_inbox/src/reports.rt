//! How entries come to the future. All of it is done in one hold of the board.
ghost use Rattle.std.specs.Prelude.{◌≡◌, ◌&&◌, Contains, IfErr};
ghost use Rattle.qtc_future.specs.Steps.{told_by};
ghost use Rattle.qtc_shared.specs.Passes.{is_accepted};
ghost use Rattle.qtc_inbox.specs.Boards.{IsBoard, IsReporting};
ghost use Rattle.qtc_inbox.specs.Draining.{CallsBeside, ReportsOne};
ghost use Rattle.qtc_inbox.specs.Inboxes.{IsPieceOf};
ghost use Rattle.qtc_inbox.specs.Reports.{KnowsEnd};
ghost use Rattle.qtc_inbox.specs.Rule.{Fits};

use crate::Inbox;
use crate::board::Board;
use crate::entry::Entry;
use qtc_base::{NoMemory, Value};
use qtc_claim::Piece;
use qtc_events::Reached;
use qtc_future::Reply;
use qtc_shared::Pass;
use std::sync::Wait;

// Whether the reply says that the values were taken.
fn is_accepted(reply: Reply) -> bool
    ensures { result ≡ is_accepted (told_by reply) }
{
    match reply {
        Reply::Accepted { .. } => true,
        _ => false,
    }
}

// Whether all were reported, with one more of this reply.
fn still_all(all_reported: bool, reply: Reply) -> bool
    ensures { result ≡ (all_reported && is_accepted (told_by reply)) }
{
    all_reported && is_accepted(reply)
}

// Whether the reply says that a suspension was reached.
fn is_suspend(reply: Reply) -> bool {
    match reply {
        Reply::Accepted { reached, .. } => matches!(reached, Reached::Suspend),
        _ => false,
    }
}

impl<V: Value> Inbox<V> {
    // Gathers a piece that isn't reported.
    pub(crate) fn leave_out(&self, board: &mut Board<V>, piece: Piece)
        requires board { IsBoard self.now board.old.place board.old.tally board.old.pass board.old.all_reported }
        requires piece { IsPieceOf self.now.key.counter piece }
        ensures board { IsBoard self.now board.new.place board.new.tally board.new.pass board.new.all_reported }
        ensures pass { board.new.pass ≡ board.old.pass }
        ensures gathered { Contains board.new.tally.pieces piece.addition }
    {
        board.tally.gather(&self.counter, piece);
        board.all_reported = false;
    }

    // Cancels the future, for want of memory.
    fn give_up<R: Wait>(&self, rt: &R, pass: &mut Pass<V>)
        requires of { pass.old.of ≡ self.now.pass.of }
        requires number { pass.old.number ≡ self.now.pass.number }
        ensures beside { CallsBeside self.now.pass.number pass.old pass.new }
        ensures ended { KnowsEnd pass.new }
    {
        self.future.cancel(rt, pass);
    }

    // Tells that the work stands still, and resumes it.
    fn go_on<R: Wait>(&self, rt: &R, pass: &mut Pass<V>) -> Result<(), NoMemory>
        requires of { pass.old.of ≡ self.now.pass.of }
        requires number { pass.old.number ≡ self.now.pass.number }
        ensures { CallsBeside self.now.pass.number pass.old pass.new }
    {
        self.future.report_suspended(rt, pass)?;
        self.future.set_suspended(rt, pass, false)?;
        Ok(())
    }

    // Goes on after a report, also where that reached a suspension. Err is want of memory, and the future is canceled then.
    fn answer<R: Wait>(&self, rt: &R, pass: &mut Pass<V>, reply: Reply) -> Result<(), NoMemory>
        requires of { pass.old.of ≡ self.now.pass.of }
        requires number { pass.old.number ≡ self.now.pass.number }
        ensures beside { CallsBeside self.now.pass.number pass.old pass.new }
        ensures ended { IfErr result (λ _. KnowsEnd pass.new) }
    {
        if !is_suspend(reply) {
            return Ok(());
        }
        match self.go_on(rt, pass) {
            Ok(()) => Ok(()),
            Err(NoMemory) => {
                self.give_up(rt, pass);
                Err(NoMemory)
            }
        }
    }
}

impl<V: Value + Drop> Inbox<V> {
    // Reports an entry and gathers its piece. Err is want of memory, and the future is canceled then.
    fn report<R: Wait>(
        &self,
        rt: &R,
        board: &mut Board<V>,
        entry: Entry<V>,
    ) -> Result<Reply, NoMemory>
        requires fits { Fits self.now.key entry }
        requires reporting { IsReporting self.now board.old.tally board.old.pass board.old.all_reported }
        ensures place { board.new.place ≡ board.old.place }
        ensures reporting { IsReporting self.now board.new.tally board.new.pass board.new.all_reported }
        ensures one { ReportsOne self.now board.old.tally board.old.pass board.new.tally board.new.pass
            entry.piece.addition }
        ensures ended { IfErr result (λ _. KnowsEnd board.new.pass) }
    {
        let Entry { piece, values } = entry;
        let range = piece.range();
        let total = range.end - range.begin;
        match self
            .future
            .report(rt, &mut board.pass, range.begin, values, total)
        {
            Ok(reply) => {
                board.tally.gather(&self.counter, piece);
                board.all_reported = still_all(board.all_reported, reply);
                Ok(reply)
            }
            Err(NoMemory) => {
                self.give_up(rt, &mut board.pass);
                board.tally.gather(&self.counter, piece);
                board.all_reported = false;
                Err(NoMemory)
            }
        }
    }

    // The same, and goes on where that reached a suspension.
    pub(crate) fn report_one<R: Wait>(
        &self,
        rt: &R,
        board: &mut Board<V>,
        entry: Entry<V>,
    ) -> Result<(), NoMemory>
        requires fits { Fits self.now.key entry }
        requires reporting { IsReporting self.now board.old.tally board.old.pass board.old.all_reported }
        ensures place { board.new.place ≡ board.old.place }
        ensures reporting { IsReporting self.now board.new.tally board.new.pass board.new.all_reported }
        ensures one { ReportsOne self.now board.old.tally board.old.pass board.new.tally board.new.pass
            entry.piece.addition }
        ensures ended { IfErr result (λ _. KnowsEnd board.new.pass) }
    {
        let reply = self.report(rt, board, entry)?;
        self.answer(rt, &mut board.pass, reply)
    }
}
