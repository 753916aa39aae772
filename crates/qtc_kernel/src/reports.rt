//! How the values of a piece come to the future.
ghost use Rattle.std.specs.Prelude.{◌≡◌, ◌&&◌, None, IfErr, IfOk};
ghost use Rattle.qtc_future.specs.Steps.{told_by};
ghost use Rattle.qtc_shared.specs.Passes.{IsHold, Stays, is_accepted};
ghost use Rattle.qtc_kernel.specs.EngineParts.{IsBoard, IsLeft, KnowsEnd, reporter, work_of};
ghost use Rattle.qtc_kernel.specs.Working.{IsHandedIn, IsPieceOf, is_drop, range_in};
ghost use Rattle.qtc_kernel.specs.Workload.{first_bad, texts_in};

use crate::Engine;
use crate::board::Board;
use qtc_base::{Bytes, List, NoMemory};
use qtc_claim::Piece;
use qtc_future::Reply;
use qtc_ops::{Fold, ItemFn};
use qtc_outside::Gate;
use qtc_shared::Pass;
use std::sync::Wait;

// Whether the reply says that an end stands.
fn is_dropped(reply: Reply) -> bool
    ensures { result ≡ is_drop (told_by reply) }
{
    match reply {
        Reply::Dropped(_) => true,
        _ => false,
    }
}

// Whether the reply says that the values were taken.
fn is_accepted(reply: Reply) -> bool
    ensures { result ≡ is_accepted (told_by reply) }
{
    match reply {
        Reply::Accepted { .. } => true,
        _ => false,
    }
}

// Whether all were reported, with one more of this reply.
fn still_all(all_reported: bool, reply: Reply) -> bool
    ensures { result ≡ (all_reported && is_accepted (told_by reply)) }
{
    all_reported && is_accepted(reply)
}

impl<'a, F: ItemFn, R: Fold, G: Gate> Engine<'a, F, R, G> {
    /// Reports the values of a piece and gathers it, in one hold of the board, in which the pass meets the one that
    /// reports. False says that an end stands. Err is want of memory, and hands the piece back.
    pub(crate) fn hand_in<W: Wait>(
        &self,
        rt: &W,
        pass: &mut Pass<Bytes>,
        piece: Piece,
        values: List<Bytes>,
    ) -> Result<bool, Piece>
        requires of { pass.old.of ≡ self.now.future }
        requires piece { IsPieceOf self.now piece }
        requires values { values ≡ texts_in (work_of F.value self.now) (range_in self.now piece) }
        requires good { first_bad (work_of F.value self.now) (range_in self.now piece) ≡ None }
        ensures pass { IsHold pass.old pass.new Stays }
        ensures ok { IfOk result (IsHandedIn (reporter self.now) pass.new.known (range_in self.now piece)) }
        ensures back { IfErr result (λ back. back ≡ piece) }
    {
        let (mut board, hold) = self.board.take(rt);
        let told = self.report(rt, &mut board, piece, values);
        self.future.meet(rt, pass, &mut board.pass);
        self.board.put(board, hold);
        told
    }

    /// Gathers a piece that isn't reported, in a hold of the board in which the pass, which knows an end, meets the one
    /// that reports.
    pub(crate) fn gather<W: Wait>(&self, rt: &W, pass: &mut Pass<Bytes>, piece: Piece)
        requires of { pass.old.of ≡ self.now.future }
        requires ended { KnowsEnd pass.old }
        requires piece { IsPieceOf self.now piece }
        ensures pass { IsHold pass.old pass.new Stays }
        ensures left { IsLeft self.now.counter.n (reporter self.now) pass.new piece.addition }
    {
        let (mut board, hold) = self.board.take(rt);
        self.future.meet(rt, pass, &mut board.pass);
        board.tally.gather(&self.counter, piece);
        board.all_reported = false;
        self.board.put(board, hold);
    }

    // Reports the values of a piece, and gathers it.
    fn report<W: Wait>(
        &self,
        rt: &W,
        board: &mut Board<F>,
        piece: Piece,
        values: List<Bytes>,
    ) -> Result<bool, Piece>
        requires board { IsBoard F.value self.now board.old.tally board.old.pass board.old.all_reported }
        requires piece { IsPieceOf self.now piece }
        requires values { values ≡ texts_in (work_of F.value self.now) (range_in self.now piece) }
        requires good { first_bad (work_of F.value self.now) (range_in self.now piece) ≡ None }
        ensures board { IsBoard F.value self.now board.new.tally board.new.pass board.new.all_reported }
        ensures ok { IfOk result (IsHandedIn (reporter self.now) board.new.pass.known (range_in self.now piece)) }
        ensures back { IfErr result (λ back. back ≡ piece) }
    {
        let range = piece.range();
        let total = range.end - range.begin;
        match self
            .future
            .report(rt, &mut board.pass, range.begin, values, total)
        {
            Ok(reply) => {
                board.tally.gather(&self.counter, piece);
                board.all_reported = still_all(board.all_reported, reply);
                Ok(!is_dropped(reply))
            }
            Err(NoMemory) => Err(piece),
        }
    }
}
