//! The inbox: how it is made, what it lends, and how it ends.
ghost use Rattle.std.specs.Prelude.{◌≡◌, ◌≤◌, ◌+◌, true, All, IfOk, length};
ghost use Rattle.qtc_base.specs.Limits.{most_passes};
ghost use Rattle.qtc_shared.specs.Passes.{IsHold, Stays};
ghost use Rattle.qtc_inbox.specs.Boards.{FitTogether, parts_with};
ghost use Rattle.qtc_inbox.specs.Inboxes.{IsNewTally, IsPieceOf, KnowsReports, inbox_passes, key_with, less_parts};
ghost use Rattle.qtc_inbox.specs.Rule.{new_view, one_part};

use crate::board::{Board, BoardKey, board_lock};
use crate::{InboxPass, Line, Place, Table};
use qtc_base::{NoMemory, Value};
use qtc_claim::{Counter, Piece, Tally};
use qtc_lock::KeyLock;
use qtc_shared::{Pass, SharedFuture};
use std::alloc::Global;
use std::marker::{Brand, Model};
use std::sync::Wait;

/// Where many workers hand in the pieces of one counter, each with the values that are kept of its range, to be reported to
/// one future. They share it by reference.
///
/// Contracts see its parts: its line, which counter, table and number of places that is for, and the pass that reports, as it
/// was when the inbox was made.
#[derive(Drop)]
pub struct Inbox<V: Value> {
    pub(crate) line: Line<V>,
    pub(crate) counter: Counter,
    pub(crate) future: SharedFuture<V>,
    pub(crate) board: KeyLock<Board<V>>,
    pub(crate) room: u32,
}

impl<V: Value> Model for Inbox<V> {
    ghost use Rattle.qtc_inbox.specs.Boards.{InboxParts};

    ghost Value = { InboxParts V };

    ghost use Rattle.qtc_inbox.specs.Inside.{IsInbox};

    ghost view = { λ a. a.board.key.parts };

    ghost invariant = { IsInbox };
}

impl<V: Value + Drop> Inbox<V> {
    /// An inbox with room for so many entries, for pieces of the counter with the values of the table that `N` names,
    /// and an `InboxPass` for each of the passes, in their order. It reports with `pass` alone. Err is want of memory,
    /// and drops all.
    pub fn new<N: Table<V>>(
        alloc: Global,
        future: SharedFuture<V>,
        pass: Pass<V>,
        passes: Vec<Pass<V>>,
        counter: Counter,
        tally: Tally,
        room: u32,
    ) -> Result<(Inbox<V>, Vec<InboxPass<V>>), NoMemory>
        requires named { N.named ≡ true }
        requires limits { (1 ≤ room) × (room ≤ 1024) × (length passes.items ≤ most_passes) }
        requires of { (pass.of ≡ future) × All (λ it. it.of ≡ future) passes.items }
        requires tally { IsNewTally counter tally }
        requires fits { FitTogether (key_with counter N.cells (length passes.items)) pass }
        ensures parts { IfOk result (λ made. made.0 ≡
            parts_with made.0.line (key_with counter N.cells (length passes.items)) pass) }
        ensures room { IfOk result (λ made. made.0.line.room ≡ room) }
        ensures passes { IfOk result (λ made. made.1.items ≡
            inbox_passes made.0.line.table (new_view made.0.key 1) passes.items) }
    {
        let (line, mut place) = Line::new::<N>(alloc, &counter, room, passes.len() as u32 + 1)?;
        let own = hand_out(alloc, &line, &mut place, passes)?;
        let first = Board {
            place,
            tally,
            pass,
            all_reported: true,
        };
        let board = board_lock::<V, Brand>(alloc, first, &line)?;
        let inbox = Inbox {
            line,
            counter,
            future,
            board,
            room,
        };
        Ok((inbox, own))
    }
}

impl<V: Value> Inbox<V> {
    /// The future to which it reports.
    pub fn future(&self) -> &SharedFuture<V>
        ensures { result.now ≡ self.now.pass.of }
    {
        &self.future
    }

    /// The counter whose pieces it gathers.
    pub fn counter(&self) -> &Counter
        ensures { result.now ≡ self.now.key.counter }
    {
        &self.counter
    }

    /// Gathers a piece that isn't reported.
    pub fn gather<R: Wait>(&self, rt: &R, piece: Piece)
        requires { IsPieceOf self.now.key.counter piece }
    {
        let (mut board, hold) = self.board.take(rt);
        self.leave_out(&mut board, piece);
        self.board.put(board, hold);
    }

    /// Lets a pass of the future meet the inbox's, in one hold: it then knows each report of the inbox so far, which is of a
    /// gathered piece, with the table's values.
    pub fn meet<R: Wait>(&self, rt: &R, pass: &mut Pass<V>)
        requires { pass.old.of ≡ self.now.pass.of }
        ensures hold { IsHold pass.old pass.new Stays }
        ensures reports { KnowsReports self.now pass.new.known }
    {
        let (mut board, hold) = self.board.take(rt);
        self.future.meet(rt, pass, &mut board.pass);
        self.board.put(board, hold);
    }

    /// Gives a poster's pass of the future back. What was queued by it stays queued; but then no `end` takes its place in.
    pub fn leave(&self, pass: InboxPass<V>) -> Pass<V>
        ensures { result ≡ pass.pass }
    {
        let InboxPass { place: _, pass } = pass;
        pass
    }
}

// A pass of the inbox for each of these, in their order.
fn hand_out<V>(
    alloc: Global,
    line: &Line<V>,
    place: &mut Place<V>,
    mut passes: Vec<Pass<V>>,
) -> Result<Vec<InboxPass<V>>, NoMemory>
    requires of { place.old.line ≡ line.now.table }
    requires parts { length passes.items + 1 ≤ place.old.has.parts }
    ensures line { IfOk result (λ made. place.new.line ≡ line.now.table) }
    ensures has { IfOk result (λ made. place.new.has ≡ less_parts (length passes.items) place.old.has) }
    ensures passes { IfOk result (λ made. made.items ≡
        inbox_passes line.now.table (one_part place.old.has) passes.items) }
{
    let mut made = Vec::with_capacity(alloc, passes.len())?;
    while passes.len() > 0 {
        made.push_reserved(InboxPass {
            place: Some(line.part(place)),
            pass: passes.remove(0),
        });
    }
    Ok(made)
}
