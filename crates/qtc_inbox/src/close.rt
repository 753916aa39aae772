//! How an inbox ends.
ghost use Rattle.std.specs.Prelude.{◌≡◌};
ghost use Rattle.qtc_inbox.specs.Endings.{IsClosed, KeepsReporting};

use crate::board::Board;
use crate::entry::Entry;
use crate::{Inbox, Line};
use qtc_base::Value;
use qtc_claim::{Counter, Tally};
use qtc_shared::{Pass, SharedFuture};
use std::sync::Wait;

impl<V: Value + Drop> Inbox<V> {
    /// Ends the inbox, and gives what it was made of. What is still queued is gathered, and not reported.
    pub fn close<R: Wait>(self, rt: &R) -> (SharedFuture<V>, Pass<V>, Counter, Tally)
        ensures { IsClosed self result.0 result.1 result.2 result.3 }
    {
        let Inbox {
            line,
            counter,
            future,
            board,
            room,
        } = self;
        let mut last = board.close(rt);
        leave_queued(rt, &line, &counter, &mut last, room);
        let Board {
            place: _,
            tally,
            pass,
            all_reported: _,
        } = last;
        (future, pass, counter, tally)
    }
}

// Gathers what is queued, and reports none of it.
fn leave_queued<V: Value + Drop, R: Wait>(
    rt: &R,
    line: &Line<V>,
    counter: &Counter,
    board: &mut Board<V>,
    room: u32,
)
    requires line { board.old.place.line ≡ line.now.table }
    requires counter { board.old.tally.of ≡ counter.now }
    requires key { board.old.place.has.key.counter ≡ counter.now }
    ensures pass { board.new.pass ≡ board.old.pass }
    ensures kept { KeepsReporting counter.now board.old.tally board.old.all_reported board.new.tally
        board.new.all_reported board.old.pass }
{
    for _left in 0..room {
        match line.pop(rt, &mut board.place) {
            Some(entry) => {
                let Entry { piece, values: _ } = entry;
                board.tally.gather(counter, piece);
                board.all_reported = false;
            }
            None => return,
        }
    }
}
