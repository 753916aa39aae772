//! What the callers of an inbox share under a lock.
ghost use Rattle.std.specs.Prelude.{◌≡◌, true, IfOk};
ghost use Rattle.std.specs.Borrow.{ftrue};
ghost use Rattle.qtc_inbox.specs.Boards.{InboxParts, IsBoard, parts_with};

use crate::{Line, Place};
use qtc_base::{NoMemory, Value};
use qtc_claim::Tally;
use qtc_lock::{KeyLock, Keyed, Names};
use qtc_shared::Pass;
use std::alloc::Global;
use std::marker::{Brand, Model, PhantomData};

/// The place that takes entries, the tally that gathers their pieces, the pass that reports them, each in the hold in which
/// its piece is gathered, and whether all pieces were reported.
#[derive(Drop)]
pub(crate) struct Board<V> {
    pub(crate) place: Place<V>,
    pub(crate) tally: Tally,
    pub(crate) pass: Pass<V>,
    /// Whether each piece of the tally was reported, and the report accepted.
    pub(crate) all_reported: bool,
}

/// Which inbox a board is of. No value of it is made.
pub(crate) struct BoardKey<V> {
    marker: PhantomData<V>,
    pub ghost parts: { InboxParts V },
}

impl<V> Model for BoardKey<V> {
    ghost also_owns = { λ _. ftrue };
}

impl<V> Names<BoardKey<V>> for Brand {
    ghost use Rattle.std.specs.Prelude.{false};
    ghost use Rattle.qtc_inbox.specs.Boards.{no_parts};

    ghost key = { record { marker = record {}; parts = no_parts } };

    ghost named = { false };
}

impl<V: Value> Keyed for Board<V> {
    ghost use Rattle.qtc_inbox.specs.Boards.{IsBoard};

    type Key = BoardKey<V>;

    ghost fits = { λ key board. IsBoard key.parts board.place board.tally board.pass board.all_reported };
}

/// A lock over the board of an inbox at this line. Err is want of memory.
pub(crate) fn board_lock<V: Value, J: Names<BoardKey<V>>>(
    alloc: Global,
    board: Board<V>,
    _line: &Line<V>,
) -> Result<KeyLock<Board<V>>, NoMemory>
    requires named { J.named ≡ true }
    requires key { J.key.parts ≡ parts_with _line.now board.place.has.key board.pass }
    requires fits { IsBoard J.key.parts board.place board.tally board.pass board.all_reported }
    ensures { IfOk result (λ lock. lock.key.parts ≡ parts_with _line.now board.place.has.key board.pass) }
{
    match KeyLock::new::<J>(alloc, board) {
        Ok(lock) => Ok(lock),
        Err(_) => Err(NoMemory),
    }
}
