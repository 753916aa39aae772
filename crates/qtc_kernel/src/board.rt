//! What the workers of an engine share under a lock.
ghost use Rattle.std.specs.Prelude.{◌≡◌, true, IfOk};
ghost use Rattle.std.specs.Borrow.{ftrue};
ghost use Rattle.qtc_kernel.specs.EngineParts.{EngineParts, IsBoard, parts_with};

use crate::Kind;
use qtc_active::ActiveCount;
use qtc_base::{Bytes, Items, List, NoMemory};
use qtc_claim::{Counter, Tally};
use qtc_lock::{KeyLock, Keyed, Names};
use qtc_ops::ItemFn;
use qtc_shared::{Pass, SharedFuture};
use std::alloc::Global;
use std::marker::{Brand, Model, PhantomData};

/// The tally of the pieces, the pass that reports them, each in the hold of the lock in which its piece is gathered, and
/// whether all were reported.
#[derive(Drop)]
pub(crate) struct Board<F> {
    pub(crate) tally: Tally,
    pub(crate) pass: Pass<Bytes>,
    /// Whether each piece of the tally was reported.
    pub(crate) all_reported: bool,
    pub(crate) marker: PhantomData<F>,
}

/// Which engine a board is of. No value of it is made.
pub(crate) struct BoardKey<F> {
    marker: PhantomData<F>,
    pub ghost parts: { EngineParts F },
}

impl<F> Model for BoardKey<F> {
    ghost also_owns = { λ _. ftrue };
}

impl<F> Names<BoardKey<F>> for Brand {
    ghost use Rattle.std.specs.Prelude.{false};
    ghost use Rattle.qtc_kernel.specs.EngineParts.{no_parts};

    ghost key = { record { marker = record {}; parts = no_parts } };

    ghost named = { false };
}

impl<F: ItemFn> Keyed for Board<F> {
    ghost use Rattle.qtc_kernel.specs.EngineParts.{IsBoard};

    type Key = BoardKey<F>;

    ghost fits = { λ key board. IsBoard F.value key.parts board.tally board.pass board.all_reported };
}

/// A lock over the board of an engine of these parts. Err is want of memory.
pub(crate) fn board_lock<F: ItemFn, J: Names<BoardKey<F>>>(
    alloc: Global,
    board: Board<F>,
    kind: Kind,
    counter: &Counter,
    future: &SharedFuture<Bytes>,
    active: &ActiveCount,
    items: &Items,
    functions: &Vec<F>,
    sizes: &List<u32>,
) -> Result<KeyLock<Board<F>>, NoMemory>
    requires named { J.named ≡ true }
    requires key { J.key.parts
        ≡ parts_with kind counter.now future.now active.now items.now functions.now.items sizes.now }
    requires fits { IsBoard F.value J.key.parts board.tally board.pass board.all_reported }
    ensures { IfOk result (λ lock. lock.key.parts
        ≡ parts_with kind counter.now future.now active.now items.now functions.now.items sizes.now) }
{
    match KeyLock::new::<Brand>(alloc, board) {
        Ok(lock) => Ok(lock),
        Err(_) => Err(NoMemory),
    }
}
