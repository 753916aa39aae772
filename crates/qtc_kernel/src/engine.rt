//! An engine that many workers drive.
ghost use Rattle.std.specs.Prelude.{◌≡◌, ◌&&◌, not, nat_lt, true, false, IfOk};
ghost use Rattle.qtc_kernel.specs.EngineParts.{IsDesk, IsEngineOf, IsPlanned, IsSameButLooks};
ghost use Rattle.qtc_kernel.specs.OwnPasses.{plan_terms};
ghost use Rattle.qtc_kernel.specs.Turns.{MayStart};

use crate::board::{Board, board_lock};
use crate::desk::desks_of;
use crate::new_future::{Opened, open_future};
use crate::{Desk, Kind, Plan};
use qtc_active::ActiveCount;
use qtc_base::{Bytes, Items, List, NoMemory};
use qtc_claim::Counter;
use qtc_lock::KeyLock;
use qtc_ops::{Fold, ItemFn};
use qtc_outside::Gate;
use qtc_shared::{Pass, SharedFuture};
use std::alloc::Global;
use std::marker::{Brand, Model, PhantomData};

/// An engine that many workers drive, each from a desk of its own; they share it by reference. (After Qt's ThreadEngine
/// and IterateKernel.)
///
/// Contracts see its kind, its counter, its future, its count of workers that are in, the items, the functions of its
/// workers as they began, and the sizes of its blocks (`EngineParts`).
#[derive(Drop)]
pub struct Engine<'a, F: ItemFn, R: Fold, G: Gate> {
    pub(crate) alloc: Global,
    pub(crate) kind: Kind,
    pub(crate) items: &'a Items,
    pub(crate) job: u32,
    pub(crate) gate: &'a G,
    pub(crate) workers: u32,
    pub(crate) sizes: List<u32>,
    pub(crate) ordered: bool,
    pub(crate) fold: Option<&'a R>,
    pub(crate) counter: Counter,
    pub(crate) future: SharedFuture<Bytes>,
    pub(crate) board: KeyLock<Board<F>>,
    pub(crate) active: ActiveCount,
}

impl<'a, F: ItemFn, R: Fold, G: Gate> Model for Engine<'a, F, R, G> {
    ghost use Rattle.qtc_kernel.specs.EngineParts.{EngineParts};

    ghost Value = { EngineParts F };

    ghost use Rattle.qtc_kernel.specs.Desks.{IsEngine};

    ghost view = { λ a. a.board.key.parts };

    ghost invariant = { IsEngine F.value };
}

impl<'a, F: ItemFn + Drop, R: Fold, G: Gate> Engine<'a, F, R, G> {
    /// An engine, a desk for each worker, in order of their numbers and all out, and a pass for the caller.
    ///
    /// The future is started. The desks have its passes from 0 on, each with a function of its own; the next reports
    /// for all of them, and the caller's is the one after. The kind is a plain one so far. Err is want of memory.
    pub fn new(
        alloc: Global,
        plan: Plan<'a, R>,
        functions: Vec<F>,
        gate: &'a G,
    ) -> Result<(Engine<'a, F, R, G>, Vec<Desk<F>>, Pass<Bytes>), NoMemory>
        requires { IsPlanned F.value F.called plan.kind plan.fold plan.items.now plan.workers plan.blocks
            functions.items }
        ensures { let plan = plan.entry in
            let terms = plan_terms plan.kind plan.cancel_after plan.suspend_after plan.workers in
            IfOk result (λ made. IsEngineOf F.value F.called plan.items.now plan.kind terms plan.blocks
            functions.items made.0 made.1.items made.2) }
    {
        let Plan {
            kind,
            items,
            job,
            workers,
            blocks,
            ordered,
            cancel_after,
            suspend_after,
            fold,
        } = plan;
        let Opened {
            future,
            passes,
            reporter,
            caller,
        } = open_future(alloc, kind, cancel_after, suspend_after, workers)?;
        let (counter, seats, tally) = Counter::new(alloc, items.len(), workers)?;
        let (active, badges) = ActiveCount::new(alloc, workers)?;
        let board = Board {
            tally,
            pass: reporter,
            all_reported: true,
            marker: PhantomData,
        };
        let board = board_lock::<F, Brand>(
            alloc, board, kind, &counter, &future, &active, items, &functions, &blocks,
        )?;
        let desks = desks_of(alloc, seats, passes, badges, functions)?;
        let engine = Engine {
            alloc,
            kind,
            items,
            job,
            gate,
            workers,
            sizes: blocks,
            ordered,
            fold,
            counter,
            future,
            board,
            active,
        };
        Ok((engine, desks, caller))
    }
}

impl<'a, F: ItemFn, R: Fold, G: Gate> Engine<'a, F, R, G> {
    /// The future, through which a caller watches, suspends and cancels, with passes of its own.
    pub fn future(&self) -> &SharedFuture<Bytes>
        ensures { result.now ≡ self.now.future }
    {
        &self.future
    }

    /// Counts the worker in.
    pub fn enter(&self, desk: &mut Desk<F>)
        requires desk { IsDesk F.value F.called self.now desk.old }
        requires out { desk.old.badge.is_in ≡ false }
        ensures desk { IsDesk F.value F.called self.now desk.new }
        ensures only { desk.new ≡ record desk.old { badge = record desk.old.badge { is_in = true } } }
    {
        self.active.enter(&mut desk.badge);
    }

    /// Whether a further worker would find something to do: true exactly where an index is left, Canceled doesn't stand,
    /// and fewer than all workers are in, each by one load.
    pub fn may_start(&self, desk: &mut Desk<F>) -> bool
        requires desk { IsDesk F.value F.called self.now desk.old }
        ensures desk { IsDesk F.value F.called self.now desk.new }
        ensures only { IsSameButLooks desk.old desk.new }
        ensures may_start { MayStart self.now desk.old desk.new result }
    {
        let is_open = self.counter.is_open(&mut desk.seat);
        let is_canceled = self.future.is_canceled(&mut desk.pass);
        let active = self.active.count(&mut desk.badge);
        may_further_start(is_open, is_canceled, active, self.workers)
    }
}

// Whether an index is left, Canceled doesn't stand, and fewer than all workers are in.
fn may_further_start(is_open: bool, is_canceled: bool, active: u32, workers: u32) -> bool
    ensures { result ≡ ((is_open && not is_canceled) && nat_lt active workers) }
{
    is_open && !is_canceled && active < workers
}
