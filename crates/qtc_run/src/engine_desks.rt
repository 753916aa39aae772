//! A worker's desk at an engine.
ghost use Rattle.std.specs.Prelude.{◌≡◌};
ghost use Rattle.qtc_run.specs.Rounds.{IsFree};

use crate::slots::Slot;
use qtc_kernel::{Desk, Engine};
use qtc_ops::{FoldOp, ItemFn};
use qtc_outside::Gate;
use qtc_pool::Pool;
use std::marker::Model;
use std::sync::Wait;

/// An engine, and a desk of it whose worker is out. Contracts see the engine.
#[derive(Drop)]
pub(crate) struct EngineDesk<'e, 'a, F: ItemFn, G: Gate> {
    engine: &'e Engine<'a, F, FoldOp, G>,
    desk: Desk<F>,
}

impl<'e, 'a, F: ItemFn, G: Gate> Model for EngineDesk<'e, 'a, F, G> {
    ghost use Rattle.qtc_kernel.specs.EngineParts.{EngineParts};

    ghost Value = { EngineParts F };

    ghost use Rattle.qtc_run.specs.Rounds.{IsFree};

    ghost view = { λ a. a.engine.now };

    ghost invariant = { λ a. IsFree F.value F.called a.engine.now a.desk };
}

impl<'e, 'a, F: ItemFn, G: Gate> EngineDesk<'e, 'a, F, G> {
    /// An engine with a free desk of it.
    pub fn new(engine: &'e Engine<'a, F, FoldOp, G>, desk: Desk<F>) -> EngineDesk<'e, 'a, F, G>
        requires { IsFree F.value F.called engine.now desk }
        ensures { result ≡ engine.now }
    {
        EngineDesk { engine, desk }
    }

    /// Does the work of a slot: enters the engine, has the next slot queued where one more worker would find something
    /// to do, and takes turns until there is nothing left.
    pub fn work<R: Wait>(&mut self, rt: &R, pool: &Pool<Slot>, slot: &Slot)
        ensures { self.new ≡ self.old }
    {
        self.engine.enter(&mut self.desk);
        if self.engine.may_start(&mut self.desk) {
            slot.start_next(rt, pool);
        }
        self.engine.work(rt, &mut self.desk);
    }

    /// The desk.
    pub fn into_desk(self) -> Desk<F>
        ensures { IsFree F.value F.called self.entry result }
    {
        let EngineDesk { engine: _, desk } = self;
        desk
    }
}
