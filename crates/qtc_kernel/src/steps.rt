//! One turn of a worker.
ghost use Rattle.std.specs.Prelude.{◌≡◌, ◌+◌, ◌<◌, true, false, Some, IsTrue, cond, nat_lt};
ghost use Rattle.qtc_events.specs.Flags.{flags_in};
ghost use Rattle.qtc_kernel.specs.EngineParts.{HasMetEnd, IsDesk, IsFailedCall, shows_end, work_of};
ghost use Rattle.qtc_kernel.specs.Turns.{IsLastTurn, IsTurn, LooksEnded, LooksFree, goes_on, wants_after};
ghost use Rattle.qtc_kernel.specs.WorkedOut.{Continues};
ghost use Rattle.qtc_kernel.specs.Working.{FailsOrWants, HasGivenUp, HasLooked, IsAtWork, IsLeaving, IsWorked, StaysAtWork, is_waiting, range_in};
ghost use Rattle.qtc_kernel.specs.Workload.{item_at};

use crate::blocks::{Block, block_values};
use crate::{Desk, Engine, Turn};
use qtc_base::{Bytes, NoMemory};
use qtc_claim::Piece;
use qtc_events::Flags;
use qtc_ops::{Fold, ItemFn};
use qtc_outside::Gate;
use qtc_shared::Pass;
use std::sync::Wait;

// Whether Canceled or Finished stands.
fn ended(flags: Flags) -> bool
    ensures { result ≡ shows_end (flags_in flags.bits) }
{
    flags.is_canceled() || flags.is_finished()
}

// Whether a suspension stands, and no end.
fn is_to_wait(flags: Flags) -> bool
    ensures { result ≡ is_waiting (flags_in flags.bits) }
{
    (flags.is_suspending() || flags.is_suspended()) && !ended(flags)
}

// The place after this one in a list of so many, over and over.
fn place_after(at: usize, len: usize) -> usize
    requires { at < len }
    ensures { result ≡ cond (nat_lt (at + 1) len) (at + 1) 0 }
{
    if at + 1 < len { at + 1 } else { 0 }
}

fn is_did(turn: Turn) -> bool
    ensures { result ≡ goes_on turn }
{
    match turn {
        Turn::Did(_) => true,
        _ => false,
    }
}

impl<'a, F: ItemFn, R: Fold, G: Gate> Engine<'a, F, R, G> {
    /// One turn of a worker that is in: it looks whether an end stands, waits where the future is suspended, claims a
    /// block of the size whose turn it is, calls the function on each index of it, ascending, entering the gate with
    /// the job and the index just before each call, and reports what was kept. No contract sees the gate.
    ///
    /// After every answer but `Did` the worker is out. For want of memory it cancels the future, and for nothing else.
    pub fn step<W: Wait>(&self, rt: &W, desk: &mut Desk<F>) -> Turn
        requires desk { IsDesk F.value F.called self.now desk.old }
        requires is_in { desk.old.badge.is_in ≡ true }
        ensures desk { IsDesk F.value F.called self.now desk.new }
        ensures number { desk.new.pass.number ≡ desk.old.pass.number }
        ensures turn { IsTurn F.value F.called self.now desk.old desk.new result }
        ensures out { desk.new.badge.is_in ≡ goes_on result }
        ensures wants_memory { desk.new.wants_memory ≡ wants_after desk.old.wants_memory result }
    {
        let turn = self.turn(rt, desk);
        if !is_did(turn) {
            self.leave(desk);
        }
        turn
    }

    /// Takes turns until an answer other than `Did`, which it gives.
    pub fn work<W: Wait>(&self, rt: &W, desk: &mut Desk<F>) -> Turn
        requires desk { IsDesk F.value F.called self.now desk.old }
        requires is_in { desk.old.badge.is_in ≡ true }
        ensures desk { IsDesk F.value F.called self.now desk.new }
        ensures function { Continues F.value F.called desk.old.function desk.new.function }
        ensures turn { IsLastTurn F.value F.called self.now desk.old desk.new result }
        ensures out { desk.new.badge.is_in ≡ false }
        ensures wants_memory { desk.new.wants_memory ≡ wants_after desk.old.wants_memory result }
    {
        for _ in rt.forever() {
            let turn = self.step(rt, desk);
            if !is_did(turn) {
                return turn;
            }
        }
        unreachable!()
    }

    // Counts the worker out.
    fn leave(&self, desk: &mut Desk<F>)
        requires of { desk.old.badge.of ≡ self.now.active }
        requires is_in { desk.old.badge.is_in ≡ true }
        ensures { desk.new ≡ record desk.old { badge = record desk.old.badge { is_in = false } } }
    {
        self.active.leave(&mut desk.badge);
    }

    // The turn, before a worker leaves.
    fn turn<W: Wait>(&self, rt: &W, desk: &mut Desk<F>) -> Turn
        requires desk { IsDesk F.value F.called self.now desk.old }
        ensures desk { IsDesk F.value F.called self.now desk.new }
        ensures number { desk.new.pass.number ≡ desk.old.pass.number }
        ensures turn { IsTurn F.value F.called self.now desk.old desk.new result }
        ensures badge { desk.new.badge ≡ desk.old.badge }
        ensures wants_memory { desk.new.wants_memory ≡ wants_after desk.old.wants_memory result }
    {
        if self.meets_end(rt, &mut desk.pass) {
            return Turn::SawCanceled;
        }
        let size = self.sizes.as_slice()[desk.next_size];
        let Some(piece) = self.counter.claim(&mut desk.seat, size) else {
            return Turn::Exhausted;
        };
        desk.next_size = place_after(desk.next_size, self.sizes.len());
        self.work_on(rt, desk, piece)
    }

    // Looks whether Canceled or Finished stands, and where a suspension does, again after it.
    fn meets_end<W: Wait>(&self, rt: &W, pass: &mut Pass<Bytes>) -> bool
        requires { pass.old.of ≡ self.now.future }
        ensures looked { HasLooked pass.old pass.new }
        ensures end { IsTrue result → LooksEnded pass.old pass.new × HasMetEnd pass.new }
        ensures free { result ≡ false → LooksFree pass.old pass.new }
        ensures going { result ≡ false → HasMetEnd pass.old → ⊥ }
    {
        let flags = self.future.state(pass);
        if !is_to_wait(flags) {
            return ended(flags);
        }
        ended(self.future.wait_resume(rt, pass))
    }

    // Works on the piece in hand, and hands in what was kept.
    fn work_on<W: Wait>(&self, rt: &W, desk: &mut Desk<F>, piece: Piece) -> Turn
        requires { IsAtWork F.value F.called self.now desk.old piece }
        ensures desk { IsDesk F.value F.called self.now desk.new }
        ensures stays { StaysAtWork desk.old desk.new result }
        ensures turn { IsWorked F.value F.called self.now desk.old desk.new (range_in self.now piece) result }
    {
        let block = piece.range();
        match block_values(
            self.alloc,
            self.kind,
            self.items,
            self.job,
            block,
            &mut desk.function,
            self.gate,
        ) {
            Ok(Block::Kept(values)) => match self.hand_in(rt, &mut desk.pass, piece, values) {
                Ok(true) => Turn::Did(block),
                Ok(false) => Turn::SawCanceled,
                Err(piece) => self.give_up(rt, desk, piece),
            },
            Ok(Block::Bad(index)) => self.fail(rt, desk, piece, index),
            Err(NoMemory) => self.give_up(rt, desk, piece),
        }
    }

    // Fails the future with the bad item at the index, and gathers the piece.
    fn fail<W: Wait>(&self, rt: &W, desk: &mut Desk<F>, piece: Piece, index: u32) -> Turn
        requires desk { IsLeaving F.value F.called self.now desk.old piece }
        requires bad { let work = work_of F.value self.now in
            IsFailedCall work (F.called desk.old.function) (record { index = index; item = item_at work index }) }
        ensures desk { IsDesk F.value F.called self.now desk.new }
        ensures turn { FailsOrWants desk.old desk.new index (item_at (work_of F.value self.now) index) result }
    {
        let bad = self.items.get(index).unwrap();
        let Ok(item) = Bytes::from_slice(self.alloc, bad) else {
            return self.give_up(rt, desk, piece);
        };
        self.future.fail(rt, &mut desk.pass, index, item);
        self.gather(rt, &mut desk.pass, piece);
        Turn::Failed(index)
    }

    // Cancels the future for want of memory, and gathers the piece.
    fn give_up<W: Wait>(&self, rt: &W, desk: &mut Desk<F>, piece: Piece) -> Turn
        requires { IsLeaving F.value F.called self.now desk.old piece }
        ensures desk { IsDesk F.value F.called self.now desk.new }
        ensures turn { HasGivenUp desk.old desk.new result }
    {
        self.future.cancel(rt, &mut desk.pass);
        self.gather(rt, &mut desk.pass, piece);
        desk.wants_memory = true;
        Turn::Memory
    }
}
