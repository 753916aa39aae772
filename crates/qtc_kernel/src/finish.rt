//! How an engine ends.
ghost use Rattle.std.specs.Prelude.{◌≡◌, ◌≤◌, ◌⊎◌, ◌↔◌, ◌++◌, ◌∷◌, [], true, false, All, IfOk, IsTrue};
ghost use Rattle.qtc_base.specs.Ranges.{Tiles};
ghost use Rattle.qtc_claim.specs.Counter.{HasAll, IsGathered, KnowsClaims};
ghost use Rattle.qtc_shared.specs.Journals.{IsJournal, calls_by, flags_at};
ghost use Rattle.qtc_shared.specs.Passes.{Meets};
ghost use Rattle.qtc_kernel.specs.EngineParts.{AreDesks, HasMetEnd, IsBoard, IsDesk, ranges_by, reporter, work_of};
ghost use Rattle.qtc_kernel.specs.Endings.{AreGathered, AreSettled, IsMet, KnowsTheSame, functions_at, wants_at, with_seat};
ghost use Rattle.qtc_kernel.specs.Gathering.{HasEnded};
ghost use Rattle.qtc_kernel.specs.Turns.{GoesOn};
ghost use Rattle.qtc_kernel.specs.WorkedOut.{AreContinued, Continues, IsWorkedOut, calls_of};

use crate::board::Board;
use crate::{Desk, Engine};
use qtc_base::{Bytes, List, NoMemory};
use qtc_claim::Tally;
use qtc_ops::{Fold, ItemFn};
use qtc_outside::Gate;
use qtc_shared::{Pass, known_is_kept};
use std::alloc::Global;
use std::sync::Wait;

impl<'a, F: ItemFn, R: Fold, G: Gate> Engine<'a, F, R, G> {
    // Lets a pass meet those of the desks, one after the other.
    fn meet_each<W: Wait>(&self, rt: &W, pass: &mut Pass<Bytes>, desks: &mut Vec<Desk<F>>)
        requires pass { pass.old.of ≡ self.now.future }
        requires desks { All (IsDesk F.value F.called self.now) desks.old.items }
        ensures pass { GoesOn pass.old pass.new }
        ensures own { calls_by pass.new.number pass.new.known ≡ calls_by pass.old.number pass.old.known }
        ensures functions { functions_at desks.new.items ≡ functions_at desks.old.items }
        ensures wants_memory { wants_at desks.new.items ≡ wants_at desks.old.items }
        ensures desks { All (IsDesk F.value F.called self.now) desks.new.items }
        ensures met { All (IsMet pass.new.known) desks.new.items }
    {
        for at in 0..desks.len() {
            self.meet_desk(rt, pass, &mut desks[at]);
        }
    }

    // Lets a pass meet that of a desk.
    fn meet_desk<W: Wait>(&self, rt: &W, pass: &mut Pass<Bytes>, desk: &mut Desk<F>)
        requires pass { pass.old.of ≡ self.now.future }
        requires desk { IsDesk F.value F.called self.now desk.old }
        ensures pass { GoesOn pass.old pass.new }
        ensures own { calls_by pass.new.number pass.new.known ≡ calls_by pass.old.number pass.old.known }
        ensures desk { IsDesk F.value F.called self.now desk.new }
        ensures function { desk.new.function ≡ desk.old.function }
        ensures wants_memory { desk.new.wants_memory ≡ desk.old.wants_memory }
        ensures met { IsMet pass.new.known desk.new }
    {
        self.future.meet(rt, pass, &mut desk.pass);
    }

    // Whether the work is at its end: no piece is missing, and each was reported. What was reported then tiles the
    // indexes.
    fn has_ended(&self, board: &mut Board<F>) -> bool
        requires board { IsBoard F.value self.now board.old.tally board.old.pass board.old.all_reported }
        requires lawful { IsJournal self.now.future.terms board.old.pass.known }
        ensures same { board.new ≡ board.old }
        ensures ended { IsTrue result ↔ HasEnded board.old.tally (reporter self.now) board.old.pass.known }
        ensures tiles { IsTrue result → Tiles (ranges_by (reporter self.now) board.old.pass.known) self.now.counter.n }
        ensures claims { HasAll board.old.tally → KnowsClaims board.old.tally }
    {
        self.counter.end(&mut board.tally) && board.all_reported
    }
}

impl<'a, F: ItemFn + Drop, R: Fold, G: Gate> Engine<'a, F, R, G> {
    // Lets a pass that knows the whole journal meet that of a desk, gathers the desk's seat, and gives its function.
    fn bring_in<W: Wait>(
        &self,
        rt: &W,
        pass: &mut Pass<Bytes>,
        tally: &mut Tally,
        desk: Desk<F>,
    ) -> F
        requires pass { pass.old.of ≡ self.now.future }
        requires finished { IsTrue (flags_at pass.old.known).finished }
        requires tally { tally.old.of ≡ self.now.counter }
        requires desk { IsDesk F.value F.called self.now desk }
        ensures function { result ≡ desk.function }
        ensures pass { KnowsTheSame pass.old pass.new }
        ensures met { Meets desk.pass pass.old.known }
        ensures tally { tally.new ≡ with_seat desk.seat tally.old }
        ensures apart { IsGathered self.now.counter tally.new }
    {
        known_is_kept::<Bytes>();
        let Desk {
            seat,
            pass: mut own,
            function,
            next_size: _,
            badge: _,
            wants_memory: _,
        } = desk;
        self.future.meet(rt, pass, &mut own);
        tally.gather_seat(&self.counter, seat);
        function
    }

    // The same for all desks. False says that there was no room for all functions.
    fn bring_all<W: Wait>(
        &self,
        rt: &W,
        pass: &mut Pass<Bytes>,
        tally: &mut Tally,
        mut desks: Vec<Desk<F>>,
        functions: &mut Vec<F>,
    ) -> bool
        requires pass { (pass.old.of ≡ self.now.future) × IsTrue (flags_at pass.old.known).finished }
        requires tally { (tally.old.of ≡ self.now.counter) × IsGathered self.now.counter tally.old }
        requires desks { All (IsDesk F.value F.called self.now) desks.items }
        ensures pass { KnowsTheSame pass.old pass.new }
        ensures gathered { AreGathered pass.old.known tally.old tally.new desks.items }
        ensures apart { IsGathered self.now.counter tally.new }
        ensures functions { IsTrue result → functions.new.items ≡ functions.old.items ++ functions_at desks.items }
    {
        let mut has_room = true;
        while desks.len() > 0 {
            let function = self.bring_in(rt, pass, tally, desks.remove(0));
            keep(functions, &mut has_room, function);
        }
        has_room
    }

    // Works on with the first desk until nothing is left, and lets its pass meet those of the others.
    fn work_off<W: Wait>(&self, rt: &W, first: &mut Desk<F>, others: &mut Vec<Desk<F>>)
        requires first { IsDesk F.value F.called self.now first.old }
        requires out { first.old.badge.is_in ≡ false }
        requires others { All (IsDesk F.value F.called self.now) others.old.items }
        ensures first { IsDesk F.value F.called self.now first.new }
        ensures others { All (IsDesk F.value F.called self.now) others.new.items }
        ensures met { All (IsMet first.new.pass.known) others.new.items }
        ensures function { Continues F.value F.called first.old.function first.new.function }
        ensures functions { functions_at others.new.items ≡ functions_at others.old.items }
        ensures wants_memory { first.new.wants_memory ≡ false → first.old.wants_memory ≡ false }
        ensures want_memory { wants_at others.new.items ≡ wants_at others.old.items }
        ensures over { (self.now.counter.n ≤ first.new.seat.worker.seen) ⊎ HasMetEnd first.new.pass }
    {
        self.enter(first);
        self.work(rt, first);
        self.meet_each(rt, &mut first.pass, others);
    }

    // Finishes the future with the first desk's pass, gathers what all desks have, and asks whether the work is at its
    // end. The first desk's function comes last.
    fn settle<W: Wait>(
        &self,
        rt: &W,
        board: &mut Board<F>,
        first: Desk<F>,
        others: Vec<Desk<F>>,
        functions: &mut Vec<F>,
    ) -> Settled
        requires board { IsBoard F.value self.now board.old.tally board.old.pass board.old.all_reported }
        requires desks { IsDesk F.value F.called self.now first × All (IsDesk F.value F.called self.now) others.items }
        ensures board { IsBoard F.value self.now board.new.tally board.new.pass board.new.all_reported }
        ensures pass { (result.pass.of ≡ self.now.future) × IsTrue (flags_at result.pass.known).finished }
        ensures childless { result.pass.children ≡ 0 }
        ensures settled { AreSettled F.value self.now first others.items result.pass.known result.has_ended }
        ensures functions { IsTrue result.has_room → functions.new.items
            ≡ functions.old.items ++ functions_at (others.items ++ first ∷ []) }
    {
        known_is_kept::<Bytes>();
        let Desk {
            seat,
            mut pass,
            function,
            next_size: _,
            badge: _,
            wants_memory: _,
        } = first;
        self.future.finish(rt, &mut pass);
        self.future.meet(rt, &mut pass, &mut board.pass);
        board.tally.gather_seat(&self.counter, seat);
        let mut has_room = self.bring_all(rt, &mut pass, &mut board.tally, others, functions);
        keep(functions, &mut has_room, function);
        let has_ended = self.has_ended(board);
        Settled {
            pass,
            has_ended,
            has_room,
        }
    }

    /// Ends the work of all desks of the engine, whose workers are out: it works on with one of them until nothing is
    /// left, gathers all seats, and finishes the future. The functions come back in the order of their desks.
    ///
    /// Err is want of memory, in this call or in an earlier turn of a desk, and nothing else; the future is finished
    /// then too.
    pub fn finish<W: Wait>(
        &self,
        rt: &W,
        alloc: Global,
        mut desks: Vec<Desk<F>>,
    ) -> Result<Finished<F>, NoMemory>
        requires desks { AreDesks F.value F.called self.now desks.items }
        requires out { All (λ desk. desk.badge.is_in ≡ false) desks.items }
        ensures pass { IfOk result (λ done. (done.pass.of ≡ self.now.future)
            × IsTrue (flags_at done.pass.known).finished) }
        ensures childless { IfOk result (λ done. done.pass.children ≡ 0) }
        ensures memory { IfOk result (λ done. All (λ desk. desk.wants_memory ≡ false) desks.items) }
        ensures worked { IfOk result (λ done. IsWorkedOut (work_of F.value self.now) self.now.sizes
            self.now.kind self.now.future.terms done.pass.known done.calls) }
        ensures functions { IfOk result (λ done.
            AreContinued F.value F.called (functions_at desks.items) done.functions.items) }
        ensures calls { IfOk result (λ done. done.calls ≡ calls_of F.called done.functions.items) }
    {
        known_is_kept::<Bytes>();
        let _ = &self.workers;
        let mut first = desks.pop().unwrap();
        self.work_off(rt, &mut first, &mut desks);
        let had_memory = none_wants(&first, &desks);
        let (mut board, hold) = self.board.take(rt);
        let mut functions = Vec::new(alloc);
        let Settled {
            mut pass,
            has_ended,
            has_room,
        } = self.settle(rt, &mut board, first, desks, &mut functions);
        self.board.put(board, hold);
        if !had_memory {
            return Err(NoMemory);
        }
        if !has_room {
            return Err(NoMemory);
        }
        let calls = calls_of(alloc, &functions)?;
        // No answer is needed for work that isn't at its end, though nobody canceled it.
        let is_canceled = self.future.is_canceled(&mut pass);
        prove!(has_ended || is_canceled);
        Ok(Finished {
            pass,
            calls,
            functions,
        })
    }
}

// A pass that knows the finish; whether the work is at its end; and whether there was room for all functions.
#[derive(Drop)]
struct Settled {
    pass: Pass<Bytes>,
    has_ended: bool,
    has_room: bool,
}

// Keeps a function with the others, or says that there was no room for it.
fn keep<F: Drop>(functions: &mut Vec<F>, has_room: &mut bool, function: F)
    ensures { IsTrue has_room.new
        → IsTrue has_room.old × (functions.new.items ≡ functions.old.items ++ function ∷ []) }
{
    match functions.push(function) {
        Ok(()) => {}
        Err(_) => *has_room = false,
    }
}

// Whether no worker wanted memory.
fn none_wants<F>(first: &Desk<F>, others: &Vec<Desk<F>>) -> bool
    ensures first { IsTrue result → first.now.wants_memory ≡ false }
    ensures others { IsTrue result → All (λ desk. desk.wants_memory ≡ false) others.now.items }
{
    !first.wants_memory && others.iter().all(|desk| !desk.wants_memory)
}

// The calls of these functions, one after the other.
fn calls_of<F: ItemFn>(alloc: Global, functions: &Vec<F>) -> Result<List<u32>, NoMemory>
    ensures { IfOk result (λ calls. calls ≡ calls_of F.called functions.now.items) }
{
    let mut calls = Vec::new(alloc);
    for function in functions {
        calls.extend_from_slice(function.calls())?;
    }
    Ok(List::from_vec(calls))
}

/// What an engine has done: a pass that knows the whole journal of its future, which no later call changes; the indexes
/// that the functions were called on, worker by worker; and the functions, in the order of the desks.
#[derive(Drop)]
pub struct Finished<F> {
    pub pass: Pass<Bytes>,
    pub calls: List<u32>,
    pub functions: Vec<F>,
}
